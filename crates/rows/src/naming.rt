//! Named columns and their values: what an update writes.

ghost use Rattle.std.specs.Prelude.{◌≡◌, ◌≤◌, count_ones, length, IsTrue, SomeIff, if◌then◌else◌};
ghost use Rattle.rows.specs.Naming.{names_column, rise_from, naming_from, assigned, assigned_from};

use crate::Row;
use std::marker::Model;

/// The columns that an update names, as the bits of a mask, with a value for each: at least one of the columns 0 to 15.
#[derive(Clone, Copy, Debug, PartialEq, Eq)]
pub struct Named {
    mask: u16,
    values: [i64; 16],
}

impl Model for Named {
    ghost use Rattle.rows.specs.Naming.{NamedColumns};

    ghost Value = { NamedColumns };

    ghost use Rattle.rows.specs.Row.{padded};
    ghost use Rattle.rows.specs.Named.{naming_of, IsNamed, named_again};

    ghost view = { naming_of };

    ghost invariant = { IsNamed };

    ghost inverse = { λ named. record { mask = named.mask; values = padded named.values } };

    ghost inverse_ok = { named_again };
}

impl Named {
    /// These columns with these values. Bit c of the mask names column c, and the value of the lowest column comes
    /// first. `None` if no column is named, or if there is not one value for each named column. It takes no memory.
    pub fn new(mask: u16, values: &[i64]) -> Option<Named>
        ensures { SomeIff result ((1 ≤ mask) × (length values.now ≡ count_ones mask)) (record { mask = mask; values = values.now }) }
    {
        if mask == 0 || values.len() != mask.count_ones() as usize {
            return None;
        }
        let mut all = [0; 16];
        all[..values.len()].copy_from_slice(values);
        Some(Named { mask, values: all })
    }

    /// These columns with these values; `None` if there are none, if a column is over 15, or if the columns do not
    /// strictly rise. It takes no memory.
    pub fn of(pairs: &[(u8, i64)]) -> Option<Named>
        ensures { SomeIff result ((1 ≤ length pairs.now) × IsTrue (rise_from 0 pairs.now)) (naming_from pairs.now) }
    {
        let mut mask = 0;
        let mut values = [0; 16];
        let mut least = 0;
        for (i, pair) in pairs.iter().enumerate() {
            if pair.0 < least || pair.0 > 15 {
                return None;
            }
            mask += 1 << pair.0;
            values[i] = pair.1;
            least = pair.0 + 1;
        }
        Named::new(mask, &values[..pairs.len()])
    }

    /// The mask: bit c is set if column c is named.
    pub fn mask(&self) -> u16
        ensures value { result ≡ self.now.mask }
        ensures some { 1 ≤ result }
    {
        self.mask
    }

    /// The values, that of the lowest column first: one for each bit of the mask, so at most 16.
    pub fn values(&self) -> &[i64]
        ensures value { result.now ≡ self.now.values }
        ensures each { length result.now ≡ count_ones self.now.mask }
        ensures few { length result.now ≤ 16 }
    {
        &self.values[..self.mask.count_ones() as usize]
    }

    /// Whether the column is named.
    pub fn names(&self, column: u8) -> bool
        ensures { result ≡ names_column self.now.mask column }
    {
        column < 16 && self.mask >> column & 1 == 1
    }

    /// The row with the named columns replaced; `None` if it does not have all of them.
    pub(crate) fn assigned(&self, row: &Row) -> Option<Row>
        ensures { result ≡ assigned self.now row.now }
    {
        let mut values = row.values;
        if assign(self.mask, self.values(), &mut values[..row.len as usize]) {
            Some(Row {
                len: row.len,
                values,
            })
        } else {
            None
        }
    }
}

// Replaces the named columns, and returns whether all of them were there.
fn assign(mask: u16, values: &[i64], columns: &mut [i64]) -> bool
    requires { count_ones mask ≤ length values.now }
    ensures { (if result then Some columns.new else None) ≡ assigned_from mask values.now columns.old }
{
    let mut rest = mask;
    let mut used = 0;
    for column in columns.iter_mut() {
        if rest % 2 == 1 {
            *column = values[used];
            used += 1;
        }
        rest /= 2;
    }
    rest == 0
}
