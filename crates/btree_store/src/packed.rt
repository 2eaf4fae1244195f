//! A row as wide as its table.

ghost use Rattle.std.specs.Prelude.{◌≡◌, IfOk};

use rows::Row;
use schema::Memory;
use smallvec::SmallVec;
use std::alloc::Global;
use std::marker::Model;

/// The columns of a row: up to two in the value itself, more in separate memory. A `Row` always has room for sixteen.
#[derive(Debug, Drop)]
pub(crate) struct Packed {
    columns: SmallVec<i64, 2>,
}

impl Model for Packed {
    ghost use Rattle.std.specs.Prelude.{ℤ, List, ◌≤◌, length};

    ghost Value = { List ℤ };

    ghost view = { λ p. p.columns.items };

    ghost invariant = { λ p. (1 ≤ length p.columns.items) × (length p.columns.items ≤ 16) };
}

impl Packed {
    /// The row, packed. A row of one or two columns takes no memory.
    pub(crate) fn of(alloc: Global, row: Row) -> Result<Packed, Memory>
        ensures { IfOk result (λ packed. packed ≡ row) }
    {
        Ok(Packed {
            columns: SmallVec::from_slice(alloc, row.columns())?,
        })
    }

    /// The row. It takes no memory.
    pub(crate) fn row(&self) -> Row
        ensures { result ≡ self.now }
    {
        Row::new(self.columns.as_slice()).unwrap()
    }
}
