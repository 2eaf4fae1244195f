//! Rows, changes, and what a change does to a database.
//!
//! A `Row` has 1 to 16 columns in a fixed array, so copying one takes no memory. A `Change` is what a session writes:
//! an insert of a row, an update of its `Named` columns, or a delete. `apply_one` gives what a change leaves of its
//! row. `parent_of` is the parent that a row names, and `mark_of` its value in the unique column of its table. A `Step`
//! is what a change does to its row: the row that it leaves, the parents that the row names before and after it, and
//! the values that the change takes from the row and gives it.
//!
//! `specs/Database.antt` says, by the steps of the changes, what a list of changes does to a whole database. It defines
//! which rows they write, which parent rows they refer to, and which values of unique columns they give up or take; the
//! layers above use these words. `specs/Given.antt` has what changes give their rows, whatever the rows are, and
//! `specs/Holders.antt` which row has a value. `laws` states what follows from the definitions.
#![tactic(auto)]

ghost use Rattle.std.specs.Prelude.{◌≡◌, ◌≤◌, length, SomeIff, option_copied};
ghost use Rattle.rows.specs.Change.{changed};
ghost use Rattle.rows.specs.Step.{target, mark_of};

pub mod laws;
mod naming;
mod shape;
mod step;

pub use naming::Named;
use schema::{Mark, RowId, Schema};
pub use shape::{has_columns, is_shaped};
use std::marker::Model;
pub use step::{Step, parent_of, step_from};
use thiserror::Error;

/// The columns of one row: 1 to 16 numbers, the first of them column 0.
#[derive(Clone, Copy, Debug, PartialEq, Eq)]
pub struct Row {
    len: u8,
    values: [i64; 16],
}

impl Model for Row {
    ghost use Rattle.std.specs.Prelude.{List, ℤ, length};

    ghost Value = { List ℤ };

    ghost use Rattle.rows.specs.Row.{columns_of, IsRow, padded, padded_again};

    ghost view = { columns_of };

    ghost invariant = { IsRow };

    ghost inverse = { λ columns. record { len = length columns; values = padded columns } };

    ghost inverse_ok = { padded_again };
}

impl Row {
    /// A row of these columns; `None` if there are none or more than 16. It takes no memory.
    pub fn new(columns: &[i64]) -> Option<Row>
        ensures { SomeIff result ((1 ≤ length columns.now) × (length columns.now ≤ 16)) columns.now }
    {
        if columns.is_empty() || columns.len() > 16 {
            return None;
        }
        let mut values = [0; 16];
        values[..columns.len()].copy_from_slice(columns);
        Some(Row {
            len: columns.len() as u8,
            values,
        })
    }

    /// The columns in order, column 0 first.
    pub fn columns(&self) -> &[i64]
        ensures value { result.now ≡ self.now }
        ensures some { 1 ≤ length result.now }
        ensures few { length result.now ≤ 16 }
    {
        &self.values[..self.len as usize]
    }
}

/// What a session writes to one row. A row's key never changes.
#[derive(Clone, Copy, Debug, PartialEq, Eq)]
pub enum Change {
    /// The row was absent. Now it is there, with these columns.
    Insert { row: RowId, values: Row },
    /// The row was there. It gets other values in these columns, and keeps the others.
    Update { row: RowId, columns: Named },
    /// The row was there. Now it is absent.
    Delete { row: RowId },
}

impl Change {
    /// The row that the change writes.
    pub fn target(&self) -> RowId
        ensures { result ≡ target self.now }
    {
        match self {
            Change::Insert { row, .. } | Change::Update { row, .. } | Change::Delete { row } =>
                *row,
        }
    }
}

/// Why a change does not fit the row that it writes. The text is the fault's number and name.
#[derive(Clone, Copy, Debug, PartialEq, Eq, Error)]
pub enum ChangeFault {
    /// An insert of a row that is there.
    #[error("F1 Present")]
    Present,
    /// An update or delete of a row that is not there.
    #[error("F2 Absent")]
    Absent,
    /// A column that the row does not have.
    #[error("F3 Columns")]
    Columns,
}

/// The mark of a row of the table that has these columns: its value in the unique column, if the table has one. It
/// takes no memory, and the time of a walk over the tables.
pub fn mark_of(schema: &Schema, table: u16, columns: &[i64]) -> Option<Mark>
    ensures { result ≡ mark_of schema.now table columns.now }
{
    let column = schema.unique_of(table)?;
    let value = *columns.get(usize::from(column))?;
    Some(Mark::new(table, value))
}

/// The row after the change, given the row before it; `None` means that the row is not there. An update of a column
/// that the row does not have is refused with `Columns`. It takes no memory and at most one pass over the columns.
pub fn apply_one(change: &Change, before: Option<&Row>) -> Result<Option<Row>, ChangeFault>
    ensures { result ≡ changed change.now (option_copied before.entry) }
{
    match (change, before) {
        (Change::Insert { values, .. }, None) => Ok(Some(*values)),
        (Change::Insert { .. }, Some(_)) => Err(ChangeFault::Present),
        (_, None) => Err(ChangeFault::Absent),
        (Change::Update { columns, .. }, Some(row)) => {
            let left = columns.assigned(row).ok_or(ChangeFault::Columns)?;
            Ok(Some(left))
        }
        (Change::Delete { .. }, Some(_)) => Ok(None),
    }
}
