//! What several test crates make: rows, changes, tables, the text of a fault, and a call's second try.

ghost use Rattle.std.specs.Prelude.{◌≡◌, IfOk};

use rows::{Change, Named, Row};
use schema::{Memory, RowId, Schema, Table};
use std::alloc::{AllocError, Global};
use std::fmt::Display;

/// What the call returns. If it is refused, and for this reason if one is given, what its second try returns.
#[macro_export]
macro_rules! again {
    ($call:expr) => {
        match $call {
            Err(_) => $call,
            done => done,
        }
    };
    ($reason:pat => $call:expr) => {
        match $call {
            Err($reason) => $call,
            done => done,
        }
    };
}

/// The value in a box. If memory runs out, the request is made once more. To drop a box is one call, which is proved
/// once; a big value is walked through at each way out of the test that owns it.
pub fn boxed<T: Drop>(alloc: Global, value: T) -> Result<Box<T>, AllocError>
    ensures { IfOk result (λ made. made.value ≡ value) }
{
    match Box::new(alloc, value) {
        Ok(made) => Ok(made),
        Err(refused) => Ok(Box::new(alloc, refused.value)?),
    }
}

/// The id of the row with this key in this table.
pub fn row(table: u16, key: i64) -> RowId {
    RowId { table, key }
}

/// The insert of the row with these columns.
pub fn insert(row: RowId, columns: &[i64]) -> Result<Change, Memory> {
    Ok(Change::Insert {
        row,
        values: Row::new(columns).ok_or(Memory)?,
    })
}

/// The update of one column of the row.
pub fn update(row: RowId, column: u8, value: i64) -> Result<Change, Memory> {
    Ok(Change::Update {
        row,
        columns: Named::of(&[(column, value)]).ok_or(Memory)?,
    })
}

/// Tables 1 and 2 have no kin, table 3 is the parent of 4, and 5 is keyless. Each has two columns.
pub fn five_tables(alloc: Global) -> Result<Schema, Memory> {
    let tables = vec![in alloc;
        Table::new(1, 2, true),
        Table::new(2, 2, true),
        Table::new(3, 2, true),
        Table::new(4, 2, true).child_of(0, 3),
        Table::new(5, 2, false),
    ]?;
    Schema::new(tables).map_err(|_| Memory)
}

/// Table 1 has one column and table 2 has two; in each the last one is unique. Table 3 has no unique column, and is the
/// parent of table 4, whose second of two columns is unique.
pub fn unique_tables(alloc: Global) -> Result<Schema, Memory> {
    let tables = vec![in alloc;
        Table::new(1, 1, true).with_unique(0),
        Table::new(2, 2, true).with_unique(1),
        Table::new(3, 1, true),
        Table::new(4, 2, true).with_unique(1).child_of(0, 3),
    ]?;
    Schema::new(tables).map_err(|_| Memory)
}

/// Whether this is the fault's text.
pub fn is_told(alloc: Global, fault: &impl Display, text: &str) -> Result<bool, AllocError> {
    Ok(format!(in alloc; "{fault}")?.as_str() == text)
}
