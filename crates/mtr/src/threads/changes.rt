//! What each session writes, and what its rows are in the end.
//!
//! Each session has separate rows. Its transaction j inserts row j and, from the second on, sets column 1 of row j - 1
//! to j. So no two sessions hold the same row, and each transaction but a session's first depends on the one before it.

ghost use Rattle.std.specs.Prelude.{◌≡◌, ◌<◌, ◌≤◌, [], ◌∷◌, pos};
ghost use Rattle.mtr.specs.Threads.{row_of, inserted, set_before, row_left};

use rows::{Change, Named, Row};
use schema::RowId;

/// The table of all rows, of two columns.
pub const TABLE: u16 = 1;

/// The row of a session's transaction.
pub fn row_of(session: u16, transaction: u16) -> RowId
    ensures { result ≡ row_of session transaction }
{
    RowId {
        table: TABLE,
        key: 65536 * i64::from(session) + i64::from(transaction),
    }
}

/// The insert of a session's transaction.
pub fn inserted(session: u16, transaction: u16) -> Change
    ensures { result ≡ inserted session transaction }
{
    Change::Insert {
        row: row_of(session, transaction),
        values: columns(session, transaction),
    }
}

/// The update, by a session's transaction, of the row of its transaction before.
pub fn set_before(session: u16, transaction: u16) -> Change
    requires { 1 < transaction }
    ensures { result ≡ set_before session transaction }
{
    Change::Update {
        row: row_of(session, transaction - 1),
        columns: column_one(transaction),
    }
}

/// The row of a session's transaction in the end, if the session has this number of transactions.
pub fn row_left(session: u16, transaction: u16, transactions: u16) -> Row
    ensures { result ≡ row_left session transaction transactions }
{
    if transaction < transactions {
        columns(session, transaction + 1)
    } else {
        columns(session, transaction)
    }
}

/// A row of two columns.
fn columns(first: u16, second: u16) -> Row
    ensures { result ≡ pos first ∷ pos second ∷ [] }
{
    Row::new(&[i64::from(first), i64::from(second)]).unwrap()
}

/// Column 1 with this value.
fn column_one(value: u16) -> Named
    ensures { result ≡ record { mask = 2; values = pos value ∷ [] } }
{
    Named::of(&[(1, i64::from(value))]).unwrap()
}
