//! The place of a row among rows in the order of their ids. Nothing here takes memory.

ghost use Rattle.std.specs.Prelude.{◌≡◌, ◌≤◌, length};
ghost use Rattle.std.specs.FinMap.{get as row_of};
ghost use Rattle.store_trait.specs.Contents.{IsNextInTable};
ghost use Rattle.vector_store.specs.Contents.{contents_of, AreInOrder};
ghost use Rattle.vector_store.specs.Places.{IsPlaceOf, IsWindowOf, is_passed, IsPassedUpTo};

use crate::KeyedRow;
use rows::Row;
use schema::RowId;

/// The row, if it is there.
pub(crate) fn row_at(rows: &[KeyedRow], id: RowId) -> Option<Row>
    requires { AreInOrder rows.now }
    ensures { result ≡ row_of (contents_of rows.now) id }
{
    match place_of(rows, id) {
        Ok(place) => Some(rows[place].1),
        Err(_) => None,
    }
}

/// The place of the row, or the place that it would have. The time is logarithmic in the number of rows.
fn place_of(rows: &[KeyedRow], id: RowId) -> Result<usize, usize>
    requires { AreInOrder rows.now }
    ensures { IsPlaceOf rows.now id result }
{
    rows.binary_search_by_key(&id, |row| row.0)
}

/// The place of the row, or the place that it would have. The time is logarithmic in its distance from the end.
pub(crate) fn place_near_end(rows: &[KeyedRow], id: RowId) -> Result<usize, usize>
    requires { AreInOrder rows.now }
    ensures { IsPlaceOf rows.now id result }
{
    let (low, high) = window_near_end(rows, id);
    match place_of(&rows[low..high], id) {
        Ok(place) => Ok(low + place),
        Err(place) => Err(low + place),
    }
}

/// Two places: all rows before the first have lower ids, and all rows from the second on have greater ids. The distance
/// from the end is doubled until the first is found.
fn window_near_end(rows: &[KeyedRow], id: RowId) -> (usize, usize)
    requires { AreInOrder rows.now }
    ensures { IsWindowOf rows.now id result.0 result.1 }
{
    let mut low = rows.len();
    let mut high = low;
    while low > 0 && rows[low - 1].0 >= id {
        high = low;
        low = low.saturating_sub(rows.len() - low + 1);
    }
    (low, high)
}

/// The row with the least key, of the table's rows above the given key, or of all of them without one.
pub(crate) fn next_row(rows: &[KeyedRow], table: u16, above: Option<i64>) -> Option<(i64, Row)>
    requires { AreInOrder rows.now }
    ensures { IsNextInTable (contents_of rows.now) table above result }
{
    let (id, row) = rows.get(passed_rows(rows, table, above))?;
    if id.table == table {
        Some((id.key, *row))
    } else {
        None
    }
}

/// How many rows come before all rows of the table whose keys are above the key.
fn passed_rows(rows: &[KeyedRow], table: u16, above: Option<i64>) -> usize
    requires { AreInOrder rows.now }
    ensures within { result ≤ length rows.now }
    ensures passed { IsPassedUpTo rows.now table above result }
{
    rows.partition_point(|row| is_passed(row.0, table, above))
}

/// Whether the row comes before all rows of the table whose keys are above the key.
fn is_passed(id: RowId, table: u16, above: Option<i64>) -> bool
    ensures { result ≡ is_passed table above id }
{
    id.table < table || (id.table == table && above.is_some_and(|key| id.key <= key))
}
