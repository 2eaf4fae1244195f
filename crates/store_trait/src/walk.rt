//! A walk over a store's rows in the order of row ids, table by table. It takes no memory.

ghost use Rattle.std.specs.Prelude.{◌≤◌};
ghost use Rattle.store_trait.specs.Walk.{IsNextTable, IsFirstOf, IsFromTable, IsAhead, IsOfTables};

use crate::RowStore;
use rows::Row;
use schema::{RowId, Table};

/// The first row of these tables after the last one, or the first of all. The time is that of one look-up. At the end
/// of a table it is also that of a walk over the tables and of a look-up, again for each empty table that follows.
pub(crate) fn next_row<S: RowStore>(
    store: &S,
    tables: &[Table],
    last: Option<RowId>,
) -> Option<(RowId, Row)>
    requires { IsOfTables tables.now last }
    ensures { IsFirstOf (S.contents store.now) (IsAhead tables.now last) result }
{
    let Some(last) = last else {
        return first_row(store, tables, 0);
    };
    let table = last.table;
    match store.next_in_table(table, Some(last.key)) {
        Some((key, row)) => Some((RowId { table, key }, row)),
        None => first_row(store, tables, u32::from(table) + 1),
    }
}

/// The first row in those of these tables whose ids are at least `from`.
fn first_row<S: RowStore>(store: &S, tables: &[Table], mut from: u32) -> Option<(RowId, Row)>
    ensures { IsFirstOf (S.contents store.now) (IsFromTable tables.now from) result }
{
    while let Some(table) = next_table(tables, from) {
        if let Some((key, row)) = store.next_in_table(table, None) {
            return Some((RowId { table, key }, row));
        }
        from = u32::from(table) + 1;
    }
    None
}

/// The least id of these tables that is at least `from`.
fn next_table(tables: &[Table], from: u32) -> Option<u16>
    ensures { IsNextTable tables.now from result }
{
    tables
        .iter()
        .map(|t| t.id)
        .filter(|id| u32::from(*id) >= from)
        .min()
}
