//! The schema, rows, changes, batches and stores of the tests. If the columns of a row are not given, it has 16 columns
//! with one value.

ghost use Rattle.std.specs.Prelude.{◌≤◌, ◌<◌, length};

use btree_store::BTreeStore;
use rows::{Change, Named, Row};
use schema::{Memory, RowId, Schema, Table};
use std::alloc::Global;
use store_trait::{Batch, RowStore};

/// The id of a row, and the row, or `None` if it is not there.
pub type Entry = (RowId, Option<Row>);

/// A table of 16 columns. If it has a parent, the last column names the parent row.
pub fn table(id: u16, parent: Option<u16>) -> Table {
    let table = Table::new(id, 16, true);
    match parent {
        Some(parent) => table.child_of(15, parent),
        None => table,
    }
}

/// Four tables, listed out of order. Table 2 is a child of table 1.
pub fn four_tables(alloc: Global) -> Result<Schema, Memory> {
    four(alloc, table(1, None), table(2, Some(1)))
}

/// Like `four_tables`, but the first column of table 1 and the last one of its child are unique.
pub fn four_unique(alloc: Global) -> Result<Schema, Memory> {
    four(
        alloc,
        table(1, None).with_unique(0),
        table(2, Some(1)).with_unique(15),
    )
}

fn four(alloc: Global, first: Table, child: Table) -> Result<Schema, Memory> {
    let tables = [table(3, None), child, first, table(256, None)];
    Schema::new(Vec::from_slice(alloc, &tables)?).map_err(|_| Memory)
}

pub fn set(table: u16, key: i64, value: i64) -> Entry {
    given(table, key, &[value; 16])
}

/// The row with these columns.
pub fn given(table: u16, key: i64, columns: &[i64]) -> Entry {
    (RowId { table, key }, Row::new(columns))
}

pub fn removed(table: u16, key: i64) -> Entry {
    (RowId { table, key }, None)
}

pub fn insert(table: u16, key: i64, value: i64) -> Change {
    insert_of(table, key, &[value; 16])
}

/// The insert of the row with these columns.
pub fn insert_of(table: u16, key: i64, columns: &[i64]) -> Change
    requires some { 1 ≤ length columns.now }
    requires few { length columns.now ≤ 16 }
{
    let row = RowId { table, key };
    let values = Row::new(columns).unwrap();
    Change::Insert { row, values }
}

/// The update of one column.
pub fn update(table: u16, key: i64, column: u8, value: i64) -> Change
    requires { column < 16 }
{
    let row = RowId { table, key };
    let columns = Named::of(&[(column, value)]).unwrap();
    Change::Update { row, columns }
}

pub fn delete(table: u16, key: i64) -> Change {
    let row = RowId { table, key };
    Change::Delete { row }
}

pub fn batch(alloc: Global, entries: &[Entry]) -> Result<Batch, Memory> {
    Batch::from_entries(Vec::from_slice(alloc, entries)?).ok_or(Memory)
}

pub fn store(alloc: Global, entries: &[Entry]) -> Result<BTreeStore, Memory> {
    let mut store = BTreeStore::new(alloc);
    store.put_all(&batch(alloc, entries)?)?;
    Ok(store)
}

/// The rows of `keys` keys in each of these tables, in order. Half of the keys are below 0. Each column is the row's key.
pub fn many_rows(alloc: Global, tables: &[u16], keys: u16) -> Result<Batch, Memory> {
    let mut entries = Vec::new(alloc);
    let half = i64::from(keys) / 2;
    for table in tables {
        for key in -half..half {
            entries.push(set(*table, key, key))?;
        }
    }
    Batch::from_entries(entries).ok_or(Memory)
}

pub fn same_rows(one: &Batch, other: &Batch) -> bool {
    one.entries() == other.entries()
}
