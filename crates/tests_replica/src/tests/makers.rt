//! The schema, rows, changes, records and replicas of the tests.

ghost use Rattle.std.specs.Prelude.{◌≤◌};

use btree_store::BTreeStore;
use record_codec::{Flags, Record, Refs};
use replica_core::ReplicaCore;
use row_index::values_apart;
use rows::{Change, Named, Row};
use schema::{Memory, RowId, Schema, Table};
use std::alloc::Global;
use store_trait::{Batch, RowStore, are_of_tables, fits};
use tests_log::common::{record, record_of, source};
use tests_stores::common;

/// A row by its id, or that there is none.
pub type Entry = (RowId, Option<Row>);

pub type Replica = ReplicaCore<BTreeStore>;

/// The flags of a record that writes neither a table with kin nor a keyless one.
pub const PLAIN: Flags = Flags {
    fk: false,
    missing_keys: false,
};

/// The flags of a record that writes a table with kin.
pub const RELATED: Flags = Flags {
    fk: true,
    missing_keys: false,
};

/// A keyed table by itself.
pub fn table(id: u16, columns: u8) -> Table {
    Table::new(id, columns, true)
}

/// Table 1 of two columns, and table 2 of sixteen.
pub fn schema(alloc: Global) -> Result<Schema, Memory> {
    let tables = vec![in alloc; table(1, 2), table(2, 16)]?;
    Schema::new(tables).map_err(|_| Memory)
}

/// The same tables, but the one of sixteen columns is a child of the other: its column 0 names the parent row, and its
/// last column is unique.
pub fn family(alloc: Global) -> Result<Schema, Memory> {
    let child = table(2, 16).with_unique(15).child_of(0, 1);
    Schema::new(vec![in alloc; table(1, 2), child]?).map_err(|_| Memory)
}

/// The row of this key in the table of two columns.
pub fn id(key: i64) -> RowId {
    RowId { table: 1, key }
}

/// The row of this key in the table of sixteen columns.
pub fn wide_id(key: i64) -> RowId {
    RowId { table: 2, key }
}

/// A row of two columns.
pub fn row(first: i64, second: i64) -> Option<Row> {
    Row::new(&[first, second])
}

/// The insert of the row of this key as `[5, 6]`.
pub fn insert(key: i64) -> Result<Change, Memory> {
    common::insert(id(key), &[5, 6])
}

/// The record of this number that inserts the row of this key, without a parent.
pub fn insert_of(alloc: Global, gno: u64, key: i64) -> Result<Record, Memory> {
    record(alloc, gno, 0, insert(key)?)
}

/// This record, but with a ref to row 10.
pub fn referring(alloc: Global, new: Record) -> Result<Record, Memory> {
    let refs = Refs::from_rising(vec![in alloc; id(10)]?);
    Ok(Record { refs, ..new })
}

/// Record 1, which updates all columns of the rows 0 to 1023 of sixteen columns, each to its key plus `more`.
pub fn greatest(alloc: Global, more: i64) -> Result<Record, Memory> {
    let mut list = Vec::new(alloc);
    for key in 0..1024i64 {
        let columns = Named::new(u16::MAX, &[key.wrapping_add(more); 16]).ok_or(Memory)?;
        list.push(Change::Update {
            row: wide_id(key),
            columns,
        })?;
    }
    record_of(alloc, 1, 0, list)
}

/// The rows that `greatest` writes, with `wide` in all columns, or else with their keys; and 2048 rows of two columns.
pub fn rows_of_greatest(alloc: Global, wide: Option<i64>) -> Result<Batch, Memory> {
    let mut entries = Vec::new(alloc);
    for key in 0..2048 {
        entries.push((id(key), row(key, key)))?;
    }
    for key in 0..1024 {
        entries.push((wide_id(key), Row::new(&[wide.unwrap_or(key); 16])))?;
    }
    Batch::from_entries(entries).ok_or(Memory)
}

/// A new replica of these tables and rows, which commits in log order if `preserve` is set.
fn new_replica(
    alloc: Global,
    schema: Schema,
    store: BTreeStore,
    workers: usize,
    preserve: bool,
) -> Result<Box<Replica>, Memory>
    requires some { 1 ≤ workers }
    requires few { workers ≤ 64 }
{
    if fits(&schema, &store) {
        let core = ReplicaCore::new(alloc, schema, source(), store, workers, preserve)?;
        Ok(common::boxed(alloc, core)?)
    } else {
        Err(Memory)
    }
}

/// A new replica of these tables and of the rows of this batch, whether they fit or not, which commits in log order.
pub fn replica_loaded(
    alloc: Global,
    schema: Schema,
    base: &Batch,
    workers: usize,
) -> Result<Box<Replica>, Memory>
    requires some { 1 ≤ workers }
    requires few { workers ≤ 64 }
{
    let mut store = BTreeStore::new(alloc);
    store.put_all(base)?;
    if values_apart(alloc, &schema, base)? && are_of_tables(&schema, &store) {
        let core = ReplicaCore::new(alloc, schema, source(), store, workers, true)?;
        Ok(common::boxed(alloc, core)?)
    } else {
        Err(Memory)
    }
}

/// A new replica of these tables and rows, which commits in log order.
pub fn replica_over(
    alloc: Global,
    schema: Schema,
    store: BTreeStore,
    workers: usize,
) -> Result<Box<Replica>, Memory>
    requires some { 1 ≤ workers }
    requires few { workers ≤ 64 }
{
    new_replica(alloc, schema, store, workers, true)
}

/// Like `replica_over`, but of the tables of `schema`.
pub fn replica_of(alloc: Global, store: BTreeStore, workers: usize) -> Result<Box<Replica>, Memory>
    requires some { 1 ≤ workers }
    requires few { workers ≤ 64 }
{
    replica_over(alloc, schema(alloc)?, store, workers)
}

/// Like `replica_of`, but without rows.
pub fn replica(alloc: Global, workers: usize) -> Result<Box<Replica>, Memory>
    requires some { 1 ≤ workers }
    requires few { workers ≤ 64 }
{
    replica_of(alloc, BTreeStore::new(alloc), workers)
}

/// A new replica of these tables without rows, which commits in the order in which jobs finish.
pub fn unordered_over(alloc: Global, schema: Schema, workers: usize) -> Result<Box<Replica>, Memory>
    requires some { 1 ≤ workers }
    requires few { workers ≤ 64 }
{
    new_replica(alloc, schema, BTreeStore::new(alloc), workers, false)
}

/// Like `unordered_over`, but of the tables of `schema`.
pub fn unordered(alloc: Global, workers: usize) -> Result<Box<Replica>, Memory>
    requires some { 1 ≤ workers }
    requires few { workers ≤ 64 }
{
    unordered_over(alloc, schema(alloc)?, workers)
}
