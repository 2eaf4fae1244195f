//! The tables and the rows of the start, which are not in the log: what happens if they are not those that it was written over.

use btree_store::BTreeStore;
use record_codec::Record;
use recovery::{RecoveryFault, replay};
use relay::ReplicaFault;
use rows::Row;
use schema::{Memory, Schema, Table};
use std::alloc::Global;
use std::process::Abort;
use std::test::Fail;
use store_trait::{Batch, RowStore};
use tests_log::common::record;
use tests_stores::again;
use tests_stores::common::{insert, row, update};

/// The tables: 1, of one column, and 2, of two.
#[derive(Clone, Copy, Debug)]
enum Tables {
    /// Those that the log was written over.
    Same,
    /// One more table.
    TableMore,
    /// Table 2 is a child of table 1, by its column 0.
    Child,
    /// Table 2 has one more column.
    ColumnMore,
}

/// The rows at the start.
#[derive(Clone, Copy, Debug)]
enum Start {
    /// Those that the log was written over: row 1 of table 2.
    Same,
    /// One more row, which no record touches.
    RowMore,
    /// Another value in a column that no record looks at.
    OtherValue,
    /// Another row instead of it.
    OtherRow,
    /// That row, and its parent.
    WithParent,
    /// One more column in that row.
    Wider,
}

fn schema_of(alloc: Global, tables: Tables) -> Result<Schema, Memory> {
    let first = Table::new(1, 1, true);
    let second = match tables {
        Tables::Child => Table::new(2, 2, true).child_of(0, 1),
        Tables::ColumnMore => Table::new(2, 3, true),
        Tables::Same | Tables::TableMore => Table::new(2, 2, true),
    };
    let list = match tables {
        Tables::TableMore => vec![in alloc; first, second, Table::new(3, 4, true)]?,
        _ => vec![in alloc; first, second]?,
    };
    Schema::new(list).map_err(|_| Memory)
}

fn store_of(alloc: Global, start: Start) -> Result<BTreeStore, Memory> {
    let same = (row(2, 1), Row::new(&[5, 6]));
    let rows = match start {
        Start::Same => vec![in alloc; same]?,
        Start::RowMore => vec![in alloc; same, (row(2, 77), Row::new(&[0, 0]))]?,
        Start::OtherValue => vec![in alloc; (row(2, 1), Row::new(&[5, 1000]))]?,
        Start::OtherRow => vec![in alloc; (row(2, 3), Row::new(&[5, 6]))]?,
        Start::WithParent => vec![in alloc; (row(1, 5), Row::new(&[0])), same]?,
        Start::Wider => vec![in alloc; (row(2, 1), Row::new(&[5, 6, 0]))]?,
    };
    let mut store = BTreeStore::new(alloc);
    store.put_all(&Batch::from_entries(rows).ok_or(Memory)?)?;
    Ok(store)
}

/// Two records: the first one changes the row of the start, and the second one inserts another row.
fn two(alloc: Global) -> Result<Vec<Record>, Memory> {
    Ok(vec![in alloc;
        record(alloc, 1, 0, update(row(2, 1), 0, 9)?)?,
        record(alloc, 2, 1, insert(row(2, 2), &[1, 1])?)?,
    ]?)
}

/// Why the log can't go on over these rows, or `None` if it can.
fn why(
    alloc: Global,
    tables: Tables,
    start: Start,
    log: &[Record],
) -> Result<Option<RecoveryFault>, Memory> {
    let (schema, store) = (schema_of(alloc, tables)?, store_of(alloc, start)?);
    match replay(alloc, schema, store, log, 100) {
        Ok(_) => Ok(None),
        Err(RecoveryFault::Memory) => Err(Memory),
        Err(fault) => Ok(Some(fault)),
    }
}

/// What comes of these tables and rows: `want`.
fn comes(
    rt: &(impl Abort + AllocGlobal),
    tables: Tables,
    start: Start,
    log: &[Record],
    want: Option<RecoveryFault>,
) -> Result<(), Fail> {
    let found = again!(why(rt.alloc(), tables, start, log))?;
    assert_eq!(rt; found, want);
    Ok(())
}

/// Catches a replay that refuses rows at which no record looks, since a log does not know them, and one that takes
/// another row for the one that a record changes.
#[test]
fn other_rows_are_told_if_a_record_looks_again(rt: HostRuntime) -> Result<(), Fail> {
    let log = again!(two(rt.alloc()))?;
    for start in [Start::Same, Start::RowMore, Start::OtherValue] {
        comes(&rt, Tables::Same, start, &log, None)?;
    }
    let stops = RecoveryFault::Refused(1, ReplicaFault::Stopped(1));
    comes(&rt, Tables::Same, Start::OtherRow, &log, Some(stops))
}

/// Catches a replay that checks a table without rows, at which no record looks.
#[test]
fn a_table_more_changes_nothing_again(rt: HostRuntime) -> Result<(), Fail> {
    let log = again!(two(rt.alloc()))?;
    comes(&rt, Tables::TableMore, Start::Same, &log, None)
}

/// Catches records that name no parents, if they are taken over tables that have parents.
#[test]
fn a_parent_column_more_is_malformed_again(rt: HostRuntime) -> Result<(), Fail> {
    let log = again!(two(rt.alloc()))?;
    let bad = RecoveryFault::Refused(1, ReplicaFault::Malformed);
    comes(&rt, Tables::Child, Start::WithParent, &log, Some(bad))?;
    let lacking = Some(RecoveryFault::Misfit);
    comes(&rt, Tables::Child, Start::Same, &log, lacking)?;
    comes(&rt, Tables::Child, Start::WithParent, &[], None)
}

/// Catches rows of another width that are taken, at the start or from a record.
#[test]
fn a_column_more_is_told_again(rt: HostRuntime) -> Result<(), Fail> {
    let log = again!(two(rt.alloc()))?;
    let misfit = Some(RecoveryFault::Misfit);
    comes(&rt, Tables::ColumnMore, Start::Same, &log, misfit)?;
    let bad = RecoveryFault::Refused(2, ReplicaFault::Malformed);
    comes(&rt, Tables::ColumnMore, Start::Wider, &log, Some(bad))?;
    comes(&rt, Tables::ColumnMore, Start::Wider, &[], None)
}
