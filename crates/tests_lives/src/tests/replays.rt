//! Logs that are replayed: which of them goes on, with which parents, and which record of the others is reported.

ghost use Rattle.std.specs.Prelude.{◌<◌, ◌^◌};

use super::trackers::Fresh;
use btree_store::BTreeStore;
use commit_order_tracker::CommitOrder;
use record_codec::{Flags, Record, Refs};
use recovery::{RecoveredLog, RecoveryFault, replay};
use relay::ReplicaFault;
use rows::{Change, Row};
use schema::{Memory, Schema, Table};
use source_core::{SourceCore, SourceFault};
use std::alloc::Global;
use std::process::Abort;
use std::test::Fail;
use store_trait::{Batch, RowStore};
use tests_log::common::{marks_of, record};
use tests_stores::again;
use tests_stores::common::{boxed, insert, is_told, row, unique_tables, update};
use tracker_trait::Resumable;
use writeset_trackers::{WriteSetSession, WriteSetTracker};

/// The flags of a record that writes a row of a child table, or of its parent.
const RELATED: Flags = Flags {
    fk: true,
    missing_keys: false,
};

/// The rows at the start.
#[derive(Clone, Copy, Debug)]
enum Start {
    /// Row 1 of table 3, which is the parent of table 4.
    Parent,
    /// Also row 10 of table 2, which record 2 inserts.
    OneMore,
    /// A row of table 4 without its parent.
    Misfit,
}

fn store_of(alloc: Global, start: Start) -> Result<BTreeStore, Memory> {
    let parent = (row(3, 1), Row::new(&[7]));
    let rows = match start {
        Start::Parent => vec![in alloc; parent]?,
        Start::OneMore => vec![in alloc; (row(2, 10), Row::new(&[4, 4])), parent]?,
        Start::Misfit => vec![in alloc; (row(4, 9), Row::new(&[1, 5]))]?,
    };
    let mut store = BTreeStore::new(alloc);
    store.put_all(&Batch::from_entries(rows).ok_or(Memory)?)?;
    Ok(store)
}

/// The record that inserts child 9 of row 1 of table 3.
fn child(alloc: Global, gno: u64, parent: u64) -> Result<Record, Memory> {
    let plain = record(alloc, gno, parent, insert(row(4, 9), &[1, 5])?)?;
    Ok(Record {
        flags: RELATED,
        refs: Refs::from_rising(vec![in alloc; row(3, 1)]?),
        marks: marks_of(alloc, &[(4, 5)])?,
        ..plain
    })
}

/// The record that inserts row 10 of table 2.
fn other(alloc: Global, gno: u64, parent: u64) -> Result<Record, Memory> {
    let plain = record(alloc, gno, parent, insert(row(2, 10), &[1, 6])?)?;
    let marks = marks_of(alloc, &[(2, 6)])?;
    Ok(Record { marks, ..plain })
}

/// The record that sets a column of that row.
fn sets(alloc: Global, gno: u64, parent: u64) -> Result<Record, Memory> {
    record(alloc, gno, parent, update(row(2, 10), 0, 2)?)
}

/// The record that deletes row 1 of table 3, or inserts it again.
fn of_parent(alloc: Global, gno: u64, parent: u64, deletes: bool) -> Result<Record, Memory> {
    let there = row(3, 1);
    let change = if deletes {
        Change::Delete { row: there }
    } else {
        insert(there, &[8])?
    };
    let plain = record(alloc, gno, parent, change)?;
    Ok(Record {
        flags: RELATED,
        ..plain
    })
}

/// Three records that a source wrote.
fn three(alloc: Global) -> Result<Vec<Record>, Memory> {
    Ok(vec![in alloc;
        child(alloc, 1, 0)?,
        other(alloc, 2, 1)?,
        sets(alloc, 3, 2)?,
    ]?)
}

fn replayed(
    alloc: Global,
    start: Start,
    log: &[Record],
    most: u64,
) -> Result<Box<RecoveredLog<BTreeStore>>, RecoveryFault>
    requires { most < 2 ^ 63 }
{
    let schema = unique_tables(alloc)?;
    let store = store_of(alloc, start)?;
    let found = replay(alloc, schema, store, log, most)?;
    Ok(boxed(alloc, found).map_err(Memory::from)?)
}

/// Catches a replay that keeps other rows or records than the log's.
#[test]
fn three_records_are_replayed_again(rt: HostRuntime) -> Result<(), Fail> {
    let log = again!(three(rt.alloc()))?;
    let found = again!(replayed(rt.alloc(), Start::Parent, &log, 3))?;
    assert_eq!(rt; found.records().len(), 3);
    let store = found.store();
    assert_eq!(rt; store.len(), 3);
    assert_eq!(rt; store.get(row(3, 1)), Row::new(&[7]));
    assert_eq!(rt; store.get(row(4, 9)), Row::new(&[1, 5]));
    assert_eq!(rt; store.get(row(2, 10)), Row::new(&[2, 6]));
    Ok(())
}

type Source<T> = SourceCore<BTreeStore, T>;

/// A source that goes on after the three records.
fn goes_on<T: Fresh + Resumable + Drop>(
    alloc: Global,
    log: &[Record],
) -> Result<Box<Source<T>>, RecoveryFault> {
    let found = replay(
        alloc,
        unique_tables(alloc)?,
        store_of(alloc, Start::Parent)?,
        log,
        256,
    )?;
    let core = found.resume(alloc, T::fresh(alloc)?, 256)?;
    Ok(boxed(alloc, core).map_err(Memory::from)?)
}

fn queues<T: Resumable>(
    source: &mut Source<T>,
    session: u16,
    change: Change,
) -> Result<(), SourceFault> {
    source.begin(session)?;
    again!(source.write(session, change))?;
    source.prepare(session)?;
    source.queue(session)
}

/// The next two records have these parents: one changes a row that record 2 wrote, and one inserts a new row.
fn next_parents<T: Fresh + Resumable + Drop>(
    rt: &(impl Abort + AllocGlobal),
    parents: [u64; 2],
) -> Result<(), Fail> {
    let log = again!(three(rt.alloc()))?;
    let mut source = again!(goes_on::<T>(rt.alloc(), &log))?;
    queues(&mut source, 1, update(row(2, 10), 0, 3)?)?;
    queues(&mut source, 2, insert(row(1, 8), &[4])?)?;
    let group = again!(source.flush())?;
    assert!(rt; group.is_some());
    let [_, _, _, fourth, fifth] = source.log() else {
        panic!(rt; "not five records");
    };
    assert_eq!(rt; (fourth.gno, fourth.parent), (4, parents[0]));
    assert_eq!(rt; (fifth.gno, fifth.parent), (5, parents[1]));
    Ok(())
}

/// Catches a log that is not counted as committed.
#[test]
fn goes_on_by_commit_order_again(rt: HostRuntime) -> Result<(), Fail> {
    next_parents::<CommitOrder>(&rt, [3, 3])
}

/// Catches a tracker that does not see the log, or that takes over the parents of another tracker from it.
#[test]
fn goes_on_by_rows_again(rt: HostRuntime) -> Result<(), Fail> {
    next_parents::<WriteSetTracker>(&rt, [3, 1])
}

/// Catches a session that waits for a record that the session of this number wrote before the restart.
#[test]
fn goes_on_by_session_again(rt: HostRuntime) -> Result<(), Fail> {
    next_parents::<WriteSetSession>(&rt, [3, 1])
}

/// The log is refused over these rows, with this fault and text.
fn refused(
    rt: &(impl Abort + AllocGlobal),
    start: Start,
    log: &[Record],
    most: u64,
    want: RecoveryFault,
    text: &str,
) -> Result<(), Fail>
    requires { most < 2 ^ 63 }
{
    match again!(RecoveryFault::Memory => replayed(rt.alloc(), start, log, most)) {
        Ok(_) => panic!(rt; "not refused"),
        Err(fault) => assert_eq!(rt; fault, want),
    }
    assert!(rt; again!(is_told(rt.alloc(), &want, text))?);
    Ok(())
}

/// Catches a check that comes too late: the length is checked before the rows, and both before a record.
#[test]
fn length_and_rows_come_first_again(rt: HostRuntime) -> Result<(), Fail> {
    let log = again!(three(rt.alloc()))?;
    let long = RecoveryFault::Exhausted;
    refused(&rt, Start::Misfit, &log, 2, long, "E1 Exhausted")?;
    let misfit = RecoveryFault::Misfit;
    refused(&rt, Start::Misfit, &log, 3, misfit, "E2 Misfit")?;
    refused(&rt, Start::Misfit, &[], 3, misfit, "E2 Misfit")
}

/// Catches a replay over other rows than the log was written over, if a record looks at one of them.
#[test]
fn a_row_is_there_that_a_record_inserts_again(rt: HostRuntime) -> Result<(), Fail> {
    let log = again!(three(rt.alloc()))?;
    let stops = RecoveryFault::Refused(2, ReplicaFault::Stopped(2));
    refused(
        &rt,
        Start::OneMore,
        &log,
        3,
        stops,
        "E3 Refused 2 P5 Stopped 2",
    )
}

/// Catches a record that a replica would skip, if it is taken again here, and a record after a missing one.
#[test]
fn a_record_is_out_of_its_place_again(rt: HostRuntime) -> Result<(), Fail> {
    let alloc = rt.alloc();
    let gap = RecoveryFault::Refused(2, ReplicaFault::Gap);
    for gno in [1, 3] {
        let log = again!(vec![in alloc;
            again!(child(alloc, 1, 0))?,
            again!(other(alloc, gno, 0))?
        ])?;
        refused(&rt, Start::Parent, &log, 3, gap, "E3 Refused 2 P1 Gap")?;
    }
    Ok(())
}

/// Catches a record whose parent does not cover what it touches, and one whose form no source writes.
#[test]
fn a_replica_refuses_a_record_again(rt: HostRuntime) -> Result<(), Fail> {
    let alloc = rt.alloc();
    let log = again!(vec![in alloc; again!(other(alloc, 1, 0))?, again!(sets(alloc, 2, 0))?])?;
    let parent = RecoveryFault::Refused(2, ReplicaFault::BadParent);
    refused(
        &rt,
        Start::Parent,
        &log,
        2,
        parent,
        "E3 Refused 2 P4 BadParent",
    )?;
    let log = again!(vec![in alloc; again!(other(alloc, 1, 1))?])?;
    let form = RecoveryFault::Refused(1, ReplicaFault::Malformed);
    refused(
        &rt,
        Start::Parent,
        &log,
        2,
        form,
        "E3 Refused 1 P3 Malformed",
    )
}

/// Catches a replay that looks for no orphans, or only at the end: the last record mends what the second one broke.
#[test]
fn a_child_loses_its_parent_again(rt: HostRuntime) -> Result<(), Fail> {
    let alloc = rt.alloc();
    let orphan = RecoveryFault::Orphan(2);
    let log = again!(vec![in alloc;
        again!(child(alloc, 1, 0))?,
        again!(of_parent(alloc, 2, 1, true))?,
        again!(of_parent(alloc, 3, 2, false))?,
    ])?;
    refused(&rt, Start::Parent, &log, 3, orphan, "E4 Orphan 2")
}

/// A parent without children is deleted and inserted again, and then gets a child.
#[test]
fn a_parent_without_children_goes_again(rt: HostRuntime) -> Result<(), Fail> {
    let alloc = rt.alloc();
    let log = again!(vec![in alloc;
        again!(of_parent(alloc, 1, 0, true))?,
        again!(of_parent(alloc, 2, 1, false))?,
        again!(child(alloc, 3, 2))?,
    ])?;
    let found = again!(replayed(alloc, Start::Parent, &log, 3))?;
    assert_eq!(rt; found.store().get(row(3, 1)), Row::new(&[8]));
    assert_eq!(rt; found.store().len(), 2);
    Ok(())
}
