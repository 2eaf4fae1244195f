//! A source that goes on from the log of another one, and the parents that it then gives.

ghost use Rattle.std.specs.Prelude.{◌≡◌, List, [], Some, IfOk, OnOk};
ghost use Rattle.schema.specs.declared.Table.{Table};
ghost use Rattle.store_trait.specs.Fits.{Fits};
ghost use Rattle.source_core.specs.Source.{committed_rows};

use super::source::{enqueue, sync};
use super::trackers::{by_rows, by_session};
use btree_store::BTreeStore;
use commit_order_tracker::CommitOrder;
use record_codec::Record;
use rows::Row;
use schema::{Memory, Schema};
use source_core::{SourceCore, SourceFault};
use std::alloc::Global;
use std::process::Abort;
use std::test::Fail;
use store_trait::{Batch, RowStore, fits, snapshot};
use tests_stores::again;
use tests_stores::common::{boxed, insert, row, unique_tables, update};
use tracker_trait::{Resumable, Tracker};
use writeset_trackers::{WriteSetSession, WriteSetTracker};

/// A tracker that the tests can make anew.
trait Fresh: Resumable {
    fn fresh(alloc: Global) -> Result<Self, Memory>
        ensures { IfOk result (λ tracker. (ts : List Table) → Self.agrees tracker ts []) };
}

impl Fresh for CommitOrder {
    fn fresh(_alloc: Global) -> Result<CommitOrder, Memory> {
        Ok(CommitOrder)
    }
}

impl Fresh for WriteSetTracker {
    fn fresh(alloc: Global) -> Result<WriteSetTracker, Memory> {
        by_rows(alloc, 25000)
    }
}

impl Fresh for WriteSetSession {
    fn fresh(alloc: Global) -> Result<WriteSetSession, Memory> {
        by_session(alloc, 25000)
    }
}

type Source<T> = SourceCore<BTreeStore, T>;

/// A store of one row, which is a parent.
fn one_parent(alloc: Global) -> Result<BTreeStore, Memory> {
    let columns = Row::new(&[7]).ok_or(Memory)?;
    let rows = vec![in alloc; (row(3, 1), Some(columns))]?;
    let mut store = BTreeStore::new(alloc);
    store.put_all(&Batch::from_entries(rows).ok_or(Memory)?)?;
    Ok(store)
}

/// A source of that row, with these tables.
fn source<T: Fresh + Drop>(alloc: Global, schema: &Schema) -> Result<Box<Source<T>>, Memory>
    ensures { IfOk result (λ made. made.value.tables ≡ schema.now) }
{
    let store = one_parent(alloc)?;
    if !fits(schema, &store) {
        return Err(Memory);
    }
    let core = SourceCore::new(alloc, schema.copy()?, store, T::fresh(alloc)?, 256)?;
    Ok(boxed(alloc, core)?)
}

/// A store of the source's rows.
fn rows_of<T: Tracker>(
    alloc: Global,
    schema: &Schema,
    source: &Source<T>,
) -> Result<BTreeStore, Memory>
    ensures fits { IfOk result (λ store. Fits schema.now store) }
    ensures rows { IfOk result (λ store. committed_rows source.now ≡ Some store) }
{
    let rows = source.rows();
    if !fits(schema, rows) {
        return Err(Memory);
    }
    let batch = snapshot(alloc, rows, schema)?;
    let mut store = BTreeStore::new(alloc);
    store.put_all(&batch)?;
    Ok(store)
}

/// A copy of these records.
fn copies(alloc: Global, log: &[Record]) -> Result<Vec<Record>, Memory>
    ensures { IfOk result (λ copied. copied.items ≡ log.now) }
{
    let mut copied = Vec::new(alloc);
    for made in log {
        copied.push(made.copy()?)?;
    }
    Ok(copied)
}

/// A source that goes on from the log of this one, with a new tracker. All of the log is committed.
fn recovered<T: Fresh + Drop>(
    alloc: Global,
    schema: &Schema,
    source: &Source<T>,
) -> Result<Box<Source<T>>, Memory>
    requires { source.now.tables ≡ schema.now }
{
    let (keeps, count) = (source.keeps(), source.flushed());
    if source.busy() || !keeps || count > 256 {
        return Err(Memory);
    }
    let log = copies(alloc, source.log())?;
    let store = rows_of(alloc, schema, source)?;
    let (schema, base) = (schema.copy()?, source.base().copy()?);
    let core = SourceCore::recovered(alloc, schema, base, store, log, T::fresh(alloc)?, 256)?;
    Ok(boxed(alloc, core)?)
}

/// Commits what is queued.
fn commit<T: Tracker>(source: &mut Source<T>) -> Result<(), SourceFault>
    ensures { OnOk result (source.new.tables ≡ source.old.tables) }
{
    sync(source)?;
    again!(source.commit_all())?;
    Ok(())
}

/// Commits a child of the first row, and then a group of two transactions.
fn commit_three<T: Tracker>(source: &mut Source<T>) -> Result<(), Fail>
    ensures { OnOk result (source.new.tables ≡ source.old.tables) }
{
    enqueue(source, 1, insert(row(4, 9), &[1, 5])?)?;
    commit(source)?;
    enqueue(source, 2, insert(row(2, 10), &[1, 5])?)?;
    enqueue(source, 1, insert(row(1, 7), &[3])?)?;
    commit(source)?;
    Ok(())
}

/// The source has the three records.
fn look_at_three<T: Tracker>(rt: &impl Abort, source: &Source<T>) -> Result<(), Fail> {
    let [first, second, third] = source.log() else {
        panic!(rt; "not three records");
    };
    assert_eq!(rt; (first.gno, first.parent), (1, 0));
    assert_eq!(rt; (second.gno, second.parent), (2, 1));
    assert_eq!(rt; (third.gno, third.parent), (3, 1));
    Ok(())
}

/// Session 1 changes the row that session 2 inserted, and then inserts a row that no record wrote.
fn commit_two_more<T: Tracker>(source: &mut Source<T>) -> Result<(), Fail> {
    enqueue(source, 1, update(row(2, 10), 0, 2)?)?;
    commit(source)?;
    enqueue(source, 1, insert(row(1, 8), &[4])?)?;
    commit(source)?;
    Ok(())
}

/// After the log of another source, the next two transactions get these parents.
fn goes_on<T: Fresh + Drop>(
    rt: &(impl Abort + AllocGlobal),
    parents: [u64; 2],
) -> Result<(), Fail> {
    let schema = again!(unique_tables(rt.alloc()))?;
    let mut first = again!(source::<T>(rt.alloc(), &schema))?;
    commit_three(&mut first)?;
    let mut next = again!(recovered(rt.alloc(), &schema, &first))?;
    look_at_three(rt, &next)?;
    commit_two_more(&mut next)?;
    let [_, _, _, fourth, fifth] = next.log() else {
        panic!(rt; "not five records");
    };
    assert_eq!(rt; (fourth.gno, fourth.parent), (4, parents[0]));
    assert_eq!(rt; (fifth.gno, fifth.parent), (5, parents[1]));
    Ok(())
}

/// Catches a log that is not counted as committed.
#[test]
fn goes_on_by_commit_order_again(rt: HostRuntime) -> Result<(), Fail> {
    goes_on::<CommitOrder>(&rt, [3, 4])
}

/// Catches a tracker that does not see the log: which record wrote the row last, and that the first record has a parent
/// row, so that each later transaction waits for it.
#[test]
fn goes_on_by_rows_again(rt: HostRuntime) -> Result<(), Fail> {
    goes_on::<WriteSetTracker>(&rt, [2, 1])
}

/// Catches a session that waits for a record that the session of this number wrote before the restart, or that does not
/// wait for its own after it.
#[test]
fn goes_on_by_session_again(rt: HostRuntime) -> Result<(), Fail> {
    goes_on::<WriteSetSession>(&rt, [2, 4])
}

/// A source that goes on from no record begins a log.
fn begins<T: Fresh + Drop>(rt: &(impl Abort + AllocGlobal)) -> Result<(), Fail> {
    let schema = again!(unique_tables(rt.alloc()))?;
    let first = again!(source::<T>(rt.alloc(), &schema))?;
    let mut next = again!(recovered(rt.alloc(), &schema, &first))?;
    enqueue(&mut next, 1, insert(row(4, 9), &[1, 5])?)?;
    commit(&mut next)?;
    let [only] = next.log() else {
        panic!(rt; "not one record");
    };
    assert_eq!(rt; (only.gno, only.parent), (1, 0));
    Ok(())
}

/// Catches numbers that do not begin with 1 if there is no record to go on from.
#[test]
fn begins_at_no_record_again(rt: HostRuntime) -> Result<(), Fail> {
    begins::<CommitOrder>(&rt)?;
    begins::<WriteSetTracker>(&rt)?;
    begins::<WriteSetSession>(&rt)?;
    Ok(())
}
