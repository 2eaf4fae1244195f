//! The texts of a source's faults, a group for which each call that runs out of memory is made again, and a source that
//! lets committed records go.

ghost use Rattle.std.specs.Prelude.{◌≡◌, ◌≤◌, length, IfOk, IfSome, OnOk};
ghost use Rattle.source_core.specs.Calls.{Flushes, IsOldest};

use btree_store::BTreeStore;
use commit_order_tracker::CommitOrder;
use record_codec::Group;
use rows::Change;
use schema::Memory;
use source_core::{SourceCore, SourceFault};
use std::alloc::Global;
use std::process::Abort;
use std::test::Fail;
use store_trait::fits;
use tests_stores::again;
use tests_stores::common::{boxed, insert, row, unique_tables};
use tracker_trait::Tracker;

/// Catches a wrong text: no clause fixes the texts.
#[test]
fn texts_of_source_faults(rt: HostRuntime) -> Result<(), Fail> {
    for (fault, text) in [
        (SourceFault::NoSession, "S1 NoSession"),
        (SourceFault::AlreadyOpen, "S2 AlreadyOpen"),
        (SourceFault::NotActive, "S3 NotActive"),
        (SourceFault::NoTable, "S4 NoTable"),
        (SourceFault::WrongColumns, "S5 WrongColumns"),
        (SourceFault::RowLocked, "S6 RowLocked"),
        (SourceFault::RowExists, "S7 RowExists"),
        (SourceFault::NoRow, "S8 NoRow"),
        (SourceFault::NoParent, "S9 NoParent"),
        (SourceFault::HasChild, "S10 HasChild"),
        (SourceFault::TooManyChanges, "S11 TooManyChanges"),
        (SourceFault::Halted, "S12 Halted"),
        (SourceFault::Memory, "S13 Memory"),
        (SourceFault::NotPrepared, "S14 NotPrepared"),
        (SourceFault::Exhausted, "S15 Exhausted"),
        (SourceFault::Duplicate, "S16 Duplicate"),
    ] {
        let said = format!(in rt.alloc(); "{fault}")?;
        assert_eq!(rt; said.as_str(), text);
    }
    Ok(())
}

type Source = SourceCore<BTreeStore, CommitOrder>;

/// A source without rows, of tables with unique columns.
fn source(alloc: Global) -> Result<Box<Source>, Memory> {
    let schema = unique_tables(alloc)?;
    let store = BTreeStore::new(alloc);
    if !fits(&schema, &store) {
        return Err(Memory);
    }
    let core = SourceCore::new(alloc, schema, store, CommitOrder, 256)?;
    Ok(boxed(alloc, core)?)
}

/// Writes the change in a transaction of the session, and queues it.
pub(super) fn enqueue<T: Tracker>(
    source: &mut SourceCore<BTreeStore, T>,
    session: u16,
    change: Change,
) -> Result<(), SourceFault>
    ensures { OnOk result (source.new.tables ≡ source.old.tables) }
{
    source.begin(session)?;
    again!(source.write(session, change))?;
    source.prepare(session)?;
    source.queue(session)
}

fn flush<T: Tracker>(source: &mut SourceCore<BTreeStore, T>) -> Result<Option<Group>, SourceFault>
    ensures { IfOk result (λ found. IfSome found (λ group. Flushes source.old group source.new)) }
{
    again!(source.flush())
}

/// Flushes what is queued at a source whose records are all committed. The group may then be synced.
fn flush_idle<T: Tracker>(source: &mut SourceCore<BTreeStore, T>) -> Result<Group, SourceFault>
    ensures tables { OnOk result (source.new.tables ≡ source.old.tables) }
    ensures oldest { IfOk result (λ group. IsOldest source.new group) }
    ensures committed { OnOk result (source.new.committed ≤ length source.old.log) }
    ensures longer { OnOk result (length source.old.log ≤ length source.new.log) }
{
    source.flushed();
    if source.busy() {
        return Err(SourceFault::Exhausted);
    }
    match flush(source)? {
        Some(group) => Ok(group),
        None => Err(SourceFault::NotPrepared),
    }
}

/// Flushes and syncs what is queued at a source whose records are all committed.
pub(super) fn sync<T: Tracker>(source: &mut SourceCore<BTreeStore, T>) -> Result<(), SourceFault>
    ensures { OnOk result (source.new.tables ≡ source.old.tables) }
{
    let group = flush_idle(source)?;
    source.synced(group)
}

/// Makes a group of a transaction of session 3 and one of session 256.
fn sync_two(source: &mut Source) -> Result<(), Fail> {
    for session in [3, 256] {
        let key = session as i64;
        enqueue(source, session, insert(row(2, key), &[5, key])?)?;
    }
    sync(source)?;
    Ok(())
}

/// Commits the group, and looks at the receipts of its sessions.
fn commit_two(rt: &impl Abort, source: &mut Source) -> Result<(), Fail> {
    let given = again!(source.commit())?;
    let [first, second] = given.as_slice() else {
        panic!(rt; "not two receipts");
    };
    assert_eq!(rt; (first.session, first.gno, first.parent), (3, 1, 0));
    assert_eq!(rt; (second.session, second.gno, second.parent), (256, 2, 0));
    Ok(())
}

/// Catches a call that fails for good once memory ran out, or that keeps half of what it should do.
#[test]
fn a_group_is_made_again(rt: HostRuntime) -> Result<(), Fail> {
    let mut source = again!(source(rt.alloc()))?;
    sync_two(&mut source)?;
    commit_two(&rt, &mut source)
}

/// Flushes and syncs the one queued transaction at a source whose records are all committed. Its record has this number.
fn sync_one(rt: &impl Abort, source: &mut Source, gno: u64) -> Result<(), Fail> {
    let before = source.flushed();
    let group = flush_idle(source)?;
    let [only] = source.log_past(before) else {
        panic!(rt; "not one record");
    };
    assert_eq!(rt; (only.gno, only.parent), (gno, before));
    source.synced(group)?;
    Ok(())
}

/// Commits 40 transactions. From the number `from` on the source lets records go.
fn lets_go(rt: &impl Abort, source: &mut Source, from: u64) -> Result<(), Fail> {
    for gno in 1..=40u64 {
        if gno == from {
            source.let_go();
        }
        let key = gno.cast_signed();
        enqueue(source, 1, insert(row(2, key), &[5, key])?)?;
        sync_one(rt, source, gno)?;
        assert_eq!(rt; source.commit_all(), Ok(Some((gno, gno))));
        assert_eq!(rt; (source.flushed(), source.keeps()), (gno, gno < from));
    }
    assert_eq!(rt; source.log().len(), 0);
    Ok(())
}

/// Catches a call that asks for a record that is gone, or that counts only the records that are kept.
#[test]
fn committed_records_go(rt: HostRuntime) -> Result<(), Fail> {
    for from in [1, 20] {
        let mut source = source(rt.alloc())?;
        lets_go(&rt, &mut source, from)?;
    }
    Ok(())
}
