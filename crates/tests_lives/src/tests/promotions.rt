//! Replicas that become sources.

ghost use Rattle.std.specs.Prelude.{List, []};
ghost use Rattle.schema.specs.declared.Table.{Table};

use crate::tests::replicas::{
    Replica, accepts, commits, hands_in, job, passes, passes_first, replica, replica_loaded, runs,
    shown, ten, worked,
};
use crate::tests::trackers::Fresh;
use btree_store::BTreeStore;
use commit_order_tracker::CommitOrder;
use executor::Job;
use promotion::{Promoted, PromotionFault, promote};
use relay::ReplicaFault;
use rows::Row;
use schema::Memory;
use source_core::{SourceCore, SourceFault};
use std::alloc::Global;
use std::process::Abort;
use std::test::Fail;
use store_trait::{Batch, RowStore};
use tests_log::common::{record, source};
use tests_stores::again;
use tests_stores::common::{boxed, insert, is_told, row, update};
use tracker_trait::Tracker;
use uuid::Uuid;
use writeset_trackers::{WriteSetSession, WriteSetTracker};

type Life<T> = Promoted<BTreeStore, T>;

/// The identifier of the new source.
fn other_name() -> Uuid {
    Uuid::from_u128(0x6d74_7200_0000_4000_8000_0000_0000_0002)
}

/// The source that the replica becomes. If memory runs out, the replica comes back, and is tried once more.
fn promoted<T: Fresh + Drop>(
    rt: &(impl Abort + AllocGlobal),
    replica: Box<Replica>,
) -> Result<Box<Life<T>>, Fail> {
    let (first, second) = (T::fresh(rt.alloc())?, T::fresh(rt.alloc())?);
    match promote(
        rt.alloc(),
        Box::into_inner(replica),
        other_name(),
        first,
        256,
    ) {
        Ok(made) => Ok(boxed(rt.alloc(), made)?),
        Err((fault, replica)) => {
            assert_eq!(rt; fault, PromotionFault::Memory);
            promoted_again(rt.alloc(), replica, second)
        }
    }
}

fn promoted_again<T: Fresh + Drop>(
    alloc: Global,
    replica: Replica,
    tracker: T,
) -> Result<Box<Life<T>>, Fail>
    requires { (ts : List Table) → T.agrees tracker ts [] }
{
    match promote(alloc, replica, other_name(), tracker, 256) {
        Ok(made) => Ok(boxed(alloc, made)?),
        Err((fault, replica)) => {
            drop(replica);
            Err(fault)?
        }
    }
}

/// Promoting the replica under this name is refused for this reason, and the replica comes back.
fn refused(
    rt: &(impl Abort + AllocGlobal),
    replica: Box<Replica>,
    name: Uuid,
    want: PromotionFault,
) -> Result<Box<Replica>, Fail> {
    match promote(rt.alloc(), Box::into_inner(replica), name, CommitOrder, 256) {
        Ok(made) => {
            drop(made);
            Err(Fail::new("a refusal"))
        }
        Err((fault, replica)) => {
            assert_eq!(rt; fault, want);
            Ok(boxed(rt.alloc(), replica)?)
        }
    }
}

/// The new source begins with these columns of row 10, after `behind` records, and has logged nothing.
fn begins<T: Tracker>(rt: &impl Abort, made: &Life<T>, behind: u64, columns: &[i64]) {
    assert_eq!(rt; (made.identifier, made.behind), (other_name(), behind));
    assert_eq!(rt; made.source.rows().get(ten()), Row::new(columns));
    assert_eq!(rt; made.source.flushed(), 0);
}

/// Session 1 sets column 0 of row 10 to 9, and sees both columns.
fn sets_nine<T: Tracker>(
    rt: &impl Abort,
    source: &mut SourceCore<BTreeStore, T>,
) -> Result<(), SourceFault> {
    let change = update(ten(), 0, 9)?;
    source.begin(1)?;
    again!(source.write(1, change))?;
    assert_eq!(rt; source.read(1, ten()), Ok(Row::new(&[9, 8])));
    source.prepare(1)?;
    source.queue(1)
}

/// Its transaction is record 1, without a parent.
fn logs_first<T: Tracker>(
    rt: &impl Abort,
    source: &mut SourceCore<BTreeStore, T>,
) -> Result<(), Fail> {
    sets_nine(rt, source)?;
    again!(source.flush())?;
    let [only] = source.log() else {
        panic!(rt; "not one record");
    };
    assert_eq!(rt; (only.gno, only.parent), (1, 0));
    Ok(())
}

/// A replica with the three worked records becomes a source, which goes on over their rows.
fn goes_on<T: Fresh + Drop>(rt: &(impl Abort + AllocGlobal)) -> Result<(), Fail> {
    let mut replica = again!(replica(rt.alloc(), true))?;
    passes_first(rt, &mut replica, 3)?;
    let mut made = promoted::<T>(rt, replica)?;
    begins(rt, &made, 3, &[7, 8]);
    logs_first(rt, &mut made.source)
}

/// Catches a source without the replica's rows, or one that continues the numbers of the old log.
#[test]
fn goes_on_by_commit_order_again(rt: HostRuntime) -> Result<(), Fail> {
    goes_on::<CommitOrder>(&rt)
}

/// Catches a tracker that has seen the old log, in which records 1 to 3 wrote the row.
#[test]
fn goes_on_by_rows_again(rt: HostRuntime) -> Result<(), Fail> {
    goes_on::<WriteSetTracker>(&rt)
}

/// Catches a session that waits for its records in the old log.
#[test]
fn goes_on_by_session_again(rt: HostRuntime) -> Result<(), Fail> {
    goes_on::<WriteSetSession>(&rt)
}

/// Records 1 and 2 are committed, and the job of record 3 is out.
fn third_is_out(rt: &(impl Abort + AllocGlobal), replica: &mut Replica) -> Result<(), Fail> {
    passes_first(rt, replica, 2)?;
    let third = again!(worked(rt.alloc(), 3, 2))?;
    accepts(rt, replica, &third);
    let _out = job(replica)?;
    Ok(())
}

/// Catches rows of a record that was accepted and not committed, and a refusal because of that record.
#[test]
fn drops_what_is_not_committed_again(rt: HostRuntime) -> Result<(), Fail> {
    let mut replica = again!(replica(rt.alloc(), true))?;
    third_is_out(&rt, &mut replica)?;
    let made = promoted::<CommitOrder>(&rt, replica)?;
    begins(&rt, &made, 2, &[7, 6]);
    Ok(())
}

/// The replica stops at record 2, which updates a row that is not there.
fn stops(rt: &(impl Abort + AllocGlobal), replica: &mut Replica) -> Result<(), Fail> {
    passes(rt, replica, 1, 0)?;
    let next = again!(record(rt.alloc(), 2, 0, update(row(1, 11), 0, 7)?))?;
    accepts(rt, replica, &next);
    let job = job(replica)?;
    hands_in(rt, replica, job, Err(ReplicaFault::Stopped(2)));
    Ok(())
}

/// Catches a stopped replica that is refused, although its rows are all that is left.
#[test]
fn a_stopped_replica_goes_on_again(rt: HostRuntime) -> Result<(), Fail> {
    let mut replica = again!(replica(rt.alloc(), true))?;
    stops(&rt, &mut replica)?;
    let made = promoted::<CommitOrder>(&rt, replica)?;
    begins(&rt, &made, 1, &[5, 6]);
    Ok(())
}

/// Catches a new log under the old name, and a refused replica that does not go on.
#[test]
fn the_old_name_is_refused_again(rt: HostRuntime) -> Result<(), Fail> {
    let mut replica = again!(replica(rt.alloc(), true))?;
    passes(&rt, &mut replica, 1, 0)?;
    let mut replica = refused(&rt, replica, source(), PromotionFault::OwnName)?;
    passes(&rt, &mut replica, 2, 1)?;
    assert_eq!(rt; shown(&replica), (2, Row::new(&[7, 6])));
    let made = promoted::<CommitOrder>(&rt, replica)?;
    begins(&rt, &made, 2, &[7, 6]);
    Ok(())
}

/// The first worked record is accepted, and after it one that inserts another row.
fn accepts_two(rt: &(impl Abort + AllocGlobal), replica: &mut Replica) -> Result<(), Fail> {
    let first = again!(worked(rt.alloc(), 1, 0))?;
    accepts(rt, replica, &first);
    let second = again!(record(rt.alloc(), 2, 0, insert(row(1, 11), &[1, 2])?))?;
    accepts(rt, replica, &second);
    Ok(())
}

/// The second one is committed while the job of the first is out.
fn second_passes(rt: &(impl Abort + AllocGlobal), replica: &mut Replica) -> Result<Job, Fail> {
    accepts_two(rt, replica)?;
    let first = job(replica)?;
    runs(rt, replica)?;
    commits(rt, replica, 2);
    Ok(first)
}

/// Catches a source over a state that has a gap, and a refusal because the commits came in another order.
#[test]
fn gaps_are_refused_again(rt: HostRuntime) -> Result<(), Fail> {
    let mut replica = again!(replica(rt.alloc(), false))?;
    let first = second_passes(&rt, &mut replica)?;
    let replica = refused(&rt, replica, source(), PromotionFault::OwnName)?;
    let mut replica = refused(&rt, replica, other_name(), PromotionFault::Gaps)?;
    hands_in(&rt, &mut replica, first, Ok(()));
    commits(&rt, &mut replica, 1);
    let made = promoted::<CommitOrder>(&rt, replica)?;
    begins(&rt, &made, 2, &[5, 6]);
    assert_eq!(rt; made.source.rows().get(row(1, 11)), Row::new(&[1, 2]));
    Ok(())
}

/// A replica of a child row without its parent.
fn orphaned(alloc: Global) -> Result<Box<Replica>, Memory> {
    let rows = vec![in alloc; (row(4, 9), Row::new(&[1, 5]))]?;
    replica_loaded(alloc, &Batch::from_entries(rows).ok_or(Memory)?, true)
}

/// Catches a source over rows that its own writes could not have left.
#[test]
fn misfits_are_refused_again(rt: HostRuntime) -> Result<(), Fail> {
    let replica = again!(orphaned(rt.alloc()))?;
    let mut replica = refused(&rt, replica, other_name(), PromotionFault::Misfit)?;
    passes(&rt, &mut replica, 1, 0)?;
    assert_eq!(rt; shown(&replica), (1, Row::new(&[5, 6])));
    Ok(())
}

/// Catches a wrong text: no clause fixes the texts.
#[test]
fn texts_of_promotion_faults(rt: HostRuntime) -> Result<(), Fail> {
    for (fault, text) in [
        (PromotionFault::OwnName, "N1 OwnName"),
        (PromotionFault::Gaps, "N2 Gaps"),
        (PromotionFault::Misfit, "N3 Misfit"),
        (PromotionFault::Memory, "N4 Memory"),
    ] {
        assert!(rt; is_told(rt.alloc(), &fault, text)?);
    }
    Ok(())
}
