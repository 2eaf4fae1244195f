//! A replica at its bounds, where a body that reports out of memory too early would still be proved, and one that lets
//! committed records go.

ghost use Rattle.std.specs.Prelude.{◌<◌};

use crate::tests::makers::{
    Entry, Replica, greatest, insert_of, replica, replica_of, row, rows_of_greatest, unordered,
    wide_id,
};
use crate::tests::steps::{
    accepts, commits, dispatch, executed, finishes, job, passes, publishes, receive, results_of,
    runs, stored, waiting,
};
use btree_store::BTreeStore;
use executor::JobResult;
use relay::Received;
use rows::Row;
use schema::Memory;
use std::alloc::Global;
use std::process::Abort;
use std::test::Fail;
use store_trait::RowStore;

/// The results of records 1 to 64, which are received and dispatched. Record 65 waits for a worker.
pub fn all_busy(
    rt: &(impl Abort + AllocGlobal),
    replica: &mut Replica,
) -> Result<Vec<JobResult>, Fail> {
    let results = results_of(rt, replica, 64)?;
    accepts(rt, replica, &insert_of(rt.alloc(), 65, 65)?);
    assert!(rt; dispatch(replica)?.is_none());
    Ok(results)
}

/// Finishes the results, the last one first. None is committed before the first is finished.
fn finish_backwards(
    rt: &impl Abort,
    replica: &mut Replica,
    mut results: Vec<JobResult>,
) -> Result<(), Fail> {
    for _ in 0..64 {
        commits(rt, replica, None);
        let done = results.pop().ok_or("a result")?;
        finishes(rt, replica, done, Ok(()));
    }
    Ok(())
}

/// All results come first, and then the commits, from the first on.
fn turn_around(rt: &(impl Abort + AllocGlobal), replica: &mut Replica) -> Result<(), Fail> {
    let results = all_busy(rt, replica)?;
    finish_backwards(rt, replica, results)?;
    for gno in 1..65 {
        commits(rt, replica, Some(gno));
    }
    runs(rt, replica, 65)
}

/// Catches a false out of memory at the 64th job, or a result that is lost or committed early because it waits in the
/// last places.
#[test]
fn sixty_four_results_come_backwards(rt: HostRuntime) -> Result<(), Fail> {
    let mut replica = replica(rt.alloc(), 64)?;
    turn_around(&rt, &mut replica)?;
    assert_eq!(rt; stored(&replica, 64), (row(5, 6), 64));
    Ok(())
}

fn pass_three_hundred(rt: &(impl Abort + AllocGlobal), replica: &mut Replica) -> Result<(), Fail> {
    for gno in 1..301 {
        passes(rt, replica, &insert_of(rt.alloc(), gno, gno as i64)?)?;
    }
    Ok(())
}

/// Catches a false out of memory once the first room for records or for waiting commits is used up, or a commit that is
/// not handed out.
#[test]
fn three_hundred_commits_are_published_in_parts(rt: HostRuntime) -> Result<(), Fail> {
    let mut replica = replica(rt.alloc(), 1)?;
    pass_three_hundred(&rt, &mut replica)?;
    assert_eq!(rt; waiting(&replica), (Some(1), 300));
    publishes(&rt, &mut replica, 100, Ok(100));
    assert_eq!(rt; waiting(&replica), (Some(101), 200));
    publishes(&rt, &mut replica, 300, Ok(300));
    assert_eq!(rt; waiting(&replica), (None, 0));
    Ok(())
}

/// The two records after the first `before` are out at once, and the second is finished first.
fn pass_two(rt: &(impl Abort + AllocGlobal), replica: &mut Replica, before: u64) -> Result<(), Fail>
    requires { before < 300 }
{
    let (first, second) = (before + 1, before + 2);
    for gno in [first, second] {
        accepts(rt, replica, &insert_of(rt.alloc(), gno, gno.cast_signed())?);
    }
    let early = job(rt, replica, first)?;
    runs(rt, replica, second)?;
    finishes(rt, replica, executed(rt.alloc(), early), Ok(()));
    let (one, other) = if replica.preserve() {
        (first, second)
    } else {
        (second, first)
    };
    commits(rt, replica, Some(one));
    commits(rt, replica, Some(other));
    publishes(rt, replica, second, Ok(second));
    Ok(())
}

/// From these commits on it lets records go. Its numbers are those of a replica that keeps all.
fn lets_go(rt: &(impl Abort + AllocGlobal), replica: &mut Replica, from: u64) -> Result<(), Fail> {
    for pair in 0..100u64 {
        let before = pair * 2;
        if before == from {
            replica.let_go();
        }
        pass_two(rt, replica, before)?;
        assert_eq!(rt;
            (replica.received(), replica.keeps()),
            (before + 2, before < from)
        );
        assert_eq!(rt;
            receive(replica, &insert_of(rt.alloc(), 1, 1)?),
            Ok(Received::Skipped)
        );
    }
    assert_eq!(rt; stored(replica, 200), (row(5, 6), 200));
    Ok(())
}

/// Catches a call that asks for a record that is gone, in either order, or that counts only the records that are kept.
#[test]
fn committed_records_go(rt: HostRuntime) -> Result<(), Fail> {
    let mut ordered = replica(rt.alloc(), 2)?;
    lets_go(&rt, &mut ordered, 0)?;
    let mut other = unordered(rt.alloc(), 2)?;
    lets_go(&rt, &mut other, 100)
}

/// A replica of the rows that the greatest record writes, and of 2048 others.
fn large_replica(alloc: Global) -> Result<Box<Replica>, Memory> {
    let mut store = BTreeStore::new(alloc);
    store.put_all(&rows_of_greatest(alloc, Some(-1))?)?;
    replica_of(alloc, store, 1)
}

/// Whether the row of this key has its key in all columns.
fn is_wide(left: &[Entry], key: u16) -> bool {
    let value = i64::from(key);
    match left.get(usize::from(key)) {
        Some(entry) => *entry == (wide_id(value), Row::new(&[value; 16])),
        None => false,
    }
}

/// Whether the commit that waits leaves each of the 1024 rows with its key in all columns.
fn leaves_all_wide(replica: &Replica) -> bool {
    match replica.pending().first() {
        Some(op) => (0..1024).all(|key| is_wide(op.batch().entries(), key)),
        None => false,
    }
}

fn pass_greatest(rt: &(impl Abort + AllocGlobal), replica: &mut Replica) -> Result<(), Fail> {
    let new = greatest(rt.alloc(), 0)?;
    assert_eq!(rt; new.changes.list().len(), 1024);
    passes(rt, replica, &new)
}

/// The record is committed, and no row is lost.
fn has_greatest(rt: &impl Abort, replica: &Replica) {
    assert!(rt; leaves_all_wide(replica));
    assert_eq!(rt; stored(replica, 2047), (row(2047, 2047), 3072));
}

/// Catches a false out of memory at 1024 changes, in the relay, the dispatch, the execution or the commit.
#[test]
fn the_greatest_record_is_committed(rt: HostRuntime) -> Result<(), Fail> {
    let mut replica = large_replica(rt.alloc())?;
    pass_greatest(&rt, &mut replica)?;
    has_greatest(&rt, &replica);
    Ok(())
}
