//! Calls that ran out of memory, and are made once more.

use crate::tests::makers::{Replica, replica_over, unordered_over};
use crate::tests::steps::{
    accepts, commit_next, commits, dispatch, executed, finish, finishes, job, receive, stored,
    waiting,
};
use btree_store::BTreeStore;
use executor::Job;
use record_codec::Record;
use relay::{Received, ReplicaFault};
use rows::Row;
use schema::Memory;
use std::alloc::Global;
use std::process::Abort;
use std::test::Fail;
use tests_log::common::{marks_of, record_of};
use tests_stores::again;
use tests_stores::common::{insert, row, unique_tables};

/// A replica without rows, of tables with unique columns.
fn new_replica(alloc: Global) -> Result<Box<Replica>, Memory> {
    replica_over(alloc, unique_tables(alloc)?, BTreeStore::new(alloc), 2)
}

/// Like `new_replica`, but it commits in the order in which jobs finish.
fn new_unordered(alloc: Global) -> Result<Box<Replica>, Memory> {
    unordered_over(alloc, unique_tables(alloc)?, 2)
}

/// The record of this number that inserts the rows of the keys from `from` to below `to`, each with its key as its value.
fn new_record(alloc: Global, gno: u64, from: i64, to: i64) -> Result<Record, Memory> {
    let (mut list, mut marks) = (Vec::new(alloc), Vec::new(alloc));
    for key in from..to {
        list.push(insert(row(1, key), &[key])?)?;
        marks.push((1, key))?;
    }
    let marks = marks_of(alloc, &marks)?;
    let plain = record_of(alloc, gno, 0, list)?;
    Ok(Record { marks, ..plain })
}

/// Receives the record, and once more if that is refused, which leaves the replica as it was.
fn receive_again(rt: &impl Abort, replica: &mut Replica, next: &Record) {
    let before = replica.received();
    let first = receive(replica, next);
    if first == Ok(Received::Accepted) {
        return;
    }
    assert_eq!(rt; first, Err(ReplicaFault::Memory));
    assert_eq!(rt; replica.received(), before);
    accepts(rt, replica, next);
}

/// Dispatches the record of this number, and once more if that is refused, which leaves the worker free.
fn job_again(rt: &impl Abort, replica: &mut Replica, gno: u64) -> Result<Job, Fail> {
    match dispatch(replica) {
        Ok(Some(job)) => Ok(job),
        Ok(None) => Err(Fail::new("a job is dispatched")),
        Err(fault) => {
            assert_eq!(rt; fault, ReplicaFault::Memory);
            job(rt, replica, gno)
        }
    }
}

/// Finishes the job. If its result says that memory ran out, executes and finishes it once more.
fn finish_again(rt: &(impl Abort + AllocGlobal), replica: &mut Replica, job: Job) {
    let Err((fault, done)) = finish(replica, executed(rt.alloc(), job)) else {
        return;
    };
    assert_eq!(rt; fault, ReplicaFault::Memory);
    commits(rt, replica, None);
    let done = executed(rt.alloc(), done.into_job());
    finishes(rt, replica, done, Ok(()));
}

/// Commits the record of this number, and once more if that is refused, which leaves the rows and the waiting commits
/// as they were.
fn commit_again(rt: &impl Abort, replica: &mut Replica, gno: u64) {
    let before = (stored(replica, 10), waiting(replica));
    let first = commit_next(replica);
    if first == Ok(Some(gno)) {
        return;
    }
    assert_eq!(rt; first, Err(ReplicaFault::Memory));
    assert_eq!(rt; (stored(replica, 10), waiting(replica)), before);
    commits(rt, replica, Some(gno));
}

/// Receives the record of this number that inserts the rows of these keys.
fn new_again(
    rt: &(impl Abort + AllocGlobal),
    replica: &mut Replica,
    gno: u64,
    keys: (i64, i64),
) -> Result<(), Memory> {
    let (from, to) = keys;
    let new = again!(new_record(rt.alloc(), gno, from, to))?;
    receive_again(rt, replica, &new);
    Ok(())
}

fn passes_again(rt: &(impl Abort + AllocGlobal), replica: &mut Replica) -> Result<(), Fail> {
    new_again(rt, replica, 1, (1, 41))?;
    let job = job_again(rt, replica, 1)?;
    finish_again(rt, replica, job);
    commit_again(rt, replica, 1);
    Ok(())
}

/// All rows are there, and their commit waits.
fn has_passed(rt: &impl Abort, replica: &Replica) {
    assert_eq!(rt; stored(replica, 10), (Row::new(&[10]), 40));
    assert_eq!(rt; waiting(replica), (Some(1), 1));
}

/// Catches a call that returns something else because an earlier try ran out of memory.
#[test]
fn refused_calls_are_made_again(rt: HostRuntime) -> Result<(), Fail> {
    let mut replica = new_replica(rt.alloc()).or_else(|_| new_replica(rt.alloc()))?;
    passes_again(&rt, &mut replica)?;
    has_passed(&rt, &replica);
    Ok(())
}

/// The ids of what is committed are these. They are asked for once more if memory runs out.
fn tells_again(rt: &(impl Abort + AllocGlobal), replica: &Replica, ids: &str) -> Result<(), Fail> {
    let told = again!(ReplicaFault::Memory => replica.executed())?;
    let text = again!(format!(in rt.alloc(); "{told}"))?;
    assert_eq!(rt; text.as_str(), ids);
    Ok(())
}

/// Record 2, of 40 rows, is committed while the job of record 1 is out.
fn passes_first_again(rt: &(impl Abort + AllocGlobal), replica: &mut Replica) -> Result<Job, Fail> {
    new_again(rt, replica, 1, (41, 42))?;
    new_again(rt, replica, 2, (1, 41))?;
    let first = job_again(rt, replica, 1)?;
    let second = job_again(rt, replica, 2)?;
    finish_again(rt, replica, second);
    commit_again(rt, replica, 2);
    Ok(first)
}

fn pass_in_turns_again(rt: &(impl Abort + AllocGlobal), replica: &mut Replica) -> Result<(), Fail> {
    let first = passes_first_again(rt, replica)?;
    assert_eq!(rt;
        (stored(replica, 10), waiting(replica)),
        ((Row::new(&[10]), 40), (Some(2), 1))
    );
    tells_again(rt, replica, "6d747200-0000-4000-8000-000000000001:2")?;
    finish_again(rt, replica, first);
    commit_again(rt, replica, 1);
    tells_again(rt, replica, "6d747200-0000-4000-8000-000000000001:1-2")?;
    assert_eq!(rt; waiting(replica), (Some(2), 2));
    Ok(())
}

/// Catches a commit out of turn, or the ids of such commits, that differ because an earlier try ran out of memory: rows
/// that are put before there is room for the number of their commit.
#[test]
fn commits_out_of_turn_are_made_again(rt: HostRuntime) -> Result<(), Fail> {
    let mut replica = again!(new_unordered(rt.alloc()))?;
    pass_in_turns_again(&rt, &mut replica)
}
