//! The calls of a replica, each with the result that it must return. Each call is in a separate function, to which a
//! test lends its replica, so that few ways out of a test drop one.

use crate::tests::makers::{Replica, id, insert_of};
use executor::{Job, JobResult, Outcome, execute};
use record_codec::Record;
use relay::{Received, ReplicaFault};
use rows::Row;
use schema::Memory;
use std::alloc::Global;
use std::process::Abort;
use std::test::Fail;
use store_trait::{Op, RowStore};
use tests_log::common::source;

/// What came of a job.
#[derive(Clone, Copy, Debug, PartialEq, Eq)]
pub enum Came {
    Output,
    Undefined,
    WrongRefs,
    Memory,
}

pub fn came_of(done: &JobResult) -> Came {
    match done.outcome() {
        Outcome::Output(_) => Came::Output,
        Outcome::Undefined => Came::Undefined,
        Outcome::WrongRefs => Came::WrongRefs,
        Outcome::Memory => Came::Memory,
    }
}

pub fn receive(replica: &mut Replica, next: &Record) -> Result<Received, ReplicaFault> {
    replica.receive(source(), next)
}

pub fn dispatch(replica: &mut Replica) -> Result<Option<Job>, ReplicaFault> {
    replica.dispatch()
}

pub fn finish(replica: &mut Replica, done: JobResult) -> Result<(), (ReplicaFault, JobResult)> {
    replica.finish(done)
}

pub fn executed(alloc: Global, job: Job) -> JobResult {
    execute(alloc, job)
}

pub fn commit_next(replica: &mut Replica) -> Result<Option<u64>, ReplicaFault> {
    replica.commit_next()
}

/// Publishes up to this number, or returns `None` if fewer are committed or more are published.
fn publish(replica: &mut Replica, upto: u64) -> Option<Result<u64, ReplicaFault>> {
    if replica.published() > upto || replica.committed() < upto {
        return None;
    }
    Some(replica.publish(upto))
}

/// The record is received and accepted.
pub fn accepts(rt: &impl Abort, replica: &mut Replica, next: &Record) {
    assert_eq!(rt; receive(replica, next), Ok(Received::Accepted));
}

/// Dispatches the next job, which is of this number.
pub fn job(rt: &impl Abort, replica: &mut Replica, gno: u64) -> Result<Job, Fail> {
    let Some(job) = dispatch(replica)? else {
        return Err(Fail::new("a job is dispatched"));
    };
    assert_eq!(rt; job.gno, gno);
    Ok(job)
}

/// The result is handed in, and the call returns `want`.
pub fn finishes(
    rt: &impl Abort,
    replica: &mut Replica,
    done: JobResult,
    want: Result<(), ReplicaFault>,
) {
    assert_eq!(rt; finish(replica, done).map_err(|refused| refused.0), want);
}

/// The result of this job is handed in, and the call returns `want`.
pub fn hands_in(
    rt: &(impl Abort + AllocGlobal),
    replica: &mut Replica,
    job: Result<Job, Memory>,
    want: Result<(), ReplicaFault>,
) -> Result<(), Memory> {
    let done = executed(rt.alloc(), job?);
    finishes(rt, replica, done, want);
    Ok(())
}

pub fn commits(rt: &impl Abort, replica: &mut Replica, want: Option<u64>) {
    assert_eq!(rt; commit_next(replica), Ok(want));
}

pub fn publishes(
    rt: &impl Abort,
    replica: &mut Replica,
    upto: u64,
    want: Result<u64, ReplicaFault>,
) {
    assert_eq!(rt; publish(replica, upto), Some(want));
}

/// Dispatches the next record, which is of this number, executes it and finishes it.
pub fn runs(rt: &(impl Abort + AllocGlobal), replica: &mut Replica, gno: u64) -> Result<(), Fail> {
    let done = executed(rt.alloc(), job(rt, replica, gno)?);
    finishes(rt, replica, done, Ok(()));
    Ok(())
}

/// The results of `count` inserts, from record 1 on, each of the row whose key is its number. All are received and dispatched.
pub fn results_of(
    rt: &(impl Abort + AllocGlobal),
    replica: &mut Replica,
    count: u64,
) -> Result<Vec<JobResult>, Fail> {
    let mut results = Vec::new(rt.alloc());
    for gno in 1..=count {
        accepts(rt, replica, &insert_of(rt.alloc(), gno, gno.cast_signed())?);
        let done = executed(rt.alloc(), job(rt, replica, gno)?);
        results.push(done)?;
    }
    Ok(results)
}

/// The record is received, dispatched, finished and committed.
pub fn passes(
    rt: &(impl Abort + AllocGlobal),
    replica: &mut Replica,
    next: &Record,
) -> Result<(), Fail> {
    accepts(rt, replica, next);
    runs(rt, replica, next.gno)?;
    commits(rt, replica, Some(next.gno));
    Ok(())
}

/// The ids of what is committed are these.
pub fn tells(rt: &(impl Abort + AllocGlobal), replica: &Replica, ids: &str) -> Result<(), Fail> {
    let told = replica.executed()?;
    assert_eq!(rt; format!(in rt.alloc(); "{told}")?.as_str(), ids);
    Ok(())
}

/// The row of this key of table 1, and the number of rows.
pub fn stored(replica: &Replica, key: i64) -> (Option<Row>, usize) {
    (replica.store().get(id(key)), replica.store().len())
}

/// The number of the first waiting commit, and how many wait.
pub fn waiting(replica: &Replica) -> (Option<u64>, usize) {
    let first = match replica.pending().first() {
        Some(Op::Commit { gno, .. }) => Some(*gno),
        _ => None,
    };
    (first, replica.pending().len())
}
