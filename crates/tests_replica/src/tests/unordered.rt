//! A replica that commits in the order in which jobs finish, not in log order.

use crate::tests::bounds::all_busy;
use crate::tests::makers::{Replica, id, insert_of, row, unordered};
use crate::tests::refusals::refuses_all;
use crate::tests::steps::{
    accepts, commits, executed, finishes, hands_in, job, publishes, results_of, runs, stored,
    tells, waiting,
};
use executor::{Job, JobResult};
use relay::ReplicaFault;
use std::process::Abort;
use std::test::Fail;
use tests_log::common::record;
use tests_stores::common::update;

/// Hands in the result at this place.
fn finish_at(
    rt: &impl Abort,
    replica: &mut Replica,
    results: &mut Vec<JobResult>,
    place: usize,
) -> Result<(), Fail> {
    if results.len() <= place {
        return Err(Fail::new("a result"));
    }
    finishes(rt, replica, results.remove(place), Ok(()));
    Ok(())
}

/// The results of records 4, 2 and 3 come while the job of record 1 is out, and then its result.
fn leaves_as_they_came(rt: &(impl Abort + AllocGlobal), replica: &mut Replica) -> Result<(), Fail> {
    let mut results = results_of(rt, replica, 4)?;
    for place in [3, 1, 1] {
        finish_at(rt, replica, &mut results, place)?;
    }
    commits(rt, replica, Some(4));
    commits(rt, replica, Some(2));
    tells(rt, replica, "6d747200-0000-4000-8000-000000000001:2:4")?;
    commits(rt, replica, Some(3));
    commits(rt, replica, None);
    tells(rt, replica, "6d747200-0000-4000-8000-000000000001:2-4")?;
    assert_eq!(rt; (replica.committed(), replica.low_water()), (3, 0));
    finish_at(rt, replica, &mut results, 0)?;
    commits(rt, replica, Some(1));
    tells(rt, replica, "6d747200-0000-4000-8000-000000000001:1-4")?;
    assert_eq!(rt; (replica.committed(), replica.low_water()), (4, 4));
    Ok(())
}

/// Catches definitions by which results leave by their numbers, or by which ids and a mark pass over a gap.
#[test]
fn results_leave_as_they_came(rt: HostRuntime) -> Result<(), Fail> {
    let mut replica = unordered(rt.alloc(), 4)?;
    leaves_as_they_came(&rt, &mut replica)
}

/// Of 64 results, all but the first are handed in and committed, the last one first.
fn pass_behind_the_first(
    rt: &impl Abort,
    replica: &mut Replica,
    results: &mut Vec<JobResult>,
) -> Result<(), Fail> {
    for gno in (2..65).rev() {
        let done = results.pop().ok_or("a result")?;
        finishes(rt, replica, done, Ok(()));
        commits(rt, replica, Some(gno));
    }
    Ok(())
}

/// The job of record 65 is handed out while that of record 1 is out, and is finished before it.
fn has_both_out(rt: &(impl Abort + AllocGlobal), replica: &mut Replica) -> Result<(), Fail> {
    let mut results = all_busy(rt, replica)?;
    pass_behind_the_first(rt, replica, &mut results)?;
    let last = executed(rt.alloc(), job(rt, replica, 65)?);
    assert_eq!(rt; (replica.is_out(1), replica.is_out(65)), (true, true));
    finishes(rt, replica, last, Ok(()));
    assert_eq!(rt; (replica.is_out(1), replica.is_out(65)), (true, false));
    finish_at(rt, replica, &mut results, 0)?;
    commits(rt, replica, Some(65));
    tells(rt, replica, "6d747200-0000-4000-8000-000000000001:2-65")?;
    commits(rt, replica, Some(1));
    tells(rt, replica, "6d747200-0000-4000-8000-000000000001:1-65")?;
    assert_eq!(rt; stored(replica, 65), (row(5, 6), 65));
    Ok(())
}

/// Catches a job of gno 65 that takes the place of that of gno 1, or a result that is lost because 64 places are too
/// few for both.
#[test]
fn the_jobs_1_and_65_are_out_at_once(rt: HostRuntime) -> Result<(), Fail> {
    let mut replica = unordered(rt.alloc(), 64)?;
    has_both_out(&rt, &mut replica)
}

/// Receives three records. The first updates a row that is not there, and its job is handed out.
fn lie(rt: &(impl Abort + AllocGlobal), replica: &mut Replica) -> Result<Job, Fail> {
    let first = record(rt.alloc(), 1, 0, update(id(10), 0, 7)?)?;
    accepts(rt, replica, &first);
    for gno in [2, 3] {
        accepts(rt, replica, &insert_of(rt.alloc(), gno, gno.cast_signed())?);
    }
    job(rt, replica, 1)
}

/// The others are committed, one of them is published, and then the first record stops the replica.
fn stop(rt: &(impl Abort + AllocGlobal), replica: &mut Replica) -> Result<Job, Fail> {
    let job = lie(rt, replica)?;
    runs(rt, replica, 2)?;
    commits(rt, replica, Some(2));
    publishes(rt, replica, 1, Ok(1));
    runs(rt, replica, 3)?;
    commits(rt, replica, Some(3));
    hands_in(rt, replica, job.copy(), Err(ReplicaFault::Stopped(1)))?;
    Ok(job)
}

/// What was committed of the records after the one that does not apply is there, and nothing else.
fn keeps_what_was_committed(rt: &impl Abort, replica: &Replica) {
    assert_eq!(rt; stored(replica, 3), (row(5, 6), 2));
    assert_eq!(rt; waiting(replica), (Some(3), 1));
    assert_eq!(rt; (replica.committed(), replica.low_water()), (2, 0));
    assert_eq!(rt; replica.published(), 1);
}

/// The replica stops, refuses each call, and keeps what was committed.
fn stops_for_good(rt: &(impl Abort + AllocGlobal), replica: &mut Replica) -> Result<(), Fail> {
    let job = stop(rt, replica)?;
    refuses_all(rt, replica, job, 1)?;
    keeps_what_was_committed(rt, replica);
    Ok(())
}

/// Catches a stop at another number than that of the record that does not apply, a stop that takes back commits of
/// later records, or a call that ignores the stop.
#[test]
fn a_stop_keeps_the_commits_behind_it(rt: HostRuntime) -> Result<(), Fail> {
    let mut replica = unordered(rt.alloc(), 2)?;
    stops_for_good(&rt, &mut replica)
}
