//! A shared replica under test: the courses, how the replica is made for each, and how it ends.
ghost use Rattle.std.specs.Prelude.{◌≡◌, None, IfOk};
ghost use Rattle.std.specs.FinMap.{empty};
ghost use Rattle.replica_shared.specs.Names.{replica_names, IsNewReplica, OpensReplica};

use crate::courses::Course;
use crate::makers::replica;
use crate::stores::{Notes, Store, copies, working};
use published::{Beginning, LeftRight, OpenError, open};
use record_codec::Record;
use relay::ReplicaFault;
use replica_core::ReplicaCore;
use replica_shared::{ReplicaNaming, SharedReplica};
use schema::Memory;
use std::alloc::Global;
use std::marker::Brand;
use std::process::Abort;
use std::sync::{Arc, Wait};
use std::test::Fail;
use std::thread::Threads;
use std::time::Clock;

type Core = ReplicaCore<Store>;

/// A shared replica of three workers.
pub type Shared<J> = SharedReplica<Store, J>;

/// A shared replica of three workers and one seat, the records that come to it, and what its stores note.
#[derive(Drop)]
pub struct ReplicaRig<'a, J: ReplicaNaming, R: Wait> {
    pub rt: &'a R,
    pub alloc: Global,
    pub shared: &'a Shared<J>,
    pub records: &'a [Record],
    pub notes: &'a Notes,
    /// Nothing is known beforehand of the replica's log.
    ghost free: { J.names.log ≡ None },
}

/// Catches a shared call that gives up although there is memory, also after a refusal. Also a job that was kept then and
/// is not executed next.
#[test]
fn one_worker_does_all_again(rt: HostRuntime) -> Result<(), Fail> {
    runs(&rt, rt.alloc(), &[Course::Alone])
}

/// Catches a replica that goes on after a stop, and one that then reports no commit, not even a published one.
#[test]
fn what_does_not_apply_stops_again(rt: HostRuntime) -> Result<(), Fail> {
    runs(&rt, rt.alloc(), &[Course::Stopping])
}

/// Catches a closed replica without records whose worker does not end, or a wait for the initial rows that does not.
#[test]
fn no_record_is_waited_for_again(rt: HostRuntime) -> Result<(), Fail> {
    runs(&rt, rt.alloc(), &[Course::Empty])
}

/// Catches a status that shows as published what is only committed, and a worker that ends once it made up for a
/// publication.
#[test]
fn a_refused_publication_is_made_up_for(rt: HostRuntime) -> Result<(), Fail> {
    runs(&rt, rt.alloc(), &[Course::Refused])
}

/// Catches a stop that is reported with the number of the result that is handed in.
#[test]
fn a_late_result_is_told_of_the_stop(rt: HostRuntime) -> Result<(), Fail> {
    runs(&rt, rt.alloc(), &[Course::Late])
}

/// Catches a gate that is entered after the execution, or called with another number. Also one that is left before the
/// result is in, or not left if the result is refused.
#[test]
fn a_gate_sees_each_job(rt: HostRuntime) -> Result<(), Fail> {
    runs(&rt, rt.alloc(), &[Course::Watched, Course::WatchedStop])
}

/// Catches, of three workers and two threads that wait:
/// - Workers that execute one at a time, or hand in only in their turn, and a sleeper that is not woken by a record, a
///   commit or the end.
/// - A stop that leaves a worker or a waiting thread asleep, and one that reports another number than that of the record
///   that did not apply.
/// - An end that leaves a worker asleep: the last result comes after `close`.
#[test]
fn three_workers_and_two_who_wait_are_woken(rt: HostRuntime) -> Result<(), Fail> {
    let courses = [Course::Beside, Course::AsleepAtStop, Course::AsleepAtEnd];
    runs(&rt, rt.alloc(), &courses)
}

/// Catches a call of `worker` that fails if there is no job for it, or sleeps on when `close` is called. Also a record
/// that wakes all sleeping calls, or two, instead of one.
#[test]
fn seven_calls_of_worker_sleep_and_end(rt: HostRuntime) -> Result<(), Fail> {
    runs(&rt, rt.alloc(), &[Course::Crowded, Course::Woken])
}

/// Catches bytes that are lost or taken twice at a cut, also if memory ran out, and records that no worker gets. Pieces
/// have seven bytes, and then one.
#[test]
fn bytes_in_pieces_again(rt: HostRuntime) -> Result<(), Fail> {
    runs(&rt, rt.alloc(), &[Course::Sevens, Course::Singles])
}

/// Catches a damaged piece from which a whole record is taken.
#[test]
fn nothing_of_a_damaged_piece_is_taken(rt: HostRuntime) -> Result<(), Fail> {
    runs(&rt, rt.alloc(), &[Course::Damaged])
}

/// Catches a refused record that is dropped or passed over.
#[test]
fn a_refused_record_waits(rt: HostRuntime) -> Result<(), Fail> {
    runs(&rt, rt.alloc(), &[Course::Waiting])
}

/// Catches bytes whose records wake no sleeping worker, and a woken worker that wakes no other if more is left. Also a
/// worker that waits with its result for that of the record in front.
#[test]
fn bytes_wake_two_workers(rt: HostRuntime) -> Result<(), Fail> {
    runs(&rt, rt.alloc(), &[Course::Asleep])
}

/// Catches a wait for an id of another source that is not refused, and one for no id that does not end.
#[test]
fn sets_of_ids_are_waited_for(rt: HostRuntime) -> Result<(), Fail> {
    runs(&rt, rt.alloc(), &[Course::Sets])
}

/// Catches a job that is executed under the lock, and a gate that is entered only after the job was executed.
#[test]
fn others_get_the_lock_while_a_job_is_executed(rt: HostRuntime) -> Result<(), Fail> {
    runs(&rt, rt.alloc(), &[Course::Unlocked])
}

/// Catches a status that waits for the lock, and a result that publishes its commits one by one.
#[test]
fn one_result_publishes_three_commits_at_once(rt: HostRuntime) -> Result<(), Fail> {
    runs(&rt, rt.alloc(), &[Course::Stored])
}

/// Catches a commit that waits for the one in front of it, or is shown as if that were there. Also a thread that waits
/// for the commit in front and does not sleep until then, or is not woken by it. Also one that waits for a set and sleeps
/// on until the commits in front of the set are published.
#[test]
fn a_commit_is_read_before_the_one_in_front(rt: HostRuntime) -> Result<(), Fail> {
    runs(&rt, rt.alloc(), &[Course::Gapped])
}

/// Catches a stop that takes back what was committed after the record that does not apply, and a wait for such commits
/// that does not return what is published.
#[test]
fn commits_behind_a_stop_are_read(rt: HostRuntime) -> Result<(), Fail> {
    runs(&rt, rt.alloc(), &[Course::GappedStop])
}

/// Catches a replica that hands out no job this far after one that is held. Also, if memory runs out for both jobs, one
/// kept job that replaces the other.
#[test]
fn jobs_1_and_65_come_back(rt: HostRuntime) -> Result<(), Fail> {
    runs(&rt, rt.alloc(), &[Course::Far])
}

/// Makes a replica and its records for each course, and runs the course on them. If there is no memory for these, it
/// tries once more.
pub fn runs<R: Threads + Wait + Abort + Clock + Sync>(
    rt: &R,
    alloc: Global,
    courses: &[Course],
) -> Result<(), Fail> {
    for course in courses {
        if !has_run(rt, alloc, *course)? && !has_run(rt, alloc, *course)? {
            Err("twice no memory")?;
        }
    }
    Ok(())
}

/// What is done, with which records, and what the stores note.
#[derive(Drop)]
struct Plan {
    course: Course,
    records: [Record; 3],
    notes: Arc<Notes>,
}

/// Whether there was memory for the records and the replica.
fn has_run<R: Threads + Wait + Abort + Clock + Sync>(
    rt: &R,
    alloc: Global,
    course: Course,
) -> Result<bool, Fail> {
    let Ok(records) = course.records(alloc) else {
        return Ok(false);
    };
    let Ok(notes) = Arc::new(alloc, Notes::new()) else {
        return Ok(false);
    };
    let Ok(copies) = copies(alloc, course.refused(), &notes) else {
        return Ok(false);
    };
    let Ok((core, beginning)) = parts(alloc, &notes, course.keeps_order()) else {
        return Ok(false);
    };
    let plan = Plan {
        course,
        records,
        notes,
    };
    run_over::<Brand, R>(rt, alloc, core, beginning, copies, &plan)
}

/// The core and the beginning of a publication of its rows.
fn parts(alloc: Global, notes: &Arc<Notes>, preserve: bool) -> Result<(Core, Beginning), Memory>
    ensures core { IfOk result (λ made. IsNewReplica (replica_names made.0) made.0.preserve made.0) }
    ensures rows { IfOk result (λ made. made.1.base ≡ made.0.base) }
{
    let core = replica(alloc, working(alloc, notes)?, preserve)?;
    match core.base().copy() {
        Ok(base) => Ok((core, Beginning::of(base))),
        Err(refused) => {
            drop(core);
            Err(refused.into())
        }
    }
}

fn run_over<J: ReplicaNaming + Send + Sync, R: Threads + Wait + Abort + Clock + Sync>(
    rt: &R,
    alloc: Global,
    core: Core,
    beginning: Beginning,
    copies: (Store, Store),
    plan: &Plan,
) -> Result<bool, Fail>
    requires core { OpensReplica J.names J.preserve J.book J.known core beginning }
    requires free { J.names.log ≡ None }
    requires copies { (copies.0.inner ≡ empty) × (copies.1.inner ≡ empty) }
{
    let shared: Shared<J> = match shared(rt, alloc, core, beginning, copies) {
        Ok(shared) => shared,
        Err(cause) => {
            assert_eq!(rt; cause, OpenError::Memory);
            return Ok(false);
        }
    };
    let run = ReplicaRig {
        rt,
        alloc,
        shared: &shared,
        records: &plan.records,
        notes: &plan.notes,
    }
    .run(plan.course);
    let ends = ended(rt, shared);
    let published = run?;
    assert_eq!(rt; ends, [published; 3]);
    Ok(true)
}

/// A shared replica with one seat, which keeps the order of the log if the core does.
fn shared<J: ReplicaNaming, R: Wait>(
    rt: &R,
    alloc: Global,
    core: Core,
    beginning: Beginning,
    copies: (Store, Store),
) -> Result<Shared<J>, OpenError>
    requires core { OpensReplica J.names J.preserve J.book J.known core beginning }
    requires copies { (copies.0.inner ≡ empty) × (copies.1.inner ≡ empty) }
{
    let (first, second) = copies;
    let preserve = core.preserve();
    match open::<Store, J, R, LeftRight>(rt, alloc, beginning, preserve, first, second, 1) {
        Ok((publisher, seats)) => Ok(SharedReplica::new(rt, alloc, core, publisher, seats)?),
        Err(cause) => {
            drop(core);
            Err(cause)
        }
    }
}

/// Ends the replica. Returns how many records are committed and published by the core, and how many the publisher shows.
fn ended<J: ReplicaNaming>(rt: &impl Wait, shared: Shared<J>) -> [u64; 3] {
    let (core, publisher) = shared.end();
    let shown = publisher.tell().count();
    drop(publisher.close(rt));
    let ends = [core.committed(), core.published(), shown];
    drop(core);
    ends
}

impl<J, R> ReplicaRig<'_, J, R>
where
    J: ReplicaNaming + Send + Sync,
    R: Threads + Wait + Abort + Clock + Sync,
{
    /// Runs the course, and returns how many commits are published then.
    fn run(&self, course: Course) -> Result<u64, Fail> {
        match course {
            Course::Alone => self.works(),
            Course::Stopping => self.stops(),
            Course::Beside => self.are_beside(),
            Course::AsleepAtStop => self.are_asleep_at_stop(),
            Course::AsleepAtEnd => self.are_asleep_at_end(),
            Course::Empty => self.is_empty(),
            Course::Watched => self.is_watched(101_121_223_233, Ok(()), 3, [7, 6]),
            Course::WatchedStop => {
                self.is_watched(10_112_121, Err(ReplicaFault::Stopped(2)), 1, [5, 6])
            }
            Course::Crowded => self.are_crowded(),
            Course::Woken => self.are_woken_one_by_one(),
            Course::Refused => self.is_refused(),
            Course::Late => self.is_handed_in_late(),
            Course::Sevens => self.come_in_pieces(7),
            Course::Singles => self.come_in_pieces(1),
            Course::Damaged => self.are_damaged(),
            Course::Waiting => self.are_kept_waiting(),
            Course::Asleep => self.wake_workers(),
            Course::Sets => self.sets_are_shown(),
            Course::Unlocked => self.is_unlocked(),
            Course::Stored => self.are_stored(),
            Course::Gapped => self.is_gapped(),
            Course::GappedStop => self.stops_ahead(),
            Course::Far => self.come_back(),
        }
    }
}
