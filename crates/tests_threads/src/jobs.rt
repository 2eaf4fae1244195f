//! The queue of jobs by itself: one thread pushes, and two steal.
ghost use Rattle.std.specs.Prelude.{◌≡◌};
ghost use Rattle.replica_shared.specs.Queue.{IsPassOf, hand_of};

use crate::device::PATIENCE;
use crate::makers::{insert, schema};
use executor::{Holders, Job};
use replica_shared::{Again, Jobs, Pass};
use schema::Memory;
use std::alloc::Global;
use std::process::Abort;
use std::sync::Wait;
use std::sync::atomic::{AtomicBool, AtomicU64, Ordering};
use std::test::Fail;
use std::thread::{Threads, join, sleep, yield_now};
use std::time::{Clock, Duration};
use store_trait::Batch;
use tests_log::common::record;

/// How many jobs are pushed.
const JOBS: u64 = 100_000;

/// How many jobs are in the queue at most, as long as any are stolen.
const ROOM: u64 = 1000;

/// How many jobs are in the queue at least when a thread steals, as long as any are pushed: so the two threads that steal
/// meet.
const LEAST: u64 = 100;

/// What was stolen.
#[derive(Drop)]
struct Loot {
    /// Whether each job was stolen.
    each: Vec<AtomicBool>,
    count: AtomicU64,
    /// How many jobs were pushed.
    pushed: AtomicU64,
    /// No more jobs are pushed.
    is_over: AtomicBool,
}

impl Loot {
    fn new(alloc: Global) -> Result<Loot, Memory> {
        let mut each = Vec::new(alloc);
        for _gno in 1..=JOBS {
            each.push(AtomicBool::new(false))?;
        }
        Ok(Loot {
            each,
            count: AtomicU64::new(0),
            pushed: AtomicU64::new(0),
            is_over: AtomicBool::new(false),
        })
    }

    /// Notes a stolen job. Returns whether nobody stole it before.
    fn is_new(&self, gno: u64) -> bool {
        self.count.fetch_add(1, Ordering::SeqCst);
        match self.each.get(gno.wrapping_sub(1) as usize) {
            Some(flag) => !flag.swap(true, Ordering::SeqCst),
            None => false,
        }
    }

    /// Whether there is room for the job of this number before the patience ends.
    fn has_room(&self, clock: &impl Clock, gno: u64) -> bool {
        for _ in 0..PATIENCE {
            if gno < self.count.load(Ordering::SeqCst).saturating_add(ROOM) {
                return true;
            }
            sleep(clock, Duration::from_millis(1));
        }
        false
    }
}

/// Catches a job that no thread gets, that two get, or that one gets after a later job. Also a queue that reports that it
/// is empty and is not.
#[test]
fn two_steal_what_one_pushes(rt: HostRuntime) -> Result<(), Fail> {
    push_beside(&rt, rt.alloc())
}

fn push_beside<R: Threads + Wait + Abort + Clock + Sync>(
    rt: &R,
    alloc: Global,
) -> Result<(), Fail> {
    let change = insert(10, [5, 6])?;
    let job = Job::new(
        1,
        record(alloc, 1, 0, change)?,
        Batch::new(alloc),
        Holders::none(alloc),
        schema(alloc)?,
    );
    let loot = Loot::new(alloc)?;
    let (jobs, pass) = Jobs::new(alloc)?;
    // (If no thread can be made, the stealing comes last.)
    let ((one, two), pushed) = join(
        rt,
        || join(
            rt,
            || steal_all(rt, &jobs, &loot, true),
            || steal_all(rt, &jobs, &loot, false),
        ),
        || {
            let pushed = push_all(rt, &jobs, pass, &job, &loot);
            loot.is_over.store(true, Ordering::SeqCst);
            pushed
        },
    );
    pushed?;
    assert!(rt;
        one && two,
        "a job came twice, or behind a later one, or was not seen"
    );
    assert_eq!(rt; loot.count.load(Ordering::SeqCst), JOBS);
    Ok(())
}

/// Pushes all jobs, copies of this one. It waits while the queue has no room, until one wait is in vain.
fn push_all(
    rt: &(impl Wait + Clock),
    jobs: &Jobs,
    mut pass: Pass,
    job: &Job,
    loot: &Loot,
) -> Result<(), Memory>
    requires queue { IsPassOf jobs.now pass }
    requires pushes { pass.id ≡ 0 }
    requires new { (hand_of pass).pushed ≡ 0 }
{
    let mut waits = true;
    for gno in 1..=JOBS {
        waits = waits && loot.has_room(rt, gno);
        let mut next = job.copy()?;
        next.gno = gno;
        jobs.push(rt, &mut pass, next).map_err(|_| Memory)?;
        loot.pushed.store(gno, Ordering::SeqCst);
    }
    Ok(())
}

/// Steals until no more jobs are pushed. Returns whether each gno was new and above the one before. With `is_told`, also
/// whether the queue was empty each time that it was reported so: the jobs pushed before were all stolen, except one that
/// the other thread may have in hand.
fn steal_all(rt: &impl Wait, jobs: &Jobs, loot: &Loot, is_told: bool) -> bool {
    let mut pass = jobs.pass();
    let mut last = 0;
    for _ in rt.forever() {
        let is_over = loot.is_over.load(Ordering::SeqCst);
        let pushed = loot.pushed.load(Ordering::SeqCst);
        if !is_over && pushed < loot.count.load(Ordering::SeqCst).saturating_add(LEAST) {
            yield_now();
            continue;
        }
        match steal(rt, jobs, &mut pass, is_told) {
            Ok(Some(job)) => {
                if job.gno <= last || !loot.is_new(job.gno) {
                    return false;
                }
                last = job.gno;
            }
            Ok(None) if loot.count.load(Ordering::SeqCst).saturating_add(1) < pushed => {
                return false;
            }
            Ok(None) if is_over => return true,
            Err(Again) if is_over && !is_told => return true,
            _ => yield_now(),
        }
    }
    unreachable!()
}

/// One try to steal: with `is_told` by the call that reports whether the queue is empty, else by the other one.
fn steal(rt: &impl Wait, jobs: &Jobs, pass: &mut Pass, is_told: bool) -> Result<Option<Job>, Again>
    requires { IsPassOf jobs.now pass.old }
    ensures { IsPassOf jobs.now pass.new }
{
    if is_told {
        jobs.try_steal(rt, pass)
    } else {
        jobs.steal(rt, pass).map(Some).ok_or(Again)
    }
}
