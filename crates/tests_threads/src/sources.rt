//! A shared source under test, on a device that follows orders: the courses, how the source is made for each, and how it
//! ends.
ghost use Rattle.std.specs.Prelude.{◌≡◌};
ghost use Rattle.source_core.specs.Source.{new_source};
ghost use Rattle.log_file.specs.Log.{IsNew};

use crate::device::{Hold, InMemory, Ordered, Orders};
use crate::makers::{SOURCE, source};
use btree_store::BTreeStore;
use commit_order_tracker::CommitOrder;
use log_device::{FaultyDevice, MemoryDevice};
use log_file::LogFile;
use log_set::LogSet;
use source_core::SourceCore;
use source_shared::{Beginning, Receipt, SharedSource, SourceNaming};
use std::alloc::Global;
use std::marker::Brand;
use std::process::Abort;
use std::sync::{Mutex, Wait};
use std::test::Fail;
use std::thread::Threads;
use std::time::Clock;
use uuid::Uuid;

type Core = SourceCore<BTreeStore, CommitOrder>;

pub type Disk<'a, R> = FaultyDevice<InMemory<'a, R>>;

/// A shared source on a device that follows orders.
pub type Shared<'a, J, R> = SharedSource<BTreeStore, CommitOrder, Disk<'a, R>, J>;

/// A shared source, the receipts of its commits, and the orders for its device.
#[derive(Drop)]
pub struct SourceRig<'a, 'd, J: SourceNaming, R: Clock> {
    pub rt: &'a R,
    pub alloc: Global,
    pub source: &'a Shared<'d, J, R>,
    pub receipts: &'a Mutex<Vec<Receipt<J>>>,
    pub orders: &'d Orders<'d, R>,
}

/// What is done with a shared source.
#[derive(Clone, Copy, Drop)]
pub enum Course {
    /// Two sessions commit in turn.
    InTurn,
    /// The first sync of a group fails.
    Failing,
    /// Four threads commit ten times each.
    Beside,
    /// Memory runs out at the first group's writes, for all sessions but the last.
    Refused,
    /// Two of three sessions give up while the first one's group is held.
    GiveUp,
    /// The first group's sync is held.
    Held,
    /// A sync takes a millisecond.
    Slow,
    /// Like `Slow`, but two sessions commit in turn.
    Aside,
    /// Like `Aside`, and then one session commits by itself.
    NappingAlone,
    /// Two threads follow the log while a session commits three times.
    Followed,
    /// The first group's sync is held, and the write after it fails.
    Told,
    /// Two sessions commit, and the log goes on in a next file after each commit.
    Rotated,
    /// Four threads commit ten times each, and the log goes on in next files meanwhile.
    RotatedBeside,
    /// Memory runs out for the next file, and then the device of a next file fails.
    RotatedInVain,
    /// The first group's sync is held, and two threads wait to rotate.
    RotatedTwice,
    /// The first group's sync is held, and eight sessions sleep meanwhile.
    Woken,
}

impl Course {
    /// Which call of the device fails, how many milliseconds a sync takes, and which call is held. (Before it syncs the
    /// first group, the log file calls its device four times. One of these calls is a sync.)
    fn row(self) -> (u64, u64, Hold) {
        match self {
            Course::Failing => (5, 0, Hold::None),
            Course::GiveUp => (0, 0, Hold::Refusal),
            Course::Held | Course::RotatedTwice | Course::Woken => (0, 0, Hold::Sync(2)),
            Course::Slow | Course::Aside | Course::NappingAlone => (0, 1, Hold::None),
            Course::Told => (6, 0, Hold::Sync(2)),
            _ => (0, 0, Hold::None),
        }
    }
}

/// Catches a shared call that gives up although there is memory, also after a refusal. Also a seat that is given out
/// twice, and records that are not counted as flushed.
#[test]
fn two_sessions_commit_again(rt: HostRuntime) -> Result<(), Fail> {
    runs(&rt, rt.alloc(), Course::InTurn)
}

/// Catches a source that goes on after a failed sync.
#[test]
fn a_failed_sync_halts_again(rt: HostRuntime) -> Result<(), Fail> {
    runs(&rt, rt.alloc(), Course::Failing)
}

/// Catches a number that is given twice or never, and a receipt that `end` does not take.
#[test]
fn four_threads_get_each_number_once(rt: HostRuntime) -> Result<(), Fail> {
    runs(&rt, rt.alloc(), Course::Beside)
}

/// Catches a group that is lost or committed out of turn after one for which the device ran out of memory. Also sessions,
/// as many as there are, that are queued meanwhile and do not become one group.
#[test]
fn the_greatest_group_waits_behind_a_refused_one(rt: HostRuntime) -> Result<(), Fail> {
    runs(&rt, rt.alloc(), Course::Refused)
}

/// Catches a session that runs out of memory, gives up, and leaves those asleep that would have led instead.
#[test]
fn who_gives_up_wakes_the_next(rt: HostRuntime) -> Result<(), Fail> {
    runs(&rt, rt.alloc(), Course::GiveUp)
}

/// Catches sessions that sync one by one when a sync is slow, and groups that are flushed beside one that is not slow.
/// Also leaders that do not wait for the sessions that come back from the group before, or that keep the lock meanwhile.
#[test]
fn sixteen_sessions_share_syncs(rt: HostRuntime) -> Result<(), Fail> {
    runs(&rt, rt.alloc(), Course::Slow)
}

/// Catches a group that is flushed only once the one before it is synced, and a reader of the log that waits for the
/// device. Also a record that is shown before it is synced, and sessions that sleep on although one has to lead.
#[test]
fn flushes_beside_a_sync(rt: HostRuntime) -> Result<(), Fail> {
    runs(&rt, rt.alloc(), Course::Held)
}

/// Catches a thread that sleeps on although the source is halted.
#[test]
fn who_sleeps_is_told_of_a_failure(rt: HostRuntime) -> Result<(), Fail> {
    runs(&rt, rt.alloc(), Course::Told)
}

/// Catches a session that waits beside the group of another one and keeps the lock meanwhile.
#[test]
fn who_waits_beside_a_group_leaves_it_the_lock(rt: HostRuntime) -> Result<(), Fail> {
    runs(&rt, rt.alloc(), Course::Aside)
}

/// Catches a leader that naps on although nobody comes, because of a receipt that nobody takes.
#[test]
fn a_leader_to_whom_nobody_comes_naps_once(rt: HostRuntime) -> Result<(), Fail> {
    runs(&rt, rt.alloc(), Course::NappingAlone)
}

/// Two threads wait to rotate. Catches one that sleeps on although all is committed and nobody commits later, and one
/// that is woken before that.
#[test]
fn two_who_wait_to_rotate_are_woken(rt: HostRuntime) -> Result<(), Fail> {
    runs(&rt, rt.alloc(), Course::RotatedTwice)
}

/// How often the test looks for a session that is woken for nothing: a thread that only looks at the source may come too
/// late to call another one.
const ROUNDS: u32 = 4;

/// Catches a call that wakes all sleeping sessions instead of one, and a thread that only looked and calls another one to
/// lead.
#[test]
fn no_session_is_woken_for_nothing(rt: HostRuntime) -> Result<(), Fail> {
    for _ in 0..ROUNDS {
        runs(&rt, rt.alloc(), Course::Woken)?;
    }
    Ok(())
}

/// Catches a follower of the log that sleeps on when a record came or when no more come, and one that is woken for
/// nothing.
#[test]
fn follows_a_log_of_three_records(rt: HostRuntime) -> Result<(), Fail> {
    runs(&rt, rt.alloc(), Course::Followed)
}

/// Catches a rotation that starts gnos or stamps anew, or returns another file's number.
#[test]
fn a_log_goes_on_between_commits_again(rt: HostRuntime) -> Result<(), Fail> {
    runs(&rt, rt.alloc(), Course::Rotated)
}

/// Catches a thread that waits to rotate and sleeps on although all is committed, and a number that is given twice or
/// never around a rotation.
#[test]
fn a_log_goes_on_beside_four_threads(rt: HostRuntime) -> Result<(), Fail> {
    runs(&rt, rt.alloc(), Course::RotatedBeside)
}

/// Catches a source that halts, or counts a file, if memory runs out for the next one, and a source that goes on if the
/// device failed.
#[test]
fn a_next_file_is_not_made_again(rt: HostRuntime) -> Result<(), Fail> {
    runs(&rt, rt.alloc(), Course::RotatedInVain)
}

/// Makes a source, and runs the course on it. If there is no memory for the source, it tries once more.
pub fn runs<R: Threads + Wait + Abort + Clock + Sync>(
    rt: &R,
    alloc: Global,
    course: Course,
) -> Result<(), Fail> {
    if !has_run(rt, alloc, course)? && !has_run(rt, alloc, course)? {
        Err("twice no memory")?;
    }
    Ok(())
}

/// Whether there was memory for the source.
fn has_run<R: Threads + Wait + Abort + Clock + Sync>(
    rt: &R,
    alloc: Global,
    course: Course,
) -> Result<bool, Fail> {
    let (nth, millis, held) = course.row();
    let orders = Orders::new(rt, millis, held);
    let device = Ordered {
        inner: MemoryDevice::new(alloc),
        orders: &orders,
    };
    let device = FaultyDevice::new(device, nth);
    let Ok(file) = LogFile::create(alloc, device, Uuid::from_u128(SOURCE)) else {
        return Ok(false);
    };
    let Ok(log) = LogSet::new(alloc, file) else {
        return Ok(false);
    };
    let Ok(core) = source(alloc) else {
        return Ok(false);
    };
    run_over::<Brand, R>(rt, alloc, core, log, Beginning::new(), course, &orders)
}

fn run_over<'a, J: SourceNaming + Send + Sync, R: Threads + Wait + Abort + Clock + Sync>(
    rt: &R,
    alloc: Global,
    core: Core,
    log: LogSet<Disk<'a, R>>,
    beginning: Beginning,
    course: Course,
    orders: &'a Orders<'a, R>,
) -> Result<bool, Fail>
    requires core { core ≡ new_source core.tables core.base core.limit core.kind }
    requires log { IsNew log.log }
    requires base { core.base ≡ J.base }
    requires tables { core.tables ≡ J.tables }
    requires named { beginning ≡ J.book }
{
    let Ok(source) = Shared::<J, R>::new(alloc, core, log, beginning) else {
        return Ok(false);
    };
    let Some((receipts, flushed)) = commit_all(rt, alloc, &source, course, orders)? else {
        return Ok(false);
    };
    are_numbered(rt, &receipts);
    assert_eq!(rt; source.end(&receipts).log().len(), flushed);
    Ok(true)
}

/// Runs the course. Returns the receipts and how many records are flushed then, or `None` if there was no room for
/// receipts.
fn commit_all<'a, J: SourceNaming + Send + Sync, R: Threads + Wait + Abort + Clock + Sync>(
    rt: &R,
    alloc: Global,
    source: &Shared<'a, J, R>,
    course: Course,
    orders: &'a Orders<'a, R>,
) -> Result<Option<(Vec<Receipt<J>>, usize)>, Fail> {
    let Ok(room) = Vec::with_capacity(alloc, 400) else {
        return Ok(None);
    };
    let receipts: Mutex<Vec<Receipt<J>>> = Mutex::new(room);
    let flushed = SourceRig {
        rt,
        alloc,
        source,
        receipts: &receipts,
        orders,
    }
    .run(course)?;
    Ok(Some((receipts.into_inner(), flushed)))
}

/// Checks that the gnos are the first ones, each once.
fn are_numbered<J: SourceNaming>(rt: &impl Abort, receipts: &[Receipt<J>]) {
    for gno in 1..receipts.len() as u64 + 1 {
        let same = receipts
            .iter()
            .filter(|receipt| receipt.given().gno == gno)
            .count();
        assert_eq!(rt; same, 1, "gno {gno}");
    }
}

impl<J, R> SourceRig<'_, '_, J, R>
where
    J: SourceNaming + Send + Sync,
    R: Threads + Wait + Abort + Clock + Sync,
{
    /// Runs the course, and returns how many records are flushed then.
    fn run(&self, course: Course) -> Result<usize, Fail> {
        match course {
            Course::InTurn => self.commit_in_turn(),
            Course::Failing => self.is_halted(),
            Course::Beside => self.commit_beside(0, 4, 10),
            Course::Refused => self.is_refused(),
            Course::GiveUp => self.give_up(),
            Course::Held => self.is_held(),
            Course::Slow => self.is_shared(),
            Course::Aside => self.wait_beside(),
            Course::NappingAlone => self.nap_alone(),
            Course::Followed => self.is_followed(),
            Course::Told => self.are_told(),
            Course::Rotated => self.rotate_between(),
            Course::RotatedBeside => self.rotate_beside(),
            Course::RotatedInVain => self.rotate_in_vain(),
            Course::RotatedTwice => self.rotate_twice(),
            Course::Woken => self.are_woken(),
        }
    }
}
