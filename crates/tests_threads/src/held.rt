//! A shared source whose device is held or slow: what others do and get meanwhile, how a session waits beside a group
//! that another one writes, and how many of the sleeping threads are woken.

use crate::device::PATIENCE;
use crate::makers::insert;
use crate::sources::SourceRig;
use schema::Memory;
use source_core::SourceFault;
use source_shared::{SessionSeat, SourceNaming, Waits};
use std::process::Abort;
use std::sync::Wait;
use std::sync::atomic::{AtomicBool, AtomicU64, Ordering};
use std::test::Fail;
use std::thread::{Threads, join, map_indices, sleep};
use std::time::{Clock, Duration};

/// How many sessions sleep after the first one's group, and how many groups there are: its own, that of the next, and one
/// of all others.
const BEHIND: u64 = 8;

const GROUPS: u64 = 3;

/// How many milliseconds a sync takes once they sleep: longer than a session that is woken for nothing needs to look.
const LONG: u64 = 5;

/// The number of calls of each kind: of `commit`, of `bytes_past` and of `rotate`.
pub fn waits(sessions: u64, followers: u64, rotators: u64) -> Waits {
    Waits {
        sessions,
        followers,
        rotators,
    }
}

/// How often each of two sessions commits.
const TURNS: u64 = 20;

/// How often at most all is done, if the machine has no time for these threads.
const ROUNDS: u64 = 8;

/// How many microseconds at least a session waits beside a group of two milliseconds: more than one sync takes, and less
/// than the time after which its own group is flushed.
const BESIDE: u64 = 1500;

/// The microseconds of a nap, and of half the longest series of naps.
const NAP: u64 = 50;

const FEW_NAPS: u64 = 400;

/// Whether these microseconds are about one nap.
fn is_one_nap(micros: u64) -> bool {
    NAP <= micros && micros < FEW_NAPS
}

impl<J, R> SourceRig<'_, '_, J, R>
where
    J: SourceNaming + Send + Sync,
    R: Threads + Wait + Abort + Clock + Sync,
{
    /// The first session's group is held, the second's is flushed beside it, and two more sessions sleep meanwhile.
    pub fn is_held(&self) -> Result<usize, Fail> {
        // (The first session does not sleep: to wake it instead of those that have to lead would leave them asleep.)
        let (((first, second), (third, fourth)), looked) = join(
            self.rt,
            || join(
                self.rt,
                || join(
                    self.rt,
                    || self.commit_one(1),
                    || self.commit_one_behind(1, 2),
                ),
                || join(
                    self.rt,
                    || self.commit_one_behind(2, 3),
                    || self.commit_one_behind(2, 4),
                ),
            ),
            || self.look(),
        );
        // (If there is no memory for a thread, the sessions commit one after another.)
        let hidden = looked.ok_or(Memory)?;
        assert!(self.rt; hidden, "the first record is shown before it is synced");
        let is_late = self.orders.is_late.load(Ordering::SeqCst);
        assert!(self.rt; !is_late, "the second is not flushed beside it");
        assert_eq!(self.rt; [first, second], [Ok(1), Ok(2)]);
        third?;
        fourth?;
        Ok(4)
    }

    /// The first session's group fails after its sync was held. Meanwhile the second session sleeps with its own group,
    /// and another thread follows the log: both learn of the failure.
    pub fn are_told(&self) -> Result<usize, Fail> {
        // (If no thread can be made, the second closure is called first: so it has what the first one waits for.)
        let (((second, followed), first), looked) = join(
            self.rt,
            || join(
                self.rt,
                || join(self.rt, || self.commit_one_behind(1, 2), || self.follow()),
                || self.commit_or_close(),
            ),
            || self.look(),
        );
        looked.ok_or(Memory)?;
        for ended in [first, second] {
            if ended == Err(SourceFault::Memory) {
                Err(Memory)?;
            }
            assert_eq!(self.rt; ended, Err(SourceFault::Halted));
        }
        assert_eq!(self.rt; followed?.len(), 0);
        Ok(2)
    }

    /// The first session's commit. If that does not halt the source, the source is closed.
    fn commit_or_close(&self) -> Result<u64, SourceFault> {
        let done = self.commit_one(1);
        if done != Err(SourceFault::Halted) {
            self.source.close(self.rt);
        }
        done
    }

    /// Frees the device soon after the second record is flushed, and returns whether the first was hidden then, or `None`
    /// if the second is not flushed in time.
    fn look(&self) -> Option<bool> {
        let is_flushed = self.are_flushed(2);
        let hidden = is_flushed.then(|| matches!(self.source.record(self.rt, 1), Ok(None)));
        self.orders.free_soon();
        hidden
    }

    /// Two sessions commit in turn, each beside the group of the other. That group comes back before the next one is
    /// flushed, and so its session got the lock meanwhile.
    pub fn wait_beside(&self) -> Result<usize, Fail> {
        let mut one = self.source.session(self.rt, 1)?;
        let mut two = self.source.session(self.rt, 2)?;
        let mut free = 0;
        for _round in 0..ROUNDS {
            free = self.take_turns(&mut one, &mut two)?;
            if free >= TURNS {
                break;
            }
        }
        assert!(self.rt;
            free >= TURNS,
            "{free} of {TURNS} groups twice come back before the next is flushed"
        );
        Ok(self.source.flushed(self.rt)? as usize)
    }

    /// Both commit in turn. Returns how many groups came back before the next one was flushed.
    fn take_turns(
        &self,
        one: &mut SessionSeat<J>,
        two: &mut SessionSeat<J>,
    ) -> Result<u64, SourceFault> {
        let first = self.source.flushed(self.rt)?;
        let called = AtomicU64::new(0);
        let (one, two) = join(
            self.rt,
            || self.take_turns_behind(one, first, &called),
            || self.take_turns_behind(two, first.saturating_add(1), &called),
        );
        Ok(one?.saturating_add(two?))
    }

    /// Commits inserts, each once the other session's record before it is flushed. Returns how often the other session
    /// waited long beside this one's group, and was not flushed when the group came back.
    fn take_turns_behind(
        &self,
        seat: &mut SessionSeat<J>,
        first: u64,
        called: &AtomicU64,
    ) -> Result<u64, SourceFault> {
        let mut free = 0u64;
        for turn in 0..TURNS {
            let before = first.saturating_add(2 * turn);
            self.prepare_next(seat)?;
            if !self.are_flushed(before) {
                return Err(SourceFault::Memory);
            }
            let start = self.micros();
            called.store(start, Ordering::SeqCst);
            self.commit(seat)?;
            let other = called.load(Ordering::SeqCst);
            let is_beside = start < other && other.saturating_add(BESIDE) <= self.micros();
            if is_beside && self.source.flushed(self.rt) == Ok(before.saturating_add(1)) {
                free = free.saturating_add(1);
            }
        }
        Ok(free)
    }

    /// A session that gave up has a receipt that it has not taken. Two sessions make the groups long. Then the device is
    /// fast, and one session commits by itself: as long as it has to nap, it does so once for each commit.
    pub fn nap_alone(&self) -> Result<usize, Fail> {
        let mut refused = self.prepared(5)?;
        self.orders.refusals.store(1, Ordering::SeqCst);
        let told = self.commit_once(&mut refused);
        assert_eq!(self.rt; told, Err(SourceFault::Memory));
        let mut one = self.source.session(self.rt, 1)?;
        let mut two = self.source.session(self.rt, 2)?;
        let mut naps = 0;
        for _round in 0..ROUNDS {
            self.orders.millis.store(1, Ordering::SeqCst);
            self.take_turns(&mut one, &mut two)?;
            self.orders.millis.store(0, Ordering::SeqCst);
            naps = self.nap_of(&mut one)?;
            if is_one_nap(naps) {
                break;
            }
        }
        assert!(self.rt; is_one_nap(naps), "{naps} microseconds of naps");
        self.commit_once(&mut refused)?;
        Ok(self.source.flushed(self.rt)? as usize)
    }

    /// How many microseconds longer a commit takes just after long groups than some commits later.
    fn nap_of(&self, seat: &mut SessionSeat<J>) -> Result<u64, SourceFault> {
        let napping = self.fastest(seat)?;
        self.fastest(seat)?;
        let awake = self.fastest(seat)?;
        Ok(napping.saturating_sub(awake))
    }

    /// How many microseconds the fastest of six commits takes.
    fn fastest(&self, seat: &mut SessionSeat<J>) -> Result<u64, SourceFault> {
        let mut least = u64::MAX;
        for _ in 0..6 {
            self.prepare_next(seat)?;
            let start = self.micros();
            self.commit(seat)?;
            least = least.min(self.micros().saturating_sub(start));
        }
        Ok(least)
    }

    /// Prepares an insert of a row that only this session writes.
    fn prepare_next(&self, seat: &mut SessionSeat<J>) -> Result<(), SourceFault> {
        let key = self
            .source
            .flushed(self.rt)?
            .saturating_mul(1000)
            .saturating_add(seat.session() as u64);
        self.prepare(seat, &insert(key.cast_signed(), [5, 6])?)?;
        Ok(())
    }

    /// Microseconds since some start.
    fn micros(&self) -> u64 {
        let passed = self.rt.monotonic().map_or(0, |time| time.as_micros());
        u64::try_from(passed).unwrap_or(u64::MAX)
    }

    /// The first session's group is held while the others sleep. Then groups take long, and two threads take the lock as
    /// often as they can. Each session that sleeps looks once more, and each leader once more for its group.
    pub fn are_woken(&self) -> Result<usize, Fail> {
        let is_over = AtomicBool::new(false);
        let ((_, before), committed) = join(
            self.rt,
            || join(
                self.rt,
                || join(
                    self.rt,
                    || self.pass_by(&is_over),
                    || self.pass_by(&is_over),
                ),
                || self.look_behind(),
            ),
            || {
                let committed = self.commit_all_behind();
                is_over.store(true, Ordering::SeqCst);
                committed
            },
        );
        let committed = committed?;
        let woken = self
            .source
            .looks(self.rt)
            .sessions
            .saturating_sub(before.ok_or(Memory)?);
        if woken != BEHIND + GROUPS || self.orders.groups() != GROUPS {
            // If memory ran out, others are woken too.
            Err(Memory)?;
        }
        Ok(committed)
    }

    /// Takes the lock as often as it can until all is over.
    fn pass_by(&self, is_over: &AtomicBool) {
        for _ in self.rt.forever() {
            if is_over.load(Ordering::SeqCst) {
                return;
            }
            let _flushed = self.source.flushed(self.rt);
        }
    }

    /// How often sessions had looked when all slept, or `None` if they don't in time. Then the device is freed, and slow.
    fn look_behind(&self) -> Option<u64> {
        let in_time = self.sleep_all(waits(BEHIND, 0, 0));
        let looks = self.source.looks(self.rt).sessions;
        self.orders.millis.store(LONG, Ordering::SeqCst);
        self.orders.freed.store(true, Ordering::SeqCst);
        in_time.then_some(looks)
    }

    /// The first session commits, the next once that is flushed, and the others once both are. Returns how many do.
    fn commit_all_behind(&self) -> Result<usize, Fail> {
        let each = map_indices(self.rt, self.alloc, 9, &|place| self.commit_place(place))?;
        let count = each.len();
        for committed in each {
            committed?;
        }
        Ok(count)
    }

    /// Commits an insert of the session at this place, counted from 0.
    fn commit_place(&self, place: usize) -> Result<u64, SourceFault> {
        let place = u16::try_from(place).unwrap_or(u16::MAX);
        self.commit_one_behind(place.min(2) as u64, place.saturating_add(1))
    }

    /// Whether this number of calls sleep before the patience ends.
    pub fn sleep_all(&self, wanted: Waits) -> bool {
        for _ in 0..PATIENCE {
            if self.source.sleepers(self.rt) == wanted {
                return true;
            }
            sleep(self.rt, Duration::from_millis(1));
        }
        false
    }
}
