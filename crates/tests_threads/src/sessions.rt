//! Sessions of a shared source: their calls, each made again if memory runs out, in turn, side by side, and in groups.
//! Groups come after one for which the device ran out of memory, or while syncs are slow.

use crate::device::PATIENCE;
use crate::makers::{ONE, insert, set};
use crate::sources::SourceRig;
use rows::{Change, Row};
use schema::Memory;
use source_core::{Prepared, SourceFault};
use source_shared::{Receipt, SessionSeat, SourceNaming};
use std::process::Abort;
use std::sync::Wait;
use std::sync::atomic::Ordering;
use std::test::Fail;
use std::thread::{Threads, join, map_indices, sleep};
use std::time::{Clock, Duration};
use tests_stores::again;

/// How often at most sixteen sessions commit until they share their syncs: each time others of the 256.
const ROUNDS: usize = 16;

/// How many milliseconds are between two of these times.
const PAUSE: u64 = 250;

impl<J, R> SourceRig<'_, '_, J, R>
where
    J: SourceNaming + Send + Sync,
    R: Threads + Wait + Abort + Clock + Sync,
{
    /// A transaction of one change, from its begin to its receipt. Returns what was prepared, and the gno.
    pub fn transact(
        &self,
        seat: &mut SessionSeat<J>,
        change: &Change,
    ) -> Result<(Prepared, u64), SourceFault> {
        let prepared = self.prepare(seat, change)?;
        let gno = self.commit(seat)?;
        Ok((prepared, gno))
    }

    /// Begins, writes and prepares.
    pub fn prepare(
        &self,
        seat: &mut SessionSeat<J>,
        change: &Change,
    ) -> Result<Prepared, SourceFault> {
        self.write(seat, change)?;
        self.source.prepare(self.rt, seat)
    }

    /// Begins and writes. If memory runs out, it writes once more.
    fn write(&self, seat: &mut SessionSeat<J>, change: &Change) -> Result<(), SourceFault> {
        self.source.begin(self.rt, seat)?;
        again!(SourceFault::Memory => self.source.write(self.rt, seat, *change))
    }

    /// Commits what is prepared, once more if memory runs out, and returns the gno.
    pub fn commit(&self, seat: &mut SessionSeat<J>) -> Result<u64, SourceFault> {
        let receipt = again!(SourceFault::Memory => self.source.commit(self.rt, seat))?;
        self.keep(receipt)
    }

    /// Like `commit`, but does not try again if memory runs out.
    pub fn commit_once(&self, seat: &mut SessionSeat<J>) -> Result<u64, SourceFault> {
        self.keep(self.source.commit(self.rt, seat)?)
    }

    /// Keeps the receipt, and returns its gno.
    fn keep(&self, receipt: Receipt<J>) -> Result<u64, SourceFault> {
        let gno = receipt.given().gno;
        self.receipts.lock(self.rt).push(receipt)?;
        Ok(gno)
    }

    /// The seat of the session, with an insert prepared.
    pub fn prepared(&self, session: u16) -> Result<SessionSeat<J>, SourceFault> {
        let mut seat = self.source.session(self.rt, session)?;
        self.prepare(&mut seat, &insert(session as i64, [5, 6])?)?;
        Ok(seat)
    }

    /// Commits an insert of the session, and returns its gno.
    pub fn commit_one(&self, session: u16) -> Result<u64, SourceFault> {
        let mut seat = self.source.session(self.rt, session)?;
        let change = insert(session as i64, [5, 6])?;
        Ok(self.transact(&mut seat, &change)?.1)
    }

    /// Like `commit_one`, but once `count` records are flushed. Fails with `Memory` if they are not in time: then there
    /// was no memory for another session's thread.
    pub fn commit_one_behind(&self, count: u64, session: u16) -> Result<u64, SourceFault> {
        if !self.are_flushed(count) {
            return Err(SourceFault::Memory);
        }
        self.commit_one(session)
    }

    /// Whether `count` records are flushed within `PATIENCE` milliseconds.
    pub fn are_flushed(&self, count: u64) -> bool {
        for _ in 0..5 * PATIENCE {
            if self
                .source
                .flushed(self.rt)
                .is_ok_and(|flushed| flushed >= count)
            {
                return true;
            }
            sleep(self.rt, Duration::from_micros(200));
        }
        false
    }

    /// The first session aborts an insert, the last one inserts the row instead, and then the first sets it. Then the
    /// source is closed, and its log followed.
    pub fn commit_in_turn(&self) -> Result<usize, Fail> {
        let (rt, source) = (self.rt, self.source);
        let mut one = source.session(rt, 1)?;
        let mut last = source.session(rt, 256)?;
        for session in [1, 256] {
            let second = source.session(rt, session).err();
            assert_eq!(rt; second, Some(SourceFault::AlreadyOpen));
        }
        let change = insert(10, [5, 6])?;
        self.write(&mut one, &change)?;
        source.abort(rt, &mut one)?;
        assert_eq!(rt; source.flushed(rt), Ok(0));
        let first = self.transact(&mut last, &change);
        assert_eq!(rt; source.flushed(rt), Ok(1));
        let second = self.transact(&mut one, &set(10, 7)?);
        assert_eq!(rt; source.flushed(rt), Ok(2));
        assert_eq!(rt; first, Ok((Prepared::Parent(0), 1)));
        assert_eq!(rt; second, Ok((Prepared::Parent(1), 2)));
        source.begin(rt, &mut one)?;
        assert_eq!(rt; source.read(rt, &mut one, ONE), Ok(Row::new(&[7, 6])));
        source.close(rt);
        self.are_bytes(self.follow()?, 2)?;
        Ok(2)
    }

    /// A session's commit fails, and all calls are refused from then on.
    pub fn is_halted(&self) -> Result<usize, Fail> {
        let (rt, source) = (self.rt, self.source);
        let mut seat = source.session(rt, 1)?;
        let refused = self.transact(&mut seat, &insert(10, [5, 6])?);
        assert_eq!(rt; refused, Err(SourceFault::Halted));
        for fault in [
            source.commit(rt, &mut seat).err(),
            source.begin(rt, &mut seat).err(),
            source.read(rt, &mut seat, ONE).err(),
            source.prepare(rt, &mut seat).err(),
            source.abort(rt, &mut seat).err(),
            source.session(rt, 2).err(),
            source.flushed(rt).err(),
        ] {
            assert_eq!(rt; fault, Some(SourceFault::Halted));
        }
        Ok(1)
    }

    /// `count` sessions commit inserts side by side, of `rows` separate rows each. They are the last sessions but for the
    /// very last `first`.
    pub fn commit_beside(&self, first: usize, count: usize, rows: u16) -> Result<usize, Fail> {
        let each = map_indices(
            self.rt,
            self.alloc,
            count,
            &|place| self.commit_each(place.saturating_add(first), rows),
        )?;
        for committed in each {
            committed?;
        }
        Ok(count.saturating_mul(rows as usize))
    }

    /// Commits inserts of `rows` rows, in the session of number 256 minus `place`.
    fn commit_each(&self, place: usize, rows: u16) -> Result<(), SourceFault> {
        let session = 256u16.saturating_sub(u16::try_from(place).unwrap_or(u16::MAX));
        let mut seat = self.source.session(self.rt, session)?;
        for key in 0..rows as i64 {
            let change = insert(session as i64 * 1000 + key, [key, 0])?;
            self.transact(&mut seat, &change)?;
        }
        Ok(())
    }

    /// Memory runs out for the first session's group, each time that one of the first 255 sessions writes it; the others
    /// stay queued. The last session writes it, and then all other transactions with its own as one group.
    pub fn is_refused(&self) -> Result<usize, Fail> {
        let mut seats = self.all_prepared()?;
        let mut last = self.prepared(256)?;
        self.orders.refusals.store(255, Ordering::SeqCst);
        self.are_refused(&mut seats);
        assert_eq!(self.rt; self.commit_once(&mut last)?, 256);
        self.are_committed(&mut seats)?;
        assert_eq!(self.rt; self.orders.groups(), 2);
        Ok(256)
    }

    /// The seats of all sessions but the last, each with an insert prepared.
    fn all_prepared(&self) -> Result<Vec<SessionSeat<J>>, Fail> {
        let mut seats = Vec::new(self.alloc);
        for session in 1..256 {
            seats.push(self.prepared(session)?)?;
        }
        Ok(seats)
    }

    /// Checks that each commit of these runs out of memory.
    fn are_refused(&self, seats: &mut [SessionSeat<J>]) {
        for seat in seats {
            assert_eq!(self.rt; self.commit_once(seat), Err(SourceFault::Memory));
        }
    }

    /// Checks that these are the first commits, in their order.
    fn are_committed(&self, seats: &mut [SessionSeat<J>]) -> Result<(), SourceFault> {
        for (place, seat) in seats.iter_mut().enumerate() {
            let given = self.commit_once(seat)?;
            assert_eq!(self.rt; given, (place as u64).saturating_add(1));
        }
        Ok(())
    }

    /// Sixteen sessions commit twelve times each. They share nearly all of their syncs: each one that comes back from a
    /// group comes to the next one in time. If one led by itself and the others after it, each turn would make two
    /// groups. (All is done again, with other sessions and a while later, if the machine has no time for these threads.
    /// So it is if there is no memory for threads, and the sessions commit one after another.)
    pub fn is_shared(&self) -> Result<usize, Fail> {
        let mut committed = 0usize;
        for round in 0..ROUNDS {
            let before = self.orders.groups();
            let more = self.commit_beside(16 * round, 16, 12)?;
            committed = committed.saturating_add(more);
            if self.orders.groups().saturating_sub(before) < 22 {
                return Ok(committed);
            }
            sleep(self.rt, Duration::from_millis(PAUSE));
        }
        Err(Memory)?
    }

    /// The first session's group is held and then runs out of memory, as it does with the next of the two sessions that
    /// sleep. Neither of these calls again, and the third session still gets its receipt. Then both call again.
    pub fn give_up(&self) -> Result<usize, Fail> {
        let mut one = self.prepared(1)?;
        let mut two = self.prepared(2)?;
        let mut three = self.prepared(3)?;
        self.orders.refusals.store(2, Ordering::SeqCst);
        let ((third, (second, first)), _) = join(
            self.rt,
            || join(
                self.rt,
                || self.commit_behind(&mut three),
                || join(
                    self.rt,
                    || self.commit_behind(&mut two),
                    || self.commit_behind(&mut one),
                ),
            ),
            || {
                self.are_flushed(2);
                self.orders.free_soon();
            },
        );
        // (If there is no memory for a thread, or for what a commit does, all may be refused.)
        second.or(third)?;
        assert!(self.rt;
            first.is_err() && (second.is_err() || third.is_err()),
            "too few are refused"
        );
        self.is_committed(&mut one, first)?;
        self.is_committed(&mut two, second)?;
        self.is_committed(&mut three, third)?;
        Ok(3)
    }

    /// Checks that the gno of the session's commit is the session's number. A session that was refused calls again.
    fn is_committed(
        &self,
        seat: &mut SessionSeat<J>,
        ended: Result<u64, SourceFault>,
    ) -> Result<(), SourceFault> {
        let given = match ended {
            Ok(gno) => gno,
            Err(_) => self.commit_once(seat)?,
        };
        assert_eq!(self.rt; given, seat.session() as u64);
        Ok(())
    }

    /// Commits what is prepared, once a record for each session before this one is flushed, and returns the gno. Fails
    /// with `Memory` if they are not in time.
    fn commit_behind(&self, seat: &mut SessionSeat<J>) -> Result<u64, SourceFault> {
        if !self.are_flushed((seat.session() as u64).saturating_sub(1)) {
            return Err(SourceFault::Memory);
        }
        self.commit_once(seat)
    }
}
