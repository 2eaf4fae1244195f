//! Both sides as their threads share them. It has the work of all threads except those that feed the replica, and the
//! comparison of each row once all have ended.

ghost use Rattle.std.specs.Prelude.{◌≡◌, None};
ghost use Rattle.mtr.specs.Options.{IsInRange};
ghost use Rattle.mtr.specs.declared.options.Options.TheVariants as asked;

use super::changes::{row_left, row_of};
use super::ended::Counts;
use super::reading::Reader;
use super::trouble::Trouble;
use crate::options::Plan;
use crate::pair::NewStore;
use log_device::MemoryDevice;
use replica_shared::{NoGate, ReplicaNaming, SharedReplica};
use source_shared::{Receipt, SessionSeat, SharedSource, SourceNaming};
use std::alloc::Global;
use std::sync::Wait;
use std::thread::{Threads, join, map_indices};
use tracker_trait::Tracker;

/// How many times each reader reads.
pub const READS: usize = 100;

/// The source, with its log file in memory.
pub type Source<S, T, J> = SharedSource<S, T, MemoryDevice, J>;

/// The replica.
pub type Replica<S, K> = SharedReplica<S, K>;

/// What the threads come to: the receipts of all sessions, all readers, and the counts.
pub type Met<S, J, K> = (Vec<Receipt<J>>, Vec<Reader<S, K>>, Counts);

/// Both sides, the plan for them, and the handle that starts threads.
#[derive(Drop)]
pub struct Shared<
    'a,
    S: NewStore,
    T: Tracker + Drop + Send + Sync,
    J: SourceNaming + Send + Sync,
    K: ReplicaNaming + Send + Sync,
    H: Threads + Wait + Sync,
> {
    pub rt: &'a H,
    pub alloc: Global,
    pub plan: &'a Plan,
    pub source: &'a Source<S, T, J>,
    pub replica: &'a Replica<S, K>,
    ghost in_range: { IsInRange (asked.Threads plan.now) },
    /// The replica's log is not known in advance.
    ghost free: { K.names.log ≡ None },
}

impl<
    S: NewStore,
    T: Tracker + Drop + Send + Sync,
    J: SourceNaming + Send + Sync,
    K: ReplicaNaming + Send + Sync,
    H: Threads + Wait + Sync,
> Shared<'_, S, T, J, K, H> {
    /// Runs all threads, and compares the rows of both sides once they have ended.
    pub fn meet(&self) -> Result<Met<S, J, K>, Trouble> {
        // If no thread can be made, `join` calls the second closure first.
        let (readers, (worked, receipts)) = join(self.rt, || self.read_all(), || self.apply());
        let receipts = receipts?;
        let workers = worked?;
        let mut readers = readers?;
        let reader = readers.last_mut().ok_or(Trouble::Different)?;
        let rows = self.compare(reader, &receipts)?;
        Ok((receipts, readers, Counts { workers, rows }))
    }

    /// Runs the workers beside the threads that feed the replica.
    fn apply(&self) -> (Result<usize, Trouble>, Result<Vec<Receipt<J>>, Trouble>) {
        join(self.rt, || self.work_all(), || self.feed())
    }

    /// Runs the workers, each in a separate thread, until all records are committed and published. Returns the number
    /// of workers.
    fn work_all(&self) -> Result<usize, Trouble> {
        let workers = self.plan.sides.workers;
        let each = map_indices(self.rt, self.alloc, workers, &|_place| self.work())?;
        let count = each.len();
        for worked in each {
            worked?;
        }
        Ok(count)
    }

    fn work(&self) -> Result<(), Trouble> {
        Ok(self.replica.worker(self.rt, self.alloc, &NoGate)?)
    }

    /// Lets each seat read in a separate thread, and returns the readers.
    fn read_all(&self) -> Result<Vec<Reader<S, K>>, Trouble> {
        let seats = self.plan.seats;
        let each = map_indices(self.rt, self.alloc, seats, &|_place| self.read_many())?;
        let mut readers = Vec::new(self.alloc);
        for reader in each {
            readers.push(reader?)?;
        }
        Ok(readers)
    }

    /// Takes a seat and reads the first row of the first session, again and again. No read may fail.
    fn read_many(&self) -> Result<Reader<S, K>, Trouble> {
        let seat = self.replica.seat(self.rt).ok_or(Trouble::Different)?;
        let mut reader = Reader::new(self.alloc, seat, READS)?;
        for _ in 0..READS {
            reader.read(row_of(1, 1))?;
        }
        Ok(reader)
    }

    /// Reads each row at the source, and at the replica by a reader that learnt of the last commit. Returns the number
    /// of rows that both have as the sessions left them.
    fn compare(
        &self,
        reader: &mut Reader<S, K>,
        receipts: &[Receipt<J>],
    ) -> Result<usize, Trouble> {
        reader.learn(self.replica.wait_for(self.rt, last_gno(receipts))?);
        let sessions = self.plan.sessions as u16;
        // A session that wrote nothing sees only what is committed.
        let mut seat = self.source.session(self.rt, sessions + 1)?;
        let mut count = 0usize;
        for session in 1..=sessions {
            count = count.saturating_add(self.compare_session(&mut seat, reader, session)?);
        }
        Ok(count)
    }

    /// The number of rows of the session that both sides have as it left them.
    fn compare_session(
        &self,
        seat: &mut SessionSeat<J>,
        reader: &mut Reader<S, K>,
        session: u16,
    ) -> Result<usize, Trouble> {
        let transactions = self.plan.transactions as u16;
        let mut count = 0usize;
        for transaction in 1..=transactions {
            let row = row_of(session, transaction);
            let left = Some(row_left(session, transaction, transactions));
            if self.source.read(self.rt, seat, row)? == left && reader.read(row)? == left {
                count = count.saturating_add(1);
            }
        }
        Ok(count)
    }
}

/// The greatest gno of these receipts, or 0 if there are none.
fn last_gno<J: SourceNaming>(receipts: &[Receipt<J>]) -> u64 {
    let mut last = 0;
    for receipt in receipts {
        last = receipt.given().gno.max(last);
    }
    last
}
