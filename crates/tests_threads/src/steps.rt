//! The calls that a shared replica under test gets: records one by one, each again if memory runs out, and waits between
//! them.

use crate::device::PATIENCE;
use crate::gates::HoldingGate;
use crate::makers::{ONE, SOURCE, answer};
use crate::replicas::ReplicaRig;
use record_codec::Record;
use relay::{Received, ReplicaFault};
use replica_shared::{ReplicaNaming, Sleepers, WorkerGate};
use std::process::Abort;
use std::sync::Wait;
use std::test::Fail;
use std::thread::{Threads, join, sleep};
use std::time::{Clock, Duration};
use tests_stores::again;
use uuid::Uuid;

/// What the thread that hands over the records does next.
#[derive(Clone, Copy, Drop)]
pub enum Step {
    /// Waits until the first number of calls of `worker` and the second number of calls of `wait_for` sleep.
    Sleep(u64, u64),
    /// Hands over the records from the first number to the second.
    Take(u64, u64),
    /// Waits for the commit of this number, unless some calls did not sleep in time.
    Show(u64),
}

impl<J, R> ReplicaRig<'_, J, R>
where
    J: ReplicaNaming + Send + Sync,
    R: Threads + Wait + Abort + Clock + Sync,
{
    /// Goes through the steps, and closes the replica, whatever came of them. Fails with `Memory` if the calls do not
    /// sleep in time: then there was no memory for a thread, or a worker ended when memory ran out.
    pub fn feed(&self, steps: &[Step]) -> Result<(), ReplicaFault> {
        let fed = self.feed_each(steps);
        self.shared.close(self.rt);
        if fed? {
            Ok(())
        } else {
            Err(ReplicaFault::Memory)
        }
    }

    /// Whether all slept in time. Records are handed over even if they did not, so that nobody waits for ever.
    fn feed_each(&self, steps: &[Step]) -> Result<bool, ReplicaFault> {
        let mut in_time = true;
        for step in steps {
            match *step {
                Step::Sleep(workers, readers) => {
                    in_time = in_time && self.sleep_all(workers, readers);
                }
                Step::Take(first, last) => self.receive_each(first, last)?,
                Step::Show(gno) => {
                    if in_time {
                        self.shared.wait_for(self.rt, gno)?;
                    }
                }
            }
        }
        Ok(in_time)
    }

    /// Hands over the records from number `first` to number `last`.
    pub fn receive_each(&self, first: u64, last: u64) -> Result<(), ReplicaFault> {
        for record in self.records {
            if first <= record.gno && record.gno <= last {
                self.receive(record)?;
            }
        }
        Ok(())
    }

    /// Hands over a record, and again if memory runs out. By then it may have been accepted, and a worker may have
    /// stopped the replica at it.
    pub fn receive(&self, new: &Record) -> Result<Received, ReplicaFault> {
        let source = Uuid::from_u128(SOURCE);
        match self.shared.receive(self.rt, source, new) {
            Err(ReplicaFault::Memory) => match self.shared.receive(self.rt, source, new) {
                Err(ReplicaFault::Stopped(gno)) if gno == new.gno => Ok(Received::Accepted),
                answer => answer.and(Ok(Received::Accepted)),
            },
            answer => answer,
        }
    }

    /// Whether `workers` calls of `worker` and `readers` calls of `wait_for` sleep before the patience ends.
    pub fn sleep_all(&self, workers: u64, readers: u64) -> bool {
        for _ in 0..PATIENCE {
            if self.shared.sleepers(self.rt) == (Sleepers { workers, readers }) {
                return true;
            }
            sleep(self.rt, Duration::from_millis(1));
        }
        false
    }

    /// Runs a worker, and another one if memory runs out.
    pub fn work<G: WorkerGate>(&self, gate: &G) -> Result<(), ReplicaFault> {
        again!(ReplicaFault::Memory => self.shared.worker(self.rt, self.alloc, gate))
    }

    /// Runs two workers with this gate.
    pub fn two_work(&self, gate: &HoldingGate) -> [Result<(), ReplicaFault>; 2] {
        let (one, two) = join(
            self.rt,
            || self.shared.worker(self.rt, self.alloc, gate),
            || self.shared.worker(self.rt, self.alloc, gate),
        );
        [one, two]
    }

    /// How many commits are published once the commit of this number is.
    pub fn shown(&self, gno: u64) -> Result<u64, ReplicaFault> {
        self.shared
            .wait_for(self.rt, gno)
            .map(|notice| notice.upto())
    }

    /// Checks that `published` of the three records are published, and that the only seat reads these columns of the row
    /// once it has learnt that.
    pub fn shows(&self, published: u64, columns: [i64; 2]) -> Result<u64, Fail> {
        let mut seat = self.shared.seat(self.rt).ok_or("a seat")?;
        assert!(self.rt; self.shared.seat(self.rt).is_none(), "a second seat");
        seat.learn(self.shared.wait_for(self.rt, published)?);
        assert_eq!(self.rt; seat.read(ONE), Some(answer(&columns, published, 0)));
        let status = self.shared.status(self.rt);
        assert_eq!(self.rt; [status.committed, status.published], [published; 2]);
        Ok(published)
    }
}
