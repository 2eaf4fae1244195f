//! What other threads get while a worker has a job: the lock, the status and, if the order of the log is not kept, the
//! later commits.

use crate::device::comes;
use crate::gates::HoldingGate;
use crate::makers::{ONE, SOURCE, answer, counts, insert, set};
use crate::replicas::ReplicaRig;
use crate::steps::Step;
use gtid_set::GtidSet;
use published::{Answer, Counts};
use record_codec::Record;
use relay::ReplicaFault;
use replica_shared::{NoGate, ReplicaNaming, WorkerGate};
use schema::{Gtid, Memory, RowId};
use std::alloc::Global;
use std::process::Abort;
use std::sync::Wait;
use std::sync::atomic::{AtomicBool, AtomicU64, Ordering};
use std::test::Fail;
use std::thread::{Threads, join, sleep};
use std::time::{Clock, Duration};
use tests_log::common::{record, record_of};
use uuid::Uuid;

/// How many records come, and how many changes each has: a worker needs about a millisecond for one record.
const RECORDS: u64 = 40;

const CHANGES: i64 = 1024;

/// How often at most a thread looks whether it gets the lock.
const LOOKS: u32 = 30_000;

/// Notes which job was entered last, and whether the worker has ended.
#[derive(Drop)]
struct Last {
    entered: AtomicU64,
    over: AtomicBool,
}

impl WorkerGate for Last {
    fn entered(&self, gno: u64) {
        self.entered.store(gno, Ordering::SeqCst);
    }

    fn left(&self, _gno: u64) {}
}

/// The record of this number: the first one inserts rows, and each other one sets them.
fn large(alloc: Global, gno: u64) -> Result<Record, Memory> {
    let mut changes = Vec::with_capacity(alloc, 1024)?;
    for key in 0..CHANGES {
        let change = if gno == 1 {
            insert(key, [5, 6])?
        } else {
            set(key, gno.cast_signed())?
        };
        changes.push(change)?;
    }
    record_of(alloc, gno, gno.saturating_sub(1), changes)
}

/// The row that the second record inserts.
const TWO: RowId = RowId { table: 1, key: 11 };

/// How many records come: the jobs of the first and the last are as far apart as there are places for jobs.
const FAR: u64 = 65;

/// The set that has only the id of the second record.
fn only_two(alloc: Global) -> Result<GtidSet, Memory> {
    let mut set = GtidSet::new(alloc);
    let id = Gtid {
        source: Uuid::from_u128(SOURCE),
        gno: 2,
    };
    set.add(id).map_err(|_| Memory)?;
    Ok(set)
}

impl<J, R> ReplicaRig<'_, J, R>
where
    J: ReplicaNaming + Send + Sync,
    R: Threads + Wait + Abort + Clock + Sync,
{
    /// One worker executes all records, beside a thread that takes the lock now and then. That thread gets the lock while
    /// a job is executed, some time after the job was entered.
    pub fn is_unlocked(&self) -> Result<u64, Fail> {
        for gno in 1..=RECORDS {
            self.receive(&large(self.alloc, gno)?)?;
        }
        self.shared.close(self.rt);
        let gate = Last {
            entered: AtomicU64::new(0),
            over: AtomicBool::new(false),
        };
        let (worked, is_free) = join(
            self.rt,
            || self.work_to_the_end(&gate),
            || self.is_free(&gate),
        );
        worked?;
        // (If there is no memory for a thread, the other one looks before the worker begins.)
        if !is_free {
            Err(Memory)?;
        }
        Ok(RECORDS)
    }

    fn work_to_the_end(&self, gate: &Last) -> Result<(), ReplicaFault> {
        let worked = self.work(gate);
        gate.over.store(true, Ordering::SeqCst);
        worked
    }

    /// Whether the lock can be taken a tenth of a millisecond after a job was entered, and before it is committed.
    fn is_free(&self, gate: &Last) -> bool {
        for _ in 0..LOOKS {
            let over = gate.over.load(Ordering::SeqCst);
            let entered = gate.entered.load(Ordering::SeqCst);
            sleep(self.rt, Duration::from_micros(100));
            self.shared.sleepers(self.rt);
            if self.shared.status(self.rt).committed < entered {
                return true;
            }
            if over {
                return false;
            }
        }
        false
    }

    /// The first job is held until the third is left, so that its result commits all three. While the first commit is
    /// held, the status is read. The working rows take all three, and then a copy does.
    pub fn are_stored(&self) -> Result<u64, Fail> {
        self.feed(&[Step::Take(1, 3)])?;
        self.notes.word.store(0, Ordering::SeqCst);
        self.notes.is_slow.store(true, Ordering::SeqCst);
        let gate = HoldingGate::new(3);
        let (ends, told) = join(self.rt, || self.two_work(&gate), || self.look(&gate));
        for ended in ends {
            ended?;
        }
        gate.met()?;
        assert_eq!(self.rt; told, Some(counts(3, 0, 0)));
        assert_eq!(self.rt; self.notes.word.load(Ordering::SeqCst), 111_222);
        self.shows(3, [5, 6])
    }

    /// The status while the batch is held, or `None` if it is not held in time. Then all go on.
    fn look(&self, gate: &HoldingGate) -> Option<Counts> {
        let in_time = comes(self.rt, &self.notes.entered);
        let told = in_time.then(|| self.shared.status(self.rt));
        self.notes.freed.store(true, Ordering::SeqCst);
        gate.open();
        told
    }

    /// The first job is held until both rows were read after the second commit, while a thread waits for the first
    /// commit.
    pub fn is_gapped(&self) -> Result<u64, Fail> {
        let gate = HoldingGate::new(0);
        // (A worker is on each side: if no thread can be made for one side, the other ends without it.)
        let (one, (two, (first, read))) = join(
            self.rt,
            || self.work(&gate),
            || join(
                self.rt,
                || self.work(&gate),
                || join(self.rt, || self.shown(1), || self.read_ahead(&gate)),
            ),
        );
        let read = read?.ok_or(Memory)?;
        let ahead = [Some(answer(&[], 0, 1)), Some(answer(&[1, 1], 0, 1))];
        assert_eq!(self.rt; read, ahead);
        one?;
        two?;
        assert_eq!(self.rt; first, Ok(2));
        Ok(2)
    }

    /// Reads while the first job is held. Whatever comes of that, it then closes the replica and opens the gate.
    fn read_ahead(&self, gate: &HoldingGate) -> Result<Option<[Option<Answer>; 2]>, ReplicaFault> {
        let read = self.read_held(gate);
        self.shared.close(self.rt);
        gate.open();
        read
    }

    /// Hands over the first two records once two workers sleep and one thread waits for the first commit. Reads the rows
    /// `ONE` and `TWO` once the second commit is published, and one worker and that thread sleep again. `None` if they
    /// don't in time.
    fn read_held(&self, gate: &HoldingGate) -> Result<Option<[Option<Answer>; 2]>, ReplicaFault> {
        let mut in_time = self.sleep_all(2, 1);
        self.receive_each(1, 2)?;
        let mut seat = self.shared.seat(self.rt).ok_or(ReplicaFault::Memory)?;
        if in_time {
            seat.learn(self.shared.wait_for_set(self.rt, &only_two(self.alloc)?)?);
            in_time = self.sleep_all(1, 1);
        }
        let read = [seat.read(ONE), seat.read(TWO)];
        Ok((in_time && gate.is_held()).then_some(read))
    }

    /// The job of the first record, which does not apply, is held until the second is committed.
    pub fn stops_ahead(&self) -> Result<u64, Fail> {
        self.feed(&[Step::Take(1, 3)])?;
        let gate = HoldingGate::new(2);
        let stopped = ReplicaFault::Stopped(1);
        assert_eq!(self.rt; self.two_work(&gate), [Err(stopped); 2]);
        // (If there is no memory for a thread, the stop comes first.)
        gate.met()?;
        self.shows_ahead(stopped)
    }

    /// Only the second commit is published. A wait for just that commit returns, and the row is read. A wait for an
    /// earlier commit too reports the stop.
    fn shows_ahead(&self, stopped: ReplicaFault) -> Result<u64, Fail> {
        for gno in [1, 2, 3] {
            assert_eq!(self.rt; self.shown(gno), Err(stopped));
        }
        let both = GtidSet::first(self.alloc, Uuid::from_u128(SOURCE), 2)?;
        let told = self.shared.wait_for_set(self.rt, &both).err();
        assert_eq!(self.rt; told, Some(stopped));
        let mut seat = self.shared.seat(self.rt).ok_or("a seat")?;
        seat.learn(self.shared.wait_for_set(self.rt, &only_two(self.alloc)?)?);
        assert_eq!(self.rt; seat.read(TWO), Some(answer(&[1, 1], 0, 1)));
        Ok(1)
    }

    /// The first job is held until the last one was executed, and then handed in or kept.
    pub fn come_back(&self) -> Result<u64, Fail> {
        for gno in 1..=FAR {
            let change = insert(gno.cast_signed(), [5, 6])?;
            self.receive(&record(self.alloc, gno, 0, change)?)?;
        }
        self.shared.close(self.rt);
        let gate = HoldingGate::new(FAR);
        let _ends = self.two_work(&gate);
        // (A worker that ran out of memory ended, and the job that it kept is left.)
        self.work(&NoGate)?;
        gate.met()?;
        let mut seat = self.shared.seat(self.rt).ok_or("a seat")?;
        seat.learn(self.shared.wait_for(self.rt, FAR)?);
        assert_eq!(self.rt; seat.read(ONE), Some(answer(&[5, 6], FAR, 0)));
        Ok(FAR)
    }
}
