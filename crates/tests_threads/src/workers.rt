//! Workers of a shared replica. One after another: what a gate sees of them, and what is refused or comes late. In
//! separate threads, beside threads that wait for a commit: how long each sleeps, and which of them a record, a stop or
//! the end wakes.

use crate::device::PATIENCE;
use crate::gates::{HoldingGate, Order};
use crate::makers::{ONE, answer, counts};
use crate::replicas::ReplicaRig;
use crate::steps::Step;
use relay::{Received, ReplicaFault};
use replica_shared::{NoGate, ReplicaNaming, WorkerGate};
use schema::Memory;
use std::process::Abort;
use std::sync::Wait;
use std::sync::atomic::{AtomicU64, Ordering};
use std::test::Fail;
use std::thread::{Threads, join, map_indices, sleep};
use std::time::{Clock, Duration};

/// How often seven sleeping workers look while three records come one by one. For each record one is woken, and looks
/// once more before it sleeps again. If all were woken there would be 24 looks, and 9 if two were. (A worker that was
/// about to sleep when a record came may look once more.)
const LOOKS: u64 = 6;

impl<J, R> ReplicaRig<'_, J, R>
where
    J: ReplicaNaming + Send + Sync,
    R: Threads + Wait + Abort + Clock + Sync,
{
    /// One worker does all. Returns how many commits are published then.
    pub fn works(&self) -> Result<u64, Fail> {
        self.send();
        let order = Order::new();
        self.work(&order)?;
        assert_eq!(self.rt; order.noted(), 123);
        self.shows(3, [7, 6])
    }

    /// The workers end, nobody waits any more, and no record is taken. Published commits are still reported.
    pub fn stops(&self) -> Result<u64, Fail> {
        let stopped = ReplicaFault::Stopped(2);
        self.send();
        for record in self.records {
            assert_eq!(self.rt; self.work(&NoGate), Err(stopped));
            assert_eq!(self.rt; self.receive(record), Err(stopped));
        }
        for gno in [2, 3] {
            assert_eq!(self.rt; self.shown(gno), Err(stopped));
        }
        self.shows(1, [5, 6])
    }

    /// Hands over each record twice, and closes the replica.
    fn send(&self) {
        for record in self.records {
            assert_eq!(self.rt; self.receive(record), Ok(Received::Accepted));
            assert_eq!(self.rt; self.receive(record), Ok(Received::Skipped));
        }
        let received = self.shared.status(self.rt).received;
        assert_eq!(self.rt; received, self.records.len() as u64);
        self.shared.close(self.rt);
    }

    /// No record comes: the worker ends, nobody waits for the initial rows, and they are what is read.
    pub fn is_empty(&self) -> Result<u64, Fail> {
        self.shared.close(self.rt);
        self.work(&NoGate)?;
        let mut seat = self.shared.seat(self.rt).ok_or("a seat")?;
        seat.learn(self.shared.wait_for(self.rt, 0)?);
        assert_eq!(self.rt; seat.read(ONE), Some(answer(&[], 0, 0)));
        assert_eq!(self.rt; self.shared.status(self.rt), counts(0, 0, 0));
        Ok(0)
    }

    /// One worker executes the records one after another and ends with `ended`. Its gate has noted `wanted`, and
    /// `published` commits are published then.
    pub fn is_watched(
        &self,
        wanted: u64,
        ended: Result<(), ReplicaFault>,
        published: u64,
        columns: [i64; 2],
    ) -> Result<u64, Fail> {
        self.feed(&[Step::Take(1, 3)])?;
        let watcher = Watcher {
            rig: self,
            noted: AtomicU64::new(0),
        };
        let worked = self.shared.worker(self.rt, self.alloc, &watcher);
        if worked == Err(ReplicaFault::Memory) {
            worked?;
        }
        assert_eq!(self.rt; watcher.noted.load(Ordering::SeqCst), wanted);
        assert_eq!(self.rt; worked, ended);
        self.shows(published, columns)
    }

    /// The first worker commits the first record and can't publish it. The next one does, sleeps while there is nothing
    /// else to do, and applies what comes then.
    pub fn is_refused(&self) -> Result<u64, Fail> {
        self.receive_each(1, 1)?;
        let refused = self.shared.worker(self.rt, self.alloc, &NoGate);
        assert_eq!(self.rt; refused, Err(ReplicaFault::Memory));
        // (It may have run out of memory before that.)
        if self.shared.status(self.rt) != counts(1, 1, 0) {
            refused?;
        }
        let steps = [Step::Sleep(1, 0), Step::Take(2, 3)];
        let (worked, fed) = join(self.rt, || self.work(&NoGate), || self.feed(&steps));
        fed?;
        worked?;
        self.shows(3, [7, 6])
    }

    /// The third record does not apply, and the first one's result is handed in after that.
    pub fn is_handed_in_late(&self) -> Result<u64, Fail> {
        self.feed(&[Step::Take(1, 3)])?;
        let stopped = ReplicaFault::Stopped(3);
        let worked = self.shared.worker(self.rt, self.alloc, &Late { rig: self });
        assert_eq!(self.rt; worked, Err(stopped));
        assert_eq!(self.rt; self.shown(1), Err(stopped));
        assert_eq!(self.rt; self.shared.status(self.rt), counts(3, 0, 0));
        Ok(0)
    }

    /// The second job is executed while the first is held. All sleep before the first record, before the last and at the end.
    pub fn are_beside(&self) -> Result<u64, Fail> {
        let gate = HoldingGate::new(2);
        let steps = [
            Step::Sleep(3, 2),
            Step::Take(1, 2),
            Step::Show(2),
            Step::Sleep(3, 2),
            Step::Take(3, 3),
            Step::Show(3),
            Step::Sleep(3, 0),
        ];
        self.all_end(&gate, 3, &steps, Ok(3))?;
        gate.met()?;
        self.shows(3, [7, 6])
    }

    /// Three workers and two threads that wait for the third commit sleep when the second record comes, which does not
    /// apply.
    pub fn are_asleep_at_stop(&self) -> Result<u64, Fail> {
        let gate = HoldingGate::new(0);
        gate.open();
        let steps = [
            Step::Sleep(3, 2),
            Step::Take(1, 1),
            Step::Show(1),
            Step::Sleep(3, 2),
            Step::Take(2, 2),
        ];
        self.all_end(&gate, 3, &steps, Err(ReplicaFault::Stopped(2)))?;
        self.shows(1, [5, 6])
    }

    /// Two workers and two threads that wait for a commit sleep, and a third worker executes the only record, when no
    /// more come.
    pub fn are_asleep_at_end(&self) -> Result<u64, Fail> {
        let steps = [Step::Take(1, 1), Step::Sleep(2, 2)];
        self.all_end(&HoldingGate::new(0), 1, &steps, Ok(1))?;
        self.shows(1, [5, 6])
    }

    /// Three workers with this gate, and two threads that wait for this commit, end as `wanted` says. Beside them a
    /// thread goes through the steps, and then opens the gate.
    fn all_end(
        &self,
        gate: &HoldingGate,
        gno: u64,
        steps: &[Step],
        wanted: Result<u64, ReplicaFault>,
    ) -> Result<(), Fail> {
        // (A worker is on each side: if no thread can be made for one side, the other ends without it.)
        let (two, (three, (read, fed))) = join(
            self.rt,
            || self.two_work(gate),
            || join(
                self.rt,
                || self.shared.worker(self.rt, self.alloc, gate),
                || join(
                    self.rt,
                    || self.two_shown(gno),
                    || {
                        let fed = self.feed(steps);
                        gate.open();
                        fed
                    },
                ),
            ),
        );
        fed?;
        let worked = wanted.map(|_| ());
        assert_eq!(self.rt; (two, three), ([worked; 2], worked));
        assert_eq!(self.rt; read, [wanted; 2]);
        Ok(())
    }

    /// Two threads wait for this commit.
    fn two_shown(&self, gno: u64) -> [Result<u64, ReplicaFault>; 2] {
        let (one, two) = join(self.rt, || self.shown(gno), || self.shown(gno));
        [one, two]
    }

    /// Seven calls of `worker` run beside the thread that hands over the records. All sleep before the first record and
    /// after the last, and then end.
    pub fn are_crowded(&self) -> Result<u64, Fail> {
        let steps = [
            Step::Sleep(7, 0),
            Step::Take(1, 3),
            Step::Show(3),
            Step::Sleep(7, 0),
        ];
        let (worked, fed) = join(self.rt, || self.seven_work(), || self.feed(&steps));
        fed?;
        worked?;
        self.shows(3, [7, 6])
    }

    /// Seven calls of `worker` sleep before each record, and after the last.
    pub fn are_woken_one_by_one(&self) -> Result<u64, Fail> {
        let (worked, looks) = join(
            self.rt,
            || self.seven_work(),
            || {
                let looks = self.look_on();
                self.shared.close(self.rt);
                looks
            },
        );
        let looks = looks?;
        worked?;
        if looks < LOOKS || looks > LOOKS + 1 {
            // If memory ran out, others are woken too.
            Err(Memory)?;
        }
        self.shows(3, [7, 6])
    }

    /// Runs seven calls of `worker` to their end.
    fn seven_work(&self) -> Result<(), ReplicaFault> {
        let worked = map_indices(
            self.rt,
            self.alloc,
            7,
            &|_place| self.shared.worker(self.rt, self.alloc, &NoGate),
        );
        for ended in worked.map_err(|_| ReplicaFault::Memory)? {
            ended?;
        }
        Ok(())
    }

    /// How often seven workers look that sleep when each record comes, until all sleep again. Fails with `Memory` if they
    /// don't in time.
    fn look_on(&self) -> Result<u64, ReplicaFault> {
        let mut looks = 0u64;
        for record in self.records {
            let before = self.looks_of_seven()?;
            self.receive(record)?;
            self.shared.wait_for(self.rt, record.gno)?;
            let after = self.looks_of_seven()?;
            looks = looks.saturating_add(after.saturating_sub(before));
        }
        Ok(looks)
    }

    /// How often workers have looked, once seven sleep and nobody looked for 20 milliseconds.
    fn looks_of_seven(&self) -> Result<u64, ReplicaFault> {
        let mut seen = 0;
        for _ in 0..PATIENCE {
            if !self.sleep_all(7, 0) {
                return Err(ReplicaFault::Memory);
            }
            let looks = self.shared.looks(self.rt).workers;
            if looks == seen {
                return Ok(seen);
            }
            seen = looks;
            sleep(self.rt, Duration::from_millis(20));
        }
        Err(ReplicaFault::Memory)
    }
}

/// Notes the number of each job and how many commits are published, as the job is entered and as it is left: two digits
/// each time.
#[derive(Drop)]
struct Watcher<'a, 'b, J: ReplicaNaming, R: Wait> {
    rig: &'a ReplicaRig<'b, J, R>,
    noted: AtomicU64,
}

impl<'a, 'b, J: ReplicaNaming, R: Wait> Watcher<'a, 'b, J, R> {
    fn note(&self, gno: u64) {
        let rig = self.rig;
        let published = rig.shared.status(rig.rt).published;
        let digits = gno.wrapping_mul(10).wrapping_add(published);
        let before = self.noted.load(Ordering::SeqCst);
        self.noted.store(
            before.wrapping_mul(100).wrapping_add(digits),
            Ordering::SeqCst,
        );
    }
}

impl<'a, 'b, J: ReplicaNaming, R: Wait> WorkerGate for Watcher<'a, 'b, J, R> {
    fn entered(&self, gno: u64) {
        self.note(gno);
    }

    fn left(&self, gno: u64) {
        self.note(gno);
    }
}

/// While it holds the first job, another worker executes the others.
#[derive(Drop)]
struct Late<'a, 'b, J: ReplicaNaming, R: Wait + Abort> {
    rig: &'a ReplicaRig<'b, J, R>,
}

impl<'a, 'b, J: ReplicaNaming, R: Wait + Abort> WorkerGate for Late<'a, 'b, J, R> {
    fn entered(&self, _gno: u64) {
        let rig = self.rig;
        let ended = rig.shared.worker(rig.rt, rig.alloc, &NoGate);
        assert_eq!(rig.rt; ended, Err(ReplicaFault::Stopped(3)));
    }

    fn left(&self, _gno: u64) {}
}
