//! Gates of workers: one that holds the first job, and one that notes the order of the jobs.

use crate::device::comes_in_turns;
use replica_shared::WorkerGate;
use schema::Memory;
use std::sync::atomic::{AtomicBool, AtomicU64, Ordering};

/// Holds the first job until the job of number `other` is left, until the gate is opened, or until the turns end.
#[derive(Drop)]
pub struct HoldingGate {
    other: u64,
    is_open: AtomicBool,
    /// The first job goes on.
    is_over: AtomicBool,
    /// The other job was left before the first went on.
    has_met: AtomicBool,
}

impl HoldingGate {
    pub fn new(other: u64) -> HoldingGate {
        HoldingGate {
            other,
            is_open: AtomicBool::new(false),
            is_over: AtomicBool::new(false),
            has_met: AtomicBool::new(false),
        }
    }

    pub fn open(&self) {
        self.is_open.store(true, Ordering::SeqCst);
    }

    /// Whether the first job has not gone on.
    pub fn is_held(&self) -> bool {
        !self.is_over.load(Ordering::SeqCst)
    }

    /// Checks that the other job was left while the first was held. If not, it fails with `Memory`: then there was no
    /// memory for a thread, and the workers ran one after another.
    pub fn met(&self) -> Result<(), Memory> {
        if self.has_met.load(Ordering::SeqCst) {
            Ok(())
        } else {
            Err(Memory)
        }
    }
}

impl WorkerGate for HoldingGate {
    fn entered(&self, gno: u64) {
        if gno == 1 {
            comes_in_turns(&self.is_open);
            self.is_over.store(true, Ordering::SeqCst);
        }
    }

    fn left(&self, gno: u64) {
        if gno == self.other {
            self.has_met.store(self.is_held(), Ordering::SeqCst);
            self.open();
        }
    }
}

/// Notes the number of each job that is entered, one digit each. A number that is entered twice in a row is noted once.
#[derive(Drop)]
pub struct Order {
    noted: AtomicU64,
}

impl Order {
    pub fn new() -> Order {
        Order {
            noted: AtomicU64::new(0),
        }
    }

    pub fn noted(&self) -> u64 {
        self.noted.load(Ordering::SeqCst)
    }
}

impl WorkerGate for Order {
    fn entered(&self, gno: u64) {
        let before = self.noted();
        if before % 10 != gno {
            self.noted.store(before.wrapping_mul(10).wrapping_add(gno), Ordering::SeqCst);
        }
    }

    fn left(&self, _gno: u64) {}
}
