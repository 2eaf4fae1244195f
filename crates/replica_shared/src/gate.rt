//! Calls around each job that a worker executes.

/// A hook around each job that a worker executes. The worker's thread makes both calls outside the lock, and goes on once
/// they return.
pub trait WorkerGate {
    /// The worker is about to execute the job of this gno.
    fn entered(&self, gno: u64);

    /// The worker has handed in the result of the job of this gno.
    fn left(&self, gno: u64);
}

/// A gate that does nothing.
#[derive(Clone, Copy, Debug, Drop)]
pub struct NoGate;

impl WorkerGate for NoGate {
    fn entered(&self, _gno: u64) {}

    fn left(&self, _gno: u64) {}
}
