//! The replica for many threads: a core and its publisher under one lock.
//!
//! A `SharedReplica` keeps a core, its publisher and the words of its status. `IsWhole` of `specs/Together.antt` is true
//! each time the lock is taken. The publisher's operations, published and then appended, are those of the core's first
//! commits, in their order. Core and publisher count the same number as published. The words that were stored last are
//! the core's own numbers. Each dispatched job was pushed into the queue, except the last if its push was refused. If the
//! core stopped, it did so at a record that was handed out and has no output. What it accepted begins the log, if that is
//! known before. Nothing is left to commit, publish or dispatch unless the state says so. The contracts of core and
//! publisher have the rest.
//!
//! A worker claims a job under the lock, takes it from the queue (`Jobs`) and executes it without the lock, and hands in
//! the result. The coordinator's calls say what it does under the lock. A thread with nothing to do sleeps on a condition
//! variable until what it waits for is there. The thread that holds the lock has a `Held`, which can't be dropped: it
//! ends in `let_go` or in a wait. Both ask the coordinator which threads the change concerns, and wake these.
//!
//! Records come one by one (`receive`), or as the bytes of a log in pieces (`feed`). A piece is the wire's own call over
//! the core (`specs/Feeding.antt`), and waits for the lock only if a record waits or is whole. The crate uses
//! `replica_core`, `executor` and `published`, `gapped` for the rows that readers see (`laws`), `scheduler` for sets of
//! numbers, `gtid_set` for the ids that `wait_for_set` waits for, and the queue of `crossbeam_deque`, which keeps a rule.
#![tactic(auto)]

mod coordinator;
mod gate;
mod hand;
mod held;
mod kept;
pub mod laws;
mod locked;
mod naming;
mod news;
mod outlet;
mod queue;
mod seats;
mod shared;

pub use gate::{NoGate, WorkerGate};
pub use hand::Hand;
pub use naming::ReplicaNaming;
pub use news::{Looks, Sleepers};
pub use queue::{Again, InLogOrder, Jobs, Pass};
pub use shared::SharedReplica;
