//! The words of the status, and what a pass to them knows.

use std::collections::LinkedList;

/// How far a replica is, in records.
#[derive(Clone, Copy, Debug, PartialEq, Eq)]
pub struct Counts {
    /// How many records were received.
    pub received: u64,
    /// How many of these are committed, in the order of the log or not.
    pub committed: u64,
    /// How many of these are published. It counts commits, and is not a gno if they come in another order than the log.
    pub published: u64,
}

/// What a pass knows. No value of it is made.
pub struct Look {
    /// The counts that were stored, the last first, up to those that it stored or saw last.
    pub seen: LinkedList<Counts>,
    /// Whether it is the pass that stores.
    pub stores: bool,
}
