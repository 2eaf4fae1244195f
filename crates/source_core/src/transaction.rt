//! An open transaction, and the receipt that its session gets.

use overlay::Pending;
use record_codec::Changes;

/// How far an open transaction has come.
#[derive(Clone, Copy, Debug, PartialEq, Eq)]
pub enum Phase {
    /// It takes changes.
    Active,
    /// It takes no more changes. Its order parent is the number of transactions committed when it was prepared.
    Prepared { parent: u64 },
    /// It waits for the next flush.
    Queued { parent: u64 },
    /// It is the record of this number, and not committed yet.
    Flushed { gno: u64 },
}

/// What the session of a prepared transaction gets.
#[derive(Clone, Copy, Debug, PartialEq, Eq)]
pub enum Prepared {
    /// Its order parent: the number of transactions committed then.
    Parent(u64),
    /// It had no changes, and has ended.
    Empty,
}

/// A transaction: its changes, with what they leave, their kin and their marks, and its phase.
#[derive(Debug, Drop)]
pub struct Transaction {
    pub pending: Pending,
    pub phase: Phase,
}

/// What a session gets for its committed transaction.
#[derive(Debug, Drop)]
pub struct Receipt {
    /// The session's number.
    pub session: u16,
    /// The transaction's number, from 1.
    pub gno: u64,
    /// Its place in the log, from 1.
    pub sequence: u64,
    /// Its record's parent, as the tracker gave it.
    pub parent: u64,
    /// What it changed, in order.
    pub changes: Changes,
}
