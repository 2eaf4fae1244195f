//! What is done with a shared replica.

use crate::makers::{insert, set};
use record_codec::Record;
use schema::Memory;
use std::alloc::Global;
use tests_log::common::record;

/// What is done with a shared replica.
#[derive(Clone, Copy, Drop)]
pub enum Course {
    /// One worker does all.
    Alone,
    /// One worker does all up to the second record, which does not apply.
    Stopping,
    /// Three workers and two threads that wait for commits are there before the records.
    Beside,
    /// All of these sleep when a record comes that does not apply.
    AsleepAtStop,
    /// Two of the workers and those that wait for commits sleep when no more records come, before the only result.
    AsleepAtEnd,
    /// No record comes.
    Empty,
    /// A gate notes the status at each job.
    Watched,
    /// Like `Watched`, but the second record does not apply.
    WatchedStop,
    /// More calls of `worker` than workers.
    Crowded,
    /// Like `Crowded`, but the records come one by one, each once all workers sleep.
    Woken,
    /// Memory runs out for the first commit's publication.
    Refused,
    /// A result is handed in after another one has stopped the replica.
    Late,
    /// The records come as bytes, seven at a time.
    Sevens,
    /// The records come as bytes, one at a time.
    Singles,
    /// One of the bytes is wrong.
    Damaged,
    /// The bytes come before the record in front of them.
    Waiting,
    /// Two workers sleep when the bytes come.
    Asleep,
    /// A thread waits for sets of ids.
    Sets,
    /// Large records are executed, and another thread takes the lock meanwhile.
    Unlocked,
    /// One result commits all three, and the first commit is slow.
    Stored,
    /// The order of the log is not kept: the second record is committed while the job of the first is held.
    Gapped,
    /// Like `Gapped`, but the first record does not apply.
    GappedStop,
    /// Like `Gapped`, but with 65 records: the jobs of the first and the last are out at one time.
    Far,
}

impl Course {
    /// Whether commits are in the order of the log.
    pub fn keeps_order(self) -> bool {
        !matches!(self, Course::Gapped | Course::GappedStop | Course::Far)
    }

    /// Which batch a copy for readers refuses, counted from 1; 0 for none. (The first batch is that of the initial rows.)
    pub fn refused(self) -> u64 {
        if matches!(self, Course::Refused) {
            2
        } else {
            0
        }
    }

    /// Three records. The first inserts row 10 and the second row 11; one that has to stop the replica sets its row
    /// instead. The third sets row 10, or row 12, which is not there, or inserts row 12.
    pub fn records(self, alloc: Global) -> Result<[Record; 3], Memory> {
        let first = match self {
            Course::GappedStop => set(10, 1)?,
            _ => insert(10, [5, 6])?,
        };
        let second = match self {
            Course::Stopping | Course::AsleepAtStop | Course::WatchedStop => set(11, 1)?,
            _ => insert(11, [1, 1])?,
        };
        let (parent, third) = match self {
            Course::Late => (0, set(12, 7)?),
            Course::Stored => (0, insert(12, [1, 1])?),
            _ => (1, set(10, 7)?),
        };
        Ok([
            record(alloc, 1, 0, first)?,
            record(alloc, 2, 0, second)?,
            record(alloc, 3, parent, third)?,
        ])
    }
}
