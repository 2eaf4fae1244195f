//! The events of a world, and their replies.

ghost use Rattle.std.specs.Prelude.{◌≡◌, map};

use gtid_set::GtidSet;
use log_file::LogFault;
use record_codec::CodecFault;
use relay::ReplicaFault;
use rows::{Change, Row};
use schema::RowId;
use source_core::SourceFault;
use std::marker::Model;

/// One step of a run: one call of the source, of its log or of the replica, one publish, or one read.
#[derive(Clone, Copy, Debug, PartialEq, Eq)]
pub enum Event {
    /// The session opens a transaction.
    Begin { session: u16 },
    /// The session's transaction writes a change.
    Write { session: u16, change: Change },
    /// The session reads a row at the source.
    See { session: u16, row: RowId },
    /// The session's transaction takes no more changes, and its parent is fixed.
    Prepare { session: u16 },
    /// The session's transaction waits for the next flush.
    Queue { session: u16 },
    /// The session's transaction ends without a trace, if it is not queued yet.
    Abort { session: u16 },
    /// The queued transactions become the next records of the log.
    Flush,
    /// The oldest group that is not yet synced is written to the last file of the log, and synced.
    Sync,
    /// The synced transactions are committed.
    Commit,
    /// The record with this number is delivered to the replica.
    Deliver { gno: u64 },
    /// The replica hands out the job of its next record, which then waits to be executed.
    Dispatch,
    /// The job of this record is executed, if it waits, and its result is handed in.
    Finish { gno: u64 },
    /// The replica commits a record: the next in log order or, if that order is not kept, the one whose job was
    /// finished first.
    Next,
    /// The replica publishes all that it committed.
    Publish,
    /// The replica reports the ids of the transactions that it committed, like MySQL's `gtid_executed`.
    Executed,
    /// A read at the replica.
    Read { row: RowId },
    /// The log continues in a next file, on the next spare device: the last file is finished, and the new one becomes
    /// the last.
    Rotate,
    /// The files of the log are shown as their devices should have them: for each file its header, the synced groups,
    /// and the last gate.
    Log,
}

/// The stamps of a group's records, in log order: the sequence number and the parent of each.
#[derive(Debug, Drop)]
pub struct Stamps {
    list: Vec<(u64, u64)>,
}

impl Model for Stamps {
    ghost use Rattle.std.specs.Prelude.{List, ℕ};

    ghost Value = { List (ℕ × ℕ) };

    ghost view = { λ s. s.list.items };
}

impl Stamps {
    /// These stamps. It takes no memory.
    pub fn new(list: Vec<(u64, u64)>) -> Stamps
        ensures { result ≡ list.items }
    {
        Stamps { list }
    }

    /// The stamps, in log order.
    pub fn list(&self) -> &[(u64, u64)]
        ensures { result.now ≡ self.now }
    {
        &self.list
    }
}

/// The bytes of the files of a log, in order.
#[derive(Debug, Drop)]
pub struct LogText {
    files: Vec<Vec<u8>>,
}

impl Model for LogText {
    ghost use Rattle.std.specs.Prelude.{List, ℕ, map};

    ghost Value = { List (List ℕ) };

    ghost view = { λ t. map (λ file. file.items) t.files.items };
}

impl LogText {
    /// These files. It takes no memory.
    pub fn new(files: Vec<Vec<u8>>) -> LogText
        ensures { result ≡ map (λ file. file.items) files.items }
    {
        LogText { files }
    }

    /// The bytes of each file, in order.
    pub fn files(&self) -> &[Vec<u8>]
        ensures { map (λ file. file.items) result.now ≡ self.now }
    {
        &self.files
    }
}

/// The reply to an event.
#[derive(Debug, Drop)]
pub enum Reply {
    /// The call was accepted, and returns nothing.
    Done,
    /// What the session sees of the row.
    Seen {
        row: Option<Row>,
    },
    /// The transaction is prepared, with this parent.
    Prepared {
        parent: u64,
    },
    /// The transaction had no changes, and has ended.
    Empty,
    /// The queued transactions are now the records from this number on, with these stamps.
    Flushed {
        first: u64,
        stamps: Stamps,
    },
    /// The records from the first to the last of these numbers are on the log, synced.
    Synced {
        first: u64,
        last: u64,
    },
    /// The transactions from the first to the last of these numbers are committed.
    Committed {
        first: u64,
        last: u64,
    },
    /// There was nothing to do.
    Nothing,
    /// The replica took the record.
    Accepted,
    /// The replica had taken the record before.
    Skipped,
    /// The record is not on the log.
    Unsynced,
    /// The job of this record was handed out.
    Job {
        gno: u64,
    },
    /// The result of this record's job was taken.
    Finished {
        gno: u64,
    },
    /// The record of this number is committed at the replica.
    Commit {
        gno: u64,
    },
    /// The number of commits that are published.
    Published {
        upto: u64,
    },
    /// The ids of the transactions committed at the replica, published or not. The set is empty if there are none.
    Executed(GtidSet),
    /// The row as the published commits leave it. These are all records from 1 to `upto`, and `more` records with
    /// greater gnos. In log order `more` is 0. Otherwise the record after `upto` is missing, but each published record
    /// comes with all earlier records that conflict with it.
    Read {
        upto: u64,
        more: u64,
        row: Option<Row>,
    },
    /// The source refused the call.
    Source(SourceFault),
    /// The replica refused the call.
    Replica(ReplicaFault),
    /// The record could not be read from its bytes.
    Codec(CodecFault),
    /// The log continues in the next file, which has this number. The first file has the number 1.
    Rotated {
        number: u64,
    },
    /// A flushed transaction is not committed yet, so the log stays in the same file.
    Busy,
    /// No device is left for a next file.
    NoDevice,
    /// The files of the log.
    Text(LogText),
    /// A device of the log failed, and the source is halted; or memory ran out for the log.
    Log(LogFault),
}
