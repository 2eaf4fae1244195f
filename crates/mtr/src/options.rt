//! What the command line asks for.

ghost use Rattle.std.specs.Prelude.{◌≡◌};
ghost use Rattle.mtr.specs.Options.{preserve_named};

use std::alloc::AllocError;
use thiserror::Error;
use tracker_trait::Tracking;

/// What the words after the program's name ask for.
#[derive(Clone, Copy)]
pub enum Options {
    /// `run`: a script is read on standard input and run over both sides.
    Run {
        sides: Sides,
        /// The call of the first log file's device that fails, counted from 1; 0 for none.
        fail: usize,
    },
    /// `threads`: sessions, workers and readers run, each in a separate thread.
    Threads(Plan),
    /// `decode`: a log file is read on standard input as hexadecimal text, and its records are printed.
    Decode,
}

/// What both sides are made of.
#[derive(Clone, Copy)]
pub struct Sides {
    /// How the source finds parents.
    pub tracker: Tracking,
    /// The store of the source's rows, of the replica's, and of both copies that readers see.
    pub store: Store,
    /// The greatest number of digests of written rows that a tracker keeps, 1 to 1000000: MySQL's
    /// `binlog_transaction_dependency_history_size`. The commit order keeps none.
    pub history: usize,
    /// The workers at the replica, 1 to 64.
    pub workers: usize,
    /// Whether the replica commits in the order of the log: MySQL's `replica_preserve_commit_order`.
    pub preserve: bool,
}

/// Whether the replica commits in the order of the log, from the word for it.
pub fn preserve_named(name: &str) -> Option<bool>
    ensures { result ≡ preserve_named name.now }
{
    match name {
        "on" => Some(true),
        "off" => Some(false),
        _ => None,
    }
}

/// The kind of store in which both sides keep their rows. Replies are the same for each.
#[derive(Clone, Copy, Debug, PartialEq, Eq)]
pub enum Store {
    /// `btree`: an ordered map.
    BTree,
    /// `vector`: one sorted vector.
    Vector,
}

impl Store {
    ghost use Rattle.std.specs.Prelude.{◌≡◌};
    ghost use Rattle.mtr.specs.Options.{store_named};

    /// The store of this name.
    pub fn named(name: &str) -> Option<Store>
        ensures { result ≡ store_named name.now }
    {
        match name {
            "btree" => Some(Store::BTree),
            "vector" => Some(Store::Vector),
            _ => None,
        }
    }
}

/// How many threads of each kind there are, and how much they do.
#[derive(Clone, Copy)]
pub struct Plan {
    /// What both sides are made of.
    pub sides: Sides,
    /// The sessions at the source, 1 to 16.
    pub sessions: usize,
    /// The transactions of each session, 1 to 1000.
    pub transactions: usize,
    /// The readers of the replica, 1 to 32.
    pub seats: usize,
}

impl Plan {
    ghost use Rattle.std.specs.Prelude.{◌≡◌, ◌*◌, ◌≤◌};

    /// The transactions of all sessions.
    pub fn transactions_in_all(&self) -> usize
        requires sessions { self.now.sessions ≤ 16 }
        requires transactions { self.now.transactions ≤ 1000 }
        ensures { result ≡ self.now.sessions * self.now.transactions }
    {
        self.sessions * self.transactions
    }
}

/// Why the words do not ask for any work.
#[derive(Debug, Drop, Error)]
pub enum LineFault {
    /// The words are not a command line of the program. This is the text for the user, which ends with LF.
    #[error("{0}")]
    Line(String),
    /// The words ask for help or for the version. This is the text, which ends with LF.
    #[error("{0}")]
    Asked(String),
    /// Memory ran out.
    #[error("no memory")]
    Memory,
}

impl From<AllocError> for LineFault {
    ghost use Rattle.std.specs.Prelude.{◌≡◌};
    ghost use Rattle.mtr.specs.declared.options.LineFault.TheVariants as faults;

    ghost from_gives = { λ _ e. e ≡ faults.Memory };

    fn from(_error: AllocError) -> LineFault {
        LineFault::Memory
    }
}
