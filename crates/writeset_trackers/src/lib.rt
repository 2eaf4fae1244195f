//! The trackers of write sets: MySQL's WRITESET and WRITESET_SESSION.
//!
//! Both keep a history: which transaction touched the digest of each row or mark last (`writeset_history`). A
//! transaction's parent is the number of the last one that touched one of its digests, at least the history's start,
//! and at most the order parent. It is the order parent if the transaction is foreign-key related or writes a keyless
//! table. With `WriteSetSession` the parent is also at least the session's own last transaction, whose number is kept
//! for each session. A transaction empties the history if it is foreign-key related, or if its digests do not fit in
//! beside those that are there.
//!
//! `specs/Agreement.antt` says what a history knows of the log that a tracker has seen: its start and its digests, from
//! the log only. `proofs` shows for lists of entries that this stays so. The trackers meet the law of `tracker_trait`
//! over the whole log.
#![tactic(auto)]

ghost use Rattle.std.specs.Prelude.{◌≡◌, List, [], IfOk};
ghost use Rattle.schema.specs.declared.Table.{Table};
ghost use Rattle.writeset_history.specs.History.{new_history};
ghost use Rattle.writeset_trackers.specs.Agreement.{IsHistoryOf};
ghost use Rattle.writeset_trackers.specs.Places.{AreLast};

mod noting;

use log_index::{Footprint, Log};
use noting::{note, parent_by};
use schema::Memory;
use std::alloc::Global;
use std::marker::Model;
use tracker_trait::{Resumable, Tracker};
use write_set::WriteSet;
use writeset_history::History;

/// Parents by write sets.
#[derive(Debug, Drop)]
pub struct WriteSetTracker {
    history: History,
}

impl Model for WriteSetTracker {
    ghost use Rattle.writeset_history.specs.History.{History, history_code};

    ghost Value = { History };

    ghost coded = { history_code };

    ghost view = { λ t. t.history };
}

impl WriteSetTracker {
    /// A tracker that has seen no transaction, with a history of at most `limit` digests: MySQL's
    /// `binlog_transaction_dependency_history_size`, which is from 1 to 1000000 there. All memory is taken here: 32
    /// bytes for each digest of the limit, or up to twice that.
    pub fn with_limit(alloc: Global, limit: u32) -> Result<WriteSetTracker, Memory>
        ensures value { IfOk result (λ tracker. tracker ≡ new_history limit) }
        ensures new { IfOk result (λ tracker. (ts : List Table) → IsHistoryOf ts [] tracker) }
    {
        let history = History::with_limit(alloc, limit)?;
        Ok(WriteSetTracker { history })
    }
}

impl Tracker for WriteSetTracker {
    ghost use Rattle.std.proofs.Common.{reverse};
    ghost use Rattle.tracker_trait.specs.declared.Tracking.TheVariants.{Writeset};
    ghost use Rattle.writeset_trackers.specs.Agreement.{IsHistoryOf};

    ghost kind = { λ history. record { mode = Writeset; limit = history.limit } };

    ghost agrees = { λ history ts log. IsHistoryOf ts (reverse log) history };

    /// The time is that of a look at each digest of the write set, and of entering each, which is expected to be
    /// constant for one digest. Emptying the history takes constant time.
    fn stamp(
        &mut self,
        log: &Log,
        t: &Footprint,
        w: &WriteSet,
        _session: u16,
        order_parent: u64,
    ) -> u64 {
        let parent = parent_by(&self.history, t, w, order_parent);
        note(&mut self.history, log, t, w);
        parent
    }
}

impl Resumable for WriteSetTracker {
    /// The time is that of entering each digest of the write set.
    fn observe(&mut self, log: &Log, t: &Footprint, w: &WriteSet) {
        note(&mut self.history, log, t, w);
    }
}

/// Parents by write sets, and never before the session's own last transaction. So a replica applies each session's
/// transactions in their order.
#[derive(Debug, Drop)]
pub struct WriteSetSession {
    history: History,
    /// The number of each session's last transaction, 0 if it has none. Session 1 comes first.
    last: Vec<u64>,
}

impl Model for WriteSetSession {
    ghost use Rattle.std.specs.Prelude.{◌≡◌, vec_len};
    ghost use Rattle.writeset_trackers.specs.Places.{Sessions, sessions_code};

    ghost Value = { Sessions };

    ghost coded = { sessions_code };

    ghost view = { λ t. record { history = t.history; last = t.last.items } };

    ghost invariant = { λ t. vec_len t.last ≡ 256 };
}

impl WriteSetSession {
    /// A tracker that has seen no transaction, with a history of at most `limit` digests, as in
    /// `WriteSetTracker::with_limit`. All memory is taken here: that of the history, and a number for each of 256
    /// sessions.
    pub fn with_limit(alloc: Global, limit: u32) -> Result<WriteSetSession, Memory>
        ensures history { IfOk result (λ tracker. tracker.history ≡ new_history limit) }
        ensures new { IfOk result (λ tracker. (ts : List Table) → IsHistoryOf ts [] tracker.history × AreLast [] tracker.last) }
    {
        let history = History::with_limit(alloc, limit)?;
        let last = vec![in alloc; 0; 256]?;
        Ok(WriteSetSession { history, last })
    }
}

impl Tracker for WriteSetSession {
    ghost use Rattle.std.proofs.Common.{reverse};
    ghost use Rattle.tracker_trait.specs.declared.Tracking.TheVariants.{WritesetSession};
    ghost use Rattle.writeset_trackers.specs.Agreement.{IsHistoryOf};
    ghost use Rattle.writeset_trackers.specs.Places.{AreLast};

    ghost kind = { λ tracker. record { mode = WritesetSession; limit = tracker.history.limit } };

    ghost agrees = { λ tracker ts log. IsHistoryOf ts (reverse log) tracker.history × AreLast (reverse log) tracker.last };

    /// The time is that of `WriteSetTracker`.
    fn stamp(
        &mut self,
        log: &Log,
        t: &Footprint,
        w: &WriteSet,
        session: u16,
        order_parent: u64,
    ) -> u64 {
        let place = session as usize - 1;
        let own = self.last[place];
        let parent = parent_by(&self.history, t, w, order_parent);
        note(&mut self.history, log, t, w);
        self.last[place] = log.len() as u64 + 1;
        parent.max(own)
    }
}

impl Resumable for WriteSetSession {
    /// The time is that of `WriteSetTracker`.
    fn observe(&mut self, log: &Log, t: &Footprint, w: &WriteSet) {
        note(&mut self.history, log, t, w);
    }
}
