//! The trait of dependency trackers, which give transactions their parents.
//!
//! A tracker gives each transaction of a log its parent: the sequence number up to which a replica must have committed
//! before it may apply the transaction. The smaller the parents, the more transactions a replica applies side by side.
//! `Tracking` has the three ways in which MySQL's `binlog_transaction_dependency_tracking` finds them.
//!
//! `specs/Parent.antt` says which parent each mode gives, from the log only. `specs/Law.antt` says what every tracker
//! promises: the parent covers each conflicting transaction of the whole log, and is at most the order parent. A
//! `Resumable` tracker can also see a log that was written before the tracker was made, and go on from there.
//! `log_index` has what trackers see of a log, and `write_set` the digests of written rows and of marks.
#![tactic(auto)]

ghost use Rattle.std.specs.Prelude.{◌≡◌, ◌≤◌, ℕ, List, map};
ghost use Rattle.schema.specs.declared.Table.{Table};
ghost use Rattle.schema.specs.Covering.{Covers};
ghost use Rattle.log_index.specs.declared.Entry.{Entry};
ghost use Rattle.log_index.specs.Footprint.{touched};
ghost use Rattle.log_index.specs.Log.{entry_place};
ghost use Rattle.tracker_trait.specs.Kind.{Kind};
ghost use Rattle.tracker_trait.specs.Parent.{dependency_of};
ghost use Rattle.tracker_trait.specs.Law.{IsOrderParent, IsOfTables, stamped};

use log_index::{Footprint, Log};
use write_set::WriteSet;

/// How parents are found: MySQL's `binlog_transaction_dependency_tracking`.
#[derive(Clone, Copy, Debug, PartialEq, Eq)]
pub enum Tracking {
    /// The parent is the order parent: the number of transactions committed when this one was prepared.
    CommitOrder,
    /// The parent is the number of the last transaction that wrote one of the same rows or had one of the same marks,
    /// or the number at which the history of write sets starts, if that is greater. It is at most the order parent. A
    /// transaction that is foreign-key related or writes a keyless table gets the order parent.
    Writeset,
    /// Like `Writeset`, but the parent is at least the number of the session's own last transaction.
    WritesetSession,
}

/// Gives transactions their parents, in log order. Its promises hold for each schema if it has seen all of the schema's
/// log, and the transaction's flags and write set are of the schema's tables.
pub trait Tracker {
    /// The mode, and the size of the history, that it was made for.
    ghost kind: { Self → Kind };

    /// It has seen exactly this log of a schema with these tables.
    ghost agrees: { Self → List Table → List Entry → Type 0 };

    /// The parent of the next transaction, which has this footprint and write set and comes from this session. The
    /// order parent is the number of transactions that were committed when it was prepared. The tracker must have seen
    /// all of the log. It takes no memory.
    fn stamp(
        &mut self,
        log: &Log,
        t: &Footprint,
        w: &WriteSet,
        session: u16,
        order_parent: u64,
    ) -> u64
        requires seen { (ts : List Table) × agrees self.old ts log.now.entries }
        requires order { IsOrderParent log.now.entries t.now session order_parent }
        requires least { 1 ≤ session }
        requires greatest { session ≤ 256 }
        ensures exact { (ts : List Table) → agrees self.old ts log.now.entries → IsOfTables ts t.now w.now →
            result ≡ dependency_of (kind self.old) ts log.now.entries t.now session order_parent }
        ensures covers { (ts : List Table) → agrees self.old ts log.now.entries → IsOfTables ts t.now w.now →
            Covers (map entry_place log.now.entries) (touched t.now) result }
        ensures goes_on { (ts : List Table) → agrees self.old ts log.now.entries → IsOfTables ts t.now w.now →
            agrees self.new ts (stamped log.now.entries t.now session result) }
        ensures within { result ≤ order_parent }
        ensures same { kind self.new ≡ kind self.old };
}

/// A tracker that can begin after a log that is there already, whichever tracker gave the parents in it.
pub trait Resumable: Tracker {
    /// Sees a transaction that is in the log already, with any parent, and comes from none of the sessions. The tracker
    /// must have seen all of the log before it. It takes no memory.
    fn observe(&mut self, log: &Log, t: &Footprint, w: &WriteSet)
        requires { (ts : List Table) × Self.agrees self.old ts log.now.entries }
        ensures goes_on { (ts : List Table) (parent : ℕ) → Self.agrees self.old ts log.now.entries → IsOfTables ts t.now w.now →
            Self.agrees self.new ts (stamped log.now.entries t.now 0 parent) }
        ensures same { Self.kind self.new ≡ Self.kind self.old };
}
