//! Trackers that have seen no transaction.

ghost use Rattle.std.specs.Prelude.{List, [], IfOk};
ghost use Rattle.schema.specs.declared.Table.{Table};

use commit_order_tracker::CommitOrder;
use schema::Memory;
use std::alloc::Global;
use tests_stores::again;
use tracker_trait::Tracker;
use writeset_trackers::{WriteSetSession, WriteSetTracker};

/// A tracker that the tests can make anew.
pub trait Fresh: Tracker {
    fn fresh(alloc: Global) -> Result<Self, Memory>
        ensures { IfOk result (λ tracker. (ts : List Table) → Self.agrees tracker ts []) };
}

impl Fresh for CommitOrder {
    fn fresh(_alloc: Global) -> Result<CommitOrder, Memory> {
        Ok(CommitOrder)
    }
}

impl Fresh for WriteSetTracker {
    fn fresh(alloc: Global) -> Result<WriteSetTracker, Memory> {
        again!(WriteSetTracker::with_limit(alloc, 25000))
    }
}

impl Fresh for WriteSetSession {
    fn fresh(alloc: Global) -> Result<WriteSetSession, Memory> {
        again!(WriteSetSession::with_limit(alloc, 25000))
    }
}
