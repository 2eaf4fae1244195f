//! A tracker of any kind, chosen by its mode.
//!
//! It is one type for all of them, so that the code that uses it is compiled once. A call goes to the tracker that it
//! holds, from `commit_order_tracker` or `writeset_trackers`.
#![tactic(auto)]

ghost use Rattle.std.specs.Prelude.{◌≡◌, IfOk};
ghost use Rattle.any_tracker.specs.Any.{agrees, kind_for, kind_of, mode_named, IsNewTracker};

use commit_order_tracker::CommitOrder;
use log_index::{Footprint, Log};
use schema::Memory;
use std::alloc::Global;
use tracker_trait::{Resumable, Tracker, Tracking};
use write_set::WriteSet;
use writeset_trackers::{WriteSetSession, WriteSetTracker};

/// A tracker of any kind.
#[derive(Debug, Drop)]
pub enum AnyTracker {
    /// By the order of commits.
    CommitOrder(CommitOrder),
    /// By write sets.
    Writeset(WriteSetTracker),
    /// By write sets, and by each session's own order.
    WritesetSession(WriteSetSession),
}

impl AnyTracker {
    /// The tracker of a mode, which has seen no transaction. A tracker of write sets takes all its memory here; it
    /// keeps at most `limit` digests of written rows and marks.
    pub fn of(alloc: Global, mode: Tracking, limit: u32) -> Result<AnyTracker, Memory>
        ensures kind { IfOk result (λ tracker. kind_of tracker ≡ kind_for mode limit) }
        ensures new { IfOk result (IsNewTracker agrees) }
    {
        match mode {
            Tracking::CommitOrder => Ok(AnyTracker::CommitOrder(CommitOrder)),
            Tracking::Writeset => {
                let tracker = WriteSetTracker::with_limit(alloc, limit)?;
                Ok(AnyTracker::Writeset(tracker))
            }
            Tracking::WritesetSession => {
                let tracker = WriteSetSession::with_limit(alloc, limit)?;
                Ok(AnyTracker::WritesetSession(tracker))
            }
        }
    }
}

impl Tracker for AnyTracker {
    ghost use Rattle.any_tracker.specs.Any.{agrees, kind_of};

    ghost kind = { kind_of };

    ghost agrees = { agrees };

    fn stamp(
        &mut self,
        log: &Log,
        t: &Footprint,
        w: &WriteSet,
        session: u16,
        order_parent: u64,
    ) -> u64 {
        match self {
            AnyTracker::CommitOrder(tracker) => tracker.stamp(log, t, w, session, order_parent),
            AnyTracker::Writeset(tracker) => tracker.stamp(log, t, w, session, order_parent),
            AnyTracker::WritesetSession(tracker) => tracker.stamp(log, t, w, session, order_parent),
        }
    }
}

impl Resumable for AnyTracker {
    fn observe(&mut self, log: &Log, t: &Footprint, w: &WriteSet) {
        match self {
            AnyTracker::CommitOrder(tracker) => tracker.observe(log, t, w),
            AnyTracker::Writeset(tracker) => tracker.observe(log, t, w),
            AnyTracker::WritesetSession(tracker) => tracker.observe(log, t, w),
        }
    }
}

/// The mode with this name, as options have it; `None` if there is none.
pub fn mode_named(name: &str) -> Option<Tracking>
    ensures { result ≡ mode_named name.now }
{
    match name {
        "commit-order" => Some(Tracking::CommitOrder),
        "writeset" => Some(Tracking::Writeset),
        "writeset-session" => Some(Tracking::WritesetSession),
        _ => None,
    }
}
