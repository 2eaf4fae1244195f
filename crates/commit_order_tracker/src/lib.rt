//! The tracker of the commit order, MySQL's default.
//!
//! A transaction's parent is its order parent: the number of transactions committed when it was prepared. Rows and
//! marks stay locked until their transaction commits, so all that conflicts with it was committed by then. The parent
//! therefore covers it in the whole log, and the tracker remembers nothing.
#![tactic(auto)]

ghost use Rattle.std.specs.Prelude.{◌≡◌};

use log_index::{Footprint, Log};
use tracker_trait::{Resumable, Tracker};
use write_set::WriteSet;

/// Gives order parents. It has no state.
#[derive(Clone, Copy, Debug, Drop, PartialEq, Eq)]
pub struct CommitOrder;

impl Tracker for CommitOrder {
    ghost use Rattle.commit_order_tracker.specs.Tracker.{by_order};

    ghost kind = { λ _. by_order };

    ghost agrees = { λ _ _ _. Unit {0} };

    fn stamp(
        &mut self,
        _log: &Log,
        _t: &Footprint,
        _w: &WriteSet,
        _session: u16,
        order_parent: u64,
    ) -> u64 {
        order_parent
    }
}

impl Resumable for CommitOrder {
    fn observe(&mut self, _log: &Log, _t: &Footprint, _w: &WriteSet) {}
}
