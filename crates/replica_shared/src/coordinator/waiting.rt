//! Waiting for commits: whether they are published, and what is published then.
ghost use Rattle.std.specs.Prelude.{◌≡◌, ◌≤◌, ◌∷◌, [], true, false, IfOk, IfErr};
ghost use Rattle.std.specs.List.{AllByRecursion, list_any};
ghost use mathlib.Core.List.{IsPrefix};
ghost use Rattle.store_trait.specs.declared.Op.TheVariants.{Load};
ghost use Rattle.published.specs.History.{IsHistory, gnos_of};
ghost use Rattle.replica_core.specs.Sound.{IsSound};
ghost use Rattle.replica_shared.specs.Awaited.{has_each, has_all, is_commit_in};
ghost use Rattle.replica_shared.specs.Together.{is_awaited, IsStopBehind};

use super::Coordinator;
use crate::naming::ReplicaNaming;
use gtid_set::Interval;
use published::Notice;
use relay::ReplicaFault;
use store_trait::{Op, RowStore};

impl<S: RowStore + Drop, J: ReplicaNaming> Coordinator<S, J> {
    // Whether the replica runs and not all of these commits are published.
    fn is_awaited(&self, wanted: &[Interval]) -> bool
        requires { AllByRecursion (λ i. 1 ≤ i.first) wanted.now }
        ensures { result ≡ is_awaited self.now wanted.now }
    {
        !(self.core.stopped().is_some() || self.shows_all(wanted))
    }

    // Whether each of these commits is published.
    fn shows_all(&self, wanted: &[Interval]) -> bool
        requires sound { IsSound self.now.core }
        requires wanted { AllByRecursion (λ i. 1 ≤ i.first) wanted.now }
        ensures { result ≡ has_all (gnos_of self.now.publication.published) wanted.now }
    {
        for interval in wanted {
            if !self.shows(*interval) {
                return false;
            }
        }
        true
    }

    // Whether the commits of the interval are published. Those up to the mark are, and after it those that are committed
    // and do not wait for `publish`.
    fn shows(&self, interval: Interval) -> bool
        requires sound { IsSound self.now.core }
        requires first { 1 ≤ interval.first }
        ensures { result ≡ has_each (gnos_of self.now.publication.published) interval }
    {
        interval.last <= self.publisher.tell().upto()
            || (self.has_committed(interval) && !has_commit_in(self.core.pending(), interval))
    }

    // Whether the records of the interval are committed. Those up to the core's mark are, and the next one is not. So it
    // looks at most at the places after the mark. The last number may be the greatest of its type, so the loop ends
    // before it.
    fn has_committed(&self, interval: Interval) -> bool
        requires { 1 ≤ interval.first }
        ensures { result ≡ has_each self.now.core.commits interval }
    {
        let from = interval.first.max(self.core.low_water());
        for gno in from..interval.last {
            if !self.core.has_committed(gno) {
                return false;
            }
        }
        interval.last < from || self.core.has_committed(interval.last)
    }

    // What is published, if these commits are. `P5` if the replica is stopped and one of them is not.
    pub(crate) fn notice(&self, wanted: &[Interval]) -> Result<Notice<J>, ReplicaFault>
        requires wanted { AllByRecursion (λ i. 1 ≤ i.first) wanted.now }
        requires answered { is_awaited self.now wanted.now ≡ false }
        ensures all { IfOk result (λ notice. has_all (gnos_of notice) wanted.now ≡ true) }
        ensures history { IfOk result (λ notice. IsHistory J.preserve notice) }
        ensures begins { IfOk result (λ notice. IsPrefix (Load J.names.base ∷ []) notice) }
        ensures published { IfOk result (λ notice. notice ≡ self.now.publication.published) }
        ensures stopped { IfErr result (IsStopBehind J.names J.preserve wanted.now self.now) }
    {
        let stopped = self.core.stopped();
        if self.shows_all(wanted) {
            return Ok(self.publisher.tell());
        }
        match stopped {
            Some(at) => Err(ReplicaFault::Stopped(at)),
            None => unreachable!(),
        }
    }

    // One more call of `wait_for` or `wait_for_set` waits.
    pub(crate) fn reader_sleeps(&mut self)
        ensures { self.new ≡ self.old }
    {
        self.sleepers.readers = self.sleepers.readers.saturating_add(1);
    }

    // One such call less waits.
    pub(crate) fn reader_wakes(&mut self)
        ensures { self.new ≡ self.old }
    {
        self.sleepers.readers = self.sleepers.readers.saturating_sub(1);
    }

    // A call that waits for these commits looks. Whether it still has to wait.
    pub(crate) fn reader_looks(&mut self, wanted: &[Interval]) -> bool
        requires { AllByRecursion (λ i. 1 ≤ i.first) wanted.now }
        ensures awaited { result ≡ is_awaited self.old wanted.now }
        ensures same { self.new ≡ self.old }
    {
        self.looks.readers = self.looks.readers.saturating_add(1);
        self.is_awaited(wanted)
    }
}

// Whether one of these operations is a commit of the interval.
fn has_commit_in(ops: &[Op], interval: Interval) -> bool
    ensures { result ≡ list_any (is_commit_in interval) ops.now }
{
    ops.iter().any(|op| is_commit_in(op, interval))
}

fn is_commit_in(op: &Op, interval: Interval) -> bool
    ensures { result ≡ is_commit_in interval op.now }
{
    match op {
        Op::Load(_) => false,
        Op::Commit { gno, .. } => interval.first <= *gno && *gno <= interval.last,
    }
}
