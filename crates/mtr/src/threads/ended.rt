//! Both sides as they ended, and whether they agree.

ghost use Rattle.std.specs.Prelude.{◌≡◌, ◌↔◌, IsTrue, true};
ghost use mathlib.Core.List.{IsPrefix};
ghost use Rattle.store_trait.specs.Operation.{loaded};
ghost use Rattle.std.specs.List.{list_all};
ghost use Rattle.mtr.specs.Options.{IsInRange};
ghost use Rattle.mtr.specs.Threads.{IsLast, IsEnded, Holds, TookPart, are_within, has_read};

use super::Verdict;
use super::reading::Shown;
use super::shared::READS;
use crate::options::{Options, Plan};
use replica_core::ReplicaCore;
use source_core::{Receipt, SourceCore};
use store_trait::RowStore;
use tracker_trait::Tracker;
use world::begins;

/// What was counted while both sides worked.
#[derive(Clone, Copy)]
pub struct Counts {
    /// The number of workers that worked to the end.
    pub workers: usize,
    /// The number of rows that both sides have as the sessions left them.
    pub rows: usize,
}

/// Both sides as they ended, the receipts of the sessions, and what the readers saw.
#[derive(Drop)]
pub struct Ended<S: RowStore, T: Tracker> {
    /// The source.
    pub source: SourceCore<S, T>,
    /// The replica.
    pub replica: ReplicaCore<S>,
    /// The receipts of all sessions, in no particular order.
    pub receipts: Vec<Receipt>,
    /// What each reader saw, in order.
    pub readings: Vec<Vec<Shown>>,
    /// What was counted.
    pub counts: Counts,
    /// The number of commits that the replica reported as published.
    pub published: u64,
}

impl<S: RowStore, T: Tracker> Ended<S, T> {
    /// Whether both sides agree. For that, all of this must hold:
    ///
    /// - The planned number of workers and of readers took part, and each reader read as often as it has to.
    /// - Both sides have each row as the sessions left it.
    /// - The replica published the number of commits that it reported, and no reader saw more.
    /// - What the replica accepted is a prefix of the source's log.
    ///
    /// The time is that of the records, the receipts and the reads.
    pub fn verdict(&self, plan: &Plan) -> Verdict
        requires plan { IsInRange (Options.Threads plan.now) }
        requires ended { IsEnded plan.now self.now }
        ensures { Holds result plan.now self.now }
    {
        let published = self.published;
        if self.took_part(plan)
            && self.replica.published() == published
            && self.begins()
            && are_all_within(&self.readings, published)
        {
            prove!(self.replica.received() <= self.source.flushed());
            let log = last_gno(&self.receipts);
            Verdict::Equal { log, published }
        } else {
            Verdict::Different
        }
    }

    // Whether both sides began with the same rows, and what the replica accepted is a prefix of the source's log.
    fn begins(&self) -> bool
        requires { (self.now.source.keeps ≡ true) × (self.now.replica.keeps ≡ true) }
        ensures { IsTrue result
            ↔ ((loaded self.now.source.base ≡ loaded self.now.replica.base) × IsPrefix self.now.replica.accepted self.now.source.log) }
    {
        match begins(&self.source, &self.replica) {
            Some(begins) => begins,
            None => false,
        }
    }

    // Whether the planned number of workers and readers took part, each reader read as often as it has to, and both
    // sides have each row as the sessions left it.
    fn took_part(&self, plan: &Plan) -> bool
        requires plan { IsInRange (Options.Threads plan.now) }
        ensures yes { result ≡ true → TookPart plan.now self.now }
        ensures no { TookPart plan.now self.now → result ≡ true }
    {
        self.counts.workers == plan.sides.workers
            && self.readings.len() == plan.seats
            && have_all_read(&self.readings)
            && self.counts.rows == plan.transactions_in_all()
    }
}

/// Whether each of these readers read as often as it has to.
fn have_all_read(readings: &[Vec<Shown>]) -> bool
    ensures { result ≡ list_all (λ v. has_read v.items) readings.now }
{
    readings.iter().all(|shown| shown.len() >= READS)
}

/// Whether none of these readers saw more than `most` commits.
fn are_all_within(readings: &[Vec<Shown>], most: u64) -> bool
    ensures { result ≡ list_all (λ v. are_within most v.items) readings.now }
{
    readings.iter().all(|shown| are_within(shown, most))
}

fn are_within(shown: &[Shown], most: u64) -> bool
    ensures { result ≡ are_within most shown.now }
{
    shown.iter().all(|one| one.commits() <= u128::from(most))
}

/// The greatest gno of these receipts, or 0 if there are none.
fn last_gno(receipts: &[Receipt]) -> u64
    ensures { IsLast receipts.now result }
{
    let mut last = 0;
    for receipt in receipts {
        last = receipt.gno.max(last);
    }
    last
}
