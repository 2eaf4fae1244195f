//! Sets of numbers, as intervals that rise and never touch.

ghost use Rattle.std.specs.Prelude.{◌≡◌, ℕ, ◌+◌, ◌-◌, ◌^◌, ◌<◌, ◌≤◌, ◌||◌, not, length, take, drop, slice_index_or, vec_len, IfOk, IfErr};
ghost use Rattle.std.specs.Prelude.{Some};
ghost use Rattle.gtid_set.specs.Text.{interval_text};
ghost use Rattle.std.specs.List.{AllByRecursion};
ghost use Rattle.std.specs.List.Sorted.{IsNonDecreasingBy};
ghost use Rattle.gtid_set.specs.Numbers.{has_number, is_within, AreNumbers, IsInterval, IsPlace, Puts, Joins, AreThoseOf};

use crate::fault::GtidFault;
use std::fmt;

/// The greatest number of a transaction.
pub(crate) const MAX_GNO: u64 = 9_223_372_036_854_775_807;

/// The numbers from a first to a last one, both included.
#[derive(Clone, Copy, Debug, PartialEq, Eq)]
pub struct Interval {
    /// At most `last`.
    pub first: u64,
    pub last: u64,
}

/// Whether a set has a number. The time is logarithmic in the number of intervals.
pub(crate) fn holds(intervals: &[Interval], number: u64) -> bool
    requires { AreNumbers intervals.now }
    ensures { result ≡ has_number intervals.now number }
{
    let at = place_of(intervals, number);
    at < intervals.len() && intervals[at].first <= number
}

/// How many intervals end below a number. This is also the place of the first one that does not.
fn place_of(intervals: &[Interval], low: u64) -> usize
    requires { AreNumbers intervals.now }
    ensures { IsPlace intervals.now low result }
{
    intervals.partition_point(|i| i.last < low)
}

/// Puts a number into a set, and returns whether it is new. The intervals after it move by at most one place.
pub(crate) fn put(intervals: &mut Vec<Interval>, number: u64) -> Result<bool, GtidFault>
    requires are { AreNumbers intervals.old.items }
    requires number { (1 ≤ number) × (number < 2 ^ 63) }
    ensures ok { IfOk result (λ new. (new ≡ not (has_number intervals.old.items number))
        × Puts intervals.old.items intervals.new.items number) }
    ensures err { IfErr result (λ fault. (fault ≡ GtidFault.Memory) × (intervals.new.items ≡ intervals.old.items)) }
{
    let at = place_of(intervals, number - 1);
    if at < intervals.len() && intervals[at].first <= number + 1 {
        Ok(widen(intervals, at, number))
    } else {
        let alone = Interval {
            first: number,
            last: number,
        };
        intervals.insert(at, alone)?;
        Ok(true)
    }
}

/// Puts a number into the interval that it is in or next to.
fn widen(intervals: &mut Vec<Interval>, at: usize, number: u64) -> bool
    requires are { AreNumbers intervals.old.items }
    requires number { (1 ≤ number) × (number < 2 ^ 63) }
    requires place { IsPlace intervals.old.items (number - 1) at }
    requires within { at < vec_len intervals.old }
    requires near { (i : _) → (slice_index_or intervals.old.items at i).first ≤ number + 1 }
    ensures value { result ≡ not (has_number intervals.old.items number) }
    ensures puts { Puts intervals.old.items intervals.new.items number }
{
    let found = intervals[at];
    if number < found.first {
        intervals[at].first = number;
        true
    } else if number <= found.last {
        false
    } else {
        lengthen(intervals, at, number);
        true
    }
}

/// Puts the number after an interval into it. If the interval touches the next one then, the two are joined.
fn lengthen(intervals: &mut Vec<Interval>, at: usize, number: u64)
    requires are { AreNumbers intervals.old.items }
    requires number { number < 2 ^ 63 }
    requires within { at < vec_len intervals.old }
    requires behind { (i : _) → (slice_index_or intervals.old.items at i).last + 1 ≡ number }
    ensures { Puts intervals.old.items intervals.new.items number }
{
    if at + 1 < intervals.len() && intervals[at + 1].first == number + 1 {
        let next = intervals.remove(at + 1);
        intervals[at].last = next.last;
    } else {
        intervals[at].last = number;
    }
}

/// Makes a set of intervals in any order, which may overlap. If they rise already and do not touch, none is moved and
/// the time is linear; otherwise it is n log n.
pub(crate) fn settle(intervals: &mut Vec<Interval>)
    requires { AllByRecursion IsInterval intervals.old.items }
    ensures { AreThoseOf intervals.old.items intervals.new.items }
{
    intervals.sort_unstable_by_key(|i| i.first);
    let kept = join(intervals);
    intervals.truncate(kept);
}

/// Joins those that overlap or touch, and returns how many there are now, at the front.
fn join(intervals: &mut [Interval]) -> usize
    requires each { AllByRecursion IsInterval intervals.old }
    requires sorted { IsNonDecreasingBy (λ i. i.first) intervals.old }
    ensures { AreThoseOf intervals.old (take result intervals.new) }
{
    let mut kept = 0;
    for i in 0..intervals.len() {
        let next = intervals[i];
        kept = join_next(intervals, kept, next);
    }
    kept
}

/// Joins the next interval to those at the front, and returns how many there are now.
fn join_next(intervals: &mut [Interval], kept: usize, next: Interval) -> usize
    requires within { kept < length intervals.old }
    requires is { IsInterval next }
    requires are { AreNumbers (take kept intervals.old) }
    requires sorted { AllByRecursion (λ i. i.first ≤ next.first) (take kept intervals.old) }
    ensures joins { Joins (take kept intervals.old) (take result intervals.new) next }
    ensures rest { drop (kept + 1) intervals.new ≡ drop (kept + 1) intervals.old }
    ensures within { result ≤ kept + 1 }
{
    if kept > 0 && next.first <= intervals[kept - 1].last + 1 {
        let last = intervals[kept - 1].last;
        intervals[kept - 1].last = last.max(next.last);
        kept
    } else {
        intervals[kept] = next;
        kept + 1
    }
}

impl fmt::Display for Interval {
    ghost output = { λ i. Some (interval_text i) };

    fn fmt<W: fmt::Write>(&self, f: &mut fmt::Formatter<W>) -> fmt::Result {
        if self.first == self.last {
            write!(f, "{}", self.first)
        } else {
            write!(f, "{}-{}", self.first, self.last)
        }
    }
}
