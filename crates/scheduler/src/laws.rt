//! What follows from the definitions only. Each function states a law by its contract, and does nothing.

ghost use Rattle.scheduler.specs.Gnos.{LowIsLow, OneLow, HasFirst, LowOfFirst, LowRises, AreFewer, LowIsFew};
ghost use Rattle.scheduler.specs.Laws.{LowIsGreatest};

/// If the transaction after the low-water mark is not committed, the mark is the greatest number up to which every
/// transaction is committed.
pub fn low_is_greatest()
    ensures { LowIsGreatest }
{}

/// A set of numbers has exactly one low-water mark. That of the numbers from 1 to n is n, and it never falls as numbers
/// are added.
pub fn low_of_set()
    ensures low { LowIsLow }
    ensures one { OneLow }
    ensures has_first { HasFirst }
    ensures first { LowOfFirst }
    ensures rises { LowRises }
    ensures few { LowIsFew }
{}

/// If distinct numbers are all in another list, that list is at least as long.
pub fn are_fewer()
    ensures { AreFewer }
{}
