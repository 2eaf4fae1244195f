//! What follows from the definitions. Each function states a law by its contract, and does nothing.

ghost use Rattle.writeset_history.specs.Laws.{EntersEach, IsKeptUpTo};

/// After digests were entered, each of them has the number, and each other digest has what it had.
pub fn entered()
    ensures { EntersEach }
{}

/// Up to which number a history reaches: 0 for a new one, and then, if numbers rise, the one at which digests were
/// entered, or at which it was emptied.
pub fn up_to()
    ensures { IsKeptUpTo }
{}
