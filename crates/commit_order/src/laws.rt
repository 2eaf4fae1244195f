//! What follows from the definitions only. Each function states a law by its contract, and does nothing.

ghost use Rattle.commit_order.specs.Turns.{TurnIsNext};

/// If the order of the log is kept, the turn is that of the record after those that left.
pub fn in_turn()
    ensures { TurnIsNext }
{}
