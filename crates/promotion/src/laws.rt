//! What follows from the definitions. Each function states a law by its contract, and does nothing.

ghost use Rattle.promotion.specs.Laws.{SeenLeadsOn, GappedLeadsOn, JoinedIsLegal, JoinedLeaves};

/// No reader goes back: what the replica showed leads on to the rows with which the new source begins, whether or not
/// the replica kept log order.
pub fn seen_leads_on()
    ensures in_order { SeenLeadsOn }
    ensures gapped { GappedLeadsOn }
{}

/// The old log and the new one are one log, if the new gnos count on from the last old one. If both are legal, so is
/// this one log. What the new log leaves is what both leave.
pub fn joined()
    ensures legal { JoinedIsLegal }
    ensures leaves { JoinedLeaves }
{}
