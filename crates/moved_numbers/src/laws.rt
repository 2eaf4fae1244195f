//! What follows from the definitions only. Each function states a law by its contract, and does nothing.

ghost use Rattle.moved_numbers.specs.Moved.{BackAgain, ParentAtLeast, MovedTwice, MovedLeaves, MovedIsShaped, RestIsLegal};
ghost use Rattle.moved_numbers.specs.Moved.{BehindIsLegal, BehindLeaves, RestIsSeen, RestIsAcceptable, RestAccepts, RestReceives};
ghost use Rattle.moved_numbers.specs.Moved.{BehindIsAcceptable, BehindAccepts, EpochsAgree, EpochGoesOn};

/// A record that is moved and moved back is the same again, but for a parent below the n records. Its changes are the
/// same, so it leaves the same rows.
pub fn one_record()
    ensures back { BackAgain }
    ensures parent { ParentAtLeast }
    ensures twice { MovedTwice }
    ensures leaves { MovedLeaves }
    ensures shaped { MovedIsShaped }
{}

/// The rest of a legal log is legal over the rows that the first records leave. In the other direction, a log over these
/// rows is legal after them, and leaves the same rows.
pub fn legal()
    ensures rest { RestIsLegal }
    ensures behind { BehindIsLegal }
    ensures leaves { BehindLeaves }
{}

/// A replica that begins after n records has, after u more, the rows that n + u records of the whole log leave.
pub fn seen()
    ensures { RestIsSeen }
{}

/// Whatever records are received, a replica that begins after n of them refuses none of the others that the whole one
/// accepts or skips. In the other direction, what it accepts may be accepted after n acceptable records, if the greatest
/// number is below 2 ^ 63.
pub fn acceptable()
    ensures rest { RestIsAcceptable }
    ensures accepts { RestAccepts }
    ensures receives { RestReceives }
    ensures behind { BehindIsAcceptable }
    ensures behind_accepts { BehindAccepts }
{}

/// A log and a snapshot of the rows that it leaves can be continued by the same records, with the same rows after each.
/// So what continues from a snapshot stands for the whole log, and its snapshot may again be replaced.
pub fn epochs()
    ensures agree { EpochsAgree }
    ensures goes_on { EpochGoesOn }
{}
