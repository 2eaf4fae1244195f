//! What follows from the definitions only. Each function states a law by its contract, and does nothing.

ghost use Rattle.gapped.specs.Laws.{RanIsGapped, FirstAreChosen, LongerLog, EligibleWaits, WaitingApart, WaitingLooksAlike, CommitLeaves};
ghost use Rattle.gapped.specs.Laws.{LegalIsGapped, WaitingIsGood};

/// Whatever log was received, commits in any order leave a gapped state of the log: the one that their records leave in
/// log order. In the order of the log that is the state after the first n records. Further records of the log do not
/// change it.
pub fn ran_is_gapped()
    ensures ran { RanIsGapped }
    ensures first { FirstAreChosen }
    ensures longer { LongerLog }
{}

/// If the parent of a record is at most the low-water mark, each earlier record that conflicts with it is committed. Of
/// two records that wait, neither changes what the other looks at. So a job that was handed out stays as it is, whatever
/// else is committed, and its output is one more commit.
pub fn waiting()
    ensures eligible { EligibleWaits }
    ensures apart { WaitingApart }
    ensures alike { WaitingLooksAlike }
    ensures commit { CommitLeaves }
{}

/// Over a log that a source wrote, each gapped state exists. Each child row has its parent in it, and no two rows of a
/// table have one value in its unique column. Each record that waits applies there, and states its true refs and marks.
pub fn legal_is_gapped()
    ensures legal { LegalIsGapped }
    ensures waiting { WaitingIsGood }
{}
