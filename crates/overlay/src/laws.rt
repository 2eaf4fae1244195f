//! What follows from the definitions. Each function states laws by its contract, and does nothing.

ghost use Rattle.overlay.specs.Follows.{NoneFollows, StepFollows, PushedFollows, ShowsRows, SeesAfter, MovesOver};
ghost use Rattle.overlay.specs.Children.{TellsChildren, TellsByCount};
ghost use Rattle.overlay.specs.Values.{ValueOver};
ghost use Rattle.overlay.specs.Joining.{ApartGoesOn, ApartWithoutConflict, JoinedGoesOn, JoinedHasRows, JoinedRises, NotYetJoined};
ghost use Rattle.overlay.specs.Joining.{JoinedIsAfter, BatchIsAfter};

/// What is pending after changes that apply one after another, with their kin and marks: after no changes, after one
/// more change that applies, and over another database to which the changes do the same.
pub fn follows()
    ensures none { NoneFollows }
    ensures step { StepFollows }
    ensures pushed { PushedFollows }
    ensures moved { MovesOver }
{}

/// What is pending after changes that apply one after another shows the rows that the changes leave, and nothing else.
/// So its batch leaves the database that the changes leave.
pub fn shows()
    ensures rows { ShowsRows }
    ensures after { SeesAfter }
{}

/// Which transactions are apart from one another: each further one from each before it, and two that do not conflict.
pub fn apart()
    ensures goes_on { ApartGoesOn }
    ensures no_conflict { ApartWithoutConflict }
{}

/// What several transactions leave, joined one after another: the rows of each, in the order of row ids. If a
/// transaction is apart from those before it, none of its rows is there before it is added.
pub fn joined()
    ensures goes_on { JoinedGoesOn }
    ensures rows { JoinedHasRows }
    ensures rises { JoinedRises }
    ensures not_yet { NotYetJoined }
{}

/// Transactions that are each over one database, and apart from one another there, apply one after another. One batch
/// of what each of them leaves over that database carries it to what they all leave.
pub fn joined_is_after()
    ensures joined { JoinedIsAfter }
    ensures batch { BatchIsAfter }
{}

/// What a transaction sees of children: a row has a child exactly if some row names it as its parent. `has_child` finds
/// this out from the number of rows below that do.
pub fn sees()
    ensures children { TellsChildren }
    ensures by_count { TellsByCount }
{}

/// If no two rows below have one value of a unique column, `value_holds` says whether no other row has the change's
/// value, as the transaction sees the rows. It needs only the row that has the value below.
pub fn values()
    ensures { ValueOver }
{}
