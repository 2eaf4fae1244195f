//! What follows from the definitions. Each function states laws by its contract, and does nothing.

ghost use Rattle.executor.specs.Laws.{InputIsRows, SameRowsIn, HoldersRise, HoldersAreHeld, SameHandedOver, HandedAgrees};
ghost use Rattle.executor.specs.Laws.{AgreesWithoutUnique, TellsSets, GoodDoesTheSame, GoodElsewhere, OutputIsGood, OutputIsThere};
ghost use Rattle.executor.specs.Laws.{GoodHasOutput, FaultIsThere};

/// Copies of a database's rows are these rows as they are there, and the holders of marks are the rows that have them
/// there. Both are the same for all databases that look alike to a record.
pub fn handed_over()
    ensures rows { InputIsRows }
    ensures same_rows { SameRowsIn }
    ensures rising { HoldersRise }
    ensures holders { HoldersAreHeld }
    ensures same { SameHandedOver }
{}

/// Which databases a job may be of: the one that its rows and holders are from, if its record states the parents and
/// the values that its changes give. Over tables without a unique column, a job without holders may be of the rows of
/// its input.
pub fn agrees()
    ensures handed { HandedAgrees }
    ensures without_unique { AgreesWithoutUnique }
{}

/// A record is good over a database if its changes apply there, its refs are exactly the parent rows that they look at,
/// and its marks exactly the values that they give up and take. It is also good over each database that looks alike to
/// it, and does the same there.
pub fn elsewhere()
    ensures same { GoodDoesTheSame }
    ensures good { GoodElsewhere }
{}

/// The test of refs and marks says whether they are the same set. So a record has an output over a database exactly if
/// it is good there.
pub fn outputs()
    ensures sets { TellsSets }
    ensures good { OutputIsGood }
{}

/// So the outcome is what the record does to each database that the job may be of. Unless memory ran out, there is an
/// output exactly if the record is good there. Each fault comes only if it is not.
pub fn executed_there()
    ensures output { OutputIsThere }
    ensures good { GoodHasOutput }
    ensures fault { FaultIsThere }
{}
