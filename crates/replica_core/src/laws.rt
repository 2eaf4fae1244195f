//! What follows from the definitions only. Each function states a law by its contract, and does nothing.

ghost use Rattle.replica_core.specs.Laws.{OneCommitMore, OneCommitEach, FirstCommits, OperationsLeaveRows, PublishedIsGapped};
ghost use Rattle.replica_core.specs.Laws.{JobIsOfItsRecord, EachHasJob, JobAgreesNow, JobAgrees, LegalStatesUpTo, JobStays};
ghost use Rattle.replica_core.specs.Laws.{JobStaysInOrder, JobStaysBehind, OthersLeaveJobs};
ghost use Rattle.gapped.specs.Laws.{LegalIsGapped};
ghost use Rattle.replica_core.specs.Wire.{NothingTaken, TakesOn};

/// Each further record adds one commit.
pub fn commits()
    ensures one_more { OneCommitMore }
    ensures one_each { OneCommitEach }
    ensures first { FirstCommits }
{}

/// Operations put in order leave what their records leave of the base.
pub fn operations()
    ensures { OperationsLeaveRows }
{}

/// What the first n commits leave is a gapped state, whatever was received. Over a log that a source wrote, if its base
/// has each child's parent and no value twice in a unique column, each gapped state exists, and is like that too.
pub fn gapped()
    ensures published { PublishedIsGapped }
    ensures legal { LegalIsGapped }
{}

/// Each accepted record has a job, of the record itself. The job of a record under way may be executed over the working
/// rows: its outcome is what its record does there. In the order of the log, the same is true over each database from the
/// committed one to the record's place, if the records in between state their true marks, as those of a legal log do.
pub fn jobs()
    ensures of_record { JobIsOfItsRecord }
    ensures each { EachHasJob }
    ensures now { JobAgreesNow }
    ensures agrees { JobAgrees }
    ensures legal { LegalStatesUpTo }
{}

/// The job of a dispatched record stays as it is, whatever is accepted, dispatched, finished or published. A commit
/// leaves it too, if its record applies and states its true refs and marks.
pub fn jobs_stay()
    ensures committed { JobStays }
    ensures in_order { JobStaysInOrder }
    ensures accepted { JobStaysBehind }
    ensures others { OthersLeaveJobs }
{}

/// What became of all bytes that a wire took: these bytes determine the accepted records, wherever they were cut.
pub fn wires()
    ensures nothing { NothingTaken }
    ensures goes_on { TakesOn }
{}
