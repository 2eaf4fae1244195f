//! What follows for an operator from the definition of legal replies. Each function states a law by its contract, and
//! does nothing.

ghost use Rattle.world.specs.Laws.{
  ReadsArePrefixes,
  ReadsAreGapped,
  ReadsAreAnswered,
  ReadsAreSynced,
  ReadsNeverGoBack,
  PublishedWithin,
  NumbersNeverFall,
  CommittedAreSynced,
  EachCommitOnceInOrder,
  EachCommitOnce,
  NothingUnsyncedIsAccepted,
  RefusesOnlyGaps,
  OperationsLeaveRows,
  HaltsForGood,
  OneAnswer,
  OneLog,
  BeginningHasRows,
  SeatsSeeTheSource,
};
ghost use Rattle.world.specs.Crash.{SyncedOutlives};

use log_device::Device;
use store_trait::RowStore;

/// No read at the replica is refused, and each shows only records that are synced. In log order, it shows the row as
/// the source had it after a prefix of its log.
pub fn reads_are_prefixes()
    ensures prefixes { ReadsArePrefixes }
    ensures answered { ReadsAreAnswered }
    ensures synced { ReadsAreSynced }
{}

/// In any order, each read shows the row as some records of the log leave it, in log order. Each of these records comes
/// with all earlier ones that conflict with it.
pub fn reads_are_gapped()
    ensures { ReadsAreGapped }
{}

/// A read never shows fewer records than an earlier read did.
pub fn reads_never_go_back()
    ensures { ReadsNeverGoBack }
{}

/// At each moment no more records are published than committed at the replica, no more committed than accepted there,
/// and no more accepted than synced at the source. None of these numbers ever falls.
pub fn published_within()
    ensures in_order { PublishedWithin }
    ensures never_fall { NumbersNeverFall }
{}

/// Each record that a reply reports as committed was reported as synced before.
pub fn committed_are_synced()
    ensures { CommittedAreSynced }
{}

/// A crash may come at any moment of a run, in an event or between two. Opening what it leaves finds all records that
/// were reported as synced by then, and no record that was not flushed.
pub fn synced_outlives<D: Device, R: RowStore>()
    ensures { SyncedOutlives R.contents D.seen D.may_leave D.moment D.left_since }
{}

/// If it keeps log order, the replica commits each record once, in that order.
pub fn each_commit_once_in_order()
    ensures { EachCommitOnceInOrder }
{}

/// In any order, it commits no record twice.
pub fn each_commit_once()
    ensures { EachCommitOnce }
{}

/// The replica accepts a record only if it is synced at the source, and only the next one.
pub fn nothing_unsynced_is_accepted()
    ensures { NothingUnsyncedIsAccepted }
{}

/// The replica refuses only the delivery of a record past the next one, unless memory runs out. So it never stops.
pub fn refuses_only_gaps()
    ensures { RefusesOnlyGaps }
{}

/// Once a sync or a rotation reports that a device of the log failed, the source refuses each later event that calls
/// it, including syncs and commits. The replica, its readers and the log go on.
pub fn halts_for_good()
    ensures { HaltsForGood }
{}

/// In log order, the rows that readers have are what the base and the published commits leave in an empty store.
pub fn operations_leave_rows()
    ensures { OperationsLeaveRows }
{}

/// The initial state of a run and its events fix its replies, except for two things: that memory runs out, and in which
/// sync or rotation a device of the log fails. So the replies are the same over every pair of stores, and so is the
/// log.
pub fn one_answer()
    ensures replies { OneAnswer }
    ensures log { OneLog }
{}

/// If `begins` returns true for two sides over one schema, the replica's rows after each number of records are the
/// source's.
pub fn begins()
    ensures { BeginningHasRows }
{}

/// And what a seat of a shared replica in log order saw by then are the source's rows too, if it saw no more commits
/// than `end` says are published.
pub fn seats_see_the_source()
    ensures { SeatsSeeTheSource }
{}
