//! What follows from the definitions. Each function states a law by its contract, and does nothing.

ghost use Rattle.durable_source.specs.Laws.{FoundNow, FoundInSync, FoundInRotate};
ghost use Rattle.durable_source.specs.Laws.{OpenAfterNow, OpenAfterSync, OpenAfterRotate, OpenAfterOpen};
ghost use Rattle.durable_source.specs.Laws.{FlushIsLater, SyncIsLater, RestIsLater, GoneOnIsLater, ToldStays, OneBase, SeenStays};

use log_device::Device;

/// Whatever may be in the files, a restart finds all synced records in it and, of the flushed records after these, only
/// a prefix. This holds between two calls, and at any moment of a sync and of a rotation.
pub fn found<D: Device>()
    ensures now { FoundNow D.seen D.may_leave }
    ensures in_sync { FoundInSync D.seen D.may_leave D.moment D.left_since }
    ensures in_rotate { FoundInRotate D.seen D.may_leave D.moment D.left_since }
{}

/// After a life, at whatever moment it ended, its files may be opened for the next one. So they may after an opening
/// that was cut short.
pub fn open_is_next_life<D: Device>()
    ensures now { OpenAfterNow D.seen D.may_leave }
    ensures in_sync { OpenAfterSync D.seen D.may_leave D.moment D.left_since }
    ensures in_rotate { OpenAfterRotate D.seen D.may_leave D.moment D.left_since }
    ensures in_open { OpenAfterOpen D.seen D.may_leave D.moment D.left_since }
{}

/// Each call leaves a later state: what was synced is still synced.
pub fn calls_are_later<D: Device>()
    ensures flush { FlushIsLater }
    ensures sync { SyncIsLater D }
    ensures others { RestIsLater }
{}

/// A source that was opened after a life is later than that life.
pub fn gone_on_is_later<D: Device>()
    ensures { GoneOnIsLater D }
{}

/// What was reported as synced or committed in a life is in each later one, at its place.
pub fn told_stays()
    ensures { ToldStays }
{}

/// All lives continue over the initial rows of the first.
pub fn one_base()
    ensures { OneBase }
{}

/// What a reader of a replica of one life saw, each later life has after the same number of records. So a reader who
/// continues with a later life never goes back.
pub fn seen_stays()
    ensures { SeenStays }
{}
