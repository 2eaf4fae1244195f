//! What follows from the definitions. Each function states laws by its contract, and does nothing.

ghost use Rattle.row_locks.specs.Laws.{NothingHeld, TakenByOne, ReleasedByOne, HeldAsListed, HoldersShare, HeldByRows, HoldsMoreRows};
ghost use Rattle.row_locks.specs.Laws.{HoldsMoreMarks, HoldersDoNotConflict};

/// A new table has 256 sessions, and none of them holds a row or a mark.
pub fn new_table()
    ensures { NothingHeld }
{}

/// Taking and releasing change what one session holds, and nothing of the others.
pub fn one_session()
    ensures taken { TakenByOne }
    ensures released { ReleasedByOne }
{}

/// After a session takes a list of locks, it holds a row exclusively if it did before or a lock of the list is
/// exclusive. It holds a row at all if it did before or a lock of the list is of that row.
pub fn also_held()
    ensures { HeldAsListed }
{}

/// Two sessions that hold one row both hold it for sharing.
pub fn no_clash()
    ensures { HoldersShare }
{}

/// A session that took rows to write, and rows that it refers to for sharing, holds the first exclusively and the
/// others for sharing. One more row to write, with the rows that it refers to, is added to these. More marks are added
/// to those that the session holds.
pub fn held_by_rows()
    ensures rows { HeldByRows }
    ensures more { HoldsMoreRows }
    ensures marks { HoldsMoreMarks }
{}

/// No two sessions of a table write a common row, or write a row that the other refers to, or have a common mark.
pub fn no_conflict()
    ensures { HoldersDoNotConflict }
{}
