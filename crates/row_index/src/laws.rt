//! The maps follow the rows. Each function states laws by its contract, and does nothing.

ghost use Rattle.row_index.specs.Laws.{NoneIndexed, NoneCounted, KeysFollow, CountsFollow, ChildrenMove, OldAreCounted, ChildrenAreRows};

/// The keys give the row that has each mark, for no rows and after each batch.
pub fn keys()
    ensures none { NoneIndexed }
    ensures follow { KeysFollow }
{}

/// The counts give the number of children of each row, for no rows and after each batch. No row has more children than
/// there are rows. The rows of a batch that have it as their parent are among its children.
pub fn counts()
    ensures none { NoneCounted }
    ensures follow { CountsFollow }
    ensures moves { ChildrenMove }
    ensures old { OldAreCounted }
    ensures few { ChildrenAreRows }
{}
