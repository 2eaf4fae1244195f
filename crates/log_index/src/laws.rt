//! What follows from the definitions. Each function states a law by its contract, and does nothing.

ghost use Rattle.log_index.specs.Laws.{LengthCovers};

/// A parent that is at least the log's length covers all rows.
pub fn next_entry()
    ensures { LengthCovers }
{}
