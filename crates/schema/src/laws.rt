//! What follows from the definitions. Each function states laws by its contract, and does nothing.

ghost use Rattle.schema.specs.Laws.{FlagsRowByRow, ConflictsBothWays, ConflictsBySets, CoversEach, CoversLonger, CoversFromLess};
ghost use Rattle.schema.specs.Laws.{CoversAtEnd, CoversBySets};

/// The flags of a transaction are found row by row.
pub fn flags()
    ensures { FlagsRowByRow }
{}

/// Whether two transactions conflict depends only on their sets of rows, not on which of the two comes first or how
/// their rows are listed.
pub fn conflicts()
    ensures both_ways { ConflictsBothWays }
    ensures by_sets { ConflictsBySets }
{}

/// Which parents cover: one transaction after another, with one more, and by the sets of rows only.
pub fn covers()
    ensures each { CoversEach }
    ensures longer { CoversLonger }
    ensures by_sets { CoversBySets }
{}

/// A parent above one that covers also covers, and so does each parent that is at least the last number.
pub fn greater_parents()
    ensures from_less { CoversFromLess }
    ensures at_end { CoversAtEnd }
{}
