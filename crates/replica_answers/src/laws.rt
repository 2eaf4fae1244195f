//! What follows from the definitions. The function states a law by its contract, and does nothing.

ghost use Rattle.replica_answers.specs.Laws.{ReadsAreOfTheWire};

/// A replica reads what another process wrote, wherever the wire is cut. It is of that source, it has that text, and
/// each read shows the rows after a prefix of the records that were written. There are two premises: what was read is a
/// prefix of what was written, and the records are a legal log over the tables and rows. `pair feed` writes such a wire
/// if the wire begins with the first record.
pub fn reads_are_of_the_wire()
    ensures { ReadsAreOfTheWire }
{}
