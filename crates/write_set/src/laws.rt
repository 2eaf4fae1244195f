//! What follows from the definitions. Each function states laws by its contract, and does nothing.

ghost use Rattle.write_set.specs.Laws.{HasJustTheDigests, DigestsRise};

/// A write set has exactly the digests of the written rows in keyed tables and of the marks, each once and in rising
/// order.
pub fn digest_sets()
    ensures members { HasJustTheDigests }
    ensures rising { DigestsRise }
{}
