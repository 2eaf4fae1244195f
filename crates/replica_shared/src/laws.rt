//! What follows from the definitions only. Each function states a law by its contract, and does nothing.

ghost use Rattle.replica_shared.specs.Laws.{SeatsSeeGapped};

/// A seat that learnt of no more than was published at the end saw a gapped state of the accepted list, whatever was
/// received. With each of its commits that state has each earlier record that conflicts with it. Its rows are what these
/// records leave in log order. A seat's read with `upto` and `more` shows the first `upto + more` commits.
pub fn seats_see_gapped()
    ensures { SeatsSeeGapped }
{
    replica_core::laws::gapped();
}
