//! What follows from the definitions only. Each function states a law by its contract, and does nothing.

ghost use Rattle.relay.specs.Laws.{CoveredByParent, AcceptsTheAcceptable, EmptyIsAcceptable, NextIsAcceptable, BeginningIsAcceptable};
ghost use Rattle.relay.specs.Laws.{PlaceIsNumber, AcceptableStatesGiven, LegalIsAcceptable, ReceivesOfLog};

/// The test of a parent decides whether it covers the records before.
pub fn covered()
    ensures { CoveredByParent }
{}

/// Which record a relay accepts.
pub fn acceptance()
    ensures { AcceptsTheAcceptable }
{}

/// Which lists of records are acceptable: the empty one, each prefix of an acceptable one, and one with an acceptable
/// next record at its end. The records are numbered from 1.
pub fn accepted()
    ensures empty { EmptyIsAcceptable }
    ensures next { NextIsAcceptable }
    ensures beginning { BeginningIsAcceptable }
    ensures place { PlaceIsNumber }
{}

/// The refs and marks of an acceptable record have what its changes give their rows.
pub fn given()
    ensures { AcceptableStatesGiven }
{}

/// A legal log of well-formed records may be accepted whole. The law also has what a relay returns for each of its
/// records.
pub fn legal()
    ensures acceptable { LegalIsAcceptable }
    ensures receives { ReceivesOfLog }
{}
