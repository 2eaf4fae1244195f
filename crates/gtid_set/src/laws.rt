//! What follows from the definitions. Each function states laws by its contract, and does nothing.

ghost use Rattle.gtid_set.specs.Laws.{OneSet, TextIsRead, TextGivesSet, OneText, FirstIds, NextIdFits, NextId};

/// A set is determined by its source and its members: no two lists of intervals give one set.
pub fn one_set()
    ensures { OneSet }
{}

/// The text of a set lists the set's intervals, and is read as that set.
pub fn text_is_read()
    ensures read { TextIsRead }
    ensures gives { TextGivesSet }
{}

/// Two sets with one text are equal.
pub fn one_text()
    ensures { OneText }
{}

/// The first ids of a source: which they are, and that adding the next one gives the first ids again.
pub fn first_ids()
    ensures which { FirstIds }
    ensures fits { NextIdFits }
    ensures next { NextId }
{}
