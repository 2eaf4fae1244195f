//! What follows from the definitions only. The function states a law by its contract, and does nothing.

ghost use Rattle.commit_stages.specs.Laws.{KeepsLine};

/// Sessions wait in one line: it grows at its end, loses the commit queue at its front, and no step between changes it.
pub fn keeps_line()
    ensures { KeepsLine }
{}
