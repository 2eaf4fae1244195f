//! What follows from the definitions. Each function states a law by its contract, and does nothing.

ghost use Rattle.log_tools.specs.Laws.{HeadsReadBack};

/// What `Head::write` writes for tables and rows, of one to sixteen columns, says exactly these. So a log, what is fed
/// from it, and a replica of that feed are over the same tables and rows.
pub fn head_reads_back()
    ensures { HeadsReadBack }
{}
