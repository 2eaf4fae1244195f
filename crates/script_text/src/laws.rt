//! What follows from the definitions only. Each function states a law by its contract, and does nothing.

ghost use Rattle.script_text.specs.Laws.{TablesReadBack, BasesReadBack};

/// The line that is written for a table is read as that table.
pub fn table_reads_back()
    ensures { TablesReadBack }
{}

/// The line that is written for a row at the start, of 1 to 16 columns, is read as that row.
pub fn base_reads_back()
    ensures { BasesReadBack }
{}
