//! `rows`: prints the tables and the rows that a log leaves.

ghost use Rattle.std.specs.Prelude.{◌≡◌, ◌++◌, OnOk};
ghost use Rattle.std.specs.Io.KnownBytes.{Appends};
ghost use Rattle.store_trait.specs.Batch.{all_rows};
ghost use Rattle.store_trait.specs.Fits.{AreOfTables};
ghost use Rattle.log_tools.specs.Head.{tables_text, entries_text};
ghost use Rattle.log_tools.specs.Logs.{PrintsLog};
ghost use Rattle.log_tools.specs.Rows.{PrintsRows};

use crate::describing::{write_entries, write_tables};
use crate::ending::Stop;
use crate::logs::Copied;
use schema::Schema;
use std::alloc::Global;
use std::fs::File;
use std::io::Write;
use std::rt::Files;
use store_trait::{RowStore, snapshot};

/// Prints the tables, and the rows after `upto` records, or after all, as lines from which `make` makes a new log. A
/// log with fewer records is refused. The time and the memory are those of starting a source.
pub fn rows<H: Files<File = File>, W: Write>(
    rt: &H,
    alloc: Global,
    prefix: &str,
    upto: Option<usize>,
    out: &mut W,
) -> Result<(), Stop>
    ensures { OnOk result (PrintsLog upto (W.contents out.old) (W.contents out.new)) }
{
    let log = Copied::read(rt, alloc, prefix)?;
    show_rows(alloc, &log, upto, out)
}

/// Like `rows`, but for a log that was read.
fn show_rows<W: Write>(
    alloc: Global,
    log: &Copied,
    upto: Option<usize>,
    out: &mut W,
) -> Result<(), Stop>
    // It prints the tables, and the rows that these records leave of the initial rows.
    ensures { OnOk result (PrintsRows log.now.described.head.schema log.now.described.head.base log.now.set.log.records upto
        (W.contents out.old) (W.contents out.new)) }
{
    let records = log.records(alloc, upto)?;
    let found = log.replayed(alloc, &records)?;
    write_rows(alloc, &log.described.head.schema, found.store(), out)
}

/// Writes a line for each table and for each row of the store, in order. The time is that of a look-up for each row,
/// and the memory that of the rows.
fn write_rows<S: RowStore, W: Write>(
    alloc: Global,
    schema: &Schema,
    store: &S,
    out: &mut W,
) -> Result<(), Stop>
    requires { AreOfTables schema.now (S.contents store.now) }
    ensures { OnOk result (Appends (W.contents out.old) (W.contents out.new)
        (tables_text schema.now ++ entries_text (all_rows (S.contents store.now)))) }
{
    let rows = snapshot(alloc, store, schema)?;
    write_tables(out, schema.tables())?;
    write_entries(out, rows.entries())?;
    Ok(())
}
