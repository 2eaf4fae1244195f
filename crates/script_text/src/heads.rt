//! Writes the lines of tables and of rows at the start, as `lines` reads them.

ghost use Rattle.std.specs.Prelude.{◌∷◌, OnOk};
ghost use Rattle.std.specs.Io.KnownBytes.{Appends};
ghost use Rattle.script_text.specs.Printing.{columns_text};
ghost use Rattle.script_text.specs.Heads.{kind_word, unique_words, parent_words, behind_spaces, table_line, base_line};

use rows::Row;
use schema::{RowId, Table};
use std::io;
use std::io::Write;

/// Writes the line of a table, which `lines::table_of` reads.
pub fn write_table<W: Write>(out: &mut W, table: &Table) -> io::Result<()>
    ensures { OnOk result (Appends (W.contents out.old) (W.contents out.new) (table_line table.now)) }
{
    write!(out, "table {} {}", table.id, table.columns)?;
    write_kind(out, table.keyed)?;
    write_unique(out, table.unique)?;
    write_parent(out, table.parent)?;
    writeln!(out)
}

fn write_kind<W: Write>(out: &mut W, keyed: bool) -> io::Result<()>
    ensures { OnOk result (Appends (W.contents out.old) (W.contents out.new) (32 ∷ kind_word keyed)) }
{
    if keyed {
        write!(out, " keyed")
    } else {
        write!(out, " keyless")
    }
}

/// Writes the unique column, if there is one.
fn write_unique<W: Write>(out: &mut W, unique: Option<u8>) -> io::Result<()>
    ensures { OnOk result (Appends (W.contents out.old) (W.contents out.new) (behind_spaces (unique_words unique))) }
{
    match unique {
        None => Ok(()),
        Some(column) => write!(out, " unique {column}"),
    }
}

/// Writes the column that names a parent row, and the parent table's id, if there is one.
fn write_parent<W: Write>(out: &mut W, parent: Option<(u8, u16)>) -> io::Result<()>
    ensures { OnOk result (Appends (W.contents out.old) (W.contents out.new) (behind_spaces (parent_words parent))) }
{
    match parent {
        None => Ok(()),
        Some((column, table)) => write!(out, " parent {column} {table}"),
    }
}

/// Writes the line of a row at the start, which `lines::base_of` reads.
pub fn write_base<W: Write>(out: &mut W, row: RowId, values: &Row) -> io::Result<()>
    ensures { OnOk result (Appends (W.contents out.old) (W.contents out.new) (base_line row values.now)) }
{
    write!(out, "base {} {}", row.table, row.key)?;
    write_columns(out, values)?;
    writeln!(out)
}

/// Writes the columns of a row, each after a space.
pub fn write_columns<W: Write>(out: &mut W, row: &Row) -> io::Result<()>
    ensures { OnOk result (Appends (W.contents out.old) (W.contents out.new) (columns_text row.now)) }
{
    for column in row.columns() {
        write!(out, " {column}")?;
    }
    Ok(())
}
