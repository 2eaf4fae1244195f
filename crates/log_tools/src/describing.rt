//! What a log is written over, as text: its identifier, its tables, and the rows before its first record.

ghost use Rattle.std.specs.Prelude.{◌≡◌, ◌↔◌, ℕ, List, [], ◌∷◌, ◌++◌, map, codes, Some, IsTrue, IfOk, IfErr, IfSome, IfNone, OnOk};
ghost use Rattle.std.specs.Prelude.{IsPermutation};
ghost use Rattle.std.specs.Bool.{then_some};
ghost use Rattle.std.specs.Io.KnownBytes.{Appends};
ghost use Rattle.uuid.specs.Text.{parsed};
ghost use Rattle.script_text.specs.Lines.{table, base};
ghost use Rattle.store_trait.specs.Fits.{Fits};
ghost use Rattle.store_trait.specs.Operation.{loaded};
ghost use Rattle.log_tools.specs.Head.{tables_text, entries_text, entry_line, source_line, SaysLog};
ghost use Rattle.log_tools.specs.Head.{lines_of, present, said, said_with, added, Reads, SaysHead, IsHeadFault, HasRowTwice, GetsNoStore};

use btree_store::BTreeStore;
use row_index::values_apart;
use rows::Row;
use schema::{Memory, RowId, Schema, SchemaFault, Table};
use script_text::cut::place_of;
use script_text::heads::{write_base, write_table};
use script_text::lines::{Line, base_of, line_of, table_of};
use script_text::words::Words;
use std::alloc::{AllocError, AllocFailed, Global};
use std::io;
use std::io::Write;
use store_trait::{Batch, RowStore, rows_stand};
use thiserror::Error;
use uuid::Uuid;

/// Why lines do not say what a log is written over.
#[derive(Clone, Copy, Debug, Error)]
pub enum HeadFault {
    /// The line with this number, counted from 1, says neither a table nor a row, or is a table after a row. Or it is
    /// the first line of PREFIX.schema, and does not say an identifier.
    #[error("line {0}: bad command")]
    Line(usize),
    /// The tables are not a schema.
    #[error("{0}")]
    Schema(SchemaFault),
    /// The rows do not fit the tables, or a row comes twice.
    #[error("bad base")]
    Base,
    /// Memory ran out.
    #[error("no memory")]
    Memory,
}

impl From<Memory> for HeadFault {
    ghost use Rattle.std.specs.Prelude.{◌≡◌};
    ghost use Rattle.log_tools.specs.declared.describing.HeadFault.TheVariants as faults;

    ghost from_gives = { λ _ fault. fault ≡ faults.Memory };

    fn from(_memory: Memory) -> HeadFault {
        HeadFault::Memory
    }
}

impl From<AllocError> for HeadFault {
    ghost use Rattle.std.specs.Prelude.{◌≡◌};
    ghost use Rattle.log_tools.specs.declared.describing.HeadFault.TheVariants as faults;

    ghost from_gives = { λ _ fault. fault ≡ faults.Memory };

    fn from(_error: AllocError) -> HeadFault {
        HeadFault::Memory
    }
}

impl<T: Drop> From<AllocFailed<T>> for HeadFault {
    ghost use Rattle.std.specs.Prelude.{◌≡◌};
    ghost use Rattle.log_tools.specs.declared.describing.HeadFault.TheVariants as faults;

    ghost from_gives = { λ _ fault. fault ≡ faults.Memory };

    fn from(_error: AllocFailed<T>) -> HeadFault {
        HeadFault::Memory
    }
}

impl From<SchemaFault> for HeadFault {
    ghost use Rattle.log_tools.specs.Head.{IsOfSchema};

    ghost from_gives = { IsOfSchema };

    fn from(fault: SchemaFault) -> HeadFault {
        match fault {
            SchemaFault::Memory => HeadFault::Memory,
            fault => HeadFault::Schema(fault),
        }
    }
}

/// The tables, and the rows before the first record.
#[derive(Drop)]
pub struct Head {
    pub schema: Schema,
    pub base: Batch,
}

/// What PREFIX.schema says: the log's identifier, and its head.
#[derive(Drop)]
pub struct Described {
    pub source: Uuid,
    pub head: Head,
}

impl Described {
    /// Reads a text: its first line is the identifier, and the others are a head. The time is that of `Head::of`.
    pub fn of(alloc: Global, text: &[u8]) -> Result<Described, HeadFault>
        ensures { IfOk result (λ d. SaysLog text.now d.source d.head.schema d.head.base) }
    {
        let (line, Some(rest)) = cut(text) else {
            return Err(HeadFault::Line(1));
        };
        let Some(source) = source_of(line) else {
            return Err(HeadFault::Line(1));
        };
        match Head::of(alloc, rest) {
            Ok(head) => Ok(Described { source, head }),
            Err(HeadFault::Line(number)) => Err(HeadFault::Line(number.saturating_add(1))),
            Err(fault) => Err(fault),
        }
    }
}

/// The first line of a text, without its LF, and the text after it; `None` if no LF ends the line.
fn cut(text: &[u8]) -> (&[u8], Option<&[u8]>)
    ensures last { IfNone result.1 (lines_of text.now ≡ result.0.now ∷ []) }
    ensures more { IfSome result.1 (λ more. lines_of text.now ≡ result.0.now ∷ lines_of more.now) }
    ensures split { IfSome result.1 (λ more. text.now ≡ result.0.now ++ 10 ∷ more.now) }
{
    match place_of(text, b'\n') {
        Some(at) => (&text[..at], Some(&text[at + 1..])),
        None => (text, None),
    }
}

/// The identifier that the line says.
fn source_of(line: &[u8]) -> Option<Uuid>
    ensures { IfSome result (λ source. (word : List ℕ) × (line.now ≡ codes "source " ++ word) × (parsed word ≡ Some source)) }
{
    let word = line.strip_prefix(b"source ")?;
    match Uuid::try_parse_ascii(word) {
        Ok(source) => Some(source),
        Err(_) => None,
    }
}

/// What the lines said.
#[derive(Drop)]
struct Said {
    tables: Vec<Table>,
    rows: Vec<(RowId, Row)>,
}

impl Head {
    /// Reads the lines of a text. All tables come before all rows; a line that is empty or begins with `#` says
    /// nothing. The first bad line is refused first, then the tables, and then the rows.
    ///
    /// The time is that of a walk over the text, and of n log n for n rows. The memory is that of the result, of the
    /// rows twice more, and of their values in unique columns.
    pub fn of(alloc: Global, text: &[u8]) -> Result<Head, HeadFault>
        ensures ok { IfOk result (λ head. SaysHead text.now head.schema head.base) }
        ensures fits { IfOk result (λ head. Fits head.schema (loaded head.base)) }
        ensures err { IfErr result (IsHeadFault text.now) }
    {
        let Said { tables, rows } = Said::of(alloc, text)?;
        let schema = Schema::new(tables)?;
        let Some(base) = batch_of(alloc, &rows)? else {
            return Err(HeadFault::Base);
        };
        let head = Head { schema, base };
        match head.store(alloc) {
            Ok(_) => Ok(head),
            Err(fault) => Err(fault),
        }
    }

    /// Writes the lines of the tables, and then those of the rows.
    pub fn write<W: Write>(&self, out: &mut W) -> io::Result<()>
        ensures { OnOk result (Appends (W.contents out.old) (W.contents out.new)
            (tables_text self.now.schema ++ entries_text self.now.base)) }
    {
        write_tables(out, self.schema.tables())?;
        write_entries(out, self.base.entries())
    }

    /// A store of the rows. The time is n log n for n rows. The memory is that of the store and, during the call, of
    /// the rows' values in unique columns.
    pub fn store(&self, alloc: Global) -> Result<BTreeStore, HeadFault>
        ensures fits { IfOk result (λ store. Fits self.now.schema store) }
        ensures rows { IfOk result (λ store. store ≡ loaded self.now.base) }
        ensures err { IfErr result (GetsNoStore self.now.schema self.now.base) }
    {
        let mut store = BTreeStore::new(alloc);
        store.put_all(&self.base)?;
        if rows_fit(alloc, &self.schema, &self.base, &store)? {
            Ok(store)
        } else {
            Err(HeadFault::Base)
        }
    }
}

/// Whether the rows that the batch loaded into the store fit the schema. It takes the memory of their values in unique columns.
fn rows_fit(
    alloc: Global,
    schema: &Schema,
    base: &Batch,
    store: &BTreeStore,
) -> Result<bool, Memory>
    requires { store.now ≡ loaded base.now }
    ensures { IfOk result (λ fit. IsTrue fit ↔ Fits schema.now store.now) }
{
    if rows_stand(schema, store) {
        values_apart(alloc, schema, base)
    } else {
        Ok(false)
    }
}

impl Said {
    /// Reads the lines of a text. It refuses the first bad line, with its number, counted from 1.
    fn of(alloc: Global, text: &[u8]) -> Result<Said, HeadFault>
        ensures { Reads text.now result }
    {
        let mut said = Said {
            tables: Vec::new(alloc),
            rows: Vec::new(alloc),
        };
        let mut rest = text;
        for number in 1..usize::MAX {
            let (line, more) = cut(rest);
            if !said.add(line)? {
                return Err(HeadFault::Line(number));
            }
            match more {
                Some(more) => rest = more,
                None => return Ok(said),
            }
        }
        Err(HeadFault::Memory)
    }

    /// Takes what a line says. If the line is bad or comes too late, it returns `false` and takes nothing.
    fn add(&mut self, line: &[u8]) -> Result<bool, Memory>
        ensures said { IfOk result (λ is_good. said_with (said self.old) line.now ≡ then_some is_good (said self.new)) }
    {
        match line_of(line) {
            None => Ok(false),
            Some(Line::Skipped) => Ok(true),
            Some(Line::Table(words)) => self.add_table(words),
            Some(Line::Base(words)) => self.add_row(words),
            Some(Line::Event(_, _)) => Ok(false),
        }
    }

    /// Takes the table that the words describe.
    #[tactic(auto, unfolding(crate::specs::Head::added))]
    fn add_table(&mut self, words: Words) -> Result<bool, Memory>
        ensures { IfOk result (λ is_good. added (said self.old) (table words.entry) ≡ then_some is_good (said self.new)) }
    {
        let Some(table) = table_of(words) else {
            return Ok(false);
        };
        if !self.rows.is_empty() {
            return Ok(false);
        }
        self.tables.push(table)?;
        Ok(true)
    }

    /// Takes the row that the words describe.
    #[tactic(auto, unfolding(crate::specs::Head::added))]
    fn add_row(&mut self, words: Words) -> Result<bool, Memory>
        ensures { IfOk result (λ is_good. added (said self.old) (base words.entry) ≡ then_some is_good (said self.new)) }
    {
        let Some(row) = base_of(words) else {
            return Ok(false);
        };
        self.rows.push(row)?;
        Ok(true)
    }
}

/// The batch of these n rows, in any order; `None` exactly if one comes twice. The time is n log n.
fn batch_of(alloc: Global, rows: &[(RowId, Row)]) -> Result<Option<Batch>, AllocError>
    ensures rows { IfOk result (λ made. IfSome made (λ batch. IsPermutation (map present rows.now) batch)) }
    ensures twice { IfOk result (λ made. IfNone made (HasRowTwice rows.now)) }
{
    let mut entries = entries_of(alloc, rows)?;
    entries.sort_unstable_by_key(|entry| entry.0);
    Ok(Batch::from_entries(entries))
}

fn entries_of(alloc: Global, rows: &[(RowId, Row)]) -> Result<Vec<(RowId, Option<Row>)>, AllocError>
    ensures { IfOk result (λ entries. entries.items ≡ map present rows.now) }
{
    rows.iter().map(|row| (row.0, Some(row.1))).collect(alloc)
}

/// Writes the identifier as a line.
pub fn write_source<W: Write>(out: &mut W, source: Uuid) -> io::Result<()>
    ensures { OnOk result (Appends (W.contents out.old) (W.contents out.new) (source_line source)) }
{
    writeln!(out, "source {}", source.hyphenated())
}

/// Writes a line for each table.
pub fn write_tables<W: Write>(out: &mut W, tables: &[Table]) -> io::Result<()>
    ensures { OnOk result (Appends (W.contents out.old) (W.contents out.new) (tables_text tables.now)) }
{
    for table in tables {
        write_table(out, table)?;
    }
    Ok(())
}

/// Writes a line for each entry that has a row.
pub fn write_entries<W: Write>(out: &mut W, entries: &[(RowId, Option<Row>)]) -> io::Result<()>
    ensures { OnOk result (Appends (W.contents out.old) (W.contents out.new) (entries_text entries.now)) }
{
    for entry in entries {
        write_entry(out, entry)?;
    }
    Ok(())
}

/// Writes the line of a row, if there is one.
fn write_entry<W: Write>(out: &mut W, entry: &(RowId, Option<Row>)) -> io::Result<()>
    ensures { OnOk result (Appends (W.contents out.old) (W.contents out.new) (entry_line entry.now)) }
{
    match &entry.1 {
        Some(row) => write_base(out, entry.0, row),
        None => Ok(()),
    }
}
