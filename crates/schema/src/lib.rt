//! Row ids, tables and schemas.
//!
//! A `Schema` is a list of 1 to 256 tables that obeys the rules of `specs/Schema.antt`. Table ids are from 1 to 256,
//! and none comes twice. A table has 1 to 16 columns. If it has a parent, one of its columns names it, and the parent
//! is a table of the schema with a lower id. If it has a unique column, it is keyed. Any other list is refused with its
//! first fault, table by table.
//!
//! A `Mark` is a value of a unique column. This crate also defines the sets of rows that transactions write and refer
//! to, their marks, and when two transactions conflict (`specs/Rows.antt`), since all layers above use them; and which
//! kinds of tables a transaction writes (`Flags`). Each fault has its text beside it.
#![tactic(auto)]

ghost use Rattle.std.specs.Prelude.{◌≡◌, ◌<◌, ◌||◌, [], is_some, length, take, slice_get, option_and_then, IfOk, Some, None};
ghost use Rattle.std.specs.Result.{result_err};
ghost use Rattle.schema.specs.Flags.{is_parent, is_keyless, no_flags, flags_with};
ghost use Rattle.schema.specs.Schema.{schema_fault, fault_from, table_at, link_of, unique_of, table_fault, has_fine_parent};
ghost use Rattle.schema.specs.Schema.{has_fine_unique, plain_table, child_of, with_unique};
ghost use Rattle.schema.specs.FaultText.{fault_text};

pub mod laws;

use std::alloc::{AllocError, AllocFailed};
use std::cmp::Ordering;
use std::error::Error as StdError;
use std::fmt;
use std::marker::Model;
use thiserror::Error;
use uuid::Uuid;

/// The error of a call that fails only if memory runs out.
#[derive(Clone, Copy, Debug, PartialEq, Eq, Error)]
#[error("no memory")]
pub struct Memory;

impl From<AllocError> for Memory {
    fn from(_error: AllocError) -> Memory {
        Memory
    }
}

impl<T: Drop> From<AllocFailed<T>> for Memory {
    fn from(_error: AllocFailed<T>) -> Memory {
        Memory
    }
}

/// The name of a row: its table, and its key in the table. Row ids are ordered by table, then by key.
#[derive(Clone, Copy, Debug, PartialEq, Eq, Hash)]
pub struct RowId {
    /// The table's id, 1 to 256 in a schema.
    pub table: u16,
    /// The row's key, any number.
    pub key: i64,
}

impl Ord for RowId {
    ghost use Rattle.schema.specs.RowId.{row_cmp, row_total};
    ghost use Rattle.schema.specs.RowOrder.{alike, answered};

    ghost cmp = { row_cmp };

    ghost total = { row_total };

    ghost matches_partial_cmp = { answered };

    ghost matches_eq = { alike };

    fn cmp(&self, other: &RowId) -> Ordering {
        match self.table.cmp(&other.table) {
            Ordering::Equal => self.key.cmp(&other.key),
            unequal => unequal,
        }
    }
}

impl PartialOrd for RowId {
    ghost use Rattle.std.specs.Ordering.{as_partial_cmp};
    ghost use Rattle.schema.specs.RowId.{row_cmp};
    ghost use Rattle.schema.specs.RowOrder.{ordered};

    ghost partial_cmp = { as_partial_cmp row_cmp };

    ghost laws = { ordered };

    fn partial_cmp(&self, other: &RowId) -> Option<Ordering> {
        Some(self.cmp(other))
    }
}

/// A value of a table's unique column. Marks are ordered like row ids, with the value as the key.
#[derive(Clone, Copy, Debug, PartialEq, Eq, Hash)]
pub struct Mark {
    row: RowId,
}

impl Model for Mark {
    ghost use Rattle.schema.specs.declared.RowId.{RowId};
    ghost use Rattle.std.specs.Prelude.{refl};

    ghost Value = { RowId };

    ghost view = { λ m. m.row };

    ghost inverse = { λ row. record { row = row } };

    ghost inverse_ok = { λ _ _. refl };
}

impl Mark {
    /// This value in the unique column of the table with this id.
    pub fn new(table: u16, value: i64) -> Mark
        ensures { result ≡ record { table = table; key = value } }
    {
        Mark {
            row: RowId { table, key: value },
        }
    }

    /// The table's id.
    pub fn table(self) -> u16
        ensures { result ≡ self.table }
    {
        self.row.table
    }

    /// The value.
    pub fn value(self) -> i64
        ensures { result ≡ self.key }
    {
        self.row.key
    }

    /// The row id that the mark is kept and written as: its table, with the value as the key.
    pub fn as_row(self) -> RowId
        ensures { result ≡ self }
    {
        self.row
    }
}

impl Ord for Mark {
    ghost use Rattle.schema.specs.RowId.{row_cmp, row_total};
    ghost use Rattle.schema.specs.RowOrder.{alike, answered};

    ghost cmp = { row_cmp };

    ghost total = { row_total };

    ghost matches_partial_cmp = { answered };

    ghost matches_eq = { alike };

    fn cmp(&self, other: &Mark) -> Ordering {
        self.row.cmp(&other.row)
    }
}

impl PartialOrd for Mark {
    ghost use Rattle.std.specs.Ordering.{as_partial_cmp};
    ghost use Rattle.schema.specs.RowId.{row_cmp};
    ghost use Rattle.schema.specs.RowOrder.{ordered};

    ghost partial_cmp = { as_partial_cmp row_cmp };

    ghost laws = { ordered };

    fn partial_cmp(&self, other: &Mark) -> Option<Ordering> {
        Some(self.cmp(other))
    }
}

/// The name of a transaction: the server that committed it first, and the transaction's number there.
#[derive(Clone, Copy, Debug, PartialEq, Eq)]
pub struct Gtid {
    /// The server's identifier.
    pub source: Uuid,
    /// The transaction's number at that server, from 1.
    pub gno: u64,
}

/// A table of a schema.
#[derive(Clone, Copy, Debug, PartialEq, Eq)]
pub struct Table {
    /// 1 to 256.
    pub id: u16,
    /// How many columns each row has, 1 to 16. They are numbered from 0.
    pub columns: u8,
    /// Whether changes can be told apart by the table's keys. The rows of a keyless table have keys too.
    pub keyed: bool,
    /// The column in which no two rows of the table have one value, if there is one. It is like a `UNIQUE KEY` of MySQL
    /// over one column that is `NOT NULL`.
    pub unique: Option<u8>,
    /// In a child table, the column whose value is the key of a row of the parent table, and the parent table's id.
    pub parent: Option<(u8, u16)>,
}

impl Table {
    /// A table with this id and this number of columns, without a unique column, whose rows have no parent.
    pub fn new(id: u16, columns: u8, keyed: bool) -> Table
        ensures { result ≡ plain_table id columns keyed }
    {
        Table {
            id,
            columns,
            keyed,
            unique: None,
            parent: None,
        }
    }

    /// The table with a unique column: no two of its rows have one value in it.
    pub fn with_unique(self, column: u8) -> Table
        ensures { result ≡ with_unique self column }
    {
        Table {
            unique: Some(column),
            ..self
        }
    }

    /// The table as a child: this column of a row has the key of its parent row, in the table with this id.
    pub fn child_of(self, column: u8, parent: u16) -> Table
        ensures { result ≡ child_of self column parent }
    {
        Table {
            parent: Some((column, parent)),
            ..self
        }
    }
}

/// Why a list of tables is not a schema. The text is the fault's number and name.
#[derive(Clone, Copy, Debug, PartialEq, Eq)]
pub enum SchemaFault {
    /// There are no tables, or more than 256.
    Count,
    /// A table's id is not 1 to 256.
    Id,
    /// A table's number of columns is not 1 to 16.
    Columns,
    /// An earlier table of the list has the same id.
    Twice,
    /// The parent's column is outside the table, or the list has no table with the parent's id, or that id is not
    /// lower.
    Parent,
    /// Memory ran out.
    Memory,
    /// The unique column is outside the table, or the table is keyless.
    Unique,
}

impl SchemaFault {
    /// The fault's number and name.
    pub fn text(self) -> &'static str
        ensures { result.now ≡ fault_text self }
    {
        match self {
            SchemaFault::Count => "B1 Count",
            SchemaFault::Id => "B2 Id",
            SchemaFault::Columns => "B3 Columns",
            SchemaFault::Twice => "B4 Twice",
            SchemaFault::Parent => "B5 Parent",
            SchemaFault::Memory => "B6 Memory",
            SchemaFault::Unique => "B7 Unique",
        }
    }
}

impl fmt::Display for SchemaFault {
    ghost use Rattle.std.specs.Prelude.{Some};
    ghost use Rattle.schema.specs.FaultText.{fault_text};

    ghost output = { λ fault. Some (fault_text fault) };

    fn fmt<W: fmt::Write>(&self, f: &mut fmt::Formatter<W>) -> fmt::Result {
        f.write_str(self.text())
    }
}

impl StdError for SchemaFault {}

/// Which kinds of tables a transaction writes.
#[derive(Clone, Copy, Debug, PartialEq, Eq)]
pub struct Flags {
    /// Foreign-key related: it writes a table that has a parent or is one.
    pub fk: bool,
    /// It writes a keyless table.
    pub missing_keys: bool,
}

impl Flags {
    /// The flags of a transaction that writes nothing.
    pub fn none() -> Flags
        ensures { result ≡ no_flags }
    {
        Flags {
            fk: false,
            missing_keys: false,
        }
    }

    /// The flags of a transaction that also writes the table with this id. The time is that of at most three walks over
    /// the tables.
    pub fn with(self, schema: &Schema, id: u16) -> Flags
        ensures { result ≡ flags_with schema.now self id }
    {
        Flags {
            fk: self.fk || schema.is_linked(id),
            missing_keys: self.missing_keys || schema.is_keyless(id),
        }
    }
}

/// The most tables of a schema, and the greatest id of one.
pub const MAX_TABLES: usize = 256;

/// The most columns of a row.
pub const MAX_COLUMNS: u8 = 16;

/// A list of tables that obeys the rules.
#[derive(Debug, Drop)]
pub struct Schema {
    tables: Vec<Table>,
}

impl Model for Schema {
    ghost use Rattle.std.specs.Prelude.{◌≡◌, List, None};
    ghost use Rattle.schema.specs.declared.Table.{Table};

    ghost Value = { List Table };

    ghost use Rattle.schema.specs.Schema.{schema_fault};

    ghost view = { λ s. s.tables.items };

    ghost invariant = { λ s. schema_fault s.tables.items ≡ None };
}

impl Schema {
    /// The schema of these tables, or the first fault of the list. The number of tables is checked first. Then, table
    /// by table as they are listed: the id, the columns, whether an earlier table has the id, the parent (which may
    /// come later in the list), and the unique column. It takes no memory, and the time of n * n tests for n tables.
    pub fn new(tables: Vec<Table>) -> Result<Schema, SchemaFault>
        ensures exact { result_err result ≡ schema_fault tables.items }
        ensures value { IfOk result (λ schema. schema ≡ tables.items) }
    {
        match first_fault(&tables) {
            Some(fault) => Err(fault),
            None => Ok(Schema { tables }),
        }
    }

    /// The tables, in the order in which they were listed.
    pub fn tables(&self) -> &[Table]
        ensures value { result.now ≡ self.now }
        ensures valid { schema_fault self.now ≡ None }
    {
        &self.tables
    }

    /// The table with this id. The time is that of a walk over the tables.
    pub fn table(&self, id: u16) -> Option<Table>
        ensures { result ≡ table_at self.now id }
    {
        table_of(&self.tables, id)
    }

    /// The column of a table whose value names a parent row, and the parent table's id; `None` if the table has no
    /// parent, or is not in the schema. The time is that of a walk over the tables.
    pub fn link_of(&self, id: u16) -> Option<(u8, u16)>
        ensures { result ≡ link_of self.now id }
    {
        self.table(id)?.parent
    }

    /// The unique column of a table; `None` if it has none, or is not in the schema. The time is that of a walk over
    /// the tables.
    pub fn unique_of(&self, id: u16) -> Option<u8>
        ensures { result ≡ unique_of self.now id }
    {
        self.table(id)?.unique
    }

    /// Whether a table is the parent of another. The time is that of a walk over the tables.
    pub fn is_parent(&self, id: u16) -> bool
        ensures { result ≡ is_parent self.now id }
    {
        any_refers(&self.tables, id)
    }

    /// Whether a table has a parent or is one. The time is that of two walks over the tables.
    pub fn is_linked(&self, id: u16) -> bool
        ensures { result ≡ (is_some (link_of self.now id) || is_parent self.now id) }
    {
        self.link_of(id).is_some() || self.is_parent(id)
    }

    /// Whether the schema has a table with this id, and that table is keyless. The time is that of a walk over the
    /// tables.
    pub fn is_keyless(&self, id: u16) -> bool
        ensures { result ≡ is_keyless self.now id }
    {
        self.table(id).is_some_and(|table| !table.keyed)
    }

    /// An equal schema, in separate memory.
    pub fn copy(&self) -> Result<Schema, Memory>
        ensures { IfOk result (λ schema. schema ≡ self.now) }
    {
        Ok(Schema {
            tables: copied(&self.tables)?,
        })
    }
}

/// An equal list, in separate memory. Its memory is asked for once, and is only that of the items. The time is that of
/// moving their bytes.
pub fn copied<T: Copy>(items: &Vec<T>) -> Result<Vec<T>, Memory>
    ensures { IfOk result (λ copy. copy.items ≡ items.now.items) }
{
    let alloc = *items.allocator();
    if items.is_empty() {
        return Ok(Vec::new(alloc));
    }
    let mut copy = Vec::with_capacity(alloc, items.len())?;
    copy.extend_from_slice(items)?;
    Ok(copy)
}

fn table_of(tables: &[Table], id: u16) -> Option<Table>
    ensures { result ≡ table_at tables.now id }
{
    tables.iter().copied().find(|t| t.id == id)
}

fn any_refers(tables: &[Table], id: u16) -> bool
    ensures { result ≡ is_parent tables.now id }
{
    tables
        .iter()
        .any(|t| t.parent.is_some_and(|link| link.1 == id))
}

fn parent_is_fine(tables: &[Table], table: Table) -> bool
    ensures { result ≡ has_fine_parent tables.now table }
{
    match table.parent {
        None => true,
        Some((column, parent)) => {
            column < table.columns && parent < table.id && table_of(tables, parent).is_some()
        }
    }
}

fn unique_is_fine(table: Table) -> bool
    ensures { result ≡ has_fine_unique table }
{
    table
        .unique
        .is_none_or(|column| column < table.columns && table.keyed)
}

/// The first fault of the list.
fn first_fault(tables: &[Table]) -> Option<SchemaFault>
    ensures { result ≡ schema_fault tables.now }
{
    if tables.is_empty() || tables.len() > MAX_TABLES {
        Some(SchemaFault::Count)
    } else {
        first_table_fault(tables)
    }
}

/// The first fault of a table, table by table.
fn first_table_fault(tables: &[Table]) -> Option<SchemaFault>
    ensures { result ≡ fault_from tables.now [] tables.now }
{
    for i in 0..tables.len() {
        let fault = fault_at(tables, i);
        if fault.is_some() {
            return fault;
        }
    }
    None
}

/// The first fault of the table at this place of the list.
fn fault_at(tables: &[Table], i: usize) -> Option<SchemaFault>
    requires { i < length tables.now }
    ensures { Some result ≡ option_and_then (λ t. Some (table_fault tables.now (take i tables.now) t)) (slice_get tables.now i) }
{
    let table = tables[i];
    if table.id < 1 || table.id > 256 {
        Some(SchemaFault::Id)
    } else if table.columns < 1 || table.columns > MAX_COLUMNS {
        Some(SchemaFault::Columns)
    } else if table_of(&tables[..i], table.id).is_some() {
        Some(SchemaFault::Twice)
    } else if !parent_is_fine(tables, table) {
        Some(SchemaFault::Parent)
    } else if !unique_is_fine(table) {
        Some(SchemaFault::Unique)
    } else {
        None
    }
}
