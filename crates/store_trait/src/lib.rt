//! Stores of rows, seen as finite maps.
//!
//! A `RowStore` contains a database (`contents`, a finite map from row ids to rows), however it keeps it: callers use
//! only the trait's contract. A `Batch` names each row that changes once, in the order of row ids, and is put whole or
//! not at all. An `Op` is what a replica publishes: the rows that are loaded at first, and then the batch of each
//! commit. `holder` looks for the first row that has a value in a column. `fits` says whether a schema allows the rows
//! of a store. `rows_stand` checks the same except for the values of unique columns, in less time. `laws` states what
//! batches leave of a database, and that rows fit exactly if `rows_stand` holds and no two have one value in a unique
//! column.
#![tactic(auto)]

ghost use Rattle.std.specs.Prelude.{◌≡◌, ℕ, ℤ, Option, ◌≤◌, ◌↔◌, IsTrue, Some, List, [], ◌∷◌, ◌++◌, length, take, map, slice_get, SomeIff};
ghost use Rattle.std.specs.Prelude.{IfSome, IfOk, OnOk, OnErr};
ghost use Rattle.std.specs.FinMap.{get as row_of, len as size_of, empty};
ghost use Rattle.schema.specs.declared.Table.{Table};
ghost use Rattle.schema.specs.declared.RowId.{RowId};
ghost use Rattle.schema.specs.Schema.{table_at};
ghost use Rattle.rows.specs.Database.{Database, has_parent, NoValueTwice};
ghost use Rattle.rows.specs.Holders.{holder_of};
ghost use Rattle.store_trait.specs.Batch.{Entry, IsRising, put_batch, put_batches, all_rows};
ghost use Rattle.store_trait.specs.Contents.{IsNextInTable, IsHolder, IsLeastWithValue};
ghost use Rattle.store_trait.specs.Operation.{batch_of};
ghost use Rattle.store_trait.specs.Fits.{Fits, RowStands, RowsStand, AreOfTables, OwnInColumn, OwnInTable};

pub mod laws;
mod walk;

use rows::Row;
use schema::{Mark, Memory, RowId, Schema, Table, copied};
use std::alloc::Global;
use std::marker::Model;
use walk::next_row;

/// For each row that changes its new columns, or `None` if the row is removed. The row ids strictly rise.
#[derive(Debug, Drop)]
pub struct Batch {
    entries: Vec<(RowId, Option<Row>)>,
}

impl Model for Batch {
    ghost use Rattle.std.specs.Prelude.{List};
    ghost use Rattle.store_trait.specs.Batch.{Entry, IsRising};

    ghost Value = { List Entry };

    ghost view = { λ b. b.entries.items };

    ghost invariant = { λ b. IsRising b.entries.items };
}

impl Batch {
    /// A batch of no rows. It takes no memory.
    pub fn new(alloc: Global) -> Batch
        ensures { result ≡ [] }
    {
        Batch {
            entries: Vec::new(alloc),
        }
    }

    /// A batch of these rows; `None` if their ids do not strictly rise. It takes no memory, and the time of a walk over
    /// the rows.
    pub fn from_entries(entries: Vec<(RowId, Option<Row>)>) -> Option<Batch>
        ensures { SomeIff result (IsRising entries.items) entries.items }
    {
        if !is_rising(&entries) {
            return None;
        }
        Some(Batch::from_rising(entries))
    }

    /// A batch of these rows, whose ids strictly rise. It takes no memory.
    pub fn from_rising(entries: Vec<(RowId, Option<Row>)>) -> Batch
        requires { IsRising entries.items }
        ensures { result ≡ entries.items }
    {
        Batch { entries }
    }

    /// The rows in the order of their ids.
    pub fn entries(&self) -> &[(RowId, Option<Row>)]
        ensures value { result.now ≡ self.now }
        ensures rising { IsRising result.now }
    {
        &self.entries
    }

    /// An equal batch, in separate memory.
    pub fn copy(&self) -> Result<Batch, Memory>
        ensures { IfOk result (λ batch. batch ≡ self.now) }
    {
        Ok(Batch {
            entries: copied(&self.entries)?,
        })
    }
}

/// Whether the row ids strictly rise.
fn is_rising(entries: &[(RowId, Option<Row>)]) -> bool
    ensures { IsTrue result ↔ IsRising entries.now }
{
    entries.is_sorted_by(|a, b| a.0 < b.0)
}

/// An operation on a published store.
#[derive(Debug, Drop)]
pub enum Op {
    /// The rows that were there before the first commit.
    Load(Batch),
    /// What the commit with this number changed.
    Commit { gno: u64, batch: Batch },
}

impl Op {
    /// The rows that the operation sets.
    pub fn batch(&self) -> &Batch
        ensures { result.now ≡ batch_of self.now }
    {
        match self {
            Op::Load(batch) | Op::Commit { batch, .. } => batch,
        }
    }

    /// An equal operation, in separate memory.
    pub fn copy(&self) -> Result<Op, Memory>
        ensures { IfOk result (λ op. op ≡ self.now) }
    {
        Ok(match self {
            Op::Load(batch) => Op::Load(batch.copy()?),
            Op::Commit { gno, batch } => Op::Commit {
                gno: *gno,
                batch: batch.copy()?,
            },
        })
    }
}

/// A store of rows, which contains a database.
pub trait RowStore {
    /// The database that it contains, however it is kept.
    ghost contents: { Self → Database };

    /// The store has just refused this batch. Each store says what this means; it is all that callers learn of a
    /// refusal.
    ghost has_refused: { Self → List Entry → Type 0 } = { λ _ _. Unit {0} };

    /// The row, if it is there. It takes no memory. The time is logarithmic in the number of rows.
    fn get(&self, id: RowId) -> Option<Row>
        ensures { result ≡ row_of (contents self.now) id };

    /// Puts the whole batch, or nothing of it if memory runs out.
    fn put_all(&mut self, batch: &Batch) -> Result<(), Memory>
        ensures ok { OnOk result (contents self.new ≡ put_batch batch.now (contents self.old)) }
        ensures err { OnErr result (contents self.new ≡ contents self.old) }
        ensures refusal { OnErr result (has_refused self.new batch.now) };

    /// The number of rows.
    fn len(&self) -> usize
        ensures { result ≡ size_of (contents self.now) };

    /// Whether there are no rows.
    fn is_empty(&self) -> bool
        ensures { IsTrue result ↔ (size_of (contents self.now) ≡ 0) }
    {
        self.len() == 0
    }

    /// The row with the least key, of the table's rows above the given key, or of all of them without one. It takes no
    /// memory. The time is logarithmic in the number of rows.
    fn next_in_table(&self, table: u16, above: Option<i64>) -> Option<(i64, Row)>
        ensures { IsNextInTable (contents self.now) table above result };
}

/// Puts batches in order up to the first that is refused, and returns how many were put: all of them if none is
/// refused. The time is that of putting these.
pub fn run<S: RowStore>(store: &mut S, batches: &[Batch]) -> usize
    ensures within { result ≤ length batches.now }
    ensures put { S.contents store.new ≡ put_batches (take result batches.now) (S.contents store.old) }
    ensures refused { IfSome (slice_get batches.now result) (λ batch. S.has_refused store.new batch) }
{
    for (put, batch) in batches.iter().enumerate() {
        if store.put_all(batch).is_err() {
            return put;
        }
    }
    batches.len()
}

/// The least key of a row of the table that has the value in the column; `None` if no row has it. It takes no memory.
/// The time is that of a walk over the table's rows up to that one.
pub fn holder<S: RowStore>(store: &S, table: u16, column: u8, value: i64) -> Option<i64>
    ensures { IsHolder (S.contents store.now) table column value result }
{
    let mut last = None;
    while let Some(next) = store.next_in_table(table, last) {
        if has_value(&next.1, column, value) {
            return Some(next.0);
        }
        last = Some(next.0);
    }
    None
}

/// Whether the row has the value in the column.
fn has_value(row: &Row, column: u8, value: i64) -> bool
    ensures { IsTrue result ↔ (slice_get row.now column ≡ Some value) }
{
    row.columns()
        .get(usize::from(column))
        .is_some_and(|own| *own == value)
}

/// The least key of a row that has the mark; `None` if no row has it. It takes no memory. The time is that of a walk
/// over the table's rows up to that one.
pub fn holder_of<S: RowStore>(schema: &Schema, store: &S, mark: Mark) -> Option<i64>
    ensures { result ≡ holder_of schema.now (S.contents store.now) mark }
{
    let column = schema.unique_of(mark.table())?;
    holder(store, mark.table(), column, mark.value())
}

/// Whether each row has its table's columns, each row of a child table has its parent, and no two rows of a table have
/// one value in its unique column. It takes no memory. The time is that of `rows_stand`. In a table with a unique
/// column each row also costs a walk over the rows up to it, which is quadratic in the rows of the table.
pub fn fits<S: RowStore>(schema: &Schema, store: &S) -> bool
    ensures fit { IsTrue result ↔ Fits schema.now (S.contents store.now) }
    ensures apart { IsTrue result → NoValueTwice schema.now (S.contents store.now) }
    ensures tables { IsTrue result → AreOfTables schema.now (S.contents store.now) }
{
    rows_stand(schema, store) && values_are_own(schema, store)
}

/// Whether each row has its table's columns, and each row of a child table has its parent: the check of `fits` without
/// the values of unique columns. It takes no memory. The time is that of one look-up for each row, of two in a child
/// table, and of a walk over the tables for each row.
pub fn rows_stand<S: RowStore>(schema: &Schema, store: &S) -> bool
    ensures { IsTrue result ↔ RowsStand schema.now (S.contents store.now) }
{
    let mut last = None;
    for _ in 0..store.len() {
        let Some((id, row)) = next_row(store, schema.tables(), last) else {
            // The schema's tables have fewer rows than the store, so some row is of no table of the schema.
            return false;
        };
        if !row_stands(schema, store, id, &row) {
            return false;
        }
        last = Some(id);
    }
    true
}

/// Whether each row is of a table of the schema, whatever its columns are. It takes no memory. The time is that of one
/// look-up for each row, and of a walk over the tables for each table.
pub fn are_of_tables<S: RowStore>(schema: &Schema, store: &S) -> bool
    ensures { IsTrue result ↔ AreOfTables schema.now (S.contents store.now) }
{
    let mut last = None;
    for _ in 0..store.len() {
        let Some((id, _row)) = next_row(store, schema.tables(), last) else {
            return false;
        };
        last = Some(id);
    }
    true
}

/// Whether the row is of a table of the schema, has its columns, and, if the table has a parent, has its parent row.
fn row_stands<S: RowStore>(schema: &Schema, store: &S, id: RowId, row: &Row) -> bool
    ensures { IsTrue result ↔ RowStands schema.now (S.contents store.now) id row.now }
{
    let Some(table) = schema.table(id.table) else {
        return false;
    };
    let columns = row.columns();
    columns.len() == usize::from(table.columns) && parent_is_there(store, table, columns)
}

/// Whether these columns of a row of the table name a parent that is there, or the table has no parent.
fn parent_is_there<S: RowStore>(store: &S, table: Table, columns: &[i64]) -> bool
    ensures { (ts : List Table) (id : ℕ) → table_at ts id ≡ Some table
        → result ≡ has_parent ts (S.contents store.now) id columns.now }
{
    let Some((column, parent)) = table.parent else {
        return true;
    };
    let Some(key) = columns.get(usize::from(column)) else {
        return false;
    };
    let id = RowId {
        table: parent,
        key: *key,
    };
    store.get(id).is_some()
}

/// Whether each row is the first of its table with its value in the unique column, so that no two rows have one value.
fn values_are_own<S: RowStore>(schema: &Schema, store: &S) -> bool
    ensures { IsTrue result ↔ NoValueTwice schema.now (S.contents store.now) }
{
    for table in schema.tables() {
        if !are_own_in_table(schema, store, table.id) {
            return false;
        }
    }
    true
}

/// Whether each row of the table is the first with its value in the unique column. Without such a column no row is
/// looked at.
fn are_own_in_table<S: RowStore>(schema: &Schema, store: &S, table: u16) -> bool
    ensures { IsTrue result ↔ OwnInTable schema.now (S.contents store.now) table }
{
    match schema.unique_of(table) {
        Some(column) => are_own_in_column(store, table, column),
        None => true,
    }
}

/// Whether each row of the table is the first with its value in the column, row by row.
fn are_own_in_column<S: RowStore>(store: &S, table: u16, column: u8) -> bool
    ensures { IsTrue result ↔ OwnInColumn (S.contents store.now) table column }
{
    let mut last = None;
    while let Some(next) = store.next_in_table(table, last) {
        if !is_own(store, table, column, &next) {
            return false;
        }
        last = Some(next.0);
    }
    true
}

/// Whether the table's row with this key and these columns is the first with its value in the column; true if it does
/// not have that column.
fn is_own<S: RowStore>(store: &S, table: u16, column: u8, found: &(i64, Row)) -> bool
    ensures { IsTrue result ↔ ((value : ℤ) → slice_get found.now.1 column ≡ Some value
        → IsLeastWithValue (S.contents store.now) table column value found.now.0) }
{
    match found.1.columns().get(usize::from(column)) {
        Some(value) => holder(store, table, column, *value) == Some(found.0),
        None => true,
    }
}

/// The batch that loads an empty store with all rows of this one, each of which is of a table of the schema. The time
/// is that of a look-up for each row, and of a walk over the tables for each table.
pub fn snapshot<S: RowStore>(alloc: Global, store: &S, schema: &Schema) -> Result<Batch, Memory>
    requires { AreOfTables schema.now (S.contents store.now) }
    ensures rows { IfOk result (λ batch. batch ≡ all_rows (S.contents store.now)) }
    ensures loads { IfOk result (λ batch. put_batch batch empty ≡ S.contents store.now) }
{
    let count = store.len();
    let mut entries = Vec::with_capacity(alloc, count)?;
    let mut last = None;
    for _ in 0..count {
        let Some((id, row)) = next_row(store, schema.tables(), last) else {
            break;
        };
        entries.push((id, Some(row)))?;
        last = Some(id);
    }
    Ok(Batch::from_rising(entries))
}
