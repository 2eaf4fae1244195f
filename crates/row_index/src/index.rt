//! Which row has each value of the unique columns.

ghost use Rattle.std.specs.Prelude.{◌≡◌, ◌≤◌, length, is_some, option_to_list, IfOk, OnOk, IsOk};
ghost use Rattle.std.specs.List.{list_any};
ghost use Rattle.std.specs.Map.{keys_of};
ghost use Rattle.std.specs.FinMap.{empty, get};
ghost use Rattle.schema.specs.declared.Table.{Table};
ghost use Rattle.rows.specs.Database.{Database, mark_in, NoValueTwice};
ghost use Rattle.store_trait.specs.Batch.{put_batch};
ghost use Rattle.row_index.specs.Keys.{Keys, Indexes, marks_at, mark_left, marks_left, given_up, taken_up, moved};

use row_map::RowMap;
use rows::{Row, mark_of};
use schema::{Mark, Memory, RowId, Schema};
use std::alloc::Global;
use std::marker::Model;
use store_trait::{Batch, RowStore};

/// For each value of a unique column, the key of the row that has it.
#[derive(Debug, Drop)]
pub struct Index {
    keys: RowMap<i64>,
}

impl Model for Index {
    ghost use Rattle.std.specs.Prelude.{ℤ};
    ghost use Rattle.std.specs.Coded.{coded_ℤ};
    ghost use Rattle.row_map.specs.RoomyMap.{RoomyMap, roomy_map_code};

    ghost Value = { RoomyMap ℤ };

    ghost coded = { roomy_map_code coded_ℤ };

    ghost view = { λ x. x.keys };
}

impl Index {
    /// The index of no rows. It takes no memory.
    pub fn new(alloc: Global) -> Index
        ensures { result.map ≡ empty }
    {
        Index {
            keys: RowMap::new(alloc),
        }
    }

    /// The index of the rows that this batch loads into an empty store. The time is that of a walk over the batch, and
    /// the memory that of its rows that have a value in a unique column.
    pub fn of(alloc: Global, schema: &Schema, batch: &Batch) -> Result<Index, Memory>
        ensures { IfOk result (λ index. NoValueTwice schema.now (put_batch batch.now empty)
            → Indexes schema.now (put_batch batch.now empty) index.map) }
    {
        let mut index = Index::new(alloc);
        index.reserve(schema, batch)?;
        take_up(&mut index.keys, schema, batch.entries());
        Ok(index)
    }

    /// The key of the row that has the mark; `None` if no row has it. It takes no memory, and expected constant time.
    pub fn holder(&self, mark: Mark) -> Option<i64>
        ensures { result ≡ get self.now.map mark }
    {
        self.keys.get(mark.as_row())
    }

    /// Makes room for the marks that the batch gives its rows. It takes no memory if there is room for all of them, or
    /// if there are none. The time is that of a walk over the batch, and over the schema's tables for each of its rows.
    pub fn reserve(&mut self, schema: &Schema, batch: &Batch) -> Result<(), Memory>
        ensures map { self.new.map ≡ self.old.map }
        ensures room { OnOk result (length (marks_left schema.now batch.now) ≤ self.new.room) }
        ensures succeeds { length (marks_left schema.now batch.now) ≤ self.old.room → IsOk result }
    {
        self.keys
            .reserve(marks_in(schema, marked_entries(schema, batch)))
    }

    /// Follows a batch. `old` has the marks that its rows had before: these go first, and then those that the rows have
    /// now are added. It takes no memory. The time is that of a look-up for each of these marks, and of a walk over the
    /// schema's tables for each row.
    pub fn put(&mut self, schema: &Schema, old: &[Mark], batch: &Batch)
        requires { length (marks_left schema.now batch.now) ≤ self.old.room }
        ensures { self.new.map ≡ moved schema.now old.now batch.now self.old.map }
    {
        give_up(&mut self.keys, old);
        take_up(&mut self.keys, schema, marked_entries(schema, batch));
    }
}

fn give_up(keys: &mut RowMap<i64>, old: &[Mark])
    ensures map { keys.new.map ≡ given_up old.now keys.old.map }
    ensures room { keys.old.room ≤ keys.new.room }
{
    for mark in old {
        keys.remove(mark.as_row());
    }
}

fn take_up(keys: &mut RowMap<i64>, schema: &Schema, entries: &[(RowId, Option<Row>)])
    requires { length (marks_left schema.now entries.now) ≤ keys.old.room }
    ensures { keys.new.map ≡ taken_up schema.now entries.now keys.old.map }
{
    for entry in entries {
        if let Some(mark) = mark_left(schema, entry) {
            keys.set(mark.as_row(), entry.0.key);
        }
    }
}

/// The batch's entries; none if no table has a unique column, since then no row has a mark.
fn marked_entries<'a>(schema: &Schema, batch: &'a Batch) -> &'a [(RowId, Option<Row>)]
    ensures left { marks_left schema.now result.now ≡ marks_left schema.now batch.now }
    ensures before { (db : Database) → marks_at schema.now (keys_of result.now) db ≡ marks_at schema.now (keys_of batch.now) db }
    ensures taken_up { (keys : Keys) → taken_up schema.now result.now keys ≡ taken_up schema.now batch.now keys }
{
    if has_unique(schema) {
        batch.entries()
    } else {
        &[]
    }
}

/// Whether a table has a unique column.
fn has_unique(schema: &Schema) -> bool
    ensures { result ≡ list_any (λ (t : Table). is_some t.unique) schema.now }
{
    schema.tables().iter().any(|table| table.unique.is_some())
}

/// How many of the entries give their row a mark.
fn marks_in(schema: &Schema, entries: &[(RowId, Option<Row>)]) -> usize
    ensures { result ≡ length (marks_left schema.now entries.now) }
{
    entries
        .iter()
        .filter(|entry| mark_left(schema, entry).is_some())
        .count()
}

/// The mark that an entry gives its row, if the row is there afterwards and has one.
pub(crate) fn mark_left(schema: &Schema, entry: &(RowId, Option<Row>)) -> Option<Mark>
    ensures { result ≡ mark_left schema.now entry.now }
{
    match &entry.1 {
        Some(row) => mark_of(schema, entry.0.table, row.columns()),
        None => None,
    }
}

/// The marks that the rows of the batch have in the store. The time is that of a look-up for each row of the batch
/// whose table has a unique column. The memory is that of the marks: without any it takes none.
pub fn marks_before<S: RowStore>(
    alloc: Global,
    schema: &Schema,
    store: &S,
    batch: &Batch,
) -> Result<Vec<Mark>, Memory>
    ensures { IfOk result (λ marks. marks.items ≡ marks_at schema.now (keys_of batch.now) (S.contents store.now)) }
{
    let mut marks = Vec::new(alloc);
    for entry in marked_entries(schema, batch) {
        if let Some(mark) = mark_in(schema, store, entry.0) {
            marks.push(mark)?;
        }
    }
    Ok(marks)
}

/// The mark of the row with this id, if the row is there and has one. The store is asked only if the table has a unique
/// column.
fn mark_in<S: RowStore>(schema: &Schema, store: &S, id: RowId) -> Option<Mark>
    ensures { option_to_list result ≡ mark_in schema.now (S.contents store.now) id }
{
    schema.unique_of(id.table)?;
    mark_of(schema, id.table, store.get(id)?.columns())
}
