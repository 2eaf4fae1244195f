//! How many children each row has.

ghost use Rattle.std.specs.Prelude.{◌≡◌, ◌+◌, ◌<◌, ◌≤◌, [], ◌∷◌, length, is_some, option_to_list, IfOk, OnOk, IsOk};
ghost use Rattle.std.specs.List.{list_any};
ghost use Rattle.std.specs.Map.{keys_of};
ghost use Rattle.std.specs.FinMap.{empty};
ghost use Rattle.schema.specs.declared.RowId.{RowId};
ghost use Rattle.schema.specs.declared.Table.{Table};
ghost use Rattle.rows.specs.Database.{Database, parent_of, parent_in};
ghost use Rattle.store_trait.specs.Batch.{put_batch};
ghost use Rattle.rows.specs.Step.{parent_at};
ghost use Rattle.row_index.specs.Counts.{count_at, times_in, parents_at, parents_left, CountsChildren, Recounts};

use row_map::RowMap;
use rows::Row;
use schema::{Memory, RowId, Schema};
use std::alloc::Global;
use std::marker::Model;
use store_trait::{Batch, RowStore};

/// For each parent row, how many rows name it. A row without children has no entry.
#[derive(Debug, Drop)]
pub struct Children {
    counts: RowMap<usize>,
}

impl Model for Children {
    ghost use Rattle.std.specs.Prelude.{ℕ};
    ghost use Rattle.std.specs.Coded.{coded_ℕ};
    ghost use Rattle.row_map.specs.RoomyMap.{RoomyMap, roomy_map_code};
    ghost use Rattle.row_index.specs.Counts.{NoneIsZero};

    ghost Value = { RoomyMap ℕ };

    ghost coded = { roomy_map_code coded_ℕ };

    ghost view = { λ c. c.counts };

    ghost invariant = { λ c. NoneIsZero c.counts.map };
}

impl Children {
    /// The counts of no rows. It takes no memory.
    pub fn new(alloc: Global) -> Children
        ensures { result.map ≡ empty }
    {
        Children {
            counts: RowMap::new(alloc),
        }
    }

    /// The counts for the rows that this batch loads into an empty store. The time is that of a walk over the batch,
    /// and the memory that of its rows that have a parent.
    pub fn of(alloc: Global, schema: &Schema, batch: &Batch) -> Result<Children, Memory>
        ensures { IfOk result (λ children. CountsChildren schema.now (put_batch batch.now empty) children.map) }
    {
        let mut children = Children::new(alloc);
        children.reserve(schema, batch)?;
        let entries = batch.entries();
        children.take_up(schema, entries, entries.len());
        Ok(children)
    }

    /// How many children the row has. It takes no memory, and expected constant time.
    pub fn count(&self, row: RowId) -> usize
        ensures { result ≡ count_at self.now.map row }
    {
        self.counts.get(row).unwrap_or(0)
    }

    /// Makes room for the parents that the batch gives its rows. It takes no memory if there is room for all of them,
    /// or if there are none. The time is that of a walk over the batch, and over the schema's tables for each of its
    /// rows.
    pub fn reserve(&mut self, schema: &Schema, batch: &Batch) -> Result<(), Memory>
        ensures map { self.new.map ≡ self.old.map }
        ensures room { OnOk result (length (parents_left schema.now batch.now) ≤ self.new.room) }
        ensures succeeds { length (parents_left schema.now batch.now) ≤ self.old.room → IsOk result }
    {
        self.counts
            .reserve(parents_in(schema, child_entries(schema, batch)))
    }

    /// Follows a batch. `old` has the parents that its rows had before, and `rows` is how many rows there are after it;
    /// no row has more children than that. It takes no memory. The time is that of a look-up for each parent before and
    /// after the batch, and of a walk over the schema's tables for each row.
    pub fn put(&mut self, schema: &Schema, old: &[RowId], batch: &Batch, rows: usize)
        requires room { length (parents_left schema.now batch.now) ≤ self.old.room }
        requires counted { (row : RowId) → times_in old.now row ≤ count_at self.old.map row }
        requires fits { (row : RowId) → count_at self.old.map row + times_in
            (parents_left schema.now batch.now) row ≤ rows + times_in old.now row }
        ensures { Recounts old.now (parents_left schema.now batch.now) self.old.map self.new.map }
    {
        self.give_up(old);
        self.take_up(schema, child_entries(schema, batch), rows);
    }

    fn give_up(&mut self, old: &[RowId])
        requires { (row : RowId) → times_in old.now row ≤ count_at self.old.map row }
        ensures counts { Recounts old.now [] self.old.map self.new.map }
        ensures room { self.old.room ≤ self.new.room }
    {
        for row in old {
            self.give_up_one(*row);
        }
    }

    fn take_up(&mut self, schema: &Schema, entries: &[(RowId, Option<Row>)], rows: usize)
        requires room { length (parents_left schema.now entries.now) ≤ self.old.room }
        requires fits { (row : RowId) → count_at self.old.map row + times_in (parents_left schema.now entries.now) row ≤ rows }
        ensures { Recounts [] (parents_left schema.now entries.now) self.old.map self.new.map }
    {
        for entry in entries {
            if let Some(parent) = parent_left(schema, entry) {
                self.take_up_one(parent, rows);
            }
        }
    }

    /// One child fewer. With the last one the row's entry goes.
    fn give_up_one(&mut self, row: RowId)
        requires { 0 < count_at self.old.map row }
        ensures counts { Recounts (row ∷ []) [] self.old.map self.new.map }
        ensures room { self.old.room ≤ self.new.room }
    {
        let count = self.count(row);
        if count == 1 {
            self.counts.remove(row);
        } else {
            self.counts.replace(row, count - 1);
        }
    }

    /// One child more, up to `most`.
    fn take_up_one(&mut self, row: RowId, most: usize)
        requires room { 0 < self.old.room }
        requires fits { count_at self.old.map row < most }
        ensures counts { Recounts [] (row ∷ []) self.old.map self.new.map }
        ensures room { self.old.room ≤ self.new.room + 1 }
    {
        let count = self.count(row) + 1;
        self.counts.set(row, count);
    }
}

/// The batch's entries; none if no table has a parent, since then no row has one.
fn child_entries<'a>(schema: &Schema, batch: &'a Batch) -> &'a [(RowId, Option<Row>)]
    ensures left { parents_left schema.now result.now ≡ parents_left schema.now batch.now }
    ensures before { (db : Database) → parents_at schema.now (keys_of result.now) db ≡ parents_at schema.now (keys_of batch.now) db }
{
    if has_parent(schema) {
        batch.entries()
    } else {
        &[]
    }
}

/// Whether a table has a parent.
fn has_parent(schema: &Schema) -> bool
    ensures { result ≡ list_any (λ (t : Table). is_some t.parent) schema.now }
{
    schema.tables().iter().any(|table| table.parent.is_some())
}

/// How many of the entries give their row a parent.
fn parents_in(schema: &Schema, entries: &[(RowId, Option<Row>)]) -> usize
    ensures { result ≡ length (parents_left schema.now entries.now) }
{
    entries
        .iter()
        .filter(|entry| parent_left(schema, entry).is_some())
        .count()
}

/// The parent that an entry gives its row, if the row is there afterwards and has one.
fn parent_left(schema: &Schema, entry: &(RowId, Option<Row>)) -> Option<RowId>
    ensures { result ≡ parent_at schema.now entry.now.0.table entry.now.1 }
{
    match &entry.1 {
        Some(row) => parent_of(schema, entry.0.table, row.columns()),
        None => None,
    }
}

/// The parent row that these columns of a row of the table name, if the table has a parent.
fn parent_of(schema: &Schema, table: u16, columns: &[i64]) -> Option<RowId>
    ensures { result ≡ parent_of schema.now table columns.now }
{
    let (column, parent) = schema.link_of(table)?;
    let key = *columns.get(usize::from(column))?;
    Some(RowId { table: parent, key })
}

/// The parents that the batch's rows have in the store. The time is that of a look-up for each row of the batch whose
/// table has a parent. The memory is that of the parents: without any it takes none.
pub fn parents_before<S: RowStore>(
    alloc: Global,
    schema: &Schema,
    store: &S,
    batch: &Batch,
) -> Result<Vec<RowId>, Memory>
    ensures { IfOk result (λ parents. parents.items ≡ parents_at schema.now (keys_of batch.now) (S.contents store.now)) }
{
    let mut parents = Vec::new(alloc);
    for entry in child_entries(schema, batch) {
        if let Some(parent) = parent_in(schema, store, entry.0) {
            parents.push(parent)?;
        }
    }
    Ok(parents)
}

/// The parent of the row with this id, if the row is there and has one. The store is asked only if the table has a
/// parent.
fn parent_in<S: RowStore>(schema: &Schema, store: &S, id: RowId) -> Option<RowId>
    ensures { option_to_list result ≡ parent_in schema.now (S.contents store.now) id }
{
    schema.link_of(id.table)?;
    parent_of(schema, id.table, store.get(id)?.columns())
}
