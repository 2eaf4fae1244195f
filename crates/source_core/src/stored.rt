//! The committed rows, and what is known of them.

ghost use Rattle.std.specs.Prelude.{◌≡◌, OnOk, OnErr};
ghost use Rattle.rows.specs.Database.{NoValueTwice};
ghost use Rattle.store_trait.specs.Batch.{put_batch, IsRising};
ghost use Rattle.row_index.specs.Keys.{Indexes};
ghost use Rattle.row_index.specs.Counts.{CountsChildren};

use row_index::{Children, Index, marks_before, parents_before};
use schema::{Memory, Schema};
use std::alloc::Global;
use store_trait::{Batch, RowStore};

/// The rows after the committed records, the holder of each value in a unique column, and how many children each row has.
/// So a write looks up what it would otherwise walk a table for.
#[derive(Drop)]
pub(crate) struct Stored<S: RowStore> {
    pub store: S,
    pub index: Index,
    pub children: Children,
}

impl<S: RowStore> Stored<S> {
    /// Puts the batch, and the index and the counts follow. All memory is taken before a row changes. If it runs out,
    /// nothing has changed, except for room that was made. With n rows in the store and b in the batch, the time is b log
    /// n. The memory is that of the marks and the parents that the batch's rows have before and after: none if no table
    /// has a unique column, or a parent.
    pub fn put(&mut self, alloc: Global, schema: &Schema, batch: &Batch) -> Result<(), Memory>
        requires rising { IsRising batch.now }
        requires indexed { Indexes schema.now (S.contents self.old.store) self.old.index.map }
        requires counted { CountsChildren schema.now (S.contents self.old.store) self.old.children.map }
        requires apart { NoValueTwice schema.now (S.contents self.old.store) }
        requires stays_apart { NoValueTwice schema.now (put_batch batch.now (S.contents self.old.store)) }
        ensures rows { OnOk result (S.contents self.new.store ≡ put_batch batch.now (S.contents self.old.store)) }
        ensures indexed { OnOk result (Indexes schema.now (S.contents self.new.store) self.new.index.map) }
        ensures counted { OnOk result (CountsChildren schema.now (S.contents self.new.store) self.new.children.map) }
        ensures same_rows { OnErr result (S.contents self.new.store ≡ S.contents self.old.store) }
        ensures same_index { OnErr result (self.new.index.map ≡ self.old.index.map) }
        ensures same_counts { OnErr result (self.new.children.map ≡ self.old.children.map) }
    {
        let marks = marks_before(alloc, schema, &self.store, batch)?;
        let parents = parents_before(alloc, schema, &self.store, batch)?;
        self.index.reserve(schema, batch)?;
        self.children.reserve(schema, batch)?;
        self.store.put_all(batch)?;
        self.index.put(schema, &marks, batch);
        let rows = self.store.len();
        self.children.put(schema, &parents, batch, rows);
        Ok(())
    }
}
