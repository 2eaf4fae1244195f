//! The working rows, and the holder of each value.

ghost use Rattle.std.specs.Prelude.{◌≡◌, OnOk, OnErr};
ghost use Rattle.std.specs.Map.{keys_of};
ghost use Rattle.store_trait.specs.Batch.{put_batch};
ghost use Rattle.row_index.specs.Keys.{marks_at, moved};

use row_index::{Index, marks_before};
use schema::{Memory, Schema};
use std::alloc::Global;
use store_trait::{Batch, RowStore};

/// The rows after the committed records, with the holder of each value in a unique column. So the holders of a job's
/// marks are looked up, and no table is walked.
#[derive(Drop)]
pub struct Stored<S: RowStore> {
    pub store: S,
    pub index: Index,
}

impl<S: RowStore> Stored<S> {
    /// Puts the batch, and updates the index. All memory is taken before a row changes; if it runs out, all stays as it
    /// was, except for room that was made. With n rows in the store and b in the batch the time is b log n. Beside the
    /// store's memory it takes that of the marks that the batch's rows had and then have; none if no table has a unique
    /// column.
    pub fn put(&mut self, alloc: Global, schema: &Schema, batch: &Batch) -> Result<(), Memory>
        ensures rows { OnOk result (S.contents self.new.store ≡ put_batch batch.now (S.contents self.old.store)) }
        ensures keys { OnOk result (self.new.index.map
            ≡ moved schema.now (marks_at schema.now (keys_of batch.now) (S.contents self.old.store)) batch.now self.old.index.map) }
        ensures same_rows { OnErr result (S.contents self.new.store ≡ S.contents self.old.store) }
        ensures same_keys { OnErr result (self.new.index.map ≡ self.old.index.map) }
    {
        let marks = marks_before(alloc, schema, &self.store, batch)?;
        self.index.reserve(schema, batch)?;
        self.store.put_all(batch)?;
        self.index.put(schema, &marks, batch);
        Ok(())
    }
    /// Only the rows.
    pub fn into_store(self) -> S
        ensures { result ≡ self.store }
    {
        let Stored { store, .. } = self;
        store
    }
}
