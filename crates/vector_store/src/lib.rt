//! A store of rows in one sorted vector.
//!
//! A `VectorStore` contains the rows of its vector (`specs/Contents.antt`). Its type ensures that their ids strictly
//! rise, and it meets the contract of `store_trait`. Rows are found by binary search (`search`). A batch is put whole
//! or not at all: its room is taken first, and then a gap of free places is moved through the rows, from the last to
//! the first (`put`).
#![tactic(auto)]

ghost use Rattle.std.specs.Prelude.{◌≡◌};
ghost use Rattle.std.specs.FinMap.{empty};

mod put;
mod search;

use put::put_whole;
use rows::Row;
use schema::{Memory, RowId};
use search::{next_row, row_at};
use std::alloc::Global;
use std::marker::Model;
use store_trait::{Batch, RowStore};

/// A row with its id.
type KeyedRow = (RowId, Row);

/// Rows in one vector, in the order of their ids. A put looks up each of the batch's b places among n rows, from the
/// last to the first, in time logarithmic in its distance from the place before. Together that is at most b log n and
/// at most n + b. It moves only rows after the first one that is new or removed, each at most twice. So overwritten
/// rows, and new rows after all others, move none. A put takes memory only for new rows, and the memory stays for later
/// ones.
#[derive(Debug, Drop)]
pub struct VectorStore {
    rows: Vec<KeyedRow>,
}

impl Model for VectorStore {
    ghost use Rattle.std.specs.FinMap.{code};
    ghost use Rattle.std.specs.Coded.{coded_list, coded_ℤ};
    ghost use Rattle.schema.specs.RowId.{coded_row_id};
    ghost use Rattle.rows.specs.Database.{Database};
    ghost use Rattle.vector_store.specs.Contents.{contents_of, AreInOrder};

    ghost Value = { Database };

    ghost coded = { code coded_row_id (coded_list coded_ℤ) };

    ghost view = { λ s. contents_of s.rows.items };

    ghost invariant = { λ s. AreInOrder s.rows.items };
}

impl VectorStore {
    /// A store of no rows. It takes no memory.
    pub fn new(alloc: Global) -> VectorStore
        ensures { result ≡ empty }
    {
        VectorStore {
            rows: Vec::new(alloc),
        }
    }

    /// Removes all rows, and keeps their room for others. It takes no memory, and the time of a walk over the rows.
    pub fn clear(&mut self)
        ensures { self.new ≡ empty }
    {
        self.rows.clear();
    }
}

impl RowStore for VectorStore {
    ghost contents = { λ s. s };

    fn get(&self, id: RowId) -> Option<Row> {
        row_at(&self.rows, id)
    }

    fn put_all(&mut self, batch: &Batch) -> Result<(), Memory> {
        put_whole(&mut self.rows, batch.entries())
    }

    fn len(&self) -> usize {
        self.rows.len()
    }

    fn next_in_table(&self, table: u16, above: Option<i64>) -> Option<(i64, Row)> {
        next_row(&self.rows, table, above)
    }
}
