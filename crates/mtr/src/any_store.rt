//! The store in which both sides keep their rows, of the kind that the command line asks for.
//!
//! One type holds either kind, so all generic code over it is compiled once. Each call looks up the kind and passes it
//! on.

use crate::options::Store;
use crate::pair::NewStore;
use btree_store::BTreeStore;
use rows::Row;
use schema::{Memory, RowId};
use std::alloc::Global;
use store_trait::{Batch, RowStore};
use vector_store::VectorStore;

/// Rows in a store of either kind.
#[derive(Debug, Drop)]
pub enum AnyStore {
    /// In an ordered map.
    BTree(BTreeStore),
    /// In one sorted vector.
    Vector(VectorStore),
}

impl NewStore for AnyStore {
    fn without_rows(alloc: Global, store: Store) -> AnyStore {
        match store {
            Store::BTree => AnyStore::BTree(BTreeStore::new(alloc)),
            Store::Vector => AnyStore::Vector(VectorStore::new(alloc)),
        }
    }
}

impl RowStore for AnyStore {
    ghost use Rattle.mtr.specs.Any.{rows_of};

    ghost contents = { rows_of };

    fn get(&self, id: RowId) -> Option<Row> {
        match self {
            AnyStore::BTree(store) => store.get(id),
            AnyStore::Vector(store) => store.get(id),
        }
    }

    fn put_all(&mut self, batch: &Batch) -> Result<(), Memory> {
        match self {
            AnyStore::BTree(store) => store.put_all(batch),
            AnyStore::Vector(store) => store.put_all(batch),
        }
    }

    fn len(&self) -> usize {
        match self {
            AnyStore::BTree(store) => store.len(),
            AnyStore::Vector(store) => store.len(),
        }
    }

    fn next_in_table(&self, table: u16, above: Option<i64>) -> Option<(i64, Row)> {
        match self {
            AnyStore::BTree(store) => store.next_in_table(table, above),
            AnyStore::Vector(store) => store.next_in_table(table, above),
        }
    }
}
