//! A store that notes its batches, can be slow, and can run out of memory once.
ghost use Rattle.std.specs.Prelude.{◌≡◌, IfOk};
ghost use Rattle.std.specs.FinMap.{empty};

use crate::device::comes_in_turns;
use btree_store::BTreeStore;
use rows::Row;
use schema::{Memory, RowId};
use std::alloc::Global;
use std::sync::Arc;
use std::sync::atomic::{AtomicBool, AtomicU64, Ordering};
use store_trait::{Batch, RowStore};

/// The digit of the store of the working rows.
const WORKING: u64 = 1;

/// The digit of each copy for readers.
const COPY: u64 = 2;

/// What the stores of a replica note, and the orders for them.
#[derive(Drop)]
pub struct Notes {
    /// For each batch, the digit of the store that took it.
    pub word: AtomicU64,
    /// The next batch of the working rows is held until it is freed, or until the turns end.
    pub is_slow: AtomicBool,
    /// That batch is held.
    pub entered: AtomicBool,
    pub freed: AtomicBool,
}

impl Notes {
    pub fn new() -> Notes {
        Notes {
            word: AtomicU64::new(0),
            is_slow: AtomicBool::new(false),
            entered: AtomicBool::new(false),
            freed: AtomicBool::new(false),
        }
    }

    /// A store takes a batch.
    fn take(&self, digit: u64) {
        let before = self.word.load(Ordering::SeqCst);
        self.word.store(
            before.wrapping_mul(10).wrapping_add(digit),
            Ordering::SeqCst,
        );
        if digit == WORKING && self.is_slow.swap(false, Ordering::SeqCst) {
            self.entered.store(true, Ordering::SeqCst);
            comes_in_turns(&self.freed);
        }
    }
}

/// A store that refuses a batch at most once.
#[derive(Drop)]
pub struct Noting<S: RowStore> {
    inner: S,
    digit: u64,
    left: u64,
    notes: Arc<Notes>,
}

pub type Store = Noting<BTreeStore>;

impl<S: RowStore> Noting<S> {
    /// A store that refuses the batch of number `left`, counted from 1, or none if that is 0.
    fn new(inner: S, digit: u64, left: u64, notes: Arc<Notes>) -> Noting<S>
        ensures { result.inner ≡ inner }
    {
        Noting {
            inner,
            digit,
            left,
            notes,
        }
    }
}

/// An empty store for the working rows.
pub fn working(alloc: Global, notes: &Arc<Notes>) -> Result<Store, Memory> {
    let notes = Arc::try_clone(notes)?;
    Ok(Noting::new(BTreeStore::new(alloc), WORKING, 0, notes))
}

/// Two empty stores for readers, which refuse their batch of this number.
pub fn copies(alloc: Global, refused: u64, notes: &Arc<Notes>) -> Result<(Store, Store), Memory>
    ensures { IfOk result (λ copies. (copies.0.inner ≡ empty) × (copies.1.inner ≡ empty)) }
{
    let first = Arc::try_clone(notes)?;
    let second = Arc::try_clone(notes)?;
    Ok((
        Noting::new(BTreeStore::new(alloc), COPY, refused, first),
        Noting::new(BTreeStore::new(alloc), COPY, refused, second),
    ))
}

impl<S: RowStore> RowStore for Noting<S> {
    ghost contents = { λ s. S.contents s.inner };

    fn get(&self, id: RowId) -> Option<Row> {
        self.inner.get(id)
    }

    fn put_all(&mut self, batch: &Batch) -> Result<(), Memory> {
        let is_refused = self.left == 1;
        self.left = self.left.saturating_sub(1);
        if is_refused {
            return Err(Memory);
        }
        self.notes.take(self.digit);
        self.inner.put_all(batch)
    }

    fn len(&self) -> usize {
        self.inner.len()
    }

    fn next_in_table(&self, table: u16, above: Option<i64>) -> Option<(i64, Row)> {
        self.inner.next_in_table(table, above)
    }
}
