//! The room of ended transactions, for new ones.

ghost use Rattle.std.specs.Prelude.{◌≡◌};
ghost use Rattle.overlay.specs.Pending.{none_pending};

use crate::transaction::Transaction;
use overlay::Pending;
use row_locks::MAX_SESSIONS;
use schema::Memory;
use std::alloc::Global;

/// Only rooms of transactions with at most this many changes are kept. So 256 rooms take some megabytes at most, and no
/// transaction pays for the length of an earlier one.
const MOST_CHANGES: usize = 64;

/// What ended transactions had pending, at most one for each session. Only its room is used: a new transaction takes the
/// last one, and asks for memory only if it needs more. Nothing that a caller sees depends on it.
#[derive(Debug, Drop)]
pub(crate) struct Rooms {
    ended: Vec<Pending>,
}

impl Rooms {
    /// No room. The places for rooms are made here.
    pub(crate) fn new(alloc: Global) -> Result<Rooms, Memory> {
        Ok(Rooms {
            ended: Vec::with_capacity(alloc, MAX_SESSIONS as usize)?,
        })
    }

    /// No changes, in a kept room if there is one. It takes no memory. The time is that of a walk over the room.
    pub(crate) fn open(&mut self) -> Pending
        ensures { result ≡ none_pending }
    {
        match self.ended.pop() {
            Some(mut pending) => {
                pending.clear();
                pending
            }
            None => Pending::new(*self.ended.allocator()),
        }
    }

    /// Keeps the room of an ended transaction, if there was one, it had few changes, and a place is left. It takes no
    /// memory.
    pub(crate) fn keep(&mut self, ended: Option<Transaction>) {
        let Some(t) = ended else { return };
        if t.pending.len() <= MOST_CHANGES && self.ended.len() < self.ended.capacity() {
            let _ = self.ended.push(t.pending);
        }
    }
}
