//! What one reader of the replica saw.

ghost use Rattle.std.specs.Prelude.{◌≡◌, ◌+◌, ◌∷◌, ◌++◌, [], ℕ, IfOk, OnErr};
ghost use mathlib.Core.List.{IsPrefix};
ghost use Rattle.mtr.specs.Reading.{AreTold};

use super::trouble::Trouble;
use published::{Answer, Notice, ReadSeat};
use replica_shared::ReplicaNaming;
use rows::Row;
use schema::RowId;
use std::alloc::{AllocError, Global};
use std::marker::Model;
use store_trait::RowStore;

/// One read of a row, with its result.
#[derive(Clone, Copy, Debug, PartialEq, Eq)]
pub struct Shown {
    /// The row that was read.
    pub id: RowId,
    /// What the seat returned.
    pub answer: Answer,
}

impl Shown {
    /// The number of commits that the read shows.
    pub fn commits(&self) -> u128
        ensures { result ≡ self.now.answer.upto + self.now.answer.more }
    {
        u128::from(self.answer.upto) + u128::from(self.answer.more)
    }
}

/// A reader, with all results of its seat, in order. Each result shows a first part of the commits that the seat knows.
/// No result shows fewer commits than an earlier one, neither up to a number nor in all.
#[derive(Drop)]
pub struct Reader<S: RowStore + Drop, K: ReplicaNaming> {
    seat: ReadSeat<S, K>,
    shown: Vec<Shown>,
}

impl<S: RowStore + Drop, K: ReplicaNaming> Model for Reader<S, K> {
    ghost use Rattle.mtr.specs.Reading.{Reading, AreSeen};

    ghost Value = { Reading };

    ghost view = { λ r. record { known = r.seat; shown = r.shown.items } };

    ghost invariant = { λ r. AreSeen K.preserve r.seat r.shown.items };
}

impl<S: RowStore + Drop, K: ReplicaNaming> Reader<S, K> {
    /// A reader whose seat has read nothing yet, with room for this number of results.
    pub fn new(alloc: Global, seat: ReadSeat<S, K>, room: usize) -> Result<Reader<S, K>, AllocError>
        ensures { IfOk result (λ reader. reader.shown ≡ []) }
    {
        Ok(Reader {
            seat,
            shown: Vec::with_capacity(alloc, room)?,
        })
    }

    /// Reads the row, and keeps the result.
    pub fn read(&mut self, id: RowId) -> Result<Option<Row>, Trouble>
        ensures kept { IfOk result (λ row. (upto : ℕ) × (more : ℕ)
            × (self.new.shown ≡ self.old.shown ++ record { id = id; answer = record { row = row; upto = upto; more = more } } ∷ [])) }
        ensures err { OnErr result (self.new.shown ≡ self.old.shown) }
    {
        match self.seat.read(id) {
            Some(answer) => {
                let row = answer.row;
                self.shown.push(Shown { id, answer })?;
                Ok(row)
            }
            None => Err(Trouble::Different),
        }
    }

    /// From now on each read shows at least the commits of the notice.
    pub fn learn(&mut self, notice: Notice<K>)
        ensures shown { self.new.shown ≡ self.old.shown }
        ensures kept { IsPrefix self.old.known self.new.known }
        ensures learnt { IsPrefix notice self.new.known }
    {
        self.seat.learn(notice);
    }

    /// All results, once the seat has learnt the last of all notices.
    pub fn into_shown(mut self, last: Notice<K>) -> Vec<Shown>
        ensures all { result.items ≡ self.shown }
        ensures told { AreTold K.preserve last result.items }
    {
        self.seat.learn(last);
        let Reader { seat: _, shown } = self;
        shown
    }
}
