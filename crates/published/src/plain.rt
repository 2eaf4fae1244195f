//! Publication for one thread, on one store.
ghost use Rattle.std.specs.Prelude.{◌≡◌, ◌+◌, true, [], ◌∷◌, ◌++◌, length, IfOk, IsOk, OnOk, OnErr};
ghost use Rattle.std.specs.FinMap.{empty, get as row_of};
ghost use Rattle.store_trait.specs.Batch.{put_batch, put_batches};
ghost use Rattle.store_trait.specs.Operation.{batch_of};
ghost use Rattle.scheduler.specs.Gnos.{low_of};
ghost use Rattle.published.specs.History.{count_above};
ghost use Rattle.published.specs.Plain.{MayFollow, HasAdded};

use crate::Answer;
use crate::gaps::Gaps;
use crate::merge::merged;
use schema::{Memory, RowId};
use std::alloc::Global;
use std::marker::Model;
use store_trait::{Batch, Op, RowStore};

/// A store that shows the commits that were published, and keeps those that wait. Contracts see it as that store, and
/// whether commits come in the order of the log. They also see up to which gno it shows all commits and how many after
/// that, the gnos of all that was appended, and the batches that wait.
#[derive(Drop)]
pub struct Plain<S: RowStore> {
    store: S,
    preserve: bool,
    upto: u64,
    more: u64,
    appended: Gaps,
    waiting: Vec<Batch>,
}

impl<S: RowStore> Model for Plain<S> {
    ghost use Rattle.published.specs.Plain.{Shown, IsCounted};

    ghost Value = { Shown S };

    ghost view = { λ p. record {
      store = p.store;
      preserve = p.preserve;
      upto = p.upto;
      more = p.more;
      gnos = p.appended.gnos;
      waiting = p.waiting.items;
    } };

    ghost invariant = { λ p. IsCounted p.preserve p.upto p.more p.appended.gnos p.waiting.items };
}

impl<S: RowStore> Plain<S> {
    /// Puts the base into an empty store and shows it. If `preserve` is true, commits are appended in the order of the
    /// log, else in any order. The time and the memory are those of one `put_all`.
    pub fn new(alloc: Global, mut store: S, base: Batch, preserve: bool) -> Result<Plain<S>, Memory>
    where
        S: Drop,
        requires { S.contents store ≡ empty }
        ensures contents { IfOk result (λ plain. S.contents plain.store ≡ put_batch base empty) }
        ensures order { IfOk result (λ plain. plain.preserve ≡ preserve) }
        ensures fresh { IfOk result (λ plain. (plain.upto ≡ 0) × (plain.waiting ≡ [])) }
        ensures none { IfOk result (λ plain. (plain.more ≡ 0) × (plain.gnos ≡ [])) }
    {
        store.put_all(&base)?;
        Ok(Plain {
            store,
            preserve,
            upto: 0,
            more: 0,
            appended: Gaps::new(alloc),
            waiting: Vec::new(alloc),
        })
    }

    /// Appends a commit, which nobody sees before the next `publish`. If the order of the log is kept, its gno is the one
    /// after the last appended, 1 at first. Else it is any gno from 1 on that was not appended. The time and the memory
    /// are those of a copy of the batch, and linear in the commits ahead of a gap.
    pub fn append(&mut self, op: &Op) -> Result<(), Memory>
        requires { MayFollow self.old.preserve self.old op.now }
        ensures ok { OnOk result (self.new ≡ record self.old { gnos = self.new.gnos; waiting = self.old.waiting ++ batch_of op.now ∷ [] }) }
        ensures added { OnOk result (HasAdded self.old.gnos op.now self.new.gnos) }
        ensures number { OnOk result (length self.new.gnos ≡ length self.old.gnos + 1) }
        ensures err { OnErr result (self.new ≡ self.old) }
    {
        let Op::Commit { gno, batch } = op else {
            unreachable!();
        };
        self.appended.room_for(*gno)?;
        self.waiting.push(batch.copy()?)?;
        self.appended.add(*gno);
        Ok(())
    }

    /// Shows all that was appended, at once, and returns how many commits are shown then. If memory runs out, nothing
    /// changes, and the next `publish` shows the same and what came since. If nothing waits, it takes no memory. The time
    /// is n log(n + m), for n entries that wait and a store of m rows.
    pub fn publish(&mut self) -> Result<u64, Memory>
        ensures number { IfOk result
            (λ count. (count ≡ self.new.upto + self.new.more) × (count ≡ self.old.upto + self.old.more + length self.old.waiting)) }
        ensures mark { OnOk result (self.new.upto ≡ low_of self.old.gnos) }
        ensures above { OnOk result (self.new.more ≡ count_above self.new.upto self.new.gnos) }
        ensures in_order { OnOk result
            (self.old.preserve ≡ true → (self.new.upto ≡ self.old.upto + length self.old.waiting) × (self.new.more ≡ 0)) }
        ensures same { (self.new.preserve ≡ self.old.preserve) × (self.new.gnos ≡ self.old.gnos) }
        ensures contents { OnOk result (S.contents self.new.store ≡ put_batches self.old.waiting (S.contents self.old.store)) }
        ensures all { OnOk result (self.new.waiting ≡ []) }
        ensures idle { self.old.waiting ≡ [] → IsOk result }

        ensures err { OnErr result (S.contents self.new.store ≡ S.contents self.old.store) }
        ensures err_number { OnErr result ((self.new.upto ≡ self.old.upto) × (self.new.more ≡ self.old.more)) }
        ensures err_waiting { OnErr result (self.new.waiting ≡ self.old.waiting) }
    {
        put_together(*self.waiting.allocator(), &mut self.store, &self.waiting)?;
        let count = self.appended.count();
        self.upto = self.appended.upto();
        self.more = count - self.upto;
        self.waiting.clear();
        Ok(count)
    }

    /// The number of appended commits: those shown, and those that wait. It takes no memory.
    pub fn appended(&self) -> u64
        ensures number { result ≡ self.now.upto + self.now.more + length self.now.waiting }
        ensures gnos { result ≡ length self.now.gnos }
    {
        self.appended.count()
    }

    /// The row as the commits that are shown leave it. It takes no memory. The time is logarithmic in the number of rows.
    pub fn read(&self, id: RowId) -> Answer
        ensures row { result.row ≡ row_of (S.contents self.now.store) id }
        ensures upto { result.upto ≡ self.now.upto }
        ensures more { result.more ≡ self.now.more }
        ensures in_order { self.now.preserve ≡ true → result.more ≡ 0 }
    {
        Answer {
            row: self.store.get(id),
            upto: self.upto,
            more: self.more,
        }
    }
}

// Puts all batches, in order, or none of them.
fn put_together<S: RowStore>(alloc: Global, store: &mut S, batches: &[Batch]) -> Result<(), Memory>
    ensures ok { OnOk result (S.contents store.new ≡ put_batches batches.now (S.contents store.old)) }
    ensures idle { batches.now ≡ [] → IsOk result }
    ensures err { OnErr result (S.contents store.new ≡ S.contents store.old) }
{
    match batches {
        [] => Ok(()),
        [only] => store.put_all(only),
        several => store.put_all(&merged(alloc, several)?),
    }
}
