//! The publisher.
ghost use Rattle.std.specs.Prelude.{◌≡◌, ◌⊎◌, ◌+◌, [], ◌∷◌, ◌++◌, length, drop, OnOk, OnErr, IfOk, IfSome, fold};
ghost use Rattle.published.specs.Copies.{after_step, Settles};
ghost use Rattle.store_trait.specs.Operation.{left_by};
ghost use Rattle.published.specs.History.{IsHistory, IsWithin, MayAppend, commits_in};

use crate::book::{Head, Naming, Notice, Part};
use crate::gaps::Gaps;
use crate::seat::ReadSeat;
use crate::version::{Common, Consistent, CopyStep, StoreWriter, Version};
use core::mem::replace_with;
use left_right::Absorb;
use logbook::Plain;
use schema::Memory;
use std::alloc::{AllocError, Global};
use std::marker::Model;
use std::sync::Wait;
use store_trait::{Op, RowStore};

/// It appends commits and publishes them. Contracts see it as the operations that are published, those that wait, and the
/// history of what readers may see. That is what they see, except after a refused `publish`. It is not `Drop`: end it by
/// `close`. A struct that has one repeats its bound. A struct under a lock has to be `Drop`, so it keeps the handle too,
/// and closes the publisher in its `drop`.
pub struct Publisher<S: RowStore + Drop, J: Naming>
where
    Version<S, J>: Absorb<CopyStep<J>, State = Common>,
{
    writer: StoreWriter<S, J>,
    head: Head<J>,
    history: Notice<J>,
    /// The gnos of all that was appended.
    appended: Gaps,
}

impl<S: RowStore + Drop, J: Naming> Model for Publisher<S, J>
where
    Version<S, J>: Absorb<CopyStep<J>, State = Common>,
{
    ghost use Rattle.std.specs.Prelude.{drop};
    ghost use Rattle.published.specs.Copies.{puts_in};
    ghost use Rattle.published.specs.Publication.{Publishing, IsTied};

    ghost Value = { Publishing };

    ghost view = { λ p. record {
      published = p.writer.desk.shown.value.by;
      waiting = puts_in (drop p.writer.behind p.writer.log.items);
      history = p.history;
    } };

    ghost invariant = { λ p. IsTied J.preserve J.known (S.contents p.writer.desk.shown.value.store)
        (record {
          published = p.writer.desk.shown.value.by;
          waiting = puts_in (drop p.writer.behind p.writer.log.items);
          history = p.history;
        }) p.appended.gnos };
}

/// What waits and is not in the history.
struct Unsaid;

impl<S: RowStore + Drop, J: Naming> Plain<Publisher<S, J>, Part, u64> for Unsaid {
    ghost use Rattle.std.specs.Prelude.{None};
    ghost use Rattle.published.specs.Publication.{unsaid};

    ghost ask = { λ p. unsaid p };

    ghost state = { λ p. None };
}

impl<S: RowStore + Drop, J: Naming> Publisher<S, J> {
    // Over the two copies, which have the load of the base.
    pub(crate) fn begun(
        alloc: Global,
        writer: StoreWriter<S, J>,
        head: Head<J>,
        notice: Notice<J>,
    ) -> Publisher<S, J>
        requires load { IsHistory J.preserve notice × (commits_in notice ≡ 0) }
        requires known { IsWithin J.known notice }
        requires shown { (writer.desk.shown.value.by ≡ notice) × (S.contents writer.desk.shown.value.store ≡ left_by notice) }
        requires none { drop writer.behind writer.log.items ≡ [] }
        ensures published { result.published ≡ notice }
        ensures waiting { result.waiting ≡ [] }
        ensures history { result.history ≡ notice }
    {
        Publisher {
            writer,
            head,
            history: notice,
            appended: Gaps::new(alloc),
        }
    }

    // A new seat, which has seen what is published. `None` if `left_right` gave no reader.
    pub(crate) fn seat(&self) -> Option<ReadSeat<S, J>>
        ensures { IfSome result (λ seat. seat ≡ self.now.published) }
    {
        let reader = self.writer.factory().reader().ok()?;
        Some(ReadSeat::taken(reader, self.tell()))
    }

    /// Appends a commit, which no reader sees before the next `publish`. If the order of the log is kept, its gno is the
    /// one after the last appended, 1 at first. Else it is any gno from 1 on that was not appended. The time and the
    /// memory are those of a copy of the batch, and linear in the commits ahead of a gap.
    pub fn append(&mut self, op: &Op) -> Result<(), Memory>
        requires next { MayAppend J.preserve (self.old.published ++ self.old.waiting) op.now }
        // If all that may ever be published is known, this is the next of that.
        requires known { IsWithin J.known (self.old.published ++ self.old.waiting ++ op.now ∷ []) }
        ensures ok { OnOk result (self.new ≡ record self.old { waiting = self.old.waiting ++ op.now ∷ [] }) }
        ensures err { OnErr result (self.new ≡ self.old) }
    {
        let Op::Commit { gno, batch } = op else {
            unreachable!();
        };
        self.appended.room_for(*gno)?;
        let batch = batch.copy()?;
        add(
            &mut self.writer,
            CopyStep::Put(Op::Commit { gno: *gno, batch }),
        )?;
        self.appended.add(*gno);
        Ok(())
    }

    /// Publishes all that was appended, at once, and returns how many commits are published then. It waits for readers
    /// that are still in the version before the last.
    ///
    /// If memory runs out, readers see what they saw, and the next `publish` publishes the same and what came since. The
    /// history may then already have all that waited. In that case the next `publish` goes on from there, and adds to it
    /// only what came since. (It would also return `Memory` if another had added to the history, but only this publisher
    /// can.)
    ///
    /// The time is n log m, for the n entries that wait and those of the `publish` before, and a store of m rows; each
    /// entry goes into both copies. The memory is what the new rows need. The operations are kept until both copies have
    /// them, at the next `publish`.
    pub fn publish<R: Wait>(&mut self, rt: &R) -> Result<u64, Memory>
        ensures number { IfOk result
            (λ count. (count ≡ commits_in self.new.published) × (count ≡ commits_in self.old.published + length self.old.waiting)) }
        ensures is_history { IsHistory J.preserve self.new.published }
        ensures published { OnOk result (self.new.published ≡ self.old.published ++ self.old.waiting) }
        ensures all { OnOk result (self.new.waiting ≡ []) }
        ensures history { OnOk result (self.new.history ≡ self.new.published) }
        ensures err { OnErr result (self.new ≡ record self.old { history = self.new.history }) }
        ensures err_history { OnErr result
            ((self.new.history ≡ self.old.history) ⊎ (self.new.history ≡ self.old.published ++ self.old.waiting)) }
    {
        let Some(history) = self.extended() else {
            return Err(Memory);
        };
        self.history = history;
        add(&mut self.writer, CopyStep::Note(self.history.again()))?;
        show(&mut self.writer, rt)?;
        Ok(self.appended.count())
    }

    // The history with all that waits. `None` if it went on without that.
    fn extended(&self) -> Option<Notice<J>>
        ensures { IfSome result (λ all. all ≡ self.now.published ++ self.now.waiting) }
    {
        let (count, upto) = (self.appended.count(), self.appended.upto());
        self.history
            .and::<Publisher<S, J>, Unsaid>(&self.head, self, count, upto)
    }

    /// What is published now. It takes no memory.
    pub fn tell(&self) -> Notice<J>
        ensures { result ≡ self.now.published }
    {
        self.writer.published().by.again()
    }
}

// Under the bound of the struct, so that the `Drop` of a type that holds a publisher may call it.
impl<S: RowStore + Drop, J: Naming> Publisher<S, J>
where
    Version<S, J>: Absorb<CopyStep<J>, State = Common>,
{
    /// Waits for the readers, which can read nothing from then on, and gives back the store that was published last. What
    /// waits is dropped.
    pub fn close<R: Wait>(self, rt: &R) -> S
        ensures { S.contents result ≡ left_by self.published }
    {
        let Publisher {
            writer,
            head: _head,
            history: _history,
            appended: _appended,
        } = self;
        let Version { store, by: _by } = Box::into_inner(writer.take(rt));
        store
    }
}

// One more step that waits.
fn add<S: RowStore + Drop, J: Naming>(
    writer: &mut StoreWriter<S, J>,
    step: CopyStep<J>,
) -> Result<(), Memory>
    ensures desk { writer.new.desk ≡ writer.old.desk }
    ensures ok { OnOk result (drop writer.new.behind writer.new.log.items ≡ drop writer.old.behind writer.old.log.items ++ step ∷ []) }
    ensures err { OnErr result (drop writer.new.behind writer.new.log.items ≡ drop writer.old.behind writer.old.log.items) }
{
    writer.append(step).map_err(|_| Memory)
}

// Shows readers a copy that has taken all the steps, and is what its operations leave.
fn show<S: RowStore + Drop, J: Naming, R: Wait>(
    writer: &mut StoreWriter<S, J>,
    rt: &R,
) -> Result<(), AllocError>
    requires { Settles (record { rows = S.contents writer.old.desk.shown.value.store; by = writer.old.desk.shown.value.by })
        (drop writer.old.behind writer.old.log.items) }
    ensures ok { OnOk result (drop writer.new.behind writer.new.log.items ≡ []) }
    ensures shown { OnOk result
        (record { rows = S.contents writer.new.desk.shown.value.store; by = writer.new.desk.shown.value.by } ≡ fold after_step
        (record { rows = S.contents writer.old.desk.shown.value.store; by = writer.old.desk.shown.value.by })
        (drop writer.old.behind writer.old.log.items)) }
    ensures err { OnErr result (drop writer.new.behind writer.new.log.items ≡ drop writer.old.behind writer.old.log.items) }
    ensures same { OnErr result (writer.new.desk.shown.value ≡ writer.old.desk.shown.value) }
{
    replace_with(writer, rt, |writer, rt| {
        writer.publish_as::<Consistent, R>(rt)
    })
}
