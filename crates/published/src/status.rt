//! The status of a replica: three words that are read and stored as one.
ghost use Rattle.std.specs.Prelude.{◌≡◌, [], ◌∷◌, IfOk};
ghost use mathlib.Core.List.{IsSuffix};
ghost use Rattle.crossbeam_utils.specs.Seq.{cell_view};
ghost use Rattle.published.specs.Status.{InOrder, NoneFalls, Finds, latest};

use crate::counts::{Counts, Look};
use atomic_table::Split;
use crossbeam_utils::atomic::seq_cell::{Pass, RuledSeqCell, Words};
use crossbeam_utils::rule::{Outcome, Protocol};
use schema::Memory;
use std::alloc::Global;
use std::marker::Model;
use std::sync::{Arc, Wait};

impl Words<3> for Counts {
    ghost use Rattle.std.specs.Prelude.{[], ◌∷◌};

    ghost words = { λ c. c.received ∷ c.committed ∷ c.published ∷ [] };

    fn to_words(self) -> [u64; 3] {
        [self.received, self.committed, self.published]
    }

    fn from_words(bits: &[u64; 3]) -> Counts {
        Counts {
            received: bits[0],
            committed: bits[1],
            published: bits[2],
        }
    }
}

/// The words are in order and never fall, and are those that the storing pass stored last.
struct Ordered;

impl Protocol<Counts, Look> for Ordered {
    ghost use Rattle.published.specs.Status.{KeepsLatest, beginner};

    ghost holds = { KeepsLatest };

    ghost first = { beginner };
}

struct Storing;

impl Outcome<Counts, Look> for Storing {
    ghost use Rattle.published.specs.Status.{Stores};

    ghost then = { Stores };
}

struct Found;

impl Outcome<Counts, Look> for Found {
    ghost use Rattle.published.specs.Status.{Finds};

    ghost then = { Finds };
}

/// A watching pass is split from the storing one.
struct Watching;

impl Split<Look> for Watching {
    ghost use Rattle.published.specs.Status.{watching};

    ghost left = { λ v. v };

    ghost right = { watching };
}

type Cell = RuledSeqCell<Counts, Look, Ordered, 3>;

/// The right to store the words. Contracts see it as which words these are, and the counts that were stored, the last
/// first.
#[derive(Drop)]
pub struct Status {
    cell: Arc<Cell>,
    pass: Pass<Counts, Look>,
}

impl Model for Status {
    ghost use Rattle.std.specs.Prelude.{◌≡◌, true};
    ghost use Rattle.std.specs.Arc.{arc_value};
    ghost use Rattle.crossbeam_utils.specs.Seq.{cell_view};
    ghost use Rattle.published.specs.Status.{Reported};

    ghost Value = { Reported };

    ghost view = { λ s. record { cell = s.pass.table_id; stored = (cell_view s.pass).seen } };

    ghost invariant = { λ s. (s.pass.table_id ≡ (arc_value s.cell).table.shared.table_id) × ((cell_view s.pass).stores ≡ true) };
}

/// A reader of the words. Contracts see it as which words these are, and the counts that were stored, the last first, up
/// to those that it returned last; at first all that were stored by then.
#[derive(Drop)]
pub struct Watch {
    cell: Arc<Cell>,
    pass: Pass<Counts, Look>,
}

impl Model for Watch {
    ghost use Rattle.std.specs.Prelude.{◌≡◌};
    ghost use Rattle.std.specs.Arc.{arc_value};
    ghost use Rattle.crossbeam_utils.specs.Seq.{cell_view};
    ghost use Rattle.published.specs.Status.{Reported};

    ghost Value = { Reported };

    ghost view = { λ w. record { cell = w.pass.table_id; stored = (cell_view w.pass).seen } };

    ghost invariant = { λ w. w.pass.table_id ≡ (arc_value w.cell).table.shared.table_id };
}

impl Status {
    /// New words, all 0.
    pub fn new(alloc: Global) -> Result<Status, Memory>
        ensures { IfOk result (λ status. status.stored ≡ []) }
    {
        let zero = Counts {
            received: 0,
            committed: 0,
            published: 0,
        };
        let (cell, pass) = Cell::ruled(alloc, zero)?;
        Ok(Status {
            cell: Arc::new(alloc, cell)?,
            pass,
        })
    }

    /// Stores the three words as one: no reader sees anything between these and those before. None of them falls. It
    /// waits for a thread that is storing them.
    pub fn store<R: Wait>(&mut self, rt: &R, counts: Counts)
        requires in_order { InOrder counts }
        requires rises { NoneFalls (latest self.old.stored) counts }
        ensures { self.new ≡ record self.old { stored = counts ∷ self.old.stored } }
    {
        self.cell.swap_as::<Storing, R>(rt, &mut self.pass, counts);
    }

    /// Reads the three words as one: those that were stored last. It waits only while they are being stored.
    pub fn load<R: Wait>(&mut self, rt: &R) -> Counts
        ensures last { result ≡ latest self.old.stored }
        ensures in_order { InOrder result }
        ensures same { self.new ≡ self.old }
    {
        look(rt, &self.cell, &mut self.pass)
    }

    /// A reader of the words, for any thread. It has seen all that was stored.
    pub fn watch(&mut self) -> Result<Watch, Memory>
        ensures watch { IfOk result (λ watch. watch ≡ self.old) }
        ensures same { self.new ≡ self.old }
    {
        let cell = Arc::try_clone(&self.cell)?;
        let pass = cell.split_pass::<Watching>(&mut self.pass);
        Ok(Watch { cell, pass })
    }
}

impl Watch {
    /// Reads the three words as one: the last ones that it saw, or later ones. None of them is below what it returned
    /// before. It waits only while they are being stored.
    pub fn load<R: Wait>(&mut self, rt: &R) -> Counts
        ensures answer { result ≡ latest self.new.stored }
        ensures in_order { InOrder result }
        ensures rises { NoneFalls (latest self.old.stored) result }
        ensures later { IsSuffix self.old.stored self.new.stored }
        ensures cell { self.new.cell ≡ self.old.cell }
    {
        look(rt, &self.cell, &mut self.pass)
    }
}

// The words, which the pass has seen then.
fn look<R: Wait>(rt: &R, cell: &Cell, pass: &mut Pass<Counts, Look>) -> Counts
    requires { pass.old.table_id ≡ cell.now.table.shared.table_id }
    ensures cell { pass.new.table_id ≡ pass.old.table_id }
    ensures finds { Finds (cell_view pass.old) result result (cell_view pass.new) }
{
    cell.load_as::<Found, R>(rt, pass)
}
