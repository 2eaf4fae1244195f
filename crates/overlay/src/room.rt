//! The lists of a transaction's pending changes, and room for one more change.

ghost use Rattle.std.specs.Prelude.{◌≡◌, ◌<◌, ◌≤◌, ◌+◌, ◌++◌, ◌∷◌, [], length, option_to_list, vec_capacity, OnOk};
ghost use Rattle.indexmap.specs.IndexMap.{spare};
ghost use Rattle.std.specs.FinMap.{put};
ghost use Rattle.schema.specs.RowId.{row_cmp};
ghost use Rattle.rows.specs.Step.{kin_of, marks_of};
ghost use Rattle.store_trait.specs.Batch.{in_order};
ghost use Rattle.overlay.specs.Pending.{none_pending, pushed, pending_in, room_in, HasRoom, TakesChange, TakesRow};

use crate::Pending;
use indexmap::IndexMap;
use rows::{Change, Row, Step};
use schema::{Mark, Memory, RowId};
use std::alloc::Global;
use std::fmt::Debug;
use std::marker::Model;

/// The changes, what they leave of each row, their kin and their marks.
#[derive(Debug, Drop)]
pub(crate) struct Lists {
    pub(crate) changes: Vec<Change>,
    pub(crate) left: IndexMap<RowId, Option<Row>>,
    pub(crate) kin: Vec<RowId>,
    pub(crate) marks: Vec<Mark>,
}

/// A transaction's pending changes, with room for one more: its push can't be refused. So a caller that needs more
/// memory for the change takes this room first.
#[derive(Debug, Drop)]
pub struct Roomy {
    pub(crate) lists: Lists,
}

impl Model for Roomy {
    ghost use Rattle.overlay.specs.Pending.{Room, room_in, TakesChange, TakesRow};

    ghost Value = { Room };

    ghost view = { λ r. room_in r.lists };

    ghost invariant = { λ r. TakesChange r.lists × TakesRow r.lists };
}

impl Roomy {
    /// What is pending, with the change and its step after the others. It takes no memory.
    pub fn push(self, change: Change, step: &Step) -> Pending
        requires { HasRoom self step.now }
        ensures { result ≡ pushed self.pending change step.now }
    {
        let Roomy { mut lists } = self;
        set_row(&mut lists.left, change.target(), step.left);
        lists.put_last(change, step);
        Pending { lists }
    }

    /// What is pending, without another change. It takes no memory.
    pub fn into_pending(self) -> Pending
        ensures { result ≡ self.pending }
    {
        let Roomy { lists } = self;
        Pending { lists }
    }
}

impl Lists {
    /// Empty lists. It takes no memory.
    pub(crate) fn new(alloc: Global) -> Lists
        ensures { pending_in result ≡ none_pending }
    {
        Lists {
            changes: Vec::new(alloc),
            left: IndexMap::new(alloc),
            kin: Vec::new(alloc),
            marks: Vec::new(alloc),
        }
    }

    /// Makes room for one more change, and for the kin and the marks of its step.
    pub(crate) fn make_room(&mut self, step: &Step) -> Result<(), Memory>
        ensures same { pending_in self.new ≡ pending_in self.old }
        ensures change { OnOk result (TakesChange self.new) }
        ensures step { OnOk result (HasRoom (room_in self.new) step.now) }
    {
        self.changes.reserve(1)?;
        make_places(&mut self.kin, step.old, step.new)?;
        make_places(&mut self.marks, step.gives_up, step.takes)
    }

    /// Like `make_room`, but also for the change's row.
    pub(crate) fn make_all_room(&mut self, step: &Step) -> Result<(), Memory>
        ensures same { pending_in self.new ≡ pending_in self.old }
        ensures change { OnOk result (TakesChange self.new) }
        ensures row { OnOk result (TakesRow self.new) }
        ensures step { OnOk result (HasRoom (room_in self.new) step.now) }
    {
        self.make_room(step)?;
        self.left.reserve(1)?;
        Ok(())
    }

    /// Adds the change, its kin and its marks after the others; there is room for them.
    pub(crate) fn put_last(&mut self, change: Change, step: &Step)
        requires change { TakesChange self.old }
        requires step { HasRoom (room_in self.old) step.now }
        ensures left { self.new.left ≡ self.old.left }
        ensures changes { self.new.changes.items ≡ self.old.changes.items ++ change ∷ [] }
        ensures kin { self.new.kin.items ≡ self.old.kin.items ++ kin_of step.now }
        ensures marks { self.new.marks.items ≡ self.old.marks.items ++ marks_of step.now }
    {
        self.changes.push(change).unwrap();
        put_both(&mut self.kin, step.old, step.new);
        put_both(&mut self.marks, step.gives_up, step.takes);
    }
}

/// Makes room for these items, if there are any.
fn make_places<T: Drop>(items: &mut Vec<T>, one: Option<T>, other: Option<T>) -> Result<(), Memory>
    ensures items { items.new.items ≡ items.old.items }
    ensures ok { OnOk result (length items.new.items + length (option_to_list one ++ option_to_list other) ≤ vec_capacity items.new) }
{
    let count = usize::from(one.is_some()) + usize::from(other.is_some());
    if count != 0 {
        items.reserve(count)?;
    }
    Ok(())
}

/// Adds these items, if there are any, after the others; there is room for them.
fn put_both<T: Debug>(items: &mut Vec<T>, one: Option<T>, other: Option<T>)
    requires { length items.old.items + length (option_to_list one ++ option_to_list other) ≤ vec_capacity items.old }
    ensures { items.new.items ≡ items.old.items ++ (option_to_list one ++ option_to_list other) }
{
    if let Some(one) = one {
        items.push(one).unwrap();
    }
    if let Some(other) = other {
        items.push(other).unwrap();
    }
}

/// Sets what is left of a row; there is room for one more.
fn set_row(rows: &mut IndexMap<RowId, Option<Row>>, row: RowId, left: Option<Row>)
    requires { 0 < spare rows.old }
    ensures { in_order rows.new.entries ≡ put row_cmp row left (in_order rows.old.entries) }
{
    let _ = rows.insert(row, left);
}
