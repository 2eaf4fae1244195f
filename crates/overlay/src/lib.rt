//! A transaction's pending changes and their effect.
//!
//! A `Pending` has the changes of a transaction in the order in which they were made, what they leave of each row that
//! they write, their kin and their marks. Laid over the committed rows it shows what the transaction sees; putting its
//! batch into them commits it. `Joined` makes one batch of what several transactions leave. `row_seen`, `step_seen`,
//! `parent_holds` and `has_child` look through the pending changes into a store. `value_holds` says whether no other
//! row has the value that a step takes. It uses what is pending, and the row that has the value in the store, which its
//! caller knows. `laws` states what is pending after changes that apply one after another, what it shows, and what a
//! joined batch leaves if its transactions do not touch each other's rows and values.
#![tactic(auto)]

ghost use Rattle.std.specs.Prelude.{◌≡◌, ◌↔◌, ◌&&◌, [], length, IsTrue, IfOk, IfErr, OnOk, OnErr, unwrap_or, option_copied};
ghost use Rattle.std.specs.List.Sorted.{IsSorted};
ghost use Rattle.std.specs.FinMap.{get as row_of};
ghost use Rattle.schema.specs.RowId.{row_cmp};
ghost use Rattle.rows.specs.Step.{target, step_of};
ghost use Rattle.rows.specs.Database.{has_parent, parent_stands, sets_parent};
ghost use Rattle.store_trait.specs.Batch.{IsRising};
ghost use Rattle.overlay.specs.Pending.{none_pending, pushed, left_at, seen, same_rows, HasRoom};

mod children;
mod joined;
mod keys;
pub mod laws;
mod room;
mod values;

pub use children::has_child;
pub use joined::Joined;
use keys::are_exactly;
use room::Lists;
pub use room::Roomy;
use rows::{Change, ChangeFault, Row, Step, apply_one, parent_of, step_from};
use schema::{Mark, Memory, RowId, Schema};
use std::alloc::Global;
use std::marker::Model;
use std::mem::replace;
use store_trait::{Batch, RowStore};
pub use values::value_holds;

/// The changes of a transaction, what they leave of each row that they write, the parent rows that these rows name
/// before and after each change, and the values of unique columns that each change takes from its row and gives it.
#[derive(Debug, Drop)]
pub struct Pending {
    lists: Lists,
}

impl Model for Pending {
    ghost use Rattle.overlay.specs.Pending.{Pending as Held, pending_in};

    ghost Value = { Held };

    ghost view = { λ p. pending_in p.lists };
}

impl Pending {
    /// No changes. It takes no memory.
    pub fn new(alloc: Global) -> Pending
        ensures { result ≡ none_pending }
    {
        Pending {
            lists: Lists::new(alloc),
        }
    }

    /// Takes the changes out, and leaves none. It takes no memory.
    pub fn take(&mut self) -> Pending
        ensures taken { result ≡ self.old }
        ensures none { self.new ≡ none_pending }
    {
        let alloc = *self.lists.changes.allocator();
        replace(self, Pending::new(alloc))
    }

    /// Removes all changes, and keeps their room for others. It takes no memory, and the time of a walk over the most
    /// room that there ever was.
    pub fn clear(&mut self)
        ensures { self.new ≡ none_pending }
    {
        self.lists.changes.clear();
        self.lists.left.clear();
        self.lists.kin.clear();
        self.lists.marks.clear();
    }

    /// What the changes leave of the row: its columns, or `Some(None)` if they remove it; `None` if no change writes
    /// the row. It takes no memory, and expected constant time.
    pub fn see(&self, id: RowId) -> Option<Option<Row>>
        ensures value { result ≡ left_at self.now id }
        ensures rising { IsRising self.now.left }
    {
        if self.lists.left.is_empty() {
            // Without changes the row is not even hashed.
            return None;
        }
        self.lists.left.get(&id).copied()
    }

    /// The same changes, with room for one more that has this step. If memory runs out, they come back unchanged. No
    /// memory is asked for kin or marks if the step has none.
    pub fn reserve(self, step: &Step) -> Result<Roomy, (Memory, Pending)>
        ensures ok { IfOk result (λ roomy. roomy.pending ≡ self) }
        ensures room { IfOk result (λ roomy. HasRoom roomy step.now) }
        ensures err { IfErr result (λ refused. refused.1 ≡ self) }
    {
        let Pending { mut lists } = self;
        match lists.make_all_room(step) {
            Ok(()) => Ok(Roomy { lists }),
            Err(memory) => Err((memory, Pending { lists })),
        }
    }

    /// Adds a change after the others, with its step. If memory runs out, nothing changes.
    pub fn push(&mut self, change: Change, step: &Step) -> Result<(), Memory>
        ensures ok { OnOk result (self.new ≡ pushed self.old change step.now) }
        ensures err { OnErr result (self.new ≡ self.old) }
    {
        self.lists.make_room(step)?;
        self.lists.left.insert(change.target(), step.left)?;
        self.lists.put_last(change, step);
        Ok(())
    }

    /// The changes in the order in which they were made.
    pub fn changes(&self) -> &[Change]
        ensures { result.now ≡ self.now.changes }
    {
        &self.lists.changes
    }

    /// The number of changes.
    pub fn len(&self) -> usize
        ensures { result ≡ length self.now.changes }
    {
        self.lists.changes.len()
    }

    /// Whether there are no changes.
    pub fn is_empty(&self) -> bool
        ensures { IsTrue result ↔ (self.now.changes ≡ []) }
    {
        self.lists.changes.is_empty()
    }

    /// The parent rows, before and after each change, of the changed child rows, in the order of the changes.
    pub fn kin(&self) -> &[RowId]
        ensures { result.now ≡ self.now.kin }
    {
        &self.lists.kin
    }

    /// The marks that each change takes from its row and gives it, in the order of the changes.
    pub fn marks(&self) -> &[Mark]
        ensures { result.now ≡ self.now.marks }
    {
        &self.lists.marks
    }

    /// Whether the kin are exactly the rows of `refs`, and the marks exactly those of `marks`. Neither list falls; the
    /// kin and the marks may be in any order, and come more than once. Both are sorted here. It takes no memory. With s
    /// rows and marks stated, and k kin and marks, the time is that of sorting k items, and of s + k searches.
    pub fn touches_exactly(&mut self, refs: &[RowId], marks: &[Mark]) -> bool
        requires refs { IsSorted row_cmp refs.now }
        requires marks { IsSorted row_cmp marks.now }
        ensures value { result ≡ (same_rows refs.now self.old.kin && same_rows marks.now self.old.marks) }
        ensures left { self.new.left ≡ self.old.left }
    {
        are_exactly(refs, &mut self.lists.kin) && are_exactly(marks, &mut self.lists.marks)
    }

    /// Each row that the changes write, with what they leave of it. A row that was inserted and then deleted is there
    /// as removed. With b such rows the time is b log b.
    pub fn batch(&self, alloc: Global) -> Result<Batch, Memory>
        ensures { IfOk result (λ batch. batch ≡ self.now.left) }
    {
        let mut joined = Joined::new(alloc);
        joined.add(self)?;
        Ok(joined.into_batch())
    }
}

/// The row as the transaction sees it: as its changes leave it, or else as it is in the store. It takes no memory, and
/// the time of at most one look-up in the store.
pub fn row_seen<S: RowStore>(pending: &Pending, store: &S, id: RowId) -> Option<Row>
    ensures first { result ≡ unwrap_or (left_at pending.now id) (row_of (S.contents store.now) id) }
    ensures value { result ≡ row_of (seen pending.now (S.contents store.now)) id }
{
    match pending.see(id) {
        Some(left) => left,
        None => store.get(id),
    }
}

/// What the change does to its row as the transaction sees it, or why it does not fit that row. It does not check
/// whether a parent is there, or whether another row has the value that the row takes: `parent_holds` and `value_holds`
/// do. It takes no memory, and the time of at most one look-up in the store.
pub fn step_seen<S: RowStore>(
    pending: &Pending,
    schema: &Schema,
    store: &S,
    change: &Change,
) -> Result<Step, ChangeFault>
    ensures { result ≡ step_of schema.now change.now (row_of (seen pending.now (S.contents store.now)) (target change.now)) }
{
    let before = row_seen(pending, store, change.target());
    let left = apply_one(change, before.as_ref())?;
    Ok(step_from(schema, change, before.as_ref(), left))
}

/// Whether a row of the table may have these columns, as the transaction sees the rows: the table has no parent, or the
/// columns name a parent row that is there. It takes no memory.
fn parent_seen<S: RowStore>(
    pending: &Pending,
    schema: &Schema,
    store: &S,
    table: u16,
    columns: &Row,
) -> bool
    ensures { result ≡ has_parent schema.now (seen pending.now (S.contents store.now)) table columns.now }
{
    if schema.link_of(table).is_none() {
        return true;
    }
    match parent_of(schema, table, columns.columns()) {
        Some(parent) => row_seen(pending, store, parent).is_some(),
        None => false,
    }
}

/// Whether the parent that the change gives its row, if it gives one, is there; `left` is what the change leaves of the
/// row. It takes no memory, and the time of at most one look-up in the store.
pub fn parent_holds<S: RowStore>(
    pending: &Pending,
    schema: &Schema,
    store: &S,
    change: &Change,
    left: Option<&Row>,
) -> bool
    ensures { result ≡ parent_stands schema.now change.now (seen pending.now (S.contents store.now)) (option_copied left.entry) }
{
    match left {
        Some(columns) if gives_parent(schema, change) => {
            parent_seen(pending, schema, store, change.target().table, columns)
        }
        _ => true,
    }
}

/// Whether the change says which parent its row has.
fn gives_parent(schema: &Schema, change: &Change) -> bool
    ensures { result ≡ sets_parent schema.now change.now }
{
    match change {
        Change::Insert { .. } => true,
        Change::Update { row, columns } => schema
            .link_of(row.table)
            .is_some_and(|link| columns.names(link.0)),
        Change::Delete { .. } => false,
    }
}
