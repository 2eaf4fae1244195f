//! What a change does to its row, and what refuses it: the schema, the rows, or the locks of other sessions.

ghost use Rattle.std.specs.Prelude.{◌≡◌, ◌≤◌, false, None, Ok, take, option_and_then};
ghost use Rattle.std.specs.Result.{result_err};
ghost use Rattle.std.specs.Option.{option_map_or};
ghost use Rattle.std.specs.FinMap.{get};
ghost use Rattle.row_locks.specs.declared.Mode.TheVariants.{Share};
ghost use Rattle.row_locks.specs.Locks.{clashes_with, mark_clashes};
ghost use Rattle.rows.specs.Database.{target, NoValueTwice, value_stands};
ghost use Rattle.row_index.specs.Keys.{Indexes};
ghost use Rattle.row_index.specs.Counts.{CountsChildren};
ghost use Rattle.overlay.specs.Pending.{seen};
ghost use Rattle.rows.specs.Step.{step_of, marks_of as marks_for};
ghost use Rattle.source_core.specs.Calls.{shape_fault};
ghost use Rattle.source_core.specs.Steps.{refusal as why, one_of, deletes_parent as deletes, kin_fault, stepped, locks_of as locks_for};

use crate::fault::SourceFault;
use crate::stored::Stored;
use overlay::{Pending, has_child, parent_holds, step_seen, value_holds};
use row_index::Index;
use row_locks::{LockTable, Mode};
use rows::{Change, Step, has_columns};
use schema::{Mark, RowId, Schema};
use store_trait::RowStore;

/// Whether the schema allows the change, whatever the rows.
pub(crate) fn check_shape(schema: &Schema, change: &Change) -> Result<(), SourceFault>
    ensures { result_err result ≡ shape_fault schema.now change.now None }
{
    let id = change.target().table;
    let table = schema.table(id).ok_or(SourceFault::NoTable)?;
    if has_columns(&table, change) {
        Ok(())
    } else {
        Err(SourceFault::WrongColumns)
    }
}

/// What the change does over the rows that the transaction sees, or the first cause that refuses it. The causes are those
/// rows, and the locks of others on its kin and its marks. It takes no memory. The time is that of at most two look-ups
/// in the store. A delete adds that of `has_child`. A change that gives its row a value in a unique column adds that of
/// finding the value's holder, in the index and among the transaction's own rows.
pub(crate) fn allowed_step<S: RowStore>(
    pending: &Pending,
    schema: &Schema,
    stored: &Stored<S>,
    locks: &LockTable,
    session: u16,
    change: &Change,
) -> Result<Step, SourceFault>
    requires least { 1 ≤ session }
    requires greatest { session ≤ 256 }
    requires apart { NoValueTwice schema.now (S.contents stored.now.store) }
    requires indexed { Indexes schema.now (S.contents stored.now.store) stored.now.index.map }
    requires counted { CountsChildren schema.now (S.contents stored.now.store) stored.now.children.map }
    ensures { result ≡ stepped schema.now (seen pending.now (S.contents stored.now.store))
        (λ row. clashes_with locks.now.rows session row Share) (mark_clashes locks.now session) change.now }
{
    match step_seen(pending, schema, &stored.store, change) {
        Ok(step) => match cause(pending, schema, stored, locks, session, change, &step) {
            Some(fault) => Err(fault),
            None => Ok(step),
        },
        Err(_) => Err(refusal(change)),
    }
}

/// The first cause that refuses a change that its row allows; `step` is what it does to the row.
fn cause<S: RowStore>(
    pending: &Pending,
    schema: &Schema,
    stored: &Stored<S>,
    locks: &LockTable,
    session: u16,
    change: &Change,
    step: &Step,
) -> Option<SourceFault>
    requires least { 1 ≤ session }
    requires greatest { session ≤ 256 }
    requires apart { NoValueTwice schema.now (S.contents stored.now.store) }
    requires indexed { Indexes schema.now (S.contents stored.now.store) stored.now.index.map }
    requires counted { CountsChildren schema.now (S.contents stored.now.store) stored.now.children.map }
    requires step { Ok step.now ≡ step_of schema.now change.now (get (seen pending.now (S.contents stored.now.store)) (target change.now)) }
    ensures { result ≡ kin_fault schema.now (seen pending.now (S.contents stored.now.store))
        (λ row. clashes_with locks.now.rows session row Share) (mark_clashes locks.now session) change.now step.now }
{
    if is_held(locks, session, step) {
        Some(SourceFault::RowLocked)
    } else if !parent_holds(pending, schema, &stored.store, change, step.left.as_ref()) {
        Some(SourceFault::NoParent)
    } else if deletes_parent(pending, schema, stored, change) {
        Some(SourceFault::HasChild)
    } else if is_taken(locks, session, step) {
        Some(SourceFault::RowLocked)
    } else if !value_is_free(pending, schema, stored, change, step) {
        Some(SourceFault::Duplicate)
    } else {
        None
    }
}

/// Whether another session holds one of the step's kin exclusively.
fn is_held(locks: &LockTable, session: u16, step: &Step) -> bool
    requires least { 1 ≤ session }
    requires greatest { session ≤ 256 }
    ensures { result ≡ one_of (λ row. clashes_with locks.now.rows session row Share) step.now.old step.now.new }
{
    is_row_held(locks, session, step.old) || is_row_held(locks, session, step.new)
}

fn is_row_held(locks: &LockTable, session: u16, row: Option<RowId>) -> bool
    requires least { 1 ≤ session }
    requires greatest { session ≤ 256 }
    ensures { result ≡ option_map_or (λ r. clashes_with locks.now.rows session r Share) row false }
{
    match row {
        Some(row) => locks.clashes(session, row, Mode::Share),
        None => false,
    }
}

/// Whether another session holds one of the step's marks.
fn is_taken(locks: &LockTable, session: u16, step: &Step) -> bool
    requires least { 1 ≤ session }
    requires greatest { session ≤ 256 }
    ensures { result ≡ one_of (mark_clashes locks.now session) step.now.gives_up step.now.takes }
{
    is_mark_held(locks, session, step.gives_up) || is_mark_held(locks, session, step.takes)
}

fn is_mark_held(locks: &LockTable, session: u16, mark: Option<Mark>) -> bool
    requires least { 1 ≤ session }
    requires greatest { session ≤ 256 }
    ensures { result ≡ option_map_or (mark_clashes locks.now session) mark false }
{
    match mark {
        Some(mark) => locks.clashes_mark(session, mark),
        None => false,
    }
}

/// Whether the change deletes a row that has a child, as the transaction sees the rows.
fn deletes_parent<S: RowStore>(
    pending: &Pending,
    schema: &Schema,
    stored: &Stored<S>,
    change: &Change,
) -> bool
    requires { CountsChildren schema.now (S.contents stored.now.store) stored.now.children.map }
    ensures { result ≡ deletes schema.now change.now (seen pending.now (S.contents stored.now.store)) }
{
    match change {
        Change::Insert { .. } | Change::Update { .. } => false,
        Change::Delete { row } => {
            let count = stored.children.count(*row);
            has_child(pending, schema, &stored.store, count, *row)
        }
    }
}

/// Whether no other row that the transaction sees has the value that the change gives its row.
fn value_is_free<S: RowStore>(
    pending: &Pending,
    schema: &Schema,
    stored: &Stored<S>,
    change: &Change,
    step: &Step,
) -> bool
    requires apart { NoValueTwice schema.now (S.contents stored.now.store) }
    requires indexed { Indexes schema.now (S.contents stored.now.store) stored.now.index.map }
    requires step { Ok step.now ≡ step_of schema.now change.now (get (seen pending.now (S.contents stored.now.store)) (target change.now)) }
    ensures { result ≡ value_stands schema.now change.now (seen pending.now (S.contents stored.now.store)) step.now.left }
{
    let holder = holder_below(&stored.index, step.takes);
    value_holds(pending, schema, change, step.takes, holder)
}

/// The key of the committed row that has the mark that a change takes. `None` if the change takes none, or no row has it.
fn holder_below(index: &Index, takes: Option<Mark>) -> Option<i64>
    ensures { result ≡ option_and_then (get index.now.map) takes }
{
    index.holder(takes?)
}

/// Why a change is refused that its row does not allow.
fn refusal(change: &Change) -> SourceFault
    ensures { result ≡ why change.now }
{
    match change {
        Change::Insert { .. } => SourceFault::RowExists,
        Change::Update { .. } | Change::Delete { .. } => SourceFault::NoRow,
    }
}

/// The change's locks on rows, at the front of the array, and their number: its row exclusively, and the step's kin
/// shared.
pub(crate) fn locks_of(change: &Change, step: &Step) -> ([(RowId, Mode); 3], usize)
    ensures locks { take result.1 result.0 ≡ locks_for change.now step.now }
    ensures few { result.1 ≤ 3 }
{
    let own = (change.target(), Mode::Exclusive);
    match (step.old, step.new) {
        (None, None) => ([own; 3], 1),
        (Some(kin), None) | (None, Some(kin)) => ([own, (kin, Mode::Share), own], 2),
        (Some(old), Some(new)) => ([own, (old, Mode::Share), (new, Mode::Share)], 3),
    }
}

/// The marks of the step, at the front of the array, and their number.
pub(crate) fn marks_of(step: &Step) -> ([Mark; 2], usize)
    ensures marks { take result.1 result.0 ≡ marks_for step.now }
    ensures few { result.1 ≤ 2 }
{
    match (step.gives_up, step.takes) {
        (None, None) => ([Mark::new(0, 0); 2], 0),
        (Some(mark), None) | (None, Some(mark)) => ([mark; 2], 1),
        (Some(old), Some(new)) => ([old, new], 2),
    }
}
