//! A batch is put whole or not at all, even if memory runs out in the middle of it.
//!
//! Rows that are set come first, since only they take memory; each is put by one look-up. What it replaces is kept in a
//! list, which has its room before the first of them. If one is refused, all that was kept is put back, which takes no
//! memory. Then rows are removed. A batch of one row needs no list: the map takes it or does not.

ghost use Rattle.std.specs.Prelude.{◌≡◌, ◌<◌, ◌++◌, ◌∷◌, [], length, vec_capacity, Some, IfSome, OnOk, OnErr, FitsSigned};
ghost use Rattle.std.specs.List.{AllByRecursion};
ghost use Rattle.std.specs.FinMap.{insert, get as row_of};
ghost use Rattle.std.proofs.Common.{w64};
ghost use Rattle.store_trait.specs.Batch.{IsRising, put_row, put_batch};
ghost use Rattle.btree_store.specs.Contents.{contents_of, KeysFit};
ghost use Rattle.btree_store.specs.Put.{reset, undo, AreSet};

use crate::Rows;
use crate::packed::Packed;
use rows::Row;
use schema::{Memory, RowId};
use std::alloc::Global;

/// A row with its id, or that the row is absent.
type Entry = (RowId, Option<Row>);

/// What was at a row before.
type Replaced = (RowId, Option<Packed>);

/// Puts all of these entries, or none if memory runs out.
pub(crate) fn put_whole(alloc: Global, rows: &mut Rows, entries: &[Entry]) -> Result<(), Memory>
    requires { IsRising entries.now }
    ensures ok { OnOk result (contents_of rows.new ≡ put_batch entries.now (contents_of rows.old)) }
    ensures err { OnErr result (contents_of rows.new ≡ contents_of rows.old) }
    ensures keys { KeysFit (contents_of rows.old) → KeysFit (contents_of rows.new) }
{
    match entries {
        [(id, row)] => put_one(alloc, rows, *id, *row),
        several => put_several(alloc, rows, several),
    }
}

/// Puts these entries, or none if memory runs out.
fn put_several(alloc: Global, rows: &mut Rows, entries: &[Entry]) -> Result<(), Memory>
    requires { IsRising entries.now }
    ensures ok { OnOk result (contents_of rows.new ≡ put_batch entries.now (contents_of rows.old)) }
    ensures err { OnErr result (contents_of rows.new ≡ contents_of rows.old) }
    ensures keys { KeysFit (contents_of rows.old) → KeysFit (contents_of rows.new) }
{
    let mut before = Vec::with_capacity(alloc, entries.len())?;
    if let Err(refused) = set_rows(alloc, rows, entries, &mut before) {
        put_back(rows, before);
        return Err(refused);
    }
    remove_rows(rows, entries);
    Ok(())
}

/// Puts one row, or removes it, with one look-up. If that is refused, nothing changes.
fn put_one(alloc: Global, rows: &mut Rows, id: RowId, row: Option<Row>) -> Result<(), Memory>
    ensures ok { OnOk result (contents_of rows.new ≡ put_row (contents_of rows.old) id row) }
    ensures err { OnErr result (contents_of rows.new ≡ contents_of rows.old) }
    ensures keys { KeysFit (contents_of rows.old) → KeysFit (contents_of rows.new) }
{
    match row {
        None => reset_row(rows, id, None),
        Some(row) => {
            let packed = Packed::of(alloc, row)?;
            rows.insert(id, packed)?;
        }
    }
    Ok(())
}

/// Sets the rows that the entries set, in order, and adds what was there to the list. If it is refused, the list has
/// what was replaced so far.
fn set_rows(
    alloc: Global,
    rows: &mut Rows,
    entries: &[Entry],
    before: &mut Vec<Replaced>,
) -> Result<(), Memory>
    requires { IsRising entries.now }
    ensures undone { undo before.new.items (contents_of rows.new) ≡ undo before.old.items (contents_of rows.old) }
    ensures same { OnOk result (put_batch entries.now (contents_of rows.new) ≡ put_batch entries.now (contents_of rows.old)) }
    ensures set { OnOk result (AreSet (contents_of rows.new) entries.now) }
{
    for (id, row) in entries {
        if let Some(row) = row {
            let packed = Packed::of(alloc, *row)?;
            replace_row(rows, *id, packed, before)?;
        }
    }
    Ok(())
}

/// Sets the row, and adds what was there to the list. If that is refused, neither is changed.
fn replace_row(
    rows: &mut Rows,
    id: RowId,
    row: Packed,
    before: &mut Vec<Replaced>,
) -> Result<(), Memory>
    ensures undone { undo before.new.items (contents_of rows.new) ≡ undo before.old.items (contents_of rows.old) }
    ensures ok { OnOk result (contents_of rows.new ≡ insert (contents_of rows.old) id row) }
{
    before.reserve(1)?;
    let replaced = rows.insert(id, row)?;
    note(before, id, replaced);
    Ok(())
}

/// Adds what was at a row; there is room for it.
fn note(before: &mut Vec<Replaced>, id: RowId, row: Option<Packed>)
    requires { length before.old.items < vec_capacity before.old }
    ensures { before.new.items ≡ before.old.items ++ (id, row) ∷ [] }
{
    before.push((id, row)).unwrap();
}

/// Puts these rows back, the last of the list first. It takes no memory.
fn put_back(rows: &mut Rows, mut before: Vec<Replaced>)
    ensures { contents_of rows.new ≡ undo before.items (contents_of rows.old) }
{
    while let Some((id, row)) = before.pop() {
        reset_row(rows, id, row);
    }
}

/// Removes the rows that the entries remove; those that they set are there already. It takes no memory.
fn remove_rows(rows: &mut Rows, entries: &[Entry])
    requires rising { IsRising entries.now }
    requires set { AreSet (contents_of rows.old) entries.now }
    ensures put { contents_of rows.new ≡ put_batch entries.now (contents_of rows.old) }
    ensures keys { AllByRecursion (λ e. FitsSigned w64 e.0.key) entries.now }
{
    for (id, row) in entries {
        remove_row(rows, *id, *row);
    }
}

/// Removes the row if the entry does; otherwise it is set already.
fn remove_row(rows: &mut Rows, id: RowId, row: Option<Row>)
    requires { IfSome row (λ columns. row_of (contents_of rows.old) id ≡ Some columns) }
    ensures put { contents_of rows.new ≡ put_row (contents_of rows.old) id row }
    ensures key { FitsSigned w64 id.key }
{
    match row {
        None => reset_row(rows, id, None),
        Some(_) => {}
    }
}

/// Overwrites a row that is there, or removes a row. It takes no memory.
fn reset_row(rows: &mut Rows, id: RowId, row: Option<Packed>)
    ensures reset { contents_of rows.new ≡ reset (contents_of rows.old) id row }
    ensures key { FitsSigned w64 id.key }
{
    match row {
        None => {
            rows.remove(&id);
        }
        Some(row) => {
            if let Some(there) = rows.get_mut(&id) {
                *there = row;
            }
        }
    }
}
