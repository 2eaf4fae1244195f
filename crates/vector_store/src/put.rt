//! A batch is put whole or not at all.
//!
//! The new rows are counted, and one free place for each is made after all rows; only this can be refused. The free
//! places are a gap among the rows. For each row of the batch, the last first, the gap is moved down to the row's
//! place, or to the place that it would have: the rows between are moved to the gap's other end. A row that is there
//! becomes part of the gap, and a row that is set is written at the gap's end. So the rows after the gap are done, and
//! those before it are as they were. The gap has a place for each new row that is still to come, and for each row
//! removed so far. At the end it is closed if rows were removed.

ghost use Rattle.std.specs.Prelude.{◌≡◌, ◌+◌, ◌-◌, ◌<◌, ◌≤◌, [], ◌∷◌, ◌++◌, ◌&&◌, length, take, drop, count_by, is_some, is_none, IsSome};
ghost use Rattle.std.specs.Prelude.{IsNone, IfOk, OnOk, OnErr};
ghost use Rattle.std.specs.declared.cmp.Ordering.TheVariants.{Less};
ghost use Rattle.std.specs.FinMap.{get as row_of};
ghost use Rattle.schema.specs.declared.RowId.{RowId};
ghost use Rattle.schema.specs.RowId.{row_cmp};
ghost use Rattle.store_trait.specs.Batch.{IsRising, put_row, put_batch};
ghost use Rattle.vector_store.specs.Contents.{contents_of, AreBehind, AreInOrder};
ghost use Rattle.vector_store.specs.Gap.{IsGap, around, room_of, IsParted, is_new, count_of};

use crate::KeyedRow;
use crate::search::place_near_end;
use rows::Row;
use schema::{Memory, RowId};

/// A row with its id, or that the row is absent.
type Entry = (RowId, Option<Row>);

/// The places from `start` up to `end`, which are free.
#[derive(Clone, Copy)]
struct Gap {
    start: usize,
    end: usize,
}

/// Puts all of these entries, or none if memory runs out.
pub(crate) fn put_whole(rows: &mut Vec<KeyedRow>, entries: &[Entry]) -> Result<(), Memory>
    requires rising { IsRising entries.now }
    requires order { AreInOrder rows.old.items }
    ensures ok { OnOk result (contents_of rows.new.items ≡ put_batch entries.now (contents_of rows.old.items)) }
    ensures err { OnErr result (rows.new.items ≡ rows.old.items) }
    ensures order { AreInOrder rows.new.items }
{
    let count = count_new(rows, entries);
    let gap = open(rows, count)?;
    let left = merge(rows, entries, gap);
    close(rows, left);
    Ok(())
}

/// How many rows the entries set that are not there yet.
fn count_new(rows: &[KeyedRow], entries: &[Entry]) -> usize
    requires rising { IsRising entries.now }
    requires order { AreInOrder rows.now }
    ensures { result ≡ count_by (is_new (contents_of rows.now)) entries.now }
{
    let mut count = 0;
    let mut end = rows.len();
    let mut left = entries;
    while let Some((entry, before)) = left.split_last() {
        let (id, row) = *entry;
        let (place, adds) = look_up(&rows[..end], id, row.is_some());
        count += usize::from(adds);
        end = place;
        left = before;
    }
    count
}

/// The place of the first row with this id or a greater one; and whether the row is set without being there.
fn look_up(rows: &[KeyedRow], id: RowId, is_set: bool) -> (usize, bool)
    requires { AreInOrder rows.now }
    ensures within { result.0 ≤ length rows.now }
    ensures behind { (q : RowId) → row_cmp q id ≡ Less → AreBehind q (drop result.0 rows.now) }
    ensures adds { result.1 ≡ (is_set && is_none (row_of (contents_of rows.now) id)) }
{
    match place_near_end(rows, id) {
        Ok(place) => (place, false),
        Err(place) => (place, is_set),
    }
}

/// Makes this many free places after the rows, or none if memory runs out.
fn open(rows: &mut Vec<KeyedRow>, count: usize) -> Result<Gap, Memory>
    ensures gap { IfOk result (λ gap. IsGap gap rows.new.items) }
    ensures ok { IfOk result (λ gap. around gap rows.new.items ≡ rows.old.items) }
    ensures last { IfOk result (λ gap. drop gap.end rows.new.items ≡ []) }
    ensures room { IfOk result (λ gap. room_of gap ≡ count) }
    ensures err { OnErr result (rows.new.items ≡ rows.old.items) }
{
    rows.reserve(count)?;
    let start = rows.len();
    let end = start + count;
    rows.resize(end, filler())?;
    Ok(Gap { start, end })
}

/// What a free place holds.
fn filler() -> KeyedRow {
    (RowId { table: 0, key: 0 }, Row::new(&[0]).unwrap())
}

/// Puts the entries, the last of them first, into the rows around the gap, which is after all rows and has a place for
/// each new row. Returns the gap that is left.
fn merge(rows: &mut [KeyedRow], entries: &[Entry], mut gap: Gap) -> Gap
    requires rising { IsRising entries.now }
    requires gap { IsGap gap rows.old }
    requires order { AreInOrder (around gap rows.old) }
    requires last { drop gap.end rows.old ≡ [] }
    requires room { room_of gap ≡ count_by (is_new (contents_of (around gap rows.old))) entries.now }
    ensures gap { IsGap result rows.new }
    ensures order { AreInOrder (around result rows.new) }
    ensures put { contents_of (around result rows.new) ≡ put_batch entries.now (contents_of (around gap rows.old)) }
{
    let mut left = entries;
    while let Some((entry, before)) = left.split_last() {
        let (id, row) = *entry;
        gap = put_one(rows, gap, id, row);
        left = before;
    }
    gap
}

/// Puts one row, or removes it. All rows after the gap must have greater ids. Returns the gap that is left.
fn put_one(rows: &mut [KeyedRow], gap: Gap, id: RowId, row: Option<Row>) -> Gap
    requires gap { IsGap gap rows.old }
    requires order { AreInOrder (around gap rows.old) }
    requires behind { AreBehind id (drop gap.end rows.old) }
    requires room { IsSome row → IsNone (row_of (contents_of (around gap rows.old)) id) → 0 < room_of gap }
    ensures gap { IsGap result rows.new }
    ensures order { AreInOrder (around result rows.new) }
    ensures put { contents_of (around result rows.new) ≡ put_row (contents_of (around gap rows.old)) id row }
    ensures behind { (q : RowId) → row_cmp q id ≡ Less → AreBehind q (drop result.end rows.new) }
    ensures room { room_of result + count_of (is_some row)
        ≡ room_of gap + count_of (is_some (row_of (contents_of (around gap rows.old)) id)) }
{
    let parted = part(rows, gap, id);
    match row {
        None => parted,
        Some(row) => fill(rows, parted, id, row),
    }
}

/// Moves the gap to the row's place, or to the place that it would have. A row that is there becomes part of the gap.
fn part(rows: &mut [KeyedRow], gap: Gap, id: RowId) -> Gap
    requires gap { IsGap gap rows.old }
    requires order { AreInOrder (around gap rows.old) }
    requires behind { AreBehind id (drop gap.end rows.old) }
    ensures gap { IsGap result rows.new }
    ensures parted { IsParted (around gap rows.old) id (take result.start rows.new) (drop result.end rows.new) }
    ensures room { room_of result ≡ room_of gap + count_of (is_some (row_of (contents_of (around gap rows.old)) id)) }
{
    match place_near_end(&rows[..gap.start], id) {
        Ok(place) => move_gap(rows, gap, place, place + 1),
        Err(place) => move_gap(rows, gap, place, place),
    }
}

/// Moves the rows from `behind` up to the gap to the gap's other end, and lets the gap begin at `start`.
fn move_gap(rows: &mut [KeyedRow], gap: Gap, start: usize, behind: usize) -> Gap
    requires gap { IsGap gap rows.old }
    requires rises { start ≤ behind }
    requires within { behind ≤ gap.start }
    ensures gap { IsGap result rows.new }
    ensures front { take result.start rows.new ≡ take start (take gap.start rows.old) }
    ensures back { drop result.end rows.new ≡ drop behind (take gap.start rows.old) ++ drop gap.end rows.old }
    ensures room { room_of result ≡ room_of gap + (behind - start) }
{
    let end = gap.end - (gap.start - behind);
    if behind < end {
        rows.copy_within(behind..gap.start, end);
    }
    Gap { start, end }
}

/// Writes the row at the end of the gap.
fn fill(rows: &mut [KeyedRow], gap: Gap, id: RowId, row: Row) -> Gap
    requires gap { IsGap gap rows.old }
    requires room { 0 < room_of gap }
    ensures gap { IsGap result rows.new }
    ensures front { take result.start rows.new ≡ take gap.start rows.old }
    ensures back { drop result.end rows.new ≡ (id, row) ∷ drop gap.end rows.old }
    ensures room { room_of result + 1 ≡ room_of gap }
{
    let Gap { start, end } = gap;
    rows[end - 1] = (id, row);
    Gap {
        start,
        end: end - 1,
    }
}

/// Closes the gap.
fn close(rows: &mut Vec<KeyedRow>, gap: Gap)
    requires { IsGap gap rows.old.items }
    ensures { rows.new.items ≡ around gap rows.old.items }
{
    if gap.start < gap.end {
        let len = rows.len() - (gap.end - gap.start);
        rows.copy_within(gap.end.., gap.start);
        rows.truncate(len);
    }
}
