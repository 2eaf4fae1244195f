//! What trackers see of a log: footprints and entries.

use log_index::{Entry, Footprint, Log, MarkSet, Rows};
use schema::{Flags, Mark, Memory, RowId};
use std::alloc::Global;
use std::test::Fail;
use tests_stores::again;
use tests_stores::common::{boxed, five_tables, row};

fn rows(alloc: Global, list: &[RowId]) -> Result<Rows, Memory> {
    Ok(Rows::new(again!(list.to_vec(alloc))?))
}

fn marks(alloc: Global, list: &[Mark]) -> Result<MarkSet, Memory> {
    Ok(MarkSet::new(again!(list.to_vec(alloc))?))
}

/// The footprint of a transaction that writes one row, refers to another, and has a mark.
fn footprint(alloc: Global, write: RowId, to: RowId) -> Result<Footprint, Memory> {
    Ok(Footprint {
        writes: rows(alloc, &[write])?,
        refs: rows(alloc, &[to])?,
        marks: marks(alloc, &[Mark::new(write.table, 5)])?,
        flags: Flags::none(),
    })
}

/// Catches a table that is taken for another kind: a parent, a child or a keyless one.
#[test]
fn kinds_of_tables(rt: HostRuntime) -> Result<(), Fail> {
    let schema = five_tables(rt.alloc())?;
    for (table, fk, missing_keys) in [
        (1, false, false),
        (3, true, false),
        (4, true, false),
        (5, false, true),
    ] {
        let writes = rows(rt.alloc(), &[row(2, 1), row(table, 1)])?;
        let (refs, none) = (rows(rt.alloc(), &[])?, marks(rt.alloc(), &[])?);
        let seen = Footprint::new(&schema, writes, refs, none);
        assert_eq!(rt;
            (seen.flags.fk, seen.flags.missing_keys),
            (fk, missing_keys),
            "table {table}"
        );
    }
    Ok(())
}

/// Pushes the entry of the next number, whose parent is the number before it.
fn push_next(log: &mut Log, footprint: Footprint) -> Result<(), Memory> {
    let parent = log.len() as u64;
    let sequence = parent.checked_add(1).ok_or(Memory)?;
    log.push(Entry {
        sequence,
        parent,
        session: 256,
        footprint,
    })
}

/// Catches a copy that runs out of memory past some number of rows or marks.
#[test]
fn an_entry_at_the_bound_is_copied_again(rt: HostRuntime) -> Result<(), Fail> {
    let entry = Entry {
        sequence: 1,
        parent: 0,
        session: 256,
        footprint: footprint(rt.alloc(), row(4, 9), row(3, 1))?,
    };
    let mut entry = boxed(rt.alloc(), entry)?;
    entry.footprint.writes = rows(rt.alloc(), &[row(4, 9); 1024])?;
    entry.footprint.refs = rows(rt.alloc(), &[row(3, 1); 2048])?;
    entry.footprint.marks = marks(rt.alloc(), &[Mark::new(4, 5); 2048])?;
    let copy = boxed(rt.alloc(), again!(entry.copy())?)?;
    assert_eq!(rt; copy.footprint.writes.list().len(), 1024);
    assert_eq!(rt; copy.footprint.refs.list().len(), 2048);
    assert_eq!(rt; copy.footprint.marks.list().len(), 2048);
    Ok(())
}

/// Catches a push without reserved room that is always refused, a `reserve` that is refused, and an entry that is
/// refused past some number.
#[test]
fn many_entries(rt: HostRuntime) -> Result<(), Fail> {
    let mut log = Log::new();
    for number in 0..3000 {
        if number == 1500 {
            log.reserve(1500)?;
        }
        push_next(
            &mut log,
            footprint(rt.alloc(), row(1, number), row(2, number))?,
        )?;
    }
    assert_eq!(rt; log.len(), 3000);
    Ok(())
}
