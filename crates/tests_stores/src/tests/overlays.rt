//! What a transaction's changes leave over committed rows.

use crate::again;
use crate::common::unique_tables;
use crate::tests::makers::{
    Entry, delete, four_tables, four_unique, given, insert, insert_of, many_rows, removed,
    same_rows, set, store, update,
};
use btree_store::BTreeStore;
use overlay::{Pending, parent_holds, step_seen, value_holds};
use rows::{Change, Step};
use schema::{Memory, Schema};
use std::alloc::Global;
use std::process::Abort;
use std::test::Fail;
use store_trait::{Batch, holder_of};

/// Whether the parent that the change gives its row is there, and the value is free, as the transaction sees the rows.
fn stands(
    pending: &Pending,
    schema: &Schema,
    store: &BTreeStore,
    change: &Change,
    step: &Step,
) -> bool {
    let holder = match step.takes {
        Some(mark) => holder_of(schema, store, mark),
        None => None,
    };
    parent_holds(pending, schema, store, change, step.left.as_ref())
        && value_holds(pending, schema, change, step.takes, holder)
}

/// What is pending after the changes, one by one, or `None` if one of them does not apply after those before it. A call
/// that runs out of memory is made once more.
fn ran(
    alloc: Global,
    schema: &Schema,
    store: &BTreeStore,
    changes: &[Change],
) -> Result<Option<Pending>, Memory> {
    let mut pending = Pending::new(alloc);
    for change in changes {
        let Ok(step) = step_seen(&pending, schema, store, change) else {
            return Ok(None);
        };
        if !stands(&pending, schema, store, change, &step) {
            return Ok(None);
        }
        again!(pending.push(*change, &step))?;
    }
    Ok(Some(pending))
}

/// Whether the changes leave `want` over the rows or, if that is `None`, one of them does not apply. A call that runs out
/// of memory is made once more.
fn leaves(
    alloc: Global,
    schema: &Schema,
    store: &BTreeStore,
    changes: &[Change],
    want: Option<&[Entry]>,
) -> Result<bool, Memory> {
    let Some(pending) = ran(alloc, schema, store, changes)? else {
        return Ok(want.is_none());
    };
    let batch = again!(pending.batch(alloc))?;
    Ok(want.is_some_and(|want| batch.entries() == want))
}

/// A list of changes, and what they leave, or `None` if one of them does not apply.
type Case<'a> = (&'a [Change], Option<&'a [Entry]>);

/// Checks that the changes of each case leave over these rows what the case says.
fn all_leave(
    rt: &(impl Abort + AllocGlobal),
    schema: &Schema,
    rows: &[Entry],
    cases: &[Case],
) -> Result<(), Fail> {
    let store = store(rt.alloc(), rows)?;
    for (changes, want) in cases {
        let left = leaves(rt.alloc(), schema, &store, changes, *want);
        assert_eq!(rt; left, Ok(true), "{changes:?}");
    }
    Ok(())
}

/// Catches a parent that is looked for only among the committed rows, or asked for although the change gives none. Row 1
/// of table 1 is committed and has a child. Row 5 is not committed.
#[test]
fn children_have_the_parents_that_are_seen(rt: HostRuntime) -> Result<(), Fail> {
    let schema = four_tables(rt.alloc())?;
    let cases: [Case; 7] = [
        (&[insert(2, 10, 5), insert(1, 5, 0)], None),
        (
            &[insert(1, 5, 0), insert(2, 10, 5)],
            Some(&[set(1, 5, 0), set(2, 10, 5)]),
        ),
        (&[insert(1, 5, 0), delete(1, 5), insert(2, 10, 5)], None),
        (&[update(2, 9, 15, 5)], None),
        (
            &[insert(1, 5, 0), update(2, 9, 15, 5), update(2, 9, 15, 1)],
            Some(&[set(1, 5, 0), set(2, 9, 1)]),
        ),
        // A deleted parent is asked for if the update names its column, and only then.
        (&[delete(1, 1), update(2, 9, 15, 1)], None),
        (
            &[delete(1, 1), update(2, 9, 0, 1)],
            Some(&[removed(1, 1), set(2, 9, 1)]),
        ),
    ];
    all_leave(&rt, &schema, &[set(1, 1, 0), set(2, 9, 1)], &cases)
}

/// The row of table 1 that has only this value.
fn has(key: i64, value: i64) -> Entry {
    given(1, key, &[value])
}

/// The insert of that row.
fn adds(key: i64, value: i64) -> Change {
    insert_of(1, key, &[value])
}

/// The update that gives the row this value.
fn moves(key: i64, value: i64) -> Change {
    update(1, key, 0, value)
}

/// Catches a value that is looked for only among the committed rows, in the row itself, or in another table or column.
/// Also one that is found in a row that was removed or has it no more, or that is looked for although the change gives
/// none.
#[test]
fn values_are_free_where_none_is_seen(rt: HostRuntime) -> Result<(), Fail> {
    let schema = unique_tables(rt.alloc())?;
    let rows = [
        has(10, 5),
        has(11, 6),
        given(2, 1, &[8, 7]),
        given(2, 2, &[7, 8]),
    ];
    let cases: [Case; 13] = [
        (&[adds(12, 5)], None),
        (
            &[delete(1, 10), adds(12, 5)],
            Some(&[removed(1, 10), has(12, 5)]),
        ),
        (
            &[moves(10, 7), adds(12, 5)],
            Some(&[has(10, 7), has(12, 5)]),
        ),
        (&[moves(10, 7), adds(12, 5), moves(10, 5)], None),
        (&[delete(1, 10), adds(12, 5), adds(10, 5)], None),
        // Two rows swap their values by way of a third.
        (&[moves(10, 6), moves(11, 5)], None),
        (
            &[moves(10, 7), moves(11, 5), moves(10, 6)],
            Some(&[has(10, 6), has(11, 5)]),
        ),
        // The row itself does not count as another one.
        (&[moves(10, 5)], Some(&[has(10, 5)])),
        (&[delete(1, 10), adds(10, 5)], Some(&[has(10, 5)])),
        // What the transaction itself took, and what it gave up again.
        (&[adds(12, 7), moves(10, 7)], None),
        (
            &[adds(12, 7), delete(1, 12), moves(10, 7)],
            Some(&[has(10, 7), removed(1, 12)]),
        ),
        // The column is not named, or it is another one.
        (
            &[update(2, 1, 0, 7), insert_of(2, 3, &[7, 5])],
            Some(&[given(2, 1, &[7, 7]), given(2, 3, &[7, 5])]),
        ),
        (
            &[update(2, 1, 1, 9), update(2, 2, 1, 7), update(2, 1, 0, 7)],
            Some(&[given(2, 1, &[7, 9]), given(2, 2, &[7, 7])]),
        ),
    ];
    all_leave(&rt, &schema, &rows, &cases)
}

/// `keys` inserts into table 1, each followed by the insert of its child into table 2, from the greatest key down.
fn inserts(alloc: Global, keys: u16) -> Result<Vec<Change>, Memory> {
    let mut changes = Vec::new(alloc);
    for below in 1..=keys {
        let key = i64::from(keys / 2) - i64::from(below);
        changes.push(insert(1, key, key))?;
        changes.push(insert(2, key, key))?;
    }
    Ok(changes)
}

/// Whether the greatest number of changes of a transaction leaves these rows, over a store without rows.
fn most_leave(alloc: Global, schema: &Schema, rows: &Batch) -> Result<bool, Memory> {
    let changes = again!(inserts(alloc, 512))?;
    let store = BTreeStore::new(alloc);
    leaves(alloc, schema, &store, &changes, Some(rows.entries()))
}

/// Catches a step or a batch that gives up, at the greatest number of changes of a transaction or after memory ran out
/// once.
#[test]
fn most_changes_are_run_again(rt: HostRuntime) -> Result<(), Fail> {
    let alloc = rt.alloc();
    let rows = again!(many_rows(alloc, &[1, 2], 512))?;
    for schema in [again!(four_tables(alloc))?, again!(four_unique(alloc))?] {
        assert_eq!(rt; most_leave(alloc, &schema, &rows), Ok(true));
    }
    Ok(())
}

/// A step that leaves this of a row, and takes the row from a parent.
fn step_of(entry: &Entry) -> Step {
    Step {
        left: entry.1,
        old: Some(entry.0),
        new: None,
        gives_up: None,
        takes: None,
    }
}

/// Pushes two changes of a row. Room for the first one is taken before. A call that runs out of memory is made once more.
fn push_again(pending: Pending, entry: &Entry) -> Result<Pending, Memory> {
    let change = Change::Delete { row: entry.0 };
    let step = step_of(entry);
    let roomy = match pending.reserve(&step) {
        Ok(roomy) => roomy,
        Err((_, pending)) => match pending.reserve(&step) {
            Ok(roomy) => roomy,
            Err((memory, _)) => return Err(memory),
        },
    };
    let mut pending = roomy.push(change, &step);
    again!(pending.push(change, &step))?;
    Ok(pending)
}

fn pushed_again(alloc: Global, rows: &Batch) -> Result<Pending, Memory> {
    let mut pending = Pending::new(alloc);
    for entry in rows.entries() {
        pending = push_again(pending, entry)?;
    }
    Ok(pending)
}

/// Catches a push that gives up if there are many, and changes that are left otherwise after memory ran out once.
#[test]
fn many_changes_are_pushed_again(rt: HostRuntime) -> Result<(), Fail> {
    let alloc = rt.alloc();
    let rows = again!(many_rows(alloc, &[1, 2], 256))?;
    let pending = pushed_again(alloc, &rows)?;
    assert_eq!(rt; pending.len(), 1024);
    assert_eq!(rt; pending.kin().len(), 1024);
    let batch = again!(pending.batch(alloc))?;
    assert!(rt; same_rows(&batch, &rows));
    Ok(())
}
