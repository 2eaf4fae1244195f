//! Batches, operations and stores of rows. What is tested of one store is tested of each.

use crate::again;
use crate::common::unique_tables;
use crate::tests::makers::{Entry, batch, four_tables, given, many_rows, removed, same_rows, set};
use btree_store::BTreeStore;
use rows::Row;
use schema::{Memory, RowId, Schema};
use std::alloc::Global;
use std::process::Abort;
use std::test::Fail;
use store_trait::{Batch, Op, RowStore, fits, holder, run, snapshot};
use vector_store::VectorStore;

/// Whether these rows fit the schema, once they are put into a store without rows.
fn rows_fit<S: RowStore + Drop>(
    alloc: Global,
    schema: &Schema,
    mut store: S,
    entries: &[Entry],
) -> Result<bool, Memory> {
    store.put_all(&batch(alloc, entries)?)?;
    Ok(fits(schema, &store))
}

/// Checks for each of these lists of rows whether it fits the schema, in both stores.
fn all_fit(
    rt: &(impl Abort + AllocGlobal),
    schema: &Schema,
    cases: &[(&[Entry], bool)],
) -> Result<(), Fail> {
    for (entries, want) in cases {
        let in_tree = rows_fit(rt.alloc(), schema, BTreeStore::new(rt.alloc()), entries);
        assert_eq!(rt; in_tree, Ok(*want), "{entries:?}");
        let in_vector = rows_fit(rt.alloc(), schema, VectorStore::new(rt.alloc()), entries);
        assert_eq!(rt; in_vector, Ok(*want), "{entries:?}");
    }
    Ok(())
}

/// Catches a wrong rule for rows: a parent in another table or with another key, a column too few, no table.
#[test]
fn rows_fit_their_schema(rt: HostRuntime) -> Result<(), Fail> {
    let schema = four_tables(rt.alloc())?;
    let cases: [(&[Entry], bool); 5] = [
        (&[set(1, 7, 0), set(2, -9, 7), set(256, 7, 0)], true),
        (&[set(1, 7, 0), set(2, 7, 8)], false),
        (&[set(2, 7, 7), set(3, 7, 7)], false),
        (&[set(1, 7, 0), set(4, 7, 7)], false),
        (&[(RowId { table: 3, key: 1 }, Row::new(&[0; 15]))], false),
    ];
    all_fit(&rt, &schema, &cases)
}

/// Catches a wrong rule for unique values: across two tables, of another column, only between neighbours, or for a table
/// that has none.
#[test]
fn values_fit_their_schema(rt: HostRuntime) -> Result<(), Fail> {
    let schema = unique_tables(rt.alloc())?;
    let cases: [(&[Entry], bool); 7] = [
        (&[given(1, 7, &[5]), given(1, 8, &[6])], true),
        (&[given(1, 7, &[5]), given(1, 8, &[5])], false),
        (
            &[given(1, 7, &[5]), given(1, 8, &[6]), given(1, 9, &[5])],
            false,
        ),
        (&[given(1, 7, &[5]), given(2, 7, &[5, 5])], true),
        (&[given(2, 1, &[5, 6]), given(2, 2, &[5, 5])], true),
        (&[given(2, 1, &[5, 6]), given(2, 2, &[6, 6])], false),
        (&[given(3, 1, &[5]), given(3, 2, &[5])], true),
    ];
    all_fit(&rt, &schema, &cases)
}

/// Whether each value has the holder that `held` says, in a store without rows into which these rows are put. `held`
/// lists a table, a column, a value, and the key.
fn are_held<S: RowStore + Drop>(
    mut store: S,
    rows: &Batch,
    held: &[(u16, u8, i64, Option<i64>)],
) -> Result<bool, Memory> {
    store.put_all(rows)?;
    Ok(
        held.iter().all(|(table, column, value, key)| holder(&store, *table, *column, *value)
            == *key),
    )
}

/// Catches a holder in another column or table, or one with the greatest key.
#[test]
fn values_have_their_holders(rt: HostRuntime) -> Result<(), Fail> {
    let entries = [
        given(2, -3, &[5, 7]),
        given(2, 1, &[5, 6]),
        given(2, 4, &[7, 5]),
        given(3, -9, &[5]),
    ];
    let held = [
        (2, 0, 5, Some(-3)),
        (2, 1, 5, Some(4)),
        (2, 1, 8, None),
        (2, 2, 5, None),
        (1, 0, 5, None),
        (3, 0, 5, Some(-9)),
    ];
    let rows = batch(rt.alloc(), &entries)?;
    assert!(rt; are_held(BTreeStore::new(rt.alloc()), &rows, &held)?);
    assert!(rt; are_held(VectorStore::new(rt.alloc()), &rows, &held)?);
    Ok(())
}

/// Whether all batches are put into a store without rows, and leave `left` rows. A run that stops at a refusal goes on
/// once.
fn run_again<S: RowStore + Drop>(mut store: S, batches: &[Batch], left: usize) -> bool {
    let mut put = run(&mut store, batches);
    if put < batches.len() {
        put += run(&mut store, &batches[put..]);
    }
    put == batches.len() && store.len() == left
}

/// For each key five batches: two new rows; no row; the removal of one of the two; the same removal again; and that
/// removal beside an overwriting of the other row.
fn many_batches(alloc: Global, keys: i64) -> Result<Vec<Batch>, Memory> {
    let mut batches = Vec::new(alloc);
    for key in 0..keys {
        batches.push(batch(alloc, &[set(1, key, 1), set(2, key, 2)])?)?;
        batches.push(Batch::new(alloc))?;
        batches.push(batch(alloc, &[removed(1, key)])?)?;
        batches.push(batch(alloc, &[removed(1, key)])?)?;
        batches.push(batch(alloc, &[removed(1, key), set(2, key, key)])?)?;
    }
    Ok(batches)
}

/// Catches a batch of a long run that is refused, for what is in it or after memory ran out once.
#[test]
fn three_hundred_batches_are_put_again(rt: HostRuntime) -> Result<(), Fail> {
    let alloc = rt.alloc();
    let batches = again!(many_batches(alloc, 60))?;
    assert!(rt; run_again(BTreeStore::new(alloc), &batches, 60));
    assert!(rt; run_again(VectorStore::new(alloc), &batches, 60));
    Ok(())
}

/// What is read of a store without rows into which the rows are put twice. A call that runs out of memory is made once
/// more.
fn stored_again<S: RowStore + Drop>(
    alloc: Global,
    mut store: S,
    rows: &Batch,
) -> Result<Batch, Memory> {
    let schema = again!(four_tables(alloc))?;
    again!(store.put_all(rows))?;
    again!(store.put_all(rows))?;
    if !fits(&schema, &store) {
        return Err(Memory);
    }
    again!(snapshot(alloc, &store, &schema))
}

/// A copy of each kind of operation.
fn copied_again(rows: Batch) -> Result<Op, Memory> {
    let load = Op::Load(rows);
    let copy = again!(load.copy())?;
    let batch = again!(copy.batch().copy())?;
    let commit = Op::Commit { gno: 5, batch };
    again!(commit.copy())
}

/// Whether the rows of `keys` keys in four tables stay the same when they are put into each store, read from it and
/// copied. A call that runs out of memory is made once more.
fn are_kept_again(alloc: Global, keys: u16) -> Result<bool, Memory> {
    let rows = again!(many_rows(alloc, &[1, 2, 3, 256], keys))?;
    let in_tree = copied_again(stored_again(alloc, BTreeStore::new(alloc), &rows)?)?;
    let in_vector = stored_again(alloc, VectorStore::new(alloc), &rows)?;
    Ok(same_rows(in_tree.batch(), &rows) && same_rows(&in_vector, &rows))
}

/// Catches a put, a snapshot or a copy that gives up, if there are many rows or after memory ran out once.
#[test]
fn two_thousand_rows_are_put_again(rt: HostRuntime) -> Result<(), Fail> {
    assert!(rt; are_kept_again(rt.alloc(), 500)?);
    Ok(())
}

/// Like `two_thousand_rows_are_put_again`, but with more rows than a number of 16 bits counts.
#[test]
fn more_rows_than_65536(rt: HostRuntime) -> Result<(), Fail> {
    assert!(rt; are_kept_again(rt.alloc(), 17_000)?);
    Ok(())
}
