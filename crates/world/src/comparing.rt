//! Whether a replica has what its source's log says.

ghost use Rattle.std.specs.Prelude.{◌≡◌, ◌↔◌, IsTrue, IfSome, IsSome, true};
ghost use mathlib.Core.List.{IsPrefix};
ghost use Rattle.std.specs.List.{AllByRecursion};
ghost use Rattle.std.specs.FinMap.{get as row_of};
ghost use Rattle.store_trait.specs.Batch.{Entry};
ghost use Rattle.store_trait.specs.Operation.{loaded};

use record_codec::{Record, same_records};
use replica_core::ReplicaCore;
use rows::Row;
use schema::RowId;
use source_core::SourceCore;
use store_trait::{Batch, RowStore};
use tracker_trait::Tracker;

/// Whether both sides began with the same rows, and the records that the replica accepted are a prefix of the source's
/// log. None if one of the two lets records go. It takes no memory. With n initial rows, it takes the time of 2n look-ups
/// among them, and of comparing the accepted records.
pub fn begins<S: RowStore, T: Tracker, R: RowStore>(
    source: &SourceCore<S, T>,
    replica: &ReplicaCore<R>,
) -> Option<bool>
    ensures both { IfSome result (λ begins. IsTrue begins
        ↔ ((loaded source.now.base ≡ loaded replica.now.base) × IsPrefix replica.now.accepted source.now.log)) }
    ensures none { IsSome result ↔ ((source.now.keeps ≡ true) × (replica.now.keeps ≡ true)) }
{
    if source.keeps() && replica.keeps() {
        Some(
            load_alike(source.base(), replica.base())
                && is_beginning(replica.accepted(), source.log()),
        )
    } else {
        None
    }
}

/// Whether two batches load the same rows into an empty store.
fn load_alike(one: &Batch, other: &Batch) -> bool
    ensures { IsTrue result ↔ (loaded one.now ≡ loaded other.now) }
{
    all_loaded(one.entries(), other) && all_loaded(other.entries(), one)
}

/// Whether the batch loads each of these rows, and none of those that are marked as removed.
fn all_loaded(entries: &[(RowId, Option<Row>)], batch: &Batch) -> bool
    ensures { IsTrue result ↔ AllByRecursion (λ (e : Entry). row_of (loaded batch.now) e.0 ≡ e.1) entries.now }
{
    for entry in entries {
        if !is_loaded(entry, batch) {
            return false;
        }
    }
    true
}

fn is_loaded(entry: &(RowId, Option<Row>), batch: &Batch) -> bool
    ensures { IsTrue result ↔ (row_of (loaded batch.now) entry.now.0 ≡ entry.now.1) }
{
    loaded_row(batch, entry.0) == entry.1
}

/// The row as the batch loads it, found by binary search.
fn loaded_row(batch: &Batch, id: RowId) -> Option<Row>
    ensures { result ≡ row_of (loaded batch.now) id }
{
    let entries = batch.entries();
    match entries.binary_search_by_key(&id, |entry| entry.0) {
        Ok(at) => entries[at].1,
        Err(_) => None,
    }
}

/// Whether the log begins with these records.
fn is_beginning(records: &[Record], log: &[Record]) -> bool
    ensures { IsTrue result ↔ IsPrefix records.now log.now }
{
    if records.len() > log.len() {
        return false;
    }
    for i in 0..records.len() {
        if !same_records(&records[i], &log[i]) {
            return false;
        }
    }
    true
}
