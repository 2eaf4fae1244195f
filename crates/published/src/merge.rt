//! Several batches as one, so that a store takes them whole or not at all.
ghost use Rattle.std.specs.Prelude.{◌≡◌, OnOk, IfOk};
ghost use Rattle.rows.specs.Database.{Database};
ghost use Rattle.store_trait.specs.Batch.{put_batch, put_batches};

use rows::Row;
use schema::{Memory, RowId};
use std::alloc::Global;
use std::collections::BTreeMap;
use store_trait::Batch;

/// One batch that leaves what these leave, put one after another. If a row is in several, its last entry counts. The time
/// is n log n, and the memory n, for n entries in all.
pub(crate) fn merged(alloc: Global, batches: &[Batch]) -> Result<Batch, Memory>
    ensures { IfOk result (λ batch. (db : Database) → put_batch batch db ≡ put_batches batches.now db) }
{
    let mut rows = BTreeMap::new(alloc);
    for batch in batches {
        enter(&mut rows, batch.entries())?;
    }
    Ok(Batch::from_rising(rows.into_iter().collect(alloc)?))
}

// Puts the entries over those that are there.
fn enter(
    rows: &mut BTreeMap<RowId, Option<Row>>,
    entries: &[(RowId, Option<Row>)],
) -> Result<(), Memory>
    ensures { OnOk result ((db : Database) → put_batch rows.new.entries db ≡ put_batch entries.now (put_batch rows.old.entries db)) }
{
    for (id, row) in entries {
        rows.insert(*id, *row)?;
    }
    Ok(())
}
