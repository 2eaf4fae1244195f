//! Whether no two rows have one value.

ghost use Rattle.std.specs.Prelude.{◌≡◌, ◌↔◌, ◌++◌, true, false, not, option_to_list, IsTrue, IfOk};
ghost use Rattle.std.specs.Option.{option_map_or};
ghost use Rattle.std.specs.FinMap.{empty};
ghost use Rattle.schema.specs.Rows.{has_row};
ghost use Rattle.rows.specs.Database.{NoValueTwice};
ghost use Rattle.store_trait.specs.Batch.{put_batch};

use crate::index::mark_left;
use indexmap::IndexSet;
use schema::{Mark, Memory, Schema};
use std::alloc::Global;
use store_trait::Batch;

/// Whether no two of the rows that this batch loads into an empty store have one value in the unique column of their
/// table. The expected time is that of a walk over the batch, up to the first value that comes again, and over the
/// schema's tables for each of its rows. The memory is that of the values.
pub fn values_apart(alloc: Global, schema: &Schema, batch: &Batch) -> Result<bool, Memory>
    ensures { IfOk result (λ apart. IsTrue apart ↔ NoValueTwice schema.now (put_batch batch.now empty)) }
{
    let mut marks = IndexSet::new(alloc);
    for entry in batch.entries() {
        if !add(&mut marks, mark_left(schema, entry))? {
            return Ok(false);
        }
    }
    Ok(true)
}

/// Adds the mark, if there is one, after the others; `false` if it is among them already.
fn add(marks: &mut IndexSet<Mark>, mark: Option<Mark>) -> Result<bool, Memory>
    ensures added { IfOk result (λ added. added ≡ not (option_map_or (has_row marks.old.keys) mark false)) }
    ensures keys { IfOk result (λ added. IsTrue added → marks.new.keys ≡ marks.old.keys ++ option_to_list mark) }
{
    match mark {
        Some(mark) => Ok(marks.insert(mark)?),
        None => Ok(true),
    }
}
