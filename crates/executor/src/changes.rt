//! Runs changes over rows.

ghost use Rattle.std.specs.Prelude.{◌≡◌, ◌&&◌, Some, None, if◌then◌else◌, option_and_then, IfOk};
ghost use Rattle.std.specs.Option.{option_map};
ghost use Rattle.rows.specs.Database.{Database, effect, parent_stands};
ghost use Rattle.store_trait.specs.Batch.{IsRising};
ghost use Rattle.overlay.specs.Pending.{pending_of, seen};
ghost use Rattle.overlay.specs.Values.{value_over};
ghost use Rattle.executor.specs.Held.{held};
ghost use Rattle.executor.specs.Shown.{IsShown, ShowsOne, step_there};

use crate::Holders;
use overlay::{Pending, parent_holds, step_seen, value_holds};
use rows::{Change, Step};
use schema::{Mark, Memory, Schema};
use store_trait::RowStore;

/// Runs these changes over the store and these holders, in the room of changes that were run before, and returns
/// whether each of them applies after those before it. The store stays as it is. The time is that of at most two
/// look-ups for each change. A change that gives its row a value of a unique column also costs a search for its holder,
/// and a walk over the rows that were changed before it.
pub(crate) fn run_changes<S: RowStore>(
    pending: &mut Pending,
    schema: &Schema,
    holders: &Holders,
    store: &S,
    changes: &[Change],
) -> Result<bool, Memory>
    ensures { IfOk result (λ applies. (db : Database) → IsShown schema.now changes.now (S.contents store.now) holders.now db
        → (if applies then Some pending.new else None)
        ≡ option_map (pending_of schema.now changes.now db) (effect schema.now changes.now db)) }
{
    pending.clear();
    for change in changes {
        let Some(step) = step_that_applies(pending, schema, holders, store, change) else {
            return Ok(false);
        };
        pending.push(*change, &step)?;
    }
    Ok(true)
}

/// What the change does to its row, if it applies after those before it. It takes no memory.
fn step_that_applies<S: RowStore>(
    pending: &Pending,
    schema: &Schema,
    holders: &Holders,
    store: &S,
    change: &Change,
) -> Option<Step>
    ensures { (db : Database) → IsRising pending.now.left → ShowsOne schema.now change.now (S.contents store.now) holders.now db
        → result ≡ step_there schema.now change.now (seen pending.now db) }
{
    let step = step_seen(pending, schema, store, change).ok()?;
    stands(pending, schema, holders, store, change, &step).then_some(step)
}

/// Whether the change may give its row what it gives: if that is a parent, the parent is there; if it is a value, no
/// other row has it.
fn stands<S: RowStore>(
    pending: &Pending,
    schema: &Schema,
    holders: &Holders,
    store: &S,
    change: &Change,
    step: &Step,
) -> bool
    ensures { result ≡ (parent_stands schema.now change.now (seen pending.now (S.contents store.now)) step.now.left
        && value_over schema.now pending.now change.now step.now.takes (option_and_then (held holders.now) step.now.takes)) }
{
    parent_holds(pending, schema, store, change, step.left.as_ref())
        && value_holds(
            pending,
            schema,
            change,
            step.takes,
            holder_of(holders, step.takes),
        )
}

/// The key of the row that has the mark, if there is a mark and a row has it.
fn holder_of(holders: &Holders, mark: Option<Mark>) -> Option<i64>
    ensures { result ≡ option_and_then (held holders.now) mark }
{
    holders.holder(mark?)
}
