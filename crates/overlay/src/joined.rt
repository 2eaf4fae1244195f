//! What several transactions leave, joined into one batch.
ghost use Rattle.std.specs.Prelude.{◌≡◌, [], ◌++◌, IsSome, None, OnOk, OnErr};
ghost use Rattle.std.specs.List.{IsDistinct};
ghost use Rattle.std.specs.Map.{keys_of};
ghost use Rattle.std.specs.FinMap.{find};
ghost use Rattle.schema.specs.declared.RowId.{RowId};
ghost use Rattle.schema.specs.RowId.{row_cmp, same_row};
ghost use Rattle.store_trait.specs.Batch.{IsRising};
ghost use Rattle.overlay.specs.Pending.{left_at};
ghost use Rattle.overlay.specs.Joining.{joined};

use crate::Pending;
use indexmap::IndexMap;
use rows::Row;
use schema::{Memory, RowId};
use std::alloc::Global;
use std::marker::Model;
use store_trait::Batch;

/// What several transactions leave of the rows that they change, as one batch.
#[derive(Debug, Drop)]
pub struct Joined {
    entries: Vec<(RowId, Option<Row>)>,
}

impl Model for Joined {
    ghost use Rattle.std.specs.Prelude.{List};
    ghost use Rattle.std.specs.List.{IsDistinct};
    ghost use Rattle.std.specs.Map.{keys_of};
    ghost use Rattle.schema.specs.RowId.{same_row};
    ghost use Rattle.store_trait.specs.Batch.{Entry, in_order};

    ghost Value = { List Entry };

    ghost view = { λ j. in_order j.entries.items };

    ghost invariant = { λ j. IsDistinct same_row (keys_of j.entries.items) };
}

impl Joined {
    /// No rows. It takes no memory.
    pub fn new(alloc: Global) -> Joined
        ensures { result ≡ [] }
    {
        Joined {
            entries: Vec::new(alloc),
        }
    }

    /// Adds what a transaction leaves of each row that its changes write; none of these rows may be there yet. If
    /// memory runs out, nothing changes. The time is that of a walk over the rows added.
    pub fn add(&mut self, pending: &Pending) -> Result<(), Memory>
        requires apart { (q : RowId) → IsSome (left_at pending.now q) → find row_cmp q self.old ≡ None }
        ensures ok { OnOk result (self.new ≡ joined self.old pending.now) }
        ensures err { OnErr result (self.new ≡ self.old) }
        ensures rising { IsRising self.new }
        ensures left { IsRising pending.now.left }
    {
        append(&mut self.entries, &pending.lists.left)?;
        Ok(())
    }

    /// The batch of all rows that were added. It takes no memory. With b rows the time is b log b.
    pub fn into_batch(self) -> Batch
        ensures { result ≡ self }
    {
        let Joined { mut entries } = self;
        entries.sort_unstable_by_key(|entry| entry.0);
        Batch::from_rising(entries)
    }
}

/// Adds these rows after the others, or none of them if there is no room for all.
fn append(
    entries: &mut Vec<(RowId, Option<Row>)>,
    left: &IndexMap<RowId, Option<Row>>,
) -> Result<(), Memory>
    ensures ok { OnOk result (entries.new.items ≡ entries.old.items ++ left.now.entries) }
    ensures err { OnErr result (entries.new.items ≡ entries.old.items) }
    ensures distinct { IsDistinct same_row (keys_of left.now.entries) }
{
    let count = entries.len();
    let rows = left.iter().map(|(id, left)| (*id, *left));
    match entries.extend(rows) {
        Ok(()) => Ok(()),
        Err(refused) => {
            entries.truncate(count);
            Err(refused.into())
        }
    }
}
