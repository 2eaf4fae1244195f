//! Whether a value of a unique column is free for a row, as a transaction sees the rows.

ghost use Rattle.std.specs.Prelude.{◌≡◌, ℤ, true};
ghost use Rattle.std.specs.List.{list_any, IsDistinct};
ghost use Rattle.std.specs.Map.{keys_of};
ghost use Rattle.std.specs.Option.{option_map_or};
ghost use Rattle.schema.specs.RowId.{same_row};
ghost use Rattle.store_trait.specs.Batch.{IsRising};
ghost use Rattle.store_trait.specs.Contents.{row_at};
ghost use Rattle.rows.specs.Holders.{has_mark};
ghost use Rattle.overlay.specs.Values.{other_has, gives_way, value_over};

use crate::Pending;
use indexmap::IndexMap;
use rows::{Change, Row, mark_of};
use schema::{Mark, RowId, Schema};

/// Whether no other row has the value that the change gives its row, `takes`, as the transaction sees the rows; true if
/// the change gives none. `holder` is the key of the row in the store that has the mark, `None` if no row there has it,
/// so the store is not asked. It takes no memory. The time is that of a walk over the rows that the transaction
/// changed, with a walk over the schema's tables for each of them; if the change gives no value, it is constant.
pub fn value_holds(
    pending: &Pending,
    schema: &Schema,
    change: &Change,
    takes: Option<Mark>,
    holder: Option<i64>,
) -> bool
    ensures value { result ≡ value_over schema.now pending.now change.now takes holder }
    ensures rising { IsRising pending.now.left }
{
    let left = &pending.lists.left;
    let Some(mark) = takes else {
        return true;
    };
    let row = change.target();
    !any_other_has(schema, left, row, mark) && holder_gives_way(pending, row, mark, holder)
}

/// Whether one of these rows, other than `row`, is left with the mark.
fn any_other_has(
    schema: &Schema,
    left: &IndexMap<RowId, Option<Row>>,
    row: RowId,
    mark: Mark,
) -> bool
    ensures value { result ≡ list_any (other_has schema.now row mark) left.now.entries }
    ensures distinct { IsDistinct same_row (keys_of left.now.entries) }
{
    left.iter()
        .any(|(id, left)| other_has(schema, row, mark, *id, left))
}

/// Whether the row with this id is not `row`, and is left with the mark.
fn other_has(schema: &Schema, row: RowId, mark: Mark, id: RowId, left: &Option<Row>) -> bool
    ensures { result ≡ other_has schema.now row mark (id, left.now) }
{
    match left {
        Some(columns) => id != row && has_mark(schema, mark, id.table, columns),
        None => false,
    }
}

/// Whether a row of the table with these columns has the mark.
fn has_mark(schema: &Schema, mark: Mark, table: u16, columns: &Row) -> bool
    ensures { (key : ℤ) → result ≡ has_mark schema.now mark (row_at table key, columns.now) }
{
    mark_of(schema, table, columns.columns()).is_some_and(|own| own == mark)
}

/// Whether the holder of the mark, if any, is `row`, or a row that the transaction changed.
fn holder_gives_way(pending: &Pending, row: RowId, mark: Mark, holder: Option<i64>) -> bool
    ensures { result ≡ option_map_or (λ key. gives_way pending.now row (row_at mark.table key)) holder true }
{
    holder.is_none_or(|key| gives_way(pending, row, row_of(mark, key)))
}

/// The row of the mark's table with this key.
fn row_of(mark: Mark, key: i64) -> RowId
    ensures { result ≡ row_at mark.table key }
{
    RowId {
        table: mark.table(),
        key,
    }
}

/// Whether the holder is `row`, or a row that the transaction changed.
fn gives_way(pending: &Pending, row: RowId, holder: RowId) -> bool
    ensures { result ≡ gives_way pending.now row holder }
{
    holder == row || pending.see(holder).is_some()
}
