//! Whether a row that a transaction sees names another as its parent.

ghost use Rattle.std.specs.Prelude.{◌≡◌, nat_lt};
ghost use Rattle.std.specs.FinMap.{get as row_of};
ghost use Rattle.std.specs.List.{list_any, count_by, IsDistinct};
ghost use Rattle.std.specs.Map.{keys_of};
ghost use Rattle.schema.specs.RowId.{same_row};
ghost use Rattle.store_trait.specs.Batch.{Entry, IsRising};
ghost use Rattle.overlay.specs.Children.{names_row, left_names, has_child_by};

use crate::Pending;
use indexmap::IndexMap;
use rows::{Row, parent_of};
use schema::{RowId, Schema};
use store_trait::RowStore;

/// Whether a row that the transaction sees names this one as its parent: a row that its changes leave, or one of the
/// store that they do not write. `count` is how many rows of the store name it, whatever the transaction changed. It
/// takes no memory. The time is that of a walk over the rows that the transaction changed, and over the schema's tables
/// for each of them. If none of these names the row as it is left, and `count` is not 0, each of them whose table has
/// the row's table as its parent also costs a look-up in the store.
pub fn has_child<S: RowStore>(
    pending: &Pending,
    schema: &Schema,
    store: &S,
    count: usize,
    row: RowId,
) -> bool
    ensures value { result ≡ has_child_by schema.now (S.contents store.now) pending.now count row }
    ensures rising { IsRising pending.now.left }
{
    let left = &pending.lists.left;
    any_left_names(schema, left, row) || has_more(schema, store, left, count, row)
}

fn any_left_names(schema: &Schema, left: &IndexMap<RowId, Option<Row>>, row: RowId) -> bool
    ensures value { result ≡ list_any (left_names schema.now row) left.now.entries }
    ensures distinct { IsDistinct same_row (keys_of left.now.entries) }
{
    left.iter()
        .any(|(id, left)| left_names(schema, *id, left, row))
}

/// Whether what is left of the row with this id names `row` as its parent.
fn left_names(schema: &Schema, id: RowId, left: &Option<Row>, row: RowId) -> bool
    ensures { result ≡ left_names schema.now row (id, left.now) }
{
    match left {
        Some(columns) => names_row(schema, id.table, columns, row),
        None => false,
    }
}

/// Whether fewer than `count` of these rows name `row` as their parent in the store.
fn has_more<S: RowStore>(
    schema: &Schema,
    store: &S,
    left: &IndexMap<RowId, Option<Row>>,
    count: usize,
    row: RowId,
) -> bool
    ensures { result ≡ nat_lt (count_by (λ (entry : Entry). left_names schema.now row (entry.0, row_of (S.contents store.now) entry.0))
        left.now.entries) count }
{
    count != 0 && changed_children(schema, store, left, row) < count
}

/// How many of these rows name `row` as their parent in the store.
fn changed_children<S: RowStore>(
    schema: &Schema,
    store: &S,
    left: &IndexMap<RowId, Option<Row>>,
    row: RowId,
) -> usize
    ensures { result ≡ count_by (λ (entry : Entry). left_names schema.now row (entry.0, row_of (S.contents store.now) entry.0))
        left.now.entries }
{
    left.iter()
        .filter(|(id, _)| stored_names(schema, store, **id, row))
        .count()
}

/// Whether the row with this id names `row` as its parent in the store. The store is asked only if that id's table has
/// the table of `row` as its parent.
fn stored_names<S: RowStore>(schema: &Schema, store: &S, id: RowId, row: RowId) -> bool
    ensures { result ≡ left_names schema.now row (id, row_of (S.contents store.now) id) }
{
    match schema.link_of(id.table) {
        Some((_, parent)) if parent == row.table => left_names(schema, id, &store.get(id), row),
        _ => false,
    }
}

/// Whether these columns of a row of the table name `row` as its parent.
fn names_row(schema: &Schema, table: u16, columns: &Row, row: RowId) -> bool
    ensures { result ≡ names_row schema.now row table columns.now }
{
    parent_of(schema, table, columns.columns()).is_some_and(|parent| is_same(row, parent))
}

fn is_same(a: RowId, b: RowId) -> bool
    ensures { result ≡ same_row a b }
{
    a == b
}
