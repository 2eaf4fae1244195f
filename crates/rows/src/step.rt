//! What a change does to its row.

ghost use Rattle.std.specs.Prelude.{◌≡◌, IsTrue, None, option_copied};
ghost use Rattle.schema.specs.Schema.{link_of, unique_of};
ghost use Rattle.rows.specs.Step.{parent_of, parent_at, moves_value, mark_moved, step_from};

use crate::{Change, Row, mark_of};
use schema::{Mark, RowId, Schema};

/// What a change does to its row.
#[derive(Clone, Copy, Debug, PartialEq, Eq)]
pub struct Step {
    /// What the change leaves of the row: its columns, or `None` if it removes the row.
    pub left: Option<Row>,
    /// The parent row that the row names before the change, if the row is there then and has a parent.
    pub old: Option<RowId>,
    /// The parent row that the row names after the change, if the row is there then and has a parent.
    pub new: Option<RowId>,
    /// The value in the unique column that the change may take from its row: the one that the row has before the
    /// change, if the row is there and its table has such a column. `None` for an update that does not name that
    /// column.
    pub gives_up: Option<Mark>,
    /// The value in the unique column that the change may give its row: the one that the row has after the change, by
    /// the same rules.
    pub takes: Option<Mark>,
}

/// The step of a change, from its row before the change and what the change leaves of it. It takes no memory, and the
/// time of a few walks over the tables.
pub fn step_from(schema: &Schema, change: &Change, before: Option<&Row>, left: Option<Row>) -> Step
    ensures { result ≡ step_from schema.now change.now (option_copied before.entry) left }
{
    let table = change.target().table;
    if is_plain(schema, table) {
        return Step {
            left,
            old: None,
            new: None,
            gives_up: None,
            takes: None,
        };
    }
    Step {
        old: parent_at(schema, table, before),
        new: parent_at(schema, table, left.as_ref()),
        gives_up: mark_moved(schema, change, before),
        takes: mark_moved(schema, change, left.as_ref()),
        left,
    }
}

/// Whether the table has neither a parent nor a unique column. Then no step of its rows has kin or marks.
fn is_plain(schema: &Schema, id: u16) -> bool
    ensures parent { IsTrue result → link_of schema.now id ≡ None }
    ensures unique { IsTrue result → unique_of schema.now id ≡ None }
{
    match schema.table(id) {
        Some(table) => table.parent.is_none() && table.unique.is_none(),
        None => true,
    }
}

/// The parent row that a row of the table with these columns names, if the table has a parent and the columns include
/// the one that names it. It takes no memory, and the time of a walk over the tables.
pub fn parent_of(schema: &Schema, table: u16, columns: &[i64]) -> Option<RowId>
    ensures { result ≡ parent_of schema.now table columns.now }
{
    let (column, parent) = schema.link_of(table)?;
    let key = *columns.get(usize::from(column))?;
    Some(RowId { table: parent, key })
}

/// The parent row that a row of the table names, if the row is there and has a parent.
fn parent_at(schema: &Schema, table: u16, columns: Option<&Row>) -> Option<RowId>
    ensures { result ≡ parent_at schema.now table (option_copied columns.entry) }
{
    parent_of(schema, table, columns?.columns())
}

/// The mark of the change's row, if the row is there and has one, and the change may replace or remove it.
fn mark_moved(schema: &Schema, change: &Change, columns: Option<&Row>) -> Option<Mark>
    ensures { result ≡ mark_moved schema.now change.now (option_copied columns.entry) }
{
    if !moves_value(schema, change) {
        return None;
    }
    mark_of(schema, change.target().table, columns?.columns())
}

/// Whether the change may replace or remove its row's value in the unique column.
fn moves_value(schema: &Schema, change: &Change) -> bool
    ensures { result ≡ moves_value schema.now change.now }
{
    match change {
        Change::Insert { .. } | Change::Delete { .. } => true,
        Change::Update { row, columns } => schema
            .unique_of(row.table)
            .is_some_and(|column| columns.names(column)),
    }
}
