//! Whether a schema allows a change, whatever the rows are.

ghost use Rattle.std.specs.Prelude.{◌≡◌, ◌^◌, nat_lt};
ghost use Rattle.rows.specs.Shape.{has_columns as columns_fit, is_shaped as fits};

use crate::Change;
use schema::{Schema, Table};

/// Whether the change's table is in the schema and has the columns that the change gives or names. It takes no memory,
/// and the time of a walk over the tables.
pub fn is_shaped(schema: &Schema, change: &Change) -> bool
    ensures { result ≡ fits schema.now change.now }
{
    match schema.table(change.target().table) {
        Some(table) => has_columns(&table, change),
        None => false,
    }
}

/// Whether the table has the columns that the change gives or names. It takes no memory.
pub fn has_columns(table: &Table, change: &Change) -> bool
    ensures { result ≡ columns_fit table.now change.now }
{
    match change {
        Change::Insert { values, .. } => values.columns().len() == table.columns as usize,
        Change::Update { columns, .. } => is_within(columns.mask(), table.columns),
        Change::Delete { .. } => true,
    }
}

/// Whether the mask names only columns with a number below this one.
fn is_within(mask: u16, columns: u8) -> bool
    ensures { result ≡ nat_lt mask (2 ^ columns) }
{
    columns >= 16 || mask >> columns == 0
}
