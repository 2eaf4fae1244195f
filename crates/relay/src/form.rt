//! Whether a record's flags, refs and marks fit its changes, under its source's tables. None of it takes memory.

ghost use Rattle.std.specs.Prelude.{◌≡◌, ◌%◌, ◌^◌, ◌<◌, pos, count_ones, slice_index_or, if◌then◌else◌, Some, None};
ghost use Rattle.std.specs.List.{list_all};
ghost use Rattle.schema.specs.Flags.{flags_of};
ghost use Rattle.rows.specs.Database.{writes};
ghost use Rattle.rows.specs.Naming.{names_column};
ghost use Rattle.rows.specs.Given.{given_value as value_given, given_parent as parent_given, given_mark as mark_given};
ghost use Rattle.relay.specs.Form.{has_flags as flags_fit, are_parents as all_are_parents, has_ref as refers, are_unique as all_are_unique};
ghost use Rattle.relay.specs.Form.{states_given as states};

use record_codec::{Marks, Record, Refs};
use rows::{Change, Named};
use schema::{Flags, Mark, RowId, Schema};

/// Whether the record's flags are those of the tables that its changes write. The time is that of at most three walks over the
/// tables for each change.
pub(crate) fn has_flags(schema: &Schema, new: &Record) -> bool
    ensures { result ≡ flags_fit schema.now new.now }
{
    new.flags == flags_of(schema, new.changes.list())
}

/// The flags of a record of these changes.
fn flags_of(schema: &Schema, changes: &[Change]) -> Flags
    ensures { result ≡ flags_of schema.now (writes changes.now) }
{
    let mut flags = Flags::none();
    for change in changes {
        flags = flags.with(schema, change.target().table);
    }
    flags
}

/// Whether each of the refs is of a table that is a parent. The time is that of a walk over the tables for each.
pub(crate) fn are_parents(schema: &Schema, refs: &Refs) -> bool
    ensures { result ≡ all_are_parents schema.now refs.now }
{
    refs.list().iter().all(|row| schema.is_parent(row.table))
}

/// Whether each parent row that the changes give their rows is among the refs. The time is that of a walk over the tables
/// for each change, and of a search in the refs.
pub(crate) fn have_refs(schema: &Schema, changes: &[Change], refs: &Refs) -> bool
    ensures { result ≡ list_all (refers schema.now refs.now) changes.now }
{
    changes.iter().all(|change| has_ref(schema, change, refs))
}

fn has_ref(schema: &Schema, change: &Change, refs: &Refs) -> bool
    ensures { result ≡ refers schema.now refs.now change.now }
{
    match given_parent(schema, change) {
        Some(parent) => refs.contains(parent),
        None => true,
    }
}

/// Whether each of the marks is of a table with a unique column. The time is that of a walk over the tables for each.
pub(crate) fn are_unique(schema: &Schema, marks: &Marks) -> bool
    ensures { result ≡ all_are_unique schema.now marks.now }
{
    marks
        .list()
        .iter()
        .all(|mark| schema.unique_of(mark.table()).is_some())
}

/// Whether each mark that the changes give their rows is among these. The time is that of a walk over the tables for each
/// change, and of a search in the marks.
pub(crate) fn have_marks(schema: &Schema, changes: &[Change], marks: &Marks) -> bool
    ensures { result ≡ list_all (states schema.now marks.now) changes.now }
{
    changes
        .iter()
        .all(|change| states_given(schema, change, marks))
}

fn states_given(schema: &Schema, change: &Change, marks: &Marks) -> bool
    ensures { result ≡ states schema.now marks.now change.now }
{
    match given_mark(schema, change) {
        Some(mark) => marks.contains(mark),
        None => true,
    }
}

/// The parent row that the change gives its row, if any.
fn given_parent(schema: &Schema, change: &Change) -> Option<RowId>
    ensures { result ≡ parent_given schema.now change.now }
{
    let (column, table) = schema.link_of(change.target().table)?;
    let key = given_value(change, column)?;
    Some(RowId { table, key })
}

/// The mark that the change gives its row, if any.
fn given_mark(schema: &Schema, change: &Change) -> Option<Mark>
    ensures { result ≡ mark_given schema.now change.now }
{
    let table = change.target().table;
    let column = schema.unique_of(table)?;
    let value = given_value(change, column)?;
    Some(Mark::new(table, value))
}

/// The value that the change gives this column of its row, if any.
fn given_value(change: &Change, column: u8) -> Option<i64>
    ensures { result ≡ value_given change.now column }
{
    match change {
        Change::Insert { values, .. } => values.columns().get(column as usize).copied(),
        Change::Update { columns, .. } => named_value(columns, column),
        Change::Delete { .. } => None,
    }
}

/// The value of this column, if it is named.
fn named_value(columns: &Named, column: u8) -> Option<i64>
    ensures { result ≡ (if names_column columns.now.mask column
        then Some (slice_index_or columns.now.values (count_ones (columns.now.mask % 2 ^ column)) (pos 0)) else None) }
{
    let bits = columns.mask();
    if column >= 16 {
        return None;
    }
    if columns.names(column) {
        Some(value_behind(bits, columns.values(), column))
    } else {
        None
    }
}

/// The value of this column: it comes after those of the mask's columns below this one.
fn value_behind(mask: u16, values: &[i64], column: u8) -> i64
    requires { column < 16 }
    ensures { result ≡ slice_index_or values.now (count_ones (mask % 2 ^ column)) (pos 0) }
{
    let lower = mask % power_of(column);
    values
        .get(lower.count_ones() as usize)
        .copied()
        .unwrap_or(0)
}

/// The bit of the column in a mask.
fn power_of(column: u8) -> u16
    requires { column < 16 }
    ensures { result ≡ 2 ^ column }
{
    1 << column
}
