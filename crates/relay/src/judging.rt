//! How a received record is judged by its source's tables.

ghost use Rattle.std.specs.Prelude.{◌≡◌};
ghost use Rattle.std.specs.List.{list_all};
ghost use Rattle.rows.specs.Shape.{is_shaped as fits};
ghost use Rattle.relay.specs.Relay.{is_malformed as malformed, is_formed as formed};

use crate::form::{are_parents, are_unique, has_flags, have_marks, have_refs};
use record_codec::Record;
use rows::{Change, is_shaped};
use schema::Schema;

/// Numbers of records are below this.
const BOUND: u64 = 1 << 63;

/// Whether no source of these tables writes the record.
pub(crate) fn is_malformed(schema: &Schema, new: &Record) -> bool
    ensures { result ≡ malformed schema.now new.now }
{
    !(new.gno >= 1 && new.gno < BOUND)
        || new.sequence != new.gno
        || new.parent >= new.sequence
        || !is_formed(schema, new)
}

/// Whether the tables allow the record's changes, flags, refs and marks, whatever the rows are.
fn is_formed(schema: &Schema, new: &Record) -> bool
    ensures { result ≡ formed schema.now new.now }
{
    are_shaped(schema, new.changes.list())
        && has_flags(schema, new)
        && are_parents(schema, &new.refs)
        && have_refs(schema, new.changes.list(), &new.refs)
        && are_unique(schema, &new.marks)
        && have_marks(schema, new.changes.list(), &new.marks)
}

fn are_shaped(schema: &Schema, changes: &[Change]) -> bool
    ensures { result ≡ list_all (fits schema.now) changes.now }
{
    changes.iter().all(|change| is_shaped(schema, change))
}
