//! Child rows and their parents: what the refs of a record make of its job, and what a relay returns for flags and refs.

use crate::tests::makers::{PLAIN, RELATED};
use crate::tests::steps::{Came, came_of, executed};
use executor::{Holders, Job};
use record_codec::{Flags, Record, Refs};
use relay::{Received, Relay, ReplicaFault};
use rows::{Change, Row};
use schema::{Memory, RowId, Schema, Table};
use std::alloc::Global;
use std::process::Abort;
use store_trait::Batch;
use tests_log::common::{record, source};
use tests_stores::common::{insert, row, update};
use uuid::Uuid;

/// What a record does. Rows 1 and 2 of table 3 are there, and row 9 of its child table 4, a child of row 1.
#[derive(Clone, Copy, Debug)]
enum Does {
    /// It inserts a row of table 1, which is neither a parent nor has one.
    Inserts,
    /// It inserts a row of the keyless table 2.
    InsertsKeyless,
    /// It inserts a row of table 3.
    InsertsParent,
    /// It inserts a child of this row of table 3.
    InsertsChild(i64),
    /// It moves the child row to this row of table 3.
    Moves(i64),
    /// It sets another column of the child row.
    Sets,
    /// It deletes the child row.
    DeletesChild,
    /// It deletes row 2 of table 3.
    DeletesParent,
}

/// The refs of a record: rows of table 3, or a row of table 1.
#[derive(Clone, Copy, Debug)]
enum Names {
    Nothing,
    First,
    Second,
    Both,
    Three,
    Other,
}

/// Table 1 by itself, the keyless table 2, and table 3 with its child table 4, whose column 0 names the parent.
fn tables(alloc: Global) -> Result<Schema, Memory> {
    let list = vec![in alloc;
        Table::new(1, 2, true),
        Table::new(2, 2, false),
        Table::new(3, 2, true),
        Table::new(4, 2, true).child_of(0, 3),
    ]?;
    Schema::new(list).map_err(|_| Memory)
}

fn row_of(first: i64, second: i64) -> Result<Row, Memory> {
    Row::new(&[first, second]).ok_or(Memory)
}

fn change_of(does: Does) -> Result<Change, Memory> {
    match does {
        Does::Inserts => insert(row(1, 10), &[5, 7]),
        Does::InsertsKeyless => insert(row(2, 10), &[5, 7]),
        Does::InsertsParent => insert(row(3, 5), &[5, 7]),
        Does::InsertsChild(parent) => insert(row(4, 8), &[parent, 7]),
        Does::Moves(parent) => update(row(4, 9), 0, parent),
        Does::Sets => update(row(4, 9), 1, 6),
        Does::DeletesChild => Ok(Change::Delete { row: row(4, 9) }),
        Does::DeletesParent => Ok(Change::Delete { row: row(3, 2) }),
    }
}

fn refs_of(alloc: Global, names: Names) -> Result<Refs, Memory> {
    let rows = match names {
        Names::Nothing => return Ok(Refs::none(alloc)),
        Names::First => vec![in alloc; row(3, 1)]?,
        Names::Second => vec![in alloc; row(3, 2)]?,
        Names::Both => return both(alloc),
        Names::Three => return three(alloc),
        Names::Other => vec![in alloc; row(1, 10)]?,
    };
    Ok(Refs::from_rising(rows))
}

fn both(alloc: Global) -> Result<Refs, Memory> {
    let rows = vec![in alloc; RowId { table: 3, key: 1 }, RowId { table: 3, key: 2 }]?;
    Ok(Refs::from_rising(rows))
}

fn three(alloc: Global) -> Result<Refs, Memory> {
    let rows = vec![in alloc;
        RowId { table: 3, key: 1 },
        RowId { table: 3, key: 2 },
        RowId { table: 3, key: 4 },
    ]?;
    Ok(Refs::from_rising(rows))
}

/// Record 1, which does this, with these flags and refs.
fn record_of(alloc: Global, does: Does, flags: Flags, names: Names) -> Result<Record, Memory> {
    let plain = record(alloc, 1, 0, change_of(does)?)?;
    let refs = refs_of(alloc, names)?;
    Ok(Record {
        flags,
        refs,
        ..plain
    })
}

/// The rows of a job that looks at these rows of table 3.
fn parents_there(alloc: Global, names: Names) -> Result<Vec<(RowId, Option<Row>)>, Memory> {
    let first = (row(3, 1), Some(row_of(0, 0)?));
    let second = (row(3, 2), Some(row_of(0, 0)?));
    match names {
        Names::Nothing | Names::Other => Ok(Vec::new(alloc)),
        Names::First => Ok(vec![in alloc; first]?),
        Names::Second => Ok(vec![in alloc; second]?),
        Names::Both => Ok(vec![in alloc; first, second]?),
        Names::Three => Ok(vec![in alloc; first, second, (row(3, 4), None)]?),
    }
}

/// The rows that the record writes and refers to, as they are before it.
fn input_of(alloc: Global, does: Does, names: Names) -> Result<Batch, Memory> {
    let mut rows = parents_there(alloc, names)?;
    match does {
        Does::InsertsChild(_) => rows.push((row(4, 8), None))?,
        Does::DeletesParent => rows.push((row(3, 2), Some(row_of(0, 0)?)))?,
        _ => rows.push((row(4, 9), Some(row_of(1, 5)?)))?,
    }
    rows.sort_unstable_by_key(|entry| entry.0);
    rows.dedup_by_key(|entry| entry.0);
    Batch::from_entries(rows).ok_or(Memory)
}

fn job_of(alloc: Global, does: Does, names: Names) -> Result<Job, Memory> {
    let rec = record_of(alloc, does, RELATED, names)?;
    let input = input_of(alloc, does, names)?;
    Ok(Job::new(1, rec, input, Holders::none(alloc), tables(alloc)?))
}

/// What comes of each job with the right refs, with one too few, and with one too many. If the row of a new parent is
/// not among the refs, the job has no copy of it, and the change does not apply.
fn outcomes() -> [(Does, Names, Came); 17] {
    [
        (Does::InsertsChild(1), Names::First, Came::Output),
        (Does::InsertsChild(1), Names::Nothing, Came::Undefined),
        (Does::InsertsChild(1), Names::Both, Came::WrongRefs),
        (Does::InsertsChild(4), Names::Three, Came::Undefined),
        (Does::Moves(2), Names::Both, Came::Output),
        (Does::Moves(2), Names::Second, Came::WrongRefs),
        (Does::Moves(2), Names::First, Came::Undefined),
        (Does::Moves(2), Names::Three, Came::WrongRefs),
        (Does::Moves(1), Names::First, Came::Output),
        (Does::Sets, Names::First, Came::Output),
        (Does::Sets, Names::Nothing, Came::WrongRefs),
        (Does::Sets, Names::Both, Came::WrongRefs),
        (Does::DeletesChild, Names::First, Came::Output),
        (Does::DeletesChild, Names::Nothing, Came::WrongRefs),
        (Does::DeletesChild, Names::Second, Came::WrongRefs),
        (Does::DeletesParent, Names::Nothing, Came::Output),
        (Does::DeletesParent, Names::First, Came::WrongRefs),
    ]
}

/// Catches a definition that leaves parent rows out of the kin, or counts them twice.
#[test]
fn refs_are_exactly_the_parents(rt: HostRuntime) -> Result<(), Memory> {
    for (does, names, want) in outcomes() {
        let done = executed(rt.alloc(), job_of(rt.alloc(), does, names)?);
        assert_eq!(rt; came_of(&done), want, "{does:?} {names:?}");
    }
    Ok(())
}

const KEYLESS: Flags = Flags {
    fk: false,
    missing_keys: true,
};

/// Whether a relay accepts each of these as its first record.
fn forms() -> [(Does, Flags, Names, bool); 19] {
    [
        (Does::Inserts, PLAIN, Names::Nothing, true),
        (Does::Inserts, KEYLESS, Names::Nothing, false),
        (Does::InsertsKeyless, KEYLESS, Names::Nothing, true),
        (Does::InsertsKeyless, PLAIN, Names::Nothing, false),
        (Does::InsertsParent, RELATED, Names::Nothing, true),
        (Does::InsertsParent, PLAIN, Names::Nothing, false),
        (Does::InsertsChild(1), RELATED, Names::First, true),
        (Does::InsertsChild(1), PLAIN, Names::First, false),
        (Does::InsertsChild(1), RELATED, Names::Second, false),
        (Does::InsertsChild(1), RELATED, Names::Three, true),
        // A ref is to a table that is a parent, whatever the changes are.
        (Does::InsertsChild(1), RELATED, Names::Other, false),
        (Does::Inserts, PLAIN, Names::Other, false),
        (Does::Inserts, PLAIN, Names::First, true),
        // If an update names the parent column, the new parent is known, and the old one is not.
        (Does::Moves(2), RELATED, Names::Second, true),
        (Does::Moves(2), RELATED, Names::First, false),
        (Does::Moves(2), RELATED, Names::Nothing, false),
        // If a change gives its row no parent, none is known without the rows.
        (Does::Sets, RELATED, Names::Nothing, true),
        (Does::DeletesChild, RELATED, Names::Nothing, true),
        (Does::DeletesParent, RELATED, Names::Nothing, true),
    ]
}

/// What a new relay of these tables returns for the record.
fn answer_to(
    alloc: Global,
    from: Uuid,
    new: &Record,
) -> Result<Result<Received, ReplicaFault>, Memory> {
    let mut relay = Relay::new(alloc, tables(alloc)?, from);
    Ok(relay.receive(from, new))
}

fn is_answered(
    rt: &(impl Abort + AllocGlobal),
    does: Does,
    flags: Flags,
    names: Names,
    accepted: bool,
) -> Result<(), Memory> {
    let new = record_of(rt.alloc(), does, flags, names)?;
    let want = if accepted {
        Ok(Received::Accepted)
    } else {
        Err(ReplicaFault::Malformed)
    };
    assert_eq!(rt;
        answer_to(rt.alloc(), source(), &new)?,
        want,
        "{does:?} {names:?}"
    );
    Ok(())
}

/// Catches a definition that takes flags or refs that no source writes, or refuses those that it writes.
#[test]
fn flags_and_refs_are_judged_by_the_tables(rt: HostRuntime) -> Result<(), Memory> {
    for (does, flags, names, accepted) in forms() {
        is_answered(&rt, does, flags, names, accepted)?;
    }
    Ok(())
}
