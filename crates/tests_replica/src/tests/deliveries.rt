//! What a relay returns for records that are delivered, and the text of each fault.

use crate::tests::makers::{family, id, insert, referring};
use record_codec::Record;
use relay::{Received, Relay, ReplicaFault};
use rows::Change;
use schema::Memory;
use std::alloc::Global;
use std::process::Abort;
use std::test::Fail;
use tests_log::common::{marks_of, record, source};
use tests_stores::common;

type Answer = Result<Received, ReplicaFault>;

/// What a record does.
#[derive(Clone, Copy)]
enum Does {
    /// It inserts this row of table 1.
    Inserts(i64),
    /// It inserts this row of table 1, and refers to row 10.
    Refers(i64),
    /// It updates row 10 in this column.
    Updates(u8),
    /// It inserts a row of three columns into this table.
    Widens(u16),
    /// It inserts this row of table 1, and states this value of table 2.
    States(i64, i64),
}

/// Records that are delivered in this order, by number, parent and what they do, with the relay's result for each.
fn worked() -> [(u64, u64, Does, Answer); 27] {
    let accepted = Ok(Received::Accepted);
    let skipped = Ok(Received::Skipped);
    let malformed = Err(ReplicaFault::Malformed);
    let gap = Err(ReplicaFault::Gap);
    let uncovered = Err(ReplicaFault::BadParent);
    [
        (0, 0, Does::Inserts(10), malformed),
        (1, 0, Does::Inserts(10), accepted),
        (1, 0, Does::Inserts(10), skipped),
        // An update waits for the insert of its row.
        (2, 0, Does::Updates(1), uncovered),
        (2, 1, Does::Updates(1), accepted),
        (3, 0, Does::Inserts(11), accepted),
        // All records past the parent are looked at, not only the next. Those that do not conflict do not matter.
        (4, 1, Does::Updates(0), uncovered),
        (4, 2, Does::Updates(0), accepted),
        // A ref to a row that was written waits for that write. Two refs to one row do not wait for each other.
        (5, 3, Does::Refers(12), uncovered),
        (5, 4, Does::Refers(12), accepted),
        (6, 4, Does::Refers(13), accepted),
        // A write of a row that was referred to waits for that ref.
        (7, 5, Does::Updates(0), uncovered),
        (7, 6, Does::Updates(0), accepted),
        // A mark waits for the last record that states it, and for no other.
        (8, 0, Does::States(14, 5), accepted),
        (9, 7, Does::States(15, 5), uncovered),
        (9, 8, Does::States(15, 5), accepted),
        (10, 0, Does::States(16, 6), accepted),
        (11, 8, Does::States(17, 5), uncovered),
        (11, 9, Does::States(17, 5), accepted),
        // What no source writes is refused before a repeat is skipped, and a repeat is skipped before its parent is looked at.
        (1, 1, Does::Inserts(10), malformed),
        (1, 0, Does::Widens(1), malformed),
        (1, 0, Does::Widens(3), malformed),
        (1, 0, Does::Updates(2), malformed),
        (2, 0, Does::Updates(1), skipped),
        (13, 8, Does::Inserts(18), gap),
        (1 << 63, 0, Does::Inserts(18), malformed),
        ((1 << 63) - 1, 0, Does::Inserts(18), gap),
    ]
}

fn change_of(does: Does) -> Result<Change, Memory> {
    match does {
        Does::Inserts(key) => insert(key),
        Does::Refers(key) => insert(key),
        Does::States(key, _) => insert(key),
        Does::Updates(column) => common::update(id(10), column, 8),
        Does::Widens(table) => common::insert(common::row(table, 10), &[7; 3]),
    }
}

fn delivered(alloc: Global, gno: u64, parent: u64, does: Does) -> Result<Record, Memory> {
    let mut new = record(alloc, gno, parent, change_of(does)?)?;
    new.flags.fk = true;
    match does {
        Does::Refers(_) => referring(alloc, new),
        Does::States(_, value) => {
            let marks = marks_of(alloc, &[(2, value)])?;
            Ok(Record { marks, ..new })
        }
        _ => Ok(new),
    }
}

/// The record is received, with this result.
fn receives(rt: &impl Abort, relay: &mut Relay, new: &Record, want: Answer) {
    assert_eq!(rt; relay.receive(source(), new), want, "at {}", new.gno);
}

fn receives_all(rt: &(impl Abort + AllocGlobal), relay: &mut Relay) -> Result<(), Memory> {
    for (gno, parent, does, want) in worked() {
        let new = delivered(rt.alloc(), gno, parent, does)?;
        receives(rt, relay, &new, want);
    }
    Ok(())
}

/// Catches a definition with another order of refusals, or one that compares a parent with the wrong records.
#[test]
fn worked_deliveries_are_answered(rt: HostRuntime) -> Result<(), Memory> {
    let mut relay = Relay::new(rt.alloc(), family(rt.alloc())?, source());
    receives_all(&rt, &mut relay)?;
    assert_eq!(rt; relay.count(), 11);
    Ok(())
}

/// Catches two faults with one text, or a text that scripts and operators do not know.
#[test]
fn faults_have_their_texts(rt: HostRuntime) -> Result<(), Fail> {
    let texts = [
        (ReplicaFault::Gap, "P1 Gap"),
        (ReplicaFault::ForeignSource, "P2 ForeignSource"),
        (ReplicaFault::Malformed, "P3 Malformed"),
        (ReplicaFault::BadParent, "P4 BadParent"),
        (ReplicaFault::Stopped(7), "P5 Stopped 7"),
        (ReplicaFault::Stranger, "P6 Stranger"),
        (ReplicaFault::Double, "P7 Double"),
        (ReplicaFault::WrongInput, "P8 WrongInput"),
        (ReplicaFault::Memory, "P9 Memory"),
    ];
    for (fault, text) in texts {
        assert_eq!(rt; format!(in rt.alloc(); "{fault}")?.as_str(), text);
    }
    Ok(())
}
