//! What happens to values of unique columns, step by step, and the reply to each event.

ghost use Rattle.std.specs.Prelude.{IfOk};
ghost use Rattle.world.specs.Seen.{seen};
ghost use Rattle.world.specs.State.{IsWorld};

use crate::tests::again::answer_all;
use crate::tests::makers::{
    CHILD, InOne, OTHER_PARENT, PARENT, SIBLING, delete, insert, insert_of, row, see, set, set_of,
    world_of_values, write,
};
use crate::tests::steps::Step::{self, Applies, Commits, Takes, Told};
use log_file::LogFault;
use rows::{Change, Row};
use std::alloc::Global;
use std::test::Fail;
use tests_stores::again;
use vector_store::VectorStore;
use world::Event;
use writeset_trackers::WriteSetTracker;

/// Like `world_again`, but with unique columns.
fn world_of_values_again(alloc: Global) -> Result<InOne<VectorStore, WriteSetTracker>, LogFault>
    ensures { IfOk result (λ world. IsWorld (λ rows. rows) (seen world)) }
{
    again!(world_of_values(alloc))
}

/// Catches what is left half done if rows give up and take values of unique columns, and if children move.
#[test]
fn events_of_values_are_sent_again(rt: HostRuntime) -> Result<(), Fail> {
    let world = world_of_values_again(rt.alloc())?;
    answer_all(
        &rt,
        world,
        &values_at_the_source(),
        &values_at_the_replica(),
    )
}

/// At a source that goes by written rows, over a row with the value 5 and two parents, one of them with a child with
/// the value 7:
/// - A value that a transaction gives up is locked until that is committed. Then another row takes it. The parent of
///   this record is that transaction, which is not the last one.
/// - A value that another row has is refused. Two rows swap theirs by way of a third value.
/// - A child moves to the other parent and takes another value. Meanwhile its parents are locked. Then the one that it
///   left is deleted, and the one that it has is not.
fn values_at_the_source() -> [Step; 37] {
    [
        Told(Event::Begin { session: 1 }, "Done"),
        Told(Event::Begin { session: 2 }, "Done"),
        Told(write(1, delete(row(10))), "Done"),
        Told(write(2, takes(11, 5)), "Source(RowLocked)"),
        Told(Event::Prepare { session: 1 }, "Prepared { parent: 0 }"),
        Told(Event::Queue { session: 1 }, "Done"),
        Told(Event::Flush, "from 1 [(1, 0)]"),
        Told(write(2, takes(11, 5)), "Source(RowLocked)"),
        Told(Event::Sync, "Synced { first: 1, last: 1 }"),
        Told(Event::Commit, "Committed { first: 1, last: 1 }"),
        Told(Event::Log, LOG_OF_ONE_DELETE),
        Told(Event::Begin { session: 1 }, "Done"),
        Told(write(1, takes(12, 6)), "Done"),
        Commits((1, 1), 1, (2, 0)),
        Told(write(2, takes(11, 5)), "Done"),
        Commits((2, 2), 2, (3, 1)),
        Told(Event::Begin { session: 1 }, "Done"),
        Told(write(1, takes(13, 6)), "Source(Duplicate)"),
        Told(write(1, set(11, 6)), "Source(Duplicate)"),
        Told(write(1, set(11, 9)), "Done"),
        Told(write(1, set(12, 5)), "Done"),
        Told(write(1, set(11, 6)), "Done"),
        Told(see(1, row(11)), "row [6]"),
        Commits((1, 1), 3, (4, 3)),
        Told(Event::Begin { session: 1 }, "Done"),
        Told(Event::Begin { session: 2 }, "Done"),
        Told(write(2, set_of(CHILD, 0, 2)), "Done"),
        Told(write(2, set_of(CHILD, 1, 8)), "Done"),
        Told(write(1, delete(PARENT)), "Source(RowLocked)"),
        Told(write(1, delete(OTHER_PARENT)), "Source(RowLocked)"),
        Told(write(1, insert_of(SIBLING, 1, 7)), "Source(RowLocked)"),
        Commits((2, 2), 4, (5, 4)),
        Told(write(1, delete(OTHER_PARENT)), "Source(HasChild)"),
        Told(write(1, delete(PARENT)), "Done"),
        Told(write(1, insert_of(SIBLING, 2, 8)), "Source(Duplicate)"),
        Told(write(1, insert_of(SIBLING, 2, 7)), "Done"),
        Commits((1, 1), 5, (6, 5)),
    ]
}

/// The log of its first record, with its mark after the count of its refs.
const LOG_OF_ONE_DELETE: &str = "\
    4d54524c4f473033\
    01010101010101010101010101010101\
    0000000000000001\
    0100000038\
    00000034000000000000000100000000000000010000000000000000\
    000000\
    000100010000000000000005\
    0001030001000000000000000a\
    00";

/// The same records at a replica of two workers. The third, which takes the value that the first gave up, waits for the first.
fn values_at_the_replica() -> [Step; 26] {
    [
        Takes(1, 3),
        Told(Event::Dispatch, "Job { gno: 1 }"),
        Told(Event::Dispatch, "Job { gno: 2 }"),
        Told(Event::Finish { gno: 2 }, "Finished { gno: 2 }"),
        Told(Event::Next, "Nothing"),
        Told(Event::Dispatch, "Nothing"),
        Told(Event::Finish { gno: 1 }, "Finished { gno: 1 }"),
        Told(Event::Next, "Commit { gno: 1 }"),
        Told(Event::Dispatch, "Job { gno: 3 }"),
        Told(Event::Next, "Commit { gno: 2 }"),
        Told(Event::Finish { gno: 3 }, "Finished { gno: 3 }"),
        Told(Event::Next, "Commit { gno: 3 }"),
        Told(Event::Publish, "Published { upto: 3 }"),
        Told(Event::Read { row: row(11) }, "3: [5]"),
        Takes(4, 6),
        Told(Event::Dispatch, "Job { gno: 4 }"),
        Told(Event::Dispatch, "Nothing"),
        Told(Event::Finish { gno: 4 }, "Finished { gno: 4 }"),
        Told(Event::Next, "Commit { gno: 4 }"),
        Applies(5),
        Applies(6),
        Told(Event::Publish, "Published { upto: 6 }"),
        Told(Event::Read { row: row(11) }, "6: [6]"),
        Told(Event::Read { row: row(12) }, "6: [5]"),
        Told(Event::Read { row: CHILD }, "6: [2, 8]"),
        Told(Event::Read { row: SIBLING }, "6: [2, 7]"),
    ]
}

/// The insert of a row of table 1 with only this value.
fn takes(key: i64, value: i64) -> Change {
    Change::Insert {
        row: row(key),
        values: Row::new(&[value]).unwrap(),
    }
}
