//! What happens in a world, step by step, and the reply to each event, also if it is sent again because memory ran out.

ghost use Rattle.std.specs.Prelude.{IfOk};
ghost use Rattle.world.specs.Seen.{seen};
ghost use Rattle.world.specs.State.{IsWorld};

use crate::tests::again::answer_all;
use crate::tests::makers::{
    CHILD, InOne, KEYLESS, PARENT, SIBLING, delete, insert, insert_of, row, see, set,
    unordered_world, world, world_of_kin, write,
};
use crate::tests::steps::Step::{self, Applies, Commits, Takes, Told};
use btree_store::BTreeStore;
use commit_order_tracker::CommitOrder;
use log_file::LogFault;
use std::alloc::Global;
use std::test::Fail;
use tests_stores::again;
use vector_store::VectorStore;
use world::Event;
use writeset_trackers::WriteSetTracker;

/// A new world, made once more if memory runs out.
fn world_again(alloc: Global) -> Result<InOne<BTreeStore, CommitOrder>, LogFault>
    ensures { IfOk result (λ world. IsWorld (λ rows. rows) (seen world)) }
{
    again!(world(alloc))
}

/// Like `world_again`, but the replica commits in the order in which jobs finish.
fn unordered_world_again(alloc: Global) -> Result<InOne<BTreeStore, CommitOrder>, LogFault>
    ensures { IfOk result (λ world. IsWorld (λ rows. rows) (seen world)) }
{
    again!(unordered_world(alloc))
}

/// Like `world_again`, but with kin.
fn world_of_kin_again(alloc: Global) -> Result<InOne<VectorStore, WriteSetTracker>, LogFault>
    ensures { IfOk result (λ world. IsWorld (λ rows. rows) (seen world)) }
{
    again!(world_of_kin(alloc))
}

/// Catches what is left half done, in transactions that are one group and at a replica that publishes two commits at once.
#[test]
fn events_are_sent_again(rt: HostRuntime) -> Result<(), Fail> {
    let world = world_again(rt.alloc())?;
    answer_all(&rt, world, &two_at_the_source(), &two_at_the_replica())
}

/// Two sessions whose transactions are one group, one transaction that is aborted, and one that deletes a row.
fn two_at_the_source() -> [Step; 14] {
    [
        Told(Event::Begin { session: 1 }, "Done"),
        Told(Event::Begin { session: 2 }, "Done"),
        Told(write(1, insert(10, 5, 6)), "Done"),
        Told(write(1, set(10, 7)), "Done"),
        Told(write(2, insert(20, 8, 9)), "Done"),
        Told(see(1, row(10)), "row [7, 6]"),
        Commits((1, 2), 0, (1, 0)),
        Told(Event::Begin { session: 1 }, "Done"),
        Told(write(1, insert(30, 8, 9)), "Done"),
        Told(Event::Abort { session: 1 }, "Done"),
        Told(Event::Begin { session: 2 }, "Done"),
        Told(write(2, delete(row(10))), "Done"),
        Commits((2, 2), 2, (3, 2)),
        Told(Event::Log, LOG_OF_TWO_SESSIONS),
    ]
}

/// The log of three records in two groups: magic, source, first gno, gate and length of the first group; for each
/// record its length and numbers, then flags and counts, then its changes; the second group; and the last gate.
const LOG_OF_TWO_SESSIONS: &str = "\
    4d54524c4f473033\
    01010101010101010101010101010101\
    0000000000000001\
    0100000093\
    00000050000000000000000100000000000000010000000000000000\
    00000000000002\
    010001000000000000000a0200000000000000050000000000000006\
    020001000000000000000a00010000000000000007\
    0000003b000000000000000200000000000000020000000000000000\
    00000000000001\
    01000100000000000000140200000000000000080000000000000009\
    010000002e\
    0000002a000000000000000300000000000000030000000000000002\
    00000000000001\
    030001000000000000000a\
    00";

/// Their records at a replica of two workers. The last one comes too early once, and two are published at once. The
/// replica reports its ids while it has none, and after its commits.
fn two_at_the_replica() -> [Step; 15] {
    [
        Told(Event::Executed, "executed []"),
        Told(Event::Deliver { gno: 3 }, "Replica(Gap)"),
        Takes(1, 2),
        Told(Event::Dispatch, "Job { gno: 1 }"),
        Told(Event::Dispatch, "Job { gno: 2 }"),
        Told(Event::Finish { gno: 2 }, "Finished { gno: 2 }"),
        Told(Event::Finish { gno: 1 }, "Finished { gno: 1 }"),
        Told(Event::Next, "Commit { gno: 1 }"),
        Told(Event::Next, "Commit { gno: 2 }"),
        Told(
            Event::Executed,
            "executed [01010101-0101-0101-0101-010101010101:1-2]",
        ),
        Told(Event::Publish, "Published { upto: 2 }"),
        Told(Event::Deliver { gno: 3 }, "Accepted"),
        Told(Event::Dispatch, "Job { gno: 3 }"),
        Told(Event::Finish { gno: 3 }, "Finished { gno: 3 }"),
        Told(Event::Read { row: row(10) }, "2: [7, 6]"),
    ]
}

/// Catches what is left half done if commits are not in log order, and commits past a gap that are not shown, or are
/// counted as if there were no gap.
#[test]
fn events_out_of_order_are_sent_again(rt: HostRuntime) -> Result<(), Fail> {
    let world = unordered_world_again(rt.alloc())?;
    answer_all(&rt, world, &three_at_the_source(), &three_behind_a_gap())
}

/// Three sessions whose transactions are one group, so that none has a parent.
fn three_at_the_source() -> [Step; 7] {
    [
        Told(Event::Begin { session: 1 }, "Done"),
        Told(Event::Begin { session: 2 }, "Done"),
        Told(Event::Begin { session: 3 }, "Done"),
        Told(write(1, insert(10, 5, 6)), "Done"),
        Told(write(2, insert(20, 7, 8)), "Done"),
        Told(write(3, insert(30, 9, 0)), "Done"),
        Commits((1, 3), 0, (1, 0)),
    ]
}

/// Their records at a replica of two workers that commits in the order in which jobs finish. The second and then the
/// third are published while the first is under way.
fn three_behind_a_gap() -> [Step; 22] {
    [
        Takes(1, 3),
        Told(Event::Dispatch, "Job { gno: 1 }"),
        Told(Event::Dispatch, "Job { gno: 2 }"),
        Told(Event::Dispatch, "Nothing"),
        Told(Event::Finish { gno: 2 }, "Finished { gno: 2 }"),
        Told(Event::Next, "Commit { gno: 2 }"),
        Told(Event::Dispatch, "Job { gno: 3 }"),
        Told(Event::Publish, "Published { upto: 1 }"),
        Told(Event::Read { row: row(20) }, "0+1: [7, 8]"),
        Told(
            Event::Read { row: row(10) },
            "Read { upto: 0, more: 1, row: None }",
        ),
        Told(Event::Finish { gno: 3 }, "Finished { gno: 3 }"),
        Told(Event::Next, "Commit { gno: 3 }"),
        Told(Event::Next, "Nothing"),
        Told(
            Event::Executed,
            "executed [01010101-0101-0101-0101-010101010101:2-3]",
        ),
        Told(Event::Publish, "Published { upto: 2 }"),
        Told(Event::Read { row: row(30) }, "0+2: [9, 0]"),
        Told(Event::Finish { gno: 1 }, "Finished { gno: 1 }"),
        Told(Event::Next, "Commit { gno: 1 }"),
        Told(
            Event::Read { row: row(10) },
            "Read { upto: 0, more: 2, row: None }",
        ),
        Told(Event::Publish, "Published { upto: 3 }"),
        Told(Event::Read { row: row(10) }, "3: [5, 6]"),
        Told(
            Event::Executed,
            "executed [01010101-0101-0101-0101-010101010101:1-3]",
        ),
    ]
}

/// Catches what is left half done if rows have parents or no keys, and a transaction that the history of written rows
/// notes twice.
#[test]
fn events_of_kin_are_sent_again(rt: HostRuntime) -> Result<(), Fail> {
    let world = world_of_kin_again(rt.alloc())?;
    answer_all(&rt, world, &kin_at_the_source(), &kin_at_the_replica())
}

/// At a source that goes by written rows, over a parent with its child:
/// - Two transactions share no row, so the second's parent is not the first.
/// - A parent is locked for its new child until the child's session aborts. It can be deleted once its child is. Each
///   transaction on kin depends on all before it, and so does the one after it.
/// - A row without a key has the order parent. The other row of its group has the last record on kin as its parent.
/// - A transaction of five changes, which takes more room than the first, sets rows again. Its parent is the last one
///   that wrote them since the kin, which is not the last transaction.
fn kin_at_the_source() -> [Step; 37] {
    [
        Told(Event::Begin { session: 1 }, "Done"),
        Told(write(1, insert(10, 5, 6)), "Done"),
        Commits((1, 1), 0, (1, 0)),
        Told(Event::Log, LOG_OF_ONE_INSERT),
        Told(Event::Begin { session: 2 }, "Done"),
        Told(write(2, insert(11, 7, 8)), "Done"),
        Commits((2, 2), 1, (2, 0)),
        Told(Event::Begin { session: 2 }, "Done"),
        Told(write(2, insert_of(SIBLING, 1, 0)), "Done"),
        Told(Event::Begin { session: 1 }, "Done"),
        Told(write(1, delete(PARENT)), "Source(RowLocked)"),
        Told(Event::Abort { session: 2 }, "Done"),
        Told(write(1, delete(PARENT)), "Source(HasChild)"),
        Told(write(1, delete(CHILD)), "Done"),
        Told(write(1, delete(PARENT)), "Done"),
        Told(see(1, PARENT), "Seen { row: None }"),
        Told(see(2, PARENT), "row [0, 0]"),
        Commits((1, 1), 2, (3, 2)),
        Told(Event::Begin { session: 1 }, "Done"),
        Told(write(1, insert_of(PARENT, 0, 0)), "Done"),
        Commits((1, 1), 3, (4, 3)),
        Told(Event::Begin { session: 2 }, "Done"),
        Told(write(2, insert_of(CHILD, 1, 0)), "Done"),
        Commits((2, 2), 4, (5, 4)),
        Told(Event::Begin { session: 1 }, "Done"),
        Told(Event::Begin { session: 2 }, "Done"),
        Told(write(1, insert(12, 5, 6)), "Done"),
        Told(write(2, insert_of(KEYLESS, 1, 1)), "Done"),
        Commits((1, 2), 5, (6, 5)),
        Told(Event::Begin { session: 1 }, "Done"),
        Told(write(1, set(10, 1)), "Done"),
        Told(write(1, set(11, 2)), "Done"),
        Told(write(1, set(12, 3)), "Done"),
        Told(write(1, insert(13, 4, 4)), "Done"),
        Told(write(1, insert(14, 5, 5)), "Done"),
        Told(see(1, row(10)), "row [1, 6]"),
        Commits((1, 1), 7, (8, 6)),
    ]
}

/// The log of its first record.
const LOG_OF_ONE_INSERT: &str = "\
    4d54524c4f473033\
    01010101010101010101010101010101\
    0000000000000001\
    010000003f\
    0000003b000000000000000100000000000000010000000000000000\
    00000000000001\
    010001000000000000000a0200000000000000050000000000000006\
    00";

/// The same records at a replica of one worker, which takes one job, and the next once that is committed.
fn kin_at_the_replica() -> [Step; 26] {
    [
        Told(Event::Executed, "executed []"),
        Told(Event::Deliver { gno: 3 }, "Replica(Gap)"),
        Takes(1, 2),
        Told(Event::Deliver { gno: 1 }, "Skipped"),
        Told(Event::Dispatch, "Job { gno: 1 }"),
        Told(Event::Dispatch, "Nothing"),
        Told(Event::Finish { gno: 1 }, "Finished { gno: 1 }"),
        Told(Event::Dispatch, "Nothing"),
        Told(Event::Next, "Commit { gno: 1 }"),
        Applies(2),
        Told(Event::Publish, "Published { upto: 2 }"),
        Told(Event::Read { row: row(11) }, "2: [7, 8]"),
        Takes(3, 8),
        Applies(3),
        Applies(4),
        Applies(5),
        Applies(6),
        Applies(7),
        Told(Event::Publish, "Published { upto: 7 }"),
        Told(Event::Read { row: PARENT }, "7: [0, 0]"),
        Told(Event::Read { row: CHILD }, "7: [1, 0]"),
        Told(Event::Read { row: KEYLESS }, "7: [1, 1]"),
        Applies(8),
        Told(Event::Publish, "Published { upto: 8 }"),
        Told(Event::Read { row: row(10) }, "8: [1, 6]"),
        Told(
            Event::Executed,
            "executed [01010101-0101-0101-0101-010101010101:1-8]",
        ),
    ]
}
