//! Records that no source writes or that do not apply, and wrong results: what the replica returns.

use crate::tests::makers::{
    PLAIN, RELATED, Replica, insert_of, replica, replica_over, schema, table,
};
use crate::tests::steps::{
    accepts, commit_next, commits, dispatch, hands_in, job, publishes, receive,
};
use btree_store::BTreeStore;
use executor::{Holders, Job};
use record_codec::{Flags, Record};
use relay::{Received, ReplicaFault};
use rows::{Change, Row};
use schema::{Memory, Schema, Table};
use std::alloc::Global;
use std::process::Abort;
use std::test::Fail;
use store_trait::{Batch, RowStore};
use tests_log::common::{record, source};
use tests_stores::common::{insert, row, update};
use uuid::Uuid;

/// Tables 1 and 2 by themselves, table 3 with its child 4, and the keyless table 5.
fn tables(alloc: Global) -> Result<Schema, Memory> {
    let child = table(4, 1).child_of(0, 3);
    let keyless = Table::new(5, 1, false);
    let list = vec![in alloc; table(1, 2), table(2, 2), table(3, 1), child, keyless]?;
    Schema::new(list).map_err(|_| Memory)
}

/// A new replica of these tables, with (3, 1) = [0] and its child (4, 9) = [1].
fn of_tables(alloc: Global) -> Result<Box<Replica>, Memory> {
    let base = vec![in alloc; (row(3, 1), Row::new(&[0])), (row(4, 9), Row::new(&[1]))]?;
    let mut store = BTreeStore::new(alloc);
    store.put_all(&Batch::from_entries(base).ok_or(Memory)?)?;
    replica_over(alloc, tables(alloc)?, store, 2)
}

/// What a record does.
#[derive(Clone, Copy, Debug)]
enum Does {
    /// It inserts (1, 10) = [5, 6].
    Inserts,
    /// It inserts (4, 8) = [1], a child of (3, 1).
    InsertsChild,
    /// It updates (1, 10), which is not there.
    Updates,
    /// It deletes (4, 9), a child of (3, 1).
    DeletesChild,
}

fn change_of(does: Does) -> Result<Change, Memory> {
    match does {
        Does::Inserts => insert(row(1, 10), &[5, 6]),
        Does::InsertsChild => insert(row(4, 8), &[1]),
        Does::Updates => update(row(1, 10), 0, 7),
        Does::DeletesChild => Ok(Change::Delete { row: row(4, 9) }),
    }
}

/// What a record without refs says: its gno, sequence and parent, its flags, and what it does.
type Said = ([u64; 3], Flags, Does);

fn record_of(alloc: Global, said: Said) -> Result<Record, Memory> {
    let ([gno, sequence, parent], flags, does) = said;
    let plain = record(alloc, gno, parent, change_of(does)?)?;
    Ok(Record {
        sequence,
        flags,
        ..plain
    })
}

/// Which result is handed in once record 1 is dispatched.
#[derive(Clone, Copy, Debug)]
enum Handed {
    /// Its own.
    Own,
    /// Its own, after one was taken.
    Second,
    /// Its own, after one was taken and committed.
    Late,
    /// One of this number.
    Numbered(u64),
    /// One over another row than (1, 10).
    OtherId,
    /// One over a row (1, 10) that is there.
    OtherRow,
}

/// What a record says, its source, what the replica returns, and which result is handed in then, with its refusal.
type Case = (
    Said,
    Uuid,
    Result<Received, ReplicaFault>,
    Option<(Handed, ReplicaFault)>,
);

/// Records that lie, records that do not apply, and results that are not those of the job, each for a new replica.
fn cases() -> [Case; 13] {
    let first = ([1, 1, 0], PLAIN, Does::Inserts);
    let (own, other) = (source(), Uuid::from_u128(1));
    let accepted = Ok(Received::Accepted);
    let foreign = Err(ReplicaFault::ForeignSource);
    let malformed = Err(ReplicaFault::Malformed);
    let gap = Err(ReplicaFault::Gap);
    let stops = Some((Handed::Own, ReplicaFault::Stopped(1)));
    let stranger = Some((Handed::Numbered(5), ReplicaFault::Stranger));
    let second = Some((Handed::Second, ReplicaFault::Double));
    let late = Some((Handed::Late, ReplicaFault::Double));
    let other_id = Some((Handed::OtherId, ReplicaFault::WrongInput));
    let other_row = Some((Handed::OtherRow, ReplicaFault::WrongInput));
    [
        (([0, 1, 0], PLAIN, Does::Inserts), other, foreign, None),
        (([1, 2, 0], PLAIN, Does::Inserts), own, malformed, None),
        (([1, 1, 1], PLAIN, Does::Inserts), own, malformed, None),
        (([1, 1, 0], RELATED, Does::Inserts), own, malformed, None),
        (
            ([1, 1, 0], RELATED, Does::InsertsChild),
            own,
            malformed,
            None,
        ),
        (([2, 2, 0], PLAIN, Does::Inserts), own, gap, None),
        (([1, 1, 0], PLAIN, Does::Updates), own, accepted, stops),
        (
            ([1, 1, 0], RELATED, Does::DeletesChild),
            own,
            accepted,
            stops,
        ),
        (first, own, accepted, stranger),
        (first, own, accepted, second),
        (first, own, accepted, late),
        (first, own, accepted, other_id),
        (first, own, accepted, other_row),
    ]
}

/// The rows of a job that looks at only this one.
fn input_of(alloc: Global, key: i64, there: Option<Row>) -> Result<Batch, Memory> {
    Batch::from_entries(vec![in alloc; (row(1, key), there)]?).ok_or(Memory)
}

/// The job whose result is handed in, if this one was dispatched.
fn handed_job(
    rt: &(impl Abort + AllocGlobal),
    replica: &mut Replica,
    handed: Handed,
    job: Job,
) -> Result<Job, Memory> {
    match handed {
        Handed::Own => Ok(job),
        Handed::Second => {
            hands_in(rt, replica, job.copy(), Ok(()))?;
            Ok(job)
        }
        Handed::Late => {
            hands_in(rt, replica, job.copy(), Ok(()))?;
            commits(rt, replica, Some(1));
            Ok(job)
        }
        Handed::Numbered(gno) => Ok(Job { gno, ..job }),
        Handed::OtherId => {
            let input = input_of(rt.alloc(), 11, None)?;
            Ok(Job { input, ..job })
        }
        Handed::OtherRow => {
            let input = input_of(rt.alloc(), 10, Row::new(&[5, 6]))?;
            Ok(Job { input, ..job })
        }
    }
}

/// Each call that can fail is refused for the stop at this number, also with the record of this job, or with a result
/// of a number that was not dispatched.
pub fn refuses_all(
    rt: &(impl Abort + AllocGlobal),
    replica: &mut Replica,
    job: Job,
    at: u64,
) -> Result<(), Memory> {
    let stopped = ReplicaFault::Stopped(at);
    assert_eq!(rt; receive(replica, &job.rec), Err(stopped));
    assert_eq!(rt; dispatch(replica).err(), Some(stopped));
    assert_eq!(rt; commit_next(replica), Err(stopped));
    let committed = replica.committed();
    publishes(rt, replica, committed, Err(stopped));
    assert_eq!(rt; replica.executed().err(), Some(stopped));
    hands_in(rt, replica, Ok(Job { gno: 5, ..job }), Err(stopped))?;
    assert_eq!(rt; replica.stopped(), Some(at));
    Ok(())
}

/// The replica returns this for the record, and then for the result.
fn is_answered(
    rt: &(impl Abort + AllocGlobal),
    replica: &mut Replica,
    case: Case,
) -> Result<(), Fail> {
    let (said, from, answer, refused) = case;
    let new = record_of(rt.alloc(), said)?;
    assert_eq!(rt; replica.receive(from, &new), answer, "{said:?}");
    if let Some((handed, fault)) = refused {
        let job = job(rt, replica, 1)?;
        let job = handed_job(rt, replica, handed, job)?;
        hands_in(rt, replica, job.copy(), Err(fault))?;
        if replica.stopped().is_some() {
            refuses_all(rt, replica, job, 1)?;
            assert_eq!(rt; replica.pending().len(), 0);
        }
    }
    Ok(())
}

/// Catches definitions that believe a lie, or report it as another. Also: a record that does not apply and does not
/// stop the replica, a call that ignores the stop, and a wrong result that is taken for one of a dispatched job.
#[test]
fn lying_records_and_results_are_refused(rt: HostRuntime) -> Result<(), Fail> {
    for case in cases() {
        let mut replica = of_tables(rt.alloc())?;
        is_answered(&rt, &mut replica, case)?;
    }
    Ok(())
}

/// The result of this number, for a job that was not handed out, is refused.
fn is_stranger(
    rt: &(impl Abort + AllocGlobal),
    replica: &mut Replica,
    gno: u64,
) -> Result<(), Memory> {
    let rec = insert_of(rt.alloc(), gno, 10)?;
    let (input, holders) = (Batch::new(rt.alloc()), Holders::none(rt.alloc()));
    let job = Job::new(gno, rec, input, holders, schema(rt.alloc())?);
    hands_in(rt, replica, Ok(job), Err(ReplicaFault::Stranger))
}

/// Two records are accepted. First neither is dispatched, and then one is.
fn has_strangers(rt: &(impl Abort + AllocGlobal), replica: &mut Replica) -> Result<(), Fail> {
    accepts(rt, replica, &insert_of(rt.alloc(), 1, 10)?);
    accepts(rt, replica, &insert_of(rt.alloc(), 2, 11)?);
    is_stranger(rt, replica, 1)?;
    job(rt, replica, 1)?;
    is_stranger(rt, replica, 0)?;
    is_stranger(rt, replica, 2)?;
    Ok(())
}

/// Catches definitions by which a record that was accepted and not dispatched may have a result.
#[test]
fn results_before_their_dispatch_are_refused(rt: HostRuntime) -> Result<(), Fail> {
    let mut replica = replica(rt.alloc(), 2)?;
    has_strangers(&rt, &mut replica)
}
