//! Values of unique columns: what the marks of a record make of it, and what the holders of a job make of its result.

use crate::tests::makers::{Entry, PLAIN, RELATED, Replica, replica_over};
use crate::tests::steps::{
    Came, accepts, came_of, commit_next, commits, executed, finishes, hands_in, job, receive,
};
use btree_store::BTreeStore;
use executor::{Holders, Job, JobResult};
use record_codec::{Flags, Record};
use relay::ReplicaFault;
use rows::{Change, Row};
use schema::{Mark, Memory};
use std::alloc::Global;
use std::process::Abort;
use std::test::Fail;
use store_trait::{Batch, RowStore};
use tests_log::common::{marks_of, record};
use tests_stores::common::{insert, row, unique_tables, update};

/// A new replica with (1, 10) = [5] and (2, 1) = [8, 7].
fn of_values(alloc: Global) -> Result<Box<Replica>, Memory> {
    let base = vec![in alloc;
        (row(1, 10), Row::new(&[5])),
        (row(2, 1), Row::new(&[8, 7])),
    ]?;
    let mut store = BTreeStore::new(alloc);
    store.put_all(&Batch::from_entries(base).ok_or(Memory)?)?;
    replica_over(alloc, unique_tables(alloc)?, store, 2)
}

/// What a record does.
#[derive(Clone, Copy, Debug)]
enum Does {
    /// It inserts (1, 11) with this value.
    Inserts(i64),
    /// It gives (1, 10) this value.
    Moves(i64),
    /// It deletes (1, 10).
    Deletes,
    /// It sets the other column of (2, 1).
    Sets,
    /// It inserts (3, 1) = [5], into a table without a unique column.
    InsertsPlain,
}

fn change_of(does: Does) -> Result<Change, Memory> {
    match does {
        Does::Inserts(value) => insert(row(1, 11), &[value]),
        Does::Moves(value) => update(row(1, 10), 0, value),
        Does::Deletes => Ok(Change::Delete { row: row(1, 10) }),
        Does::Sets => update(row(2, 1), 0, 6),
        Does::InsertsPlain => insert(row(3, 1), &[5]),
    }
}

fn flags_of(does: Does) -> Flags {
    match does {
        Does::InsertsPlain => RELATED,
        _ => PLAIN,
    }
}

/// The record of this number, without a parent, that does this and states these marks, each a table and a value.
fn stating(alloc: Global, gno: u64, does: Does, marks: &[(u16, i64)]) -> Result<Record, Memory> {
    let plain = record(alloc, gno, 0, change_of(does)?)?;
    let marks = marks_of(alloc, marks)?;
    Ok(Record {
        flags: flags_of(does),
        marks,
        ..plain
    })
}

/// What a record does, the marks that it states, and what comes of it: `None` if it is malformed.
type Case = (Does, &'static [(u16, i64)], Option<Came>);

/// Records with the right marks, and with others. A record without marks may also come in the first form.
fn cases() -> [Case; 23] {
    let output = Some(Came::Output);
    let other = Some(Came::WrongRefs);
    [
        (Does::Inserts(6), &[(1, 6)], output),
        (Does::Inserts(6), &[], None),
        (Does::Inserts(6), &[(1, 5)], None),
        (Does::Inserts(6), &[(2, 6)], None),
        (Does::Inserts(6), &[(1, 5), (1, 6)], other),
        (Does::Inserts(6), &[(1, 6), (3, 6)], None),
        (Does::Inserts(6), &[(1, 6), (9, 6)], None),
        // Another row has the value.
        (Does::Inserts(5), &[(1, 5)], Some(Came::Undefined)),
        // If an update names the column, the new value is known, and the old one is not.
        (Does::Moves(6), &[(1, 5), (1, 6)], output),
        (Does::Moves(6), &[(1, 5)], None),
        (Does::Moves(6), &[(1, 6)], other),
        (Does::Moves(6), &[(1, 5), (1, 6), (1, 7)], other),
        (Does::Moves(6), &[(1, 6), (1, 7)], other),
        (Does::Moves(5), &[(1, 5)], output),
        (Does::Deletes, &[(1, 5)], output),
        (Does::Deletes, &[], other),
        (Does::Deletes, &[(1, 6)], other),
        // An update that does not name the column has no marks.
        (Does::Sets, &[], output),
        (Does::Sets, &[(2, 7)], other),
        (Does::Sets, &[(2, 6)], other),
        (Does::InsertsPlain, &[], output),
        (Does::InsertsPlain, &[(3, 5)], None),
        (Does::InsertsPlain, &[(1, 5)], other),
    ]
}

/// The record is accepted, and this comes of its job. Then it is committed, or stops the replica.
fn comes_to(
    rt: &(impl Abort + AllocGlobal),
    replica: &mut Replica,
    new: &Record,
    want: Came,
) -> Result<(), Fail> {
    accepts(rt, replica, new);
    let done = executed(rt.alloc(), job(rt, replica, 1)?);
    assert_eq!(rt; came_of(&done), want, "{new:?}");
    if want == Came::Output {
        finishes(rt, replica, done, Ok(()));
        commits(rt, replica, Some(1));
    } else {
        stops(rt, replica, done, 1);
    }
    Ok(())
}

/// The result stops the replica at this number, and nothing is committed.
fn stops(rt: &impl Abort, replica: &mut Replica, done: JobResult, at: u64) {
    let stopped = ReplicaFault::Stopped(at);
    finishes(rt, replica, done, Err(stopped));
    assert_eq!(rt; commit_next(replica), Err(stopped));
    assert_eq!(rt; replica.pending().len(), 0);
}

fn is_answered(
    rt: &(impl Abort + AllocGlobal),
    replica: &mut Replica,
    case: Case,
) -> Result<(), Fail> {
    let (does, marks, want) = case;
    let new = stating(rt.alloc(), 1, does, marks)?;
    match want {
        Some(came) => comes_to(rt, replica, &new, came)?,
        None => assert_eq!(rt;
            receive(replica, &new),
            Err(ReplicaFault::Malformed),
            "{new:?}"
        ),
    }
    Ok(())
}

/// Catches definitions that look for marks although no value is given up or taken, or that pass over them although one is.
#[test]
fn marks_are_exactly_the_values(rt: HostRuntime) -> Result<(), Fail> {
    for case in cases() {
        let mut replica = of_values(rt.alloc())?;
        is_answered(&rt, &mut replica, case)?;
    }
    Ok(())
}

/// One mark with its holder: the row of this key, or none.
fn held(alloc: Global, mark: Mark, key: Option<i64>) -> Result<Holders, Memory> {
    Ok(Holders::from_rising(vec![in alloc; (mark, key)]?))
}

/// Results of the job with wrong holders are refused, and then its own is taken.
fn takes_its_own(rt: &(impl Abort + AllocGlobal), replica: &mut Replica) -> Result<(), Fail> {
    accepts(
        rt,
        replica,
        &stating(rt.alloc(), 1, Does::Deletes, &[(1, 5)])?,
    );
    let job = job(rt, replica, 1)?;
    let others = [
        held(rt.alloc(), Mark::new(1, 5), None)?,
        held(rt.alloc(), Mark::new(1, 5), Some(11))?,
        held(rt.alloc(), Mark::new(1, 6), Some(10))?,
        Holders::none(rt.alloc()),
    ];
    for holders in others {
        let job = job.copy()?;
        hands_in(
            rt,
            replica,
            Ok(Job { holders, ..job }),
            Err(ReplicaFault::WrongInput),
        )?;
    }
    hands_in(rt, replica, Ok(job), Ok(()))?;
    commits(rt, replica, Some(1));
    Ok(())
}

/// Catches a definition by which a result with other holders is taken for one of a dispatched job.
#[test]
fn results_of_other_holders_are_refused(rt: HostRuntime) -> Result<(), Fail> {
    let mut replica = of_values(rt.alloc())?;
    takes_its_own(&rt, &mut replica)
}

/// Record 1 deletes the row with the value 5 without stating it. Record 2 gives the value to another row. Both jobs are out.
fn two_liars(
    rt: &(impl Abort + AllocGlobal),
    replica: &mut Replica,
) -> Result<(JobResult, JobResult), Fail> {
    accepts(rt, replica, &stating(rt.alloc(), 1, Does::Deletes, &[])?);
    accepts(
        rt,
        replica,
        &stating(rt.alloc(), 2, Does::Inserts(5), &[(1, 5)])?,
    );
    let first = executed(rt.alloc(), job(rt, replica, 1)?);
    let second = executed(rt.alloc(), job(rt, replica, 2)?);
    assert_eq!(rt;
        (came_of(&first), came_of(&second)),
        (Came::WrongRefs, Came::Undefined)
    );
    Ok((first, second))
}

fn first_stops(rt: &(impl Abort + AllocGlobal), replica: &mut Replica) -> Result<(), Fail> {
    let (first, second) = two_liars(rt, replica)?;
    stops(rt, replica, first, 1);
    stops(rt, replica, second, 1);
    Ok(())
}

fn second_stops(rt: &(impl Abort + AllocGlobal), replica: &mut Replica) -> Result<(), Fail> {
    let (first, second) = two_liars(rt, replica)?;
    stops(rt, replica, second, 2);
    stops(rt, replica, first, 2);
    Ok(())
}

/// Catches a record that states too few marks, or one that depends on it, that is committed, whichever result comes first.
#[test]
fn a_value_that_is_not_stated_stops(rt: HostRuntime) -> Result<(), Fail> {
    let mut replica = of_values(rt.alloc())?;
    first_stops(&rt, &mut replica)?;
    let mut replica = of_values(rt.alloc())?;
    second_stops(&rt, &mut replica)
}

/// What comes of the insert of (3, 1) over these rows and holders, whether a database has them or not.
fn came_over(alloc: Global, rows: &[Entry], holders: Holders) -> Result<Came, Memory> {
    let rec = stating(alloc, 1, Does::InsertsPlain, &[])?;
    let input = Batch::from_entries(Vec::from_slice(alloc, rows)?).ok_or(Memory)?;
    let done = executed(
        alloc,
        Job::new(1, rec, input, holders, unique_tables(alloc)?),
    );
    Ok(came_of(&done))
}

/// Catches holders or missing rows that change what comes of a job over a table without a unique column.
#[test]
fn values_of_other_tables_are_not_looked_at(rt: HostRuntime) -> Result<(), Fail> {
    let (five, six) = (Row::new(&[5]), Row::new(&[6]));
    let cases: [(&[Entry], Came); 4] = [
        (&[], Came::Output),
        (&[(row(3, 1), None)], Came::Output),
        (&[(row(1, 9), five), (row(3, 2), five)], Came::Output),
        (&[(row(3, 1), six)], Came::Undefined),
    ];
    for (rows, want) in cases {
        let none = came_over(rt.alloc(), rows, Holders::none(rt.alloc()))?;
        let own = held(rt.alloc(), Mark::new(1, 5), Some(9))?;
        let plain = held(rt.alloc(), Mark::new(3, 5), Some(2))?;
        let all = [
            none,
            came_over(rt.alloc(), rows, own)?,
            came_over(rt.alloc(), rows, plain)?,
        ];
        assert_eq!(rt; all, [want; 3], "{rows:?}");
    }
    Ok(())
}
