//! A replica and its steps. Each call that runs out of memory is made once more.

use btree_store::BTreeStore;
use executor::{Job, JobResult, Outcome, execute};
use record_codec::Record;
use relay::{Received, ReplicaFault};
use replica_core::ReplicaCore;
use row_index::values_apart;
use rows::Row;
use schema::{Memory, RowId};
use std::alloc::Global;
use std::process::Abort;
use std::test::Fail;
use store_trait::{Batch, RowStore, are_of_tables};
use tests_log::common::{record, source};
use tests_stores::again;
use tests_stores::common::{boxed, five_tables, insert, row, update};

pub type Replica = ReplicaCore<BTreeStore>;

/// The row of the worked records.
pub fn ten() -> RowId {
    row(1, 10)
}

/// The record of this number, 1 to 3: an insert of row 10 as `[5, 6]`, then an update of column 0 to 7, and then one of
/// column 1 to 8.
pub fn worked(alloc: Global, gno: u64, parent: u64) -> Result<Record, Memory> {
    let change = match gno {
        1 => insert(ten(), &[5, 6])?,
        2 => update(ten(), 0, 7)?,
        _ => update(ten(), 1, 8)?,
    };
    record(alloc, gno, parent, change)
}

/// A new replica of the rows of this batch, whether they fit or not, with two workers.
pub fn replica_loaded(alloc: Global, base: &Batch, preserve: bool) -> Result<Box<Replica>, Memory> {
    let schema = five_tables(alloc)?;
    let mut store = BTreeStore::new(alloc);
    store.put_all(base)?;
    if values_apart(alloc, &schema, base)? && are_of_tables(&schema, &store) {
        let core = ReplicaCore::new(alloc, schema, source(), store, 2, preserve)?;
        Ok(boxed(alloc, core)?)
    } else {
        Err(Memory)
    }
}

/// Like `replica_loaded`, but without rows.
pub fn replica(alloc: Global, preserve: bool) -> Result<Box<Replica>, Memory> {
    replica_loaded(alloc, &Batch::new(alloc), preserve)
}

/// The record is accepted.
pub fn accepts(rt: &impl Abort, replica: &mut Replica, next: &Record) {
    let answer = again!(ReplicaFault::Memory => replica.receive(source(), next));
    assert_eq!(rt; answer, Ok(Received::Accepted));
}

/// Dispatches the next job.
pub fn job(replica: &mut Replica) -> Result<Job, Fail> {
    match again!(ReplicaFault::Memory => replica.dispatch())? {
        Some(job) => Ok(job),
        None => Err(Fail::new("a job")),
    }
}

fn executed(alloc: Global, job: Job) -> JobResult {
    let done = execute(alloc, job);
    let lacked = matches!(done.outcome(), Outcome::Memory);
    if lacked {
        return execute(alloc, done.into_job());
    }
    done
}

/// The result of this job is handed in, and the call returns `want`.
pub fn hands_in(
    rt: &(impl Abort + AllocGlobal),
    replica: &mut Replica,
    job: Job,
    want: Result<(), ReplicaFault>,
) {
    let done = executed(rt.alloc(), job);
    assert_eq!(rt; replica.finish(done).map_err(|refused| refused.0), want);
}

/// Dispatches the next job, executes it, and hands in its result.
pub fn runs(rt: &(impl Abort + AllocGlobal), replica: &mut Replica) -> Result<(), Fail> {
    let job = job(replica)?;
    hands_in(rt, replica, job, Ok(()));
    Ok(())
}

/// Commits a record, which is the one of this number.
pub fn commits(rt: &impl Abort, replica: &mut Replica, gno: u64) {
    let answer = again!(ReplicaFault::Memory => replica.commit_next());
    assert_eq!(rt; answer, Ok(Some(gno)));
}

/// The worked record of this number is accepted, executed and committed.
pub fn passes(
    rt: &(impl Abort + AllocGlobal),
    replica: &mut Replica,
    gno: u64,
    parent: u64,
) -> Result<(), Fail> {
    let next = again!(worked(rt.alloc(), gno, parent))?;
    accepts(rt, replica, &next);
    runs(rt, replica)?;
    commits(rt, replica, gno);
    Ok(())
}

/// The first `count` worked records are committed.
pub fn passes_first(
    rt: &(impl Abort + AllocGlobal),
    replica: &mut Replica,
    count: u64,
) -> Result<(), Fail> {
    for before in 0..count {
        passes(rt, replica, before + 1, before)?;
    }
    Ok(())
}

/// The number of committed records, and row 10.
pub fn shown(replica: &Replica) -> (u64, Option<Row>) {
    (replica.committed(), replica.store().get(ten()))
}
