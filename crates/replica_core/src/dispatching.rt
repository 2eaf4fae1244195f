//! What is handed out, what is kept of it, and what is refused.

ghost use Rattle.std.specs.Prelude.{◌≡◌, ◌&&◌, ◌==◌, nat_le, not, map, Ok, Err, IfOk, OnOk, None, if◌then◌else◌};
ghost use Rattle.std.specs.List.{position_or_len};
ghost use Rattle.std.specs.Option.{option_map_or};
ghost use Rattle.std.specs.FinMap.{get as row_of};
ghost use Rattle.rows.specs.Database.{Database, writes};
ghost use Rattle.store_trait.specs.Batch.{rows_in};
ghost use Rattle.executor.specs.Job.{rows_of};
ghost use Rattle.scheduler.specs.Gnos.{has_gno};
ghost use Rattle.replica_core.specs.Replica.{job_over};
ghost use Rattle.row_index.specs.Keys.{Indexes};
ghost use Rattle.replica_core.specs.Core.{kept_of, looked_up};

use crate::stored::Stored;
use commit_order::Turns;
use executor::{Holders, Job};
use record_codec::Record;
use relay::ReplicaFault;
use row_index::Index;
use rows::{Change, Row};
use schema::{Mark, Memory, RowId, Schema};
use std::alloc::Global;
use store_trait::{Batch, RowStore};

/// What is kept of a job that was handed out. Its record is among the accepted ones, and its schema is the relay's.
#[derive(Debug, Drop)]
pub struct HandedOut {
    pub gno: u64,
    pub input: Batch,
    pub holders: Holders,
}

impl HandedOut {
    /// Copies the rows and the holders that the job was given.
    pub fn of(job: &Job) -> Result<HandedOut, Memory>
        ensures { IfOk result (λ kept. kept ≡ kept_of job.now) }
    {
        Ok(HandedOut {
            gno: job.gno,
            input: job.input.copy()?,
            holders: job.holders.copy()?,
        })
    }
}

/// Refuses if the replica is stopped.
pub fn refuse_stopped(stopped: Option<u64>) -> Result<(), ReplicaFault>
    ensures value { result ≡ option_map_or (λ gno. Err (ReplicaFault.Stopped gno)) stopped (Ok tt) }
    ensures runs { OnOk result (stopped ≡ None) }
{
    match stopped {
        Some(gno) => Err(ReplicaFault::Stopped(gno)),
        None => Ok(()),
    }
}

/// Refuses a record that was not dispatched, or whose result was taken, if the first `dispatched` are dispatched.
pub fn refuse_finish(turns: &Turns, dispatched: u64, gno: u64) -> Result<(), ReplicaFault>
    ensures { result ≡ (if not (nat_le 1 gno && nat_le gno dispatched) then Err ReplicaFault.Stranger
        else if not (has_gno turns.now.out gno) then Err ReplicaFault.Double
        else Ok tt) }
{
    if gno == 0 || gno > dispatched {
        return Err(ReplicaFault::Stranger);
    }
    if !turns.is_out(gno) {
        return Err(ReplicaFault::Double);
    }
    Ok(())
}

/// The place of the first that is kept for this number, or the length if there is none.
pub fn place_kept(handed: &[HandedOut], gno: u64) -> usize
    ensures { result ≡ position_or_len (λ kept. kept.gno == gno) handed.now }
{
    handed
        .iter()
        .position(|kept| kept.gno == gno)
        .unwrap_or(handed.len())
}

/// The job of this record over the rows of the store.
pub fn job_over<S: RowStore>(
    alloc: Global,
    gno: u64,
    rec: &Record,
    stored: &Stored<S>,
    schema: &Schema,
) -> Result<Job, Memory>
    requires { Indexes schema.now (S.contents stored.now.store) stored.now.index.map }
    ensures { IfOk result (λ job. job ≡ job_over schema.now gno rec.now (S.contents stored.now.store)) }
{
    let rec = rec.copy()?;
    let input = copied_rows(alloc, row_ids(alloc, &rec)?, &stored.store)?;
    let holders = each_holder(alloc, rec.marks.list(), &stored.index)?;
    let holders = Holders::from_rising(holders);
    Ok(Job::new(gno, rec, input, holders, schema.copy()?))
}

/// Each of these marks with the key of the row that has it, as in the index.
fn each_holder(
    alloc: Global,
    marks: &[Mark],
    index: &Index,
) -> Result<Vec<(Mark, Option<i64>)>, Memory>
    ensures { IfOk result (λ holders. holders.items ≡ looked_up index.now.map marks.now) }
{
    let holders = marks
        .iter()
        .map(|mark| (*mark, index.holder(*mark)))
        .collect(alloc)?;
    Ok(holders)
}

/// The rows that the execution of the record looks at.
fn row_ids(alloc: Global, rec: &Record) -> Result<Vec<RowId>, Memory>
    ensures { IfOk result (λ ids. ids.items ≡ rows_of rec.now) }
{
    let mut ids = written(alloc, rec.changes.list())?;
    ids.extend_from_slice(rec.refs.list())?;
    Ok(ids)
}

/// The rows that the changes write.
fn written(alloc: Global, changes: &[Change]) -> Result<Vec<RowId>, Memory>
    ensures { IfOk result (λ ids. ids.items ≡ writes changes.now) }
{
    let ids = changes.iter().map(|change| change.target()).collect(alloc)?;
    Ok(ids)
}

/// These rows as they are in the store.
fn copied_rows<S: RowStore>(alloc: Global, ids: Vec<RowId>, store: &S) -> Result<Batch, Memory>
    ensures { IfOk result (λ batch. batch ≡ rows_in ids.items (S.contents store.now)) }
{
    let ids = each_once(ids);
    let entries = entries_of(alloc, &ids, store)?;
    Ok(Batch::from_rising(entries))
}

/// The same rows in the order of their ids, each once: copied in turn they make a batch.
fn each_once(mut ids: Vec<RowId>) -> Vec<RowId>
    ensures { (db : Database) → map (λ id. (id, row_of db id)) result.items ≡ rows_in ids.items db }
{
    ids.sort_unstable();
    ids.dedup();
    ids
}

/// Each of these rows as it is in the store.
fn entries_of<S: RowStore>(
    alloc: Global,
    ids: &[RowId],
    store: &S,
) -> Result<Vec<(RowId, Option<Row>)>, Memory>
    ensures { IfOk result (λ entries. entries.items ≡ map (λ id. (id, row_of (S.contents store.now) id)) ids.now) }
{
    let entries = ids.iter().map(|id| (*id, store.get(*id))).collect(alloc)?;
    Ok(entries)
}
