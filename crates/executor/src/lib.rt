//! Jobs, each a record with the rows that it looks at, and their execution.
//!
//! A `Job` has all that the execution of one record needs: the record, copies of the rows that it writes and refers to,
//! the holders of its marks, and the schema. `execute` looks at nothing else. So it needs no lock, and any thread may
//! run it. `execute_in` does the same in a `Room` that is kept from job to job.
//!
//! A `JobResult` keeps its job. Its type ensures that its outcome is right for each database that the job may be of.
//! The outcome is the rows that the record writes, as its changes leave them; or that the changes do not apply; or that
//! they apply, but look at other parent rows, or have other marks, than the record states. It may also be that memory
//! ran out. A job may be of the database that its rows and holders are from, if its record states what its changes give
//! (`laws`). Nothing is promised for a job that is of no database. `overlay` runs the changes, and `vector_store` has
//! the rows that they run over.
#![tactic(auto)]

ghost use Rattle.std.specs.Prelude.{◌≡◌, ◌⊎◌, ◌↔◌, IsTrue, IfOk};
ghost use Rattle.rows.specs.Database.{Database};
ghost use Rattle.executor.specs.Job.{outcome_of, outcome_over, output_of, Agrees, IsResult};

mod changes;
mod holders;
pub mod laws;
mod room;
mod same;

use changes::run_changes;
pub use holders::Holders;
use overlay::Pending;
use record_codec::{Record, same_records};
pub use room::Room;
use same::{same_batches, same_holders, same_schemas};
use schema::{Memory, Schema};
use std::alloc::Global;
use std::marker::Model;
use store_trait::{Batch, RowStore};
use vector_store::VectorStore;

/// What a worker needs to execute one record.
#[derive(Debug, Drop)]
pub struct Job {
    /// The record's number at its source.
    pub gno: u64,
    pub rec: Record,
    /// The rows that the record writes and refers to; an absent one is there as removed.
    pub input: Batch,
    /// The record's marks, each with the row that has it.
    pub holders: Holders,
    pub schema: Schema,
}

/// The outcome of a job.
#[derive(Debug, Drop)]
pub enum Outcome {
    /// Each row that the record writes, as its changes leave it.
    Output(Batch),
    /// One of the changes does not apply to the rows, or gives its row a value that another row has in a unique column.
    Undefined,
    /// The changes apply, but the record's refs or marks are wrong: one is missing, or one does not belong there. Its
    /// refs must be exactly the parent rows, before and after each change, of the changed child rows. Its marks must be
    /// exactly the old and new values, in unique columns, of the changed rows.
    WrongRefs,
    /// Memory ran out. The job may be executed again.
    Memory,
}

impl From<Memory> for Outcome {
    ghost use Rattle.std.specs.Prelude.{◌≡◌};
    ghost use Rattle.executor.specs.declared.Outcome.TheVariants as outcomes;

    ghost from_gives = { λ _ outcome. outcome ≡ outcomes.Memory };

    fn from(_memory: Memory) -> Outcome {
        Outcome::Memory
    }
}

/// A job with its outcome, made by `execute`.
#[derive(Debug, Drop)]
pub struct JobResult {
    job: Job,
    outcome: Outcome,
}

impl Model for JobResult {
    ghost use Rattle.executor.specs.Job.{Finished, IsResult};

    ghost Value = { Finished };

    ghost view = { λ r. record { job = r.job; outcome = r.outcome } };

    ghost invariant = { λ r. IsResult (record { job = r.job; outcome = r.outcome }) };
}

impl Job {
    /// A job of these parts. It takes no memory.
    pub fn new(gno: u64, rec: Record, input: Batch, holders: Holders, schema: Schema) -> Job
        ensures { result ≡ record { gno = gno; rec = rec; input = input; holders = holders; schema = schema } }
    {
        Job {
            gno,
            rec,
            input,
            holders,
            schema,
        }
    }

    /// An equal job, in separate memory.
    pub fn copy(&self) -> Result<Job, Memory>
        ensures { IfOk result (λ job. job ≡ self.now) }
    {
        Ok(Job {
            gno: self.gno,
            rec: self.rec.copy()?,
            input: self.input.copy()?,
            holders: self.holders.copy()?,
            schema: self.schema.copy()?,
        })
    }

    /// Whether the job has this record, these rows, these holders and this schema. It takes no memory, and the time of
    /// a walk over them.
    pub fn is_of(&self, rec: &Record, input: &Batch, holders: &Holders, schema: &Schema) -> bool
        ensures { IsTrue result ↔ ((self.now.rec ≡ rec.now) × (self.now.input ≡ input.now) × (self.now.holders ≡ holders.now)
            × (self.now.schema ≡ schema.now)) }
    {
        same_records(&self.rec, rec)
            && same_batches(&self.input, input)
            && same_holders(&self.holders, holders)
            && same_schemas(&self.schema, schema)
    }
}

impl JobResult {
    /// The job.
    pub fn job(&self) -> &Job
        ensures { result.now ≡ self.now.job }
    {
        &self.job
    }

    /// The job's outcome.
    pub fn outcome(&self) -> &Outcome
        ensures value { result.now ≡ self.now.outcome }
        ensures valid { IsResult self.now }
    {
        &self.outcome
    }

    /// The job's number.
    pub fn gno(&self) -> u64
        ensures { result ≡ self.now.job.gno }
    {
        self.job.gno
    }

    /// The output rows, without the job; `None` if its record does not apply or states other refs or marks, or if
    /// memory ran out. It takes no memory.
    pub fn into_output(self) -> Option<Batch>
        ensures { result ≡ output_of self.outcome }
    {
        let JobResult { outcome, .. } = self;
        match outcome {
            Outcome::Output(batch) => Some(batch),
            Outcome::Undefined | Outcome::WrongRefs | Outcome::Memory => None,
        }
    }

    /// The job, without its outcome. It takes no memory.
    pub fn into_job(self) -> Job
        ensures { result ≡ self.job }
    {
        let JobResult {
            job,
            outcome: _outcome,
        } = self;
        job
    }
}

/// Executes a job: runs its record's changes over its input and its holders. It compares the record's refs with the
/// parent rows that the changes look at there, and its marks with the values that they give up and take. The outcome is
/// `Undefined` if the changes do not apply, `WrongRefs` if they apply and the refs or marks differ, and otherwise the
/// output. If memory runs out, it is `Memory` instead.
///
/// Take b changes, r rows in the input and h holders. The time is that of putting the r rows into a separate store, at
/// most 2b look-ups there, sorting b rows and up to 2b parent rows and 2b marks, and one search for each of these. A
/// change that gives its row a value of a unique column costs one more search in the h holders, and a walk over up to b
/// rows.
pub fn execute(alloc: Global, job: Job) -> JobResult
    ensures job { result.job ≡ job }
    ensures outcome { (result.outcome ≡ Outcome.Memory) ⊎
        ((db : Database) → Agrees job db → result.outcome ≡ outcome_over job.schema job.rec db) }
{
    let mut room = Room::new(alloc);
    execute_in(&mut room, job)
}

/// Like `execute`, but in a room that is kept from job to job; what an earlier job left there does not matter. A job of
/// at most 16 changes, with at most 48 rows in its input, takes memory only for its output, once the room had jobs of
/// that size. After a job of more changes or rows the room's memory is given back, and the next job takes it anew. The
/// time is that of `execute`, and of a walk over the room that earlier jobs left, which is bounded by a constant.
pub fn execute_in(room: &mut Room, job: Job) -> JobResult
    ensures job { result.job ≡ job }
    ensures outcome { (result.outcome ≡ Outcome.Memory) ⊎
        ((db : Database) → Agrees job db → result.outcome ≡ outcome_over job.schema job.rec db) }
{
    let outcome = match run(room, &job) {
        Ok(outcome) => outcome,
        Err(memory) => memory.into(),
    };
    room.keep_behind(&job);
    JobResult { job, outcome }
}

/// The job's outcome.
fn run(room: &mut Room, job: &Job) -> Result<Outcome, Memory>
    ensures { IfOk result (λ outcome. (db : Database) → Agrees job.now db → outcome ≡ outcome_over job.now.schema job.now.rec db) }
{
    room.rows.clear();
    room.rows.put_all(&job.input)?;
    let changes = job.rec.changes.list();
    let applies = run_changes(
        &mut room.pending,
        &job.schema,
        &job.holders,
        &room.rows,
        changes,
    )?;
    if !applies {
        return Ok(Outcome::Undefined);
    }
    outcome_of(&job.rec, &mut room.pending, room.alloc)
}

/// The outcome of a record whose changes were run: the rows that they leave, if the record states their kin and their
/// marks. Both are sorted here.
fn outcome_of(rec: &Record, pending: &mut Pending, alloc: Global) -> Result<Outcome, Memory>
    ensures { IfOk result (λ outcome. outcome ≡ outcome_of rec.now pending.old.kin pending.old.marks pending.old.left) }
{
    if !pending.touches_exactly(rec.refs.list(), rec.marks.list()) {
        return Ok(Outcome::WrongRefs);
    }
    Ok(Outcome::Output(pending.batch(alloc)?))
}
