//! The replica: it accepts the records of a log in order, hands them out to many workers, commits the results, and hands
//! out what will be published. Commits are in the order of the log or in that of the results, as chosen when the replica
//! is made.
//!
//! A `ReplicaCore` is a plain machine that is stepped by calls; it has no handle and no thread. Contracts see it as the
//! record `Replica` of `specs/Replica.antt`. Its store contains the database after the committed records. Its index has
//! the holder of each value of a unique column there. Its waiting operations are the commits after the published ones. So
//! no call walks a table: a job's holders are looked up. `specs/Calls.antt` defines what each call returns and leaves,
//! and `specs/Sound.antt` what is true of every replica. It keeps all accepted records, or lets those up to the
//! low-water mark go (`gone_records`); contracts speak of all of them.
//!
//! Nothing that is received is trusted. The parent of each accepted record covers those before it (`relay`), and a record
//! is handed out once all up to its parent are committed. So no two records under way conflict: the commit of one does
//! not change the rows of the other's job, nor the holders of its marks. The working rows are what the committed records
//! leave in log order, whatever the order of their commits. Only the execution of a record shows that it applies, and
//! that it states its true refs and marks.
//!
//! A `Wire` takes the bytes of a log in pieces and hands on their records (`specs/Wire.antt`). The crate uses `relay`,
//! `scheduler`, `executor` and `commit_order`, `gapped` for what commits in any order leave, `store_trait` for the rows,
//! `row_index` for the holders of values, `record_codec` and `record_stream` for records, and `gtid_set` for ids.
#![tactic(auto)]

ghost use Rattle.std.specs.Prelude.{◌≡◌, ◌+◌, ◌≤◌, ◌<◌, ◌⊎◌, ◌↔◌, IsTrue, length, IfOk, IfSome, OnOk, OnErr, IfErr, IsErrOf, IsSome, None};
ghost use Rattle.std.specs.Prelude.{Some, Err, Ok, is_some, true, false, if◌then◌else◌};
ghost use Rattle.std.specs.Option.{option_map_or};
ghost use Rattle.store_trait.specs.Batch.{all_rows};
ghost use Rattle.rows.specs.Database.{NoValueTwice};
ghost use Rattle.store_trait.specs.Fits.{AreOfTables};
ghost use Rattle.store_trait.specs.Operation.{loaded};
ghost use Rattle.scheduler.specs.Gnos.{has_gno};
ghost use Rattle.replica_core.specs.Replica.{low_water, working_rows, waiting, job_of};
ghost use Rattle.replica_core.specs.Sound.{IsSound, ShowsGapped};
ghost use Rattle.replica_core.specs.Core.{IsJudged, place_in};
ghost use Rattle.replica_core.specs.Calls.{new_over, letting_go, unless_stopped, received, left_by_receive, is_eligible};
ghost use Rattle.replica_core.specs.Calls.{next_job, dispatched_next};
ghost use Rattle.replica_core.specs.Calls.{finish_fault, IsHandedOut, taken_as, with_finished, left_by_fault, next_commit, with_commit};
ghost use Rattle.replica_core.specs.Calls.{with_published, stop_fault, AreExecuted, executed_ids};

mod committing;
mod dispatching;
mod ids;
pub mod laws;
mod stored;
mod wire;

use commit_order::{PLACES, Turns};
use committing::{commit_turn, drop_first, let_go};
use dispatching::{HandedOut, job_over, place_kept, refuse_finish, refuse_stopped};
use executor::{Job, JobResult, Outcome};
use gtid_set::GtidSet;
use ids::committed_ids;
use record_codec::Record;
use relay::{Received, Relay, ReplicaFault};
use row_index::Index;
use scheduler::Scheduler;
use schema::{Memory, Schema};
use std::alloc::Global;
use std::marker::Model;
use store_trait::{Batch, Op, RowStore, snapshot};
use stored::Stored;
use uuid::Uuid;
pub use wire::{Wire, WireFault};

/// A replica with up to 64 workers. `new` makes it.
#[derive(Drop)]
pub struct ReplicaCore<S: RowStore> {
    relay: Relay,
    /// Whether all accepted records stay.
    keeps: bool,
    base: Batch,
    stored: Stored<S>,
    scheduler: Scheduler,
    turns: Turns,
    /// What is kept of each job that was handed out and whose result was not taken, in log order.
    handed: Vec<HandedOut>,
    /// The gnos of the commits, in their order, if the order of the log is not kept; else none.
    order: Vec<u64>,
    workers: usize,
    published: u64,
    waiting: Vec<Op>,
    stopped: Option<u64>,
}

impl<S: RowStore> Model for ReplicaCore<S> {
    ghost use Rattle.replica_core.specs.Replica.{Replica};
    ghost use Rattle.replica_core.specs.Core.{seen_as, Holds};

    ghost Value = { Replica };

    ghost view = { λ c.
        seen_as c.relay c.base c.scheduler c.order.items c.published c.turns c.workers c.stopped c.keeps };

    ghost invariant = { λ c.
        Holds (seen_as c.relay c.base c.scheduler c.order.items c.published c.turns c.workers c.stopped c.keeps)
        c.relay.gone c.scheduler c.turns c.handed.items (S.contents c.stored.store) c.stored.index.map c.waiting.items };
}

impl<S: RowStore> ReplicaCore<S> {
    /// A replica over the rows of the store, which has accepted nothing and takes the records of this source.
    ///
    /// No two rows of a table may have one value in its unique column, since the holder of a value is looked up. Each row
    /// must be of a table of the schema: the base is made by a walk over the tables, which would not find it otherwise.
    /// `row_index::values_apart` and `store_trait::are_of_tables` check this. `store_trait::fits` checks more than
    /// needed: here a row may lack its parent, or have other columns than its table.
    ///
    /// If `preserve` is set, commits are in the order of the source's log, as with MySQL's
    /// `replica_preserve_commit_order`. Else a record may be committed once its result was taken, even if earlier ones
    /// are not.
    ///
    /// The time is that of a walk over the rows. The memory is that of a copy of the rows, of the places of 64 jobs, and
    /// of the holder of each value of a unique column; none for that if no table has one.
    pub fn new(
        alloc: Global,
        schema: Schema,
        source: Uuid,
        store: S,
        workers: usize,
        preserve: bool,
    ) -> Result<ReplicaCore<S>, Memory>
    where
        S: Drop,
        requires apart { NoValueTwice schema (S.contents store) }
        requires tables { AreOfTables schema (S.contents store) }
        requires some { 1 ≤ workers }
        requires few { workers ≤ 64 }
        ensures fresh { IfOk result (λ core. core ≡ new_over schema source (all_rows (S.contents store)) workers preserve) }
        ensures rows { IfOk result (λ core. loaded core.base ≡ S.contents store) }
    {
        let base = snapshot(alloc, &store, &schema)?;
        let index = Index::of(alloc, &schema, &base)?;
        let turns = Turns::new(alloc, preserve)?;
        let handed = Vec::with_capacity(alloc, PLACES)?;
        Ok(ReplicaCore {
            relay: Relay::new(alloc, schema, source),
            keeps: true,
            base,
            stored: Stored { store, index },
            scheduler: Scheduler::new(),
            turns,
            handed,
            order: Vec::new(alloc),
            workers,
            published: 0,
            waiting: Vec::new(alloc),
            stopped: None,
        })
    }

    /// Accepts a copy of the record if it is the next one, and skips one that was accepted before, like `Relay::receive`.
    /// A stop comes before its refusals.
    pub fn receive(&mut self, from: Uuid, new: &Record) -> Result<Received, ReplicaFault>
        ensures answer { IsErrOf result ReplicaFault.Memory ⊎ (result ≡ received self.old from new.now) }

        // Memory runs out only instead of an acceptance.
        ensures memory { IsErrOf result ReplicaFault.Memory
            → received self.old from new.now ≡ Ok Received.Accepted }
        ensures sound { IsSound self.old }
        ensures ok { IfOk result (λ answer. self.new ≡ left_by_receive self.old new.now answer) }
        ensures err { OnErr result (self.new ≡ self.old) }
    {
        refuse_stopped(self.stopped)?;
        self.relay.receive(from, new)
    }

    /// Like `receive`, but keeps the record that it is given instead of a copy, like `Relay::receive_own`. A skipped
    /// record is dropped. A refused one is given back, also if the replica is stopped.
    pub fn receive_own(
        &mut self,
        from: Uuid,
        new: Record,
    ) -> Result<Received, (ReplicaFault, Record)>
        ensures answer { IfOk result (λ answer. received self.old from new ≡ Ok answer) }

        // Memory runs out only instead of an acceptance.
        ensures refused { IfErr result (λ back. (received self.old from new ≡ Err back.0) ⊎ ((back.0 ≡ ReplicaFault.Memory)
            × (received self.old from new ≡ Ok Received.Accepted))) }
        ensures back { IfErr result (λ back. back.1 ≡ new) }
        ensures sound { IsSound self.old }
        ensures ok { IfOk result (λ answer. self.new ≡ left_by_receive self.old new answer) }
        ensures err { OnErr result (self.new ≡ self.old) }
    {
        match refuse_stopped(self.stopped) {
            Ok(()) => self.relay.receive_own(from, new),
            Err(fault) => Err((fault, new)),
        }
    }

    /// Hands out the job of the next record in log order, once all up to its parent are committed (like MySQL's
    /// `LOGICAL_CLOCK`) and a worker is free: fewer are dispatched and not committed than there are workers. If the order
    /// of the log is not kept, it also waits until the record's number is one of the 4096 after the low-water mark.
    ///
    /// The job has copies of the record, of the schema and of the rows that the record writes and refers to, and the
    /// holder of each of its marks. The core keeps one more copy of these rows and holders. Time and memory are those of
    /// the job, and of its rows and holders once more. Each holder is looked up in expected constant time, however many
    /// rows there are.
    pub fn dispatch(&mut self) -> Result<Option<Job>, ReplicaFault>
        ensures answer { IsErrOf result ReplicaFault.Memory ⊎ (result ≡ unless_stopped self.old (next_job self.old)) }

        // Memory runs out only instead of a job.
        ensures memory { IsErrOf result ReplicaFault.Memory → (self.old.stopped ≡ None) × IsSome (next_job self.old) }
        ensures ok { IfOk result (λ job.
            self.new ≡ (if is_some job then dispatched_next self.old else self.old)) }
        ensures none { result ≡ Ok None → is_eligible self.old ≡ false }
        ensures err { OnErr result (self.new ≡ self.old) }
    {
        refuse_stopped(self.stopped)?;
        if !self.is_eligible() {
            return Ok(None);
        }
        let job = self.next_job()?;
        self.handed.push(HandedOut::of(&job)?)?;
        self.turns.enter(job.gno);
        Ok(Some(job))
    }

    /// Takes the result of a job that was handed out; it then waits for its turn. Each refusal hands the result back. The
    /// refusals, in this order:
    /// - A stop.
    /// - `P6` if no record of its number was dispatched.
    /// - `P7` if a result of it was taken.
    /// - `P8` if its record, its rows, its holders or its schema are not those handed out.
    /// - `P5` if the changes do not apply to the rows, look at other parent rows than the refs, or have other marks than
    ///   those stated. This stops the replica.
    /// - `P9` if the result itself is that memory ran out. Its job may be executed and finished again.
    ///
    /// It takes no memory. The time is that of comparing the jobs, and of a look at each job that has no result. If the
    /// result has an output, what was kept of its job is freed.
    ///
    /// A record that states too few marks is never committed. Its own result stops the replica. So may the result of a
    /// later record with a mark that was left out, if it comes first: its job has the holder from before, so its changes
    /// may not apply.
    pub fn finish(&mut self, done: JobResult) -> Result<(), (ReplicaFault, JobResult)>
        ensures refused { IfSome (finish_fault self.old done.job.gno) (λ fault. result ≡ Err (fault, done)) }
        ensures other { finish_fault self.old done.job.gno ≡ None → ¬ IsHandedOut self.old done
            → result ≡ Err (ReplicaFault.WrongInput, done) }
        ensures taken { finish_fault self.old done.job.gno ≡ None → IsHandedOut self.old done
            → result ≡ taken_as done done.outcome }
        ensures ok { OnOk result (self.new ≡ with_finished self.old done.job.gno) }
        ensures back { IfErr result (λ e. e.1 ≡ done) }
        ensures err { IfErr result (λ e. self.new ≡ left_by_fault self.old e.0) }
        ensures sound { IsSound self.old }
    {
        let place = match self.judge(&done) {
            Ok(place) => place,
            Err(fault) => return Err((fault, done)),
        };
        match done.outcome() {
            Outcome::Output(_) => {
                // From here on the result has what was kept.
                self.handed.remove(place);
                self.turns.finish(done);
                Ok(())
            }
            Outcome::Undefined | Outcome::WrongRefs => {
                self.stopped = Some(done.gno());
                Err((ReplicaFault::Stopped(done.gno()), done))
            }
            Outcome::Memory => Err((ReplicaFault::Memory, done)),
        }
    }

    /// Commits a record whose result was taken, and returns its number. In the order of the log that is the next record,
    /// as with MySQL's `replica_preserve_commit_order`; else the one whose result was taken first. It puts what the
    /// record leaves into the store, and keeps that as an operation that waits for `publish`.
    ///
    /// The time is that of putting the rows that the record writes. If these have a value in a unique column, each of
    /// them is also looked up in the store, and each value that they had or then have costs expected constant time. The
    /// memory is that of putting the rows, of one more operation, and of these values; none for them if no table has a
    /// unique column. If the order of the log is not kept, it takes eight bytes more. All of it is taken before a row
    /// changes. A replica that lets committed records go then frees some of them, in constant time for each on the whole.
    pub fn commit_next(&mut self) -> Result<Option<u64>, ReplicaFault>
        ensures answer { IsErrOf result ReplicaFault.Memory
            ⊎ (result ≡ unless_stopped self.old (next_commit self.old)) }

        // Memory runs out only instead of a commit.
        ensures memory { IsErrOf result ReplicaFault.Memory
            → (self.old.stopped ≡ None) × IsSome (next_commit self.old) }
        ensures sound { IsSound self.old }
        ensures ok { IfOk result (λ gno. self.new ≡ option_map_or (λ committed. with_commit self.old committed) gno self.old) }
        ensures gapped { OnOk result (ShowsGapped self.new (length self.new.commits)) }
        ensures err { OnErr result (self.new ≡ self.old) }
    {
        refuse_stopped(self.stopped)?;
        let Some(gno) = commit_turn(
            self.relay.schema(),
            &mut self.stored,
            &mut self.waiting,
            &mut self.order,
            &mut self.turns,
        )?
        else {
            return Ok(None);
        };
        self.scheduler.committed(gno);
        let_go(self.keeps, &mut self.relay, self.scheduler.low_water());
        Ok(Some(gno))
    }

    /// The commits that wait for `publish`, in order.
    pub fn pending(&self) -> &[Op]
        ensures { result.now ≡ waiting self.now }
    {
        &self.waiting
    }

    /// Takes the commits up to this number off the waiting ones, as published. It takes no memory. The time is that of a
    /// walk over the waiting operations.
    pub fn publish(&mut self, upto: u64) -> Result<u64, ReplicaFault>
        requires later { self.old.published ≤ upto }
        requires done { upto ≤ length self.old.commits }
        ensures answer { result ≡ unless_stopped self.old upto }
        ensures ok { OnOk result (self.new ≡ with_published self.old upto) }
        ensures gapped { OnOk result (ShowsGapped self.new upto) }
        ensures err { OnErr result (self.new ≡ self.old) }
    {
        refuse_stopped(self.stopped)?;
        drop_first(&mut self.waiting, (upto - self.published) as usize);
        self.published = upto;
        Ok(upto)
    }

    /// The tables.
    pub fn schema(&self) -> &Schema
        ensures { result.now ≡ self.now.tables }
    {
        self.relay.schema()
    }

    /// The rows before the first commit, as the batch that loads them into an empty store.
    pub fn base(&self) -> &Batch
        ensures { result.now ≡ self.now.base }
    {
        &self.base
    }

    /// The accepted records, in order, the record of number 1 first, of a replica that keeps them all.
    pub fn accepted(&self) -> &[Record]
        requires { self.now.keeps ≡ true }
        ensures { result.now ≡ self.now.accepted }
    {
        self.relay.past(0)
    }

    /// The number of accepted records, kept or not. It takes no memory, and constant time.
    pub fn received(&self) -> u64
        ensures { result ≡ length self.now.accepted }
    {
        self.relay.count()
    }

    /// Whether it keeps all accepted records.
    pub fn keeps(&self) -> bool
        ensures { result ≡ self.now.keeps }
    {
        self.keeps
    }

    /// Lets committed records go: from the next commit on those up to the low-water mark are freed. All else stays as it
    /// is. It takes no memory.
    pub fn let_go(&mut self)
        ensures { self.new ≡ letting_go self.old }
    {
        self.keeps = false;
    }

    /// The number of committed records. It takes no memory, and constant time.
    pub fn committed(&self) -> u64
        ensures value { result ≡ length self.now.commits }
        ensures sound { IsSound self.now }
    {
        if self.turns.preserve() {
            self.scheduler.low_water()
        } else {
            self.order.len() as u64
        }
    }

    /// The low-water mark: the greatest number up to which all records from 1 on are committed. If the order of the log
    /// is kept, that is the number of committed records. It takes no memory, and constant time.
    pub fn low_water(&self) -> u64
        ensures value { result ≡ low_water self.now }
        ensures in_order { self.now.preserve ≡ true → result ≡ length self.now.commits }
    {
        self.scheduler.low_water()
    }

    /// Whether the record of this number, counted from 1, is committed. It takes no memory, and constant time.
    pub fn has_committed(&self, gno: u64) -> bool
        requires { 1 ≤ gno }
        ensures { result ≡ has_gno self.now.commits gno }
    {
        self.scheduler.is_committed(gno)
    }

    /// Whether the record of this number was handed out and no result of it was taken. It takes no memory. The time is
    /// that of a look at each such record. There are at most as many as workers.
    pub fn is_out(&self, gno: u64) -> bool
        ensures { result ≡ has_gno self.now.out gno }
    {
        self.turns.is_out(gno)
    }

    /// Whether commits are in the order of the log.
    pub fn preserve(&self) -> bool
        ensures { result ≡ self.now.preserve }
    {
        self.turns.preserve()
    }

    /// The ids of the committed records, like MySQL's `gtid_executed`. If the order of the log is kept, they go from 1 to
    /// the number of committed records, in constant time. Else they may have gaps, and the time is that of a look at each
    /// record from the low-water mark up to the last one dispatched, 4096 at most. The set is empty if none is committed,
    /// and then takes no memory. A stop comes before running out of memory.
    pub fn executed(&self) -> Result<GtidSet, ReplicaFault>
        ensures stopped { IfSome self.now.stopped (λ gno. result ≡ Err (ReplicaFault.Stopped gno)) }
        ensures ok { IfOk result (AreExecuted self.now) }
        ensures running { OnOk result (self.now.stopped ≡ None) }
        ensures in_order { self.now.preserve ≡ true
            → IsErrOf result ReplicaFault.Memory ⊎ (result ≡ unless_stopped self.now (executed_ids self.now)) }

        // Memory runs out only instead of an interval.
        ensures memory { IsErrOf result ReplicaFault.Memory → (self.now.stopped ≡ None) × (0 < length self.now.commits) }
        ensures err { IfErr result (λ fault. (fault ≡ ReplicaFault.Memory) ⊎ (Some fault ≡ stop_fault self.now)) }
    {
        refuse_stopped(self.stopped)?;
        let alloc = *self.waiting.allocator();
        let source = self.source();
        if self.turns.preserve() {
            return Ok(GtidSet::first(alloc, source, self.committed())?);
        }
        Ok(committed_ids(alloc, source, &self.scheduler, self.dispatched())?)
    }

    /// The number of published commits: they are the first of the committed ones.
    pub fn published(&self) -> u64
        ensures value { result ≡ self.now.published }
        ensures sound { IsSound self.now }
    {
        self.published
    }

    /// The number of the record that could not be applied, if the replica is stopped.
    pub fn stopped(&self) -> Option<u64>
        ensures value { result ≡ self.now.stopped }
        ensures sound { IsSound self.now }
    {
        self.stopped
    }

    /// The working rows: what the committed records leave, one after another in log order.
    pub fn store(&self) -> &S
        ensures rows { working_rows self.now ≡ Some (S.contents result.now) }
        ensures sound { IsSound self.now }
    {
        &self.stored.store
    }

    /// All that another core over the same rows is made of, without a copy, of a replica that keeps all records. These
    /// are the tables, the rows before the first commit, as `base` has them, the accepted records in order, committed or
    /// not, and the store with the working rows. The time is that of freeing what else the replica keeps.
    pub fn into_parts(self) -> (Schema, Batch, Vec<Record>, S)
        requires { self.keeps ≡ true }
        ensures tables { result.0 ≡ self.tables }
        ensures base { result.1 ≡ self.base }
        ensures accepted { result.2.items ≡ self.accepted }
        ensures rows { working_rows self ≡ Some (S.contents result.3) }
        ensures apart { NoValueTwice result.0 (S.contents result.3) }
        ensures sound { IsSound self }
    {
        let ReplicaCore {
            relay,
            base,
            stored,
            ..
        } = self;
        let (schema, accepted) = relay.into_parts();
        (schema, base, accepted, stored.into_store())
    }

    /// The store with the working rows, without a copy, whether or not the replica keeps all records. The time is that of
    /// freeing what else the replica keeps.
    pub fn into_rows(self) -> S
        ensures rows { working_rows self ≡ Some (S.contents result) }
        ensures apart { NoValueTwice self.tables (S.contents result) }
        ensures sound { IsSound self }
    {
        self.stored.into_store()
    }

    /// The identifier of the source whose records it takes.
    pub fn source(&self) -> Uuid
        ensures { result ≡ self.now.source }
    {
        self.relay.source()
    }

    /// How many records may be dispatched and not committed.
    pub fn workers(&self) -> usize
        ensures { result ≡ self.now.workers }
    {
        self.workers
    }

    /// Whether the next record in log order may be dispatched: then `dispatch` hands out its job, unless the replica is
    /// stopped. It takes no memory, and constant time.
    pub fn is_eligible(&self) -> bool
        ensures { result ≡ is_eligible self.now }
    {
        let dispatched = self.dispatched();
        match self.relay.past(dispatched).first() {
            Some(next) => {
                self.scheduler.eligible(dispatched + 1, next.parent)
                    && self.turns.len() < self.workers
            }
            None => false,
        }
    }

    /// The number of dispatched records: they are the first of the accepted ones.
    fn dispatched(&self) -> u64
        ensures { result ≡ self.now.dispatched }
    {
        self.committed() + self.turns.len() as u64
    }

    /// The job of the next record in log order.
    fn next_job(&self) -> Result<Job, Memory>
        requires { is_eligible self.now ≡ true }
        ensures { IfOk result (λ job. job_of self.now (self.now.dispatched + 1) ≡ Some job) }
    {
        let dispatched = self.dispatched();
        let next = &self.relay.past(dispatched)[0];
        let alloc = *self.waiting.allocator();
        job_over(
            alloc,
            dispatched + 1,
            next,
            &self.stored,
            self.relay.schema(),
        )
    }

    /// The place at which the job of a result is kept. It refuses the result if its job was not handed out, or a result
    /// of it was taken.
    fn judge(&self, done: &JobResult) -> Result<usize, ReplicaFault>
        ensures { IsJudged self.now done.now result }
    {
        self.refuse(done.gno())?;
        let place = place_kept(&self.handed, done.gno());
        if self.is_handed_out(done.job(), place) {
            Ok(place)
        } else {
            Err(ReplicaFault::WrongInput)
        }
    }

    /// Whether the job is the one that was handed out for its number, which is kept at this place.
    fn is_handed_out(&self, job: &Job, place: usize) -> bool
        requires out { has_gno self.now.out job.now.gno ≡ true }
        requires at { place ≡ place_in self.now.out job.now.gno }
        ensures { IsTrue result ↔ (job_of self.now job.now.gno ≡ Some job.now) }
    {
        let rec = &self.relay.past(job.gno - 1)[0];
        let kept = &self.handed[place];
        job.is_of(rec, &kept.input, &kept.holders, self.relay.schema())
    }

    /// Refuses the number of a result, whatever else the result has.
    fn refuse(&self, gno: u64) -> Result<(), ReplicaFault>
        ensures ok { OnOk result (finish_fault self.now gno ≡ None) }
        ensures err { IfErr result (λ fault. finish_fault self.now gno ≡ Some fault) }
    {
        refuse_stopped(self.stopped)?;
        refuse_finish(&self.turns, self.dispatched(), gno)
    }
}
