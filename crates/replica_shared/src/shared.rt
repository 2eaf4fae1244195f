//! The replica that threads share.
ghost use Rattle.std.specs.Prelude.{◌≡◌, ◌⊎◌, ◌≤◌, ◌++◌, ◌∷◌, [], length, true, false, All, Err, IfOk, IfErr, IfSome, IsErrAnd};
ghost use Rattle.std.specs.List.{AllByRecursion};
ghost use Rattle.std.specs.Str.{bytes_eq};
ghost use Rattle.std.specs.Arc.{arc_value};
ghost use mathlib.Core.List.{IsPrefix};
ghost use Rattle.store_trait.specs.declared.Op.TheVariants.{Load};
ghost use Rattle.executor.specs.Job.{IsResult};
ghost use Rattle.gtid_set.specs.Ids.{takes_source};
ghost use Rattle.scheduler.specs.Gnos.{low_of};
ghost use Rattle.published.specs.History.{IsHistory, gnos_of, commits_in};
ghost use Rattle.published.specs.Status.{InOrder};
ghost use Rattle.replica_core.specs.Replica.{ran, operations, operations_in_order};
ghost use Rattle.replica_shared.specs.Names.{IsReplicaOf, IsNewReplica, IsOfLog, IsInLog, IsKnown};
ghost use Rattle.replica_shared.specs.Outlet.{empty_outlet};
ghost use Rattle.replica_shared.specs.Queue.{IsPassOf};
ghost use Rattle.replica_shared.specs.Awaited.{has_all, AreAmong, AreUpTo};
ghost use Rattle.replica_shared.specs.Together.{IsStop, TellsStop, TellsStopBehind, loaded_alone};
ghost use Rattle.replica_shared.specs.Feeding.{Receives, Feeds, AreInLog, TellsStopOf};

use crate::coordinator::Coordinator;
use crate::gate::WorkerGate;
use crate::held::Lock;
use crate::kept::KeptJobs;
use crate::naming::ReplicaNaming;
use crate::news::{Looks, Next, Sleepers};
use crate::outlet::Outlet;
use crate::queue::{Claim, Jobs, Pass};
use crate::seats::Seats;
use crossbeam_utils::Backoff;
use executor::{Job, JobResult, Room, execute_in};
use gtid_set::{GtidSet, Interval};
use left_right::Absorb;
use published::{Common, CopyStep, Counts, Notice, Publisher, ReadSeat, Status, Version, Watch};
use record_codec::Record;
use relay::{Received, ReplicaFault};
use replica_core::{ReplicaCore, Wire, WireFault};
use schema::Memory;
use std::alloc::Global;
use std::sync::{Arc, Mutex, Wait};
use store_trait::RowStore;
use uuid::Uuid;

/// A replica and its publisher, under one lock. Each call except `new`, `end`, `seat` and `status` takes that lock;
/// `seat` and `status` have a separate one each. A call waits as long as other threads hold its lock. Threads share it by
/// reference.
///
/// It is not `Drop`, since its publisher is not: end it by `end`.
///
/// Jobs get to the workers through a queue. The thread that accepts a record or hands in a result dispatches, under the
/// lock, all that may be dispatched then, and pushes it. A worker first claims a job under the lock, and then takes it
/// from the queue without the lock.
///
/// A waiting call sleeps until there is what it waits for. For a worker that is a job, or something that another thread
/// left undone because memory ran out. One worker is woken, which wakes the next if more is left. Each publication wakes
/// all calls of `wait_for` and `wait_for_set`. A stop and the end wake all. A record that may not run yet wakes nobody,
/// nor does a result after which nothing can be committed.
pub struct SharedReplica<S: RowStore + Drop, J: ReplicaNaming>
where
    Version<S, J>: Absorb<CopyStep<J>, State = Common>,
{
    lock: Lock<S, J>,
    jobs: Arc<Jobs>,
    seats: Mutex<Seats<S, J>>,
    watch: Mutex<Watch>,
}

/// The memory of a replica: the places for jobs, the words of the status, and the queue.
#[derive(Drop)]
struct Made {
    kept: KeptJobs,
    status: Status,
    watch: Watch,
    jobs: Arc<Jobs>,
    outlet: Outlet,
}

impl Made {
    fn new(alloc: Global) -> Result<Made, Memory>
        ensures kept { IfOk result (λ made. made.kept ≡ []) }
        ensures status { IfOk result (λ made. made.status.stored ≡ []) }
        ensures outlet { IfOk result (λ made. made.outlet ≡ empty_outlet) }
    {
        let kept = KeptJobs::new(alloc)?;
        let mut status = Status::new(alloc)?;
        let watch = status.watch()?;
        let (jobs, outlet) = Outlet::new(alloc)?;
        Ok(Made {
            kept,
            status,
            watch,
            jobs,
            outlet,
        })
    }
}

impl<S: RowStore + Drop, J: ReplicaNaming> SharedReplica<S, J> {
    /// Over a new core, and a publisher that has published only the load of the same rows, with the seats that it has.
    /// Both keep the order of the log, or neither does. The core may let committed records go. It takes the memory of 64
    /// places for jobs, of the queue, and of the status. If that is refused, it closes the publisher, and waits for the
    /// readers.
    pub fn new(
        rt: &impl Wait,
        alloc: Global,
        core: ReplicaCore<S>,
        publisher: Publisher<S, J>,
        seats: Vec<ReadSeat<S, J>>,
    ) -> Result<SharedReplica<S, J>, Memory>
        // The name is that of this core.
        requires core { IsNewReplica J.names J.preserve core }
        requires publisher { publisher ≡ loaded_alone J.names.base }
        requires seats { All (λ seat. seat ≡ Load J.names.base ∷ []) seats.items }
        requires known { IsKnown J.names J.preserve J.known }
    {
        match Made::new(alloc) {
            Ok(made) => Ok(SharedReplica::over(core, publisher, seats, made)),
            Err(memory) => {
                drop(publisher.close(rt));
                Err(memory)
            }
        }
    }

    // Like `new`, in memory that was taken already.
    fn over(
        core: ReplicaCore<S>,
        publisher: Publisher<S, J>,
        seats: Vec<ReadSeat<S, J>>,
        made: Made,
    ) -> SharedReplica<S, J>
        requires core { IsNewReplica J.names J.preserve core }
        requires publisher { publisher ≡ loaded_alone J.names.base }
        requires seats { All (λ seat. seat ≡ Load J.names.base ∷ []) seats.items }
        requires kept { made.kept ≡ [] }
        requires status { made.status.stored ≡ [] }
        requires outlet { made.outlet ≡ empty_outlet }
        requires known { IsKnown J.names J.preserve J.known }
    {
        let Made {
            kept,
            status,
            watch,
            jobs,
            outlet,
        } = made;
        SharedReplica {
            lock: Lock::new(Coordinator::new(core, publisher, status, kept, outlet)),
            jobs,
            seats: Mutex::new(Seats::new(seats)),
            watch: Mutex::new(watch),
        }
    }

    /// Accepts a copy of the record if it is the next one, like the core's `receive`; then dispatches what may be. The
    /// time and the memory are the core's. After `P9` the record may have been accepted: a second `receive` then skips
    /// it.
    pub fn receive(
        &self,
        rt: &impl Wait,
        from: Uuid,
        new: &Record,
    ) -> Result<Received, ReplicaFault>
        // If the log is known before, this is the record of its number there.
        requires known { IsInLog J.names.log new.now }
        ensures answer { Receives J.names J.preserve from new.now result }
        ensures foreign { bytes_eq from J.names.source ≡ false
            → IsErrAnd result (λ fault. (fault ≡ ReplicaFault.ForeignSource) ⊎ IsStop fault) }
        ensures own { result ≡ Err ReplicaFault.ForeignSource → bytes_eq from J.names.source ≡ false }
    {
        let mut held = self.lock.take_soon(rt);
        let answer = held.coordinator().receive(rt, from, new);
        held.let_go();
        answer
    }

    /// Takes a piece of a log's bytes, like the wire's `take` over the core: each record that is whole then is one
    /// `receive`, in order, after those that waited. Then it dispatches what may be. Returns the number of records taken,
    /// with those that were skipped. The time and the memory are those of `take`. A piece that makes no record whole does
    /// not wait for the lock if no record waited.
    ///
    /// A fault is `take`'s own. After `Codec` and `Waiting` nothing of the piece is taken, and it may be sent again.
    /// After `Replica` it is taken, and must not be sent again. If all records were taken and memory ran out for what
    /// follows, the fault is `Replica` with `P9`. No record waits then, and the next call that accepts a record, or a
    /// worker, does what is left.
    pub fn feed(&self, rt: &impl Wait, wire: &mut Wire, piece: &[u8]) -> Result<u64, WireFault>
        // If the log is known before, each record that waits or is whole with the piece is the one of its number there.
        requires known { AreInLog J.names.log wire.old piece.now }
        ensures { Feeds J.names J.preserve wire.old piece.now result wire.new }
    {
        if wire.waiting().is_empty() {
            self.feed_first(rt, wire, piece)
        } else {
            let mut held = self.lock.take_soon(rt);
            let answer = held.coordinator().take(rt, wire, piece);
            held.let_go();
            answer
        }
    }

    // Like `feed`, if no record waits: the piece is gathered without the lock.
    fn feed_first(&self, rt: &impl Wait, wire: &mut Wire, piece: &[u8]) -> Result<u64, WireFault>
        requires empty { wire.old.waiting ≡ [] }
        requires known { AreInLog J.names.log wire.old piece.now }
        ensures { Feeds J.names J.preserve wire.old piece.now result wire.new }
    {
        if let Err(fault) = wire.gather(piece) {
            return Err(WireFault::Codec(fault));
        }
        if wire.waiting().is_empty() {
            return Ok(0);
        }
        let mut held = self.lock.take_soon(rt);
        let answer = held.coordinator().hand(rt, wire);
        held.let_go();
        answer
    }

    /// Executes jobs until `close` was called and all accepted records are committed and published. It claims a job under
    /// the lock, takes it from the queue and executes it without the lock, and hands in the result. In the same holding
    /// of the lock it commits what it can: in log order if that is kept, else in the order of the results. It publishes
    /// that at once, and dispatches what may run then.
    ///
    /// It ends with `P5` once the replica is stopped, also by this worker's own job, and with `P9` if memory ran out. A
    /// job that ran out of memory when it was executed is kept in one of 64 places, and the next worker takes it before
    /// those of the queue. A job whose push was refused waits in a separate place, and is pushed first. What was
    /// committed stays, and the next worker or accepted record publishes it.
    ///
    /// A worker that ends with `P9` wakes another one that waits, to do what is left. That one may end the same way, and
    /// in the end all of them. Then nothing is done, and calls of `wait_for` wait on, until `worker` is called again: it
    /// goes on from there. So if memory may run out, call it again after `P9`.
    ///
    /// No more jobs are out than the core has workers: a further worker waits, as it does if there is no job. A job costs
    /// what `execute` does. Under the lock it costs its copying, and the commit and the publication of what it leaves.
    pub fn worker<G: WorkerGate>(
        &self,
        rt: &impl Wait,
        alloc: Global,
        gate: &G,
    ) -> Result<(), ReplicaFault> {
        let mut pass = self.jobs.pass();
        let mut room = Room::new(alloc);
        for _ in rt.forever() {
            let Some(job) = self.next_job(rt, &mut pass)? else {
                return Ok(());
            };
            let gno = job.gno;
            gate.entered(gno);
            let handed = self.hand_in(rt, execute_in(&mut room, job));
            gate.left(gno);
            handed?;
        }
        unreachable!()
    }

    // A job, once there is one. `None` if no more come.
    fn next_job(&self, rt: &impl Wait, pass: &mut Pass) -> Result<Option<Job>, ReplicaFault>
        requires { IsPassOf (arc_value self.now.jobs) pass.old }
        ensures { IsPassOf (arc_value self.now.jobs) pass.new }
    {
        for _ in rt.forever() {
            match self.next(rt)? {
                Next::Kept(job) => return Ok(Some(job)),
                Next::Claim(claim) => return Ok(Some(self.steal(rt, pass, claim))),
                Next::Ended => return Ok(None),
                Next::Nothing => {}
            }
        }
        unreachable!()
    }

    // Waits until there is something for a worker, and returns it.
    fn next(&self, rt: &impl Wait) -> Result<Next, ReplicaFault> {
        let mut held = self.lock.take(rt).wait_for_work(rt);
        let next = held.coordinator().next(rt);
        held.let_go();
        next
    }

    // The job that was claimed. For each claim one is in the queue: it was pushed under the lock before it was claimed,
    // and nobody steals without a claim. So a try finds none only while that push can't be seen yet, or if another thread
    // takes the first job or goes on to the queue's next block at this moment. All of these end soon, unless a thread
    // loses the processor meanwhile. So this tries a few times, and from then on yields the processor after each try.
    fn steal(&self, rt: &impl Wait, pass: &mut Pass, claim: Claim) -> Job
        requires { IsPassOf (arc_value self.now.jobs) pass.old }
        ensures { IsPassOf (arc_value self.now.jobs) pass.new }
    {
        let backoff = Backoff::new();
        let mut claim = claim;
        for _ in rt.forever() {
            match self.jobs.try_claimed(rt, pass, claim) {
                Ok(job) => return job,
                Err(back) => claim = back,
            }
            backoff.snooze();
        }
        unreachable!()
    }

    fn hand_in(&self, rt: &impl Wait, done: JobResult) -> Result<(), ReplicaFault>
        requires { IsResult done }
    {
        let mut held = self.lock.take(rt);
        let handed = held.coordinator().hand_in(rt, done);
        held.let_go();
        handed
    }

    /// Waits until each commit from 1 to this gno is published, and returns what is published then. If the order of the
    /// log is kept, it waits for the commit of this gno. `P5` if the replica is stopped and one of these commits is not
    /// published, with the number of the record that did not apply. The commit of this gno may itself be published then,
    /// if an earlier one is not. It waits forever if the record of this gno never comes, or if no worker runs, also if
    /// all of them ended with `P9`. It takes no memory.
    pub fn wait_for(&self, rt: &impl Wait, gno: u64) -> Result<Notice<J>, ReplicaFault>
        ensures upto { IfOk result (λ notice. gno ≤ low_of (gnos_of notice)) }
        ensures in_order { J.preserve ≡ true → IfOk result (λ notice. gno ≤ commits_in notice) }
        ensures history { IfOk result (λ notice. IsHistory J.preserve notice) }
        ensures begins { IfOk result (λ notice. IsPrefix (Load J.names.base ∷ []) notice) }
        ensures stop { IfErr result (TellsStop J.names J.preserve gno) }
    {
        let all = Interval {
            first: 1,
            last: gno,
        };
        self.wait_for_each(rt, &[all])
    }

    /// Waits until the commit of each id of the set is published, like MySQL's `WAIT_FOR_EXECUTED_GTID_SET` without a
    /// timeout, and returns what is published then. `P2` at once if the set has ids of another source than the replica's.
    /// `P5` if the replica is stopped and the commit of one of the ids is not published.
    ///
    /// If the order of the log is kept, it is `wait_for` of the set's greatest number, since no commit is published
    /// before an earlier one. Else it waits for these commits only. Each time it wakes it then looks, for each interval,
    /// at the commits that are not published, and at 4096 records at most. The empty set waits for nothing. It takes no
    /// memory.
    pub fn wait_for_set(&self, rt: &impl Wait, set: &GtidSet) -> Result<Notice<J>, ReplicaFault>
        ensures foreign { takes_source set.now.source J.names.source ≡ false → result ≡ Err ReplicaFault.ForeignSource }
        ensures has { IfOk result (λ notice. AreAmong (gnos_of notice) set.now) }
        ensures in_order { J.preserve ≡ true → IfOk result (λ notice. AreUpTo (commits_in notice) set.now) }
        ensures history { IfOk result (λ notice. IsHistory J.preserve notice) }
        ensures begins { IfOk result (λ notice. IsPrefix (Load J.names.base ∷ []) notice) }
        ensures stop { takes_source set.now.source J.names.source ≡ true
            → IfErr result (TellsStopOf J.names J.preserve set.now) }
    {
        let (own, preserve) = self.named(rt);
        match set.source() {
            Some(source) if source != own => Err(ReplicaFault::ForeignSource),
            _ => self.wait_for_ids(rt, set, preserve),
        }
    }

    // Like `wait_for_set`, for ids of the replica's own source.
    fn wait_for_ids(
        &self,
        rt: &impl Wait,
        set: &GtidSet,
        preserve: bool,
    ) -> Result<Notice<J>, ReplicaFault>
        requires { preserve ≡ J.preserve }
        ensures has { IfOk result (λ notice. AreAmong (gnos_of notice) set.now) }
        ensures history { IfOk result (λ notice. IsHistory J.preserve notice) }
        ensures begins { IfOk result (λ notice. IsPrefix (Load J.names.base ∷ []) notice) }
        ensures stop { IfErr result (TellsStopOf J.names J.preserve set.now) }
    {
        let ids = set.intervals();
        if !preserve {
            return self.wait_for_each(rt, ids);
        }
        let last = set.greatest().unwrap_or(0);
        self.wait_for_each(rt, &[Interval { first: 1, last }])
    }

    // Waits until each of these commits is published, and returns what is published then.
    fn wait_for_each(&self, rt: &impl Wait, wanted: &[Interval]) -> Result<Notice<J>, ReplicaFault>
        requires { AllByRecursion (λ i. 1 ≤ i.first) wanted.now }
        ensures all { IfOk result (λ notice. has_all (gnos_of notice) wanted.now ≡ true) }
        ensures history { IfOk result (λ notice. IsHistory J.preserve notice) }
        ensures begins { IfOk result (λ notice. IsPrefix (Load J.names.base ∷ []) notice) }
        ensures stop { IfErr result (TellsStopBehind J.names J.preserve wanted.now) }
    {
        let mut held = self.lock.take(rt).wait_for_commits(rt, wanted);
        let notice = held.coordinator().notice(wanted);
        held.let_go();
        notice
    }

    // The source whose records it takes, and whether it commits in the order of the log.
    fn named(&self, rt: &impl Wait) -> (Uuid, bool)
        ensures { (result.0 ≡ J.names.source) × (result.1 ≡ J.preserve) }
    {
        let mut held = self.lock.take(rt);
        let coordinator = held.coordinator();
        let named = (coordinator.source(), coordinator.preserve());
        held.let_go();
        named
    }

    /// One of the seats: it has seen the rows before the first commit. `None` exactly if all are out. It takes no memory.
    pub fn seat(&self, rt: &impl Wait) -> Option<ReadSeat<S, J>>
        ensures { IfSome result (λ seat. seat ≡ Load J.names.base ∷ []) }
    {
        self.seats.lock(rt).take()
    }

    /// How many calls wait now: those of `worker` that have no job, and those of `wait_for` and `wait_for_set`. It takes
    /// the lock.
    pub fn sleepers(&self, rt: &impl Wait) -> Sleepers {
        let mut held = self.lock.take(rt);
        let sleepers = held.coordinator().sleepers();
        held.let_go();
        sleepers
    }

    /// How often waiting calls looked whether there is what they wait for, since the replica was made: each once as it
    /// begins to wait, and once each time it wakes. So two calls of it show how many were woken in between. It takes the
    /// lock.
    pub fn looks(&self, rt: &impl Wait) -> Looks {
        let mut held = self.lock.take(rt);
        let looks = held.coordinator().looks();
        held.let_go();
        looks
    }

    /// How many records were accepted, and how many of these are committed and published, in whatever order. It does not
    /// wait for a worker that holds the coordinator's lock.
    pub fn status(&self, rt: &impl Wait) -> Counts
        ensures { InOrder result }
    {
        self.watch.lock(rt).load(rt)
    }

    /// No more records come: workers end once all that were accepted are committed and published.
    pub fn close(&self, rt: &impl Wait) {
        let mut held = self.lock.take(rt);
        held.coordinator().close();
        held.let_go();
    }

    /// The core and the publisher, over the tables and the rows that they were made with. The operations of the core's
    /// first commits are published, in their order. If the order of the log is kept, they are those of the first records
    /// that it accepted. What was committed but not published, for example because memory ran out, may wait in the
    /// publisher. The seats that are not out are dropped. It takes no memory, and waits for nobody.
    pub fn end(self) -> (ReplicaCore<S>, Publisher<S, J>)
        ensures named { IsReplicaOf J.names J.preserve result.0 }
        ensures published { result.1.published ≡ operations result.0.tables result.0.base (ran result.0) (commits_in result.1.published) }
        ensures in_order { J.preserve ≡ true
            → result.1.published ≡ operations_in_order result.0.tables result.0.base result.0.accepted (commits_in result.1.published) }
        ensures within { commits_in result.1.published ≤ length result.0.commits }
        ensures begins { IsPrefix (result.1.published ++ result.1.waiting)
            (operations result.0.tables result.0.base (ran result.0) (length result.0.commits)) }
        ensures shown { result.0.published ≡ commits_in result.1.published }
        ensures accepted { IsOfLog J.names.log result.0.accepted }
        ensures keeps { result.0.keeps ≡ J.names.keeps }
    {
        let SharedReplica {
            lock,
            jobs: _,
            seats: _,
            watch: _,
        } = self;
        lock.into_inner().end()
    }
}
