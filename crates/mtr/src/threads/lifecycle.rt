//! The two sides, from their opening to their end.

ghost use Rattle.std.specs.Prelude.{◌≡◌, None, All, IfOk, true};
ghost use Rattle.source_core.specs.Source.{new_source};
ghost use Rattle.log_file.specs.Log.{IsNew};
ghost use Rattle.mtr.specs.Options.{AreSides, IsInRange};
ghost use Rattle.any_tracker.specs.Any.{IsNewTracker};
ghost use Rattle.mtr.specs.Reading.{AreTold};
ghost use Rattle.mtr.specs.Threads.{IsEnded};
ghost use Rattle.replica_shared.specs.Names.{replica_names, IsNewReplica, IsReplicaOf, OpensReplica};
ghost use Rattle.source_shared.specs.Engine.{IsCommitted};

use super::changes::TABLE;
use super::ended::{Counts, Ended};
use super::reading::Shown;
use super::shared::{Met, Replica, Shared, Source};
use super::trouble::Trouble;
use crate::options::{Options, Plan, Sides};
use crate::pair::{MAX_RECORDS, NewStore, SOURCE, parts_over};
use log_device::MemoryDevice;
use published::{LeftRight, OpenError, Publisher, open};
use replica_core::ReplicaCore;
use replica_shared::{ReplicaNaming, SharedReplica};
use schema::{Schema, SchemaFault, Table};
use source_core::{Receipt as Given, SourceCore};
use source_shared::{Receipt, SharedSource, SourceNaming};
use std::alloc::{AllocError, Global};
use std::marker::Brand;
use std::sync::Wait;
use std::thread::Threads;
use store_trait::Batch;
use tracker_trait::Tracker;
use uuid::Uuid;
use world::{Pair, pair_of};

/// Both sides before they are shared by threads.
type Cores<S, T> = Pair<S, T, MemoryDevice>;

/// Like `Met`, but with what each reader saw instead of the readers.
type Told<J> = (Vec<Receipt<J>>, Vec<Vec<Shown>>, Counts);

/// Opens both sides over no rows, runs all threads, compares the rows, and ends both.
pub fn open_and_run<S: NewStore, T: Tracker + Drop + Send + Sync, H: Threads + Wait + Sync>(
    rt: &H,
    alloc: Global,
    tracker: T,
    plan: &Plan,
) -> Result<Ended<S, T>, Trouble>
    requires tracker { IsNewTracker T.agrees tracker }
    requires plan { IsInRange (Options.Threads plan.now) }
    ensures { IfOk result (IsEnded plan.now) }
{
    let cores = new_cores::<S, T>(alloc, plan.sides, tracker)?;
    let base = match cores.replica.base().copy() {
        Ok(base) => base,
        Err(fault) => {
            drop(cores);
            return Err(fault.into());
        }
    };
    run_named::<S, T, Brand, Brand, H>(
        rt,
        alloc,
        plan,
        cores,
        source_shared::Beginning::new(),
        published::Beginning::of(base),
    )
}

/// Table 1, of two columns.
fn schema(alloc: Global) -> Result<Schema, Trouble> {
    let tables = vec![in alloc; Table::new(TABLE, 2, true)]?;
    match Schema::new(tables) {
        Ok(schema) => Ok(schema),
        Err(SchemaFault::Memory) => Err(Trouble::Memory),
        Err(_) => unreachable!(),
    }
}

/// A new source, a new log file and a new replica, without rows. `sides` says how many workers the replica has, and
/// whether it commits in the order of the log.
fn new_cores<S: NewStore, T: Tracker + Drop>(
    alloc: Global,
    sides: Sides,
    tracker: T,
) -> Result<Cores<S, T>, Trouble>
    requires sides { AreSides sides }
    requires tracker { IsNewTracker T.agrees tracker }
    ensures source { IfOk result (λ made. made.source ≡ new_source made.source.tables made.source.base made.source.limit made.source.kind) }
    ensures log { IfOk result (λ made. IsNew made.log.log) }
    ensures replica { IfOk result (λ made. IsNewReplica (replica_names made.replica) made.replica.preserve made.replica) }
    ensures order { IfOk result (λ made. made.replica.preserve ≡ sides.preserve) }
    ensures tables { IfOk result (λ made. made.replica.tables ≡ made.source.tables) }
    ensures keeps { IfOk result (λ made. made.replica.keeps ≡ true) }
{
    let (schema, from) = (schema(alloc)?, Uuid::from_bytes(SOURCE));
    let device = MemoryDevice::new(alloc);
    let (base, parts) = (
        Batch::new(alloc),
        parts_over::<S, T, MemoryDevice>(alloc, sides.store, tracker, device),
    );
    match pair_of(
        alloc,
        schema,
        from,
        &base,
        MAX_RECORDS,
        sides.workers,
        sides.preserve,
        parts,
    )? {
        Some(cores) => Ok(cores),
        None => Err(Trouble::Different),
    }
}

/// Runs both sides, with the source named by `J` and the replica by `K`. They end as that source and that replica, over
/// the rows and tables with which they began.
fn run_named<
    S: NewStore,
    T: Tracker + Drop + Send + Sync,
    J: SourceNaming + Send + Sync,
    K: ReplicaNaming + Send + Sync,
    H: Threads + Wait + Sync,
>(
    rt: &H,
    alloc: Global,
    plan: &Plan,
    cores: Cores<S, T>,
    receipts: source_shared::Beginning,
    publication: published::Beginning,
) -> Result<Ended<S, T>, Trouble>
    requires plan { IsInRange (Options.Threads plan.now) }
    requires source { cores.source ≡ new_source cores.source.tables cores.source.base cores.source.limit cores.source.kind }
    requires log { IsNew cores.log.log }
    requires source_base { cores.source.base ≡ J.base }
    requires source_tables { cores.source.tables ≡ J.tables }
    requires receipts { receipts ≡ J.book }
    requires replica { OpensReplica K.names K.preserve K.book K.known cores.replica publication }
    requires free { K.names.log ≡ None }
    requires keeps { K.names.keeps ≡ true }
    requires order { K.preserve ≡ plan.now.sides.preserve }
    requires tables { K.names.tables ≡ J.tables }
    ensures ended { IfOk result (IsEnded plan.now) }
    ensures source { IfOk result (λ ended. (ended.source.tables ≡ J.tables) × (ended.source.base ≡ J.base)) }
    ensures replica { IfOk result (λ ended. IsReplicaOf K.names K.preserve ended.replica) }
{
    let Pair {
        source,
        log,
        replica,
    } = cores;
    let source: Source<S, T, J> = match SharedSource::new(alloc, source, log, receipts) {
        Ok(source) => source,
        Err(fault) => {
            drop(replica);
            return Err(fault.into());
        }
    };
    let replica: Replica<S, K> = match new_replica(rt, alloc, plan, replica, publication) {
        Ok(replica) => replica,
        Err(trouble) => {
            drop(source);
            return Err(trouble);
        }
    };
    let shared = Shared {
        rt,
        alloc,
        plan,
        source: &source,
        replica: &replica,
    };
    let met = shared.meet();
    let published = replica.status(rt).published;
    end_all(rt, alloc, plan, source, replica, met, published)
}

/// Both sides as they ended, once the threads came to `met` and the replica reported that it has published this number
/// of commits.
fn end_all<
    S: NewStore,
    T: Tracker + Drop + Send + Sync,
    J: SourceNaming + Send + Sync,
    K: ReplicaNaming + Send + Sync,
    H: Wait,
>(
    rt: &H,
    alloc: Global,
    plan: &Plan,
    source: Source<S, T, J>,
    replica: Replica<S, K>,
    met: Result<Met<S, J, K>, Trouble>,
    published: u64,
) -> Result<Ended<S, T>, Trouble>
    requires order { K.preserve ≡ plan.now.sides.preserve }
    requires tables { K.names.tables ≡ J.tables }
    requires keeps { K.names.keeps ≡ true }
    ensures ended { IfOk result (IsEnded plan.now) }
    ensures source { IfOk result (λ ended. (ended.source.tables ≡ J.tables) × (ended.source.base ≡ J.base)) }
    ensures replica { IfOk result (λ ended. IsReplicaOf K.names K.preserve ended.replica) }
{
    let (replica, publisher) = replica.end();
    let told = tell_all(alloc, met, &publisher);
    drop(publisher.close(rt));
    let (receipts, readings, counts) = match told {
        Ok(told) => told,
        Err(trouble) => {
            drop((source, replica));
            return Err(trouble);
        }
    };
    let (source, given) = match end_source(alloc, source, receipts) {
        Ok(ended) => ended,
        Err(fault) => {
            drop(replica);
            return Err(fault.into());
        }
    };
    Ok(Ended {
        source,
        replica,
        receipts: given,
        readings,
        counts,
        published,
    })
}

/// The source as it ended, and the receipts of its records.
fn end_source<S: NewStore, T: Tracker + Drop + Send + Sync, J: SourceNaming>(
    alloc: Global,
    source: Source<S, T, J>,
    receipts: Vec<Receipt<J>>,
) -> Result<(SourceCore<S, T>, Vec<Given>), AllocError>
    ensures tables { IfOk result (λ ended. ended.0.tables ≡ J.tables) }
    ensures base { IfOk result (λ ended. ended.0.base ≡ J.base) }
    ensures keeps { IfOk result (λ ended. ended.0.keeps ≡ true) }
    ensures receipts { IfOk result (λ ended. All (IsCommitted ended.0) ended.1.items) }
{
    let core = source.end(&receipts);
    Ok((core, given_all(alloc, receipts)?))
}

/// What the threads came to, with all that each reader saw. Each seat first learns all that was published.
fn tell_all<S: NewStore, J: SourceNaming, K: ReplicaNaming>(
    alloc: Global,
    met: Result<Met<S, J, K>, Trouble>,
    publisher: &Publisher<S, K>,
) -> Result<Told<J>, Trouble>
    ensures { IfOk result (λ told. All (λ v. AreTold K.preserve publisher.now.published v.items) told.1.items) }
{
    let (receipts, readers, counts) = met?;
    let mut readings = Vec::with_capacity(alloc, readers.len())?;
    for reader in readers {
        readings.push(reader.into_shown(publisher.tell()))?;
    }
    Ok((receipts, readings, counts))
}

/// The receipts in the form in which the core gave them.
fn given_all<J: SourceNaming>(
    alloc: Global,
    receipts: Vec<Receipt<J>>,
) -> Result<Vec<Given>, AllocError>
    ensures { IfOk result (λ all. all.items ≡ receipts.items) }
{
    let mut all = Vec::with_capacity(alloc, receipts.len())?;
    for receipt in receipts {
        all.push(receipt.into_given())?;
    }
    Ok(all)
}

/// The replica for many threads, with the seats of the plan.
fn new_replica<S: NewStore, K: ReplicaNaming, H: Wait>(
    rt: &H,
    alloc: Global,
    plan: &Plan,
    core: ReplicaCore<S>,
    publication: published::Beginning,
) -> Result<Replica<S, K>, Trouble>
    requires plan { IsInRange (Options.Threads plan.now) }
    requires replica { OpensReplica K.names K.preserve K.book K.known core publication }
{
    let (first, second) = (
        S::without_rows(alloc, plan.sides.store),
        S::without_rows(alloc, plan.sides.store),
    );
    let (preserve, seats) = (core.preserve(), plan.seats);
    match open::<S, K, H, LeftRight>(rt, alloc, publication, preserve, first, second, seats) {
        Ok((publisher, seats)) => Ok(SharedReplica::new(rt, alloc, core, publisher, seats)?),
        Err(fault) => {
            drop(core);
            Err(match fault {
                OpenError::Memory => Trouble::Memory,
                OpenError::SeatRefused => Trouble::Different,
            })
        }
    }
}
