//! An example of a program that embeds the pair with both sides at work at once. While sessions commit, a wire sends
//! what is synced, and two workers execute it. Readers wait for the commit that a client reported, and read it through
//! seats that they share. Each of these has a separate thread. The output is the same, whatever the order of their
//! steps.
//!
//! `docs/EMBEDDING.md` goes through it.
#![tactic(auto)]

ghost use Rattle.std.specs.Prelude.{◌≡◌, None};
ghost use Rattle.source_core.specs.Source.{new_source};
ghost use Rattle.log_file.specs.Log.{IsNew};
ghost use Rattle.replica_shared.specs.Names.{OpensReplica};

mod clients;
mod connecting;
mod trouble;

use btree_store::BTreeStore;
use clients::{ACCOUNTS, Client, JOINT, balance, pool, read, read_all, row, serve};
use commit_order_tracker::CommitOrder;
use connecting::{Replica, Source, carry, new_replica, work};
use log_device::MemoryDevice;
use published::Answer;
use replica_core::ReplicaCore;
use replica_shared::ReplicaNaming;
use rows::Row;
use schema::{Schema, Table};
use source_shared::{Receipt, SharedSource, SourceNaming};
use std::alloc::Global;
use std::fmt::Display;
use std::io;
use std::marker::Brand;
use std::process::ExitCode;
use std::random::RandomSource;
use std::sync::Wait;
use std::thread::{Threads, join};
use std::time::Clock;
use store_trait::Batch;
use trouble::Trouble;
use uuid::Uuid;
use world::{Pair, PairParts, begins, pair_of};

/// What is printed at the end.
#[derive(Drop)]
struct Told {
    refusal: Trouble,
    accounts: Vec<Answer>,
    joint: Answer,
    is_beginning: bool,
}

fn main(rt: HostRuntime) -> ExitCode {
    match open(&rt, rt.alloc()) {
        Ok(told) => match tell(&rt, &told) {
            Ok(()) => ExitCode::SUCCESS,
            Err(error) => fail(&rt, &error),
        },
        Err(trouble) => fail(&rt, &trouble),
    }
}

/// Prints why the program stops, as one line. If that can't be written either, only the exit status shows it.
fn fail<D: Display>(rt: &impl Eprint, why: &D) -> ExitCode {
    let _ = eprintln!(rt; "{why}");
    ExitCode::FAILURE
}

fn tell(rt: &impl Print, told: &Told) -> io::Result<()> {
    println!(rt; "refused at first: {}", told.refusal)?;
    for account in told.accounts.iter() {
        println!(rt; "a client reads {}", balance(&account.row))?;
    }
    let (commits, joint) = (told.joint.upto, balance(&told.joint.row));
    println!(rt; "{commits} commits at the replica, {joint} in the joint account")?;
    println!(rt; "a beginning of the source's log: {}", told.is_beginning)
}

/// Opens both sides over a schema and the joint account, and runs them.
fn open<R: RandomSource + Threads + Wait + Clock + Sync>(
    rt: &R,
    alloc: Global,
) -> Result<Told, Trouble> {
    let tables = vec![in alloc; Table::new(ACCOUNTS, 2, true)]?;
    let schema = Schema::new(tables)?;
    let source = Uuid::try_new_v4(rt).map_err(|error| Trouble::NoIdentifier(error))?;
    let empty = Row::new(&[0, 0]).ok_or(Trouble::Misfit)?;
    let joint = vec![in alloc; (row(JOINT), Some(empty))]?;
    let joint = Batch::from_entries(joint).ok_or(Trouble::Misfit)?;
    let parts = PairParts {
        rows: BTreeStore::new(alloc),
        copy: BTreeStore::new(alloc),
        tracker: CommitOrder,
        device: MemoryDevice::new(alloc),
    };
    // 1000 records at most, two workers, and commits in the order of the log.
    let pair = pair_of(alloc, schema, source, &joint, 1000, 2, true, parts)?;
    let pair = pair.ok_or(Trouble::Misfit)?;
    let base = pair.replica.base().copy()?;
    run::<Brand, Brand, R>(
        rt,
        alloc,
        pair,
        source_shared::Beginning::new(),
        published::Beginning::of(base),
    )
}

/// Runs both sides to their end, with `J` naming the source and `K` the replica.
fn run<
    J: SourceNaming + Send + Sync,
    K: ReplicaNaming + Send + Sync,
    R: Threads + Wait + Clock + Sync,
>(
    rt: &R,
    alloc: Global,
    pair: Pair<BTreeStore, CommitOrder, MemoryDevice>,
    receipts: source_shared::Beginning,
    publication: published::Beginning,
) -> Result<Told, Trouble>
    requires source { pair.source ≡ new_source pair.source.tables pair.source.base pair.source.limit pair.source.kind }
    requires log { IsNew pair.log.log }
    requires source_base { pair.source.base ≡ J.base }
    requires source_tables { pair.source.tables ≡ J.tables }
    requires receipts { receipts ≡ J.book }
    requires replica { OpensReplica K.names K.preserve K.book K.known pair.replica publication }
    // The replica's log is not known in advance.
    requires free { K.names.log ≡ None }
{
    let Pair {
        source,
        log,
        replica,
    } = pair;
    let from = replica.source();
    let source: Source<J> = SharedSource::new(alloc, source, log, receipts)?;
    let replica: Replica<K> = new_replica(rt, alloc, replica, publication)?;
    let met = meet(rt, alloc, from, &source, &replica);
    // No thread is left, however they ended. A publisher must be closed; a source may be dropped.
    let (replica, publisher) = replica.end();
    drop(publisher.close(rt));
    let told = compare(source, &replica, met);
    drop(replica);
    told
}

/// What is printed once no thread is left. To end, the source needs the receipts that it gave.
fn compare<J: SourceNaming>(
    source: Source<J>,
    replica: &ReplicaCore<BTreeStore>,
    met: Result<(Vec<Receipt<J>>, Told), Trouble>,
) -> Result<Told, Trouble> {
    let (receipts, mut told) = met?;
    let source = source.end(&receipts);
    told.is_beginning = begins(&source, replica) == Some(true);
    Ok(told)
}

/// What both sides do between their opening and their end. Of two closures the first is the one that waits for the
/// other: readers wait for workers, workers for the wire, the wire for the sessions, and sessions for nobody.
fn meet<
    J: SourceNaming + Send + Sync,
    K: ReplicaNaming + Send + Sync,
    R: Threads + Wait + Clock + Sync,
>(
    rt: &R,
    alloc: Global,
    from: Uuid,
    source: &Source<J>,
    replica: &Replica<K>,
) -> Result<(Vec<Receipt<J>>, Told), Trouble>
    requires { K.names.log ≡ None }
{
    let clients = [Client::new(1), Client::new(2), Client::new(3)];
    let pool = pool(rt, alloc, replica)?;
    let (accounts, (worked, (sent, served))) = join(
        rt,
        || read_all(rt, alloc, replica, &pool, &clients),
        ||
            requires { K.names.log ≡ None }
        {
            join(
                rt,
                || join(rt, || work(rt, alloc, replica), || work(rt, alloc, replica)),
                ||
                    requires { K.names.log ≡ None }
                {
                    join(
                        rt,
                        || carry(rt, alloc, from, source, replica),
                        || serve(rt, alloc, source, &clients),
                    )
                },
            )
        },
    );
    let (refusal, receipts) = served?;
    sent?;
    worked.0?;
    worked.1?;
    let told = Told {
        refusal,
        accounts: accounts?,
        joint: read(rt, replica, &pool, 0, receipts.len() as u64, JOINT)?,
        is_beginning: false,
    };
    Ok((receipts, told))
}
