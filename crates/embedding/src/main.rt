//! An example of a program that embeds the pair. Two threads commit at the source, and its log goes to the replica as
//! bytes. The program waits for each commit there, and reads it. Then both sides end, and are compared.
//!
//! If memory runs out in a call that leaves something under way, it makes the call again, up to a bound. After that,
//! and after any other refusal, both sides end, and it prints why.
//!
//! `docs/EMBEDDING.md` goes through it.
#![tactic(auto)]

ghost use Rattle.std.specs.Prelude.{◌≡◌, None};
ghost use Rattle.source_core.specs.Source.{new_source};
ghost use Rattle.log_file.specs.Log.{IsNew};
ghost use Rattle.replica_shared.specs.Names.{OpensReplica};

mod connecting;
mod trouble;

use btree_store::BTreeStore;
use commit_order_tracker::CommitOrder;
use connecting::{Replica, Source, TRIES, new_replica, pause, send};
use log_device::MemoryDevice;
use published::{Answer, ReadSeat};
use relay::ReplicaFault;
use replica_core::ReplicaCore;
use replica_shared::{NoGate, ReplicaNaming};
use rows::{Change, Row};
use schema::{RowId, Schema, Table};
use source_core::SourceFault;
use source_shared::{Receipt, SessionSeat, SharedSource, SourceNaming};
use std::alloc::Global;
use std::fmt::Display;
use std::io;
use std::marker::Brand;
use std::process::ExitCode;
use std::random::RandomSource;
use std::sync::Wait;
use std::thread::{Threads, join};
use std::time::Clock;
use store_trait::{Batch, RowStore};
use trouble::Trouble;
use uuid::Uuid;
use world::{Pair, PairParts, begins, pair_of};

/// The table of the owners, each with a number that no other one has.
const OWNERS: u16 = 1;

/// The table of the accounts, each with the key of its owner, and a balance.
const ACCOUNTS: u16 = 2;

/// What is printed at the end.
#[derive(Clone, Copy)]
struct Told {
    commits: u64,
    first: Option<Row>,
    second: Option<Row>,
    sum: i64,
    is_beginning: bool,
}

fn main(rt: HostRuntime) -> ExitCode {
    match open(&rt, rt.alloc()) {
        Ok(told) => match tell(&rt, &told) {
            Ok(()) => ExitCode::SUCCESS,
            Err(error) => fail(&rt, &error),
        },
        Err(trouble) => fail(&rt, &trouble),
    }
}

/// Prints why the program stops, as one line. If that can't be written either, only the exit status shows it.
fn fail<D: Display>(rt: &impl Eprint, why: &D) -> ExitCode {
    let _ = eprintln!(rt; "{why}");
    ExitCode::FAILURE
}

fn tell(rt: &impl Print, told: &Told) -> io::Result<()> {
    println!(rt; "{} commits at the replica", told.commits)?;
    println!(rt; "{} {}", balance(&told.first), balance(&told.second))?;
    println!(rt; "{} in all accounts", told.sum)?;
    println!(rt; "a beginning of the source's log: {}", told.is_beginning)
}

/// The balance of an account, or -1 if there is none.
fn balance(row: &Option<Row>) -> i64 {
    match row {
        Some(row) => row.columns().get(1).copied().unwrap_or(-1),
        None => -1,
    }
}

/// Opens both sides over a schema and two owners, and runs them.
fn open<R: RandomSource + Threads + Wait + Clock + Sync>(
    rt: &R,
    alloc: Global,
) -> Result<Told, Trouble> {
    let owners = Table::new(OWNERS, 1, true).with_unique(0);
    let accounts = Table::new(ACCOUNTS, 2, true).child_of(0, OWNERS);
    let tables = vec![in alloc; owners, accounts]?;
    let schema = Schema::new(tables)?;
    let source = Uuid::try_new_v4(rt).map_err(|error| Trouble::NoIdentifier(error))?;
    let base = two_owners(alloc)?;
    let parts = PairParts {
        rows: BTreeStore::new(alloc),
        copy: BTreeStore::new(alloc),
        tracker: CommitOrder,
        device: MemoryDevice::new(alloc),
    };
    // 1000 records at most, two workers, and commits in the order of the log.
    let pair = pair_of(alloc, schema, source, &base, 1000, 2, true, parts)?;
    let pair = pair.ok_or(Trouble::Misfit)?;
    let base = pair.replica.base().copy()?;
    run::<Brand, Brand, R>(
        rt,
        alloc,
        pair,
        source_shared::Beginning::new(),
        published::Beginning::of(base),
    )
}

/// The rows at the start.
fn two_owners(alloc: Global) -> Result<Batch, Trouble> {
    let (first, second) = (owner(1), owner(2));
    let one = Row::new(&[3001]).ok_or(Trouble::Misfit)?;
    let two = Row::new(&[3002]).ok_or(Trouble::Misfit)?;
    let entries = vec![in alloc; (first, Some(one)), (second, Some(two))]?;
    Batch::from_entries(entries).ok_or(Trouble::Misfit)
}

/// Runs both sides to their end, with `J` naming the source and `K` the replica.
fn run<
    J: SourceNaming + Send + Sync,
    K: ReplicaNaming + Send + Sync,
    R: Threads + Wait + Clock + Sync,
>(
    rt: &R,
    alloc: Global,
    pair: Pair<BTreeStore, CommitOrder, MemoryDevice>,
    receipts: source_shared::Beginning,
    publication: published::Beginning,
) -> Result<Told, Trouble>
    requires source { pair.source ≡ new_source pair.source.tables pair.source.base pair.source.limit pair.source.kind }
    requires log { IsNew pair.log.log }
    requires source_base { pair.source.base ≡ J.base }
    requires source_tables { pair.source.tables ≡ J.tables }
    requires receipts { receipts ≡ J.book }
    requires replica { OpensReplica K.names K.preserve K.book K.known pair.replica publication }
    // The replica's log is not known in advance.
    requires free { K.names.log ≡ None }
{
    let Pair {
        source,
        log,
        replica,
    } = pair;
    let from = replica.source();
    let source: Source<J> = SharedSource::new(alloc, source, log, receipts)?;
    let replica: Replica<K> = new_replica(rt, alloc, replica, publication)?;
    let met = meet(rt, alloc, from, &source, &replica);
    // No thread is left, however they ended. A publisher must be closed; a source may be dropped.
    let (replica, publisher) = replica.end();
    drop(publisher.close(rt));
    let told = compare(source, &replica, met);
    drop(replica);
    told
}

/// What is printed once no thread is left. To end, the source needs the receipts that it gave.
fn compare<J: SourceNaming>(
    source: Source<J>,
    replica: &ReplicaCore<BTreeStore>,
    met: Result<(Vec<Receipt<J>>, Told), Trouble>,
) -> Result<Told, Trouble> {
    let (receipts, mut told) = met?;
    told.sum = sum(replica.store())?;
    let source = source.end(&receipts);
    told.is_beginning = begins(&source, replica) == Some(true);
    Ok(told)
}

/// What both sides do between their opening and their end.
fn meet<
    J: SourceNaming + Send + Sync,
    K: ReplicaNaming + Send + Sync,
    R: Threads + Wait + Clock + Sync,
>(
    rt: &R,
    alloc: Global,
    from: Uuid,
    source: &Source<J>,
    replica: &Replica<K>,
) -> Result<(Vec<Receipt<J>>, Told), Trouble>
    requires { K.names.log ≡ None }
{
    let (first, second) = join(
        rt,
        || commit(rt, source, 1, 10, 500),
        || commit(rt, source, 2, 20, 700),
    );
    // However these end, each side is closed, so that it expects no more.
    source.close(rt);
    let sent = send(rt, alloc, from, source, replica);
    replica.close(rt);
    sent?;
    let (first, second) = (first?, second?);
    // No thread waits at the replica meanwhile. If a worker gave up, that thread would wait forever.
    work(rt, alloc, replica)?;
    let told = read_both(rt, replica, &first, &second)?;
    Ok((vec![in alloc; first, second]?, told))
}

/// One session's transaction: it opens an account with this balance.
fn commit<J: SourceNaming>(
    rt: &(impl Wait + Clock),
    source: &Source<J>,
    session: u16,
    account: i64,
    balance: i64,
) -> Result<Receipt<J>, Trouble> {
    let values = Row::new(&[i64::from(session), balance]).ok_or(Trouble::Misfit)?;
    let mut seat = source.session(rt, session)?;
    source.begin(rt, &mut seat)?;
    source.write(
        rt,
        &mut seat,
        Change::Insert {
            row: row(account),
            values,
        },
    )?;
    source.prepare(rt, &mut seat)?;
    Ok(commit_prepared(rt, source, &mut seat)?)
}

/// Commits the seat's transaction. If memory runs out, the transaction stays in its stage, and the same call continues
/// from there.
fn commit_prepared<J: SourceNaming>(
    rt: &(impl Wait + Clock),
    source: &Source<J>,
    seat: &mut SessionSeat<J>,
) -> Result<Receipt<J>, SourceFault> {
    for _ in 0..TRIES {
        match source.commit(rt, seat) {
            Err(SourceFault::Memory) => pause(rt),
            answer => return answer,
        }
    }
    source.commit(rt, seat)
}

/// The row of an owner.
fn owner(key: i64) -> RowId {
    let table = OWNERS;
    RowId { table, key }
}

/// The row of an account.
fn row(account: i64) -> RowId {
    RowId {
        table: ACCOUNTS,
        key: account,
    }
}

/// Works until everything is committed, and then ends, since the replica is closed. A worker ends if memory runs out.
/// What it left is kept, so it is called again.
fn work<K: ReplicaNaming>(
    rt: &(impl Wait + Clock),
    alloc: Global,
    replica: &Replica<K>,
) -> Result<(), ReplicaFault> {
    for _ in 0..TRIES {
        match replica.worker(rt, alloc, &NoGate) {
            Err(ReplicaFault::Memory) => pause(rt),
            ended => return ended,
        }
    }
    replica.worker(rt, alloc, &NoGate)
}

/// What a reader sees of both accounts.
fn read_both<J: SourceNaming, K: ReplicaNaming>(
    rt: &impl Wait,
    replica: &Replica<K>,
    first: &Receipt<J>,
    second: &Receipt<J>,
) -> Result<Told, Trouble> {
    let mut reader = replica.seat(rt).ok_or(Trouble::Misfit)?;
    let one = read_own(rt, replica, &mut reader, first, row(10))?;
    let two = read_own(rt, replica, &mut reader, second, row(20))?;
    Ok(Told {
        commits: two.upto,
        first: one.row,
        second: two.row,
        sum: 0,
        is_beginning: false,
    })
}

/// Reads at the replica what was written at the source. It waits until the commit of the receipt is published there,
/// and returns the row as that commit or a later one leaves it.
fn read_own<J: SourceNaming, K: ReplicaNaming>(
    rt: &impl Wait,
    replica: &Replica<K>,
    reader: &mut ReadSeat<BTreeStore, K>,
    receipt: &Receipt<J>,
    row: RowId,
) -> Result<Answer, Trouble> {
    let notice = replica.wait_for(rt, receipt.given().gno)?;
    reader.learn(notice);
    reader.read(row).ok_or(Trouble::Misfit)
}

/// The sum of all balances, by a walk over the table's rows in the order of their keys.
fn sum<S: RowStore>(store: &S) -> Result<i64, Trouble> {
    let (mut sum, mut last) = (0i64, None);
    for _ in 0..store.len() {
        let Some((key, row)) = store.next_in_table(ACCOUNTS, last) else {
            break;
        };
        let with = sum.checked_add(balance(&Some(row)));
        sum = with.ok_or(Trouble::Misfit)?;
        last = Some(key);
    }
    Ok(sum)
}
