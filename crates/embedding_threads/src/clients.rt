//! What the sessions commit, and what readers see of it.

use crate::connecting::{Replica, SEATS, Source, pause};
use crate::trouble::Trouble;
use btree_store::BTreeStore;
use published::{Answer, ReadSeat};
use replica_shared::ReplicaNaming;
use rows::{Change, Named, Row};
use schema::RowId;
use source_core::SourceFault;
use source_shared::{Receipt, SessionSeat, SourceNaming};
use std::alloc::Global;
use std::sync::{Mutex, OnceLock, Wait};
use std::thread::{Threads, map_indices};
use std::time::Clock;

/// The table of the accounts, each with the session that wrote it last, and a balance.
pub const ACCOUNTS: u16 = 1;

/// The account to which each session gives 10.
pub const JOINT: i64 = 9;

/// A client: its session, whose number is also that of its account, and the gno of its last commit once it is known.
/// That is 0 if no commit came.
#[derive(Drop)]
pub struct Client {
    session: u16,
    told: OnceLock<u64>,
}

impl Client {
    pub fn new(session: u16) -> Client {
        Client {
            session,
            told: OnceLock::new(),
        }
    }
}

/// The refusal that a session first got, and all receipts.
pub type Served<J> = Result<(Trouble, Vec<Receipt<J>>), Trouble>;

/// Serves all clients, each in a separate thread. However that ends, it sets the commit of each client and closes the
/// source, so nobody waits on.
pub fn serve<J: SourceNaming + Send + Sync, R: Threads + Wait + Clock + Sync>(
    rt: &R,
    alloc: Global,
    source: &Source<J>,
    clients: &[Client],
) -> Served<J> {
    let served = serve_all(rt, alloc, source, clients);
    for client in clients {
        let _ = client.told.set(rt, 0);
    }
    source.close(rt);
    served
}

fn serve_all<J: SourceNaming + Send + Sync, R: Threads + Wait + Clock + Sync>(
    rt: &R,
    alloc: Global,
    source: &Source<J>,
    clients: &[Client],
) -> Served<J> {
    let (refusal, receipt) = try_again(rt, source)?;
    let mut receipts = vec![in alloc; receipt]?;
    let each = map_indices(
        rt,
        alloc,
        clients.len(),
        &|place| { visit(rt, alloc, source, &clients[place]) },
    )?;
    for own in each {
        receipts.append(&mut own?)?;
    }
    Ok((refusal, receipts))
}

/// Two sessions in one thread. The first deletes the joint account, which locks its row, so the second is refused. Then
/// the first aborts its transaction, which leaves no trace, and the second tries again.
fn try_again<J: SourceNaming>(
    rt: &(impl Wait + Clock),
    source: &Source<J>,
) -> Result<(Trouble, Receipt<J>), Trouble> {
    let mut first = source.session(rt, 4)?;
    let mut second = source.session(rt, 5)?;
    source.begin(rt, &mut first)?;
    source.write(rt, &mut first, Change::Delete { row: row(JOINT) })?;
    let refusal = match give(rt, source, &mut second) {
        Err(Trouble::Source(SourceFault::RowLocked)) => SourceFault::RowLocked.into(),
        Err(trouble) => return Err(trouble),
        Ok(_) => return Err(Trouble::Misfit),
    };
    source.abort(rt, &mut first)?;
    Ok((refusal, give(rt, source, &mut second)?))
}

/// A client's session: it opens an account, and gives to the joint one. Then its reader learns the commit.
fn visit<J: SourceNaming>(
    rt: &(impl Wait + Clock),
    alloc: Global,
    source: &Source<J>,
    client: &Client,
) -> Result<Vec<Receipt<J>>, Trouble> {
    let session = i64::from(client.session);
    let row = row(session);
    let values = Row::new(&[session, session * 100]).ok_or(Trouble::Misfit)?;
    let mut seat = source.session(rt, client.session)?;
    source.begin(rt, &mut seat)?;
    source.write(rt, &mut seat, Change::Insert { row, values })?;
    let opened = commit(rt, source, &mut seat)?;
    let given = give_at_last(rt, source, &mut seat)?;
    let _ = client.told.set(rt, given.given().gno);
    Ok(vec![in alloc; opened, given]?)
}

/// Gives, and tries again while another session holds the joint account. While it waits, it holds nothing.
fn give_at_last<J: SourceNaming>(
    rt: &(impl Wait + Clock),
    source: &Source<J>,
    seat: &mut SessionSeat<J>,
) -> Result<Receipt<J>, Trouble> {
    for _ in rt.forever() {
        match give(rt, source, seat) {
            Err(Trouble::Source(SourceFault::RowLocked)) => pause(rt),
            answer => return answer,
        }
    }
    unreachable!()
}

/// Gives to the joint account. If that is refused, it aborts the transaction, so that the row is free for others, which
/// may retry forever. A transaction that is queued already stays, since `abort` is refused then.
fn give<J: SourceNaming>(
    rt: &(impl Wait + Clock),
    source: &Source<J>,
    seat: &mut SessionSeat<J>,
) -> Result<Receipt<J>, Trouble> {
    source.begin(rt, seat)?;
    let given = add_and_commit(rt, source, seat);
    if given.is_err() {
        let _ = source.abort(rt, seat);
    }
    given
}

fn add_and_commit<J: SourceNaming>(
    rt: &(impl Wait + Clock),
    source: &Source<J>,
    seat: &mut SessionSeat<J>,
) -> Result<Receipt<J>, Trouble> {
    add(rt, source, seat)?;
    commit(rt, source, seat)
}

/// Adds 10 to the joint account. It writes the row before it reads it: after its own write nobody else commits there.
fn add<J: SourceNaming>(
    rt: &impl Wait,
    source: &Source<J>,
    seat: &mut SessionSeat<J>,
) -> Result<(), Trouble> {
    let session = i64::from(seat.session());
    source.write(rt, seat, set(0, session)?)?;
    let found = source.read(rt, seat, row(JOINT))?;
    let sum = balance(&found).checked_add(10);
    let sum = set(1, sum.ok_or(Trouble::Misfit)?)?;
    Ok(source.write(rt, seat, sum)?)
}

/// The change that gives this column of the joint account this value.
fn set(column: u8, value: i64) -> Result<Change, Trouble> {
    let columns = Named::of(&[(column, value)]).ok_or(Trouble::Misfit)?;
    let row = row(JOINT);
    Ok(Change::Update { row, columns })
}

/// Commits what the seat wrote. If memory runs out, the transaction stays in its stage, and the same call continues
/// from there.
fn commit<J: SourceNaming>(
    rt: &(impl Wait + Clock),
    source: &Source<J>,
    seat: &mut SessionSeat<J>,
) -> Result<Receipt<J>, Trouble> {
    source.prepare(rt, seat)?;
    for _ in rt.forever() {
        match source.commit(rt, seat) {
            Err(SourceFault::Memory) => pause(rt),
            answer => return Ok(answer?),
        }
    }
    unreachable!()
}

/// The pool: the replica's seats, each behind a lock.
pub type Pool<K> = Vec<Mutex<ReadSeat<BTreeStore, K>>>;

/// All seats of the replica.
pub fn pool<K: ReplicaNaming>(
    rt: &impl Wait,
    alloc: Global,
    replica: &Replica<K>,
) -> Result<Pool<K>, Trouble> {
    let mut pool = Vec::new(alloc);
    for _ in 0..SEATS {
        let seat = replica.seat(rt).ok_or(Trouble::Misfit)?;
        pool.push(Mutex::new(seat))?;
    }
    Ok(pool)
}

/// The clients' accounts, each read by a separate reader.
pub fn read_all<K: ReplicaNaming + Send + Sync, R: Threads + Wait + Sync>(
    rt: &R,
    alloc: Global,
    replica: &Replica<K>,
    pool: &Pool<K>,
    clients: &[Client],
) -> Result<Vec<Answer>, Trouble> {
    let each = map_indices(
        rt,
        alloc,
        clients.len(),
        &|place| { read_own(rt, replica, pool, place, &clients[place]) },
    )?;
    let mut answers = Vec::new(alloc);
    for answer in each {
        answers.push(answer?)?;
    }
    Ok(answers)
}

/// A client's account, after its last commit is known.
fn read_own<K: ReplicaNaming>(
    rt: &impl Wait,
    replica: &Replica<K>,
    pool: &Pool<K>,
    place: usize,
    client: &Client,
) -> Result<Answer, Trouble> {
    let gno = *client.told.wait(rt);
    read(rt, replica, pool, place, gno, i64::from(client.session))
}

/// An account after the commit of this number. While it waits for the commit it has no seat: it takes one only for the
/// read.
pub fn read<K: ReplicaNaming>(
    rt: &impl Wait,
    replica: &Replica<K>,
    pool: &Pool<K>,
    place: usize,
    gno: u64,
    account: i64,
) -> Result<Answer, Trouble> {
    let published = replica.wait_for(rt, gno)?;
    let seat = pool.get(place % SEATS).ok_or(Trouble::Misfit)?;
    let mut seat = seat.lock(rt);
    seat.learn(published);
    seat.read(row(account)).ok_or(Trouble::Misfit)
}

/// The row of an account.
pub fn row(account: i64) -> RowId {
    RowId {
        table: ACCOUNTS,
        key: account,
    }
}

/// The balance of an account, or -1 if there is none.
pub fn balance(row: &Option<Row>) -> i64 {
    match row {
        Some(row) => row.columns().get(1).copied().unwrap_or(-1),
        None => -1,
    }
}
