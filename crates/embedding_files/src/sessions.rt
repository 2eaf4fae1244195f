//! What the sessions commit.

use crate::opening::ROWS;
use crate::trouble::Trouble;
use btree_store::BTreeStore;
use commit_order_tracker::CommitOrder;
use rows::{Change, Row};
use schema::RowId;
use source_core::SourceFault;
use source_shared::{Receipt, SessionSeat, SharedSource, SourceNaming};
use std::alloc::Global;
use std::sync::{Mutex, Wait};
use std::thread::{Threads, map_indices, sleep};
use std::time::{Clock, Duration};
use stored_log::OnFile;

/// How many times a call is made again if memory runs out.
const TRIES: usize = 100;

/// The distance between the keys of two sessions.
const APART: i64 = 4294967296;

/// The source, with its log in files.
pub type Source<J> = SharedSource<BTreeStore, CommitOrder, OnFile, J>;

/// The seats of the sessions. A thread holds one while it commits some transactions.
pub type Seats<J> = Vec<Mutex<SessionSeat<J>>>;

/// The seats of the sessions from 1 to `sessions`. A source gives each seat once in its life, so they are kept from
/// file to file.
pub fn seats<J: SourceNaming>(
    rt: &impl Wait,
    alloc: Global,
    source: &Source<J>,
    sessions: u16,
) -> Result<Seats<J>, Trouble> {
    let mut seats = Vec::new(alloc);
    for session in 1..=sessions {
        let seat = source.session(rt, session)?;
        seats.push(Mutex::new(seat))?;
    }
    Ok(seats)
}

/// Each session commits `count` transactions, in a separate thread. Their numbers begin at the number of records in the
/// log, so no session uses a number twice, in any life. Returns the last receipt of each session.
pub fn commit_all<J: SourceNaming + Send + Sync, R: Threads + Wait + Clock + Sync>(
    rt: &R,
    alloc: Global,
    source: &Source<J>,
    seats: &Seats<J>,
    count: u32,
) -> Result<Vec<Receipt<J>>, Trouble> {
    let first = flushed(rt, source)?;
    let each = map_indices(
        rt,
        alloc,
        seats.len(),
        &|place| { commit_some(rt, source, &seats[place], first, count) },
    )?;
    let mut receipts = Vec::new(alloc);
    for last in each {
        receipts.push(last?)?;
    }
    Ok(receipts)
}

/// How many records the log has, all of which are flushed.
fn flushed<J: SourceNaming>(rt: &impl Wait, source: &Source<J>) -> Result<u32, Trouble> {
    let flushed = source.flushed(rt)?;
    u32::try_from(flushed).map_err(|_| Trouble::Misfit)
}

/// Commits the transactions of one session, and returns the last receipt. A source that runs for long keeps no others.
fn commit_some<J: SourceNaming>(
    rt: &(impl Wait + Clock),
    source: &Source<J>,
    seat: &Mutex<SessionSeat<J>>,
    first: u32,
    count: u32,
) -> Result<Receipt<J>, Trouble> {
    let mut seat = seat.lock(rt);
    let mut last = None;
    for number in first..first.saturating_add(count) {
        write(rt, source, &mut seat, number)?;
        source.prepare(rt, &mut seat)?;
        last = Some(commit_prepared(rt, source, &mut seat)?);
    }
    last.ok_or(Trouble::Misfit)
}

/// Begins a transaction of the first session that is never committed.
pub fn leave_open<J: SourceNaming>(
    rt: &impl Wait,
    source: &Source<J>,
    seats: &Seats<J>,
) -> Result<(), Trouble> {
    let seat = seats.first().ok_or(Trouble::Misfit)?;
    let number = flushed(rt, source)?;
    write(rt, source, &mut seat.lock(rt), number)
}

/// Begins a transaction and writes a row with its session and its number.
fn write<J: SourceNaming>(
    rt: &impl Wait,
    source: &Source<J>,
    seat: &mut SessionSeat<J>,
    number: u32,
) -> Result<(), Trouble> {
    let (session, number) = (i64::from(seat.session()), i64::from(number));
    let values = Row::new(&[session, number]).ok_or(Trouble::Misfit)?;
    let row = RowId {
        table: ROWS,
        key: session * APART + number,
    };
    source.begin(rt, seat)?;
    Ok(source.write(rt, seat, Change::Insert { row, values })?)
}

/// Commits the seat's transaction. If memory runs out, the transaction stays in its stage, and the same call continues
/// from there a millisecond later. After the last try it returns the refusal.
fn commit_prepared<J: SourceNaming>(
    rt: &(impl Wait + Clock),
    source: &Source<J>,
    seat: &mut SessionSeat<J>,
) -> Result<Receipt<J>, SourceFault> {
    for _ in 0..TRIES {
        match source.commit(rt, seat) {
            Err(SourceFault::Memory) => sleep(rt, Duration::from_millis(1)),
            answer => return answer,
        }
    }
    source.commit(rt, seat)
}
