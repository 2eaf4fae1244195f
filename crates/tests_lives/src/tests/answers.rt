//! What a source with its log in files replies to its events, and to whole commits in one call.

use crate::tests::durable::{Life, begun};
use log_device::{CrashDevice, Device, MemoryDevice};
use rows::Change;
use schema::Memory;
use source_answers::{PutReply, answer, put};
use std::alloc::{AllocError, Global};
use std::process::Abort;
use std::test::Fail;
use tests_stores::again;
use tests_stores::common::{insert, row};
use world::{Event, Reply};

/// A reply in short: its name, and up to two of its numbers.
type Short = (&'static str, u64, u64);

fn short(reply: &Reply) -> Short {
    match reply {
        Reply::Done => ("done", 0, 0),
        Reply::Seen { row: Some(_) } => ("seen", 0, 0),
        Reply::Prepared { parent } => ("prepared", *parent, 0),
        Reply::Empty => ("empty", 0, 0),
        Reply::Flushed { first, stamps } => ("flushed", *first, stamps.list().len() as u64),
        Reply::Synced { first, last } => ("synced", *first, *last),
        Reply::Committed { first, last } => ("committed", *first, *last),
        Reply::Nothing => ("nothing", 0, 0),
        Reply::Source(fault) => (fault.text(), 0, 0),
        Reply::Log(fault) => (fault.text(), 0, 0),
        _ => ("another", 0, 0),
    }
}

/// A device with room for its content, so that no call of it takes memory.
fn roomy(alloc: Global) -> Result<MemoryDevice, AllocError> {
    Ok(MemoryDevice::of(Vec::with_capacity(alloc, 4096)?))
}

fn lacked(told: Short) -> bool {
    told.0 == "S13 Memory" || told.0 == "L4 Memory"
}

fn ask_once<D: Device>(alloc: Global, life: &mut Life<D>, event: &Event) -> Short {
    match answer(alloc, life, event) {
        Some(reply) => short(&reply),
        None => ("none", 0, 0),
    }
}

/// The reply to an event, which is sent once more if memory runs out.
fn ask<D: Device>(alloc: Global, life: &mut Life<D>, event: &Event) -> Short {
    let told = ask_once(alloc, life, event);
    if lacked(told) {
        return ask_once(alloc, life, event);
    }
    told
}

fn put_once<D: Device>(alloc: Global, life: &mut Life<D>, session: u16) -> Short {
    match put(alloc, life, session) {
        PutReply::Receipt { gno, parent, .. } => ("receipt", gno, parent),
        PutReply::Refused(reply) => short(&reply),
    }
}

/// The reply to a put, a receipt by its gno and its parent. The put is made once more if memory runs out.
fn try_put<D: Device>(alloc: Global, life: &mut Life<D>, session: u16) -> Short {
    let told = put_once(alloc, life, session);
    if lacked(told) {
        return put_once(alloc, life, session);
    }
    told
}

fn change(key: i64) -> Result<Change, Memory> {
    insert(row(1, key), &[5, 6])
}

/// The session inserts the row of this key.
fn opens<D: Device>(life: &mut Life<D>, session: u16, key: i64) -> Result<(), Fail> {
    let change = change(key)?;
    life.begin(session)?;
    Ok(again!(life.write(session, change))?)
}

/// Catches an event that makes another's call, or gives another's reply, and a flush without its stamps.
#[test]
fn each_event_is_answered_again(rt: HostRuntime) -> Result<(), Fail> {
    let alloc = rt.alloc();
    let mut life = again!(begun(alloc, again!(roomy(alloc))?))?;
    let (session, row, change) = (1, row(1, 10), change(10)?);
    let steps = [
        (Event::Begin { session }, ("done", 0, 0)),
        (Event::Write { session, change }, ("done", 0, 0)),
        (Event::See { session, row }, ("seen", 0, 0)),
        (Event::Prepare { session }, ("prepared", 0, 0)),
        (Event::Queue { session }, ("done", 0, 0)),
        (Event::Abort { session }, ("S3 NotActive", 0, 0)),
        (Event::Flush, ("flushed", 1, 1)),
        (Event::Flush, ("nothing", 0, 0)),
        (Event::Sync, ("synced", 1, 1)),
        (Event::Sync, ("nothing", 0, 0)),
        (Event::Commit, ("committed", 1, 1)),
        (Event::Commit, ("nothing", 0, 0)),
        (Event::Begin { session: 0 }, ("S1 NoSession", 0, 0)),
        (Event::Executed, ("none", 0, 0)),
        (Event::Rotate, ("none", 0, 0)),
        (Event::Log, ("none", 0, 0)),
    ];
    for (event, want) in &steps {
        assert_eq!(rt; ask(alloc, &mut life, event), *want);
    }
    Ok(())
}

/// Catches the receipt of another session, and a second put that succeeds for a session without a transaction.
#[test]
fn sessions_put_in_turn_again(rt: HostRuntime) -> Result<(), Fail> {
    let alloc = rt.alloc();
    let mut life = again!(begun(alloc, again!(roomy(alloc))?))?;
    opens(&mut life, 1, 10)?;
    opens(&mut life, 2, 11)?;
    assert_eq!(rt; try_put(alloc, &mut life, 1), ("receipt", 1, 0));
    assert_eq!(rt; try_put(alloc, &mut life, 2), ("receipt", 2, 1));
    assert_eq!(rt; try_put(alloc, &mut life, 2), ("S3 NotActive", 0, 0));
    Ok(())
}

/// Catches a put of a transaction that was queued before, if it reports the last record of the group, which is another
/// session's.
#[test]
fn a_queued_transaction_is_put_again(rt: HostRuntime) -> Result<(), Fail> {
    let alloc = rt.alloc();
    let mut life = again!(begun(alloc, again!(roomy(alloc))?))?;
    for session in 1..3 {
        opens(&mut life, session, i64::from(session))?;
        life.prepare(session)?;
        life.queue(session)?;
    }
    assert_eq!(rt; try_put(alloc, &mut life, 1), ("receipt", 1, 0));
    life.begin(1)?;
    assert_eq!(rt; try_put(alloc, &mut life, 1), ("empty", 0, 0));
    assert_eq!(rt; life.count(), 2);
    Ok(())
}

/// Catches a receipt although the device failed, at each of its four calls in a sync.
#[test]
fn a_failed_device_is_told(rt: HostRuntime) -> Result<(), Fail> {
    let alloc = rt.alloc();
    for nth in 4..9 {
        let mut life = begun(alloc, CrashDevice::failing(alloc, nth))?;
        opens(&mut life, 1, 10)?;
        let told = try_put(alloc, &mut life, 1);
        if nth == 8 {
            assert!(rt; told == ("receipt", 1, 0) || told.0 == "L1 Device");
            continue;
        }
        assert_eq!(rt; told, ("L1 Device", 0, 0));
        assert_eq!(rt; try_put(alloc, &mut life, 1), ("S12 Halted", 0, 0));
        assert_eq!(rt; life.count(), 0);
    }
    Ok(())
}
