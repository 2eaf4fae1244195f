//! A source with its log in files: one life after another, and what a kill leaves at each moment.

ghost use Rattle.std.specs.Prelude.{◌≤◌, ◌<◌, ◌^◌, length, IfOk};

use btree_store::BTreeStore;
use commit_order_tracker::CommitOrder;
use durable_source::{DurableSource, MakeFault, OpenFault, Returned};
use log_device::{CrashDevice, Device, MemoryDevice};
use recovery::RecoveryFault;
use schema::Memory;
use std::alloc::Global;
use std::process::Abort;
use std::test::Fail;
use store_trait::fits;
use tests_log::common::source;
use tests_stores::common::{boxed, five_tables, insert, row};
use uuid::Uuid;

pub(super) type Life<D> = DurableSource<BTreeStore, CommitOrder, D>;

/// Making the log takes this many moments: its cut, its write and its sync. Each group takes `GROUP`: its write, a
/// sync, the write of its gate, a sync.
const MADE: usize = 3;

const GROUP: usize = 4;

/// What making a life returns.
type Made<D> = Result<Box<Life<D>>, (MakeFault, D)>;

/// Makes a first life, without rows.
fn make<D: Device + Drop>(alloc: Global, device: D) -> Result<Made<D>, Memory> {
    let (schema, store) = (five_tables(alloc)?, BTreeStore::new(alloc));
    if !fits(&schema, &store) {
        Err(Memory)?;
    }
    match DurableSource::make(alloc, schema, store, CommitOrder, 256, source(), device) {
        Ok(life) => Ok(Ok(boxed(alloc, life)?)),
        Err(refused) => Ok(Err(refused)),
    }
}

/// A first life, without rows. Its device fails only if memory runs out.
pub(super) fn begun<D: Device + Drop>(alloc: Global, device: D) -> Result<Box<Life<D>>, Memory> {
    match make(alloc, device)? {
        Ok(life) => Ok(life),
        Err(_) => Err(Memory),
    }
}

/// What opening a log returns.
type Opened<D> = Result<Box<Life<D>>, (OpenFault, Returned<D>)>;

/// The next life, over the same rows.
fn next_life<D: Device + Drop>(
    alloc: Global,
    most: u64,
    identifier: Uuid,
    devices: Vec<D>,
) -> Result<Opened<D>, Fail>
    requires some { 1 ≤ most }
    requires few { most < 2 ^ 63 }
    requires devices { 1 ≤ length devices.items }
{
    let (schema, store) = (five_tables(alloc)?, BTreeStore::new(alloc));
    match DurableSource::open(alloc, schema, store, CommitOrder, most, identifier, devices) {
        Ok(life) => Ok(Ok(boxed(alloc, life)?)),
        Err(refused) => Ok(Err(refused)),
    }
}

/// Commits the insert of a row of table 1. Returns its gno and its parent.
fn commit<D: Device>(life: &mut Life<D>, key: i64) -> Result<(u64, u64), Fail> {
    life.begin(1)?;
    life.write(1, insert(row(1, key), &[5, 6])?)?;
    life.prepare(1)?;
    life.queue(1)?;
    life.flush()?;
    life.sync().map_err(|_| Memory)?;
    match life.commit()?.first() {
        Some(receipt) => Ok((receipt.gno, receipt.parent)),
        None => Err(Memory)?,
    }
}

/// Ends the life, and returns its devices in order.
fn ended<D: Device + Drop>(life: Box<Life<D>>) -> Result<Vec<D>, Fail>
    ensures { IfOk result (λ devices. 1 ≤ length devices.items) }
{
    let (mut devices, last) = Box::into_inner(life).into_devices();
    devices.push(last)?;
    Ok(devices)
}

/// Catches a life that numbers anew, or gives a transaction a parent only from this life, and a rotated file that is
/// forgotten; also committed records that are kept beside the log.
#[test]
fn lives_go_on(rt: HostRuntime) -> Result<(), Fail> {
    let alloc = rt.alloc();
    let mut life = begun(alloc, MemoryDevice::new(alloc))?;
    assert!(rt; commit(&mut life, 10)? == (1, 0));
    assert!(rt; commit(&mut life, 11)? == (2, 1));
    let Ok(files) = life.rotate(MemoryDevice::new(alloc)) else {
        return Err(Memory)?;
    };
    assert!(rt; files == 2);
    assert!(rt; commit(&mut life, 12)? == (3, 2));
    assert!(rt; life.source().log().is_empty());
    let Ok(mut next) = next_life(alloc, 256, source(), ended(life)?)? else {
        return Err(Memory)?;
    };
    assert!(rt; next.count() == 3);
    assert!(rt; commit(&mut next, 13)? == (4, 3));
    assert!(rt; next.source().log().is_empty());
    Ok(())
}

/// Catches a log that is opened as that of another source, or with a limit of fewer records than it has. It must be
/// refused, and its devices must come back.
#[test]
fn other_logs_are_refused(rt: HostRuntime) -> Result<(), Fail> {
    let alloc = rt.alloc();
    let mut life = begun(alloc, MemoryDevice::new(alloc))?;
    commit(&mut life, 10)?;
    commit(&mut life, 11)?;
    let devices = ended(life)?;
    let Err((fault, Returned::Opened(past, last))) = next_life(alloc, 256, Uuid::nil(), devices)?
    else {
        return Err(Memory)?;
    };
    assert!(rt; fault == OpenFault::OtherSource && past.is_empty());
    let devices = vec![in alloc; last]?;
    let Err((OpenFault::OfRecovery(fault), _)) = next_life(alloc, 1, source(), devices)? else {
        return Err(Memory)?;
    };
    if fault == RecoveryFault::Memory {
        return Err(Memory)?;
    }
    assert!(rt; fault == RecoveryFault::Exhausted);
    Ok(())
}

/// Catches a log that is made over bytes that may be another log.
#[test]
fn a_log_is_not_made_over_another(rt: HostRuntime) -> Result<(), Fail> {
    let alloc = rt.alloc();
    let Err((fault, back)) = make(alloc, MemoryDevice::of(vec![in alloc; 0; 33]?))? else {
        return Err(Memory)?;
    };
    assert!(rt; fault == MakeFault::Exists && back.bytes().len() == 33);
    begun(alloc, MemoryDevice::of(vec![in alloc; 0; 32]?))?;
    Ok(())
}

/// The next life after a kill that left this in its files: the number of its records, and the gno of its first transaction.
fn after_kill(alloc: Global, files: Vec<MemoryDevice>) -> Result<(u64, u64), Fail>
    requires { 1 ≤ length files.items }
{
    let Ok(mut life) = next_life(alloc, 256, source(), files)? else {
        return Err(Memory)?;
    };
    let found = life.count();
    let (gno, _) = commit(&mut life, 20)?;
    Ok((found, gno))
}

/// Catches a commit that is reported and then lost in a kill, and a next life that numbers anew, or skips numbers.
#[test]
fn killed_at_each_moment(rt: HostRuntime) -> Result<(), Fail> {
    let alloc = rt.alloc();
    let mut life = begun(alloc, CrashDevice::new(alloc))?;
    for key in 10..13 {
        commit(&mut life, key)?;
    }
    let (_, device) = Box::into_inner(life).into_devices();
    for moment in MADE..device.moments() {
        let told = ((moment - MADE) / GROUP) as u64;
        for image in device.images(moment)? {
            let files = vec![in alloc; MemoryDevice::of(image)]?;
            let (found, gno) = after_kill(alloc, files)?;
            assert!(rt; found >= told && found - told <= 1);
            assert!(rt; gno > found && gno - found == 1);
        }
    }
    Ok(())
}

/// Opens what a kill may have left of two files, each at its own moment. Together they hold one record.
fn open_pairs(
    rt: &(impl Abort + AllocGlobal),
    first: (&CrashDevice, usize),
    next: (&CrashDevice, usize),
) -> Result<(), Fail> {
    let alloc = rt.alloc();
    for image in first.0.images(first.1)? {
        for behind in next.0.images(next.1)? {
            let front = image.to_vec(alloc)?;
            let files = vec![in alloc; MemoryDevice::of(front), MemoryDevice::of(behind)]?;
            assert!(rt; after_kill(alloc, files)? == (1, 2));
        }
    }
    Ok(())
}

/// Catches a rotation that finishes the first file before the next one is made and kept. The first one rests while the
/// next one is made, and the next one rests while the first is finished.
#[test]
fn killed_in_a_rotation(rt: HostRuntime) -> Result<(), Fail> {
    let alloc = rt.alloc();
    let mut life = begun(alloc, CrashDevice::new(alloc))?;
    commit(&mut life, 10)?;
    if life.rotate(CrashDevice::new(alloc)).is_err() {
        return Err(Memory)?;
    }
    let (past, next) = Box::into_inner(life).into_devices();
    let [first] = &past[..] else {
        return Err(Memory)?;
    };
    for moment in 0..MADE {
        open_pairs(&rt, (first, MADE + GROUP), (&next, moment))?;
    }
    for moment in MADE + GROUP..first.moments() {
        open_pairs(&rt, (first, moment), (&next, MADE))?;
    }
    Ok(())
}
