//! What a crash leaves of a log, at each moment while it is written or opened.

use crate::common::source;
use crate::tests::logs::{append_again, records_in};
use log_device::{CrashDevice, Device, FaultyDevice, MemoryDevice};
use log_file::{LogFault, LogFile};
use schema::Memory;
use std::alloc::Global;
use std::process::Abort;
use std::test::Fail;

/// A device that keeps what a crash may leave, and may fail a call that never reaches it.
type Crashing = FaultyDevice<CrashDevice>;

/// Making a log takes this many moments: its cut, its write and its sync. Each group takes `GROUP`: its write, a sync,
/// the write of its gate, a sync.
const MADE: usize = 3;

const GROUP: usize = 4;

/// Puts three groups of one record each on the log, up to the first that is refused. Returns how many were synced.
fn put_three<D: Device>(alloc: Global, log: &mut LogFile<D>) -> usize {
    for gno in 1..4 {
        if append_again(alloc, log, gno).is_err() || log.sync().is_err() {
            return gno as usize - 1;
        }
    }
    3
}

/// Opens what a crash may have left at each moment since the log was made. It finds the groups whose sync had ended by
/// then, `synced` of them in the end. It may find one more: if that was synced, only once its gate was written.
fn open_each_image(
    rt: &(impl Abort + AllocGlobal),
    device: &CrashDevice,
    synced: usize,
) -> Result<(), Fail> {
    for moment in MADE..device.moments() {
        let (ended, calls) = ((moment - MADE) / GROUP, (moment - MADE) % GROUP);
        let least = synced.min(ended);
        let is_sure = ended < synced && calls < GROUP - 1 || ended == synced && calls == 0;
        for image in device.images(moment)? {
            let found = records_in(rt.alloc(), MemoryDevice::of(image))?;
            assert!(rt;
                found == Some(least as u128) || !is_sure && found == Some(least as u128 + 1),
                "moment {moment}: {found:?} records, where {least} were synced"
            );
        }
    }
    Ok(())
}

/// Opens the log on a device whose `nth` call fails. Returns how many records were found, or `None` if that call failed.
fn open_once(
    alloc: Global,
    device: CrashDevice,
    nth: u64,
) -> Result<(Option<u128>, CrashDevice), LogFault> {
    match LogFile::open(alloc, FaultyDevice::new(device, nth)) {
        Ok(log) => {
            let found = log.count();
            Ok((Some(found), log.into_device().into_inner()))
        }
        Err((LogFault::Device, device)) => Ok((None, device.into_inner())),
        Err((fault, _)) => Err(fault),
    }
}

/// Opens the log with each of its calls failing in turn, until none fails. Before each try, and after the last, it
/// opens what a crash may have left. The log has the groups that were synced, or one more.
fn open_at_last(
    rt: &(impl Abort + AllocGlobal),
    device: CrashDevice,
    synced: usize,
) -> Result<(), Fail> {
    let mut device = device;
    for nth in 1..6 {
        open_each_image(rt, &device, synced)?;
        let (found, back) = open_once(rt.alloc(), device, nth)?;
        device = back;
        if let Some(found) = found {
            assert!(rt; found >= synced as u128 && found - synced as u128 <= 1);
            return open_each_image(rt, &device, synced);
        }
    }
    Err(Memory)?
}

/// Writes three groups, and opens what is left.
fn write_and_open(rt: &(impl Abort + AllocGlobal), device: Crashing) -> Result<(), Fail> {
    let alloc = rt.alloc();
    match LogFile::create(alloc, device, source()) {
        Ok(log) => {
            let mut log = log;
            let synced = put_three(alloc, &mut log);
            open_at_last(rt, log.into_device().into_inner(), synced)
        }
        // If making the log fails, there is no log yet.
        Err((_, _)) => Ok(()),
    }
}

/// Catches a gate that is opened before its group is kept, or reported before it is kept itself; a group that is
/// written over one that waits; an `open` that cuts before it has synced, or cuts too much. The device fails nowhere,
/// or at a call that a crash may leave whole, in part or not at all.
#[test]
fn what_a_crash_leaves_of_a_log(rt: HostRuntime) -> Result<(), Fail> {
    for nth in 0..16 {
        let device = CrashDevice::failing(rt.alloc(), nth);
        write_and_open(&rt, FaultyDevice::new(device, 0))?;
    }
    Ok(())
}

/// Like `what_a_crash_leaves_of_a_log`, but the failing call never reaches the device.
#[test]
fn what_a_crash_leaves_of_a_log_whose_device_is_not_reached(rt: HostRuntime) -> Result<(), Fail> {
    for nth in 1..16 {
        let device = CrashDevice::new(rt.alloc());
        write_and_open(&rt, FaultyDevice::new(device, nth))?;
    }
    Ok(())
}
