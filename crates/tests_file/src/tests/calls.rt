//! What a device asks of its file, and what the file holds then.

use crate::noting::{NotingFile, Outcome};
use crate::tests::makers::put_again;
use file_device::FileDevice;
use log_device::{Device, DeviceFault, MemoryDevice};
use log_file::{LogFault, LogFile};
use std::alloc::{AllocError, Global};
use std::process::Abort;
use std::test::Fail;
use tests_log::common::source;
use tests_stores::common::{boxed, is_told};

/// A device over a file without content that fails its `nth` call. It has room for what the tests write.
fn device(
    alloc: Global,
    nth: u64,
    outcome: Outcome,
) -> Result<Box<FileDevice<NotingFile>>, AllocError> {
    let file = NotingFile::failing(alloc, nth, outcome)?;
    boxed(
        alloc,
        FileDevice::new(file, Vec::with_capacity(alloc, 1000)?),
    )
}

/// Whether the file was asked exactly this.
fn is_asked(alloc: Global, file: &NotingFile, wanted: &[&str]) -> Result<bool, AllocError> {
    let notes = file.notes().ok_or(AllocError)?;
    for (note, text) in notes.iter().zip(wanted) {
        if !is_told(alloc, note, text)? {
            return Ok(false);
        }
    }
    Ok(notes.len() == wanted.len())
}

/// Writes past the end, over what is there, and no bytes; cuts and syncs. Returns what is read then: six bytes, and the
/// rest of the room.
fn ask(device: &mut FileDevice<NotingFile>) -> Result<(usize, [u8; 8]), DeviceFault> {
    device.write_at(2, &[6, 7, 8])?;
    device.sync()?;
    device.write_at(0, &[5])?;
    device.cut(9)?;
    device.cut(4)?;
    device.cut(4)?;
    device.write_at(6, &[])?;
    let mut room = [9; 8];
    let count = device.read(0, &mut room)?;
    Ok((count, room))
}

/// Catches a call that is made twice or not at all, in another order or with other bytes. Also: a file with wrong bytes
/// after a write past the end, a write of no bytes, or a cut past the end.
#[test]
fn what_a_file_is_asked(rt: HostRuntime) -> Result<(), Fail> {
    let mut device = device(rt.alloc(), 0, Outcome::None)?;
    assert_eq!(rt; ask(&mut device), Ok((6, [5, 0, 6, 7, 0, 0, 9, 9])));
    let file = Box::into_inner(device).into_file();
    let wanted = [
        "write 2 [6, 7, 8]",
        "sync",
        "write 0 [5]",
        "cut 4",
        "write 6 []",
    ];
    assert!(rt; is_asked(rt.alloc(), &file, &wanted)?);
    assert_eq!(rt; file.into_content().bytes(), [5, 0, 6, 7, 0, 0].as_slice());
    Ok(())
}

/// Whether each of four calls succeeds, and a read after them: a write, a cut, a sync, and a write that needs no room.
fn answers(device: &mut FileDevice<NotingFile>) -> [bool; 5] {
    [
        device.write_at(0, &[1, 2, 3, 4]).is_ok(),
        device.cut(3).is_ok(),
        device.sync().is_ok(),
        device.write_at(1, &[9]).is_ok(),
        device.read(0, &mut [0; 2]).is_ok(),
    ]
}

/// Makes these calls of a device whose `nth` call fails. All before it succeed, and none after it. The file was asked
/// for the first `nth`, and holds these bytes.
fn fails_at(rt: &(impl Abort + AllocGlobal), nth: usize, left: &[u8]) -> Result<(), Fail> {
    let calls = ["write 0 [1, 2, 3, 4]", "cut 3", "sync", "write 1 [9]"];
    let mut device = device(rt.alloc(), nth as u64, Outcome::Half)?;
    assert_eq!(rt;
        answers(&mut device),
        [nth > 1, nth > 2, nth > 3, nth > 4, nth > 5]
    );
    assert_eq!(rt; device.failures().saturating_add(nth as u64), 6);
    assert!(rt; device.error().is_some());
    let file = Box::into_inner(device).into_file();
    assert!(rt; is_asked(rt.alloc(), &file, &calls[..nth.min(4)])?);
    assert_eq!(rt; file.into_content().bytes(), left);
    Ok(())
}

/// Catches a device that asks its file again after a failure, or returns as if it had not failed, and a failure that is
/// not counted.
#[test]
fn nothing_is_asked_behind_a_failure(rt: HostRuntime) -> Result<(), Fail> {
    fails_at(&rt, 1, &[1, 2])?;
    for nth in 2..5 {
        fails_at(&rt, nth, &[1, 2, 3])?;
    }
    Ok(())
}

/// Makes a log on the file and puts three groups on it, up to the first call that is refused. Returns how many were
/// synced, or `None` if no log was made, and the file.
fn write_log(
    alloc: Global,
    device: FileDevice<NotingFile>,
) -> Result<(Option<u64>, NotingFile), LogFault> {
    match LogFile::create(alloc, device, source()) {
        Ok(log) => {
            let mut log = log;
            let synced = put_three(alloc, &mut log)?;
            Ok((Some(synced), log.into_device().into_file()))
        }
        Err((LogFault::Device, device)) => Ok((None, device.into_file())),
        Err((fault, _)) => Err(fault),
    }
}

/// Puts three groups on the log, up to the first that is refused. Returns how many were synced.
fn put_three<D: Device>(alloc: Global, log: &mut LogFile<D>) -> Result<u64, LogFault> {
    for gno in 1..4 {
        match put_again(alloc, log, gno) {
            Ok(()) => {}
            Err(LogFault::Device) => return Ok(gno - 1),
            Err(fault) => return Err(fault),
        }
    }
    Ok(3)
}

/// Opens the log that the file held when it was given up, on a device that does not fail. It has the groups that were
/// synced, or one more.
fn finds_synced(
    rt: &(impl Abort + AllocGlobal),
    content: MemoryDevice,
    synced: u64,
) -> Result<(), Fail> {
    match LogFile::open(rt.alloc(), content) {
        Ok(log) => {
            let found = log.count();
            assert!(rt;
                found >= synced as u128 && found - synced as u128 <= 1,
                "{found} where {synced} were synced"
            );
            Ok(())
        }
        Err((fault, _)) => Err(fault)?,
    }
}

/// Catches reported records that the file does not have, and torn ones that are read. The file fails at each call in
/// turn, which is made in part or not at all.
#[test]
fn a_log_on_a_file_that_fails(rt: HostRuntime) -> Result<(), Fail> {
    // The cut of an empty file is not a call. A write and a sync make the log, and each group takes a write, a sync,
    // the write of its gate and a sync.
    for outcome in [Outcome::None, Outcome::Half] {
        for nth in 1..16 {
            let device = Box::into_inner(device(rt.alloc(), nth, outcome)?);
            let (synced, file) = write_log(rt.alloc(), device)?;
            let wanted = match nth {
                1 | 2 => None,
                _ => Some((nth - 3) / 4),
            };
            assert_eq!(rt; synced, wanted.map(|groups| groups.min(3)), "call {nth}");
            if let Some(synced) = synced {
                finds_synced(&rt, file.into_content(), synced)?;
            }
        }
    }
    Ok(())
}
