//! A log in several files: what is in each of them, devices that fail as the log continues in a next file, and files of
//! the system.

ghost use Rattle.std.specs.Prelude.{◌≡◌, false, IfOk};

use crate::tests::files::OwnFile;
use crate::tests::makers::group;
use file_device::FileDevice;
use log_device::{Device, FaultyDevice, MemoryDevice};
use log_file::{Form, LogFault, LogFile, Place, find};
use log_set::LogSet;
use schema::Memory;
use std::alloc::{AllocError, Global};
use std::fs::File;
use std::io::{Error, ErrorKind};
use std::process::Abort;
use std::rt::Files;
use std::test::Fail;
use std::thread::Builder;
use tests_log::common::source;
use tests_stores::again;
use tests_stores::common::boxed;

/// The first file of a log in two: the insert of (1, 10) = [5, 6], gno 1, sequence 1, parent 0. The group's gate is
/// byte 32, and the last gate is open.
const FIRST: [u8; 101] = [
    0x4d, 0x54, 0x52, 0x4c, 0x4f, 0x47, 0x30, 0x33, 0x6d, 0x74, 0x72, 0, 0, 0, 0x40, 0, 0x80, 0, 0,
    0, 0, 0, 0, 1, 0, 0, 0, 0, 0, 0, 0, 1, 1, 0, 0, 0, 0x3f, 0, 0, 0, 0x3b, 0, 0, 0, 0, 0, 0, 0, 1,
    0, 0, 0, 0, 0, 0, 0, 1, 0, 0, 0, 0, 0, 0, 0, 0, 0, 0, 0, 0, 0, 0, 1, 1, 0, 1, 0, 0, 0, 0, 0, 0,
    0, 0x0a, 2, 0, 0, 0, 0, 0, 0, 0, 5, 0, 0, 0, 0, 0, 0, 0, 6, 1,
];

/// The second file: the update of column 0 of (1, 10) to 7, gno 2, sequence 2, parent 1; and the insert of (1, 11) =
/// [7, 8], gno 3, sequence 3, parent 0.
const SECOND: [u8; 162] = [
    0x4d, 0x54, 0x52, 0x4c, 0x4f, 0x47, 0x30, 0x33, 0x6d, 0x74, 0x72, 0, 0, 0, 0x40, 0, 0x80, 0, 0,
    0, 0, 0, 0, 1, 0, 0, 0, 0, 0, 0, 0, 2, 1, 0, 0, 0, 0x38, 0, 0, 0, 0x34, 0, 0, 0, 0, 0, 0, 0, 2,
    0, 0, 0, 0, 0, 0, 0, 2, 0, 0, 0, 0, 0, 0, 0, 1, 0, 0, 0, 0, 0, 0, 1, 2, 0, 1, 0, 0, 0, 0, 0, 0,
    0, 0x0a, 0, 1, 0, 0, 0, 0, 0, 0, 0, 7, 1, 0, 0, 0, 0x3f, 0, 0, 0, 0x3b, 0, 0, 0, 0, 0, 0, 0, 3,
    0, 0, 0, 0, 0, 0, 0, 3, 0, 0, 0, 0, 0, 0, 0, 0, 0, 0, 0, 0, 0, 0, 1, 1, 0, 1, 0, 0, 0, 0, 0, 0,
    0, 0x0b, 2, 0, 0, 0, 0, 0, 0, 0, 7, 0, 0, 0, 0, 0, 0, 0, 8, 0,
];

/// The first file of a log, without groups.
fn created<D: Device + Drop>(alloc: Global, device: D) -> Result<LogFile<D>, LogFault>
    ensures first { IfOk result (λ file. file.log.head.first ≡ 1) }
    ensures goes { IfOk result (λ file. file.log.finished ≡ false) }
{
    match LogFile::create(alloc, device, source()) {
        Ok(file) => Ok(file),
        Err((LogFault::Memory, device)) => {
            LogFile::create(alloc, device, source()).map_err(|e| e.0)
        }
        Err((fault, _)) => Err(fault),
    }
}

/// A log with only that file.
fn new_set<D: Device + Drop>(alloc: Global, device: D) -> Result<Box<LogSet<D>>, LogFault> {
    match LogSet::new(alloc, created(alloc, device)?) {
        Ok(set) => Ok(boxed(alloc, set)?),
        Err((_, file)) => {
            let set = LogSet::new(alloc, file).map_err(|_| LogFault::Memory)?;
            Ok(boxed(alloc, set)?)
        }
    }
}

/// Appends the group of the next record, and syncs it.
fn put_next<D: Device>(alloc: Global, set: &mut LogSet<D>) -> Result<(), LogFault> {
    let group = group(alloc, set.version(), set.count().saturating_add(1))?;
    again!(LogFault::Memory => set.append(&group))?;
    again!(LogFault::Memory => set.sync())
}

/// Continues the log in a next file on this device.
fn rotate<D: Device>(set: &mut LogSet<D>, device: D) -> Result<(), (LogFault, D)> {
    if set.form() != Form::Three {
        return Err((LogFault::BadMagic, device));
    }
    match set.rotate(device) {
        Err((LogFault::Memory, device)) => set.rotate(device),
        done => done,
    }
}

/// A log in several files, with these numbers of groups.
fn set_of(alloc: Global, groups: &[u64]) -> Result<Box<LogSet<MemoryDevice>>, LogFault> {
    let mut set = new_set(alloc, MemoryDevice::new(alloc))?;
    for (at, count) in groups.iter().enumerate() {
        if at > 0 {
            rotate(&mut set, MemoryDevice::new(alloc)).map_err(|e| e.0)?;
        }
        put_many(alloc, &mut set, *count)?;
    }
    Ok(set)
}

fn put_many(alloc: Global, set: &mut LogSet<MemoryDevice>, count: u64) -> Result<(), LogFault> {
    for _ in 0..count {
        put_next(alloc, set)?;
    }
    Ok(())
}

/// The texts of all files.
fn texts_again<D: Device>(alloc: Global, set: &LogSet<D>) -> Result<Vec<Vec<u8>>, LogFault> {
    if set.form() != Form::Three {
        return Err(LogFault::BadMagic);
    }
    Ok(again!(set.texts(alloc))?)
}

/// Compares the texts of all files, and the contents of their devices, with these.
fn has_texts(
    rt: &(impl Abort + AllocGlobal),
    set: Box<LogSet<MemoryDevice>>,
    wanted: &[&[u8]],
) -> Result<(), Fail> {
    let texts = texts_again(rt.alloc(), &set)?;
    let (past, last) = Box::into_inner(set).into_devices();
    assert_eq!(rt; (texts.len(), past.len() + 1), (wanted.len(), wanted.len()));
    for (text, wanted) in texts.iter().zip(wanted) {
        assert_eq!(rt; text.as_slice(), *wanted);
    }
    for (device, wanted) in past.iter().zip(wanted) {
        assert_eq!(rt; device.bytes(), *wanted);
    }
    assert_eq!(rt; Some(last.bytes()), wanted.last().copied());
    Ok(())
}

/// Catches a file that begins with another gno than the next, has another's groups, or is finished while it is the last or
/// not once it isn't. Also: texts that the devices don't hold, and a record that is not shown once its file is finished.
#[test]
fn each_file_has_its_groups_again(rt: HostRuntime) -> Result<(), Fail> {
    let set = set_of(rt.alloc(), &[1, 2])?;
    assert_eq!(rt; set.firsts(), [1, 2].as_slice());
    assert_eq!(rt; (set.count(), set.groups().len()), (3, 3));
    has_texts(&rt, set, &[&FIRST, &SECOND])
}

/// Catches a file without groups that is left out, or that uses up a gno.
#[test]
fn files_without_groups_are_files_again(rt: HostRuntime) -> Result<(), Fail> {
    let set = set_of(rt.alloc(), &[0, 0, 0])?;
    assert_eq!(rt; set.firsts(), [1, 1, 1].as_slice());
    let mut last = FIRST;
    last[32] = 0;
    has_texts(&rt, set, &[&FIRST[..33], &FIRST[..33], &last[..33]])
}

/// Catches a log that continues in a next file while a group waits, which is then lost, or that calls the device that
/// it hands back.
#[test]
fn a_group_that_waits_keeps_its_file_again(rt: HostRuntime) -> Result<(), Fail> {
    let alloc = rt.alloc();
    let mut set = set_of(alloc, &[1])?;
    let second = group(alloc, set.version(), 2)?;
    again!(LogFault::Memory => set.append(&second))?;
    let device = MemoryDevice::of(again!(vec![in alloc; 7])?);
    match rotate(&mut set, device) {
        Err((fault, device)) => {
            assert_eq!(rt;
                (fault, device.bytes()),
                (LogFault::OutOfTurn, [7].as_slice())
            );
        }
        Ok(()) => return Err(Memory)?,
    }
    assert_eq!(rt; set.sync(), Ok(()));
    assert_eq!(rt; (set.count(), set.firsts()), (2, [1].as_slice()));
    Ok(())
}

/// The number of files that these devices hold, one after another, from the first device on, and the gno after their
/// last record.
fn found_on<D: Device>(alloc: Global, devices: &mut [D]) -> Result<(usize, u128), LogFault> {
    let mut place = Place::First;
    for at in 0..devices.len() {
        let found = again!(LogFault::Memory => find(alloc, &mut devices[at], place))?;
        if !found.finished() {
            return Ok((at + 1, found.next()));
        }
        place = Place::Behind {
            source: found.source(),
            next: found.next(),
        };
    }
    Err(LogFault::OutOfTurn)
}

/// A device with room for all that is written here, so that no call of it is repeated because memory ran out. Its `nth`
/// call fails.
fn failing(alloc: Global, nth: u64) -> Result<FaultyDevice<MemoryDevice>, AllocError> {
    let room = again!(Vec::with_capacity(alloc, 200))?;
    Ok(FaultyDevice::new(MemoryDevice::of(room), nth))
}

/// A log of one group does not continue if the last file's device or the next one's fails at this call. It takes
/// nothing more then, and `files` files are found on both.
fn fails_at(
    rt: &(impl Abort + AllocGlobal),
    old: u64,
    next: u64,
    files: usize,
) -> Result<(), Fail> {
    let alloc = rt.alloc();
    let mut set = new_set(alloc, failing(alloc, old)?)?;
    put_next(alloc, &mut set)?;
    match rotate(&mut set, failing(alloc, next)?) {
        Err((fault, back)) => {
            assert_eq!(rt; fault, LogFault::Device, "calls {old} and {next}");
            is_left(rt, set, back, files)
        }
        Ok(()) => Err(Memory)?,
    }
}

/// The log of one group takes nothing more, and `files` files are found on its device and the one that it handed back.
fn is_left(
    rt: &(impl Abort + AllocGlobal),
    set: Box<LogSet<FaultyDevice<MemoryDevice>>>,
    back: FaultyDevice<MemoryDevice>,
    files: usize,
) -> Result<(), Fail> {
    let mut set = set;
    assert_eq!(rt; put_next(rt.alloc(), &mut set), Err(LogFault::Device));
    assert_eq!(rt; (set.count(), set.firsts()), (1, [1].as_slice()));
    let (_, last) = Box::into_inner(set).into_devices();
    let mut devices = [last.into_inner(), back.into_inner()];
    assert_eq!(rt; found_on(rt.alloc(), &mut devices)?, (files, 2));
    Ok(())
}

/// Catches a file that is finished before the next one is made, a failure that is not reported, a log that takes groups
/// after it, and a wrong device that is handed back, at each call of a rotation. The last file's device is called three
/// times as the file is made, and four times for its group.
#[test]
fn a_device_fails_as_a_log_goes_on_again(rt: HostRuntime) -> Result<(), Fail> {
    for (old, next, files) in [(0, 1, 1), (0, 2, 1), (0, 3, 1), (8, 0, 1), (9, 0, 2)] {
        fails_at(&rt, old, next, files)?;
    }
    Ok(())
}

/// Devices with these contents.
fn devices_with(alloc: Global, contents: &[&[u8]]) -> Result<Vec<MemoryDevice>, AllocError> {
    let mut devices = again!(Vec::with_capacity(alloc, contents.len()))?;
    for content in contents {
        let bytes = again!(Vec::from_slice(alloc, content))?;
        again!(devices.reserve(1))?;
        devices.push(MemoryDevice::of(bytes))?;
    }
    Ok(devices)
}

/// The log on devices with these contents.
fn open_on(alloc: Global, contents: &[&[u8]]) -> Result<Box<LogSet<MemoryDevice>>, LogFault> {
    let set = match open(alloc, devices_with(alloc, contents)?) {
        Err((LogFault::Memory, devices)) => open(alloc, devices).map_err(|e| e.0)?,
        Err((fault, _)) => return Err(fault),
        Ok(set) => set,
    };
    Ok(boxed(alloc, set)?)
}

/// The log on these devices. Without a device there is none.
fn open(
    alloc: Global,
    devices: Vec<MemoryDevice>,
) -> Result<LogSet<MemoryDevice>, (LogFault, Vec<MemoryDevice>)> {
    if devices.is_empty() {
        return Err((LogFault::OutOfTurn, devices));
    }
    LogSet::open(alloc, devices)
}

/// Catches files that are opened in another order, or without one of them. Also: a second file of another source, of an
/// older form, or with a gno past the next.
#[test]
fn files_are_opened_in_order_again(rt: HostRuntime) -> Result<(), Fail> {
    let alloc = rt.alloc();
    let set = open_on(alloc, &[&FIRST, &SECOND])?;
    assert_eq!(rt; (set.count(), set.firsts()), (3, [1, 2].as_slice()));
    let (mut other, mut older, mut later) = (SECOND, SECOND, SECOND);
    other[23] = 2;
    older[7] = 0x32;
    later[31] = 3;
    let faults = [
        open_on(alloc, &[&FIRST]).err(),
        open_on(alloc, &[&SECOND]).err(),
        open_on(alloc, &[&SECOND, &FIRST]).err(),
        open_on(alloc, &[&FIRST, &other]).err(),
        open_on(alloc, &[&FIRST, &older]).err(),
        open_on(alloc, &[&FIRST, &later]).err(),
    ];
    let (turn, magic) = (Some(LogFault::OutOfTurn), Some(LogFault::BadMagic));
    assert_eq!(rt; faults, [turn, turn, turn, turn, magic, turn]);
    Ok(())
}

/// The number of files of the log on a small stack.
const MANY: usize = 30_000;

/// The number of files of a log in which each but the last is finished, and none has a group.
fn open_many(alloc: Global) -> Result<usize, LogFault> {
    let mut devices = Vec::with_capacity(alloc, MANY)?;
    for file in 1..=MANY {
        let mut bytes = Vec::from_slice(alloc, &FIRST[..32])?;
        bytes.push(u8::from(file < MANY))?;
        devices.push(MemoryDevice::of(bytes))?;
    }
    let set = open(alloc, devices).map_err(|e| e.0)?;
    Ok(set.firsts().len())
}

/// Why no thread was made. If memory runs out for it or for its stack, the system reports a call that would block.
fn refused(error: Error) -> Fail {
    match error.kind() {
        ErrorKind::WouldBlock => Memory.into(),
        _ => error.into(),
    }
}

/// Catches an `open` that makes a nested call for each file: for `MANY` files it would pass the end of a stack of 1 MiB.
#[test]
fn many_files_open_on_a_small_stack(rt: HostRuntime) -> Result<(), Fail> {
    let alloc = rt.alloc();
    let thread = Builder::new()
        .stack_size(1 << 20)
        .spawn(&rt, move || open_many(alloc))
        .map_err(refused)?;
    assert_eq!(rt; thread.join(&rt), Ok(MANY));
    Ok(())
}

/// Catches a next file that counts before the one before it is finished, and a log that then continues in it.
#[test]
fn a_file_behind_an_unfinished_one_is_dropped_again(rt: HostRuntime) -> Result<(), Fail> {
    let alloc = rt.alloc();
    let mut open_end = FIRST;
    open_end[100] = 0;
    let mut set = open_on(alloc, &[&open_end, &SECOND[..33]])?;
    assert_eq!(rt; (set.count(), set.firsts()), (1, [1].as_slice()));
    put_next(alloc, &mut set)?;
    let (past, last) = Box::into_inner(set).into_devices();
    assert_eq!(rt; (past.len(), last.bytes().len()), (0, 101 + 4 + 56 + 1));
    Ok(())
}

/// Writes a log of three groups in two files.
fn write_set<R: Files<File = File> + AllocGlobal>(
    rt: &R,
    first: &str,
    second: &str,
) -> Result<(), Fail> {
    let alloc = rt.alloc();
    let mut set = new_set(alloc, FileDevice::open(rt, alloc, first)?)?;
    put_next(alloc, &mut set)?;
    rotate(&mut set, FileDevice::open(rt, alloc, second)?).map_err(|e| e.0)?;
    put_next(alloc, &mut set)?;
    put_next(alloc, &mut set)?;
    Ok(())
}

fn is_read<R: Files<File = File> + AllocGlobal + Abort>(
    rt: &R,
    first: &str,
    second: &str,
) -> Result<(), Fail> {
    write_set(rt, first, second)?;
    let mut devices = [
        FileDevice::open(rt, rt.alloc(), first)?,
        FileDevice::open(rt, rt.alloc(), second)?,
    ];
    assert_eq!(rt; (devices[0].len(), devices[1].len()), (101, 162));
    assert_eq!(rt; found_on(rt.alloc(), &mut devices)?, (2, 4));
    Ok(())
}

/// Catches a log that is not on its files when they are opened again, or is on another file than the one that it was given.
#[test]
fn a_log_in_two_files_is_read(rt: HostRuntime) -> Result<(), Fail> {
    let (first, second) = (OwnFile::new(&rt, "set_1")?, OwnFile::new(&rt, "set_2")?);
    is_read(&rt, first.path(), second.path())
}
