//! Files of the form `Three`: their heads and ends, and a log that continues in a next file. The devices may fail, and
//! a crash may leave a part of them.

use crate::common::source;
use crate::tests::logs::append_again;
use log_device::{CrashDevice, Device, MemoryDevice};
use log_file::{Form, LogFault, LogFile};
use record_codec::CodecFault;
use schema::Memory;
use std::alloc::Global;
use std::process::Abort;
use std::test::Fail;
use tests_stores::again;
use tests_stores::common::boxed;

/// The header of a file whose first record must have the gno 5.
const HEADER: [u8; 32] = [
    0x4d, 0x54, 0x52, 0x4c, 0x4f, 0x47, 0x30, 0x33, 0x6d, 0x74, 0x72, 0, 0, 0, 0x40, 0, 0x80, 0, 0,
    0, 0, 0, 0, 1, 0, 0, 0, 0, 0, 0, 0, 5,
];

/// The moment after the three calls that make a file and the four that put a group on it.
const AT_REST: usize = 7;

/// The first gno of the file of these bytes, whether it is finished, and how many bytes are left of it.
fn opened(alloc: Global, header: &[u8], behind: &[u8]) -> Result<(u64, bool, u64), LogFault> {
    let mut bytes = Vec::with_capacity(alloc, header.len() + behind.len())?;
    bytes.extend_from_slice(header)?;
    bytes.extend_from_slice(behind)?;
    match LogFile::open(alloc, MemoryDevice::of(bytes)) {
        Ok(file) => Ok((file.first(), file.finished(), file.into_device().len())),
        Err((fault, _)) => Err(fault),
    }
}

/// Catches a file that is finished by a closed gate, or by a gate with bytes after it, and a header that is read in part.
#[test]
fn a_file_ends_with_its_last_gate_again(rt: HostRuntime) -> Result<(), Fail> {
    let short = Err(LogFault::Codec(CodecFault::Short));
    for (behind, wanted) in [
        ([0].as_slice(), Ok((5, false, 33))),
        ([0, 1].as_slice(), Ok((5, false, 33))),
        ([1].as_slice(), Ok((5, true, 33))),
        ([7].as_slice(), Ok((5, true, 33))),
        ([1, 0].as_slice(), short),
        ([].as_slice(), short),
    ] {
        assert_eq!(rt;
            again!(LogFault::Memory => opened(rt.alloc(), &HEADER, behind)),
            wanted
        );
    }
    assert_eq!(rt;
        again!(LogFault::Memory => opened(rt.alloc(), &HEADER[..31], &[])),
        Err(LogFault::BadMagic)
    );
    Ok(())
}

/// Catches an open gate that finishes a log of an older form.
#[test]
fn older_forms_know_no_finished_log_again(rt: HostRuntime) -> Result<(), Fail> {
    for form in [b'1', b'2'] {
        let mut header = HEADER;
        header[7] = form;
        let told = again!(LogFault::Memory => opened(rt.alloc(), &header[..24], &[1]));
        assert_eq!(rt; told, Err(LogFault::Codec(CodecFault::Short)));
    }
    Ok(())
}

/// A finished file without records, whose next record would have the gno 5.
fn finished(alloc: Global) -> Result<LogFile<MemoryDevice>, LogFault> {
    let mut bytes = Vec::with_capacity(alloc, 33)?;
    bytes.extend_from_slice(&HEADER)?;
    bytes.push(1)?;
    LogFile::open(alloc, MemoryDevice::of(bytes)).map_err(|e| e.0)
}

/// Catches a group that is put after the gate that finishes a file, and such a gate that is printed as closed.
#[test]
fn a_finished_file_takes_nothing_more_again(rt: HostRuntime) -> Result<(), Fail> {
    let mut file = again!(LogFault::Memory => finished(rt.alloc()))?;
    assert_eq!(rt;
        append_again(rt.alloc(), &mut file, 5),
        Err(LogFault::OutOfTurn)
    );
    assert_eq!(rt; file.sync(), Ok(()));
    assert_eq!(rt; again!(file.text(rt.alloc()))?.last().copied(), Some(1));
    Ok(())
}

/// The devices of the last file and of the next one, and why the log did not continue, if it did not.
#[derive(Drop)]
struct Rotated {
    old: CrashDevice,
    next: CrashDevice,
    fault: Option<LogFault>,
}

/// Continues the log in a next file on this device.
fn rotate(log: LogFile<CrashDevice>, next: CrashDevice) -> Result<Rotated, Memory> {
    if log.form() != Form::Three {
        return Err(Memory);
    }
    let (_, writer) = log.split();
    let mut writer = writer;
    match writer.rotate(next) {
        Ok(old) => Ok(Rotated {
            old,
            next: writer.into_device(),
            fault: None,
        }),
        Err((fault, next)) => Ok(Rotated {
            old: writer.into_device(),
            next,
            fault: Some(fault),
        }),
    }
}

/// Why a call failed on a device that should fail no call: if memory runs out, a `CrashDevice` reports that it failed.
fn lacking(fault: LogFault) -> LogFault {
    match fault {
        LogFault::Device => LogFault::Memory,
        other => other,
    }
}

/// A file of one record, on a device whose `nth` call fails. The calls that are made here are the first seven, and must
/// succeed.
fn of_one(alloc: Global, nth: u64) -> Result<LogFile<CrashDevice>, LogFault> {
    let device = CrashDevice::failing(alloc, nth);
    match LogFile::create_from(alloc, device, source(), 1) {
        Ok(log) => {
            let mut log = log;
            append_again(alloc, &mut log, 1).map_err(lacking)?;
            log.sync().map_err(lacking)?;
            Ok(log)
        }
        Err((fault, _)) => Err(lacking(fault)),
    }
}

/// The file of these bytes.
fn opened_on(alloc: Global, bytes: Vec<u8>) -> Result<Box<LogFile<MemoryDevice>>, LogFault> {
    let file = LogFile::open(alloc, MemoryDevice::of(bytes)).map_err(|e| e.0)?;
    Ok(boxed(alloc, file)?)
}

/// Opens both files. The old one has its record. If it is finished, the next one continues after that.
fn open_both(rt: &(impl Abort + AllocGlobal), old: Vec<u8>, next: &[u8]) -> Result<(), Fail> {
    let alloc = rt.alloc();
    let file = opened_on(alloc, old)?;
    assert_eq!(rt; (file.first(), file.count()), (1, 1));
    if file.finished() {
        let file = opened_on(alloc, next.to_vec(alloc)?)?;
        assert_eq!(rt;
            (file.first(), file.finished(), file.count()),
            (2, false, 0)
        );
    }
    Ok(())
}

/// Opens what a crash may have left of the old file at a moment, beside this content of the next one.
fn open_olds(
    rt: &(impl Abort + AllocGlobal),
    old: &CrashDevice,
    moment: usize,
    next: &[u8],
) -> Result<(), Fail> {
    for image in old.images(moment)? {
        open_both(rt, image, next)?;
    }
    Ok(())
}

/// Like `open_olds`, but beside what a crash may have left of the next file at a moment.
fn open_pairs(
    rt: &(impl Abort + AllocGlobal),
    rotated: &Rotated,
    moment: usize,
    next_moment: usize,
) -> Result<(), Fail> {
    for image in rotated.next.images(next_moment)? {
        open_olds(rt, &rotated.old, moment, &image)?;
    }
    Ok(())
}

/// Opens what a crash may have left at each moment. While the next file is made, the old one is at rest; while the old
/// one is finished, the next one is at rest.
fn open_each_moment(rt: &(impl Abort + AllocGlobal), rotated: &Rotated) -> Result<(), Fail> {
    let (moments, made) = (rotated.old.moments(), rotated.next.moments());
    for next_moment in 0..made {
        open_pairs(rt, rotated, AT_REST, next_moment)?;
    }
    for moment in AT_REST..moments {
        open_pairs(rt, rotated, moment, made.saturating_sub(1))?;
    }
    Ok(())
}

/// Catches a file that is finished before the next one is made and kept, or whose next one is not kept. The devices
/// fail nowhere, or at one call of the rotation.
#[test]
fn what_a_crash_leaves_of_a_rotation(rt: HostRuntime) -> Result<(), Fail> {
    for (old, next) in [(0, 0), (8, 0), (9, 0), (0, 1), (0, 2), (0, 3)] {
        let log = of_one(rt.alloc(), old)?;
        let rotated = rotate(log, CrashDevice::failing(rt.alloc(), next))?;
        let (told, wanted) = if old + next == 0 {
            (rotated.fault.map(lacking), None)
        } else {
            (rotated.fault, Some(LogFault::Device))
        };
        assert_eq!(rt; told, wanted, "calls {old} and {next}");
        open_each_moment(&rt, &rotated)?;
    }
    Ok(())
}

/// Catches a log that continues in a file whose first gno is not the next.
#[test]
fn a_log_goes_on_in_a_next_file(rt: HostRuntime) -> Result<(), Fail> {
    let log = of_one(rt.alloc(), 0)?;
    let rotated = rotate(log, CrashDevice::new(rt.alloc()))?;
    assert_eq!(rt; rotated.fault.map(lacking), None);
    let mut file = LogFile::open(rt.alloc(), rotated.next).map_err(|e| lacking(e.0))?;
    append_again(rt.alloc(), &mut file, 2).map_err(lacking)?;
    file.sync().map_err(lacking)?;
    assert_eq!(rt; (file.first(), file.count()), (2, 1));
    let old = LogFile::open(rt.alloc(), rotated.old).map_err(|e| lacking(e.0))?;
    assert_eq!(rt; (old.finished(), old.count()), (true, 1));
    Ok(())
}
