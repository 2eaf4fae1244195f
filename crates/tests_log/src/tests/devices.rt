//! Calls of a device in memory, which needs room only for a write, and what a crash may leave of a device that keeps it.

use log_device::{CrashDevice, Device, DeviceFault, MemoryDevice};
use std::alloc::AllocError;
use std::test::Fail;
use tests_stores::again;
use tests_stores::common::boxed;

/// Catches a write that runs out of memory past some length; a fill that is not zeros; a short read that changes the
/// rest of its buffer; a cut at the wrong end.
#[test]
fn writes_reads_and_cuts_again(rt: HostRuntime) -> Result<(), Fail> {
    let mut device = boxed(rt.alloc(), MemoryDevice::new(rt.alloc()))?;
    for (at, bytes) in [(2, [6, 7, 8]), (5_000_000, [1, 2, 3])] {
        again!(device.write_at(at, &bytes))?;
    }
    let mut room = [9; 6];
    assert_eq!(rt; device.read(0, &mut room), Ok(6));
    assert_eq!(rt; room, [0, 0, 6, 7, 8, 0]);
    assert_eq!(rt; device.read(5_000_001, &mut room), Ok(2));
    assert_eq!(rt; room, [2, 3, 6, 7, 8, 0]);
    device.write_at(0, &[5])?;
    device.cut(4)?;
    device.sync()?;
    assert_eq!(rt; device.bytes(), [5, 0, 6, 7].as_slice());
    Ok(())
}

/// Catches a crash device whose contents are only the kept one, or are of another moment, order or length. Each content
/// listed here may be left.
#[test]
fn what_a_crash_may_leave_again(rt: HostRuntime) -> Result<(), Fail> {
    let mut device = boxed(rt.alloc(), CrashDevice::new(rt.alloc()))?;
    again!(device.write_at(1, &[1, 2]))?;
    again!(device.sync())?;
    again!(device.cut(2))?;
    again!(device.write_at(1, &[7, 8, 9]))?;
    assert_eq!(rt; device.moments(), 5);
    let images = again!(device.images(4))?;
    let wanted: [&[u8]; 8] = [
        &[0, 1, 2],
        &[0, 1, 2, 0],
        &[0, 7, 8],
        &[0, 7, 8, 9],
        &[0, 0, 0],
        &[0, 0, 0, 0],
        &[0, 255, 255],
        &[0, 255, 255, 255],
    ];
    for (image, wanted) in images.iter().zip(wanted) {
        assert_eq!(rt; image.as_slice(), wanted);
    }
    Ok(())
}

/// Catches a failed write that no crash leaves.
#[test]
fn a_failed_write_may_stand(rt: HostRuntime) -> Result<(), Fail> {
    let mut device = boxed(rt.alloc(), CrashDevice::failing(rt.alloc(), 1))?;
    assert_eq!(rt; device.write_at(0, &[5]), Err(DeviceFault::Failed));
    assert_eq!(rt; device.len(), 0);
    if device.moments() == 1 {
        return Err(AllocError)?;
    }
    let images = device.images(1)?;
    assert_eq!(rt;
        images.last().map(|image| image.as_slice()),
        Some([255].as_slice())
    );
    Ok(())
}

/// Catches a cut that every crash leaves made, or that none does, and a failed cut that no crash leaves made.
#[test]
fn a_failed_cut_may_stand(rt: HostRuntime) -> Result<(), Fail> {
    let mut device = boxed(rt.alloc(), CrashDevice::failing(rt.alloc(), 3))?;
    if device.write_at(0, &[5, 6]).is_err() || device.sync().is_err() {
        return Err(AllocError)?;
    }
    assert_eq!(rt; device.cut(1), Err(DeviceFault::Failed));
    assert_eq!(rt; device.len(), 2);
    if device.moments() == 3 {
        return Err(AllocError)?;
    }
    let images = device.images(3)?;
    let wanted: [&[u8]; 4] = [&[5, 6], &[5], &[5, 6], &[5]];
    for (image, wanted) in images.iter().zip(wanted) {
        assert_eq!(rt; image.as_slice(), wanted);
    }
    Ok(())
}
