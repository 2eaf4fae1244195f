//! The texts of faults of devices, log files and records.

use log_device::DeviceFault;
use log_file::LogFault;
use record_codec::CodecFault;
use std::test::Fail;
use tests_stores::common::is_told;

/// Catches a wrong number, or another fault's name.
#[test]
fn faults_have_their_texts(rt: HostRuntime) -> Result<(), Fail> {
    let alloc = rt.alloc();
    assert!(rt; is_told(alloc, &DeviceFault::Failed, "the device failed")?);
    assert!(rt; is_told(alloc, &DeviceFault::Memory, "no memory")?);
    assert!(rt; is_told(alloc, &LogFault::Device, "L1 Device")?);
    assert!(rt; is_told(alloc, &LogFault::Memory, "L4 Memory")?);
    assert!(rt; is_told(alloc, &LogFault::Codec(CodecFault::BadCount), "C7 BadCount")?);
    assert!(rt; is_told(alloc, &CodecFault::Memory, "C8 Memory")?);
    Ok(())
}
