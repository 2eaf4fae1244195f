//! Files of the system.

use crate::tests::makers::put_again;
use file_device::{FileDevice, OpenFault};
use log_device::Device;
use log_file::LogFile;
use std::alloc::AllocError;
use std::fs::{File, OpenOptions};
use std::io::Write;
use std::os::unix::fs::{FileExt, symlink};
use std::process::Abort;
use std::rt::Files;
use std::test::Fail;
use std::{fs, process};
use tests_log::common::source;
use tests_stores::common::boxed;

/// A path for such a file, which no other process has.
fn path_of(rt: &HostRuntime, name: &str) -> Result<String, AllocError> {
    let process = process::id(rt.process());
    format!(in rt.alloc(); "/tmp/mtr_{name}_{process}")
}

/// The file at such a path, for one test. What is there is removed before and after the test.
pub struct OwnFile<'r> {
    rt: &'r HostRuntime,
    path: String,
}

impl<'r> OwnFile<'r> {
    pub fn new(rt: &'r HostRuntime, name: &str) -> Result<OwnFile<'r>, AllocError> {
        let path = path_of(rt, name)?;
        let _ = fs::remove_file(rt, path.as_str());
        Ok(OwnFile { rt, path })
    }

    pub fn path(&self) -> &str {
        self.path.as_str()
    }
}

impl<'r> Drop for OwnFile<'r> {
    fn drop(self) {
        let OwnFile { rt, path } = self;
        let _ = fs::remove_file(rt, path.as_str());
    }
}

/// The log that the file has, or a new one if the file is empty.
fn log_on<R: Files<File = File> + AllocGlobal>(
    rt: &R,
    path: &str,
) -> Result<Box<LogFile<FileDevice<File>>>, Fail> {
    let device = FileDevice::open(rt, rt.alloc(), path)?;
    let opened = if device.len() == 0 {
        LogFile::create(rt.alloc(), device, source())
    } else {
        LogFile::open(rt.alloc(), device)
    };
    match opened {
        Ok(log) => Ok(boxed(rt.alloc(), log)?),
        Err((fault, _)) => Err(fault)?,
    }
}

/// Opens the log, which has `before` records, and puts the next one on it.
fn put_next<R: Files<File = File> + AllocGlobal + Abort>(
    rt: &R,
    path: &str,
    before: usize,
) -> Result<(), Fail> {
    let mut log = log_on(rt, path)?;
    assert_eq!(rt; log.count(), before as u128);
    put_again(rt.alloc(), &mut log, (before as u64).saturating_add(1))?;
    Ok(())
}

/// Appends bytes to the file, as a torn write may leave them.
fn tear<R: Files<File = File> + AllocGlobal>(rt: &R, path: &str) -> Result<(), Fail> {
    let mut file = OpenOptions::new().append(true).open(rt, path)?;
    file.write_all(&[0, 0, 0, 63, 7, 7])?;
    Ok(())
}

fn goes_on<R: Files<File = File> + AllocGlobal + Abort>(rt: &R, path: &str) -> Result<(), Fail> {
    for before in 0..3 {
        put_next(rt, path, before)?;
    }
    let len = fs::metadata(rt, path)?.len();
    tear(rt, path)?;
    assert_eq!(rt; log_on(rt, path)?.count(), 3);
    assert_eq!(rt; fs::metadata(rt, path)?.len(), len);
    put_next(rt, path, 3)?;
    assert_eq!(rt; log_on(rt, path)?.count(), 4);
    Ok(())
}

/// Catches a log that is not on its file when that is opened again, and bytes after its closed gate that stay.
#[test]
fn a_log_on_a_file_goes_on(rt: HostRuntime) -> Result<(), Fail> {
    let file = OwnFile::new(&rt, "log")?;
    goes_on(&rt, file.path())
}

fn is_held<R: Files<File = File> + AllocGlobal + Abort>(rt: &R, path: &str) -> Result<(), Fail> {
    let mut device = boxed(rt.alloc(), FileDevice::open(rt, rt.alloc(), path)?)?;
    device.write_at(2, &[1, 2])?;
    assert!(rt; matches!(FileDevice::open(rt, rt.alloc(), path), Err(OpenFault::Busy)));
    device.write_at(6, &[])?;
    device.cut(5)?;
    device.sync()?;
    drop(device);
    let mut room = [9; 7];
    assert_eq!(rt; File::open(rt, path)?.read_at(&mut room, 0)?, 5);
    assert_eq!(rt; room, [0, 0, 1, 2, 0, 9, 9]);
    let device = FileDevice::open(rt, rt.alloc(), path)?;
    assert_eq!(rt; device.len(), 5);
    Ok(())
}

/// Catches a file that two devices write, and one that holds other bytes than it should.
#[test]
fn a_file_is_held_by_one(rt: HostRuntime) -> Result<(), Fail> {
    let file = OwnFile::new(&rt, "held")?;
    is_held(&rt, file.path())
}

fn are_refused<R: Files<File = File> + AllocGlobal + Abort>(
    rt: &R,
    folder: &str,
    link: &str,
) -> Result<(), Fail> {
    fs::create_dir(rt, folder)?;
    symlink(rt, "log", link)?;
    for path in [folder, link] {
        assert!(rt;
            matches!(
                FileDevice::open(rt, rt.alloc(), path),
                Err(OpenFault::NotAFile)
            )
        );
    }
    assert!(rt;
        matches!(
            FileDevice::open(rt, rt.alloc(), "/tmp/mtr_no_folder/log"),
            Err(OpenFault::System(_))
        )
    );
    Ok(())
}

/// Catches a folder that is taken for a file, a link that is followed, and a file that is made in a folder that does not exist.
#[test]
fn what_is_no_file_is_refused(rt: HostRuntime) -> Result<(), Fail> {
    let (folder, link) = (path_of(&rt, "folder")?, OwnFile::new(&rt, "link")?);
    let done = are_refused(&rt, folder.as_str(), link.path());
    let _ = fs::remove_dir(&rt, folder.as_str());
    done
}
