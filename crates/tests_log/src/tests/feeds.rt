//! What one process sends to another: a head, and records after it.

use crate::common::source;
use crate::tests::makers::{joined, records, three};
use log_feed::{Head, HeadFault, read_head, write_head, write_records};
use record_codec::{Version, same_records};
use record_stream::Stream;
use std::alloc::Global;
use std::io;
use std::io::{ErrorKind, Read};
use std::test::Fail;
use tests_stores::common::is_told;

/// The magic, the source, the gno 258, the length 6, and the text `base 1`.
const HEAD: [u8; 42] = [
    0x4d, 0x54, 0x52, 0x57, 0x49, 0x52, 0x45, 0x31, 0x6d, 0x74, 0x72, 0, 0, 0, 0x40, 0, 0x80, 0, 0,
    0, 0, 0, 0, 1, 0, 0, 0, 0, 0, 0, 1, 2, 0, 0, 0, 6, 0x62, 0x61, 0x73, 0x65, 0x20, 0x31,
];

/// A reader that gives a byte at a time, is interrupted before each, and fails after the last.
#[derive(Drop)]
struct Drops<'a> {
    left: &'a [u8],
    is_ready: bool,
}

impl Read for Drops<'_> {
    fn read(&mut self, buf: &mut [u8]) -> io::Result<usize> {
        self.is_ready = !self.is_ready;
        if self.is_ready {
            return Err(io::Error::from(ErrorKind::Interrupted));
        }
        let Some((byte, left)) = self.left.split_first() else {
            return Err(io::Error::from(ErrorKind::BrokenPipe));
        };
        if buf.is_empty() {
            return Ok(0);
        }
        buf[0] = *byte;
        self.left = left;
        Ok(1)
    }
}

/// The fault for an error of a stream, or `Memory` if memory ran out for the bytes to write.
fn of_stream(error: io::Error) -> HeadFault {
    match error.kind() {
        ErrorKind::OutOfMemory => HeadFault::Memory,
        _ => HeadFault::Stream(error),
    }
}

/// The head in these bytes, read drop by drop, and the bytes that are left.
fn read_drops(alloc: Global, left: &[u8]) -> (Result<Head, HeadFault>, &[u8]) {
    let mut input = Drops {
        left,
        is_ready: false,
    };
    let head = read_head(alloc, &mut input);
    (head, input.left)
}

/// Whether reading a head from these bytes is refused with this text.
fn is_refused(alloc: Global, mut bytes: &[u8], text: &str) -> Result<bool, Fail> {
    match read_head(alloc, &mut bytes) {
        Ok(_) => Ok(false),
        Err(HeadFault::Memory) => Err(HeadFault::Memory)?,
        Err(fault) => Ok(is_told(alloc, &fault, text)?),
    }
}

/// Catches another order of a number's bytes, or of the fields.
#[test]
fn a_head_is_these_bytes(rt: HostRuntime) -> Result<(), Fail> {
    let mut bytes = Vec::new(rt.alloc());
    write_head(rt.alloc(), &mut bytes, source(), 258, b"base 1").map_err(|error| of_stream(error))?;
    assert_eq!(rt; bytes.as_slice(), HEAD.as_slice());
    Ok(())
}

/// Catches a cut that is reported as a wrong magic; a magic that is not checked, or only once it is whole; a false
/// length for which four gigabytes are requested.
#[test]
fn heads_that_are_none(rt: HostRuntime) -> Result<(), Fail> {
    for end in 0..HEAD.len() {
        let (front, _) = HEAD.split_at(end);
        assert!(rt; is_refused(rt.alloc(), front, "H1 Short")?, "{end}");
    }
    for at in 0..8 {
        let mut other = HEAD;
        other[at] ^= 0x20;
        let (front, _) = other.split_at(at + 1);
        assert!(rt; is_refused(rt.alloc(), front, "H2 BadMagic")?, "{at}");
        assert!(rt; is_refused(rt.alloc(), &other, "H2 BadMagic")?, "{at}");
    }
    let mut lies = HEAD;
    lies[32..36].copy_from_slice(&[0xff; 4]);
    assert!(rt; is_refused(rt.alloc(), &lies, "H1 Short")?);
    Ok(())
}

/// Catches one byte too many that is read, and a failure or an interruption that is reported as an end.
#[test]
fn a_head_drop_by_drop(rt: HostRuntime) -> Result<(), Fail> {
    let mut bytes = HEAD.to_vec(rt.alloc())?;
    bytes.push(7)?;
    let (head, left) = read_drops(rt.alloc(), &bytes);
    let head = head?;
    assert_eq!(rt; head.source, source());
    assert_eq!(rt; head.first, 258);
    assert_eq!(rt; head.text.as_slice(), b"base 1".as_slice());
    assert_eq!(rt; left, [7].as_slice());
    for end in 0..HEAD.len() {
        let (front, _) = HEAD.split_at(end);
        let (head, _) = read_drops(rt.alloc(), front);
        match head {
            Err(HeadFault::Memory) => return Err(HeadFault::Memory)?,
            head => assert!(rt; matches!(head, Err(HeadFault::Stream(_))), "{end}"),
        }
    }
    Ok(())
}

/// Catches bytes that are not the first of the records, if the stream takes no more.
#[test]
fn records_written_as_far_as_they_go(rt: HostRuntime) -> Result<(), Fail> {
    let wanted = joined(rt.alloc(), Version::Two)?;
    let records = records(rt.alloc(), Version::Two)?;
    for room in 0..290 {
        let mut bytes = [0; 290];
        let mut out = &mut bytes[..room];
        match write_records(rt.alloc(), &mut out, &records).map_err(|error| of_stream(error)) {
            Err(HeadFault::Memory) => return Err(HeadFault::Memory)?,
            written => assert!(rt; written.is_err(), "{room}"),
        }
        assert!(rt; wanted.starts_with(bytes.split_at(room).0), "{room}");
    }
    Ok(())
}

/// Catches records that are lost at the end of a piece.
#[test]
fn records_come_out_of_a_stream(rt: HostRuntime) -> Result<(), Fail> {
    let records = three(rt.alloc())?;
    let mut bytes = Vec::new(rt.alloc());
    write_records(rt.alloc(), &mut bytes, &records).map_err(|error| of_stream(error))?;
    let mut stream = Stream::new(rt.alloc(), Version::Two);
    let mut found = Vec::new(rt.alloc());
    for piece in bytes.chunks(4096) {
        stream.feed(piece, &mut found)?;
    }
    assert_eq!(rt; found.len(), 3);
    for (one, other) in found.iter().zip(&records) {
        assert!(rt; same_records(one, other));
    }
    Ok(())
}
