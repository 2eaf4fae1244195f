//! Records from bytes that come in pieces.

use crate::tests::makers::{FORMS, decode_again, ends, greatest, joined, records};
use record_codec::{CodecFault, Record, Version, same_records};
use record_stream::Stream;
use std::process::Abort;
use std::test::Fail;
use tests_stores::again;

/// Feeds a piece, and once more if that is refused.
fn feed_again(
    stream: &mut Stream,
    piece: &[u8],
    records: &mut Vec<Record>,
) -> Result<(), CodecFault> {
    again!(stream.feed(piece, records))
}

/// Whether both are the same records.
fn are_alike(some: &[Record], others: &[Record]) -> bool {
    some.len() == others.len()
        && some
            .iter()
            .zip(others)
            .all(|(one, other)| same_records(one, other))
}

/// Feeds the pieces in order. Each gives the records that are whole with it, and in the end these are the wanted ones.
fn is_whole_with_each(
    rt: &(impl Abort + AllocGlobal),
    version: Version,
    pieces: [&[u8]; 3],
    wanted: &[Record],
) -> Result<(), Fail> {
    let mut stream = Stream::new(rt.alloc(), version);
    let mut found = Vec::new(rt.alloc());
    let mut fed: usize = 0;
    for piece in pieces {
        stream.feed(piece, &mut found)?;
        fed = fed.saturating_add(piece.len());
        let whole = ends(version).iter().filter(|end| **end <= fed).count();
        assert_eq!(rt; found.len(), whole, "{version:?} {pieces:?}");
    }
    assert!(rt; are_alike(&found, wanted), "{version:?} {pieces:?}");
    Ok(())
}

/// Catches a record that a cut loses, gives twice or gives late.
#[test]
fn two_records_cut_at_any_two_places(rt: HostRuntime) -> Result<(), Fail> {
    for version in FORMS {
        let (bytes, wanted) = (joined(rt.alloc(), version)?, records(rt.alloc(), version)?);
        let [_, end, ..] = ends(version);
        let bytes = bytes.get(..end).ok_or("two records")?;
        let wanted = wanted.get(..2).ok_or("two records")?;
        for second in 0..=bytes.len() {
            let (front, back) = bytes.split_at(second);
            for first in 0..=front.len() {
                let (one, two) = front.split_at(first);
                is_whole_with_each(&rt, version, [one, two, back], wanted)?;
            }
        }
    }
    Ok(())
}

/// Catches a stream that keeps half of a piece if memory runs out.
#[test]
fn all_records_byte_by_byte_again(rt: HostRuntime) -> Result<(), Fail> {
    for version in FORMS {
        let bytes = again!(joined(rt.alloc(), version))?;
        let mut stream = Stream::new(rt.alloc(), version);
        let mut found = Vec::new(rt.alloc());
        for byte in &bytes {
            feed_again(&mut stream, &[*byte], &mut found)?;
        }
        feed_again(&mut stream, &[], &mut found)?;
        assert!(rt; are_alike(&found, &records(rt.alloc(), version)?));
        feed_again(&mut stream, &bytes, &mut found)?;
        assert_eq!(rt; found.len(), 8);
    }
    Ok(())
}

/// Catches a stream that goes over all that it holds with each piece: it would not end in time.
#[test]
fn the_greatest_record_byte_by_byte(rt: HostRuntime) -> Result<(), Fail> {
    for version in FORMS {
        let bytes = greatest(rt.alloc(), version)?;
        let mut stream = Stream::new(rt.alloc(), version);
        let mut found = Vec::new(rt.alloc());
        for byte in &bytes {
            stream.feed(&[*byte], &mut found)?;
        }
        let wanted = decode_again(rt.alloc(), version, &bytes)?;
        assert!(rt; are_alike(&found, &[wanted]));
    }
    Ok(())
}

/// Feeds a first length that is too small by one, and then records. The second one, whose last byte is at `last`, has a
/// flag without meaning.
fn takes_nothing(
    rt: &(impl Abort + AllocGlobal),
    version: Version,
    small: u8,
    flags: usize,
    last: usize,
) -> Result<(), Fail> {
    let behind = last.saturating_add(1);
    let mut bad = again!(joined(rt.alloc(), version))?;
    *bad.get_mut(flags).ok_or("flags")? = 0x80;
    let mut stream = Stream::new(rt.alloc(), version);
    let mut records = Vec::new(rt.alloc());
    feed_again(&mut stream, &[0; 3], &mut records)?;
    assert!(rt; stream.feed(&[small], &mut records) == Err(CodecFault::BadLength));
    for (from, to, whole, is_bad) in [
        (3, 20, 0, false),
        (20, 20, 0, false),
        (20, behind, 0, true),
        (20, last, 1, false),
        (last, behind, 1, true),
    ] {
        let piece = bad.get(from..to).ok_or("a piece")?;
        let fault = again!(CodecFault::Memory => stream.feed(piece, &mut records)).err();
        assert_eq!(rt;
            fault,
            is_bad.then_some(CodecFault::BadFlags),
            "{version:?} {from} {to}"
        );
        assert_eq!(rt; records.len(), whole, "{version:?} {from} {to}");
    }
    Ok(())
}

/// Catches a fault that is reported too early or too late, or that takes a part of its piece.
#[test]
fn faults_take_nothing_again(rt: HostRuntime) -> Result<(), Fail> {
    takes_nothing(&rt, Version::One, 39, 81, 144)?;
    takes_nothing(&rt, Version::Two, 41, 83, 168)
}
