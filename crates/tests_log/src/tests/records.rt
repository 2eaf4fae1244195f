//! Records and groups: fixed spellings, and calls at the bounds.

use crate::tests::makers::{
    FORMS, MARKED, decode_again, greatest, group_of, marked, records, spellings, three,
};
use record_codec::{Record, Version, encode, encoded_len, record_in, same_records};
use std::alloc::Global;
use std::test::Fail;
use tests_stores::again;
use tests_stores::common::boxed;

/// Whether the record is encoded as these bytes in this form, and decoded from them.
fn is_spelled(
    alloc: Global,
    version: Version,
    record: &Record,
    bytes: &[u8],
) -> Result<bool, Fail> {
    // In the first form a record with marks has no spelling.
    if version == Version::One && !record.marks.list().is_empty() {
        return Ok(false);
    }
    let mut out = Vec::new(alloc);
    again!(encode(version, record, &mut out))?;
    let found = decode_again(alloc, version, bytes)?;
    Ok(
        out.as_slice() == bytes
            && encoded_len(version, record) == bytes.len()
            && same_records(&found, record),
    )
}

/// Catches columns, a mask, refs, marks or a flag that are written and read in the same wrong way, or as in the other form.
#[test]
fn records_are_spelled_again(rt: HostRuntime) -> Result<(), Fail> {
    for version in FORMS {
        let records = records(rt.alloc(), version)?;
        for (record, bytes) in records.iter().zip(spellings(version)) {
            assert!(rt;
                is_spelled(rt.alloc(), version, record, bytes)?,
                "{version:?} {record:?}"
            );
        }
    }
    assert!(rt; is_spelled(rt.alloc(), Version::Two, &marked(rt.alloc())?, &MARKED)?);
    Ok(())
}

/// Catches a call that runs out of memory past some number of refs, marks, changes or bytes.
#[test]
fn the_greatest_record_again(rt: HostRuntime) -> Result<(), Fail> {
    for (version, marks) in [(Version::One, 0), (Version::Two, 2048)] {
        let bytes = greatest(rt.alloc(), version)?;
        let record = boxed(rt.alloc(), decode_again(rt.alloc(), version, &bytes)?)?;
        assert_eq!(rt; record.refs.list().len(), 2048);
        assert_eq!(rt; record.marks.list().len(), marks);
        assert_eq!(rt; record.changes.list().len(), 1024);
        let copy = boxed(rt.alloc(), again!(record.copy())?)?;
        assert!(rt;
            is_spelled(rt.alloc(), version, &copy, &bytes)?,
            "{version:?}"
        );
    }
    Ok(())
}

/// Catches a group that is refused past some number of bytes, and a record that is read at another's place.
#[test]
fn a_group_of_three_again(rt: HostRuntime) -> Result<(), Fail> {
    let records = three(rt.alloc())?;
    let group = group_of(rt.alloc(), Version::Two, &records)?;
    let copy = boxed(rt.alloc(), again!(group.copy())?)?;
    assert_eq!(rt;
        (copy.first(), copy.last(), copy.bytes().len()),
        (1, 3, 185_507)
    );
    for record in &records {
        let found = again!(copy.record(rt.alloc(), record.gno))?.ok_or("a record")?;
        assert!(rt; same_records(&found, record));
        let skip = record.gno.saturating_sub(1);
        let placed = again!(record_in(rt.alloc(), copy.version(), copy.bytes(), skip))?;
        assert!(rt; same_records(&placed, record));
    }
    Ok(())
}
