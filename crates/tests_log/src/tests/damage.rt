//! Records that are cut short or have a wrong byte: what `decode` and a stream make of them.

use crate::tests::makers::{FORMS, ends, joined, spellings};
use crate::tests::reader::{Fault, read};
use record_codec::{CodecFault, Record, Version, decode};
use record_stream::Stream;
use rows::Change;
use schema::{Mark, RowId};
use std::alloc::{AllocError, Global};
use std::process::Abort;
use std::test::Fail;
use tests_stores::again;

/// `decode` reports each beginning of the record as short, and a stream waits for the rest.
fn is_short_at_each_cut(
    rt: &(impl Abort + AllocGlobal),
    version: Version,
    bytes: &[u8],
) -> Result<(), Fail> {
    for cut in 0..bytes.len() {
        let front = &bytes[..cut];
        let fault = decode(rt.alloc(), version, front).err();
        assert_eq!(rt; fault, Some(CodecFault::Short), "{version:?} {cut}");
        let mut stream = Stream::new(rt.alloc(), version);
        let mut records = Vec::new(rt.alloc());
        again!(stream.feed(front, &mut records))?;
        assert!(rt; records.is_empty(), "{version:?} {cut}");
    }
    Ok(())
}

/// Catches a record that is read before its last byte is there, or a beginning that is reported as another fault.
#[test]
fn records_are_cut_at_each_place_again(rt: HostRuntime) -> Result<(), Fail> {
    for version in FORMS {
        for bytes in spellings(version) {
            is_short_at_each_cut(&rt, version, bytes)?;
        }
    }
    Ok(())
}

/// The fault, as the reader names it.
fn fault_of(fault: CodecFault) -> Fault {
    match fault {
        CodecFault::Short => Fault::Short,
        CodecFault::BadLength => Fault::BadLength,
        CodecFault::BadKind => Fault::BadKind,
        CodecFault::BadFlags => Fault::BadFlags,
        CodecFault::BadOrder => Fault::BadOrder,
        CodecFault::BadMask => Fault::BadMask,
        CodecFault::BadCount => Fault::BadCount,
        CodecFault::Memory => Fault::Memory,
    }
}

/// The record's fields, as the reader has them. The first form has no field for marks. If a record of that form has
/// marks, they are put in anyway, so that the comparison fails.
fn fields_of(alloc: Global, version: Version, record: &Record) -> Result<Vec<i64>, AllocError> {
    let (marks, changes) = (record.marks.list(), record.changes.list());
    let mut fields = vec![in alloc;
        record.gno.cast_signed(),
        record.sequence.cast_signed(),
        record.parent.cast_signed(),
        i64::from(record.flags.fk) + 2 * i64::from(record.flags.missing_keys),
    ]?;
    put_rows(&mut fields, record.refs.list())?;
    if version == Version::Two || !marks.is_empty() {
        put_marks(&mut fields, marks)?;
    }
    fields.push(changes.len() as i64)?;
    for change in changes {
        put_change(&mut fields, change)?;
    }
    Ok(fields)
}

fn put_rows(fields: &mut Vec<i64>, rows: &[RowId]) -> Result<(), AllocError> {
    fields.push(rows.len() as i64)?;
    for id in rows {
        fields.extend_from_slice(&[i64::from(id.table), id.key])?;
    }
    Ok(())
}

fn put_marks(fields: &mut Vec<i64>, marks: &[Mark]) -> Result<(), AllocError> {
    fields.push(marks.len() as i64)?;
    for mark in marks {
        fields.extend_from_slice(&[i64::from(mark.table()), mark.value()])?;
    }
    Ok(())
}

fn put_change(fields: &mut Vec<i64>, change: &Change) -> Result<(), AllocError> {
    let id = change.target();
    let (table, key) = (i64::from(id.table), id.key);
    match change {
        Change::Insert { values, .. } => {
            let values = values.columns();
            fields.extend_from_slice(&[1, table, key, values.len() as i64])?;
            fields.extend_from_slice(values)
        }
        Change::Update { columns, .. } => {
            fields.extend_from_slice(&[2, table, key, i64::from(columns.mask())])?;
            fields.extend_from_slice(columns.values())
        }
        Change::Delete { .. } => fields.extend_from_slice(&[3, table, key]),
    }
}

/// What `decode` returns, in the reader's terms.
fn decoded(alloc: Global, version: Version, bytes: &[u8]) -> Result<(Vec<i64>, usize), Fault> {
    match decode(alloc, version, bytes) {
        Ok((record, len)) => match fields_of(alloc, version, &record) {
            Ok(fields) => Ok((fields, len)),
            Err(_) => Err(Fault::Memory),
        },
        Err(fault) => Err(fault_of(fault)),
    }
}

/// Feeds the bytes one by one, up to the first fault.
fn first_fault(
    alloc: Global,
    version: Version,
    bytes: &[u8],
    records: &mut Vec<Record>,
) -> Option<CodecFault> {
    let mut stream = Stream::new(alloc, version);
    for byte in bytes {
        if let Err(fault) = again!(CodecFault::Memory => stream.feed(&[*byte], records)) {
            return Some(fault);
        }
    }
    None
}

/// A stream gives the records at the front of the bytes, and meets the fault after them.
fn is_streamed(
    rt: &(impl Abort + AllocGlobal),
    version: Version,
    bytes: &[u8],
    place: usize,
) -> Result<(), Fail> {
    let alloc = rt.alloc();
    let mut records = Vec::new(alloc);
    let fault = first_fault(alloc, version, bytes, &mut records);
    let mut rest = bytes;
    for record in &records {
        let (fields, len) = again!(Fault::Memory => read(alloc, version, rest))?;
        let found = again!(fields_of(alloc, version, record))?;
        assert_eq!(rt; found, fields, "{version:?} {place}");
        rest = rest.get(len..).ok_or("bytes of a record")?;
    }
    let wanted = again!(Fault::Memory => read(alloc, version, rest)).err();
    assert_eq!(rt;
        Some(fault.map_or(Fault::Short, fault_of)),
        wanted,
        "{version:?} {place}"
    );
    Ok(())
}

/// `decode` and the reader give the same for the record with this place, and so do a stream and the reader for all the bytes.
fn is_read_alike(
    rt: &(impl Abort + AllocGlobal),
    version: Version,
    bytes: &[u8],
    place: usize,
) -> Result<(), Fail> {
    let alloc = rt.alloc();
    let mut record = bytes;
    for end in ends(version) {
        if end <= place {
            record = bytes.get(end..).ok_or("a record")?;
        }
    }
    let wanted = again!(Fault::Memory => read(alloc, version, record));
    let answer = again!(Fault::Memory => decoded(alloc, version, record));
    assert_eq!(rt; answer, wanted, "{version:?} {place}");
    is_streamed(rt, version, bytes, place)
}

/// Catches a wrong fault, a damaged byte that goes unseen, a record that is lost before the fault, or one that is given
/// after it.
#[test]
fn a_byte_at_each_place_is_another(rt: HostRuntime) -> Result<(), Fail> {
    for version in FORMS {
        let mut bytes = joined(rt.alloc(), version)?;
        for place in 0..bytes.len() {
            let byte = bytes[place];
            for value in [0, 0xff, byte.wrapping_add(1)] {
                bytes[place] = value;
                is_read_alike(&rt, version, &bytes, place)?;
            }
            bytes[place] = byte;
        }
    }
    Ok(())
}
