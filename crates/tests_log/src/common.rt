//! What test crates make of records: plain ones, marks, their bytes, and the source that they come from.

use record_codec::{Changes, Flags, Marks, Record, Refs, Version, decode, encode};
use rows::Change;
use schema::Memory;
use std::alloc::Global;
use tests_stores::again;
use uuid::Uuid;

/// The identifier of the source.
pub fn source() -> Uuid {
    Uuid::from_u128(0x6d74_7200_0000_4000_8000_0000_0000_0001)
}

/// The record of this number with only this change.
pub fn record(alloc: Global, gno: u64, parent: u64, change: Change) -> Result<Record, Memory> {
    record_of(alloc, gno, parent, vec![in alloc; change]?)
}

/// The record of this number with these changes, and no refs, marks or flags.
pub fn record_of(
    alloc: Global,
    gno: u64,
    parent: u64,
    changes: Vec<Change>,
) -> Result<Record, Memory> {
    let changes = Changes::new(changes).ok_or(Memory)?;
    Ok(Record::new(
        gno,
        parent,
        Flags::none(),
        Refs::none(alloc),
        Marks::none(alloc),
        changes,
    ))
}

/// These marks, each a table and a value, in rising order. They are decoded from a record that has them.
pub fn marks_of(alloc: Global, marks: &[(u16, i64)]) -> Result<Marks, Memory> {
    let mut bytes = Vec::new(alloc);
    let count = u16::try_from(marks.len()).map_err(|_| Memory)?;
    let len = u32::from(count) * 10 + 42;
    bytes.extend_from_slice(&len.to_be_bytes())?;
    bytes.extend_from_slice(&[0; 27])?;
    bytes.extend_from_slice(&count.to_be_bytes())?;
    for (table, value) in marks {
        bytes.extend_from_slice(&table.to_be_bytes())?;
        bytes.extend_from_slice(&value.to_be_bytes())?;
    }
    bytes.extend_from_slice(&[0, 1, 3, 0, 1, 0, 0, 0, 0, 0, 0, 0, 0])?;
    let (read, _) = decode(alloc, Version::Two, &bytes).map_err(|_| Memory)?;
    Ok(read.marks)
}

/// The bytes of the records, one after another, in the form that sources write. If memory runs out for a record, it is
/// written once more.
pub fn spelled(alloc: Global, records: &[Record]) -> Result<Vec<u8>, Memory> {
    let mut bytes = Vec::new(alloc);
    for record in records {
        again!(encode(Version::current(), record, &mut bytes))?;
    }
    Ok(bytes)
}
