//! A record with all the changes, refs and marks that one may have. Each change moves a child row from one parent to
//! another, and gives it another value.

use crate::tests::makers::{RELATED, Replica, family, greatest, replica_over, rows_of_greatest};
use crate::tests::steps::passes;
use btree_store::BTreeStore;
use record_codec::{Marks, Record, Refs, Version, decode};
use schema::Memory;
use std::alloc::Global;
use std::test::Fail;
use store_trait::RowStore;
use tests_log::common::marks_of;

/// The bytes of a record with 2048 refs, to the rows 0 to 2047, no marks, and one delete.
fn bytes_of_refs(alloc: Global) -> Result<Vec<u8>, Memory> {
    let mut bytes = Vec::new(alloc);
    bytes.extend_from_slice(&20_522u32.to_be_bytes())?;
    bytes.extend_from_slice(&[0; 25])?;
    bytes.extend_from_slice(&2048u16.to_be_bytes())?;
    for key in 0i64..2048 {
        bytes.extend_from_slice(&[0, 1])?;
        bytes.extend_from_slice(&key.to_be_bytes())?;
    }
    bytes.extend_from_slice(&[0, 0, 0, 1, 3, 0, 1, 0, 0, 0, 0, 0, 0, 0, 0])?;
    Ok(bytes)
}

/// All the refs that a record may have.
fn all_refs(alloc: Global) -> Result<Refs, Memory> {
    let (read, _) = decode(alloc, Version::Two, &bytes_of_refs(alloc)?).map_err(|_| Memory)?;
    read.refs.copy()
}

/// The marks of the values 0 to 2047 in the child table.
fn all_marks(alloc: Global) -> Result<Marks, Memory> {
    let mut marks = Vec::new(alloc);
    for value in 0i64..2048 {
        marks.push((2, value))?;
    }
    marks_of(alloc, &marks)
}

/// Record 1, which moves 1024 child rows, refers to the 1024 parents that they had and to the 1024 that they get, and
/// has 2048 marks.
fn moves(alloc: Global) -> Result<Record, Memory> {
    let plain = greatest(alloc, 1024)?;
    let (refs, marks) = (all_refs(alloc)?, all_marks(alloc)?);
    Ok(Record {
        flags: RELATED,
        refs,
        marks,
        ..plain
    })
}

/// A replica with the rows that this record moves.
fn replica_of_moves(alloc: Global) -> Result<Box<Replica>, Memory> {
    let mut store = BTreeStore::new(alloc);
    store.put_all(&rows_of_greatest(alloc, None)?)?;
    replica_over(alloc, family(alloc)?, store, 1)
}

/// Whether the waiting commit leaves the 1024 rows.
fn leaves_all(replica: &Replica) -> bool {
    match replica.pending().first() {
        Some(op) => op.batch().entries().len() == 1024,
        None => false,
    }
}

/// Catches a false out of memory at 2048 refs and marks or at a job of 3072 rows, in the relay, the dispatch, the
/// execution or the commit.
#[test]
fn the_greatest_moves_are_committed(rt: HostRuntime) -> Result<(), Fail> {
    let new = moves(rt.alloc())?;
    assert_eq!(rt;
        (new.refs.list().len(), new.marks.list().len()),
        (2048, 2048)
    );
    let mut replica = replica_of_moves(rt.alloc())?;
    passes(&rt, &mut replica, &new)?;
    assert!(rt; leaves_all(&replica));
    Ok(())
}
