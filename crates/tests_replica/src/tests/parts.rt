//! The parts that a replica is taken apart into, and another replica over its rows.

use crate::tests::makers::{Replica, id, insert_of, replica_of, row};
use crate::tests::steps::{accepts, passes, stored};
use btree_store::BTreeStore;
use record_codec::Record;
use replica_core::ReplicaCore;
use schema::Memory;
use std::alloc::Global;
use std::process::Abort;
use std::test::Fail;
use store_trait::{Batch, RowStore, are_of_tables};
use tests_log::common::source;
use tests_stores::common::boxed;

/// A new replica with row 10.
fn of_one(alloc: Global) -> Result<Box<Replica>, Memory> {
    let rows = vec![in alloc; (id(10), row(1, 2))]?;
    let mut store = BTreeStore::new(alloc);
    store.put_all(&Batch::from_entries(rows).ok_or(Memory)?)?;
    replica_of(alloc, store, 1)
}

/// Two records are committed, and one more is accepted.
fn accepts_three(rt: &(impl Abort + AllocGlobal), replica: &mut Replica) -> Result<(), Fail> {
    for gno in [1, 2] {
        passes(rt, replica, &insert_of(rt.alloc(), gno, gno.cast_signed())?)?;
    }
    accepts(rt, replica, &insert_of(rt.alloc(), 3, 3)?);
    Ok(())
}

/// The parts are the batch of the first row, three records, and a store of three rows, without the row that record 3 inserts.
fn are_parts(rt: &impl Abort, base: &Batch, accepted: &[Record], store: &BTreeStore) {
    assert_eq!(rt; base.entries(), &[(id(10), row(1, 2))][..]);
    assert_eq!(rt; accepted.len(), 3);
    assert_eq!(rt; accepted.last().map(|last| last.gno), Some(3));
    assert_eq!(rt; store.len(), 3);
    assert_eq!(rt; (store.get(id(2)), store.get(id(3))), (row(5, 6), None));
}

/// Another replica over the rows of this one.
fn made_again(rt: &(impl Abort + AllocGlobal), replica: Replica) -> Result<Box<Replica>, Memory> {
    assert!(rt; replica.keeps());
    let (schema, base, accepted, store) = replica.into_parts();
    are_parts(rt, &base, &accepted, &store);
    if are_of_tables(&schema, &store) {
        let core = ReplicaCore::new(rt.alloc(), schema, source(), store, 1, true)?;
        Ok(boxed(rt.alloc(), core)?)
    } else {
        Err(Memory)
    }
}

/// It begins with these rows, and takes records from the first on.
fn begins_with_them(rt: &(impl Abort + AllocGlobal), replica: &mut Replica) -> Result<(), Fail> {
    assert_eq!(rt;
        (replica.base().entries().len(), replica.received()),
        (3, 0)
    );
    passes(rt, replica, &insert_of(rt.alloc(), 1, 3)?)?;
    assert_eq!(rt; stored(replica, 3), (row(5, 6), 4));
    Ok(())
}

/// Catches parts that are not those of the replica: records that are lost if they are not committed, or rows that lack
/// what was committed.
#[test]
fn parts_make_another_replica(rt: HostRuntime) -> Result<(), Fail> {
    let mut replica = of_one(rt.alloc())?;
    accepts_three(&rt, &mut replica)?;
    let mut next = made_again(&rt, Box::into_inner(replica))?;
    begins_with_them(&rt, &mut next)
}
