//! Replicas over rows that do not fit their tables.

use crate::tests::makers::{RELATED, Replica, family, id, replica_loaded, row, wide_id};
use crate::tests::steps::{passes, stored};
use record_codec::Record;
use rows::Row;
use schema::Memory;
use std::alloc::Global;
use std::process::Abort;
use std::test::Fail;
use store_trait::{Batch, RowStore};
use tests_log::common::record;
use tests_stores::common::update;

/// A new replica of three rows. The second has too few columns, and the third has no parent.
fn misfits(alloc: Global) -> Result<Box<Replica>, Memory> {
    let rows = vec![in alloc;
        (id(1), row(1, 1)),
        (id(2), Row::new(&[5])),
        (wide_id(1), Row::new(&[9; 16])),
    ]?;
    let base = Batch::from_entries(rows).ok_or(Memory)?;
    replica_loaded(alloc, family(alloc)?, &base, 1)
}

/// The record sets a column of the second row, and the other rows stay.
fn goes_on(rt: &(impl Abort + AllocGlobal), replica: &mut Replica) -> Result<(), Fail> {
    assert_eq!(rt; stored(replica, 2), (Row::new(&[5]), 3));
    let plain = record(rt.alloc(), 1, 0, update(id(2), 0, 7)?)?;
    let flags = RELATED;
    passes(rt, replica, &Record { flags, ..plain })?;
    assert_eq!(rt; stored(replica, 2), (Row::new(&[7]), 3));
    assert_eq!(rt; replica.store().get(wide_id(1)), Row::new(&[9; 16]));
    Ok(())
}

/// Catches a replica that is not made, or does not continue, if a row has other columns than its table, or lacks its parent.
#[test]
fn rows_need_not_fit(rt: HostRuntime) -> Result<(), Fail> {
    let mut replica = misfits(rt.alloc())?;
    goes_on(&rt, &mut replica)
}
