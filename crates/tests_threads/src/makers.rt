//! What the tests begin with: a schema, changes of its table, new cores over no rows, and commits that set one row.
ghost use Rattle.std.specs.Prelude.{◌≡◌, IfOk};
ghost use Rattle.published.specs.History.{IsCommit};
ghost use Rattle.replica_shared.specs.Names.{replica_names, IsNewReplica};
ghost use Rattle.source_core.specs.Source.{new_source};

use crate::stores::Store;
use btree_store::BTreeStore;
use commit_order_tracker::CommitOrder;
use published::{Answer, Counts};
use replica_core::ReplicaCore;
use rows::{Change, Row};
use schema::{Memory, RowId, Schema, Table};
use source_core::SourceCore;
use std::alloc::Global;
use store_trait::{Batch, Op, fits};
use tests_stores::common::{row, update};
use uuid::Uuid;

/// The identifier of the log's source.
pub const SOURCE: u128 = 0x8c5f8f9a_1111_11ef_9d3a_0242ac120002;

/// The row that is set.
pub const ONE: RowId = RowId { table: 1, key: 10 };

/// Table 1, of 2 columns.
pub fn schema(alloc: Global) -> Result<Schema, Memory> {
    let tables = vec![in alloc; Table::new(1, 2, true)]?;
    Schema::new(tables).map_err(|_| Memory)
}

/// A source without rows, for 1024 records.
pub fn source(alloc: Global) -> Result<SourceCore<BTreeStore, CommitOrder>, Memory>
    ensures { IfOk result (λ core. core ≡ new_source core.tables core.base core.limit core.kind) }
{
    let schema = schema(alloc)?;
    let store = BTreeStore::new(alloc);
    if !fits(&schema, &store) {
        return Err(Memory);
    }
    let core = SourceCore::new(alloc, schema, store, CommitOrder, 1024)?;
    Ok(core)
}

/// A replica without rows, with three workers, which keeps the order of the log or does not.
pub fn replica(alloc: Global, store: Store, preserve: bool) -> Result<ReplicaCore<Store>, Memory>
    ensures { IfOk result (λ core. IsNewReplica (replica_names core) core.preserve core) }
{
    let schema = schema(alloc)?;
    if !fits(&schema, &store) {
        return Err(Memory);
    }
    let core = ReplicaCore::new(alloc, schema, Uuid::from_u128(SOURCE), store, 3, preserve)?;
    Ok(core)
}

/// An insert into table 1.
pub fn insert(key: i64, columns: [i64; 2]) -> Result<Change, Memory> {
    tests_stores::common::insert(row(1, key), &columns)
}

/// An update of column 0.
pub fn set(key: i64, value: i64) -> Result<Change, Memory> {
    update(row(1, key), 0, value)
}

/// The batch that sets the row `ONE` to this number.
pub fn set_to(alloc: Global, n: i64) -> Result<Batch, Memory> {
    let row = Row::new(&[n]).ok_or(Memory)?;
    Ok(Batch::from_rising(vec![in alloc; (ONE, Some(row))]?))
}

/// The commit that sets the row `ONE` to its own number.
pub fn commit(alloc: Global, gno: u64) -> Result<Op, Memory>
    ensures { IfOk result (λ op. IsCommit op gno) }
{
    Ok(Op::Commit {
        gno,
        batch: set_to(alloc, gno.cast_signed())?,
    })
}

/// What a reader gets once all commits up to `upto` and `more` later ones are published: a row of these columns, or no
/// row if there are none.
pub fn answer(columns: &[i64], upto: u64, more: u64) -> Answer {
    Answer {
        row: Row::new(columns),
        upto,
        more,
    }
}

/// How many records are received, committed and published.
pub fn counts(received: u64, committed: u64, published: u64) -> Counts {
    Counts {
        received,
        committed,
        published,
    }
}
