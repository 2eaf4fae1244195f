//! What the tests begin with: tables, changes of their rows, and both sides.

ghost use Rattle.std.specs.Prelude.{◌≡◌, ◌≤◌, ◌<◌, [], List, IfOk, length};
ghost use Rattle.std.specs.FinMap.{empty};
ghost use Rattle.schema.specs.declared.Table.{Table as ATable};
ghost use Rattle.replica_shared.specs.Names.{replica_names, IsNewReplica};
ghost use Rattle.source_core.specs.Source.{new_source};
ghost use Rattle.log_file.specs.Log.{IsNew};
ghost use Rattle.world.specs.Seen.{seen};
ghost use Rattle.world.specs.State.{IsWorld};

use btree_store::BTreeStore;
use commit_order_tracker::CommitOrder;
use log_device::MemoryDevice;
use log_file::LogFault;
use rows::{Change, Named, Row};
use schema::{Memory, RowId, Schema, Table};
use std::alloc::Global;
use std::collections::VecDeque;
use store_trait::{Batch, RowStore};
use tests_stores::common::{five_tables, unique_tables};
use tracker_trait::Tracker;
use uuid::Uuid;
use vector_store::VectorStore;
use world::{Event, Pair, PairParts, World, pair_of};
use writeset_trackers::WriteSetTracker;

/// The identifier of the source.
pub const SOURCE: [u8; 16] = [1; 16];

/// The number of devices for the next files of a log.
const SPARE: usize = 15;

/// Both sides in memory.
pub type InMemory = Pair<BTreeStore, CommitOrder, MemoryDevice>;

/// Both sides in memory, as one world.
pub type InOne<S, T> = World<S, T, MemoryDevice, S>;

/// A row of table 1.
pub fn row(key: i64) -> RowId {
    RowId { table: 1, key }
}

/// The columns of a row.
pub fn columns(first: i64, second: i64) -> Row {
    Row::new(&[first, second]).unwrap()
}

pub fn insert(key: i64, first: i64, second: i64) -> Change {
    insert_of(row(key), first, second)
}

/// An insert of a row of any table.
pub fn insert_of(row: RowId, first: i64, second: i64) -> Change {
    Change::Insert {
        row,
        values: columns(first, second),
    }
}

/// A change of column 0.
pub fn set(key: i64, value: i64) -> Change {
    set_of(row(key), 0, value)
}

/// A change of one column of a row of any table.
pub fn set_of(row: RowId, column: u8, value: i64) -> Change
    requires { column < 16 }
{
    Change::Update {
        row,
        columns: Named::of(&[(column, value)]).unwrap(),
    }
}

/// The number of records that a log may have.
pub const LIMIT: u64 = 66_000;

/// Table 1, of two columns; table 2, of sixteen; and table 256, of one.
fn schema(alloc: Global) -> Result<Schema, LogFault> {
    let mut tables = Vec::new(alloc);
    for (id, columns) in [(1, 2), (2, 16), (256, 1)] {
        tables.push(Table::new(id, columns, true))?;
    }
    Schema::new(tables).map_err(|_| LogFault::Memory)
}

/// What both sides are made of: ordered maps, parents by commit order, and a log in memory.
fn parts(alloc: Global) -> PairParts<BTreeStore, CommitOrder, MemoryDevice>
    ensures rows { result.rows ≡ empty }
    ensures copy { result.copy ≡ empty }
{
    PairParts {
        rows: BTreeStore::new(alloc),
        copy: BTreeStore::new(alloc),
        tracker: CommitOrder,
        device: MemoryDevice::new(alloc),
    }
}

/// New sides without rows, with two workers and commits in log order.
pub fn sides(alloc: Global) -> Result<InMemory, LogFault>
    ensures source { IfOk result (λ made.
        made.source ≡ new_source made.source.tables made.source.base made.source.limit made.source.kind) }
    ensures log { IfOk result (λ made. IsNew made.log.log) }
    ensures replica { IfOk result (λ made. IsNewReplica (replica_names made.replica) made.replica.preserve made.replica) }
{
    let (schema, base, parts) = (schema(alloc)?, Batch::new(alloc), parts(alloc));
    let identifier = Uuid::from_bytes(SOURCE);
    match pair_of(alloc, schema, identifier, &base, LIMIT, 2, true, parts)? {
        Some(sides) => Ok(sides),
        None => Err(LogFault::OutOfTurn),
    }
}

/// Like `sides`, but as one world.
pub fn world(alloc: Global) -> Result<InOne<BTreeStore, CommitOrder>, LogFault>
    ensures { IfOk result (λ world. IsWorld (λ rows. rows) (seen world)) }
{
    world_in_memory(alloc, true)
}

/// Like `world`, but its replica commits in the order in which jobs finish.
pub fn unordered_world(alloc: Global) -> Result<InOne<BTreeStore, CommitOrder>, LogFault>
    ensures { IfOk result (λ world. IsWorld (λ rows. rows) (seen world)) }
{
    world_in_memory(alloc, false)
}

fn world_in_memory(
    alloc: Global,
    preserve: bool,
) -> Result<InOne<BTreeStore, CommitOrder>, LogFault>
    ensures { IfOk result (λ world. IsWorld (λ rows. rows) (seen world)) }
{
    let (schema, base) = (schema(alloc)?, Batch::new(alloc));
    let (parts, shown) = (parts(alloc), BTreeStore::new(alloc));
    world_of(alloc, schema, base, 2, preserve, parts, shown)
}

/// A parent.
pub const PARENT: RowId = RowId { table: 3, key: 1 };

/// Another parent.
pub const OTHER_PARENT: RowId = RowId { table: 3, key: 2 };

/// A child of `PARENT`.
pub const CHILD: RowId = RowId { table: 4, key: 9 };

/// The parent and its child.
fn kin(alloc: Global) -> Result<Batch, Memory> {
    let rows = [(PARENT, Some(columns(0, 0))), (CHILD, Some(columns(1, 0)))];
    Batch::from_entries(Vec::from_slice(alloc, &rows)?).ok_or(Memory)
}

/// A world of a parent with its child, over tables with kin and one without keys, with one worker.
pub fn world_of_kin(alloc: Global) -> Result<InOne<VectorStore, WriteSetTracker>, LogFault>
    ensures { IfOk result (λ world. IsWorld (λ rows. rows) (seen world)) }
{
    world_by_rows(alloc, five_tables(alloc)?, kin(alloc)?, 1)
}

/// A row with the value 5, two parents, and a child of the first with the value 7.
fn valued(alloc: Global) -> Result<Batch, Memory> {
    let rows = [
        (row(10), Row::new(&[5])),
        (PARENT, Row::new(&[0])),
        (OTHER_PARENT, Row::new(&[0])),
        (CHILD, Row::new(&[1, 7])),
    ];
    Batch::from_entries(Vec::from_slice(alloc, &rows)?).ok_or(Memory)
}

/// A world of these rows, over tables with kin and with unique columns, with two workers.
pub fn world_of_values(alloc: Global) -> Result<InOne<VectorStore, WriteSetTracker>, LogFault>
    ensures { IfOk result (λ world. IsWorld (λ rows. rows) (seen world)) }
{
    world_by_rows(alloc, unique_tables(alloc)?, valued(alloc)?, 2)
}

/// A world over vectors, with parents by the rows that were written.
fn world_by_rows(
    alloc: Global,
    schema: Schema,
    base: Batch,
    workers: usize,
) -> Result<InOne<VectorStore, WriteSetTracker>, LogFault>
    requires some { 1 ≤ workers }
    requires few { workers ≤ 64 }
    ensures { IfOk result (λ world. IsWorld (λ rows. rows) (seen world)) }
{
    let parts = PairParts {
        rows: VectorStore::new(alloc),
        copy: VectorStore::new(alloc),
        tracker: WriteSetTracker::with_limit(alloc, 25_000)?,
        device: MemoryDevice::new(alloc),
    };
    let shown = VectorStore::new(alloc);
    world_of(alloc, schema, base, workers, true, parts, shown)
}

/// Both sides of these parts as one world, whose readers see the rows in a separate store.
fn world_of<S: RowStore + Drop, T: Tracker + Drop>(
    alloc: Global,
    schema: Schema,
    base: Batch,
    workers: usize,
    preserve: bool,
    parts: PairParts<S, T, MemoryDevice>,
    shown: S,
) -> Result<InOne<S, T>, LogFault>
    requires some { 1 ≤ workers }
    requires few { workers ≤ 64 }
    requires rows { S.contents parts.rows ≡ empty }
    requires copy { S.contents parts.copy ≡ empty }
    requires tracker { (ts : List ATable) → T.agrees parts.tracker ts [] }
    requires shown { S.contents shown ≡ empty }
    ensures { IfOk result (λ world. IsWorld S.contents (seen world)) }
{
    let (identifier, spare) = (Uuid::from_bytes(SOURCE), spare(alloc)?);
    match pair_of(
        alloc, schema, identifier, &base, LIMIT, workers, preserve, parts,
    )? {
        Some(sides) => Ok(sides.into_world(alloc, base, shown, spare)?),
        None => Err(LogFault::OutOfTurn),
    }
}

/// The devices for the next files of a log.
fn spare(alloc: Global) -> Result<VecDeque<MemoryDevice>, Memory>
    ensures { IfOk result (λ devices. length devices.items ≡ 15) }
{
    let mut devices = VecDeque::with_capacity(alloc, SPARE)?;
    for _ in 0..SPARE {
        devices.push_back(MemoryDevice::new(alloc))?;
    }
    Ok(devices)
}

/// Another child of the parent.
pub const SIBLING: RowId = RowId { table: 4, key: 8 };

/// A row without a key.
pub const KEYLESS: RowId = RowId { table: 5, key: 1 };

/// The session writes this.
pub fn write(session: u16, change: Change) -> Event {
    Event::Write { session, change }
}

/// The session looks at this row.
pub fn see(session: u16, row: RowId) -> Event {
    Event::See { session, row }
}

pub fn delete(row: RowId) -> Change {
    Change::Delete { row }
}
