//! What both sides are made of: equal rows, new stores, and the devices of the log.

ghost use Rattle.std.specs.Prelude.{◌≡◌, ◌≤◌, length, map, IfOk, IfSome, IfNone, IsPermutation};
ghost use Rattle.std.specs.FinMap.{empty};
ghost use Rattle.std.specs.List.{IsDistinct};
ghost use Rattle.std.specs.Map.{keys_of};
ghost use Rattle.schema.specs.RowId.{same_row};
ghost use Rattle.mtr.specs.Pair.{present};

use crate::options::Store;
use log_device::{Device, FaultyDevice, MemoryDevice};
use rows::Row;
use schema::{Memory, RowId};
use std::alloc::{AllocError, Global};
use std::collections::VecDeque;
use store_trait::{Batch, RowStore};
use tracker_trait::Tracker;
use world::PairParts;

/// The identifier of the program's source, 6d747200-0000-4000-8000-000000000001.
pub const SOURCE: [u8; 16] = [
    0x6d, 0x74, 0x72, 0, 0, 0, 0x40, 0, 0x80, 0, 0, 0, 0, 0, 0, 1,
];

/// The greatest number of records of a log.
pub const MAX_RECORDS: u64 = 9223372036854775807;

/// How many files may follow the log's first one.
const SPARE: usize = 15;

/// The devices of the log's files.
#[derive(Drop)]
pub struct Devices<D: Device> {
    /// The device of the first file.
    pub first: D,
    /// The devices of the next files, in order.
    pub spare: VecDeque<D>,
}

/// Devices in memory. On the first one the call of this number fails, or none if it is 0. The others do not fail.
pub fn devices_in_memory(
    alloc: Global,
    fail: u64,
) -> Result<Devices<FaultyDevice<MemoryDevice>>, Memory>
    ensures { IfOk result (λ devices. length devices.spare.items ≡ 15) }
{
    let mut spare = VecDeque::with_capacity(alloc, SPARE)?;
    for _ in 0..SPARE {
        spare.push_back(FaultyDevice::new(MemoryDevice::new(alloc), 0))?;
    }
    Ok(Devices {
        first: FaultyDevice::new(MemoryDevice::new(alloc), fail),
        spare,
    })
}

/// These rows, which may come in any order, as a batch; `None` exactly if a row comes twice. The time is n log n for n
/// rows.
pub fn base_of(alloc: Global, rows: &[(RowId, Row)]) -> Result<Option<Batch>, Memory>
    ensures rows { IfOk result (λ made. IfSome made (λ batch. IsPermutation (map present rows.now) batch)) }
    ensures once { IfOk result (λ made. IfSome made (λ _. IsDistinct same_row (keys_of (map present rows.now)))) }
    ensures twice { IfOk result (λ made. IfNone made (¬ IsDistinct same_row (keys_of (map present rows.now)))) }
{
    let mut entries = entries_of(alloc, rows)?;
    entries.sort_unstable_by_key(|entry| entry.0);
    Ok(Batch::from_entries(entries))
}

fn entries_of(alloc: Global, rows: &[(RowId, Row)]) -> Result<Vec<(RowId, Option<Row>)>, AllocError>
    ensures { IfOk result (λ entries. entries.items ≡ map present rows.now) }
{
    rows.iter().map(|row| (row.0, Some(row.1))).collect(alloc)
}

/// A kind of store that can be made as often as both sides need.
pub trait NewStore: RowStore + Drop + Send + Sync {
    /// A store of this kind, without rows. It takes no memory.
    fn without_rows(alloc: Global, store: Store) -> Self
        ensures { Self.contents result ≡ empty };
}

/// The parts of a pair without rows: stores of this kind, this tracker for the parents of records, and this device for
/// the log. It takes no memory.
pub fn parts_over<S: NewStore, T: Tracker, D: Device>(
    alloc: Global,
    store: Store,
    tracker: T,
    device: D,
) -> PairParts<S, T, D>
    ensures rows { S.contents result.rows ≡ empty }
    ensures copy { S.contents result.copy ≡ empty }
    ensures tracker { result.tracker ≡ tracker }
    ensures device { result.device ≡ device }
{
    PairParts {
        rows: S::without_rows(alloc, store),
        copy: S::without_rows(alloc, store),
        tracker,
        device,
    }
}
