//! A flush, and the stamps in its reply.

ghost use Rattle.std.specs.Prelude.{◌≡◌, ◌≤◌, [], length, map, vec_capacity, IfOk};
ghost use Rattle.world.specs.Legal.{stamp_of};
ghost use Rattle.source_answers.specs.Answers.{Answers};

use durable_source::DurableSource;
use log_device::Device;
use record_codec::Record;
use schema::Memory;
use source_core::SourceFault;
use std::alloc::Global;
use store_trait::RowStore;
use tracker_trait::Tracker;
use world::{Event, Reply, Stamps};

/// Room for the stamps of this many records.
fn room_for_stamps(alloc: Global, count: usize) -> Result<Vec<(u64, u64)>, Memory>
    ensures items { IfOk result (λ list. list.items ≡ []) }
    ensures room { IfOk result (λ list. count ≤ vec_capacity list) }
{
    Ok(Vec::with_capacity(alloc, count)?)
}

/// The stamps of the records, put into an empty list that has room for them.
fn stamps_of(mut list: Vec<(u64, u64)>, records: &[Record]) -> Stamps
    requires empty { list.items ≡ [] }
    requires room { length records.now ≤ vec_capacity list }
    ensures { result ≡ map stamp_of records.now }
{
    for made in records {
        list.push((made.sequence, made.parent)).unwrap();
    }
    Stamps::new(list)
}

/// Takes the room for the stamps before the flush, because what is flushed stays flushed.
pub(crate) fn flush<S: RowStore, T: Tracker, D: Device>(
    alloc: Global,
    source: &mut DurableSource<S, T, D>,
) -> Reply
    ensures { Answers source.old Event.Flush result source.new }
{
    if source.source().is_halted() {
        return Reply::Source(SourceFault::Halted);
    }
    let count = source.source().queued();
    if count == 0 {
        return Reply::Nothing;
    }
    let list = match room_for_stamps(alloc, count) {
        Ok(list) => list,
        Err(memory) => return Reply::Source(memory.into()),
    };
    match source.flush() {
        Ok(Some((first, _))) => Reply::Flushed {
            first,
            stamps: stamps_of(list, source.source().log_past(first - 1)),
        },
        Ok(None) => Reply::Nothing,
        Err(fault) => Reply::Source(fault),
    }
}
