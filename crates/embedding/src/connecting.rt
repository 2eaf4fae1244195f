//! Opens the replica, and carries the log to it.

ghost use Rattle.std.specs.Prelude.{◌≡◌, None};
ghost use Rattle.replica_shared.specs.Names.{OpensReplica};

use crate::trouble::Trouble;
use btree_store::BTreeStore;
use commit_order_tracker::CommitOrder;
use log_device::MemoryDevice;
use published::{LeftRight, open};
use record_codec::CodecFault;
use relay::ReplicaFault;
use replica_core::{ReplicaCore, Wire, WireFault};
use replica_shared::{ReplicaNaming, SharedReplica};
use source_shared::{SharedSource, SourceNaming};
use std::alloc::Global;
use std::sync::Wait;
use std::thread::sleep;
use std::time::{Clock, Duration};
use uuid::Uuid;

/// How many times a call is made again if memory runs out, a millisecond later each time.
pub const TRIES: usize = 100;

/// The source, with its log in memory.
pub type Source<J> = SharedSource<BTreeStore, CommitOrder, MemoryDevice, J>;

/// The replica.
pub type Replica<K> = SharedReplica<BTreeStore, K>;

/// The replica for many threads, with one seat for a reader.
pub fn new_replica<K: ReplicaNaming>(
    rt: &impl Wait,
    alloc: Global,
    core: ReplicaCore<BTreeStore>,
    publication: published::Beginning,
) -> Result<Replica<K>, Trouble>
    requires { OpensReplica K.names K.preserve K.book K.known core publication }
{
    let (first, second) = (BTreeStore::new(alloc), BTreeStore::new(alloc));
    let preserve = core.preserve();
    let (publisher, seats) = open::<BTreeStore, K, _, LeftRight>(
        rt,
        alloc,
        publication,
        preserve,
        first,
        second,
        1,
    )?;
    Ok(SharedReplica::new(rt, alloc, core, publisher, seats)?)
}

/// Sends, as bytes, everything that is synced and that the replica does not have. This ends because the source is
/// closed.
pub fn send<J: SourceNaming, K: ReplicaNaming>(
    rt: &(impl Wait + Clock),
    alloc: Global,
    from: Uuid,
    source: &Source<J>,
    replica: &Replica<K>,
) -> Result<(), Trouble>
    requires { K.names.log ≡ None }
{
    let mut wire = Wire::new(alloc, from);
    let mut sent = replica.status(rt).received;
    let mut bytes = Vec::with_capacity(alloc, 4096)?;
    for _ in rt.forever() {
        bytes.clear();
        let count = source.bytes_past(rt, sent, &mut bytes)?;
        if count == 0 {
            break;
        }
        feed(rt, replica, &mut wire, &bytes)?;
        sent = sent.saturating_add(count);
    }
    Ok(())
}

/// Hands the bytes over. If memory runs out, it calls again: with the same bytes if none of them was taken, otherwise
/// with none, for the records that wait.
fn feed<K: ReplicaNaming>(
    rt: &(impl Wait + Clock),
    replica: &Replica<K>,
    wire: &mut Wire,
    bytes: &[u8],
) -> Result<(), WireFault>
    requires { K.names.log ≡ None }
{
    let mut piece = bytes;
    for _ in 0..TRIES {
        match replica.feed(rt, wire, piece) {
            Ok(_) => return Ok(()),
            Err(WireFault::Codec(CodecFault::Memory)) => {}
            Err(WireFault::Waiting(ReplicaFault::Memory)) => {}
            Err(WireFault::Replica(ReplicaFault::Memory)) => piece = &[],
            Err(fault) => return Err(fault),
        }
        pause(rt);
    }
    replica.feed(rt, wire, piece)?;
    Ok(())
}

/// Waits for a millisecond, in which memory may become free.
pub fn pause(rt: &impl Clock) {
    sleep(rt, Duration::from_millis(1));
}
