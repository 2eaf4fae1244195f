//! Opens the replica, and carries the log to it and executes it while sessions commit.

ghost use Rattle.std.specs.Prelude.{◌≡◌, None};
ghost use Rattle.replica_shared.specs.Names.{OpensReplica};

use crate::trouble::Trouble;
use btree_store::BTreeStore;
use commit_order_tracker::CommitOrder;
use log_device::MemoryDevice;
use published::{LeftRight, open};
use record_codec::CodecFault;
use relay::ReplicaFault;
use replica_core::{ReplicaCore, Wire, WireFault};
use replica_shared::{NoGate, ReplicaNaming, SharedReplica};
use source_core::SourceFault;
use source_shared::{SharedSource, SourceNaming};
use std::alloc::Global;
use std::sync::Wait;
use std::thread::sleep;
use std::time::{Clock, Duration};
use uuid::Uuid;

/// How many seats the readers share.
pub const SEATS: usize = 2;

/// The source, with its log in memory.
pub type Source<J> = SharedSource<BTreeStore, CommitOrder, MemoryDevice, J>;

/// The replica.
pub type Replica<K> = SharedReplica<BTreeStore, K>;

/// The replica for many threads.
pub fn new_replica<K: ReplicaNaming>(
    rt: &impl Wait,
    alloc: Global,
    core: ReplicaCore<BTreeStore>,
    publication: published::Beginning,
) -> Result<Replica<K>, Trouble>
    requires { OpensReplica K.names K.preserve K.book K.known core publication }
{
    let (first, second) = (BTreeStore::new(alloc), BTreeStore::new(alloc));
    let preserve = core.preserve();
    let (publisher, seats) = open::<BTreeStore, K, _, LeftRight>(
        rt,
        alloc,
        publication,
        preserve,
        first,
        second,
        SEATS,
    )?;
    Ok(SharedReplica::new(rt, alloc, core, publisher, seats)?)
}

/// The wire: sends what is synced, at once, until the source is closed and everything is sent. Then it closes the
/// replica, since no more comes. It never gives up if memory runs out, since readers wait for what it sends: it tries
/// again each millisecond.
pub fn carry<J: SourceNaming, K: ReplicaNaming>(
    rt: &(impl Wait + Clock),
    alloc: Global,
    from: Uuid,
    source: &Source<J>,
    replica: &Replica<K>,
) -> Result<(), Trouble>
    requires { K.names.log ≡ None }
{
    let sent = send(rt, alloc, from, source, replica);
    replica.close(rt);
    sent
}

/// The vector begins without room. The source asks for memory only if the next record does not fit, so few records are
/// sent at a time.
fn send<J: SourceNaming, K: ReplicaNaming>(
    rt: &(impl Wait + Clock),
    alloc: Global,
    from: Uuid,
    source: &Source<J>,
    replica: &Replica<K>,
) -> Result<(), Trouble>
    requires { K.names.log ≡ None }
{
    let mut wire = Wire::new(alloc, from);
    let mut sent = replica.status(rt).received;
    let mut bytes = Vec::new(alloc);
    for _ in rt.forever() {
        bytes.clear();
        match source.bytes_past(rt, sent, &mut bytes) {
            Ok(0) => return Ok(()),
            Ok(count) => {
                feed(rt, replica, &mut wire, &bytes)?;
                sent = sent.saturating_add(count);
            }
            Err(SourceFault::Memory) => pause(rt),
            Err(fault) => return Err(fault.into()),
        }
    }
    unreachable!()
}

/// Hands the bytes over. If memory runs out, it calls again: with the same bytes if none of them was taken, otherwise
/// with none, for the records that wait.
fn feed<K: ReplicaNaming>(
    rt: &(impl Wait + Clock),
    replica: &Replica<K>,
    wire: &mut Wire,
    bytes: &[u8],
) -> Result<(), WireFault>
    requires { K.names.log ≡ None }
{
    let mut piece = bytes;
    for _ in rt.forever() {
        match replica.feed(rt, wire, piece) {
            Ok(_) => return Ok(()),
            Err(WireFault::Codec(CodecFault::Memory)) => {}
            Err(WireFault::Waiting(ReplicaFault::Memory)) => {}
            Err(WireFault::Replica(ReplicaFault::Memory)) => piece = &[],
            Err(fault) => return Err(fault),
        }
        pause(rt);
    }
    unreachable!()
}

/// A worker: executes what comes, until the replica is closed and everything is committed. If memory runs out, it is
/// called again, each millisecond, since readers wait for what it left.
pub fn work<K: ReplicaNaming>(
    rt: &(impl Wait + Clock),
    alloc: Global,
    replica: &Replica<K>,
) -> Result<(), ReplicaFault> {
    for _ in rt.forever() {
        match replica.worker(rt, alloc, &NoGate) {
            Err(ReplicaFault::Memory) => pause(rt),
            ended => return ended,
        }
    }
    unreachable!()
}

/// Waits for a millisecond, in which memory may become free or a session may release a row.
pub fn pause(rt: &impl Clock) {
    sleep(rt, Duration::from_millis(1));
}
