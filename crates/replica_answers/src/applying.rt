//! The threads that follow the wire and execute its records.

ghost use Rattle.std.specs.Prelude.{◌≡◌};
ghost use Rattle.replica_answers.specs.Followed.{log_in};

use crate::following::{WireEnd, follow, pause};
use crate::reading::Asked;
use crate::replicating::Replica;
use log_tools::{Ending, Stop};
use relay::ReplicaFault;
use replica_core::WireFault;
use replica_shared::{NoGate, ReplicaNaming};
use std::alloc::Global;
use std::io::{Read, Write};
use std::marker::PhantomData;
use std::sync::Wait;
use std::thread::{Threads, join, map_indices};
use std::time::Clock;

/// The same input, under the name of the replica that takes its records. If the bytes are known, the log under that
/// name has these records.
#[derive(Drop)]
pub(crate) struct Coming<K: ReplicaNaming, F: Read> {
    pub(crate) input: F,
    pub(crate) of: PhantomData<K>,
    ghost log_is: { K.names.log ≡ log_in (F.remaining input) },
}

/// Applies what comes over the wire, up to its end.
pub(crate) fn apply_once<
    K: ReplicaNaming + Send + Sync,
    H: Threads + Wait + Clock + Sync,
    E: Write + Send,
    F: Read + Send + Drop,
>(
    rt: &H,
    alloc: Global,
    asked: &Asked<K, E>,
    path: &str,
    workers: usize,
    coming: &mut Option<Coming<K, F>>,
) -> Ending {
    match coming.take() {
        Some(coming) => apply(rt, alloc, asked, path, workers, coming),
        None => Ending::Done,
    }
}

/// Follows the wire while workers execute what comes. It returns how the workers ended or, if they ended well, how the
/// wire did.
fn apply<
    K: ReplicaNaming + Send + Sync,
    H: Threads + Wait + Clock + Sync,
    E: Write + Send,
    F: Read + Send + Drop,
>(
    rt: &H,
    alloc: Global,
    asked: &Asked<K, E>,
    path: &str,
    workers: usize,
    coming: Coming<K, F>,
) -> Ending {
    let (worked, followed) = join(
        rt,
        || work_all(rt, alloc, asked, path, workers),
        || follow_wire(rt, alloc, asked, path, coming),
    );
    if worked == Ending::Done {
        followed
    } else {
        worked
    }
}

/// Runs each worker in a separate thread, and reports why the replica stopped, if it did.
fn work_all<K: ReplicaNaming + Send + Sync, H: Threads + Wait + Clock + Sync, E: Write + Send>(
    rt: &H,
    alloc: Global,
    asked: &Asked<K, E>,
    path: &str,
    workers: usize,
) -> Ending {
    for _ in rt.forever() {
        match map_indices(rt, alloc, workers, &|_place| work(rt, alloc, asked.replica)) {
            Ok(each) => return told(rt, asked, path, &each),
            Err(_) => pause(rt),
        }
    }
    unreachable!()
}

/// A worker: executes what comes until all is committed. If it runs out of memory, it is called again.
fn work<K: ReplicaNaming>(
    rt: &(impl Wait + Clock),
    alloc: Global,
    replica: &Replica<K>,
) -> Result<(), ReplicaFault> {
    for _ in rt.forever() {
        match replica.worker(rt, alloc, &NoGate) {
            Err(ReplicaFault::Memory) => pause(rt),
            ended => return ended,
        }
    }
    unreachable!()
}

/// Reports why workers ended, unless all was done. All end for one cause.
fn told<K: ReplicaNaming, H: Wait, E: Write>(
    rt: &H,
    asked: &Asked<K, E>,
    path: &str,
    each: &[Result<(), ReplicaFault>],
) -> Ending {
    for worked in each {
        if let Err(fault) = worked {
            return Stop::Record(*fault)
                .at(path)
                .tell(&mut *asked.errors.lock(rt));
        }
    }
    Ending::Done
}

/// Follows the wire, closes the replica, and reports how the wire ended. The workers end too, once all that came is
/// committed.
fn follow_wire<K: ReplicaNaming, H: Wait + Clock, E: Write, F: Read + Drop>(
    rt: &H,
    alloc: Global,
    asked: &Asked<K, E>,
    path: &str,
    coming: Coming<K, F>,
) -> Ending {
    let Coming { mut input, of: _ } = coming;
    let end = follow(rt, alloc, asked.source, asked.replica, &mut input);
    asked.replica.close(rt);
    let received = asked.replica.status(rt).received;
    let ending = tell_end(&mut *asked.errors.lock(rt), path, end, received);
    let _ = asked.closed.set(rt, ());
    ending
}

/// Reports how the wire ended, and after how many records. If the replica stopped, its workers report that.
fn tell_end<E: Write>(errors: &mut E, path: &str, end: WireEnd, received: u64) -> Ending {
    let (told, ending) = match end {
        WireEnd::Closed => (
            writeln!(errors, "wire closed behind {received}"),
            Ending::Done,
        ),
        WireEnd::Cut => (
            writeln!(errors, "wire closed within a record behind {received}"),
            Ending::Done,
        ),
        WireEnd::Failed(error) => (
            writeln!(errors, "{path}: {error} behind {received}"),
            Ending::Failed,
        ),
        WireEnd::Refused(
            WireFault::Replica(ReplicaFault::Stopped { .. })
            | WireFault::Waiting(ReplicaFault::Stopped { .. }),
        ) => (Ok(()), Ending::Done),
        WireEnd::Refused(fault) => (
            writeln!(errors, "{path}: {fault} behind {received}"),
            Ending::Refused,
        ),
    };
    match told {
        Ok(()) => ending,
        Err(_) => Ending::Stream,
    }
}
