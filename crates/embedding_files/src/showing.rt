//! Shows at a replica what the log's files hold.

use crate::opening::{Opened, open_or_make, schema};
use crate::trouble::Trouble;
use btree_store::BTreeStore;
use executor::{Job, execute};
use record_codec::Record;
use relay::ReplicaFault;
use replica_core::ReplicaCore;
use std::alloc::Global;
use std::fs::File;
use std::io::Write;
use std::random::RandomSource;
use std::rt::Files;
use store_trait::fits;
use uuid::Uuid;
use world::begins;

/// Opens the log's files, hands what they hold to a replica, and shows what came of it.
pub fn show<R: Files<File = File> + RandomSource, W: Write>(
    rt: &R,
    alloc: Global,
    prefix: &str,
    out: &mut W,
) -> Result<(), Trouble> {
    let opened = open_or_make(rt, alloc, prefix)?;
    let shown = show_log(alloc, &opened, out);
    drop(opened);
    shown
}

/// Shows what a log holds, and what a replica makes of it.
fn show_log<W: Write>(alloc: Global, opened: &Opened, out: &mut W) -> Result<(), Trouble> {
    let (records, files) = (opened.log.count(), opened.log.firsts().len());
    writeln!(out, "{records} records in {files} files")?;
    let mut replica = new_replica(alloc, opened.log.source())?;
    let shown = show_replica(alloc, opened, &mut replica, out);
    drop(replica);
    shown
}

/// Hands a log to a replica, and shows how far the replica is then.
fn show_replica<W: Write>(
    alloc: Global,
    opened: &Opened,
    replica: &mut ReplicaCore<BTreeStore>,
    out: &mut W,
) -> Result<(), Trouble> {
    feed(
        alloc,
        opened.log.source(),
        &opened.log.records(alloc)?,
        replica,
    )?;
    let is_beginning = begins(&opened.core, replica) == Some(true);
    writeln!(out, "{} commits at the replica", replica.committed())?;
    writeln!(out, "a beginning of the source's log: {is_beginning}")?;
    Ok(out.flush()?)
}

/// A replica of this source, without rows, with one worker, which commits in the order of the log.
fn new_replica(alloc: Global, source: Uuid) -> Result<ReplicaCore<BTreeStore>, Trouble> {
    let (schema, rows) = (schema(alloc)?, BTreeStore::new(alloc));
    if !fits(&schema, &rows) {
        return Err(Trouble::Misfit);
    }
    Ok(ReplicaCore::new(alloc, schema, source, rows, 1, true)?)
}

/// Hands the records of a source to a replica. Each is committed there before the next one comes.
fn feed(
    alloc: Global,
    source: Uuid,
    records: &[Record],
    replica: &mut ReplicaCore<BTreeStore>,
) -> Result<(), ReplicaFault> {
    for record in records {
        replica.receive(source, record)?;
        if let Some(job) = replica.dispatch()? {
            finish(alloc, replica, job)?;
        }
        replica.commit_next()?;
    }
    Ok(())
}

fn finish(
    alloc: Global,
    replica: &mut ReplicaCore<BTreeStore>,
    job: Job,
) -> Result<(), ReplicaFault> {
    match replica.finish(execute(alloc, job)) {
        Ok(()) => Ok(()),
        Err((fault, _)) => Err(fault),
    }
}
