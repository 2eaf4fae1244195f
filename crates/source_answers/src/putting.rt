//! A whole commit in one call.

ghost use Rattle.std.specs.Prelude.{◌≡◌, ◌==◌, ℕ, [], ◌∷◌, OnOk, replicate, reverse, option_copied};
ghost use Rattle.std.specs.List.{find};
ghost use Rattle.std.specs.Result.{result_err};
ghost use Rattle.source_core.specs.declared.transaction.Receipt.{Receipt as AReceipt};
ghost use Rattle.source_answers.specs.Puts.{ended_by, Walks, steps_of, said_by, Puts, ToldIsOnLog};

use crate::answering::{prepare, queue, sync};
use crate::flushing::flush;
use durable_source::DurableSource;
use log_device::Device;
use source_core::{Receipt, SourceFault};
use std::alloc::Global;
use store_trait::RowStore;
use tracker_trait::Tracker;
use world::{Event, Reply};

/// The result of a put.
#[derive(Debug, Drop)]
pub enum PutReply {
    /// The transaction is committed, and its record is on the log, with this number and stamp.
    Receipt {
        gno: u64,
        sequence: u64,
        parent: u64,
    },
    /// The reply that ended it: `Empty` for a transaction without changes, which has ended, or else a refusal.
    Refused(Reply),
}

/// Commits the session's transaction: it prepares it, queues it, flushes what is queued, syncs until no group waits,
/// and commits all that is synced. Then the receipt's record is on the log and synced, and each later life finds it
/// (`durable_source::laws::told_stays`). What other sessions queued is committed with it, without a receipt for them.
///
/// A step that is refused ends it: the steps before stay, and the rest is not done. It is refused with `S12` if the
/// source is halted, with `S1` if there is no such session, and with `S13` or `L4` if memory runs out. It is refused
/// with `S15` if the log has no room for one more record; the transaction then stays prepared. It is refused with `L1`
/// if the device fails. Then the source is halted, and it is not known whether a restart finds the group.
///
/// It begins with the step that the transaction needs next, so it may be called again after a refusal. The `S3` of a
/// prepare says that the transaction is past it, and so does the `S14` of a queue. If a session has no transaction,
/// only the receipts show this. Then it is refused with `S3`, and the steps were made for the others.
///
/// Time and memory are those of the steps; each sync makes two writes and two syncs of the last file's device.
pub fn put<S: RowStore, T: Tracker, D: Device>(
    alloc: Global,
    source: &mut DurableSource<S, T, D>,
    session: u16,
) -> PutReply
    ensures puts { Puts session source.old result source.new }
    ensures on_log { ToldIsOnLog session source.old result source.new }
{
    if let Err(reply) = lead(alloc, source, session) {
        return PutReply::Refused(reply);
    }
    match source.commit() {
        Ok(receipts) => {
            let _log = source.log();
            said(&receipts, session)
        }
        Err(fault) => PutReply::Refused(Reply::Source(fault)),
    }
}

/// The steps before the commit, up to one that ends the put.
fn lead<S: RowStore, T: Tracker, D: Device>(
    alloc: Global,
    source: &mut DurableSource<S, T, D>,
    session: u16,
) -> Result<(), Reply>
    ensures walks { (syncs : ℕ) × Walks (steps_of session syncs) source.old (result_err result) source.new }
    ensures all { OnOk result (source.new.unsynced ≡ []) }
{
    go_on(prepare(source, session))?;
    go_on(queue(source, session))?;
    go_on(flush(alloc, source))?;
    sync_all(source)
}

/// Continues after a reply, or ends with it.
fn go_on(reply: Reply) -> Result<(), Reply>
    ensures { result_err result ≡ ended_by reply }
{
    match &reply {
        Reply::Source(SourceFault::NotActive | SourceFault::NotPrepared) => Ok(()),
        Reply::Empty | Reply::Source(_) | Reply::Log(_) => Err(reply),
        _ => Ok(()),
    }
}

/// Syncs until no group waits.
fn sync_all<S: RowStore, T: Tracker, D: Device>(
    source: &mut DurableSource<S, T, D>,
) -> Result<(), Reply>
    ensures walks { (syncs : ℕ) × Walks (replicate syncs Event.Sync) source.old (result_err result) source.new }
    ensures all { OnOk result (source.new.unsynced ≡ []) }
{
    'groups: loop {
        match sync(source) {
            Reply::Synced { .. } => {}
            Reply::Nothing => return Ok(()),
            reply => return Err(reply),
        }
    }
}

/// The session's result, from the receipts of a commit.
fn said(receipts: &[Receipt], session: u16) -> PutReply
    ensures { result ≡ said_by (find (λ (r : AReceipt). r.session == session) (reverse receipts.now)) }
{
    match last_of(receipts, session) {
        Some(receipt) => PutReply::Receipt {
            gno: receipt.gno,
            sequence: receipt.sequence,
            parent: receipt.parent,
        },
        None => PutReply::Refused(Reply::Source(SourceFault::NotActive)),
    }
}

/// The last receipt of the session.
fn last_of(receipts: &[Receipt], session: u16) -> Option<&Receipt>
    ensures { option_copied result ≡ find (λ (r : AReceipt). r.session == session) (reverse receipts.now) }
{
    receipts
        .iter()
        .rev()
        .find(|receipt| receipt.session == session)
}
