//! What a commit does with the synced records: their receipts, one batch of what their transactions leave, and the
//! end of these transactions.

ghost use Rattle.std.specs.Prelude.{◌≡◌, ◌≤◌, ◌-◌, [], length, IfOk, OnOk, IsSome, None};
ghost use Rattle.std.specs.List.{AllByRecursion};
ghost use Rattle.std.specs.FinMap.{find};
ghost use Rattle.schema.specs.declared.RowId.{RowId};
ghost use Rattle.schema.specs.RowId.{row_cmp};
ghost use Rattle.overlay.specs.Pending.{left_at};
ghost use Rattle.overlay.specs.Joining.{joined, joined_all};
ghost use Rattle.row_locks.specs.Locks.{NoClash};
ghost use Rattle.source_core.specs.Calls.{receipt_as, receipts_for};
ghost use Rattle.source_core.specs.Core.{placed, pending_in};
ghost use Rattle.commit_stages.specs.Queues.{IsSession};
ghost use Rattle.source_core.specs.Commit.{cleared, all_released, pendings_of, AreApart};

use crate::rooms::Rooms;
use crate::transaction::{Receipt, Transaction};
use overlay::Joined;
use record_codec::Record;
use row_locks::LockTable;
use schema::Memory;
use std::alloc::Global;
use store_trait::Batch;

/// A receipt for each record, given the sessions of the same records. Room for the list is taken once.
pub(crate) fn receipts_of(
    alloc: Global,
    sessions: &[u16],
    records: &[Record],
) -> Result<Vec<Receipt>, Memory>
    requires { length sessions.now ≡ length records.now }
    ensures { IfOk result (λ given. given.items ≡ receipts_for sessions.now records.now) }
{
    let mut given = Vec::with_capacity(alloc, records.len())?;
    for (i, record) in records.iter().enumerate() {
        given.push(receipt_for(sessions[i], record)?)?;
    }
    Ok(given)
}

/// The receipt of a record, for its session.
fn receipt_for(session: u16, made: &Record) -> Result<Receipt, Memory>
    ensures { IfOk result (λ given. given ≡ receipt_as session made.now) }
{
    Ok(Receipt {
        session,
        gno: made.gno,
        sequence: made.sequence,
        parent: made.parent,
        changes: made.changes.copy()?,
    })
}

/// One batch of what the transactions in the places of these sessions leave.
pub(crate) fn join_all(
    alloc: Global,
    sessions: &[u16],
    places: &[Option<Transaction>],
) -> Result<Batch, Memory>
    requires each { AllByRecursion IsSession sessions.now }
    requires places { length places.now ≡ 256 }
    requires there { AllByRecursion (λ session. IsSome (placed places.now (session - 1))) sessions.now }
    requires apart { AreApart places.now sessions.now }
    ensures { IfOk result (λ batch. batch ≡ joined_all [] (pendings_of places.now sessions.now)) }
{
    let mut rows = Joined::new(alloc);
    for session in sessions {
        join_one(&mut rows, &places[*session as usize - 1])?;
    }
    Ok(rows.into_batch())
}

/// Adds what the transaction leaves of its rows. None of these rows is there yet.
fn join_one(rows: &mut Joined, place: &Option<Transaction>) -> Result<(), Memory>
    requires there { IsSome place.now }
    requires apart { (q : RowId) → IsSome (left_at (pending_in place.now) q) → find row_cmp q rows.old ≡ None }
    ensures { OnOk result (rows.new ≡ joined rows.old (pending_in place.now)) }
{
    match place {
        Some(t) => rows.add(&t.pending),
        None => Ok(()),
    }
}

/// Ends the transactions of these sessions, keeps their rooms, and gives up their locks. It takes no memory.
pub(crate) fn end_all(
    sessions: &[u16],
    places: &mut [Option<Transaction>],
    locks: &mut LockTable,
    rooms: &mut Rooms,
)
    requires each { AllByRecursion IsSession sessions.now }
    requires places { length places.old ≡ 256 }
    requires no_clash { NoClash locks.old.rows }
    requires no_mark_clash { NoClash locks.old.marks }
    ensures places { places.new ≡ cleared sessions.now places.old }
    ensures locks { locks.new ≡ all_released sessions.now locks.old }
    ensures no_clash { NoClash locks.new.rows }
    ensures no_mark_clash { NoClash locks.new.marks }
{
    for session in sessions {
        let ended = places[*session as usize - 1].take();
        rooms.keep(ended);
        locks.release_all(*session);
    }
}
