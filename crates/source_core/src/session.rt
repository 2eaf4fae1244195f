//! The places of the sessions: what a session's calls ask of the transaction there, and how they change it.

ghost use Rattle.std.specs.Prelude.{◌≡◌, ◌≤◌, ◌||◌, [], length, replicate, false, IfOk, IfErr, IsSome, OnOk, OnErr, None};
ghost use Rattle.std.specs.Prelude.{option_and_then};
ghost use Rattle.std.specs.Option.{option_map, option_map_or};
ghost use Rattle.rows.specs.Step.{marks_of as marks_for};
ghost use Rattle.overlay.specs.Pending.{pushed};
ghost use Rattle.row_locks.specs.Locks.{taken_all, any_clashes_all, NoClash};
ghost use Rattle.source_core.specs.Core.{open_view, ready, with_change, with_phase, prepared_order};
ghost use Rattle.source_core.specs.Steps.{locks_of as locks_for};
ghost use Rattle.source_core.specs.Calls.{is_active as active, is_prepared};

use crate::rooms::Rooms;
use crate::stepping::{locks_of, marks_of};
use crate::transaction::{Phase, Prepared, Transaction};
use overlay::Pending;
use row_locks::{LockTable, MAX_SESSIONS};
use rows::{Change, Step};
use schema::Memory;
use std::alloc::Global;

/// 256 places without a transaction.
pub(crate) fn empty_places(alloc: Global) -> Result<Vec<Option<Transaction>>, Memory>
    ensures { IfOk result (λ places. places.items ≡ replicate 256 None) }
{
    let mut places = Vec::with_capacity(alloc, MAX_SESSIONS as usize)?;
    for _place in 0..MAX_SESSIONS {
        let none: Option<Transaction> = None;
        places.push(none)?;
    }
    Ok(places)
}

/// Whether there is a transaction that takes changes.
pub(crate) fn is_active(place: &Option<Transaction>) -> bool
    ensures { result ≡ active (option_map open_view place.now) }
{
    match place {
        Some(
            Transaction {
                phase: Phase::Active,
                ..
            },
        ) => true,
        _ => false,
    }
}

/// How many changes the transaction has: 0 if there is none.
pub(crate) fn change_count(place: &Option<Transaction>) -> usize
    ensures { result ≡ length (option_map_or (λ t. t.pending.changes) place.now []) }
{
    match place {
        Some(t) => t.pending.len(),
        None => 0,
    }
}

/// Adds a change to the transaction, with what it does to its row. The session then holds the row, the step's kin and its
/// marks. If memory runs out, both stay as they are.
pub(crate) fn write_locked(
    place: &mut Option<Transaction>,
    locks: &mut LockTable,
    session: u16,
    change: &Change,
    step: &Step,
) -> Result<(), Memory>
    requires some { IsSome place.old }
    requires least { 1 ≤ session }
    requires greatest { session ≤ 256 }
    requires free { any_clashes_all locks.old session (locks_for change.now step.now) (marks_for step.now) ≡ false }
    ensures place { OnOk result (place.new ≡ with_change place.old change.now step.now) }
    ensures locks { OnOk result (locks.new ≡ taken_all locks.old session (locks_for change.now step.now) (marks_for step.now)) }
    ensures no_clash { OnOk result (NoClash locks.new.rows) }
    ensures no_mark_clash { OnOk result (NoClash locks.new.marks) }
    ensures same { OnErr result (place.new ≡ place.old) }
    ensures err { OnErr result (locks.new ≡ locks.old) }
{
    match place {
        Some(t) => {
            let (next, done) = pushed_or_not(t.pending.take(), locks, session, change, step);
            t.pending = next;
            done
        }
        None => Ok(()),
    }
}

/// What is pending with the change added, or as it was if memory runs out. Room for the change is taken before the locks.
fn pushed_or_not(
    pending: Pending,
    locks: &mut LockTable,
    session: u16,
    change: &Change,
    step: &Step,
) -> (Pending, Result<(), Memory>)
    requires least { 1 ≤ session }
    requires greatest { session ≤ 256 }
    requires free { any_clashes_all locks.old session (locks_for change.now step.now) (marks_for step.now) ≡ false }
    ensures ok { OnOk result.1 (result.0 ≡ pushed pending change.now step.now) }
    ensures locks { OnOk result.1 (locks.new ≡ taken_all locks.old session (locks_for change.now step.now) (marks_for step.now)) }
    ensures no_clash { OnOk result.1 (NoClash locks.new.rows) }
    ensures no_mark_clash { OnOk result.1 (NoClash locks.new.marks) }
    ensures same { OnErr result.1 (result.0 ≡ pending) }
    ensures err { OnErr result.1 (locks.new ≡ locks.old) }
{
    let (rows, few) = locks_of(change, step);
    let (marks, count) = marks_of(step);
    match pending.reserve(step) {
        Ok(roomy) => match locks.take_free(session, &rows[..few], &marks[..count]) {
            Ok(()) => (roomy.push(*change, step), Ok(())),
            Err(memory) => (roomy.into_pending(), Err(memory)),
        },
        Err((memory, pending)) => (pending, Err(memory)),
    }
}

/// Prepares the transaction, and returns what its session gets. A transaction without changes ends, and its room is kept.
pub(crate) fn prepare_in(
    place: &mut Option<Transaction>,
    rooms: &mut Rooms,
    parent: u64,
) -> Prepared
    ensures place { place.new ≡ (ready place.old parent).0 }
    ensures value { result ≡ (ready place.old parent).1 }
{
    let (next, answer) = ready_from(place.take(), rooms, parent);
    *place = next;
    answer
}

/// The transaction once it is prepared, and what its session gets.
fn ready_from(
    place: Option<Transaction>,
    rooms: &mut Rooms,
    parent: u64,
) -> (Option<Transaction>, Prepared)
    ensures { result ≡ ready place parent }
{
    match place {
        Some(t) if !t.pending.is_empty() => (
            Some(Transaction {
                pending: t.pending,
                phase: Phase::Prepared { parent },
            }),
            Prepared::Parent(parent),
        ),
        ended => {
            rooms.keep(ended);
            (None, Prepared::Empty)
        }
    }
}

/// The order parent of a transaction that is prepared.
pub(crate) fn prepared_parent(place: &Option<Transaction>) -> Option<u64>
    ensures { result ≡ option_and_then prepared_order place.now }
{
    match place {
        Some(
            Transaction {
                phase: Phase::Prepared { parent },
                ..
            },
        ) => Some(*parent),
        _ => None,
    }
}

/// Takes the transaction to another phase.
pub(crate) fn set_phase(place: &mut Option<Transaction>, phase: Phase)
    ensures { place.new ≡ option_map (with_phase phase) place.old }
{
    if let Some(t) = place {
        t.phase = phase;
    }
}

/// Whether there is a transaction that is not queued yet.
pub(crate) fn may_abort(place: &Option<Transaction>) -> bool
    ensures { result ≡ (active (option_map open_view place.now) || is_prepared (option_map open_view place.now)) }
{
    match place {
        Some(
            Transaction {
                phase: Phase::Active | Phase::Prepared { .. },
                ..
            },
        ) => true,
        _ => false,
    }
}
