//! What a history says of the next transaction, and how it takes that one in. Both trackers do this alike.

ghost use Rattle.std.specs.Prelude.{◌≡◌, ◌<◌, ℕ, List};
ghost use Rattle.std.proofs.Common.{reverse};
ghost use Rattle.schema.specs.declared.Table.{Table};
ghost use Rattle.tracker_trait.specs.Law.{IsOfTables, stamped};
ghost use Rattle.writeset_history.specs.History.{IsUpTo};
ghost use Rattle.writeset_trackers.specs.Agreement.{IsHistoryOf};
ghost use Rattle.writeset_trackers.specs.Noted.{last_number, parent_by, empties, noted};

use log_index::{Footprint, Log};
use write_set::WriteSet;
use writeset_history::History;

/// The transaction's parent by its write set and the order parent.
pub(crate) fn parent_by(history: &History, t: &Footprint, w: &WriteSet, order_parent: u64) -> u64
    ensures { result ≡ parent_by history.now t.now w.now order_parent }
{
    if t.flags.fk || t.flags.missing_keys {
        order_parent
    } else {
        order_parent.min(last_number(history, w.digests()))
    }
}

/// The last number that touched one of the digests, at least the history's start.
fn last_number(history: &History, digests: &[u64]) -> u64
    ensures { result ≡ last_number history.now digests.now }
{
    let mut last = history.start();
    for digest in digests {
        last = last.max(history.look(*digest));
    }
    last
}

/// Notes the transaction as the next one after the log, which the history is of.
pub(crate) fn note(history: &mut History, log: &Log, t: &Footprint, w: &WriteSet)
    requires { (ts : List Table) × IsHistoryOf ts (reverse log.now.entries) history.old }
    ensures goes_on { (ts : List Table) (session parent : ℕ) → IsHistoryOf ts (reverse log.now.entries) history.old
        → IsOfTables ts t.now w.now → IsHistoryOf ts (reverse (stamped log.now.entries t.now session parent)) history.new }
    ensures limit { history.new.limit ≡ history.old.limit }
{
    note_at(history, t, w, log.len() as u64 + 1);
}

/// Notes the transaction with this number: its digests are entered, or the history is emptied. Before any is entered,
/// the room for all digests is checked as if each were new.
fn note_at(history: &mut History, t: &Footprint, w: &WriteSet, sequence: u64)
    requires up_to { IsUpTo history.old sequence }
    requires above { history.old.start < sequence }
    ensures { history.new ≡ noted history.old t.now w.now sequence }
{
    if empties(history, t, w) {
        history.empty_at(sequence);
    } else {
        history.enter(w.digests(), sequence);
    }
}

/// Whether the transaction empties the history.
fn empties(history: &History, t: &Footprint, w: &WriteSet) -> bool
    ensures { result ≡ empties history.now t.now w.now }
{
    t.flags.fk || !history.has_room(w.len())
}
