//! One event, one reply.

ghost use Rattle.std.specs.Prelude.{◌≡◌, true, false, slice_get, Some, IfSome, IfNone};
ghost use Rattle.record_codec.specs.Group.{GroupValue};
ghost use Rattle.log_file.specs.Calls.{appended};
ghost use Rattle.log_set.specs.Crash.{SetIsKept, LastMoves};
ghost use Rattle.source_answers.specs.Answers.{Answers, is_of_source};

use crate::flushing::flush;
use crate::replying::{committed, done, prepared, seen, synced};
use durable_source::DurableSource;
use log_device::Device;
use std::alloc::Global;
use store_trait::RowStore;
use tracker_trait::Tracker;
use world::{Event, Reply};

/// The reply to an event of the source, at once. It returns `None`, and does nothing, for the events of the replica,
/// for `Rotate`, which needs a device (`DurableSource::rotate`), and for `Log`.
///
/// It costs what the call of `DurableSource` does. `Flush` also takes room for a stamp of two numbers for each queued
/// transaction, before it flushes. Refusals are those of the call, in its order: `S13` if memory runs out, but `L4` at
/// a sync. A refusal changes nothing, except for `L1` of a sync, which halts the source.
pub fn answer<S: RowStore, T: Tracker, D: Device>(
    alloc: Global,
    source: &mut DurableSource<S, T, D>,
    event: &Event,
) -> Option<Reply>
    ensures answers { IfSome result (λ reply. Answers source.old event.now reply source.new) }
    ensures none { IfNone result ((is_of_source event.now ≡ false) × (source.new ≡ source.old)) }

    // What a crash leaves at any moment of a sync, and after it. No other event calls a device.
    ensures any_moment { (group : GroupValue) → event.now ≡ Event.Sync → source.old.source.halted ≡ false
        → slice_get source.old.unsynced 0 ≡ Some group
        → LastMoves D.seen D.moment D.left_since D.may_leave (appended group source.old.set.log) source.old.set source.new.set }
    ensures kept { event.now ≡ Event.Sync → source.old.source.halted ≡ false → SetIsKept D.seen D.may_leave source.new.set }
{
    match *event {
        Event::Begin { session } => Some(done(source.begin(session))),
        Event::Write { session, change } => Some(done(source.write(session, change))),
        Event::See { session, row } => Some(seen(source.read(session, row))),
        Event::Prepare { session } => Some(prepare(source, session)),
        Event::Queue { session } => Some(queue(source, session)),
        Event::Abort { session } => Some(done(source.abort(session))),
        Event::Flush => Some(flush(alloc, source)),
        Event::Sync => Some(sync(source)),
        Event::Commit => Some(committed(source.commit_all())),
        _ => None,
    }
}

pub(crate) fn prepare<S: RowStore, T: Tracker, D: Device>(
    source: &mut DurableSource<S, T, D>,
    session: u16,
) -> Reply
    ensures { Answers source.old (Event.Prepare session) result source.new }
{
    prepared(source.prepare(session))
}

pub(crate) fn queue<S: RowStore, T: Tracker, D: Device>(
    source: &mut DurableSource<S, T, D>,
    session: u16,
) -> Reply
    ensures { Answers source.old (Event.Queue session) result source.new }
{
    done(source.queue(session))
}

/// Puts the oldest group that waits on the log.
pub(crate) fn sync<S: RowStore, T: Tracker, D: Device>(source: &mut DurableSource<S, T, D>) -> Reply
    ensures answers { Answers source.old Event.Sync result source.new }
    ensures any_moment { (group : GroupValue) → source.old.source.halted ≡ false → slice_get source.old.unsynced 0 ≡ Some group
        → LastMoves D.seen D.moment D.left_since D.may_leave (appended group source.old.set.log) source.old.set source.new.set }
    ensures kept { source.old.source.halted ≡ false → SetIsKept D.seen D.may_leave source.new.set }
{
    synced(source.sync())
}
