//! The lock, and the thread that holds it.
//!
//! A thread that takes the lock has a `Held`, which is not `Drop`. It ends only by `let_go` or `done`, or for a while by
//! one of the waits. Each of these wakes the threads that are due after what was done under the lock. Only this module
//! takes a `Held` apart, and the mutex in it (`Locked`) goes free only when the sleepers that a change concerns are
//! called. So no way out of a function leaves a sleeper uncalled.
ghost use Rattle.std.specs.Prelude.{◌≡◌, ◌≢◌, ◌⊎◌, ◌<◌, true, false, slice_index_or};
ghost use Rattle.std.specs.Sync.Mutex.{mutex_guard_value};
ghost use Rattle.source_shared.specs.Engine.{due_of, is_at_work, is_awaited, IsTold};

use crate::book::SourceNaming;
use crate::calls::Calls;
use crate::engine::{Due, Engine};
use crate::locked::Locked;
use log_device::Device;
use std::sync::{Condvar, Mutex, Wait};
use store_trait::RowStore;
use tracker_trait::Tracker;

/// How often a leader, or a reader that follows the log, looks whether the lock is free before it sleeps: some
/// microseconds in all.
const LOOKS: usize = 1000;

/// The engine under its lock, and what threads sleep on until a change there concerns them.
#[derive(Drop)]
pub(crate) struct Desk<S: RowStore, T: Tracker, D: Device, J: SourceNaming> {
    engine: Mutex<Engine<S, T, D, J>>,
    calls: Calls,
}

/// The lock, held.
pub(crate) struct Held<'a, S: RowStore, T: Tracker, D: Device, J: SourceNaming> {
    locked: Locked<'a, S, T, D, J>,
    desk: &'a Desk<S, T, D, J>,
}

impl<S: RowStore, T: Tracker, D: Device + Drop, J: SourceNaming> Desk<S, T, D, J> {
    pub(crate) fn new(engine: Engine<S, T, D, J>, calls: Calls) -> Desk<S, T, D, J> {
        Desk {
            engine: Mutex::new(engine),
            calls,
        }
    }

    // Takes the lock.
    pub(crate) fn lock(&self, rt: &impl Wait) -> Held<'_, S, T, D, J> {
        Held {
            locked: Locked::take(rt, &self.engine),
            desk: self,
        }
    }

    // Takes the lock for a caller whose sleep would hold up others. It looks whether the lock is free, up to `LOOKS`
    // times, before it sleeps.
    pub(crate) fn lock_soon(&self, rt: &impl Wait) -> Held<'_, S, T, D, J> {
        for _look in 0..LOOKS {
            if let Some(locked) = Locked::take_if_free(&self.engine) {
                return Held { locked, desk: self };
            }
        }
        self.lock(rt)
    }

    // Lets go of the lock, and wakes the threads that must know. (It is not inlined: a call that wakes nobody needs no
    // room for the list.)
    #[inline(never)]
    fn free_and_tell(&self, mut locked: Locked<'_, S, T, D, J>, leads: bool) {
        let news = locked.news(leads);
        locked.free();
        news.ring(&self.calls);
    }

    // Wakes the threads that must know, but calls nobody to lead, before a wait lets go of the lock.
    #[inline(never)]
    fn tell_before(&self, locked: &mut Locked<'_, S, T, D, J>)
        ensures { IsTold (mutex_guard_value locked.new.guard) }
    {
        if !locked.is_quiet(false) {
            locked.news(false).ring(&self.calls);
        }
    }

    // The engine, once no thread is left.
    pub(crate) fn into_engine(self) -> Engine<S, T, D, J> {
        let Desk { engine, calls: _ } = self;
        engine.into_inner()
    }
}

impl<'a, S: RowStore, T: Tracker, D: Device + Drop, J: SourceNaming> Held<'a, S, T, D, J> {
    // The engine under the lock.
    pub(crate) fn engine(&mut self) -> &mut Engine<S, T, D, J>
        ensures { result.now ≡ mutex_guard_value self.old.locked.guard }
    {
        self.locked.engine()
    }

    // Lets go of the lock, and wakes the threads that are due, one of them to lead.
    pub(crate) fn let_go(self) {
        self.release(true);
    }

    // Like `let_go`, but calls nobody to lead: for calls that can't have been called to lead, and change nothing that
    // concerns sleepers.
    pub(crate) fn done(self) {
        self.release(false);
    }

    // Lets go of the lock. It wakes the sessions whose wait has ended, the readers that wait for records that came, the
    // threads that wait to rotate if the source is at rest and, if `leads` says so, a session that has to lead.
    fn release(self, leads: bool) {
        let Held { locked, desk } = self;
        if locked.is_quiet(leads) {
            locked.free();
        } else {
            desk.free_and_tell(locked, leads);
        }
    }

    // Lets go of the lock until the session of this place is due, and is noted as awake.
    pub(crate) fn sleep(self, rt: &impl Wait, place: usize) -> Held<'a, S, T, D, J>
        requires { place < 256 }
        ensures { slice_index_or (mutex_guard_value result.locked.guard).watch.sleeping place false ≡ false }
    {
        let Held { mut locked, desk } = self;
        desk.tell_before(&mut locked);
        let locked = locked.free_until_due(rt, &desk.calls, place);
        Held { locked, desk }
    }

    // Lets go of the lock for `micros` microseconds, unless the session of this place is called before, or is due
    // already. The session is then noted as awake.
    pub(crate) fn sleep_for(self, rt: &impl Wait, place: usize, micros: u64) -> Held<'a, S, T, D, J>
        requires { place < 256 }
        ensures awake { slice_index_or (mutex_guard_value result.locked.guard).watch.sleeping place false ≡ false }
        ensures freed { (result.locked.is_new ≡ true) ⊎ (due_of (mutex_guard_value result.locked.guard) place ≢ Due.Wait) }
    {
        let Held { mut locked, desk } = self;
        if !locked.waits(place) {
            return Held { locked, desk };
        }
        desk.tell_before(&mut locked);
        let locked = locked.free_unless_called(rt, &desk.calls, place, micros);
        Held { locked, desk }
    }

    // Lets go of the lock for `micros` microseconds. The caller has to lead and comes back to it, so this calls nobody
    // else to lead.
    pub(crate) fn nap(self, rt: &impl Wait, micros: u64) -> Held<'a, S, T, D, J>
        ensures { result.locked.is_new ≡ true }
    {
        let Held { mut locked, desk } = self;
        desk.tell_before(&mut locked);
        let locked = locked.free_for(rt, &Condvar::new(), micros);
        Held { locked, desk }
    }

    // Lets go of the lock until the record after this gno is synced, or no more come.
    pub(crate) fn await_record(self, rt: &impl Wait, gno: u64) -> Held<'a, S, T, D, J>
        ensures { is_awaited (mutex_guard_value result.locked.guard) gno ≡ false }
    {
        let Held { mut locked, desk } = self;
        desk.tell_before(&mut locked);
        let locked = locked.free_until_synced(rt, &desk.calls, gno);
        Held { locked, desk }
    }

    // Lets go of the lock until the source is at rest, or halted.
    pub(crate) fn await_rest(self, rt: &impl Wait) -> Held<'a, S, T, D, J>
        ensures { is_at_work (mutex_guard_value result.locked.guard) ≡ false }
    {
        let Held { mut locked, desk } = self;
        desk.tell_before(&mut locked);
        let locked = locked.free_until_rest(rt, &desk.calls);
        Held { locked, desk }
    }
}
