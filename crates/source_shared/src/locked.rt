//! The engine's mutex, taken.
//!
//! The thread that has it has a `Locked`, which is not `Drop`, and only this module takes that apart. Each way out, for
//! good or for a while, requires that the sleepers concerned are called (`IsTold`). So none of them leaves a sleeper
//! uncalled.
ghost use Rattle.std.specs.Prelude.{◌≡◌, ◌≢◌, ◌<◌, true, false, slice_index_or};
ghost use Rattle.std.specs.Sync.Mutex.{mutex_guard_value};
ghost use Rattle.source_shared.specs.Engine.{due_of, is_at_work, is_awaited, IsTold};

use crate::book::SourceNaming;
use crate::calls::{Calls, News, Waits};
use crate::engine::{Due, Engine};
use log_device::Device;
use std::sync::{Condvar, Mutex, MutexGuard, Wait};
use std::time::Duration;
use store_trait::RowStore;
use tracker_trait::Tracker;

/// The mutex, taken.
pub(crate) struct Locked<'a, S: RowStore, T: Tracker, D: Device, J: SourceNaming> {
    guard: MutexGuard<'a, Engine<S, T, D, J>>,
    // Whether nothing was looked at since the mutex was taken. Only clauses read this.
    is_new: bool,
}

impl<'a, S: RowStore, T: Tracker, D: Device + Drop, J: SourceNaming> Locked<'a, S, T, D, J> {
    // Takes the mutex.
    pub(crate) fn take(
        rt: &impl Wait,
        mutex: &'a Mutex<Engine<S, T, D, J>>,
    ) -> Locked<'a, S, T, D, J>
        ensures { result.is_new ≡ true }
    {
        Locked {
            guard: mutex.lock(rt),
            is_new: true,
        }
    }

    // Takes the mutex if it is free.
    pub(crate) fn take_if_free(
        mutex: &'a Mutex<Engine<S, T, D, J>>,
    ) -> Option<Locked<'a, S, T, D, J>> {
        let guard = mutex.try_lock()?;
        Some(Locked {
            guard,
            is_new: true,
        })
    }

    // The engine under it.
    pub(crate) fn engine(&mut self) -> &mut Engine<S, T, D, J>
        ensures { result.now ≡ mutex_guard_value self.old.guard }
    {
        self.is_new = false;
        &mut *self.guard
    }

    // Whether the session of this place has to wait. It notes whether the session sleeps: it does if it has to wait.
    pub(crate) fn waits(&mut self, place: usize) -> bool
        requires { place < 256 }
        ensures due { result ≡ false → due_of (mutex_guard_value self.new.guard) place ≢ Due.Wait }
        ensures awake { result ≡ false → slice_index_or (mutex_guard_value self.new.guard).watch.sleeping place false ≡ false }
    {
        self.is_new = false;
        self.guard.waits(place)
    }

    // Whether no sleeper has to be called.
    pub(crate) fn is_quiet(&self, leads: bool) -> bool
        ensures { result ≡ true → IsTold (mutex_guard_value self.now.guard) }
    {
        self.guard.is_quiet(leads)
    }

    // The sleepers that the changes concern and, if `leads` says so, a session that has to lead. It notes that they are
    // called.
    pub(crate) fn news(&mut self, leads: bool) -> News
        ensures { IsTold (mutex_guard_value self.new.guard) }
    {
        self.guard.news(leads)
    }

    // Frees the mutex. It requires that the sleepers concerned are called.
    pub(crate) fn free(self)
        requires { IsTold (mutex_guard_value self.guard) }
    {
        let Locked { guard, is_new: _ } = self;
        MutexGuard::unlock(guard);
    }

    // Frees the mutex for `micros` microseconds, or until a thread is woken that sleeps on `call`. It requires that the
    // sleepers concerned are called.
    pub(crate) fn free_for(
        self,
        rt: &impl Wait,
        call: &Condvar,
        micros: u64,
    ) -> Locked<'a, S, T, D, J>
        requires { IsTold (mutex_guard_value self.guard) }
        ensures { result.is_new ≡ true }
    {
        let Locked { guard, is_new: _ } = self;
        let seen = call.notifications();
        let mutex = MutexGuard::unlock(guard);
        call.sleep(rt, seen, Duration::from_micros(micros));
        Locked::take(rt, mutex)
    }

    // Frees the mutex for `micros` microseconds, unless the session of this place is called before. The session is then
    // noted as awake. It requires that the sleepers concerned are called.
    pub(crate) fn free_unless_called(
        self,
        rt: &impl Wait,
        calls: &Calls,
        place: usize,
        micros: u64,
    ) -> Locked<'a, S, T, D, J>
        requires told { IsTold (mutex_guard_value self.guard) }
        requires place { place < 256 }
        ensures new { result.is_new ≡ true }
        ensures awake { slice_index_or (mutex_guard_value result.guard).watch.sleeping place false ≡ false }
    {
        let mut locked = self.free_for(rt, calls.of(place), micros);
        locked.guard.set_sleeping(place, false);
        locked
    }

    // Frees the mutex until the session of this place is due, and is noted as awake. It requires that the sleepers
    // concerned are called.
    pub(crate) fn free_until_due(
        self,
        rt: &impl Wait,
        calls: &Calls,
        place: usize,
    ) -> Locked<'a, S, T, D, J>
        requires told { IsTold (mutex_guard_value self.guard) }
        requires place { place < 256 }
        ensures { slice_index_or (mutex_guard_value result.guard).watch.sleeping place false ≡ false }
    {
        let Locked {
            mut guard,
            is_new: _,
        } = self;
        guard.one_more(Waits::SESSION);
        let mut guard = calls.of(place).wait_while(
            rt,
            guard,
            |engine|
                requires { place < 256 }
            { engine.waits(place) },
        );
        guard.one_less(Waits::SESSION);
        Locked {
            guard,
            is_new: false,
        }
    }

    // Frees the mutex until the record after this gno is synced, or no more come. It requires that the sleepers concerned
    // are called.
    pub(crate) fn free_until_synced(
        self,
        rt: &impl Wait,
        calls: &Calls,
        gno: u64,
    ) -> Locked<'a, S, T, D, J>
        requires { IsTold (mutex_guard_value self.guard) }
        ensures { is_awaited (mutex_guard_value result.guard) gno ≡ false }
    {
        let Locked {
            mut guard,
            is_new: _,
        } = self;
        guard.one_more(Waits::FOLLOWER);
        let mut guard = calls
            .records()
            .wait_while(rt, guard, |engine| engine.waits_for_record(gno));
        guard.one_less(Waits::FOLLOWER);
        Locked {
            guard,
            is_new: false,
        }
    }

    // Frees the mutex until the source is at rest, or halted. It requires that the sleepers concerned are called.
    pub(crate) fn free_until_rest(self, rt: &impl Wait, calls: &Calls) -> Locked<'a, S, T, D, J>
        requires { IsTold (mutex_guard_value self.guard) }
        ensures { is_at_work (mutex_guard_value result.guard) ≡ false }
    {
        let Locked {
            mut guard,
            is_new: _,
        } = self;
        guard.one_more(Waits::ROTATOR);
        let mut guard = calls
            .rest()
            .wait_while(rt, guard, |engine| engine.waits_to_rotate());
        guard.one_less(Waits::ROTATOR);
        Locked {
            guard,
            is_new: false,
        }
    }
}
