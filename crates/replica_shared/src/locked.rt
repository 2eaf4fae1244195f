//! The coordinator's mutex, taken.
//!
//! The thread that has it holds a `Locked`, which is not `Drop`, and only this module takes that apart. Each way out of
//! it, for good or for a while, requires that all news was reported. So no change stays unreported.
ghost use Rattle.std.specs.Prelude.{◌≡◌, ◌≤◌, false};
ghost use Rattle.std.specs.List.{AllByRecursion};
ghost use Rattle.std.specs.Sync.Mutex.{mutex_guard_value};
ghost use Rattle.replica_shared.specs.Together.{IsTold, is_awaited, is_idle};

use crate::coordinator::Coordinator;
use crate::naming::ReplicaNaming;
use crate::news::News;
use gtid_set::Interval;
use left_right::Absorb;
use published::{Common, CopyStep, Version};
use std::sync::{Condvar, Mutex, MutexGuard, Wait};
use store_trait::RowStore;

/// The mutex, taken.
pub struct Locked<'a, S: RowStore + Drop, J: ReplicaNaming>
where
    Version<S, J>: Absorb<CopyStep<J>, State = Common>,
{
    guard: MutexGuard<'a, Coordinator<S, J>>,
}

impl<'a, S: RowStore + Drop, J: ReplicaNaming> Locked<'a, S, J> {
    /// Takes the mutex.
    pub(crate) fn take(rt: &impl Wait, mutex: &'a Mutex<Coordinator<S, J>>) -> Locked<'a, S, J> {
        Locked {
            guard: mutex.lock(rt),
        }
    }

    /// Takes it if it is free.
    pub(crate) fn take_if_free(mutex: &'a Mutex<Coordinator<S, J>>) -> Option<Locked<'a, S, J>> {
        let guard = mutex.try_lock()?;
        Some(Locked { guard })
    }

    /// What the mutex protects.
    pub(crate) fn coordinator(&mut self) -> &mut Coordinator<S, J>
        ensures { result.now ≡ mutex_guard_value self.old.guard }
    {
        &mut *self.guard
    }

    /// The threads to wake for what was done since the last call. All news counts as reported then.
    pub(crate) fn news(&mut self) -> News
        ensures { IsTold (mutex_guard_value self.new.guard) }
    {
        self.guard.news()
    }

    /// Frees the mutex. All news was reported.
    pub(crate) fn free(self)
        requires { IsTold (mutex_guard_value self.guard) }
    {
        let Locked { guard } = self;
        MutexGuard::unlock(guard);
    }

    /// Frees the mutex until there is something for the worker that sleeps here. All news was reported.
    pub(crate) fn free_while_idle(self, rt: &impl Wait, bell: &Condvar) -> Locked<'a, S, J>
        requires { IsTold (mutex_guard_value self.guard) }
        ensures { is_idle (mutex_guard_value result.guard) ≡ false }
    {
        let Locked { mut guard } = self;
        guard.worker_sleeps();
        let mut guard = bell.wait_while(rt, guard, |held| held.worker_looks());
        guard.worker_wakes();
        Locked { guard }
    }

    /// Frees the mutex until each of these commits is published, or the replica is stopped. All news was reported.
    pub(crate) fn free_while_awaited(
        self,
        rt: &impl Wait,
        bell: &Condvar,
        wanted: &[Interval],
    ) -> Locked<'a, S, J>
        requires told { IsTold (mutex_guard_value self.guard) }
        requires wanted { AllByRecursion (λ i. 1 ≤ i.first) wanted.now }
        ensures { is_awaited (mutex_guard_value result.guard) wanted.now ≡ false }
    {
        let Locked { mut guard } = self;
        guard.reader_sleeps();
        let mut guard = bell.wait_while(rt, guard, |held| held.reader_looks(wanted));
        guard.reader_wakes();
        Locked { guard }
    }
}
