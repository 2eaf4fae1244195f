//! The lock, and the thread that holds it.
//!
//! The thread that holds the lock has a `Held`, which is not `Drop`: neither the end of a scope nor a `?` can let it go.
//! It ends in `let_go` or in a wait. Both first ask the coordinator which threads the change concerns, and wake these.
//! Only this module takes it apart, and the mutex in it (`Locked`) can be freed only after that question.
ghost use Rattle.std.specs.Prelude.{◌≡◌, ◌≤◌, false};
ghost use Rattle.std.specs.List.{AllByRecursion};
ghost use Rattle.std.specs.Sync.Mutex.{mutex_guard_value};
ghost use Rattle.replica_shared.specs.Together.{is_awaited, is_idle};

use crate::coordinator::Coordinator;
use crate::locked::Locked;
use crate::naming::ReplicaNaming;
use crate::news::News;
use gtid_set::Interval;
use left_right::Absorb;
use published::{Common, CopyStep, Version};
use std::sync::{Condvar, Mutex, Wait};
use store_trait::RowStore;

/// How often a thread that brings a record looks whether the lock is free, before it sleeps: some microseconds in all.
const LOOKS: usize = 1000;

/// A coordinator under its lock, and the condition variables of the threads that wait for something to be done to it.
pub struct Lock<S: RowStore + Drop, J: ReplicaNaming>
where
    Version<S, J>: Absorb<CopyStep<J>, State = Common>,
{
    coordinator: Mutex<Coordinator<S, J>>,
    /// Workers wait here.
    work: Condvar,
    /// Calls of `wait_for` and `wait_for_set` wait here.
    shown: Condvar,
}

/// The lock, held.
pub struct Held<'a, S: RowStore + Drop, J: ReplicaNaming>
where
    Version<S, J>: Absorb<CopyStep<J>, State = Common>,
{
    lock: &'a Lock<S, J>,
    locked: Locked<'a, S, J>,
}

impl<S: RowStore + Drop, J: ReplicaNaming> Lock<S, J> {
    pub(crate) fn new(coordinator: Coordinator<S, J>) -> Lock<S, J> {
        Lock {
            coordinator: Mutex::new(coordinator),
            work: Condvar::new(),
            shown: Condvar::new(),
        }
    }

    /// Takes the lock.
    pub(crate) fn take(&self, rt: &impl Wait) -> Held<'_, S, J> {
        Held {
            lock: self,
            locked: Locked::take(rt, &self.coordinator),
        }
    }

    /// Takes the lock for a record. Workers that commit hold it for a moment, about as often as records come. So this
    /// looks whether it is free for a while before it sleeps.
    pub(crate) fn take_soon(&self, rt: &impl Wait) -> Held<'_, S, J> {
        for _look in 0..LOOKS {
            if let Some(locked) = Locked::take_if_free(&self.coordinator) {
                return Held { lock: self, locked };
            }
        }
        self.take(rt)
    }

    /// The coordinator, which no thread holds any more.
    pub(crate) fn into_inner(self) -> Coordinator<S, J> {
        let Lock {
            coordinator,
            work: _,
            shown: _,
        } = self;
        coordinator.into_inner()
    }

    // Wakes the threads that the news names.
    fn tell(&self, news: News) {
        let News { workers, readers } = news;
        workers.ring(&self.work);
        readers.ring(&self.shown);
    }
}

impl<'a, S: RowStore + Drop, J: ReplicaNaming> Held<'a, S, J> {
    /// What the lock protects.
    pub(crate) fn coordinator(&mut self) -> &mut Coordinator<S, J>
        ensures { result.now ≡ mutex_guard_value self.old.locked.guard }
    {
        self.locked.coordinator()
    }

    /// Lets go of the lock, and wakes the threads that the change concerns.
    pub(crate) fn let_go(self) {
        let Held { lock, mut locked } = self;
        let news = locked.news();
        locked.free();
        lock.tell(news);
    }

    /// Wakes the threads that the change concerns, and lets go of the lock until there is something for a worker.
    pub(crate) fn wait_for_work(self, rt: &impl Wait) -> Held<'a, S, J>
        ensures { is_idle (mutex_guard_value result.locked.guard) ≡ false }
    {
        let Held { lock, mut locked } = self;
        lock.tell(locked.news());
        let locked = locked.free_while_idle(rt, &lock.work);
        Held { lock, locked }
    }

    /// Wakes the threads that the change concerns, and lets go of the lock until each of these commits is published, or
    /// the replica is stopped.
    pub(crate) fn wait_for_commits(self, rt: &impl Wait, wanted: &[Interval]) -> Held<'a, S, J>
        requires { AllByRecursion (λ i. 1 ≤ i.first) wanted.now }
        ensures { is_awaited (mutex_guard_value result.locked.guard) wanted.now ≡ false }
    {
        let Held { lock, mut locked } = self;
        lock.tell(locked.news());
        let locked = locked.free_while_awaited(rt, &lock.shown, wanted);
        Held { lock, locked }
    }
}
