//! What threads sleep on, and which of them must be woken.

ghost use Rattle.std.specs.Prelude.{◌≡◌, ◌<◌, true, false, replicate, slice_set};

use crate::engine::SESSIONS;
use schema::Memory;
use std::alloc::Global;
use std::marker::Model;
use std::sync::Condvar;

/// What threads sleep on: a condition for each of the 256 sessions, so that each sleeps on one that others call, and two
/// shared ones.
#[derive(Drop)]
pub(crate) struct Calls {
    // Session 1 first.
    all: Vec<Condvar>,
    // Readers that wait for records sleep on this one.
    records: Condvar,
    // Threads that wait to rotate sleep on this one.
    rest: Condvar,
}

impl Model for Calls {
    ghost use Rattle.std.specs.Prelude.{◌≡◌, length};

    ghost Value = { Unit {0} };

    ghost view = { λ calls. tt };

    ghost invariant = { λ calls. length calls.all.items ≡ 256 };
}

impl Calls {
    pub(crate) fn new(alloc: Global) -> Result<Calls, Memory> {
        let mut all = Vec::with_capacity(alloc, SESSIONS)?;
        for _place in 0..SESSIONS {
            all.push(Condvar::new())?;
        }
        Ok(Calls {
            all,
            records: Condvar::new(),
            rest: Condvar::new(),
        })
    }

    // Wakes the sessions that are called.
    fn wake(&self, called: Called) {
        let Called { all, count } = called;
        let mut left = count;
        for place in 0..SESSIONS {
            if left == 0 {
                break;
            }
            if all[place] {
                left -= 1;
                self.all[place].notify_one();
            }
        }
    }

    // What the session of this place sleeps on.
    pub(crate) fn of(&self, place: usize) -> &Condvar
        requires { place < 256 }
    {
        &self.all[place]
    }

    // What readers sleep on that wait for records.
    pub(crate) fn records(&self) -> &Condvar {
        &self.records
    }

    // What threads sleep on that wait to rotate.
    pub(crate) fn rest(&self) -> &Condvar {
        &self.rest
    }
}

/// The sleepers that a thread must wake as it lets go of the lock. It is not `Drop`, so it can't be forgotten: it ends
/// only in `ring`.
pub(crate) struct News {
    called: Called,
    // Whether to wake the readers that wait for records.
    followers: bool,
    // Whether to wake the threads that wait to rotate.
    rotators: bool,
}

impl News {
    pub(crate) fn new(called: Called, followers: bool, rotators: bool) -> News
        ensures called { result.called.all ≡ called.all }
        ensures followers { result.followers ≡ followers }
        ensures rotators { result.rotators ≡ rotators }
    {
        News {
            called,
            followers,
            rotators,
        }
    }

    // Wakes them.
    pub(crate) fn ring(self, calls: &Calls) {
        let News {
            called,
            followers,
            rotators,
        } = self;
        calls.wake(called);
        if followers {
            calls.records.notify_all();
        }
        if rotators {
            calls.rest.notify_all();
        }
    }
}

/// The sessions that are called: for each one whether it is, session 1 first, and how many are. It is not `Drop`: it ends
/// as they are woken.
pub(crate) struct Called {
    all: [bool; SESSIONS],
    count: usize,
}

impl Called {
    // Calls nobody.
    pub(crate) fn nobody() -> Called
        ensures { result.all ≡ replicate 256 false }
    {
        Called {
            all: [false; SESSIONS],
            count: 0,
        }
    }

    // Calls the session of this place too.
    pub(crate) fn add(&mut self, place: usize)
        requires { place < 256 }
        ensures { self.new.all ≡ slice_set self.old.all place true }
    {
        self.all[place] = true;
        self.count = self.count.saturating_add(1);
    }
}

/// Counts of calls that wait, by what they wait for.
#[derive(Clone, Copy, Debug, PartialEq, Eq)]
pub struct Waits {
    /// Calls of `commit` that wait, without a time limit, for a receipt or until they have to lead.
    pub sessions: u64,
    /// Calls of `bytes_past`.
    pub followers: u64,
    /// Calls of `rotate`.
    pub rotators: u64,
}

impl Waits {
    pub(crate) const NONE: Waits = Waits {
        sessions: 0,
        followers: 0,
        rotators: 0,
    };

    pub(crate) const SESSION: Waits = Waits {
        sessions: 1,
        ..Waits::NONE
    };

    pub(crate) const FOLLOWER: Waits = Waits {
        followers: 1,
        ..Waits::NONE
    };

    pub(crate) const ROTATOR: Waits = Waits {
        rotators: 1,
        ..Waits::NONE
    };

    // The sums of these counts and those of `more`.
    pub(crate) fn plus(self, more: Waits) -> Waits {
        Waits {
            sessions: self.sessions.saturating_add(more.sessions),
            followers: self.followers.saturating_add(more.followers),
            rotators: self.rotators.saturating_add(more.rotators),
        }
    }

    // These counts minus `less`.
    pub(crate) fn minus(self, less: Waits) -> Waits {
        Waits {
            sessions: self.sessions.saturating_sub(less.sessions),
            followers: self.followers.saturating_sub(less.followers),
            rotators: self.rotators.saturating_sub(less.rotators),
        }
    }
}
