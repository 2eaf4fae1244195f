//! What a worker finds under the lock, and which threads to wake after a call.
ghost use Rattle.std.specs.Prelude.{◌≡◌};
ghost use Rattle.replica_shared.specs.Together.{call_of, news_between};

use crate::queue::Claim;
use executor::Job;
use std::sync::Condvar;

/// What there is for a worker. It is not `Drop`, so that no job of the queue is claimed and left there.
pub enum Next {
    /// A job for which memory ran out before.
    Kept(Job),
    /// One of the jobs in the queue: this worker may steal it.
    Claim(Claim),
    /// Nothing now.
    Nothing,
    /// Nothing from now on: no more records come, and all that came are committed and published.
    Ended,
}

/// What waiting threads look at.
#[derive(Clone, Copy, Debug)]
pub struct Outlook {
    /// The number of jobs that no worker has.
    pub offers: u64,
    /// Something may be left to commit, to publish or to dispatch.
    pub behind: bool,
    /// The number of published commits.
    pub published: u64,
    /// The replica is stopped, or no more records come and all is done.
    pub over: bool,
}

/// The threads to wake. It is not `Drop`, so it can't be forgotten.
#[derive(Debug)]
pub struct News {
    /// The threads that wait for work.
    pub workers: Call,
    /// The threads that wait for a commit.
    pub readers: Call,
}

/// The threads to wake among those that wait for one thing: none, one or all. It is not `Drop`: it ends in `ring`.
#[derive(Debug)]
pub enum Call {
    Nobody,
    One,
    All,
}

impl Call {
    // All, or one, or nobody.
    fn of(all: bool, one: bool) -> Call
        ensures { result ≡ call_of all one }
    {
        if all {
            Call::All
        } else if one {
            Call::One
        } else {
            Call::Nobody
        }
    }

    /// Wakes them.
    pub(crate) fn ring(self, bell: &Condvar) {
        match self {
            Call::Nobody => {}
            Call::One => bell.notify_one(),
            Call::All => bell.notify_all(),
        }
    }
}

/// The number of waiting calls.
#[derive(Clone, Copy, Debug, PartialEq, Eq)]
pub struct Sleepers {
    /// Calls of `worker` that have no job.
    pub workers: u64,
    /// Calls of `wait_for` and `wait_for_set`.
    pub readers: u64,
}

/// How often waiting calls looked whether there is what they wait for: once as each begins to wait, and once each time it
/// wakes.
#[derive(Clone, Copy, Debug, PartialEq, Eq)]
pub struct Looks {
    /// Calls of `worker`.
    pub workers: u64,
    /// Calls of `wait_for` and `wait_for_set`.
    pub readers: u64,
}

impl Outlook {
    /// The threads to wake for this outlook, if `told` is the one when news was last reported.
    pub(crate) fn since(self, told: Outlook) -> News
        ensures { result ≡ news_between told self }
    {
        let over = self.over && !told.over;
        let offers = 0 < self.offers && (self.offers != told.offers || told.behind);
        News {
            workers: Call::of(over, self.behind || offers),
            readers: Call::of(over || told.published < self.published, false),
        }
    }
}
