//! What the lock protects: the core, its publisher, the words of the status, the coordinator's end of the queue, and the
//! jobs for which memory ran out. Each call of the shared replica is one call here. Records are in `accepting`, jobs in
//! `working`, what follows both in `settling` and `dispatching`, waits for commits in `waiting`, and sleepers and news in
//! `telling`.
ghost use Rattle.std.specs.Prelude.{◌≡◌, [], true};
ghost use Rattle.published.specs.Status.{NoneFalls, latest};
ghost use Rattle.replica_core.specs.Sound.{IsSound};
ghost use Rattle.replica_shared.specs.Names.{IsNewReplica, IsKnown};
ghost use Rattle.replica_shared.specs.Outlet.{empty_outlet};
ghost use Rattle.replica_shared.specs.Together.{StoodTogether, words_of, loaded_alone, new_state, is_ended};

mod accepting;
mod dispatching;
mod settling;
mod telling;
mod waiting;
mod working;

use crate::kept::KeptJobs;
use crate::naming::ReplicaNaming;
use crate::news::{Looks, Outlook, Sleepers};
use crate::outlet::Outlet;
use left_right::Absorb;
use published::{Common, CopyStep, Counts, Publisher, Status, Version};
use replica_core::ReplicaCore;
use std::marker::Model;
use std::sync::Wait;
use store_trait::RowStore;
use uuid::Uuid;

/// Contracts see it as `State` of `specs/Together.antt`.
pub struct Coordinator<S: RowStore + Drop, J: ReplicaNaming>
where
    Version<S, J>: Absorb<CopyStep<J>, State = Common>,
{
    core: ReplicaCore<S>,
    publisher: Publisher<S, J>,
    /// How many commits were appended to the publisher.
    appended: u64,
    status: Status,
    kept: KeptJobs,
    closed: bool,
    outlet: Outlet,
    /// How many of the pushed jobs workers have claimed.
    claimed: u64,
    /// Something may be left to commit, to publish or to dispatch.
    behind: bool,
    /// The outlook when news was last reported.
    told: Outlook,
    sleepers: Sleepers,
    looks: Looks,
}

impl<S: RowStore + Drop, J: ReplicaNaming> Model for Coordinator<S, J>
where
    Version<S, J>: Absorb<CopyStep<J>, State = Common>,
{
    ghost use Rattle.replica_shared.specs.Together.{State, state_of, IsWhole};

    ghost Value = { State };

    ghost view = { λ c. state_of c.core c.publisher c.closed c.kept c.outlet c.claimed c.behind c.told };

    ghost invariant = { λ c. IsWhole J.names J.preserve J.known
        (state_of c.core c.publisher c.closed c.kept c.outlet c.claimed c.behind c.told) c.appended c.status.stored };
}

impl<S: RowStore + Drop, J: ReplicaNaming> Coordinator<S, J> {
    // Over a new core, and a publisher that has published the load of the same rows.
    pub(crate) fn new(
        core: ReplicaCore<S>,
        publisher: Publisher<S, J>,
        status: Status,
        kept: KeptJobs,
        outlet: Outlet,
    ) -> Coordinator<S, J>
        requires core { IsNewReplica J.names J.preserve core }
        requires publisher { publisher ≡ loaded_alone J.names.base }
        requires status { status.stored ≡ [] }
        requires kept { kept ≡ [] }
        requires outlet { outlet ≡ empty_outlet }
        requires known { IsKnown J.names J.preserve J.known }
        ensures { result ≡ new_state core }
    {
        Coordinator {
            core,
            publisher,
            appended: 0,
            status,
            kept,
            closed: false,
            outlet,
            claimed: 0,
            behind: false,
            told: Outlook {
                offers: 0,
                behind: false,
                published: 0,
                over: false,
            },
            sleepers: Sleepers {
                workers: 0,
                readers: 0,
            },
            looks: Looks {
                workers: 0,
                readers: 0,
            },
        }
    }

    // The source whose records the core takes.
    pub(crate) fn source(&self) -> Uuid
        ensures { result ≡ J.names.source }
    {
        self.core.source()
    }

    // Whether it commits in the order of the log.
    pub(crate) fn preserve(&self) -> bool
        ensures { result ≡ J.preserve }
    {
        self.core.preserve()
    }

    // Whether no more records come, and all that came are committed and published.
    fn is_ended(&self) -> bool
        ensures { result ≡ is_ended self.now }
    {
        self.closed
            && self.core.committed() == self.core.received()
            && self.core.published() == self.core.committed()
    }

    // The core and the publisher.
    pub(crate) fn end(self) -> (ReplicaCore<S>, Publisher<S, J>)
        ensures state { (result.0 ≡ self.core) × (result.1 ≡ self.publication) }
        ensures together { StoodTogether J.names J.preserve result.0 result.1 }
    {
        let Coordinator {
            core,
            publisher,
            appended: _,
            status: _,
            kept: _,
            closed: _,
            outlet: _,
            claimed: _,
            behind: _,
            told: _,
            sleepers: _,
            looks: _,
        } = self;
        (core, publisher)
    }

    // No more records come.
    pub(crate) fn close(&mut self)
        ensures { self.new ≡ record self.old { closed = true } }
    {
        self.closed = true;
    }
}

// Stores how far the core has come.
fn store_words<S: RowStore>(rt: &impl Wait, core: &ReplicaCore<S>, status: &mut Status)
    requires { NoneFalls (latest status.old.stored) (words_of core.now) }
    ensures stored { latest status.new.stored ≡ words_of core.now }
    ensures sound { IsSound core.now }
{
    let counts = Counts {
        received: core.received(),
        committed: core.committed(),
        published: core.published(),
    };
    status.store(rt, counts);
}
