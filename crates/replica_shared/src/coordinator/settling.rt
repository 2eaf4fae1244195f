//! Settling: commits what can be committed, publishes that, and then dispatches what may be.
ghost use Rattle.std.specs.Prelude.{◌≡◌, ◌⊎◌, true, false, length, None, Err, IfOk, IfErr, IfSome, OnOk, OnErr, IsErrOf};
ghost use Rattle.std.specs.Option.{option_map_or};
ghost use mathlib.Core.List.{IsPrefix};
ghost use Rattle.replica_core.specs.Calls.{next_commit, with_commit, unless_stopped, with_published};
ghost use Rattle.replica_shared.specs.Together.{IsCaughtUp, Settles, IsFaultOf, with_publication, with_waiting, IsAppended, shown};

use super::{Coordinator, store_words};
use crate::naming::ReplicaNaming;
use relay::ReplicaFault;
use std::sync::Wait;
use store_trait::RowStore;

impl<S: RowStore + Drop, J: ReplicaNaming> Coordinator<S, J> {
    // Commits what can be committed, publishes it, and dispatches what then may be.
    pub(super) fn settle(&mut self, rt: &impl Wait) -> Result<(), ReplicaFault>
        ensures settles { Settles self.old self.new }
        ensures ok { OnOk result (IsCaughtUp self.new.core self.new.outlet × (self.new.behind ≡ false) × (self.old.core.stopped ≡ None)) }
        ensures stopped { IfSome self.old.core.stopped (λ at. result ≡ Err (ReplicaFault.Stopped at)) }
        ensures err { IfErr result (λ fault. IsFaultOf self.old fault × (self.new.behind ≡ true)) }
    {
        self.behind = true;
        self.commit_all(rt)?;
        self.publish_all(rt)?;
        self.dispatch_all(rt)?;
        self.behind = false;
        Ok(())
    }

    // Commits each record whose turn it is.
    fn commit_all(&mut self, rt: &impl Wait) -> Result<(), ReplicaFault>
        requires { self.old.behind ≡ true }
        ensures settles { Settles self.old self.new × (self.new.behind ≡ true) }
        ensures ok { OnOk result ((next_commit self.new.core ≡ None) × (self.old.core.stopped ≡ None)) }
        ensures err { IfErr result (IsFaultOf self.old) }
    {
        for _ in rt.forever() {
            if self.commit_next(rt)?.is_none() {
                return Ok(());
            }
        }
        unreachable!()
    }

    // The core's call.
    fn commit_next(&mut self, rt: &impl Wait) -> Result<Option<u64>, ReplicaFault>
        requires { self.old.behind ≡ true }
        ensures answer { IsErrOf result ReplicaFault.Memory
            ⊎ (result ≡ unless_stopped self.old.core (next_commit self.old.core)) }
        ensures memory { IsErrOf result ReplicaFault.Memory → self.old.core.stopped ≡ None }
        ensures ok { IfOk result (λ gno.
            self.new ≡ record self.old { core = option_map_or (λ committed. with_commit self.old.core committed) gno self.old.core }) }
        ensures err { OnErr result (self.new ≡ self.old) }
    {
        let next = self.core.commit_next()?;
        if next.is_some() {
            store_words(rt, &self.core, &mut self.status);
        }
        Ok(next)
    }

    // Publishes all that is committed, at once.
    fn publish_all(&mut self, rt: &impl Wait) -> Result<(), ReplicaFault>
        requires behind { self.old.behind ≡ true }
        requires runs { self.old.core.stopped ≡ None }
        ensures settles { Settles self.old self.new × (self.new.behind ≡ true) }
        ensures core { self.new.core ≡ with_published self.old.core self.new.core.published }
        ensures ok { OnOk result (self.new.core.published ≡ length self.new.core.commits) }
        ensures err { IfErr result (λ fault. fault ≡ ReplicaFault.Memory) }
    {
        if self.core.published() == self.core.committed() {
            return Ok(());
        }
        self.append_all(rt)?;
        self.show(rt)
    }

    // Appends the waiting commits that were not appended yet.
    fn append_all(&mut self, rt: &impl Wait) -> Result<(), ReplicaFault>
        ensures same { self.new ≡ with_waiting self.old self.new.publication.waiting }
        ensures all { OnOk result (IsAppended self.new.core self.new.publication) }
        ensures err { IfErr result (λ fault. fault ≡ ReplicaFault.Memory) }
    {
        for _ in rt.forever() {
            if !self.append_next()? {
                return Ok(());
            }
        }
        unreachable!()
    }

    // Appends the next of the waiting commits. `false` if all were appended.
    fn append_next(&mut self) -> Result<bool, ReplicaFault>
        ensures same { self.new ≡ with_waiting self.old self.new.publication.waiting }
        ensures all { IfOk result (λ more. more ≡ false → IsAppended self.new.core self.new.publication) }
        ensures err { IfErr result (λ fault. (fault ≡ ReplicaFault.Memory) × (self.new ≡ self.old)) }
    {
        let (published, committed) = (self.core.published(), self.core.committed());
        if self.appended >= committed {
            return Ok(false);
        }
        let op = &self.core.pending()[(self.appended - published) as usize];
        self.publisher.append(op)?;
        self.appended += 1;
        Ok(true)
    }

    // Publishes what was appended.
    fn show(&mut self, rt: &impl Wait) -> Result<(), ReplicaFault>
        requires behind { self.old.behind ≡ true }
        requires runs { self.old.core.stopped ≡ None }
        ensures ok { OnOk result (self.new ≡ shown self.old) }
        ensures err { IfErr result (λ fault. (fault ≡ ReplicaFault.Memory) × (self.new ≡ with_publication self.old self.new.publication)) }
        ensures later { IsPrefix self.old.publication.published self.new.publication.published }
    {
        let upto = self.publisher.publish(rt)?;
        self.core.publish(upto)?;
        store_words(rt, &self.core, &mut self.status);
        Ok(())
    }
}
