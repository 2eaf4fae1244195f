//! Accepting: records, one by one or as the bytes of a log, and what may be done then.
ghost use Rattle.std.specs.Prelude.{◌≡◌, ◌⊎◌, ◌≤◌, ◌<◌, length, None, Ok, IfOk, IfErr, OnErr, IsErrOf};
ghost use Rattle.replica_core.specs.Calls.{received};
ghost use Rattle.replica_core.specs.Wire.{Takes};
ghost use Rattle.replica_shared.specs.Feeding.{left_by_take, SettlesOrLacks, told_behind, TakesAndSettles, HandsAs, HandsAndSettles};
ghost use Rattle.replica_shared.specs.Feeding.{AreEachInLog, AreInLog};
ghost use Rattle.replica_shared.specs.Names.{IsReplicaOf, IsInLog};
ghost use Rattle.replica_shared.specs.Together.{IsCaughtUp, left_by_accept, AcceptsAndSettles};

use super::{Coordinator, store_words};
use crate::naming::ReplicaNaming;
use record_codec::Record;
use relay::{Received, ReplicaFault};
use replica_core::{Wire, WireFault};
use std::sync::Wait;
use store_trait::RowStore;
use uuid::Uuid;

impl<S: RowStore + Drop, J: ReplicaNaming> Coordinator<S, J> {
    // The core's call; then commits, publishes and dispatches what it can. If memory ran out, the record may have been
    // accepted.
    pub(crate) fn receive(
        &mut self,
        rt: &impl Wait,
        from: Uuid,
        new: &Record,
    ) -> Result<Received, ReplicaFault>
        requires known { IsInLog J.names.log new.now }
        ensures answer { IsErrOf result ReplicaFault.Memory ⊎ (result ≡ received self.old.core from new.now) }
        ensures memory { IsErrOf result ReplicaFault.Memory
            → received self.old.core from new.now ≡ Ok Received.Accepted }
        ensures accepted { result ≡ Ok Received.Accepted
            → AcceptsAndSettles self.old new.now self.new × IsCaughtUp self.new.core self.new.outlet }
        ensures skipped { result ≡ Ok Received.Skipped → self.new ≡ self.old }
        ensures lacking { IsErrOf result ReplicaFault.Memory → (self.new ≡ self.old) ⊎ AcceptsAndSettles self.old new.now self.new }
        ensures refused { IfErr result (λ fault. (fault ≡ ReplicaFault.Memory → ⊥) → self.new ≡ self.old) }
        ensures named { IsReplicaOf J.names J.preserve self.old.core }
    {
        let answer = self.accept(rt, from, new)?;
        if answer == Received::Accepted {
            self.settle(rt)?;
        }
        Ok(answer)
    }

    // The core's call.
    fn accept(&mut self, rt: &impl Wait, from: Uuid, new: &Record) -> Result<Received, ReplicaFault>
        requires known { IsInLog J.names.log new.now }
        ensures answer { IsErrOf result ReplicaFault.Memory ⊎ (result ≡ received self.old.core from new.now) }
        ensures memory { IsErrOf result ReplicaFault.Memory
            → received self.old.core from new.now ≡ Ok Received.Accepted }
        ensures ok { IfOk result (λ answer. self.new ≡ left_by_accept self.old new.now answer) }
        ensures err { OnErr result (self.new ≡ self.old) }
        ensures named { IsReplicaOf J.names J.preserve self.old.core }
    {
        let answer = self.core.receive(from, new)?;
        if answer == Received::Accepted {
            store_words(rt, &self.core, &mut self.status);
            self.behind = true;
        }
        Ok(answer)
    }

    // The wire's call over the core; then, if records were accepted, commits, publishes and dispatches what it can. If
    // memory runs out for that, the piece is taken. So the fault is the same kind as for a refused record of the piece: a
    // caller that sent the piece again would send its bytes twice. A fault of the wire's own call comes first.
    pub(crate) fn take(
        &mut self,
        rt: &impl Wait,
        wire: &mut Wire,
        piece: &[u8],
    ) -> Result<u64, WireFault>
        requires known { AreInLog J.names.log wire.old piece.now }
        ensures takes { TakesAndSettles self.old wire.old piece.now result wire.new self.new }
        ensures named { IsReplicaOf J.names J.preserve self.old.core }
    {
        let before = self.core.received();
        let taken = self.take_piece(rt, wire, piece);
        let settled = self.settle_past(rt, before);
        told_of(taken, settled)
    }

    // Like `take`, but the piece was gathered already, and no record waited before.
    pub(crate) fn hand(&mut self, rt: &impl Wait, wire: &mut Wire) -> Result<u64, WireFault>
        requires known { AreEachInLog J.names.log wire.old.waiting }
        ensures takes { HandsAndSettles self.old wire.old result wire.new self.new }
        ensures named { IsReplicaOf J.names J.preserve self.old.core }
    {
        let before = self.core.received();
        let taken = self.hand_waiting(rt, wire);
        let settled = self.settle_past(rt, before);
        told_of(taken, settled)
    }

    // The wire's call over the core.
    fn take_piece(
        &mut self,
        rt: &impl Wait,
        wire: &mut Wire,
        piece: &[u8],
    ) -> Result<u64, WireFault>
        requires known { AreInLog J.names.log wire.old piece.now }
        ensures takes { Takes wire.old self.old.core piece.now result wire.new self.new.core }
        ensures left { self.new ≡ left_by_take self.old self.new.core }
        ensures named { IsReplicaOf J.names J.preserve self.old.core }
    {
        let before = self.core.received();
        let taken = wire.take(&mut self.core, piece);
        if before < self.core.received() {
            store_words(rt, &self.core, &mut self.status);
            self.behind = true;
        }
        taken
    }

    // Hands on the records that wait. A refusal is reported as that of a record of the piece.
    fn hand_waiting(&mut self, rt: &impl Wait, wire: &mut Wire) -> Result<u64, WireFault>
        requires known { AreEachInLog J.names.log wire.old.waiting }
        ensures hands { HandsAs wire.old self.old.core result wire.new self.new.core }
        ensures left { self.new ≡ left_by_take self.old self.new.core }
        ensures named { IsReplicaOf J.names J.preserve self.old.core }
    {
        let before = self.core.received();
        let handed = wire.hand(&mut self.core);
        if before < self.core.received() {
            store_words(rt, &self.core, &mut self.status);
            self.behind = true;
        }
        match handed {
            Ok(count) => Ok(count),
            Err(fault) => Err(WireFault::Replica(fault)),
        }
    }

    // Does all that can be done, if more than `count` records were accepted.
    fn settle_past(&mut self, rt: &impl Wait, count: u64) -> Result<(), ReplicaFault>
        requires runs { count < length self.old.core.accepted → self.old.core.stopped ≡ None }
        ensures none { length self.old.core.accepted ≤ count → (result ≡ Ok tt) × (self.new ≡ self.old) }
        ensures some { count < length self.old.core.accepted → SettlesOrLacks self.old result self.new }
    {
        if count < self.core.received() {
            self.settle(rt)
        } else {
            Ok(())
        }
    }
}

// The result for a piece: the fault of the wire's call, or else that memory ran out for what came after it.
fn told_of(
    taken: Result<u64, WireFault>,
    settled: Result<(), ReplicaFault>,
) -> Result<u64, WireFault>
    ensures { result ≡ told_behind taken settled }
{
    let count = taken?;
    settled.map_err(WireFault::Replica)?;
    Ok(count)
}
