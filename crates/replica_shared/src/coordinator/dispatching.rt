//! Dispatching: each job that may run is pushed into the queue.
ghost use Rattle.std.specs.Prelude.{◌≡◌, true, false, None, Ok, IfErr, OnOk};
ghost use Rattle.replica_core.specs.Calls.{is_eligible};
ghost use Rattle.replica_shared.specs.Outlet.{pushed_aside};
ghost use Rattle.replica_shared.specs.Together.{DispatchesOne, DispatchesMore};

use super::Coordinator;
use crate::naming::ReplicaNaming;
use relay::ReplicaFault;
use std::sync::Wait;
use store_trait::RowStore;

impl<S: RowStore + Drop, J: ReplicaNaming> Coordinator<S, J> {
    // Dispatches what may be, and pushes it. A job whose push is refused waits, and is pushed first the next time.
    pub(super) fn dispatch_all(&mut self, rt: &impl Wait) -> Result<(), ReplicaFault>
        requires behind { self.old.behind ≡ true }
        requires runs { self.old.core.stopped ≡ None }
        ensures same { DispatchesMore self.old self.new }
        ensures ok { OnOk result ((is_eligible self.new.core ≡ false) × (self.new.outlet.aside ≡ None)) }
        ensures err { IfErr result (λ fault. fault ≡ ReplicaFault.Memory) }
    {
        for _ in rt.forever() {
            self.push(rt)?;
            if !self.dispatch()? {
                return Ok(());
            }
        }
        unreachable!()
    }

    // Pushes the job that waits, if there is one.
    fn push(&mut self, rt: &impl Wait) -> Result<(), ReplicaFault>
        requires behind { self.old.behind ≡ true }
        ensures ok { OnOk result (self.new ≡ record self.old { outlet = pushed_aside self.old.outlet }) }
        ensures err { IfErr result (λ fault. (fault ≡ ReplicaFault.Memory) × (self.new ≡ self.old)) }
    {
        Ok(self.outlet.push(rt)?)
    }

    // The core's call; the job is the next one to push. `false` if there is none.
    fn dispatch(&mut self) -> Result<bool, ReplicaFault>
        requires behind { self.old.behind ≡ true }
        requires runs { self.old.core.stopped ≡ None }
        requires free { self.old.outlet.aside ≡ None }
        ensures some { result ≡ Ok true → DispatchesOne self.old self.new }
        ensures none { result ≡ Ok false → (is_eligible self.old.core ≡ false) × (self.new ≡ self.old) }
        ensures err { IfErr result (λ fault. (fault ≡ ReplicaFault.Memory) × (self.new ≡ self.old)) }
    {
        match self.core.dispatch()? {
            Some(job) => {
                self.outlet.put(job);
                Ok(true)
            }
            None => Ok(false),
        }
    }
}
