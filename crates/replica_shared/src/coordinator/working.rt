//! What a worker calls: what there is for it, and what comes of its job.
ghost use Rattle.std.specs.Prelude.{◌≡◌, true, false, None, Err, IfOk, IfErr, IfSome, OnOk};
ghost use Rattle.executor.specs.Job.{IsResult};
ghost use Rattle.replica_core.specs.Calls.{finish_fault, IsHandedOut};
ghost use Rattle.replica_core.specs.Sound.{IsSound};
ghost use Rattle.scheduler.specs.Gnos.{has_gno};
ghost use Rattle.replica_shared.specs.Together.{IsCaughtUp, Settles, left_by_finish, refused_so, HandsIn, NoneIsKept, Finds, FindsBehind};
ghost use Rattle.replica_shared.specs.Together.{is_idle, answered, NoneLost, laid, taken_back, TakesOut};

use super::Coordinator;
use crate::naming::ReplicaNaming;
use crate::news::Next;
use crate::queue::Claim;
use executor::{Job, JobResult};
use relay::ReplicaFault;
use std::sync::Wait;
use store_trait::RowStore;

impl<S: RowStore + Drop, J: ReplicaNaming> Coordinator<S, J> {
    // What there is for a worker, once all that was left undone is done. A job for which memory ran out comes first.
    pub(crate) fn next(&mut self, rt: &impl Wait) -> Result<Next, ReplicaFault>
        // A worker for which there is nothing waits instead.
        requires { is_idle self.old ≡ false }
        ensures stopped { IfSome self.old.core.stopped (λ at. result ≡ Err (ReplicaFault.Stopped at)) }
        ensures ok { IfOk result (λ next. FindsBehind self.old next self.new) }
        ensures err { IfErr result (λ fault. Settles self.old self.new × (fault ≡ ReplicaFault.Memory → self.new.behind ≡ true)) }
    {
        self.settle(rt)?;
        Ok(self.find())
    }

    // What there is for a worker, once nothing is left undone.
    fn find(&mut self) -> Next
        ensures { Finds self.old result self.new }
    {
        match self.take_kept() {
            Some(job) => Next::Kept(job),
            None => self.claim(),
        }
    }

    // One of the pushed jobs, if any is left.
    fn claim(&mut self) -> Next
        requires { NoneIsKept self.old.kept }
        ensures { Finds self.old result self.new }
    {
        if self.claimed < self.outlet.pushed() {
            self.claimed += 1;
            Next::Claim(Claim::new())
        } else if self.is_ended() {
            Next::Ended
        } else {
            Next::Nothing
        }
    }

    // A job that was kept, if there is one.
    fn take_kept(&mut self) -> Option<Job>
        ensures same { self.new ≡ record self.old { kept = self.new.kept } }
        ensures taken { TakesOut self.old.kept result self.new.kept }
    {
        self.kept.take()
    }

    // Takes the result of a job, commits what can be, publishes it at once, and dispatches what then may be.
    pub(crate) fn hand_in(&mut self, rt: &impl Wait, done: JobResult) -> Result<(), ReplicaFault>
        requires { IsResult done }
        ensures refused { IfSome (finish_fault self.old.core done.job.gno) (λ fault. (result ≡ Err fault) × (self.new ≡ self.old)) }
        ensures other { finish_fault self.old.core done.job.gno ≡ None → ¬ IsHandedOut self.old.core done
            → (result ≡ Err ReplicaFault.WrongInput) × (self.new ≡ self.old) }
        ensures taken { finish_fault self.old.core done.job.gno ≡ None → IsHandedOut self.old.core done
            → HandsIn self.old done.job done.outcome result self.new }
        ensures ok { OnOk result (IsCaughtUp self.new.core self.new.outlet) }
    {
        self.finish(done)?;
        self.settle(rt)
    }

    // The core's call. If memory ran out, the job is kept.
    fn finish(&mut self, done: JobResult) -> Result<(), ReplicaFault>
        requires { IsResult done }
        ensures refused { IfSome (finish_fault self.old.core done.job.gno) (λ fault. result ≡ Err fault) }
        ensures other { finish_fault self.old.core done.job.gno ≡ None → ¬ IsHandedOut self.old.core done
            → result ≡ Err ReplicaFault.WrongInput }
        ensures taken { finish_fault self.old.core done.job.gno ≡ None → IsHandedOut self.old.core done
            → result ≡ answered done.job.gno done.outcome }
        ensures ok { OnOk result (self.new ≡ left_by_finish self.old done.job.gno) }
        ensures err { IfErr result (λ fault. self.new ≡ refused_so self.old fault done.job) }
    {
        match self.core.finish(done) {
            Ok(()) => {
                self.behind = true;
                Ok(())
            }
            Err((fault, done)) => {
                self.take_back(fault, done);
                Err(fault)
            }
        }
    }

    // Keeps the job of a refused result if memory ran out.
    fn take_back(&mut self, fault: ReplicaFault, done: JobResult)
        requires { fault ≡ ReplicaFault.Memory → IsSound self.old.core × (has_gno self.old.core.out done.job.gno ≡ true) }
        ensures kept { self.new ≡ record self.old { kept = taken_back self.old.core fault done.job self.old.kept } }
        ensures none_lost { NoneLost self.old.core self.old.kept self.new.kept }
    {
        if fault == ReplicaFault::Memory {
            self.keep(done.into_job());
        }
    }

    // Keeps a job, instead of one with its number. Jobs whose result was taken go first: the others are fewer than the
    // places.
    fn keep(&mut self, job: Job)
        requires sound { IsSound self.old.core }
        requires out { has_gno self.old.core.out job.gno ≡ true }
        ensures kept { self.new ≡ record self.old { kept = laid self.old.core job self.old.kept } }
        ensures none_lost { NoneLost self.old.core self.old.kept self.new.kept }
    {
        self.kept.keep_out_beside(&self.core, job.gno);
        self.kept.lay(job);
    }
}
