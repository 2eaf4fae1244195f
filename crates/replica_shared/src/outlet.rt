//! The coordinator's end of the queue.
ghost use Rattle.std.specs.Prelude.{◌≡◌, ◌<◌, None, Some, IfOk, OnOk, OnErr};
ghost use Rattle.std.specs.Arc.{arc_value};
ghost use Rattle.replica_shared.specs.Outlet.{empty_outlet, pushed_aside};

use crate::queue::{Jobs, Pass};
use executor::Job;
use schema::Memory;
use std::alloc::Global;
use std::marker::Model;
use std::sync::{Arc, Wait};

/// The one pass that pushes, and the job whose push was refused. Contracts see it as the greatest gno that was pushed,
/// and that job.
#[derive(Drop)]
pub struct Outlet {
    jobs: Arc<Jobs>,
    pass: Pass,
    pushed: u64,
    aside: Option<Job>,
}

impl Model for Outlet {
    ghost use Rattle.std.specs.Arc.{arc_value};
    ghost use Rattle.replica_shared.specs.Queue.{IsPusherOf};
    ghost use Rattle.replica_shared.specs.Outlet.{Queued, IsAbove};

    ghost Value = { Queued };

    ghost view = { λ o. record { pushed = o.pushed; aside = o.aside } };

    ghost invariant = { λ o. IsPusherOf (arc_value o.jobs) o.pass o.pushed × IsAbove o.pushed o.aside };
}

impl Outlet {
    /// A new queue, for the workers that steal from it, and the end that pushes into it.
    pub(crate) fn new(alloc: Global) -> Result<(Arc<Jobs>, Outlet), Memory>
        ensures { IfOk result (λ made. made.1 ≡ empty_outlet) }
    {
        let (jobs, pass) = Jobs::new(alloc)?;
        let jobs = Arc::new(alloc, jobs)?;
        let theirs = Arc::try_clone(&jobs)?;
        let outlet = Outlet {
            jobs,
            pass,
            pushed: 0,
            aside: None,
        };
        Ok((theirs, outlet))
    }

    /// The greatest gno that was pushed, 0 if none was.
    pub(crate) fn pushed(&self) -> u64
        ensures { result ≡ self.now.pushed }
    {
        self.pushed
    }

    /// Takes the job that will be pushed next.
    pub(crate) fn put(&mut self, job: Job)
        requires empty { self.old.aside ≡ None }
        requires rises { self.old.pushed < job.gno }
        ensures { self.new ≡ record self.old { aside = Some job } }
    {
        self.aside = Some(job);
    }

    /// Pushes the job that waits, if there is one. If memory is refused, it waits on.
    pub(crate) fn push(&mut self, rt: &impl Wait) -> Result<(), Memory>
        ensures ok { OnOk result (self.new ≡ pushed_aside self.old) }
        ensures err { OnErr result (self.new ≡ self.old) }
    {
        let Some(job) = self.aside.take() else {
            return Ok(());
        };
        let gno = job.gno;
        match self.jobs.push(rt, &mut self.pass, job) {
            Ok(()) => {
                self.pushed = gno;
                Ok(())
            }
            Err(job) => {
                self.aside = Some(job);
                Err(Memory)
            }
        }
    }
}
