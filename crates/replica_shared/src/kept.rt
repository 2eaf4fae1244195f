//! The jobs for which memory ran out.
ghost use Rattle.std.specs.Prelude.{◌≡◌, ◌≤◌, ◌<◌, ◌++◌, ◌∷◌, [], length, IfOk};
ghost use Rattle.replica_shared.specs.Together.{out_beside, TakesOut};

use executor::Job;
use replica_core::ReplicaCore;
use schema::Memory;
use std::alloc::Global;
use std::marker::Model;
use store_trait::RowStore;

/// How many jobs can be out at once, and so how many can be kept.
const PLACES: usize = 64;

/// The jobs for which memory ran out, in the order in which they were kept. There is a place for each job that can be
/// out. Contracts see it as these jobs.
#[derive(Drop)]
pub(crate) struct KeptJobs {
    jobs: Vec<Job>,
}

impl Model for KeptJobs {
    ghost use Rattle.std.specs.Prelude.{◌≤◌, List, vec_capacity};
    ghost use Rattle.executor.specs.declared.Job.{Job};

    ghost Value = { List Job };

    ghost view = { λ k. k.jobs.items };

    ghost invariant = { λ k. 64 ≤ vec_capacity k.jobs };
}

impl KeptJobs {
    // No job is kept yet. It takes the memory of all places.
    pub(crate) fn new(alloc: Global) -> Result<KeptJobs, Memory>
        ensures { IfOk result (λ kept. kept ≡ []) }
    {
        Ok(KeptJobs {
            jobs: Vec::with_capacity(alloc, PLACES)?,
        })
    }

    // How many jobs are kept.
    pub(crate) fn len(&self) -> u64
        ensures { result ≡ length self.now }
    {
        self.jobs.len() as u64
    }

    // Keeps only those with another number whose result was not taken.
    pub(crate) fn keep_out_beside<S: RowStore>(&mut self, core: &ReplicaCore<S>, gno: u64)
        ensures { self.new ≡ out_beside core.now gno self.old }
    {
        self.jobs
            .retain(|job| core.is_out(job.gno) && job.gno != gno);
    }

    // Keeps a job, after the others. It takes no memory.
    pub(crate) fn lay(&mut self, job: Job)
        requires { length self.old < 64 }
        ensures { self.new ≡ self.old ++ job ∷ [] }
    {
        match self.jobs.push(job) {
            Ok(()) => {}
            Err(_) => unreachable!(),
        }
    }

    // Takes out the job that was kept first, if there is one. So a job for which memory runs out each time does not hold
    // up the others.
    pub(crate) fn take(&mut self) -> Option<Job>
        ensures { TakesOut self.old result self.new }
    {
        if self.jobs.is_empty() {
            None
        } else {
            Some(self.jobs.remove(0))
        }
    }
}
