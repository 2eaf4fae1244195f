//! The queue through which jobs get to the workers. These take them without the lock.
//!
//! One pass pushes, and any pass may steal. The rule: the gnos in the queue rise, and are above every gno that any pass
//! stole. No gno of either kind is above the greatest that was pushed. So no job is pushed twice or given out twice,
//! whatever the threads do. The rule says nothing of a job's contents: the core compares these with the record, the
//! schema and its own copy of the rows.
ghost use Rattle.std.specs.Prelude.{◌≡◌, ◌<◌, IfOk, IfErr, IfSome, OnOk, OnErr, IfNone};
ghost use Rattle.replica_shared.specs.Queue.{IsPassOf, hand_of, empty_hand, with_pushed, with_stolen, AllBelow};

use crate::hand::Hand;
use crossbeam_deque::protocol::{Outcome, Protocol};
use crossbeam_deque::{Injector, InjectorPass, Steal};
use executor::Job;
use schema::Memory;
use std::alloc::Global;
use std::marker::PhantomData;
use std::sync::Wait;

/// The rule.
pub struct InLogOrder;

impl Protocol<Job, Hand> for InLogOrder {
    ghost use Rattle.replica_shared.specs.Queue.{LieInOrder, empty_hand};

    ghost holds = { LieInOrder };

    ghost first = { empty_hand };

    ghost guest = { empty_hand };
}

/// A job was pushed.
struct Pushed;

impl Outcome<Job, Hand> for Pushed {
    ghost use Rattle.replica_shared.specs.Queue.{Pushes};

    ghost then = { Pushes };
}

/// A job was stolen.
struct Stolen;

impl Outcome<Job, Hand> for Stolen {
    ghost use Rattle.replica_shared.specs.Queue.{Steals};

    ghost then = { Steals };
}

/// What one caller knows of a queue of jobs: what it pushed and stole. It has no bytes.
pub type Pass = InjectorPass<Job, Hand>;

/// A try to steal met another thread, and has to be made again.
#[derive(Clone, Copy, Debug, PartialEq, Eq)]
pub struct Again;

/// A worker's claim to one of the jobs in a queue. It is not `Drop`: it ends only when a job is stolen for it.
pub struct Claim {
    of: PhantomData<Job>,
}

impl Claim {
    pub(crate) fn new() -> Claim {
        Claim { of: PhantomData }
    }
}

/// The jobs that were dispatched and that no worker took yet, in log order.
#[derive(Drop)]
pub struct Jobs {
    queue: Injector<Job, Global, Hand, InLogOrder>,
}

impl Jobs {
    /// An empty queue, and the one pass that may push.
    pub fn new(alloc: Global) -> Result<(Jobs, Pass), Memory>
        ensures { IfOk result (λ made. IsPassOf made.0 made.1 × (made.1.id ≡ 0) × (hand_of made.1 ≡ empty_hand)) }
    {
        let (queue, pass) = Injector::new_as(alloc)?;
        Ok((Jobs { queue }, pass))
    }

    /// A pass for a caller that steals. It takes no memory.
    pub fn pass(&self) -> Pass
        ensures { IsPassOf self.now result × (hand_of result ≡ empty_hand) }
    {
        self.queue.pass()
    }

    /// Puts a job after the others. Its gno is above every gno that was pushed before. If there is no memory for the job,
    /// it comes back. The time does not grow with the queue. One job in 31 takes memory.
    pub fn push(&self, rt: &impl Wait, pass: &mut Pass, job: Job) -> Result<(), Job>
        requires queue { IsPassOf self.now pass.old }
        requires pushes { pass.old.id ≡ 0 }
        requires rises { (hand_of pass.old).pushed < job.gno }
        ensures same { IsPassOf self.now pass.new × (pass.new.id ≡ pass.old.id) }
        ensures ok { OnOk result (hand_of pass.new ≡ with_pushed (hand_of pass.old) job.gno) }
        ensures err { IfErr result (λ back. (back ≡ job) × (hand_of pass.new ≡ hand_of pass.old)) }
    {
        self.queue.push_as::<Pushed, _>(rt, pass, job)
    }

    /// Takes the first job, which no pass stole before. `None` if there is none, or if another pass takes one meanwhile;
    /// `try_steal` distinguishes these.
    pub fn steal(&self, rt: &impl Wait, pass: &mut Pass) -> Option<Job>
        requires queue { IsPassOf self.now pass.old }
        ensures same { IsPassOf self.now pass.new × (pass.new.id ≡ pass.old.id) }
        ensures job { IfSome result (λ job. hand_of pass.new ≡ with_stolen (hand_of pass.old) job.gno) }
        ensures new { IfSome result (λ job. AllBelow job.gno (hand_of pass.old).stolen) }
        ensures none { IfNone result (hand_of pass.new ≡ hand_of pass.old) }
    {
        match self.try_steal(rt, pass) {
            Ok(found) => found,
            Err(Again) => None,
        }
    }

    /// Tries once to take the first job, which no pass stole before. `None` if the queue was empty at one moment of the
    /// call. `Again` if another pass took the first job meanwhile, or goes on to the queue's next block of 31 jobs, for
    /// which the others wait. Then nothing is known.
    pub fn try_steal(&self, rt: &impl Wait, pass: &mut Pass) -> Result<Option<Job>, Again>
        requires queue { IsPassOf self.now pass.old }
        ensures same { IsPassOf self.now pass.new × (pass.new.id ≡ pass.old.id) }
        ensures job { IfOk result (λ found. IfSome found (λ job. hand_of pass.new ≡ with_stolen (hand_of pass.old) job.gno)) }
        ensures new { IfOk result (λ found. IfSome found (λ job. AllBelow job.gno (hand_of pass.old).stolen)) }
        ensures none { IfOk result (λ found. IfNone found (hand_of pass.new ≡ hand_of pass.old)) }
        ensures again { OnErr result (hand_of pass.new ≡ hand_of pass.old) }
    {
        match self.queue.steal_as::<Stolen, _>(rt, pass) {
            Steal::Success(job) => Ok(Some(job)),
            Steal::Empty => Ok(None),
            Steal::Retry => Err(Again),
        }
    }

    /// Tries once to take the first job for a claim. If it finds none, or meets another thread, the claim comes back.
    pub(crate) fn try_claimed(
        &self,
        rt: &impl Wait,
        pass: &mut Pass,
        claim: Claim,
    ) -> Result<Job, Claim>
        requires { IsPassOf self.now pass.old }
        ensures { IsPassOf self.now pass.new }
    {
        match self.try_steal(rt, pass) {
            Ok(Some(job)) => {
                let Claim { of: _ } = claim;
                Ok(job)
            }
            Ok(None) | Err(Again) => Err(claim),
        }
    }
}
