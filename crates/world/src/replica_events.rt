//! What the events of the replica need: the jobs that wait, and the operations that are appended.

ghost use Rattle.std.specs.Prelude.{◌≡◌, ◌⊎◌, ◌≤◌, ◌<◌, ◌==◌, false, [], ◌∷◌, ◌++◌, length, drop, vec_len, vec_capacity, IsOk, OnOk};
ghost use Rattle.std.specs.Prelude.{OnErr, IfOk, IsErrOf, IfSome, IfNone};
ghost use Rattle.std.specs.List.{position, insert};
ghost use Rattle.executor.specs.declared.Job.{Job as AJob};
ghost use Rattle.scheduler.specs.Gnos.{has_gno};
ghost use Rattle.replica_core.specs.Calls.{received as answered, left_by_receive};
ghost use Rattle.replica_core.specs.Sound.{IsSound};
ghost use Rattle.world.specs.Appended.{Appends, AppendsAll, MayAppendAll};
ghost use Rattle.world.specs.Waiting.{TakesOut, numbers_of};

use executor::Job;
use published::plain::Plain;
use record_codec::Record;
use relay::{Received, ReplicaFault};
use replica_core::ReplicaCore;
use schema::Memory;
use store_trait::{Op, RowStore};
use uuid::Uuid;

/// What holds for every replica.
pub(crate) fn sound_replica<S: RowStore>(replica: &ReplicaCore<S>)
    ensures { IsSound replica.now }
{
    let _published = replica.published();
}

/// Gives the record to the replica, without a copy. A refused record is dropped, since the log has it.
pub(crate) fn give<S: RowStore>(
    replica: &mut ReplicaCore<S>,
    from: Uuid,
    new: Record,
) -> Result<Received, ReplicaFault>
    ensures answer { IsErrOf result ReplicaFault.Memory ⊎ (result ≡ answered replica.old from new) }
    ensures sound { IsSound replica.old }
    ensures ok { IfOk result (λ answer. replica.new ≡ left_by_receive replica.old new answer) }
    ensures err { OnErr result (replica.new ≡ replica.old) }
{
    match replica.receive_own(from, new) {
        Ok(answer) => Ok(answer),
        Err((fault, _new)) => Err(fault),
    }
}

/// Room for one more job.
pub(crate) fn room_for_job(jobs: &mut Vec<Job>) -> Result<(), Memory>
    ensures items { jobs.new.items ≡ jobs.old.items }
    ensures room { OnOk result (vec_len jobs.new < vec_capacity jobs.new) }
{
    Ok(jobs.reserve(1)?)
}

/// Keeps a job for which there is room.
pub(crate) fn keep_job(jobs: &mut Vec<Job>, job: Job)
    requires { vec_len jobs.old < vec_capacity jobs.old }
    ensures { jobs.new.items ≡ jobs.old.items ++ job ∷ [] }
{
    jobs.push(job).unwrap();
}

/// Takes out the job of this record, if one waits, and returns it with its place. The time is that of a look at each
/// job that waits.
pub(crate) fn take_job(jobs: &mut Vec<Job>, gno: u64) -> Option<(usize, Job)>
    ensures some { IfSome result (λ taken. TakesOut gno jobs.old.items taken.0 taken.1 jobs.new.items) }
    ensures room { IfSome result (λ _. vec_len jobs.new < vec_capacity jobs.new) }
    ensures none { IfNone result ((jobs.new.items ≡ jobs.old.items) × (has_gno (numbers_of jobs.old.items) gno ≡ false)) }
{
    let place = place_of(jobs, gno)?;
    Some((place, jobs.remove(place)))
}

/// The place of the first job of this record.
fn place_of(jobs: &[Job], gno: u64) -> Option<usize>
    ensures { result ≡ position (λ (job : AJob). job.gno == gno) jobs.now }
{
    jobs.iter().position(|job| job.gno == gno)
}

/// Puts the job back in its place, for which there is room.
pub(crate) fn put_job(jobs: &mut Vec<Job>, place: usize, job: Job)
    requires within { place ≤ vec_len jobs.old }
    requires room { vec_len jobs.old < vec_capacity jobs.old }
    ensures { jobs.new.items ≡ insert jobs.old.items place job }
{
    jobs.insert(place, job).unwrap();
}

/// The operations after the first `done` ones.
pub(crate) fn rest_of(ops: &[Op], done: u64) -> &[Op]
    requires { done ≤ length ops.now }
    ensures { result.now ≡ drop done ops.now }
{
    &ops[done as usize..]
}

/// Appends operations in order, up to the first that is refused.
pub(crate) fn append_each<R: RowStore>(shown: &mut Plain<R>, ops: &[Op]) -> Result<(), Memory>
    requires { MayAppendAll shown.old.preserve shown.old ops.now }
    ensures some { Appends shown.old shown.new ops.now }
    ensures all { OnOk result (AppendsAll shown.old shown.new ops.now) }
    ensures idle { ops.now ≡ [] → IsOk result }
{
    for op in ops {
        shown.append(op)?;
    }
    Ok(())
}
