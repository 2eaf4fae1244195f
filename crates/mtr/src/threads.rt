//! A source and a replica in many threads.
//!
//! Each session, worker and reader has a separate thread. So has the wire, which sends the source's log to the replica
//! as bytes in pieces.
//!
//! - `lifecycle` opens both sides and ends them.
//! - `shared` has both sides in between, with the plan, as `Shared`. Its methods are all work over them: what the
//!   workers and readers do, and the comparison of each row once all threads have ended.
//! - `feeding` has the work of the sessions and of the wire.
//! - `changes` has what a session writes and what its rows are in the end.
//! - `reading` keeps what a reader saw, and `ended` compares both sides at the end.
//!
//! No thread waits for one that may never come. The wire learns that the sessions have ended, however they did, and the
//! workers that the wire has. If no thread can be made, the work is done one after another, in that order.
//!
//! The replica commits in the order of the log, or with `--commit-order off` as jobs finish. Then a reader may see a
//! commit before it sees an earlier one of the log. Once all commits are published, both orders show the same.

mod changes;
mod ended;
mod feeding;
mod lifecycle;
mod reading;
mod shared;
mod trouble;

ghost use Rattle.std.specs.Prelude.{◌≡◌, ◌++◌, ◌∷◌, [], IfOk, IfSome, OnOk};
ghost use Rattle.std.specs.Io.KnownBytes.{Appends};
ghost use Rattle.mtr.specs.Options.{IsInRange};
ghost use Rattle.any_tracker.specs.Any.{IsNewTracker};
ghost use Rattle.mtr.specs.Threads.{IsEnded, IsVerdictOf, PrintsVerdict, verdict_text, ending_for};

use crate::ending::{Ending, Stop};
use crate::options::{Options, Plan};
use crate::pair::NewStore;
use ended::Ended;
use lifecycle::open_and_run;
use std::alloc::Global;
use std::io;
use std::io::Write;
use std::sync::Wait;
use std::thread::Threads;
use store_trait::RowStore;
use tracker_trait::Tracker;
use trouble::Trouble;

/// How both sides compare at the end.
#[derive(Clone, Copy)]
pub enum Verdict {
    /// They agree. The numbers are the greatest gno of the receipts, and the commits that the replica has published.
    Equal { log: u64, published: u64 },
    /// Something differs from what the sessions wrote, or a call was refused for another cause than out of memory.
    Different,
}

/// Runs both sides as the plan says, over stores of this type, and prints the verdict. Returns how the program ends,
/// with both sides. For t transactions in all the time is t log t, and more for a store whose batches cost more.
pub fn run_threads<
    S: NewStore,
    T: Tracker + Drop + Send + Sync,
    H: Threads + Wait + Sync,
    W: Write,
>(
    rt: &H,
    alloc: Global,
    tracker: T,
    plan: &Plan,
    output: &mut W,
) -> Result<(Ending, Option<Ended<S, T>>), Stop>
    requires tracker { IsNewTracker T.agrees tracker }
    requires plan { IsInRange (Options.Threads plan.now) }
    ensures { IfOk result (λ came. PrintsVerdict plan.now came.0 came.1 (W.contents output.old) (W.contents output.new)) }
{
    let ended = match open_and_run::<S, T, H>(rt, alloc, tracker, plan) {
        Ok(ended) => Some(ended),
        Err(Trouble::Different) => None,
        Err(Trouble::Memory) => return Err(Stop::Memory),
    };
    let verdict = verdict_of(plan, &ended);
    write_verdict(output, verdict)?;
    output.flush()?;
    Ok((verdict.ending(), ended))
}

/// The verdict on two sides. They are different if a call was refused before they ended.
fn verdict_of<S: RowStore, T: Tracker>(plan: &Plan, ended: &Option<Ended<S, T>>) -> Verdict
    requires plan { IsInRange (Options.Threads plan.now) }
    requires ended { IfSome ended.now (IsEnded plan.now) }
    ensures { IsVerdictOf result plan.now ended.now }
{
    match ended {
        Some(ended) => ended.verdict(plan),
        None => Verdict::Different,
    }
}

impl Verdict {
    /// How the program ends with this verdict.
    fn ending(self) -> Ending
        ensures { result ≡ ending_for self }
    {
        match self {
            Verdict::Equal { .. } => Ending::Done,
            Verdict::Different => Ending::Different,
        }
    }
}

/// Writes the verdict as a line.
fn write_verdict<W: Write>(out: &mut W, verdict: Verdict) -> io::Result<()>
    ensures { OnOk result (Appends (W.contents out.old) (W.contents out.new) (verdict_text verdict ++ 10 ∷ [])) }
{
    match verdict {
        Verdict::Equal { log, published } => writeln!(out, "log {log} published {published} equal"),
        Verdict::Different => writeln!(out, "different"),
    }
}
