//! The program's work, over any reader and two writers. Only `threads` uses the handle `rt`.

ghost use Rattle.std.specs.Prelude.{◌≡◌, ◌≢◌, ◌≤◌, ◌⊎◌, ◌∷◌, [], ◌++◌, IfOk, IfErr, IfSome, OnOk};
ghost use Rattle.std.specs.Io.KnownBytes.{Appends, Keeps};
ghost use Rattle.mtr.specs.Ending.{ending_of, stop_text, notice, PrintsNoReply};
ghost use Rattle.mtr.specs.Options.{IsInRange, AreSides, kind_for};
ghost use Rattle.mtr.specs.Pair.{PrintsText};

use crate::any_store::AnyStore;
use crate::command_line::asked;
use crate::decode::decode;
use crate::ending::{Ending, Stop};
use crate::help::NOT_UTF8;
use crate::options::{LineFault, Options, Plan, Sides};
use crate::pair::devices_in_memory;
use crate::run::run_text;
use crate::threads::run_threads;
use any_tracker::AnyTracker;
use std::alloc::Global;
use std::env::Args;
use std::io;
use std::io::{ErrorKind, IsTerminal, Read, Write};
use std::sync::Wait;
use std::thread::Threads;

/// The line that is shown at a terminal.
const NOTICE: &str = "mtr run reads a script from standard input\n";

/// Does what the words of a command line ask for, and returns the exit status. The first word is the program's name.
/// Help and the version go to the output, and faults of the command line to `errors`.
pub fn run_program<H: Threads + Wait + Sync, R: Read + IsTerminal, W: Write, E: Write>(
    rt: &H,
    alloc: Global,
    words: io::Result<Args>,
    input: &mut R,
    output: &mut W,
    errors: &mut E,
) -> u8 {
    let ending = match words {
        Ok(words) => match asked(alloc, words) {
            Ok(options) => serve(rt, alloc, &options, input, output, errors),
            Err(LineFault::Asked(text)) => show(&text, output, Ending::Done),
            Err(LineFault::Line(text)) => show(&text, errors, Ending::CommandLine),
            Err(LineFault::Memory) => Stop::Memory.tell(errors),
        },
        Err(error) => match error.kind() {
            ErrorKind::OutOfMemory => Stop::Memory.tell(errors),
            _ => show(NOT_UTF8, errors, Ending::CommandLine),
        },
    };
    ending.status()
}

/// Writes a text.
fn show<W: Write>(text: &str, out: &mut W, ending: Ending) -> Ending
    ensures ending { result ≢ Ending.Stream → result ≡ ending }
    ensures text { result ≢ Ending.Stream → Appends (W.contents out.old) (W.contents out.new) text.now }
{
    match write_text(text, out) {
        Ok(()) => ending,
        Err(_) => Ending::Stream,
    }
}

fn write_text<W: Write>(text: &str, out: &mut W) -> io::Result<()>
    ensures { OnOk result (Appends (W.contents out.old) (W.contents out.new) text.now) }
{
    out.write_all(text.as_bytes())?;
    out.flush()
}

/// Does what the options ask for. A fault is one line on `errors`, except that a stream that fails has no line. After a
/// fault nothing is on the output, unless memory ran out or a stream failed when part of it was printed.
fn serve<H: Threads + Wait + Sync, R: Read + IsTerminal, W: Write, E: Write>(
    rt: &H,
    alloc: Global,
    options: &Options,
    input: &mut R,
    output: &mut W,
    errors: &mut E,
) -> Ending
    requires { IsInRange options.now }
{
    match options {
        Options::Run { sides, fail } => {
            if announce(input, errors).is_err() {
                return Ending::Stream;
            }
            tell(
                run_in_memory(alloc, *sides, *fail as u64, input, output),
                errors,
            )
        }
        Options::Threads(plan) => threads(rt, alloc, plan, output, errors),
        Options::Decode => tell(decode(alloc, input, output), errors),
    }
}

/// Runs a script over a new pair with its log in memory. Of the device of the log's first file, the call of this number
/// fails, or none if it is 0.
fn run_in_memory<R: Read, W: Write>(
    alloc: Global,
    sides: Sides,
    fail: u64,
    input: &mut R,
    output: &mut W,
) -> Result<(), Stop>
    requires { AreSides sides }
    ensures prints { OnOk result (IfSome (R.remaining input.old)
        (λ text. PrintsText (kind_for sides) sides.workers sides.preserve text (W.contents output.old) (W.contents output.new))) }
    ensures refused { IfErr result (PrintsNoReply (W.contents output.old) (W.contents output.new)) }
{
    run_text(alloc, sides, devices_in_memory(alloc, fail)?, input, output)
}

/// At a terminal, says that the script is read from there. For a pipe or a file it says nothing.
fn announce<R: IsTerminal, E: Write>(input: &R, errors: &mut E) -> io::Result<()>
    ensures { OnOk result (Keeps (E.contents errors.old) (E.contents errors.new)
        ⊎ Appends (E.contents errors.old) (E.contents errors.new) notice) }
{
    if input.is_terminal() {
        write_text(NOTICE, errors)
    } else {
        Ok(())
    }
}

/// Runs both sides in many threads, if there is memory for the tracker.
fn threads<H: Threads + Wait + Sync, W: Write, E: Write>(
    rt: &H,
    alloc: Global,
    plan: &Plan,
    output: &mut W,
    errors: &mut E,
) -> Ending
    requires { IsInRange (Options.Threads plan.now) }
{
    match AnyTracker::of(alloc, plan.sides.tracker, plan.sides.history as u32) {
        Ok(tracker) => tell_ending(
            run_threads::<AnyStore, AnyTracker, H, W>(rt, alloc, tracker, plan, output),
            errors,
        ),
        Err(memory) => Stop::from(memory).tell(errors),
    }
}

/// How the work over both sides ended. If it stopped, this prints why.
fn tell_ending<S: Drop, E: Write>(came: Result<(Ending, S), Stop>, errors: &mut E) -> Ending
    ensures ended { IfOk came (λ came. result ≡ came.0) }
    ensures stopped { IfErr came (λ stop. result ≢ Ending.Stream → result ≡ ending_of stop) }
    ensures told { IfErr came (λ stop. result ≢ Ending.Stream
        → Appends (E.contents errors.old) (E.contents errors.new) (stop_text stop ++ 10 ∷ [])) }
{
    match came {
        Ok((ending, _)) => ending,
        Err(stop) => stop.tell(errors),
    }
}

/// How the work ended. If it stopped, this prints why.
fn tell<E: Write>(done: Result<(), Stop>, errors: &mut E) -> Ending
    ensures done { OnOk done (result ≡ Ending.Done) }
    ensures stopped { IfErr done (λ stop. result ≢ Ending.Stream → result ≡ ending_of stop) }
    ensures told { IfErr done (λ stop. result ≢ Ending.Stream
        → Appends (E.contents errors.old) (E.contents errors.new) (stop_text stop ++ 10 ∷ [])) }
{
    match done {
        Ok(()) => Ending::Done,
        Err(stop) => stop.tell(errors),
    }
}
