//! `source`: a source over a log in files, which continues at the end of the log.

ghost use Rattle.std.specs.Prelude.{List, ℕ, IfOk};
ghost use Rattle.stored_log.specs.Begun.{IsFound};

use crate::conversing::{End, Plan, Source, converse};
use any_tracker::AnyTracker;
use durable_source::{DurableSource, OpenFault};
use log_file::LogFault;
use log_set::LogSet;
use log_tools::{Described, Head, MAX_RECORDS, Stop, described};
use std::alloc::Global;
use std::fs::File;
use std::io::{BufReader, IsTerminal, Read, Write};
use std::rt::Files;
use stored_log::{OnFile, StoreFault, open};

/// Opens the log and prints how many records it has. Then it replies to each line of the input at once. A bad line is
/// reported with its number, and the next line is read; then the result is `Stop::BadLines`. If a file of the log
/// fails, it ends, since nothing more is kept.
pub fn source<H: Files<File = File>, R: Read + IsTerminal, W: Write, E: Write>(
    rt: &H,
    alloc: Global,
    prefix: &str,
    plan: Plan,
    input: &mut R,
    output: &mut W,
    errors: &mut E,
) -> Result<(), Stop> {
    let mut source = opened(rt, alloc, prefix, plan)?;
    let ended = serve_lines(rt, alloc, prefix, plan, &mut source, input, output, errors);
    match ended {
        Ok(End::Halted) => Err(failed(source)),
        Ok(End::Read { is_good }) => {
            drop(source);
            if is_good { Ok(()) } else { Err(Stop::BadLines) }
        }
        Err(stop) => {
            drop(source);
            Err(stop)
        }
    }
}

/// Prints how many records there are, and replies to the lines.
fn serve_lines<H: Files<File = File>, R: Read + IsTerminal, W: Write, E: Write>(
    rt: &H,
    alloc: Global,
    prefix: &str,
    plan: Plan,
    source: &mut Source,
    input: &mut R,
    output: &mut W,
    errors: &mut E,
) -> Result<End, Stop> {
    writeln!(output, "open {}", source.count())?;
    output.flush()?;
    let terminal = input.is_terminal();
    let mut input = BufReader::new(alloc, input)?;
    converse(
        rt, alloc, prefix, plan, terminal, source, &mut input, output, errors,
    )
}

/// The source that continues from the log.
fn opened<H: Files<File = File>>(
    rt: &H,
    alloc: Global,
    prefix: &str,
    plan: Plan,
) -> Result<Source, Stop> {
    let Described { source, head } = described(rt, alloc, prefix)?;
    let store = match head.store(alloc) {
        Ok(store) => store,
        Err(fault) => return Err(Stop::SchemaFile(fault)),
    };
    let Head { schema, base } = head;
    drop(base);
    let log = log_of(rt, alloc, prefix)?;
    let tracker = AnyTracker::of(alloc, plan.tracking, plan.history)?;
    match DurableSource::go_on(alloc, schema, store, tracker, MAX_RECORDS, source, log) {
        Ok(source) => Ok(source),
        Err((fault, _)) => Err(refused(fault)),
    }
}

/// The log of this prefix. If its making was cut short, it is refused.
fn log_of<H: Files<File = File>>(
    rt: &H,
    alloc: Global,
    prefix: &str,
) -> Result<LogSet<OnFile>, Stop>
    ensures { IfOk result (λ log. (contents : List (List ℕ)) × IsFound contents log) }
{
    match open(rt, alloc, prefix)? {
        Some(log) => Ok(log),
        None => Err(StoreFault::of_content(1, LogFault::BadMagic).into()),
    }
}

/// Why a source does not continue from a log that was opened.
fn refused(fault: OpenFault) -> Stop {
    match fault {
        OpenFault::OldForm => Stop::OldForm,
        OpenFault::OtherSource => Stop::OtherSource,
        OpenFault::OfRecovery(fault) => fault.into(),
        OpenFault::OfLog(fault) => fault.into(),
    }
}

/// The file that failed, with what the system said. It is the last one: a next file that fails is reported at once.
fn failed(source: Source) -> Stop {
    let (past, last) = source.into_devices();
    StoreFault::of_log(past.len().saturating_add(1), LogFault::Device, &last).into()
}
