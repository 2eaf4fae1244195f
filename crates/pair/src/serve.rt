//! The program's work, over a reader and two writers.

use crate::command_line::{LineFault, Work, asked, words_behind};
use crate::feeding::feed;
use crate::help::NOT_UTF8;
use crate::sourcing::source;
use log_tools::{Ending, Stop, StopAt, check, decode, diff, make, rows};
use replica_answers::replica;
use std::alloc::Global;
use std::env::Args;
use std::fs::File;
use std::io;
use std::io::{BufWriter, ErrorKind, IsTerminal, Read, Write};
use std::rt::Files;
use std::sync::Wait;
use std::thread::Threads;
use std::time::Clock;
use uuid::Uuid;

/// Does what the words of a command line ask for, and returns the exit status. The first word is the program's name. A
/// new log gets the identifier `new`. Help and the version go to the output, and faults to `errors`, each as one line.
pub fn run_program<
    H: Files<File = File> + Alloc<A = Global> + Threads + Wait + Clock + Clone + Drop + Sync,
    R: Read + IsTerminal + Send,
    W: Write + Send,
    E: Write + Send,
>(
    rt: &H,
    alloc: Global,
    words: io::Result<Args>,
    new: io::Result<Uuid>,
    input: &mut R,
    output: &mut W,
    errors: &mut E,
) -> u8 {
    let ending = match words {
        Ok(words) => match words_behind(alloc, words) {
            Ok(words) => run_words(rt, alloc, &words, new, input, output, errors),
            Err(memory) => Stop::from(memory).at("").tell(errors),
        },
        Err(error) => match error.kind() {
            ErrorKind::OutOfMemory => Stop::Memory.at("").tell(errors),
            _ => print(NOT_UTF8, errors, Ending::CommandLine),
        },
    };
    ending.status()
}

/// Does what the words after the program's name ask for.
fn run_words<
    H: Files<File = File> + Alloc<A = Global> + Threads + Wait + Clock + Clone + Drop + Sync,
    R: Read + IsTerminal + Send,
    W: Write + Send,
    E: Write + Send,
>(
    rt: &H,
    alloc: Global,
    words: &[String],
    new: io::Result<Uuid>,
    input: &mut R,
    output: &mut W,
    errors: &mut E,
) -> Ending {
    let texts: Vec<&str> = match words.iter().map(|word| word.as_str()).collect(alloc) {
        Ok(texts) => texts,
        Err(memory) => return Stop::from(memory).at("").tell(errors),
    };
    match asked(alloc, &texts) {
        Ok(work) => serve_through(rt, alloc, &work, new, input, output, errors),
        Err(LineFault::Asked(text)) => print(&text, output, Ending::Done),
        Err(LineFault::Line(text)) => print(&text, errors, Ending::CommandLine),
        Err(LineFault::Memory) => Stop::Memory.at("").tell(errors),
    }
}

/// Does this work, and writes what it prints in pieces.
fn serve_through<
    H: Files<File = File> + Alloc<A = Global> + Threads + Wait + Clock + Clone + Drop + Sync,
    R: Read + IsTerminal + Send,
    W: Write + Send,
    E: Write + Send,
>(
    rt: &H,
    alloc: Global,
    work: &Work,
    new: io::Result<Uuid>,
    input: &mut R,
    output: &mut W,
    errors: &mut E,
) -> Ending {
    let mut out = match BufWriter::new(alloc, output) {
        Ok(out) => out,
        Err(error) => return Stop::from(error).at("").tell(errors),
    };
    let done = serve(rt, alloc, work, new, input, &mut out, errors);
    if out.flush().is_err() {
        return Ending::Stream;
    }
    match done {
        Ok(ending) => ending,
        Err(stop) => stop.tell(errors),
    }
}

/// Does this work.
fn serve<
    'a,
    H: Files<File = File> + Alloc<A = Global> + Threads + Wait + Clock + Clone + Drop + Sync,
    R: Read + IsTerminal + Send,
    W: Write + Send,
    E: Write + Send,
>(
    rt: &H,
    alloc: Global,
    work: &Work<'a>,
    new: io::Result<Uuid>,
    input: &mut R,
    output: &mut W,
    errors: &mut E,
) -> Result<Ending, StopAt<'a>> {
    let done = match work {
        Work::Replica { wire, crew } => return Ok(replica(
            rt, alloc, wire, crew, new, input, output, errors,
        )),
        Work::Make { prefix, source } => make(rt, alloc, prefix, *source, new, input, output),
        Work::Source { prefix, plan } => source(
            rt, alloc, prefix, *plan, input, output, errors,
        ).map_err(|stop| stop.at(prefix)),
        Work::Feed { prefix, span } => feed(rt, alloc, prefix, *span, output).map_err(
            |stop| stop.at(prefix),
        ),
        Work::Check { prefix } => check(rt, alloc, prefix, output).map_err(|stop| stop.at(prefix)),
        Work::Decode { files } => decode(rt, alloc, files, output),
        Work::Rows { prefix, upto } => rows(rt, alloc, prefix, *upto, output).map_err(
            |stop| stop.at(prefix),
        ),
        Work::Diff { one, other, upto } => diff(rt, alloc, one, other, *upto, output),
    };
    match done {
        Ok(()) => Ok(Ending::Done),
        Err(stop) => Err(stop),
    }
}

/// Writes a text.
fn print<W: Write>(text: &str, out: &mut W, ending: Ending) -> Ending {
    match write_text(text, out) {
        Ok(()) => ending,
        Err(_) => Ending::Stream,
    }
}

fn write_text<W: Write>(text: &str, out: &mut W) -> io::Result<()> {
    out.write_all(text.as_bytes())?;
    out.flush()
}
