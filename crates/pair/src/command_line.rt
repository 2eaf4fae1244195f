//! The command line.

use crate::commands::command;
use crate::conversing::Plan;
use crate::feeding::Span;
use any_tracker::mode_named;
use clap::ArgMatches;
use clap::error::ErrorKind;
use replica_answers::Crew;
use std::alloc::{AllocError, Global};
use std::env::Args;
use thiserror::Error;
use uuid::Uuid;

/// What the words after the program's name ask for.
#[derive(Debug, Drop)]
pub enum Work<'a> {
    /// `make`: a new log, with this identifier or a random one.
    Make {
        prefix: &'a str,
        source: Option<Uuid>,
    },
    /// `source`: a source over the log.
    Source {
        prefix: &'a str,
        plan: Plan,
    },
    /// `feed`: the log as bytes for another process.
    Feed {
        prefix: &'a str,
        span: Span,
    },
    /// `replica`: a replica that follows the wire at this path.
    Replica {
        wire: &'a str,
        crew: Crew,
    },
    /// `check`: whether a source would continue from the log.
    Check {
        prefix: &'a str,
    },
    /// `decode`: the records of these files.
    Decode {
        files: Vec<&'a str>,
    },
    /// `rows`: the rows after the first `upto` records, or after all.
    Rows {
        prefix: &'a str,
        upto: Option<usize>,
    },
    /// `diff`: how two logs differ in their first `upto` records, or in the first records that both have, and in the
    /// rows after these.
    Diff {
        one: &'a str,
        other: &'a str,
        upto: Option<usize>,
    },
}

/// Why the words do not ask for any work.
#[derive(Debug, Drop, Error)]
pub enum LineFault {
    /// The words are not a command line of the program. This is the text for the user, which ends with LF.
    #[error("{0}")]
    Line(String),
    /// The words ask for help or for the version. This is the text, which ends with LF.
    #[error("{0}")]
    Asked(String),
    /// Memory ran out.
    #[error("no memory")]
    Memory,
}

impl From<AllocError> for LineFault {
    fn from(_error: AllocError) -> LineFault {
        LineFault::Memory
    }
}

/// The words after the program's name.
pub fn words_behind(alloc: Global, words: Args) -> Result<Vec<String>, AllocError> {
    words.skip(1).collect(alloc)
}

/// What the words after the program's name ask for.
pub fn asked<'a>(alloc: Global, words: &'a [&'a str]) -> Result<Work<'a>, LineFault> {
    let matches = match command(alloc)?.try_get_matches_from(words) {
        Ok(matches) => matches,
        Err(error) => return Err(fault_of(alloc, &error)),
    };
    match asked_in(alloc, &matches)? {
        Some(asked) => Ok(asked),
        None => Err(LineFault::Line(String::from_str(alloc, "error: no subcommand\n")?)),
    }
}

/// What the given subcommand asks for.
fn asked_in<'a>(alloc: Global, matches: &ArgMatches<'a>) -> Result<Option<Work<'a>>, LineFault> {
    let Some((name, found)) = matches.subcommand() else {
        return Ok(None);
    };
    match name {
        "decode" => decode_work(alloc, found),
        "make" => make_work(alloc, found),
        "replica" => replica_work(alloc, found),
        _ => Ok(plain_work(name, found)),
    }
}

fn decode_work<'a>(alloc: Global, found: &ArgMatches<'a>) -> Result<Option<Work<'a>>, LineFault> {
    match found.get_strs("file") {
        Some(files) => Ok(Some(Work::Decode {
            files: Vec::from_slice(alloc, files)?,
        })),
        None => Ok(None),
    }
}

fn make_work<'a>(alloc: Global, found: &ArgMatches<'a>) -> Result<Option<Work<'a>>, LineFault> {
    let Some(prefix) = found.get_str("prefix") else {
        return Ok(None);
    };
    let source = source_of(alloc, found)?;
    Ok(Some(Work::Make { prefix, source }))
}

fn replica_work<'a>(alloc: Global, found: &ArgMatches<'a>) -> Result<Option<Work<'a>>, LineFault> {
    let (Some(wire), Some(workers)) = (found.get_str("wire"), found.get_one("workers")) else {
        return Ok(None);
    };
    let source = source_of(alloc, found)?;
    let crew = Crew { workers, source };
    Ok(Some(Work::Replica { wire, crew }))
}

/// The identifier that `--source` gives, if the option is there.
fn source_of(alloc: Global, found: &ArgMatches) -> Result<Option<Uuid>, LineFault> {
    match found.get_str("source") {
        Some(word) => Ok(Some(identifier_of(alloc, word)?)),
        None => Ok(None),
    }
}

/// The identifier that the word gives.
fn identifier_of(alloc: Global, word: &str) -> Result<Uuid, LineFault> {
    match Uuid::try_parse(word) {
        Ok(source) => Ok(source),
        Err(_) => Err(LineFault::Line(format!(in alloc;
            "error: invalid value '{word}' for '--source <ID>'\n\nFor more information, try '--help'.\n"
        )?)),
    }
}

/// What the other subcommands ask for.
fn plain_work<'a>(name: &str, found: &ArgMatches<'a>) -> Option<Work<'a>> {
    match name {
        "source" => source_work(found),
        "feed" => feed_work(found),
        "check" => check_work(found),
        "rows" => rows_work(found),
        "diff" => diff_work(found),
        _ => None,
    }
}

fn source_work<'a>(found: &ArgMatches<'a>) -> Option<Work<'a>> {
    let prefix = found.get_str("prefix")?;
    let plan = plan_of(found)?;
    Some(Work::Source { prefix, plan })
}

fn feed_work<'a>(found: &ArgMatches<'a>) -> Option<Work<'a>> {
    let prefix = found.get_str("prefix")?;
    let from = found.get_one("from")?;
    let once = found.get_flag("once");
    Some(Work::Feed {
        prefix,
        span: Span { from, once },
    })
}

fn check_work<'a>(found: &ArgMatches<'a>) -> Option<Work<'a>> {
    let prefix = found.get_str("prefix")?;
    Some(Work::Check { prefix })
}

fn rows_work<'a>(found: &ArgMatches<'a>) -> Option<Work<'a>> {
    let prefix = found.get_str("prefix")?;
    let upto = found.get_one("upto");
    Some(Work::Rows { prefix, upto })
}

fn diff_work<'a>(found: &ArgMatches<'a>) -> Option<Work<'a>> {
    let one = found.get_str("one")?;
    let other = found.get_str("other")?;
    let upto = found.get_one("upto");
    Some(Work::Diff { one, other, upto })
}

/// How a source works.
fn plan_of(found: &ArgMatches) -> Option<Plan> {
    let tracking = mode_named(found.get_str("tracker")?)?;
    let history = found.get_one("history")?;
    let max_file = found.get_one("max-file")?;
    Some(Plan {
        tracking,
        history,
        max_file,
    })
}

/// The fault that `clap` reports.
fn fault_of(alloc: Global, error: &clap::Error) -> LineFault {
    if error.kind() == ErrorKind::OutOfMemory {
        return LineFault::Memory;
    }
    match format!(in alloc; "{error}") {
        Ok(text) if error.use_stderr() => LineFault::Line(text),
        Ok(text) => LineFault::Asked(text),
        Err(memory) => memory.into(),
    }
}
