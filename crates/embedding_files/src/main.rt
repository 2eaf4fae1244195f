//! An example of a program that embeds the pair and keeps its log in files, which outlive the source. Its words are
//! `embedding_files PREFIX SESSIONS COUNT`.
//!
//! Three sources live one after another over the log PREFIX.1, PREFIX.2 and so on. Each opens the files, or makes the
//! log if there is none, and continues at its end. In each life SESSIONS sessions commit COUNT transactions each. The
//! first source then continues the log in a next file, and its sessions commit COUNT more. The last source is dropped
//! in the middle, as a kill leaves it. Then the files are opened once more, and their records are handed to a replica.
//! A fourth word says that fewer sources live, 1 or 2. A log that an earlier run left is continued too.
//!
//! `docs/EMBEDDING.md` goes through it.
#![tactic(auto)]

ghost use Rattle.std.specs.Prelude.{◌≡◌};
ghost use Rattle.source_core.specs.AtLog.{source_at};
ghost use Rattle.source_shared.specs.Engine.{HoldsAll};

mod opening;
mod sessions;
mod showing;
mod trouble;

use opening::{Opened, open_or_make};
use sessions::{Source, commit_all, leave_open, seats};
use showing::show;
use source_shared::{Beginning, Receipt, SharedSource, SourceNaming};
use std::alloc::Global;
use std::env::Args;
use std::fmt::Display;
use std::fs::File;
use std::io::Write;
use std::marker::Brand;
use std::process::ExitCode;
use std::random::RandomSource;
use std::rt::Files;
use std::sync::Wait;
use std::thread::Threads;
use std::time::Clock;
use std::{env, io};
use stored_log::next_file;
use trouble::Trouble;

/// The most sessions.
const SESSIONS: u32 = 16;

/// The most transactions that each session commits at a time.
const COUNT: u32 = 1000000;

/// How many sources live one after another, unless a word says fewer.
const LIVES: u32 = 3;

/// What the words ask for.
#[derive(Drop)]
struct Asked {
    /// The path of the log's files, which end with .1, .2 and so on.
    prefix: String,
    sessions: u16,
    count: u32,
    lives: u32,
}

fn main(rt: HostRuntime) -> ExitCode {
    match serve(&rt, rt.alloc(), env::args(&rt), &mut rt.stdout()) {
        Ok(()) => ExitCode::SUCCESS,
        Err(trouble) => fail(&rt, &trouble),
    }
}

/// Prints why the program stops, as one line. If that can't be written either, only the exit status shows it.
fn fail<D: Display>(rt: &impl Eprint, why: &D) -> ExitCode {
    let _ = eprintln!(rt; "{why}");
    ExitCode::FAILURE
}

/// Does what the words ask for.
fn serve<R: Files<File = File> + RandomSource + Threads + Wait + Clock + Sync, W: Write>(
    rt: &R,
    alloc: Global,
    words: io::Result<Args>,
    out: &mut W,
) -> Result<(), Trouble> {
    let asked = read_words(words?)?;
    for life in 1..=asked.lives {
        live(rt, alloc, &asked, life, out)?;
    }
    show(rt, alloc, &asked.prefix, out)
}

/// What the words ask for. The first word is the program's name.
fn read_words(words: Args) -> Result<Asked, Trouble> {
    let mut words = words.skip(1);
    let prefix = words.next().ok_or(Trouble::Usage)?;
    let sessions = number(words.next(), SESSIONS)?;
    let sessions = u16::try_from(sessions).map_err(|_| Trouble::Usage)?;
    let count = number(words.next(), COUNT)?;
    let lives = match words.next() {
        None => LIVES,
        fewer => number(fewer, LIVES)?,
    };
    match words.next() {
        None => Ok(Asked {
            prefix,
            sessions,
            count,
            lives,
        }),
        Some(_) => Err(Trouble::Usage),
    }
}

/// A word that is a number from 1 to `most`.
fn number(word: Option<String>, most: u32) -> Result<u32, Trouble> {
    let word = word.ok_or(Trouble::Usage)?;
    match word.parse::<u32>() {
        Ok(number) if 1 <= number && number <= most => Ok(number),
        _ => Err(Trouble::Usage),
    }
}

/// One life of a source over the log's files.
fn live<R: Files<File = File> + RandomSource + Threads + Wait + Clock + Sync, W: Write>(
    rt: &R,
    alloc: Global,
    asked: &Asked,
    life: u32,
    out: &mut W,
) -> Result<(), Trouble> {
    let opened = open_or_make(rt, alloc, &asked.prefix)?;
    let next = opened.log.count().saturating_add(1);
    writeln!(out, "life {life} goes on at {next}")?;
    run::<Brand, R, W>(rt, alloc, asked, life, opened, Beginning::new(), out)
}

/// Runs the source to its end, with `J` as its name. What the source reported outlives it, even if the source is
/// dropped.
fn run<
    J: SourceNaming + Send + Sync,
    R: Files<File = File> + Threads + Wait + Clock + Sync,
    W: Write,
>(
    rt: &R,
    alloc: Global,
    asked: &Asked,
    life: u32,
    opened: Opened,
    receipts: Beginning,
    out: &mut W,
) -> Result<(), Trouble>
    requires core { opened.core ≡ source_at opened.core.tables opened.core.base opened.core.limit opened.core.kind opened.core.log }
    requires log { HoldsAll opened.log.log opened.core.log }
    requires base { opened.core.base ≡ J.base }
    requires tables { opened.core.tables ≡ J.tables }
    requires receipts { receipts ≡ J.book }
{
    let Opened { core, log } = opened;
    let files = log.firsts().len();
    let source: Source<J> = SharedSource::resume(alloc, core, log, receipts)?;
    let receipts = commit_and_tell(rt, alloc, asked, life, files, &source, out);
    end(rt, life, source, receipts)
}

/// Commits what one life does, and prints how many commits the log's files have then.
fn commit_and_tell<
    J: SourceNaming + Send + Sync,
    R: Files<File = File> + Threads + Wait + Clock + Sync,
    W: Write,
>(
    rt: &R,
    alloc: Global,
    asked: &Asked,
    life: u32,
    files: usize,
    source: &Source<J>,
    out: &mut W,
) -> Result<Vec<Receipt<J>>, Trouble> {
    let receipts = commit_in_life(rt, alloc, asked, life, files, source)?;
    writeln!(out, "{} commits", source.flushed(rt)?)?;
    out.flush()?;
    Ok(receipts)
}

/// Ends one life. The last source is dropped as it is, as a kill leaves it, and so is one that had trouble.
fn end<J: SourceNaming + Send + Sync, R: Wait>(
    rt: &R,
    life: u32,
    source: Source<J>,
    receipts: Result<Vec<Receipt<J>>, Trouble>,
) -> Result<(), Trouble> {
    let receipts = receipts?;
    if life < LIVES {
        source.close(rt);
        let (core, log) = source.end_with_log(&receipts);
        // The log has the devices, so dropping it closes the files, and they can be opened again.
        drop(log);
        drop(core);
    }
    Ok(())
}

/// What the sessions do in this life, over a log of this number of files. Returns the last receipt of each session in
/// each file.
fn commit_in_life<
    J: SourceNaming + Send + Sync,
    R: Files<File = File> + Threads + Wait + Clock + Sync,
>(
    rt: &R,
    alloc: Global,
    asked: &Asked,
    life: u32,
    files: usize,
    source: &Source<J>,
) -> Result<Vec<Receipt<J>>, Trouble> {
    let seats = seats(rt, alloc, source, asked.sessions)?;
    let mut receipts = commit_all(rt, alloc, source, &seats, asked.count)?;
    if life == 1 {
        let next = next_file(rt, alloc, &asked.prefix, files.saturating_add(1))?;
        source.rotate(rt, next)?;
        let mut more = commit_all(rt, alloc, source, &seats, asked.count)?;
        receipts.append(&mut more)?;
    }
    if life == LIVES {
        leave_open(rt, source, &seats)?;
    }
    Ok(receipts)
}
