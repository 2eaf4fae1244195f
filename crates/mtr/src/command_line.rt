//! The command line.

ghost use Rattle.std.specs.Prelude.{◌≡◌, [], ◌∷◌, false, map, codes, option_map, option_and_then, Some, IfOk, IfErr, IfSome, IfNone};
ghost use Rattle.std.specs.Prelude.{MatchResult};
ghost use Rattle.clap.specs.Words.{Text, app_of, rule_of, rows_of, found_of, kind_of, fault_of, subcommand_rows_of};
ghost use Rattle.clap.specs.declared.builder.command.Command.TheViews.{out-Command as fields_of};
ghost use Rattle.mtr.specs.Options.{program, run_app, source_app, sides_app, threads_app, decode_app, choice_rule, number_rule, AreNames};
ghost use Rattle.mtr.specs.Options.{mode_of, store_of, preserve_of, number_of, most_calls, IsWithin, AreSides, sides_of, threads_options};
ghost use Rattle.mtr.specs.Options.{options_for, AsksFor, TellsFaults, IsInRange, IsByDefault, IsOfKind};

use crate::help::{MORE, MORE_OF_DECODE, MORE_OF_RUN, MORE_OF_THREADS, VERSION};
use crate::options::{LineFault, Options, Plan, Sides, Store, preserve_named};
use any_tracker::mode_named;
use clap::error::ErrorKind;
use clap::{Arg, ArgMatches, Command, value_parser};
use std::alloc::{AllocError, Global};
use std::env::Args;
use tracker_trait::Tracking;

/// The greatest value of `--fail`, the number of a call of the log's device.
const MOST_CALLS: usize = 9223372036854775807;

/// The words that the options `--tracker`, `--store` and `--commit-order` take.
#[derive(Clone, Copy)]
pub struct Names<'a> {
    pub trackers: &'a [&'a str],
    pub stores: &'a [&'a str],
    pub orders: &'a [&'a str],
}

/// What the words of a command line ask for. The first word is the program's name.
pub fn asked(alloc: Global, words: Args) -> Result<Options, LineFault>
    ensures ranges { IfOk result IsInRange }
{
    let words: Vec<String> = words.skip(1).collect(alloc)?;
    let texts: Vec<&str> = words.iter().map(|word| word.as_str()).collect(alloc)?;
    options(alloc, &texts)
}

/// What the words after the program's name ask for.
pub fn options<'a>(alloc: Global, words: &'a [&'a str]) -> Result<Options, LineFault>
    // The words name the subcommand. Each of its options has the store or the number that they give, or its default.
    ensures named { IfOk result (AsksFor (map (λ w. w.now) words.entry.now)) }
    ensures ranges { IfOk result IsInRange }
    // Help and the version are given if the words ask for them, and faults of the command line if not.
    ensures told { TellsFaults (map (λ w. w.now) words.entry.now) result }
    // If a subcommand's name is the only word, it asks for the defaults, and the only refusal is out of memory.
    ensures alone { (name : Text) (asked : Options) → IsByDefault name asked → map (λ w. w.now) words.entry.now ≡ name ∷ []
        → MatchResult result (λ given. given ≡ asked) (λ fault. fault ≡ LineFault.Memory) }
{
    let matches = match command(alloc, choices())?.try_get_matches_from(words) {
        Ok(matches) => matches,
        Err(error) => return Err(fault_of(alloc, &error)),
    };
    match options_in(&matches) {
        Some(asked) => Ok(asked),
        None => Err(LineFault::Line(String::from_str(alloc, "error: no subcommand\n")?)),
    }
}

/// What the given subcommand asks for.
fn options_in(matches: &ArgMatches) -> Option<Options>
    ensures named { result ≡ option_and_then options_for (subcommand_rows_of matches.now) }
    ensures ranges { IfSome result IsInRange }
{
    let (name, found) = matches.subcommand()?;
    options_for(name, found)
}

/// What a subcommand of this name asks for.
fn options_for(name: &str, found: &ArgMatches) -> Option<Options>
    ensures named { result ≡ options_for (name.now, rows_of (found_of found.now)) }
    ensures ranges { IfSome result IsInRange }
{
    match name {
        "run" => Some(Options::Run {
            sides: sides(found)?,
            fail: number(found, "fail", 0, MOST_CALLS)?,
        }),
        "threads" => Some(Options::Threads(plan(found)?)),
        "decode" => Some(Options::Decode),
        _ => None,
    }
}

/// What the options of `threads` ask for.
fn plan(found: &ArgMatches) -> Option<Plan>
    ensures named { option_map (λ plan. Options.Threads plan) result ≡ threads_options (rows_of (found_of found.now)) }
    ensures ranges { IfSome result (λ plan. IsInRange (Options.Threads plan)) }
{
    Some(Plan {
        sides: sides(found)?,
        sessions: number(found, "sessions", 1, 16)?,
        transactions: number(found, "transactions", 1, 1000)?,
        seats: number(found, "seats", 1, 32)?,
    })
}

/// What both sides are made of.
fn sides(found: &ArgMatches) -> Option<Sides>
    ensures named { result ≡ sides_of (rows_of (found_of found.now)) }
    ensures ranges { IfSome result AreSides }
{
    Some(Sides {
        tracker: tracker(found)?,
        store: store(found)?,
        history: number(found, "history", 1, 1_000_000)?,
        workers: number(found, "workers", 1, 64)?,
        preserve: preserve(found)?,
    })
}

/// How the source finds parents.
fn tracker(found: &ArgMatches) -> Option<Tracking>
    ensures { result ≡ mode_of (rows_of (found_of found.now)) }
{
    mode_named(found.get_str("tracker")?)
}

/// The store.
fn store(found: &ArgMatches) -> Option<Store>
    ensures { result ≡ store_of (rows_of (found_of found.now)) }
{
    Store::named(found.get_str("store")?)
}

/// Whether the replica commits in the order of the log.
fn preserve(found: &ArgMatches) -> Option<bool>
    ensures { result ≡ preserve_of (rows_of (found_of found.now)) }
{
    preserve_named(found.get_str("commit-order")?)
}

/// The number that the option of this name gives, if it is in this range.
fn number(found: &ArgMatches, name: &str, least: usize, greatest: usize) -> Option<usize>
    ensures value { result ≡ number_of name.now least greatest (rows_of (found_of found.now)) }
    ensures range { IfSome result (IsWithin least greatest) }
{
    let number = found.get_one(name)?;
    if least <= number && number <= greatest {
        Some(number)
    } else {
        None
    }
}

/// The names of the trackers, of the stores and of the orders of commits.
fn choices() -> Names<'static>
    ensures { AreNames result }
{
    Names {
        trackers: &["commit-order", "writeset", "writeset-session"],
        stores: &["btree", "vector"],
        orders: &["on", "off"],
    }
}

/// The command line as `clap` takes it, with these names of trackers, stores and orders.
fn command<'a>(alloc: Global, names: Names<'a>) -> Result<Command<'a>, AllocError>
    ensures { IfOk result (λ command. app_of command ≡ program names.entry) }
{
    Command::new(alloc, "mtr")
        .about(
            "A MySQL 8.0 style replication pair in one process: a source with group commit, and a replica that applies its log in parallel",
        )
        .after_help(MORE)
        .version(VERSION)
        .propagate_version(true)
        .no_binary_name(true)
        .bin_name("mtr")?
        .subcommand_required(true)
        .subcommand(run_command(alloc, names)?)?
        .subcommand(threads_command(alloc, names)?)?
        .subcommand(decode_command(alloc))
}

/// `run`.
fn run_command<'a>(alloc: Global, names: Names<'a>) -> Result<Command<'a>, AllocError>
    ensures shape { IfOk result (λ command. app_of command ≡ run_app names.entry) }
    ensures local { IfOk result (λ command. (fields_of command).has_globals ≡ false) }
{
    sides_command(
        alloc,
        "run",
        "Runs the script on standard input, and prints a line for each event",
        names,
    )?
    .after_help(MORE_OF_RUN)
    .arg(fail_option(alloc))
}

fn threads_command<'a>(alloc: Global, names: Names<'a>) -> Result<Command<'a>, AllocError>
    ensures shape { IfOk result (λ command. app_of command ≡ threads_app names.entry) }
    ensures local { IfOk result (λ command. (fields_of command).has_globals ≡ false) }
{
    sides_command(
        alloc,
        "threads",
        "Commits in many threads at the source, applies in many at the replica, and compares both",
        names,
    )?
    .after_help(MORE_OF_THREADS)
    .arg(number_option(
        alloc,
        "sessions",
        16,
        "4",
        "The sessions at the source, 1 to 16",
    ))?
    .arg(number_option(
        alloc,
        "transactions",
        1000,
        "10",
        "The transactions of each session, 1 to 1000",
    ))?
    .arg(number_option(
        alloc,
        "seats",
        32,
        "2",
        "The readers of the replica, 1 to 32",
    ))
}

/// A subcommand over both sides, with the options that say what these are made of. The help of each option gives its
/// range, and clap adds its default.
fn sides_command<'a>(
    alloc: Global,
    name: &'a str,
    about: &'a str,
    names: Names<'a>,
) -> Result<Command<'a>, AllocError>
    ensures shape { IfOk result (λ command. app_of command ≡ sides_app name.entry.now names.entry) }
    ensures local { IfOk result (λ command. (fields_of command).has_globals ≡ false) }
{
    source_command(alloc, name, about, names)?
        .arg(number_option(
            alloc,
            "workers",
            64,
            "4",
            "The workers at the replica, 1 to 64",
        ))?
        .arg(choice_option(
            alloc,
            "commit-order",
            "ORDER",
            names.orders,
            "on",
            "Whether the replica commits in the order of the log",
        ))
}

/// Like `sides_command`, but with only the options of the source's parents and of the stores.
fn source_command<'a>(
    alloc: Global,
    name: &'a str,
    about: &'a str,
    names: Names<'a>,
) -> Result<Command<'a>, AllocError>
    ensures shape { IfOk result (λ command. app_of command ≡ source_app name.entry.now names.entry) }
    ensures local { IfOk result (λ command. (fields_of command).has_globals ≡ false) }
{
    Command::new(alloc, name)
        .about(about)
        .arg(choice_option(
            alloc,
            "tracker",
            "TRACKER",
            names.trackers,
            "commit-order",
            "How the source finds the parents of transactions",
        ))?
        .arg(choice_option(
            alloc,
            "store",
            "STORE",
            names.stores,
            "btree",
            "The store of the rows at source and replica",
        ))?
        .arg(number_option(
            alloc,
            "history",
            1_000_000,
            "25000",
            "The digests of written rows and unique values that a tracker keeps, 1 to 1000000",
        ))
}

fn decode_command<'a>(alloc: Global) -> Command<'a>
    ensures shape { app_of result ≡ decode_app }
    ensures local { (fields_of result).has_globals ≡ false }
{
    Command::new(alloc, "decode")
        .about(
            "Prints the records of the log file on standard input, which is given as hexadecimal digits. Whitespace is ignored",
        )
        .after_help(MORE_OF_DECODE)
}

/// The option `--NAME WORD`. Its word is one of these choices.
fn choice_option<'a>(
    alloc: Global,
    name: &'a str,
    value: &'a str,
    choices: &'a [&'a str],
    default: &'a str,
    help: &'a str,
) -> Arg<'a>
    ensures rule { rule_of result ≡ choice_rule name.entry.now choices.entry default.entry.now }
    ensures local { result.global ≡ false }
{
    Arg::new(alloc, name)
        .long(name)
        .value_name(value)
        .default_value(default)
        .help(help)
        .value_parser(choices)
}

/// The option `--NAME N`. Its number is from 1 to the greatest.
fn number_option<'a>(
    alloc: Global,
    name: &'a str,
    greatest: u32,
    default: &'a str,
    help: &'a str,
) -> Arg<'a>
    ensures rule { rule_of result ≡ number_rule name.entry.now 1 greatest default.entry.now }
    ensures local { result.global ≡ false }
{
    Arg::new(alloc, name)
        .long(name)
        .value_name("N")
        .default_value(default)
        .help(help)
        .value_parser(value_parser!(usize).range(1..=i64::from(greatest)))
}

/// The option `--fail N`.
fn fail_option<'a>(alloc: Global) -> Arg<'a>
    ensures rule { rule_of result ≡ number_rule (codes "fail") 0 most_calls (codes "0") }
    ensures local { result.global ≡ false }
{
    Arg::new(alloc, "fail")
        .long("fail")
        .value_name("N")
        .default_value("0")
        .help("The call of the log's device that fails; 0 for none")
        .value_parser(value_parser!(usize).range(0..=i64::MAX))
}

/// The fault that `clap` reports.
fn fault_of(alloc: Global, error: &clap::Error) -> LineFault
    ensures memory { kind_of error.now ≡ ErrorKind.OutOfMemory → result ≡ LineFault.Memory }
    ensures stream { IsOfKind (kind_of error.now) result }
{
    if error.kind() == ErrorKind::OutOfMemory {
        return LineFault::Memory;
    }
    match format!(in alloc; "{error}") {
        Ok(text) if error.use_stderr() => LineFault::Line(text),
        Ok(text) => LineFault::Asked(text),
        Err(memory) => memory.into(),
    }
}
