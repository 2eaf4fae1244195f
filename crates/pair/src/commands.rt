//! The subcommands, with their words and options.

use crate::help::{
    MORE, MORE_OF_CHECK, MORE_OF_DECODE, MORE_OF_DIFF, MORE_OF_FEED, MORE_OF_MAKE, MORE_OF_REPLICA,
    MORE_OF_ROWS, MORE_OF_SOURCE, VERSION,
};
use clap::{Arg, ArgAction, Command, value_parser};
use std::alloc::{AllocError, Global};

/// The command line as `clap` takes it.
pub fn command<'a>(alloc: Global) -> Result<Command<'a>, AllocError> {
    let command = program(alloc)?;
    let command = with_sources(alloc, command)?;
    let command = with_wires(alloc, command)?;
    let command = with_checks(alloc, command)?;
    with_rows(alloc, command)
}

/// The program, without subcommands.
fn program<'a>(alloc: Global) -> Result<Command<'a>, AllocError> {
    Command::new(alloc, "pair")
        .about("A source and a replica in separate processes, over a log in files")
        .after_help(MORE)
        .version(VERSION)
        .propagate_version(true)
        .no_binary_name(true)
        .subcommand_required(true)
        .bin_name("pair")
}

fn with_sources<'a>(alloc: Global, command: Command<'a>) -> Result<Command<'a>, AllocError> {
    command
        .subcommand(make_command(alloc)?)?
        .subcommand(source_command(alloc)?)
}

fn with_wires<'a>(alloc: Global, command: Command<'a>) -> Result<Command<'a>, AllocError> {
    command
        .subcommand(feed_command(alloc)?)?
        .subcommand(replica_command(alloc)?)
}

fn with_checks<'a>(alloc: Global, command: Command<'a>) -> Result<Command<'a>, AllocError> {
    command
        .subcommand(check_command(alloc)?)?
        .subcommand(decode_command(alloc)?)
}

fn with_rows<'a>(alloc: Global, command: Command<'a>) -> Result<Command<'a>, AllocError> {
    command
        .subcommand(rows_command(alloc)?)?
        .subcommand(diff_command(alloc)?)
}

fn make_command<'a>(alloc: Global) -> Result<Command<'a>, AllocError> {
    Command::new(alloc, "make")
        .about("Makes a log, over the tables and rows on standard input, or from a feed")
        .after_help(MORE_OF_MAKE)
        .arg(prefix_word(alloc))?
        .arg(
            Arg::new(alloc, "source")
                .long("source")
                .value_name("ID")
                .help(
                    "The log's identifier, as 3e11fa47-71ca-11e1-9e33-c80aa9429562; without it, one at random",
                ),
        )
}

fn source_command<'a>(alloc: Global) -> Result<Command<'a>, AllocError> {
    source_of_tracker(alloc)?
        .arg(number_option(
            alloc,
            "history",
            "N",
            "25000",
            1_000_000,
            "The digests of written rows and unique values that a tracker keeps, 1 to 1000000",
        ))?
        .arg(number_option(
            alloc,
            "max-file",
            "BYTES",
            "1073741824",
            i64::MAX,
            "Once the last file has this number of bytes, the log continues in a next one",
        ))
}

/// `source`, with only its log and its tracker.
fn source_of_tracker<'a>(alloc: Global) -> Result<Command<'a>, AllocError> {
    Command::new(alloc, "source")
        .about("A source that continues a log and replies to each line at once")
        .after_help(MORE_OF_SOURCE)
        .arg(prefix_word(alloc))?
        .arg(tracker_option(alloc, &["commit-order", "writeset", "writeset-session"]))
}

fn feed_command<'a>(alloc: Global) -> Result<Command<'a>, AllocError> {
    Command::new(alloc, "feed")
        .about("Writes a log to standard output for another process, as it grows")
        .after_help(MORE_OF_FEED)
        .arg(prefix_word(alloc))?
        .arg(
            Arg::new(alloc, "from")
                .long("from")
                .value_name("N")
                .default_value("0")
                .help("After how many records it begins")
                .value_parser(value_parser!(u64)),
        )?
        .arg(
            Arg::new(alloc, "once")
                .long("once")
                .help("Ends after what is there")
                .action(ArgAction::SetTrue),
        )
}

fn replica_command<'a>(alloc: Global) -> Result<Command<'a>, AllocError> {
    Command::new(alloc, "replica")
        .about("A replica that follows a feed and replies to each line at once")
        .after_help(MORE_OF_REPLICA)
        .arg(log_word(
            alloc,
            "wire",
            "WIRE",
            "The path of what 'pair feed' writes: a pipe, or a file",
        ))?
        .arg(
            Arg::new(alloc, "workers")
                .long("workers")
                .value_name("N")
                .default_value("4")
                .help("The number of workers that execute records, 1 to 64")
                .value_parser(value_parser!(usize).range(1..=64)),
        )?
        .arg(
            Arg::new(alloc, "source")
                .long("source")
                .value_name("ID")
                .help("Refuses the wire of any other source"),
        )
}

/// The option `--tracker TRACKER`.
fn tracker_option<'a>(alloc: Global, names: &'a [&'a str]) -> Arg<'a> {
    Arg::new(alloc, "tracker")
        .long("tracker")
        .value_name("TRACKER")
        .default_value("commit-order")
        .help("How the source finds the parents of transactions")
        .value_parser(names)
}

/// An option whose number is from 1 to the greatest.
fn number_option<'a>(
    alloc: Global,
    name: &'a str,
    value: &'a str,
    default: &'a str,
    greatest: i64,
    help: &'a str,
) -> Arg<'a> {
    Arg::new(alloc, name)
        .long(name)
        .value_name(value)
        .default_value(default)
        .help(help)
        .value_parser(value_parser!(u64).range(1..=greatest))
}

fn check_command<'a>(alloc: Global) -> Result<Command<'a>, AllocError> {
    Command::new(alloc, "check")
        .about("Says what a log's files hold, and whether a source would continue from them")
        .after_help(MORE_OF_CHECK)
        .arg(prefix_word(alloc))
}

fn decode_command<'a>(alloc: Global) -> Result<Command<'a>, AllocError> {
    Command::new(alloc, "decode")
        .about("Prints the records of log files")
        .after_help(MORE_OF_DECODE)
        .arg(
            Arg::new(alloc, "file")
                .value_name("FILE")
                .help("The path of a log file")
                .num_args(1..)
                .required(true),
        )
}

fn rows_command<'a>(alloc: Global) -> Result<Command<'a>, AllocError> {
    Command::new(alloc, "rows")
        .about("Prints the tables and the rows that a log leaves")
        .after_help(MORE_OF_ROWS)
        .arg(prefix_word(alloc))?
        .arg(upto_option(alloc, "After how many records; without it, after all"))
}

fn diff_command<'a>(alloc: Global) -> Result<Command<'a>, AllocError> {
    Command::new(alloc, "diff")
        .about("Compares the records and the rows of two logs")
        .after_help(MORE_OF_DIFF)
        .arg(log_word(
            alloc,
            "one",
            "A",
            "The path of the one log's files, without '.1', '.2', ...",
        ))?
        .arg(log_word(alloc, "other", "B", "The path of the other log's files"))?
        .arg(upto_option(
            alloc,
            "After how many records; without it, after as many as both have",
        ))
}

/// The word for the log's files.
fn prefix_word<'a>(alloc: Global) -> Arg<'a> {
    log_word(
        alloc,
        "prefix",
        "PREFIX",
        "The path of the log's files, without '.1', '.2', ...",
    )
}

fn log_word<'a>(alloc: Global, name: &'a str, value: &'a str, help: &'a str) -> Arg<'a> {
    Arg::new(alloc, name)
        .value_name(value)
        .help(help)
        .required(true)
}

/// The option `--upto N`.
fn upto_option<'a>(alloc: Global, help: &'a str) -> Arg<'a> {
    Arg::new(alloc, "upto")
        .long("upto")
        .value_name("N")
        .help(help)
        .value_parser(value_parser!(usize))
}
