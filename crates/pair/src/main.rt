//! The program `pair` runs a source and a replica in separate processes, over a log in files that outlives both. It
//! also has tools that look at such a log and change nothing.
//!
//! - `command_line` reads what the words ask for, by the subcommands of `commands`, whose texts are in `help`. `serve` does
//!   it, over a reader and two writers.
//! - `sourcing` runs a source over a log, and `conversing` its lines.
//! - `feeding` hands a log to other processes, as a wire; `place` and `groups` read the files.
//! - The crate `replica_answers` has the replica that follows a wire.
//! - The crate `log_tools` has the tools that make a log or look at one, and each fault with its exit status.
#![tactic(auto)]

mod command_line;
mod commands;
mod conversing;
mod feeding;
mod groups;
mod help;
mod place;
mod serve;
mod sourcing;

use serve::run_program;
use std::env;
use std::process::ExitCode;
use uuid::Uuid;

fn main(rt: HostRuntime) -> ExitCode {
    ExitCode::from(run_program(
        &rt,
        rt.alloc(),
        env::args(&rt),
        Uuid::try_new_v4(&rt),
        &mut rt.stdin(),
        &mut rt.stdout(),
        &mut rt.stderr(),
    ))
}
