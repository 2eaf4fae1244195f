//! The program `mtr` runs a script over one source and one replica, and prints the reply to each event. It also runs a
//! source and a replica in many threads and compares them, or prints the records of a log file.
//!
//! - `command_line` reads what the words ask for; the texts are in `help`. `serve` does it, over any reader and two
//!   writers.
//! - To run a script, `script` reads all of it, by the lines of `script_text`. `pair` makes the two sides, with the
//!   chosen store and tracker (`any_store`, and the crate `any_tracker`). So nothing is done before everything is read
//!   and checked.
//! - `run` then runs the events piece by piece (`events`) and prints their replies by `script_text`.
//! - `threads` runs both sides in many threads.
//! - To print a log file, `decode` reads it by `hex` and prints its lines by `script_text`.
//! - `ending` has each fault with its exit status.
#![tactic(auto)]

mod any_store;
mod command_line;
mod decode;
mod ending;
mod events;
mod help;
mod hex;
mod options;
mod pair;
mod run;
mod script;
mod serve;
mod threads;

use serve::run_program;
use std::env;
use std::process::ExitCode;

fn main(rt: HostRuntime) -> ExitCode {
    ExitCode::from(run_program(
        &rt,
        rt.alloc(),
        env::args(&rt),
        &mut rt.stdin(),
        &mut rt.stdout(),
        &mut rt.stderr(),
    ))
}
