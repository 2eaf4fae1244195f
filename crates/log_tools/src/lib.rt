//! Tools for a log in files and the tables and rows that it is written over: they make both, and read both without
//! changing them.
//!
//! PREFIX.schema says what a log is written over: its identifier, its tables, and the rows before its first record
//! (`describing`). `make` makes this file and an empty log (`making`), or a log with all records of a wire
//! (`restoring`).
//!
//! The others read copies of the files (`logs`). They lock no file and change none, so they may run beside a process
//! that writes the log. `check` prints what the files hold and whether a source would continue from them (`checking`;
//! `changed` finds the bytes that changed). `decode` prints records, `rows` the rows that they leave (`dumping`), and
//! `diff` what differs between two logs (`comparing`).
//!
//! `ending` has the causes that stop the work on a path, and how a program ends then. `asking` reads the lines of an
//! input. `laws` states that a head that was written is read back.
//!
//! It uses `stored_log` for the files, `recovery` for what a log leaves, `script_text` for the lines, and `log_feed`
//! for wires.
#![tactic(auto)]

mod asking;
mod changed;
mod checking;
mod comparing;
mod decoding;
mod describing;
mod dumping;
mod ending;
pub mod laws;
mod logs;
mod making;
mod restoring;

pub use asking::Lines;
pub use checking::check;
pub use comparing::diff;
pub use decoding::decode;
pub use describing::{Described, Head, HeadFault};
pub use dumping::rows;
pub use ending::{Ending, Stop, StopAt};
pub use logs::{MAX_RECORDS, described};
pub use making::{make, make_over};
pub use restoring::read_wire;
