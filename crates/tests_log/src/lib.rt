//! Tests what no clause says of records, whole and in pieces, of sets of ids, of what trackers see of a log, and of the
//! log file on its device. `common` has what other test crates use too.
#![tactic(auto)]

pub mod common;
#[cfg(test)]
mod tests;
