//! Tests what no clause says of a device over a file, of a log on it, and of a log in several files. `noting` has a
//! file that notes what it is asked.
#![tactic(auto)]

pub mod noting;
#[cfg(test)]
mod tests;
