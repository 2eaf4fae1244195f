//! Tests what no contract says of rows, of stores of rows, and of what one transaction lays over a store. `common` has
//! what other test crates make too.
#![tactic(auto)]

pub mod common;
#[cfg(test)]
mod tests;
