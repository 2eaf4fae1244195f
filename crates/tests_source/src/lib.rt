//! Tests what no clause says of a source's parts and of the source itself, on one thread.
#![tactic(auto)]

#[cfg(test)]
mod tests;
