//! Tests what no clause says of a replica's parts and of the replica itself, on one thread.
#![tactic(auto)]

#[cfg(test)]
mod tests;
