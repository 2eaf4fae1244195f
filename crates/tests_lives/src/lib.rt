//! Tests what no clause says of the things that outlive a source: a log that is replayed and goes on, one life after
//! another over the same files, and a replica that becomes a source.
#![tactic(auto)]

#[cfg(test)]
mod tests;
