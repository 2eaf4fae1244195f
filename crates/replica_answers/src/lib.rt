//! A replica that follows a wire in a separate process, and its replies to lines.
//!
//! `replica` makes the replica from the head of a wire (`replicating`). It hands over what comes (`following`) while
//! workers execute it (`applying`), and replies to each line at once (`reading`, by `commands`). Once the wire is closed,
//! a line may ask for a log over the replica's rows, for a new source (`promoting`).
//!
//! All that it writes is replies, one after another, and in the end which log was made from it, if one was
//! (`specs/Conversation.antt`). Each read shows commits of one list, in log order, which begin with all that its reader
//! saw or waited for before. If the wire's bytes are known beforehand and are a legal log, a read shows the rows that
//! the first n records of the wire leave, n being the number in the reply (`specs/Replica.antt`). `replica_over` states
//! this of any wire.
//!
//! It uses `replica_shared` for the replica, and `log_tools` for lines, wires, faults and logs.
#![tactic(auto)]

mod applying;
mod commands;
mod following;
pub mod laws;
mod promoting;
mod reading;
mod replicating;

pub use replicating::{Crew, replica, replica_over};
