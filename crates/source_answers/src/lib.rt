//! The replies of a source with its log in files, event by event, and a whole commit in one call.
//!
//! `answer` makes the call that an event of the source names, and replies as a world does. `specs/Answers.antt` defines
//! the replies, the order of refusals, and what is left of the source, by cases of the event. `put` prepares a
//! session's transaction, queues it, flushes, syncs until no group waits, and commits: its steps are such events, one
//! after another (`specs/Puts.antt`). It returns a receipt only once the record is on the log and committed.
//!
//! It uses `durable_source` for the source, and `world` for the events and the replies.
#![tactic(auto)]

mod answering;
mod flushing;
mod putting;
mod replying;

pub use answering::answer;
pub use putting::{PutReply, put};
