//! One source and one replica, run event by event on one thread.
//!
//! A `World` holds a source, its log, the groups that wait for the log, a replica, the jobs that the replica handed
//! out, and the rows that it published. `step` runs one event and returns its reply; `run` does so for a list of
//! events.
//!
//! Whatever the events are, the replies are legal (`specs/Legal.antt`): there is one legal log over the initial rows,
//! and each reply is one that this log and the earlier events and replies allow. If the replica commits in log order,
//! each read shows the source's database after a prefix of the log, and the ids that the replica reports as executed
//! are those of a prefix. In any order, a read shows what the published commits leave in log order, and each of these
//! comes with all earlier records that conflict with it. If a device of the log fails, the sync or the rotation reports
//! it, and the source is halted from then on.
//!
//! A crash may come at any moment, in an event or between two. Opening the devices that it leaves finds all records
//! that were synced by then, and no record that was not flushed (`specs/Crash.antt`).
//!
//! `laws` states what follows for an operator. `pair_of` makes both sides from their parts. `begins` compares two sides
//! as they are. The world uses only the public contracts of `source_core`, `record_codec`, `log_file`, `log_set`,
//! `relay`, `executor`, `replica_core`, `gtid_set` and `published`, and only the laws of `scheduler` and `gapped`.
#![tactic(auto)]

mod comparing;
mod events;
pub mod laws;
mod log_events;
mod machine;
mod pair;
mod replica_events;
mod replies;

pub use comparing::begins;
pub use events::{Event, LogText, Reply, Stamps};
pub use machine::World;
pub use pair::{Pair, PairParts, pair_of};
