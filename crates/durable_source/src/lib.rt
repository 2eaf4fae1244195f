//! A source with its log in files, on one thread: for a program whose commits must survive a kill.
//!
//! A `DurableSource` has a `SourceCore`, the log set with what is synced, and the groups between both: flushed, and not
//! synced yet. Contracts see it as `Durable` of `specs/Durable.antt`. The log always has exactly the source's synced
//! records, and the groups that wait are the others, as they were flushed (`HasLog`). A flush does not change the log;
//! `sync` puts the oldest group on the log, and only then is it synced at the source. Once a device failed, the source
//! is halted.
//!
//! A crash may come at any moment of a call, or between two calls. What it leaves opens as the synced records, or as
//! these and those of the oldest group. So no reported commit is lost, since only synced records are committed.
//!
//! It uses `source_core` for the source, and `log_set` for the log.
#![tactic(auto)]

mod calls;
mod fault;
pub mod laws;
mod machine;
mod making;
mod opening;

pub use fault::{DurableFault, MakeFault, OpenFault};
pub use machine::DurableSource;
pub use opening::Returned;
