//! The source: sessions change rows, and their transactions become the records of a log.
//!
//! A `SourceCore` is a plain machine that is stepped by calls; it has no handle and no thread. Contracts see it as the
//! record `Source` of `specs/Source.antt`. Each of its 256 sessions has at most one transaction. Until it ends, the
//! transaction holds the rows that it writes, and shares their kin: the parent rows that they name before and after each
//! change. It also holds their marks: the values that they have in unique columns before and after each change. A
//! record's *parent* is something else, a number that the tracker gives it.
//!
//! These things stay true (`specs/Core.antt`):
//! - The log is legal over the base.
//! - The store contains the database after the committed records.
//! - Each open transaction's changes apply to that database, and no two of them clash.
//!
//! So each child row has its parent row after each record: a write is refused if it gives a row a parent row that is not
//! there, or deletes a row that has a child. No two rows of a table have the same value in its unique column: a write is
//! refused if it gives a row the value of another one. Neither test walks a table. An index beside the rows, which
//! follows each commit, has the holder of each value and the number of each row's children.
//!
//! `specs/Calls.antt` defines what each call returns, its first cause of refusal in order, and what it leaves.
//! `SourceCore::recovered` continues from an existing log (`specs/AtLog.antt`). `Opening` has all of a new source that
//! can run out of memory. The owner of the rows makes it first, and keeps the rows if that is refused.
//!
//! The crate uses `overlay` for pending changes and their steps, `row_locks` for locks, and `commit_stages` for the
//! queues. Rows are in a store of `store_trait`, and `row_index` has what is known of them. Records and groups are those
//! of `record_codec`. A tracker of `tracker_trait` gives the records their parents.
#![tactic(auto)]

mod committing;
mod fault;
mod flushing;
pub mod laws;
mod machine;
mod making;
mod recovering;
mod rooms;
mod session;
mod stepping;
mod stored;
mod transaction;

pub use fault::SourceFault;
pub use machine::SourceCore;
pub use making::Opening;
pub use transaction::{Phase, Prepared, Receipt};
