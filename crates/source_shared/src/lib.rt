//! The source that many threads share, under one lock.
//!
//! A `SharedSource` keeps a core, the synced part of its log, the groups that are flushed and not synced, and the
//! receipts that no session has taken yet. Each time that the lock is taken, `IsSettled` of `specs/Engine.antt` is true:
//! - Readers see just the records that are synced.
//! - The groups hold what is flushed and not synced. If one is prepared, it is the oldest.
//! - Each receipt in a place belongs to the session of that place.
//!
//! The core states the rest about itself. The contract of a shared call says what it does to its seat; the engine's own
//! call says what happens under the lock.
//!
//! A thread that commits queues its transaction. It sleeps until its receipt is in its place, or until it has to lead. A
//! leader takes the writer of the log's last file and the oldest group out of the lock, puts the group on the log, and
//! brings the writer back. Under the lock the group is then synced and committed, and the receipts are put into their
//! places. So one group is written while the next is flushed, and readers of the log wait for no device except during a
//! rotation. The thread that holds the lock has a `Held`, which can't be dropped. Its end, and each wait under it, wakes
//! the sessions whose receipts have come; its end can also wake a session that has to lead. Each session sleeps on a
//! separate condition (`Calls`), so no thread wakes for another's receipt.
//!
//! A rotation waits until the source is at rest: each flushed transaction is committed, and the writer is in its place.
//! Then the writer continues in a next file, under the lock. The engine notes that a thread waits for this. The thread
//! that ends the last transaction, or halts the source, must call it before it lets go of the lock (`IsTold` of
//! `specs/Engine.antt`).
//!
//! What is known of a receipt after the lock is let go depends on a history, which exists only in proofs (`logbook`): the
//! receipts of all commits, in log order. A `Receipt` holds a beginning of the history, and its own place in it. The code
//! that adds to the history knows all of it, so a receipt can be neither made up nor lost (`specs/Book.antt`). Over an
//! older log the history begins with receipts for the log's records, which belong to no session. So old and new records
//! have the same promises. The crate uses `source_core`, `log_file` and `log_set`.
#![tactic(auto)]

mod book;
mod calls;
mod engine;
mod held;
mod leading;
mod locked;
mod seat;
mod shared;

pub use book::{Beginning, Receipt, SourceNaming};
pub use calls::Waits;
pub use engine::EndedLog;
pub use seat::SessionSeat;
pub use shared::SharedSource;
