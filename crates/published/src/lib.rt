//! Publication of a store of rows: readers take no lock, never wait and never go back.
//!
//! A `Publisher` keeps two copies in `left_right`. Each has a store, the number of commits put into it, and the gno up to
//! which these leave no gap. So memory grows with rows and not with commits. The operations themselves are one history,
//! which only grows and exists only in proofs (`logbook`). A `Notice` is a prefix of it, and each copy carries the one
//! that left its rows. A `ReadSeat` reads from a version only if its notice begins with all that the seat saw or learnt.
//!
//! The history is what readers may see: `publish` adds to it, and `append` does not. `Plain` does the same for one thread
//! on one store. `Status` has three words that are read and stored as one (`crossbeam_utils`). A reader sees what was
//! stored, in that order, and no word falls. The rows are those of `store_trait`.
#![tactic(auto)]

mod book;
mod counts;
mod gaps;
mod merge;
mod opening;
pub mod plain;
mod publisher;
mod seat;
mod status;
mod version;

pub use book::{Beginning, Naming, Notice};
pub use counts::Counts;
pub use opening::{LeftRight, OpenError, Supply, open};
pub use publisher::Publisher;
use rows::Row;
pub use seat::ReadSeat;
pub use status::{Status, Watch};
pub use version::{Common, CopyStep, Version};

/// What a read finds.
#[derive(Clone, Copy, Debug, PartialEq, Eq)]
pub struct Answer {
    /// The row, if it exists.
    pub row: Option<Row>,
    /// All commits of the gnos 1 to this one are published, and the next is not; 0 before the first commit.
    pub upto: u64,
    /// How many commits of gnos above `upto` are published as well; 0 if commits are published in the order of the log.
    /// The row is as all these commits leave it, after the rows that were there at first.
    pub more: u64,
}
