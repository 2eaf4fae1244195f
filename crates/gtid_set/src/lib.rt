//! Sets of transaction ids of one source, and their text.
//!
//! A `GtidSet` keeps intervals of numbers that rise and never touch. Contracts see it as its source and these intervals
//! (`specs/Ids.antt`). So each set of ids has one such form (`laws::one_set`) and one text (`specs/Text.antt`). `parse`
//! also takes texts that list ids in any order (`specs/Reading.antt`), and refuses each other text with its first fault
//! from the left.
//!
//! `schema` has the ids, and `uuid` the names of sources.
#![tactic(auto)]

mod fault;
mod intervals;
pub mod laws;
mod reading;
mod set;

pub use fault::GtidFault;
pub use intervals::Interval;
pub use set::GtidSet;
