//! Which row has each unique value, and how many children each row has, kept beside a store so that no table has to be
//! walked.
//!
//! An `Index` has, for each value of a unique column, the key of the row that has it. `Children` has, for each row that
//! is a parent, how many rows name it. Both are made from the batch that loads the rows, and follow the rows batch by
//! batch. Before a batch is put, `marks_before` and `parents_before` give what its rows have, and room is made for what
//! they get. Afterwards `put` takes no memory, so rows and maps change together or not at all.
//!
//! For tables without a unique column, or without a parent, nothing is kept and no memory is asked for. If no table has
//! a unique column, or no table a parent, the calls for it walk over the tables and not over the batch. `values_apart`
//! says whether no two rows of a batch have one value. `laws` states that the maps follow the rows.
#![tactic(auto)]

mod apart;
mod children;
mod index;
pub mod laws;

pub use apart::values_apart;
pub use children::{Children, parents_before};
pub use index::{Index, marks_before};
