//! Tests what no clause says of source and replica together.
//!
//! `again` sends each event that runs out of memory once more, and compares the reply to each event of `courses`.
//! `one_thread` goes through the calls of a shared source and a shared replica one by one: no clause can name what a
//! call does to the core under the lock. `limits` does so at the bounds of the product.
#![tactic(auto)]

#[cfg(test)]
mod tests;
