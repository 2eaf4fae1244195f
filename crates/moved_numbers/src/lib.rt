//! Moved numbers: the records of a log that begins anew, and of a replica that begins within a log.
//!
//! The rows that the first n records of a log leave can be the base of a next log, whose records have numbers from 1
//! again. A replica can begin over these rows too, with the record n + 1. `specs/Moved.antt` says what becomes of a
//! record: n is taken off its numbers, or added to them. This crate has no code. Its `laws` state that numbers can be
//! moved, in both directions:
//! - A legal log without its first n records is legal over the rows that these leave. After a legal log, one that is
//!   legal over the rows that it leaves is legal too.
//! - A replica that begins over these rows refuses no record that one with the whole log accepts, even if its source
//!   lies.
//! - If a snapshot leaves the rows that a log left, then what continues from the snapshot stands for the whole log.
#![tactic(auto)]

pub mod laws;
