//! Gapped states: what some records of a log leave, if each comes with all earlier ones that conflict with it.
//!
//! A replica that does not keep the order of the log commits records as they finish, so its readers see gapped states.
//! `specs/Gapped.antt` says what one is: the records' effects, in log order, over the base. This crate has no code. Its
//! `laws` state three things:
//! - Commits in any order leave a gapped state, whatever log was received, if each record waited for those that conflict
//!   with it.
//! - Of two records that wait, neither changes what the other looks at.
//! - Over a log that a source wrote, each gapped state exists, has each child's parent, and has no value twice in a
//!   unique column.
#![tactic(auto)]

pub mod laws;
