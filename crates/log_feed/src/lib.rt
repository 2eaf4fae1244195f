//! The bytes by which one process hands its log to another, written to a stream and read from one.
//!
//! First comes a head: whose log it is, the gno of the first record that follows, and a text from which both sides take
//! their tables and initial rows. Then come the records from that gno on, each spelled in the second form, with nothing
//! between them (`specs/Feed.antt`). `write_head` and `write_records` write them; if they fail, only a first part of
//! the bytes is written. `read_head` reads the head, and no byte after it, from any reader. `Wire` of `replica_core`
//! takes what follows, in pieces of any length; `read_records` takes it if all of it is there.
//!
//! `laws` states what a replica in another process shows (`specs/Laws.antt`). No clause can name what a pipe gives, so
//! it is a premise there that this is a prefix of what was written. The caller has to feed only records that are
//! synced.
//!
//! It uses `record_codec` for records, and `replica_core` for the wire and the replica in the laws.
#![tactic(auto)]

mod fault;
mod head;
pub mod laws;
mod records;
mod stream;

pub use fault::HeadFault;
pub use head::{Head, read_head, write_head};
pub use records::{read_records, write_records};
pub use stream::read_some;
