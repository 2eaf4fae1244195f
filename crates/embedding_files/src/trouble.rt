//! Why the program stops.

use recovery::RecoveryFault;
use relay::ReplicaFault;
use schema::{Memory, SchemaFault};
use source_core::SourceFault;
use std::alloc::{AllocError, AllocFailed};
use std::io;
use stored_log::StoreFault;
use thiserror::Error;

/// Why the program stops: a fault of one of the crates, or something that this program's schema and rows never cause.
#[derive(Clone, Copy, Debug, Error)]
pub enum Trouble {
    #[error("usage: embedding_files PREFIX SESSIONS COUNT [LIVES]")]
    Usage,
    #[error("the schema: {0}")]
    Schema(#[from] SchemaFault),
    #[error("the log: {0}")]
    Log(#[from] StoreFault),
    #[error("the log is of an earlier form, which no source writes")]
    OldForm,
    #[error("the records: {0}")]
    Records(#[from] RecoveryFault),
    #[error("no identifier: {0}")]
    NoIdentifier(io::Error),
    #[error("the source: {0}")]
    Source(#[from] SourceFault),
    #[error("the replica: {0}")]
    Replica(#[from] ReplicaFault),
    #[error("the system: {0}")]
    System(#[from] io::Error),
    #[error("no memory")]
    Memory(#[from] Memory),
    #[error("rows that do not fit the schema")]
    Misfit,
}

impl From<AllocError> for Trouble {
    fn from(error: AllocError) -> Trouble {
        Trouble::Memory(error.into())
    }
}

impl<T: Drop> From<AllocFailed<T>> for Trouble {
    fn from(error: AllocFailed<T>) -> Trouble {
        Trouble::Memory(error.into())
    }
}
