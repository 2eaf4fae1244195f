//! Why the program stops.

use log_file::LogFault;
use published::OpenError;
use relay::ReplicaFault;
use replica_core::WireFault;
use schema::{Memory, SchemaFault};
use source_core::SourceFault;
use std::alloc::{AllocError, AllocFailed};
use std::io;
use thiserror::Error;

/// Why the program stops: a fault of one of the crates, or something that this program's schema and rows never cause.
#[derive(Clone, Copy, Debug, Error)]
pub enum Trouble {
    #[error("no identifier: {0}")]
    NoIdentifier(io::Error),
    #[error("the schema: {0}")]
    Schema(#[from] SchemaFault),
    #[error("the log: {0}")]
    Log(#[from] LogFault),
    #[error("the source: {0}")]
    Source(#[from] SourceFault),
    #[error("the replica: {0}")]
    Replica(#[from] ReplicaFault),
    #[error("the wire: {0}")]
    Wire(#[from] WireFault),
    #[error("the readers: {0}")]
    Readers(#[from] OpenError),
    #[error("no memory")]
    Memory(#[from] Memory),
    #[error("rows that do not fit the schema, or a seat that is taken")]
    Misfit,
}

impl From<AllocError> for Trouble {
    fn from(error: AllocError) -> Trouble {
        Trouble::Memory(error.into())
    }
}

impl<T: Drop> From<AllocFailed<T>> for Trouble {
    fn from(error: AllocFailed<T>) -> Trouble {
        Trouble::Memory(error.into())
    }
}
