//! Why a call was refused.

use log_file::LogFault;
use recovery::RecoveryFault;
use schema::Memory;
use source_core::SourceFault;
use thiserror::Error;

/// Why a call that may write the log was refused. Its text is that of the source's fault or of the log's.
#[derive(Clone, Copy, Debug, PartialEq, Eq, Error)]
pub enum DurableFault {
    /// The source refused it.
    #[error("{0}")]
    OfSource(SourceFault),
    /// The log refused it: a device failed, or memory ran out.
    #[error("{0}")]
    OfLog(LogFault),
}

/// Why no durable source was made.
#[derive(Clone, Copy, Debug, PartialEq, Eq, Error)]
pub enum MakeFault {
    /// The device holds 33 bytes or more, which may be a log.
    #[error("L8 Exists")]
    Exists,
    /// The log was not made: the device failed, or memory ran out.
    #[error("{0}")]
    OfLog(LogFault),
}

impl From<Memory> for MakeFault {
    ghost use Rattle.std.specs.Prelude.{◌≡◌};
    ghost use Rattle.log_file.specs.declared.fault.LogFault.TheVariants as log_faults;
    ghost use Rattle.durable_source.specs.declared.fault.MakeFault.TheVariants as faults;

    ghost from_gives = { λ _ fault. fault ≡ faults.OfLog log_faults.Memory };

    fn from(_memory: Memory) -> MakeFault {
        MakeFault::OfLog(LogFault::Memory)
    }
}

/// Why a source can't continue from a log in files.
#[derive(Clone, Copy, Debug, PartialEq, Eq, Error)]
pub enum OpenFault {
    /// It was not opened: a device failed, memory ran out, or the files are not a log.
    #[error("{0}")]
    OfLog(LogFault),
    /// The files are of an older form, which no source writes.
    #[error("L6 OldForm")]
    OldForm,
    /// The log has another identifier.
    #[error("L7 OtherSource")]
    OtherSource,
    /// A source can't continue from its records over these rows, or memory ran out.
    #[error("{0}")]
    OfRecovery(RecoveryFault),
}
