//! Why the work of the threads stops.

use log_file::LogFault;
use record_codec::CodecFault;
use relay::ReplicaFault;
use replica_core::WireFault;
use schema::Memory;
use source_core::SourceFault;
use std::alloc::{AllocError, AllocFailed};

/// Why the work of one thread, or of all of them, was not done.
#[derive(Clone, Copy)]
pub enum Trouble {
    /// Memory ran out.
    Memory,
    /// A call returned what it never returns while both sides work as they should.
    Different,
}

impl<T: Drop> From<AllocFailed<T>> for Trouble {
    ghost use Rattle.std.specs.Prelude.{◌≡◌};
    ghost use Rattle.mtr.specs.declared.threads.trouble.Trouble.TheVariants as troubles;

    ghost from_gives = { λ _ trouble. trouble ≡ troubles.Memory };

    fn from(error: AllocFailed<T>) -> Trouble {
        Memory::from(error).into()
    }
}

impl From<AllocError> for Trouble {
    ghost use Rattle.std.specs.Prelude.{◌≡◌};
    ghost use Rattle.mtr.specs.declared.threads.trouble.Trouble.TheVariants as troubles;

    ghost from_gives = { λ _ trouble. trouble ≡ troubles.Memory };

    fn from(error: AllocError) -> Trouble {
        Memory::from(error).into()
    }
}

impl From<Memory> for Trouble {
    ghost use Rattle.std.specs.Prelude.{◌≡◌};
    ghost use Rattle.mtr.specs.declared.threads.trouble.Trouble.TheVariants as troubles;

    ghost from_gives = { λ _ trouble. trouble ≡ troubles.Memory };

    fn from(_memory: Memory) -> Trouble {
        Trouble::Memory
    }
}

impl From<LogFault> for Trouble {
    fn from(fault: LogFault) -> Trouble {
        match fault {
            LogFault::Memory => Trouble::Memory,
            _ => Trouble::Different,
        }
    }
}

impl From<SourceFault> for Trouble {
    fn from(fault: SourceFault) -> Trouble {
        match fault {
            SourceFault::Memory => Trouble::Memory,
            _ => Trouble::Different,
        }
    }
}

impl From<ReplicaFault> for Trouble {
    fn from(fault: ReplicaFault) -> Trouble {
        match fault {
            ReplicaFault::Memory => Trouble::Memory,
            _ => Trouble::Different,
        }
    }
}

impl From<WireFault> for Trouble {
    fn from(fault: WireFault) -> Trouble {
        match fault {
            WireFault::Codec(CodecFault::Memory) => Trouble::Memory,
            WireFault::Codec(_) => Trouble::Different,
            WireFault::Replica(fault) | WireFault::Waiting(fault) => Trouble::from(fault),
        }
    }
}
