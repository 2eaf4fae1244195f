//! Why an id can't be added to a set, or why a text does not list a set.

ghost use Rattle.std.specs.Prelude.{◌≡◌};
ghost use Rattle.gtid_set.specs.declared.fault.GtidFault.TheVariants.{Memory};

use std::alloc::AllocFailed;
use thiserror::Error;

/// The first fault, from left to right. The text is the fault's number and name.
#[derive(Clone, Copy, Debug, PartialEq, Eq, Error)]
pub enum GtidFault {
    /// The text does not begin with an identifier of 36 characters.
    #[error("G1 BadUuid")]
    BadUuid,
    /// A number is not 1 to 2^63 - 1, or is not written as one.
    #[error("G2 BadNumber")]
    BadNumber,
    /// No interval follows the identifier, or one ends before it begins.
    #[error("G3 BadInterval")]
    BadInterval,
    /// The id is of another source than the ids of the set.
    #[error("G4 ForeignSource")]
    ForeignSource,
    /// Memory ran out.
    #[error("G5 Memory")]
    Memory,
}

impl<T: Drop> From<AllocFailed<T>> for GtidFault {
    ghost from_gives = { λ _ fault. fault ≡ Memory };

    fn from(_error: AllocFailed<T>) -> GtidFault {
        GtidFault::Memory
    }
}
