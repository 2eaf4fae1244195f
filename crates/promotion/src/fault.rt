//! Why a replica is not made a source.

ghost use Rattle.std.specs.Prelude.{◌≡◌};
ghost use Rattle.promotion.specs.declared.fault.PromotionFault.TheVariants as faults;

use schema::Memory;
use thiserror::Error;

/// Why a replica is not made a source, in this order. The text is the fault's number and name.
#[derive(Clone, Copy, Debug, PartialEq, Eq, Error)]
pub enum PromotionFault {
    /// The identifier is that of the source whose records the replica took. An identifier names one log, and is never used again.
    #[error("N1 OwnName")]
    OwnName,
    /// A record is committed and one before it is not: log order is not kept. Commit those before it first.
    #[error("N2 Gaps")]
    Gaps,
    /// The rows do not fit the schema: a child has no parent, or a row has other columns than its table. No source
    /// writes a log that leaves such rows.
    #[error("N3 Misfit")]
    Misfit,
    /// Memory ran out.
    #[error("N4 Memory")]
    Memory,
}

impl From<Memory> for PromotionFault {
    ghost from_gives = { λ _ fault. fault ≡ faults.Memory };

    fn from(_memory: Memory) -> PromotionFault {
        PromotionFault::Memory
    }
}
