//! Why a call of the source was refused.

ghost use Rattle.std.specs.Prelude.{◌≡◌};
ghost use Rattle.source_core.specs.FaultText.{fault_text};

use schema::Memory;
use std::alloc::AllocFailed;
use std::error::Error;
use std::fmt;

/// Why a call of the source was refused. The text is the fault's number and name.
#[derive(Clone, Copy, Debug, PartialEq, Eq)]
pub enum SourceFault {
    /// The session's number is not 1 to 256.
    NoSession,
    /// The session has a transaction, or its seat was given out.
    AlreadyOpen,
    /// The transaction is not in a state that allows the call, or there is none.
    NotActive,
    /// The table is not in the schema.
    NoTable,
    /// The number of columns is not the table's, or the change names a column that the table does not have.
    WrongColumns,
    /// Another session holds the row or one of the change's kin in a way that clashes, or holds one of its marks.
    RowLocked,
    /// The row is there already.
    RowExists,
    /// The row is not there.
    NoRow,
    /// The parent row that the change gives its row is not there.
    NoParent,
    /// The row has a child, so it can't be deleted.
    HasChild,
    /// The transaction has 1024 changes already.
    TooManyChanges,
    /// The log failed, now or earlier.
    Halted,
    /// Memory ran out.
    Memory,
    /// The transaction is not prepared, or there is none.
    NotPrepared,
    /// The log and the queue together have the greatest number of records that the log may have.
    Exhausted,
    /// Another row has the value that the change gives its row in the table's unique column.
    Duplicate,
}

impl SourceFault {
    /// The fault's number and name.
    pub fn text(self) -> &'static str
        ensures { result.now ≡ fault_text self }
    {
        match self {
            SourceFault::NoSession => "S1 NoSession",
            SourceFault::AlreadyOpen => "S2 AlreadyOpen",
            SourceFault::NotActive => "S3 NotActive",
            SourceFault::NoTable => "S4 NoTable",
            SourceFault::WrongColumns => "S5 WrongColumns",
            SourceFault::RowLocked => "S6 RowLocked",
            SourceFault::RowExists => "S7 RowExists",
            SourceFault::NoRow => "S8 NoRow",
            SourceFault::NoParent => "S9 NoParent",
            SourceFault::HasChild => "S10 HasChild",
            SourceFault::TooManyChanges => "S11 TooManyChanges",
            SourceFault::Halted => "S12 Halted",
            SourceFault::Memory => "S13 Memory",
            SourceFault::NotPrepared => "S14 NotPrepared",
            SourceFault::Exhausted => "S15 Exhausted",
            SourceFault::Duplicate => "S16 Duplicate",
        }
    }
}

impl fmt::Display for SourceFault {
    ghost use Rattle.std.specs.Prelude.{Some};
    ghost use Rattle.source_core.specs.FaultText.{fault_text};

    ghost output = { λ fault. Some (fault_text fault) };

    fn fmt<W: fmt::Write>(&self, f: &mut fmt::Formatter<W>) -> fmt::Result {
        f.write_str(self.text())
    }
}

impl Error for SourceFault {}

impl From<Memory> for SourceFault {
    ghost use Rattle.std.specs.Prelude.{◌≡◌};
    ghost use Rattle.source_core.specs.declared.fault.SourceFault.TheVariants as faults;

    ghost from_gives = { λ _ e. e ≡ faults.Memory };

    fn from(_memory: Memory) -> SourceFault {
        SourceFault::Memory
    }
}

impl<T: Drop> From<AllocFailed<T>> for SourceFault {
    ghost use Rattle.std.specs.Prelude.{◌≡◌};
    ghost use Rattle.source_core.specs.declared.fault.SourceFault.TheVariants as faults;

    ghost from_gives = { λ _ e. e ≡ faults.Memory };

    fn from(_error: AllocFailed<T>) -> SourceFault {
        SourceFault::Memory
    }
}
