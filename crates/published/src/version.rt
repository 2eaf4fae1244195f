//! What the two copies have: a store, and a notice of the operations that left it.
ghost use Rattle.std.specs.Prelude.{◌≡◌};
ghost use Rattle.store_trait.specs.Operation.{left_by};

use crate::book::{Naming, Notice};
use crossbeam_utils::rule::{Outcome, Protocol};
use left_right::Absorb;
use left_right::reader::Reader;
use left_right::writer::Writer;
use std::alloc::AllocError;
use std::marker::Model;
use store_trait::{Op, RowStore};

/// A step on a copy.
#[derive(Drop)]
pub enum CopyStep<J: Naming> {
    /// Put the batch of the operation into the store.
    Put(Op),
    /// Note that these operations left the store.
    Note(Notice<J>),
}

/// What both copies have in common. No value of it is made.
pub struct Common;

impl Model for Common {
    ghost use Rattle.published.specs.VersionValue.{VersionValue, held_code, nothing};
    ghost use Rattle.store_trait.specs.contracts.Op as op;

    ghost Value = { VersionValue };

    ghost coded = { held_code op.the_row.coded };

    ghost view = { λ _. nothing };
}

/// A store, and the operations that left it.
#[derive(Drop)]
pub struct Version<S: RowStore, J: Naming> {
    pub store: S,
    pub by: Notice<J>,
}

impl<S: RowStore, J: Naming> Absorb<CopyStep<J>> for Version<S, J> {
    ghost use Rattle.published.specs.Copies.{after_step};

    type State = Common;

    ghost state = { λ v. record { rows = S.contents v.store; by = v.by } };

    ghost applied = { after_step };

    fn absorb_first(
        &mut self,
        operation: &CopyStep<J>,
        _other: &Version<S, J>,
    ) -> Result<(), AllocError> {
        match operation {
            CopyStep::Put(Op::Load(batch)) | CopyStep::Put(Op::Commit { gno: _, batch }) => {
                self.store.put_all(batch).map_err(|_| AllocError)
            }
            CopyStep::Note(by) => {
                self.by = by.again();
                Ok(())
            }
        }
    }
}

/// The rows that readers get are what the version's operations leave.
pub struct Consistent;

impl<S: RowStore, J: Naming> Protocol<Version<S, J>, ()> for Consistent {
    ghost holds = { λ v views. S.contents v.store ≡ left_by v.by };

    ghost first = { tt };
}

impl<S: RowStore, J: Naming> Outcome<Version<S, J>, ()> for Consistent {
    ghost then = { λ v x y w. S.contents y.store ≡ left_by y.by };
}

pub type StoreWriter<S, J> = Writer<Version<S, J>, CopyStep<J>, (), Consistent>;

pub type StoreReader<S, J> = Reader<Version<S, J>, (), Consistent>;
