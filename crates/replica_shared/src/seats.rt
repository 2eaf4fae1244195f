//! The seats that are not out.
ghost use Rattle.std.specs.Prelude.{◌≡◌, ◌++◌, ◌∷◌, [], All, IfSome, IfNone, option_to_list};
ghost use Rattle.store_trait.specs.declared.Op.TheVariants.{Load};

use crate::naming::ReplicaNaming;
use published::ReadSeat;
use std::marker::Model;
use store_trait::RowStore;

/// Seats that have seen only the load of this replica's rows. Contracts see them as what each has seen.
#[derive(Drop)]
pub struct Seats<S: RowStore + Drop, J: ReplicaNaming> {
    free: Vec<ReadSeat<S, J>>,
}

impl<S: RowStore + Drop, J: ReplicaNaming> Model for Seats<S, J> {
    ghost use Rattle.std.specs.Prelude.{◌≡◌, ◌∷◌, [], All, List};
    ghost use Rattle.store_trait.specs.declared.Op.{Op};
    ghost use Rattle.store_trait.specs.declared.Op.TheVariants.{Load};

    ghost Value = { List (List Op) };

    ghost view = { λ s. s.free.items };

    ghost invariant = { λ s. All (λ seat. seat ≡ Load J.names.base ∷ []) s.free.items };
}

impl<S: RowStore + Drop, J: ReplicaNaming> Seats<S, J> {
    pub(crate) fn new(free: Vec<ReadSeat<S, J>>) -> Seats<S, J>
        requires { All (λ seat. seat ≡ Load J.names.base ∷ []) free.items }
    {
        Seats { free }
    }

    /// One of them, if any is left.
    pub(crate) fn take(&mut self) -> Option<ReadSeat<S, J>>
        ensures seat { IfSome result (λ seat. seat ≡ Load J.names.base ∷ []) }
        ensures taken { self.old ≡ self.new ++ option_to_list result }
        ensures none { IfNone result (self.old ≡ []) }
    {
        self.free.pop()
    }
}
