//! Which rows have the marks of a record.

ghost use Rattle.std.specs.Prelude.{◌≡◌, [], IfOk};
ghost use Rattle.executor.specs.Held.{AreHolders, held};

use schema::{Mark, Memory, copied};
use std::alloc::Global;
use std::marker::Model;

/// Marks, strictly rising, each with the key of the row of its table that has it, or `None` if no row has it.
#[derive(Debug, Drop)]
pub struct Holders {
    list: Vec<(Mark, Option<i64>)>,
}

impl Model for Holders {
    ghost use Rattle.std.specs.Prelude.{List};
    ghost use Rattle.executor.specs.Held.{Holder, AreHolders};

    ghost Value = { List Holder };

    ghost view = { λ h. h.list.items };

    ghost invariant = { λ h. AreHolders h.list.items };
}

impl Holders {
    /// Holders of no marks. It takes no memory.
    pub fn none(alloc: Global) -> Holders
        ensures { result ≡ [] }
    {
        Holders {
            list: Vec::new(alloc),
        }
    }

    /// These marks with their holders. It takes no memory.
    pub fn from_rising(list: Vec<(Mark, Option<i64>)>) -> Holders
        requires { AreHolders list.items }
        ensures { result ≡ list.items }
    {
        Holders { list }
    }

    /// The marks with their holders, in the order of the marks.
    pub fn list(&self) -> &[(Mark, Option<i64>)]
        ensures value { result.now ≡ self.now }
        ensures rising { AreHolders result.now }
    {
        &self.list
    }

    /// The key of the row that has the mark; `None` if no row has it, or if the mark is not among these. It takes no
    /// memory, and the time of a binary search.
    pub fn holder(&self, mark: Mark) -> Option<i64>
        ensures { result ≡ held self.now mark }
    {
        match self.list.binary_search_by_key(&mark, |entry| entry.0) {
            Ok(place) => self.list[place].1,
            Err(_) => None,
        }
    }

    /// Equal holders, in separate memory.
    pub fn copy(&self) -> Result<Holders, Memory>
        ensures { IfOk result (λ holders. holders ≡ self.now) }
    {
        Ok(Holders {
            list: copied(&self.list)?,
        })
    }
}
