//! The seats of readers.
ghost use Rattle.std.specs.Prelude.{◌≡◌, ◌+◌, ◌⊎◌, true, IfSome, IfNone};
ghost use mathlib.Core.List.{IsPrefix};
ghost use Rattle.std.specs.FinMap.{get as row_of};
ghost use Rattle.store_trait.specs.Operation.{left_by};
ghost use Rattle.scheduler.specs.Gnos.{low_of};
ghost use Rattle.published.specs.History.{IsHistory, IsWithin, gnos_of, commits_in, count_above};

use crate::Answer;
use crate::book::{Naming, Notice};
use crate::version::{Consistent, StoreReader};
use core::mem::replace_with;
use rows::Row;
use schema::RowId;
use std::marker::Model;
use store_trait::RowStore;

/// It reads what is published, in any one thread. Contracts see it as its seen list: the longest of the lists of
/// operations that it read from and of the notices that it learnt.
#[derive(Drop)]
pub struct ReadSeat<S: RowStore + Drop, J: Naming> {
    reader: StoreReader<S, J>,
    seen: Notice<J>,
}

impl<S: RowStore + Drop, J: Naming> Model for ReadSeat<S, J> {
    ghost use Rattle.std.specs.Prelude.{List};
    ghost use Rattle.store_trait.specs.declared.Op.{Op};

    ghost Value = { List Op };

    ghost view = { λ s. s.seen };
}

impl<S: RowStore + Drop, J: Naming> ReadSeat<S, J> {
    // A seat that has seen this notice.
    pub(crate) fn taken(reader: StoreReader<S, J>, seen: Notice<J>) -> ReadSeat<S, J>
        ensures { result ≡ seen }
    {
        ReadSeat { reader, seen }
    }

    /// The row as one list of published operations leaves it. The list begins with all that this seat saw or learnt, and
    /// is its seen list from then on. It takes no lock and no memory, and waits for nobody. The time is logarithmic in
    /// the number of rows. `None` if `left_right` refuses the entry, as it does once the publisher is closed. It would
    /// also be `None` at a version older than what the seat knows; `left_right` never shows one, but none of its clauses
    /// says so.
    pub fn read(&mut self, id: RowId) -> Option<Answer>
        ensures row { IfSome result (λ answer. answer.row ≡ row_of (left_by self.new) id) }
        ensures upto { IfSome result (λ answer. answer.upto ≡ low_of (gnos_of self.new)) }
        ensures more { IfSome result (λ answer. answer.upto + answer.more ≡ commits_in self.new) }
        ensures above { IfSome result (λ answer. answer.more ≡ count_above answer.upto (gnos_of self.new)) }
        ensures in_order { IfSome result (λ answer. J.preserve ≡ true → (answer.upto ≡ commits_in self.new) × (answer.more ≡ 0)) }
        ensures history { IfSome result (λ answer. IsHistory J.preserve self.new) }
        ensures known { IfSome result (λ answer. IsWithin J.known self.new) }
        ensures later { IsPrefix self.old self.new }
        ensures none { IfNone result (self.new ≡ self.old) }
    {
        let (row, by) = replace_with(&mut self.reader, id, |reader, id| enter(reader, id))?;
        if !self.seen.begins(&by) {
            return None;
        }
        let (upto, count) = (by.upto(), by.count());
        self.seen = by;
        Some(Answer {
            row,
            upto,
            more: count - upto,
        })
    }

    /// From now on no read shows less than the notice: the seen list is the longer of the two. It takes no memory.
    pub fn learn(&mut self, notice: Notice<J>)
        ensures one { (self.new ≡ self.old) ⊎ (self.new ≡ notice) }
        ensures kept { IsPrefix self.old self.new }
        ensures learnt { IsPrefix notice self.new }
    {
        if self.seen.begins(&notice) {
            self.seen = notice;
        }
    }
}

// The row in the version that is taken, and the operations that left that version.
fn enter<S: RowStore + Drop, J: Naming>(
    reader: StoreReader<S, J>,
    id: RowId,
) -> (StoreReader<S, J>, Option<(Option<Row>, Notice<J>)>)
    ensures { IfSome result.1 (λ found. found.0 ≡ row_of (left_by found.1) id) }
{
    match reader.enter_as::<Consistent>() {
        Ok(reading) => {
            let version = reading.get();
            let found = (version.store.get(id), version.by.again());
            (reading.leave(), Some(found))
        }
        Err(reader) => (reader, None),
    }
}
