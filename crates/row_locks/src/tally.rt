//! How many sessions hold each row.
ghost use Rattle.std.specs.Prelude.{◌≡◌, ◌+◌, ◌<◌, ◌≤◌, if◌then◌else◌, OnOk, IsNone};
ghost use Rattle.std.specs.FinMap.{empty};
ghost use Rattle.schema.specs.declared.RowId.{RowId};
ghost use Rattle.schema.specs.RowId.{same_row};
ghost use Rattle.row_locks.specs.declared.Mode.{Mode};
ghost use Rattle.row_locks.specs.Mode.{weight};
ghost use Rattle.row_locks.specs.Tally.{opposing, count_at};

use crate::{Mode, weight};
use row_map::RowMap;
use schema::{Memory, RowId};
use std::alloc::Global;
use std::marker::Model;

/// How many sessions hold a row.
#[derive(Clone, Copy, Debug, PartialEq, Eq)]
pub(crate) struct Count {
    /// All of them.
    holders: u16,
    /// Those that hold it exclusively.
    exclusive: u16,
}

const NOBODY: Count = Count {
    holders: 0,
    exclusive: 0,
};

/// The number of sessions that hold each row that at least one holds.
#[derive(Debug, Drop)]
pub(crate) struct Tally {
    rows: RowMap<Count>,
}

impl Model for Tally {
    ghost use Rattle.row_map.specs.RoomyMap.{RoomyMap, roomy_map_code};
    ghost use Rattle.row_locks.specs.declared.tally.Count.{Count};
    ghost use Rattle.row_locks.specs.Tally.{count_code, AllAreHeld};

    ghost Value = { RoomyMap Count };

    ghost coded = { roomy_map_code count_code };

    ghost view = { λ t. t.rows };

    ghost invariant = { λ t. AllAreHeld t.rows.map };
}

impl Tally {
    /// No rows. It takes no memory.
    pub(crate) fn new(alloc: Global) -> Tally
        ensures { result.map ≡ empty }
    {
        Tally {
            rows: RowMap::new(alloc),
        }
    }

    /// How many sessions hold the row in a way that clashes with another session's lock of this mode.
    pub(crate) fn opposing(&self, row: RowId, mode: Mode) -> u16
        ensures { result ≡ count_at self.now.map row mode }
    {
        opposing_of(self.count(row), mode)
    }

    fn count(&self, row: RowId) -> Count
        ensures { (mode : Mode) → opposing result mode ≡ count_at self.now.map row mode }
    {
        self.rows.get(row).unwrap_or(NOBODY)
    }

    /// Makes room for this many more rows.
    pub(crate) fn reserve(&mut self, more: usize) -> Result<(), Memory>
        ensures map { self.new.map ≡ self.old.map }
        ensures room { OnOk result (more ≤ self.new.room) }
    {
        self.rows.reserve(more)
    }

    /// Follows a session that held the row as `was`, and now holds it as `now`; `None` means not at all. It takes no
    /// memory.
    pub(crate) fn recount(&mut self, row: RowId, was: Option<Mode>, now: Option<Mode>)
        requires counted { (mode : Mode) → weight was mode ≤ count_at self.old.map row mode }
        requires fits { (mode : Mode) → count_at self.old.map row mode ≤ weight was mode + 256 }
        requires room { IsNone was → 0 < self.old.room }
        ensures counts { (q : RowId) (mode : Mode) → count_at self.new.map q mode + (if same_row q row then weight was mode else 0)
            ≡ count_at self.old.map q mode + (if same_row q row then weight now mode else 0) }
        ensures room { self.old.room ≤ self.new.room + 1 }
    {
        let count = changed(self.count(row), was, now);
        if count == NOBODY {
            self.rows.remove(row);
        } else {
            self.rows.set(row, count);
        }
    }
}

fn opposing_of(count: Count, mode: Mode) -> u16
    ensures { result ≡ opposing count mode }
{
    match mode {
        Mode::Share => count.exclusive,
        Mode::Exclusive => count.holders,
    }
}

/// The count without the lock `was`, and with the lock `now`.
fn changed(count: Count, was: Option<Mode>, now: Option<Mode>) -> Count
    requires counted { (mode : Mode) → weight was mode ≤ opposing count mode }
    requires fits { (mode : Mode) → opposing count mode ≤ weight was mode + 256 }
    ensures { (mode : Mode) → opposing result mode + weight was mode ≡ opposing count mode + weight now mode }
{
    Count {
        holders: count.holders - weight(was, Mode::Exclusive) + weight(now, Mode::Exclusive),
        exclusive: count.exclusive - weight(was, Mode::Share) + weight(now, Mode::Share),
    }
}
