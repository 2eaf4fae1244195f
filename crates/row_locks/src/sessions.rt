//! What each session holds of one kind of thing, rows or marks. A mark is kept here under the row id that it is written
//! as, so what is said of rows holds for marks too. The places of the sessions are made by `place`, or once room is
//! made for a lock. So a schema without unique columns asks for no memory for marks.
ghost use Rattle.std.specs.Prelude.{◌≡◌, ◌+◌, ◌<◌, ◌≤◌, false, IfOk, OnOk, length, map, replicate};
ghost use Rattle.std.specs.List.{list_any};
ghost use Rattle.std.specs.FinMap.{empty, get, insert};
ghost use Rattle.schema.specs.declared.RowId.{RowId as ARowId};
ghost use Rattle.row_map.specs.RoomyMap.{RoomyMap};
ghost use Rattle.row_locks.specs.declared.Mode.{Mode as AMode};
ghost use Rattle.row_locks.specs.declared.Mode.TheVariants.{Exclusive};
ghost use Rattle.row_locks.specs.Mode.{stronger};
ghost use Rattle.row_locks.specs.Held.{locks_in, room_of};
ghost use Rattle.row_locks.specs.Locks.{no_locks, clashes_with, also_held, taken, released, NoClash};
ghost use Rattle.row_locks.specs.Tied.{IsCounted, MovesAlike};

use crate::tally::Tally;
use crate::{MAX_SESSIONS, Mode, stronger, weight};
use row_map::RowMap;
use schema::{Mark, Memory, RowId};
use std::alloc::Global;
use std::marker::Model;

/// What a session takes: a row in some mode, or a mark exclusively.
pub(crate) trait Lock {
    ghost lock: { Self → ARowId × AMode };

    fn lock(&self) -> (RowId, Mode)
        ensures { result ≡ lock self.now };
}

impl Lock for (RowId, Mode) {
    ghost lock = { λ lock. lock };

    fn lock(&self) -> (RowId, Mode) {
        *self
    }
}

impl Lock for Mark {
    ghost lock = { λ mark. (mark, Exclusive) };

    fn lock(&self) -> (RowId, Mode) {
        (self.as_row(), Mode::Exclusive)
    }
}

/// What sessions 1 to 256 hold of rows, or of marks.
#[derive(Debug, Drop)]
pub(crate) struct Sessions {
    /// One for each session, session 1 first; or none yet.
    places: Vec<RowMap<Mode>>,
    tally: Tally,
}

impl Model for Sessions {
    ghost use Rattle.row_locks.specs.Held.{Side, side_code, locks_of};
    ghost use Rattle.row_locks.specs.Tied.{IsTied};

    ghost Value = { Side };

    ghost coded = { side_code };

    ghost view = { λ s. record { places = s.places.items; spare = s.tally.room } };

    ghost invariant = { λ s. IsTied (locks_of s.places.items) s.tally.map };
}

impl Sessions {
    /// No session holds anything, or has a place. It takes no memory.
    pub(crate) fn new(alloc: Global) -> Sessions
        ensures { locks_in result ≡ no_locks }
    {
        Sessions {
            places: Vec::new(alloc),
            tally: Tally::new(alloc),
        }
    }

    /// Makes the places of the sessions, if there are none.
    pub(crate) fn place(&mut self) -> Result<(), Memory>
        ensures locks { locks_in self.new ≡ locks_in self.old }
        ensures places { OnOk result (length self.new.places ≡ 256) }
    {
        if self.places.is_empty() {
            self.places = empty_places(*self.places.allocator())?;
        }
        Ok(())
    }

    /// Whether another session holds something in a way that clashes with this lock.
    pub(crate) fn clashes<L: Lock>(&self, session: u16, one: &L) -> bool
        requires least { 1 ≤ session }
        requires greatest { session ≤ 256 }
        ensures { result ≡ clashes_with (locks_in self.now) session (L.lock one.now).0 (L.lock one.now).1 }
    {
        let (row, mode) = one.lock();
        let opposing = self.tally.opposing(row, mode);
        if opposing == 0 {
            // What the session itself holds is not even looked up.
            return false;
        }
        let own = self.places[session as usize - 1].get(row);
        weight(own, mode) < opposing
    }

    /// Whether a lock of the list clashes with one of another session.
    pub(crate) fn any_clashes<L: Lock>(&self, session: u16, locks: &[L]) -> bool
        requires least { 1 ≤ session }
        requires greatest { session ≤ 256 }
        ensures { result ≡ list_any (λ one. clashes_with (locks_in self.now) session (L.lock one).0 (L.lock one).1) locks.now }
    {
        locks.iter().any(|one| self.clashes(session, one))
    }

    /// Makes room for this many more locks of the session. For none it asks for no memory.
    pub(crate) fn reserve(&mut self, session: u16, more: usize) -> Result<(), Memory>
        requires least { 1 ≤ session }
        requires greatest { session ≤ 256 }
        ensures locks { locks_in self.new ≡ locks_in self.old }
        ensures room { OnOk result (more ≤ room_of self.new session) }
        ensures spare { OnOk result (more ≤ self.new.spare) }
    {
        if more == 0 {
            return Ok(());
        }
        self.place()?;
        self.tally.reserve(more)?;
        self.places[session as usize - 1].reserve(more)
    }

    /// Takes each lock of the list for the session. It takes no memory.
    pub(crate) fn lock<L: Lock>(&mut self, session: u16, locks: &[L])
        requires least { 1 ≤ session }
        requires greatest { session ≤ 256 }
        requires free { list_any (λ one. clashes_with (locks_in self.old) session (L.lock one).0 (L.lock one).1) locks.now ≡ false }
        requires room { length locks.now ≤ room_of self.old session }
        requires spare { length locks.now ≤ self.old.spare }
        ensures taken { locks_in self.new ≡ taken (locks_in self.old) session (map L.lock locks.now) }
        ensures no_clash { NoClash (locks_in self.new) }
        ensures places { length (locks_in self.new) ≡ 256 }
    {
        if !self.places.is_empty() {
            lock_all(
                &mut self.places[session as usize - 1],
                &mut self.tally,
                locks,
            );
        }
    }

    /// Frees each lock of the session. It takes no memory.
    pub(crate) fn release_all(&mut self, session: u16)
        requires least { 1 ≤ session }
        requires greatest { session ≤ 256 }
        ensures released { locks_in self.new ≡ released (locks_in self.old) session }
        ensures no_clash { NoClash (locks_in self.new) }
        ensures places { length (locks_in self.new) ≡ 256 }
    {
        if !self.places.is_empty() {
            unlock_all(&mut self.places[session as usize - 1], &mut self.tally);
        }
    }
}

fn empty_places(alloc: Global) -> Result<Vec<RowMap<Mode>>, Memory>
    ensures { IfOk result (λ places. map (λ (place : RoomyMap AMode). place.map) places.items ≡ replicate 256 empty) }
{
    let mut places = Vec::with_capacity(alloc, MAX_SESSIONS as usize)?;
    for _place in 0..MAX_SESSIONS {
        places.push(RowMap::new(alloc))?;
    }
    Ok(places)
}

/// Takes each lock of the list for the session that holds `held`.
fn lock_all<L: Lock>(held: &mut RowMap<Mode>, tally: &mut Tally, locks: &[L])
    requires counted { IsCounted held.old.map tally.old.map }
    requires held_room { length locks.now ≤ held.old.room }
    requires tally_room { length locks.now ≤ tally.old.room }
    ensures held { held.new.map ≡ also_held held.old.map (map L.lock locks.now) }
    ensures counts { MovesAlike held.old.map tally.old.map held.new.map tally.new.map }
{
    for one in locks {
        let (row, mode) = one.lock();
        lock_one(held, tally, row, mode);
    }
}

fn lock_one(held: &mut RowMap<Mode>, tally: &mut Tally, row: RowId, mode: Mode)
    requires counted { IsCounted held.old.map tally.old.map }
    requires held_room { 0 < held.old.room }
    requires tally_room { 0 < tally.old.room }
    ensures held { held.new.map ≡ insert held.old.map row (stronger (get held.old.map row) mode) }
    ensures counts { MovesAlike held.old.map tally.old.map held.new.map tally.new.map }
    ensures held_room { held.old.room ≤ held.new.room + 1 }
    ensures tally_room { tally.old.room ≤ tally.new.room + 1 }
{
    let was = held.get(row);
    let now = stronger(was, mode);
    tally.recount(row, was, Some(now));
    held.set(row, now);
}

/// Frees each row that the session holds.
fn unlock_all(held: &mut RowMap<Mode>, tally: &mut Tally)
    requires { IsCounted held.old.map tally.old.map }
    ensures held { held.new.map ≡ empty }
    ensures counts { MovesAlike held.old.map tally.old.map held.new.map tally.new.map }
{
    while let Some((row, mode)) = held.pop() {
        tally.recount(row, Some(mode), None);
    }
}
