//! The locks of up to 256 sessions on rows and on marks.
//!
//! A `LockTable` says which session holds which rows, and how, and which marks (`specs/Locks.antt`). Contracts see it
//! as two lists, one for rows and one for marks, each with a finite map for each session. Two locks of different
//! sessions on one row clash unless both are for sharing, and at most one session holds a mark. No two locks of a table
//! clash: its type ensures that. A session's own locks never clash with each other. `take_all` takes its whole lists or
//! nothing, and `release_all` frees what a session holds.
//!
//! The locks on rows and those on marks are kept apart, but in one way (`sessions`). Each session has a map. One more
//! map has how many sessions hold a row or a mark, and how many of them exclusively (`tally`), so `clashes` compares
//! two numbers. A mark is kept under the row id that it is written as, and nothing is made for marks before one is
//! taken. `schema` names rows and marks and orders them, and `row_map` has the maps.
#![tactic(auto)]

ghost use Rattle.std.specs.Prelude.{◌≡◌, ◌≤◌, ◌↔◌, false, IsTrue, IfOk, OnOk, OnErr, Err};
ghost use Rattle.row_locks.specs.declared.LockFault.TheVariants.{Clash};
ghost use Rattle.row_locks.specs.Mode.{stronger, weight};
ghost use Rattle.row_locks.specs.Locks.{all_free, clashes_with, mark_clashes, any_clashes, any_clashes_all, taken, taken_all, released_all};
ghost use Rattle.row_locks.specs.Locks.{IsClear};

pub mod laws;
mod sessions;
mod tally;

use schema::{Mark, Memory, RowId};
use sessions::Sessions;
use std::alloc::Global;
use std::marker::Model;
use thiserror::Error;

/// How a session holds a row.
#[derive(Clone, Copy, Debug, PartialEq, Eq)]
pub enum Mode {
    /// Other sessions may also hold it for sharing.
    Share,
    /// No other session holds it.
    Exclusive,
}

/// Why locks are not taken.
#[derive(Clone, Copy, Debug, PartialEq, Eq, Error)]
pub enum LockFault {
    /// Another session holds one of the rows in a way that clashes, or one of the marks. The text says in both cases
    /// that a row is locked.
    #[error("a row is locked")]
    Clash,
    /// Memory ran out.
    #[error("no memory")]
    Memory,
}

impl From<Memory> for LockFault {
    ghost use Rattle.std.specs.Prelude.{◌≡◌};
    ghost use Rattle.row_locks.specs.declared.LockFault.TheVariants as faults;

    ghost from_gives = { λ _ fault. fault ≡ faults.Memory };

    fn from(_error: Memory) -> LockFault {
        LockFault::Memory
    }
}

/// The number of sessions, and the greatest number of one; the least is 1.
pub const MAX_SESSIONS: u16 = 256;

/// The locks of sessions 1 to 256.
#[derive(Debug, Drop)]
pub struct LockTable {
    rows: Sessions,
    marks: Sessions,
}

impl Model for LockTable {
    ghost use Rattle.row_locks.specs.Held.{locks_in};
    ghost use Rattle.row_locks.specs.Locks.{AllLocks, all_locks_code, IsClear};

    ghost Value = { AllLocks };

    ghost coded = { all_locks_code };

    ghost view = { λ t. record { rows = locks_in t.rows; marks = locks_in t.marks } };

    ghost invariant = { λ t. IsClear (record { rows = locks_in t.rows; marks = locks_in t.marks }) };
}

impl LockTable {
    /// A table in which no session holds a row or a mark. The sessions' places for rows are made here, those for marks
    /// once a mark is taken.
    pub fn new(alloc: Global) -> Result<LockTable, Memory>
        ensures none { IfOk result (λ table. table ≡ all_free) }
        ensures clear { IfOk result (λ table. IsClear table) }
    {
        let mut rows = Sessions::new(alloc);
        rows.place()?;
        Ok(LockTable {
            rows,
            marks: Sessions::new(alloc),
        })
    }

    /// Whether another session holds the row in a way that clashes with a lock of this mode. It takes no memory,
    /// and expected constant time.
    pub fn clashes(&self, session: u16, row: RowId, mode: Mode) -> bool
        requires least { 1 ≤ session }
        requires greatest { session ≤ 256 }
        ensures value { result ≡ clashes_with self.now.rows session row mode }
        ensures clear { IsClear self.now }
    {
        self.rows.clashes(session, &(row, mode))
    }

    /// Whether another session holds the mark. It takes no memory, and expected constant time.
    pub fn clashes_mark(&self, session: u16, mark: Mark) -> bool
        requires least { 1 ≤ session }
        requires greatest { session ≤ 256 }
        ensures value { result ≡ mark_clashes self.now session mark }
        ensures clear { IsClear self.now }
    {
        self.marks.clashes(session, &mark)
    }

    /// Takes each lock of the list for the session. Like `take_all` without marks.
    pub fn take(&mut self, session: u16, rows: &[(RowId, Mode)]) -> Result<(), LockFault>
        requires least { 1 ≤ session }
        requires greatest { session ≤ 256 }
        ensures clash { (result ≡ Err Clash) ↔ IsTrue (any_clashes self.old.rows session rows.now) }
        ensures rows { OnOk result (self.new.rows ≡ taken self.old.rows session rows.now) }
        ensures marks { self.new.marks ≡ self.old.marks }
        ensures err { OnErr result (self.new ≡ self.old) }
        ensures clear { IsClear self.new }
    {
        self.take_all(session, rows, &[])
    }

    /// Takes each lock on rows of the one list, and each mark of the other exclusively, for the session. It is refused
    /// with `Clash` if a row or a mark of the lists clashes with another session's, and otherwise with `Memory` if
    /// there is no room for both whole lists; then nothing is taken. With n rows and marks the time is that of n
    /// look-ups, and the memory that of n rows; it stays for later locks. The first mark taken also makes a place for
    /// marks in each session. Without marks no memory is asked for them.
    pub fn take_all(
        &mut self,
        session: u16,
        rows: &[(RowId, Mode)],
        marks: &[Mark],
    ) -> Result<(), LockFault>
        requires least { 1 ≤ session }
        requires greatest { session ≤ 256 }
        ensures clash { (result ≡ Err Clash) ↔ IsTrue (any_clashes_all self.old session rows.now marks.now) }
        ensures ok { OnOk result (self.new ≡ taken_all self.old session rows.now marks.now) }
        ensures err { OnErr result (self.new ≡ self.old) }
        ensures clear { IsClear self.new }
    {
        if self.clashes_any(session, rows, marks) {
            return Err(LockFault::Clash);
        }
        self.take_free(session, rows, marks)?;
        Ok(())
    }

    /// Takes both lists; the caller knows that none of them clashes. Like `take_all`, but without the look-ups that
    /// find this out. It is refused if there is no room for both whole lists; then nothing is taken.
    pub fn take_free(
        &mut self,
        session: u16,
        rows: &[(RowId, Mode)],
        marks: &[Mark],
    ) -> Result<(), Memory>
        requires least { 1 ≤ session }
        requires greatest { session ≤ 256 }
        requires free { any_clashes_all self.old session rows.now marks.now ≡ false }
        ensures ok { OnOk result (self.new ≡ taken_all self.old session rows.now marks.now) }
        ensures err { OnErr result (self.new ≡ self.old) }
        ensures clear { IsClear self.new }
    {
        self.rows.reserve(session, rows.len())?;
        self.marks.reserve(session, marks.len())?;
        self.rows.lock(session, rows);
        self.marks.lock(session, marks);
        Ok(())
    }

    fn clashes_any(&self, session: u16, rows: &[(RowId, Mode)], marks: &[Mark]) -> bool
        requires least { 1 ≤ session }
        requires greatest { session ≤ 256 }
        ensures value { result ≡ any_clashes_all self.now session rows.now marks.now }
        ensures clear { IsClear self.now }
    {
        self.rows.any_clashes(session, rows) || self.marks.any_clashes(session, marks)
    }

    /// Frees each lock of the session, on rows and on marks. It takes no memory. The time is that of a look-up for each
    /// row and each mark that the session holds.
    pub fn release_all(&mut self, session: u16)
        requires least { 1 ≤ session }
        requires greatest { session ≤ 256 }
        ensures released { self.new ≡ released_all self.old session }
        ensures clear { IsClear self.new }
    {
        self.rows.release_all(session);
        self.marks.release_all(session);
    }
}

/// How the session holds a row after taking it in this mode, given how it held it before.
fn stronger(held: Option<Mode>, mode: Mode) -> Mode
    ensures { result ≡ stronger held mode }
{
    match held {
        Some(Mode::Exclusive) => Mode::Exclusive,
        Some(Mode::Share) | None => mode,
    }
}

/// 1 for a lock that clashes with another session's in this mode, otherwise 0.
fn weight(held: Option<Mode>, mode: Mode) -> u16
    ensures { result ≡ weight held mode }
{
    match (held, mode) {
        (None, _) | (Some(Mode::Share), Mode::Share) => 0,
        (Some(Mode::Exclusive), _) | (Some(Mode::Share), Mode::Exclusive) => 1,
    }
}
