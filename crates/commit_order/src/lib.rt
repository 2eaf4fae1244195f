//! Turns: results leave in the order of their records, or in the order in which they came.
//!
//! A record enters as it is dispatched. If the order of the log is kept, its result waits until those of all that entered
//! before it were taken. Else it leaves once those that came before it have left. The 64 places are made with the object,
//! so no later call takes memory. The crate uses `executor` for results, and `scheduler` for sets of numbers.
#![tactic(auto)]

ghost use Rattle.std.specs.Prelude.{◌≡◌, ℕ, ◌+◌, ◌-◌, ◌<◌, ◌≤◌, ◌==◌, true, length, take, IfOk, IfSome, option_copied, is_some};
ghost use Rattle.std.specs.Prelude.{if◌then◌else◌};
ghost use Rattle.std.specs.List.{position_or_len};
ghost use Rattle.scheduler.specs.Gnos.{has_gno, without};
ghost use Rattle.commit_order.specs.Turns.{no_turns, entered, with_result, first_of, place_of, turn, passed};

use executor::JobResult;
use schema::Memory;
use std::alloc::Global;
use std::marker::Model;

pub mod laws;

/// The number of places for records.
pub const PLACES: usize = 64;

/// The records that wait for their turn, each with its result if it has one. `new` makes it.
#[derive(Debug, Drop)]
pub struct Turns {
    preserve: bool,
    /// The record that left last, if the order of the log is kept; 0 if none did.
    last: u64,
    /// The gnos of the records that have no result: the first `count` of these.
    out: [u64; 64],
    count: usize,
    /// The results of the others, in the order in which they came.
    done: Vec<JobResult>,
}

impl Model for Turns {
    ghost use Rattle.std.specs.Prelude.{◌+◌, take, vec_capacity};
    ghost use Rattle.commit_order.specs.Turns.{Line};
    ghost use Rattle.commit_order.specs.Places.{HavePlaces};

    ghost Value = { Line };

    ghost view = { λ t. record { preserve = t.preserve; next = t.last + 1; out = take t.count t.out; done = t.done.items } };

    ghost invariant = { λ t. HavePlaces t.count (take t.count t.out) t.done.items (vec_capacity t.done) };
}

impl Turns {
    /// No record has entered. If the order of the log is kept, the first turn is that of gno 1. It takes the memory of
    /// the 64 places.
    pub fn new(alloc: Global, preserve: bool) -> Result<Turns, Memory>
        ensures { IfOk result (λ turns. turns ≡ no_turns preserve) }
    {
        Ok(Turns {
            preserve,
            last: 0,
            out: [0; PLACES],
            count: 0,
            done: Vec::with_capacity(alloc, PLACES)?,
        })
    }

    /// The record of this gno enters. It takes no memory.
    pub fn enter(&mut self, gno: u64)
        requires room { length self.old.out + length self.old.done < 64 }
        ensures { self.new ≡ entered self.old gno }
    {
        self.out[self.count] = gno;
        self.count += 1;
    }

    /// Keeps the result of a record that entered and has none. It takes no memory. The time is that of a look at each
    /// record without a result.
    pub fn finish(&mut self, done: JobResult)
        requires out { has_gno self.old.out done.job.gno ≡ true }
        ensures { self.new ≡ with_result self.old done }
    {
        take_out(&mut self.out[..self.count], done.gno());
        self.count -= 1;
        self.done.push(done).unwrap();
    }

    /// Whether the record of this gno entered and has no result. It takes no memory.
    pub fn is_out(&self, gno: u64) -> bool
        ensures { result ≡ has_gno self.now.out gno }
    {
        self.out[..self.count].contains(&gno)
    }

    /// How many records have entered and not left.
    pub fn len(&self) -> usize
        ensures value { result ≡ length self.now.out + length self.now.done }
        ensures few { result ≤ 64 }
    {
        self.count + self.done.len()
    }

    /// Whether results leave in the order of the log.
    pub fn preserve(&self) -> bool
        ensures { result ≡ self.now.preserve }
    {
        self.preserve
    }

    /// The result whose turn has come: in the order of the log that of the next record, else the one that came first. It
    /// takes no memory.
    pub fn ready(&self) -> Option<&JobResult>
        ensures value { option_copied result ≡ turn self.now }
        ensures in_turn { IfSome result (λ done. self.now.preserve ≡ true → done.now.job.gno ≡ self.now.next) }
    {
        self.shown()
    }

    /// Takes the result that `ready` shows; its record leaves. It takes no memory.
    pub fn next(&mut self) -> Option<JobResult>
        ensures value { result ≡ turn self.old }
        ensures in_turn { IfSome result (λ done. self.old.preserve ≡ true → done.job.gno ≡ self.old.next) }
        ensures left { self.new ≡ (if is_some result then passed self.old else self.old) }
    {
        let place = self.place();
        if place >= self.done.len() {
            return None;
        }
        let done = self.done.remove(place);
        self.last = last_left(self.preserve, done.gno(), self.last);
        Some(done)
    }

    /// The result whose turn has come.
    fn shown(&self) -> Option<&JobResult>
        ensures { option_copied result ≡ turn self.now }
    {
        self.done.get(self.place())
    }

    /// The place of the result whose turn has come, or the length if there is none.
    fn place(&self) -> usize
        ensures { result ≡ place_of self.now }
    {
        if self.preserve {
            first_behind(&self.done, self.last)
        } else {
            0
        }
    }
}

/// What to keep as the record that left last: this one if the order of the log is kept, else the old value.
fn last_left(preserve: bool, gno: u64, last: u64) -> u64
    ensures { result ≡ (if preserve then gno else last) }
{
    if preserve { gno } else { last }
}

/// The place of the first result of the record after this one, or the length if there is none.
fn first_behind(done: &[JobResult], last: u64) -> usize
    ensures { result ≡ first_of done.now (last + 1) }
{
    done.iter()
        .position(|other| is_behind(other.gno(), last))
        .unwrap_or(done.len())
}

/// Whether a record is the next one after another.
fn is_behind(gno: u64, last: u64) -> bool
    ensures { result ≡ (gno == last + 1) }
{
    gno > last && gno - last == 1
}

/// Takes this number out: those after it move to the front by one, and it becomes the last.
fn take_out(out: &mut [u64], gno: u64)
    requires { has_gno out.old gno ≡ true }
    ensures front { take (length out.old - 1) out.new ≡ without gno out.old }
    ensures len { length out.new ≡ length out.old }
{
    let place = place_of(out, gno);
    out[place..].rotate_left(1);
}

/// The first place of this number.
fn place_of(gnos: &[u64], gno: u64) -> usize
    requires { has_gno gnos.now gno ≡ true }
    ensures value { result ≡ position_or_len (λ (n : ℕ). n == gno) gnos.now }
    ensures within { result < length gnos.now }
{
    gnos.iter()
        .position(|other| *other == gno)
        .unwrap_or(gnos.len())
}
