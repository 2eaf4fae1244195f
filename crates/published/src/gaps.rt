//! The numbers of the appended commits, which may leave gaps.
ghost use Rattle.std.specs.Prelude.{◌≡◌, ℕ, ◌+◌, ◌-◌, ◌<◌, ◌≤◌, ◌||◌, ◌==◌, false, [], ◌++◌, length, drop, vec_len, vec_capacity, OnOk};
ghost use Rattle.scheduler.specs.Gnos.{has_gno, low_of, first_gnos};
ghost use Rattle.published.specs.Gaps.{HasRoom, RiseBetween};
ghost use Rattle.published.specs.History.{count_above};

use schema::Memory;
use std::alloc::Global;
use std::marker::Model;

/// Numbers from 1 on, each at most once. It keeps the mark, up to which it has all of them, and the numbers ahead of it.
/// Without a gap it has only the mark. Contracts see it as these numbers in rising order, and the room for more of them
/// ahead.
#[derive(Drop)]
pub(crate) struct Gaps {
    upto: u64,
    /// The numbers above the mark, in rising order. The first one after the mark is not among them.
    ahead: Vec<u64>,
}

impl Model for Gaps {
    ghost use Rattle.std.specs.Prelude.{◌+◌, ◌-◌, ◌++◌, vec_len, vec_capacity};
    ghost use Rattle.core.specs.declared.int.u64.TheConstants.{MAX};
    ghost use Rattle.scheduler.specs.Gnos.{first_gnos};
    ghost use Rattle.published.specs.Gaps.{Noted, RiseBetween};

    ghost Value = { Noted };

    ghost view = { λ g. record { gnos = first_gnos g.upto ++ g.ahead.items; room = vec_capacity g.ahead - vec_len g.ahead } };

    ghost invariant = { λ g. RiseBetween (g.upto + 1) MAX g.ahead.items };
}

impl Gaps {
    /// No number yet. It takes no memory.
    pub(crate) fn new(alloc: Global) -> Gaps
        ensures { result.gnos ≡ [] }
    {
        Gaps {
            upto: 0,
            ahead: Vec::new(alloc),
        }
    }

    /// The number up to which it has all from 1 on.
    pub(crate) fn upto(&self) -> u64
        ensures mark { result ≡ low_of self.now.gnos }
        ensures within { result ≤ length self.now.gnos }
        ensures above { count_above result self.now.gnos + result ≡ length self.now.gnos }
    {
        self.upto
    }

    /// How many numbers it has.
    pub(crate) fn count(&self) -> u64
        ensures { result ≡ length self.now.gnos }
    {
        self.upto + self.ahead.len() as u64
    }

    /// Makes room for the number, unless it is the first one after the mark.
    pub(crate) fn room_for(&mut self, gno: u64) -> Result<(), Memory>
        requires { 1 ≤ gno }
        ensures same { self.new.gnos ≡ self.old.gnos }
        ensures room { OnOk result (HasRoom self.new gno) }
    {
        if gno - 1 == self.upto {
            return Ok(());
        }
        Ok(self.ahead.reserve(1)?)
    }

    /// Adds a number that it does not have, for which there is room. It takes no memory. A number ahead of a gap is put
    /// into its place, in time linear in the numbers ahead. If it is the first one after the mark, the mark passes all
    /// that follow without a gap.
    pub(crate) fn add(&mut self, gno: u64)
        requires some { 1 ≤ gno }
        requires new { has_gno self.old.gnos gno ≡ false }
        requires room { HasRoom self.old gno }
        ensures has { (g : ℕ) → has_gno self.new.gnos g ≡ (has_gno self.old.gnos g || gno == g) }
        ensures count { length self.new.gnos ≡ length self.old.gnos + 1 }
    {
        if gno - 1 == self.upto {
            self.upto = pass(&mut self.ahead, gno);
        } else {
            put(&mut self.ahead, gno);
        }
    }
}

// Takes away the numbers that follow this one without a gap, and returns the last of these, or the number itself. The
// time is linear.
fn pass(ahead: &mut Vec<u64>, gno: u64) -> u64
    requires { RiseBetween gno u64.MAX ahead.old.items }
    ensures rise { RiseBetween (result + 1) u64.MAX ahead.new.items }
    ensures same { first_gnos result ++ ahead.new.items ≡ first_gnos gno ++ ahead.old.items }
{
    let upto = last_without_gap(ahead, gno);
    if upto != gno {
        ahead.drain(..(upto - gno) as usize);
    }
    upto
}

// The last of the numbers that follow this one without a gap, or the number itself.
fn last_without_gap(ahead: &[u64], gno: u64) -> u64
    requires { RiseBetween gno u64.MAX ahead.now }
    ensures within { (gno ≤ result) × (result - gno ≤ length ahead.now) }
    ensures rise { RiseBetween (result + 1) u64.MAX (drop (result - gno) ahead.now) }
    ensures same { first_gnos result ++ drop (result - gno) ahead.now ≡ first_gnos gno ++ ahead.now }
{
    let mut upto = gno;
    for next in ahead {
        if *next - 1 != upto {
            return upto;
        }
        upto = *next;
    }
    upto
}

// Puts a number that is not among them into its place, for which there is room. The time is linear: the numbers above it
// move.
fn put(ahead: &mut Vec<u64>, gno: u64)
    requires rise { RiseBetween 0 u64.MAX ahead.old.items }
    requires new { has_gno ahead.old.items gno ≡ false }
    requires room { vec_len ahead.old < vec_capacity ahead.old }
    ensures rise { (least : ℕ) → least < gno → RiseBetween least u64.MAX ahead.old.items → RiseBetween least u64.MAX ahead.new.items }
    ensures has { (g : ℕ) → has_gno ahead.new.items g ≡ (has_gno ahead.old.items g || gno == g) }
    ensures count { length ahead.new.items ≡ length ahead.old.items + 1 }
{
    let Err(place) = ahead.binary_search(&gno) else {
        unreachable!();
    };
    ahead.insert(place, gno).unwrap();
}
