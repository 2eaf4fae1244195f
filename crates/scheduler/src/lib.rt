//! The low-water mark: the number up to which every transaction is committed.
//!
//! A `Scheduler` knows which transactions are committed at the replica: all up to the low-water mark, and which of the
//! 4096 after it. A transaction whose parent is at most the mark may be executed, since all that it depends on is
//! committed. It has fixed places and takes no memory.
//!
//! If the order of the log is kept, transactions are committed in turn, and none after the mark. Else one that takes long
//! holds the mark while others go on. 64 may be under way at once. The 4096 places, in 4 kilobytes, let some 64 times
//! that number go ahead of it before the others wait for it too.
#![tactic(auto)]

ghost use Rattle.std.specs.Prelude.{◌≡◌, ℕ, ◌+◌, ◌%◌, ◌<◌, ◌≤◌, ◌||◌, ◌&&◌, ◌==◌, nat_le, false, replicate};
ghost use Rattle.scheduler.specs.Marks.{is_committed, none_committed};
ghost use Rattle.scheduler.specs.Places.{AreWithin, Passes};

pub mod laws;

use std::marker::Model;

/// How far past the low-water mark a transaction may be committed.
pub const AHEAD: usize = 4096;

/// Which transactions are committed.
#[derive(Debug, Drop)]
pub struct Scheduler {
    low: u64,
    /// No committed transaction after the mark is above this one.
    most: u64,
    /// Whether each of those after the mark is committed, at its number modulo the length.
    ring: [bool; 4096],
}

impl Model for Scheduler {
    ghost use Rattle.scheduler.specs.Marks.{Marks};

    ghost Value = { Marks };

    ghost view = { λ s. record { low = s.low; ring = s.ring } };

    ghost use Rattle.scheduler.specs.Places.{IsRing};

    ghost invariant = { λ s. IsRing s.low s.most s.ring };
}

impl Scheduler {
    /// No transaction is committed.
    pub fn new() -> Scheduler
        ensures { result ≡ none_committed }
    {
        Scheduler {
            low: 0,
            most: 0,
            ring: none_marked(),
        }
    }

    /// Notes that the transaction of this number is committed. It has to be one of the 4096 after the low-water mark. It
    /// takes no memory. If it is the first one after the mark, the mark moves past all that are committed; else the time
    /// is constant. Averaged over all calls it is constant for each.
    pub fn committed(&mut self, gno: u64)
        requires later { self.old.low < gno }
        requires near { gno ≤ self.old.low + 4096 }
        ensures exact { (g : ℕ) → is_committed self.new g ≡ (is_committed self.old g || g == gno) }
        // Past a gap the mark stays.
        ensures gap { self.old.low + 1 < gno → self.new.low ≡ self.old.low }
        ensures greatest { is_committed self.new (self.new.low + 1) ≡ false }
    {
        self.most = self.most.max(gno);
        self.ring[place(gno)] = true;
        self.low = pass(self.low, self.most, &mut self.ring);
    }

    /// The low-water mark: the greatest number up to which every transaction is committed.
    pub fn low_water(&self) -> u64
        ensures value { result ≡ self.now.low }
        ensures greatest { is_committed self.now (result + 1) ≡ false }
    {
        self.low
    }

    /// Whether the transaction of this number, counted from 1, is committed. It takes no memory, and constant time.
    pub fn is_committed(&self, gno: u64) -> bool
        ensures { result ≡ is_committed self.now gno }
    {
        gno <= self.low || (gno - self.low <= AHEAD as u64 && self.ring[place(gno)])
    }

    /// Whether the record of this number and parent may be executed: all up to the parent is committed, and there is a
    /// place for the record.
    pub fn eligible(&self, gno: u64, parent: u64) -> bool
        ensures { result ≡ (nat_le parent self.now.low && nat_le gno (self.now.low + 4096)) }
    {
        parent <= self.low && gno.saturating_sub(self.low) <= AHEAD as u64
    }
}

/// Places with none marked.
fn none_marked<const N: usize>() -> [bool; N]
    ensures { result ≡ replicate N false }
{
    [false; N]
}

/// The place of this number.
fn place(gno: u64) -> usize
    ensures { result ≡ gno % 4096 }
{
    (gno % AHEAD as u64) as usize
}

/// Moves the mark past all marked numbers that follow it without a gap, and returns the new mark. Their places are free
/// for the numbers that come into reach.
fn pass(low: u64, most: u64, ring: &mut [bool]) -> u64
    requires { AreWithin low most ring.old }
    ensures { Passes low most ring.old result ring.new }
{
    let mut then = low;
    while then < most && ring[place(then + 1)] {
        then += 1;
        ring[place(then)] = false;
    }
    then
}
