//! The history of written rows: which sequence number touched the digest of a row last.
//!
//! Contracts see a `History` as a finite map from digests to sequence numbers, each above the history's start
//! (`specs/History.antt`). What was touched up to the start is not known. It has no more digests than its limit; the
//! caller ensures that with `has_room`. Forgetting all of them is one step: the start is raised to the newest number.
//!
//! The digests are in slots (`slots`, `specs/Slots.antt`). A slot whose number is at most the start is free, so slots
//! are never emptied one by one. All slots are made with the history, and no other call takes memory. The crate uses no
//! other crate.
#![tactic(auto)]

ghost use Rattle.std.specs.Prelude.{◌≡◌, ◌+◌, ◌<◌, ◌≤◌, ◌==◌, ◌↔◌, IsTrue, IfOk, length};
ghost use Rattle.std.specs.FinMap.{insert, len};
ghost use Rattle.writeset_history.specs.History.{new_history, number_of, entered, emptied, IsUpTo, IsHistory};

pub mod laws;
mod slots;

use slots::{FREE, Slot, is_live, probe};
use std::alloc::{AllocError, Global};
use std::marker::Model;

/// Which sequence number touched each digest last, among the numbers above a start.
#[derive(Debug, Drop)]
pub struct History {
    slots: Vec<Slot>,
    /// How many slots are not free.
    len: usize,
    limit: usize,
    start: u64,
}

impl Model for History {
    ghost use Rattle.writeset_history.specs.History.{History, history_code};

    ghost Value = { History };

    ghost coded = { history_code };

    ghost use Rattle.writeset_history.specs.Slots.{history_in, IsSound};

    ghost view = { λ h. history_in h.slots.items h.start h.limit };

    ghost invariant = { λ h. IsSound h.slots.items h.start h.limit h.len };
}

impl History {
    /// A history of no digests, which starts at 0. The limit is MySQL's `binlog_transaction_dependency_history_size`,
    /// which is from 1 to 1000000 there. All memory is taken here: 32 bytes for each digest of the limit, or up to
    /// twice that, since the number of slots is a power of two. The time is that of writing it.
    pub fn with_limit(alloc: Global, limit: u32) -> Result<History, AllocError>
        ensures { IfOk result (λ history. history ≡ new_history limit) }
    {
        Ok(History {
            slots: vec![in alloc; FREE; slots_for(limit)]?,
            len: 0,
            limit: limit as usize,
            start: 0,
        })
    }

    /// The number that touched the digest last; 0 if the history does not have it. It takes expected constant time, and
    /// at worst a look at each digest of the history.
    pub fn look(&self, digest: u64) -> u64
        ensures { result ≡ number_of self.now digest }
    {
        let slot = self.slots[probe(&self.slots, self.start, digest)];
        if is_live(self.start, slot) {
            slot.sequence
        } else {
            0
        }
    }

    /// Notes that this number touched each of these digests last. The time is that of a look at each of them.
    pub fn enter(&mut self, digests: &[u64], sequence: u64)
        requires room { len self.old.numbers + length digests.now ≤ self.old.limit }
        requires above { self.old.start < sequence }
        ensures { self.new ≡ entered self.old digests.now sequence }
    {
        for digest in digests {
            self.enter_one(*digest, sequence);
        }
    }

    fn enter_one(&mut self, digest: u64, sequence: u64)
        requires room { len self.old.numbers < self.old.limit }
        requires above { self.old.start < sequence }
        ensures { self.new ≡ record self.old { numbers = insert self.old.numbers digest sequence } }
    {
        let place = probe(&self.slots, self.start, digest);
        self.len += usize::from(!is_live(self.start, self.slots[place]));
        self.slots[place] = Slot { digest, sequence };
    }

    /// Forgets all digests, and starts at this number. It takes constant time.
    pub fn empty_at(&mut self, sequence: u64)
        requires { IsUpTo self.old sequence }
        ensures { self.new ≡ emptied self.old sequence }
    {
        self.start = sequence;
        self.len = 0;
    }

    /// The sequence number up to which nothing is known.
    pub fn start(&self) -> u64
        ensures { result ≡ self.now.start }
    {
        self.start
    }

    /// How many digests there are.
    pub fn len(&self) -> usize
        ensures value { result ≡ len self.now.numbers }
        ensures valid { IsHistory self.now }
    {
        self.len
    }

    /// Whether there are no digests.
    pub fn is_empty(&self) -> bool
        ensures { result ≡ (len self.now.numbers == 0) }
    {
        self.len == 0
    }

    /// Whether `more` digests are within the limit, even if all of them are new.
    pub fn has_room(&self, more: usize) -> bool
        ensures { IsTrue result ↔ (len self.now.numbers + more ≤ self.now.limit) }
    {
        more <= self.limit - self.len
    }
}

/// How many slots a history with this limit has: at least two for each digest, so that probes are short and each has an
/// end.
fn slots_for(limit: u32) -> usize
    ensures some_free { limit < result }
    ensures half_free { limit + limit ≤ result }
{
    (2 * limit as usize).next_power_of_two()
}
