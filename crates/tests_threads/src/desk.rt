//! A publisher whose commits set one row to their own numbers. It closes when it is dropped, so that a lock can hold it.
ghost use Rattle.std.specs.Prelude.{◌≡◌, ◌≤◌, ◌<◌, ◌^◌, true, None};
ghost use Rattle.tests_threads.specs.Numbers.{behind as behind_it};

use crate::makers::commit;
use btree_store::BTreeStore;
use left_right::Absorb;
use published::{
    Beginning, Common, CopyStep, LeftRight, Naming, Notice, OpenError, Publisher, ReadSeat,
    Version, open,
};
use schema::Memory;
use std::alloc::Global;
use std::marker::Model;
use std::sync::Wait;
use tests_stores::again;

/// The greatest gno of a commit.
pub const LAST: u64 = 4096;

/// The publisher, the runtime that ends it, whether the order of the log is kept, and the gno of the next commit. If the
/// order is kept, the gnos rise from 1; else they fall to 1.
pub struct Desk<'r, J: Naming, R: Wait>
where
    Version<BTreeStore, J>: Absorb<CopyStep<J>, State = Common>,
{
    rt: &'r R,
    publisher: Publisher<BTreeStore, J>,
    preserve: bool,
    next: u64,
}

impl<'r, J: Naming, R: Wait> Model for Desk<'r, J, R>
where
    Version<BTreeStore, J>: Absorb<CopyStep<J>, State = Common>,
{
    ghost use Rattle.std.specs.Prelude.{◌≡◌, ◌++◌, None};
    ghost use Rattle.published.specs.Publication.{Publishing};
    ghost use Rattle.tests_threads.specs.Numbers.{IsNext};

    ghost Value = { Publishing };

    ghost view = { λ d. d.publisher };

    ghost invariant = { λ d. (J.preserve ≡ d.preserve) × IsNext d.preserve (d.publisher.published ++ d.publisher.waiting) d.next
        × (J.known ≡ None) };
}

impl<'r, J: Naming, R: Wait> Desk<'r, J, R> {
    #[tactic(auto, using(crate::proofs::Following::begins))]
    pub fn open(
        rt: &'r R,
        alloc: Global,
        beginning: Beginning,
        preserve: bool,
        next: u64,
        seats: usize,
    ) -> Result<(Desk<'r, J, R>, Vec<ReadSeat<BTreeStore, J>>), OpenError>
        requires book { beginning.book ≡ J.book }
        requires order { J.preserve ≡ preserve }
        requires free { J.known ≡ None }
        requires first { preserve ≡ true → next ≡ 1 }
        requires seats { (1 ≤ seats) × (seats ≤ 32) }
    {
        let (publisher, seats) = open::<BTreeStore, J, R, LeftRight>(
            rt,
            alloc,
            beginning,
            preserve,
            BTreeStore::new(alloc),
            BTreeStore::new(alloc),
            seats,
        )?;
        let desk = Desk {
            rt,
            publisher,
            preserve,
            next,
        };
        Ok((desk, seats))
    }

    #[tactic(auto, using(crate::proofs::Following::may_go_on, crate::proofs::Following::goes_on))]
    fn append(&mut self, alloc: Global) -> Result<(), Memory> {
        if self.next < 1 || self.next > LAST {
            return Err(Memory);
        }
        self.publisher.append(&commit(alloc, self.next)?)?;
        self.next = behind(self.preserve, self.next);
        Ok(())
    }

    /// Appends `count` commits. A refused call is made once more.
    pub fn append_again(&mut self, alloc: Global, count: u64) -> Result<(), Memory> {
        for _ in 0..count {
            again!(self.append(alloc))?;
        }
        Ok(())
    }

    #[tactic(auto, using(crate::proofs::Following::goes_on_shown))]
    pub fn publish(&mut self) -> Result<u64, Memory> {
        self.publisher.publish(self.rt)
    }

    /// Appends `count` commits and publishes them. A refused call is made once more.
    pub fn publish_again(&mut self, alloc: Global, count: u64) -> Result<u64, Memory> {
        self.append_again(alloc, count)?;
        again!(self.publish())
    }

    pub fn tell(&self) -> Notice<J> {
        self.publisher.tell()
    }
}

impl<'r, J: Naming, R: Wait> Drop for Desk<'r, J, R>
where
    Version<BTreeStore, J>: Absorb<CopyStep<J>, State = Common>,
{
    fn drop(self) {
        let Desk {
            rt,
            publisher,
            preserve: _,
            next: _,
        } = self;
        drop(publisher.close(rt));
    }
}

/// The gno of the commit after this one.
fn behind(preserve: bool, gno: u64) -> u64
    requires some { 1 ≤ gno }
    requires few { gno < 2 ^ 63 }
    ensures { result ≡ behind_it preserve gno }
{
    if preserve { gno + 1 } else { gno - 1 }
}
