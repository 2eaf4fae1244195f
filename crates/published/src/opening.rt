//! How a publication begins.
ghost use Rattle.std.specs.Prelude.{◌≡◌, ◌≤◌, [], ◌∷◌, IfOk, IfErr, IfSome, IfNone, OnErr, drop, replicate, vec_capacity};
ghost use Rattle.std.specs.FinMap.{empty};
ghost use Rattle.store_trait.specs.declared.Op.TheVariants.{Load};
ghost use Rattle.store_trait.specs.Operation.{left_by};
ghost use Rattle.published.specs.History.{IsWithin};
ghost use Rattle.published.specs.Opening.{Tells};

use crate::book::{Beginning, Naming, Notice};
use crate::publisher::Publisher;
use crate::seat::ReadSeat;
use crate::version::{StoreWriter, Version};
use schema::Memory;
use std::alloc::Global;
use std::sync::Wait;
use store_trait::{Batch, RowStore};
use thiserror::Error;

/// Why a publication was not opened.
#[derive(Clone, Copy, Debug, PartialEq, Eq, Error)]
pub enum OpenError {
    /// Memory ran out.
    #[error("no memory")]
    Memory,
    /// `left_right` gave no reader, for example because all its places are taken. Memory did not run out.
    #[error("seat refused")]
    SeatRefused,
}

impl From<Memory> for OpenError {
    ghost use Rattle.std.specs.Prelude.{◌≡◌};
    ghost use Rattle.published.specs.declared.opening.OpenError.TheVariants as causes;

    ghost from_gives = { λ _ e. e ≡ causes.Memory };

    fn from(_error: Memory) -> OpenError {
        OpenError::Memory
    }
}

/// What a publication is made of: memory, and readers. `open` is generic over it, so it can report that one is missing
/// only if the supply refused it. Pass `LeftRight`.
pub trait Supply<S: RowStore + Drop, J: Naming> {
    /// Memory was refused. The supply defines what that means; callers learn of it only by a refusal.
    ghost lacks_memory: { Type 0 } = { Unit {0} };

    /// A reader was refused, likewise.
    ghost lacks_readers: { Type 0 } = { Unit {0} };

    /// The publisher over two empty stores, with the load of the base published, and room for the seats: all the memory
    /// of a publication. The time is that of the base in both stores.
    fn publisher(
        alloc: Global,
        beginning: Beginning,
        preserve: bool,
        first: S,
        second: S,
        seats: usize,
    ) -> Result<(Publisher<S, J>, Vec<ReadSeat<S, J>>), Memory>
        requires named { beginning.book ≡ J.book }
        requires order { preserve ≡ J.preserve }
        requires known { IsWithin J.known (Load beginning.base ∷ []) }
        requires first { S.contents first ≡ empty }
        requires second { S.contents second ≡ empty }
        requires seats { (1 ≤ seats) × (seats ≤ 32) }
        ensures publisher { IfOk result
            (λ made. made.0 ≡ record { published = Load beginning.base ∷ []; waiting = []; history = Load beginning.base ∷ [] }) }
        ensures room { IfOk result (λ made. (made.1.items ≡ []) × (seats ≤ vec_capacity made.1)) }
        ensures refused { OnErr result lacks_memory };

    /// One more seat, which has seen what is published. It takes no memory.
    fn seat(publisher: &Publisher<S, J>) -> Option<ReadSeat<S, J>>
        ensures seat { IfSome result (λ seat. seat ≡ publisher.now.published) }
        ensures refused { IfNone result lacks_readers };
}

/// The system's memory, and the readers of `left_right`.
pub struct LeftRight;

impl<S: RowStore + Drop, J: Naming> Supply<S, J> for LeftRight {
    // A publisher takes commits in any order. The caller that appends them has to keep the order that `preserve` asks
    // for.
    fn publisher(
        alloc: Global,
        beginning: Beginning,
        preserve: bool,
        first: S,
        second: S,
        seats: usize,
    ) -> Result<(Publisher<S, J>, Vec<ReadSeat<S, J>>), Memory> {
        let (base, head, notice) = beginning.named::<J>();
        let places = Vec::with_capacity(alloc, seats)?;
        let writer = both(alloc, &base, &notice, first, second, seats)?;
        Ok((Publisher::begun(alloc, writer, head, notice), places))
    }

    fn seat(publisher: &Publisher<S, J>) -> Option<ReadSeat<S, J>> {
        publisher.seat()
    }
}

/// Opens a publication on two empty stores, with the load of the base published, and makes 1 to 32 seats. If `preserve`
/// is true, commits are appended in the order of the log, as with MySQL's `replica_preserve_commit_order`, else in any
/// order. It reports out of memory only if the supply refused memory, and a refused seat only if it refused a reader. The
/// time and the memory are those of the base in both stores. It waits only if it has to give up.
pub fn open<S: RowStore + Drop, J: Naming, R: Wait, P: Supply<S, J>>(
    rt: &R,
    alloc: Global,
    beginning: Beginning,
    preserve: bool,
    first: S,
    second: S,
    seats: usize,
) -> Result<(Publisher<S, J>, Vec<ReadSeat<S, J>>), OpenError>
    requires named { beginning.book ≡ J.book }
    requires order { preserve ≡ J.preserve }
    requires known { IsWithin J.known (Load beginning.base ∷ []) }
    requires first { S.contents first ≡ empty }
    requires second { S.contents second ≡ empty }
    requires some { 1 ≤ seats }
    requires few { seats ≤ 32 }
    ensures publisher { IfOk result
        (λ opened. opened.0 ≡ record { published = Load beginning.base ∷ []; waiting = []; history = Load beginning.base ∷ [] }) }
    ensures seats { IfOk result (λ opened. opened.1.items ≡ replicate seats (Load beginning.base ∷ [])) }
    ensures cause { IfErr result (λ cause. Tells cause P.lacks_memory P.lacks_readers) }
{
    let (publisher, places) = P::publisher(alloc, beginning, preserve, first, second, seats)?;
    match take_seats::<S, J, P>(&publisher, places, seats) {
        Some(places) => Ok((publisher, places)),
        None => {
            drop(publisher.close(rt));
            Err(OpenError::SeatRefused)
        }
    }
}

// The two copies, each with the base.
fn both<S: RowStore + Drop, J: Naming>(
    alloc: Global,
    base: &Batch,
    notice: &Notice<J>,
    mut first: S,
    mut second: S,
    seats: usize,
) -> Result<StoreWriter<S, J>, Memory>
    requires notice { notice.now ≡ Load base.now ∷ [] }
    requires first { S.contents first ≡ empty }
    requires second { S.contents second ≡ empty }
    requires seats { (1 ≤ seats) × (seats ≤ 32) }
    ensures shown { IfOk result (λ w. (w.desk.shown.value.by ≡ notice.now) × (S.contents w.desk.shown.value.store ≡ left_by notice.now)) }
    ensures none { IfOk result (λ w. drop w.behind w.log.items ≡ []) }
{
    first.put_all(base)?;
    second.put_all(base)?;
    let first = Version {
        store: first,
        by: notice.again(),
    };
    let second = Version {
        store: second,
        by: notice.again(),
    };
    Ok(StoreWriter::new(alloc, first, second, seats)?)
}

// `seats` seats, which have seen what is published. `None` if a reader was refused.
fn take_seats<S: RowStore + Drop, J: Naming, P: Supply<S, J>>(
    publisher: &Publisher<S, J>,
    mut places: Vec<ReadSeat<S, J>>,
    seats: usize,
) -> Option<Vec<ReadSeat<S, J>>>
    requires none { places.items ≡ [] }
    requires room { seats ≤ vec_capacity places }
    ensures seats { IfSome result (λ places. places.items ≡ replicate seats publisher.now.published) }
    ensures refused { IfNone result P.lacks_readers }
{
    for _ in 0..seats {
        places.push_reserved(P::seat(publisher)?);
    }
    Some(places)
}
