//! What a new source takes memory for.
ghost use Rattle.std.specs.Prelude.{◌≡◌, false, None, [], IfOk, replicate};
ghost use Rattle.source_shared.specs.Book.{old_receipts};

use super::SESSIONS;
use crate::book::{Beginning, History, Receipt, SourceNaming};
use record_codec::{Group, Record};
use schema::Memory;
use std::alloc::Global;
use std::collections::VecDeque;

// What a new source takes memory for, and its history.
#[derive(Drop)]
pub(crate) struct Made<J: SourceNaming> {
    pub(super) places: Vec<Option<Receipt<J>>>,
    pub(super) out: Vec<bool>,
    pub(super) sleeping: Vec<bool>,
    pub(super) behind: VecDeque<Group>,
    pub(super) history: History<J>,
}

// Takes that memory: no receipt in a place, no seat given out, no thread asleep, no group. The history begins with the
// receipts of this log.
pub(crate) fn make<J: SourceNaming>(
    alloc: Global,
    beginning: Beginning,
    log: &[Record],
) -> Result<Made<J>, Memory>
    requires { beginning ≡ J.book }
    ensures places { IfOk result (λ made. made.places.items ≡ replicate 256 None) }
    ensures flags { IfOk result (λ made. (made.out.items ≡ replicate 256 false) × (made.sleeping.items ≡ replicate 256 false)) }
    ensures groups { IfOk result (λ made. made.behind.items ≡ []) }
    ensures history { IfOk result (λ made. made.history ≡ old_receipts log.now) }
{
    let places = empty_places(alloc)?;
    let out = no_flags(alloc)?;
    let sleeping = no_flags(alloc)?;
    let behind = VecDeque::with_capacity(alloc, SESSIONS)?;
    let Some(history) = beginning.begun(log) else {
        return Err(Memory);
    };
    Ok(Made {
        places,
        out,
        sleeping,
        behind,
        history,
    })
}

// A place without a receipt for each session.
fn empty_places<J: SourceNaming>(alloc: Global) -> Result<Vec<Option<Receipt<J>>>, Memory>
    ensures { IfOk result (λ places. places.items ≡ replicate 256 None) }
{
    let mut places = Vec::with_capacity(alloc, SESSIONS)?;
    for _place in 0..SESSIONS {
        let none: Option<Receipt<J>> = None;
        places.push(none)?;
    }
    Ok(places)
}

// A flag for each session, all false.
fn no_flags(alloc: Global) -> Result<Vec<bool>, Memory>
    ensures { IfOk result (λ out. out.items ≡ replicate 256 false) }
{
    let mut out = Vec::with_capacity(alloc, SESSIONS)?;
    for _place in 0..SESSIONS {
        out.push(false)?;
    }
    Ok(out)
}
