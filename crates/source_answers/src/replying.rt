//! The replies for what the calls of the source return.

ghost use Rattle.std.specs.Prelude.{◌≡◌};
ghost use Rattle.std.specs.Result.{result_err};
ghost use Rattle.world.specs.Legal.{refused_or};
ghost use Rattle.world.specs.Replies.{seen_reply, prepared_reply};
ghost use Rattle.source_answers.specs.Replies.{synced_reply, committed_reply};

use durable_source::DurableFault;
use rows::Row;
use source_core::{Prepared, SourceFault};
use world::Reply;

/// The reply for a call that returns nothing.
pub(crate) fn done(answer: Result<(), SourceFault>) -> Reply
    ensures { result ≡ refused_or (result_err answer) Reply.Done }
{
    match answer {
        Ok(()) => Reply::Done,
        Err(fault) => Reply::Source(fault),
    }
}

pub(crate) fn seen(answer: Result<Option<Row>, SourceFault>) -> Reply
    ensures { result ≡ seen_reply answer }
{
    match answer {
        Ok(row) => Reply::Seen { row },
        Err(fault) => Reply::Source(fault),
    }
}

pub(crate) fn prepared(answer: Result<Prepared, SourceFault>) -> Reply
    ensures { result ≡ prepared_reply answer }
{
    match answer {
        Ok(Prepared::Parent(parent)) => Reply::Prepared { parent },
        Ok(Prepared::Empty) => Reply::Empty,
        Err(fault) => Reply::Source(fault),
    }
}

pub(crate) fn synced(answer: Result<Option<(u64, u64)>, DurableFault>) -> Reply
    ensures { result ≡ synced_reply answer }
{
    match answer {
        Ok(Some((first, last))) => Reply::Synced { first, last },
        Ok(None) => Reply::Nothing,
        Err(DurableFault::OfSource(fault)) => Reply::Source(fault),
        Err(DurableFault::OfLog(fault)) => Reply::Log(fault),
    }
}

pub(crate) fn committed(answer: Result<Option<(u64, u64)>, SourceFault>) -> Reply
    ensures { result ≡ committed_reply answer }
{
    match answer {
        Ok(Some((first, last))) => Reply::Committed { first, last },
        Ok(None) => Reply::Nothing,
        Err(fault) => Reply::Source(fault),
    }
}
