//! The replies for what the calls of both sides return.

ghost use Rattle.std.specs.Prelude.{◌≡◌};
ghost use Rattle.std.specs.Result.{result_err};
ghost use Rattle.world.specs.Legal.{refused_or};
ghost use Rattle.world.specs.Replies.{ends_reply, received_reply, seen_reply, prepared_reply};

use crate::events::Reply;
use relay::{Received, ReplicaFault};
use rows::Row;
use source_core::{Prepared, SourceFault};

/// The reply for a call that returns nothing.
pub(crate) fn done(answer: Result<(), SourceFault>) -> Reply
    ensures { result ≡ refused_or (result_err answer) Reply.Done }
{
    match answer {
        Ok(()) => Reply::Done,
        Err(fault) => Reply::Source(fault),
    }
}

/// The reply for a read at the source.
pub(crate) fn seen(answer: Result<Option<Row>, SourceFault>) -> Reply
    ensures { result ≡ seen_reply answer }
{
    match answer {
        Ok(row) => Reply::Seen { row },
        Err(fault) => Reply::Source(fault),
    }
}

/// The reply for a prepare.
pub(crate) fn prepared(answer: Result<Prepared, SourceFault>) -> Reply
    ensures { result ≡ prepared_reply answer }
{
    match answer {
        Ok(Prepared::Parent(parent)) => Reply::Prepared { parent },
        Ok(Prepared::Empty) => Reply::Empty,
        Err(fault) => Reply::Source(fault),
    }
}

/// The reply for a commit of the records from the first to the last of these numbers.
pub(crate) fn committed(ends: Option<(u64, u64)>) -> Reply
    ensures { result ≡ ends_reply ends }
{
    match ends {
        Some((first, last)) => Reply::Committed { first, last },
        None => Reply::Nothing,
    }
}

/// The reply for a record that was received.
pub(crate) fn received(answer: Result<Received, ReplicaFault>) -> Reply
    ensures { result ≡ received_reply answer }
{
    match answer {
        Ok(Received::Accepted) => Reply::Accepted,
        Ok(Received::Skipped) => Reply::Skipped,
        Err(fault) => Reply::Replica(fault),
    }
}
