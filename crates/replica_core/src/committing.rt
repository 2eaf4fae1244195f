//! The next commit, what is then taken off, and what may go.

ghost use Rattle.std.specs.Prelude.{◌≡◌, ◌≤◌, length, drop, is_some, if◌then◌else◌};
ghost use Rattle.std.specs.Option.{option_map};
ghost use Rattle.relay.specs.Relay.{LetsGo};
ghost use Rattle.commit_order.specs.Turns.{turn, passed};
ghost use Rattle.replica_core.specs.Core.{turn_output, turn_rows, parts_of, TakesTurn};

use crate::stored::Stored;
use commit_order::Turns;
use executor::Outcome;
use relay::Relay;
use schema::{Memory, Schema};
use store_trait::{Batch, Op, RowStore};

/// Puts the rows of the result whose turn has come, if there is one, keeps them as the commit of its record, and returns
/// the record's number. If the order of the log is not kept, the number follows those of the earlier commits. If memory
/// runs out, nothing changes.
pub fn commit_turn<S: RowStore>(
    schema: &Schema,
    stored: &mut Stored<S>,
    waiting: &mut Vec<Op>,
    order: &mut Vec<u64>,
    turns: &mut Turns,
) -> Result<Option<u64>, Memory>
    ensures { TakesTurn schema.now result
        (parts_of turns.old (S.contents stored.old.store) stored.old.index.map waiting.old.items order.old.items)
        (parts_of turns.new (S.contents stored.new.store) stored.new.index.map waiting.new.items order.new.items) }
{
    let Some((gno, batch)) = ready_rows(turns) else {
        return Ok(None);
    };
    // Room first: after the put nothing may fail.
    waiting.reserve(1)?;
    let noted = !turns.preserve();
    if noted {
        order.reserve(1)?;
    }
    stored.put(*waiting.allocator(), schema, batch)?;
    let Some(batch) = take_rows(turns) else {
        unreachable!();
    };
    waiting.push(Op::Commit { gno, batch }).unwrap();
    if noted {
        order.push(gno).unwrap();
    }
    Ok(Some(gno))
}

/// The number and the rows of the result whose turn has come.
fn ready_rows(turns: &Turns) -> Option<(u64, &Batch)>
    ensures { option_map (λ ready. (ready.0, ready.1.now)) result ≡ turn_rows turns.now }
{
    let done = turns.ready()?;
    match done.outcome() {
        Outcome::Output(batch) => Some((done.gno(), batch)),
        Outcome::Undefined | Outcome::WrongRefs | Outcome::Memory => None,
    }
}

/// Takes the result whose turn has come, for its rows.
fn take_rows(turns: &mut Turns) -> Option<Batch>
    ensures rows { result ≡ turn_output turns.old }
    ensures left { turns.new ≡ (if is_some (turn turns.old) then passed turns.old else turns.old) }
{
    turns.next()?.into_output()
}

/// Takes the first `count` items off a list.
pub fn drop_first<T: Drop>(list: &mut Vec<T>, count: usize)
    requires { count ≤ length list.old.items }
    ensures { list.new.items ≡ drop count list.old.items }
{
    list.drain(..count);
}

/// Lets the accepted records up to this number go, unless all are kept.
pub fn let_go(keeps: bool, relay: &mut Relay, upto: u64)
    requires { upto ≤ length relay.old.accepted }
    ensures { LetsGo (if keeps then 0 else upto) relay.old relay.new }
{
    if !keeps {
        relay.let_go(upto);
    }
}
