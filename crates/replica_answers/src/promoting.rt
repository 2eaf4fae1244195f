//! Makes the log of a new source from a replica.

ghost use Rattle.std.specs.Prelude.{◌≡◌, length, OnOk};
ghost use Rattle.std.specs.Io.KnownBytes.{Appends};
ghost use Rattle.replica_answers.specs.Conversation.{TellsPromoted, UnlessLost, promoted_text};

use crate::commands::{Wish, says_nothing, wish_in};
use crate::replicating::ending_of;
use btree_store::BTreeStore;
use log_tools::{Ending, Lines, Stop, make_over};
use promotion::{PromotionFault, opening_of};
use replica_core::ReplicaCore;
use std::alloc::Global;
use std::fs::File;
use std::io;
use std::io::{BufRead, Write};
use std::rt::Files;
use uuid::Uuid;

/// Makes a log over the rows that the replica's commits left, under a new identifier, as a line asked for. It prints
/// the identifier, and after how many records of which log the new one begins. If that is refused, it reports the
/// fault, and a later line may ask again: nothing is lost.
pub fn promote<
    H: Files<File = File> + Alloc<A = Global> + Clone + Drop,
    R: BufRead,
    W: Write,
    E: Write,
>(
    rt: &H,
    alloc: Global,
    core: &ReplicaCore<BTreeStore>,
    first: Wish,
    new: &io::Result<Uuid>,
    lines: &mut Lines,
    input: &mut R,
    output: &mut W,
    errors: &mut E,
) -> Result<Ending, Stop>
    ensures { UnlessLost result (TellsPromoted core.now.source (length core.now.commits) (W.contents output.old) (W.contents output.new)) }
{
    let mut wish = first;
    for _ in 0..u64::MAX {
        let ending = match make_promoted(rt, alloc, core, &wish, new) {
            Ok(identifier) => {
                tell_promoted(output, core, identifier)?;
                return Ok(ending_of(Ending::Done, lines.is_good()));
            }
            Err(stop) => stop.at(&wish.prefix).tell(errors),
        };
        match next_wish(alloc, lines, input, errors)? {
            Some(next) => wish = next,
            None => return Ok(ending),
        }
    }
    Ok(Ending::Refused)
}

/// Makes the log, and returns its identifier.
fn make_promoted<H: Files<File = File> + Alloc<A = Global> + Clone + Drop>(
    rt: &H,
    alloc: Global,
    core: &ReplicaCore<BTreeStore>,
    wish: &Wish,
    new: &io::Result<Uuid>,
) -> Result<Uuid, Stop> {
    let identifier = match wish.identifier {
        Some(identifier) => identifier,
        None => match new {
            Ok(identifier) => *identifier,
            Err(error) => return Err(Stop::NoIdentifier(*error)),
        },
    };
    let opening = match opening_of(alloc, core, identifier) {
        Ok(opening) => opening,
        Err(PromotionFault::Memory) => return Err(Stop::Memory),
        Err(fault) => return Err(Stop::Promotion(fault)),
    };
    make_over(
        rt,
        alloc,
        &wish.prefix,
        identifier,
        opening.schema(),
        opening.base(),
    )?;
    Ok(identifier)
}

/// Prints the identifier of the new log, and after how many records of which log it begins.
fn tell_promoted<W: Write>(
    out: &mut W,
    core: &ReplicaCore<BTreeStore>,
    identifier: Uuid,
) -> io::Result<()>
    ensures { OnOk result (Appends (W.contents out.old) (W.contents out.new)
        (promoted_text core.now.source (length core.now.commits) (Some identifier))) }
{
    writeln!(out, "source {}", identifier.hyphenated())?;
    writeln!(
        out,
        "after {} records of {}",
        core.committed(),
        core.source().hyphenated()
    )?;
    out.flush()
}

/// The next log that a line asks for; `None` after the last line. Each other line is bad now, except for one that says
/// nothing.
fn next_wish<R: BufRead, E: Write>(
    alloc: Global,
    lines: &mut Lines,
    input: &mut R,
    errors: &mut E,
) -> Result<Option<Wish>, Stop> {
    for _ in 0..u64::MAX {
        lines.prompt(errors)?;
        let Some(line) = lines.next(input)? else {
            return Ok(None);
        };
        let is_nothing = says_nothing(line);
        match wish_in(alloc, line)? {
            Some(wish) => return Ok(Some(wish)),
            None if is_nothing => {}
            None => lines.refuse(errors)?,
        }
    }
    Ok(None)
}
