//! Runs a script's events one after another. The lines of their replies are gathered, and printed piece by piece.

ghost use Rattle.std.specs.Prelude.{◌≡◌, ◌≤◌, ◌++◌, [], length, IfOk, IfErr, IfSome, OnOk};
ghost use Rattle.std.specs.Io.KnownBytes.{Appends};
ghost use Rattle.world.specs.State.{IsWorld};
ghost use Rattle.world.specs.Seen.{seen};
ghost use Rattle.mtr.specs.Events.{events_in};
ghost use Rattle.mtr.specs.Script.{said};
ghost use Rattle.mtr.specs.Ending.{IsCutOff, PrintsNoReply};
ghost use Rattle.mtr.specs.Options.{AreSides, kind_for};
ghost use Rattle.mtr.specs.Pair.{BeginsWith, GoesOn, Prints, PrintsText};
ghost use Rattle.any_tracker.specs.Any.{IsNewTracker};

use crate::any_store::AnyStore;
use crate::ending::Stop;
use crate::events::Piece;
use crate::options::Sides;
use crate::pair::{Devices, MAX_RECORDS, NewStore, SOURCE, base_of, parts_over};
use crate::script::Script;
use any_tracker::AnyTracker;
use log_device::Device;
use rows::Row;
use schema::{RowId, Schema, Table};
use std::alloc::Global;
use std::io::{BufReader, Read, Write};
use store_trait::RowStore;
use tracker_trait::Tracker;
use uuid::Uuid;
use world::{World, pair_of};

/// The most bytes of a script that are read at once.
const CHUNK: usize = 65536;

/// The room for the lines of replies at first, in bytes.
const TEXT: usize = 1024;

/// Reads a script, and runs it over a new pair that is made of these parts, with its log on these devices. The whole
/// script is read and checked before the first event: its first bad line, then the tables, then the base rows. Each
/// event's reply is a line of the output. If memory runs out after some events, the output ends after a whole line.
pub fn run_text<D: Device + Drop, R: Read, W: Write>(
    alloc: Global,
    sides: Sides,
    devices: Devices<D>,
    input: &mut R,
    output: &mut W,
) -> Result<(), Stop>
    requires sides { AreSides sides }
    requires devices { length devices.spare.items ≡ 15 }
    ensures prints { OnOk result (IfSome (R.remaining input.old)
        (λ text. PrintsText (kind_for sides) sides.workers sides.preserve text (W.contents output.old) (W.contents output.new))) }
    ensures refused { IfErr result (PrintsNoReply (W.contents output.old) (W.contents output.new)) }
{
    let mut input = BufReader::with_capacity(alloc, CHUNK, input)?;
    let script = Script::read(alloc, &mut input)?;
    let tracker = AnyTracker::of(alloc, sides.tracker, sides.history as u32)?;
    run_script::<AnyStore, AnyTracker, D, W>(alloc, sides, tracker, devices, script, output)
}

/// Runs a script over a new pair with this tracker.
fn run_script<S: NewStore, T: Tracker + Drop, D: Device + Drop, W: Write>(
    alloc: Global,
    sides: Sides,
    tracker: T,
    devices: Devices<D>,
    script: Script,
    output: &mut W,
) -> Result<(), Stop>
    requires sides { AreSides sides }
    requires tracker { IsNewTracker T.agrees tracker }
    requires devices { length devices.spare.items ≡ 15 }
    ensures prints { OnOk result (Prints (T.kind tracker) sides.workers sides.preserve (said script) (W.contents output.old)
        (W.contents output.new)) }
    ensures refused { IfErr result (PrintsNoReply (W.contents output.old) (W.contents output.new)) }
{
    let Script {
        tables,
        base,
        events,
    } = script;
    let mut world = open::<S, T, D>(alloc, sides, tracker, devices, tables, &base)?;
    drop(base);
    let done = run_pieces(alloc, &mut world, events.into_pieces(), output);
    drop(world);
    done
}

/// A new world over a script's tables and base rows. `sides` gives the number of workers, the kind of the stores and
/// the order of commits.
fn open<S: NewStore, T: Tracker + Drop, D: Device + Drop>(
    alloc: Global,
    sides: Sides,
    tracker: T,
    devices: Devices<D>,
    tables: Vec<Table>,
    rows: &[(RowId, Row)],
) -> Result<World<S, T, D, S>, Stop>
    requires sides { AreSides sides }
    requires tracker { IsNewTracker T.agrees tracker }
    requires devices { length devices.spare.items ≡ 15 }
    ensures { IfOk result (λ world. BeginsWith S.contents (T.kind tracker) sides.workers sides.preserve tables.items rows.now
        (seen world)) }
{
    let schema = Schema::new(tables)?;
    let Some(base) = base_of(alloc, rows)? else {
        return Err(Stop::BadBase);
    };
    let from = Uuid::from_bytes(SOURCE);
    let Devices { first, spare } = devices;
    let parts = parts_over::<S, T, D>(alloc, sides.store, tracker, first);
    match pair_of(
        alloc,
        schema,
        from,
        &base,
        MAX_RECORDS,
        sides.workers,
        sides.preserve,
        parts,
    )? {
        Some(pair) => Ok(pair.into_world(alloc, base, S::without_rows(alloc, sides.store), spare)?),
        None => Err(Stop::BadBase),
    }
}

/// Runs the events of the pieces, over a world that continues from what was done before. The lines of a piece are
/// gathered before they are printed, so if memory runs out, no part of a line is printed. At most one piece's lines are
/// kept at a time, and a piece that has run is freed.
fn run_pieces<S: RowStore, T: Tracker, D: Device, R: RowStore, W: Write>(
    alloc: Global,
    world: &mut World<S, T, D, R>,
    pieces: Vec<Piece>,
    output: &mut W,
) -> Result<(), Stop>
    requires { IsWorld R.contents (seen world.old) }
    ensures goes_on { OnOk result (GoesOn R.contents (seen world.old) (seen world.new) (events_in pieces.items) (W.contents output.old)
        (W.contents output.new)) }
    ensures stop { IfErr result IsCutOff }
{
    let mut text = Vec::with_capacity(alloc, TEXT)?;
    for piece in pieces {
        text.clear();
        piece.run(alloc, world, &mut text)?;
        print(&text, output)?;
    }
    Ok(())
}

/// Prints lines.
fn print<W: Write>(text: &[u8], output: &mut W) -> Result<(), Stop>
    ensures lines { OnOk result (Appends (W.contents output.old) (W.contents output.new) text.now) }
    ensures stop { IfErr result IsCutOff }
{
    output.write_all(text)?;
    output.flush()?;
    Ok(())
}
