//! The events of a script. Until they run, one after another, they are kept in a short form (`kept`) and in pieces.

ghost use Rattle.std.specs.Prelude.{◌≡◌, ◌≤◌, ◌++◌, [], ◌∷◌, ◌==◌, length, is_some, IfOk, OnOk, OnErr, Some};
ghost use Rattle.world.specs.Seen.{seen};
ghost use Rattle.world.specs.State.{IsWorld};
ghost use Rattle.script_text.specs.Command.{event_of};
ghost use Rattle.script_text.specs.Kept.{IsWhole, width_of, event_of as whole};
ghost use Rattle.mtr.specs.Events.{AreWhole, events_of, one_or_none, events_in};
ghost use Rattle.mtr.specs.Pair.{GoesOn};

use log_device::Device;
use schema::Memory;
use script_text::command::keep;
use script_text::kept::KeptEvent;
use script_text::printing::put_reply;
use script_text::words::Words;
use std::alloc::Global;
use std::marker::Model;
use store_trait::RowStore;
use tracker_trait::Tracker;
use world::{Event, World};

/// The most events whose replies are printed at once.
const PIECE: usize = 1000;

/// Events, in order.
#[derive(Drop)]
pub struct Piece {
    kept: Vec<KeptEvent>,
    /// The columns of all these events, in order.
    columns: Vec<i64>,
}

impl Model for Piece {
    ghost use Rattle.std.specs.Prelude.{List};
    ghost use Rattle.world.specs.declared.events.Event.{Event};
    ghost use Rattle.mtr.specs.Events.{events_of, AreWhole};

    ghost Value = { List Event };

    ghost view = { λ piece. events_of piece.kept.items piece.columns.items };

    ghost invariant = { λ piece. AreWhole piece.kept.items piece.columns.items };
}

impl Piece {
    /// No events. It takes no memory.
    fn new(alloc: Global) -> Piece
        ensures { result ≡ [] }
    {
        Piece {
            kept: Vec::new(alloc),
            columns: Vec::new(alloc),
        }
    }

    /// Adds the event of this name with the words after it. Returns `false` if they are not an event.
    fn push(&mut self, name: &[u8], words: Words) -> Result<bool, Memory>
        ensures good { IfOk result (λ is_good. is_good ≡ is_some (event_of name.now words.entry)) }
        ensures ok { OnOk result (self.new ≡ self.old ++ one_or_none (event_of name.now words.entry)) }
        ensures err { OnErr result (self.new ≡ self.old) }
    {
        self.kept.reserve(1)?;
        let Some(kept) = keep(name, words, &mut self.columns)? else {
            return Ok(false);
        };
        self.kept.push_reserved(kept);
        Ok(true)
    }

    /// Runs the events in order, and appends the lines of their replies to a text.
    pub fn run<S: RowStore, T: Tracker, D: Device, R: RowStore>(
        &self,
        alloc: Global,
        world: &mut World<S, T, D, R>,
        text: &mut Vec<u8>,
    ) -> Result<(), Memory>
        requires { IsWorld R.contents (seen world.old) }
        ensures goes_on { OnOk result (GoesOn R.contents (seen world.old) (seen world.new) self.now (Some text.old.items)
            (Some text.new.items)) }
        ensures world { OnOk result (IsWorld R.contents (seen world.new)) }
    {
        run_all(alloc, world, &self.kept, &self.columns, text)
    }
}

/// Runs events in order, and appends the lines of their replies to a text. Each event takes the next of the columns.
fn run_all<S: RowStore, T: Tracker, D: Device, R: RowStore>(
    alloc: Global,
    world: &mut World<S, T, D, R>,
    kept: &[KeptEvent],
    columns: &[i64],
    text: &mut Vec<u8>,
) -> Result<(), Memory>
    requires world { IsWorld R.contents (seen world.old) }
    requires whole { AreWhole kept.now columns.now }
    ensures goes_on { OnOk result (GoesOn R.contents (seen world.old) (seen world.new) (events_of kept.now columns.now)
        (Some text.old.items) (Some text.new.items)) }
    ensures world { OnOk result (IsWorld R.contents (seen world.new)) }
{
    let mut columns = columns;
    for one in kept {
        let (own, rest) = columns.split_at(one.width());
        run_kept(alloc, world, *one, own, text)?;
        columns = rest;
    }
    Ok(())
}

/// Runs one kept event with its columns, and appends the line of its reply to a text. An event without columns is made
/// without room for them.
fn run_kept<S: RowStore, T: Tracker, D: Device, R: RowStore>(
    alloc: Global,
    world: &mut World<S, T, D, R>,
    kept: KeptEvent,
    columns: &[i64],
    text: &mut Vec<u8>,
) -> Result<(), Memory>
    requires world { IsWorld R.contents (seen world.old) }
    requires whole { IsWhole kept }
    requires width { length columns.now ≡ width_of kept }
    ensures goes_on { OnOk result (GoesOn R.contents (seen world.old) (seen world.new) (whole kept columns.now ∷ [])
        (Some text.old.items) (Some text.new.items)) }
    ensures world { IsWorld R.contents (seen world.new) }
{
    match kept {
        KeptEvent::Insert { .. } | KeptEvent::Update { .. } => {
            run_event(alloc, world, &kept.with(columns), text)
        }
        _ => run_event(alloc, world, &kept.bare(), text),
    }
}

/// Runs an event, and appends the line of its reply to a text.
#[inline(never)]
fn run_event<S: RowStore, T: Tracker, D: Device, R: RowStore>(
    alloc: Global,
    world: &mut World<S, T, D, R>,
    event: &Event,
    text: &mut Vec<u8>,
) -> Result<(), Memory>
    requires { IsWorld R.contents (seen world.old) }
    ensures goes_on { OnOk result (GoesOn R.contents (seen world.old) (seen world.new) (event.now ∷ []) (Some text.old.items)
        (Some text.new.items)) }
    ensures world { IsWorld R.contents (seen world.new) }
{
    put_reply(text, &world.step(alloc, event))
}

/// All events, in order, in pieces. The memory of a piece is freed once its events have run.
#[derive(Drop)]
pub struct EventList {
    pieces: Vec<Piece>,
    is_empty: bool,
}

impl Model for EventList {
    ghost use Rattle.std.specs.Prelude.{◌≡◌, ◌==◌, List, length};
    ghost use Rattle.world.specs.declared.events.Event.{Event};
    ghost use Rattle.mtr.specs.Events.{events_in};

    ghost Value = { List Event };

    ghost view = { λ events. events_in events.pieces.items };

    ghost invariant = { λ events. events.is_empty ≡ (length (events_in events.pieces.items) == 0) };
}

impl EventList {
    /// No events.
    pub fn new(alloc: Global) -> EventList
        ensures { result ≡ [] }
    {
        EventList {
            pieces: Vec::new(alloc),
            is_empty: true,
        }
    }

    /// Whether there are no events.
    pub fn is_empty(&self) -> bool
        ensures { result ≡ (length self.now == 0) }
    {
        self.is_empty
    }

    /// Adds the event of this name with the words after it. Returns `false` if they are not an event: no event has the
    /// name, or the words are not its parameters.
    pub fn push(&mut self, name: &[u8], words: Words) -> Result<bool, Memory>
        ensures good { IfOk result (λ is_good. is_good ≡ is_some (event_of name.now words.entry)) }
        ensures ok { OnOk result (self.new ≡ self.old ++ one_or_none (event_of name.now words.entry)) }
        ensures err { OnErr result (self.new ≡ self.old) }
    {
        make_room(&mut self.pieces)?;
        let is_good = push_last(&mut self.pieces, name, words)?;
        self.is_empty = self.is_empty && !is_good;
        Ok(is_good)
    }

    /// The pieces. Together they hold all the events.
    pub fn into_pieces(self) -> Vec<Piece>
        ensures { events_in result.items ≡ self }
    {
        let EventList { pieces, .. } = self;
        pieces
    }
}

/// Adds a piece if the last one is full or there is none.
fn make_room(pieces: &mut Vec<Piece>) -> Result<(), Memory>
    ensures same { events_in pieces.new.items ≡ events_in pieces.old.items }
    ensures some { OnOk result (1 ≤ length pieces.new.items) }
{
    let has_room = match pieces.last() {
        Some(piece) => piece.kept.len() < PIECE,
        None => false,
    };
    if !has_room {
        let piece = Piece::new(*pieces.allocator());
        pieces.push(piece)?;
    }
    Ok(())
}

/// Adds an event to the last piece.
fn push_last(pieces: &mut Vec<Piece>, name: &[u8], words: Words) -> Result<bool, Memory>
    requires { 1 ≤ length pieces.old.items }
    ensures good { IfOk result (λ is_good. is_good ≡ is_some (event_of name.now words.entry)) }
    ensures ok { OnOk result (events_in pieces.new.items ≡ events_in pieces.old.items ++ one_or_none (event_of name.now words.entry)) }
    ensures err { OnErr result (events_in pieces.new.items ≡ events_in pieces.old.items) }
{
    let last = pieces.len() - 1;
    pieces[last].push(name, words)
}
