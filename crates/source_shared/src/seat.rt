//! Seats: a session makes its calls through one.
ghost use Rattle.std.specs.Prelude.{◌≡◌, ◌↔◌, ◌≤◌, ◌-◌, IsTrue, true, length, take, OnOk, OnErr};
ghost use Rattle.source_shared.specs.Seat.{new_seat, begun_seat, wrote, aborted_seat, IsFor, Takes};

use crate::book::{Receipt, SourceNaming};
use record_codec::same_changes;
use rows::Change;
use schema::Memory;
use source_core::Receipt as Given;
use std::alloc::Global;
use std::marker::{Model, PhantomData};

/// The one seat of a session. It keeps the changes that the session wrote since it last began, to compare them with the
/// receipt that it gets. It may go to any thread.
#[derive(Drop)]
pub struct SessionSeat<J: SourceNaming> {
    session: u16,
    changes: Vec<Change>,
    last: u64,
    underway: bool,
    of: PhantomData<J>,
}

impl<J: SourceNaming> Model for SessionSeat<J> {
    ghost use Rattle.std.specs.Prelude.{◌≤◌};
    ghost use Rattle.source_shared.specs.Seat.{Seat};

    ghost Value = { Seat };

    ghost view = { λ s. record { session = s.session; changes = s.changes.items; last = s.last; underway = s.underway } };

    ghost invariant = { λ s. (1 ≤ s.session) × (s.session ≤ 256) };
}

impl<J: SourceNaming> SessionSeat<J> {
    // The seat of a session that wrote nothing.
    pub(crate) fn new(alloc: Global, session: u16) -> SessionSeat<J>
        requires { (1 ≤ session) × (session ≤ 256) }
        ensures { result ≡ new_seat session }
    {
        SessionSeat {
            session,
            changes: Vec::new(alloc),
            last: 0,
            underway: false,
            of: PhantomData,
        }
    }

    /// Its session's number, 1 to 256.
    pub fn session(&self) -> u16
        ensures number { result ≡ self.now.session }
        ensures least { 1 ≤ result }
        ensures greatest { result ≤ 256 }
    {
        self.session
    }

    // Whether its transaction is queued.
    pub(crate) fn is_underway(&self) -> bool
        ensures { result ≡ self.now.underway }
    {
        self.underway
    }

    // Notes that its transaction is queued.
    pub(crate) fn queued(&mut self)
        ensures { self.new ≡ record self.old { underway = true } }
    {
        self.underway = true;
    }

    // Notes that it begins a transaction.
    pub(crate) fn begun(&mut self)
        ensures { self.new ≡ begun_seat self.old }
    {
        self.changes.clear();
        self.underway = false;
    }

    // Notes that its transaction is aborted.
    pub(crate) fn aborted(&mut self)
        ensures { self.new ≡ aborted_seat self.old }
    {
        self.changes.clear();
    }

    // Notes that it wrote a change.
    pub(crate) fn wrote(&mut self, change: Change) -> Result<(), Memory>
        ensures ok { OnOk result (self.new ≡ wrote self.old change) }
        ensures err { OnErr result (self.new ≡ self.old) }
    {
        self.changes.push(change)?;
        Ok(())
    }

    // Takes the last change back: the core did not accept it.
    pub(crate) fn unwrote(&mut self)
        ensures { self.new ≡ record self.old { changes = take (length self.old.changes - 1) self.old.changes } }
    {
        self.changes.truncate(self.changes.len().saturating_sub(1));
    }

    // Whether the receipt fits this seat. If so, the seat takes it.
    pub(crate) fn takes(&mut self, receipt: &Receipt<J>) -> bool
        ensures { Takes self.old receipt.now result self.new }
    {
        let fits = self.fits(receipt.given());
        if fits {
            self.last = receipt.given().gno;
            self.underway = false;
        }
        fits
    }

    // Whether the receipt is for its session and for just its changes, and its gno is above those of its earlier
    // receipts.
    fn fits(&self, given: &Given) -> bool
        ensures { IsTrue result ↔ IsFor self.now given.now }
    {
        given.session == self.session
            && given.gno > self.last
            && same_changes(given.changes.list(), &self.changes)
    }
}
