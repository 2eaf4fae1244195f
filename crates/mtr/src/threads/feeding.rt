//! The work of the sessions' threads and of the wire's thread.

ghost use Rattle.std.specs.Prelude.{◌<◌};

use super::changes::{inserted, set_before};
use super::shared::Shared;
use super::trouble::Trouble;
use crate::pair::{NewStore, SOURCE};
use replica_core::Wire;
use replica_shared::ReplicaNaming;
use source_shared::{Receipt, SessionSeat, SourceNaming};
use std::alloc::Global;
use std::sync::Wait;
use std::thread::{Threads, join, map_indices};
use tracker_trait::Tracker;
use uuid::Uuid;

/// How many bytes of the log are sent at once.
const PIECE: usize = 7;

/// How many bytes are sent first. Each record of a session has a multiple of seven bytes. So each record ends in the
/// middle of a piece, which also has the start of the next record.
const FIRST: usize = 3;

/// The most bytes of the log that are taken from the source at once, unless a single record has more.
const ROOM: usize = 4096;

/// The receipts of one session, in order, or why it stopped.
type Receipts<J> = Result<Vec<Receipt<J>>, Trouble>;

impl<
    S: NewStore,
    T: Tracker + Drop + Send + Sync,
    J: SourceNaming + Send + Sync,
    K: ReplicaNaming + Send + Sync,
    H: Threads + Wait + Sync,
> Shared<'_, S, T, J, K, H> {
    /// Commits what all sessions write, and sends the source's log to the replica. However the sessions and the wire
    /// end, it then closes the replica, since no more comes.
    pub fn feed(&self) -> Receipts<J> {
        // If no thread can be made, `join` calls the second closure first.
        let (carried, receipts) = join(self.rt, || self.carry_all(), || self.commit_all());
        self.replica.close(self.rt);
        carried?;
        receipts
    }

    /// Commits the transactions of all sessions, each session in a separate thread. Then it closes the source, which
    /// ends the wire.
    fn commit_all(&self) -> Receipts<J> {
        let each = map_indices(
            self.rt,
            self.alloc,
            self.plan.sessions,
            &|place|
                requires { place < 16 }
            { self.commit_session(place) },
        );
        self.source.close(self.rt);
        all_receipts(self.alloc, each?)
    }

    /// Commits the transactions of the session at this place, counted from 0, one after another.
    fn commit_session(&self, place: usize) -> Receipts<J>
        requires { place < 16 }
    {
        let session = place as u16 + 1;
        let transactions = self.plan.transactions as u16;
        let mut seat = self.source.session(self.rt, session)?;
        let mut receipts = Vec::with_capacity(self.alloc, transactions as usize)?;
        for transaction in 1..=transactions {
            receipts.push(self.commit_one(&mut seat, transaction)?)?;
        }
        Ok(receipts)
    }

    /// Writes and commits one transaction of the seat's session.
    fn commit_one(
        &self,
        seat: &mut SessionSeat<J>,
        transaction: u16,
    ) -> Result<Receipt<J>, Trouble> {
        let (rt, source) = (self.rt, self.source);
        source.begin(rt, seat)?;
        source.write(rt, seat, inserted(seat.session(), transaction))?;
        if transaction > 1 {
            source.write(rt, seat, set_before(seat.session(), transaction))?;
        }
        source.prepare(rt, seat)?;
        Ok(source.commit(rt, seat)?)
    }

    /// Sends the source's log to the replica until the sessions have ended and everything is sent. At a time it keeps
    /// the bytes of the records that fit the room, and of at least one.
    fn carry_all(&self) -> Result<(), Trouble> {
        let mut wire = Wire::new(self.alloc, Uuid::from_bytes(SOURCE));
        let mut bytes = Vec::with_capacity(self.alloc, ROOM)?;
        let mut sent = 0u64;
        for _ in self.rt.forever() {
            let count = self.carry_past(sent, &mut wire, &mut bytes)?;
            if count == 0 {
                return Ok(());
            }
            sent = sent.saturating_add(count);
        }
        unreachable!()
    }

    /// Sends the next records past `sent`, once there are any, and returns their number: 0 if no more come. Bytes that
    /// do not fill a piece are kept, and sent with the bytes after them or at the end.
    fn carry_past(&self, sent: u64, wire: &mut Wire, bytes: &mut Vec<u8>) -> Result<u64, Trouble> {
        let count = self.source.bytes_past(self.rt, sent, bytes)?;
        if count == 0 {
            self.send(wire, bytes)?;
            return Ok(0);
        }
        if sent == 0 {
            self.send_off(wire, bytes, FIRST)?;
        }
        let whole = bytes.len() - bytes.len() % PIECE;
        self.send_off(wire, bytes, whole)?;
        Ok(count)
    }

    /// Sends the first `count` bytes over the wire, or all if there are fewer, and removes them.
    fn send_off(&self, wire: &mut Wire, bytes: &mut Vec<u8>, count: usize) -> Result<(), Trouble> {
        let count = count.min(bytes.len());
        self.send(wire, &bytes[..count])?;
        bytes.drain(..count);
        Ok(())
    }

    /// Sends bytes over the wire, in pieces.
    fn send(&self, wire: &mut Wire, bytes: &[u8]) -> Result<(), Trouble> {
        for piece in bytes.chunks(PIECE) {
            self.replica.feed(self.rt, wire, piece)?;
        }
        Ok(())
    }
}

/// The receipts of all sessions, in one list.
fn all_receipts<J: SourceNaming>(alloc: Global, each: Vec<Receipts<J>>) -> Receipts<J> {
    let mut all = Vec::new(alloc);
    for receipts in each {
        all.append(&mut receipts?)?;
    }
    Ok(all)
}
