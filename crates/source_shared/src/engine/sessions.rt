//! What a session's call does: its seat, its transaction, and its place in the queue.
ghost use Rattle.std.specs.Prelude.{◌≡◌, ◌⊎◌, ◌+◌, ◌<◌, true, IfOk, IfErr, OnOk, OnErr, IsErrOf};
ghost use Rattle.std.specs.Result.{result_err};
ghost use Rattle.source_core.specs.Source.{seen_row};
ghost use Rattle.commit_stages.specs.Queues.{IsSession};
ghost use Rattle.source_core.specs.Calls.{
  begin_fault,
  write_fault,
  read_fault,
  prepare_fault,
  prepare_answer,
  prepared,
  abort_fault,
  aborted,
};
ghost use Rattle.source_shared.specs.Seat.{new_seat, begun_seat, wrote, aborted_seat};
ghost use Rattle.source_shared.specs.Engine.{seat_fault, IsSeatRefusal, seated, begun_by, Writes, enqueue_fault, enqueued};

use super::Engine;
use crate::book::SourceNaming;
use crate::seat::SessionSeat;
use log_device::Device;
use rows::{Change, Row};
use schema::RowId;
use source_core::{Prepared, SourceFault};
use store_trait::RowStore;
use tracker_trait::Tracker;

impl<S: RowStore, T: Tracker, D: Device + Drop, J: SourceNaming> Engine<S, T, D, J> {
    // The seat of the session, once.
    pub(crate) fn session(&mut self, session: u16) -> Result<SessionSeat<J>, SourceFault>
        ensures exact { result_err result ≡ seat_fault self.old session }
        ensures within { OnOk result (IsSession session) }
        ensures none { IsErrOf result SourceFault.NoSession → ¬ IsSession session }
        ensures only { IfErr result (IsSeatRefusal session) }
        ensures seat { IfOk result (λ seat. seat ≡ new_seat session) }
        ensures ok { OnOk result (self.new ≡ seated self.old session) }
        ensures err { OnErr result (self.new ≡ self.old) }
    {
        let place = self.core.admit(session)?;
        if self.out[place] {
            return Err(SourceFault::AlreadyOpen);
        }
        self.out[place] = true;
        Ok(SessionSeat::new(*self.out.allocator(), session))
    }

    // The core's call. A receipt that the session did not take is dropped.
    pub(crate) fn begin(&mut self, seat: &mut SessionSeat<J>) -> Result<(), SourceFault>
        ensures exact { result_err result ≡ begin_fault self.old.core seat.old.session }
        ensures ok { OnOk result (self.new ≡ begun_by self.old seat.old.session) }
        ensures seat { OnOk result (seat.new ≡ begun_seat seat.old) }
        ensures err { OnErr result (self.new ≡ self.old) }
        ensures same { OnErr result (seat.new ≡ seat.old) }
    {
        let session = seat.session();
        self.core.begin(session)?;
        self.places[session as usize - 1] = None;
        seat.begun();
        Ok(())
    }

    // The core's call. The seat keeps the change.
    pub(crate) fn write(
        &mut self,
        seat: &mut SessionSeat<J>,
        change: &Change,
    ) -> Result<(), SourceFault>
        ensures exact { IsErrOf result SourceFault.Memory ⊎ (result_err result ≡ write_fault self.old.core seat.old.session change.now) }
        ensures ok { OnOk result (Writes self.old seat.old.session change.now self.new) }
        ensures seat { OnOk result (seat.new ≡ wrote seat.old change.now) }
        ensures err { OnErr result (self.new ≡ self.old) }
        ensures same { OnErr result (seat.new ≡ seat.old) }
    {
        seat.wrote(*change)?;
        let done = self.core.write(seat.session(), *change);
        if done.is_err() {
            seat.unwrote();
        }
        done
    }

    // The core's call.
    pub(crate) fn read(&self, seat: &SessionSeat<J>, row: RowId) -> Result<Option<Row>, SourceFault>
        ensures exact { result_err result ≡ read_fault self.now.core seat.now.session row }
        ensures value { IfOk result (λ columns. columns ≡ seen_row self.now.core seat.now.session row) }
    {
        self.core.read(seat.session(), row)
    }

    // The core's call.
    pub(crate) fn prepare(&mut self, seat: &SessionSeat<J>) -> Result<Prepared, SourceFault>
        ensures exact { result_err result ≡ prepare_fault self.old.core seat.now.session }
        ensures value { IfOk result (λ answer. answer ≡ prepare_answer self.old.core seat.now.session) }
        ensures ok { OnOk result (self.new ≡ record self.old { core = prepared self.old.core seat.now.session }) }
        ensures err { OnErr result (self.new ≡ self.old) }
    {
        self.core.prepare(seat.session())
    }

    // The core's call. The seat forgets its changes.
    pub(crate) fn abort(&mut self, seat: &mut SessionSeat<J>) -> Result<(), SourceFault>
        ensures exact { result_err result ≡ abort_fault self.old.core seat.old.session }
        ensures ok { OnOk result (self.new ≡ record self.old { core = aborted self.old.core seat.old.session }) }
        ensures seat { OnOk result (seat.new ≡ aborted_seat seat.old) }
        ensures err { OnErr result (self.new ≡ self.old) }
        ensures same { OnErr result (seat.new ≡ seat.old) }
    {
        self.core.abort(seat.session())?;
        seat.aborted();
        Ok(())
    }

    // Queues the seat's transaction, unless it is queued. It returns the session's place.
    pub(crate) fn enqueue(&mut self, seat: &mut SessionSeat<J>) -> Result<usize, SourceFault>
        ensures exact { result_err result ≡ enqueue_fault self.old seat.old }
        ensures place { IfOk result (λ place. (place + 1 ≡ seat.old.session) × (place < 256)) }
        ensures ok { OnOk result (self.new ≡ enqueued self.old seat.old) }
        ensures seat { OnOk result (seat.new ≡ record seat.old { underway = true }) }
        ensures err { OnErr result (self.new ≡ self.old) }
        ensures same { OnErr result (seat.new ≡ seat.old) }
    {
        let place = self.core.admit(seat.session())?;
        if !seat.is_underway() {
            self.core.queue(seat.session())?;
            seat.queued();
        }
        Ok(place)
    }
}
