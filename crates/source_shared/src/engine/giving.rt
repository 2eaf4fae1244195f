//! Receipts: what a commit gives, and what a session finds that waits for its receipt.
ghost use Rattle.std.specs.Prelude.{
  ◌≡◌,
  ◌⊎◌,
  ◌<◌,
  None,
  Some,
  IfOk,
  IfErr,
  IfSome,
  IsOk,
  OnOk,
  OnErr,
  IsErrOf,
  slice_index_or,
  is_some,
  count_by,
};
ghost use Rattle.std.specs.Result.{result_err};
ghost use Rattle.source_core.specs.declared.transaction.Receipt.{Receipt as AReceipt};
ghost use Rattle.source_core.specs.Calls.{halted_fault};
ghost use Rattle.source_shared.specs.Seat.{given_to, IsFor};
ghost use Rattle.source_shared.specs.Engine.{due_of, emptied, failed, given, has_end};

use super::{Due, Engine};
use crate::book::{Receipt, SourceNaming};
use crate::leading::place_all;
use crate::seat::SessionSeat;
use log_device::Device;
use source_core::SourceFault;
use store_trait::RowStore;
use tracker_trait::Tracker;

impl<S: RowStore, T: Tracker, D: Device + Drop, J: SourceNaming> Engine<S, T, D, J> {
    // Commits the synced transactions, and puts their receipts into the places.
    pub(super) fn give(&mut self) -> Result<(), SourceFault>
        ensures exact { IsErrOf result SourceFault.Memory ⊎ (result_err result ≡ halted_fault self.old.core) }
        ensures no_memory { self.old.core.committed ≡ self.old.core.synced → result_err result ≡ halted_fault self.old.core }
        ensures ok { OnOk result (self.new ≡ given self.old) }
        ensures err { OnErr result (self.new ≡ self.old) }
    {
        let given = self.core.commit()?;
        let given = self.history.add(given);
        place_all(&self.history, &mut self.places, given);
        self.stirred = true;
        Ok(())
    }

    // What the session of this place finds as it waits for its receipt.
    pub(crate) fn due(&self, place: usize) -> Due
        requires place { place < 256 }
        ensures { result ≡ due_of self.now place }
    {
        if self.has_end(place) {
            Due::Ended
        } else if self.writer.is_some() {
            Due::Lead
        } else {
            Due::Wait
        }
    }

    // Whether the wait of this place's session has ended: its receipt is there, or the source is halted.
    pub(super) fn has_end(&self, place: usize) -> bool
        requires { place < 256 }
        ensures { result ≡ has_end self.now place }
    {
        self.core.is_halted() || self.places[place].is_some()
    }

    // The receipt in the seat's place, if it fits the seat. Otherwise the source is halted.
    pub(crate) fn hand(
        &mut self,
        place: usize,
        seat: &mut SessionSeat<J>,
    ) -> Result<Receipt<J>, SourceFault>
        requires place { place < 256 }
        ensures gives { (receipt : AReceipt) → slice_index_or self.old.places place None ≡ Some receipt → IsFor seat.old receipt
            → IfOk result (λ given. given ≡ receipt) × IsOk result × (self.new ≡ emptied self.old place) }
        ensures none { OnErr result (IfSome (slice_index_or self.old.places place None) (λ receipt. ¬ IsFor seat.old receipt)) }
        ensures ok { IfOk result (λ receipt. IsFor seat.old receipt × (seat.new ≡ given_to seat.old receipt)) }
        ensures err { OnErr result (seat.new ≡ seat.old) }
        ensures halted { IfErr result (λ fault. (fault ≡ SourceFault.Halted) × (self.new ≡ failed (emptied self.old place))) }
    {
        match self.places[place].take() {
            Some(receipt) if seat.takes(&receipt) => Ok(receipt),
            _ => {
                self.core.log_failed();
                self.stirred = true;
                Err(SourceFault::Halted)
            }
        }
    }

    // How many receipts no session has taken yet.
    pub(crate) fn receipts(&self) -> usize
        ensures { result ≡ count_by is_some self.now.places }
    {
        count_receipts(&self.places)
    }
}

// How many receipts are there.
fn count_receipts<J: SourceNaming>(places: &[Option<Receipt<J>>]) -> usize
    ensures { result ≡ count_by is_some places.now }
{
    places.iter().filter(|place| place.is_some()).count()
}
