//! Puts receipts into the places of their sessions.
ghost use Rattle.std.specs.Prelude.{◌≡◌, All, length};
ghost use Rattle.source_shared.specs.Engine.{ArePlaced, IsKnown, laid, laid_one};

use crate::book::{History, Receipt, SourceNaming};
use source_core::Receipt as Given;

// Puts each receipt into its session's place.
pub(crate) fn place_all<J: SourceNaming>(
    history: &History<J>,
    places: &mut Vec<Option<Receipt<J>>>,
    given: Vec<Given>,
)
    requires known { All (IsKnown history.now) given.items }
    requires placed { ArePlaced history.now 1 places.old.items }
    ensures laid { places.new.items ≡ laid given.items places.old.items }
    ensures placed { ArePlaced history.now 1 places.new.items }
    ensures places { length places.new.items ≡ length places.old.items }
{
    for receipt in given {
        place_one(history, places, receipt);
    }
}

// Puts a receipt into its session's place, if the session has one.
fn place_one<J: SourceNaming>(
    history: &History<J>,
    places: &mut Vec<Option<Receipt<J>>>,
    receipt: Given,
)
    requires known { IsKnown history.now receipt }
    requires placed { ArePlaced history.now 1 places.old.items }
    ensures laid { places.new.items ≡ laid_one receipt places.old.items }
    ensures placed { ArePlaced history.now 1 places.new.items }
    ensures places { length places.new.items ≡ length places.old.items }
{
    let session = receipt.session as usize;
    if session > 0 && session <= places.len() {
        places[session - 1] = Some(history.receipt(receipt));
    }
}
