//! The ids of the accepted records.

ghost use Rattle.std.specs.Prelude.{◌≡◌, ◌-◌, ◌^◌, ◌<◌, ◌≤◌, OnOk, OnErr};
ghost use Rattle.gtid_set.specs.Ids.{first_ids};

use gtid_set::{GtidFault, GtidSet};
use schema::{Gtid, Memory};
use uuid::Uuid;

/// Adds the id of this number to those before it.
pub(crate) fn add_next(ids: &mut GtidSet, source: Uuid, gno: u64) -> Result<(), Memory>
    requires number { (1 ≤ gno) × (gno < 2 ^ 63) }
    requires before { ids.old ≡ first_ids source (gno - 1) }
    ensures ok { OnOk result (ids.new ≡ first_ids source gno) }
    ensures err { OnErr result (ids.new ≡ ids.old) }
{
    match ids.add(Gtid { source, gno }) {
        Ok(_) => Ok(()),
        Err(GtidFault::Memory) => Err(Memory),
        Err(_) => unreachable!(),
    }
}
