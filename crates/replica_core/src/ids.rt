//! The ids of the committed records.

ghost use Rattle.std.specs.Prelude.{◌≡◌, ◌+◌, ◌<◌, ◌≤◌, ◌^◌, IfOk, OnErr};
ghost use Rattle.gtid_set.specs.Ids.{add_fault, Adds};
ghost use Rattle.replica_core.specs.Core.{AreMarked, IsMarked};

use gtid_set::{GtidFault, GtidSet};
use scheduler::Scheduler;
use schema::{Gtid, Memory};
use std::alloc::Global;
use uuid::Uuid;

/// The ids of this source whose numbers, from 1 to `last`, are those of committed records: those up to the low-water mark
/// at once, and then each committed one after it.
pub fn committed_ids(
    alloc: Global,
    source: Uuid,
    scheduler: &Scheduler,
    last: u64,
) -> Result<GtidSet, Memory>
    requires low { scheduler.now.low ≤ last }
    requires few { last < 2 ^ 63 }
    ensures ok { IfOk result (λ ids. AreMarked source scheduler.now last ids) }
    ensures memory { OnErr result (IsMarked scheduler.now) }
{
    let low = scheduler.low_water();
    let mut ids = GtidSet::first(alloc, source, low)?;
    for gno in low + 1..last + 1 {
        if scheduler.is_committed(gno) {
            add_id(&mut ids, Gtid { source, gno })?;
        }
    }
    Ok(ids)
}

/// Adds an id that may be added.
fn add_id(ids: &mut GtidSet, id: Gtid) -> Result<(), Memory>
    requires { add_fault ids.old id ≡ None }
    ensures { IfOk result (λ _. Adds ids.old ids.new id) }
{
    match ids.add(id) {
        Ok(_) => Ok(()),
        Err(GtidFault::Memory) => Err(Memory),
        Err(_) => unreachable!(),
    }
}
