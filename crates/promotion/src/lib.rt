//! Makes a replica a source: over the rows after its commits, under a new identifier, and from record 1.
//!
//! The records that the replica committed leave exactly the rows with which the new source begins, whatever was
//! received. So what its readers saw leads to these rows. What it accepted and did not commit is dropped. So are jobs
//! that are out: they have copies, and touch no row. A stopped replica is taken like any other.
//!
//! All that may be refused only looks at the replica, which comes back whole with each refusal. `specs/Promotion.antt`
//! defines the refusals and their order. `laws` states what readers of both may rely on. It uses `replica_core` and
//! `source_core`. Nothing here knows whether the old source lives, or whether another replica committed more.
#![tactic(auto)]

ghost use Rattle.std.specs.Prelude.{◌≡◌, ◌≤◌, ◌<◌, ◌^◌, [], length, IfOk, OnOk, IfErr, Some};
ghost use Rattle.store_trait.specs.Operation.{loaded};
ghost use Rattle.replica_core.specs.Replica.{rows_at, working_rows};
ghost use Rattle.source_core.specs.Source.{new_source};
ghost use Rattle.promotion.specs.Promotion.{IsRefused, IsPromotable};

mod fault;
pub mod laws;

pub use fault::PromotionFault;
use replica_core::ReplicaCore;
use source_core::{Opening, SourceCore};
use std::alloc::Global;
use store_trait::{RowStore, rows_stand};
use tracker_trait::Tracker;
use uuid::Uuid;

/// A replica that became a source.
#[derive(Drop)]
pub struct Promoted<S: RowStore, T: Tracker> {
    /// The new source. Its log has no record.
    pub source: SourceCore<S, T>,
    /// The identifier under which its log will be written.
    pub identifier: Uuid,
    /// The number of records of the old log before the first of the new one. The counts of the old source's receipts
    /// and of the replica's readers continue with `behind` plus the new gno.
    pub behind: u64,
}

/// Makes the replica a source over the rows after its commits. Its log will be written under this identifier, as
/// MySQL's promoted server writes under its own `server_uuid`. The tracker is new, and the log has at most
/// `max_records` records. With n rows the time is n log n, and the memory that of `SourceCore::new` and of a copy of
/// the tables; the store itself is not copied. If it is refused, the replica comes back as it was, and may go on.
pub fn promote<S: RowStore, T: Tracker>(
    alloc: Global,
    replica: ReplicaCore<S>,
    identifier: Uuid,
    tracker: T,
    max_records: u64,
) -> Result<Promoted<S, T>, (PromotionFault, ReplicaCore<S>)>
where
    S: Drop,
    T: Drop,
    requires some { 1 ≤ max_records }
    requires few { max_records < 2 ^ 63 }

    // The tracker is new.
    requires tracker { T.agrees tracker replica.tables [] }
    ensures exact { IfErr result (λ e. IsRefused replica identifier e.0) }
    ensures back { IfErr result (λ e. e.1 ≡ replica) }
    ensures ok { OnOk result (IsPromotable replica identifier) }
    ensures base { IfOk result (λ p. Some (loaded p.source.base) ≡ rows_at replica (length replica.commits)) }
    ensures new { IfOk result (λ p. p.source ≡ new_source replica.tables p.source.base max_records (T.kind tracker)) }
    ensures identifier { IfOk result (λ p. p.identifier ≡ identifier) }
    ensures behind { IfOk result (λ p. p.behind ≡ length replica.commits) }
{
    let opening = match opening_of(alloc, &replica, identifier) {
        Ok(opening) => opening,
        Err(fault) => return Err((fault, replica)),
    };
    let behind = replica.committed();
    let store = replica.into_rows();
    let source = SourceCore::opened(opening, store, tracker, max_records);
    Ok(Promoted {
        source,
        identifier,
        behind,
    })
}

/// What the source begins with that the replica would become under this identifier: its tables, and its rows after its
/// commits. It only looks at the replica, which may go on, and refuses what `promote` refuses. A caller that writes the
/// new log in another process takes the tables and rows from here. With n rows the time is n log n, and the memory that
/// of a copy of the rows and of `SourceCore::new`.
pub fn opening_of<S: RowStore>(
    alloc: Global,
    replica: &ReplicaCore<S>,
    identifier: Uuid,
) -> Result<Opening, PromotionFault>
    ensures exact { IfErr result (λ fault. IsRefused replica.now identifier fault) }
    ensures ok { OnOk result (IsPromotable replica.now identifier) }
    ensures tables { IfOk result (λ opening. opening.tables ≡ replica.now.tables) }
    ensures base { IfOk result (λ opening. Some (loaded opening.base) ≡ rows_at replica.now (length replica.now.commits)) }
    ensures rows { IfOk result (λ opening. Some (loaded opening.base) ≡ working_rows replica.now) }
{
    refuse(replica, identifier)?;
    let schema = replica.schema().copy()?;
    Ok(Opening::of(alloc, schema, replica.store())?)
}

/// The first cause that refuses the replica, except for out of memory.
fn refuse<S: RowStore>(replica: &ReplicaCore<S>, identifier: Uuid) -> Result<(), PromotionFault>
    ensures exact { IfErr result (λ fault. IsRefused replica.now identifier fault) }
    ensures ok { OnOk result (IsPromotable replica.now identifier) }
{
    if identifier == replica.source() {
        return Err(PromotionFault::OwnName);
    }
    if replica.low_water() != replica.committed() {
        return Err(PromotionFault::Gaps);
    }
    if !rows_stand(replica.schema(), replica.store()) {
        return Err(PromotionFault::Misfit);
    }
    Ok(())
}
