//! A source over the log's files, which continues at the end of the log.

ghost use Rattle.std.specs.Prelude.{◌≡◌, IfOk, OnOk};
ghost use Rattle.log_file.specs.declared.form.Form.TheVariants.{Three};
ghost use Rattle.source_core.specs.AtLog.{source_at};
ghost use Rattle.source_shared.specs.Engine.{HoldsAll};

use crate::trouble::Trouble;
use btree_store::BTreeStore;
use commit_order_tracker::CommitOrder;
use log_file::Form;
use log_set::LogSet;
use record_codec::Record;
use recovery::replay;
use schema::{Schema, Table};
use source_core::SourceCore;
use std::alloc::Global;
use std::fs::File;
use std::random::RandomSource;
use std::rt::Files;
use stored_log::OnFile;
use uuid::Uuid;

/// The table of the rows, each with its session and its number.
pub const ROWS: u16 = 1;

/// The most records of the log.
const RECORDS: u64 = 1000000000;

/// The source, for one thread.
pub type Core = SourceCore<BTreeStore, CommitOrder>;

/// A source, and the log's files, which have exactly its records.
#[derive(Drop)]
pub struct Opened {
    pub core: Core,
    pub log: LogSet<OnFile>,
}

/// Opens the log, or makes one with a new identifier if there is none. Returns it with a source that continues from it.
/// If the log has no records, that is a new source.
pub fn open_or_make<R: Files<File = File> + RandomSource>(
    rt: &R,
    alloc: Global,
    prefix: &str,
) -> Result<Opened, Trouble>
    ensures core { IfOk result (λ o. o.core ≡ source_at o.core.tables o.core.base o.core.limit o.core.kind o.core.log) }
    ensures log { IfOk result (λ o. HoldsAll o.log.log o.core.log) }
{
    let new = Uuid::try_new_v4(rt).map_err(|error| Trouble::NoIdentifier(error))?;
    let log = stored_log::open_or_make(rt, alloc, prefix, new)?;
    refuse_old(&log)?;
    let core = core_at(alloc, &log.records(alloc)?)?;
    Ok(Opened { core, log })
}

/// Refuses a log of an earlier form, in which no source continues.
fn refuse_old(log: &LogSet<OnFile>) -> Result<(), Trouble>
    ensures { OnOk result (log.now.log.head.form ≡ Three) }
{
    if log.form() == Form::Three {
        Ok(())
    } else {
        Err(Trouble::OldForm)
    }
}

/// A source that continues from these records, all of which are committed. There are no rows before the first record.
fn core_at(alloc: Global, records: &[Record]) -> Result<Core, Trouble>
    ensures at { IfOk result (λ core. core ≡ source_at core.tables core.base core.limit core.kind core.log) }
    ensures log { IfOk result (λ core. core.log ≡ records.now) }
{
    let rows = BTreeStore::new(alloc);
    let found = replay(alloc, schema(alloc)?, rows, records, RECORDS)?;
    Ok(found.resume(alloc, CommitOrder, RECORDS)?)
}

/// The tables.
pub fn schema(alloc: Global) -> Result<Schema, Trouble> {
    let tables = vec![in alloc; Table::new(ROWS, 2, true)]?;
    Ok(Schema::new(tables)?)
}
