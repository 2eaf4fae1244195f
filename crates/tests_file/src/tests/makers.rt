//! What the tests make their groups from.

ghost use Rattle.std.specs.Prelude.{◌≡◌, IfOk};

use log_device::Device;
use log_file::{LogFault, LogFile};
use record_codec::{Group, Marks, Record, Version};
use rows::Change;
use schema::Memory;
use std::alloc::Global;
use tests_log::common::record;
use tests_stores::again;
use tests_stores::common::{insert, row, update};

/// The change of the record of this number: the insert of a row, the update of a column of it, or the insert of another row.
fn change(gno: u64) -> Result<Change, Memory> {
    match gno {
        2 => update(row(1, 10), 0, 7),
        3 => insert(row(1, 11), &[7, 8]),
        _ => insert(row(1, 10), &[5, 6]),
    }
}

/// The group of one record with this number, in this form. Only record 2 has a parent.
pub fn group(alloc: Global, version: Version, gno: u64) -> Result<Group, Memory>
    ensures { IfOk result (λ group. group.version ≡ version) }
{
    let parent = u64::from(gno == 2);
    let records = [Record {
        gno,
        marks: Marks::none(alloc),
        ..again!(record(alloc, gno, parent, change(gno)?))?
    }];
    again!(Group::of(alloc, version, &records))
}

/// Appends the group of one record with this number, and syncs it.
pub fn put_again<D: Device>(alloc: Global, log: &mut LogFile<D>, gno: u64) -> Result<(), LogFault> {
    let group = group(alloc, log.version(), gno)?;
    again!(LogFault::Memory => log.append(&group))?;
    log.sync()
}
