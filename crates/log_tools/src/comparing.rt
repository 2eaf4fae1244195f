//! `diff`: prints what differs between two logs.

ghost use Rattle.std.specs.Prelude.{◌≡◌, ◌≢◌, ◌↔◌, ◌++◌, true, false, length, take, IsTrue, IfOk, IfErr, IfSome, IfNone, OnOk};
ghost use Rattle.std.specs.List.{flat_map};
ghost use Rattle.std.specs.Io.KnownBytes.{Appends};
ghost use Rattle.store_trait.specs.Batch.{all_rows};
ghost use Rattle.store_trait.specs.Fits.{AreOfTables};
ghost use Rattle.store_trait.specs.Operation.{loaded};
ghost use Rattle.log_tools.specs.Diff.{DiffersAt, AreAlike, TellsDifferences, row_words, difference_line, changed_line, added_line};
ghost use Rattle.log_tools.specs.Diff.{tables_line, record_line, rows_text, same_line};
ghost use Rattle.log_tools.specs.Logs.{IsLogOf, ComparesRecords, ComparesLogs};

use crate::ending::{Stop, StopAt};
use crate::logs::Copied;
use btree_store::BTreeStore;
use record_codec::{Record, same_records};
use recovery::RecoveredLog;
use rows::Row;
use schema::{RowId, Schema};
use script_text::heads::write_columns;
use std::alloc::Global;
use std::fs::File;
use std::io;
use std::io::Write;
use std::rt::Files;
use store_trait::{Batch, RowStore, snapshot};

/// One of two logs that are compared: its tables, its records up to the number compared, and a store of the rows that
/// these leave.
#[derive(Drop)]
pub struct Side<'a, S: RowStore> {
    schema: &'a Schema,
    records: &'a [Record],
    store: &'a S,
}

/// Prints what differs between two logs after `upto` records, or after as many as both have. It prints that the tables
/// differ, if they do, the first record that differs, and each row that differs. It ends with `Stop::Different` if
/// anything differs.
pub fn diff<'a, H: Files<File = File>, W: Write>(
    rt: &H,
    alloc: Global,
    one: &'a str,
    other: &'a str,
    upto: Option<usize>,
    out: &mut W,
) -> Result<(), StopAt<'a>>
    ensures alike { OnOk result (ComparesLogs true upto (W.contents out.old) (W.contents out.new)) }
    ensures different { IfErr result (λ stop. stop.stop ≡ Stop.Different
        → ComparesLogs false upto (W.contents out.old) (W.contents out.new)) }
{
    let mine = read(rt, alloc, one)?;
    let theirs = read(rt, alloc, other)?;
    compare_read(alloc, one, &mine, other, &theirs, upto, out)
}

/// Like `diff`, but for two logs that were read.
fn compare_read<'a, W: Write>(
    alloc: Global,
    one: &'a str,
    mine: &Copied,
    other: &'a str,
    theirs: &Copied,
    upto: Option<usize>,
    out: &mut W,
) -> Result<(), StopAt<'a>>
    requires mine { IsLogOf mine.now.described mine.now.set }
    requires theirs { IsLogOf theirs.now.described theirs.now.set }
    ensures alike { OnOk result (ComparesLogs true upto (W.contents out.old) (W.contents out.new)) }
    ensures different { IfErr result (λ stop. stop.stop ≡ Stop.Different
        → ComparesLogs false upto (W.contents out.old) (W.contents out.new)) }
{
    let both = mine.set.count().min(theirs.set.count()) as usize;
    let upto = upto.unwrap_or(both);
    let my_records = records(alloc, one, mine, upto)?;
    let left = replayed(alloc, one, mine, &my_records)?;
    let their_records = records(alloc, other, theirs, upto)?;
    let right = replayed(alloc, other, theirs, &their_records)?;
    compare_found(alloc, one, mine, &left, theirs, &right, out)
}

fn read<'a, H: Files<File = File>>(
    rt: &H,
    alloc: Global,
    prefix: &'a str,
) -> Result<Copied, StopAt<'a>>
    ensures is { IfOk result (λ log. IsLogOf log.described log.set) }
    ensures other { IfErr result (λ stop. stop.stop ≢ Stop.Different) }
{
    Copied::read(rt, alloc, prefix).map_err(|stop| stop.at(prefix))
}

/// The first `upto` records of the log.
fn records<'a>(
    alloc: Global,
    prefix: &'a str,
    log: &Copied,
    upto: usize,
) -> Result<Vec<Record>, StopAt<'a>>
    ensures records { IfOk result (λ records. records.items ≡ take upto log.now.set.log.records) }
    ensures count { IfOk result (λ records. length records.items ≡ upto) }
    ensures other { IfErr result (λ stop. stop.stop ≢ Stop.Different) }
{
    match log.records(alloc, Some(upto)) {
        Ok(records) => Ok(records),
        Err(stop) => Err(stop.at(prefix)),
    }
}

/// Replays these records of the log.
fn replayed<'a>(
    alloc: Global,
    prefix: &'a str,
    log: &Copied,
    records: &[Record],
) -> Result<RecoveredLog<BTreeStore>, StopAt<'a>>
    ensures tables { IfOk result (λ found. found.tables ≡ log.now.described.head.schema) }
    ensures base { IfOk result (λ found. loaded found.base ≡ loaded log.now.described.head.base) }
    ensures log { IfOk result (λ found. found.log ≡ records.now) }
    ensures other { IfErr result (λ stop. stop.stop ≢ Stop.Different) }
{
    match log.replayed(alloc, records) {
        Ok(found) => Ok(found),
        Err(stop) => Err(stop.at(prefix)),
    }
}

/// Compares two logs by the results of their replays.
fn compare_found<'a, W: Write>(
    alloc: Global,
    one: &'a str,
    mine: &Copied,
    left: &RecoveredLog<BTreeStore>,
    theirs: &Copied,
    right: &RecoveredLog<BTreeStore>,
    out: &mut W,
) -> Result<(), StopAt<'a>>
    requires my_tables { left.now.tables ≡ mine.now.described.head.schema }
    requires their_tables { right.now.tables ≡ theirs.now.described.head.schema }
    requires my_base { loaded left.now.base ≡ loaded mine.now.described.head.base }
    requires their_base { loaded right.now.base ≡ loaded theirs.now.described.head.base }
    requires count { length left.now.log ≡ length right.now.log }
    ensures alike { OnOk result (ComparesRecords true mine.now.described theirs.now.described left.now.log right.now.log
        (W.contents out.old) (W.contents out.new)) }
    ensures different { IfErr result (λ stop. stop.stop ≡ Stop.Different
        → ComparesRecords false mine.now.described theirs.now.described left.now.log right.now.log
        (W.contents out.old) (W.contents out.new)) }
{
    let mine = Side {
        schema: &mine.described.head.schema,
        records: left.records(),
        store: left.store(),
    };
    let theirs = Side {
        schema: &theirs.described.head.schema,
        records: right.records(),
        store: right.store(),
    };
    match compare(alloc, &mine, &theirs, out) {
        Ok(()) => Ok(()),
        Err(stop) => Err(stop.at(one)),
    }
}

/// Compares both. It prints each row of one that the other does not have, or has with other values, and then each row
/// that only the other has.
fn compare<S: RowStore, W: Write>(
    alloc: Global,
    mine: &Side<S>,
    theirs: &Side<S>,
    out: &mut W,
) -> Result<(), Stop>
    requires my_tables { AreOfTables mine.now.schema.now (S.contents mine.now.store.now) }
    requires their_tables { AreOfTables theirs.now.schema.now (S.contents theirs.now.store.now) }
    requires count { length mine.now.records.now ≡ length theirs.now.records.now }
    ensures same { OnOk result (AreAlike mine.now.schema.now theirs.now.schema.now mine.now.records.now theirs.now.records.now
        (S.contents mine.now.store.now) (S.contents theirs.now.store.now)
        × Appends (W.contents out.old) (W.contents out.new) (same_line (length mine.now.records.now))) }
    ensures different { IfErr result (λ stop. stop ≡ Stop.Different
        → (¬ AreAlike mine.now.schema.now theirs.now.schema.now mine.now.records.now theirs.now.records.now
        (S.contents mine.now.store.now) (S.contents theirs.now.store.now))
        × TellsDifferences mine.now.schema.now theirs.now.schema.now mine.now.records.now theirs.now.records.now
        (S.contents mine.now.store.now) (S.contents theirs.now.store.now) (W.contents out.old) (W.contents out.new)) }
{
    let my_rows = snapshot(alloc, mine.store, mine.schema)?;
    let their_rows = snapshot(alloc, theirs.store, theirs.schema)?;
    let tables = same_schemas(mine.schema, theirs.schema);
    let first = first_difference(mine.records, theirs.records);
    if tables && first.is_none() && same_batches(&my_rows, &their_rows) {
        writeln!(out, "no difference in {} records", mine.records.len())?;
        return Ok(());
    }
    write_beginning(out, tables, first)?;
    write_rows(out, &my_rows, mine.store, &their_rows, theirs.store)?;
    Err(Stop::Different)
}

/// Writes a line for each row that is not the same in both stores. The two batches are their rows.
fn write_rows<S: RowStore, W: Write>(
    out: &mut W,
    my_rows: &Batch,
    mine: &S,
    their_rows: &Batch,
    theirs: &S,
) -> io::Result<()>
    requires mine { my_rows.now ≡ all_rows (S.contents mine.now) }
    requires theirs { their_rows.now ≡ all_rows (S.contents theirs.now) }
    ensures { OnOk result (Appends (W.contents out.old) (W.contents out.new) (rows_text (S.contents mine.now) (S.contents theirs.now))) }
{
    write_changed(out, my_rows.entries(), theirs)?;
    write_added(out, their_rows.entries(), mine)
}

fn same_schemas(one: &Schema, other: &Schema) -> bool
    ensures { IsTrue result ↔ (one.now ≡ other.now) }
{
    one.tables() == other.tables()
}

fn same_batches(one: &Batch, other: &Batch) -> bool
    ensures { IsTrue result ↔ (one.now ≡ other.now) }
{
    one.entries() == other.entries()
}

fn same_row(one: &Option<Row>, other: &Option<Row>) -> bool
    ensures { IsTrue result ↔ (one.now ≡ other.now) }
{
    one == other
}

/// The place, counted from 0, of the first record that is not the same in both lists.
fn first_difference(one: &[Record], other: &[Record]) -> Option<usize>
    requires { length one.now ≡ length other.now }
    ensures some { IfSome result (DiffersAt one.now other.now) }
    ensures none { IfNone result (one.now ≡ other.now) }
{
    for at in 0..one.len() {
        if !same_records(&one[at], &other[at]) {
            return Some(at);
        }
    }
    None
}

/// Writes that the tables differ, if they do, and which record is the first that differs, if one does.
fn write_beginning<W: Write>(out: &mut W, tables: bool, first: Option<usize>) -> io::Result<()>
    ensures { OnOk result (Appends (W.contents out.old) (W.contents out.new) (tables_line tables ++ record_line first)) }
{
    write_tables_differ(out, tables)?;
    write_record_differs(out, first)
}

fn write_tables_differ<W: Write>(out: &mut W, are_same: bool) -> io::Result<()>
    ensures { OnOk result (Appends (W.contents out.old) (W.contents out.new) (tables_line are_same)) }
{
    if are_same {
        Ok(())
    } else {
        writeln!(out, "tables differ")
    }
}

fn write_record_differs<W: Write>(out: &mut W, first: Option<usize>) -> io::Result<()>
    ensures { OnOk result (Appends (W.contents out.old) (W.contents out.new) (record_line first)) }
{
    match first {
        Some(at) => writeln!(out, "first difference: record {}", at as u128 + 1),
        None => Ok(()),
    }
}

/// Writes a line for each row that the store does not have, or has with other values.
fn write_changed<S: RowStore, W: Write>(
    out: &mut W,
    entries: &[(RowId, Option<Row>)],
    store: &S,
) -> io::Result<()>
    ensures { OnOk result (Appends (W.contents out.old) (W.contents out.new) (flat_map (changed_line (S.contents store.now)) entries.now)) }
{
    for entry in entries {
        write_if_changed(out, entry, store)?;
    }
    Ok(())
}

fn write_if_changed<S: RowStore, W: Write>(
    out: &mut W,
    entry: &(RowId, Option<Row>),
    store: &S,
) -> io::Result<()>
    ensures { OnOk result (Appends (W.contents out.old) (W.contents out.new) (changed_line (S.contents store.now) entry.now)) }
{
    let theirs = store.get(entry.0);
    if same_row(&entry.1, &theirs) {
        Ok(())
    } else {
        write_difference(out, entry.0, &entry.1, &theirs)
    }
}

/// Writes a line for each row that the store does not have.
fn write_added<S: RowStore, W: Write>(
    out: &mut W,
    entries: &[(RowId, Option<Row>)],
    store: &S,
) -> io::Result<()>
    ensures { OnOk result (Appends (W.contents out.old) (W.contents out.new) (flat_map (added_line (S.contents store.now)) entries.now)) }
{
    for entry in entries {
        write_if_added(out, entry, store)?;
    }
    Ok(())
}

fn write_if_added<S: RowStore, W: Write>(
    out: &mut W,
    entry: &(RowId, Option<Row>),
    store: &S,
) -> io::Result<()>
    ensures { OnOk result (Appends (W.contents out.old) (W.contents out.new) (added_line (S.contents store.now) entry.now)) }
{
    match store.get(entry.0) {
        Some(_) => Ok(()),
        None => write_difference(out, entry.0, &None, &entry.1),
    }
}

/// Writes the line of a row that differs.
fn write_difference<W: Write>(
    out: &mut W,
    id: RowId,
    mine: &Option<Row>,
    theirs: &Option<Row>,
) -> io::Result<()>
    ensures { OnOk result (Appends (W.contents out.old) (W.contents out.new) (difference_line id mine.now theirs.now)) }
{
    write!(out, "{} {}:", id.table, id.key)?;
    write_row(out, mine)?;
    write!(out, " |")?;
    write_row(out, theirs)?;
    writeln!(out)
}

/// Writes a row's columns, each after a space, or that there is no row.
fn write_row<W: Write>(out: &mut W, row: &Option<Row>) -> io::Result<()>
    ensures { OnOk result (Appends (W.contents out.old) (W.contents out.new) (row_words row.now)) }
{
    match row {
        Some(row) => write_columns(out, row),
        None => write!(out, " none"),
    }
}
