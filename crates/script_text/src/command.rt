//! The event that the words of a line give, in the form in which it is kept.

ghost use Rattle.std.specs.Prelude.{◌≡◌, ◌^◌, ◌==◌, [], false, if◌then◌else◌, codes, length, option_map, IfOk, IfSome, OnErr, Some, None};
ghost use Rattle.std.specs.Str.{bytes_eq};
ghost use Rattle.script_text.specs.Words.{alone, number_in, row_id_in};
ghost use Rattle.script_text.specs.Command.{at_row, written_of, insert_of, set_of, event_of};
ghost use Rattle.script_text.specs.Kept.{IsBare, Keeps, event_of as whole};

use crate::kept::KeptEvent;
use crate::words::{Words, is_word};
use schema::{Memory, RowId};
use std::alloc::Global;
use world::Event;

/// What was read, if no word follows it.
pub fn alone<T: Drop>(found: Option<(T, Words)>) -> Option<T>
    ensures { result ≡ alone found.entry }
{
    let (value, rest) = found?;
    if rest.is_empty() { Some(value) } else { None }
}

/// The kept form of the event of this name with the words after it. Its columns are appended to `columns`. `None`, and
/// no columns, if no event has the name or the words are not its parameters.
pub fn keep(name: &[u8], words: Words, columns: &mut Vec<i64>) -> Result<Option<KeptEvent>, Memory>
    ensures kept { IfOk result (λ found. Keeps (event_of name.now words.entry) found columns.old.items columns.new.items) }
    ensures err { OnErr result (columns.new.items ≡ columns.old.items) }
{
    if is_word(name, b"insert") {
        insert_of(words, columns)
    } else if is_word(name, b"set") {
        set_of(words, columns)
    } else {
        Ok(bare_of(name, words))
    }
}

/// The event of this name with the words after it, or `None` if no event has the name or the words are not its
/// parameters. It takes memory only for columns, and frees it.
pub fn event_of(alloc: Global, name: &[u8], words: Words) -> Result<Option<Event>, Memory>
    ensures { IfOk result (λ found. found ≡ event_of name.now words.entry) }
{
    let mut columns = Vec::new(alloc);
    match keep(name, words, &mut columns)? {
        Some(kept) => Ok(Some(kept.with(&columns))),
        None => Ok(None),
    }
}

/// The kept form of an event without columns. Names are tried in the order of the definition.
fn bare_of(name: &[u8], words: Words) -> Option<KeptEvent>
    requires no_insert { bytes_eq name.now (codes "insert") ≡ false }
    requires no_set { bytes_eq name.now (codes "set") ≡ false }
    ensures event { option_map (λ kept. whole kept []) result ≡ event_of name.now words.entry }
    ensures bare { IfSome result IsBare }
{
    if is_word(name, b"begin") {
        session_of(words).map(|session| KeptEvent::Begin { session })
    } else if is_word(name, b"delete") {
        at_row(words).map(|(session, RowId { table, key })| KeptEvent::Delete {
            session,
            table,
            key,
        })
    } else if is_word(name, b"see") {
        at_row(words).map(|(session, RowId { table, key })| KeptEvent::See {
            session,
            table,
            key,
        })
    } else if is_word(name, b"prepare") {
        session_of(words).map(|session| KeptEvent::Prepare { session })
    } else if is_word(name, b"queue") {
        session_of(words).map(|session| KeptEvent::Queue { session })
    } else if is_word(name, b"abort") {
        session_of(words).map(|session| KeptEvent::Abort { session })
    } else if is_word(name, b"flush") {
        bare(KeptEvent::Flush, words)
    } else if is_word(name, b"sync") {
        bare(KeptEvent::Sync, words)
    } else if is_word(name, b"commit") {
        bare(KeptEvent::Commit, words)
    } else if is_word(name, b"deliver") {
        gno_of(words).map(|gno| KeptEvent::Deliver { gno })
    } else if is_word(name, b"dispatch") {
        bare(KeptEvent::Dispatch, words)
    } else if is_word(name, b"finish") {
        gno_of(words).map(|gno| KeptEvent::Finish { gno })
    } else if is_word(name, b"next") {
        bare(KeptEvent::Next, words)
    } else if is_word(name, b"publish") {
        bare(KeptEvent::Publish, words)
    } else if is_word(name, b"executed") {
        bare(KeptEvent::Executed, words)
    } else if is_word(name, b"read") {
        row_of(words).map(|RowId { table, key }| KeptEvent::Read { table, key })
    } else if is_word(name, b"rotate") {
        bare(KeptEvent::Rotate, words)
    } else if is_word(name, b"log") {
        bare(KeptEvent::Log, words)
    } else {
        None
    }
}

/// A session, to the end of the line.
fn session_of(words: Words) -> Option<u16>
    ensures { result ≡ alone (number_in (2 ^ 16) words.entry) }
{
    alone(words.u16())
}

/// A record's number, to the end of the line.
fn gno_of(words: Words) -> Option<u64>
    ensures { result ≡ alone (number_in (2 ^ 64) words.entry) }
{
    alone(words.u64())
}

/// A row's table and key, to the end of the line.
fn row_of(words: Words) -> Option<RowId>
    ensures { result ≡ alone (row_id_in words.entry) }
{
    alone(words.row_id())
}

/// An event without parameters: no word may be left.
fn bare(kept: KeptEvent, words: Words) -> Option<KeptEvent>
    ensures { result ≡ (if length words.entry == 0 then Some kept else None) }
{
    if words.is_empty() { Some(kept) } else { None }
}

/// An insert. Its columns are appended to `columns`.
fn insert_of(words: Words, columns: &mut Vec<i64>) -> Result<Option<KeptEvent>, Memory>
    ensures kept { IfOk result (λ found. Keeps (insert_of words.entry) found columns.old.items columns.new.items) }
    ensures err { OnErr result (columns.new.items ≡ columns.old.items) }
{
    let Some((session, RowId { table, key }, words)) = written_of(words) else {
        return Ok(None);
    };
    let Some(count) = words.put_row(columns)? else {
        return Ok(None);
    };
    Ok(Some(KeptEvent::Insert {
        session,
        table,
        count,
        key,
    }))
}

/// A `set`. Its values are appended to `columns`.
fn set_of(words: Words, columns: &mut Vec<i64>) -> Result<Option<KeptEvent>, Memory>
    ensures kept { IfOk result (λ found. Keeps (set_of words.entry) found columns.old.items columns.new.items) }
    ensures err { OnErr result (columns.new.items ≡ columns.old.items) }
{
    let Some((session, RowId { table, key }, words)) = written_of(words) else {
        return Ok(None);
    };
    let Some(mask) = words.put_named(columns)? else {
        return Ok(None);
    };
    Ok(Some(KeptEvent::Update {
        session,
        table,
        mask,
        key,
    }))
}

/// The session and the row of a write, and the words after them.
#[tactic(auto, unfolding(crate::specs::Command::written_of))]
fn written_of(words: Words) -> Option<(u16, RowId, Words)>
    ensures { result ≡ written_of words.entry }
{
    let (session, words) = words.u16()?;
    let (row, words) = words.row_id()?;
    Some((session, row, words))
}

/// A session and a row, to the end of the line.
fn at_row(words: Words) -> Option<(u16, RowId)>
    ensures { result ≡ at_row words.entry }
{
    let (session, words) = words.u16()?;
    let row = row_of(words)?;
    Some((session, row))
}
