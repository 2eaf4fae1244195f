//! The lines of a script: how they are read, what each is about, and the tables and rows at the start that they give.

ghost use Rattle.std.specs.Prelude.{◌≡◌, option_map, IfOk, IfSome};
ghost use Rattle.script_text.specs.Lines.{about, table_of, keyed_of, link_in, reference_of, base_of, command_of, is_skipped};
ghost use Rattle.script_text.specs.Lines.{line_of, unique_in, LeavesLines, TakesEnd};

use crate::command::alone;
use crate::words::{Words, is_word};
use rows::Row;
use schema::{RowId, Table};
use std::io;
use std::io::BufRead;

/// What a line is about, by its first word, with the words after that one, which are not checked yet.
#[derive(Drop)]
pub enum Line<'a> {
    /// Nothing.
    Skipped,
    /// A table.
    Table(Words<'a>),
    /// A row at the start.
    Base(Words<'a>),
    /// The event of this name, if there is one.
    Event(&'a [u8], Words<'a>),
}

/// Reads a line, and replaces the old one. Returns `false` if it is the last, since no LF ends it.
pub fn read_line<R: BufRead>(input: &mut R, line: &mut Vec<u8>) -> io::Result<bool>
    ensures known { IfOk result (λ is_more. IfSome (R.remaining input.old)
        (λ text. LeavesLines text line.new.items is_more (R.remaining input.new))) }
{
    line.clear();
    input.read_until(b'\n', line)?;
    Ok(take_end(line))
}

/// Removes the LF at the end of a line. Returns `false` if there is none.
pub fn take_end(line: &mut Vec<u8>) -> bool
    ensures { TakesEnd line.old.items line.new.items result }
{
    match line.last() {
        Some(b'\n') => {
            line.pop();
            true
        }
        _ => false,
    }
}

/// What a line is about.
#[tactic(auto, unfolding(crate::specs::Lines::line_of))]
#[inline(always)]
pub fn line_of(line: &[u8]) -> Option<Line>
    ensures { option_map about result ≡ line_of line.now }
{
    if is_skipped(line) {
        match str::from_utf8(line) {
            Ok(_) => Some(Line::Skipped),
            Err(_) => None,
        }
    } else {
        command_of(Words::of(line))
    }
}

/// Whether the line is empty, or begins with `#`.
pub fn is_skipped(line: &[u8]) -> bool
    ensures { result ≡ is_skipped line.now }
{
    match line.first() {
        None => true,
        Some(c) => *c == b'#',
    }
}

#[tactic(auto, unfolding(crate::specs::Lines::command_of))]
#[inline(always)]
pub fn command_of(words: Words) -> Option<Line>
    ensures { option_map about result ≡ command_of words.entry }
{
    let (name, words) = words.first()?;
    Some(if is_word(name, b"table") {
        Line::Table(words)
    } else if is_word(name, b"base") {
        Line::Base(words)
    } else {
        Line::Event(name, words)
    })
}

#[tactic(auto, unfolding(crate::specs::Lines::table_of))]
pub fn table_of(words: Words) -> Option<Table>
    ensures { result ≡ table_of words.entry }
{
    let (id, words) = words.u16()?;
    let (columns, words) = words.u8()?;
    let (kind, words) = words.first()?;
    let table = Table::new(id, columns, is_keyed(kind)?);
    let (unique, words) = unique_of(words)?;
    let parent = reference_of(words)?;
    Some(Table {
        unique,
        parent,
        ..table
    })
}

/// Whether a table of this kind has keys, or `None` if the word is not a kind.
pub fn is_keyed(kind: &[u8]) -> Option<bool>
    ensures { result ≡ keyed_of kind.now }
{
    if is_word(kind, b"keyed") {
        Some(true)
    } else if is_word(kind, b"keyless") {
        Some(false)
    } else {
        None
    }
}

/// The unique column of a table, if the next word says that it has one, and the words after it.
#[tactic(auto, unfolding(crate::specs::Lines::unique_in))]
pub fn unique_of(words: Words) -> Option<(Option<u8>, Words)>
    ensures { result ≡ unique_in words.entry }
{
    let (is_named, words) = words.skip(b"unique");
    if !is_named {
        return Some((None, words));
    }
    let (column, words) = words.u8()?;
    Some((Some(column), words))
}

/// The parent of a table, if words are left: the column, and the parent table's id.
#[tactic(auto, unfolding(crate::specs::Lines::reference_of))]
pub fn reference_of(words: Words) -> Option<Option<(u8, u16)>>
    ensures { result ≡ reference_of words.entry }
{
    if words.is_empty() {
        return Some(None);
    }
    let (name, words) = words.first()?;
    if is_word(name, b"parent") {
        Some(Some(link_of(words)?))
    } else {
        None
    }
}

/// A column and a table's id, to the end of the line.
#[tactic(auto, unfolding(crate::specs::Lines::link_in))]
pub fn link_of(words: Words) -> Option<(u8, u16)>
    ensures { result ≡ link_in words.entry }
{
    let (column, words) = words.u8()?;
    let table = alone(words.u16())?;
    Some((column, table))
}

#[tactic(auto, unfolding(crate::specs::Lines::base_of))]
pub fn base_of(words: Words) -> Option<(RowId, Row)>
    ensures { result ≡ base_of words.entry }
{
    let (id, words) = words.row_id()?;
    let row = words.row()?;
    Some((id, row))
}
