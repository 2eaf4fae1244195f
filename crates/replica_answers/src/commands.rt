//! What a line asks a replica for.

use schema::RowId;
use script_text::command::alone;
use script_text::lines::{Line, line_of};
use script_text::words::{Words, is_word};
use std::alloc::{AllocError, Global};
use uuid::Uuid;

/// What a line asks for: a log in files with this prefix, and with this identifier if the line has one.
#[derive(Debug, Drop)]
pub struct Wish {
    pub prefix: String,
    pub identifier: Option<Uuid>,
}

/// What a line asks for.
#[derive(Clone, Copy)]
pub(crate) enum Command {
    /// Nothing.
    Skipped,
    /// The list of commands.
    Help,
    /// A row.
    Read(RowId),
    /// The ids of the published commits.
    Executed,
    /// How many records were received, are committed, and are published.
    Status,
    /// To wait until the commit with this number is published.
    Wait(u64),
}

/// What the line asks for; `None` if it is bad, or asks for a log.
pub(crate) fn command_in(line: &[u8]) -> Option<Command> {
    match line_of(line)? {
        Line::Skipped => Some(Command::Skipped),
        Line::Event(name, words) => command_of(name, words),
        Line::Table(_) | Line::Base(_) => None,
    }
}

/// What the name and the words after it ask for; `None` if they are bad, or ask for a log.
fn command_of(name: &[u8], words: Words) -> Option<Command> {
    if is_word(name, b"help") {
        words.is_empty().then_some(Command::Help)
    } else if is_word(name, b"executed") {
        words.is_empty().then_some(Command::Executed)
    } else if is_word(name, b"status") {
        words.is_empty().then_some(Command::Status)
    } else if is_word(name, b"read") {
        alone(words.row_id()).map(|row| Command::Read(row))
    } else if is_word(name, b"wait") {
        alone(words.u64()).map(|gno| Command::Wait(gno))
    } else {
        None
    }
}

/// Whether a line is empty, or begins with `#`.
pub fn says_nothing(line: &[u8]) -> bool {
    matches!(command_in(line), Some(Command::Skipped))
}

/// The log that a line asks for; `None` if it asks for something else, or is bad.
pub fn wish_in(alloc: Global, line: &[u8]) -> Result<Option<Wish>, AllocError> {
    match line_of(line) {
        Some(Line::Event(name, words)) if is_word(name, b"promote") => wish_of(alloc, words),
        _ => Ok(None),
    }
}

/// The prefix of a log, and its identifier if the words have one; `None` if they are bad.
fn wish_of(alloc: Global, words: Words) -> Result<Option<Wish>, AllocError> {
    let Some((prefix, words)) = words.first() else {
        return Ok(None);
    };
    let Ok(prefix) = str::from_utf8(prefix) else {
        return Ok(None);
    };
    let Some(identifier) = identifier_in(words) else {
        return Ok(None);
    };
    Ok(Some(Wish {
        prefix: String::from_str(alloc, prefix)?,
        identifier,
    }))
}

/// The identifier that the words are, or that there are no words; `None` if they are anything else.
fn identifier_in(words: Words) -> Option<Option<Uuid>> {
    if words.is_empty() {
        return Some(None);
    }
    let identifier = Uuid::try_parse_ascii(alone(words.first())?).ok()?;
    Some(Some(identifier))
}
