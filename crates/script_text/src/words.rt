//! The words of a line, taken off one after another.
//!
//! A word is what is between single spaces. So a space at either end of a line, or right after another, makes an empty
//! word, which is neither a number nor a name.

ghost use Rattle.std.specs.Prelude.{◌≡◌, ◌^◌, ◌==◌, min, option_map, count_by, length, vec_len, vec_capacity, IfOk, OnOk, OnErr};
ghost use Rattle.std.specs.Str.{bytes_eq};
ghost use Rattle.script_text.specs.Words.{words_of, first_word, behind_name, number_in, integer_in, row_id_in, row_in, naming_in, sides_of};
ghost use Rattle.script_text.specs.Words.{assignment, AreAll, HasRoom, PutsNumbers, PutsValues, PutsRow, PutsNamed};
ghost use Rattle.script_text.specs.Number.{integer};

use crate::cut::cut_at;
use crate::number::{i64_of, u8_of, u16_of, u64_of};
use rows::Row;
use schema::{Memory, RowId};
use std::marker::Model;

/// The most columns of a row.
const MOST: usize = 16;

/// The words of a line that are left.
#[derive(Drop)]
pub struct Words<'a> {
    rest: Option<&'a [u8]>,
}

impl<'a> Model for Words<'a> {
    ghost use Rattle.script_text.specs.Words.{Word, words_left};
    ghost use Rattle.std.specs.Prelude.{List};

    ghost Value = { List Word };

    ghost view = { λ w. words_left w.rest };
}

impl<'a> Words<'a> {
    /// The words of a line.
    pub fn of(line: &'a [u8]) -> Words<'a>
        ensures { result ≡ words_of line.now }
    {
        Words { rest: Some(line) }
    }

    /// Whether no word is left.
    pub fn is_empty(&self) -> bool
        ensures { result ≡ (length self.now == 0) }
    {
        self.rest.is_none()
    }

    /// The first word, and the words after it.
    pub fn first(self) -> Option<(&'a [u8], Words<'a>)>
        ensures { option_map (λ x. (x.0.now, x.1)) result ≡ first_word self.entry }
    {
        let text = self.rest?;
        match cut_at(text, b' ') {
            Some((word, rest)) => Some((word, Words { rest: Some(rest) })),
            None => Some((text, Words { rest: None })),
        }
    }

    /// Whether the first word is this one, and the words after it, or all words if it is not.
    pub fn skip(self, name: &[u8]) -> (bool, Words<'a>)
        ensures { result ≡ behind_name name.now self.entry }
    {
        let Words { rest } = self;
        match (Words { rest }).first() {
            Some((word, behind)) if is_word(word, name) => (true, behind),
            _ => (false, Words { rest }),
        }
    }

    /// A number of 8 bits and the words after it, or `None` if the first word is not such a number.
    #[tactic(auto, unfolding(crate::specs::Words::number_in))]
    pub fn u8(self) -> Option<(u8, Words<'a>)>
        ensures { result ≡ number_in (2 ^ 8) self.entry }
    {
        let (word, rest) = self.first()?;
        Some((u8_of(word)?, rest))
    }

    /// Like `u8`, but with 16 bits.
    #[tactic(auto, unfolding(crate::specs::Words::number_in))]
    pub fn u16(self) -> Option<(u16, Words<'a>)>
        ensures { result ≡ number_in (2 ^ 16) self.entry }
    {
        let (word, rest) = self.first()?;
        Some((u16_of(word)?, rest))
    }

    /// Like `u8`, but with 64 bits.
    #[tactic(auto, unfolding(crate::specs::Words::number_in))]
    pub fn u64(self) -> Option<(u64, Words<'a>)>
        ensures { result ≡ number_in (2 ^ 64) self.entry }
    {
        let (word, rest) = self.first()?;
        Some((u64_of(word)?, rest))
    }

    /// Like `u64`, but with a sign.
    #[tactic(auto, unfolding(crate::specs::Words::integer_in))]
    pub fn i64(self) -> Option<(i64, Words<'a>)>
        ensures { result ≡ integer_in self.entry }
    {
        let (word, rest) = self.first()?;
        Some((i64_of(word)?, rest))
    }

    /// A table and a key, and the words after them.
    #[tactic(auto, unfolding(crate::specs::Words::row_id_in))]
    pub fn row_id(self) -> Option<(RowId, Words<'a>)>
        ensures { result ≡ row_id_in self.entry }
    {
        let (table, rest) = self.u16()?;
        let (key, rest) = rest.i64()?;
        Some((RowId { table, key }, rest))
    }

    /// A row of all words that are left. `None` if there are none or more than 16, or one is not a number.
    #[tactic(auto, unfolding(crate::specs::Words::row_in))]
    pub fn row(self) -> Option<Row>
        ensures { result ≡ row_in self.entry }
    {
        let mut columns = [0; 16];
        let count = numbers_of(self, &mut columns)?;
        Row::new(&columns[..count])
    }

    /// Appends the row of all words that are left to `columns`, and returns how many columns it has. `None`, with
    /// nothing appended, if there are no words or more than 16, or one is not a number.
    pub fn put_row(self, columns: &mut Vec<i64>) -> Result<Option<u8>, Memory>
        ensures put { IfOk result (λ count. PutsRow (row_in self.entry) count columns.old.items columns.new.items) }
        ensures err { OnErr result (columns.new.items ≡ columns.old.items) }
    {
        self.make_room(columns)?;
        let before = columns.len();
        let count = put_numbers(self, columns);
        if count.is_none() {
            columns.truncate(before);
        }
        Ok(count)
    }

    /// Appends the values of all words that are left to `columns`, and returns the mask of the columns that they name.
    /// Each word is a column and its value, `COL=V`. `None`, with nothing appended, if there are no words, a word is
    /// not such a pair, a column is over 15, or the columns do not strictly rise.
    pub fn put_named(self, columns: &mut Vec<i64>) -> Result<Option<u16>, Memory>
        ensures put { IfOk result (λ mask. PutsNamed (naming_in self.entry) mask columns.old.items columns.new.items) }
        ensures err { OnErr result (columns.new.items ≡ columns.old.items) }
    {
        self.make_room(columns)?;
        let before = columns.len();
        let mask = put_values(self, columns);
        if mask.is_none() {
            columns.truncate(before);
        }
        Ok(mask)
    }

    /// Makes room for a column of each word that is left, but for at most 16. The words are counted only if there is no
    /// room for 16.
    fn make_room(&self, columns: &mut Vec<i64>) -> Result<(), Memory>
        ensures same { columns.new.items ≡ columns.old.items }
        ensures room { OnOk result (HasRoom self.now (vec_len columns.new) (vec_capacity columns.new)) }
    {
        if columns.capacity() - columns.len() < MOST {
            columns.reserve(self.at_most_16())?;
        }
        Ok(())
    }

    /// The number of words that are left, but at most 16. The time is that of a walk over them.
    fn at_most_16(&self) -> usize
        ensures { result ≡ min 16 (length self.now) }
    {
        match self.rest {
            None => 0,
            Some(text) => spaces_in(text).min(MOST - 1) + 1,
        }
    }
}

/// Whether the word is this one. Words are short, so they are compared byte by byte.
#[inline(always)]
pub fn is_word(word: &[u8], own: &[u8]) -> bool
    ensures { result ≡ bytes_eq word.now own.now }
{
    if word.len() != own.len() {
        return false;
    }
    for i in 0..word.len() {
        if word[i] != own[i] {
            return false;
        }
    }
    true
}

/// The number of spaces among these bytes.
fn spaces_in(bytes: &[u8]) -> usize
    ensures { result ≡ count_by (λ b. b == 32) bytes.now }
{
    bytes.iter().filter(|b| **b == b' ').count()
}

/// Writes the numbers of all these words, and returns how many there are. `None` if a word is not a number, or there
/// are too many.
fn numbers_of(words: Words, numbers: &mut [i64]) -> Option<usize>
    ensures { AreAll integer words.entry numbers.new result }
{
    let mut words = words;
    let mut count = 0;
    while let Some((word, rest)) = words.first() {
        if count == numbers.len() {
            return None;
        }
        numbers[count] = i64_of(word)?;
        count += 1;
        words = rest;
    }
    Some(count)
}

/// Appends the numbers of all these words to `columns`, which has room for them, and returns how many there are. `None`
/// if there are none or more than 16, or a word is not a number: then the numbers of the words before it are in
/// `columns`.
fn put_numbers(words: Words, columns: &mut Vec<i64>) -> Option<u8>
    requires { HasRoom words (vec_len columns.old) (vec_capacity columns.old) }
    ensures { PutsNumbers (row_in words.entry) columns.old.items columns.new.items result }
{
    let mut words = words;
    let mut count = 0;
    while let Some((word, rest)) = words.first() {
        if count == MOST {
            return None;
        }
        columns.push_reserved(i64_of(word)?);
        count += 1;
        words = rest;
    }
    if count == 0 { None } else { Some(count as u8) }
}

/// Appends the values of the words to `columns`, which has room for them, and returns the mask of the columns that they
/// name. `None` if there are no words, a word is not a column and its value, or its column is over 15 or not above the
/// one before it. Then the values of the words before it are in `columns`.
fn put_values(words: Words, columns: &mut Vec<i64>) -> Option<u16>
    requires { HasRoom words (vec_len columns.old) (vec_capacity columns.old) }
    ensures { PutsValues (naming_in words.entry) columns.old.items columns.new.items result }
{
    let mut words = words;
    let mut mask = 0;
    let mut least = 0;
    while let Some((word, rest)) = words.first() {
        let (column, value) = assignment_of(word)?;
        if column < least || column > 15 {
            return None;
        }
        mask += 1 << column;
        least = column + 1;
        columns.push_reserved(value);
        words = rest;
    }
    if mask == 0 { None } else { Some(mask) }
}

/// A column and its value.
#[tactic(auto, unfolding(crate::specs::Words::assignment))]
fn assignment_of(word: &[u8]) -> Option<(u8, i64)>
    ensures { result ≡ assignment word.now }
{
    let (column, value) = sides_of(word)?;
    Some((u8_of(column)?, i64_of(value)?))
}

/// The two sides of the only `=` of a word.
fn sides_of(word: &[u8]) -> Option<(&[u8], &[u8])>
    ensures { option_map (λ x. (x.0.now, x.1.now)) result ≡ sides_of word.now }
{
    let (left, right) = cut_at(word, b'=')?;
    match cut_at(right, b'=') {
        Some(_) => None,
        None => Some((left, right)),
    }
}
