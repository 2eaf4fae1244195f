//! Reading the text of a set.

ghost use Rattle.std.specs.Prelude.{◌≡◌, ◌^◌, nat_lt, if◌then◌else◌, List, length, drop, IfOk, IfErr, OnOk, MatchResult, Ok, Err};
ghost use Rattle.std.specs.Str.{IsCharBoundary};
ghost use Rattle.std.specs.Char.{is_ascii_digit};
ghost use Rattle.std.specs.List.{list_all, slice_split};
ghost use Rattle.gtid_set.specs.Numbers.{AreThoseOf};
ghost use Rattle.gtid_set.specs.declared.intervals.Interval.{Interval as AnInterval};
ghost use Rattle.gtid_set.specs.Reading.{Gives, Fails, is_number, number_at, is_colon, interval_of, interval_at, intervals_at, source_at};
ghost use Rattle.gtid_set.specs.Reading.{head_at};
ghost use Rattle.uuid.specs.Text.{parsed_hyphenated};

use crate::fault::GtidFault;
use crate::intervals::{Interval, MAX_GNO, settle};
use std::alloc::Global;
use uuid::Uuid;

/// The length of an identifier's text. `HEAD_LEN` is that with the colon after it.
const NAME_LEN: usize = 36;

pub(crate) const HEAD_LEN: usize = 37;

/// The source that a text begins with; a colon must follow it. It takes no memory.
pub(crate) fn head_of(text: &str) -> Result<Uuid, GtidFault>
    ensures value { MatchResult result (λ source. head_at text.now ≡ Ok (source, drop 37 text.now))
        (λ fault. head_at text.now ≡ Err fault) }
    ensures boundary { OnOk result (IsCharBoundary text.now 37) }
{
    let bytes = text.as_bytes();
    if bytes.len() < NAME_LEN {
        return Err(GtidFault::BadUuid);
    }
    let source = source_of(&bytes[..NAME_LEN])?;
    if bytes.len() == NAME_LEN || bytes[NAME_LEN] != b':' {
        return Err(GtidFault::BadInterval);
    }
    Ok(source)
}

/// The source with this name, which has the length of an identifier.
fn source_of(name: &[u8]) -> Result<Uuid, GtidFault>
    requires { length name.now ≡ 36 }
    ensures { result ≡ source_at (parsed_hyphenated name.now) }
{
    match Uuid::try_parse_ascii(name) {
        Ok(source) => Ok(source),
        Err(_) => Err(GtidFault::BadUuid),
    }
}

/// The set of the numbers that are listed between colons.
pub(crate) fn numbers_of(alloc: Global, list: &str) -> Result<Vec<Interval>, GtidFault>
    ensures ok { IfOk result (λ numbers. (listed : List AnInterval) × (intervals_at (slice_split is_colon list.now) ≡ Ok listed)
        × AreThoseOf listed numbers.items) }
    ensures err { IfErr result (λ fault. Fails fault (intervals_at (slice_split is_colon list.now))) }
{
    let mut intervals = intervals_of(alloc, list)?;
    settle(&mut intervals);
    Ok(intervals)
}

/// The intervals between the colons, as they are listed.
fn intervals_of(alloc: Global, list: &str) -> Result<Vec<Interval>, GtidFault>
    ensures { Gives (λ intervals. intervals.items) result (intervals_at (slice_split is_colon list.now)) }
{
    let mut intervals = Vec::new(alloc);
    for text in list.split(':') {
        intervals.push(interval_of(text)?)?;
    }
    Ok(intervals)
}

/// One number, or two with a hyphen between them.
#[tactic(auto, unfolding(crate::specs::Reading::interval_at))]
fn interval_of(text: &str) -> Result<Interval, GtidFault>
    ensures { result ≡ interval_at text.now }
{
    match text.split_once('-') {
        None => {
            let number = number_of(text)?;
            between(number, number)
        }
        Some((first, last)) => between(number_of(first)?, number_of(last)?),
    }
}

/// The numbers from `first` to `last`, both included.
fn between(first: u64, last: u64) -> Result<Interval, GtidFault>
    ensures { result ≡ interval_of first last }
{
    if first <= last {
        Ok(Interval { first, last })
    } else {
        Err(GtidFault::BadInterval)
    }
}

/// A number that a transaction may have, in decimal digits without a leading zero.
fn number_of(text: &str) -> Result<u64, GtidFault>
    ensures { result ≡ number_at text.now }
{
    if !is_number(text) {
        return Err(GtidFault::BadNumber);
    }
    match text.parse::<u64>() {
        Ok(number) => up_to_max(number),
        Err(_) => Err(GtidFault::BadNumber),
    }
}

fn up_to_max(number: u64) -> Result<u64, GtidFault>
    ensures { result ≡ (if nat_lt number (2 ^ 63) then Ok number else Err GtidFault.BadNumber) }
{
    if number <= MAX_GNO {
        Ok(number)
    } else {
        Err(GtidFault::BadNumber)
    }
}

/// Whether the text is digits, and the first is not 0.
fn is_number(text: &str) -> bool
    ensures { result ≡ is_number text.now }
{
    match text.as_bytes() {
        [] => false,
        [b'0', ..] => false,
        digits => all_digits(digits),
    }
}

fn all_digits(text: &[u8]) -> bool
    ensures { result ≡ list_all is_ascii_digit text.now }
{
    text.iter().all(|c| c.is_ascii_digit())
}
