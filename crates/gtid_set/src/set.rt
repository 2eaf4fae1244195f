//! A set of ids, and its text.

ghost use Rattle.std.specs.Prelude.{◌≡◌, ◌≢◌, ◌⊎◌, ◌<◌, ◌^◌, not, is_none, length, ◌==◌, [], OnErr, IfOk, IfErr, IfSome, MatchOption, Some};
ghost use Rattle.std.specs.Prelude.{None, Ok, Err};
ghost use Rattle.gtid_set.specs.Ids.{Ids, IsSet, no_ids, first_ids, takes_source, has_id, add_fault, Adds, IsSetOf};
ghost use Rattle.gtid_set.specs.Numbers.{IsGreatest, has_number};
ghost use Rattle.gtid_set.specs.Reading.{Reads, ids_at, head_at, Lists};
ghost use Rattle.gtid_set.specs.Text.{text_of};
ghost use Rattle.gtid_set.specs.declared.fault.GtidFault.{GtidFault as AFault};

use crate::fault::GtidFault;
use crate::intervals::{Interval, MAX_GNO, holds, put};
use crate::reading::{HEAD_LEN, head_of, numbers_of};
use schema::{Gtid, Memory};
use std::alloc::Global;
use std::fmt;
use std::marker::Model;
use uuid::Uuid;

/// A set of ids of one source. It has the source of the first id that was put into it; the empty set has none. Memory
/// grows with the intervals of its numbers, not with the numbers.
#[derive(Debug, Drop)]
pub struct GtidSet {
    source: Option<Uuid>,
    intervals: Vec<Interval>,
}

impl Model for GtidSet {
    ghost use Rattle.gtid_set.specs.Ids.{Ids, IsSet};

    ghost Value = { Ids };

    ghost view = { λ s. record { source = s.source; numbers = s.intervals.items } };

    ghost invariant = { λ s. IsSet (record { source = s.source; numbers = s.intervals.items }) };
}

impl GtidSet {
    /// The empty set. It takes no memory.
    pub fn new(alloc: Global) -> GtidSet
        ensures { result ≡ no_ids }
    {
        GtidSet {
            source: None,
            intervals: Vec::new(alloc),
        }
    }

    /// The ids of a source from 1 to `last`. If `last` is 0, this is the empty set, and takes no memory. The time is
    /// constant.
    pub fn first(alloc: Global, source: Uuid, last: u64) -> Result<GtidSet, Memory>
        requires { last < 2 ^ 63 }
        ensures value { IfOk result (λ set. set ≡ first_ids source last) }
        ensures memory { OnErr result (0 < last) }
    {
        if last == 0 {
            return Ok(GtidSet::new(alloc));
        }
        let mut intervals = Vec::with_capacity(alloc, 1)?;
        intervals.push(Interval { first: 1, last })?;
        Ok(GtidSet {
            source: Some(source),
            intervals,
        })
    }

    /// The source of its ids; `None` for the empty set.
    pub fn source(&self) -> Option<Uuid>
        ensures { result ≡ self.now.source }
    {
        self.source
    }

    /// The numbers of its ids, as intervals that rise and never touch.
    pub fn intervals(&self) -> &[Interval]
        ensures value { result.now ≡ self.now.numbers }
        ensures valid { IsSet self.now }
    {
        &self.intervals
    }

    /// Whether it has no ids.
    pub fn is_empty(&self) -> bool
        ensures value { result ≡ (length self.now.numbers == 0) }
        ensures no_source { result ≡ is_none self.now.source }
    {
        self.intervals.is_empty()
    }

    /// The greatest number of its ids; `None` for the empty set. The time is constant.
    pub fn greatest(&self) -> Option<u64>
        ensures { MatchOption result (self.now ≡ no_ids) (IsGreatest self.now.numbers) }
    {
        let interval = self.intervals.last()?;
        Some(interval.last)
    }

    /// Whether it has an id. It never has one of another source, or one whose number is not 1 to 2^63 - 1. It takes no
    /// memory, and time logarithmic in the number of intervals.
    pub fn contains(&self, id: Gtid) -> bool
        ensures { result ≡ has_id self.now id }
    {
        self.takes(id.source) && self.has_number(id.gno)
    }

    /// Whether it has the id of its source with this number. Like `contains`, but for an id that is known to be of the
    /// set's source. It takes no memory, and time logarithmic in the number of intervals.
    pub fn has_number(&self, gno: u64) -> bool
        ensures { result ≡ has_number self.now.numbers gno }
    {
        holds(&self.intervals, gno)
    }

    /// Puts an id in, and returns whether it is new. It is refused with `G2` if its number is not 1 to 2^63 - 1, and
    /// otherwise with `G4` if it is of another source. It takes memory only if the id is in no interval and next to
    /// none. An id next to an interval makes that longer, and one between two joins them. The place is found by binary
    /// search, and the intervals after it move by at most one place.
    pub fn add(&mut self, id: Gtid) -> Result<bool, GtidFault>
        // The first cause is reported, whether there is memory or not.
        ensures fault { IfSome (add_fault self.old id) (λ fault. result ≡ Err fault) }
        ensures only { IfErr result (λ fault. (fault ≡ GtidFault.Memory) ⊎ (add_fault self.old id ≡ Some fault)) }
        ensures err { OnErr result (self.new ≡ self.old) }

        // The members are the old ones and this one.
        ensures ok { IfOk result (λ new. (new ≡ not (has_id self.old id)) × Adds self.old self.new id) }
    {
        if id.gno < 1 || id.gno > MAX_GNO {
            return Err(GtidFault::BadNumber);
        }
        if !self.takes(id.source) {
            return Err(GtidFault::ForeignSource);
        }
        let new = put(&mut self.intervals, id.gno)?;
        self.source = Some(id.source);
        Ok(new)
    }

    /// The set that a text lists: an identifier of 36 characters, in either case, and intervals `:A` or `:A-B` of
    /// numbers from 1 to 2^63 - 1 without leading zeros. They may be in any order and overlap. The empty text is the
    /// empty set.
    ///
    /// Otherwise the first fault from the left is returned. It is `G1` if the text does not begin with an identifier,
    /// and `G3` if no colon follows. Then, interval by interval, `G2` is for anything that is not such a number, also
    /// with a space, a further hyphen or any other character. `G3` is for an interval whose last number is below its
    /// first. The time is that of the text if its intervals rise, and that of sorting them if they do not. The text is
    /// not copied.
    pub fn parse(alloc: Global, text: &str) -> Result<GtidSet, GtidFault>
        // The result is the set of what the text lists.
        ensures found { IfOk result (λ set. (listed : Ids) × Lists text.now listed × IsSetOf listed set) }
        // If the text lists a set, the result is that set, unless memory runs out.
        ensures only { (listed : Ids) → Lists text.now listed → IfErr result (λ fault. fault ≡ GtidFault.Memory) }
        // Which fault it is. One before the first interval is reported whether there is memory or not.
        ensures exact { Reads result (ids_at text.now) }
        ensures head_first { (fault : AFault) → text.now ≢ [] → head_at text.now ≡ Err fault → result ≡ Err fault }
    {
        read(alloc, text)
    }

    /// Whether ids of a source may be in it.
    fn takes(&self, source: Uuid) -> bool
        ensures { result ≡ takes_source self.now.source source }
    {
        match self.source {
            Some(own) => own == source,
            None => true,
        }
    }
}

/// The set that a text lists, or its first fault.
fn read(alloc: Global, text: &str) -> Result<GtidSet, GtidFault>
    ensures exact { Reads result (ids_at text.now) }
    ensures head_first { (fault : AFault) → text.now ≢ [] → head_at text.now ≡ Err fault → result ≡ Err fault }
{
    if text.is_empty() {
        return Ok(GtidSet::new(alloc));
    }
    let source = head_of(text)?;
    let intervals = numbers_of(alloc, &text[HEAD_LEN..])?;
    Ok(GtidSet {
        source: Some(source),
        intervals,
    })
}

impl fmt::Display for GtidSet {
    /// The identifier in lower case, with hyphens, and `:A` or `:A-B` for each interval, rising; nothing for the empty
    /// set. The time is that of the text.
    ghost output = { λ ids. Some (text_of ids) };

    fn fmt<W: fmt::Write>(&self, f: &mut fmt::Formatter<W>) -> fmt::Result {
        let Some(source) = self.source else {
            return Ok(());
        };
        write!(f, "{}", source.hyphenated())?;
        for interval in &self.intervals {
            write!(f, ":{interval}")?;
        }
        Ok(())
    }
}
