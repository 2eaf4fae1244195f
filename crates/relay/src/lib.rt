//! What a replica accepts of a source's log.
//!
//! A `Relay` keeps the records that it accepted, in order. Nothing that is received is trusted. A record is accepted only
//! from its source, in the form that this source's tables allow, as the next one, and with a parent that covers what was
//! accepted before. So whatever is received, many workers may apply the records that it keeps. It does not look at what a
//! record's changes do to the rows.
//!
//! `let_go` frees the first records, which nobody asks for any more. Contracts speak of all accepted records, kept or not.
//!
//! Beside the records it keeps the set of their ids, which shows whether a record came before. It also keeps which record
//! touched each row last, and which stated each mark last (`touches`), so no parent is judged by a walk over the records.
//! The crate uses `record_codec` for records, `gone_records` for those that are gone, `gtid_set` for ids, and `row_map`.
#![tactic(auto)]

ghost use Rattle.std.specs.Prelude.{◌≡◌, ◌⊎◌, ◌+◌, ◌-◌, ◌^◌, ◌<◌, ◌≤◌, IfOk, IfErr, OnOk, OnErr, IsErrOf, [], Ok, Err, false};
ghost use Rattle.std.specs.Prelude.{nat_le, length, drop, vec_len, vec_capacity};
ghost use Rattle.gtid_set.specs.Ids.{first_ids};
ghost use Rattle.relay.specs.Relay.{is_malformed as malformed, received, with_accepted, left_by_receive, LetsGo, AreAcceptable};

mod form;
mod ids;
mod judging;
pub mod laws;
mod touches;

use gone_records::Gone;
use gtid_set::GtidSet;
use ids::add_next;
use judging::is_malformed;
use record_codec::Record;
use schema::{Memory, Schema};
use std::alloc::{AllocFailed, Global};
use std::error::Error;
use std::fmt;
use std::marker::Model;
use touches::Touches;
use uuid::Uuid;

/// What became of a received record.
#[derive(Clone, Copy, Debug, PartialEq, Eq)]
pub enum Received {
    /// It was the next one, and is accepted.
    Accepted,
    /// A record of its number was accepted before.
    Skipped,
}

/// Why a call of the replica was refused. The text is the fault's number and name, and for `Stopped` the record's number
/// too.
#[derive(Clone, Copy, Debug, PartialEq, Eq)]
pub enum ReplicaFault {
    /// The record's number is past the next.
    Gap,
    /// The record is of another source.
    ForeignSource,
    /// Its source writes no record with these numbers, or with changes of this form.
    Malformed,
    /// The record's parent does not cover the records before it.
    BadParent,
    /// The record of this number could not be applied. From then on every call of the core that can be refused is refused
    /// with this.
    Stopped(u64),
    /// The record of this number was never dispatched.
    Stranger,
    /// A result of this record was taken before.
    Double,
    /// The result's job is not the one that was handed out.
    WrongInput,
    /// Memory ran out.
    Memory,
}

impl fmt::Display for ReplicaFault {
    ghost use Rattle.std.specs.Prelude.{Some};
    ghost use Rattle.relay.specs.FaultText.{fault_text};

    ghost output = { λ fault. Some (fault_text fault) };

    fn fmt<W: fmt::Write>(&self, f: &mut fmt::Formatter<W>) -> fmt::Result {
        match self {
            ReplicaFault::Gap => f.write_str("P1 Gap"),
            ReplicaFault::ForeignSource => f.write_str("P2 ForeignSource"),
            ReplicaFault::Malformed => f.write_str("P3 Malformed"),
            ReplicaFault::BadParent => f.write_str("P4 BadParent"),
            ReplicaFault::Stopped(gno) => write!(f, "P5 Stopped {gno}"),
            ReplicaFault::Stranger => f.write_str("P6 Stranger"),
            ReplicaFault::Double => f.write_str("P7 Double"),
            ReplicaFault::WrongInput => f.write_str("P8 WrongInput"),
            ReplicaFault::Memory => f.write_str("P9 Memory"),
        }
    }
}

impl Error for ReplicaFault {}

impl From<Memory> for ReplicaFault {
    ghost use Rattle.std.specs.Prelude.{◌≡◌};
    ghost use Rattle.relay.specs.declared.ReplicaFault.TheVariants as faults;

    ghost from_gives = { λ _ e. e ≡ faults.Memory };

    fn from(_memory: Memory) -> ReplicaFault {
        ReplicaFault::Memory
    }
}

impl<T: Drop> From<AllocFailed<T>> for ReplicaFault {
    ghost use Rattle.std.specs.Prelude.{◌≡◌};
    ghost use Rattle.relay.specs.declared.ReplicaFault.TheVariants as faults;

    ghost from_gives = { λ _ e. e ≡ faults.Memory };

    fn from(_error: AllocFailed<T>) -> ReplicaFault {
        ReplicaFault::Memory
    }
}

/// The records accepted from one source, over one schema. `new` makes it.
#[derive(Debug, Drop)]
pub struct Relay {
    schema: Schema,
    source: Uuid,
    gone: Gone,
    /// The accepted records that are not gone.
    kept: Vec<Record>,
    /// The ids of the accepted records.
    ids: GtidSet,
    touches: Touches,
}

impl Model for Relay {
    ghost use Rattle.relay.specs.Relay.{Relay};
    ghost use Rattle.std.specs.Prelude.{◌++◌, length};

    ghost Value = { Relay };

    ghost view = { λ r.
        record { tables = r.schema; source = r.source; accepted = r.gone ++ r.kept.items; gone = length r.gone } };

    ghost use Rattle.relay.specs.Kept.{IsKept};

    ghost invariant = { λ r.
        IsKept r.schema r.source (r.gone ++ r.kept.items) r.ids r.touches.rows.map r.touches.marks.map };
}

impl Relay {
    /// A relay that has accepted nothing. It takes no memory.
    pub fn new(alloc: Global, schema: Schema, source: Uuid) -> Relay
        ensures { result ≡ record { tables = schema; source = source; accepted = []; gone = 0 } }
    {
        Relay {
            schema,
            source,
            gone: Gone::none(),
            kept: Vec::new(alloc),
            ids: GtidSet::new(alloc),
            touches: Touches::new(alloc),
        }
    }

    /// Accepts a copy of the record if it is the next one, and skips one that was accepted before. The first of these
    /// that is true decides:
    /// - `P2` if it is not of the relay's source.
    /// - `P3` if no source of these tables writes it.
    /// - It is skipped if a record of its number was accepted before.
    /// - `P1` if its number is past the next.
    /// - `P4` if an accepted record conflicts with it and is numbered above its parent.
    /// - `P9` if memory runs out.
    ///
    /// No source of these tables writes a record with one of these:
    /// - A number of 0, or from 2 to the power 63 on.
    /// - A sequence number that is not the gno, or a parent that is not below it.
    /// - A change of no table, or of columns that its table lacks.
    /// - Other flags than those of the tables that it writes.
    /// - A ref to a table that is not a parent, or a mark of a table without a unique column.
    /// - A child row's new parent that is not among the refs.
    /// - A value that an insert or an update gives a unique column and that is not among the marks.
    ///
    /// The time does not grow with the number of accepted records. For each change, ref and mark it is that of some walks
    /// over the tables, and of at most three look-ups in a map, expected constant each. For each change there is also a
    /// search in the refs and one in the marks; then comes the copy. The copy takes memory, and so do the first id, each
    /// row that no record touched before, and each mark that none stated.
    pub fn receive(&mut self, from: Uuid, new: &Record) -> Result<Received, ReplicaFault>
        ensures answer { IsErrOf result ReplicaFault.Memory ⊎ (result ≡ received self.old from new.now) }

        // Memory runs out only instead of an acceptance.
        ensures memory { IsErrOf result ReplicaFault.Memory
            → received self.old from new.now ≡ Ok Received.Accepted }
        ensures ok { IfOk result (λ answer. self.new ≡ left_by_receive self.old new.now answer) }
        ensures err { OnErr result (self.new ≡ self.old) }
    {
        match self.judge(from, new)? {
            Received::Accepted => match self.accept(from, new.copy()?) {
                Ok(answer) => Ok(answer),
                Err((fault, _copy)) => Err(fault),
            },
            Received::Skipped => Ok(Received::Skipped),
        }
    }

    /// Like `receive`, but keeps the record that it is given instead of a copy. A skipped record is dropped, a refused
    /// one is given back. The refusals are those of `receive`. They change nothing, so the record may be given again.
    /// Time and memory are those of `receive` without the copy.
    pub fn receive_own(
        &mut self,
        from: Uuid,
        new: Record,
    ) -> Result<Received, (ReplicaFault, Record)>
        ensures answer { IfOk result (λ answer. received self.old from new ≡ Ok answer) }

        // Memory runs out only instead of an acceptance.
        ensures refused { IfErr result (λ back. (received self.old from new ≡ Err back.0) ⊎ ((back.0 ≡ ReplicaFault.Memory)
            × (received self.old from new ≡ Ok Received.Accepted))) }
        ensures back { IfErr result (λ back. back.1 ≡ new) }
        ensures ok { IfOk result (λ answer. self.new ≡ left_by_receive self.old new answer) }
        ensures err { OnErr result (self.new ≡ self.old) }
    {
        match self.judge(from, &new) {
            Ok(Received::Accepted) => self.accept(from, new),
            Ok(Received::Skipped) => Ok(Received::Skipped),
            Err(fault) => Err((fault, new)),
        }
    }

    /// Keeps the record, which `judge` has accepted. If there is no memory for it, it is given back.
    fn accept(&mut self, from: Uuid, new: Record) -> Result<Received, (ReplicaFault, Record)>
        requires { received self.old from new ≡ Ok Received.Accepted }
        ensures answer { IfOk result (λ answer. answer ≡ Received.Accepted) }
        ensures only { IfErr result (λ back. (back.0 ≡ ReplicaFault.Memory) × (back.1 ≡ new)) }
        ensures ok { OnOk result (self.new ≡ with_accepted self.old new) }
        ensures err { OnErr result (self.new ≡ self.old) }
    {
        let taken = take_room(&mut self.touches, &mut self.kept, &mut self.ids, from, &new);
        if let Err(fault) = taken {
            return Err((fault.into(), new));
        }
        self.touches.note(&new);
        self.kept.push_reserved(new);
        Ok(Received::Accepted)
    }

    /// What `receive` returns for the record if there is enough memory.
    fn judge(&self, from: Uuid, new: &Record) -> Result<Received, ReplicaFault>
        ensures { result ≡ received self.now from new.now }
    {
        if from != self.source {
            return Err(ReplicaFault::ForeignSource);
        }
        if is_malformed(&self.schema, new) {
            return Err(ReplicaFault::Malformed);
        }
        if self.has_received(new) {
            return Ok(Received::Skipped);
        }
        if new.gno != self.count() + 1 {
            return Err(ReplicaFault::Gap);
        }
        if !self.touches.are_behind(new) {
            return Err(ReplicaFault::BadParent);
        }
        Ok(Received::Accepted)
    }

    /// Whether a record of its id was accepted before.
    fn has_received(&self, new: &Record) -> bool
        requires formed { malformed self.now.tables new.now ≡ false }
        ensures { result ≡ nat_le new.now.gno (length self.now.accepted) }
    {
        self.ids.has_number(new.gno)
    }

    /// The accepted records after the first `count`, in order. No more may be gone than these.
    pub fn past(&self, count: u64) -> &[Record]
        requires kept { self.now.gone ≤ count }
        requires within { count ≤ length self.now.accepted }
        ensures value { result.now ≡ drop count self.now.accepted }
    {
        self.gone.past(&self.kept, count)
    }

    /// The number of accepted records, kept or not. It takes no memory, and constant time.
    pub fn count(&self) -> u64
        ensures value { result ≡ length self.now.accepted }
        ensures valid { AreAcceptable self.now.tables self.now.accepted }
    {
        self.gone.count() + self.kept.len() as u64
    }

    /// Lets the records up to this number go: they are freed if they are at least half of those that are kept. Which
    /// records are accepted does not depend on it. It takes no memory. The time is constant for each record on the whole.
    pub fn let_go(&mut self, upto: u64)
        requires { upto ≤ length self.old.accepted }
        ensures { LetsGo upto self.old self.new }
    {
        self.gone.let_go(&mut self.kept, upto);
    }

    /// The tables of the source.
    pub fn schema(&self) -> &Schema
        ensures { result.now ≡ self.now.tables }
    {
        &self.schema
    }

    /// The identifier of the source.
    pub fn source(&self) -> Uuid
        ensures { result ≡ self.now.source }
    {
        self.source
    }

    /// The tables of the source, and the accepted records in order, without a copy, if none is gone. The time is that of
    /// freeing what the relay keeps of their rows and marks.
    pub fn into_parts(self) -> (Schema, Vec<Record>)
        requires { self.gone ≡ 0 }
        ensures tables { result.0 ≡ self.tables }
        ensures accepted { result.1.items ≡ self.accepted }
        ensures valid { AreAcceptable self.tables self.accepted }
    {
        let Relay { schema, kept, .. } = self;
        (schema, kept)
    }
}

/// Makes room for the record and for what it touches, and puts its id in. If it can't, the ids are as they were.
fn take_room(
    touches: &mut Touches,
    records: &mut Vec<Record>,
    ids: &mut GtidSet,
    from: Uuid,
    new: &Record,
) -> Result<(), Memory>
    requires number { (1 ≤ new.now.gno) × (new.now.gno < 2 ^ 63) }
    requires before { ids.old ≡ first_ids from (new.now.gno - 1) }
    ensures rows { touches.new.rows.map ≡ touches.old.rows.map }
    ensures marks { touches.new.marks.map ≡ touches.old.marks.map }
    ensures room { OnOk result (length new.now.changes + length new.now.refs ≤ touches.new.rows.room) }
    ensures places { OnOk result (length new.now.marks ≤ touches.new.marks.room) }
    ensures items { records.new.items ≡ records.old.items }
    ensures one_more { OnOk result (vec_len records.new < vec_capacity records.new) }
    ensures ids { OnOk result (ids.new ≡ first_ids from new.now.gno) }
    ensures err { OnErr result (ids.new ≡ ids.old) }
{
    // The id comes last: after it nothing may fail.
    touches.reserve(new)?;
    records.reserve(1)?;
    add_next(ids, from, new.gno)
}
