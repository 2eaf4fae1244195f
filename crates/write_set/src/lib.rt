//! The write sets of transactions: digests of the rows that they write, and of their marks.
//!
//! The digest of a row is a number of 64 bits: its key's bits, xor its table's id in the upper 16. The digest of a mark
//! is the complement of the same number made from its table and value, so that it is seldom that of a row. A `WriteSet`
//! is the digests of the rows that a transaction writes in keyed tables, and of its marks, each once, in rising order;
//! its type ensures that they rise. Rows of keyless tables have no digest. Rows of different tables, or a row and a
//! mark, may have the same digest. A tracker then takes them for one, which only raises a parent: no conflict is
//! missed.
//!
//! `specs/Digest.antt` defines digests and sets of them. `schema` says which tables are keyed, and `log_index` has the
//! footprints, with the written rows and the marks.
#![tactic(auto)]

ghost use Rattle.std.specs.Prelude.{◌≡◌, ◌==◌, ◌++◌, length, filter, map, IfOk};
ghost use Rattle.std.specs.List.Sorted.{IsStrictlyIncreasing};
ghost use Rattle.write_set.specs.Digest.{digest_of, mark_digest, is_keyed, digests_of};

pub mod laws;

use log_index::Footprint;
use schema::{Mark, Memory, RowId, Schema};
use std::alloc::Global;
use std::marker::Model;

/// The digests of a transaction's written rows in keyed tables, and of its marks.
#[derive(Debug, Drop)]
pub struct WriteSet {
    digests: Vec<u64>,
}

impl Model for WriteSet {
    ghost use Rattle.std.specs.Prelude.{ℕ, List};
    ghost use Rattle.std.specs.List.Sorted.{IsStrictlyIncreasing};

    ghost Value = { List ℕ };

    ghost view = { λ s. s.digests.items };

    ghost invariant = { λ s. IsStrictlyIncreasing s.digests.items };
}

impl WriteSet {
    /// The digests in rising order.
    pub fn digests(&self) -> &[u64]
        ensures value { result.now ≡ self.now }
        ensures rising { IsStrictlyIncreasing result.now }
    {
        &self.digests
    }

    /// How many digests there are.
    pub fn len(&self) -> usize
        ensures { result ≡ length self.now }
    {
        self.digests.len()
    }

    /// Whether no row and no mark has a digest.
    pub fn is_empty(&self) -> bool
        ensures { result ≡ (length self.now == 0) }
    {
        self.digests.is_empty()
    }

    /// The same digests, in separate memory.
    pub fn copy(&self) -> Result<WriteSet, Memory>
        ensures { IfOk result (λ set. set ≡ self.now) }
    {
        Ok(WriteSet {
            digests: self.digests.clone()?,
        })
    }
}

/// The write set of a transaction with this footprint. For n written rows and marks and t tables the time is that of
/// n * t tests, to find the rows' tables, and of n log n to sort. The memory is that of n digests.
pub fn digests(alloc: Global, schema: &Schema, footprint: &Footprint) -> Result<WriteSet, Memory>
    ensures { IfOk result (λ set. set ≡ digests_of schema.now footprint.now) }
{
    let mut digests = each_digest(
        alloc,
        schema,
        footprint.writes.list(),
        footprint.marks.list(),
    )?;
    digests.sort_unstable();
    digests.dedup();
    Ok(WriteSet { digests })
}

/// The digest of each row in a keyed table, in the order of the rows, and then of each mark.
fn each_digest(
    alloc: Global,
    schema: &Schema,
    rows: &[RowId],
    marks: &[Mark],
) -> Result<Vec<u64>, Memory>
    ensures { IfOk result (λ list. list.items ≡ map digest_of (filter (is_keyed schema.now) rows.now) ++ map mark_digest marks.now) }
{
    let of_rows = rows
        .iter()
        .filter(|row| is_keyed(schema, **row))
        .map(|row| digest(*row));
    let list = of_rows
        .chain(marks.iter().map(|mark| mark_digest(*mark)))
        .collect(alloc)?;
    Ok(list)
}

fn is_keyed(schema: &Schema, row: RowId) -> bool
    ensures { result ≡ is_keyed schema.now row }
{
    schema.table(row.table).is_some_and(|table| table.keyed)
}

fn digest(row: RowId) -> u64
    ensures { result ≡ digest_of row }
{
    row.key.cast_unsigned() ^ ((row.table as u64) << 48)
}

fn mark_digest(mark: Mark) -> u64
    ensures { result ≡ mark_digest mark }
{
    !(mark.value().cast_unsigned() ^ ((mark.table() as u64) << 48))
}
