//! A store of rows in the standard library's ordered map.
//!
//! A `BTreeStore` contains the rows of its map (`specs/Contents.antt`). Its type ensures that the keys are numbers of
//! 64 bits. It meets the contract of `store_trait` with the standard library's `BTreeMap`. Rows are kept as wide as
//! their table (`packed`). A batch is put whole or not at all, even if memory runs out in the middle of it (`put`).
#![tactic(auto)]

ghost use Rattle.std.specs.Prelude.{◌≡◌};
ghost use Rattle.std.specs.FinMap.{empty};
ghost use Rattle.store_trait.specs.Contents.{IsNextInTable};
ghost use Rattle.btree_store.specs.Contents.{contents_of, KeysFit};

mod packed;
mod put;

use packed::Packed;
use put::put_whole;
use rows::Row;
use schema::{Memory, RowId};
use std::alloc::Global;
use std::collections::BTreeMap;
use std::marker::Model;
use std::ops::Bound;
use store_trait::{Batch, RowStore};

/// Rows by their ids, in order, each as wide as its table.
type Rows = BTreeMap<RowId, Packed>;

/// Rows in an ordered map. No call copies the map. A batch takes the time of a look-up for each of its rows. It takes
/// memory for rows that are new, for the columns of wide rows that it sets, and for a list of what it replaces, which
/// is given back. A batch of one row needs no list. A row of one or two columns takes 48 bytes with its id; a wider one
/// also asks for memory for its columns.
#[derive(Debug, Drop)]
pub struct BTreeStore {
    alloc: Global,
    rows: Rows,
}

impl Model for BTreeStore {
    ghost use Rattle.std.specs.FinMap.{code};
    ghost use Rattle.std.specs.Coded.{coded_list, coded_ℤ};
    ghost use Rattle.schema.specs.RowId.{coded_row_id};
    ghost use Rattle.rows.specs.Database.{Database};
    ghost use Rattle.btree_store.specs.Contents.{contents_of, KeysFit};

    ghost Value = { Database };

    ghost coded = { code coded_row_id (coded_list coded_ℤ) };

    ghost view = { λ s. contents_of s.rows };

    ghost invariant = { λ s. KeysFit (contents_of s.rows) };
}

impl BTreeStore {
    /// A store of no rows. It takes no memory.
    pub fn new(alloc: Global) -> BTreeStore
        ensures { result ≡ empty }
    {
        BTreeStore {
            alloc,
            rows: BTreeMap::new(alloc),
        }
    }
}

impl RowStore for BTreeStore {
    ghost contents = { λ s. s };

    fn get(&self, id: RowId) -> Option<Row> {
        let there = self.rows.get(&id)?;
        Some(there.row())
    }

    fn put_all(&mut self, batch: &Batch) -> Result<(), Memory> {
        put_whole(self.alloc, &mut self.rows, batch.entries())
    }

    fn len(&self) -> usize {
        self.rows.len()
    }

    fn next_in_table(&self, table: u16, above: Option<i64>) -> Option<(i64, Row)> {
        next_row(&self.rows, table, above)
    }
}

/// The row with the least key, of the table's rows above the given key, or of all of them without one.
fn next_row(rows: &Rows, table: u16, above: Option<i64>) -> Option<(i64, Row)>
    requires { KeysFit (contents_of rows.now) }
    ensures { IsNextInTable (contents_of rows.now) table above result }
{
    let start = match above {
        None => Bound::Included(RowId {
            table,
            key: i64::MIN,
        }),
        Some(key) => Bound::Excluded(RowId { table, key }),
    };
    let end = Bound::Included(RowId {
        table,
        key: i64::MAX,
    });
    let (id, row) = rows.range((start, end)).next()?;
    Some((id.key, row.row()))
}
