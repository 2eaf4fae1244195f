//! What a source begins with besides its rows. All of it that can be refused is made here, by a look at the store.

ghost use Rattle.std.specs.Prelude.{◌≡◌, IfOk};
ghost use Rattle.store_trait.specs.Batch.{all_rows};
ghost use Rattle.store_trait.specs.Fits.{Fits};
ghost use Rattle.store_trait.specs.Operation.{loaded};

use crate::rooms::Rooms;
use crate::session::empty_places;
use crate::transaction::Transaction;
use commit_stages::Stages;
use log_index::Log;
use record_codec::Record;
use row_index::{Children, Index};
use row_locks::LockTable;
use schema::{Memory, Schema};
use std::alloc::Global;
use std::marker::Model;
use store_trait::{Batch, RowStore, snapshot};

/// What the sessions use: no transactions yet, empty queues and no locks.
#[derive(Drop)]
pub(crate) struct Idle {
    pub places: Vec<Option<Transaction>>,
    pub stages: Stages,
    pub locks: LockTable,
    pub rooms: Rooms,
}

impl Model for Idle {
    ghost use Rattle.source_core.specs.Core.{IsIdle};

    ghost Value = { Unit {0} };

    ghost view = { λ idle. tt };

    ghost invariant = { λ idle. IsIdle idle.places.items idle.stages idle.locks };
}

impl Idle {
    pub(crate) fn new(alloc: Global) -> Result<Idle, Memory> {
        let places = empty_places(alloc)?;
        let stages = Stages::new(alloc)?;
        let locks = LockTable::new(alloc)?;
        let rooms = Rooms::new(alloc)?;
        Ok(Idle {
            places,
            stages,
            locks,
            rooms,
        })
    }
}

/// What a source has besides its rows when it begins.
#[derive(Drop)]
pub(crate) struct Beside {
    pub schema: Schema,
    pub index: Index,
    pub children: Children,
    pub idle: Idle,
}

/// A log over the rows that it began with, and what trackers see of it.
#[derive(Drop)]
pub(crate) struct Past {
    pub base: Batch,
    pub log: Vec<Record>,
    pub index: Log,
}

/// What a source begins with besides its rows: the schema, the rows as the batch that loads them, the holder of each
/// value of a unique column, how many children each row has, and the places of the sessions. It only looks at the store,
/// whose owner still has the store if memory runs out. `SourceCore::opened` takes both, and refuses nothing.
#[derive(Drop)]
pub struct Opening {
    pub(crate) base: Batch,
    pub(crate) beside: Beside,
}

impl Model for Opening {
    ghost use Rattle.source_core.specs.Source.{Start};

    ghost Value = { Start };

    ghost use Rattle.source_core.specs.Core.{IsStart};

    ghost view = { λ o. record { tables = o.beside.schema; base = o.base } };

    ghost invariant = { λ o. IsStart o.beside.schema o.base o.beside.index.map o.beside.children.map };
}

impl Opening {
    /// What a source of these rows begins with. With n rows it takes the memory of a copy of them and n log n time: it
    /// keeps the rows at the start, so that the log can be judged by them. It also takes the memory of the sessions'
    /// places, of the values in unique columns, and of the rows that are parents: none for these two if no table has a
    /// unique column, or a parent.
    pub fn of<S: RowStore>(alloc: Global, schema: Schema, store: &S) -> Result<Opening, Memory>
        requires { Fits schema (S.contents store.now) }
        ensures tables { IfOk result (λ opening. opening.tables ≡ schema) }
        ensures base { IfOk result (λ opening. opening.base ≡ all_rows (S.contents store.now)) }
        ensures rows { IfOk result (λ opening. loaded opening.base ≡ S.contents store.now) }
    {
        let base = snapshot(alloc, store, &schema)?;
        let index = Index::of(alloc, &schema, &base)?;
        let children = Children::of(alloc, &schema, &base)?;
        let idle = Idle::new(alloc)?;
        let beside = Beside {
            schema,
            index,
            children,
            idle,
        };
        Ok(Opening { base, beside })
    }

    /// The tables.
    pub fn schema(&self) -> &Schema
        ensures { result.now ≡ self.now.tables }
    {
        &self.beside.schema
    }

    /// The rows, as the batch that loads them.
    pub fn base(&self) -> &Batch
        ensures { result.now ≡ self.now.base }
    {
        &self.base
    }
}
