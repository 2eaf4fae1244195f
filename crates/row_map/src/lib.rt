//! A map from row ids to values that knows how many more rows fit.
//!
//! Contracts see a `RowMap` as a finite map in the order of row ids, with its room: how many more rows surely take no
//! memory. A caller that changes several maps together makes room in each of them first; after that no change can be
//! refused. A mark is kept in such a map under the row id that it is written as, so what is said of rows holds for
//! marks too. `schema` names rows and marks and orders them, and `indexmap` has the map.
#![tactic(auto)]

ghost use Rattle.std.specs.Prelude.{◌≡◌, ◌+◌, ◌<◌, ◌≤◌, OnOk, IsOk, IfNone, IfSome, IsSome, Some, None};
ghost use Rattle.std.specs.FinMap.{empty, get, insert, remove};

use indexmap::IndexMap;
use schema::{Memory, RowId};
use std::alloc::Global;
use std::marker::Model;

/// A value for each of some rows.
#[derive(Debug, Drop)]
pub struct RowMap<V> {
    entries: IndexMap<RowId, V>,
}

impl<V> Model for RowMap<V> {
    ghost use Rattle.std.specs.FinMap.{from_entries};
    ghost use Rattle.indexmap.specs.IndexMap.{spare};
    ghost use Rattle.schema.specs.RowId.{row_cmp};
    ghost use Rattle.row_map.specs.RoomyMap.{RoomyMap, roomy_map_code};

    ghost Value = { RoomyMap V };

    ghost coded = { roomy_map_code V.code };

    ghost view = { λ m. record { map = from_entries {R = row_cmp} m.entries.entries; room = spare m.entries } };
}

impl<V: Copy> RowMap<V> {
    /// No rows. It takes no memory.
    pub fn new(alloc: Global) -> RowMap<V>
        ensures { result.map ≡ empty }
    {
        RowMap {
            entries: IndexMap::new(alloc),
        }
    }

    /// The row's value. It takes no memory, and expected constant time. If the map is empty, the row is not even
    /// hashed.
    pub fn get(&self, row: RowId) -> Option<V>
        ensures { result ≡ get self.now.map row }
    {
        if self.entries.is_empty() {
            return None;
        }
        self.entries.get(&row).copied()
    }

    /// Makes room for this many more rows, if there is less; otherwise it takes no memory.
    pub fn reserve(&mut self, more: usize) -> Result<(), Memory>
        ensures map { self.new.map ≡ self.old.map }
        ensures room { OnOk result (more ≤ self.new.room) }
        ensures keeps { self.old.room ≤ self.new.room }
        ensures succeeds { more ≤ self.old.room → IsOk result }
    {
        self.entries.reserve(more)?;
        Ok(())
    }

    /// Gives the row this value, instead of the one that it has, if any. It takes no memory.
    pub fn set(&mut self, row: RowId, value: V)
        requires { get self.old.map row ≡ None → 0 < self.old.room }
        ensures map { self.new.map ≡ insert self.old.map row value }
        ensures room { self.old.room ≤ self.new.room + 1 }
    {
        let _ = self.entries.insert(row, value);
    }

    /// Gives the row this value instead of the one that it has: no room is used up.
    pub fn replace(&mut self, row: RowId, value: V)
        requires { IsSome (get self.old.map row) }
        ensures map { self.new.map ≡ insert self.old.map row value }
        ensures room { self.old.room ≤ self.new.room }
    {
        *self.entries.get_mut(&row).unwrap() = value;
    }

    /// Removes the row's value, if it has one.
    pub fn remove(&mut self, row: RowId)
        ensures map { self.new.map ≡ remove self.old.map row }
        ensures room { self.old.room ≤ self.new.room }
    {
        self.entries.swap_remove(&row);
    }

    /// Removes one of the rows, and returns it with its value.
    pub fn pop(&mut self) -> Option<(RowId, V)>
        ensures none { IfNone result ((self.old.map ≡ empty) × (self.new.map ≡ empty)) }
        ensures stood { IfSome result (λ entry. get self.old.map entry.0 ≡ Some entry.1) }
        ensures left { IfSome result (λ entry. self.new.map ≡ remove self.old.map entry.0) }
        ensures room { self.old.room ≤ self.new.room }
    {
        self.entries.pop()
    }
}
