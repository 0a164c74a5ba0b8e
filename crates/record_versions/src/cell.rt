//! The rows of one cell.
ghost use Rattle.std.specs.Prelude.{◌≡◌, ◌<◌, ◌^◌, ◌==◌, true, [], length, IfOk};
ghost use Rattle.std.specs.Map.Iter.{ShowsInOrder};
ghost use Rattle.cell_tree.specs.Pairs.{shown_pair};
ghost use Rattle.plan_schema.specs.declared.key.Key.{Key};
ghost use Rattle.plan_schema.specs.declared.key.Record.{Record};
ghost use Rattle.std.specs.Option.{option_copied, option_map};
ghost use Rattle.std.specs.List.{slice_get};
ghost use Rattle.plan_schema.specs.Key as spec;
ghost use Rattle.plan_schema.specs.Contents.{is_ordered, record_at, with_record, without_key};
ghost use Rattle.record_versions.specs.Shown.{shown_row};

use cell_tree::{Iter, Tree};
use plan_schema::{CellName, Key, Record};
use std::alloc::{AllocError, Global};
use std::marker::Model;
use std::sync::Arc;

/// The rows of a cell, in key order. A cell never changes: a changed one shares most of its memory with the one that it came from.
/// Contracts see the list of the rows.
#[derive(Drop)]
pub struct Cell {
    rows: Tree<Key, Record>,
    alloc: Global,
}

impl Model for Cell {
    ghost use Rattle.std.specs.Prelude.{List};
    ghost use Rattle.plan_schema.specs.declared.key.Key.{Key};
    ghost use Rattle.plan_schema.specs.declared.key.Record.{Record};

    ghost Value = { List (Key × Record) };

    ghost view = { λ cell. cell.rows };
}

impl Cell {
    /// No rows.
    pub fn new(alloc: Global) -> Cell
        ensures { result ≡ [] }
    {
        Cell {
            rows: Tree::new(alloc),
            alloc,
        }
    }

    /// The record under a key.
    pub fn get(&self, key: &Key) -> Option<&Record>
        ensures { option_copied result ≡ record_at self.now key.now }
    {
        match self.rows.get(key) {
            Some(value) => Some(value),
            None => None,
        }
    }

    /// How many rows there are.
    pub fn len(&self) -> usize
        ensures count { result ≡ length self.now }
        ensures ordered { is_ordered self.now ≡ true }
    {
        self.rows.len()
    }

    /// Whether there are no rows.
    pub fn is_empty(&self) -> bool
        ensures { result ≡ (length self.now == 0) }
    {
        self.rows.is_empty()
    }

    /// The row at a place in key order, from 0.
    pub fn at(&self, place: usize) -> Option<(Key, &Record)>
        ensures { option_map shown_row result ≡ slice_get self.now place }
    {
        match self.rows.at(place) {
            Some((key, value)) => Some((key, value)),
            None => None,
        }
    }

    /// The rows in key order.
    pub fn iter(&self) -> Iter<'_, Key, Record>
        ensures rows { result ≡ self.now }
        ensures runs { ShowsInOrder (shown_pair {K = Key} {V = Record}) }
        ensures bound { length self.now < 2 ^ 64 }
    {
        self.rows.iter()
    }

    /// The cell with a record under a key, in place of the one there.
    pub fn with(&self, key: Key, value: Record) -> Result<Cell, AllocError>
        ensures { IfOk result (λ cell. cell ≡ with_record self.now key value) }
    {
        Ok(Cell {
            rows: self.rows.with(key, Arc::new(self.alloc, value)?)?,
            alloc: self.alloc,
        })
    }

    /// The cell with nothing under a key: an equal cell where nothing is there.
    pub fn without(&self, key: &Key) -> Result<Cell, AllocError>
        ensures { IfOk result (λ cell. cell ≡ without_key self.now key.now) }
    {
        Ok(Cell {
            rows: self.rows.without(key)?,
            alloc: self.alloc,
        })
    }
}

/// The cell that a key belongs to.
pub fn cell_of(key: &Key) -> CellName
    ensures { result ≡ spec.cell_of key.now }
{
    match key {
        Key::Plan => CellName::Plan,
        Key::Cal(name) | Key::Holiday(name, _) => CellName::Cal(*name),
        Key::Part(part) | Key::Stock(part) | Key::Demand(part, _) | Key::Receipt(part, _) => {
            CellName::Part(*part)
        }
        Key::Bill { component, .. } => CellName::Part(*component),
    }
}
