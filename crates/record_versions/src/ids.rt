//! The ids of the cells of a scenario's base or contents.
ghost use Rattle.std.specs.Prelude.{◌≡◌, ◌<◌, ◌^◌, true, [], length, IfOk, OnOk, OnErr};
ghost use Rattle.std.specs.Map.Iter.{ShowsInOrder};
ghost use Rattle.cell_tree.specs.Pairs.{shown_pair};
ghost use Rattle.plan_schema.specs.declared.change.CellName.{CellName};
ghost use Rattle.record_versions.specs.declared.version.VersionId.{VersionId};
ghost use Rattle.std.specs.Option.{option_copied, option_map};
ghost use Rattle.std.specs.List.{slice_get};
ghost use Rattle.record_versions.specs.Versions.{id_at, with_id, without_id, are_ordered_ids};
ghost use Rattle.record_versions.specs.Shown.{shown_id};

use crate::version::VersionId;
use cell_tree::{Iter, Tree};
use plan_schema::CellName;
use std::alloc::{AllocError, Global};
use std::marker::Model;
use std::sync::Arc;

/// The ids of cells, in the order of the cells: that of the horizon, those of calendars, those of parts, each by name. A cell without rows
/// has none. Contracts see the list of cells and ids.
#[derive(Drop)]
pub struct Ids {
    ids: Tree<CellName, VersionId>,
    alloc: Global,
}

impl Model for Ids {
    ghost use Rattle.std.specs.Prelude.{List};
    ghost use Rattle.plan_schema.specs.declared.change.CellName.{CellName};
    ghost use Rattle.record_versions.specs.declared.version.VersionId.{VersionId};

    ghost Value = { List (CellName × VersionId) };

    ghost view = { λ ids. ids.ids };
}

impl Ids {
    /// No ids.
    pub fn new(alloc: Global) -> Ids
        ensures { result ≡ [] }
    {
        Ids {
            ids: Tree::new(alloc),
            alloc,
        }
    }

    /// The id of a cell.
    pub fn get(&self, cell: &CellName) -> Option<&VersionId>
        ensures { option_copied result ≡ id_at self.now cell.now }
    {
        match self.ids.get(cell) {
            Some(id) => Some(id),
            None => None,
        }
    }

    /// How many cells there are.
    pub fn len(&self) -> usize
        ensures count { result ≡ length self.now }
        ensures ordered { are_ordered_ids self.now ≡ true }
    {
        self.ids.len()
    }

    /// The cell at a place in their order, from 0.
    pub fn at(&self, place: usize) -> Option<(CellName, &VersionId)>
        ensures { option_map shown_id result ≡ slice_get self.now place }
    {
        match self.ids.at(place) {
            Some((cell, id)) => Some((cell, id)),
            None => None,
        }
    }

    /// The cells and their ids in the order of the cells.
    pub fn iter(&self) -> Iter<'_, CellName, VersionId>
        ensures ids { result ≡ self.now }
        ensures runs { ShowsInOrder (shown_pair {K = CellName} {V = VersionId}) }
        ensures bound { length self.now < 2 ^ 64 }
    {
        self.ids.iter()
    }

    /// Equal ids, by shared memory: nothing is copied.
    pub fn share(&self) -> Result<Ids, AllocError>
        ensures { IfOk result (λ ids. ids ≡ self.now) }
    {
        Ok(Ids {
            ids: self.ids.share()?,
            alloc: self.alloc,
        })
    }

    /// The ids with one for a cell.
    pub fn with(&self, cell: CellName, id: VersionId) -> Result<Ids, AllocError>
        ensures { IfOk result (λ ids. ids ≡ with_id self.now cell id) }
    {
        Ok(Ids {
            ids: self.ids.with(cell, Arc::new(self.alloc, id)?)?,
            alloc: self.alloc,
        })
    }

    /// The ids with none for a cell.
    pub fn without(&self, cell: &CellName) -> Result<Ids, AllocError>
        ensures { IfOk result (λ ids. ids ≡ without_id self.now cell.now) }
    {
        Ok(Ids {
            ids: self.ids.without(cell)?,
            alloc: self.alloc,
        })
    }

    /// Puts an id for a cell. What no other ids share is changed in place.
    pub fn put(&mut self, cell: CellName, id: VersionId) -> Result<(), AllocError>
        ensures ok { OnOk result (self.new ≡ with_id self.old cell id) }
        ensures err { OnErr result (self.new ≡ self.old) }
    {
        let id = Arc::new(self.alloc, id)?;
        self.ids.put(cell, id)
    }

    /// Takes the id of a cell away, where there is one. What no other ids share is changed in place.
    pub fn remove(&mut self, cell: &CellName) -> Result<(), AllocError>
        ensures ok { OnOk result (self.new ≡ without_id self.old cell.now) }
        ensures err { OnErr result (self.new ≡ self.old) }
    {
        self.ids.remove(cell)
    }
}
