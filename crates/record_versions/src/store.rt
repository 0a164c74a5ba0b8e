//! The cells of all scenarios, by their ids.
ghost use Rattle.std.specs.Prelude.{◌≡◌, [], length, OnOk, OnErr};
ghost use Rattle.std.specs.Option.{option_map};
ghost use Rattle.std.specs.Arc.{arc_value};
ghost use Rattle.record_versions.specs.Versions.{cell_at, with_cell, without_cell, has_id, only_live};
ghost use Rattle.record_versions.specs.Shown.{cells_of};

use crate::cell::Cell;
use crate::id_set::IdSet;
use crate::version::VersionId;
use std::alloc::{AllocError, Global};
use std::collections::BTreeMap;
use std::marker::Model;
use std::sync::Arc;

/// Cells by their ids. Contracts see the list of ids and cells, in the order of the ids.
#[derive(Drop)]
pub struct Store {
    cells: BTreeMap<VersionId, Arc<Cell>>,
    alloc: Global,
}

impl Model for Store {
    ghost use Rattle.std.specs.Prelude.{List};
    ghost use Rattle.plan_schema.specs.declared.key.Key.{Key};
    ghost use Rattle.plan_schema.specs.declared.key.Record.{Record};
    ghost use Rattle.record_versions.specs.declared.version.VersionId.{VersionId};
    ghost use Rattle.record_versions.specs.Shown.{cells_of};

    ghost Value = { List (VersionId × List (Key × Record)) };

    ghost view = { λ store. cells_of store.cells.entries };
}

impl Store {
    /// No cells.
    pub fn new(alloc: Global) -> Store
        ensures { result ≡ [] }
    {
        Store {
            cells: BTreeMap::new(alloc),
            alloc,
        }
    }

    /// The cell of an id.
    pub fn get(&self, id: &VersionId) -> Option<&Arc<Cell>>
        ensures { option_map (λ cell. arc_value cell.now) result ≡ cell_at self.now id.now }
    {
        self.cells.get(id)
    }

    /// How many cells there are.
    pub fn len(&self) -> usize
        ensures { result ≡ length self.now }
    {
        self.cells.len()
    }

    /// Puts a cell under an id, in place of the one there.
    pub fn add(&mut self, id: VersionId, cell: Cell) -> Result<(), AllocError>
        ensures ok { OnOk result (self.new ≡ with_cell self.old id cell) }
        ensures err { OnErr result (self.new ≡ self.old) }
    {
        let cell = Arc::new(self.alloc, cell)?;
        self.cells.insert(id, cell)?;
        Ok(())
    }

    /// Takes out the cell of an id, where it is there.
    pub fn remove(&mut self, id: &VersionId)
        ensures { self.new ≡ without_cell self.old id.now }
    {
        let _ = self.cells.remove(id);
    }

    /// Leaves the cells of the live ids alone, without memory.
    pub fn sweep(&mut self, live: &IdSet)
        ensures { self.new ≡ only_live live.now self.old }
    {
        self.cells.retain(
            |id, cell| -> bool
                ensures has { result ≡ has_id live.entry.now id.now }
                ensures stays { cell.new ≡ cell.old }
            { live.has(id) },
        );
    }
}
