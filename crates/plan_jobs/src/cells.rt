//! The cells that a job holds.
ghost use Rattle.std.specs.Prelude.{◌≡◌, ◌==◌, true, length, None, MatchOption, IsTrue};
ghost use Rattle.std.specs.Option.{option_map};
ghost use Rattle.std.specs.List.{slice_get};
ghost use Rattle.record_versions.specs.Shown.{cells_of};
ghost use Rattle.walk_rules.specs.Cells.{held};
ghost use Rattle.plan_jobs.specs.Jobs.{are_ascending, shown_cell};

use plan_schema::CellName;
use record_versions::{Cell, VersionId};
use std::marker::Model;
use std::sync::Arc;

/// Cells under their versions, in the order of the cells' names: the horizon's, those of calendars, those of parts, each by name. The
/// cells are shared with the store that they come from. Contracts see the list of versions and rows.
#[derive(Drop)]
pub struct CellList {
    cells: Vec<(VersionId, Arc<Cell>)>,
}

impl Model for CellList {
    ghost use Rattle.std.specs.Prelude.{◌≡◌, true};
    ghost use Rattle.record_versions.specs.Shown.{cells_of};
    ghost use Rattle.walk_rules.specs.Cells.{Cells};
    ghost use Rattle.plan_jobs.specs.Jobs.{are_ascending};

    ghost Value = { Cells };

    ghost view = { λ list. cells_of list.cells.items };

    ghost invariant = { λ list. are_ascending (cells_of list.cells.items) ≡ true };
}

impl CellList {
    /// These cells, which stand in the order of their names.
    pub(crate) fn of(cells: Vec<(VersionId, Arc<Cell>)>) -> CellList
        requires { are_ascending (cells_of cells.items) ≡ true }
        ensures { result ≡ cells_of cells.items }
    {
        CellList { cells }
    }

    /// How many cells there are.
    pub fn len(&self) -> usize
        ensures count { result ≡ length self.now }
        ensures ascending { are_ascending self.now ≡ true }
    {
        self.cells.len()
    }

    /// Whether there are no cells.
    pub fn is_empty(&self) -> bool
        ensures { result ≡ (length self.now == 0) }
    {
        self.cells.is_empty()
    }

    /// The cells as a slice.
    pub fn as_slice(&self) -> &[(VersionId, Arc<Cell>)]
        ensures cells { cells_of result.now ≡ self.now }
        ensures ascending { are_ascending self.now ≡ true }
    {
        self.cells.as_slice()
    }

    /// The cell at a place in the order of the names, from 0, and its version.
    pub fn at(&self, place: usize) -> Option<(&VersionId, &Cell)>
        ensures { option_map shown_cell result ≡ slice_get self.now place }
    {
        match self.cells.get(place) {
            Some((id, cell)) => Some((id, cell)),
            None => None,
        }
    }

    /// The cell of a name, and its version.
    pub fn get(&self, name: &CellName) -> Option<(&VersionId, &Cell)>
        ensures { option_map shown_cell result ≡ held self.now name.now }
    {
        let place = place_of(&self.cells, name)?;
        self.at(place)
    }

    /// The cell of a name, and its version. Before it is searched for, it is looked for next to the last place, which becomes its own:
    /// so names that are asked for in their order, and one that is asked for again, take no search.
    pub fn get_near(&self, name: &CellName, last: &mut usize) -> Option<(&VersionId, &Cell)>
        ensures { option_map shown_cell result ≡ held self.now name.now }
    {
        let place = place_near(&self.cells, name, *last)?;
        *last = place;
        self.at(place)
    }
}

/// Whether the cell of a name is the one at a place.
fn is_at(cells: &[(VersionId, Arc<Cell>)], name: &CellName, place: usize) -> bool
    requires { are_ascending (cells_of cells.now) ≡ true }
    ensures { IsTrue result
        → slice_get (cells_of cells.now) place ≡ held (cells_of cells.now) name.now }
{
    match cells.get(place) {
        Some(cell) => cell.0.cell.compare(name).is_eq(),
        None => false,
    }
}

/// The place of a cell among cells in the order of their names, which is looked for next to a place first.
fn place_near(cells: &[(VersionId, Arc<Cell>)], name: &CellName, last: usize) -> Option<usize>
    requires { are_ascending (cells_of cells.now) ≡ true }
    ensures { MatchOption result (held (cells_of cells.now) name.now ≡ None)
        (λ place. slice_get (cells_of cells.now) place ≡ held (cells_of cells.now) name.now) }
{
    if last < cells.len() && is_at(cells, name, last + 1) {
        return Some(last + 1);
    }
    if is_at(cells, name, last) {
        return Some(last);
    }
    place_of(cells, name)
}

/// The place of a cell among cells in the order of their names.
fn place_of(cells: &[(VersionId, Arc<Cell>)], name: &CellName) -> Option<usize>
    requires { are_ascending (cells_of cells.now) ≡ true }
    ensures { MatchOption result (held (cells_of cells.now) name.now ≡ None)
        (λ place. slice_get (cells_of cells.now) place ≡ held (cells_of cells.now) name.now) }
{
    cells.binary_search_by_key(name, |cell| cell.0.cell).ok()
}
