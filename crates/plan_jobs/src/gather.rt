//! Collecting the cells that a question takes along.
ghost use Rattle.std.specs.Prelude.{◌≡◌, ◌++◌, true, IfOk, OnOk, filter};
ghost use Rattle.std.specs.Option.{option_map};
ghost use Rattle.std.specs.Arc.{arc_value};
ghost use Rattle.std.specs.List.{filter_map};
ghost use Rattle.plan_schema.specs.declared.change.CellName.{CellName};
ghost use Rattle.planning_rules.specs.Bills.{parents, parent_in};
ghost use Rattle.record_versions.specs.Versions.{id_at, are_ordered_ids};
ghost use Rattle.walk_rules.specs.Steps.{calendar_of};
ghost use Rattle.plan_schema.specs.Contents.{record_at};
ghost use Rattle.plan_schema.specs.declared.key.Key.TheVariants as keys;
ghost use Rattle.plan_jobs.specs.Jobs.{IsJob};
ghost use Rattle.plan_jobs.specs.Names.{has_name, are_ordered};
ghost use Rattle.plan_jobs.specs.Collects.{AreWholeCells, CollectedFrom, cell_by, cells_by, records_by, is_needed};
ghost use Rattle.plan_jobs.specs.Collects.{IsVisited};

use crate::cells::CellList;
use crate::job::{Job, Wanted};
use crate::names::CellNames;
use plan_schema::{CellName, Key, Name, Record};
use record_versions::{Cell, Ids, Store, VersionId};
use std::alloc::{AllocError, Global};
use std::sync::Arc;

/// The question about a scenario with these ids, with the cells that its answer depends on: the wanted cell, and nothing where it isn't
/// there; or the cells of the part and of all its ancestors, of the calendars that these name, and of the plan; or all cells.
///
/// Only the cells that it takes are read, and none is copied.
pub fn collect(
    alloc: Global,
    point: u64,
    ids: &Ids,
    store: &Store,
    wanted: Wanted,
) -> Result<Job, AllocError>
    requires { AreWholeCells store.now ids.now }
    ensures point { IfOk result (λ job. job.point ≡ point) }
    ensures wanted { IfOk result (λ job. job.wanted ≡ wanted) }
    ensures cells { IfOk result (λ job. CollectedFrom store.now ids.now wanted job.cells) }
    ensures job { IfOk result (λ job. IsJob wanted job.cells) }
    ensures ordered { are_ordered_ids ids.now ≡ true }
{
    let cells = wanted_cells(alloc, ids, store, &wanted)?;
    Ok(Job {
        point,
        wanted,
        cells,
    })
}

/// The cells that are wanted.
fn wanted_cells(
    alloc: Global,
    ids: &Ids,
    store: &Store,
    wanted: &Wanted,
) -> Result<CellList, AllocError>
    requires { AreWholeCells store.now ids.now }
    ensures cells { IfOk result (λ cells. CollectedFrom store.now ids.now wanted.now cells) }
    ensures ordered { are_ordered_ids ids.now ≡ true }
{
    // Its contract tells that the ids stand in their order.
    let _count = ids.len();
    match wanted {
        Wanted::Cell(name) => {
            let mut names = CellNames::new(alloc);
            names.put(*name)?;
            named_cells(alloc, ids, store, names)
        }
        Wanted::Part(part) => {
            let names = needed_names(alloc, ids, store, *part)?;
            named_cells(alloc, ids, store, names)
        }
        Wanted::All => all_cells(alloc, ids, store),
    }
}

/// The cell of a name, and its version.
fn find<'a>(ids: &'a Ids, store: &'a Store, name: CellName) -> Option<(VersionId, &'a Arc<Cell>)>
    requires { AreWholeCells store.now ids.now }
    ensures { option_map (λ cell. (cell.0, arc_value cell.1.now)) result
        ≡ option_map (cell_by store.now) (id_at ids.now name) }
{
    let id = *ids.get(&name)?;
    let Some(cell) = store.get(&id) else {
        unreachable!()
    };
    Some((id, cell))
}

/// All cells.
fn all_cells(alloc: Global, ids: &Ids, store: &Store) -> Result<CellList, AllocError>
    requires whole { AreWholeCells store.now ids.now }
    requires ordered { are_ordered_ids ids.now ≡ true }
    ensures { IfOk result (λ cells. cells ≡ cells_by store.now ids.now) }
{
    let mut cells = Vec::with_capacity(alloc, ids.len())?;
    for (_name, id) in ids.iter() {
        let Some(cell) = store.get(id) else {
            unreachable!()
        };
        cells.push((**id, Arc::try_clone(cell)?))?;
    }
    Ok(CellList::of(cells))
}

/// Those of the cells that have these names.
fn named_cells(
    alloc: Global,
    ids: &Ids,
    store: &Store,
    mut names: CellNames,
) -> Result<CellList, AllocError>
    requires whole { AreWholeCells store.now ids.now }
    requires ordered { are_ordered_ids ids.now ≡ true }
    requires names { are_ordered names ≡ true }
    ensures { IfOk result (λ cells. cells
        ≡ filter (λ cell. has_name names cell.0.cell) (cells_by store.now ids.now)) }
{
    let mut cells = Vec::new(alloc);
    while let Some(name) = names.take_first() {
        if let Some((id, cell)) = find(ids, store, name) {
            cells.push((id, Arc::try_clone(cell)?))?;
        }
    }
    Ok(CellList::of(cells))
}

/// The names of the cells that the plan of a part depends on.
fn needed_names(
    alloc: Global,
    ids: &Ids,
    store: &Store,
    part: Name,
) -> Result<CellNames, AllocError>
    requires whole { AreWholeCells store.now ids.now }
    requires ordered { are_ordered_ids ids.now ≡ true }
    ensures names { IfOk result (λ names. (cell : CellName)
        → has_name names cell ≡ is_needed (records_by store.now ids.now) part cell) }
    ensures ordered { IfOk result (λ names. are_ordered names ≡ true) }
{
    let mut names = CellNames::new(alloc);
    names.put(CellName::Plan)?;
    let mut todo = Vec::new(alloc);
    todo.push(part)?;
    while let Some(name) = todo.pop() {
        if !names.has(&CellName::Part(name)) {
            visit(ids, store, name, &mut names, &mut todo)?;
        }
    }
    Ok(names)
}

/// Puts the cells of a part and of its calendar among the names, and its parents among those that are to be visited.
fn visit(
    ids: &Ids,
    store: &Store,
    part: Name,
    names: &mut CellNames,
    todo: &mut Vec<Name>,
) -> Result<(), AllocError>
    requires whole { AreWholeCells store.now ids.now }
    requires ordered { are_ordered_ids ids.now ≡ true }
    ensures names { OnOk result
        (IsVisited (records_by store.now ids.now) part names.old names.new) }
    ensures ordered { OnOk result (are_ordered names.new ≡ true) }
    ensures todo { OnOk result
        (todo.new.items ≡ todo.old.items ++ parents (records_by store.now ids.now) part) }
{
    names.put(CellName::Part(part))?;
    let Some((_id, cell)) = find(ids, store, CellName::Part(part)) else {
        return Ok(());
    };
    add_parents(cell, todo)?;
    match calendar_in(cell, part) {
        Some(calendar) => names.put(CellName::Cal(calendar)),
        None => Ok(()),
    }
}

/// The calendar that a part names, by the rows of its cell.
fn calendar_in(cell: &Cell, part: Name) -> Option<Name>
    ensures { result ≡ calendar_of (record_at cell.now (keys.Part part)) }
{
    match cell.get(&Key::Part(part)) {
        Some(Record::Part { calendar, .. }) => *calendar,
        _ => None,
    }
}

/// Adds the parents in the bills of a part's cell.
fn add_parents(cell: &Cell, todo: &mut Vec<Name>) -> Result<(), AllocError>
    ensures { OnOk result (todo.new.items ≡ todo.old.items ++ filter_map parent_in cell.now) }
{
    for (key, _value) in cell.iter() {
        if let Key::Bill { parent, .. } = key {
            todo.push(parent)?;
        }
    }
    Ok(())
}
