//! The graph of the parts of a walk.
ghost use Rattle.std.specs.Prelude.{◌≡◌, ◌<◌, ◌^◌, ℕ, true, length, take, Some, None, IfOk, OnOk, Contains};
ghost use Rattle.std.specs.Prelude.{slice_get, is_some, replicate};
ghost use Rattle.std.specs.Option.{option_map};
ghost use Rattle.std.specs.List.{AllByRecursion, filter_map};
ghost use Rattle.plan_schema.specs.declared.name.Name.{Name};
ghost use Rattle.plan_schema.specs.declared.change.CellName.TheVariants as names;
ghost use Rattle.planning_rules.specs.Bills.{parents, parent_in};
ghost use Rattle.record_versions.specs.declared.version.VersionId.{VersionId};
ghost use Rattle.walk_rules.specs.Cells.{Cells, records, held, version_in};
ghost use Rattle.walk_rules.specs.Walks.{frontier};
ghost use Rattle.plan_jobs.specs.Jobs.{IsJob};
ghost use Rattle.plan_walk.specs.Places.{AreDistinct, StandAt, parts_of};
ghost use Rattle.plan_walk.specs.Nodes.{IsGraph, Fits, node_names, names_at, shown};
ghost use Rattle.plan_walk.specs.Making.{IsNew, Joins, AreMade};
ghost use Rattle.plan_walk.specs.Walk.{CanStep};

use crate::cells::{calendar_named, cell_in};
use crate::node::{Node, is_ready_at};
use low_level_codes::Numbering;
use plan_jobs::{CellList, Job};
use plan_schema::{CellName, Key, Known, Name};
use record_versions::{Cell, VersionId};
use std::alloc::{AllocError, Global};
use std::sync::Arc;

/// The version of a cell that is there. It is looked for next to the last place, which becomes its own.
pub fn version_of(cells: &CellList, name: &CellName, last: &mut usize) -> VersionId
    requires { is_some (held cells.now name.now) ≡ true }
    ensures { result ≡ version_in cells.now name.now }
{
    let Some((id, _cell)) = cells.get_near(name, last) else {
        unreachable!()
    };
    *id
}

/// The version of the calendar that a part names, if it names one.
fn calendar_version(cells: &CellList, named: Option<Name>, last: &mut usize) -> Option<VersionId>
    requires { (k : Name) → named ≡ Some k → is_some (held cells.now (names.Cal k)) ≡ true }
    ensures { result ≡ option_map (λ k. version_in cells.now (names.Cal k)) named }
{
    let name = named?;
    Some(version_of(cells, &CellName::Cal(name), last))
}

/// The places of the parents in the bills of a part's cell.
fn parents_at(alloc: Global, places: &Numbering, cell: &Cell) -> Result<Vec<usize>, AllocError>
    requires { AllByRecursion (Contains places.now) (filter_map parent_in cell.now) }
    ensures { IfOk result (λ ups. StandAt places.now ups.items (filter_map parent_in cell.now)) }
{
    let mut ups = Vec::new(alloc);
    for (key, _value) in cell.iter() {
        if let Key::Bill { parent, .. } = key {
            let Some(place) = places.find(&parent) else {
                unreachable!()
            };
            ups.push(place)?;
        }
    }
    Ok(ups)
}

/// A part with the versions of its cells and the places of its parents. Its cell and its calendar's are looked for next to the last
/// places, which become their own.
fn node_of(
    alloc: Global,
    job: &Job,
    places: &Numbering,
    name: &Name,
    last: &mut usize,
    calendar: &mut usize,
) -> Result<Node, AllocError>
    requires job { IsJob job.now.wanted job.now.cells }
    requires part { CanStep job.now.cells name.now }
    requires parents { AllByRecursion (Contains places.now)
        (parents (records job.now.cells) name.now) }
    ensures { IfOk result (IsNew job.now.cells places.now name.now) }
{
    let cell_name = CellName::Part(*name);
    let cell = cell_in(&job.cells, &cell_name, last);
    let named = calendar_named(cell, name);
    let ups = parents_at(alloc, places, cell)?;
    Ok(Node {
        name: *name,
        part: version_of(&job.cells, &cell_name, last),
        calendar: calendar_version(&job.cells, named, calendar),
        cell: *last,
        ups,
        downs: Vec::new(alloc),
    })
}

/// Appends a part, and puts it among the components of its parents.
fn join(nodes: &mut Vec<Node>, node: Node) -> Result<(), AllocError>
    requires { AllByRecursion (λ q. q < length nodes.old.items) node.ups.items }
    ensures { OnOk result (Joins nodes.old.items node nodes.new.items) }
{
    let place = nodes.len();
    for up in node.ups.iter() {
        let parent = &mut nodes[*up];
        parent.downs.push(place)?;
    }
    nodes.push(node)?;
    Ok(())
}

/// The parts of some names, each after its parents, and the places of the names.
pub fn nodes_of(
    alloc: Global,
    job: &Job,
    names: &[Name],
) -> Result<(Vec<Node>, Numbering), AllocError>
    requires job { IsJob job.now.wanted job.now.cells }
    requires distinct { AreDistinct names.now }
    requires steps { AllByRecursion (CanStep job.now.cells) names.now }
    requires before { (i : ℕ) (n : Name) → slice_get names.now i ≡ Some n
        → AllByRecursion (Contains (take i names.now)) (parents (records job.now.cells) n) }
    ensures nodes { IfOk result (λ r. AreMade job.now.cells names.now r.0.items) }
    ensures places { IfOk result (λ r. r.1 ≡ names.now) }
{
    let mut nodes = Vec::with_capacity(alloc, names.len())?;
    let mut places = Numbering::new(alloc);
    let mut last = 0;
    let mut calendar = 0;
    for name in names {
        let node = node_of(alloc, job, &places, name, &mut last, &mut calendar)?;
        join(&mut nodes, node)?;
        places.number(*name)?;
    }
    Ok((nodes, places))
}

/// So many parts of which nothing is known.
pub fn nothing_known(alloc: Global, count: usize) -> Result<Vec<Option<Arc<Known>>>, AllocError>
    ensures { IfOk result (λ known. shown known.items ≡ replicate count None) }
{
    let mut known = Vec::with_capacity(alloc, count)?;
    for _place in 0..count {
        known.push(None)?;
    }
    Ok(known)
}

/// The places of the parts that can be netted.
pub fn ready_places(
    alloc: Global,
    nodes: &[Node],
    known: &[Option<Arc<Known>>],
) -> Result<Vec<usize>, AllocError>
    requires graph { IsGraph nodes.now }
    requires whole { length known.now ≡ length nodes.now }
    ensures front { IfOk result (λ front. (cells : Cells) (plan : VersionId)
        → Fits cells plan nodes.now
        → frontier (records cells) (parts_of (node_names nodes.now) (shown known.now))
        ≡ names_at (node_names nodes.now) front.items) }
    ensures places { IfOk result (λ front. (k q : ℕ)
        → slice_get front.items k ≡ Some q → q < length nodes.now) }
{
    let mut front = Vec::new(alloc);
    for (place, node) in nodes.iter().enumerate() {
        if !is_ready_at(known, node, place) {
            continue;
        }
        front.push(place)?;
    }
    Ok(front)
}
