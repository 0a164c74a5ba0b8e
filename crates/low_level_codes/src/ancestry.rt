//! Names and all their ancestors.
ghost use Rattle.std.specs.Prelude.{◌≡◌, List, length, IfOk, IfSome, OnOk};
ghost use Rattle.plan_schema.specs.declared.name.Name.{Name};
ghost use Rattle.low_level_codes.specs.Graphs.{shown};
ghost use Rattle.low_level_codes.specs.Levels.{AreClosed, IsClosure};
ghost use Rattle.low_level_codes.specs.Numbers.{AreMarked, IsGraph, goes_after};

use crate::graph::Graph;
use crate::numbering::Numbering;
use crate::reach::reach;
use plan_schema::Name;
use std::alloc::{AllocError, Global};
use std::collections::BTreeSet;

/// Whether a name stands after the last one, if there is one.
fn is_after(last: &Option<Name>, name: &Name) -> bool
    ensures { result ≡ goes_after last.now name.now }
{
    match last {
        Some(last) => last.cmp(name).is_lt(),
        None => true,
    }
}

/// The names at marked places, where the places give them in ascending order.
fn names_in_order(
    alloc: Global,
    names: &Numbering,
    seen: &[bool],
) -> Result<Option<Vec<Name>>, AllocError>
    requires { length seen.now ≡ length names.now }
    ensures { IfOk result (λ found. IfSome found
        (λ found. AreMarked names.now seen.now found.items)) }
{
    let mut found = Vec::new(alloc);
    let mut last = None;
    for place in 0..seen.len() {
        if !seen[place] {
            continue;
        }
        let Some(name) = names.name(place) else {
            unreachable!()
        };
        if !is_after(&last, name) {
            return Ok(None);
        }
        found.push(*name)?;
        last = Some(*name);
    }
    Ok(Some(found))
}

/// The names at marked places, as a set.
fn set_of_names(
    alloc: Global,
    names: &Numbering,
    seen: &[bool],
) -> Result<BTreeSet<Name>, AllocError>
    requires { length seen.now ≡ length names.now }
    ensures { IfOk result (λ found. AreMarked names.now seen.now found.keys) }
{
    let mut found = BTreeSet::new(alloc);
    for place in 0..seen.len() {
        if !seen[place] {
            continue;
        }
        let Some(name) = names.name(place) else {
            unreachable!()
        };
        found.insert(*name)?;
    }
    Ok(found)
}

/// The names of a set, in order.
fn in_order(alloc: Global, found: &BTreeSet<Name>) -> Result<Vec<Name>, AllocError>
    ensures { IfOk result (λ names. names.items ≡ found.now.keys) }
{
    let mut names = Vec::with_capacity(alloc, found.len())?;
    for name in found.iter() {
        names.push(*name)?;
    }
    Ok(names)
}

/// The names at marked places, in ascending order. Where the places give them so, none is searched for.
fn marked_names(alloc: Global, names: &Numbering, seen: &[bool]) -> Result<Vec<Name>, AllocError>
    requires { length seen.now ≡ length names.now }
    ensures { IfOk result (λ found. AreMarked names.now seen.now found.items) }
{
    if let Some(found) = names_in_order(alloc, names, seen)? {
        return Ok(found);
    }
    let set = set_of_names(alloc, names, seen)?;
    let found = in_order(alloc, &set)?;
    Ok(found)
}

/// The names and all their ancestors by a graph, in ascending order, each once.
pub fn reached_names(
    alloc: Global,
    graph: &mut Graph,
    from: &[Name],
) -> Result<Vec<Name>, AllocError>
    requires graph { (bills : List (Name × Name)) × IsGraph bills graph.old.names
        (shown graph.old.ups.items) (shown graph.old.downs.items) }
    ensures members { IfOk result (λ closed. (bills : List (Name × Name))
        → IsGraph bills graph.old.names (shown graph.old.ups.items) (shown graph.old.downs.items)
        → IsClosure bills from.now closed.items) }
    ensures graph { OnOk result ((bills : List (Name × Name))
        → IsGraph bills graph.old.names (shown graph.old.ups.items) (shown graph.old.downs.items)
        → IsGraph bills graph.new.names (shown graph.new.ups.items)
        (shown graph.new.downs.items)) }
{
    let places = graph.places_of(alloc, from)?;
    let seen = reach(alloc, graph.ups.as_slice(), places.as_slice())?;
    let closed = marked_names(alloc, &graph.names, seen.as_slice())?;
    Ok(closed)
}

/// The names and all their ancestors, in ascending order, each once. A bill is a pair of a component and a parent of it; bills may
/// come in any order, and more than once.
pub fn closure(
    alloc: Global,
    bills: &[(Name, Name)],
    from: &[Name],
) -> Result<Vec<Name>, AllocError>
    ensures members { IfOk result (λ closed. IsClosure bills.now from.now closed.items) }
    ensures closed { IfOk result (λ closed. AreClosed bills.now closed.items) }
{
    let mut graph = Graph::of(alloc, bills, from)?;
    let closed = reached_names(alloc, &mut graph, from)?;
    Ok(closed)
}
