//! Low-level codes.
ghost use Rattle.std.specs.Prelude.{◌≡◌, ◌<◌, ℕ, List, true, length, None, Some, IfOk, IfErr, slice_get};
ghost use Rattle.std.specs.Prelude.{MatchOption, Contains, map};
ghost use Rattle.plan_schema.specs.declared.name.Name.{Name};
ghost use Rattle.planning_rules.specs.Refused.{least_name, is_cyclic};
ghost use Rattle.low_level_codes.specs.Graphs.{level_at, shown, AreWithin};
ghost use Rattle.low_level_codes.specs.Levels.{are_ascending, AreClosed, AreLevels, IsClosure};
ghost use Rattle.low_level_codes.specs.Owns.{NoneOwn, FirstOwn};
ghost use Rattle.low_level_codes.specs.Faults.{WhereCyclic};
ghost use Rattle.low_level_codes.specs.Numbers.{IsGraph, HoldsLevels, LacksLevel};

use crate::ancestry::reached_names;
use crate::fault::LevelFault;
use crate::graph::Graph;
use crate::placing::place;
use crate::reach::reach;
use plan_schema::Name;
use std::alloc::{AllocError, Global};
use std::collections::BTreeSet;

/// Names with the levels of their places, where all have one.
fn with_levels(
    alloc: Global,
    levels: &[Option<usize>],
    places: &[usize],
    names: &[Name],
) -> Result<Option<BTreeSet<(usize, Name)>>, AllocError>
    requires long { length places.now ≡ length names.now }
    requires inside { (i q : ℕ) → slice_get places.now i ≡ Some q → q < length levels.now }
    ensures { IfOk result (λ found. MatchOption found (LacksLevel levels.now places.now)
        (λ found. HoldsLevels levels.now places.now names.now found.keys)) }
{
    let mut found = BTreeSet::new(alloc);
    for at in 0..names.len() {
        let Some(level) = levels[places[at]] else {
            return Ok(None);
        };
        found.insert((level, names[at]))?;
    }
    Ok(Some(found))
}

/// The first of some names without levels, from above and from below, that is above itself: a search upward from each comes back to
/// it or not.
fn first_own(
    alloc: Global,
    ups: &[Vec<usize>],
    levels: &[Option<usize>],
    heights: &[Option<usize>],
    places: &[usize],
    names: &[Name],
) -> Result<Option<Name>, AllocError>
    requires graph { AreWithin (length ups.now) (shown ups.now) }
    requires whole { length levels.now ≡ length ups.now }
    requires heights { length heights.now ≡ length ups.now }
    requires long { length places.now ≡ length names.now }
    requires inside { (i q : ℕ) → slice_get places.now i ≡ Some q → q < length ups.now }
    ensures { IfOk result (λ own. MatchOption own
        (NoneOwn (shown ups.now) levels.now heights.now places.now (length names.now))
        (FirstOwn (shown ups.now) levels.now heights.now places.now names.now)) }
{
    for at in 0..names.len() {
        let place = places[at];
        if levels[place].is_some() {
            continue;
        }
        if heights[place].is_some() {
            continue;
        }
        let seen = reach(alloc, ups, ups[place].as_slice())?;
        if seen[place] {
            return Ok(Some(names[at]));
        }
    }
    Ok(None)
}

/// Pairs in order, each turned round.
fn turned(alloc: Global, found: &BTreeSet<(usize, Name)>) -> Result<Vec<(Name, usize)>, AllocError>
    ensures { IfOk result (λ levels. levels.items
        ≡ map (λ pair. (pair.1, pair.0)) found.now.keys) }
{
    let mut levels = Vec::with_capacity(alloc, found.len())?;
    for pair in found.iter() {
        levels.push((pair.1, pair.0))?;
    }
    Ok(levels)
}

/// The low-level codes of names that hold the parents of each of them by a graph: pairs of a name and its level, by level and then by
/// name. Where some name is its own ancestor, none gets a level: the fault says which.
fn levels_in(
    alloc: Global,
    graph: &mut Graph,
    names: &[Name],
) -> Result<Vec<(Name, usize)>, LevelFault>
    requires ascending { are_ascending names.now ≡ true }
    requires graph { (bills : List (Name × Name)) × IsGraph bills graph.old.names
        (shown graph.old.ups.items) (shown graph.old.downs.items) × AreClosed bills names.now }
    ensures levels { IfOk result (λ levels. (bills : List (Name × Name))
        → IsGraph bills graph.old.names (shown graph.old.ups.items) (shown graph.old.downs.items)
        → AreLevels bills names.now levels.items) }
    ensures cyclic { IfErr result (λ fault. (bills : List (Name × Name))
        → IsGraph bills graph.old.names (shown graph.old.ups.items) (shown graph.old.downs.items)
        → WhereCyclic bills names.now fault) }
{
    let places = graph.places_of(alloc, names)?;
    let ups = graph.ups.as_slice();
    let downs = graph.downs.as_slice();
    let places = places.as_slice();
    let placed = place(alloc, ups, downs)?;
    let placed = placed.as_slice();
    if let Some(found) = with_levels(alloc, placed, places, names)? {
        let levels = turned(alloc, &found)?;
        return Ok(levels);
    }
    let heights = place(alloc, downs, ups)?;
    let heights = heights.as_slice();
    let own = first_own(alloc, ups, placed, heights, places, names)?;
    let Some(name) = own else { unreachable!() };
    Err(LevelFault::Cyclic(name))
}

/// The low-level codes of names that hold the parents of each of them: pairs of a name and its level, by level and then by name. A
/// bill is a pair of a component and a parent of it. Where some name is its own ancestor, none gets a level: the fault says which.
pub fn levels(
    alloc: Global,
    bills: &[(Name, Name)],
    names: &[Name],
) -> Result<Vec<(Name, usize)>, LevelFault>
    requires ascending { are_ascending names.now ≡ true }
    requires closed { AreClosed bills.now names.now }
    ensures levels { IfOk result (λ levels. AreLevels bills.now names.now levels.items) }
    ensures cyclic { IfErr result (WhereCyclic bills.now names.now) }
{
    let mut graph = Graph::of(alloc, bills, names)?;
    levels_in(alloc, &mut graph, names)
}

/// The names and all their ancestors, in ascending order, each once, and their low-level codes: what `closure` and `levels` come to,
/// from one graph.
pub fn closure_and_levels(
    alloc: Global,
    bills: &[(Name, Name)],
    from: &[Name],
) -> Result<(Vec<Name>, Result<Vec<(Name, usize)>, LevelFault>), AllocError>
    ensures members { IfOk result (λ r. IsClosure bills.now from.now r.0.items) }
    ensures levels { IfOk result (λ r. IfOk r.1
        (λ levels. AreLevels bills.now r.0.items levels.items)) }
    ensures cyclic { IfOk result (λ r. IfErr r.1 (WhereCyclic bills.now r.0.items)) }
{
    let mut graph = Graph::of(alloc, bills, from)?;
    let closed = reached_names(alloc, &mut graph, from)?;
    let levels = levels_in(alloc, &mut graph, closed.as_slice());
    Ok((closed, levels))
}
