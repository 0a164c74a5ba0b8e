//! The rules of the tree of scenarios, without what they hold: who may use which, and why none can be made under a name, given to its
//! parent or taken away.
ghost use Rattle.std.specs.Prelude.{◌≡◌, ◌≤◌, not, ◌||◌, ◌∷◌, [], nat_lt, false, Option, Some, None, is_some, IsSome};
ghost use Rattle.std.specs.List.{list_any};
ghost use Rattle.plan_schema.specs.declared.key.Record.{Record};
ghost use Rattle.plan_schema.specs.declared.name.Name.{Name};
ghost use Rattle.plan_schema.specs.declared.change.Change.TheVariants as changes;
ghost use Rattle.plan_schema.specs.Key.{name_eq};
ghost use Rattle.plan_schema.specs.Refusals as refusals;
ghost use Rattle.plan_schema.specs.Refusals.{first_of};
ghost use Rattle.scenario_rules.specs.World as world;
ghost use Rattle.scenario_rules.specs.World.{scenario_at, scenario, parent_of, contents_in, laid_over};
ghost use Rattle.scenario_rules.specs.Steps.{all_put, with_changes};
ghost use Rattle.scenario_rules.specs.Refused as refused;
ghost use Rattle.scenario_rules.specs.Refused.{named, scenario_refusal, at_root};
ghost use Rattle.record_versions.specs.Versions.{cell_at};
ghost use Rattle.version_rules.specs.Meaning.{Meaning};
ghost use Rattle.scenario_merge.specs.Grown.{world_by, IsForest};
ghost use Rattle.scenario_cells.specs.Room.{refused_contents};

use plan_schema::limits::{DEPTH_LIMIT, SCENARIO_LIMIT};
use plan_schema::{Name, Refusal, Room};
use scenario_cells::{Held, is_root};
use std::cmp::Ordering;
use std::collections::BTreeMap;

/// The scenarios by name.
pub(crate) type Scenarios = BTreeMap<Name, Held>;

/// The refusal, where it applies.
pub(crate) fn where_so(test: bool, refusal: Refusal) -> Option<Refusal>
    ensures { result ≡ refusals.where_so test refusal }
{
    if test { Some(refusal) } else { None }
}

/// Whether two names are one.
fn same_name(name: &Name, other: &Name) -> bool
    ensures { result ≡ name_eq name.now other.now }
{
    matches!(name.cmp(other), Ordering::Equal)
}

/// Whether a name that may be missing is this one.
pub(crate) fn is_name_of(name: &Option<Name>, other: &Name) -> bool
    ensures { result ≡ world.is_name_of name.now other.now }
{
    match name {
        Some(name) => same_name(name, other),
        None => false,
    }
}

/// Whether a user may use a scenario: it is shared, or theirs.
fn may_use(held: &Held, user: &Name) -> bool
    ensures { result ≡ (not held.now.private || world.is_name_of held.now.owner user.now) }
{
    if held.private {
        is_name_of(&held.owner, user)
    } else {
        true
    }
}

/// Whether a scenario was branched from one of this name.
fn is_child_of(held: &Held, name: &Name) -> bool
    ensures { result ≡ world.is_name_of held.now.parent name.now }
{
    is_name_of(&held.parent, name)
}

/// There is no such scenario.
pub(crate) fn no_scenario(scenarios: &Scenarios, name: &Name) -> Option<Refusal>
    ensures { (m : Meaning) → result
        ≡ refused.no_scenario (world_by m scenarios.now.entries) name.now }
{
    match scenarios.get(name) {
        Some(_) => None,
        None => Some(Refusal::NoScenario(*name)),
    }
}

/// The user may not use a scenario that is there.
pub(crate) fn denied(scenarios: &Scenarios, user: &Name, name: &Name) -> Option<Refusal>
    ensures { (m : Meaning) → result
        ≡ refused.denied (world_by m scenarios.now.entries) user.now name.now }
{
    match scenarios.get(name) {
        Some(held) => where_so(!may_use(held, user), Refusal::Denied(*name)),
        None => None,
    }
}

/// Why a user may not query a scenario.
pub(crate) fn access(scenarios: &Scenarios, user: &Name, name: &Name) -> Option<Refusal>
    ensures { (m : Meaning) → result
        ≡ refused.access_refusal (world_by m scenarios.now.entries) user.now name.now }
{
    if let Some(refusal) = no_scenario(scenarios, name) {
        return Some(refusal);
    }
    denied(scenarios, user, name)
}

/// The user may not use the parent of a scenario.
pub(crate) fn denied_above(scenarios: &Scenarios, user: &Name, name: &Name) -> Option<Refusal>
    ensures { (m : Meaning) → result
        ≡ refused.denied_above (world_by m scenarios.now.entries) user.now name.now }
{
    let Some(held) = scenarios.get(name) else {
        return None;
    };
    match &held.parent {
        Some(parent) => denied(scenarios, user, parent),
        None => None,
    }
}

/// The user doesn't own a scenario, which isn't the root.
pub(crate) fn denied_unowned(scenarios: &Scenarios, user: &Name, name: &Name) -> Option<Refusal>
    ensures { (m : Meaning) → result
        ≡ refused.denied_unowned (world_by m scenarios.now.entries) user.now name.now }
{
    if is_root(name) {
        return None;
    }
    match scenarios.get(name) {
        Some(held) => where_so(!is_name_of(&held.owner, user), Refusal::Denied(*name)),
        None => Some(Refusal::Denied(*name)),
    }
}

/// There is a scenario of the child's name.
pub(crate) fn taken(scenarios: &Scenarios, parent: &Name, child: &Name) -> Option<Refusal>
    ensures { (m : Meaning) → result
        ≡ refused.taken (world_by m scenarios.now.entries) (changes.Branch parent.now child.now) }
{
    let _parent = parent;
    match scenarios.get(child) {
        Some(_) => Some(Refusal::Taken(*child)),
        None => None,
    }
}

/// The scenario is the root.
pub(crate) fn root_refusal(name: &Name) -> Option<Refusal>
    ensures { result ≡ at_root (changes.Share name.now) }
{
    where_so(is_root(name), Refusal::Root(*name))
}

/// Some scenario was branched from this one.
pub(crate) fn has_children(scenarios: &Scenarios, name: &Name) -> Option<Refusal>
    ensures { (m : Meaning) → result
        ≡ refused.has_children (world_by m scenarios.now.entries) (changes.Drop name.now) }
{
    where_so(any_child(scenarios, name), Refusal::HasChildren(*name))
}

/// Whether some scenario was branched from this one.
fn any_child(scenarios: &Scenarios, name: &Name) -> bool
    ensures { result ≡ list_any (λ entry. world.is_name_of entry.1.parent name.now)
        scenarios.now.entries }
{
    scenarios.iter().any(|(_, held)| is_child_of(held, name))
}

/// How many scenarios stand above one with this parent, counted up to so many.
fn count_above(scenarios: &Scenarios, most: usize, parent: &Option<Name>) -> usize
    ensures count { (m : Meaning) → result
        ≡ world.count_above most (world_by m scenarios.now.entries) parent.now }
    ensures most { result ≤ most }
{
    if most == 0 {
        return 0;
    }
    let Some(parent) = parent else {
        return 0;
    };
    match scenarios.get(parent) {
        Some(held) => count_above(scenarios, most - 1, &held.parent) + 1,
        None => 1,
    }
}

/// The child would have too many scenarios above it.
pub(crate) fn too_deep(scenarios: &Scenarios, parent: &Name, child: &Name) -> Option<Refusal>
    ensures { (m : Meaning) → result
        ≡ refused.too_deep (world_by m scenarios.now.entries)
        (changes.Branch parent.now child.now) }
{
    let above = count_above(scenarios, DEPTH_LIMIT + 1, &Some(*parent));
    where_so(above > DEPTH_LIMIT, Refusal::Depth(*child))
}

/// There are as many scenarios as there may be.
pub(crate) fn full_scenarios(scenarios: &Scenarios, parent: &Name, child: &Name) -> Option<Refusal>
    ensures { (m : Meaning) → result
        ≡ refused.full_scenarios (world_by m scenarios.now.entries)
        (changes.Branch parent.now child.now) }
{
    let _parent = parent;
    let _child = child;
    where_so(
        scenarios.len() >= SCENARIO_LIMIT,
        Refusal::Full(Room::Scenarios),
    )
}
