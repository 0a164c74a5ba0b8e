//! Why a change is refused: a function for each rule that looks at records, and one for each kind of change, which asks the rules in
//! their order. None of them takes memory.
ghost use Rattle.std.specs.Prelude.{◌≡◌, ◌≤◌, not, ◌||◌, ◌∷◌, [], nat_lt, false, Option, Some, None, is_some, IsSome};
ghost use Rattle.std.specs.List.{list_any};
ghost use Rattle.plan_schema.specs.declared.key.Record.{Record};
ghost use Rattle.plan_schema.specs.declared.name.Name.{Name};
ghost use Rattle.plan_schema.specs.declared.change.Change.TheVariants as changes;
ghost use Rattle.plan_schema.specs.Key.{name_eq};
ghost use Rattle.plan_schema.specs.Refusals as refusals;
ghost use Rattle.plan_schema.specs.Refusals.{first_of};
ghost use Rattle.scenario_rules.specs.World as world;
ghost use Rattle.scenario_rules.specs.World.{scenario_at, scenario, parent_of, contents_in, laid_over};
ghost use Rattle.scenario_rules.specs.Steps.{all_put, with_changes};
ghost use Rattle.scenario_rules.specs.Refused as refused;
ghost use Rattle.scenario_rules.specs.Refused.{named, scenario_refusal, at_root};
ghost use Rattle.record_versions.specs.Versions.{cell_at};
ghost use Rattle.version_rules.specs.Meaning.{Meaning};
ghost use Rattle.scenario_merge.specs.Grown.{world_by, IsForest};
ghost use Rattle.scenario_cells.specs.Room.{refused_contents};

use crate::tree::{
    Scenarios, access, denied_above, denied_unowned, full_scenarios, has_children, root_refusal,
    taken, too_deep, where_so,
};
use plan_schema::{Change, Key, Name, Record, Refusal};
use record_versions::Store;
use scenario_cells as cells;
use scenario_cells::{one_room, own_room, row, rows_room};

/// The contents have nothing under the key.
fn no_record(scenarios: &Scenarios, store: &Store, name: &Name, key: &Key) -> Option<Refusal>
    requires { IsForest scenarios.now.entries store.now }
    ensures { result ≡ refused.no_record (world_by (cell_at store.now) scenarios.now.entries)
        (changes.Del name.now key.now) }
{
    match scenarios.get(name) {
        Some(held) => where_so(
            row(&held.ids, store, key).is_none(),
            Refusal::NoRecord(*key),
        ),
        None => Some(Refusal::NoRecord(*key)),
    }
}

/// The parent has changed under an own change of the scenario: the least such key.
fn conflict(scenarios: &Scenarios, store: &Store, name: &Name) -> Option<Refusal>
    requires { IsForest scenarios.now.entries store.now }
    ensures { result ≡ refused.conflict (world_by (cell_at store.now) scenarios.now.entries)
        (changes.Commit name.now) }
{
    let Some(child) = scenarios.get(name) else {
        return None;
    };
    let Some(parent) = &child.parent else {
        return None;
    };
    let Some(above) = scenarios.get(parent) else {
        return None;
    };
    cells::conflict(above, child, store)
}

/// Why a scenario has no room for a change of one record.
fn room_for_one(
    scenarios: &Scenarios,
    store: &Store,
    name: &Name,
    key: &Key,
    has: bool,
) -> Option<Refusal>
    requires forest { IsForest scenarios.now.entries store.now }
    requires there { IsSome
        (scenario_at (world_by (cell_at store.now) scenarios.now.entries) name.now) }
    ensures { (value : Option Record) → has ≡ is_some value → result
        ≡ refused_contents (contents_in
        (with_changes (world_by (cell_at store.now) scenarios.now.entries) name.now
        ((key.now, value) ∷ [])) name.now) }
{
    match scenarios.get(name) {
        Some(held) => one_room(held, store, key, has),
        None => None,
    }
}

/// Why a scenario has no room for rows.
fn room_for_rows(
    scenarios: &Scenarios,
    store: &Store,
    name: &Name,
    rows: &[(Key, Record)],
) -> Option<Refusal>
    requires forest { IsForest scenarios.now.entries store.now }
    requires there { IsSome
        (scenario_at (world_by (cell_at store.now) scenarios.now.entries) name.now) }
    ensures { result ≡ refused_contents
        (contents_in (with_changes (world_by (cell_at store.now) scenarios.now.entries) name.now
        (all_put rows.now)) name.now) }
{
    match scenarios.get(name) {
        Some(held) => rows_room(held, store, rows),
        None => None,
    }
}

/// Why a parent has no room for the own changes of a scenario.
fn room_for_own(scenarios: &Scenarios, store: &Store, name: &Name) -> Option<Refusal>
    requires forest { IsForest scenarios.now.entries store.now }
    requires there { IsSome
        (scenario_at (world_by (cell_at store.now) scenarios.now.entries) name.now) }
    requires other { world.is_root name.now ≡ false }
    ensures { let w = world_by (cell_at store.now) scenarios.now.entries in result
        ≡ refused_contents (laid_over (contents_in w (parent_of (scenario w name.now)))
        (scenario w name.now).own) }
{
    let Some(child) = scenarios.get(name) else {
        return None;
    };
    let Some(parent) = &child.parent else {
        return None;
    };
    let Some(above) = scenarios.get(parent) else {
        return None;
    };
    own_room(above, child, store)
}

/// Why a DEL is refused.
fn del_refusal(
    scenarios: &Scenarios,
    store: &Store,
    user: &Name,
    name: &Name,
    key: &Key,
) -> Option<Refusal>
    requires forest { IsForest scenarios.now.entries store.now }
    requires there { IsSome
        (scenario_at (world_by (cell_at store.now) scenarios.now.entries) name.now) }
    ensures { result ≡ refused.later_refusal (world_by (cell_at store.now) scenarios.now.entries)
        user.now (changes.Del name.now key.now) }
{
    let _user = user;
    if let Some(refusal) = no_record(scenarios, store, name, key) {
        return Some(refusal);
    }
    room_for_one(scenarios, store, name, key, false)
}

/// Why a BRANCH is refused.
fn branch_refusal(
    scenarios: &Scenarios,
    store: &Store,
    user: &Name,
    parent: &Name,
    child: &Name,
) -> Option<Refusal>
    requires forest { IsForest scenarios.now.entries store.now }
    requires there { IsSome
        (scenario_at (world_by (cell_at store.now) scenarios.now.entries) parent.now) }
    ensures { result ≡ refused.later_refusal (world_by (cell_at store.now) scenarios.now.entries)
        user.now (changes.Branch parent.now child.now) }
{
    let _store = store;
    let _user = user;
    if let Some(refusal) = taken(scenarios, parent, child) {
        return Some(refusal);
    }
    if let Some(refusal) = too_deep(scenarios, parent, child) {
        return Some(refusal);
    }
    full_scenarios(scenarios, parent, child)
}

/// Why a SHARE is refused.
fn share_refusal(scenarios: &Scenarios, store: &Store, user: &Name, name: &Name) -> Option<Refusal>
    requires forest { IsForest scenarios.now.entries store.now }
    requires there { IsSome
        (scenario_at (world_by (cell_at store.now) scenarios.now.entries) name.now) }
    ensures { result ≡ refused.later_refusal (world_by (cell_at store.now) scenarios.now.entries)
        user.now (changes.Share name.now) }
{
    let _store = store;
    if let Some(refusal) = denied_unowned(scenarios, user, name) {
        return Some(refusal);
    }
    root_refusal(name)
}

/// Why an UPDATE is refused.
fn update_refusal(scenarios: &Scenarios, store: &Store, user: &Name, name: &Name) -> Option<Refusal>
    requires forest { IsForest scenarios.now.entries store.now }
    requires there { IsSome
        (scenario_at (world_by (cell_at store.now) scenarios.now.entries) name.now) }
    ensures { result ≡ refused.later_refusal (world_by (cell_at store.now) scenarios.now.entries)
        user.now (changes.Update name.now) }
{
    if let Some(refusal) = denied_above(scenarios, user, name) {
        return Some(refusal);
    }
    if let Some(refusal) = root_refusal(name) {
        return Some(refusal);
    }
    room_for_own(scenarios, store, name)
}

/// Why a COMMIT is refused.
fn commit_refusal(scenarios: &Scenarios, store: &Store, user: &Name, name: &Name) -> Option<Refusal>
    requires forest { IsForest scenarios.now.entries store.now }
    requires there { IsSome
        (scenario_at (world_by (cell_at store.now) scenarios.now.entries) name.now) }
    ensures { result ≡ refused.later_refusal (world_by (cell_at store.now) scenarios.now.entries)
        user.now (changes.Commit name.now) }
{
    if let Some(refusal) = denied_above(scenarios, user, name) {
        return Some(refusal);
    }
    if let Some(refusal) = root_refusal(name) {
        return Some(refusal);
    }
    if let Some(refusal) = conflict(scenarios, store, name) {
        return Some(refusal);
    }
    room_for_own(scenarios, store, name)
}

/// Why a DROP is refused.
fn drop_refusal(scenarios: &Scenarios, store: &Store, user: &Name, name: &Name) -> Option<Refusal>
    requires { IsForest scenarios.now.entries store.now }
    ensures { result ≡ refused.later_refusal (world_by (cell_at store.now) scenarios.now.entries)
        user.now (changes.Drop name.now) }
{
    let _store = store;
    if let Some(refusal) = denied_unowned(scenarios, user, name) {
        return Some(refusal);
    }
    if let Some(refusal) = root_refusal(name) {
        return Some(refusal);
    }
    has_children(scenarios, name)
}

/// The scenario that a change names first.
fn named_by(change: &Change) -> &Name
    ensures { result.now ≡ named change.now }
{
    match change {
        Change::Put { scenario, .. }
        | Change::Del { scenario, .. }
        | Change::Load { scenario, .. }
        | Change::Share { scenario }
        | Change::Update { scenario }
        | Change::Commit { scenario }
        | Change::Drop { scenario } => scenario,
        Change::Branch { parent, .. } => parent,
    }
}

/// Why a change is refused: the first of the rules that applies.
pub(crate) fn first_refusal(
    scenarios: &Scenarios,
    store: &Store,
    user: &Name,
    change: &Change,
) -> Option<Refusal>
    requires { IsForest scenarios.now.entries store.now }
    ensures { result ≡ scenario_refusal (world_by (cell_at store.now) scenarios.now.entries)
        user.now change.now }
{
    if let Some(refusal) = access(scenarios, user, named_by(change)) {
        return Some(refusal);
    }
    later_refusal(scenarios, store, user, change)
}

/// Why a change of a scenario that the user may use is refused.
fn later_refusal(
    scenarios: &Scenarios,
    store: &Store,
    user: &Name,
    change: &Change,
) -> Option<Refusal>
    requires forest { IsForest scenarios.now.entries store.now }
    requires there { IsSome
        (scenario_at (world_by (cell_at store.now) scenarios.now.entries) (named change.now)) }
    ensures { result ≡ refused.later_refusal (world_by (cell_at store.now) scenarios.now.entries)
        user.now change.now }
{
    match change {
        Change::Put { scenario, key, .. } => room_for_one(scenarios, store, scenario, key, true),
        Change::Del { scenario, key } => del_refusal(scenarios, store, user, scenario, key),
        Change::Load { scenario, rows } => {
            room_for_rows(scenarios, store, scenario, rows.as_slice())
        }
        Change::Branch { parent, child } => branch_refusal(scenarios, store, user, parent, child),
        Change::Share { scenario } => share_refusal(scenarios, store, user, scenario),
        Change::Update { scenario } => update_refusal(scenarios, store, user, scenario),
        Change::Commit { scenario } => commit_refusal(scenarios, store, user, scenario),
        Change::Drop { scenario } => drop_refusal(scenarios, store, user, scenario),
    }
}
