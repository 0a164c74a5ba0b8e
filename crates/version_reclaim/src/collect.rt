//! The ids of all scenarios' bases and contents.
ghost use Rattle.std.specs.Prelude.{◌≡◌, true, IfOk, OnOk, IsSome};
ghost use Rattle.std.specs.Option.{option_copied};
ghost use Rattle.scenario_rules.specs.World.{scenario_at};
ghost use Rattle.record_versions.specs.Versions.{are_ordered_ids};
ghost use Rattle.scenario_merge.specs.Grown.{ids_in};
ghost use Rattle.version_reclaim.specs.Live.{AreLive};
ghost use Rattle.version_reclaim.specs.Collected.{with_new, AreIn, IsWithIds, IsWithScenario};

use plan_schema::Name;
use record_versions::{IdSet, Ids, VersionId};
use scenario_merge::Forest;
use std::alloc::{AllocError, Global};

/// The ids that the base or the contents of some scenario have.
pub fn live(alloc: Global, forest: &Forest) -> Result<IdSet, AllocError>
    ensures { IfOk result (λ live. AreLive forest.now live) }
{
    let mut beside = Ids::new(alloc);
    let mut live = Vec::new(alloc);
    for place in 0..forest.len() {
        let Some(row) = forest.at(place) else {
            unreachable!()
        };
        beside = put_scenario(&mut live, forest, &row.name, &beside)?;
    }
    Ok(IdSet::of(live))
}

// Puts the ids of the base and of the contents of a scenario that is there at the end of some ids, and gives those of the contents.
// Scenarios differ in few cells, so the base goes beside what is there already, and the contents beside the base.
fn put_scenario(
    live: &mut Vec<VersionId>,
    forest: &Forest,
    name: &Name,
    beside: &Ids,
) -> Result<Ids, AllocError>
    requires there { IsSome (scenario_at forest.now.world name.now) }
    requires beside { AreIn live.old.items beside.now }
    ensures ids { OnOk result (IsWithScenario (ids_in forest.now name.now)
        live.old.items live.new.items) }
    ensures contents { IfOk result (λ contents. AreIn live.new.items contents) }
{
    let Some(base) = forest.base_ids(name) else {
        unreachable!()
    };
    let Some(contents) = forest.ids(name) else {
        unreachable!()
    };
    put_ids(live, base, beside)?;
    put_ids(live, contents, base)?;
    contents.share()
}

// Puts ids at the end of others, but for those that stand at the same place beside them, which are there already.
fn put_ids(live: &mut Vec<VersionId>, ids: &Ids, beside: &Ids) -> Result<(), AllocError>
    requires { AreIn live.old.items beside.now }
    ensures ok { OnOk result (IsWithIds ids.now live.old.items live.new.items) }
    ensures ordered { are_ordered_ids ids.now ≡ true }
{
    // Its contract tells that the ids stand in their order.
    let _count = ids.len();
    let mut others = beside.iter();
    for (_cell, id) in ids.iter() {
        let other = match others.next() {
            Some((_cell, other)) => Some(&**other),
            None => None,
        };
        put_new(live, id, other)?;
    }
    Ok(())
}

// Puts an id at the end of others, unless the one beside it is the same.
fn put_new(
    live: &mut Vec<VersionId>,
    id: &VersionId,
    other: Option<&VersionId>,
) -> Result<(), AllocError>
    ensures { OnOk result (live.new.items
        ≡ with_new (option_copied other.entry) id.now live.old.items) }
{
    if let Some(other) = other {
        if other.is_same(id) {
            return Ok(());
        }
    }
    live.push(*id)?;
    Ok(())
}
