//! The parts of a walk.
ghost use Rattle.std.specs.Prelude.{◌≡◌, ◌<◌, ℕ, List, true, false, length, All, Some, OnOk, IfOk, IfSome, IfNone};
ghost use Rattle.std.specs.Prelude.{slice_get};
ghost use Rattle.std.specs.List.{list_any, list_all};
ghost use Rattle.std.specs.Option.{option_copied};
ghost use Rattle.plan_schema.specs.declared.outcome.Known.{Known};
ghost use Rattle.planning_rules.specs.Plan.{has_outcome, released};
ghost use Rattle.plan_walk.specs.Places.{known_in, ready_at, lists_at};
ghost use Rattle.plan_walk.specs.Nodes.{node_key, shown};

use plan_schema::{Known, Name, Release, Series};
use record_versions::VersionId;
use std::alloc::{AllocError, Global};
use std::sync::Arc;
use walk_rules::MemoKey;

/// A part of a walk: the versions of its cells, and the places of its parents and of its components among the parts.
#[derive(Drop)]
pub struct Node {
    pub name: Name,
    pub part: VersionId,
    pub calendar: Option<VersionId>,
    /// Next to which place of the job's cells its own is looked for first.
    pub cell: usize,
    pub ups: Vec<usize>,
    pub downs: Vec<usize>,
}

/// What is known of the part at a place.
pub fn value_at(known: &[Option<Arc<Known>>], place: usize) -> Option<&Known>
    ensures { option_copied result ≡ known_in (shown known.now) place }
{
    match known.get(place) {
        Some(Some(value)) => Some(&**value),
        Some(None) => None,
        None => None,
    }
}

/// What the part at a place releases, if it has an outcome.
pub fn release_at(known: &[Option<Arc<Known>>], place: usize) -> Option<&Release>
    ensures some { IfSome result
        (λ r. (has_outcome (known_in (shown known.now) place) ≡ true)
        × (r.now ≡ released (known_in (shown known.now) place))) }
    ensures none { IfNone result (has_outcome (known_in (shown known.now) place) ≡ false) }
{
    match value_at(known, place) {
        Some(Known::Plan(outcome)) => Some(&outcome.release),
        Some(Known::TooLarge) => None,
        None => None,
    }
}

/// Whether the part at a place has an outcome.
pub fn has_outcome_at(known: &[Option<Arc<Known>>], place: usize) -> bool
    ensures { result ≡ has_outcome (known_in (shown known.now) place) }
{
    release_at(known, place).is_some()
}

/// Whether the parts at some places all have outcomes.
pub fn all_have_outcomes(known: &[Option<Arc<Known>>], places: &[usize]) -> bool
    ensures { result ≡ list_all (λ q. has_outcome (known_in (shown known.now) q)) places.now }
{
    places.iter().all(|place| has_outcome_at(known, *place))
}

/// Whether the part at a place isn't known and its parents all have outcomes.
pub fn is_ready_at(known: &[Option<Arc<Known>>], node: &Node, place: usize) -> bool
    ensures { result ≡ ready_at node.now.ups.items (shown known.now) place }
{
    value_at(known, place).is_none() && all_have_outcomes(known, node.ups.as_slice())
}

/// What the parts at some places release, which all have outcomes.
pub fn releases_at(
    alloc: Global,
    known: &[Option<Arc<Known>>],
    places: &[usize],
) -> Result<Vec<Release>, AllocError>
    requires { list_all (λ q. has_outcome (known_in (shown known.now) q)) places.now ≡ true }
    ensures { IfOk result (λ releases. releases.items ≡ lists_at (shown known.now) places.now) }
{
    let mut releases = Vec::with_capacity(alloc, places.len())?;
    for place in places {
        let Some(release) = release_at(known, *place) else {
            unreachable!()
        };
        releases.push(release.share()?)?;
    }
    Ok(releases)
}

/// The memo's key of a part whose parents all have outcomes.
pub fn key_at(
    alloc: Global,
    plan: &VersionId,
    node: &Node,
    known: &[Option<Arc<Known>>],
) -> Result<MemoKey, AllocError>
    requires { list_all (λ q. has_outcome (known_in (shown known.now) q)) node.now.ups.items
        ≡ true }
    ensures { IfOk result
        (λ key. key ≡ node_key plan.now node.now (lists_at (shown known.now) node.now.ups.items)) }
{
    let releases = releases_at(alloc, known, node.ups.as_slice())?;
    Ok(MemoKey {
        part: node.part,
        calendar: node.calendar,
        plan: *plan,
        releases: Series::from_vec(releases),
    })
}
