//! The parts of a walk that are too large.
ghost use Rattle.std.specs.Prelude.{◌≡◌, ℕ, Bool, Some, slice_get};
ghost use Rattle.plan_schema.specs.declared.name.Name.{Name};
ghost use Rattle.planning_rules.specs.Refused.{is_large, least_name};
ghost use Rattle.plan_walk.specs.Places.{known_in};
ghost use Rattle.plan_walk.specs.Nodes.{node_names, shown};

use crate::node::{Node, value_at};
use plan_schema::{Known, Name};
use std::sync::Arc;
use walk_names::earlier;

/// Whether the part at a place is known to be too large.
fn is_large_at(known: &[Option<Arc<Known>>], place: usize) -> bool
    ensures { result ≡ is_large (known_in (shown known.now) place) }
{
    match value_at(known, place) {
        Some(Known::TooLarge) => true,
        Some(Known::Plan(_)) => false,
        None => false,
    }
}

/// The least name of the parts that are known to be too large.
pub fn least_large(nodes: &[Node], known: &[Option<Arc<Known>>]) -> Option<Name>
    ensures { (test : Name → Bool)
        → ((k : ℕ) (n : Name) → slice_get (node_names nodes.now) k ≡ Some n
        → test n ≡ is_large (known_in (shown known.now) k))
        → result ≡ least_name test (node_names nodes.now) }
{
    let mut least = None;
    for (place, node) in nodes.iter().enumerate() {
        if !is_large_at(known, place) {
            continue;
        }
        least = earlier(least, node.name);
    }
    least
}
