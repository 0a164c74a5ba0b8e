//! Netting of the frontier of a walk.
ghost use Rattle.std.specs.Prelude.{◌≡◌, ◌<◌, ◌+◌, ℕ, Some, length, map, IfOk, OnOk, slice_get};
ghost use Rattle.walk_rules.specs.Walks.{results_of};
ghost use Rattle.plan_jobs.specs.Jobs.{IsJob};
ghost use Rattle.plan_walk.specs.Nodes.{node_names, names_at, shown};
ghost use Rattle.plan_walk.specs.Places.{parts_of};
ghost use Rattle.plan_walk.specs.Results.{told};
ghost use Rattle.plan_walk.specs.FrontSteps.{AreAtFront, AreNetted};
ghost use Rattle.plan_walk.specs.Walk.{IsOpen};

use crate::cells::net_part;
use crate::node::{Node, releases_at};
use crate::solved::Solved;
use crate::walk::Walk;
use plan_jobs::Job;
use plan_schema::{Known, Name, Steps};
use std::alloc::{AllocError, Global};
use std::sync::Arc;
use std::sync::ledger::Ledger;

/// Nets the parts at the places of a frontier, in their order.
fn net_front<L: Ledger>(
    alloc: Global,
    job: &Job,
    nodes: &[Node],
    known: &[Option<Arc<Known>>],
    front: &[usize],
    steps: &mut Steps<L>,
) -> Result<Vec<(Name, Arc<Known>)>, AllocError>
    requires job { IsJob job.now.wanted job.now.cells }
    requires parts { AreAtFront job.now.cells nodes.now (shown known.now) front.now }
    requires places { (k q : ℕ) → slice_get front.now k ≡ Some q → q < length nodes.now }
    ensures netted { IfOk result (λ results. AreNetted job.now.cells
        (parts_of (node_names nodes.now) (shown known.now))
        (names_at (node_names nodes.now) front.now) (told results.items)) }
    ensures steps { OnOk result (steps.new ≡ steps.old + length front.now) }
{
    let mut results = Vec::with_capacity(alloc, front.len())?;
    let mut calendar = 0;
    for place in front {
        let node = &nodes[*place];
        let releases = releases_at(alloc, known, node.ups.as_slice())?;
        let value = net_part(
            alloc,
            job,
            &node.name,
            node.cell,
            &mut calendar,
            releases.as_slice(),
            steps,
        )?;
        let shared = Arc::new(alloc, value)?;
        results.push((node.name, shared))?;
    }
    Ok(results)
}

/// Nets the whole frontier of a walk, one step of the counter for each part. It neither waits nor looks at the memo.
pub fn solve<L: Ledger>(
    alloc: Global,
    walk: &Walk,
    steps: &mut Steps<L>,
) -> Result<Solved, AllocError>
    requires open { IsOpen walk.now }
    ensures solved { IfOk result (λ solved. solved ≡ results_of walk.now.job.cells walk.now.parts) }
    ensures names { IfOk result (λ solved. map (λ r. r.0) solved ≡ walk.now.front) }
    ensures steps { OnOk result (steps.new ≡ steps.old + length walk.now.front) }
{
    let nodes = walk.nodes.as_slice();
    let known = walk.known.as_slice();
    let front = walk.front.as_slice();
    let results = net_front(alloc, &walk.job, nodes, known, front, steps)?;
    Ok(Solved { results })
}
