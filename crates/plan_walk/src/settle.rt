//! One settling.
ghost use Rattle.std.specs.Prelude.{◌≡◌, ◌+◌, ◌<◌, ◌^◌, ℕ, List, [], true, false, length, map, Some, IfOk};
ghost use Rattle.std.specs.Prelude.{slice_get, ◌==◌, ◌⊎◌};
ghost use Rattle.std.specs.List.{list_any};
ghost use Rattle.walk_rules.specs.Cells.{Cells};
ghost use Rattle.version_rules.specs.Meaning.{Meaning};
ghost use Rattle.walk_rules.specs.Memo.{MemoRight};
ghost use Rattle.plan_walk.specs.Places.{ready_at};
ghost use Rattle.plan_walk.specs.Nodes.{IsGraph, Fits, node_names, names_at, ups_at, shown};
ghost use Rattle.plan_walk.specs.Results.{told};
ghost use Rattle.plan_walk.specs.Settled.{SettledBy, AreSound};

use crate::hits::take_hits;
use crate::node::Node;
use crate::results::take_results;
use crate::round::Tally;
use crate::waiting::Waiting;
use plan_schema::{Known, Name};
use record_versions::VersionId;
use shared_memo::Memo;
use std::alloc::{AllocError, Global};
use std::sync::Arc;
use walk_rules::MemoKey;

/// Takes results in and then all hits; the places of the parts that are to be netted next are put into `next`.
pub fn settle_parts(
    alloc: Global,
    plan: &VersionId,
    nodes: &[Node],
    front: &[usize],
    solved: &[(Name, Arc<Known>)],
    known: &mut [Option<Arc<Known>>],
    next: &mut Vec<usize>,
    memo: &mut Memo<MemoKey, Known>,
) -> Result<Tally, AllocError>
    requires graph { IsGraph nodes.now }
    requires whole { length known.old ≡ length nodes.now }
    requires few { length nodes.now < 2 ^ 63 }
    requires ready { (k place : ℕ) → slice_get front.now k ≡ Some place → (place < length nodes.now)
        × (ready_at (ups_at nodes.now place) (shown known.old) place ≡ true) }
    requires exact { (q : ℕ) → q < length nodes.now
        → ready_at (ups_at nodes.now q) (shown known.old) q ≡ true
        → list_any (λ k. k == q) front.now ≡ true }
    requires names { (told solved.now ≡ [])
        ⊎ (names_at (node_names nodes.now) front.now ≡ map (λ r. r.0) (told solved.now)) }
    requires empty { next.old.items ≡ [] }
    ensures settled { IfOk result
        (λ tally. (cells : Cells) → Fits cells plan.now nodes.now
        → SettledBy cells nodes.now memo.old.most (shown known.old) (shown known.new) memo.old.pairs
        memo.new.pairs (told solved.now) next.new.items tally) }
    ensures places { IfOk result
        (λ tally. (k q : ℕ) → slice_get next.new.items k ≡ Some q → q < length nodes.now) }
    ensures right { (m : Meaning) (cells : Cells) → Fits cells plan.now nodes.now
        → AreSound m cells nodes.now (shown known.old) memo.old.pairs (told solved.now)
        → MemoRight m memo.old.pairs → MemoRight m memo.new.pairs }
    ensures most { memo.new.most ≡ memo.old.most }
{
    let mut waiting = Waiting::new(alloc);
    let netted = solved.len() as u64;
    let dropped = take_results(alloc, plan, nodes, front, solved, known, &mut waiting, memo)?;
    let reused = take_hits(alloc, plan, nodes, known, waiting, next, memo)?;
    Ok(Tally {
        netted,
        reused,
        dropped,
    })
}
