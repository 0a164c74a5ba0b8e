//! The results of a walk.
ghost use Rattle.std.specs.Prelude.{◌≡◌, ◌+◌, ◌<◌, ◌≤◌, ◌^◌, ℕ, List, true, false, length, set, map, Some, IfOk};
ghost use Rattle.std.specs.Prelude.{OnErr, slice_get, ◌==◌, ◌⊎◌, [], is_none, OnOk};
ghost use Rattle.std.specs.List.{list_all, list_any};
ghost use Rattle.std.specs.Arc.{arc_value};
ghost use Rattle.planning_rules.specs.Plan.{has_outcome};
ghost use Rattle.plan_walk.specs.Places.{known_in, ready_at, lists_at};
ghost use Rattle.plan_walk.specs.Nodes.{IsGraph, node_key, node_names, names_at, ups_at, shown};
ghost use Rattle.plan_walk.specs.Results.{told, IsPut, TakenIn};
ghost use Rattle.plan_walk.specs.Waiting.{waits};

use crate::hits::let_wait;
use crate::node::{Node, key_at};
use crate::waiting::Waiting;
use plan_schema::{Known, Name};
use record_versions::VersionId;
use shared_memo::Memo;
use std::alloc::{AllocError, Global};
use std::sync::Arc;
use walk_rules::MemoKey;

/// Makes a result known and puts it into the memo; tells whether the memo dropped it.
fn take_in_one(
    alloc: Global,
    plan: &VersionId,
    node: &Node,
    place: usize,
    value: &Arc<Known>,
    known: &mut [Option<Arc<Known>>],
    memo: &mut Memo<MemoKey, Known>,
) -> Result<bool, AllocError>
    requires place { place < length known.old }
    requires ready { list_all (λ q. has_outcome (known_in (shown known.old) q)) node.now.ups.items
        ≡ true }
    ensures known { IfOk result
        (λ dropped. shown known.new ≡ set (shown known.old) place (Some (arc_value value.now))) }
    ensures put { IfOk result
        (λ dropped. IsPut dropped
        (node_key plan.now node.now (lists_at (shown known.old) node.now.ups.items))
        (arc_value value.now) memo.old memo.new) }
    ensures same { OnErr result (known.new ≡ known.old) }
    ensures err { OnErr result (memo.new ≡ memo.old) }
{
    let key = key_at(alloc, plan, node, known)?;
    let shared = Arc::try_clone(value)?;
    let kept = Arc::try_clone(value)?;
    known[place] = Some(kept);
    match memo.put(key, shared) {
        Ok(()) => Ok(false),
        Err(_pair) => Ok(true),
    }
}

/// Makes results known, each for the part at its place, and puts each into the memo; tells how many the memo dropped.
pub fn take_in_all(
    alloc: Global,
    plan: &VersionId,
    nodes: &[Node],
    front: &[usize],
    solved: &[(Name, Arc<Known>)],
    known: &mut [Option<Arc<Known>>],
    memo: &mut Memo<MemoKey, Known>,
) -> Result<u64, AllocError>
    requires graph { IsGraph nodes.now }
    requires whole { length known.old ≡ length nodes.now }
    requires few { length nodes.now < 2 ^ 63 }
    requires ready { (k place : ℕ) → slice_get front.now k ≡ Some place → (place < length nodes.now)
        × (ready_at (ups_at nodes.now place) (shown known.old) place ≡ true) }
    requires names { names_at (node_names nodes.now) front.now ≡ map (λ r. r.0) (told solved.now) }
    ensures some { (done : ℕ) × (dropped : ℕ)
        × TakenIn plan.now nodes.now (shown known.old) (shown known.new) memo.old.pairs
        memo.new.pairs memo.old.most (told solved.now) done dropped }
    ensures all { IfOk result
        (λ dropped. TakenIn plan.now nodes.now (shown known.old) (shown known.new) memo.old.pairs
        memo.new.pairs memo.old.most (told solved.now) (length solved.now) dropped) }
    ensures others { IfOk result
        (λ dropped. (q : ℕ) → list_any (λ k. k == q) front.now ≡ false
        → known_in (shown known.new) q ≡ known_in (shown known.old) q) }
    ensures learnt { IfOk result
        (λ dropped. (q : ℕ) → list_any (λ k. k == q) front.now ≡ true
        → is_none (known_in (shown known.new) q) ≡ false) }
    ensures most { memo.new.most ≡ memo.old.most }
{
    let mut dropped = 0;
    for at in 0..solved.len() {
        let place = front[at];
        let was_dropped = take_in_one(
            alloc,
            plan,
            &nodes[place],
            place,
            &solved[at].1,
            known,
            memo,
        )?;
        if was_dropped {
            dropped += 1;
        }
    }
    Ok(dropped)
}

/// Makes results known, if there are any, and lets wait what may have become ready; without results, lets wait the frontier itself.
pub fn take_results(
    alloc: Global,
    plan: &VersionId,
    nodes: &[Node],
    front: &[usize],
    solved: &[(Name, Arc<Known>)],
    known: &mut [Option<Arc<Known>>],
    waiting: &mut Waiting,
    memo: &mut Memo<MemoKey, Known>,
) -> Result<u64, AllocError>
    requires graph { IsGraph nodes.now }
    requires whole { length known.old ≡ length nodes.now }
    requires few { length nodes.now < 2 ^ 63 }
    requires ready { (k place : ℕ) → slice_get front.now k ≡ Some place → (place < length nodes.now)
        × (ready_at (ups_at nodes.now place) (shown known.old) place ≡ true) }
    requires exact { (q : ℕ) → q < length nodes.now
        → ready_at (ups_at nodes.now q) (shown known.old) q ≡ true
        → list_any (λ k. k == q) front.now ≡ true }
    requires names { (told solved.now ≡ [])
        ⊎ (names_at (node_names nodes.now) front.now ≡ map (λ r. r.0) (told solved.now)) }
    requires nobody { (q : ℕ) → waits waiting.old q ≡ false }
    ensures some { (done : ℕ) × (dropped : ℕ)
        × TakenIn plan.now nodes.now (shown known.old) (shown known.new) memo.old.pairs
        memo.new.pairs memo.old.most (told solved.now) done dropped }
    ensures all { IfOk result
        (λ dropped. TakenIn plan.now nodes.now (shown known.old) (shown known.new) memo.old.pairs
        memo.new.pairs memo.old.most (told solved.now) (length solved.now) dropped) }
    ensures most { memo.new.most ≡ memo.old.most }
    ensures inside { OnOk result ((q : ℕ) → waits waiting.new q ≡ true → q < length nodes.now) }
    ensures waits { OnOk result
        ((q : ℕ) → ready_at (ups_at nodes.now q) (shown known.new) q ≡ true → q < length nodes.now
        → waits waiting.new q ≡ true) }
{
    if solved.is_empty() {
        let_wait(waiting, front)?;
        return Ok(0);
    }
    let dropped = take_in_all(alloc, plan, nodes, front, solved, known, memo)?;
    for place in front {
        let_wait(waiting, nodes[*place].downs.as_slice())?;
    }
    Ok(dropped)
}
