//! The hits of a walk.
ghost use Rattle.std.specs.Prelude.{◌≡◌, ◌+◌, ◌<◌, ◌≤◌, ◌^◌, ℕ, List, [], true, false, length, map, Some, IfOk};
ghost use Rattle.std.specs.Prelude.{OnOk, slice_get, option_map, ◌==◌, ◌⊎◌};
ghost use Rattle.plan_schema.specs.declared.name.Name.{Name};
ghost use Rattle.plan_schema.specs.Contents.{Contents};
ghost use Rattle.record_versions.specs.declared.version.VersionId.{VersionId};
ghost use Rattle.walk_rules.specs.Cells.{Cells, records, Stands};
ghost use Rattle.version_rules.specs.Meaning.{Meaning};
ghost use Rattle.walk_rules.specs.Memo.{MemoRight, key_eq};
ghost use Rattle.walk_rules.specs.Walks.{State, with_hits, frontier};
ghost use Rattle.plan_walk.specs.Places.{ready_at, parts_of, lists_at};
ghost use Rattle.plan_walk.specs.Nodes.{Fits, IsGraph, node_names, node_key, ups_at, shown, state_of, names_at};
ghost use Rattle.plan_walk.specs.Waiting.{waits};
ghost use Rattle.plan_walk.specs.LookUps.{LookedUp};
ghost use Rattle.std.specs.List.{list_any};
ghost use Rattle.std.specs.Map.{lookup};
ghost use Rattle.std.specs.Arc.{arc_value};
ghost use Rattle.shared_memo.specs.Pairs.{memo as memo_of, in_front};

use crate::node::{Node, is_ready_at, key_at};
use crate::waiting::Waiting;
use plan_schema::Known;
use record_versions::VersionId;
use shared_memo::Memo;
use std::alloc::{AllocError, Global};
use std::sync::Arc;
use walk_rules::MemoKey;

/// What the memo holds under a key, if anything.
fn found_in(
    memo: &mut Memo<MemoKey, Known>,
    key: &MemoKey,
) -> Result<Option<Arc<Known>>, AllocError>
    ensures found { IfOk result
        (λ o. option_map arc_value o ≡ lookup (key_eq key.now) memo.old.pairs) }
    ensures front { memo.new ≡ memo_of (in_front (key_eq key.now) memo.old.pairs) memo.old.most }
{
    match memo.get(key) {
        Some(value) => Ok(Some(Arc::try_clone(value)?)),
        None => Ok(None),
    }
}

/// What the memo holds under a key, if anything. A right memo stays right.
fn taken(memo: &mut Memo<MemoKey, Known>, key: &MemoKey) -> Result<Option<Arc<Known>>, AllocError>
    ensures found { IfOk result
        (λ o. option_map arc_value o ≡ lookup (key_eq key.now) memo.old.pairs) }
    ensures front { memo.new ≡ memo_of (in_front (key_eq key.now) memo.old.pairs) memo.old.most }
    ensures right { (m : Meaning) → MemoRight m memo.old.pairs → MemoRight m memo.new.pairs }
{
    found_in(memo, key)
}

/// Lets the components of a part wait.
pub fn let_wait(waiting: &mut Waiting, places: &[usize]) -> Result<(), AllocError>
    ensures all { OnOk result
        ((q : ℕ) → list_any (λ k. k == q) places.now ≡ true → waits waiting.new q ≡ true) }
    ensures stays { OnOk result
        ((q : ℕ) → waits waiting.old q ≡ true → waits waiting.new q ≡ true) }
    ensures alone { OnOk result
        ((q : ℕ) → waits waiting.new q ≡ true → (waits waiting.old q ≡ true)
        ⊎ (list_any (λ k. k == q) places.now ≡ true)) }
{
    for place in places {
        waiting.add(*place)?;
    }
    Ok(())
}

/// Looks a part up whose parents all have outcomes, and tells whether it was there.
fn look_up(
    alloc: Global,
    plan: &VersionId,
    node: &Node,
    place: usize,
    known: &mut [Option<Arc<Known>>],
    waiting: &mut Waiting,
    front: &mut Vec<usize>,
    memo: &mut Memo<MemoKey, Known>,
) -> Result<bool, AllocError>
    requires place { place < length known.old }
    requires ready { ready_at node.now.ups.items (shown known.old) place ≡ true }
    ensures looked { IfOk result
        (λ hit. LookedUp hit (node_key plan.now node.now
        (lists_at (shown known.old) node.now.ups.items)) place node.now.downs.items memo.old.pairs
        (shown known.old) (shown known.new) front.old.items front.new.items waiting.old
        waiting.new) }
    ensures front { IfOk result
        (λ hit. memo.new.pairs
        ≡ in_front (key_eq (node_key plan.now node.now
        (lists_at (shown known.old) node.now.ups.items))) memo.old.pairs) }
    ensures right { (m : Meaning) → MemoRight m memo.old.pairs → MemoRight m memo.new.pairs }
    ensures most { memo.new.most ≡ memo.old.most }
{
    let key = key_at(alloc, plan, node, known)?;
    match taken(memo, &key)? {
        Some(value) => {
            known[place] = Some(value);
            let_wait(waiting, node.downs.as_slice())?;
            Ok(true)
        }
        None => {
            front.push(place)?;
            Ok(false)
        }
    }
}

/// Looks up the parts that wait, the least first, and with each hit those of its components that it makes ready. Tells how many
/// were there; the others are left in front.
pub fn take_hits(
    alloc: Global,
    plan: &VersionId,
    nodes: &[Node],
    known: &mut [Option<Arc<Known>>],
    mut waiting: Waiting,
    front: &mut Vec<usize>,
    memo: &mut Memo<MemoKey, Known>,
) -> Result<u64, AllocError>
    requires graph { IsGraph nodes.now }
    requires whole { length known.old ≡ length nodes.now }
    requires few { length nodes.now < 2 ^ 63 }
    requires inside { (q : ℕ) → waits waiting q ≡ true → q < length nodes.now }
    requires all { (q : ℕ) → ready_at (ups_at nodes.now q) (shown known.old) q ≡ true → q
        < length nodes.now → waits waiting q ≡ true }
    requires empty { front.old.items ≡ [] }
    ensures hits { IfOk result
        (λ reused. (cells : Cells) (netted before : ℕ) → Fits cells plan.now nodes.now
        → with_hits cells (state_of nodes.now (shown known.old) memo.old.pairs netted before)
        ≡ state_of nodes.now (shown known.new) memo.new.pairs netted (before + reused)) }
    ensures front { IfOk result
        (λ reused. (cells : Cells) → Fits cells plan.now nodes.now
        → frontier (records cells) (parts_of (node_names nodes.now) (shown known.new))
        ≡ names_at (node_names nodes.now) front.new.items) }
    ensures places { IfOk result
        (λ reused. (k q : ℕ) → slice_get front.new.items k ≡ Some q → q < length nodes.now) }
    ensures right { (m : Meaning) → MemoRight m memo.old.pairs → MemoRight m memo.new.pairs }
    ensures most { memo.new.most ≡ memo.old.most }
{
    let mut reused = 0;
    while let Some(place) = waiting.take_least() {
        let node = &nodes[place];
        if !is_ready_at(known, node, place) {
            continue;
        }
        let hit = look_up(alloc, plan, node, place, known, &mut waiting, front, memo)?;
        if hit {
            reused += 1;
        }
    }
    Ok(reused)
}
