//! Giving back what no scenario uses.
ghost use Rattle.std.specs.Prelude.{◌≡◌, OnOk, OnErr};
ghost use Rattle.scenario_merge.specs.Grown.{IsAsBefore};
ghost use Rattle.version_reclaim.specs.Reclaimed.{IsReclaimed, Answers};

use crate::collect::live;
use record_versions::IdSet;
use scenario_merge::Forest;
use shared_memo::{Memo, Twin};
use std::alloc::{AllocError, Global};
use std::hash::Hash;

/// Leaves in the store the cells of the live ids alone, and in the memo, in their order, the pairs whose key `keep` accepts with the set
/// of these ids. For want of memory neither is changed.
pub fn reclaim<K: Eq + Hash + Twin + Drop, V: Drop, F: Fn(&K, &IdSet) -> bool>(
    alloc: Global,
    forest: &mut Forest,
    memo: &mut Memo<K, V>,
    keep: F,
) -> Result<(), AllocError>
    requires { F.IsAlwaysCallable keep }
    ensures same { IsAsBefore forest.old forest.new }
    ensures reclaimed { OnOk result (IsReclaimed (Answers F.Fn keep) forest.old forest.new
        memo.old.pairs memo.new.pairs) }
    ensures most { memo.new.most ≡ memo.old.most }
    ensures forest { OnErr result (forest.new ≡ forest.old) }
    ensures memo { OnErr result (memo.new ≡ memo.old) }
{
    let live = live(alloc, forest)?;
    memo.keep_only(
        |key| -> bool
            requires { F.IsAlwaysCallable keep }
            ensures { Answers F.Fn keep live key.now result }
        { keep(key, &live) },
    )?;
    forest.holds();
    forest.sweep(&live);
    Ok(())
}
