//! Which keys of the memo are kept.
ghost use Rattle.std.specs.Prelude.{◌≡◌};
ghost use Rattle.std.specs.List.{list_all};
ghost use Rattle.record_versions.specs.Versions.{has_id};
ghost use Rattle.plan_core.specs.Keys.{key_ids};

use record_versions::IdSet;
use walk_rules::MemoKey;

/// Whether all versions that a key stands on are among some.
pub(crate) fn stands_on(key: &MemoKey, live: &IdSet) -> bool
    ensures { result ≡ list_all (has_id live.now) (key_ids key.now) }
{
    if !live.has(&key.part) || !live.has(&key.plan) {
        return false;
    }
    match &key.calendar {
        Some(calendar) => live.has(calendar),
        None => true,
    }
}
