//! Sets of ids, as of those that are live.
ghost use Rattle.std.specs.Prelude.{◌≡◌};
ghost use Rattle.record_versions.specs.declared.version.VersionId.{VersionId};
ghost use Rattle.std.specs.List.{list_any};
ghost use Rattle.std.specs.List.Sorted.{IsSorted, IsPermutation};
ghost use Rattle.std.specs.Ordering.{is_eq};
ghost use Rattle.record_versions.specs.Versions.{has_id};

use crate::version::VersionId;
use std::marker::Model;

/// A set of ids. Contracts see a list of its members in their order, in which one may stand more than once.
#[derive(Drop)]
pub struct IdSet {
    ids: Vec<VersionId>,
}

impl Model for IdSet {
    ghost use Rattle.std.specs.Prelude.{List};
    ghost use Rattle.std.specs.List.Sorted.{IsSorted};
    ghost use Rattle.record_versions.specs.declared.version.VersionId.{VersionId};
    ghost use Rattle.record_versions.specs.Versions.{id_cmp};

    ghost Value = { List VersionId };

    ghost view = { λ set. set.ids.items };

    ghost invariant = { λ set. IsSorted id_cmp set.ids.items };
}

impl IdSet {
    /// The ids of a list, in which one may stand more than once. Takes no memory.
    pub fn of(ids: Vec<VersionId>) -> IdSet
        ensures { (id : VersionId) → has_id result id ≡ has_id ids.items id }
    {
        let mut ids = ids;
        sort(&mut ids);
        IdSet { ids }
    }

    /// Whether an id is among them.
    pub fn has(&self, id: &VersionId) -> bool
        ensures { result ≡ has_id self.now id.now }
    {
        is_among(&self.ids, id)
    }
}

// Puts keys of any type in their order.
fn sort<K: Ord>(keys: &mut Vec<K>)
    ensures same { IsPermutation keys.old.items keys.new.items }
    ensures sorted { IsSorted K.cmp keys.new.items }
{
    keys.sort_unstable();
}

// Whether a key is among keys in their order.
fn is_among<K: Ord>(keys: &[K], key: &K) -> bool
    requires { IsSorted K.cmp keys.now }
    ensures { result ≡ list_any (λ other. is_eq (K.cmp key.now other)) keys.now }
{
    keys.binary_search(key).is_ok()
}
