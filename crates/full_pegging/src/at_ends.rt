//! How many units end where.
ghost use Rattle.std.specs.Prelude.{◌≡◌, ◌+◌, ◌<◌, ◌^◌, [], IfOk, OnOk};
ghost use Rattle.std.specs.Map.{lookup};
ghost use Rattle.std.specs.BTreeMap.{is_at, insert_entry};
ghost use Rattle.std.specs.Option.{option_copied};
ghost use Rattle.plan_schema.specs.Key.{key_cmp};
ghost use Rattle.plan_schema.specs.declared.key.Key.{Key};
ghost use Rattle.planning_rules.specs.Trace.{End};
ghost use Rattle.full_pegging.specs.Following.{shown_share};
ghost use Rattle.full_pegging.specs.Shares.{share_at, landed_at, end_key, counted_at};

use crate::share::Share;
use plan_schema::{Key, Qty};
use std::alloc::{AllocError, Global};
use std::collections::BTreeMap;

/// How many units end at each end at which some do: at an independent demand under its key, as surplus of a part under the part's.
#[derive(Drop)]
pub struct Counts {
    pub by_key: BTreeMap<Key, Qty>,
}

/// The key of the row that a share is at.
fn key_of(share: &Share) -> Key
    ensures { result ≡ end_key (shown_share share.now).0 }
{
    match share {
        Share::Demand { part, order, .. } => Key::Demand(*part, *order),
        Share::Surplus { part, .. } => Key::Part(*part),
    }
}

/// The quantity of a share.
fn qty_of(share: &Share) -> Qty
    ensures { result ≡ (shown_share share.now).1 }
{
    match share {
        Share::Demand { qty, .. } => *qty,
        Share::Surplus { qty, .. } => *qty,
    }
}

impl Counts {
    /// What is counted under a key, if anything is.
    fn found(&self, key: &Key) -> Option<&Qty>
        ensures { option_copied result ≡ lookup (is_at (key_cmp key.now)) self.now.by_key.entries }
    {
        self.by_key.get(key)
    }

    /// How many units are counted under the key of an end.
    pub fn at(&self, key: &Key) -> Qty
        ensures { (end : End) → key.now ≡ end_key end
            → result ≡ counted_at self.now.by_key.entries end }
    {
        match self.found(key) {
            Some(qty) => *qty,
            None => 0,
        }
    }

    /// Puts a number under a key.
    fn put(&mut self, key: Key, qty: Qty) -> Result<(), AllocError>
        ensures { OnOk result
            (self.new.by_key.entries ≡ insert_entry key_cmp self.old.by_key.entries key qty) }
    {
        self.by_key.insert(key, qty)?;
        Ok(())
    }

    /// Counts the units of a share.
    fn add(&mut self, share: &Share) -> Result<(), AllocError>
        requires { counted_at self.old.by_key.entries (shown_share share.now).0
            + share_at (shown_share share.now).0 share.now < 2 ^ 64 }
        ensures { OnOk result ((end : End) → counted_at self.new.by_key.entries end
            ≡ counted_at self.old.by_key.entries end + share_at end share.now) }
    {
        let key = key_of(share);
        let qty = self.at(&key) + qty_of(share);
        self.put(key, qty)
    }
}

/// Counts units by their ends.
pub fn counts_of(alloc: Global, landed: &[Share]) -> Result<Counts, AllocError>
    requires { (end : End) → landed_at landed.now end < 2 ^ 64 }
    ensures { IfOk result (λ counts. (end : End)
        → counted_at counts.by_key.entries end ≡ landed_at landed.now end) }
{
    let mut counts = Counts {
        by_key: BTreeMap::new(alloc),
    };
    for share in landed {
        counts.add(share)?;
    }
    Ok(counts)
}
