//! A scenario's own changes, laid over the contents of its parent.
ghost use Rattle.std.specs.Prelude.{if◌then◌else◌, true, ◌≡◌, IfOk, OnOk, OnErr};
ghost use Rattle.std.specs.Option.{option_copied};
ghost use Rattle.std.specs.Arc.{arc_value};
ghost use Rattle.std.specs.BTreeMap.{insert_entry};
ghost use Rattle.scenario_rules.specs.Steps.{joined};
ghost use Rattle.version_rules.specs.Ids.{same_id};
ghost use Rattle.scenario_cells.specs.Held.{KeepsOlder, IsHeld, scenario_by};
ghost use Rattle.scenario_cells.specs.Laid as spec;
ghost use Rattle.scenario_cells.specs.Laid.{IsNextLaid, IsLaid, AreOlderIds, ids_of_held};
ghost use Rattle.std.specs.FinMap.{is_sorted};
ghost use Rattle.plan_schema.specs.Key.{key_cmp};
ghost use Rattle.scenario_rules.specs.World.{contents_of};
ghost use Rattle.record_versions.specs.Versions.{cell_at, id_at};

use crate::held::{Held, either};
use crate::rows::{put_row_in, recount, recount_if, row};
use cell_tree::Tree;
use plan_schema::{CellName, Key, Name, Record};
use record_versions::{Ids, Store, VersionId, cell_of};
use std::alloc::{AllocError, Global};
use std::sync::Arc;

/// The ids of contents, and how many parts and rows these have.
#[derive(Drop)]
pub struct Laid {
    pub ids: Ids,
    pub parts: usize,
    pub records: usize,
}

/// The contents of a parent with the own changes of a child over them.
pub fn lay_all(
    alloc: Global,
    above: &Held,
    child: &Held,
    store: &mut Store,
    point: u64,
) -> Result<Laid, AllocError>
    requires above { IsHeld (cell_at store.old) above.now }
    requires older { AreOlderIds point above.now.ids }
    requires own { is_sorted key_cmp child.now.own ≡ true }
    ensures laid { IfOk result (λ laid. IsLaid point (contents_of (scenario_by (cell_at store.old)
        above.now)) (id_at above.now.ids) (ids_of_held child.now) child.now.own store.new laid) }
    ensures keeps { KeepsOlder point store.old store.new }
{
    let mut laid = Laid {
        ids: above.ids.share()?,
        parts: above.parts,
        records: above.records,
    };
    for (key, value) in child.own.iter() {
        lay_row(alloc, above, child, &mut laid, store, point, &key, value)?;
    }
    Ok(laid)
}

/// Lays one own change of a child more. What the ids don't share is changed in place; after an error they are of no use.
fn lay_row(
    alloc: Global,
    above: &Held,
    child: &Held,
    laid: &mut Laid,
    store: &mut Store,
    point: u64,
    key: &Key,
    value: &Option<Record>,
) -> Result<(), AllocError>
    ensures laid { OnOk result (IsNextLaid point above.now child.now key.now value.now store.old
        laid.old store.new laid.new) }
    ensures keeps { KeepsOlder point store.old store.new }
{
    let had = row(&above.ids, store, key).is_some();
    let has = value.is_some();
    let records = recount(laid.records, had, has)?;
    let part = key.is_part();
    let parts = recount_if(part, laid.parts, had, has)?;
    lay_id(alloc, above, child, &mut laid.ids, store, point, key, value)?;
    laid.parts = parts;
    laid.records = records;
    Ok(())
}

fn lay_id(
    alloc: Global,
    above: &Held,
    child: &Held,
    ids: &mut Ids,
    store: &mut Store,
    point: u64,
    key: &Key,
    value: &Option<Record>,
) -> Result<(), AllocError>
    ensures ids { OnOk result (ids.new
        ≡ spec.next_ids store.old point above.now.ids child.now.base child.now.ids ids.old key.now
        value.now) }
    ensures store { OnOk result (store.new
        ≡ spec.next_cells store.old point above.now.ids child.now.base ids.old key.now value.now) }
    ensures err { OnErr result (store.new ≡ store.old) }
{
    let cell = cell_of(key);
    if same_ids(above.ids.get(&cell), child.base.get(&cell)) {
        return set_id(ids, &cell, child.ids.get(&cell));
    }
    put_row_in(alloc, ids, store, point, key, value)?;
    Ok(())
}

fn same_ids(id: Option<&VersionId>, other: Option<&VersionId>) -> bool
    ensures { result ≡ same_id (option_copied id.entry) (option_copied other.entry) }
{
    match id {
        None => other.is_none(),
        Some(id) => match other {
            None => false,
            Some(other) => id.is_same(other),
        },
    }
}

fn set_id(ids: &mut Ids, cell: &CellName, id: Option<&VersionId>) -> Result<(), AllocError>
    ensures ok { OnOk result (ids.new ≡ spec.set_id ids.old cell.now (option_copied id.entry)) }
    ensures err { OnErr result (ids.new ≡ ids.old) }
{
    match id {
        Some(id) => ids.put(*cell, *id),
        None => ids.remove(cell),
    }
}

/// The child with the contents of its parent for its base.
pub fn based(child: &Held, base: &Ids, laid: Laid) -> Result<Held, AllocError>
    ensures { IfOk result (λ new. new
        ≡ record {
          parent = child.now.parent;
          owner = child.now.owner;
          private = child.now.private;
          base = base.now;
          ids = laid.ids;
          own = child.now.own;
          parts = laid.parts;
          records = laid.records;
        }) }
{
    let own = child.own.share()?;
    let base = base.share()?;
    Ok(Held {
        parent: child.parent,
        owner: child.owner,
        private: child.private,
        base,
        ids: laid.ids,
        own,
        parts: laid.parts,
        records: laid.records,
    })
}

/// A parent after it took the own changes of a child: the root in its base, any other among its own.
pub fn given(root: bool, above: &Held, child: &Held, laid: &Laid) -> Result<Held, AllocError>
    ensures { IfOk result (λ new. new ≡ spec.given root above.now child.now laid.now) }
{
    let base = either(root, &laid.ids, &above.base)?;
    let ids = laid.ids.share()?;
    let own = own_joined(root, &above.own, &child.own)?;
    Ok(Held {
        parent: above.parent,
        owner: above.owner,
        private: above.private,
        base,
        ids,
        own,
        parts: laid.parts,
        records: laid.records,
    })
}

/// A child after its parent took its own changes.
pub fn settled(alloc: Global, child: &Held, laid: Laid) -> Result<Held, AllocError>
    ensures { IfOk result (λ new. new ≡ spec.settled child.now laid) }
{
    let base = laid.ids.share()?;
    Ok(Held {
        parent: child.parent,
        owner: child.owner,
        private: child.private,
        base,
        ids: laid.ids,
        own: Tree::new(alloc),
        parts: laid.parts,
        records: laid.records,
    })
}

/// Own changes with later ones over them: the root has none.
fn own_joined(
    root: bool,
    own: &Tree<Key, Option<Record>>,
    later: &Tree<Key, Option<Record>>,
) -> Result<Tree<Key, Option<Record>>, AllocError>
    ensures { IfOk result (λ new. new ≡ (if root then own.now else joined own.now later.now)) }
{
    let mut new = own.share()?;
    if root {
        return Ok(new);
    }
    for (key, value) in later.iter() {
        put_own(&mut new, &key, value)?;
    }
    Ok(new)
}

fn put_own(
    own: &mut Tree<Key, Option<Record>>,
    key: &Key,
    value: &Arc<Option<Record>>,
) -> Result<(), AllocError>
    ensures ok { OnOk result (own.new
        ≡ insert_entry key_cmp own.old key.now (arc_value value.now)) }
    ensures err { OnErr result (own.new ≡ own.old) }
{
    let value = Arc::try_clone(value)?;
    own.put(*key, value)?;
    Ok(())
}

/// A new scenario of a user, over what its parent holds. Nothing is copied.
pub fn branched(alloc: Global, user: &Name, parent: &Name, above: &Held) -> Result<Held, AllocError>
    ensures { IfOk result (λ new. new ≡ spec.branched user.now parent.now above.now) }
{
    let base = above.ids.share()?;
    let ids = above.ids.share()?;
    Ok(Held {
        parent: Some(*parent),
        owner: Some(*user),
        private: true,
        base,
        ids,
        own: Tree::new(alloc),
        parts: above.parts,
        records: above.records,
    })
}

/// A scenario that everyone may use.
pub fn shared(held: &Held) -> Result<Held, AllocError>
    ensures { IfOk result (λ new. new ≡ spec.shared held.now) }
{
    let base = held.base.share()?;
    let ids = held.ids.share()?;
    let own = held.own.share()?;
    Ok(Held {
        parent: held.parent,
        owner: held.owner,
        private: false,
        base,
        ids,
        own,
        parts: held.parts,
        records: held.records,
    })
}
