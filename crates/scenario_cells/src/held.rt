//! A scenario in memory, and what changes of its records make of it.
ghost use Rattle.scenario_rules.specs.Steps.{all_put};
ghost use Rattle.std.specs.Prelude.{◌<◌, length, ◌≡◌, [], ◌∷◌, IfOk, OnErr, OnOk, if◌then◌else◌};
ghost use Rattle.std.specs.BTreeMap.{insert_entry};
ghost use Rattle.plan_schema.specs.Key.{key_cmp};
ghost use Rattle.plan_schema.specs.Base.{is_part_key};
ghost use Rattle.record_versions.specs.Versions.{cell_at};
ghost use Rattle.scenario_cells.specs.Held.{IsHeld, IsReady, IsChanged, KeepsOlder};
ghost use Rattle.scenario_cells.specs.Loads as spec;
ghost use Rattle.scenario_cells.specs.Loads.{IsNextLoaded};

use crate::rows::{put_row, put_row_in, recount, recount_if};
use cell_tree::Tree;
use plan_schema::{Key, Name, Record};
use record_versions::{Ids, Store};
use std::alloc::{AllocError, Global};
use std::sync::Arc;

/// A scenario in memory: the ids of the cells of its base and of its contents, its own changes, and how many parts and rows its
/// contents have.
#[derive(Drop)]
pub struct Held {
    pub parent: Option<Name>,
    pub owner: Option<Name>,
    pub private: bool,
    pub base: Ids,
    pub ids: Ids,
    pub own: Tree<Key, Option<Record>>,
    pub parts: usize,
    pub records: usize,
}

/// Puts a record under a key of the scenario, or takes it away. The list of own changes is changed in place where nobody shares it;
/// that of ids is copied, since nothing may change where there is no memory for both.
pub fn change_row(
    alloc: Global,
    held: &mut Held,
    store: &mut Store,
    point: u64,
    root: bool,
    key: &Key,
    value: &Option<Record>,
) -> Result<(), AllocError>
    requires held { IsHeld (cell_at store.old) held.old }
    requires ready { IsReady point root held.old }
    ensures changed { OnOk result (IsChanged point root ((key.now, value.now) ∷ [])
        (cell_at store.old) (cell_at store.new) held.old held.new) }
    ensures err { OnErr result (held.new ≡ held.old) }
    ensures keeps { KeepsOlder point store.old store.new }
{
    let new = put_row(alloc, &held.ids, store, point, key, value)?;
    let has = value.is_some();
    let records = recount(held.records, new.had, has)?;
    let part = key.is_part();
    let parts = recount_if(part, held.parts, new.had, has)?;
    let base = either(root, &new.ids, &held.base)?;
    add_own(alloc, &mut held.own, root, key, value)?;
    held.base = base;
    held.ids = new.ids;
    held.parts = parts;
    held.records = records;
    Ok(())
}

/// The scenario with rows put one after another.
pub fn changed_rows(
    alloc: Global,
    held: &Held,
    store: &mut Store,
    point: u64,
    root: bool,
    rows: &[(Key, Record)],
) -> Result<Held, AllocError>
    requires some { 0 < length rows.now }
    requires held { IsHeld (cell_at store.old) held.now }
    requires ready { IsReady point root held.now }
    ensures changed { IfOk result (λ new. IsChanged point root (all_put rows.now)
        (cell_at store.old) (cell_at store.new) held.now new) }
    ensures keeps { KeepsOlder point store.old store.new }
{
    let mut loaded = begin_load(held)?;
    for row in rows {
        load_row(alloc, &mut loaded, store, point, root, &row.0, &Some(row.1))?;
    }
    let new = held_with(root, held, loaded)?;
    Ok(new)
}

/// What a scenario has so far of rows that are put one after another.
#[derive(Drop)]
struct Loaded {
    ids: Ids,
    own: Tree<Key, Option<Record>>,
    parts: usize,
    records: usize,
}

fn begin_load(held: &Held) -> Result<Loaded, AllocError>
    ensures { IfOk result (λ loaded. loaded
        ≡ record {
          ids = held.now.ids;
          own = held.now.own;
          parts = held.now.parts;
          records = held.now.records;
        }) }
{
    let ids = held.ids.share()?;
    let own = held.own.share()?;
    Ok(Loaded {
        ids,
        own,
        parts: held.parts,
        records: held.records,
    })
}

fn held_with(root: bool, held: &Held, loaded: Loaded) -> Result<Held, AllocError>
    ensures { IfOk result (λ new. new ≡ spec.held_with root held.now loaded) }
{
    let base = either(root, &loaded.ids, &held.base)?;
    Ok(Held {
        parent: held.parent,
        owner: held.owner,
        private: held.private,
        base,
        ids: loaded.ids,
        own: loaded.own,
        parts: loaded.parts,
        records: loaded.records,
    })
}

/// Puts one row more in place. After an error what is loaded is of no use.
fn load_row(
    alloc: Global,
    loaded: &mut Loaded,
    store: &mut Store,
    point: u64,
    root: bool,
    key: &Key,
    value: &Option<Record>,
) -> Result<(), AllocError>
    ensures loaded { OnOk result (IsNextLoaded point root key.now value.now store.old loaded.old
        store.new loaded.new) }
    ensures keeps { KeepsOlder point store.old store.new }
{
    let had = put_row_in(alloc, &mut loaded.ids, store, point, key, value)?;
    let has = value.is_some();
    let records = recount(loaded.records, had, has)?;
    let part = key.is_part();
    let parts = recount_if(part, loaded.parts, had, has)?;
    add_own(alloc, &mut loaded.own, root, key, value)?;
    loaded.parts = parts;
    loaded.records = records;
    Ok(())
}

/// Puts one own change more, in place: the root has none.
fn add_own(
    alloc: Global,
    own: &mut Tree<Key, Option<Record>>,
    root: bool,
    key: &Key,
    value: &Option<Record>,
) -> Result<(), AllocError>
    ensures ok { OnOk result (own.new
        ≡ (if root then own.old else insert_entry key_cmp own.old key.now value.now)) }
    ensures err { OnErr result (own.new ≡ own.old) }
{
    if root {
        return Ok(());
    }
    let value = Arc::new(alloc, *value)?;
    own.put(*key, value)?;
    Ok(())
}

/// One of two lists of ids.
pub(crate) fn either(first: bool, ids: &Ids, others: &Ids) -> Result<Ids, AllocError>
    ensures { IfOk result (λ chosen. chosen ≡ (if first then ids.now else others.now)) }
{
    if first { ids.share() } else { others.share() }
}
