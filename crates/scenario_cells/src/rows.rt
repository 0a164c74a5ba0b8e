//! One row of a scenario, by its cell.
ghost use Rattle.std.specs.Prelude.{◌≡◌, ◌&&◌, true, ◌+◌, ◌-◌, IfOk, if◌then◌else◌, Option, Some, None, length};
ghost use Rattle.std.specs.Prelude.{OnErr, OnOk, is_some};
ghost use Rattle.std.specs.Option.{option_copied};
ghost use Rattle.std.specs.Arc.{arc_value};
ghost use Rattle.plan_schema.specs.Key as key_spec;
ghost use Rattle.plan_schema.specs.Contents.{record_at};
ghost use Rattle.scenario_rules.specs.World.{changed};
ghost use Rattle.record_versions.specs.Versions.{id_at, with_id, without_id, cell_at, with_cell};
ghost use Rattle.scenario_cells.specs.Held.{rows_in, rows_of_id};
ghost use Rattle.scenario_cells.specs.Rows.{renewed_ids, store_with, new_id, new_rows, IsRecounted};

use plan_schema::{CellName, Key, Record};
use record_versions::{Cell, Ids, Store, VersionId, cell_of};
use std::alloc::{AllocError, Global};

/// The record under a key, by the cell that it is in.
pub fn row<'a>(ids: &Ids, store: &'a Store, key: &Key) -> Option<&'a Record>
    ensures { option_copied result
        ≡ record_at (rows_in (cell_at store.now) ids.now (key_spec.cell_of key.now)) key.now }
{
    match ids.get(&cell_of(key)) {
        Some(id) => match store.get(id) {
            Some(cell) => cell.get(key),
            None => None,
        },
        None => None,
    }
}

/// A cell after a change, and whether there was a row under the key of the change before.
#[derive(Drop)]
pub(crate) struct Changed {
    cell: Cell,
    had: bool,
}

/// A cell with a record put under a key, or taken away.
fn with_change(cell: &Cell, key: &Key, value: &Option<Record>) -> Result<Changed, AllocError>
    ensures cell { IfOk result (λ new. new.cell ≡ changed cell.now key.now value.now) }
    ensures had { IfOk result (λ new. new.had ≡ is_some (record_at cell.now key.now)) }
{
    let had = cell.get(key).is_some();
    let cell = match value {
        Some(value) => cell.with(*key, *value)?,
        None => cell.without(key)?,
    };
    Ok(Changed { cell, had })
}

/// The cell of a key after a change.
fn changed_cell(
    alloc: Global,
    ids: &Ids,
    store: &Store,
    key: &Key,
    value: &Option<Record>,
) -> Result<Changed, AllocError>
    ensures cell { IfOk result (λ new. new.cell ≡ new_rows store.now ids.now key.now value.now) }
    ensures had { IfOk result (λ new. new.had ≡ is_some (record_at
        (rows_in (cell_at store.now) ids.now (key_spec.cell_of key.now)) key.now)) }
{
    match ids.get(&cell_of(key)) {
        Some(id) => match store.get(id) {
            Some(cell) => with_change(cell, key, value),
            None => with_change(&Cell::new(alloc), key, value),
        },
        None => with_change(&Cell::new(alloc), key, value),
    }
}

/// The ids with a new one for a cell: none where the cell has no rows.
pub(crate) fn renewed(ids: &Ids, id: &VersionId, cell: &Cell) -> Result<Ids, AllocError>
    ensures { IfOk result (λ new. new ≡ renewed_ids ids.now id.now cell.now) }
{
    if cell.is_empty() {
        ids.without(&id.cell)
    } else {
        ids.with(id.cell, *id)
    }
}

/// The ids after a change, and whether there was a record under the key of the change before.
#[derive(Drop)]
pub(crate) struct PutRow {
    pub(crate) ids: Ids,
    pub(crate) had: bool,
}

/// Puts a record under a key or takes it away: the key's cell gets a new id, and the store the cell.
pub(crate) fn put_row(
    alloc: Global,
    ids: &Ids,
    store: &mut Store,
    point: u64,
    key: &Key,
    value: &Option<Record>,
) -> Result<PutRow, AllocError>
    ensures ids { IfOk result (λ new. new.ids
        ≡ renewed_ids ids.now (new_id point key.now)
        (new_rows store.old ids.now key.now value.now)) }
    ensures store { OnOk result (store.new
        ≡ store_with store.old (new_id point key.now)
        (new_rows store.old ids.now key.now value.now)) }
    ensures had { IfOk result (λ new. new.had ≡ is_some (record_at
        (rows_in (cell_at store.old) ids.now (key_spec.cell_of key.now)) key.now)) }
    ensures err { OnErr result (store.new ≡ store.old) }
{
    let Changed { cell, had } = changed_cell(alloc, ids, store, key, value)?;
    let id = VersionId {
        point,
        cell: cell_of(key),
    };
    let ids = renewed(ids, &id, &cell)?;
    keep_cell(store, &id, cell)?;
    Ok(PutRow { ids, had })
}

/// Gives a cell a new id: none where the cell has no rows.
fn renew(ids: &mut Ids, id: &VersionId, cell: &Cell) -> Result<(), AllocError>
    ensures ok { OnOk result (ids.new ≡ renewed_ids ids.old id.now cell.now) }
    ensures err { OnErr result (ids.new ≡ ids.old) }
{
    if cell.is_empty() {
        ids.remove(&id.cell)
    } else {
        ids.put(id.cell, *id)
    }
}

/// Puts a record under a key or takes it away, as `put_row` does, in ids of the caller's own, and tells whether there was a record under
/// the key. After an error the ids are of no use.
pub(crate) fn put_row_in(
    alloc: Global,
    ids: &mut Ids,
    store: &mut Store,
    point: u64,
    key: &Key,
    value: &Option<Record>,
) -> Result<bool, AllocError>
    ensures ids { OnOk result (ids.new
        ≡ renewed_ids ids.old (new_id point key.now)
        (new_rows store.old ids.old key.now value.now)) }
    ensures store { OnOk result (store.new
        ≡ store_with store.old (new_id point key.now)
        (new_rows store.old ids.old key.now value.now)) }
    ensures had { IfOk result (λ had. had ≡ is_some (record_at
        (rows_in (cell_at store.old) ids.old (key_spec.cell_of key.now)) key.now)) }
    ensures err { OnErr result (store.new ≡ store.old) }
{
    let Changed { cell, had } = changed_cell(alloc, ids, store, key, value)?;
    let id = VersionId {
        point,
        cell: cell_of(key),
    };
    renew(ids, &id, &cell)?;
    keep_cell(store, &id, cell)?;
    Ok(had)
}

/// Keeps a cell that has rows.
fn keep_cell(store: &mut Store, id: &VersionId, cell: Cell) -> Result<(), AllocError>
    ensures ok { OnOk result (store.new ≡ store_with store.old id.now cell) }
    ensures err { OnErr result (store.new ≡ store.old) }
{
    if cell.is_empty() {
        return Ok(());
    }
    store.add(*id, cell)
}

/// A count after one thing may have come, and one gone.
pub(crate) fn recount(count: usize, before: bool, after: bool) -> Result<usize, AllocError>
    ensures { IfOk result (λ new. IsRecounted count before after new) }
{
    match (before, after) {
        (true, false) => count.checked_sub(1).ok_or(AllocError),
        (false, true) => count.checked_add(1).ok_or(AllocError),
        _ => Ok(count),
    }
}

/// A count of things of one kind, after one thing may have come, and one gone.
pub(crate) fn recount_if(
    counts: bool,
    count: usize,
    before: bool,
    after: bool,
) -> Result<usize, AllocError>
    ensures { IfOk result (λ new. IsRecounted count (before && counts) (after && counts) new) }
{
    if counts {
        recount(count, before, after)
    } else {
        Ok(count)
    }
}
