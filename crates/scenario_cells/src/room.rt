//! Whether a scenario would have more parts or records than it may. No list is made: the kept counts change by what is found under the
//! keys of the changes.
ghost use Rattle.std.specs.Prelude.{◌≡◌, ◌≤◌, ◌<◌, ◌+◌, ◌-◌, ◌^◌};
ghost use Rattle.std.specs.Prelude.{◌&&◌, ◌∷◌, [], true, if◌then◌else◌, length};
ghost use Rattle.std.specs.Prelude.{nat_lt, Option, Some, None, is_some, List, ℕ};
ghost use Rattle.std.specs.List.{list_any};
ghost use Rattle.std.specs.Ordering.{is_eq};
ghost use Rattle.std.specs.FinMap.{is_sorted};
ghost use Rattle.plan_schema.specs.declared.key.Record.{Record};
ghost use Rattle.plan_schema.specs.Base.{part_count};
ghost use Rattle.plan_schema.specs.Key.{key_cmp};
ghost use Rattle.plan_schema.specs.Contents.{record_at};
ghost use Rattle.scenario_rules.specs.World.{laid_over, contents_of};
ghost use Rattle.scenario_rules.specs.Steps.{all_put};
ghost use Rattle.scenario_rules.specs.Whole.{AreWithinLimits};
ghost use Rattle.record_versions.specs.Versions.{cell_at};
ghost use Rattle.scenario_cells.specs.Held.{IsHeld, scenario_by};
ghost use Rattle.scenario_cells.specs.Room.{refused_counts, refused_contents, next_tally, AreAtMost};

use crate::held::Held;
use crate::rows::row;
use plan_schema::limits::{PART_LIMIT, RECORD_LIMIT};
use plan_schema::{Key, Record, Refusal, Room};
use record_versions::Store;
use std::cmp::Ordering;

/// How many of the changes so far found a part or a row under their keys, and how many left one there.
#[derive(Drop)]
pub struct Tally {
    parts_before: usize,
    parts_after: usize,
    rows_before: usize,
    rows_after: usize,
}

fn no_tally() -> Tally
    ensures { result ≡ record {
      parts_before = 0;
      parts_after = 0;
      rows_before = 0;
      rows_after = 0;
    } }
{
    Tally {
        parts_before: 0,
        parts_after: 0,
        rows_before: 0,
        rows_after: 0,
    }
}

fn counted(count: usize, one: bool) -> usize
    requires { count + 1 < 2 ^ 64 }
    ensures { result ≡ count + (if one then 1 else 0) }
{
    if one { count + 1 } else { count }
}

fn counted_if(count: usize, one: bool, counts: bool) -> usize
    requires { count + 1 < 2 ^ 64 }
    ensures { result ≡ count + (if (one && counts) then 1 else 0) }
{
    if counts { counted(count, one) } else { count }
}

fn tallied(tally: &Tally, key: &Key, had: bool, has: bool) -> Tally
    requires { AreAtMost (2 ^ 64 - 2) tally.now }
    ensures { result ≡ next_tally tally.now key.now had has }
{
    let part = key.is_part();
    let parts_before = counted_if(tally.parts_before, had, part);
    let parts_after = counted_if(tally.parts_after, has, part);
    let rows_before = counted(tally.rows_before, had);
    let rows_after = counted(tally.rows_after, has);
    Tally {
        parts_before,
        parts_after,
        rows_before,
        rows_after,
    }
}

/// Whether a count with so many fewer and so many more is above a limit that it keeps now.
fn exceeds(count: usize, before: usize, after: usize, limit: usize) -> bool
    requires { count ≤ limit }
    ensures { (new : ℕ) → new + before ≡ count + after → result ≡ nat_lt limit new }
{
    if after > before {
        after - before > limit - count
    } else {
        false
    }
}

/// Why what is held can't take the changes of a tally.
fn full(held: &Held, tally: &Tally) -> Option<Refusal>
    requires parts { held.now.parts ≤ 10_000 }
    requires records { held.now.records ≤ 200_000 }
    ensures { (parts records : ℕ)
        → parts + tally.now.parts_before ≡ held.now.parts + tally.now.parts_after
        → records + tally.now.rows_before ≡ held.now.records + tally.now.rows_after
        → result ≡ refused_counts parts records }
{
    if exceeds(
        held.parts,
        tally.parts_before,
        tally.parts_after,
        PART_LIMIT,
    ) {
        return Some(Refusal::Full(Room::Parts));
    }
    if exceeds(
        held.records,
        tally.rows_before,
        tally.rows_after,
        RECORD_LIMIT,
    ) {
        return Some(Refusal::Full(Room::Records));
    }
    None
}

/// Why a scenario can't take one change, by one look.
pub fn one_room(held: &Held, store: &Store, key: &Key, has: bool) -> Option<Refusal>
    requires held { IsHeld (cell_at store.now) held.now }
    requires limits { AreWithinLimits (contents_of (scenario_by (cell_at store.now) held.now)) }
    ensures { (value : Option Record)
        → has ≡ is_some value
        → result ≡ refused_contents (laid_over (contents_of
        (scenario_by (cell_at store.now) held.now)) ((key.now, value) ∷ [])) }
{
    let had = row(&held.ids, store, key).is_some();
    let tally = tallied(&no_tally(), key, had, has);
    full(held, &tally)
}

/// Why a scenario can't take the own changes of another, by one pass over these.
pub fn own_room(above: &Held, child: &Held, store: &Store) -> Option<Refusal>
    requires above { IsHeld (cell_at store.now) above.now }
    requires limits { AreWithinLimits (contents_of (scenario_by (cell_at store.now) above.now)) }
    requires own { is_sorted key_cmp child.now.own ≡ true }
    ensures { result ≡ refused_contents (laid_over
        (contents_of (scenario_by (cell_at store.now) above.now)) child.now.own) }
{
    let mut tally = no_tally();
    for (key, value) in child.own.iter() {
        let had = row(&above.ids, store, &key).is_some();
        tally = tallied(&tally, &key, had, value.is_some());
    }
    full(above, &tally)
}

fn same_key(key: &Key, other: &Key) -> bool
    ensures { result ≡ is_eq (key_cmp key.now other.now) }
{
    matches!(key.compare(other), Ordering::Equal)
}

fn is_among(rows: &[(Key, Record)], key: &Key) -> bool
    ensures { result ≡ list_any (λ row. is_eq (key_cmp key.now row.0)) rows.now }
{
    rows.iter().any(|row| same_key(key, &row.0))
}

/// Whether there is a row under a key of a scenario after these rows.
fn had_before(held: &Held, store: &Store, rows: &[(Key, Record)], key: &Key) -> bool
    requires { IsHeld (cell_at store.now) held.now }
    ensures { result ≡ is_some (record_at (laid_over
        (contents_of (scenario_by (cell_at store.now) held.now)) (all_put rows.now)) key.now) }
{
    if row(&held.ids, store, key).is_some() {
        return true;
    }
    is_among(rows, key)
}

/// Why a scenario can't take rows. Only where they might not fit, if all were of new keys, are the new ones counted, each beside the
/// earlier ones.
pub fn rows_room(held: &Held, store: &Store, rows: &[(Key, Record)]) -> Option<Refusal>
    requires held { IsHeld (cell_at store.now) held.now }
    requires limits { AreWithinLimits (contents_of (scenario_by (cell_at store.now) held.now)) }
    ensures { result ≡ refused_contents (laid_over
        (contents_of (scenario_by (cell_at store.now) held.now)) (all_put rows.now)) }
{
    if fits(held, part_rows(rows), rows.len()) {
        return None;
    }
    counted_room(held, store, rows)
}

/// How many of the rows are parts.
fn part_rows(rows: &[(Key, Record)]) -> usize
    ensures { result ≡ part_count rows.now }
{
    rows.iter().filter(|row| row.0.is_part()).count()
}

/// Whether a scenario can take so many more parts and rows.
fn fits(held: &Held, parts: usize, rows: usize) -> bool
    requires parts { held.now.parts ≤ 10_000 }
    requires records { held.now.records ≤ 200_000 }
    ensures parts { result ≡ true → held.now.parts + parts ≤ 10_000 }
    ensures records { result ≡ true → held.now.records + rows ≤ 200_000 }
{
    parts <= PART_LIMIT - held.parts && rows <= RECORD_LIMIT - held.records
}

fn counted_room(held: &Held, store: &Store, rows: &[(Key, Record)]) -> Option<Refusal>
    requires held { IsHeld (cell_at store.now) held.now }
    requires limits { AreWithinLimits (contents_of (scenario_by (cell_at store.now) held.now)) }
    ensures { result ≡ refused_contents (laid_over
        (contents_of (scenario_by (cell_at store.now) held.now)) (all_put rows.now)) }
{
    let mut tally = no_tally();
    for i in 0..rows.len() {
        let key = &rows[i].0;
        let had = had_before(held, store, &rows[..i], key);
        tally = tallied(&tally, key, had, true);
    }
    full(held, &tally)
}
