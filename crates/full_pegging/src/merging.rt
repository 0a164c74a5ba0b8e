//! Rows of units that meet, merged into rows that don't.
ghost use Rattle.std.specs.Prelude.{◌≡◌, ◌+◌, ◌≤◌, ◌<◌, ◌^◌, ℕ, true, IfOk, OnOk, vec_len};
ghost use Rattle.full_pegging.specs.Weights.{weight};
ghost use Rattle.full_pegging.specs.Rows.{rows_weight};

use crate::overlay::overlaid;
use crate::rows::add_units;
use crate::units::Units;
use std::alloc::{AllocError, Global};

/// Whether the second of two rows starts in the first, and both can be counted together.
fn do_meet(low: &Units, high: &Units) -> bool
    ensures order { result ≡ true → low.now.first ≤ high.now.first }
    ensures meet { result ≡ true → high.now.first < low.now.first + low.now.many }
    ensures first { result ≡ true → low.now.first + low.now.many < 2 ^ 64 }
    ensures second { result ≡ true → high.now.first + high.now.many < 2 ^ 64 }
    ensures fits { result ≡ true → low.now.times + high.now.times < 2 ^ 64 }
{
    let Some(end) = low.first.checked_add(low.many) else {
        return false;
    };
    low.first <= high.first
        && high.first < end
        && high.first.checked_add(high.many).is_some()
        && low.times.checked_add(high.times).is_some()
}

/// Adds to merged rows, the last ones first, what two rows come to from the start of the second on; what is left is the first row's.
fn take_last(merged: &mut Vec<Units>, low: Units, high: Units) -> Result<Units, AllocError>
    ensures { IfOk result (λ left. (measure : ℕ → ℕ)
        → rows_weight measure merged.new.items + weight measure left
        ≡ rows_weight measure merged.old.items + (weight measure low + weight measure high)) }
{
    if !do_meet(&low, &high) {
        merged.push(high)?;
        return Ok(low);
    }
    let parts = overlaid(&low, &high);
    merged.push(parts.behind)?;
    merged.push(parts.shared)?;
    Ok(parts.before)
}

/// Merges the last of two lists' rows.
fn merge_last(
    merged: &mut Vec<Units>,
    ours: &mut Vec<Units>,
    theirs: &mut Vec<Units>,
) -> Result<(), AllocError>
    requires ours { 0 < vec_len ours.old }
    requires theirs { 0 < vec_len theirs.old }
    ensures less { OnOk result (vec_len ours.new + vec_len theirs.new
        < vec_len ours.old + vec_len theirs.old) }
    ensures weight { OnOk result ((measure : ℕ → ℕ) → rows_weight measure merged.new.items
        + (rows_weight measure ours.new.items + rows_weight measure theirs.new.items)
        ≡ rows_weight measure merged.old.items
        + (rows_weight measure ours.old.items + rows_weight measure theirs.old.items)) }
{
    let (Some(one), Some(other)) = (ours.pop(), theirs.pop()) else {
        unreachable!()
    };
    if one.first <= other.first {
        let left = take_last(merged, one, other)?;
        ours.push(left)?;
    } else {
        let left = take_last(merged, other, one)?;
        theirs.push(left)?;
    }
    Ok(())
}

/// Adds rows, the last ones first.
fn take_rest(merged: &mut Vec<Units>, mut rows: Vec<Units>) -> Result<(), AllocError>
    ensures { OnOk result ((measure : ℕ → ℕ) → rows_weight measure merged.new.items
        ≡ rows_weight measure merged.old.items + rows_weight measure rows.items) }
{
    while let Some(units) = rows.pop() {
        add_units(merged, units)?;
    }
    Ok(())
}

/// Two lists of rows as one.
fn merge(
    alloc: Global,
    mut ours: Vec<Units>,
    mut theirs: Vec<Units>,
) -> Result<Vec<Units>, AllocError>
    ensures { IfOk result (λ merged. (measure : ℕ → ℕ) → rows_weight measure merged.items
        ≡ rows_weight measure ours.items + rows_weight measure theirs.items) }
{
    let mut merged = Vec::new(alloc);
    while !ours.is_empty() && !theirs.is_empty() {
        merge_last(&mut merged, &mut ours, &mut theirs)?;
    }
    take_rest(&mut merged, ours)?;
    take_rest(&mut merged, theirs)?;
    let mut rows = Vec::new(alloc);
    take_rest(&mut rows, merged)?;
    Ok(rows)
}

/// Rows of which many may have the same units, as rows by number that share few: each unit is counted as often as in all of them.
pub fn merged(alloc: Global, rows: &[Units]) -> Result<Vec<Units>, AllocError>
    ensures { IfOk result (λ merged. (measure : ℕ → ℕ)
        → rows_weight measure merged.items ≡ rows_weight measure rows.now) }
{
    if rows.len() <= 1 {
        return Vec::from_slice(alloc, rows);
    }
    let (ours, theirs) = rows.split_at(rows.len() / 2);
    let ours = merged(alloc, ours)?;
    let theirs = merged(alloc, theirs)?;
    merge(alloc, ours, theirs)
}
