//! The sums over a part's cell.
ghost use Rattle.std.specs.Prelude.{◌≡◌, ◌<◌, ◌≤◌, ◌^◌, ℕ, true, false, length, IfOk, Err, All, slice_index};
ghost use Rattle.plan_schema.specs.declared.limits.TheConstants.{RECORD_LIMIT};
ghost use Rattle.plan_schema.specs.declared.outcome.NetFault.TheVariants.{TooLarge};
ghost use Rattle.plan_schema.specs.Sound.{are_sound_rows};
ghost use Rattle.planning_rules.specs.Netting.{exceeds};
ghost use Rattle.explosion.specs.Sums.{gross_by, sched_by, bills_in, AreReleases};

use crate::adding::{add_receipt, add_row};
use plan_schema::{Day, NetFault, Qty, Quantities, Release, Series};
use record_versions::Cell;
use std::alloc::{AllocError, Global};

/// The greatest gross requirement of a day.
const LIMIT: u128 = 1_000_000_000_000_000;

/// The sums as quantities, where none is too large.
fn fitted(alloc: Global, sums: &[u128]) -> Result<Vec<Qty>, NetFault>
    ensures same { IfOk result (λ quantities. quantities.items ≡ sums.now) }
    ensures fits { IfOk result (λ quantities. exceeds quantities.items ≡ false) }
    ensures large { result ≡ Err TooLarge → exceeds sums.now ≡ true }
{
    let Ok(mut fitted) = Vec::with_capacity(alloc, sums.len()) else {
        return Err(NetFault::Memory);
    };
    for sum in sums {
        if *sum > LIMIT {
            return Err(NetFault::TooLarge);
        }
        if fitted.push(*sum as u64).is_err() {
            return Err(NetFault::Memory);
        }
    }
    Ok(fitted)
}

/// Adds what the rows of a part's cell ask for on each day, with the release lists of its parents in the order of their names.
fn add_rows(sums: &mut [u128], cell: &Cell, start: u32, releases: &[Release])
    requires nothing { (t : ℕ) → slice_index sums.old t ≡ 0 }
    requires start { start < 36525 }
    requires days { length sums.old ≤ 400 }
    requires lists { AreReleases (length sums.old) releases.now }
    requires each { length (bills_in cell.now) ≤ length releases.now }
    requires rows { length cell.now ≤ RECORD_LIMIT }
    requires sound { are_sound_rows cell.now ≡ true }
    ensures { sums.new ≡ gross_by cell.now start (length sums.old) releases.now }
{
    let mut next = 0;
    for (key, value) in cell.iter() {
        next = add_row(sums, start, &key, value, releases, next);
    }
}

/// The gross requirements of a part on each day of a horizon, from the rows of its cell and the planned order releases of its
/// parents, one list for each bill of the cell, in the order of the parents' names. A bill counts on the days on which it is
/// effective, by the day of the parent's release.
pub fn gross(
    alloc: Global,
    cell: &Cell,
    start: &Day,
    days: u16,
    releases: &[Release],
) -> Result<Quantities, NetFault>
    requires days { days ≤ 400 }
    requires lists { AreReleases days releases.now }
    requires each { length (bills_in cell.now) ≤ length releases.now }
    requires rows { length cell.now ≤ RECORD_LIMIT }
    requires sound { are_sound_rows cell.now ≡ true }
    ensures gross { IfOk result (λ gross. gross ≡ gross_by cell.now start.now days releases.now) }
    ensures fits { IfOk result (λ gross. exceeds gross ≡ false) }
    ensures large { result ≡ Err TooLarge
        → exceeds (gross_by cell.now start.now days releases.now) ≡ true }
{
    let days = days as usize;
    let Ok(mut sums) = vec![in alloc; 0u128; days] else {
        return Err(NetFault::Memory);
    };
    add_rows(sums.as_mut_slice(), cell, start.number(), releases);
    Ok(Series::from_vec(fitted(alloc, sums.as_slice())?))
}

/// Adds what the rows of a part's cell say is received on each day.
fn add_receipts(sums: &mut [u64], cell: &Cell, start: u32)
    requires nothing { (t : ℕ) → slice_index sums.old t ≡ 0 }
    requires rows { length cell.now ≤ RECORD_LIMIT }
    requires sound { are_sound_rows cell.now ≡ true }
    ensures sums { sums.new ≡ sched_by cell.now start (length sums.old) }
    ensures small { All (λ qty. qty ≤ 200000000000000) sums.new }
{
    for (key, value) in cell.iter() {
        add_receipt(sums, start, &key, value);
    }
}

/// The scheduled receipts of a part on each day of a horizon, from the rows of its cell.
pub fn sched(alloc: Global, cell: &Cell, start: &Day, days: u16) -> Result<Quantities, AllocError>
    requires days { days ≤ 400 }
    requires rows { length cell.now ≤ RECORD_LIMIT }
    requires sound { are_sound_rows cell.now ≡ true }
    ensures sched { IfOk result (λ sched. sched ≡ sched_by cell.now start.now days) }
    ensures small { IfOk result (All (λ qty. qty ≤ 200000000000000)) }
{
    let mut sums = vec![in alloc; 0u64; days as usize]?;
    add_receipts(sums.as_mut_slice(), cell, start.number());
    Ok(Series::from_vec(sums))
}
