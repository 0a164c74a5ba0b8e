//! Rows of units.
ghost use Rattle.std.specs.Prelude.{◌≡◌, ◌+◌, ℕ, OnOk, IfSome};
ghost use Rattle.full_pegging.specs.Weights.{weight};
ghost use Rattle.full_pegging.specs.Rows.{rows_weight};

use crate::units::Units;
use std::alloc::AllocError;

/// Two rows as one, where the second goes on where the first ends and is counted as often, or both have the same units.
fn joined(units: &Units, other: &Units) -> Option<Units>
    ensures { IfSome result (λ one. (measure : ℕ → ℕ)
        → weight measure one ≡ weight measure units.now + weight measure other.now) }
{
    let end = units.first.checked_add(units.many)?;
    if end == other.first && units.times == other.times {
        let many = units.many.checked_add(other.many)?;
        return Some(Units { many, ..*units });
    }
    if units.first == other.first && units.many == other.many {
        let times = units.times.checked_add(other.times)?;
        return Some(Units { times, ..*units });
    }
    None
}

/// Adds units behind rows: in one row with the last, where that can be.
pub fn add_units(rows: &mut Vec<Units>, units: Units) -> Result<(), AllocError>
    ensures { OnOk result ((measure : ℕ → ℕ) → rows_weight measure rows.new.items
        ≡ rows_weight measure rows.old.items + weight measure units) }
{
    if units.many == 0 {
        return Ok(());
    }
    let Some(last) = rows.pop() else {
        rows.push(units)?;
        return Ok(());
    };
    match joined(&last, &units) {
        Some(one) => rows.push(one)?,
        None => {
            rows.push(last)?;
            rows.push(units)?;
        }
    }
    Ok(())
}
