//! Units followed from a part to where they end, or to its parents.
ghost use Rattle.std.specs.Prelude.{◌≡◌, ◌+◌, ◌-◌, ◌*◌, ◌/◌, ◌≤◌};
ghost use Rattle.std.specs.Prelude.{◌<◌, ◌^◌, ℕ, length, OnOk, slice_get, slice_index};
ghost use Rattle.std.specs.Prelude.{slice_index_or};
ghost use Rattle.planning_rules.specs.Trace.{End, AtDemand, Surplus};
ghost use Rattle.full_pegging.specs.Weights.{weight, spread_weight};
ghost use Rattle.full_pegging.specs.Rows.{rows_weight};
ghost use Rattle.full_pegging.specs.Following.{landed_weight, waiting_weight, supply_weight};
ghost use Rattle.full_pegging.specs.Following.{target_weight, CanFollow};
ghost use Rattle.full_pegging.specs.declared.follow.PartRows.{PartRows};

use crate::cutting::Piece;
use crate::rows::add_units;
use crate::share::Share;
use crate::target::Target;
use crate::units::{ParentUnits, Units, moved, parent_units};
use plan_schema::{Name, Qty};
use std::alloc::AllocError;

/// The planned units of a part that are still to be followed, by their numbers.
#[derive(Drop)]
pub struct PartRows {
    pub rows: Vec<Units>,
}

/// Adds units that end as surplus of a part.
fn land_surplus(landed: &mut Vec<Share>, part: &Name, units: &Units) -> Result<(), AllocError>
    requires { units.now.times * units.now.many < 2 ^ 64 }
    ensures { OnOk result ((measure : End → ℕ) → landed_weight measure landed.new.items
        ≡ landed_weight measure landed.old.items
        + weight (λ unit. measure (Surplus part.now)) units.now) }
{
    landed.push(Share::Surplus {
        part: *part,
        qty: units.times * units.many,
    })?;
    Ok(())
}

/// Adds units that end at an independent demand of a part.
fn land_demand(
    landed: &mut Vec<Share>,
    part: &Name,
    order: &Name,
    units: &Units,
) -> Result<(), AllocError>
    requires { units.now.times * units.now.many < 2 ^ 64 }
    ensures { OnOk result ((measure : End → ℕ) → landed_weight measure landed.new.items
        ≡ landed_weight measure landed.old.items
        + weight (λ unit. measure (AtDemand part.now order.now)) units.now) }
{
    landed.push(Share::Demand {
        part: *part,
        order: *order,
        qty: units.times * units.many,
    })?;
    Ok(())
}

/// Adds planned units of one day as places of the supply of their part, or as its surplus where they are of no day.
pub fn place_piece(
    rows: &mut Vec<Units>,
    landed: &mut Vec<Share>,
    part: &Name,
    piece: &Piece,
    befores: &[u64],
) -> Result<(), AllocError>
    requires fits { piece.now.units.times * piece.now.units.many < 2 ^ 64 }
    requires room { piece.now.stretch < length befores.now
        → slice_index befores.now piece.now.stretch + piece.now.units.first < 2 ^ 64 }
    ensures { OnOk result ((measure : End → ℕ) (places : ℕ → ℕ)
        → landed_weight measure landed.new.items + rows_weight places rows.new.items
        ≡ (landed_weight measure landed.old.items + rows_weight places rows.old.items)
        + weight (supply_weight measure places part.now befores.now piece.now.stretch)
        piece.now.units) }
{
    if piece.stretch < befores.len() {
        add_units(rows, moved(&piece.units, befores[piece.stretch]))?;
        Ok(())
    } else {
        land_surplus(landed, part, &piece.units)
    }
}

/// Adds the units of a parent that some units go into.
fn add_parent_units(rows: &mut Vec<Units>, units: &ParentUnits) -> Result<(), AllocError>
    ensures { OnOk result ((measure : ℕ → ℕ) → rows_weight measure rows.new.items
        ≡ rows_weight measure rows.old.items + spread_weight measure units.now) }
{
    add_units(rows, units.begun)?;
    add_units(rows, units.filled)?;
    add_units(rows, units.left)?;
    Ok(())
}

/// Hands units on to a parent.
fn hand_on(
    waiting: &mut [PartRows],
    units: &Units,
    place: usize,
    per: Qty,
    before: u64,
) -> Result<(), AllocError>
    requires place { place < length waiting.old }
    requires per { 1 ≤ per }
    requires numbers { before + (units.now.first + units.now.many) < 2 ^ 64 - 1 }
    requires fits { units.now.times * units.now.many < 2 ^ 64 }
    ensures weight { OnOk result ((measure : ℕ → ℕ → ℕ) → waiting_weight measure waiting.new
        ≡ waiting_weight measure waiting.old
        + weight (λ unit. measure place (before + unit / per)) units.now) }
    ensures others { OnOk result ((k : ℕ) (d : PartRows) → place < k
        → slice_index_or waiting.new k d ≡ slice_index_or waiting.old k d) }
{
    let units = parent_units(units, per, before);
    let part = &mut waiting[place];
    add_parent_units(&mut part.rows, &units)?;
    Ok(())
}

/// Follows units of the demand of a part to what they are for.
pub fn follow_piece(
    landed: &mut Vec<Share>,
    waiting: &mut [PartRows],
    part: &Name,
    piece: &Piece,
    targets: &[Target],
) -> Result<(), AllocError>
    ghost most: { ℕ }
    requires fits { piece.now.units.times * piece.now.units.many < 2 ^ 64 }
    requires can { CanFollow most (slice_get targets.now piece.now.stretch)
        (piece.now.units.first + piece.now.units.many) }
    requires most { most ≤ length waiting.old }
    ensures weight { OnOk result ((measure : End → ℕ) (ends : ℕ → ℕ → ℕ)
        → landed_weight measure landed.new.items + waiting_weight ends waiting.new
        ≡ (landed_weight measure landed.old.items + waiting_weight ends waiting.old)
        + weight (target_weight measure ends part.now (slice_get targets.now piece.now.stretch))
        piece.now.units) }
    ensures others { OnOk result ((k : ℕ) (d : PartRows) → most ≤ k
        → slice_index_or waiting.new k d ≡ slice_index_or waiting.old k d) }
{
    match targets.get(piece.stretch) {
        Some(Target::Demand(order)) => land_demand(landed, part, order, &piece.units),
        Some(Target::Parent { place, per, before }) => {
            hand_on(waiting, &piece.units, *place, *per, *before)
        }
        None => land_surplus(landed, part, &piece.units),
    }
}
