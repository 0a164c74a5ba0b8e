//! The step of one part.
ghost use Rattle.std.specs.Prelude.{◌≡◌, ◌+◌, ◌≤◌, ◌<◌, ◌^◌, ℕ, All, length, IfOk, OnOk, slice_get, slice_index};
ghost use Rattle.std.specs.Prelude.{slice_index_or, sum};
ghost use Rattle.planning_rules.specs.Trace.{End};
ghost use Rattle.full_pegging.specs.Rows.{rows_weight, pieces_weight, by_stretch};
ghost use Rattle.full_pegging.specs.Following.{landed_weight, waiting_weight, supply_weight};
ghost use Rattle.full_pegging.specs.Following.{target_weight, CanFollow};
ghost use Rattle.full_pegging.specs.declared.follow.PartRows.{PartRows};

use crate::cutting::{Piece, cut};
use crate::follow::{PartRows, follow_piece, place_piece};
use crate::merging::merged;
use crate::share::Share;
use crate::target::Target;
use crate::units::Units;
use plan_schema::{Name, Qty};
use std::alloc::{AllocError, Global};

/// What the units of a part stand in: the planned units by days, each of which comes behind so many places of the supply, and the
/// units of the demand by what they are for.
#[derive(Clone, Copy)]
pub struct Streams<'a> {
    pub planned: &'a [Qty],
    pub befores: &'a [u64],
    pub quantities: &'a [Qty],
    pub targets: &'a [Target],
}

/// Planned units of days as places of the supply of their part; those of no day are its surplus.
fn place_pieces(
    alloc: Global,
    landed: &mut Vec<Share>,
    part: &Name,
    pieces: &[Piece],
    befores: &[u64],
) -> Result<Vec<Units>, AllocError>
    requires total { pieces_weight (λ _ _. 1) pieces.now < 2 ^ 64 }
    requires room { All (λ piece. piece.stretch < length befores.now
        → slice_index befores.now piece.stretch + piece.units.first < 2 ^ 64) pieces.now }
    ensures weight { IfOk result (λ rows. (measure : End → ℕ) (places : ℕ → ℕ)
        → landed_weight measure landed.new.items + rows_weight places rows.items
        ≡ landed_weight measure landed.old.items
        + pieces_weight (supply_weight measure places part.now befores.now) pieces.now) }
{
    let mut rows = Vec::new(alloc);
    for piece in pieces {
        place_piece(&mut rows, landed, part, piece, befores)?;
    }
    Ok(rows)
}

/// Follows pieces of the demand of a part to what they are for.
fn follow_pieces(
    landed: &mut Vec<Share>,
    waiting: &mut [PartRows],
    part: &Name,
    pieces: &[Piece],
    targets: &[Target],
) -> Result<(), AllocError>
    ghost most: { ℕ }
    requires total { pieces_weight (λ _ _. 1) pieces.now < 2 ^ 64 }
    requires can { All (λ piece. CanFollow most (slice_get targets.now piece.stretch)
        (piece.units.first + piece.units.many)) pieces.now }
    requires most { most ≤ length waiting.old }
    ensures weight { OnOk result ((measure : End → ℕ) (ends : ℕ → ℕ → ℕ)
        → landed_weight measure landed.new.items + waiting_weight ends waiting.new
        ≡ (landed_weight measure landed.old.items + waiting_weight ends waiting.old)
        + pieces_weight (λ stretch. target_weight measure ends part.now
        (slice_get targets.now stretch)) pieces.now) }
    ensures others { OnOk result ((k : ℕ) (d : PartRows) → most ≤ k
        → slice_index_or waiting.new k d ≡ slice_index_or waiting.old k d) }
{
    for piece in pieces {
        follow_piece(landed, waiting, part, piece, targets)?;
    }
    Ok(())
}

/// Follows planned units of a part to where they end, or to the units of its parents that they go into.
pub fn follow_part(
    alloc: Global,
    landed: &mut Vec<Share>,
    waiting: &mut [PartRows],
    part: &Name,
    rows: &[Units],
    streams: &Streams<'_>,
) -> Result<(), AllocError>
    ghost most: { ℕ }
    requires total { rows_weight (λ _. 1) rows.now < 2 ^ 64 }
    requires planned { sum streams.now.planned.now < 2 ^ 64 }
    requires quantities { sum streams.now.quantities.now < 2 ^ 64 }
    requires days { length streams.now.befores.now ≡ length streams.now.planned.now }
    requires room { (k : ℕ) → k < length streams.now.planned.now
        → slice_index streams.now.befores.now k + slice_index streams.now.planned.now k < 2 ^ 64 }
    requires whole { length streams.now.targets.now ≡ length streams.now.quantities.now }
    requires can { (k : ℕ) → k < length streams.now.quantities.now
        → CanFollow most (slice_get streams.now.targets.now k)
        (slice_index streams.now.quantities.now k) }
    requires most { most ≤ length waiting.old }
    ensures weight { OnOk result ((measure : End → ℕ) (ends : ℕ → ℕ → ℕ)
        → landed_weight measure landed.new.items + waiting_weight ends waiting.new
        ≡ (landed_weight measure landed.old.items + waiting_weight ends waiting.old)
        + rows_weight (by_stretch (supply_weight measure (by_stretch
        (λ stretch. target_weight measure ends part.now
        (slice_get streams.now.targets.now stretch)) streams.now.quantities.now)
        part.now streams.now.befores.now) streams.now.planned.now) rows.now) }
    ensures others { OnOk result ((k : ℕ) (d : PartRows) → most ≤ k
        → slice_index_or waiting.new k d ≡ slice_index_or waiting.old k d) }
{
    let rows = merged(alloc, rows)?;
    let planned = cut(alloc, rows.as_slice(), streams.planned)?;
    let places = place_pieces(alloc, landed, part, planned.as_slice(), streams.befores)?;
    let asked = cut(alloc, places.as_slice(), streams.quantities)?;
    follow_pieces(landed, waiting, part, asked.as_slice(), streams.targets)?;
    Ok(())
}
