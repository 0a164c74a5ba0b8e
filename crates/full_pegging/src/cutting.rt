//! Rows of units, cut where stretches of numbers end.
ghost use Rattle.std.specs.Prelude.{◌≡◌, ◌+◌, ◌-◌, ◌≤◌, ◌<◌, ◌^◌, ℕ, List, All, IfOk, OnOk, length};
ghost use Rattle.std.specs.Prelude.{sum};
ghost use Rattle.std.specs.Prelude.{slice_index};
ghost use Rattle.full_pegging.specs.Weights.{weight};
ghost use Rattle.full_pegging.specs.Rows.{rows_weight, pieces_weight, by_stretch, IsWithin, IsStart};

use crate::units::{Units, split_at};
use plan_schema::Qty;
use std::alloc::{AllocError, Global};

/// Units that stand in one stretch, by their places in it.
#[derive(Clone, Copy)]
pub struct Piece {
    /// Which stretch it is, from 0; behind all, one more.
    pub stretch: usize,
    pub units: Units,
}

/// A stretch, and the number that its first place has.
#[derive(Clone, Copy)]
pub struct Start {
    stretch: usize,
    number: u64,
}

/// Where to begin to look for the stretch of some units: at the one found last, unless they stand before it.
fn start_for(units: &Units, last: Start) -> Start
    ensures before { result.number ≤ units.now.first }
    ensures kept { (stretches : List ℕ) → IsStart stretches last → IsStart stretches result }
{
    if last.number <= units.first {
        return last;
    }
    Start {
        stretch: 0,
        number: 0,
    }
}

/// Adds units as a piece of the stretch that starts there, if there are any.
fn add_piece(pieces: &mut Vec<Piece>, units: &Units, start: Start) -> Result<(), AllocError>
    requires { start.number ≤ units.now.first }
    ensures weight { OnOk result ((measure : ℕ → ℕ → ℕ) → pieces_weight measure pieces.new.items
        ≡ pieces_weight measure pieces.old.items
        + weight (λ unit. measure start.stretch (unit - start.number)) units.now) }
    ensures within { OnOk result ((stretches : List ℕ)
        → (0 < units.now.many → start.stretch < length stretches
        → (units.now.first + units.now.many) - start.number ≤ slice_index stretches start.stretch)
        → All (IsWithin stretches) pieces.old.items → All (IsWithin stretches) pieces.new.items) }
{
    if units.many == 0 {
        return Ok(());
    }
    let units = Units {
        first: units.first - start.number,
        many: units.many,
        times: units.times,
    };
    pieces.push(Piece {
        stretch: start.stretch,
        units,
    })?;
    Ok(())
}

/// Adds the pieces that a row comes to, which doesn't begin before a stretch; tells in which stretch it ends.
fn add_pieces(
    pieces: &mut Vec<Piece>,
    units: &Units,
    stretches: &[Qty],
    start: Start,
) -> Result<Start, AllocError>
    requires total { sum stretches.now < 2 ^ 64 }
    requires start { IsStart stretches.now start }
    requires before { start.number ≤ units.now.first }
    ensures weight { OnOk result ((measure : ℕ → ℕ → ℕ) → pieces_weight measure pieces.new.items
        ≡ pieces_weight measure pieces.old.items
        + weight (by_stretch measure stretches.now) units.now) }
    ensures within { OnOk result (All (IsWithin stretches.now) pieces.old.items
        → All (IsWithin stretches.now) pieces.new.items) }
    ensures start { IfOk result (IsStart stretches.now) }
{
    let mut rest = *units;
    let mut number = start.number;
    for stretch in start.stretch..stretches.len() {
        let end = number + stretches[stretch];
        let (here, behind) = split_at(&rest, end);
        add_piece(pieces, &here, Start { stretch, number })?;
        if behind.many == 0 {
            return Ok(Start { stretch, number });
        }
        rest = behind;
        number = end;
    }
    let last = Start {
        stretch: stretches.len(),
        number,
    };
    add_piece(pieces, &rest, last)?;
    Ok(last)
}

/// Rows of units, cut where stretches end that begin at 0 and follow one another.
pub fn cut(alloc: Global, rows: &[Units], stretches: &[Qty]) -> Result<Vec<Piece>, AllocError>
    requires { sum stretches.now < 2 ^ 64 }
    ensures weight { IfOk result (λ pieces. (measure : ℕ → ℕ → ℕ)
        → pieces_weight measure pieces.items
        ≡ rows_weight (by_stretch measure stretches.now) rows.now) }
    ensures within { IfOk result (λ pieces. All (IsWithin stretches.now) pieces.items) }
{
    let mut pieces = Vec::new(alloc);
    let mut last = Start {
        stretch: 0,
        number: 0,
    };
    for units in rows {
        last = add_pieces(&mut pieces, units, stretches, start_for(units, last))?;
    }
    Ok(pieces)
}
