//! Units of a walk, followed part by part.
ghost use Rattle.std.specs.Prelude.{◌≡◌, ◌+◌, ◌<◌, ◌≤◌, ◌^◌, ℕ, [], length, OnOk, Some};
ghost use Rattle.std.specs.Prelude.{slice_index_or};
ghost use Rattle.planning_rules.specs.Trace.{End};
ghost use Rattle.walk_rules.specs.Cells.{records};
ghost use Rattle.walk_rules.specs.Walks.{names_of};
ghost use Rattle.full_pegging.specs.Rows.{rows_weight};
ghost use Rattle.full_pegging.specs.Ends.{ends_by};
ghost use Rattle.full_pegging.specs.Following.{landed_weight, waiting_weight};
ghost use Rattle.full_pegging.specs.Walking.{CanTrace};
ghost use Rattle.full_pegging.specs.declared.follow.PartRows.{PartRows};

use crate::aims::aims_of;
use crate::follow::PartRows;
use crate::part::{Streams, follow_part};
use crate::share::Share;
use crate::streams::befores_of;
use crate::units::Units;
use explosion::sched;
use part_pegs::{WalkPlans, horizon, outcome_of, part_cell};
use part_steps::stock_in;
use plan_walk::Walk;
use std::alloc::{AllocError, Global};
use std::mem;

/// Follows planned units of the part at a place of a walk.
fn follow_rows(
    alloc: Global,
    walk: &Walk,
    place: usize,
    rows: &[Units],
    landed: &mut Vec<Share>,
    waiting: &mut [PartRows],
) -> Result<(), AllocError>
    ghost spot: { ℕ }
    requires walk { CanTrace walk.now }
    requires spot { spot ≡ place }
    requires part { place < length (names_of walk.now.parts) }
    requires total { rows_weight (λ _. 1) rows.now < 2 ^ 64 }
    requires long { length waiting.old ≡ length (names_of walk.now.parts) }
    ensures weight { OnOk result ((measure : End → ℕ)
        → let ends = ends_by measure (records walk.now.job.cells) (names_of walk.now.parts) in
        landed_weight measure landed.new.items + waiting_weight ends waiting.new
        ≡ (landed_weight measure landed.old.items + waiting_weight ends waiting.old)
        + rows_weight (ends spot) rows.now) }
    ensures others { OnOk result ((k : ℕ) (d : PartRows) → spot ≤ k
        → slice_index_or waiting.new k d ≡ slice_index_or waiting.old k d) }
{
    let Some(part) = walk.name_at(place) else {
        unreachable!()
    };
    let job = walk.job();
    let plans = WalkPlans { walk };
    let (start, days) = horizon(job);
    let cell = part_cell(job, &plans, part);
    let outcome = outcome_of(&plans, part);
    let sched = sched(alloc, cell, &start, days)?;
    let planned = outcome.planned.as_slice();
    let befores = befores_of(alloc, stock_in(cell, part), sched.as_slice(), planned)?;
    let aims = aims_of(alloc, walk, part)?;
    let streams = Streams {
        planned,
        befores: befores.as_slice(),
        quantities: aims.quantities.as_slice(),
        targets: aims.targets.as_slice(),
    };
    follow_part(alloc, landed, waiting, part, rows, &streams)?;
    Ok(())
}

/// Follows the units that wait at a place of a walk.
fn follow_at(
    alloc: Global,
    walk: &Walk,
    place: usize,
    landed: &mut Vec<Share>,
    waiting: &mut [PartRows],
) -> Result<(), AllocError>
    requires walk { CanTrace walk.now }
    requires place { place < length (names_of walk.now.parts) }
    requires total { waiting_weight (λ _ _. 1) waiting.old < 2 ^ 64 }
    requires long { length waiting.old ≡ length (names_of walk.now.parts) }
    ensures weight { OnOk result ((measure : End → ℕ)
        → let ends = ends_by measure (records walk.now.job.cells) (names_of walk.now.parts) in
        landed_weight measure landed.new.items + waiting_weight ends waiting.new
        ≡ landed_weight measure landed.old.items + waiting_weight ends waiting.old) }
    ensures here { OnOk result ((d : PartRows)
        → (slice_index_or waiting.new place d).rows.items ≡ []) }
    ensures behind { OnOk result ((k : ℕ) (d : PartRows) → place < k
        → slice_index_or waiting.new k d ≡ slice_index_or waiting.old k d) }
{
    let none = PartRows {
        rows: Vec::new(alloc),
    };
    let taken = mem::replace(&mut waiting[place], none);
    follow_rows(alloc, walk, place, taken.rows.as_slice(), landed, waiting)?;
    Ok(())
}

/// Follows all units that wait to where they end: part by part, from the lowest level up.
pub fn follow_all(
    alloc: Global,
    walk: &Walk,
    landed: &mut Vec<Share>,
    waiting: &mut [PartRows],
) -> Result<(), AllocError>
    requires walk { CanTrace walk.now }
    requires total { waiting_weight (λ _ _. 1) waiting.old + landed_weight (λ _. 1) landed.old.items
        < 2 ^ 64 }
    requires long { length waiting.old ≡ length (names_of walk.now.parts) }
    ensures { OnOk result ((measure : End → ℕ) → landed_weight measure landed.new.items
        ≡ landed_weight measure landed.old.items + waiting_weight
        (ends_by measure (records walk.now.job.cells) (names_of walk.now.parts)) waiting.old) }
{
    let mut place = waiting.len();
    while place > 0 {
        place -= 1;
        follow_at(alloc, walk, place, landed, waiting)?;
    }
    Ok(())
}
