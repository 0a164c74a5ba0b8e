//! Where the planned receipt of a day ends.
ghost use Rattle.std.specs.Prelude.{◌≡◌, ◌<◌, ℕ, [], ◌∷◌, length, map, IfOk};
ghost use Rattle.planning_rules.specs.Days.{days_of};
ghost use Rattle.planning_rules.specs.Trace.{trace as trace_of};
ghost use Rattle.walk_rules.specs.Cells.{records};
ghost use Rattle.full_pegging.specs.Weights.{weight};
ghost use Rattle.full_pegging.specs.Following.{shown_share, waiting_weight};
ghost use Rattle.full_pegging.specs.Walking.{IsTraced};

use crate::follow::PartRows;
use crate::rows::add_units;
use crate::share::Share;
use crate::shares::shares_in;
use crate::streams::total;
use crate::trail::follow_all;
use crate::units::Units;
use part_pegs::{WalkPlans, horizon, outcome_of};
use plan_schema::Name;
use plan_walk::Walk;
use std::alloc::{AllocError, Global};

/// Of so many parts, those at one place have these planned units to be followed, and no others have any.
fn waiting_at(
    alloc: Global,
    count: usize,
    place: usize,
    units: Units,
) -> Result<Vec<PartRows>, AllocError>
    requires { place < count }
    ensures long { IfOk result (λ waiting. length waiting.items ≡ count) }
    ensures weight { IfOk result (λ waiting. (measure : ℕ → ℕ → ℕ)
        → waiting_weight measure waiting.items ≡ weight (measure place) units) }
{
    let mut waiting = Vec::with_capacity(alloc, count)?;
    for index in 0..count {
        let mut rows = Vec::new(alloc);
        if index == place {
            add_units(&mut rows, units)?;
        }
        waiting.push(PartRows { rows })?;
    }
    Ok(waiting)
}

/// For which independent demands the planned receipt of a part on a day of the horizon is meant, and how much of it is surplus of which
/// part: first the demands by part and order, and then the surpluses by part, each with a quantity above 0.
pub fn trace(alloc: Global, walk: &Walk, part: &Name, at: u16) -> Result<Vec<Share>, AllocError>
    requires walk { IsTraced walk.now (part.now ∷ []) }
    requires day { at < days_of (records walk.now.job.cells) }
    ensures { IfOk result (λ shares. map shown_share shares.items
        ≡ trace_of (records walk.now.job.cells) part.now at) }
{
    // A horizon has few days, so that the numbers of the units before the day fit.
    let job = walk.job();
    let (_start, _days) = horizon(job);
    let plans = WalkPlans { walk };
    let planned = outcome_of(&plans, part).planned.as_slice();
    let Some(place) = walk.place_of(part) else {
        unreachable!()
    };
    let units = Units {
        first: total(&planned[..at as usize]),
        many: planned[at as usize],
        times: 1,
    };
    let mut waiting = waiting_at(alloc, walk.len(), place, units)?;
    let mut landed = Vec::new(alloc);
    follow_all(alloc, walk, &mut landed, waiting.as_mut_slice())?;
    shares_in(alloc, landed.as_slice(), job.cells.as_slice())
}
