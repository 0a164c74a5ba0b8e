//! What the demand of a part is for.
ghost use Rattle.std.specs.Prelude.{◌≡◌, ◌<◌, ◌∷◌, [], ◌++◌, ℕ, List, All, map, IfOk, OnOk};
ghost use Rattle.std.specs.Prelude.{Contains, true};
ghost use Rattle.plan_schema.specs.declared.name.Name.{Name};
ghost use Rattle.plan_schema.specs.declared.key.Key.TheVariants as keys;
ghost use Rattle.plan_schema.specs.Contents.{record_at};
ghost use Rattle.plan_schema.specs.Sound.{are_sound_rows};
ghost use Rattle.planning_rules.specs.Days.{days_of};
ghost use Rattle.planning_rules.specs.Pegs.{Peg as PlanPeg};
ghost use Rattle.walk_rules.specs.Cells.{records};
ghost use Rattle.walk_rules.specs.Walks.{names_of};
ghost use Rattle.pegging.specs.Pegs.{shown};
ghost use Rattle.full_pegging.specs.Ends.{AreTargets, pegs_of};
ghost use Rattle.full_pegging.specs.Walking.{CanAim, CanTrace};

use crate::streams::parent_target;
use crate::target::Target;
use part_pegs::{WalkPlans, horizon, parent_releases, part_cell};
use pegging::{Peg, peg};
use plan_schema::{Name, Qty};
use plan_walk::Walk;
use record_versions::Cell;
use std::alloc::{AllocError, Global};

/// What the units of a part's demand are for, one after the other, and how many they are.
#[derive(Drop)]
pub struct Aims {
    pub targets: Vec<Target>,
    pub quantities: Vec<Qty>,
}

/// Adds what the units of a peg of a day are for.
fn add_aim(
    aims: &mut Aims,
    walk: &Walk,
    cell: &Cell,
    part: &Name,
    peg: &Peg,
    at: u16,
) -> Result<(), AllocError>
    requires sound { are_sound_rows cell.now ≡ true }
    requires rows { (parent : Name) → record_at cell.now (keys.Bill parent part.now)
        ≡ record_at (records walk.now.job.cells) (keys.Bill parent part.now) }
    requires aim { CanAim (records walk.now.job.cells) walk.now.parts at (shown peg.now) }
    ensures { OnOk result ((pegs : List (ℕ × PlanPeg))
        → AreTargets (records walk.now.job.cells) (names_of walk.now.parts) part.now pegs
        aims.old.targets.items aims.old.quantities.items
        → AreTargets (records walk.now.job.cells) (names_of walk.now.parts) part.now
        (pegs ++ (at, shown peg.now) ∷ []) aims.new.targets.items aims.new.quantities.items) }
{
    match peg {
        Peg::Demand(order, qty) => {
            aims.targets.push(Target::Demand(*order))?;
            aims.quantities.push(*qty)?;
        }
        Peg::Bill(parent, qty) => {
            aims.targets
                .push(parent_target(walk, cell, part, parent, at))?;
            aims.quantities.push(*qty)?;
        }
    }
    Ok(())
}

/// Adds what the units of the pegs of a day are for.
fn add_day(
    aims: &mut Aims,
    walk: &Walk,
    cell: &Cell,
    part: &Name,
    pegs: &[Peg],
    at: u16,
) -> Result<(), AllocError>
    requires sound { are_sound_rows cell.now ≡ true }
    requires rows { (parent : Name) → record_at cell.now (keys.Bill parent part.now)
        ≡ record_at (records walk.now.job.cells) (keys.Bill parent part.now) }
    requires aim { All (λ peg. CanAim (records walk.now.job.cells) walk.now.parts at (shown peg))
        pegs.now }
    ensures { OnOk result ((pegs_before : List (ℕ × PlanPeg))
        → AreTargets (records walk.now.job.cells) (names_of walk.now.parts) part.now pegs_before
        aims.old.targets.items aims.old.quantities.items
        → AreTargets (records walk.now.job.cells) (names_of walk.now.parts) part.now
        (pegs_before ++ map (λ peg. (at, shown peg)) pegs.now)
        aims.new.targets.items aims.new.quantities.items) }
{
    for peg in pegs {
        add_aim(aims, walk, cell, part, peg, at)?;
    }
    Ok(())
}

/// What the units of the demand of a part of a walk are for, day by day.
pub fn aims_of(alloc: Global, walk: &Walk, part: &Name) -> Result<Aims, AllocError>
    requires walk { CanTrace walk.now }
    requires part { Contains (names_of walk.now.parts) part.now }
    ensures { IfOk result (λ aims. let c = records walk.now.job.cells in
        AreTargets c (names_of walk.now.parts) part.now (pegs_of c part.now (days_of c))
        aims.targets.items aims.quantities.items) }
{
    let job = walk.job();
    let plans = WalkPlans { walk };
    let cell = part_cell(job, &plans, part);
    let (start, days) = horizon(job);
    let releases = parent_releases(alloc, cell, &plans)?;
    let mut aims = Aims {
        targets: Vec::new(alloc),
        quantities: Vec::new(alloc),
    };
    for at in 0..days {
        let pegs = peg(alloc, cell, &start, days, at, releases.as_slice())?;
        add_day(&mut aims, walk, cell, part, pegs.as_slice(), at)?;
    }
    Ok(aims)
}
