//! What the units of a part stand in.
ghost use Rattle.std.specs.Prelude.{◌≡◌, ◌+◌, ◌<◌, ◌≤◌, ◌^◌, ℕ, suc, length, map, IfOk};
ghost use Rattle.std.specs.Prelude.{take, sum};
ghost use Rattle.std.specs.Prelude.{Contains, true, slice_get, Some};
ghost use Rattle.std.specs.List.{range_with_len};
ghost use Rattle.plan_schema.specs.declared.key.Key.TheVariants as keys;
ghost use Rattle.plan_schema.specs.Contents.{record_at};
ghost use Rattle.plan_schema.specs.Sound.{are_sound_rows};
ghost use Rattle.planning_rules.specs.Plan.{released, has_outcome};
ghost use Rattle.planning_rules.specs.Trace.{per_in};
ghost use Rattle.walk_rules.specs.Walks.{names_of, known_at};
ghost use Rattle.full_pegging.specs.declared.target.Target.TheVariants as targets;

use crate::target::Target;
use part_pegs::{WalkPlans, outcome_of};
use part_steps::record_in;
use pegging::Peg;
use plan_schema::{Key, Name, Qty, Record};
use plan_walk::Walk;
use record_versions::Cell;
use std::alloc::{AllocError, Global};

/// Before the planned units of each day, how many places of the supply come and how many planned units, counted together.
pub fn befores_of(
    alloc: Global,
    stock: Qty,
    sched: &[Qty],
    planned: &[Qty],
) -> Result<Vec<u64>, AllocError>
    requires days { length sched.now ≡ length planned.now }
    requires fits { stock + (sum sched.now + sum planned.now) < 2 ^ 64 }
    ensures { IfOk result (λ befores. befores.items
        ≡ map (λ t. (stock + sum (take (suc t) sched.now)) + sum (take t planned.now))
        (range_with_len 0 (length planned.now))) }
{
    let mut befores = Vec::new(alloc);
    let mut there = stock;
    let mut made = 0;
    for day in 0..planned.len() {
        there += sched[day];
        befores.push(there + made)?;
        made += planned[day];
    }
    Ok(befores)
}

/// The sum of some quantities.
pub fn total(quantities: &[Qty]) -> u64
    requires { sum quantities.now < 2 ^ 64 }
    ensures { result ≡ sum quantities.now }
{
    let mut sum = 0;
    for qty in quantities {
        sum += *qty;
    }
    sum
}

/// How many units of a part go into one of a parent, by the part's cell.
fn per_of(cell: &Cell, parent: &Name, part: &Name) -> Qty
    requires { are_sound_rows cell.now ≡ true }
    ensures { result ≡ per_in (record_at cell.now (keys.Bill parent.now part.now)) }
{
    let key = Key::Bill {
        parent: *parent,
        component: *part,
    };
    match record_in(cell, &key) {
        Some(Record::Bill { per, .. }) => *per,
        _ => 0,
    }
}

/// What the units are for that a parent asks for on a day.
pub fn parent_target(walk: &Walk, cell: &Cell, part: &Name, parent: &Name, at: u16) -> Target
    requires sound { are_sound_rows cell.now ≡ true }
    requires there { Contains (names_of walk.now.parts) parent.now }
    requires outcome { has_outcome (known_at walk.now.parts parent.now) ≡ true }
    requires day { at ≤ length (released (known_at walk.now.parts parent.now)) }
    requires fits { sum (take at (released (known_at walk.now.parts parent.now))) < 2 ^ 64 }
    ensures { (place : ℕ) × (slice_get (names_of walk.now.parts) place ≡ Some parent.now)
        × (result ≡ targets.Parent place (per_in (record_at cell.now (keys.Bill parent.now part.now)))
        (sum (take at (released (known_at walk.now.parts parent.now))))) }
{
    let Some(place) = walk.place_of(parent) else {
        unreachable!()
    };
    let plans = WalkPlans { walk };
    let release = outcome_of(&plans, parent).release.as_slice();
    Target::Parent {
        place,
        per: per_of(cell, parent, part),
        before: total(&release[..at as usize]),
    }
}
