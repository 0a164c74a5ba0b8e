//! The step of a part.
ghost use Rattle.std.specs.Prelude.{◌≡◌, ◌≤◌, ◌+◌, ℕ, true, false, is_some, length, IfOk, OnOk, Some, Err};
ghost use Rattle.plan_schema.specs.declared.key.Key.TheVariants as keys;
ghost use Rattle.plan_schema.specs.declared.limits.TheConstants.{RECORD_LIMIT};
ghost use Rattle.plan_schema.specs.declared.outcome.NetFault.TheVariants.{TooLarge};
ghost use Rattle.plan_schema.specs.Contents.{record_at};
ghost use Rattle.plan_schema.specs.Sound.{are_sound_rows};
ghost use Rattle.planning_rules.specs.Netting.{exceeds};
ghost use Rattle.planning_rules.specs.Plan.{known_from};
ghost use Rattle.explosion.specs.Sums.{AreReleases, bills_in, gross_by};
ghost use Rattle.netting.specs.Inputs.{IsWithin, given};
ghost use Rattle.part_steps.specs.Steps.{input_by, known_by};

use crate::records::{record_in, stock_in};
use explosion::{gross, sched};
use netting::{Input, net};
use plan_calendar::Calendar;
use plan_schema::{Day, Key, Known, Name, NetFault, Record, Release, Steps};
use record_versions::Cell;
use std::alloc::{AllocError, Global};
use std::sync::ledger::Ledger;

/// What a part's step starts from.
fn input(
    alloc: Global,
    cell: &Cell,
    name: &Name,
    start: &Day,
    calendar: Calendar,
    days: u16,
    releases: &[Release],
) -> Result<Input, NetFault>
    requires sound { are_sound_rows cell.now ≡ true }
    requires rows { length cell.now ≤ RECORD_LIMIT }
    requires there { is_some (record_at cell.now (keys.Part name.now)) ≡ true }
    requires some { 1 ≤ days }
    requires most { days ≤ 400 }
    requires calendar { length calendar ≡ days }
    requires lists { AreReleases days releases.now }
    requires each { length (bills_in cell.now) ≤ length releases.now }
    ensures input { IfOk result (λ input.
        input_by cell.now name.now start.now days calendar releases.now ≡ Some (given input)) }
    ensures within { IfOk result IsWithin }
    ensures large { result ≡ Err TooLarge
        → exceeds (gross_by cell.now start.now days releases.now) ≡ true }
{
    let Some(
        Record::Part {
            lead,
            lot,
            safety,
            ..
        },
    ) = record_in(cell, &Key::Part(*name))
    else {
        unreachable!()
    };
    let gross = gross(alloc, cell, start, days, releases)?;
    let Ok(sched) = sched(alloc, cell, start, days) else {
        return Err(NetFault::Memory);
    };
    Ok(Input {
        stock: stock_in(cell, name),
        safety: *safety,
        lot: *lot,
        lead: *lead,
        calendar,
        gross,
        sched,
    })
}

/// What a part's plan comes to, over the working days of its calendar, with the releases of its parents in the order of their
/// names. It is one step of the counter, also where the gross requirements alone are too large.
#[allow(clippy::too_many_arguments)]
pub fn step<L: Ledger>(
    alloc: Global,
    cell: &Cell,
    name: &Name,
    start: &Day,
    days: u16,
    calendar: Calendar,
    releases: &[Release],
    steps: &mut Steps<L>,
) -> Result<Known, AllocError>
    requires sound { are_sound_rows cell.now ≡ true }
    requires rows { length cell.now ≤ RECORD_LIMIT }
    requires there { is_some (record_at cell.now (keys.Part name.now)) ≡ true }
    requires some { 1 ≤ days }
    requires most { days ≤ 400 }
    requires calendar { length calendar ≡ days }
    requires lists { AreReleases days releases.now }
    requires each { length (bills_in cell.now) ≤ length releases.now }
    ensures known { IfOk result (λ known.
        known_by cell.now name.now start.now days calendar releases.now ≡ Some known) }
    ensures steps { OnOk result (steps.new ≡ steps.old + 1) }
{
    match input(alloc, cell, name, start, calendar, days, releases) {
        Ok(input) => net_input(alloc, input, steps),
        Err(NetFault::TooLarge) => {
            steps.tick();
            Ok(Known::TooLarge)
        }
        Err(NetFault::Memory) => Err(AllocError),
    }
}

/// What an input's step comes to.
fn net_input<L: Ledger>(
    alloc: Global,
    input: Input,
    steps: &mut Steps<L>,
) -> Result<Known, AllocError>
    requires { IsWithin input }
    ensures known { IfOk result (λ known. known_from (Some (given input)) ≡ Some known) }
    ensures steps { steps.new ≡ steps.old + 1 }
{
    match net(alloc, input, steps) {
        Ok(outcome) => Ok(Known::Plan(outcome)),
        Err(NetFault::TooLarge) => Ok(Known::TooLarge),
        Err(NetFault::Memory) => Err(AllocError),
    }
}
