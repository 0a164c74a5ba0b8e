//! The cells of a part among those of a job.
ghost use Rattle.std.specs.Prelude.{◌≡◌, ◌≤◌, ◌+◌, true, length, Some, IfOk, OnOk, is_some};
ghost use Rattle.plan_schema.specs.declared.key.Key.TheVariants as keys;
ghost use Rattle.plan_schema.specs.Contents.{record_at};
ghost use Rattle.planning_rules.specs.Bills.{bills_of};
ghost use Rattle.planning_rules.specs.Days.{start_of, days_of, works};
ghost use Rattle.planning_rules.specs.Plan.{has_calendar};
ghost use Rattle.record_versions.specs.declared.version.VersionId.{VersionId};
ghost use Rattle.walk_rules.specs.Cells.{held, records};
ghost use Rattle.walk_rules.specs.Steps.{calendar_of, step_from};
ghost use Rattle.explosion.specs.Sums.{AreReleases};
ghost use Rattle.plan_jobs.specs.Jobs.{IsJob};
ghost use Rattle.plan_walk.specs.Walk.{CanStep};

use part_steps::{calendar, horizon, step};
use plan_calendar::Calendar;
use plan_jobs::{CellList, Job};
use plan_schema::{CellName, Day, Key, Known, Name, Record, Release, Steps};
use record_versions::Cell;
use std::alloc::{AllocError, Global};
use std::sync::ledger::Ledger;

/// The cell of a name that is there. It is looked for next to the last place, which becomes its own.
pub fn cell_in<'a>(cells: &'a CellList, name: &CellName, last: &mut usize) -> &'a Cell
    requires { is_some (held cells.now name.now) ≡ true }
    ensures { (id : VersionId) × (held cells.now name.now ≡ Some (id, result.now)) }
{
    let Some((_id, cell)) = cells.get_near(name, last) else {
        unreachable!()
    };
    cell
}

/// The calendar that a part's record names, if it is there and names one.
pub fn calendar_named(cell: &Cell, name: &Name) -> Option<Name>
    ensures { result ≡ calendar_of (record_at cell.now (keys.Part name.now)) }
{
    match cell.get(&Key::Part(*name)) {
        Some(Record::Part { calendar, .. }) => *calendar,
        _ => None,
    }
}

/// The days of the horizon on which a calendar works; every day without one.
fn working_days(
    alloc: Global,
    job: &Job,
    named: Option<Name>,
    start: &Day,
    days: u16,
    last: &mut usize,
) -> Result<Calendar, AllocError>
    requires job { IsJob job.now.wanted job.now.cells }
    requires start { start.now ≡ start_of (records job.now.cells) }
    requires days { days ≡ days_of (records job.now.cells) }
    requires most { days ≤ 400 }
    requires there { has_calendar (records job.now.cells) named ≡ true }
    ensures { IfOk result (λ works_on. works_on ≡ works (records job.now.cells) named) }
{
    match named {
        None => Ok(Calendar::every(days)),
        Some(name) => {
            let cell = cell_in(&job.cells, &CellName::Cal(name), last);
            let working = calendar(alloc, cell, &name, start, days)?;
            Ok(working)
        }
    }
}

/// What the plan of a part comes to, from its cells in a job and the releases of its parents by name. It is one step of the counter.
/// Its own cell is looked for next to a place, and its calendar's next to the last calendar's place, which becomes its own.
pub fn net_part<L: Ledger>(
    alloc: Global,
    job: &Job,
    name: &Name,
    mut place: usize,
    calendar: &mut usize,
    releases: &[Release],
    steps: &mut Steps<L>,
) -> Result<Known, AllocError>
    requires job { IsJob job.now.wanted job.now.cells }
    requires part { CanStep job.now.cells name.now }
    requires lists { AreReleases (days_of (records job.now.cells)) releases.now }
    requires each { length (bills_of (records job.now.cells) name.now) ≡ length releases.now }
    ensures known { IfOk result
        (λ known. step_from (records job.now.cells) name.now releases.now ≡ Some known) }
    ensures steps { OnOk result (steps.new ≡ steps.old + 1) }
{
    let plan = cell_in(&job.cells, &CellName::Plan, &mut 0);
    let (start, days) = horizon(plan);
    let part = cell_in(&job.cells, &CellName::Part(*name), &mut place);
    let named = calendar_named(part, name);
    let working = working_days(alloc, job, named, &start, days, calendar)?;
    let known = step(alloc, part, name, &start, days, working, releases, steps)?;
    Ok(known)
}
