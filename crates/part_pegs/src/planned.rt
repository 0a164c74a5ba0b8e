//! What is known of a part that is planned.
ghost use Rattle.std.specs.Prelude.{◌≡◌, ◌+◌, ◌≤◌, ◌<◌, true, Some};
ghost use Rattle.plan_schema.specs.declared.key.Key.TheVariants as keys;
ghost use Rattle.plan_schema.specs.declared.change.CellName.TheVariants as names;
ghost use Rattle.plan_schema.specs.Contents.{record_at};
ghost use Rattle.plan_schema.specs.Sound.{is_sound_row};
ghost use Rattle.planning_rules.specs.Days.{horizon_of};
ghost use Rattle.planning_rules.specs.Plan.{Planned, has_outcome};
ghost use Rattle.walk_rules.specs.Cells.{records};
ghost use Rattle.plan_jobs.specs.Jobs.{IsJob, wants_plan};
ghost use Rattle.part_pegs.specs.Held.{rows_held};
ghost use Rattle.part_pegs.specs.Planned.{IsPlannedPart};

use plan_jobs::Job;
use plan_schema::{CellName, Day, Key, Known, Name, Outcome, Record};
use query_rows::Plans;
use record_versions::Cell;

/// The record of the horizon.
fn plan_record(job: &Job) -> &Record
    requires job { IsJob job.now.wanted job.now.cells }
    requires wants { wants_plan job.now.wanted ≡ true }
    ensures value { record_at (records job.now.cells) keys.Plan ≡ Some result.now }
    ensures sound { is_sound_row keys.Plan result.now ≡ true }
{
    let Some((_id, cell)) = job.cells.get(&CellName::Plan) else {
        unreachable!()
    };
    let Some(record) = cell.get(&Key::Plan) else {
        unreachable!()
    };
    record
}

/// The first day of the horizon, and how many days it has.
pub fn horizon(job: &Job) -> (Day, u16)
    requires job { IsJob job.now.wanted job.now.cells }
    requires wants { wants_plan job.now.wanted ≡ true }
    ensures value { result ≡ horizon_of (record_at (records job.now.cells) keys.Plan) }
    ensures most { result.1 ≤ 400 }
    ensures end { result.0 + result.1 < 36526 }
{
    match plan_record(job) {
        Record::Plan { start, days } => (*start, *days),
        _ => unreachable!(),
    }
}

/// The outcome of a part that is planned.
pub fn outcome_of<'a, P: Plans>(plans: &'a P, part: &Name) -> &'a Outcome
    requires { has_outcome (P.plans plans.now part.now) ≡ true }
    ensures { P.plans plans.now part.now ≡ Some (Planned result.now) }
{
    let Some(Known::Plan(outcome)) = plans.known(part) else {
        unreachable!()
    };
    outcome
}

/// The cell of a part that is planned.
pub fn part_cell<'a, P: Plans>(job: &'a Job, plans: &P, part: &Name) -> &'a Cell
    requires job { IsJob job.now.wanted job.now.cells }
    requires planned { IsPlannedPart (records job.now.cells) (P.plans plans.now) part.now }
    ensures { rows_held job.now.cells (names.Part part.now) ≡ Some result.now }
{
    match job.cells.get(&CellName::Part(*part)) {
        Some((_id, cell)) => cell,
        None => unreachable!(),
    }
}
