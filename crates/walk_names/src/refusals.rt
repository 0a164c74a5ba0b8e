//! Names that keep a plan from being made.
ghost use Rattle.std.specs.Prelude.{◌≡◌, not};
ghost use Rattle.plan_schema.specs.declared.key.Key.TheVariants as keys;
ghost use Rattle.std.specs.Option.{option_copied};
ghost use Rattle.plan_schema.specs.Key.{cell_of};
ghost use Rattle.plan_schema.specs.Contents.{record_at};
ghost use Rattle.planning_rules.specs.Refused.{earlier as earlier_of, least_name, is_part, lacks_calendar};
ghost use Rattle.walk_rules.specs.Cells.{records};
ghost use Rattle.plan_jobs.specs.Jobs.{IsJob};

use plan_jobs::Job;
use plan_schema::{CellName, Key, Name, Record};

/// The record under a key, if its cell is there. The cell is looked for next to the last place, which becomes its own.
fn record_in<'a>(job: &'a Job, cell: &CellName, key: &Key, last: &mut usize) -> Option<&'a Record>
    requires job { IsJob job.now.wanted job.now.cells }
    requires cell { cell.now ≡ cell_of key.now }
    ensures { option_copied result ≡ record_at (records job.now.cells) key.now }
{
    match job.cells.get_near(cell, last) {
        Some((_id, cell)) => cell.get(key),
        None => None,
    }
}

/// Whether a name is a part.
pub fn is_part_in(job: &Job, name: &Name) -> bool
    requires { IsJob job.now.wanted job.now.cells }
    ensures { result ≡ is_part (records job.now.cells) name.now }
{
    is_part_near(job, name, &mut 0)
}

/// Whether a name is a part, whose cell is looked for next to the last place.
fn is_part_near(job: &Job, name: &Name, last: &mut usize) -> bool
    requires { IsJob job.now.wanted job.now.cells }
    ensures { result ≡ is_part (records job.now.cells) name.now }
{
    record_in(job, &CellName::Part(*name), &Key::Part(*name), last).is_some()
}

/// The last places at which a part and a calendar were found.
#[derive(Drop)]
struct Last {
    part: usize,
    calendar: usize,
}

/// Whether a part's calendar isn't there.
fn lacks_calendar_in(job: &Job, name: &Name, last: &mut Last) -> bool
    requires { IsJob job.now.wanted job.now.cells }
    ensures { result ≡ lacks_calendar (records job.now.cells)
        (record_at (records job.now.cells) (keys.Part name.now)) }
{
    match record_in(
        job,
        &CellName::Part(*name),
        &Key::Part(*name),
        &mut last.part,
    ) {
        Some(
            Record::Part {
                calendar: Some(calendar),
                ..
            },
        ) => {
            let key = Key::Cal(*calendar);
            record_in(job, &CellName::Cal(*calendar), &key, &mut last.calendar).is_none()
        }
        _ => false,
    }
}

/// The earlier of two names.
pub fn earlier(least: Option<Name>, name: Name) -> Option<Name>
    ensures { result ≡ earlier_of least name }
{
    match least {
        Some(other) if !name.cmp(&other).is_lt() => Some(other),
        _ => Some(name),
    }
}

/// The least of some names that is no part.
pub fn least_missing(job: &Job, names: &[Name]) -> Option<Name>
    requires { IsJob job.now.wanted job.now.cells }
    ensures { result ≡ least_name (λ n. not (is_part (records job.now.cells) n)) names.now }
{
    let mut least = None;
    let mut last = 0;
    for name in names {
        if !is_part_near(job, name, &mut last) {
            least = earlier(least, *name);
        }
    }
    least
}

/// The least of some names that is a part without its calendar.
pub fn least_without_calendar(job: &Job, names: &[Name]) -> Option<Name>
    requires { IsJob job.now.wanted job.now.cells }
    ensures { let c = records job.now.cells in
        result ≡ least_name (λ n. lacks_calendar c (record_at c (keys.Part n))) names.now }
{
    let mut least = None;
    let mut last = Last {
        part: 0,
        calendar: 0,
    };
    for name in names {
        if lacks_calendar_in(job, name, &mut last) {
            least = earlier(least, *name);
        }
    }
    least
}
