//! Answers about pegs, where the plans are known.
ghost use Rattle.std.specs.Prelude.{◌≡◌, ◌+◌, ◌-◌, ◌≤◌, ◌<◌, ◌||◌, nat_lt, nat_le, true, false, Some, None};
ghost use Rattle.std.specs.Prelude.{◌∷◌, [], IfOk, MatchOption, map};
ghost use Rattle.planning_rules.specs.Days.{start_of, days_of};
ghost use Rattle.planning_rules.specs.Pegs.{pegs, no_day as no_day_of};
ghost use Rattle.session_rules.specs.Answers.{peg_line, query_reply};
ghost use Rattle.walk_rules.specs.Cells.{records};
ghost use Rattle.plan_jobs.specs.Jobs.{IsJob, wants_plan};
ghost use Rattle.part_pegs.specs.Planned.{ArePlanned};

use crate::lines::peg_lines;
use command_words::{Lines, Reply};
use part_pegs::{horizon, parent_releases, part_cell};
use pegging::peg;
use plan_jobs::Job;
use plan_schema::{Day, Name, Refusal};
use query_rows::Plans;
use std::alloc::{AllocError, Global};

/// The day of a horizon that a date is, if it is one.
pub(crate) fn day_in(start: &Day, days: u16, date: &Day) -> Option<u16>
    ensures { MatchOption result
        ((nat_lt date.now start.now || nat_le (start.now + days) date.now) ≡ true)
        (λ at. ((nat_lt date.now start.now || nat_le (start.now + days) date.now) ≡ false)
        × (at ≡ date.now - start.now) × (at < days)) }
{
    let (start, date) = (start.number(), date.number());
    if date < start || date >= start + u32::from(days) {
        return None;
    }
    Some((date - start) as u16)
}

/// The lines of the pegs of a part on a day of the horizon.
fn lines_of_day<P: Plans>(
    alloc: Global,
    job: &Job,
    plans: &P,
    part: &Name,
    start: &Day,
    days: u16,
    at: u16,
) -> Result<Lines, AllocError>
    requires job { IsJob job.now.wanted job.now.cells }
    requires planned { ArePlanned (records job.now.cells) (part.now ∷ []) (P.plans plans.now) }
    requires start { start.now ≡ start_of (records job.now.cells) }
    requires days { days ≡ days_of (records job.now.cells) }
    requires most { days ≤ 400 }
    requires at { at < days }
    ensures { let c = records job.now.cells in
        IfOk result (λ lines. lines ≡ map peg_line (pegs c part.now at)) }
{
    let cell = part_cell(job, plans, part);
    let releases = parent_releases(alloc, cell, plans)?;
    let pegs = peg(alloc, cell, start, days, at, releases.as_slice())?;
    peg_lines(alloc, pegs.as_slice())
}

/// The reply to a question for pegs of a part whose plan isn't refused: it is refused itself where the date is no day of the horizon.
pub fn peg_reply<P: Plans>(
    alloc: Global,
    job: &Job,
    plans: &P,
    part: &Name,
    date: &Day,
) -> Result<Reply, AllocError>
    requires job { IsJob job.now.wanted job.now.cells }
    requires wants { wants_plan job.now.wanted ≡ true }
    requires planned { ArePlanned (records job.now.cells) (part.now ∷ []) (P.plans plans.now) }
    ensures { let c = records job.now.cells in
        IfOk result (λ reply. reply ≡ query_reply job.now.point (no_day_of c date.now)
        (map peg_line (pegs c part.now (date.now - start_of c)))) }
{
    let (start, days) = horizon(job);
    match day_in(&start, days, date) {
        Some(at) => {
            let lines = lines_of_day(alloc, job, plans, part, &start, days, at)?;
            Ok(Reply::Rows(job.point, lines))
        }
        None => Ok(Reply::No(job.point, Refusal::NoDay(*date))),
    }
}
