//! Answers about what planned receipts are for, from walks that know the plans.
ghost use Rattle.std.specs.Prelude.{◌≡◌, ◌-◌, [], ◌∷◌, map, IfOk};
ghost use Rattle.planning_rules.specs.Days.{start_of};
ghost use Rattle.planning_rules.specs.Pegs.{no_day};
ghost use Rattle.planning_rules.specs.Trace.{trace as trace_of};
ghost use Rattle.walk_rules.specs.Cells.{records};
ghost use Rattle.full_pegging.specs.Walking.{IsTraced};
ghost use Rattle.session_rules.specs.Answers.{share_line, query_reply};

use crate::lines::share_lines;
use crate::pegged::day_in;
use command_words::Reply;
use full_pegging::trace;
use part_pegs::horizon;
use plan_schema::{Day, Name, Refusal};
use plan_walk::Walk;
use std::alloc::{AllocError, Global};

/// The reply to a question for what the planned receipt of a part on a date is for, where the part's plan isn't refused: it is refused
/// itself where the date is no day of the horizon.
pub fn trace_reply(alloc: Global, walk: &Walk, part: &Name, date: &Day) -> Result<Reply, AllocError>
    requires { IsTraced walk.now (part.now ∷ []) }
    ensures { let c = records walk.now.job.cells in
        IfOk result (λ reply. reply ≡ query_reply walk.now.job.point (no_day c date.now)
        (map share_line (trace_of c part.now (date.now - start_of c)))) }
{
    let job = walk.job();
    let (start, days) = horizon(job);
    match day_in(&start, days, date) {
        Some(at) => {
            let shares = trace(alloc, walk, part, at)?;
            let lines = share_lines(alloc, shares.as_slice())?;
            Ok(Reply::Rows(job.point, lines))
        }
        None => Ok(Reply::No(job.point, Refusal::NoDay(*date))),
    }
}
