//! Answers in which plans stand, where the plans are known.
ghost use Rattle.std.specs.Prelude.{◌≡◌, ◌<◌, true, ◌∷◌, [], IfOk};
ghost use Rattle.query_language.specs.Trees.{query_tree};
ghost use Rattle.walk_rules.specs.Cells.{records};
ghost use Rattle.plan_jobs.specs.Jobs.{IsJob, wants_plan};
ghost use Rattle.query_rules.specs.Lines.{select_lines};
ghost use Rattle.query_rules.specs.Queries.{parts_of};
ghost use Rattle.plan_answer.specs.Asks.{TellsPlan, Promises};
ghost use Rattle.plan_answer.specs.Replies.{question_lines};
ghost use Rattle.part_pegs.specs.Planned.{ArePlanned};

use crate::lines::{plan_lines, promise_lines};
use command_words::Lines;
use part_pegs::{horizon, outcome_of};
use plan_jobs::Job;
use plan_schema::Name;
use promise_dates::promise;
use query_language::Query;
use query_rows::{Plans, rows_planned};
use std::alloc::{AllocError, Global};

/// The lines of a part's plan.
pub fn lines_of_plan<P: Plans>(
    alloc: Global,
    job: &Job,
    plans: &P,
    part: &Name,
) -> Result<Lines, AllocError>
    requires job { IsJob job.now.wanted job.now.cells }
    requires wants { wants_plan job.now.wanted ≡ true }
    requires planned { ArePlanned (records job.now.cells) (part.now ∷ []) (P.plans plans.now) }
    ensures { IfOk result (λ lines. lines
        ≡ question_lines (records job.now.cells) (TellsPlan part.now)) }
{
    let (start, days) = horizon(job);
    plan_lines(alloc, &start, days, outcome_of(plans, part))
}

/// The lines of what can be promised of a part.
pub fn lines_of_promise<P: Plans>(
    alloc: Global,
    job: &Job,
    plans: &P,
    part: &Name,
) -> Result<Lines, AllocError>
    requires job { IsJob job.now.wanted job.now.cells }
    requires wants { wants_plan job.now.wanted ≡ true }
    requires planned { ArePlanned (records job.now.cells) (part.now ∷ []) (P.plans plans.now) }
    ensures { IfOk result (λ lines. lines
        ≡ question_lines (records job.now.cells) (Promises part.now)) }
{
    let (start, days) = horizon(job);
    let promised = promise(alloc, outcome_of(plans, part))?;
    promise_lines(alloc, &start, days, promised.as_slice())
}

/// The lines of a query over the plans of all parts.
pub fn lines_of_query<P: Plans>(
    alloc: Global,
    job: &Job,
    plans: &P,
    query: &Query,
) -> Result<Lines, AllocError>
    requires job { IsJob job.now.wanted job.now.cells }
    requires planned { let c = records job.now.cells in
        ArePlanned c (parts_of c) (P.plans plans.now) }
    ensures { IfOk result (λ lines. lines
        ≡ select_lines (records job.now.cells) (query_tree query.now)) }
{
    rows_planned(alloc, query, job, plans)
}
