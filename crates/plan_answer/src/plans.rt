//! Replies to questions that ask for plans.
ghost use Rattle.std.specs.Prelude.{◌≡◌, true, IfOk};
ghost use Rattle.walk_rules.specs.Cells.{records};
ghost use Rattle.plan_jobs.specs.Jobs.{asked_by};
ghost use Rattle.full_pegging.specs.Walking.{IsTraced};
ghost use Rattle.plan_answer.specs.Asks.{question, asks_for_plan};
ghost use Rattle.plan_answer.specs.Planned.{wants_of};
ghost use Rattle.plan_answer.specs.Replies.{reply_of};

use crate::ask::Ask;
use crate::costs::cost_reply;
use crate::pegged::peg_reply;
use crate::planned::{lines_of_plan, lines_of_promise, lines_of_query};
use crate::traces::trace_reply;
use command_words::Reply;
use part_pegs::WalkPlans;
use plan_walk::Walk;
use std::alloc::{AllocError, Global};

/// The reply to a question that asks for plans, at its job's point, from the job's records, where no plan that it asks for is refused
/// and the walk knows the plans.
pub fn from_plans(alloc: Global, walk: &Walk, ask: &Ask) -> Result<Reply, AllocError>
    requires wants { walk.now.job.wanted ≡ wants_of (question ask.now) }
    requires uses { asks_for_plan (question ask.now) ≡ true }
    requires traced { let c = records walk.now.job.cells in
        IsTraced walk.now (asked_by c walk.now.job.wanted) }
    ensures { IfOk result (λ reply. reply
        ≡ reply_of walk.now.job.point (records walk.now.job.cells) (question ask.now)) }
{
    let (job, plans) = (walk.job(), &WalkPlans { walk });
    match ask {
        Ask::Plan(part) => {
            let lines = lines_of_plan(alloc, job, plans, part)?;
            Ok(Reply::Rows(job.point, lines))
        }
        Ask::Peg(part, date) => peg_reply(alloc, job, plans, part, date),
        Ask::Trace(part, date) => trace_reply(alloc, walk, part, date),
        Ask::Atp(part) => {
            let lines = lines_of_promise(alloc, job, plans, part)?;
            Ok(Reply::Rows(job.point, lines))
        }
        Ask::Cost(part) => cost_reply(alloc, job, plans, part),
        Ask::Select(query) => {
            let lines = lines_of_query(alloc, job, plans, query)?;
            Ok(Reply::Rows(job.point, lines))
        }
        Ask::Show(_) | Ask::Level(_) => unreachable!(),
    }
}
