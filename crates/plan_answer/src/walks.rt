//! Replies to questions that ask for plans, from walks.
ghost use Rattle.std.specs.Prelude.{◌≡◌, [], true, IfOk};
ghost use Rattle.walk_rules.specs.Cells.{records};
ghost use Rattle.plan_jobs.specs.Jobs.{IsJob, asked_by};
ghost use Rattle.plan_walk.specs.Walk.{IsOpen};
ghost use Rattle.plan_answer.specs.Asks.{question, asks_for_plan};
ghost use Rattle.plan_answer.specs.Planned.{wants_of};
ghost use Rattle.plan_answer.specs.Replies.{reply_of};
ghost use Rattle.plan_answer.specs.Settled.{AreAllSettled};

use crate::ask::Ask;
use crate::plans::from_plans;
use command_words::Reply;
use plan_schema::Refusal;
use plan_walk::Walk;
use std::alloc::{AllocError, Global};

/// The reply to a question that asks for plans, at its job's point, from a walk all of whose parts are settled, where no plan that it
/// asks for is refused.
pub fn from_settled(alloc: Global, walk: &Walk, ask: &Ask) -> Result<Reply, AllocError>
    requires job { IsJob walk.now.job.wanted walk.now.job.cells }
    requires wants { walk.now.job.wanted ≡ wants_of (question ask.now) }
    requires uses { asks_for_plan (question ask.now) ≡ true }
    requires settled { let c = records walk.now.job.cells in
        AreAllSettled c (asked_by c walk.now.job.wanted) walk.now.parts }
    ensures { IfOk result (λ reply. reply
        ≡ reply_of walk.now.job.point (records walk.now.job.cells) (question ask.now)) }
{
    walk.holds();
    from_plans(alloc, walk, ask)
}

/// The reply to a question that asks for plans, at its job's point, from a walk that is at its end: refused where a part in reach is too
/// large.
pub fn from_plan(alloc: Global, walk: &Walk, ask: &Ask) -> Result<Reply, AllocError>
    requires open { IsOpen walk.now }
    requires done { walk.now.front ≡ [] }
    requires wants { walk.now.job.wanted ≡ wants_of (question ask.now) }
    requires uses { asks_for_plan (question ask.now) ≡ true }
    ensures { IfOk result (λ reply. reply
        ≡ reply_of walk.now.job.point (records walk.now.job.cells) (question ask.now)) }
{
    walk.holds();
    match walk.too_large() {
        Some(name) => Ok(Reply::No(walk.job().point, Refusal::TooLarge(name))),
        None => from_settled(alloc, walk, ask),
    }
}
