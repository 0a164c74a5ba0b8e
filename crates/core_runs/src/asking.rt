//! Questions, and the walks that they begin.
ghost use Rattle.std.specs.Prelude.{◌≡◌, None};
ghost use Rattle.plan_jobs.specs.Jobs.{IsJob, wants_plan as is_about_plans};
ghost use Rattle.core_runs.specs.Replies.{trouble_reply, IsAskReply, IsWalkReply};

use crate::in_work::InWork;
use crate::step::CoreReply;
use plan_core::Core;
use plan_jobs::{Job, Wanted};
use plan_schema::Name;
use plan_walk::{Solved, Trouble, Walk};
use std::alloc::Global;

/// What a step is replied, and what is left of its walk.
#[derive(Drop)]
pub struct Replied {
    pub reply: CoreReply,
    pub walk: Option<InWork>,
}

/// Asks a core a user's question about a scenario.
pub fn ask(alloc: Global, core: &Core, user: &Name, scenario: &Name, wanted: Wanted) -> Replied
    ensures { IsAskReply core.now user.now scenario.now wanted result.reply result.walk }
{
    match core.ask(user, scenario, wanted) {
        Ok(job) => begin(alloc, job),
        Err(trouble) => without_walk(trouble),
    }
}

/// Begins the walk of a question, where it is about plans.
fn begin(alloc: Global, job: Job) -> Replied
    requires { IsJob job.wanted job.cells }
    ensures { IsWalkReply job result.reply result.walk }
{
    let point = job.point;
    if !wants_plan(&job.wanted) {
        return Replied {
            reply: CoreReply::Job(point),
            walk: None,
        };
    }
    match Walk::prepare(alloc, job) {
        Ok(walk) => {
            let lent = Solved::none(alloc);
            Replied {
                reply: CoreReply::Job(point),
                walk: Some(InWork { walk, lent }),
            }
        }
        Err(trouble) => without_walk(trouble),
    }
}

/// Whether a question is about plans.
fn wants_plan(wanted: &Wanted) -> bool
    ensures { result ≡ is_about_plans wanted.now }
{
    !matches!(wanted, Wanted::Cell(_))
}

/// Why there is no walk.
fn without_walk(trouble: Trouble) -> Replied
    ensures reply { result.reply ≡ trouble_reply trouble }
    ensures walk { result.walk ≡ None }
{
    Replied {
        reply: reply_of(trouble),
        walk: None,
    }
}

/// The reply where a call of a core has this trouble.
pub fn reply_of(trouble: Trouble) -> CoreReply
    ensures { result ≡ trouble_reply trouble }
{
    match trouble {
        Trouble::Refused(point, refusal) => CoreReply::Refused(point, refusal),
        Trouble::Memory => CoreReply::Memory,
    }
}
