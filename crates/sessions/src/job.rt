//! Answers to questions from their jobs.
ghost use Rattle.std.specs.Prelude.{◌≡◌, true, Err, IfOk, IfErr};
ghost use Rattle.command_words.specs.Spelling.{is_sound_command};
ghost use Rattle.walk_rules.specs.Cells.{records};
ghost use Rattle.plan_jobs.specs.Jobs.{IsJob};
ghost use Rattle.plan_answer.specs.Asks.{question, asks_for_plan};
ghost use Rattle.plan_answer.specs.Planned.{wants_of};
ghost use Rattle.plan_answer.specs.Replies.{reply_of};
ghost use Rattle.plan_office.specs.declared.fault.OfficeFault.TheVariants as office;
ghost use Rattle.sessions.specs.Sights.{StandsAt, Looks};
ghost use Rattle.sessions.specs.Answered.{IsJobFor, IsJobReply, TellsTrouble};

use crate::reach::Reach;
use crate::walking::walk_to_end;
use command_words::{Command, Reply};
use plan_answer::{Ask, ask_of, from_plan, from_records, uses_plan};
use plan_jobs::Job;
use plan_office::OfficeFault;
use plan_walk::{Trouble, Walk};
use std::alloc::Global;

/// The answer to the question that a command is, from its job, whose plans the book's memo helps to know. Its point is the job's.
pub fn answer_job<T: Reach>(
    alloc: Global,
    reach: &T,
    state: &mut T::State,
    job: Job,
    command: &Command<'_>,
) -> Result<Reply, OfficeFault>
    requires ready { T.ready reach.now state.old }
    requires sound { is_sound_command command.now ≡ true }
    requires job { IsJob job.wanted job.cells }
    requires asks { IsJobFor command.now job }
    requires stands { StandsAt (T.sight reach.now state.old) job.cells }
    ensures ready { T.ready reach.now state.new }
    ensures looks { Looks (T.sight reach.now state.old) (T.sight reach.now state.new) }
    ensures reply { IfOk result (IsJobReply job command.now) }
    ensures worn { result ≡ Err office.Worn → T.worn reach.now state.new }
{
    let Some(ask) = ask_of(alloc, command)? else {
        unreachable!()
    };
    if uses_plan(&ask) {
        answer_by_walk(alloc, reach, state, job, &ask)
    } else {
        Ok(from_records(alloc, &job, &ask)?)
    }
}

/// The answer to a question that asks for plans: all that it asks for are made known, and then it is answered from them; or the plan is
/// refused.
fn answer_by_walk<T: Reach>(
    alloc: Global,
    reach: &T,
    state: &mut T::State,
    job: Job,
    ask: &Ask,
) -> Result<Reply, OfficeFault>
    requires ready { T.ready reach.now state.old }
    requires job { IsJob job.wanted job.cells }
    requires wants { job.wanted ≡ wants_of (question ask.now) }
    requires uses { asks_for_plan (question ask.now) ≡ true }
    requires stands { StandsAt (T.sight reach.now state.old) job.cells }
    ensures ready { T.ready reach.now state.new }
    ensures looks { Looks (T.sight reach.now state.old) (T.sight reach.now state.new) }
    ensures reply { IfOk result
        (λ reply. reply ≡ reply_of job.point (records job.cells) (question ask.now)) }
    ensures worn { result ≡ Err office.Worn → T.worn reach.now state.new }
{
    match Walk::prepare(alloc, job) {
        Ok(mut walk) => {
            walk_to_end(alloc, reach, state, &mut walk)?;
            Ok(from_plan(alloc, &walk, ask)?)
        }
        Err(trouble) => answer_unwalked(trouble),
    }
}

/// The answer where a job has no walk.
fn answer_unwalked(trouble: Trouble) -> Result<Reply, OfficeFault>
    ensures reply { IfOk result (TellsTrouble trouble) }
    ensures err { IfErr result (λ fault. fault ≡ office.Memory) }
{
    match trouble {
        Trouble::Refused(point, refusal) => Ok(Reply::No(point, refusal)),
        Trouble::Memory => Err(OfficeFault::Memory),
    }
}
