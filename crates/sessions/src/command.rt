//! Replies to commands that change no scenario.
ghost use Rattle.std.specs.Prelude.{◌≡◌, true, Err, IfOk, IfErr, OnErr};
ghost use Rattle.command_words.specs.Spelling.{is_sound_command};
ghost use Rattle.request_loop.specs.declared.answers.Why.TheVariants as whys;
ghost use Rattle.plan_office.specs.declared.fault.OfficeFault.TheVariants as office;
ghost use Rattle.sessions.specs.Sights.{Looks};
ghost use Rattle.sessions.specs.Answered.{IsAnsweredOn, IsExactOn, TellsFault};

use crate::job::answer_job;
use crate::reach::Reach;
use command_words::{Command, Reply};
use plan_answer::wanted;
use plan_office::OfficeFault;
use plan_schema::Name;
use request_loop::Why;
use std::alloc::Global;

/// The reply to a command that is no change. There is always memory for a greeting, the point and the end.
pub fn reply_to_command<T: Reach>(
    alloc: Global,
    reach: &T,
    state: &mut T::State,
    user: &Name,
    command: &Command<'_>,
) -> Result<Reply, Why>
    requires ready { T.ready reach.now state.old }
    requires sound { is_sound_command command.now ≡ true }
    ensures ready { T.ready reach.now state.new }
    ensures looks { Looks (T.sight reach.now state.old) (T.sight reach.now state.new) }
    ensures answered { IfOk result
        (IsAnsweredOn (T.sight reach.now state.old) (T.sight reach.now state.new)
        user.now command.now) }
    ensures err { IfErr result (λ why. why ≡ whys.Worn) }
    ensures worn { OnErr result (T.worn reach.now state.new) }
{
    match command {
        Command::Hello(_) | Command::Point | Command::Quit => match reach.point(state) {
            Ok(point) => Ok(Reply::Ok(point)),
            Err(_) => Err(Why::Worn),
        },
        _ => match answer(alloc, reach, state, user, command) {
            Ok(reply) => Ok(reply),
            Err(OfficeFault::Worn) => Err(Why::Worn),
            Err(_) => Ok(Reply::Mem),
        },
    }
}

/// The answer to a command for which there may be no memory.
pub(crate) fn answer<T: Reach>(
    alloc: Global,
    reach: &T,
    state: &mut T::State,
    user: &Name,
    command: &Command<'_>,
) -> Result<Reply, OfficeFault>
    requires ready { T.ready reach.now state.old }
    requires sound { is_sound_command command.now ≡ true }
    ensures ready { T.ready reach.now state.new }
    ensures looks { Looks (T.sight reach.now state.old) (T.sight reach.now state.new) }
    ensures exact { IfOk result
        (IsExactOn (T.sight reach.now state.old) (T.sight reach.now state.new)
        user.now command.now) }
    ensures worn { result ≡ Err office.Worn → T.worn reach.now state.new }
{
    match command {
        Command::Reclaim => Ok(Reply::Ok(reach.reclaim(state)?)),
        Command::Tree => {
            let (point, lines) = reach.tree(state, user)?;
            Ok(Reply::Rows(point, lines))
        }
        _ => answer_question(alloc, reach, state, user, command),
    }
}

/// The answer to a question about one scenario. A command that asks nothing which is served has none.
fn answer_question<T: Reach>(
    alloc: Global,
    reach: &T,
    state: &mut T::State,
    user: &Name,
    command: &Command<'_>,
) -> Result<Reply, OfficeFault>
    requires ready { T.ready reach.now state.old }
    requires sound { is_sound_command command.now ≡ true }
    ensures ready { T.ready reach.now state.new }
    ensures looks { Looks (T.sight reach.now state.old) (T.sight reach.now state.new) }
    ensures exact { IfOk result
        (IsExactOn (T.sight reach.now state.old) (T.sight reach.now state.new)
        user.now command.now) }
    ensures worn { result ≡ Err office.Worn → T.worn reach.now state.new }
{
    let Some((scenario, want)) = wanted(command) else {
        return Err(OfficeFault::Memory);
    };
    match reach.ask(state, user, &scenario, want) {
        Ok(job) => answer_job(alloc, reach, state, job, command),
        Err(fault) => answer_unasked(fault),
    }
}

/// The answer where a question has no job.
fn answer_unasked(fault: OfficeFault) -> Result<Reply, OfficeFault>
    ensures reply { IfOk result (TellsFault fault) }
    ensures err { IfErr result (λ cause. cause ≡ fault) }
{
    match fault {
        OfficeFault::Refused(point, refusal) => Ok(Reply::No(point, refusal)),
        _ => Err(fault),
    }
}
