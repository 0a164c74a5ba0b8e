//! Single steps of a core.
ghost use Rattle.std.specs.Prelude.{◌≡◌, true, IfOk, OnErr};
ghost use Rattle.plan_schema.specs.Sound.{is_sound_entry};
ghost use Rattle.core_runs.specs.Machine.{walk_at};
ghost use Rattle.core_runs.specs.Replies.{IsChangeReply, IsRoundReply, IsTreeReply, IsReclaimReply};
ghost use Rattle.core_runs.specs.Runs.{is_sound_step, IsInWork, AreInWork, IsSolveStep, IsRoundStep, IsStep};

use crate::asking::{Replied, ask, reply_of};
use crate::in_work::{InWork, put_walk, take_walk};
use crate::solving::net;
use crate::step::{CoreReply, CoreStep};
use plan_core::Core;
use plan_schema::{Entry, Name};
use plan_walk::{Round, Solved};
use std::alloc::{AllocError, Global};

/// Takes a step of a core. Where there is no memory for the list of walks, the core is as before.
pub fn take_step(
    alloc: Global,
    core: &mut Core,
    walks: &mut Vec<Option<InWork>>,
    step: &CoreStep,
) -> Result<CoreReply, AllocError>
    requires sound { is_sound_step step.now ≡ true }
    requires walks { AreInWork core.old walks.old.items }
    ensures ok { IfOk result
        (λ reply. IsStep (record { core = core.old; walks = walks.old.items }) step.now reply
        (record { core = core.new; walks = walks.new.items })) }
    ensures err { OnErr result (core.new ≡ core.old) }
{
    match step {
        CoreStep::Change(entry) => Ok(change(core, entry)),
        CoreStep::Ask {
            user,
            scenario,
            wanted,
        } => {
            let asked = ask(alloc, core, user, scenario, *wanted);
            walks.push(asked.walk)?;
            Ok(asked.reply)
        }
        CoreStep::Solve(number) => Ok(solve_walk(alloc, core, walks, *number)),
        CoreStep::Round(number) => Ok(round_walk(alloc, core, walks, *number)),
        CoreStep::Tree(user) => Ok(tree(core, user)),
        CoreStep::Point => Ok(CoreReply::Point(core.point())),
        CoreStep::Reclaim => Ok(reclaim(core)),
    }
}

/// Enters a change. Where there is no memory for its copy, it is refused if it would be.
fn change(core: &mut Core, entry: &Entry) -> CoreReply
    requires { is_sound_entry entry.now ≡ true }
    ensures { IsChangeReply core.old core.new entry.now result }
{
    match entry.copy() {
        Ok(entry) => match core.change(entry) {
            Ok(point) => CoreReply::Point(point),
            Err(trouble) => reply_of(trouble),
        },
        Err(_) => match core.refusal(&entry.user, &entry.change) {
            Some(refusal) => CoreReply::Refused(core.point(), refusal),
            None => CoreReply::Memory,
        },
    }
}

/// Nets the frontier of the walk of a question.
fn solve_walk(alloc: Global, core: &Core, walks: &mut Vec<Option<InWork>>, number: u32) -> CoreReply
    requires { AreInWork core.now walks.old.items }
    ensures { IsSolveStep number (walk_at walks.old.items number) walks.old.items walks.new.items
        result }
{
    let _core = core;
    let Some(mut work) = take_walk(walks, number) else {
        return CoreReply::Idle;
    };
    let reply = net(alloc, &mut work);
    put_walk(walks, number, Some(work));
    reply
}

/// Makes a round of the walk of a question.
fn round_walk(
    alloc: Global,
    core: &mut Core,
    walks: &mut Vec<Option<InWork>>,
    number: u32,
) -> CoreReply
    requires { AreInWork core.old walks.old.items }
    ensures { IsRoundStep number (walk_at walks.old.items number)
        (record { core = core.old; walks = walks.old.items })
        (record { core = core.new; walks = walks.new.items }) result }
{
    let Some(work) = take_walk(walks, number) else {
        return CoreReply::Idle;
    };
    let made = round(alloc, core, work);
    put_walk(walks, number, made.walk);
    made.reply
}

/// Makes a round of a walk in work.
fn round(alloc: Global, core: &mut Core, work: InWork) -> Replied
    requires { IsInWork core.old work }
    ensures { IsRoundReply core.old core.new work result.reply result.walk }
{
    let InWork { mut walk, lent } = work;
    match core.round(&mut walk, lent) {
        Ok(Round::Done) => Replied {
            reply: CoreReply::Round(Round::Done),
            walk: None,
        },
        Ok(Round::More) => {
            let lent = Solved::none(alloc);
            Replied {
                reply: CoreReply::Round(Round::More),
                walk: Some(InWork { walk, lent }),
            }
        }
        Err(_) => {
            core.holds();
            Replied {
                reply: CoreReply::Memory,
                walk: None,
            }
        }
    }
}

/// Lists the scenarios that a user may use.
fn tree(core: &Core, user: &Name) -> CoreReply
    ensures { IsTreeReply core.now user.now result }
{
    match core.tree(user) {
        Ok((point, lines)) => CoreReply::Lines(point, lines),
        Err(_) => CoreReply::Memory,
    }
}

/// Gives back what no scenario uses.
fn reclaim(core: &mut Core) -> CoreReply
    ensures { IsReclaimReply core.old core.new result }
{
    match core.reclaim() {
        Ok(point) => CoreReply::Point(point),
        Err(_) => CoreReply::Memory,
    }
}
