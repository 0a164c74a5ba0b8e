//! Runs of a core.
ghost use Rattle.std.specs.Prelude.{◌≡◌, true, IfOk, OnErr};
ghost use Rattle.std.specs.List.{list_all};
ghost use Rattle.core_runs.specs.Runs.{is_sound_step, IsLegalRun, HasRunFirst};

use crate::step::{CoreReplies, CoreSteps};
use crate::stepping::take_step;
use plan_core::Core;
use plan_schema::Series;
use std::alloc::{AllocError, Global};

/// Takes steps one after another, each where the one before it left the core. Where there is no memory for the lists of walks and
/// replies, some first steps are taken.
pub fn core_run(
    alloc: Global,
    core: &mut Core,
    steps: &CoreSteps,
) -> Result<CoreReplies, AllocError>
    requires { list_all is_sound_step steps.now ≡ true }
    ensures ok { IfOk result (λ replies. IsLegalRun core.old steps.now replies core.new) }
    ensures err { OnErr result (HasRunFirst core.old steps.now core.new) }
{
    let mut walks = Vec::new(alloc);
    let mut replies = Series::new(alloc);
    for step in steps.as_slice() {
        let reply = take_step(alloc, core, &mut walks, step)?;
        replies.add(reply)?;
    }
    Ok(replies)
}
