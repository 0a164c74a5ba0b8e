//! Rounds of walks.
ghost use Rattle.std.specs.Prelude.{◌≡◌, IfOk, OnOk, OnErr};
ghost use Rattle.walk_rules.specs.Cells.{Stands};
ghost use Rattle.plan_walk.specs.Walk.{IsOpen, IsSolved, EndsSettled};
ghost use Rattle.plan_core.specs.State.{meaning_of};
ghost use Rattle.plan_core.specs.Rounds.{HasRound, IsCutShort};

use crate::kept::Core;
use plan_walk::{Round, Solved, Walk};
use std::alloc::AllocError;

impl Core {
    /// A round of a walk: makes what was netted known and puts it into the memo, and then takes all hits from it. Where there is no memory
    /// for it, the walk can only be dropped.
    pub fn round(&mut self, walk: &mut Walk, solved: Solved) -> Result<Round, AllocError>
        requires open { IsOpen walk.old }
        requires solved { IsSolved walk.old solved }
        requires stands { Stands (meaning_of self.old) walk.old.job.cells }
        ensures ok { IfOk result (HasRound self.old self.new walk.old walk.new solved) }
        ensures err { OnErr result (IsCutShort self.old self.new) }
        ensures ends { IfOk result (EndsSettled walk.new) }
        ensures open { OnOk result (IsOpen walk.new) }
        ensures job { walk.new.job ≡ walk.old.job }
    {
        let (round, work) = walk.settle(&mut self.memo, solved)?;
        self.count(work);
        Ok(round)
    }
}
