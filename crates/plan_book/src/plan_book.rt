//! What sessions ask of a book.
ghost use Rattle.std.specs.Prelude.{◌≡◌, true, IfOk, IfErr, OnOk, OnErr};
ghost use Rattle.plan_schema.specs.Sound.{is_sound_entry};
ghost use Rattle.walk_rules.specs.Cells.{Stands};
ghost use Rattle.plan_walk.specs.Walk.{IsOpen, IsSolved, EndsSettled};
ghost use Rattle.plan_core.specs.State.{meaning_of};
ghost use Rattle.plan_core.specs.Holds.{HoldsFor};
ghost use Rattle.plan_core.specs.Rounds.{HasRound, IsCutShort};
ghost use Rattle.plan_core.specs.Reclaims.{IsReclaimed};
ghost use Rattle.plan_book.specs.Books.{Work, state_by, point_by, IsSameStory, entry_for};
ghost use Rattle.plan_core.specs.Asks.{IsAsked};
ghost use Rattle.plan_book.specs.Answers.{HasChanged, HasWorked, IsAskFault, IsTree};

use crate::fault::BookFault;
use crate::ground::Ground;
use command_words::Lines;
use plan_jobs::{Job, Wanted};
use plan_schema::{Change, Entry, Name};
use plan_walk::{Round, Solved, Tally, Walk};
use std::alloc::AllocError;
use turn_table::Storied;

/// A book of accepted changes, with the scenarios after them and a memo. Its history is the entries that it began with, and then its
/// story, whose entries are numbered on from them. Each call is one step, and none of them nets anything.
pub trait PlanBook: Storied<Entry = Entry, Basis = Ground> {
    /// What its memo holds, and how much it did.
    ghost work: { Self → Work };

    /// Enters a change, unless it is refused. Answers its number.
    fn change(
        &mut self,
        session: u64,
        line: u64,
        user: &Name,
        change: Change,
    ) -> Result<u64, BookFault>
        requires sound { is_sound_entry (entry_for session line user.now change) ≡ true }
        ensures changed { HasChanged Self.story Self.faults Self.basis self.old self.new
            (entry_for session line user.now change) result }
        ensures worked { HasWorked (state_by Self.story Self.basis Self.work self.old)
            (state_by Self.story Self.basis Self.work self.new) result };

    /// The job of a question about a scenario, which holds all that its answer depends on.
    fn ask(&self, user: &Name, scenario: &Name, wanted: Wanted) -> Result<Job, BookFault>
        ensures ok { IfOk result (IsAsked (state_by Self.story Self.basis Self.work self.now)
            user.now scenario.now wanted) }
        ensures err { IfErr result (IsAskFault (state_by Self.story Self.basis Self.work self.now)
            user.now scenario.now) };

    /// The scenarios that a user may use, with the number of entries.
    fn tree(&self, user: &Name) -> Result<(u64, Lines), AllocError>
        ensures { IfOk result
            (IsTree (state_by Self.story Self.basis Self.work self.now) user.now) };

    /// A round of a walk: makes what was netted known and puts it into the memo, and then takes all hits from it.
    fn round(&mut self, walk: &mut Walk, solved: Solved) -> Result<Round, AllocError>
        requires open { IsOpen walk.old }
        requires solved { IsSolved walk.old solved }
        requires stands { Stands (meaning_of (state_by Self.story Self.basis Self.work self.old))
            walk.old.job.cells }
        ensures told { IsSameStory Self.story Self.faults Self.basis self.old self.new }
        ensures ok { IfOk result (HasRound (state_by Self.story Self.basis Self.work self.old)
            (state_by Self.story Self.basis Self.work self.new) walk.old walk.new solved) }
        ensures err { OnErr result (IsCutShort (state_by Self.story Self.basis Self.work self.old)
            (state_by Self.story Self.basis Self.work self.new)) }
        ensures ends { IfOk result (EndsSettled walk.new) }
        ensures open { OnOk result (IsOpen walk.new) }
        ensures job { walk.new.job ≡ walk.old.job };

    /// Gives back the versions that no scenario uses, and what of the memo stands on them. Answers the number of entries.
    fn reclaim(&mut self) -> Result<u64, AllocError>
        ensures told { IsSameStory Self.story Self.faults Self.basis self.old self.new }
        ensures point { IfOk result
            (λ point. point ≡ point_by Self.story Self.basis self.old) }
        ensures ok { OnOk result (IsReclaimed (state_by Self.story Self.basis Self.work self.old)
            (state_by Self.story Self.basis Self.work self.new)) }
        ensures err { OnErr result (Self.work self.new ≡ Self.work self.old) };

    /// How many entries there are.
    fn point(&self) -> u64
        ensures { result ≡ point_by Self.story Self.basis self.now };

    /// Tells a caller what holds of each book: its history is legal, and its memo is right.
    fn holds(&self)
        ensures { HoldsFor (state_by Self.story Self.basis Self.work self.now) };

    /// How much was netted, reused and dropped.
    fn tally(&self) -> Tally
        ensures { result ≡ (Self.work self.now).tally };
}
