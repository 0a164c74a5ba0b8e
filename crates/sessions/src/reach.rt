//! How a session reaches its book.
ghost use Rattle.std.specs.Prelude.{◌≡◌, ◌≤◌, true, length, Err, IfOk, IfErr, OnOk, OnErr};
ghost use Rattle.plan_schema.specs.declared.limits.TheConstants.{LINE_LIMIT};
ghost use Rattle.plan_schema.specs.Sound.{is_sound_change};
ghost use Rattle.plan_walk.specs.Walk.{IsOpen, IsSolved, EndsSettled};
ghost use Rattle.plan_office.specs.declared.fault.OfficeFault.TheVariants as office;
ghost use Rattle.sessions.specs.Sights.{Sight, known, StandsAt, Looks, IsMade, IsAskedAt, IsUnaskedAt, IsTreeAt};
ghost use Rattle.sessions.specs.Sights.{IsRound, entry_at};

use command_words::Lines;
use plan_jobs::{Job, Wanted};
use plan_office::OfficeFault;
use plan_schema::{Change, Name};
use plan_walk::{Round, Solved, Walk};

/// How a session reaches its book: the book is its own, or it takes a turn for each call.
///
/// What changes is one state, which each call is lent. A contract speaks of what is seen of the book at a state; others may enter
/// something between two calls, but not where the book is the session's own.
pub trait Reach {
    /// What the calls work on.
    type State;

    /// What no call changes of it, beside what the book began with and the session's number.
    type Rest;

    /// At which states calls may be made. Each call keeps this.
    ghost ready: { Self → Self.State → Type 0 };

    /// What is seen of the book.
    ghost sight: { Self → Self.State → Sight Self.Rest };

    /// What keeps the entries failed between two states.
    ghost failed: { Self → Self.State → Self.State → Type 0 };

    /// The tickets are used up.
    ghost worn: { Self → Self.State → Type 0 };

    /// Enters a change, unless it is refused. Answers its number.
    fn change(
        &self,
        state: &mut Self::State,
        line: u64,
        user: &Name,
        change: Change,
    ) -> Result<u64, OfficeFault>
        requires ready { ready self.now state.old }
        requires sound { is_sound_change change ≡ true }
        requires line { 1 ≤ line }
        requires most_lines { line ≤ LINE_LIMIT }
        ensures ready { ready self.now state.new }
        ensures made { IsMade (sight self.now) (failed self.now) (worn self.now) state.old state.new
            (entry_at (sight self.now state.old) line user.now change) result };

    /// The job of a question about a scenario.
    fn ask(
        &self,
        state: &mut Self::State,
        user: &Name,
        scenario: &Name,
        wanted: Wanted,
    ) -> Result<Job, OfficeFault>
        requires { ready self.now state.old }
        ensures ready { ready self.now state.new }
        ensures looks { Looks (sight self.now state.old) (sight self.now state.new) }
        ensures ok { IfOk result
            (IsAskedAt (sight self.now state.new) user.now scenario.now wanted) }
        ensures err { IfErr result
            (IsUnaskedAt (sight self.now state.new) user.now scenario.now) }
        ensures worn { result ≡ Err office.Worn → worn self.now state.new };

    /// The scenarios that a user may use, with the number of entries.
    fn tree(&self, state: &mut Self::State, user: &Name) -> Result<(u64, Lines), OfficeFault>
        requires { ready self.now state.old }
        ensures ready { ready self.now state.new }
        ensures looks { Looks (sight self.now state.old) (sight self.now state.new) }
        ensures ok { IfOk result (IsTreeAt (sight self.now state.new) user.now) }
        ensures worn { result ≡ Err office.Worn → worn self.now state.new };

    /// A round of a walk, whose cells stand at the history that is known.
    fn round(
        &self,
        state: &mut Self::State,
        walk: &mut Walk,
        solved: Solved,
    ) -> Result<Round, OfficeFault>
        requires ready { ready self.now state.old }
        requires open { IsOpen walk.old }
        requires solved { IsSolved walk.old solved }
        requires stands { StandsAt (sight self.now state.old) walk.old.job.cells }
        ensures ready { ready self.now state.new }
        ensures looks { Looks (sight self.now state.old) (sight self.now state.new) }
        ensures ok { IfOk result (IsRound walk.old walk.new solved) }
        ensures ends { IfOk result (EndsSettled walk.new) }
        ensures open { OnOk result (IsOpen walk.new) }
        ensures job { walk.new.job ≡ walk.old.job }
        ensures stands { StandsAt (sight self.now state.new) walk.new.job.cells }
        ensures worn { result ≡ Err office.Worn → worn self.now state.new };

    /// Gives back the versions that no scenario uses. Answers the number of entries.
    fn reclaim(&self, state: &mut Self::State) -> Result<u64, OfficeFault>
        requires { ready self.now state.old }
        ensures ready { ready self.now state.new }
        ensures looks { Looks (sight self.now state.old) (sight self.now state.new) }
        ensures ok { IfOk result
            (λ point. point ≡ length (known (sight self.now state.new))) }
        ensures worn { result ≡ Err office.Worn → worn self.now state.new };

    /// How many entries there are.
    fn point(&self, state: &mut Self::State) -> Result<u64, OfficeFault>
        requires { ready self.now state.old }
        ensures ready { ready self.now state.new }
        ensures looks { Looks (sight self.now state.old) (sight self.now state.new) }
        ensures ok { IfOk result
            (λ point. point ≡ length (known (sight self.now state.new))) }
        ensures err { OnErr result (worn self.now state.new) };
}
