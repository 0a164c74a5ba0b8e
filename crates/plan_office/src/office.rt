//! The office: passes are split off, joined and let meet, and each call of a session takes one turn at the book.
ghost use Rattle.std.specs.Prelude.{◌≡◌, ◌+◌, ◌≤◌, ◌<◌, ◌^◌, true, [], Some, IfOk, IfErr, OnOk, OnErr};
ghost use Rattle.plan_schema.specs.Sound.{is_sound_entry};
ghost use Rattle.turn_table.specs.Story.{Begins};
ghost use Rattle.turn_table.specs.Passes.{IsFree, IsWhole, HasOwn, HadTickets, GoesOn, MayCount, first_pass};
ghost use Rattle.turn_table.specs.Passes.{new_pass, after_split, joined_pass, met_pass, given_pass};
ghost use Rattle.plan_walk.specs.Walk.{IsOpen, IsSolved, EndsSettled};
ghost use Rattle.plan_core.specs.Holds.{HoldsFor};
ghost use Rattle.plan_book.specs.Books.{entry_for, state_by};
ghost use Rattle.plan_office.specs.Turns.{IsCall, IsBookOf, StandsFor, has_failed, from_book};
ghost use Rattle.plan_office.specs.Calls.{Changes, Asks, TellsTree, MakesRound, Reclaims, TellsPoint};

use crate::fault::{OfficeFault, for_memory, from_book, has_failed};
use command_words::Lines;
use plan_book::{BookFault, PlanBook};
use plan_jobs::{Job, Wanted};
use plan_schema::{Change, Name};
use plan_walk::{Round, Solved, Walk};
use std::alloc::Global;
use std::marker::Model;
use std::sync::Wait;
use turn_table::{Held, Turn, TurnFault, Worn};

/// A session's right to take turns at a book, and what it knows of the book's story.
pub type Pass<B> = turn_table::Pass<B>;

/// A book that sessions share. Each call of a session takes one turn: the book is taken, called once and given back, and other passes wait
/// meanwhile. A contract sees an office as which turn it is.
#[derive(Drop)]
pub struct Office<B: PlanBook> {
    turn: Turn<B>,
}

impl<B: PlanBook> Model for Office<B> {
    ghost use Rattle.turn_table.specs.Passes.{TurnId};

    ghost Value = { TurnId };

    ghost view = { λ office. office.turn };
}

impl<B: PlanBook> Office<B> {
    /// Shares a book without entries of its own. The tickets count from `first`, and those below 2^62 are served.
    pub fn begin(alloc: Global, book: B, first: u64) -> Result<(Office<B>, Pass<B>), TurnFault<B>>
        requires blank { B.story book ≡ [] }
        requires low { first ≤ 2 ^ 62 }
        ensures pass { IfOk result (λ p. p.1
            ≡ first_pass p.0 first (B.faults book) (B.basis book)) }
        ensures back { IfErr result (λ f. f.value ≡ book) }
    {
        let (turn, pass) = Turn::begin(alloc, book, first)?;
        Ok((Office { turn }, pass))
    }

    /// Splits off a pass with the next number. Only the first pass is split.
    pub fn split(&self, pass: &mut Pass<B>) -> Pass<B>
        requires free { IsFree self.now pass.old }
        requires first { pass.old.number ≡ 0 }
        requires few { pass.old.splits < 2 ^ 62 }
        ensures new { result ≡ new_pass pass.old }
        ensures same { pass.new ≡ after_split pass.old }
        ensures own { HasOwn result }
    {
        self.turn.split(pass)
    }

    /// Joins another pass into this one, and ends it.
    pub fn join(&self, pass: &mut Pass<B>, other: Pass<B>)
        requires free { IsFree self.now pass.old × IsFree self.now other }
        ensures pass { pass.new ≡ joined_pass pass.old other }
        ensures had { HadTickets pass.new }
        ensures seen { Begins pass.old.seen pass.new.seen × Begins other.seen pass.new.seen }
        ensures own { HasOwn pass.new }
    {
        self.turn.join(pass, other);
    }

    /// Lets each of two passes see what the other has seen.
    pub fn meet(&self, one: &mut Pass<B>, two: &mut Pass<B>)
        requires free { IsFree self.now one.old × IsFree self.now two.old }
        ensures one { one.new ≡ met_pass one.old two.old }
        ensures two { two.new ≡ met_pass two.old one.old }
        ensures same { one.new.seen ≡ two.new.seen }
        ensures seen { Begins one.old.seen one.new.seen × Begins two.old.seen one.new.seen }
        ensures own { HasOwn one.new × HasOwn two.new }
    {
        self.turn.meet(one, two);
    }

    /// Enters a change under the number of the pass, unless it is refused. Answers the number of its entry.
    pub fn change<R: Wait>(
        &self,
        rt: &R,
        pass: &mut Pass<B>,
        line: u64,
        user: &Name,
        change: Change,
    ) -> Result<u64, OfficeFault>
        requires free { IsFree self.now pass.old }
        requires sound { is_sound_entry (entry_for pass.old.number line user.now change) ≡ true }
        ensures free { IsFree self.now pass.new }
        ensures call { IsCall B.story B.faults B.basis B.work pass.old pass.new
            (Changes B.story B.faults B.basis B.work
            (entry_for pass.old.number line user.now change)) result }
    {
        let mut held = self.turn.take(rt, pass)?;
        let number = pass.number();
        let answer = held.value.change(number, line, user, change);
        self.give_back(pass, held, answer)
    }

    /// The job of a question about a scenario.
    pub fn ask<R: Wait>(
        &self,
        rt: &R,
        pass: &mut Pass<B>,
        user: &Name,
        scenario: &Name,
        wanted: Wanted,
    ) -> Result<Job, OfficeFault>
        requires free { IsFree self.now pass.old }
        ensures free { IsFree self.now pass.new }
        ensures call { IsCall B.story B.faults B.basis B.work pass.old pass.new
            (Asks B.story B.faults B.basis B.work user.now scenario.now wanted) result }
    {
        let held = self.turn.take(rt, pass)?;
        let answer = held.value.ask(user, scenario, wanted);
        self.give_back(pass, held, answer)
    }

    /// The scenarios that a user may use, with the number of entries.
    pub fn tree<R: Wait>(
        &self,
        rt: &R,
        pass: &mut Pass<B>,
        user: &Name,
    ) -> Result<(u64, Lines), OfficeFault>
        requires free { IsFree self.now pass.old }
        ensures free { IsFree self.now pass.new }
        ensures call { IsCall B.story B.faults B.basis B.work pass.old pass.new
            (TellsTree B.story B.faults B.basis B.work user.now) result }
    {
        let held = self.turn.take(rt, pass)?;
        let answer = for_memory(held.value.tree(user));
        self.give_back(pass, held, answer)
    }

    /// A round of a walk, whose cells stand at the history that the pass has seen, and go on to.
    pub fn round<R: Wait>(
        &self,
        rt: &R,
        pass: &mut Pass<B>,
        walk: &mut Walk,
        solved: Solved,
    ) -> Result<Round, OfficeFault>
        requires free { IsFree self.now pass.old }
        requires open { IsOpen walk.old }
        requires solved { IsSolved walk.old solved }
        requires stands { StandsFor pass.old walk.old.job.cells }
        ensures free { IsFree self.now pass.new }
        ensures call { IsCall B.story B.faults B.basis B.work pass.old pass.new
            (MakesRound B.story B.faults B.basis B.work walk.old walk.new solved) result }
        ensures ends { IfOk result (EndsSettled walk.new) }
        ensures open { OnOk result (IsOpen walk.new) }
        ensures job { walk.new.job ≡ walk.old.job }
        ensures stands { StandsFor pass.new walk.new.job.cells }
    {
        let mut held = self.turn.take(rt, pass)?;
        let answer = for_memory(held.value.round(walk, solved));
        self.give_back(pass, held, answer)
    }

    /// Gives back the versions that no scenario uses, and what of the memo stands on them. Answers the number of entries.
    pub fn reclaim<R: Wait>(&self, rt: &R, pass: &mut Pass<B>) -> Result<u64, OfficeFault>
        requires free { IsFree self.now pass.old }
        ensures free { IsFree self.now pass.new }
        ensures call { IsCall B.story B.faults B.basis B.work pass.old pass.new
            (Reclaims B.story B.faults B.basis B.work) result }
    {
        let mut held = self.turn.take(rt, pass)?;
        let answer = for_memory(held.value.reclaim());
        self.give_back(pass, held, answer)
    }

    /// How many entries there are.
    pub fn point<R: Wait>(&self, rt: &R, pass: &mut Pass<B>) -> Result<u64, OfficeFault>
        requires free { IsFree self.now pass.old }
        ensures free { IsFree self.now pass.new }
        ensures call { IsCall B.story B.faults B.basis B.work pass.old pass.new
            (TellsPoint B.story B.faults B.basis B.work) result }
    {
        let held = self.turn.take(rt, pass)?;
        let point = held.value.point();
        self.give_back(pass, held, Ok(point))
    }

    /// Ends the turn of a call: gives the book back, as failed exactly where it answered so.
    fn give_back<T>(
        &self,
        pass: &mut Pass<B>,
        held: Held<B>,
        answer: Result<T, BookFault>,
    ) -> Result<T, OfficeFault>
        requires turn { pass.old.turn ≡ self.now }
        requires story { GoesOn pass.old (B.story held.value) }
        requires faults { MayCount pass.old (B.faults held.value) (has_failed answer) }
        requires basis { pass.old.basis ≡ Some (B.basis held.value) }
        ensures pass { pass.new ≡ given_pass pass.old (B.story held.value) (has_failed answer) }
        ensures own { HasOwn pass.new }
        ensures holds { HoldsFor (state_by B.story B.basis B.work held.value) }
        ensures answer { result ≡ from_book answer }
    {
        held.value.holds();
        let failed = has_failed(&answer);
        self.turn.give(pass, held, failed);
        from_book(answer)
    }
}

impl<B: PlanBook + Drop> Office<B> {
    /// Hands the book out for good, once all other passes were joined into this one.
    pub fn finish<R: Wait>(self, rt: &R, pass: Pass<B>) -> Result<B, Worn>
        requires free { IsFree self pass }
        requires whole { IsWhole pass }
        ensures ok { IfOk result
            (λ book. IsBookOf pass (B.basis book) (B.story book) (B.faults book)) }
        ensures worn { OnErr result (2 ^ 62 ≤ pass.first + pass.draws) }
    {
        let mut pass = pass;
        let held = self.turn.take(rt, &mut pass)?;
        Ok(held.keep())
    }
}
