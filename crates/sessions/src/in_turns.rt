//! A session that takes a turn at the book for each call.
ghost use Rattle.std.specs.Prelude.{◌≡◌, ◌<◌, true};
ghost use Rattle.turn_table.specs.Passes.{is_worn};
ghost use Rattle.sessions.specs.InTurns.{IsReady, sight_of};

use crate::reach::Reach;
use command_words::Lines;
use plan_book::PlanBook;
use plan_jobs::{Job, Wanted};
use plan_office::{Office, OfficeFault, Pass};
use plan_schema::{Change, Name};
use plan_walk::{Round, Solved, Walk};
use std::sync::Wait;

/// Reaches a book at an office, with a pass that each call is lent.
#[derive(Drop)]
pub struct InTurns<'a, B: PlanBook, R> {
    pub rt: &'a R,
    pub office: &'a Office<B>,
}

impl<'a, B: PlanBook, R: Wait> Reach for InTurns<'a, B, R> {
    type State = Pass<B>;

    type Rest = Pass<B>;

    ghost ready = { λ at pass. IsReady at.office.now pass };

    ghost sight = { λ at pass. sight_of pass };

    ghost failed = { λ at old new. old.faults < new.faults };

    ghost worn = { λ at pass. is_worn pass ≡ true };

    fn change(
        &self,
        pass: &mut Pass<B>,
        line: u64,
        user: &Name,
        change: Change,
    ) -> Result<u64, OfficeFault> {
        user.holds();
        self.office.change(self.rt, pass, line, user, change)
    }

    fn ask(
        &self,
        pass: &mut Pass<B>,
        user: &Name,
        scenario: &Name,
        wanted: Wanted,
    ) -> Result<Job, OfficeFault> {
        self.office.ask(self.rt, pass, user, scenario, wanted)
    }

    fn tree(&self, pass: &mut Pass<B>, user: &Name) -> Result<(u64, Lines), OfficeFault> {
        self.office.tree(self.rt, pass, user)
    }

    fn round(
        &self,
        pass: &mut Pass<B>,
        walk: &mut Walk,
        solved: Solved,
    ) -> Result<Round, OfficeFault> {
        self.office.round(self.rt, pass, walk, solved)
    }

    fn reclaim(&self, pass: &mut Pass<B>) -> Result<u64, OfficeFault> {
        self.office.reclaim(self.rt, pass)
    }

    fn point(&self, pass: &mut Pass<B>) -> Result<u64, OfficeFault> {
        self.office.point(self.rt, pass)
    }
}
