//! A session whose book is its own.
ghost use Rattle.std.specs.Prelude.{◌≡◌};
ghost use Rattle.plan_schema.specs.Outside.{Rose};
ghost use Rattle.sessions.specs.Alone.{IsNumbered, sight_of};

use crate::reach::Reach;
use crate::terms::Terms;
use command_words::Lines;
use plan_book::PlanBook;
use plan_jobs::{Job, Wanted};
use plan_office::OfficeFault;
use plan_schema::{Change, Name, Refusal};
use plan_walk::{Round, Solved, Walk};
use std::marker::PhantomData;

/// Reaches a book that nobody else changes, and that each call is lent.
#[derive(Drop)]
pub struct Alone<B> {
    terms: Terms,
    book: PhantomData<B>,
}

impl<B> Alone<B> {
    pub fn new(terms: Terms) -> Alone<B>
        ensures { result.terms ≡ terms }
    {
        Alone {
            terms,
            book: PhantomData,
        }
    }
}

impl<B: PlanBook> Reach for Alone<B> {
    type State = B;

    type Rest = ();

    ghost ready = { λ alone book. IsNumbered alone.terms };

    ghost sight = { λ alone book. sight_of B.story B.faults B.basis alone.terms book };

    ghost failed = { λ alone old new. Rose (B.faults old) (B.faults new) };

    ghost worn = { λ alone book. ⊥ };

    fn change(
        &self,
        book: &mut B,
        line: u64,
        user: &Name,
        change: Change,
    ) -> Result<u64, OfficeFault> {
        if !self.terms.may_change {
            return Err(OfficeFault::Refused(book.point(), Refusal::ReadOnly));
        }
        user.holds();
        let number = book.change(self.terms.session, line, user, change)?;
        Ok(number)
    }

    fn ask(
        &self,
        book: &mut B,
        user: &Name,
        scenario: &Name,
        wanted: Wanted,
    ) -> Result<Job, OfficeFault> {
        book.holds();
        let job = book.ask(user, scenario, wanted)?;
        Ok(job)
    }

    fn tree(&self, book: &mut B, user: &Name) -> Result<(u64, Lines), OfficeFault> {
        let tree = book.tree(user)?;
        Ok(tree)
    }

    fn round(&self, book: &mut B, walk: &mut Walk, solved: Solved) -> Result<Round, OfficeFault> {
        let round = book.round(walk, solved)?;
        Ok(round)
    }

    fn reclaim(&self, book: &mut B) -> Result<u64, OfficeFault> {
        let point = book.reclaim()?;
        Ok(point)
    }

    fn point(&self, book: &mut B) -> Result<u64, OfficeFault> {
        Ok(book.point())
    }
}
