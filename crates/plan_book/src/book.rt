//! A book in memory.
ghost use Rattle.std.specs.Prelude.{◌≡◌, ◌≤◌, true, [], IfOk, IfErr};
ghost use Rattle.std.specs.List.{list_all};
ghost use Rattle.plan_schema.specs.Sound.{is_sound_entry};
ghost use Rattle.scenario_rules.specs.Refused.{refused};
ghost use Rattle.scenario_rules.specs.Whole.{AreWholeContents, AreWithinLimits};
ghost use Rattle.plan_core.specs.State.{begin_state, history};
ghost use Rattle.plan_core.specs.Behind.{HasEntered, IsNoCore};
ghost use Rattle.plan_book.specs.Faults.{book_answer};

use crate::fault::BookFault;
use crate::ground::Ground;
use crate::plan_book::PlanBook;
use command_words::Lines;
use plan_core::{BehindFault, Core};
use plan_jobs::{Job, Wanted};
use plan_journal::Journal;
use plan_schema::{Change, Contents, Entry, Name, Refusal};
use plan_walk::{Round, Solved, Tally, Trouble, Walk};
use std::alloc::{AllocError, Global};
use std::marker::Model;
use turn_table::Storied;

/// A book that keeps its entries in memory. Nothing fails in it but for want of memory.
#[derive(Drop)]
pub struct Book {
    core: Core,
}

impl Model for Book {
    ghost use Rattle.plan_core.specs.State.{State};

    ghost Value = { State };

    ghost view = { λ book. book.core };
}

impl Book {
    /// A book with these records as the root's and no entries, and an empty memo for so many pairs.
    pub fn begin(alloc: Global, contents: Contents, most: u32) -> Result<Book, AllocError>
        requires whole { AreWholeContents contents }
        requires limits { AreWithinLimits contents }
        requires some { 1 ≤ most }
        requires few { most ≤ 65_536 }
        ensures { IfOk result (λ book. book ≡ begin_state contents most) }
    {
        let core = Core::begin(alloc, contents, most)?;
        Ok(Book { core })
    }

    /// A book with these records as the root's behind the entries of an earlier journal, and an empty memo for so many pairs. Where one
    /// of the entries is refused, it answers how many stand before the first such entry, and why that is refused.
    pub fn behind(
        alloc: Global,
        contents: Contents,
        most: u32,
        earlier: &Journal,
    ) -> Result<Book, BehindFault>
        requires whole { AreWholeContents contents }
        requires limits { AreWithinLimits contents }
        requires some { 1 ≤ most }
        requires few { most ≤ 65_536 }
        requires sound { list_all is_sound_entry earlier.now.entries ≡ true }
        ensures ok { IfOk result (HasEntered contents most earlier.now.entries []) }
        ensures err { IfErr result (IsNoCore contents earlier.now.entries) }
    {
        let core = Core::behind(alloc, contents, most, earlier)?;
        Ok(Book { core })
    }

    /// Why a change of a user would be refused: the first of the rules that applies. Enters nothing, and takes no memory.
    pub fn refusal(&self, user: &Name, change: &Change) -> Option<Refusal>
        ensures { result ≡ refused self.now.base (history self.now) user.now change.now }
    {
        self.core.refusal(user, change)
    }

    /// The entries that were made since the book began.
    pub fn journal(&self) -> &Journal
        ensures { result.now.entries ≡ self.now.entries }
    {
        self.core.journal()
    }
}

impl Storied for Book {
    ghost use Rattle.plan_book.specs.Books.{story_of};

    type Entry = Entry;

    type Basis = Ground;

    ghost story = { λ book. story_of book.entries };

    ghost faults = { λ _. 0 };

    ghost basis = { λ book. record { base = book.base; earlier = book.earlier } };

    fn story_len(&self) -> u64 {
        self.core.journal().len() as u64
    }
}

impl PlanBook for Book {
    ghost work = { λ book. record { pairs = book.pairs; most = book.most; tally = book.tally } };

    fn change(
        &mut self,
        session: u64,
        line: u64,
        user: &Name,
        change: Change,
    ) -> Result<u64, BookFault> {
        let user = *user;
        answer_of(
            self.core.change(Entry {
                session,
                line,
                user,
                change,
            }),
        )
    }

    fn ask(&self, user: &Name, scenario: &Name, wanted: Wanted) -> Result<Job, BookFault> {
        let job = self.core.ask(user, scenario, wanted)?;
        Ok(job)
    }

    fn tree(&self, user: &Name) -> Result<(u64, Lines), AllocError> {
        self.core.tree(user)
    }

    fn round(&mut self, walk: &mut Walk, solved: Solved) -> Result<Round, AllocError> {
        self.core.round(walk, solved)
    }

    fn reclaim(&mut self) -> Result<u64, AllocError> {
        self.core.reclaim()
    }

    fn point(&self) -> u64 {
        self.core.point()
    }

    fn tally(&self) -> Tally {
        self.core.tally()
    }

    fn holds(&self) {
        self.core.holds();
    }
}

/// What a book answers to a change where its core answers so.
fn answer_of(answer: Result<u64, Trouble>) -> Result<u64, BookFault>
    ensures { result ≡ book_answer answer }
{
    match answer {
        Ok(number) => Ok(number),
        Err(trouble) => Err(BookFault::from(trouble)),
    }
}
