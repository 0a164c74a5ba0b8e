//! A book that is kept on a disk.
ghost use Rattle.std.specs.Prelude.{◌≡◌, true, is_none, IfOk, OnOk, OnErr};
ghost use Rattle.plan_schema.specs.Sound.{is_sound_entry};
ghost use Rattle.walk_rules.specs.Cells.{Stands};
ghost use Rattle.plan_walk.specs.Walk.{IsOpen, IsSolved, EndsSettled};
ghost use Rattle.plan_core.specs.State.{history, meaning_of};
ghost use Rattle.plan_core.specs.Rounds.{HasRound, IsCutShort};
ghost use Rattle.plan_core.specs.Reclaims.{IsReclaimed};
ghost use Rattle.plan_book.specs.Books.{entry_for, point_by, IsSameStory};
ghost use Rattle.plan_book.specs.Answers.{HasChanged, HasWorked};
ghost use Rattle.journal_disk.specs.Images.{IsImageOf, IsSettled, EachImage, EachTold};
ghost use Rattle.kept_book.specs.Kept.{IsImageDuring};

use crate::steps::keep;
use command_words::Lines;
use journal_disk::{Disk, Store};
use plan_book::{Book, BookFault, Ground, PlanBook};
use plan_jobs::{Job, Wanted};
use plan_schema::{Change, Entry, Name};
use plan_walk::{Round, Solved, Tally, Walk};
use std::alloc::{AllocError, Global};
use std::marker::Model;
use turn_table::Storied;

/// A book whose entries are on a disk. A change is answered with its number only when a crash can't lose its entry any more.
#[derive(Drop)]
pub struct KeptBook<D: Disk> {
    book: Book,
    store: Store<D>,
    alloc: Global,
}

impl<D: Disk> Model for KeptBook<D> {
    ghost use Rattle.kept_book.specs.Kept.{Kept, IsKept};

    ghost Value = { Kept D };

    ghost view = { λ kept. record { book = kept.book; store = kept.store } };

    ghost invariant = { λ kept. IsKept D.moment kept.book kept.store };
}

impl<D: Disk> KeptBook<D> {
    ghost use Rattle.journal_disk.specs.Stored.{store_on, disk_of, moment_of, doubt_of, IsImageUpTo};

    /// Keeps a book on a disk that has its whole history, with the place of the closed gate behind it.
    pub fn begin(alloc: Global, book: Book, disk: D, end: u64) -> KeptBook<D>
        requires { IsSettled (D.moment disk) (history book) end }
        ensures book { result.book ≡ book }
        ensures store { result.store ≡ store_on disk end }
    {
        KeptBook {
            book,
            store: Store::begin(disk, end),
            alloc,
        }
    }

    /// Whether the last entry is known to be on the disk: not where opening its gate failed.
    pub fn is_sure(&self) -> bool
        ensures sure { result ≡ is_none (doubt_of self.now.store) }
        ensures whole { result ≡ true → EachImage (moment_of D.moment self.now.store)
            (IsImageOf (history self.now.book)) }
    {
        self.store.is_sure()
    }

    /// The book and the disk. A crash leaves the book's history, or where the last entry isn't sure, maybe the history without that.
    pub fn apart(self) -> (Book, D)
        ensures book { result.0 ≡ self.book }
        ensures disk { result.1 ≡ disk_of self.store }
        ensures images { EachImage (D.moment result.1)
            (IsImageUpTo (history result.0) (doubt_of self.store)) }
    {
        let KeptBook { book, store, .. } = self;
        (book, store.apart())
    }
}

impl<D: Disk> Storied for KeptBook<D> {
    ghost use Rattle.kept_book.specs.Kept.{story_in, ground_in, faults_in};

    type Entry = Entry;

    type Basis = Ground;

    ghost story = { story_in };

    ghost faults = { faults_in D.moment };

    ghost basis = { ground_in };

    fn story_len(&self) -> u64 {
        self.book.story_len()
    }
}

impl<D: Disk> PlanBook for KeptBook<D> {
    ghost use Rattle.journal_disk.specs.Stored.{moment_of, doubt_of};
    ghost use Rattle.kept_book.specs.Kept.{story_in, ground_in, faults_in, work_in, state_in};

    ghost work = { work_in };

    fn change(
        &mut self,
        session: u64,
        line: u64,
        user: &Name,
        change: Change,
    ) -> Result<u64, BookFault>
        requires sound { is_sound_entry (entry_for session line user.now change) ≡ true }
        ensures changed { HasChanged story_in (faults_in D.moment) ground_in self.old
            self.new (entry_for session line user.now change) result }
        ensures worked { HasWorked (state_in self.old) (state_in self.new) result }

        // A crash at any moment leaves the history, with the entry or without it; where the last entry was doubted, maybe without that.
        ensures any_moment { EachTold (moment_of D.moment self.old.store)
            (moment_of D.moment self.new.store)
            (IsImageDuring (history self.old.book) (doubt_of self.old.store)
            (entry_for session line user.now change)) }

        // Once it is answered with its number, a crash leaves the whole history.
        ensures durable { OnOk result (EachImage (moment_of D.moment self.new.store)
            (IsImageOf (history self.new.book))) }
    {
        let user = *user;
        let entry = Entry {
            session,
            line,
            user,
            change,
        };
        keep(self.alloc, &mut self.book, &mut self.store, entry)
    }

    fn ask(&self, user: &Name, scenario: &Name, wanted: Wanted) -> Result<Job, BookFault> {
        self.book.ask(user, scenario, wanted)
    }

    fn tree(&self, user: &Name) -> Result<(u64, Lines), AllocError> {
        self.book.tree(user)
    }

    fn round(&mut self, walk: &mut Walk, solved: Solved) -> Result<Round, AllocError>
        requires open { IsOpen walk.old }
        requires solved { IsSolved walk.old solved }
        requires stands { Stands (meaning_of (state_in self.old)) walk.old.job.cells }
        ensures told { IsSameStory story_in (faults_in D.moment) ground_in self.old self.new }
        ensures ok { IfOk result (HasRound (state_in self.old) (state_in self.new) walk.old
            walk.new solved) }
        ensures err { OnErr result (IsCutShort (state_in self.old) (state_in self.new)) }
        ensures ends { IfOk result (EndsSettled walk.new) }
        ensures open { OnOk result (IsOpen walk.new) }
        ensures job { walk.new.job ≡ walk.old.job }
        ensures store { self.new.store ≡ self.old.store }
    {
        self.book.round(walk, solved)
    }

    fn reclaim(&mut self) -> Result<u64, AllocError>
        ensures told { IsSameStory story_in (faults_in D.moment) ground_in self.old self.new }
        ensures point { IfOk result (λ point. point ≡ point_by story_in ground_in self.old) }
        ensures ok { OnOk result (IsReclaimed (state_in self.old) (state_in self.new)) }
        ensures err { OnErr result (work_in self.new ≡ work_in self.old) }
        ensures store { self.new.store ≡ self.old.store }
    {
        self.book.reclaim()
    }

    fn point(&self) -> u64 {
        self.book.point()
    }

    fn tally(&self) -> Tally {
        self.book.tally()
    }

    fn holds(&self) {
        self.book.holds();
    }
}
