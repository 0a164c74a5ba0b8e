//! A replay: a session behind the entries of a journal, which may change nothing.
ghost use Rattle.std.specs.Prelude.{◌≡◌, ◌++◌, true, List, ℕ, Some, Ok};
ghost use Rattle.plan_schema.specs.Base.{is_base};
ghost use Rattle.plan_import.specs.BaseFile.{base_of};
ghost use Rattle.plan_journal.specs.Laws.{IsJournal};
ghost use Rattle.plan_journal.specs.Reading.{journal_read};
ghost use Rattle.response_program.specs.Names.{pair_of};
ghost use Rattle.response_program.specs.Outcomes.{outcome_of};
ghost use Rattle.response_program.specs.Replayed as spec;
ghost use Rattle.response_program.specs.Replayed.{replay_of, AreOfReplay, HasShown};
ghost use Rattle.response_program.specs.Replayed.{HasReplayedFiles, HasReplayed};
ghost use Rattle.response_program.specs.Views.{view};

use crate::console::{CONSOLE, tell_ending};
use crate::desk::{OpenDesk, close_desk, open_desk};
use crate::ending::{BadJournal, Ending, Totals};
use crate::files::Pair;
use crate::history::{History, read_history};
use byte_lines::Shelf;
use plan_book::{Book, PlanBook};
use plan_core::BehindFault;
use plan_journal::Journal;
use plan_schema::Contents;
use program_words::{MEMO_DEFAULT, Word};
use sessions::serve_alone;
use std::alloc::Global;

/// The words of `replay`: the names of its files.
#[derive(Drop)]
pub struct Replaying<'a> {
    pub base: Word<'a>,
    pub journal: Word<'a>,
    pub input: Word<'a>,
    pub output: Word<'a>,
}

/// The names of a replay's files.
#[derive(Clone, Copy)]
pub struct ReplayFiles<'a> {
    pub base: &'a str,
    pub journal: &'a str,
    pub pair: Pair<'a>,
}

impl<'a> ReplayFiles<'a> {
    /// The names that a command line gives.
    pub fn of(words: &Replaying<'a>) -> ReplayFiles<'a>
        ensures { replay_of result ≡ spec.replay_names words.now.base words.now.journal
            words.now.input words.now.output }
    {
        ReplayFiles {
            base: words.base.as_str(),
            journal: words.journal.as_str(),
            pair: Pair {
                input: words.input.as_str(),
                output: words.output.as_str(),
            },
        }
    }
}

/// A replay, with the console told how it ended.
pub fn replay_told<H: Shelf>(alloc: Global, files: &ReplayFiles<'_>, shelf: &mut H) -> u8
    requires { AreOfReplay (replay_of files.now) }
    ensures { HasReplayed (view H.held H.open_faults H.read_faults H.write_faults shelf.old)
        (view H.held H.open_faults H.read_faults H.write_faults shelf.new) (replay_of files.now)
        result }
{
    let console = match shelf.make_out(CONSOLE) {
        Ok(console) => console,
        Err(fault) => return Ending::of_open(CONSOLE, fault).status(),
    };
    let ending = replay(alloc, files, shelf);
    tell_ending(ending, console, shelf)
}

/// Reads the base and the journal, and serves a session behind the journal's entries.
fn replay<'a, H: Shelf>(alloc: Global, files: &ReplayFiles<'a>, shelf: &mut H) -> Ending<'a>
    requires { AreOfReplay (replay_of files.now) }
    ensures { HasReplayedFiles (view H.held H.open_faults H.read_faults H.write_faults shelf.old)
        (view H.held H.open_faults H.read_faults H.write_faults shelf.new) (replay_of files.now)
        (outcome_of result) }
{
    match read_history(alloc, files.base, files.journal, shelf) {
        Ok(History { contents, journal }) => {
            replay_behind(alloc, files, contents, &journal, shelf)
        }
        Err(ending) => ending,
    }
}

/// Applies the entries of a journal, and serves a session behind them.
fn replay_behind<'a, H: Shelf>(
    alloc: Global,
    files: &ReplayFiles<'a>,
    contents: Contents,
    journal: &Journal,
    shelf: &mut H,
) -> Ending<'a>
    requires files { AreOfReplay (replay_of files.now) }
    requires base { is_base contents ≡ true }
    requires journal { IsJournal journal.now.entries }
    ensures { ((base : List ℕ) → H.held shelf.old files.now.base.now ≡ Some base
        → base_of base ≡ Ok contents)
        → ((text : List ℕ) → H.held shelf.old files.now.journal.now ≡ Some text
        → journal_read text ≡ Ok journal.now.entries)
        → HasReplayedFiles (view H.held H.open_faults H.read_faults H.write_faults shelf.old)
        (view H.held H.open_faults H.read_faults H.write_faults shelf.new) (replay_of files.now)
        (outcome_of result) }
{
    match Book::behind(alloc, contents, MEMO_DEFAULT, journal) {
        Ok(book) => {
            book.holds();
            show(alloc, &files.pair, book, shelf)
        }
        Err(BehindFault::Refused(before, _)) => Ending::Journal(BadJournal::Refused(before + 1)),
        Err(BehindFault::Memory) => Ending::Memory,
    }
}

/// Serves a session that may change nothing behind the entries of a book, with the files of a pair, and gives these back.
fn show<'a, H: Shelf>(alloc: Global, pair: &Pair<'a>, book: Book, shelf: &mut H) -> Ending<'a>
    ensures { HasShown (view H.held H.open_faults H.read_faults H.write_faults shelf.old)
        (view H.held H.open_faults H.read_faults H.write_faults shelf.new) (pair_of pair.now)
        book.base (book.earlier ++ book.entries) (outcome_of result) }
{
    let mut desk = match open_desk(pair, shelf) {
        Ok(desk) => desk.into_desk(),
        Err(ending) => return ending,
    };
    let mut book = book;
    let entries = book.point();
    let served = serve_alone(alloc, &mut book, 1, false, &mut desk.source, &mut desk.sink);
    close_desk(OpenDesk::named(*pair, desk), shelf);
    let work = Some(book.tally());
    let totals = Totals { entries, work };
    Ending::of_sessions(Ending::of_stop(pair, 1, served), totals)
}
