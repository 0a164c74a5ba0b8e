//! What the words ask for, and a run: sessions over a base, one after the other or in rounds side by side.
ghost use Rattle.std.specs.Prelude.{◌≡◌, ◌≤◌, [], OnErr, IfOk, IfErr, None, Some, true, ℕ, List, map, length};
ghost use Rattle.std.specs.Prelude.{option_map, string_bytes};
ghost use Rattle.plan_schema.specs.Base.{is_base};
ghost use Rattle.plan_schema.specs.declared.change.Entry.{Entry};
ghost use Rattle.response_program.specs.Views.{view};
ghost use Rattle.response_program.specs.Outcomes.{outcome_of};
ghost use Rattle.program_words.specs.declared.program.RunWords.{RunWords as Run};
ghost use Rattle.program_words.specs.declared.rounds.TheConstants.{PAIR_LIMIT};
ghost use Rattle.program_words.specs.Rounds.{pair_of, rounds_in};
ghost use Rattle.program_words.specs.Words.{program_of};
ghost use Rattle.response_program.specs.Names.{Pair, Differ, files_of, names_of, names_to_audit};
ghost use Rattle.response_program.specs.Audited.{HasAudited};
ghost use Rattle.response_program.specs.Desks.{HasServedAll, HasServedNone};
ghost use Rattle.response_program.specs.InRounds.{HasServedRounds, HasServedRun};
ghost use Rattle.response_program.specs.Runs.{HasRun, HasRunBook, HasRunOver, AreTotals};
ghost use Rattle.response_program.specs.Words.{served};
ghost use Rattle.program_words.specs.declared.program.Program.TheVariants as program;
ghost use Rattle.program_words.specs.declared.program.Still.TheVariants as still;
ghost use Rattle.response_program.specs.Making.{HasMade};
ghost use Rattle.response_program.specs.Replayed.{HasReplayed, replay_names};
ghost use Rattle.response_program.specs.Tried.{HasTried};
ghost use Rattle.response_program.specs.Responses.{HasResponded, HasRefused};

use crate::asked::Asked;
use crate::audit::audit_told;
use crate::console::{CONSOLE, tell_ending};
use crate::desks::{close_desks, open_all, serve_desks};
use crate::ending::{Ending, Totals};
use crate::files::RunFiles;
use crate::in_rounds::{Ran, serve_in_rounds};
use crate::making::make_told;
use crate::replay::{ReplayFiles, replay_told};
use crate::trial::trial_told;
use byte_lines::{Shelf, ShelfFault, SinkFault, write_all};
use plan_book::{Book, PlanBook};
use plan_import::import;
use plan_journal::write_journal;
use plan_schema::Contents;
use program_words::{PlacedPair, WordFault, read_words};
use std::alloc::Global;
use std::sync::Wait;
use std::thread::Threads;

/// The status of words that aren't the program's.
const WORDS: u8 = 2;

/// The status of want of memory, and of turns that are used up, which would take 2^62 of them.
const NO_MEMORY: u8 = 1;

/// Does what the words ask for with the files of a shelf, tells the console how it ended, and answers the status: 0 where all ended,
/// 1 for want of memory, 2 where the words aren't the program's, 3 where the base is refused, 4, 5 and 6 where a file couldn't be
/// opened, read and written, 7 where the input passed its limit, and 9 where a journal can't be replayed or a run isn't legal.
/// Sessions of a round wait for each other's turns.
pub fn response<H: Shelf, R: Threads + Wait + Sync>(
    rt: &R,
    alloc: Global,
    words: &[String],
    shelf: &mut H,
) -> u8
where
    H::In: Send + Drop,
    H::Out: Send + Drop,
    ensures run { (run : Run)
        → program_of (map string_bytes words.now) ≡ Some (program.Run run)
        → HasResponded (view H.held H.open_faults H.read_faults H.write_faults shelf.old)
        (view H.held H.open_faults H.read_faults H.write_faults shelf.new) (names_of run) result }
    ensures audit { (base journal : List ℕ) (rounds : List (List Pair))
        → program_of (map string_bytes words.now)
        ≡ Some (program.Still (still.Audit base journal rounds))
        → HasAudited (view H.held H.open_faults H.read_faults H.write_faults shelf.old)
        (view H.held H.open_faults H.read_faults H.write_faults shelf.new)
        (names_to_audit base journal rounds) result }
    ensures make { (parts start : ℕ) (base input : List ℕ)
        → program_of (map string_bytes words.now)
        ≡ Some (program.Still (still.Make parts start base input))
        → HasMade (view H.held H.open_faults H.read_faults H.write_faults shelf.old)
        (view H.held H.open_faults H.read_faults H.write_faults shelf.new) parts start base input
        result }
    ensures replay { (base journal input output : List ℕ)
        → program_of (map string_bytes words.now)
        ≡ Some (program.Still (still.Replay base journal input output))
        → HasReplayed (view H.held H.open_faults H.read_faults H.write_faults shelf.old)
        (view H.held H.open_faults H.read_faults H.write_faults shelf.new)
        (replay_names base journal input output) result }
    ensures trial { (parts start : ℕ) → program_of (map string_bytes words.now)
        ≡ Some (program.Still (still.Trial parts start))
        → HasTried (view H.held H.open_faults H.read_faults H.write_faults shelf.old)
        (view H.held H.open_faults H.read_faults H.write_faults shelf.new) parts start result }
    ensures words { served (program_of (map string_bytes words.now)) ≡ None
        → HasRefused (view H.held H.open_faults H.read_faults H.write_faults shelf.old)
        (view H.held H.open_faults H.read_faults H.write_faults shelf.new) result }
{
    match read_words(alloc, words) {
        Ok(program) => match Asked::of(program) {
            Some(Asked::Run(run)) => run_told(rt, alloc, run.memo, &RunFiles::of(&run), shelf),
            Some(Asked::Audit(words)) => audit_told(alloc, &RunFiles::to_audit(&words), shelf),
            Some(Asked::Make(making)) => make_told(&making, shelf),
            Some(Asked::Replay(replaying)) => {
                replay_told(alloc, &ReplayFiles::of(&replaying), shelf)
            }
            Some(Asked::Trial(parts, start)) => trial_told(alloc, parts, start, shelf),
            None => refuse(shelf),
        },
        Err(WordFault::Words) => refuse(shelf),
        Err(WordFault::Memory) => NO_MEMORY,
    }
}

/// Tells the console that the words aren't the program's.
fn refuse<H: Shelf>(shelf: &mut H) -> u8
    ensures { HasRefused (view H.held H.open_faults H.read_faults H.write_faults shelf.old)
        (view H.held H.open_faults H.read_faults H.write_faults shelf.new) result }
{
    let mut console = match shelf.make_out(CONSOLE) {
        Ok(console) => console,
        Err(ShelfFault::Memory) => return NO_MEMORY,
        Err(ShelfFault::Failed) => return WORDS,
    };
    let told = write_all(&mut console, b"words\n");
    shelf.give_out(CONSOLE, console);
    match told {
        Err(SinkFault::Memory) => NO_MEMORY,
        Ok(()) | Err(SinkFault::Failed) => WORDS,
    }
}

/// A run, with the console told how it ended.
fn run_told<H: Shelf, R: Threads + Wait + Sync>(
    rt: &R,
    alloc: Global,
    memo: u32,
    names: &RunFiles<'_, '_>,
    shelf: &mut H,
) -> u8
where
    H::In: Send + Drop,
    H::Out: Send + Drop,
    requires memo { 1 ≤ memo }
    requires most { memo ≤ 65536 }
    requires pairs { length (files_of names.now).pairs ≤ PAIR_LIMIT }
    requires differ { Differ (files_of names.now) }
    ensures { HasResponded (view H.held H.open_faults H.read_faults H.write_faults shelf.old)
        (view H.held H.open_faults H.read_faults H.write_faults shelf.new) (files_of names.now)
        result }
{
    let console = match shelf.make_out(CONSOLE) {
        Ok(console) => console,
        Err(fault) => return Ending::of_open(CONSOLE, fault).status(),
    };
    let ending = run(rt, alloc, memo, names, shelf);
    tell_ending(ending, console, shelf)
}

/// Reads the base, and runs over it.
fn run<'a, H: Shelf, R: Threads + Wait + Sync>(
    rt: &R,
    alloc: Global,
    memo: u32,
    names: &RunFiles<'_, 'a>,
    shelf: &mut H,
) -> Ending<'a>
where
    H::In: Send + Drop,
    H::Out: Send + Drop,
    requires memo { 1 ≤ memo }
    requires most { memo ≤ 65536 }
    requires pairs { length (files_of names.now).pairs ≤ PAIR_LIMIT }
    requires differ { Differ (files_of names.now) }
    ensures { HasRun (view H.held H.open_faults H.read_faults H.write_faults shelf.old)
        (view H.held H.open_faults H.read_faults H.write_faults shelf.new) (files_of names.now)
        (outcome_of result) }
{
    let mut source = match shelf.open_in(names.base) {
        Ok(source) => source,
        Err(fault) => return Ending::of_open(names.base, fault),
    };
    let imported = import(alloc, &mut source);
    shelf.give_in(names.base, source);
    match imported {
        Ok(contents) => run_book(rt, alloc, memo, names, contents, shelf),
        Err(fault) => Ending::of_import(names.base, fault),
    }
}

/// Begins a book with the records of the base, and runs over it.
fn run_book<'a, H: Shelf, R: Threads + Wait + Sync>(
    rt: &R,
    alloc: Global,
    memo: u32,
    names: &RunFiles<'_, 'a>,
    contents: Contents,
    shelf: &mut H,
) -> Ending<'a>
where
    H::In: Send + Drop,
    H::Out: Send + Drop,
    requires base { is_base contents ≡ true }
    requires memo { 1 ≤ memo }
    requires most { memo ≤ 65536 }
    requires pairs { length (files_of names.now).pairs ≤ PAIR_LIMIT }
    requires differ { Differ (files_of names.now) }
    ensures { HasRunBook (view H.held H.open_faults H.read_faults H.write_faults shelf.old)
        (view H.held H.open_faults H.read_faults H.write_faults shelf.new) (files_of names.now)
        contents (outcome_of result) }
{
    match Book::begin(alloc, contents, memo) {
        Ok(book) => run_over(rt, alloc, names, book, shelf),
        Err(_) => Ending::Memory,
    }
}

/// Makes the journal, serves the sessions, and writes the entries, whatever the sessions came to. Where there is no book to write, since
/// the sessions couldn't begin, the journal stays empty.
fn run_over<'a, H: Shelf, R: Threads + Wait + Sync>(
    rt: &R,
    alloc: Global,
    names: &RunFiles<'_, 'a>,
    book: Book,
    shelf: &mut H,
) -> Ending<'a>
where
    H::In: Send + Drop,
    H::Out: Send + Drop,
    requires first { book.earlier ≡ [] }
    requires empty { book.entries ≡ [] }
    requires pairs { length (files_of names.now).pairs ≤ PAIR_LIMIT }
    requires differ { Differ (files_of names.now) }
    ensures { (entries : List Entry)
        × HasRunOver (view H.held H.open_faults H.read_faults H.write_faults shelf.old)
        (view H.held H.open_faults H.read_faults H.write_faults shelf.new) (files_of names.now)
        book.base entries (outcome_of result) }
{
    let mut journal = match shelf.make_out(names.journal) {
        Ok(journal) => journal,
        Err(fault) => return Ending::of_open(names.journal, fault),
    };
    match serve_sessions(rt, alloc, names, book, shelf) {
        Err(ending) => {
            shelf.give_out(names.journal, journal);
            ending
        }
        Ok(ran) => {
            ran.book.holds();
            let written = write_journal(ran.book.journal(), &mut journal);
            shelf.give_out(names.journal, journal);
            let totals = totals_of(names, &ran.book);
            Ending::of_sessions(ran.stop, totals).and_written(names.journal, written)
        }
    }
}

/// What a run over a book came to. What was netted, reused and dropped is told where sessions came one after the other.
fn totals_of(names: &RunFiles<'_, '_>, book: &Book) -> Totals
    ensures { AreTotals (files_of names.now) book.now.entries result }
{
    Totals {
        entries: book.journal().len() as u64,
        work: if names.rounds.have_one_pair_each() {
            Some(book.tally())
        } else {
            None
        },
    }
}

/// Serves the sessions of a run: one after the other where each round has one, and else in rounds.
fn serve_sessions<'a, H: Shelf, R: Threads + Wait + Sync>(
    rt: &R,
    alloc: Global,
    names: &RunFiles<'_, 'a>,
    book: Book,
    shelf: &mut H,
) -> Result<Ran<'a>, Ending<'a>>
where
    H::In: Send + Drop,
    H::Out: Send + Drop,
    requires first { book.earlier ≡ [] }
    requires empty { book.entries ≡ [] }
    requires pairs { length (files_of names.now).pairs ≤ PAIR_LIMIT }
    requires differ { Differ (files_of names.now) }
    ensures base { IfOk result (λ ran. ran.book.base ≡ book.base) }
    ensures first { IfOk result (λ ran. ran.book.earlier ≡ []) }
    ensures ok { IfOk result (λ ran. HasServedRun book.base
        (view H.held H.open_faults H.read_faults H.write_faults shelf.old)
        (view H.held H.open_faults H.read_faults H.write_faults shelf.new)
        (files_of names.now) ran.book.entries (option_map outcome_of ran.stop)) }
    ensures err { IfErr result (λ ending.
        HasServedNone (view H.held H.open_faults H.read_faults H.write_faults shelf.old)
        (view H.held H.open_faults H.read_faults H.write_faults shelf.new)
        (files_of names.now).pairs (outcome_of ending)) }
{
    let pairs = names.rounds.pairs();
    if names.rounds.have_one_pair_each() {
        run_in_order(alloc, pairs, book, shelf)
    } else {
        run_in_rounds(rt, alloc, pairs, book, shelf)
    }
}

/// Opens the files of all pairs, serves their sessions in rounds, and gives the files back. It may wait.
fn run_in_rounds<'a, H: Shelf, R: Threads + Wait + Sync>(
    rt: &R,
    alloc: Global,
    pairs: &[PlacedPair<'a>],
    book: Book,
    shelf: &mut H,
) -> Result<Ran<'a>, Ending<'a>>
where
    H::In: Send + Drop,
    H::Out: Send + Drop,
    requires first { book.earlier ≡ [] }
    requires empty { book.entries ≡ [] }
    requires pairs { length pairs.now ≤ PAIR_LIMIT }
    ensures base { IfOk result (λ ran. ran.book.base ≡ book.base) }
    ensures first { IfOk result (λ ran. ran.book.earlier ≡ []) }
    ensures ok { IfOk result (λ ran. HasServedRounds book.base
        (view H.held H.open_faults H.read_faults H.write_faults shelf.old)
        (view H.held H.open_faults H.read_faults H.write_faults shelf.new)
        (map pair_of pairs.now) (map length (rounds_in pairs.now)) ran.book.entries
        (option_map outcome_of ran.stop)) }
    ensures err { IfErr result (λ ending.
        HasServedNone (view H.held H.open_faults H.read_faults H.write_faults shelf.old)
        (view H.held H.open_faults H.read_faults H.write_faults shelf.new)
        (map pair_of pairs.now) (outcome_of ending)) }
{
    let mut waiting = open_all(alloc, pairs, shelf)?;
    let ran = serve_in_rounds(rt, alloc, pairs, book, &mut waiting);
    close_desks(&mut waiting, shelf);
    waiting.destroy_empty();
    ran
}

/// Opens the files of all pairs, serves their sessions one after the other, and gives the files back.
fn run_in_order<'a, H: Shelf>(
    alloc: Global,
    pairs: &[PlacedPair<'a>],
    book: Book,
    shelf: &mut H,
) -> Result<Ran<'a>, Ending<'a>>
    requires first { book.earlier ≡ [] }
    requires empty { book.entries ≡ [] }
    requires pairs { length pairs.now ≤ PAIR_LIMIT }
    ensures base { IfOk result (λ ran. ran.book.base ≡ book.base) }
    ensures first { IfOk result (λ ran. ran.book.earlier ≡ []) }
    ensures ok { IfOk result (λ ran. HasServedAll book.base
        (view H.held H.open_faults H.read_faults H.write_faults shelf.old)
        (view H.held H.open_faults H.read_faults H.write_faults shelf.new)
        (map pair_of pairs.now) ran.book.entries (option_map outcome_of ran.stop)) }
    ensures err { IfErr result (λ ending.
        HasServedNone (view H.held H.open_faults H.read_faults H.write_faults shelf.old)
        (view H.held H.open_faults H.read_faults H.write_faults shelf.new)
        (map pair_of pairs.now) (outcome_of ending)) }
{
    let mut waiting = open_all(alloc, pairs, shelf)?;
    let mut book = book;
    let stop = serve_desks(alloc, 1, &mut book, &mut waiting, shelf);
    waiting.destroy_empty();
    Ok(Ran { book, stop })
}
