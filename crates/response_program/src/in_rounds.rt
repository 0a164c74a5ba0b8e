//! Desks in rounds: put there from a queue, served side by side at an office, and taken back.
ghost use Rattle.std.specs.Prelude.{◌≡◌, ◌≤◌, ◌<◌, ◌-◌, ◌++◌, [], None, map, length, option_map};
ghost use Rattle.std.specs.Prelude.{List, IfOk, IfErr, IfSome, OnOk, OnErr};
ghost use Rattle.std.specs.List.{AllByRecursion};
ghost use Rattle.std.specs.VecDeque.{deque_len, deque_capacity};
ghost use Rattle.byte_lines.specs.Desks.{all_desks, desk_count};
ghost use Rattle.program_words.specs.declared.rounds.TheConstants.{PAIR_LIMIT};
ghost use Rattle.program_words.specs.Rounds.{pair_of, rounds_in};
ghost use Rattle.response_program.specs.Names as names;
ghost use Rattle.response_program.specs.Outcomes.{NoMemory, outcome_of, stop_by, stop_in_rounds};
ghost use Rattle.response_program.specs.Outcomes as outcomes;
ghost use Rattle.response_program.specs.Desks.{DeskView};
ghost use Rattle.response_program.specs.InRounds.{AreNamed, begun, put, desks_at, AreLabelled};
ghost use Rattle.response_program.specs.InRounds.{AreFilled, AreServedAt, AreServedInRounds};

use crate::desk::OpenDesk;
use crate::ending::Ending;
use crate::files::Pair;
use byte_lines::{Desk, Rounds, Served, Sink, Source};
use desk_rounds::run_rounds;
use plan_book::Book;
use plan_office::Office;
use program_words::PlacedPair;
use std::alloc::{AllocError, Global};
use std::collections::VecDeque;
use std::sync::Wait;
use std::thread::Threads;

/// The ticket that an office begins with. Those below 2^62 are served, and each call of a session draws one.
const FIRST_TICKET: u64 = 0;

/// What sessions came to: their book, and why the first that didn't end didn't.
#[derive(Drop)]
pub struct Ran<'a> {
    pub book: Book,
    pub stop: Option<Ending<'a>>,
}

/// Serves the sessions of desks in rounds, those of a round side by side at one office. Where there is no memory for it, or no turn is
/// left to take the book out, no session is told of, and desks may have been let go. It may wait.
pub fn serve_in_rounds<
    'a,
    S: Source + Send + Drop,
    K: Sink + Send + Drop,
    R: Threads + Wait + Sync,
>(
    rt: &R,
    alloc: Global,
    pairs: &[PlacedPair<'a>],
    book: Book,
    waiting: &mut VecDeque<OpenDesk<'a, S, K>>,
) -> Result<Ran<'a>, Ending<'a>>
    requires first { book.earlier ≡ [] }
    requires empty { book.entries ≡ [] }
    requires pairs { length pairs.now ≤ PAIR_LIMIT }
    requires named { AreNamed (map pair_of pairs.now) waiting.old.items }
    requires room { length pairs.now ≤ deque_capacity waiting.old }
    ensures base { IfOk result (λ ran. ran.book.base ≡ book.base) }
    ensures first { IfOk result (λ ran. ran.book.earlier ≡ []) }
    ensures served { IfOk result (λ ran. AreServedInRounds book.base
        (map length (rounds_in pairs.now)) ran.book.entries waiting.old.items waiting.new.items
        (option_map outcome_of ran.stop)) }
    ensures memory { IfErr result (λ ending. outcome_of ending ≡ NoMemory) }
    ensures left { OnErr result ((gone : List DeskView)
        × (waiting.old.items ≡ gone ++ waiting.new.items)) }
{
    let mut rounds = Rounds::new(alloc);
    match fill_rounds(pairs, true, waiting, &mut rounds) {
        Ok(()) => serve_filled(rt, alloc, pairs, book, &mut rounds, waiting),
        Err(_) => Err(Ending::Memory),
    }
}

/// Serves desks that stand in rounds, and takes them back into an empty queue with room for them.
fn serve_filled<'a, S: Source + Send, K: Sink + Send, R: Threads + Wait + Sync>(
    rt: &R,
    alloc: Global,
    pairs: &[PlacedPair<'a>],
    book: Book,
    rounds: &mut Rounds<S, K>,
    waiting: &mut VecDeque<OpenDesk<'a, S, K>>,
) -> Result<Ran<'a>, Ending<'a>>
    requires first { book.earlier ≡ [] }
    requires empty { book.entries ≡ [] }
    requires pairs { length pairs.now ≤ PAIR_LIMIT }
    requires shape { map length rounds.old ≡ map length (rounds_in pairs.now) }
    requires unserved { AllByRecursion (λ desk. desk.served ≡ None) (all_desks rounds.old) }
    requires labelled { AreLabelled S.label K.label (map pair_of pairs.now)
        (all_desks rounds.old) }
    requires none { waiting.old.items ≡ [] }
    requires room { length pairs.now ≤ deque_capacity waiting.old - deque_len waiting.old }
    ensures base { IfOk result (λ ran. ran.book.base ≡ book.base) }
    ensures first { IfOk result (λ ran. ran.book.earlier ≡ []) }
    ensures served { IfOk result (λ ran. AreServedInRounds book.base
        (map length (rounds_in pairs.now)) ran.book.entries
        (desks_at S.left S.faults K.taken K.faults (map pair_of pairs.now) (all_desks rounds.old))
        waiting.new.items (option_map outcome_of ran.stop)) }
    ensures memory { IfErr result (λ ending. outcome_of ending ≡ NoMemory) }
    ensures left { OnErr result ((gone : List DeskView)
        × (desks_at S.left S.faults K.taken K.faults (map pair_of pairs.now) (all_desks rounds.old)
        ≡ gone ++ waiting.new.items)) }
{
    match serve_at_office(rt, alloc, book, rounds) {
        Ok(Some(after)) => {
            let stop = take_back(pairs, rounds, waiting);
            Ok(Ran { book: after, stop })
        }
        Ok(None) => Err(Ending::Memory),
        Err(_) => {
            let _ = take_back(pairs, rounds, waiting);
            Err(Ending::Memory)
        }
    }
}

/// Serves desks in rounds at an office that shares the book. Answers the book, and nothing where no turn is left to take it out. Want
/// of memory comes before any input is read.
fn serve_at_office<S: Source + Send, K: Sink + Send, R: Threads + Wait + Sync>(
    rt: &R,
    alloc: Global,
    book: Book,
    rounds: &mut Rounds<S, K>,
) -> Result<Option<Book>, AllocError>
    requires empty { book.entries ≡ [] }
    requires few { desk_count rounds.old ≤ 16 }
    requires unserved { AllByRecursion (λ desk. desk.served ≡ None) (all_desks rounds.old) }
    ensures served { IfOk result (λ found. IfSome found (λ after. AreServedAt S.left S.faults
        S.label K.taken K.faults K.label book after rounds.old rounds.new)) }
    ensures unread { OnErr result (rounds.new ≡ rounds.old) }
{
    match Office::begin(alloc, book, FIRST_TICKET) {
        Err(_) => Err(AllocError),
        Ok((office, pass)) => {
            let mut pass = pass;
            match run_rounds(rt, alloc, &office, &mut pass, rounds) {
                Err(failed) => Err(failed),
                Ok(()) => Ok(office.finish(rt, pass).ok()),
            }
        }
    }
}

/// Puts desks from a queue into rounds, as their pairs say; the first begins a round where that is told. Where there is no memory for
/// it, those that were taken from the queue are let go.
fn fill_rounds<'a, S: Source + Drop, K: Sink + Drop>(
    pairs: &[PlacedPair<'a>],
    begins: bool,
    waiting: &mut VecDeque<OpenDesk<'a, S, K>>,
    rounds: &mut Rounds<S, K>,
) -> Result<(), AllocError>
    requires named { AreNamed (map pair_of pairs.now) waiting.old.items }
    requires some { 0 < length (begun begins rounds.old) }
    ensures ok { OnOk result (AreFilled S.left S.faults S.label K.taken K.faults K.label begins
        rounds.old rounds.new pairs.now (map pair_of pairs.now) waiting.old.items) }
    ensures none { OnOk result (waiting.new.items ≡ []) }
    ensures len { OnOk result (deque_len waiting.new ≡ 0) }
    ensures room { deque_capacity waiting.new ≡ deque_capacity waiting.old }
    ensures err { OnErr result ((gone : List DeskView)
        × (waiting.old.items ≡ gone ++ waiting.new.items)) }
{
    match waiting.pop_front() {
        None => Ok(()),
        Some(desk) => match pairs.split_first() {
            None => Err(AllocError),
            Some((placed, rest)) => match seat_desk(desk.into_desk(), begins, rounds) {
                Ok(()) => fill_rounds(rest, placed.ends_round, waiting, rounds),
                Err(failed) => Err(failed),
            },
        },
    }
}

/// Puts a desk into the last round, which it may begin. Where there is no memory for it, it is let go.
pub fn seat_desk<S: Drop, K: Drop>(
    desk: Desk<S, K>,
    begins: bool,
    rounds: &mut Rounds<S, K>,
) -> Result<(), AllocError>
    requires some { 0 < length (begun begins rounds.old) }
    ensures { OnOk result (rounds.new ≡ put begins rounds.old desk) }
{
    begin_round(begins, rounds)?;
    match rounds.push(desk) {
        Ok(()) => Ok(()),
        Err(_) => Err(AllocError),
    }
}

/// Begins a round, if one begins.
fn begin_round<S, K>(begins: bool, rounds: &mut Rounds<S, K>) -> Result<(), AllocError>
    ensures { OnOk result (rounds.new ≡ begun begins rounds.old) }
{
    if begins { rounds.start() } else { Ok(()) }
}

/// Takes desks back from rounds, the last first, in front of those in a queue that has room for them. Answers why not all of their
/// sessions ended: for want of memory, where one of them met it, and else as the first that didn't end.
fn take_back<'a, S: Source, K: Sink>(
    pairs: &[PlacedPair<'a>],
    rounds: &mut Rounds<S, K>,
    waiting: &mut VecDeque<OpenDesk<'a, S, K>>,
) -> Option<Ending<'a>>
    requires labelled { AreLabelled S.label K.label (map pair_of pairs.now)
        (all_desks rounds.old) }
    requires room { length pairs.now ≤ deque_capacity waiting.old - deque_len waiting.old }
    ensures desks { waiting.new.items ≡ desks_at S.left S.faults K.taken K.faults
        (map pair_of pairs.now) (all_desks rounds.old) ++ waiting.old.items }
    ensures stop { option_map outcome_of result ≡ stop_in_rounds 1 (map pair_of pairs.now)
        (map (λ desk. desk.served) (all_desks rounds.old)) }
{
    match pairs.split_last() {
        None => None,
        Some((placed, rest)) => match rounds.pop() {
            None => None,
            Some(desk) => {
                let pair = Pair::of(placed);
                let stop = stop_at(&pair, pairs.len() as u64, desk.served);
                waiting.push_front_reserved(OpenDesk::named(pair, desk));
                let earlier = take_back(rest, rounds, waiting);
                first_or_memory(earlier, stop)
            }
        },
    }
}

/// Of two stops the first, but want of memory tops it.
fn first_or_memory<'a>(earlier: Option<Ending<'a>>, later: Option<Ending<'a>>) -> Option<Ending<'a>>
    ensures { option_map outcome_of result ≡ outcomes.first_or_memory
        (option_map outcome_of earlier.entry) (option_map outcome_of later.entry) }
{
    if is_memory(&later) {
        later
    } else {
        earlier.or(later)
    }
}

/// Whether a session stopped for want of memory.
fn is_memory(stop: &Option<Ending<'_>>) -> bool
    ensures { result ≡ outcomes.is_memory (option_map outcome_of stop.now) }
{
    match stop {
        Some(Ending::Memory) => true,
        _ => false,
    }
}

/// Why a session that was served didn't end, where it didn't.
fn stop_at<'a>(pair: &Pair<'a>, session: u64, served: Option<Served>) -> Option<Ending<'a>>
    ensures { option_map outcome_of result
        ≡ stop_by (names.pair_of pair.now) session served }
{
    match served {
        None => None,
        Some(served) => Ending::of_stop(pair, session, served),
    }
}
