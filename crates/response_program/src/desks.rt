//! The desks of a run: opened in order, served one after the other, and closed.
ghost use Rattle.std.specs.Prelude.{◌≡◌, ◌≤◌, ◌+◌, ◌-◌, ◌++◌, ◌∷◌, [], map, length, option_map};
ghost use Rattle.std.specs.Prelude.{List, OnOk, IfOk, IfErr};
ghost use Rattle.std.specs.VecDeque.{deque_len, deque_capacity};
ghost use Rattle.program_words.specs.Rounds.{pair_of};
ghost use Rattle.response_program.specs.Outcomes.{outcome_of};
ghost use Rattle.response_program.specs.Views.{view};
ghost use Rattle.response_program.specs.Desks.{DeskView, Opens, StopsOpening, AreGivenBack};
ghost use Rattle.response_program.specs.Desks.{IsOneServed, AreDone, HasServedNone};

use crate::desk::{OpenDesk, close_desk, open_desk, serve_desk};
use crate::ending::Ending;
use crate::files::Pair;
use byte_lines::{Shelf, Sink, Source};
use plan_book::Book;
use program_words::PlacedPair;
use std::alloc::Global;
use std::collections::VecDeque;

/// Opens the files of all pairs, in order. Where that can't be done, those that were opened are given back.
pub fn open_all<'a, H: Shelf>(
    alloc: Global,
    pairs: &[PlacedPair<'a>],
    shelf: &mut H,
) -> Result<VecDeque<OpenDesk<'a, H::In, H::Out>>, Ending<'a>>
    ensures room { IfOk result (λ waiting. length pairs.now ≤ deque_capacity waiting) }
    ensures ok { IfOk result (λ waiting.
        Opens (view H.held H.open_faults H.read_faults H.write_faults shelf.old)
        (map pair_of pairs.now) waiting.items
        (view H.held H.open_faults H.read_faults H.write_faults shelf.new)) }
    ensures err { IfErr result (λ ending.
        HasServedNone (view H.held H.open_faults H.read_faults H.write_faults shelf.old)
        (view H.held H.open_faults H.read_faults H.write_faults shelf.new)
        (map pair_of pairs.now) (outcome_of ending)) }
{
    let Ok(mut waiting) = VecDeque::with_capacity(alloc, pairs.len()) else {
        return Err(Ending::Memory);
    };
    match open_desks(pairs, shelf, &mut waiting) {
        Ok(()) => Ok(waiting),
        Err(ending) => {
            close_desks(&mut waiting, shelf);
            waiting.destroy_empty();
            Err(ending)
        }
    }
}

/// Opens the files of pairs, in order, up to the first that can't be opened. There is room for the desks.
fn open_desks<'a, H: Shelf>(
    pairs: &[PlacedPair<'a>],
    shelf: &mut H,
    waiting: &mut VecDeque<OpenDesk<'a, H::In, H::Out>>,
) -> Result<(), Ending<'a>>
    requires { length pairs.now ≤ deque_capacity waiting.old - deque_len waiting.old }
    ensures ok { OnOk result ((opened : List DeskView)
        × (waiting.new.items ≡ waiting.old.items ++ opened)
        × Opens (view H.held H.open_faults H.read_faults H.write_faults shelf.old)
        (map pair_of pairs.now) opened
        (view H.held H.open_faults H.read_faults H.write_faults shelf.new)) }
    ensures err { IfErr result (λ ending. (opened : List DeskView)
        × (waiting.new.items ≡ waiting.old.items ++ opened)
        × StopsOpening (view H.held H.open_faults H.read_faults H.write_faults shelf.old)
        (map pair_of pairs.now) opened (outcome_of ending)
        (view H.held H.open_faults H.read_faults H.write_faults shelf.new)) }
    ensures room { deque_capacity waiting.old ≤ deque_capacity waiting.new }
{
    match pairs.split_first() {
        None => Ok(()),
        Some((placed, rest)) => match open_desk(&Pair::of(placed), shelf) {
            Ok(desk) => {
                put_desk(desk, waiting);
                open_desks(rest, shelf, waiting)
            }
            Err(ending) => Err(ending),
        },
    }
}

/// Puts a desk behind others, where there is room for it.
fn put_desk<'a, S: Source, K: Sink>(
    desk: OpenDesk<'a, S, K>,
    waiting: &mut VecDeque<OpenDesk<'a, S, K>>,
)
    requires { deque_len waiting.old + 1 ≤ deque_capacity waiting.old }
    ensures items { waiting.new.items ≡ waiting.old.items ++ desk.entry ∷ [] }
    ensures len { deque_len waiting.new ≡ deque_len waiting.old + 1 }
    ensures room { deque_capacity waiting.old ≤ deque_capacity waiting.new }
{
    match waiting.push_back(desk) {
        Ok(()) => (),
        Err(_) => unreachable!(),
    }
}

/// Serves the sessions of desks one after the other, the first with this number, up to the first that doesn't end, and gives back
/// all files. Answers why that one didn't end.
pub fn serve_desks<'a, H: Shelf>(
    alloc: Global,
    session: u64,
    book: &mut Book,
    waiting: &mut VecDeque<OpenDesk<'a, H::In, H::Out>>,
    shelf: &mut H,
) -> Option<Ending<'a>>
    requires some { 1 ≤ session }
    requires most { session + length waiting.old.items ≤ 17 }
    requires first { book.old.earlier ≡ [] }
    ensures base { book.new.base ≡ book.old.base }
    ensures first { book.new.earlier ≡ [] }
    ensures none { deque_len waiting.new ≡ 0 }
    ensures done { AreDone book.old.base session book.old.entries book.new.entries
        waiting.old.items (option_map outcome_of result)
        (view H.held H.open_faults H.read_faults H.write_faults shelf.old)
        (view H.held H.open_faults H.read_faults H.write_faults shelf.new) }
{
    match waiting.pop_front() {
        None => None,
        Some(mut desk) => {
            let stop = serve_one(alloc, session, book, &mut desk);
            close_desk(desk, shelf);
            match stop {
                Some(ending) => {
                    close_desks(waiting, shelf);
                    Some(ending)
                }
                None => serve_desks(alloc, session + 1, book, waiting, shelf),
            }
        }
    }
}

/// Serves the session of a desk, by its number. Answers why it didn't end, where it didn't.
fn serve_one<'a, S: Source, K: Sink>(
    alloc: Global,
    session: u64,
    book: &mut Book,
    desk: &mut OpenDesk<'a, S, K>,
) -> Option<Ending<'a>>
    requires some { 1 ≤ session }
    requires most { session ≤ 16 }
    requires first { book.old.earlier ≡ [] }
    ensures base { book.new.base ≡ book.old.base }
    ensures first { book.new.earlier ≡ [] }
    ensures served { IsOneServed book.old.base session book.old.entries book.new.entries desk.old
        desk.new (option_map outcome_of result) }
{
    let pair = desk.pair();
    let served = serve_desk(alloc, session, book, desk);
    Ending::of_stop(&pair, session, served)
}

/// Gives the files of desks back.
pub fn close_desks<H: Shelf>(waiting: &mut VecDeque<OpenDesk<'_, H::In, H::Out>>, shelf: &mut H)
    ensures none { deque_len waiting.new ≡ 0 }
    ensures given { AreGivenBack
        (view H.held H.open_faults H.read_faults H.write_faults shelf.old) waiting.old.items
        (view H.held H.open_faults H.read_faults H.write_faults shelf.new) }
{
    match waiting.pop_front() {
        None => (),
        Some(desk) => {
            close_desk(desk, shelf);
            close_desks(waiting, shelf);
        }
    }
}
