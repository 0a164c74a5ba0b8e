//! The steps of a turn, each on the seat of one pass.
ghost use Rattle.std.specs.Prelude.{◌≡◌, ◌+◌, ◌≤◌, ◌<◌, ◌^◌, true, false};
ghost use Rattle.std.specs.Prelude.{cond, [], ◌∷◌, ◌++◌, length, Some, None};
ghost use Rattle.turn_table.specs.Story.{entries_of, Begins, IsAdded};
ghost use Rattle.turn_table.specs.Rule.{fewest, most, is_numbered, is_late, size};
ghost use Rattle.turn_table.specs.Steps.{beginner, starter, with_ticket, at_turn, with_value, with_mark};
ghost use Rattle.turn_table.specs.Steps.{without_value, after_turn, with_spare, left_seat, right_seat, merged};
ghost use Rattle.turn_table.specs.Steps.{IsIdle, IsHolder, MayTake, MayWait, IsRight, IsStoryFor, AreFaultsFor};
ghost use Rattle.turn_table.specs.Steps.{IsTicketFor};

use crate::rule::{
    Compare, Draw, Leave, Look, Mark, Number, Open, PutBack, Seats, Start, TakeOut, TurnRule,
};
use crate::storied::Storied;
use crate::view::View;
use atomic_table::{Seat, Shared};
use std::sync::Wait;

pub(crate) type TurnSeat<T> = Seat<Option<T>, View<<T as Storied>::Entry, <T as Storied>::Basis>>;

pub(crate) type TurnWords<T> = Shared<
    Option<T>,
    View<<T as Storied>::Entry, <T as Storied>::Basis>,
    u64,
    TurnRule<T>,
>;

// The words of the table.
const NUMBERS: usize = 0;

const TICKETS: usize = 1;

const SERVED: usize = 2;

const ENTRIES: usize = 3;

const MARK: usize = 4;

// Puts the first value in.
pub(crate) fn put_first<T: Storied>(table: &TurnWords<T>, seat: &mut TurnSeat<T>, value: T)
    requires table { seat.old.table_id ≡ table.now.table_id }
    requires words { table.now.table_id.words ≡ 5 }
    requires first { seat.old.me ≡ (beginner table.now.key, []) }
    requires blank { T.story value ≡ [] }
    ensures table { seat.new.table_id ≡ seat.old.table_id }
    ensures seat { seat.new.me ≡ (starter table.now.key (T.faults value) (T.basis value), []) }
{
    table.load::<Open>(seat, ENTRIES);
    let before = table.exchange(seat, 0, Some(value));
    let None = before else { unreachable!() };
    table.load::<Start>(seat, ENTRIES);
}

pub(crate) fn draw_ticket<T: Storied>(table: &TurnWords<T>, seat: &mut TurnSeat<T>) -> u64
    requires table { seat.old.table_id ≡ table.now.table_id }
    requires words { table.now.table_id.words ≡ 5 }
    requires numbered { is_numbered seat.old.me.0 ≡ true }
    requires fresh { is_late seat.old.me.0.tickets.highest ≡ false }
    requires idle { IsIdle seat.old.me.0 }
    ensures table { seat.new.table_id ≡ seat.old.table_id }
    ensures seat { seat.new.me ≡ (with_ticket result seat.old.me.0, seat.old.me.1) }
    ensures ticket { IsTicketFor seat.old.me.0 result }
    ensures right { IsRight seat.new.me.0 }
{
    table.fetch_add::<Draw>(seat, TICKETS, 1)
}

// Parks until the ticket is served.
pub(crate) fn wait_turn<T: Storied, R: Wait>(
    rt: &R,
    table: &TurnWords<T>,
    seat: &mut TurnSeat<T>,
    ticket: u64,
)
    requires table { seat.old.table_id ≡ table.now.table_id }
    requires words { table.now.table_id.words ≡ 5 }
    requires numbered { is_numbered seat.old.me.0 ≡ true }
    requires may { MayWait seat.old.me.0 }
    requires ticket { seat.old.me.0.tickets.highest ≡ Some ticket }
    ensures table { seat.new.table_id ≡ seat.old.table_id }
    ensures seat { seat.new.me ≡ (at_turn seat.old.me.0, seat.old.me.1) }
{
    for _ in rt.forever() {
        let served = table.load::<Look>(seat, SERVED);
        if served == ticket {
            return;
        }
        table.park(rt, SERVED, (served & 0xffff_ffff) as u32);
    }
    unreachable!()
}

// Takes the value out, and gives the length of its story.
pub(crate) fn take_value<T: Storied>(table: &TurnWords<T>, seat: &mut TurnSeat<T>) -> (T, u64)
    requires table { seat.old.table_id ≡ table.now.table_id }
    requires words { table.now.table_id.words ≡ 5 }
    requires numbered { is_numbered seat.old.me.0 ≡ true }
    requires may { MayTake seat.old.me.0 }
    requires empty { seat.old.me.1 ≡ [] }
    ensures table { seat.new.table_id ≡ seat.old.table_id }
    ensures seat { seat.new.me
        ≡ (with_value (T.story result.0) (T.faults result.0) seat.old.me.0, (0, None) ∷ []) }
    ensures story { IsStoryFor seat.old.me.0 (T.story result.0) }
    ensures faults { AreFaultsFor seat.old.me.0 (T.faults result.0) }
    ensures basis { seat.old.me.0.holding.basis ≡ Some (T.basis result.0) }
    ensures len { result.1 ≡ length (T.story result.0) }
    ensures right { IsRight seat.new.me.0 }
{
    let entries = table.load::<TakeOut>(seat, ENTRIES);
    match table.exchange(seat, 0, None) {
        Some(value) => (value, entries),
        None => unreachable!(),
    }
}

// Puts the value back, with one more entry or none.
pub(crate) fn put_value<T: Storied>(
    table: &TurnWords<T>,
    seat: &mut TurnSeat<T>,
    number: u64,
    value: T,
    grew: u64,
    failed: bool,
)
    requires table { seat.old.table_id ≡ table.now.table_id }
    requires words { table.now.table_id.words ≡ 5 }
    requires number { seat.old.me.0.numbers.number ≡ Some number }
    requires holder { IsHolder seat.old.me.0 }
    requires slot { seat.old.me.1 ≡ (0, None) ∷ [] }
    requires story { IsAdded number grew seat.old.me.0.reading.seen (T.story value) }
    requires faults { fewest seat.old.me.0.holding.counted (cond failed 1 0) ≤ T.faults value }
    requires basis { seat.old.me.0.holding.basis ≡ Some (T.basis value) }
    requires short { length (T.story value) < 2 ^ 64 }
    ensures table { seat.new.table_id ≡ seat.old.table_id }
    ensures seat { seat.new.me
        ≡ (
          without_value (T.story value) (with_mark (cond failed 1 0) (T.faults value)
              seat.old.me.0),
          [],
        ) }
{
    let before = table.exchange(seat, 0, Some(value));
    let None = before else { unreachable!() };
    table.fetch_or::<Mark>(seat, MARK, u64::from(failed));
    table.fetch_add::<PutBack>(seat, ENTRIES, grew);
}

// Leaves the turn to the next ticket, and wakes those who wait.
pub(crate) fn leave_turn<T: Storied>(table: &TurnWords<T>, seat: &mut TurnSeat<T>)
    requires table { seat.old.table_id ≡ table.now.table_id }
    requires words { table.now.table_id.words ≡ 5 }
    requires numbered { is_numbered seat.old.me.0 ≡ true }
    requires may { MayTake seat.old.me.0 }
    ensures table { seat.new.table_id ≡ seat.old.table_id }
    ensures seat { seat.new.me ≡ (after_turn seat.old.me.0, seat.old.me.1) }
    ensures right { IsRight seat.new.me.0 }
{
    table.fetch_add::<Leave>(seat, SERVED, 1);
    table.wake_all(SERVED);
}

// Draws a number for a new seat, and splits this off.
pub(crate) fn split_off<T: Storied>(
    table: &TurnWords<T>,
    seat: &mut TurnSeat<T>,
) -> (u64, TurnSeat<T>)
    requires table { seat.old.table_id ≡ table.now.table_id }
    requires words { table.now.table_id.words ≡ 5 }
    requires first { seat.old.me.0.numbers.number ≡ Some 0 }
    requires bare { seat.old.me.0.numbers.spare ≡ None }
    requires few { seat.old.me.0.numbers.splits < most }
    ensures table { (seat.new.table_id ≡ seat.old.table_id)
        × (result.1.table_id ≡ seat.old.table_id) }
    ensures number { result.0 ≡ seat.old.me.0.numbers.splits + 1 }
    ensures unused { entries_of result.0 seat.old.me.0.reading.seen ≡ [] }
    ensures seat { seat.new.me ≡ (left_seat (with_spare result.0 seat.old.me.0), seat.old.me.1) }
    ensures other { result.1.me ≡ (right_seat (with_spare result.0 seat.old.me.0), []) }
    ensures size { size seat.old.me.0 ≤ 1 + seat.old.me.0.numbers.splits }
{
    let number = table.fetch_add::<Number>(seat, NUMBERS, 1);
    (number, table.split_seat::<Seats>(seat))
}

// A copy of a seat, without a number.
pub(crate) fn copy_off<T: Storied>(table: &TurnWords<T>, seat: &mut TurnSeat<T>) -> TurnSeat<T>
    requires table { seat.old.table_id ≡ table.now.table_id }
    requires words { table.now.table_id.words ≡ 5 }
    requires numbered { is_numbered seat.old.me.0 ≡ true }
    requires bare { seat.old.me.0.numbers.spare ≡ None }
    ensures table { (seat.new.table_id ≡ seat.old.table_id)
        × (result.table_id ≡ seat.old.table_id) }
    ensures seat { seat.new.me ≡ seat.old.me }
    ensures other { result.me ≡ (right_seat seat.old.me.0, []) }
{
    table.split_seat::<Seats>(seat)
}

// Joins another seat into this one.
pub(crate) fn join_in<T: Storied>(table: &TurnWords<T>, seat: &mut TurnSeat<T>, other: TurnSeat<T>)
    requires table { (seat.old.table_id ≡ table.now.table_id)
        × (other.table_id ≡ table.now.table_id) }
    requires words { table.now.table_id.words ≡ 5 }
    requires numbered { is_numbered seat.old.me.0 ≡ true }
    requires bare { (seat.old.me.0.numbers.spare ≡ None) × (other.me.0.numbers.spare ≡ None) }
    requires idle { IsIdle seat.old.me.0 × IsIdle other.me.0 }
    requires empty { other.me.1 ≡ [] }
    ensures table { seat.new.table_id ≡ seat.old.table_id }
    ensures seat { seat.new.me ≡ (merged seat.old.me.0 other.me.0, seat.old.me.1) }
    ensures seen { Begins seat.old.me.0.reading.seen seat.new.me.0.reading.seen
        × Begins other.me.0.reading.seen seat.new.me.0.reading.seen }
    ensures right { IsRight seat.new.me.0 }
{
    table.join_seat::<Seats>(seat, other);
    table.load::<Compare>(seat, SERVED);
}
