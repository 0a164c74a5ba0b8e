//! The turn: passes are split off, joined and let meet, and a value is taken and given back.
ghost use Rattle.std.specs.Prelude.{◌≡◌, ◌+◌, ◌≤◌, ◌<◌, ◌^◌, true, false, [], Some, None, IfOk, IfErr, OnOk, OnErr};
ghost use Rattle.turn_table.specs.Story.{entries_of, Begins};
ghost use Rattle.turn_table.specs.Rule.{is_late};
ghost use Rattle.turn_table.specs.Steps.{higher};
ghost use Rattle.turn_table.specs.Passes.{IsFree, is_worn, HasOwn, first_pass, new_pass, after_split, joined_pass};
ghost use Rattle.turn_table.specs.Passes.{met_pass, given_pass, DrawsOne, HadTickets, IsStoryOf, AreFaultsOf};
ghost use Rattle.turn_table.specs.Passes.{GoesOn, MayCount};

use crate::pass::{Held, Pass, TurnFault, Worn};
use crate::rule::TurnRule;
use crate::steps::{
    copy_off, draw_ticket, join_in, leave_turn, put_first, put_value, split_off, take_value,
    wait_turn,
};
use crate::storied::Storied;
use crate::view::View;
use atomic_table::Table;
use std::alloc::Global;
use std::marker::Model;
use std::sync::Wait;

// The number of tickets that are served.
const SERVED_TICKETS: u64 = 1 << 62;

/// A value that one pass holds at a time, in the order of tickets.
///
/// A contract sees it as which turn it is, and each call asks that its passes are of this turn. From
/// [`Turn::take`] to [`Turn::give`] no other call is made with the same pass.
#[derive(Drop)]
pub struct Turn<T: Storied> {
    table: Table<Option<T>, View<T::Entry, T::Basis>, u64, TurnRule<T>, Global>,
}

impl<T: Storied> Model for Turn<T> {
    ghost use Rattle.std.specs.Prelude.{◌≡◌};
    ghost use Rattle.turn_table.specs.Passes.{TurnId};

    ghost Value = { TurnId };

    ghost view = { λ t. t.table.shared.table_id };

    ghost invariant = { λ t. t.table.shared.table_id.words ≡ 5 };
}

impl<T: Storied> Turn<T> {
    /// Shares a value whose story is empty. The tickets count from `first`, and those below 2^62 are served.
    pub fn begin(alloc: Global, value: T, first: u64) -> Result<(Turn<T>, Pass<T>), TurnFault<T>>
        requires blank { T.story value ≡ [] }
        requires low { first ≤ 2 ^ 62 }
        ensures pass { IfOk result (λ p. p.1
            ≡ first_pass p.0 first (T.faults value) (T.basis value)) }
        ensures back { IfErr result (λ f. f.value ≡ value) }
    {
        let made = Table::vacant(alloc, &[1, first, first, 0, 0], 1, &first);
        let Ok((table, mut seat)) = made else {
            return Err(TurnFault { value });
        };
        put_first(&table.shared, &mut seat, value);
        let pass = Pass {
            seat,
            number: 0,
            seen_len: 0,
            ticket: None,
        };
        Ok((Turn { table }, pass))
    }

    /// Splits off a pass with the next number. Only the first pass is split.
    pub fn split(&self, pass: &mut Pass<T>) -> Pass<T>
        requires free { IsFree self.now pass.old }
        requires first { pass.old.number ≡ 0 }
        requires few { pass.old.splits < 2 ^ 62 }
        ensures new { result ≡ new_pass pass.old }
        ensures same { pass.new ≡ after_split pass.old }
        ensures own { HasOwn result }
    {
        let (number, seat) = split_off(&self.table.shared, &mut pass.seat);
        Pass {
            seat,
            number,
            seen_len: pass.seen_len,
            ticket: None,
        }
    }

    /// Joins another pass into this one, and ends it.
    pub fn join(&self, pass: &mut Pass<T>, other: Pass<T>)
        requires free { IsFree self.now pass.old × IsFree self.now other }
        ensures pass { pass.new ≡ joined_pass pass.old other }
        ensures had { HadTickets pass.new }
        ensures seen { Begins pass.old.seen pass.new.seen × Begins other.seen pass.new.seen }
        ensures own { HasOwn pass.new }
    {
        let Pass {
            seat,
            number: _,
            seen_len,
            ticket,
        } = other;
        join_in(&self.table.shared, &mut pass.seat, seat);
        pass.seen_len = pass.seen_len.max(seen_len);
        pass.ticket = later_ticket(pass.ticket, ticket);
    }

    /// Lets each of two passes see what the other has seen.
    pub fn meet(&self, one: &mut Pass<T>, two: &mut Pass<T>)
        requires free { IsFree self.now one.old × IsFree self.now two.old }
        ensures one { one.new ≡ met_pass one.old two.old }
        ensures two { two.new ≡ met_pass two.old one.old }
        ensures same { one.new.seen ≡ two.new.seen }
        ensures seen { Begins one.old.seen one.new.seen × Begins two.old.seen one.new.seen }
        ensures own { HasOwn one.new × HasOwn two.new }
    {
        self.tell(one, two);
        self.tell(two, one);
    }

    // Lets one pass see what another has seen.
    fn tell(&self, from: &mut Pass<T>, to: &mut Pass<T>)
        requires free { IsFree self.now from.old × IsFree self.now to.old }
        ensures from { from.new ≡ from.old }
        ensures to { to.new ≡ met_pass to.old from.old }
        ensures seen { Begins to.old.seen to.new.seen × Begins from.old.seen to.new.seen }
        ensures own { HasOwn from.new × HasOwn to.new }
    {
        let copy = copy_off(&self.table.shared, &mut from.seat);
        join_in(&self.table.shared, &mut to.seat, copy);
        to.seen_len = to.seen_len.max(from.seen_len);
    }

    /// Draws a ticket and parks until it is served, and so may wait. The story of the value then goes on from
    /// all that the pass has seen.
    ///
    /// `Worn` comes where the highest ticket of the pass is 2^62 or more, and a pass that has such a ticket draws
    /// no further one.
    pub fn take<R: Wait>(&self, rt: &R, pass: &mut Pass<T>) -> Result<Held<T>, Worn>
        requires free { IsFree self.now pass.old }
        ensures draws { DrawsOne pass.old pass.new }
        ensures had { HadTickets pass.old }
        ensures ok { IfOk result (λ h. pass.new
            ≡ record pass.old {
              draws = pass.new.draws;
              ticket = pass.new.ticket;
              seen = T.story h.value;
              held = Some (T.faults h.value);
            }) }
        ensures served { OnOk result (is_worn pass.new ≡ false) }
        ensures story { IfOk result (λ h. IsStoryOf pass.old (T.story h.value)) }
        ensures faults { IfOk result (λ h. AreFaultsOf pass.old (T.faults h.value)) }
        ensures basis { IfOk result (λ h. pass.old.basis ≡ Some (T.basis h.value)) }
        ensures err { OnErr result (pass.new
            ≡ record pass.old { draws = pass.new.draws; ticket = pass.new.ticket }) }
        ensures worn { IfErr result (λ w. (pass.new.ticket ≡ Some w.ticket) × (2 ^ 62 ≤ w.ticket)) }
        ensures own { HasOwn pass.new }
    {
        check_served(pass.ticket)?;
        let table = &self.table.shared;
        let ticket = draw_ticket(table, &mut pass.seat);
        pass.ticket = Some(ticket);
        check_served(pass.ticket)?;
        wait_turn(rt, table, &mut pass.seat, ticket);
        let (value, len) = take_value(table, &mut pass.seat);
        pass.seen_len = len;
        Ok(Held { value })
    }

    /// Gives the value back, with the story that was taken or with one more entry, which has the number of the
    /// pass, and says whether the turn failed. It doesn't wait.
    pub fn give(&self, pass: &mut Pass<T>, held: Held<T>, failed: bool)
        requires turn { pass.old.turn ≡ self.now }
        requires story { GoesOn pass.old (T.story held.value) }
        requires faults { MayCount pass.old (T.faults held.value) failed }
        requires basis { pass.old.basis ≡ Some (T.basis held.value) }
        ensures pass { pass.new ≡ given_pass pass.old (T.story held.value) failed }
        ensures own { HasOwn pass.new }
    {
        let Held { value } = held;
        let len = value.story_len();
        let table = &self.table.shared;
        let grew = len - pass.seen_len;
        put_value(table, &mut pass.seat, pass.number, value, grew, failed);
        leave_turn(table, &mut pass.seat);
        pass.seen_len = len;
    }
}

// Whether a pass whose highest ticket this is may take turns.
fn check_served(ticket: Option<u64>) -> Result<(), Worn>
    ensures ok { OnOk result (is_late ticket ≡ false) }
    ensures late { OnErr result (is_late ticket ≡ true) }
    ensures worn { IfErr result (λ w. (ticket ≡ Some w.ticket) × (2 ^ 62 ≤ w.ticket)) }
{
    match ticket {
        Some(ticket) if ticket >= SERVED_TICKETS => Err(Worn { ticket }),
        _ => Ok(()),
    }
}

// The higher of two tickets.
fn later_ticket(one: Option<u64>, two: Option<u64>) -> Option<u64>
    ensures { result ≡ higher one two }
{
    match (one, two) {
        (Some(one), Some(two)) => Some(one.max(two)),
        (None, ticket) | (ticket, None) => ticket,
    }
}
