//! The best list of orders, and its first.
ghost use Rattle.std.specs.Prelude.{◌≡◌, ◌≤◌, ◌≤ℤ◌, pos, length, All, map, slice_index_or};
ghost use Rattle.std.specs.List.{sum};
ghost use Rattle.plan_schema.specs.declared.key.Lot.TheVariants as lots;
ghost use Rattle.planning_rules.specs.Shortages.{shortage, InReach, IsAmountFor};
ghost use Rattle.planning_rules.specs.BestLots.{needs, best, first_order};
ghost use Rattle.lot_optimal.specs.Potentials.{AreToldFrom};

use crate::needs::fill_needs;
use crate::potentials::{fill_potentials, first_of};
use plan_schema::Qty;

/// The first order of the best list for what is short from a day on, where the day itself is short. Its work is that of the square of
/// the days.
pub fn first_amount(setup: Qty, hold: Qty, short: &[i64]) -> Qty
    requires setup { setup ≤ 1000000000 }
    requires hold { hold ≤ 1000000 }
    requires some { 1 ≤ length short.now }
    requires days { length short.now ≤ 400 }
    requires first { pos 1 ≤ℤ slice_index_or short.now 0 (pos 0) }
    requires reach { All InReach short.now }
    ensures best { result ≡ first_order (best setup hold (needs (map shortage short.now))) }
    ensures amount { IsAmountFor (lots.Best setup hold) short.now result }
{
    let mut wants = [0u64; 400];
    let mut potentials = [0u128; 400];
    let wants = &mut wants[..short.len()];
    let potentials = &mut potentials[..short.len()];
    fill_needs(short, wants);
    fill_potentials(setup, hold, wants, potentials);
    first_of(setup, hold, wants, potentials).amount
}

/// The best list for what is short, whole. Its work is that of the square of the days.
pub fn fill_best(setup: Qty, hold: Qty, short: &[i64], orders: &mut [Qty])
    requires setup { setup ≤ 1000000000 }
    requires hold { hold ≤ 1000000 }
    requires days { length short.now ≤ 400 }
    requires reach { All InReach short.now }
    requires room { length orders.old ≡ length short.now }
    ensures { orders.new ≡ best setup hold (needs (map shortage short.now)) }
{
    let mut wants = [0u64; 400];
    let mut potentials = [0u128; 400];
    let wants = &mut wants[..short.len()];
    let potentials = &mut potentials[..short.len()];
    fill_needs(short, wants);
    fill_potentials(setup, hold, wants, potentials);
    fill_orders(setup, hold, wants, potentials, orders);
}

/// The best list, from its needs and potentials. What was ordered last lies ahead, and where it does not cover a day one orders anew.
fn fill_orders(setup: u64, hold: u64, wants: &[u64], potentials: &[u128], orders: &mut [u64])
    requires days { length wants.now ≤ 400 }
    requires same { length potentials.now ≡ length wants.now }
    requires room { length orders.old ≡ length wants.now }
    requires setup { setup ≤ 1000000000 }
    requires hold { hold ≤ 1000000 }
    requires total { sum wants.now ≤ 1000000000000000000 }
    requires told { AreToldFrom 0 setup hold wants.now potentials.now }
    ensures { orders.new ≡ best setup hold wants.now }
{
    let mut ahead: u64 = 0;
    for day in 0..wants.len() {
        if wants[day] <= ahead {
            orders[day] = 0;
            ahead -= wants[day];
        } else {
            let amount = first_of(setup, hold, &wants[day..], &potentials[day..]).amount;
            orders[day] = amount;
            ahead = amount - wants[day];
        }
    }
}
