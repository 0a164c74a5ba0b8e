//! Whether rows prove that no orders cost less.
ghost use Rattle.std.specs.Prelude.{IsTrue, sum_by, ◌*◌, ◌≡◌, ◌≤◌, length, All, map};
ghost use Rattle.planning_rules.specs.Shortages.{shortage, InReach};
ghost use Rattle.planning_rules.specs.BestLots.{needs};
ghost use Rattle.lot_optimal.specs.Costs.{are_rows, are_amounts, begins, first_potential, is_low, are_low};
ghost use Rattle.lot_optimal.specs.Costs.{is_proof, IsLeastCost, rows_cost};

use crate::needs::fill_needs;
use crate::rows::{CostRow, Costs};
use plan_schema::Qty;

/// Whether the rows prove that no orders that are enough cost less. It takes no memory; its work is that of the square of the days.
pub fn check(setup: Qty, hold: Qty, short: &[i64], costs: &Costs) -> bool
    requires setup { setup ≤ 1000000000 }
    requires hold { hold ≤ 1000000 }
    requires days { length short.now ≤ 400 }
    requires reach { All InReach short.now }
    ensures exact { result ≡ is_proof setup hold (map shortage short.now) costs.now }
    ensures least { IsTrue result → IsLeastCost setup hold (map shortage short.now) costs.now.cost }
{
    let mut wants = [0u64; 400];
    let wants = &mut wants[..short.len()];
    fill_needs(short, wants);
    is_proved(setup, hold, short, wants, costs)
}

/// The same, with the needs at hand.
fn is_proved(setup: u64, hold: u64, short: &[i64], wants: &[u64], costs: &Costs) -> bool
    requires setup { setup ≤ 1000000000 }
    requires hold { hold ≤ 1000000 }
    requires days { length short.now ≤ 400 }
    requires reach { All InReach short.now }
    requires wants { wants.now ≡ needs (map shortage short.now) }
    ensures { result ≡ is_proof setup hold (map shortage short.now) costs.now }
{
    let rows = costs.rows.as_slice();
    if !fit_needs(wants, rows) {
        return false;
    }
    if !first_ordered(rows) {
        return false;
    }
    if !have_amounts(rows) {
        return false;
    }
    let cost = cost_of(setup, hold, rows);
    if costs.cost != cost {
        return false;
    }
    if costs.cost != potential_of(rows) {
        return false;
    }
    all_low(setup, hold, rows)
}

/// Whether the rows are the days with a need, in order.
fn fit_needs(wants: &[u64], rows: &[CostRow]) -> bool
    requires days { length wants.now ≤ 400 }
    ensures { result ≡ are_rows 0 wants.now rows.now }
{
    let mut next: usize = 0;
    for day in 0..wants.len() {
        if wants[day] > 0 {
            if next >= rows.len() {
                return false;
            }
            let row = rows[next];
            if row.at as usize != day || row.need != wants[day] {
                return false;
            }
            next += 1;
        }
    }
    next == rows.len()
}

/// Whether the first quantity is above 0.
fn first_ordered(rows: &[CostRow]) -> bool
    ensures { result ≡ begins rows.now }
{
    rows.is_empty() || rows[0].quantity > 0
}

/// Whether each quantity is 0 or the needs up to before the next one above 0.
fn have_amounts(rows: &[CostRow]) -> bool
    requires total { sum_by (λ row. row.need) rows.now ≤ 1000000000000000000 }
    ensures { result ≡ are_amounts rows.now }
{
    let mut before: u64 = 0;
    let mut at = rows.len();
    while at > 0 {
        at -= 1;
        let row = rows[at];
        if row.quantity == 0 {
            before += row.need;
        } else {
            if row.quantity != row.need + before {
                return false;
            }
            before = 0;
        }
    }
    true
}

/// What the orders of the rows cost.
fn cost_of(setup: u64, hold: u64, rows: &[CostRow]) -> u128
    requires rows { length rows.now ≤ 400 }
    requires setup { setup ≤ 1000000000 }
    requires hold { hold ≤ 1000000 }
    ensures { result ≡ rows_cost setup hold 0 rows.now }
{
    let mut cost: u128 = 0;
    let mut last: u16 = 0;
    for row in rows {
        if row.quantity == 0 {
            cost += waiting(hold, row.need, row.at.saturating_sub(last));
        } else {
            cost += setup as u128;
            last = row.at;
        }
    }
    cost
}

/// What a need costs that waits so many days.
fn waiting(hold: u64, need: u64, days: u16) -> u128
    requires hold { hold ≤ 1000000 }
    ensures is { result ≡ hold * (need * days) }
    ensures small { result ≤ 1300000000000000000000000000000 }
{
    hold as u128 * (need as u128 * days as u128)
}

/// The first potential, and 0 where there is no row.
pub(crate) fn potential_of(rows: &[CostRow]) -> u128
    ensures { result ≡ first_potential rows.now }
{
    if rows.is_empty() {
        0
    } else {
        rows[0].potential
    }
}

/// Whether each potential is that low.
fn all_low(setup: u64, hold: u64, rows: &[CostRow]) -> bool
    requires rows { length rows.now ≤ 400 }
    requires setup { setup ≤ 1000000000 }
    requires hold { hold ≤ 1000000 }
    ensures { result ≡ are_low setup hold rows.now }
{
    for at in 0..rows.len() {
        let row = rows[at];
        if !goes_low(setup, hold, row.at, row.potential, &rows[at + 1..]) {
            return false;
        }
    }
    true
}

/// Whether a potential is at most what it costs to go on to any of the rows, or to the end.
fn goes_low(setup: u64, hold: u64, at: u16, potential: u128, rows: &[CostRow]) -> bool
    requires rows { length rows.now ≤ 400 }
    requires setup { setup ≤ 1000000000 }
    requires hold { hold ≤ 1000000 }
    ensures { result ≡ is_low hold at potential setup rows.now }
{
    let mut paid = setup as u128;
    for row in rows {
        if potential > paid.saturating_add(row.potential) {
            return false;
        }
        paid += waiting(hold, row.need, row.at.saturating_sub(at));
    }
    potential <= paid
}
