//! The step of one part.
ghost use Rattle.std.specs.Prelude.{◌≡◌, ℕ, ◌+◌, ◌-◌, ◌<◌, ◌≤◌, [], List, Bool, true, false, length, map, sum};
ghost use Rattle.std.specs.Prelude.{reverse, All, IsTrue, IfOk, IfErr, slice_index};
ghost use Rattle.planning_rules.specs.Days.{back, working_before};
ghost use Rattle.planning_rules.specs.Netting.{IsOrder, Netted, limit, exceeds, balances, releases, late_sum};
ghost use Rattle.planning_rules.specs.Netting.{is_too_large, outcome_from};
ghost use Rattle.plan_schema.specs.Sound.{is_sound_lot};
ghost use Rattle.planning_rules.specs.Shortages.{shortage, InReach};
ghost use Rattle.planning_rules.specs.Amounts.{is_best};
ghost use Rattle.netting.specs.DayByDay.{IsPlannedTo, AreBest, AreForDays, begun};
ghost use Rattle.netting.specs.Inputs.{IsWithin, given, WhereLarge, told};
ghost use Rattle.netting.specs.Shortages.{shortages};
ghost use Rattle.netting.specs.Windows.{looked};

use lot_optimal::fill_best;
use lot_sizing::lot;
use plan_calendar::Calendar;
use plan_schema::{Lot, NetFault, Outcome, Qty, Quantities, Release, Series, Steps};
use std::alloc::{AllocError, Global};
use std::sync::ledger::Ledger;

/// What a part's step starts from.
#[derive(Drop)]
pub struct Input {
    pub stock: Qty,
    pub safety: Qty,
    pub lot: Lot,
    pub lead: u16,
    pub calendar: Calendar,
    pub gross: Quantities,
    pub sched: Quantities,
}

/// The greatest gross, planned or release number.
const LIMIT: Qty = 1_000_000_000_000_000;

/// How much more is asked than there is, below 0 where there is more.
fn difference(asked: u64, there: u64) -> i64
    requires asked { asked ≤ 1000000000000000000 }
    requires there { there ≤ 1000000000000000000 }
    ensures part { shortage result ≡ asked - there }
    ensures reach { InReach result }
{
    asked as i64 - there as i64
}

/// By how much each day falls short of safety, where nothing is planned, from what is on hand before the first.
pub fn fill_short(short: &mut [i64], balance: u64, safety: u64, gross: &[u64], sched: &[u64])
    requires days { length gross.now ≤ 400 }
    requires same { length sched.now ≡ length gross.now }
    requires room { length short.old ≡ length gross.now }
    requires balance { balance ≤ 600000000000000000 }
    requires safety { safety ≤ 1000000000 }
    requires gross { All (λ g. g ≤ 1000000000000000) gross.now }
    requires sched { All (λ s. s ≤ 200000000000000) sched.now }
    ensures all { map shortage short.new ≡ shortages balance safety gross.now sched.now }
    ensures reach { All InReach short.new }
{
    let mut asked = safety;
    let mut there = balance;
    for day in 0..gross.len() {
        asked += gross[day];
        there += sched[day];
        short[day] = difference(asked, there);
    }
}

/// How many days a lot rule looks at, of those that are left from a day on.
fn looked_at(rule: &Lot, left: usize) -> usize
    ensures { result ≡ looked rule.now left }
{
    match rule {
        Lot::Period(days) => left.min(*days as usize),
        Lot::Exact | Lot::Fixed(_) | Lot::Least { .. } => 1,
        Lot::Best { .. } => left,
    }
}

/// The order of a day, from the balance before it, the days from it on, and a place for as many shortages. Its work is that of the days
/// that the lot rule looks at.
fn order_of(
    rule: &Lot,
    balance: u64,
    safety: u64,
    gross: &[u64],
    sched: &[u64],
    short: &mut [i64],
) -> u64
    requires some { 1 ≤ length gross.now }
    requires days { length gross.now ≤ 400 }
    requires same { length sched.now ≡ length gross.now }
    requires room { length short.old ≡ length gross.now }
    requires balance { balance ≤ 600000000000000000 }
    requires safety { safety ≤ 1000000000 }
    requires rule { is_sound_lot rule.now ≡ true }
    requires kind { is_best rule.now ≡ false }
    requires gross { All (λ g. g ≤ 1000000000000000) gross.now }
    requires sched { All (λ s. s ≤ 200000000000000) sched.now }
    ensures { IsOrder (begun rule.now balance safety gross.now sched.now) 0 0 result }
{
    if safety + gross[0] <= balance + sched[0] {
        return 0;
    }
    let days = looked_at(rule, gross.len());
    let short = &mut short[..days];
    fill_short(short, balance, safety, &gross[..days], &sched[..days]);
    lot(rule, short)
}

/// The best list of a part with least-cost lots, for the whole horizon, and a place for as many shortages; of any other part none.
fn best_orders(alloc: Global, input: &Input, short: &mut [i64]) -> Result<Vec<u64>, AllocError>
    requires within { IsWithin input.now }
    requires room { length short.old ≡ length input.now.gross }
    ensures best { IfOk result (λ orders. AreBest (given input.now) orders.items) }
    ensures days { IfOk result (λ orders. AreForDays (given input.now) orders.items) }
{
    let Lot::Best { setup, hold } = input.lot else {
        return Ok(Vec::new(alloc));
    };
    let gross = input.gross.as_slice();
    let sched = input.sched.as_slice();
    let mut orders = vec![in alloc; 0u64; gross.len()]?;
    fill_short(short, input.stock, input.safety, gross, sched);
    fill_best(setup, hold, short, orders.as_mut_slice());
    Ok(orders)
}

/// The order of the day after those planned, from the balance before it: of a least-cost lot that of the best list, which is the same as
/// to look for it anew on each day. Of any other the work is that of the days that the lot rule looks at.
fn next_order(
    input: &Input,
    planned: &[u64],
    balance: u64,
    orders: &[u64],
    short: &mut [i64],
) -> u64
    requires within { IsWithin input.now }
    requires day { length planned.now < length input.now.gross }
    requires balance { balance ≤ 600000000000000000 }
    requires going { IsPlannedTo (given input.now) (length planned.now) planned.now balance }
    requires orders { AreBest (given input.now) orders.now }
    requires days { AreForDays (given input.now) orders.now }
    requires room { length short.old ≡ length input.now.gross }
    ensures { IsOrder (given input.now) (sum planned.now) (length planned.now) result }
{
    let day = planned.len();
    if let Lot::Best { .. } = input.lot {
        return orders[day];
    }
    let gross = &input.gross.as_slice()[day..];
    let sched = &input.sched.as_slice()[day..];
    let room = gross.len();
    order_of(
        &input.lot,
        balance,
        input.safety,
        gross,
        sched,
        &mut short[..room],
    )
}

/// Orders and balances in order of days.
#[derive(Drop)]
struct Days {
    planned: Vec<u64>,
    balance: Vec<u64>,
}

/// No days, with room for so many.
fn no_days(alloc: Global, count: usize) -> Result<Days, AllocError>
    ensures planned { IfOk result (λ days. days.planned.items ≡ []) }
    ensures balance { IfOk result (λ days. days.balance.items ≡ []) }
{
    Ok(Days {
        planned: Vec::with_capacity(alloc, count)?,
        balance: Vec::with_capacity(alloc, count)?,
    })
}

/// The orders of all days, and the balances.
fn plan_days(alloc: Global, input: &Input) -> Result<Days, NetFault>
    requires { IsWithin input.now }
    ensures netted { IfOk result (λ o. Netted (given input.now) o.planned.items) }
    ensures small { IfOk result (λ o. All (λ n. n ≤ limit) o.planned.items) }
    ensures balance { IfOk result (λ o. o.balance.items
        ≡ balances (given input.now) o.planned.items) }
    ensures large { IfErr result (λ e. WhereLarge e ((p : List ℕ)
        → Netted (given input.now) p
        → IsTrue (exceeds p))) }
{
    let gross = input.gross.as_slice();
    let sched = input.sched.as_slice();
    let Ok(mut short) = vec![in alloc; 0i64; gross.len()] else {
        return Err(NetFault::Memory);
    };
    let short = short.as_mut_slice();
    let Ok(orders) = best_orders(alloc, input, short) else {
        return Err(NetFault::Memory);
    };
    let orders = orders.as_slice();
    let Ok(days) = no_days(alloc, gross.len()) else {
        return Err(NetFault::Memory);
    };
    let Days {
        mut planned,
        balance: mut balances,
    } = days;
    let mut balance = input.stock;
    for day in 0..gross.len() {
        let order = next_order(input, planned.as_slice(), balance, orders, short);
        if order > LIMIT {
            return Err(NetFault::TooLarge);
        }
        balance = balance + sched[day] + order - gross[day];
        if planned.push(order).is_err() {
            return Err(NetFault::Memory);
        }
        if balances.push(balance).is_err() {
            return Err(NetFault::Memory);
        }
    }
    Ok(Days {
        planned,
        balance: balances,
    })
}

/// The day on which an order for a day is released, and whether the order is late, from the working days before it, the earliest
/// first. Its work is the same for each lead time.
fn release_day(passed: &[u16], day: u16, lead: u16) -> (u16, bool)
    ensures { (calendar : List Bool)
        → passed.now ≡ reverse (working_before calendar day)
        → result ≡ back calendar day lead }
{
    if lead == 0 {
        return (day, false);
    }
    match passed.len().checked_sub(lead as usize) {
        Some(place) => (passed[place], false),
        None => (0, true),
    }
}

/// What is released on each day, and how much of it is late. The working days are gone through once.
fn release_days(
    alloc: Global,
    calendar: &Calendar,
    lead: u16,
    planned: &[u64],
) -> Result<(Vec<u64>, u64), AllocError>
    requires days { length planned.now ≤ 400 }
    requires calendar { length calendar.now ≡ length planned.now }
    requires small { All (λ n. n ≤ limit) planned.now }
    ensures release { IfOk result (λ r. r.0.items ≡ releases calendar.now lead planned.now) }
    ensures late { IfOk result (λ r. r.1 ≡ late_sum calendar.now lead planned.now) }
{
    let mut release = vec![in alloc; 0u64; planned.len()]?;
    let mut passed = Vec::with_capacity(alloc, planned.len())?;
    let mut late: u64 = 0;
    for day in 0..planned.len() {
        let (at, is_late) = release_day(passed.as_slice(), day as u16, lead);
        let on = at as usize;
        release[on] += planned[day];
        if is_late {
            late += planned[day];
        }
        if calendar.works(day as u16) {
            passed.push(day as u16)?;
        }
    }
    Ok((release, late))
}

/// Whether a number exceeds the limit.
fn exceeds_limit(numbers: &[u64]) -> bool
    ensures { result ≡ exceeds numbers.now }
{
    numbers.iter().any(|n| *n > LIMIT)
}

/// The outcome of a part's step.
pub fn net<L: Ledger>(
    alloc: Global,
    input: Input,
    steps: &mut Steps<L>,
) -> Result<Outcome, NetFault>
    requires { IsWithin input }
    ensures netted { IfOk result (λ o. Netted (given input) o.planned) }
    ensures outcome { IfOk result (λ o. told o ≡ outcome_from (given input) o.planned) }
    ensures fits { IfOk result (λ o. is_too_large (given input) o.planned ≡ false) }
    ensures large { IfErr result (λ e. WhereLarge e ((p : List ℕ)
        → Netted (given input) p
        → IsTrue (is_too_large (given input) p))) }
    ensures steps { steps.new ≡ steps.old + 1 }
{
    steps.tick();
    let days = plan_days(alloc, &input)?;
    let Ok((release, late)) = release_days(
        alloc,
        &input.calendar,
        input.lead,
        days.planned.as_slice(),
    ) else {
        return Err(NetFault::Memory);
    };
    if exceeds_limit(release.as_slice()) {
        return Err(NetFault::TooLarge);
    }
    let Ok(release) = Release::new(alloc, release) else {
        return Err(NetFault::Memory);
    };
    let Days { planned, balance } = days;
    let Input { gross, sched, .. } = input;
    Ok(Outcome {
        gross,
        sched,
        planned: Series::from_vec(planned),
        balance: Series::from_vec(balance),
        release,
        late,
    })
}
