//! Answers about what the orders of a part with least-cost lots cost, where the plans are known.
ghost use Rattle.std.specs.Prelude.{◌≡◌, ◌+◌, ◌≤◌, ◌++◌, ◌<◌, true, Some, ◌∷◌, [], length, map, decimal, All};
ghost use Rattle.std.specs.Prelude.{IfOk, IfSome};
ghost use Rattle.arrayvec.specs.ArrayVec.{array_vec_len};
ghost use Rattle.plan_schema.specs.declared.key.Key.TheVariants as keys;
ghost use Rattle.plan_schema.specs.declared.change.CellName.TheVariants as names;
ghost use Rattle.plan_schema.specs.Sound.{are_sound_rows};
ghost use Rattle.plan_schema.specs.Contents.{record_at};
ghost use Rattle.planning_rules.specs.BestLots.{needs, best, cost as cost_of};
ghost use Rattle.query_rules.specs.Queries.{safety_in};
ghost use Rattle.lot_optimal.specs.Costs.{rows_of};
ghost use Rattle.session_rules.specs.Costs as spec;
ghost use Rattle.session_rules.specs.Answers.{costs_refusal, costs_lines, query_reply};
ghost use Rattle.walk_rules.specs.Cells.{records};
ghost use Rattle.plan_jobs.specs.Jobs.{IsJob, wants_plan};
ghost use Rattle.part_pegs.specs.Planned.{ArePlanned};
ghost use Rattle.part_pegs.specs.Held.{rows_held};

use crate::lines::push_date;
use command_words::{Lines, Reply};
use explosion::sched;
use itoa::Buffer;
use lot_optimal::{CostRow, Costs, costs};
use netting::fill_short;
use part_pegs::{horizon, outcome_of, part_cell};
use part_steps::{record_in, stock_in};
use plan_jobs::Job;
use plan_schema::{Day, Key, Lot, Name, Outcome, Qty, Record, Refusal};
use query_rows::Plans;
use record_versions::Cell;
use row_text::{RowText, push_number, push_word};
use std::alloc::{AllocError, Global};

/// Of a least-cost lot, what an order costs, and what it costs that a unit waits for a day.
fn lot_costs(rule: &Lot) -> Option<(Qty, Qty)>
    ensures { result ≡ spec.lot_costs rule.now }
{
    match rule {
        Lot::Best { setup, hold } => Some((*setup, *hold)),
        _ => None,
    }
}

/// Adds a number of up to 128 bits behind a space.
fn push_wide(text: &mut RowText, number: u128)
    requires { array_vec_len text.old ≤ 200 }
    ensures { text.new.items ≡ text.old.items ++ 32 ∷ decimal number }
{
    let mut buffer = Buffer::new();
    push_word(text, buffer.format(number).as_bytes());
}

/// The line of what all orders cost.
fn total_line(cost: u128) -> RowText
    ensures { result.items ≡ spec.total_line cost }
{
    let mut text = RowText::new();
    let _ = text.try_extend_from_slice(b"cost");
    push_wide(&mut text, cost);
    text
}

/// The line of a day with a need.
fn cost_line(start: &Day, row: &CostRow) -> RowText
    requires { start.now + row.now.at < 36525 }
    ensures { result.items ≡ spec.cost_line start.now row.now }
{
    let mut text = RowText::new();
    push_date(&mut text, start, row.at);
    push_number(&mut text, row.need);
    push_number(&mut text, row.quantity);
    push_wide(&mut text, row.potential);
    text
}

/// A line for what all orders cost, and one for each day with a need.
fn lines_of_costs(alloc: Global, start: &Day, days: u16, costs: &Costs) -> Result<Lines, AllocError>
    requires end { start.now + days < 36526 }
    requires rows { All (λ row. row.at < days) costs.now.rows }
    ensures { IfOk result (λ lines. lines
        ≡ spec.total_line costs.now.cost ∷ map (spec.cost_line start.now) costs.now.rows) }
{
    let mut lines = Lines::new(alloc);
    lines.push(total_line(costs.cost).as_slice())?;
    for row in costs.rows.as_slice() {
        lines.push(cost_line(start, row).as_slice())?;
    }
    Ok(lines)
}

/// What the planned orders of a part with least-cost lots cost, with the rows that prove that none cost less. What is scheduled is
/// handed in once more, since nothing is known of the size of an outcome's numbers.
fn costs_of(
    alloc: Global,
    rule: (Qty, Qty),
    stock: Qty,
    safety: Qty,
    outcome: &Outcome,
    sched: &[Qty],
) -> Result<Costs, AllocError>
    requires setup { rule.0 ≤ 1000000000 }
    requires hold { rule.1 ≤ 1000000 }
    requires stock { stock ≤ 1000000000 }
    requires safety { safety ≤ 1000000000 }
    requires days { length outcome.now.gross ≤ 400 }
    requires gross { All (λ qty. qty ≤ 1000000000000000) outcome.now.gross }
    requires sched { sched.now ≡ outcome.now.sched }
    requires same { length sched.now ≡ length outcome.now.gross }
    requires small { All (λ qty. qty ≤ 200000000000000) sched.now }
    requires best { outcome.now.planned
        ≡ best rule.0 rule.1 (needs (spec.unplanned_shortages stock safety outcome.now)) }
    ensures rows { let short = spec.unplanned_shortages stock safety outcome.now in
        IfOk result (λ costs. costs.rows
        ≡ rows_of rule.0 rule.1 0 (needs short) outcome.now.planned) }
    ensures cost { let short = spec.unplanned_shortages stock safety outcome.now in
        IfOk result (λ costs. costs.cost ≡ cost_of rule.0 rule.1 short outcome.now.planned) }
{
    let (setup, hold) = rule;
    let gross = outcome.gross.as_slice();
    let mut short = [0i64; 400];
    let short = &mut short[..gross.len()];
    fill_short(short, stock, safety, gross, sched);
    costs(alloc, setup, hold, short, &outcome.planned)
}

/// What an order of a part costs, and what it costs that a unit waits for a day, where the part has least-cost lots.
fn part_costs(cell: &Cell, part: &Name) -> Option<(Qty, Qty)>
    requires { are_sound_rows cell.now ≡ true }
    ensures value { result ≡ spec.part_costs (record_at cell.now (keys.Part part.now)) }
    ensures setup { IfSome result (λ costs. costs.0 ≤ 1000000000) }
    ensures hold { IfSome result (λ costs. costs.1 ≤ 1000000) }
{
    match record_in(cell, &Key::Part(*part)) {
        Some(Record::Part { lot, .. }) => lot_costs(lot),
        _ => None,
    }
}

/// The safety stock of a part.
fn safety_of(cell: &Cell, part: &Name) -> Qty
    requires { are_sound_rows cell.now ≡ true }
    ensures value { result ≡ safety_in (record_at cell.now (keys.Part part.now)) }
    ensures most { result ≤ 1000000000 }
{
    match record_in(cell, &Key::Part(*part)) {
        Some(Record::Part { safety, .. }) => *safety,
        _ => 0,
    }
}

/// The lines of what the planned orders of a part with least-cost lots cost.
fn lines_of_part<P: Plans>(
    alloc: Global,
    job: &Job,
    plans: &P,
    part: &Name,
    cell: &Cell,
    rule: (Qty, Qty),
) -> Result<Lines, AllocError>
    requires job { IsJob job.now.wanted job.now.cells }
    requires wants { wants_plan job.now.wanted ≡ true }
    requires planned { ArePlanned (records job.now.cells) (part.now ∷ []) (P.plans plans.now) }
    requires cell { rows_held job.now.cells (names.Part part.now) ≡ Some cell.now }
    requires rule { spec.part_costs (record_at cell.now (keys.Part part.now)) ≡ Some rule }
    requires setup { rule.0 ≤ 1000000000 }
    requires hold { rule.1 ≤ 1000000 }
    ensures { IfOk result (λ lines. lines ≡ costs_lines (records job.now.cells) part.now) }
{
    let (start, days) = horizon(job);
    let outcome = outcome_of(plans, part);
    let (stock, safety) = (stock_in(cell, part), safety_of(cell, part));
    let sched = sched(alloc, cell, &start, days)?;
    let costs = costs_of(alloc, rule, stock, safety, outcome, sched.as_slice())?;
    lines_of_costs(alloc, &start, days, &costs)
}

/// The reply to a question for the costs of a part whose plan isn't refused: it is refused itself where the part has no least-cost lots.
pub fn cost_reply<P: Plans>(
    alloc: Global,
    job: &Job,
    plans: &P,
    part: &Name,
) -> Result<Reply, AllocError>
    requires job { IsJob job.now.wanted job.now.cells }
    requires wants { wants_plan job.now.wanted ≡ true }
    requires planned { ArePlanned (records job.now.cells) (part.now ∷ []) (P.plans plans.now) }
    ensures { let c = records job.now.cells in
        IfOk result (λ reply. reply ≡ query_reply job.now.point
        (costs_refusal c part.now) (costs_lines c part.now)) }
{
    let cell = part_cell(job, plans, part);
    match part_costs(cell, part) {
        Some(rule) => {
            let lines = lines_of_part(alloc, job, plans, part, cell, rule)?;
            Ok(Reply::Rows(job.point, lines))
        }
        None => Ok(Reply::No(job.point, Refusal::NoCosts(*part))),
    }
}
