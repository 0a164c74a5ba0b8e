//! The values of columns.
ghost use Rattle.std.specs.Prelude.{◌≡◌, ◌<◌, ◌^◌, length, sum, sum_by};
ghost use Rattle.plan_schema.specs.declared.key.Key.TheVariants as keys;
ghost use Rattle.plan_schema.specs.Contents.{record_at};
ghost use Rattle.planning_rules.specs.Plan.{stock_in};
ghost use Rattle.planning_rules.specs.Promise.{least_of};
ghost use Rattle.query_rules.specs.Queries.{lead_in, safety_in, last_of};
ghost use Rattle.explosion.specs.Sums.{bill_count};
ghost use Rattle.query_rows.specs.Rows as spec;
ghost use Rattle.query_rows.specs.Rows.{lists_value, row_adds, values_of};

use crate::part::Part;
use plan_schema::{Key, Known, Name, Outcome, Qty, Record};
use query_language::Column;
use record_versions::Cell;

/// The value of a column for a part. What has no plan has none of its figures: they are 0.
pub fn value(part: &Part<'_>, column: Column) -> u128
    ensures { result ≡ values_of part.now column }
{
    match column {
        Column::Lead => u128::from(lead(part.cell, part.name)),
        Column::Safety => u128::from(safety(part.cell, part.name)),
        Column::Stock => u128::from(stock(part.cell, part.name)),
        Column::Demand | Column::Receipt | Column::Parents => rows_value(part.cell, column),
        _ => match part.known {
            Some(Known::Plan(outcome)) => planned_value(outcome, column),
            _ => 0,
        },
    }
}

/// The value of a column of a part's plan.
fn planned_value(outcome: &Outcome, column: Column) -> u128
    ensures { result ≡ lists_value outcome.now column }
{
    match column {
        Column::Gross => sum(outcome.gross.as_slice()),
        Column::Planned => sum(outcome.planned.as_slice()),
        Column::Release => sum(outcome.release.as_slice()),
        Column::Late => u128::from(outcome.late),
        Column::Low => u128::from(low(outcome.balance.as_slice())),
        Column::Last => u128::from(last(outcome.balance.as_slice())),
        _ => 0,
    }
}

/// The sum of some quantities.
fn sum(quantities: &[Qty]) -> u128
    ensures { result ≡ sum quantities.now }
{
    let mut sum = 0;
    for qty in quantities {
        sum += u128::from(*qty);
    }
    sum
}

/// The least of some balances; 0 of none.
fn low(balances: &[Qty]) -> Qty
    ensures { result ≡ least_of balances.now }
{
    let Some(first) = balances.first() else {
        return 0;
    };
    let mut low = *first;
    for balance in balances {
        low = low.min(*balance);
    }
    low
}

/// The last of some balances; 0 of none.
fn last(balances: &[Qty]) -> Qty
    ensures { result ≡ last_of balances.now }
{
    balances.last().copied().unwrap_or(0)
}

/// The lead time of a part's record.
fn lead(cell: &Cell, part: &Name) -> u16
    ensures { result ≡ lead_in (record_at cell.now (keys.Part part.now)) }
{
    match cell.get(&Key::Part(*part)) {
        Some(Record::Part { lead, .. }) => *lead,
        _ => 0,
    }
}

/// The safety stock of a part's record.
fn safety(cell: &Cell, part: &Name) -> Qty
    ensures { result ≡ safety_in (record_at cell.now (keys.Part part.now)) }
{
    match cell.get(&Key::Part(*part)) {
        Some(Record::Part { safety, .. }) => *safety,
        _ => 0,
    }
}

/// What is on hand.
fn stock(cell: &Cell, part: &Name) -> Qty
    ensures { result ≡ stock_in (record_at cell.now (keys.Stock part.now)) }
{
    match cell.get(&Key::Stock(*part)) {
        Some(Record::Stock { qty }) => *qty,
        _ => 0,
    }
}

/// The sum over the rows of a part's cell that a column is.
fn rows_value(cell: &Cell, column: Column) -> u128
    ensures { result ≡ sum_by (row_adds column) cell.now }
{
    let mut sum = 0;
    for (key, value) in cell.iter() {
        sum += u128::from(added(column, &key, value));
    }
    sum
}

/// What a row adds to a column.
fn added(column: Column, key: &Key, value: &Record) -> u64
    ensures { result ≡ row_adds column (key.now, value.now) }
{
    match column {
        Column::Demand => demand_qty(key, value),
        Column::Receipt => receipt_qty(key, value),
        Column::Parents => parent_count(key, value),
        _ => 0,
    }
}

/// The quantity of a demand.
fn demand_qty(key: &Key, value: &Record) -> u64
    ensures { result ≡ spec.demand_qty (key.now, value.now) }
{
    match (key, value) {
        (Key::Demand(_, _), Record::Demand { qty, .. }) => *qty,
        _ => 0,
    }
}

/// The quantity of a scheduled receipt.
fn receipt_qty(key: &Key, value: &Record) -> u64
    ensures { result ≡ spec.receipt_qty (key.now, value.now) }
{
    match (key, value) {
        (Key::Receipt(_, _), Record::Receipt { qty, .. }) => *qty,
        _ => 0,
    }
}

/// 1 for a bill, which names a parent.
fn parent_count(key: &Key, value: &Record) -> u64
    ensures { result ≡ bill_count (key.now, value.now) }
{
    match (key, value) {
        (Key::Bill { .. }, Record::Bill { .. }) => 1,
        _ => 0,
    }
}
