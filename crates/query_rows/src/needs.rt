//! Which queries ask for the plan.
ghost use Rattle.std.specs.Prelude.{◌≡◌, option_map};
ghost use Rattle.std.specs.List.{list_any};
ghost use Rattle.query_language.specs.Trees.{cond_tree, query_tree};
ghost use Rattle.query_rules.specs.Queries as spec;
ghost use Rattle.query_rules.specs.Queries.{asks_for_plan, any_cond_is_planned, cond_is_planned};

use query_language::{Column, Cond, Query};

/// Whether a column that comes of the plan stands in a query, among those asked or in its condition.
pub fn needs_plan(query: &Query) -> bool
    ensures { result ≡ asks_for_plan (query_tree query.now) }
{
    columns_need_plan(query.columns.as_slice()) || any_cond_needs_plan(&query.cond)
}

/// Whether one of some columns comes of the plan.
fn columns_need_plan(columns: &[Column]) -> bool
    ensures { result ≡ list_any spec.is_planned columns.now }
{
    columns.iter().any(|column| is_planned(*column))
}

/// Whether there is a condition in which a column stands that comes of the plan.
fn any_cond_needs_plan(cond: &Option<Cond>) -> bool
    ensures { result ≡ any_cond_is_planned (option_map cond_tree cond.now) }
{
    match cond {
        None => false,
        Some(cond) => cond_needs_plan(cond),
    }
}

/// Whether a column that comes of the plan stands in a condition.
fn cond_needs_plan(cond: &Cond) -> bool
    ensures { result ≡ cond_is_planned (cond_tree cond.now) }
{
    match cond {
        Cond::Is(column, _, _) => is_planned(*column),
        Cond::Named(_, _) => false,
        Cond::Not(cond) => cond_needs_plan(cond),
        Cond::And(cond, other) | Cond::Or(cond, other) => {
            cond_needs_plan(cond) || cond_needs_plan(other)
        }
    }
}

/// Whether the value of a column comes of the plan.
fn is_planned(column: Column) -> bool
    ensures { result ≡ spec.is_planned column }
{
    matches!(
        column,
        Column::Gross
            | Column::Planned
            | Column::Release
            | Column::Late
            | Column::Low
            | Column::Last
    )
}
