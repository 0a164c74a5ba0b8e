//! Whether a part meets a condition.
ghost use Rattle.std.specs.Prelude.{◌≡◌, not, if◌then◌else◌, option_map};
ghost use Rattle.plan_schema.specs.Key.{name_eq};
ghost use Rattle.query_language.specs.Trees.{cond_tree};
ghost use Rattle.query_rules.specs.Queries as spec;
ghost use Rattle.query_rows.specs.Rows.{meets_with, is_selected_with, values_of};

use crate::part::Part;
use crate::value::value;
use plan_schema::Name;
use query_language::{Cond, Op};
use std::cmp::Ordering;

/// Whether a query selects a part. Without a condition it selects each.
pub fn is_selected(cond: &Option<Cond>, part: &Part<'_>) -> bool
    ensures { result
        ≡ is_selected_with (values_of part.now) part.now.name.now (option_map cond_tree cond.now) }
{
    match cond {
        None => true,
        Some(cond) => meets(cond, part),
    }
}

/// Whether a part meets a condition.
fn meets(cond: &Cond, part: &Part<'_>) -> bool
    ensures { result ≡ meets_with (values_of part.now) part.now.name.now (cond_tree cond.now) }
{
    match cond {
        Cond::Is(column, op, number) => compares(*op, value(part, *column), u128::from(*number)),
        Cond::Named(name, equal) => is_named(part.name, name, *equal),
        Cond::Not(cond) => !meets(cond, part),
        Cond::And(cond, other) => meets(cond, part) && meets(other, part),
        Cond::Or(cond, other) => meets(cond, part) || meets(other, part),
    }
}

/// Whether a part has a name, or, with false, another.
fn is_named(part: &Name, name: &Name, equal: bool) -> bool
    ensures { result
        ≡ (if equal then name_eq part.now name.now else not (name_eq part.now name.now)) }
{
    matches!(part.cmp(name), Ordering::Equal) == equal
}

/// How a value compares with a number.
fn compares(op: Op, value: u128, number: u128) -> bool
    ensures { result ≡ spec.compares op value number }
{
    match op {
        Op::Eq => value == number,
        Op::Ne => value != number,
        Op::Lt => value < number,
        Op::Le => value <= number,
        Op::Gt => value > number,
        Op::Ge => value >= number,
    }
}
