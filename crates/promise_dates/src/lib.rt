//! Availability to promise: how much more each day of the horizon can deliver, supplies unchanged.
#![tactic(auto)]

ghost use Rattle.std.specs.Prelude.{◌≡◌, ℕ, IfOk, slice_index};
ghost use Rattle.planning_rules.specs.Promise.{promise_on};
ghost use Rattle.promise_dates.specs.Promises.{promises};

use plan_schema::{Outcome, Quantities, Series};
use std::alloc::{AllocError, Global};

/// What can be promised on each day of the horizon: the least projected balance from that day to the end. One pass, from the last day
/// to the first.
pub fn promise(alloc: Global, outcome: &Outcome) -> Result<Quantities, AllocError>
    ensures all { IfOk result (λ promised. promised ≡ promises outcome.now.balance) }
    ensures each { IfOk result (λ promised. (day : ℕ)
        → slice_index promised day ≡ promise_on outcome.now day) }
{
    let mut promised = Vec::from_slice(alloc, outcome.balance.as_slice())?;
    lower(&mut promised);
    Ok(Series::from_vec(promised))
}

/// Lowers each number to the least from it on.
fn lower(numbers: &mut [u64])
    ensures { numbers.new ≡ promises numbers.old }
{
    let mut day = numbers.len();
    while day > 1 {
        day -= 1;
        numbers[day - 1] = numbers[day - 1].min(numbers[day]);
    }
}

#[cfg(test)]
mod tests;
