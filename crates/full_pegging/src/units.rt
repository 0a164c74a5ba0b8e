//! Units in a row, and the units of a parent that they go into.
ghost use Rattle.std.specs.Prelude.{◌≡◌, ◌+◌, ◌-◌, ◌*◌, ◌/◌, ◌%◌, ◌<◌, ◌≤◌, ◌^◌, ℕ, min};
ghost use Rattle.full_pegging.specs.Weights.{weight, asked_weight, spread_weight};

use plan_schema::Qty;

/// Units that stand in a row, by their numbers, each counted a number of times.
#[derive(Clone, Copy)]
pub struct Units {
    /// The number of the first.
    pub first: u64,
    /// How many there are.
    pub many: u64,
    /// How many times each is counted.
    pub times: u64,
}

/// The units of a parent that some units of its component go into.
#[derive(Clone, Copy)]
pub struct ParentUnits {
    /// The one that the first of them go into.
    pub begun: Units,
    /// Those that are filled after it.
    pub filled: Units,
    /// The one that the last of them go into, where they don't fill it.
    pub left: Units,
}

/// How many of some units go into the unit of the parent that the first goes into.
fn begun_share(units: &Units, per: Qty) -> u64
    requires { 1 ≤ per }
    ensures { result ≡ min units.now.many (per - units.now.first % per) }
{
    units.many.min(per - units.first % per)
}

/// How often a unit of the parent is counted that is filled, where there is one.
fn filled_times(filled: u64, per: Qty, times: u64) -> u64
    requires { times * (filled * per) < 2 ^ 64 }
    ensures none { filled ≡ 0 → result ≡ 0 }
    ensures some { 0 < filled → result ≡ times * per }
{
    if filled == 0 {
        return 0;
    }
    times * per
}

/// The units of a parent that some units go into that it asks for. Of these `per` go into each, and the first that it asks for goes into
/// its unit number `before`.
pub fn parent_units(units: &Units, per: Qty, before: u64) -> ParentUnits
    requires per { 1 ≤ per }
    requires numbers { before + (units.now.first + units.now.many) < 2 ^ 64 - 1 }
    requires fits { units.now.times * units.now.many < 2 ^ 64 }
    ensures { (measure : ℕ → ℕ) → spread_weight measure result
        ≡ asked_weight measure per before units.now }
{
    let begun = before + units.first / per;
    let head = begun_share(units, per);
    let rest = units.many - head;
    let filled = rest / per;
    let next = begun + 1;
    let last = next + filled;
    let begun_times = units.times * head;
    let full_times = filled_times(filled, per, units.times);
    let left_times = units.times * (rest % per);
    ParentUnits {
        begun: Units {
            first: begun,
            many: 1,
            times: begun_times,
        },
        filled: Units {
            first: next,
            many: filled,
            times: full_times,
        },
        left: Units {
            first: last,
            many: 1,
            times: left_times,
        },
    }
}

/// How many of some units stand before a number.
fn count_below(units: &Units, number: u64) -> u64
    ensures { result ≡ min units.now.many (number - units.now.first) }
{
    units.many.min(number.saturating_sub(units.first))
}

/// Some units up to a number, and those from it on.
pub fn split_at(units: &Units, number: u64) -> (Units, Units)
    ensures below { result.0.many ≡ min units.now.many (number - units.now.first) }
    ensures first { result.0.first ≡ units.now.first }
    ensures behind { result.1.first ≡ units.now.first + result.0.many }
    ensures rest { result.0.many + result.1.many ≡ units.now.many }
    ensures times { result.0.times ≡ units.now.times }
    ensures same { result.1.times ≡ units.now.times }
    ensures weight { (measure : ℕ → ℕ) → weight measure result.0 + weight measure result.1
        ≡ weight measure units.now }
{
    let below = count_below(units, number);
    let next = units.first + below;
    let rest = units.many - below;
    let before = Units {
        first: units.first,
        many: below,
        times: units.times,
    };
    (
        before,
        Units {
            first: next,
            many: rest,
            times: units.times,
        },
    )
}

/// Units under the places that they stand at, where so many places stand before the first number.
pub fn moved(units: &Units, before: u64) -> Units
    requires { before + units.now.first < 2 ^ 64 }
    ensures { (measure : ℕ → ℕ) → weight measure result
        ≡ weight (λ unit. measure (before + unit)) units.now }
{
    Units {
        first: before + units.first,
        many: units.many,
        times: units.times,
    }
}
