//! Units in two rows that meet.
ghost use Rattle.std.specs.Prelude.{◌≡◌, ◌+◌, ◌<◌, ◌≤◌, ◌^◌, ℕ};
ghost use Rattle.full_pegging.specs.Weights.{weight, overlay_weight};

use crate::units::Units;

/// What two rows of units come to that meet: three rows that don't, one behind the other.
#[derive(Clone, Copy)]
pub struct Overlay {
    /// Those of the first row that stand before the second.
    pub before: Units,
    /// Those in both rows, counted for both.
    pub shared: Units,
    /// Those that are left behind them of one of the rows.
    pub behind: Units,
}

/// How often a unit is counted behind the shared ones: as in the first row where that goes on, else as in the other.
fn behind_times(rest: u64, shared: u64, times: u64, other: u64) -> u64
    ensures longer { shared < rest → result ≡ times }
    ensures other { rest ≤ shared → result ≡ other }
{
    if shared < rest { times } else { other }
}

/// Two rows of units that meet, as rows that don't: each unit is counted as often as in both together.
pub fn overlaid(units: &Units, other: &Units) -> Overlay
    requires order { units.now.first ≤ other.now.first }
    requires meet { other.now.first < units.now.first + units.now.many }
    requires first { units.now.first + units.now.many < 2 ^ 64 }
    requires second { other.now.first + other.now.many < 2 ^ 64 }
    requires fits { units.now.times + other.now.times < 2 ^ 64 }
    ensures before { result.before.first + result.before.many ≤ result.shared.first }
    ensures shared { result.shared.first + result.shared.many ≤ result.behind.first }
    ensures weight { (measure : ℕ → ℕ) → overlay_weight measure result
        ≡ weight measure units.now + weight measure other.now }
{
    let lead = other.first - units.first;
    let rest = units.many - lead;
    let shared = rest.min(other.many);
    let end = other.first + shared;
    let many = (rest - shared) + (other.many - shared);
    let both = units.times + other.times;
    let times = behind_times(rest, shared, units.times, other.times);
    Overlay {
        before: Units {
            first: units.first,
            many: lead,
            times: units.times,
        },
        shared: Units {
            first: other.first,
            many: shared,
            times: both,
        },
        behind: Units {
            first: end,
            many,
            times,
        },
    }
}
