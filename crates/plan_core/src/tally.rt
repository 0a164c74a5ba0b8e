//! Numbers of work.
ghost use Rattle.std.specs.Prelude.{◌≡◌};
ghost use Rattle.plan_core.specs.State as state;

use plan_walk::Tally;

/// Work with more of it. Each number stops at the greatest.
pub(crate) fn added(tally: Tally, work: Tally) -> Tally
    ensures { result ≡ state.added tally work }
{
    Tally {
        netted: stopped_sum(tally.netted, work.netted),
        reused: stopped_sum(tally.reused, work.reused),
        dropped: stopped_sum(tally.dropped, work.dropped),
    }
}

/// The sum of two numbers, or the greatest number where it is beyond that.
fn stopped_sum(a: u64, b: u64) -> u64
    ensures { result ≡ state.stopped_sum a b }
{
    a.saturating_add(b)
}
