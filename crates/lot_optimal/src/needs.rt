//! What each day needs.
ghost use Rattle.std.specs.Prelude.{◌≡◌, length, map};
ghost use Rattle.planning_rules.specs.Shortages.{shortage};
ghost use Rattle.planning_rules.specs.BestLots.{needs};

/// How much is short, and 0 where there is more than enough.
fn shortage_of(short: &i64) -> u64
    ensures { result ≡ shortage short.now }
{
    if *short > 0 { *short as u64 } else { 0 }
}

/// What each day needs: by how much its shortage passes the greatest before it.
pub(crate) fn fill_needs(short: &[i64], wants: &mut [u64])
    requires room { length wants.old ≡ length short.now }
    ensures { wants.new ≡ needs (map shortage short.now) }
{
    let mut most: u64 = 0;
    for day in 0..short.len() {
        let now = shortage_of(&short[day]);
        wants[day] = now.saturating_sub(most);
        most = most.max(now);
    }
}
