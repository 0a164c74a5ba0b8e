//! The potentials of the days: the least cost of the needs from each on, where it orders.
ghost use Rattle.std.specs.Prelude.{◌*◌, ◌≡◌, ◌≤◌, ◌<◌, ◌+◌, length, slice_index};
ghost use Rattle.std.specs.List.{sum};
ghost use Rattle.planning_rules.specs.BestLots.{least_cost, best, first_order};
ghost use Rattle.lot_optimal.specs.Potentials.{AreToldFrom, cost_back, amount_back};

/// The least cost of some needs, and the first order of the list that has it.
#[derive(Clone, Copy)]
pub(crate) struct First {
    pub(crate) cost: u128,
    pub(crate) amount: u64,
}

/// What the last order costs and covers with one more day in front, which orders anew or waits since it.
fn look_back(hold: u64, need: u64, day: usize, potential: u128, next: First) -> First
    requires hold { hold ≤ 1000000 }
    requires day { day ≤ 400 }
    requires cost { next.cost ≤ 400000000000000000000000000 }
    requires amount { need + next.amount ≤ 1000000000000000000 }
    ensures cost { result.cost ≡ cost_back hold need day potential next.cost }
    ensures amount { result.amount ≡ amount_back hold need day potential next.cost next.amount }
{
    if need == 0 {
        return next;
    }
    let waits = hold as u128 * (need as u128 * day as u128) + next.cost;
    if potential <= waits {
        First {
            cost: potential,
            amount: 0,
        }
    } else {
        First {
            cost: waits,
            amount: need + next.amount,
        }
    }
}

/// The least cost of some needs of which the first is above 0, and the first order of the best list, from the potentials of the days
/// after the first.
pub(crate) fn first_of(setup: u64, hold: u64, wants: &[u64], potentials: &[u128]) -> First
    requires days { length wants.now ≤ 400 }
    requires some { 0 < slice_index wants.now 0 }
    requires same { length potentials.now ≡ length wants.now }
    requires setup { setup ≤ 1000000000 }
    requires hold { hold ≤ 1000000 }
    requires total { sum wants.now ≤ 1000000000000000000 }
    requires told { AreToldFrom 1 setup hold wants.now potentials.now }
    ensures cost { result.cost ≡ least_cost setup hold wants.now }
    ensures amount { result.amount ≡ first_order (best setup hold wants.now) }
{
    let mut first = First { cost: 0, amount: 0 };
    let mut day = wants.len();
    while day > 1 {
        day -= 1;
        first = look_back(hold, wants[day], day, potentials[day], first);
    }
    First {
        cost: setup as u128 + first.cost,
        amount: wants[0] + first.amount,
    }
}

/// The potential of each day with a need.
pub(crate) fn fill_potentials(setup: u64, hold: u64, wants: &[u64], potentials: &mut [u128])
    requires days { length wants.now ≤ 400 }
    requires same { length potentials.old ≡ length wants.now }
    requires setup { setup ≤ 1000000000 }
    requires hold { hold ≤ 1000000 }
    requires total { sum wants.now ≤ 1000000000000000000 }
    ensures told { AreToldFrom 0 setup hold wants.now potentials.new }
{
    let mut day = wants.len();
    while day > 0 {
        day -= 1;
        if wants[day] > 0 {
            potentials[day] = first_of(setup, hold, &wants[day..], &potentials[day..]).cost;
        }
    }
}
