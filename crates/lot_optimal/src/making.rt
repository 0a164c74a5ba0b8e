//! The rows of the best list.
ghost use Rattle.std.specs.Prelude.{IfOk, true, ◌≡◌, ◌≤◌, length, All, map};
ghost use Rattle.planning_rules.specs.Shortages.{shortage, InReach};
ghost use Rattle.planning_rules.specs.BestLots.{needs, least_cost, best};
ghost use Rattle.lot_optimal.specs.Potentials.{AreToldFrom};
ghost use Rattle.lot_optimal.specs.Costs.{is_proof, rows_of};

use crate::checking::potential_of;
use crate::needs::fill_needs;
use crate::potentials::fill_potentials;
use crate::rows::{CostRow, CostRows, Costs};
use plan_schema::{Qty, Quantities, Series};
use std::alloc::{AllocError, Global};

/// The costs of the best list, with a row for each day with a need.
pub fn costs(
    alloc: Global,
    setup: Qty,
    hold: Qty,
    short: &[i64],
    planned: &Quantities,
) -> Result<Costs, AllocError>
    requires setup { setup ≤ 1000000000 }
    requires hold { hold ≤ 1000000 }
    requires days { length short.now ≤ 400 }
    requires reach { All InReach short.now }
    requires planned { planned.now ≡ best setup hold (needs (map shortage short.now)) }
    ensures rows { IfOk result (λ costs. costs.rows
        ≡ rows_of setup hold 0 (needs (map shortage short.now)) planned.now) }
    ensures cost { IfOk result (λ costs. costs.cost
        ≡ least_cost setup hold (needs (map shortage short.now))) }
    ensures passes { IfOk result (λ costs. is_proof setup hold (map shortage short.now) costs
        ≡ true) }
{
    let mut wants = [0u64; 400];
    let mut potentials = [0u128; 400];
    let wants = &mut wants[..short.len()];
    let potentials = &mut potentials[..short.len()];
    fill_needs(short, wants);
    fill_potentials(setup, hold, wants, potentials);
    let rows = rows_made(alloc, setup, hold, wants, potentials, planned.as_slice())?;
    let cost = potential_of(rows.as_slice());
    Ok(Costs { cost, rows })
}

/// The rows of a plan of orders.
fn rows_made(
    alloc: Global,
    setup: u64,
    hold: u64,
    wants: &[u64],
    potentials: &[u128],
    planned: &[u64],
) -> Result<CostRows, AllocError>
    requires days { length wants.now ≤ 400 }
    requires same { length planned.now ≡ length wants.now }
    requires also { length potentials.now ≡ length wants.now }
    requires told { AreToldFrom 0 setup hold wants.now potentials.now }
    ensures { IfOk result (λ rows. rows ≡ rows_of setup hold 0 wants.now planned.now) }
{
    let mut rows = Series::new(alloc);
    for day in 0..wants.len() {
        if wants[day] > 0 {
            rows.push(CostRow {
                at: day as u16,
                need: wants[day],
                quantity: planned[day],
                potential: potentials[day],
            })?;
        }
    }
    Ok(rows)
}
