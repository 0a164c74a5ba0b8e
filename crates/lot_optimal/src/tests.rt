//! Least-cost lots without a setup, without holding, of one day, and of equal costs; and what is proved of their costs.
use crate::{check, costs, fill_best, first_amount};
use plan_schema::Series;
use std::alloc::AllocError;

/// What is short where 10, 60, 15 and 40 are needed on four days.
const SHORT: [i64; 4] = [10, 70, 85, 125];

#[test]
fn best_lists(rt: HostRuntime) {
    for (setup, hold, short, expected) in [
        (100, 1, SHORT, [85, 0, 0, 40]),
        (0, 1, SHORT, [10, 60, 15, 40]),
        (100, 0, SHORT, [125, 0, 0, 0]),
        (0, 0, SHORT, [10, 60, 15, 40]),
        (100, 1, [10, -5, 0, 3], [10, 0, 0, 0]),
        (5, 1, [10, 15, 20, 25], [10, 5, 5, 5]),
        (6, 1, [10, 15, 20, 25], [15, 0, 10, 0]),
    ] {
        let mut orders = [0; 4];
        fill_best(setup, hold, &short, &mut orders);
        assert_eq!(rt; orders, expected, "{short:?}");
        assert!(rt; 1 <= short[0]);
        assert_eq!(rt; first_amount(setup, hold, &short), expected[0], "{short:?}");
    }
}

#[test]
fn one_day(rt: HostRuntime) {
    let mut orders = [0];
    fill_best(100, 1, &[7], &mut orders);
    assert_eq!(rt; orders, [7]);
    assert_eq!(rt; first_amount(0, 0, &[7]), 7);
}

#[test]
fn proved_costs(rt: HostRuntime) -> Result<(), AllocError> {
    let mut orders = vec![in rt.alloc(); 0; 4]?;
    fill_best(100, 1, &SHORT, &mut orders);
    let planned = Series::from_vec(orders);
    let told = costs(rt.alloc(), 100, 1, &SHORT, &planned)?;
    assert_eq!(rt; told.cost, 290);
    let potentials = [290, 195, 140, 100];
    let rows = told.rows.as_slice();
    assert_eq!(rt; rows.len(), 4);
    for (row, potential) in rows.iter().zip(potentials) {
        assert_eq!(rt; row.potential, potential);
    }
    assert!(rt; check(100, 1, &SHORT, &told));
    assert!(rt; !check(101, 1, &SHORT, &told));
    Ok(())
}
