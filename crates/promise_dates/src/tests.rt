//! Promises where memory is ample.
use super::*;
use plan_schema::Release;
use std::test::Fail;

// An outcome with these balances.
fn with_balances(alloc: Global, balances: &[u64]) -> Result<Outcome, AllocError> {
    Ok(Outcome {
        gross: Series::new(alloc),
        sched: Series::new(alloc),
        planned: Series::new(alloc),
        balance: Series::from_vec(Vec::from_slice(alloc, balances)?),
        release: Release::new(alloc, Vec::new(alloc))?,
        late: 0,
    })
}

#[test]
fn promises_the_least_balance_to_come(rt: HostRuntime) -> Result<(), Fail> {
    let table: [(&[u64], &[u64]); 4] = [
        (&[], &[]),
        (&[7], &[7]),
        (&[40, 10, 25, 5, 30], &[5, 5, 5, 5, 30]),
        (&[3, 9, 9, 12], &[3, 9, 9, 12]),
    ];
    for (balances, wanted) in &table {
        let outcome = with_balances(rt.alloc(), *balances)?;
        let promised = promise(rt.alloc(), &outcome)?;
        assert_eq!(rt; promised.as_slice(), *wanted);
    }
    Ok(())
}
