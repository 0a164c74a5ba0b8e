use super::*;
use std::test::Fail;
use std::thread::{Threads, join};

#[derive(Debug, PartialEq, Eq, Hash, Drop)]
struct Place {
    row: u32,
    column: u32,
}

impl Twin for Place {
    fn twin(&self, _alloc: Global) -> Result<Self, AllocError> {
        Ok(Place {
            row: self.row,
            column: self.column,
        })
    }
}

#[derive(Drop)]
enum Step {
    Put(u32, u64),
    Get(u32, Option<u64>),
    KeepBelow(u32),
}

fn at_column(column: u32) -> Place {
    Place { row: 7, column }
}

fn take_step(alloc: Global, memo: &mut Memo<Place, u64>, step: &Step) -> Result<bool, AllocError> {
    match step {
        Step::Put(column, value) => {
            let value = Arc::new(alloc, *value)?;
            Ok(memo.put(at_column(*column), value).is_ok())
        }
        Step::Get(column, wanted) => {
            let found = memo.get(&at_column(*column)).map(|value| **value);
            Ok(found == *wanted)
        }
        Step::KeepBelow(limit) => {
            memo.keep_only(|key| key.row == 7 && key.column < *limit)?;
            Ok(true)
        }
    }
}

// The columns and the values, the most recently used first.
fn listed(alloc: Global, memo: &Memo<Place, u64>) -> Result<Vec<(u32, u64)>, AllocError> {
    let mut pairs = Vec::new(alloc);
    for (key, value) in memo.cache.iter() {
        pairs.push((key.column, **value))?;
    }
    Ok(pairs)
}

#[test]
fn keeps_the_order_of_use(rt: HostRuntime) -> Result<(), Fail> {
    let table: [(Step, &[(u32, u64)]); 13] = [
        (Step::Get(1, None), &[]),
        (Step::Put(1, 10), &[(1, 10)]),
        (Step::Put(2, 20), &[(2, 20), (1, 10)]),
        (Step::Put(3, 30), &[(3, 30), (2, 20), (1, 10)]),
        (Step::Get(1, Some(10)), &[(1, 10), (3, 30), (2, 20)]),
        (Step::Get(4, None), &[(1, 10), (3, 30), (2, 20)]),
        (Step::Put(4, 40), &[(4, 40), (1, 10), (3, 30)]),
        (Step::Get(2, None), &[(4, 40), (1, 10), (3, 30)]),
        (Step::Put(3, 31), &[(3, 31), (4, 40), (1, 10)]),
        (Step::Get(3, Some(31)), &[(3, 31), (4, 40), (1, 10)]),
        (Step::KeepBelow(4), &[(3, 31), (1, 10)]),
        (Step::KeepBelow(9), &[(3, 31), (1, 10)]),
        (Step::KeepBelow(0), &[]),
    ];
    let mut memo = Memo::new(rt.alloc(), 3)?;
    for (step, wanted) in &table {
        assert!(rt; take_step(rt.alloc(), &mut memo, step)?);
        let pairs = listed(rt.alloc(), &memo)?;
        assert_eq!(rt; pairs.as_slice(), *wanted);
        assert_eq!(rt; memo.len(), wanted.len());
    }
    Ok(())
}

#[test]
fn holds_one_pair(rt: HostRuntime) -> Result<(), Fail> {
    let mut memo = Memo::new(rt.alloc(), 1)?;
    for column in 0..3 {
        let value = Arc::new(rt.alloc(), 100 + column as u64)?;
        assert!(rt; memo.put(at_column(column), value).is_ok());
        let pairs = listed(rt.alloc(), &memo)?;
        assert_eq!(rt;
            pairs.as_slice(),
            [(column, 100 + column as u64)].as_slice()
        );
    }
    Ok(())
}

#[test]
fn puts_and_gets_many(rt: HostRuntime) -> Result<(), Fail> {
    let mut memo = Memo::new(rt.alloc(), 16_384)?;
    for column in 0..100_000 {
        let value = Arc::new(rt.alloc(), column)?;
        assert!(rt; memo.put(at_column(column), value).is_ok());
        let earlier = column.saturating_sub(100);
        let found = memo.get(&at_column(earlier)).map(|value| **value);
        assert_eq!(rt; found, Some(earlier));
    }
    assert_eq!(rt; memo.len(), 16_384);
    memo.keep_only(|key| key.column % 2 == 0)?;
    assert_eq!(rt; memo.len(), 8_192);
    Ok(())
}

// A memo goes to threads where its keys and values do: one is moved to a thread, and one is lent.
fn counts_in_threads<K: Eq + Hash + Send + Sync + Drop, V: Send + Sync + Drop, R: Threads>(
    rt: &R,
    moved: Memo<K, V>,
    lent: &mut Memo<K, V>,
    key: &K,
) -> (usize, bool) {
    join(rt, move || moved.len(), || lent.get(key).is_some())
}

#[test]
fn goes_to_threads(rt: HostRuntime) -> Result<(), Fail> {
    let moved = Memo::new(rt.alloc(), 2)?;
    let mut lent = Memo::new(rt.alloc(), 2)?;
    let value = Arc::new(rt.alloc(), 5)?;
    assert!(rt; lent.put(at_column(1), value).is_ok());
    let (count, found) = counts_in_threads(&rt, moved, &mut lent, &at_column(1));
    assert_eq!(rt; count, 0);
    assert!(rt; found);
    Ok(())
}
