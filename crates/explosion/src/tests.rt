//! Calls that take memory, met where there is enough of it: those of this crate and of the crates below it that no program reaches.
use crate::{gross, sched};
use low_level_codes::{LevelFault, closure, levels};
use plan_schema::{CellName, Day, Name, Release, Series};
use record_versions::{Cell, VersionId};
use shared_memo::Twin;
use std::test::Fail;
use walk_rules::MemoKey;

// B is below A, and C below both.
#[test]
fn levels_of_a_closure(rt: HostRuntime) -> Result<(), Fail> {
    let alloc = rt.alloc();
    let a = Name::read(b"A").expect(&rt, "a name");
    let b = Name::read(b"B").expect(&rt, "a name");
    let c = Name::read(b"C").expect(&rt, "a name");
    let bills = [(b, a), (c, a), (c, b)];
    let closed = closure(alloc, &bills, &[c])?;
    let codes = levels(alloc, &bills, closed.as_slice());
    assert!(rt;
        matches!(&codes, Ok(codes) if codes.as_slice() == [(a, 0), (b, 1), (c, 2)].as_slice())
    );
    Ok(())
}

// X and Y are on a cycle, and A is below it.
#[test]
fn least_name_on_a_cycle(rt: HostRuntime) -> Result<(), Fail> {
    let alloc = rt.alloc();
    let a = Name::read(b"A").expect(&rt, "a name");
    let x = Name::read(b"X").expect(&rt, "a name");
    let y = Name::read(b"Y").expect(&rt, "a name");
    let bills = [(a, y), (x, y), (y, x)];
    let closed = closure(alloc, &bills, &[a])?;
    let codes = levels(alloc, &bills, closed.as_slice());
    assert!(rt; matches!(&codes, Err(LevelFault::Cyclic(name)) if *name == x));
    Ok(())
}

#[test]
fn sums_of_no_rows(rt: HostRuntime) -> Result<(), Fail> {
    let alloc = rt.alloc();
    let Ok(start) = Day::read(b"2025-03-03") else {
        return Err(Fail::from("a day"));
    };
    let cell = Cell::new(alloc);
    let asked = gross(alloc, &cell, &start, 2, &[]);
    assert!(rt; matches!(&asked, Ok(asked) if asked.as_slice() == [0, 0].as_slice()));
    let received = sched(alloc, &cell, &start, 2)?;
    assert!(rt; received.as_slice() == [0, 0].as_slice());
    Ok(())
}

#[test]
fn twin_of_a_key(rt: HostRuntime) -> Result<(), Fail> {
    let alloc = rt.alloc();
    let plan = VersionId {
        point: 0,
        cell: CellName::Plan,
    };
    let mut releases = Series::new(alloc);
    releases.add(Release::new(alloc, vec![in alloc; 7; 2]?)?)?;
    let key = MemoKey {
        part: plan,
        calendar: None,
        plan,
        releases,
    };
    let twin = key.twin(alloc)?;
    assert!(rt; twin == key);
    Ok(())
}
