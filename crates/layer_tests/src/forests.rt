//! Changes to the scenarios: which versions they share, and which changes are refused.
use crate::fixtures::{ONE_PART, THREE_PARTS, name};
use crate::planned::Planned;
use std::alloc::Global;
use std::test::Fail;

/// A change, with its reply.
type Line = (&'static [u8], &'static [u8]);

// Makes changes, of which each has to be answered so. A refused one must leave all as it was.
fn is_played(planned: &mut Planned, script: &[Line]) -> Result<bool, Fail> {
    for (text, wanted) in script {
        let before = planned.shown()?;
        let reply = planned.enter(text)?;
        if reply.as_slice() != *wanted {
            return Ok(false);
        }
        let after = planned.shown()?;
        if wanted.starts_with(b"NO ") && before.as_slice() != after.as_slice() {
            return Ok(false);
        }
    }
    Ok(true)
}

// Whether the contents of a scenario have these ids.
fn has_ids(planned: &Planned, scenario: &[u8], wanted: &[u8]) -> Result<bool, Fail> {
    let ids = planned.ids(&name(scenario)?)?;
    Ok(ids.as_slice() == wanted)
}

#[test]
fn a_commit_shares_the_versions_of_an_update(rt: HostRuntime) -> Result<(), Fail> {
    let mut planned = Planned::begin(rt.alloc(), THREE_PARTS)?;
    let updated: &[Line] = &[
        (b"1 1 1 ann BRANCH Baseline X\n", b"OK @1\n"),
        (b"1 1 1 ann PUT X STOCK A 40\n", b"OK @2\n"),
        (b"1 1 1 ann PUT Baseline STOCK B 5\n", b"OK @3\n"),
        (b"1 1 1 ann UPDATE X\n", b"OK @4\n"),
    ];
    let wanted = b" 0 plan 2 A 3 B 0 C";
    assert!(rt; is_played(&mut planned, updated)?);
    assert!(rt; has_ids(&planned, b"X", wanted)?);
    assert!(rt; is_played(&mut planned, &[(b"1 1 1 ann COMMIT X\n", b"OK @5\n")])?);
    assert!(rt; has_ids(&planned, b"X", wanted)?);
    assert!(rt; has_ids(&planned, b"Baseline", wanted)?);
    Ok(())
}

#[test]
fn an_update_over_a_changed_cell_makes_a_version(rt: HostRuntime) -> Result<(), Fail> {
    let mut planned = Planned::begin(rt.alloc(), ONE_PART)?;
    let updated: &[Line] = &[
        (b"1 1 1 ann BRANCH Baseline X\n", b"OK @1\n"),
        (b"1 1 1 ann PUT X STOCK A 40\n", b"OK @2\n"),
        (b"1 1 1 ann PUT Baseline STOCK A 35\n", b"OK @3\n"),
        (b"1 1 1 ann COMMIT X\n", b"NO @3 conflict STOCK A\n"),
        (b"1 1 1 ann UPDATE X\n", b"OK @4\n"),
    ];
    let wanted = b" 0 plan 4 A";
    assert!(rt; is_played(&mut planned, updated)?);
    assert!(rt; has_ids(&planned, b"X", wanted)?);
    assert!(rt; is_played(&mut planned, &[(b"1 1 1 ann COMMIT X\n", b"OK @5\n")])?);
    assert!(rt; has_ids(&planned, b"X", wanted)?);
    assert!(rt; has_ids(&planned, b"Baseline", wanted)?);
    Ok(())
}

#[test]
fn a_cell_without_rows_has_no_version(rt: HostRuntime) -> Result<(), Fail> {
    let mut planned = Planned::begin(rt.alloc(), ONE_PART)?;
    let script: &[Line] = &[
        (b"1 1 1 ann PUT Baseline STOCK B 5\n", b"OK @1\n"),
        (b"1 1 1 ann DEL Baseline STOCK B\n", b"OK @2\n"),
    ];
    assert!(rt; is_played(&mut planned, script)?);
    assert!(rt; has_ids(&planned, b"Baseline", b" 0 plan 0 A")?);
    Ok(())
}

#[test]
fn refused_changes_leave_all(rt: HostRuntime) -> Result<(), Fail> {
    let mut planned = Planned::begin(rt.alloc(), ONE_PART)?;
    let script: &[Line] = &[
        (b"1 1 1 ann PUT X STOCK A 1\n", b"NO @0 no-scenario X\n"),
        (
            b"1 1 1 ann DEL Baseline STOCK B\n",
            b"NO @0 no-record STOCK B\n",
        ),
        (b"1 1 1 ann BRANCH Baseline X\n", b"OK @1\n"),
        (b"1 1 1 ann BRANCH X Y\n", b"OK @2\n"),
        (b"1 1 1 ann BRANCH Baseline Y\n", b"NO @2 taken Y\n"),
        (b"1 1 1 ann DROP X\n", b"NO @2 has-children X\n"),
        (b"1 1 1 ann DROP Baseline\n", b"NO @2 root Baseline\n"),
        (b"1 1 1 ann UPDATE Baseline\n", b"NO @2 root Baseline\n"),
        (b"1 1 1 bob DROP Y\n", b"NO @2 denied Y\n"),
        (b"1 1 1 bob PUT Y STOCK A 1\n", b"NO @2 denied Y\n"),
        (b"1 1 1 ann SHARE X\n", b"OK @3\n"),
        (b"1 1 1 bob DROP X\n", b"NO @3 denied X\n"),
        (b"1 1 1 ann DROP Y\n", b"OK @4\n"),
        (b"1 1 1 ann DROP Y\n", b"NO @4 no-scenario Y\n"),
        (b"1 1 1 ann PUT X STOCK A 40\n", b"OK @5\n"),
        (b"1 1 1 ann PUT Baseline STOCK A 35\n", b"OK @6\n"),
        (b"1 1 1 bob COMMIT X\n", b"NO @6 conflict STOCK A\n"),
        (b"1 1 1 ann PUT Baseline STOCK A 30\n", b"OK @7\n"),
        (b"1 1 1 bob COMMIT X\n", b"OK @8\n"),
    ];
    assert!(rt; is_played(&mut planned, script)?);
    Ok(())
}

// Branches scenarios S1, S2 and so on, so many, each from the root or from the one before it.
fn branch_many(
    alloc: Global,
    planned: &mut Planned,
    count: u32,
    from_last: bool,
) -> Result<bool, Fail> {
    let mut all_are_made = true;
    for above in 0..count {
        let number = above + 1;
        let text = if from_last && above > 0 {
            format!(in alloc; "1 1 1 ann BRANCH S{above} S{number}\n")?
        } else {
            format!(in alloc; "1 1 1 ann BRANCH Baseline S{number}\n")?
        };
        let reply = planned.enter(text.as_str().as_bytes())?;
        all_are_made = all_are_made && reply.as_slice().starts_with(b"OK @");
    }
    Ok(all_are_made)
}

#[test]
fn no_scenario_past_the_256th(rt: HostRuntime) -> Result<(), Fail> {
    let mut planned = Planned::begin(rt.alloc(), ONE_PART)?;
    assert!(rt; branch_many(rt.alloc(), &mut planned, 255, false)?);
    let past: &[Line] = &[(
        b"1 1 1 ann BRANCH Baseline S256\n",
        b"NO @255 full scenarios\n",
    )];
    assert!(rt; is_played(&mut planned, past)?);
    assert_eq!(rt; planned.forest.len(), 256);
    Ok(())
}

#[test]
fn no_scenario_below_32_others(rt: HostRuntime) -> Result<(), Fail> {
    let mut planned = Planned::begin(rt.alloc(), ONE_PART)?;
    assert!(rt; branch_many(rt.alloc(), &mut planned, 32, true)?);
    let below: &[Line] = &[(b"1 1 1 ann BRANCH S32 S33\n", b"NO @32 depth S33\n")];
    assert!(rt; is_played(&mut planned, below)?);
    assert_eq!(rt; planned.forest.len(), 33);
    Ok(())
}
