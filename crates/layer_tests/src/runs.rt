//! Lists of steps of a core.
use crate::fixtures::ONE_PART;
use crate::stepped::{Line, begun, is_replied};
use std::test::Fail;

const THREE_APART: &[u8] =
    b"PLAN,2025-03-03,5\nPART,A,2,L4L,0,-\nSTOCK,A,30\nDEMAND,A,D1,2025-03-05,50\nPART,B,0,L4L,0,-\nPART,C,0,L4L,0,-\n";

// The question for a part on a cycle has no walk; the next one has the next number.
#[test]
fn a_refused_question_has_no_walk(rt: HostRuntime) -> Result<(), Fail> {
    let mut core = begun(rt.alloc(), THREE_APART)?;
    let script: &[(Line, &'static [u8])] = &[
        (Line::Change(b"1 1 1 ann BRANCH Baseline X\n"), b"point 1"),
        (Line::Change(b"1 1 1 ann PUT X BILL A B 1\n"), b"point 2"),
        (
            Line::Change(b"1 1 1 ann PUT Baseline BILL B A 1\n"),
            b"point 3",
        ),
        (Line::Change(b"1 1 1 ann UPDATE X\n"), b"point 4"),
        (Line::Part(b"X", b"A"), b"NO @4 cyclic A"),
        (Line::Part(b"X", b"C"), b"job 4"),
        (Line::Round(1), b"more"),
        (Line::Solve(1), b"solved"),
        (Line::Round(1), b"done"),
        (Line::Round(0), b"idle"),
    ];
    assert!(rt; is_replied(rt.alloc(), &mut core, script)?);
    Ok(())
}

// A walk goes on though its scenario is dropped and what stood on it is given back.
#[test]
fn a_walk_outlives_its_scenario(rt: HostRuntime) -> Result<(), Fail> {
    let mut core = begun(rt.alloc(), ONE_PART)?;
    let script: &[(Line, &'static [u8])] = &[
        (Line::Change(b"1 1 1 ann BRANCH Baseline X\n"), b"point 1"),
        (Line::Part(b"X", b"A"), b"job 1"),
        (Line::Change(b"1 1 1 ann DROP X\n"), b"point 2"),
        (Line::Reclaim, b"point 2"),
        (Line::Round(0), b"more"),
        (Line::Solve(0), b"solved"),
        (Line::Round(0), b"done"),
        (Line::Round(0), b"idle"),
    ];
    assert!(rt; is_replied(rt.alloc(), &mut core, script)?);
    Ok(())
}

// The same question three times: the first two are netted side by side, and the third takes what they put into the memo.
#[test]
fn a_question_asked_again(rt: HostRuntime) -> Result<(), Fail> {
    let mut core = begun(rt.alloc(), ONE_PART)?;
    let script: &[(Line, &'static [u8])] = &[
        (Line::Part(b"Baseline", b"A"), b"job 0"),
        (Line::Part(b"Baseline", b"A"), b"job 0"),
        (Line::Solve(0), b"solved"),
        (Line::Solve(1), b"solved"),
        (Line::Round(1), b"done"),
        (Line::Round(0), b"done"),
        (Line::Part(b"Baseline", b"A"), b"job 0"),
        (Line::Round(2), b"done"),
        (Line::Solve(2), b"idle"),
    ];
    assert!(rt; is_replied(rt.alloc(), &mut core, script)?);
    let tally = core.tally();
    assert_eq!(rt; (tally.netted, tally.reused, tally.dropped), (2, 1, 0));
    Ok(())
}

// Steps that begin no walk: a refused change, questions that are refused or about records alone, and the readers.
#[test]
fn steps_without_a_walk(rt: HostRuntime) -> Result<(), Fail> {
    let mut core = begun(rt.alloc(), ONE_PART)?;
    let script: &[(Line, &'static [u8])] = &[
        (Line::Change(b"1 1 1 bob BRANCH Baseline X\n"), b"point 1"),
        (Line::Change(b"1 1 1 ann DROP X\n"), b"NO @1 denied X"),
        (Line::Part(b"X", b"A"), b"NO @1 denied X"),
        (Line::Part(b"Y", b"A"), b"NO @1 no-scenario Y"),
        (Line::Part(b"Baseline", b"Q"), b"NO @1 no-part Q"),
        (Line::Records(b"Baseline", b"Q"), b"job 1"),
        (Line::Tree, b"lines 1 1"),
        (Line::Point, b"point 1"),
        (Line::Round(3), b"idle"),
        (Line::Solve(3), b"idle"),
        (Line::Round(4), b"idle"),
    ];
    assert!(rt; is_replied(rt.alloc(), &mut core, script)?);
    Ok(())
}
