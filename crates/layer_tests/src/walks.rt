//! Walks over plans that are large, deep or cyclic.
ghost use Rattle.std.specs.Prelude.{◌≡◌, true, IfOk};
ghost use Rattle.std.specs.List.{list_all};
ghost use Rattle.core_runs.specs.Runs.{is_sound_step};

use crate::stepped::{Line, add_step, begun, is_replied};
use byte_lines::Bytes;
use core_runs::{CoreReply, CoreSteps, core_run};
use plan_walk::Round;
use std::alloc::Global;
use std::test::Fail;

// Parts P1, P2 and so on, so many, each below the one before it if they are to be a chain.
fn many_parts(alloc: Global, count: u32, chain: bool) -> Result<Bytes, Fail> {
    let mut text = Bytes::new(alloc);
    text.extend(b"PLAN,2025-03-03,5\n")?;
    for above in 0..count {
        let number = above + 1;
        text.extend(
            format!(in alloc; "PART,P{number},0,L4L,0,-\n")?
                .as_str()
                .as_bytes(),
        )?;
        if chain && above > 0 {
            text.extend(
                format!(in alloc; "BILL,P{above},P{number},1\n")?
                    .as_str()
                    .as_bytes(),
            )?;
        }
    }
    Ok(text)
}

// All parts are netted at once, and all are taken from the memo when they are asked for again.
#[test]
fn a_frontier_of_10_000_parts(rt: HostRuntime) -> Result<(), Fail> {
    let text = many_parts(rt.alloc(), 10_000, false)?;
    let mut core = begun(rt.alloc(), text.as_slice())?;
    let script: &[(Line, &'static [u8])] = &[
        (Line::All(b"Baseline"), b"job 0"),
        (Line::Round(0), b"more"),
        (Line::Solve(0), b"solved"),
        (Line::Round(0), b"done"),
        (Line::All(b"Baseline"), b"job 0"),
        (Line::Round(1), b"done"),
    ];
    assert!(rt; is_replied(rt.alloc(), &mut core, script)?);
    let tally = core.tally();
    assert_eq!(rt;
        (tally.netted, tally.reused, tally.dropped),
        (10_000, 10_000, 0)
    );
    Ok(())
}

// How many rounds aren't the last.
fn unfinished(replies: &[CoreReply]) -> usize {
    replies
        .iter()
        .filter(|reply| matches!(reply, CoreReply::Round(Round::More)))
        .count()
}

// Asks for a part, and then makes so many rounds with netting between them.
fn rounds_for(alloc: Global, part: &'static [u8], count: u32) -> Result<CoreSteps, Fail>
    ensures { IfOk result (λ steps. list_all is_sound_step steps ≡ true) }
{
    let mut steps = CoreSteps::new(alloc);
    add_step(alloc, &mut steps, Line::Part(b"Baseline", part))?;
    for _round in 0..count {
        add_step(alloc, &mut steps, Line::Round(0))?;
        add_step(alloc, &mut steps, Line::Solve(0))?;
    }
    Ok(steps)
}

// One part stands at each level: a round finds the first to be netted, and each later one takes in the part of a level.
#[test]
fn a_chain_of_300_levels(rt: HostRuntime) -> Result<(), Fail> {
    let text = many_parts(rt.alloc(), 300, true)?;
    let mut core = begun(rt.alloc(), text.as_slice())?;
    let steps = rounds_for(rt.alloc(), b"P300", 301)?;
    let replies = core_run(rt.alloc(), &mut core, &steps)?;
    assert_eq!(rt; unfinished(replies.as_slice()), 300);
    assert!(rt; matches!(replies.get(601), Some(CoreReply::Round(Round::Done))));
    assert_eq!(rt; core.tally().netted, 300);
    Ok(())
}

// M is below a cycle of Y and X, and nothing on the cycle of A and B is above it.
#[test]
fn the_least_name_of_a_cycle_above(rt: HostRuntime) -> Result<(), Fail> {
    let text =
        b"PLAN,2025-03-03,5\nPART,A,0,L4L,0,-\nPART,B,0,L4L,0,-\nPART,M,0,L4L,0,-\nPART,X,0,L4L,0,-\nPART,Y,0,L4L,0,-\n\
        BILL,A,B,1\nBILL,B,A,1\nBILL,M,A,1\nBILL,X,Y,1\nBILL,Y,X,1\nBILL,Y,M,1\n";
    let mut core = begun(rt.alloc(), text)?;
    let script: &[(Line, &'static [u8])] = &[
        (Line::Part(b"Baseline", b"M"), b"NO @0 cyclic X"),
        (Line::All(b"Baseline"), b"NO @0 cyclic A"),
    ];
    assert!(rt; is_replied(rt.alloc(), &mut core, script)?);
    Ok(())
}
