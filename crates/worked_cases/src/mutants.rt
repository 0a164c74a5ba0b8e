//! Audits of mutants: the files of a legal run, one of them with a small fault.
use crate::made::{CONSOLE, held, made_shelf, run_words, steady_shelf};
use crate::mutation::Mutation;
use byte_lines::MemoryShelf;
use std::alloc::{AllocError, Global};
use std::sync::Wait;
use std::thread::Threads;

/// The files of the run that have mutants, by turns.
const NAMES: [&str; 7] = ["journal", "in1", "out1", "in2", "out2", "in3", "out3"];

/// The run, session by session, so that the order of its entries is certain.
const RUN: &str = "run base journal in1 out1 / in2 out2 / in3 out3";

/// The audit, of which the last two sessions stand in one round: what is legal one after the other is legal side by side.
const AUDIT: &str = "audit base journal in1 out1 / in2 out2 in3 out3";

/// The files of a run.
#[derive(Drop)]
struct Files {
    base: Vec<u8>,
    /// What stands under the names, in order.
    texts: Vec<Vec<u8>>,
}

/// Runs what is made of so many parts from a start in three sessions, and audits so many mutants of its files. The mutants of a file go
/// through it from its first byte on, and the mutations come by turns. Reports the number of each, and what its audit tells.
pub fn report_mutants<R: Threads + Wait + Sync>(
    rt: &R,
    alloc: Global,
    count: u64,
    parts: u64,
    start: u64,
    report: &mut Vec<u8>,
) -> Result<(), AllocError> {
    let files = run_files(rt, alloc, parts, start)?;
    for number in 0..count {
        let told = audit_mutant(rt, alloc, &files, number, count)?;
        let line = format!(in alloc; "{number} ")?;
        report.extend_from_slice(line.as_bytes())?;
        report.extend_from_slice(told.as_slice())?;
    }
    Ok(())
}

/// The files of the run.
fn run_files<R: Threads + Wait + Sync>(
    rt: &R,
    alloc: Global,
    parts: u64,
    start: u64,
) -> Result<Files, AllocError> {
    let mut shelf = made_shelf(rt, alloc, parts, start)?;
    let input = held(alloc, &shelf, "in")?;
    for (session, name) in ["in1", "in2", "in3"].iter().enumerate() {
        shelf.put(
            name,
            session_input(alloc, input.as_slice(), session)?.as_slice(),
        )?;
    }
    run_words(rt, alloc, RUN, &mut shelf)?;
    let mut texts = Vec::new(alloc);
    for name in NAMES.iter() {
        texts.push(held(alloc, &shelf, name)?)?;
    }
    Ok(Files {
        base: held(alloc, &shelf, "base")?,
        texts,
    })
}

/// What a session of three is sent, from 0: the first line of the input, which tells who speaks, and its third of the 46 others.
fn session_input(alloc: Global, input: &[u8], session: usize) -> Result<Vec<u8>, AllocError> {
    let mut text = Vec::new(alloc);
    for (at, line) in input.split_inclusive(|byte| *byte == b'\n').enumerate() {
        if at == 0 || at / 16 == session {
            text.extend_from_slice(line)?;
        }
    }
    Ok(text)
}

/// What the audit of a mutant tells: the line on its console.
fn audit_mutant<R: Threads + Wait + Sync>(
    rt: &R,
    alloc: Global,
    files: &Files,
    number: u64,
    count: u64,
) -> Result<Vec<u8>, AllocError> {
    let mut shelf = mutant_shelf(alloc, files, number, count)?;
    run_words(rt, alloc, AUDIT, &mut shelf)?;
    held(alloc, &shelf, CONSOLE)
}

/// The files of the run, one of them with a fault.
fn mutant_shelf(
    alloc: Global,
    files: &Files,
    number: u64,
    count: u64,
) -> Result<MemoryShelf, AllocError> {
    let mut shelf = steady_shelf(alloc);
    shelf.put("base", files.base.as_slice())?;
    for (at, (name, text)) in (0..).zip(NAMES.iter().zip(files.texts.iter())) {
        if at == number % 7 {
            shelf.put(
                name,
                mutant_of(alloc, text.as_slice(), number / 7, count / 7)?.as_slice(),
            )?;
        } else {
            shelf.put(name, text.as_slice())?;
        }
    }
    Ok(shelf)
}

/// The mutant of a turn, from 0, where there are as many turns and one more.
fn mutant_of(alloc: Global, text: &[u8], turn: u64, last: u64) -> Result<Vec<u8>, AllocError> {
    let place = turn.saturating_mul(text.len() as u64) / last.saturating_add(1);
    Mutation::by_turns(turn).of(alloc, text, place as usize)
}
