//! Cores that take steps, and what these are replied.
ghost use Rattle.std.specs.Prelude.{◌≡◌, true, IfOk};
ghost use Rattle.std.specs.List.{list_all};
ghost use Rattle.core_runs.specs.Runs.{is_sound_step};

use crate::fixtures::{base, entry, name};
use crate::planned::{reply_text, show_number};
use byte_lines::Bytes;
use command_words::Reply;
use core_runs::{CoreReply, CoreStep, CoreSteps, core_run};
use plan_core::Core;
use plan_jobs::Wanted;
use plan_schema::CellName;
use plan_walk::Round;
use std::alloc::{AllocError, Global};
use std::test::Fail;

/// A step, in words.
#[derive(Clone, Copy)]
pub enum Line {
    /// The change of an entry's text.
    Change(&'static [u8]),
    /// The plan of a part of a scenario.
    Part(&'static [u8], &'static [u8]),
    /// The plan of all parts of a scenario.
    All(&'static [u8]),
    /// A part's records in a scenario.
    Records(&'static [u8], &'static [u8]),
    Solve(u32),
    Round(u32),
    Tree,
    Point,
    Reclaim,
}

/// A core with the records of a base file, and an empty memo for 16,384 pairs.
pub fn begun(alloc: Global, text: &[u8]) -> Result<Core, Fail> {
    let core = Core::begin(alloc, base(alloc, text)?, 16_384)?;
    Ok(core)
}

/// The step in words.
fn step_of(alloc: Global, line: Line) -> Result<CoreStep, Fail>
    ensures { IfOk result (λ step. is_sound_step step ≡ true) }
{
    let user = name(b"ann")?;
    Ok(match line {
        Line::Change(text) => CoreStep::Change(entry(alloc, text)?),
        Line::Part(scenario, part) => CoreStep::Ask {
            user,
            scenario: name(scenario)?,
            wanted: Wanted::Part(name(part)?),
        },
        Line::All(scenario) => CoreStep::Ask {
            user,
            scenario: name(scenario)?,
            wanted: Wanted::All,
        },
        Line::Records(scenario, part) => CoreStep::Ask {
            user,
            scenario: name(scenario)?,
            wanted: Wanted::Cell(CellName::Part(name(part)?)),
        },
        Line::Solve(number) => CoreStep::Solve(number),
        Line::Round(number) => CoreStep::Round(number),
        Line::Tree => CoreStep::Tree(user),
        Line::Point => CoreStep::Point,
        Line::Reclaim => CoreStep::Reclaim,
    })
}

/// Adds a step in words.
pub fn add_step(alloc: Global, steps: &mut CoreSteps, line: Line) -> Result<(), Fail>
    requires { list_all is_sound_step steps.old ≡ true }
    ensures { list_all is_sound_step steps.new ≡ true }
{
    let step = step_of(alloc, line)?;
    steps.add(step)?;
    Ok(())
}

/// Takes steps in words, of which each has to be replied so.
pub fn is_replied(
    alloc: Global,
    core: &mut Core,
    script: &[(Line, &'static [u8])],
) -> Result<bool, Fail> {
    let steps = steps_in(alloc, script)?;
    let replies = core_run(alloc, core, &steps)?;
    let told = told_in(alloc, replies.as_slice())?;
    let wanted = wanted_in(alloc, script)?;
    Ok(told.as_slice() == wanted.as_slice())
}

/// The steps of a script.
fn steps_in(alloc: Global, script: &[(Line, &'static [u8])]) -> Result<CoreSteps, Fail>
    ensures { IfOk result (λ steps. list_all is_sound_step steps ≡ true) }
{
    let mut steps = CoreSteps::new(alloc);
    for (line, _reply) in script {
        add_step(alloc, &mut steps, *line)?;
    }
    Ok(steps)
}

/// The replies that a script wants, each with a line feed.
fn wanted_in(alloc: Global, script: &[(Line, &'static [u8])]) -> Result<Bytes, AllocError> {
    let mut wanted = Bytes::new(alloc);
    for (_line, reply) in script {
        wanted.extend(reply)?;
        wanted.push(b'\n')?;
    }
    Ok(wanted)
}

/// Replies in words.
fn told_in(alloc: Global, replies: &[CoreReply]) -> Result<Bytes, Fail> {
    let mut told = Bytes::new(alloc);
    for reply in replies {
        show_reply(&mut told, alloc, reply)?;
    }
    Ok(told)
}

/// Adds a reply in words, and a line feed.
fn show_reply(text: &mut Bytes, alloc: Global, reply: &CoreReply) -> Result<(), Fail> {
    match reply {
        CoreReply::Point(point) => show(text, alloc, b"point", *point)?,
        CoreReply::Job(point) => show(text, alloc, b"job", *point)?,
        CoreReply::Refused(point, refusal) => {
            let told = reply_text(alloc, &Reply::No(*point, *refusal))?;
            return Ok(text.extend(told.as_slice())?);
        }
        CoreReply::Lines(point, lines) => {
            show(text, alloc, b"lines", *point)?;
            show_number(text, alloc, lines.len() as u64)?;
        }
        CoreReply::Round(Round::More) => text.extend(b"more")?,
        CoreReply::Round(Round::Done) => text.extend(b"done")?,
        CoreReply::Solved => text.extend(b"solved")?,
        CoreReply::Memory => text.extend(b"memory")?,
        CoreReply::Idle => text.extend(b"idle")?,
    }
    text.push(b'\n')?;
    Ok(())
}

/// Adds a word and a number.
fn show(text: &mut Bytes, alloc: Global, word: &[u8], number: u64) -> Result<(), AllocError> {
    text.extend(word)?;
    show_number(text, alloc, number)
}
