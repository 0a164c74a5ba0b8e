//! A trial: a base and an input, made and served without files.
ghost use Rattle.std.specs.Prelude.{◌≡◌, ◌≤◌, true, length, List, ℕ, Ok};
ghost use Rattle.plan_schema.specs.Base.{is_base};
ghost use Rattle.plan_schema.specs.declared.limits.TheConstants.{PART_LIMIT};
ghost use Rattle.plan_import.specs.BaseFile.{base_of};
ghost use Rattle.plan_make.specs.Base.{base_text};
ghost use Rattle.plan_make.specs.Input.{input_text};
ghost use Rattle.response_program.specs.Outcomes.{outcome_of};
ghost use Rattle.response_program.specs.Tried as spec;
ghost use Rattle.response_program.specs.Tried.{DropsMost, Tries, HasTried};
ghost use Rattle.response_program.specs.Views.{view};

use crate::console::{CONSOLE, tell_ending};
use crate::ending::{Ending, Totals, Trial};
use byte_lines::{Bytes, Served, Shelf, SteadyIn, SteadyOut};
use plan_book::{Book, PlanBook};
use plan_import::{ImportFault, import};
use plan_make::make;
use plan_schema::Contents;
use plan_walk::Tally;
use program_words::MEMO_DEFAULT;
use sessions::serve_alone;
use std::alloc::Global;

/// A trial of so many parts from a start, with the console told what it came to.
pub fn trial_told<H: Shelf>(alloc: Global, parts: u32, start: u64, shelf: &mut H) -> u8
    requires some { 1 ≤ parts }
    requires few { parts ≤ PART_LIMIT }
    ensures { HasTried (view H.held H.open_faults H.read_faults H.write_faults shelf.old)
        (view H.held H.open_faults H.read_faults H.write_faults shelf.new) parts start result }
{
    let console = match shelf.make_out(CONSOLE) {
        Ok(console) => console,
        Err(fault) => return Ending::of_open(CONSOLE, fault).status(),
    };
    let ending = trial(alloc, parts, start);
    tell_ending(ending, console, shelf)
}

/// Makes a base and an input in memory, and tries them.
fn trial<'a>(alloc: Global, parts: u32, start: u64) -> Ending<'a>
    requires some { 1 ≤ parts }
    requires few { parts ≤ PART_LIMIT }
    ensures { Tries parts (base_text parts start) (input_text parts start) (outcome_of result) }
{
    let mut base = SteadyOut::new(alloc);
    let mut input = SteadyOut::new(alloc);
    match make(parts, start, &mut base, &mut input) {
        Ok(()) => trial_of(alloc, parts, base.into_bytes(), input.into_bytes()),
        Err(_) => Ending::Memory,
    }
}

/// Tries an input over a base. Nothing in memory fails but for want of it.
fn trial_of<'a>(alloc: Global, parts: u32, base: Bytes, input: Bytes) -> Ending<'a>
    ensures { Tries parts base input (outcome_of result) }
{
    let mut source = SteadyIn::new(alloc, base);
    match import(alloc, &mut source) {
        Ok(contents) => trial_over(alloc, parts, contents, input),
        Err(ImportFault::Read | ImportFault::Memory) => Ending::Memory,
        Err(fault) => Ending::Base(fault),
    }
}

/// Serves an input over contents, alone, and keeps its replies only until those for want of memory are counted.
fn trial_over<'a>(alloc: Global, parts: u32, contents: Contents, input: Bytes) -> Ending<'a>
    requires { is_base contents ≡ true }
    ensures { (base : List ℕ) → base_of base ≡ Ok contents → Tries parts base input
        (outcome_of result) }
{
    let Ok(mut book) = Book::begin(alloc, contents, MEMO_DEFAULT) else {
        return Ending::Memory;
    };
    let mut source = SteadyIn::new(alloc, input);
    let mut sink = SteadyOut::new(alloc);
    match serve_alone(alloc, &mut book, 1, true, &mut source, &mut sink) {
        Served::Ended(requests) => {
            book.holds();
            let totals = totals_of(&book, sink.bytes());
            Ending::Tried(Trial {
                parts,
                requests,
                totals,
            })
        }
        Served::Limit => Ending::Limit(1),
        _other => Ending::Memory,
    }
}

/// What a book came to, with the replies for want of memory in an output among what was dropped.
fn totals_of(book: &Book, output: &[u8]) -> Totals
    ensures counted { result.entries ≡ length book.now.entries }
    ensures drops { DropsMost (spec.mem_lines output.now) result }
{
    let tally = book.tally();
    let dropped = tally.dropped.saturating_add(mem_lines(output) as u64);
    Totals {
        entries: book.journal().len() as u64,
        work: Some(Tally { dropped, ..tally }),
    }
}

/// How many lines of an output are a reply for want of memory.
fn mem_lines(output: &[u8]) -> usize
    ensures { result ≡ spec.mem_lines output.now }
{
    output
        .split(|byte| *byte == b'\n')
        .filter(|line| *line == b"MEM".as_slice())
        .count()
}
