//! A base and an input, made under two names.
ghost use Rattle.std.specs.Prelude.{◌≤◌};
ghost use Rattle.plan_schema.specs.declared.limits.TheConstants.{PART_LIMIT};
ghost use Rattle.response_program.specs.Making.{AreApart, HasMade, HasMadeFiles};
ghost use Rattle.response_program.specs.Outcomes.{outcome_of};
ghost use Rattle.response_program.specs.Views.{view};

use crate::console::{CONSOLE, tell_ending};
use crate::ending::Ending;
use byte_lines::Shelf;
use plan_make::make;
use program_words::Word;

/// The words of `make`: of how many parts, from which start, and under which names.
#[derive(Drop)]
pub struct Making<'a> {
    pub parts: u32,
    pub start: u64,
    pub base: Word<'a>,
    pub input: Word<'a>,
}

/// Makes a base and an input, with the console told how it ended.
pub fn make_told<H: Shelf>(making: &Making<'_>, shelf: &mut H) -> u8
    requires some { 1 ≤ making.now.parts }
    requires few { making.now.parts ≤ PART_LIMIT }
    requires apart { AreApart making.now.base making.now.input }
    ensures { HasMade (view H.held H.open_faults H.read_faults H.write_faults shelf.old)
        (view H.held H.open_faults H.read_faults H.write_faults shelf.new)
        making.now.parts making.now.start making.now.base making.now.input result }
{
    let console = match shelf.make_out(CONSOLE) {
        Ok(console) => console,
        Err(fault) => return Ending::of_open(CONSOLE, fault).status(),
    };
    let ending = make_files(making, shelf);
    tell_ending(ending, console, shelf)
}

/// Makes both files, then writes both, and gives both back.
fn make_files<'a, H: Shelf>(making: &Making<'a>, shelf: &mut H) -> Ending<'a>
    requires some { 1 ≤ making.now.parts }
    requires few { making.now.parts ≤ PART_LIMIT }
    requires apart { AreApart making.now.base making.now.input }
    ensures { HasMadeFiles (view H.held H.open_faults H.read_faults H.write_faults shelf.old)
        (view H.held H.open_faults H.read_faults H.write_faults shelf.new)
        making.now.parts making.now.start making.now.base making.now.input (outcome_of result) }
{
    let base = making.base.as_str();
    let input = making.input.as_str();
    let mut base_sink = match shelf.make_out(base) {
        Ok(sink) => sink,
        Err(fault) => return Ending::of_open(base, fault),
    };
    let mut input_sink = match shelf.make_out(input) {
        Ok(sink) => sink,
        Err(fault) => {
            shelf.give_out(base, base_sink);
            return Ending::of_open(input, fault);
        }
    };
    let made = make(making.parts, making.start, &mut base_sink, &mut input_sink);
    shelf.give_out(input, input_sink);
    shelf.give_out(base, base_sink);
    Ending::of_make(making.parts, base, input, made)
}
