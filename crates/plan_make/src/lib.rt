//! A base and an input of any size, made from a number: two texts to try the program on.
#![tactic(auto)]

ghost use Rattle.std.specs.Prelude.{◌≤◌};
ghost use Rattle.plan_schema.specs.declared.limits.TheConstants.{PART_LIMIT};
ghost use Rattle.plan_schema.specs.Outside.{Wrote};
ghost use Rattle.plan_make.specs.Base.{base_text};
ghost use Rattle.plan_make.specs.Input.{input_text};
ghost use Rattle.plan_make.specs.Made.{of_base, WroteBehind};

mod base;
mod fault;
mod input;
mod numbers;

use base::write_base;
use byte_lines::Sink;
pub use fault::MakeFault;
use input::write_input;
use numbers::Numbers;

/// Writes a base of so many parts, and then an input of 47 requests over them. The same numbers make the same texts. Takes no
/// memory but the sinks' own.
pub fn make<K: Sink, L: Sink>(
    parts: u32,
    start: u64,
    base: &mut K,
    input: &mut L,
) -> Result<(), MakeFault>
    requires some { 1 ≤ parts }
    requires few { parts ≤ PART_LIMIT }
    ensures base { Wrote K.taken K.faults K.label base.old base.new (base_text parts start)
        (of_base tt result) }
    ensures input { WroteBehind L.taken L.faults L.label input.old input.new
        (input_text parts start) result }
{
    let parts = u64::from(parts);
    let mut numbers = Numbers::new(start);
    match write_base(parts, &mut numbers, base) {
        Ok(()) => (),
        Err(fault) => return Err(MakeFault::Base(fault)),
    }
    match write_input(parts, &mut numbers, input) {
        Ok(()) => Ok(()),
        Err(fault) => Err(MakeFault::Input(fault)),
    }
}
