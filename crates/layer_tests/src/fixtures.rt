//! Names, bases and entries, from their texts.
ghost use Rattle.std.specs.Prelude.{◌≡◌, true, IfOk};
ghost use Rattle.plan_schema.specs.Sound.{is_sound_entry};
ghost use Rattle.scenario_rules.specs.Whole.{AreWholeContents, AreWithinLimits};

use byte_lines::{Bytes, SteadyIn};
use plan_import::import;
use plan_journal::read_entry;
use plan_schema::{Contents, Entry, Name};
use std::alloc::Global;
use std::test::Fail;

/// A part with stock and a demand.
pub const ONE_PART: &[u8] =
    b"PLAN,2025-03-03,5\nPART,A,2,L4L,0,-\nSTOCK,A,30\nDEMAND,A,D1,2025-03-05,50\n";

/// The same with a component, and a part beside them.
pub const THREE_PARTS: &[u8] =
    b"PLAN,2025-03-03,5\nPART,A,2,L4L,0,-\nSTOCK,A,30\nDEMAND,A,D1,2025-03-05,50\nPART,B,1,L4L,0,-\nBILL,A,B,3\nPART,C,0,L4L,0,-\n";

/// The name of this text.
pub fn name(text: &[u8]) -> Result<Name, Fail> {
    match Name::read(text) {
        Some(name) => Ok(name),
        None => Err(Fail::new("no name")),
    }
}

/// The records of a base file.
pub fn base(alloc: Global, text: &[u8]) -> Result<Contents, Fail>
    ensures whole { IfOk result (λ contents. AreWholeContents contents) }
    ensures limits { IfOk result (λ contents. AreWithinLimits contents) }
{
    let mut bytes = Bytes::new(alloc);
    bytes.extend(text)?;
    let mut source = SteadyIn::new(alloc, bytes);
    match import(alloc, &mut source) {
        Ok(contents) => Ok(contents),
        Err(_) => Err(Fail::new("no base")),
    }
}

/// The entry of a journal's text, with the number 1.
pub fn entry(alloc: Global, text: &[u8]) -> Result<Entry, Fail>
    ensures { IfOk result (λ entry. is_sound_entry entry ≡ true) }
{
    match read_entry(alloc, 1, text)? {
        Some(entry) => Ok(entry),
        None => Err(Fail::new("no entry")),
    }
}
