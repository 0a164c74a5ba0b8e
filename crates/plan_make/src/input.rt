//! The input: twenty turns of a user in a branch.
ghost use Rattle.std.specs.Prelude.{◌≡◌, ◌≤◌, length, OnOk};
ghost use Rattle.arrayvec.specs.ArrayVec.{array_vec_len};
ghost use Rattle.plan_schema.specs.Outside.{Wrote};
ghost use Rattle.command_words.specs.Pages.{Gathered};
ghost use Rattle.plan_make.specs.Numbers.{after};
ghost use Rattle.plan_make.specs.Input.{put_text, plan_text, turn_text, turns_text, behind_turns, requests_text};

use crate::base::part_name;
use crate::numbers::Numbers;
use arrayvec::ArrayVec;
use byte_lines::{Sink, SinkFault};
use command_words::{Page, flush, put_line};
use row_text::{RowText, push_number, push_word};

/// The first lines of each input, and the last ones, but for the last line feed.
const OPENING: &[u8] = b"HELLO ann\nBRANCH Baseline X";

const CLOSING: &[u8] =
    b"UPDATE X\nSELECT X planned,late WHERE late > 0\nCOMMIT X\nSELECT Baseline planned,late WHERE late > 0\nQUIT";

/// How many times a stock is changed and a plan is asked for.
const TURNS: usize = 20;

/// Writes the input over so many parts.
pub(crate) fn write_input<S: Sink>(
    parts: u64,
    numbers: &mut Numbers,
    sink: &mut S,
) -> Result<(), SinkFault>
    requires some { 1 ≤ parts }
    requires few { parts ≤ 10000 }
    ensures { Wrote S.taken S.faults S.label sink.old sink.new (requests_text parts numbers.old)
        result }
{
    let mut page = Page::new();
    put_input(&mut page, parts, numbers, sink)?;
    flush(&mut page, sink)
}

/// Adds the text of an input.
fn put_input<S: Sink>(
    page: &mut Page,
    parts: u64,
    numbers: &mut Numbers,
    sink: &mut S,
) -> Result<(), SinkFault>
    requires some { 1 ≤ parts }
    requires few { parts ≤ 10000 }
    ensures { Gathered S.taken S.faults S.label sink.old sink.new page.old.items page.new.items
        (requests_text parts numbers.old) result }
{
    put_line(page, OPENING, sink)?;
    put_turns(page, parts, numbers, sink)?;
    put_line(page, CLOSING, sink)
}

/// Adds all turns.
fn put_turns<S: Sink>(
    page: &mut Page,
    parts: u64,
    numbers: &mut Numbers,
    sink: &mut S,
) -> Result<(), SinkFault>
    requires some { 1 ≤ parts }
    requires few { parts ≤ 10000 }
    ensures { Gathered S.taken S.faults S.label sink.old sink.new page.old.items page.new.items
        (turns_text parts 20 numbers.old) result }
{
    for turn in 0..TURNS {
        if let Err(fault) = put_turn(page, parts, numbers, sink) {
            return Err(fault);
        }
    }
    Ok(())
}

/// Adds a turn: a stock is changed, and a plan asked for.
fn put_turn<S: Sink>(
    page: &mut Page,
    parts: u64,
    numbers: &mut Numbers,
    sink: &mut S,
) -> Result<(), SinkFault>
    requires some { 1 ≤ parts }
    requires few { parts ≤ 10000 }
    ensures text { Gathered S.taken S.faults S.label sink.old sink.new page.old.items
        page.new.items (turn_text parts numbers.old) result }
    ensures state { OnOk result (numbers.new ≡ after 3 numbers.old) }
{
    put_line(page, put_bytes(parts, numbers).as_slice(), sink)?;
    put_line(page, plan_bytes(parts, numbers).as_slice(), sink)
}

/// The line that changes a stock.
#[tactic(auto, unfolding(crate::specs::Input::put_text))]
fn put_bytes(parts: u64, numbers: &mut Numbers) -> RowText
    requires some { 1 ≤ parts }
    requires few { parts ≤ 10000 }
    ensures line { result.items ≡ put_text parts numbers.old }
    ensures state { numbers.new ≡ after 2 numbers.old }
{
    let mut text = first_word(b"PUT");
    push_word(&mut text, b"X");
    push_word(&mut text, b"STOCK");
    push_word(&mut text, &part_name(1 + numbers.draw(parts)));
    push_number(&mut text, numbers.draw(100));
    text
}

/// The line that asks for a plan.
#[tactic(auto, unfolding(crate::specs::Input::plan_text))]
fn plan_bytes(parts: u64, numbers: &mut Numbers) -> RowText
    requires some { 1 ≤ parts }
    requires few { parts ≤ 10000 }
    ensures line { result.items ≡ plan_text parts numbers.old }
    ensures state { numbers.new ≡ after 1 numbers.old }
{
    let mut text = first_word(b"PLAN");
    push_word(&mut text, b"X");
    push_word(&mut text, &part_name(1 + numbers.draw(parts)));
    text
}

/// Begins a line with a word.
fn first_word(word: &[u8]) -> RowText
    requires { length word.now ≤ 8 }
    ensures items { result.items ≡ word.now }
    ensures len { array_vec_len result ≤ 8 }
{
    let mut text = ArrayVec::new();
    let _ = text.try_extend_from_slice(word);
    text
}
