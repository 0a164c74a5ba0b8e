//! The base: parts in levels, each below parts with lower numbers.
ghost use Rattle.std.specs.Prelude.{◌≡◌, ◌+◌, ◌-◌, ◌<◌, ◌≤◌, [], ◌∷◌, ◌++◌, length, decimal, OnOk};
ghost use Rattle.arrayvec.specs.ArrayVec.{array_vec_len};
ghost use Rattle.plan_schema.specs.Day.{day_text};
ghost use Rattle.plan_schema.specs.Outside.{Wrote};
ghost use Rattle.command_words.specs.Pages.{Gathered};
ghost use Rattle.command_words.specs.Replies.{ended};
ghost use Rattle.plan_make.specs.Numbers.{after};
ghost use Rattle.plan_make.specs.Base as spec;
ghost use Rattle.plan_make.specs.Base.{base_text, parts_text, behind_parts, behind_base, part_text, needs_text};
ghost use Rattle.plan_make.specs.Base.{behind_needs, bills_text, behind_bills, second_text, drawn_bill};
ghost use Rattle.plan_make.specs.Base.{behind_commas};

use crate::numbers::Numbers;
use arrayvec::ArrayVec;
use byte_lines::{Sink, SinkFault};
use command_words::{Page, flush, put_line};
use itoa::Buffer;
use plan_schema::Day;
use row_text::RowText;

/// The first lines of each base, but for the last line feed.
const HEAD: &[u8] = b"PLAN,2025-03-03,60\nCAL,W,1111100";

/// A bill of a part: its parent's number, and the quantity per.
#[derive(Clone, Copy)]
pub(crate) struct Bill {
    pub parent: u64,
    pub per: u64,
}

/// Writes the base of so many parts.
pub(crate) fn write_base<S: Sink>(
    parts: u64,
    numbers: &mut Numbers,
    sink: &mut S,
) -> Result<(), SinkFault>
    requires some { 1 ≤ parts }
    requires few { parts ≤ 10000 }
    ensures wrote { Wrote S.taken S.faults S.label sink.old sink.new
        (base_text parts numbers.old) result }
    ensures state { OnOk result (numbers.new ≡ behind_base parts numbers.old) }
{
    let mut page = Page::new();
    put_base(&mut page, parts, numbers, sink)?;
    flush(&mut page, sink)
}

/// Adds the text of a base.
fn put_base<S: Sink>(
    page: &mut Page,
    parts: u64,
    numbers: &mut Numbers,
    sink: &mut S,
) -> Result<(), SinkFault>
    requires some { 1 ≤ parts }
    requires few { parts ≤ 10000 }
    ensures text { Gathered S.taken S.faults S.label sink.old sink.new page.old.items
        page.new.items (base_text parts numbers.old) result }
    ensures state { OnOk result (numbers.new ≡ behind_base parts numbers.old) }
{
    put_line(page, HEAD, sink)?;
    put_parts(page, parts, numbers, sink)
}

/// Adds the rows of all parts.
fn put_parts<S: Sink>(
    page: &mut Page,
    parts: u64,
    numbers: &mut Numbers,
    sink: &mut S,
) -> Result<(), SinkFault>
    requires some { 1 ≤ parts }
    requires few { parts ≤ 10000 }
    ensures text { Gathered S.taken S.faults S.label sink.old sink.new page.old.items
        page.new.items (parts_text parts parts numbers.old) result }
    ensures state { OnOk result (numbers.new ≡ behind_parts parts parts numbers.old) }
{
    for place in 0..parts {
        if let Err(fault) = put_part(page, parts, place + 1, numbers, sink) {
            return Err(fault);
        }
    }
    Ok(())
}

/// Adds the rows of a part.
fn put_part<S: Sink>(
    page: &mut Page,
    parts: u64,
    part: u64,
    numbers: &mut Numbers,
    sink: &mut S,
) -> Result<(), SinkFault>
    requires some { 1 ≤ part }
    requires within { part ≤ parts }
    requires few { parts ≤ 10000 }
    ensures text { Gathered S.taken S.faults S.label sink.old sink.new page.old.items
        page.new.items (part_text parts part numbers.old) result }
    ensures state { OnOk result (numbers.new ≡ behind_needs parts part (after 4 numbers.old)) }
{
    put_line(page, part_line(part, numbers).as_slice(), sink)?;
    put_line(page, stock_line(part, numbers).as_slice(), sink)?;
    put_needs(page, parts, part, numbers, sink)
}

/// Adds the demand of a part, or its bills.
#[tactic(auto, unfolding(crate::specs::Base::needs_text, crate::specs::Base::behind_needs))]
fn put_needs<S: Sink>(
    page: &mut Page,
    parts: u64,
    part: u64,
    numbers: &mut Numbers,
    sink: &mut S,
) -> Result<(), SinkFault>
    requires some { 1 ≤ part }
    requires within { part ≤ parts }
    requires few { parts ≤ 10000 }
    ensures text { Gathered S.taken S.faults S.label sink.old sink.new page.old.items
        page.new.items (needs_text parts part numbers.old) result }
    ensures state { OnOk result (numbers.new ≡ behind_needs parts part numbers.old) }
{
    if part <= (parts + 9) / 10 {
        put_line(page, demand_line(part, numbers).as_slice(), sink)
    } else {
        put_bills(page, part, numbers, sink)
    }
}

/// Adds the bills of a part.
fn put_bills<S: Sink>(
    page: &mut Page,
    part: u64,
    numbers: &mut Numbers,
    sink: &mut S,
) -> Result<(), SinkFault>
    requires some { 2 ≤ part }
    requires few { part ≤ 10000 }
    ensures text { Gathered S.taken S.faults S.label sink.old sink.new page.old.items
        page.new.items (bills_text part numbers.old) result }
    ensures state { OnOk result (numbers.new ≡ behind_bills numbers.old) }
{
    let has_one = numbers.draw(2) == 0;
    let first = draw_bill(part, numbers);
    put_line(page, bill_line(part, &first).as_slice(), sink)?;
    if has_one {
        return Ok(());
    }
    let second = draw_bill(part, numbers);
    put_second(page, part, &first, &second, sink)
}

/// Adds the second bill of a part, but for one to the same parent.
fn put_second<S: Sink>(
    page: &mut Page,
    part: u64,
    first: &Bill,
    second: &Bill,
    sink: &mut S,
) -> Result<(), SinkFault>
    requires part { part ≤ 10000 }
    requires parent { second.now.parent ≤ 10000 }
    ensures { Gathered S.taken S.faults S.label sink.old sink.new page.old.items page.new.items
        (second_text part first.now second.now) result }
{
    if second.parent == first.parent {
        return Ok(());
    }
    put_line(page, bill_line(part, second).as_slice(), sink)
}

/// The line of a part's record.
#[tactic(auto, unfolding(crate::specs::Base::part_line))]
fn part_line(part: u64, numbers: &mut Numbers) -> RowText
    requires { part ≤ 10000 }
    ensures line { result.items ≡ spec.part_line part numbers.old }
    ensures state { numbers.new ≡ after 3 numbers.old }
{
    let mut text = row_of(b"PART", part);
    push_number(&mut text, numbers.draw(6));
    push_field(&mut text, lot_word(numbers.draw(4)));
    push_number(&mut text, numbers.draw(20));
    push_field(&mut text, b"W");
    text
}

/// The line of a part's stock.
#[tactic(auto, unfolding(crate::specs::Base::stock_line))]
fn stock_line(part: u64, numbers: &mut Numbers) -> RowText
    requires { part ≤ 10000 }
    ensures line { result.items ≡ spec.stock_line part numbers.old }
    ensures state { numbers.new ≡ after 1 numbers.old }
{
    let mut text = row_of(b"STOCK", part);
    push_number(&mut text, numbers.draw(50));
    text
}

/// The line of a part's demand.
#[tactic(auto, unfolding(crate::specs::Base::demand_line))]
fn demand_line(part: u64, numbers: &mut Numbers) -> RowText
    requires { part ≤ 10000 }
    ensures line { result.items ≡ spec.demand_line part numbers.old }
    ensures state { numbers.new ≡ after 2 numbers.old }
{
    let mut text = row_of(b"DEMAND", part);
    push_field(&mut text, b"D1");
    push_field(&mut text, &day_bytes(numbers.draw(60)));
    push_number(&mut text, 1 + numbers.draw(9));
    text
}

/// Draws a bill of a part, to one of the parts before it.
#[tactic(auto, unfolding(crate::specs::Base::drawn_bill))]
fn draw_bill(part: u64, numbers: &mut Numbers) -> Bill
    requires some { 2 ≤ part }
    requires few { part ≤ 10000 }
    ensures bill { result ≡ drawn_bill part numbers.old }
    ensures before { result.parent < part }
    ensures state { numbers.new ≡ after 2 numbers.old }
{
    let parent = 1 + numbers.draw(part - 1);
    let per = 1 + numbers.draw(3);
    Bill { parent, per }
}

/// The line of a part's bill.
#[tactic(auto, unfolding(crate::specs::Base::bill_line))]
fn bill_line(part: u64, bill: &Bill) -> RowText
    requires part { part ≤ 10000 }
    requires parent { bill.now.parent ≤ 10000 }
    ensures { result.items ≡ spec.bill_line part bill.now }
{
    let mut text = row_of(b"BILL", bill.parent);
    push_field(&mut text, &part_name(part));
    push_number(&mut text, bill.per);
    text
}

/// The text of one of four lot rules.
fn lot_word(number: u64) -> &'static [u8]
    ensures text { result.now ≡ spec.lot_word number }
    ensures short { length result.now ≤ 10 }
{
    match number {
        0 => b"L4L",
        1 => b"FOQ:25",
        2 => b"MM:10:5",
        _ => b"POQ:5",
    }
}

/// A day of the plan as text.
fn day_bytes(day: u64) -> [u8; 10]
    requires { day < 60 }
    ensures { result ≡ day_text (spec.first_day + day) }
{
    match first_day().later(day as u16) {
        Some(day) => day.text(),
        None => unreachable!(),
    }
}

/// The first day of the plan.
fn first_day() -> Day
    ensures { result ≡ spec.first_day }
{
    match Day::read(b"2025-03-03") {
        Ok(day) => day,
        Err(_) => unreachable!(),
    }
}

/// The name of a part: `P` and its number in five digits.
#[tactic(auto, unfolding(crate::specs::Base::part_name))]
pub(crate) fn part_name(number: u64) -> [u8; 6]
    requires { number ≤ 10000 }
    ensures { result ≡ spec.part_name number }
{
    [
        b'P',
        digit_at(10_000, number),
        digit_at(1_000, number),
        digit_at(100, number),
        digit_at(10, number),
        digit_at(1, number),
    ]
}

/// The digit of a number at a place.
fn digit_at(place: u64, number: u64) -> u8
    requires { 0 < place }
    ensures { result ≡ spec.digit_at place number }
{
    b'0' + (number / place % 10) as u8
}

/// Begins a row with the word of its table and the name of a part.
fn row_of(table: &[u8], part: u64) -> RowText
    requires table { length table.now ≤ 8 }
    requires part { part ≤ 10000 }
    ensures items { result.items ≡ table.now ++ behind_commas (spec.part_name part ∷ []) }
    ensures len { array_vec_len result ≤ 15 }
{
    let mut text = ArrayVec::new();
    let _ = text.try_extend_from_slice(table);
    push_field(&mut text, &part_name(part));
    text
}

/// Adds a number behind a comma.
fn push_number(text: &mut RowText, number: u64)
    requires { array_vec_len text.old ≤ 200 }
    ensures items { text.new.items ≡ text.old.items ++ 44 ∷ decimal number }
    ensures len { array_vec_len text.new ≤ array_vec_len text.old + 21 }
{
    let mut buffer = Buffer::new();
    push_field(text, buffer.format(number).as_bytes());
}

/// Adds a field behind a comma.
fn push_field(text: &mut RowText, field: &[u8])
    requires { array_vec_len text.old + 1 + length field.now ≤ 256 }
    ensures items { text.new.items ≡ text.old.items ++ 44 ∷ field.now }
    ensures len { array_vec_len text.new ≡ array_vec_len text.old + 1 + length field.now }
{
    text.push(b',');
    let _ = text.try_extend_from_slice(field);
}
