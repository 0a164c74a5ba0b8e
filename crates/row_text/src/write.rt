//! Rows and keys as text.
ghost use Rattle.std.specs.Prelude.{◌≡◌, ◌+◌, ◌≤◌, [], ◌∷◌, ◌++◌, length, decimal};
ghost use Rattle.arrayvec.specs.ArrayVec.{array_vec_len};
ghost use Rattle.plan_schema.specs.Day.{day_text};
ghost use Rattle.plan_schema.specs.Outside.{Wrote};
ghost use Rattle.row_text.specs.Spelling.{spaced, words_text, mark, lot_text, week_text, calendar_text};
ghost use Rattle.row_text.specs.Spelling.{span_fields, key_text, row_text, record_fields};

use arrayvec::ArrayVec;
use itoa::Buffer;
use plan_schema::outside::{Sink, SinkFault, write_all};
use plan_schema::{Day, Key, Lot, Name, Record, Span};

/// Room for the text of a row, or of a line of a reply.
pub type RowText = ArrayVec<u8, 256>;

/// Writes the row's one spelling.
pub fn write_record<S: Sink>(key: &Key, value: &Record, sink: &mut S) -> Result<(), SinkFault>
    ensures { Wrote S.taken S.faults S.label sink.old sink.new (row_text key.now value.now) result }
{
    write_all(sink, row_bytes(key, value).as_slice())
}

/// Writes the key form of a row.
pub fn write_key<S: Sink>(key: &Key, sink: &mut S) -> Result<(), SinkFault>
    ensures { Wrote S.taken S.faults S.label sink.old sink.new (key_text key.now) result }
{
    write_all(sink, key_bytes(key).as_slice())
}

/// The row's one spelling: its table word and its fields, parted by single spaces.
pub fn row_bytes(key: &Key, value: &Record) -> RowText
    ensures { result.items ≡ row_text key.now value.now }
{
    let mut text = key_bytes(key);
    push_fields(&mut text, value);
    text
}

/// The key form of a row: its table word and the fields of its key, parted by single spaces.
#[tactic(auto, unfolding(crate::specs::Spelling::key_text, crate::specs::Spelling::key_fields))]
pub fn key_bytes(key: &Key) -> RowText
    ensures text { result.items ≡ key_text key.now }
    ensures short { array_vec_len result ≤ 80 }
{
    match key {
        Key::Plan => one_word(b"PLAN"),
        Key::Cal(name) => two_words(b"CAL", name.as_bytes()),
        Key::Holiday(name, day) => three_words(b"HOLIDAY", name.as_bytes(), &day.text()),
        Key::Part(name) => two_words(b"PART", name.as_bytes()),
        Key::Stock(part) => two_words(b"STOCK", part.as_bytes()),
        Key::Demand(part, order) => three_words(b"DEMAND", part.as_bytes(), order.as_bytes()),
        Key::Receipt(part, order) => three_words(b"RECEIPT", part.as_bytes(), order.as_bytes()),
        Key::Bill { parent, component } => {
            three_words(b"BILL", parent.as_bytes(), component.as_bytes())
        }
    }
}

fn one_word(word: &[u8]) -> RowText
    requires { length word.now ≤ 8 }
    ensures text { result.items ≡ words_text (word.now ∷ []) }
    ensures short { array_vec_len result ≤ 8 }
{
    let mut text = ArrayVec::new();
    push_text(&mut text, word);
    text
}

fn two_words(word: &[u8], first: &[u8]) -> RowText
    requires word { length word.now ≤ 8 }
    requires first { length first.now ≤ 32 }
    ensures text { result.items ≡ words_text (word.now ∷ first.now ∷ []) }
    ensures short { array_vec_len result ≤ 41 }
{
    let mut text = one_word(word);
    push_word(&mut text, first);
    text
}

fn three_words(word: &[u8], first: &[u8], second: &[u8]) -> RowText
    requires word { length word.now ≤ 8 }
    requires first { length first.now ≤ 32 }
    requires second { length second.now ≤ 32 }
    ensures text { result.items ≡ words_text (word.now ∷ first.now ∷ second.now ∷ []) }
    ensures short { array_vec_len result ≤ 74 }
{
    let mut text = two_words(word, first);
    push_word(&mut text, second);
    text
}

/// Adds a record's fields, each behind a space.
#[tactic(auto, unfolding(crate::specs::Spelling::record_fields))]
fn push_fields(text: &mut RowText, value: &Record)
    requires { array_vec_len text.old ≤ 80 }
    ensures { text.new.items ≡ text.old.items ++ spaced (record_fields value.now) }
{
    match value {
        Record::Plan { start, days } => {
            push_day(text, start);
            push_number(text, u64::from(*days));
        }
        Record::Cal { week } => push_word(text, &week_bytes(week)),
        Record::Holiday => (),
        Record::Part {
            lead,
            lot,
            safety,
            calendar,
        } => {
            push_number(text, u64::from(*lead));
            push_word(text, lot_bytes(lot).as_slice());
            push_number(text, *safety);
            push_word(text, calendar_bytes(calendar));
        }
        Record::Stock { qty } => push_number(text, *qty),
        Record::Demand { day, qty } | Record::Receipt { day, qty } => {
            push_day(text, day);
            push_number(text, *qty);
        }
        Record::Bill { per, span } => {
            push_number(text, *per);
            push_span(text, span);
        }
    }
}

/// Adds the days of a span, where there is one.
#[tactic(auto, unfolding(crate::specs::Spelling::span_fields))]
fn push_span(text: &mut RowText, span: &Option<Span>)
    requires { array_vec_len text.old ≤ 200 }
    ensures { text.new.items ≡ text.old.items ++ spaced (span_fields span.now) }
{
    if let Some(span) = span {
        push_day(text, &span.from);
        push_day(text, &span.to);
    }
}

/// Adds a day behind a space.
pub fn push_day(text: &mut RowText, day: &Day)
    requires { array_vec_len text.old ≤ 220 }
    ensures items { text.new.items ≡ text.old.items ++ 32 ∷ day_text day.now }
    ensures len { array_vec_len text.new ≡ array_vec_len text.old + 11 }
{
    push_word(text, &day.text());
}

/// Adds a number's digits behind a space.
pub fn push_number(text: &mut RowText, number: u64)
    requires { array_vec_len text.old ≤ 220 }
    ensures items { text.new.items ≡ text.old.items ++ 32 ∷ decimal number }
    ensures len { array_vec_len text.new ≤ array_vec_len text.old + 21 }
{
    let mut buffer = Buffer::new();
    push_word(text, buffer.format(number).as_bytes());
}

/// Adds a word behind a space.
pub fn push_word(text: &mut RowText, word: &[u8])
    requires { array_vec_len text.old + 1 + length word.now ≤ 256 }
    ensures items { text.new.items ≡ text.old.items ++ 32 ∷ word.now }
    ensures len { array_vec_len text.new ≡ array_vec_len text.old + 1 + length word.now }
{
    text.push(b' ');
    push_text(text, word);
}

/// Adds a text.
fn push_text<const ROOM: usize>(text: &mut ArrayVec<u8, ROOM>, more: &[u8])
    requires { array_vec_len text.old + length more.now ≤ ROOM }
    ensures items { text.new.items ≡ text.old.items ++ more.now }
    ensures len { array_vec_len text.new ≡ array_vec_len text.old + length more.now }
{
    let _ = text.try_extend_from_slice(more);
}

/// Adds a number's digits.
fn push_digits(text: &mut ArrayVec<u8, 48>, number: u64)
    requires { array_vec_len text.old + 20 ≤ 48 }
    ensures items { text.new.items ≡ text.old.items ++ decimal number }
    ensures len { array_vec_len text.new ≤ array_vec_len text.old + 20 }
{
    let mut buffer = Buffer::new();
    push_text(text, buffer.format(number).as_bytes());
}

/// The text of a lot rule.
#[tactic(auto, unfolding(crate::specs::Spelling::lot_text))]
fn lot_bytes(lot: &Lot) -> ArrayVec<u8, 48>
    ensures { result.items ≡ lot_text lot.now }
{
    let mut text = ArrayVec::new();
    match lot {
        Lot::Exact => push_text(&mut text, b"L4L"),
        Lot::Fixed(quantity) => {
            push_text(&mut text, b"FOQ:");
            push_digits(&mut text, *quantity);
        }
        Lot::Least { least, step } => {
            push_text(&mut text, b"MM:");
            push_digits(&mut text, *least);
            push_text(&mut text, b":");
            push_digits(&mut text, *step);
        }
        Lot::Period(days) => {
            push_text(&mut text, b"POQ:");
            push_digits(&mut text, u64::from(*days));
        }
        Lot::Best { setup, hold } => {
            push_text(&mut text, b"WW:");
            push_digits(&mut text, *setup);
            push_text(&mut text, b":");
            push_digits(&mut text, *hold);
        }
    }
    text
}

fn mark_of(works: bool) -> u8
    ensures { result ≡ mark works }
{
    if works { b'1' } else { b'0' }
}

/// The text of a week.
#[tactic(auto, unfolding(crate::specs::Spelling::week_text))]
fn week_bytes(week: &[bool; 7]) -> [u8; 7]
    ensures { result ≡ week_text week.now }
{
    [
        mark_of(week[0]),
        mark_of(week[1]),
        mark_of(week[2]),
        mark_of(week[3]),
        mark_of(week[4]),
        mark_of(week[5]),
        mark_of(week[6]),
    ]
}

/// The text of a calendar's name, or `-` for none.
#[tactic(auto, unfolding(crate::specs::Spelling::calendar_text))]
fn calendar_bytes(calendar: &Option<Name>) -> &[u8]
    ensures text { result.now ≡ calendar_text calendar.now }
    ensures short { length result.now ≤ 32 }
{
    match calendar {
        Some(name) => name.as_bytes(),
        None => b"-",
    }
}
