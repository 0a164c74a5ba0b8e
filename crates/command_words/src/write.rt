//! Replies as text.
ghost use Rattle.std.specs.Prelude.{◌≡◌, ◌+◌, ◌≤◌, ◌++◌, ◌∷◌, [], length, map};
ghost use Rattle.arrayvec.specs.ArrayVec.{array_vec_len};
ghost use Rattle.plan_schema.specs.Outside.{Wrote};
ghost use Rattle.row_text.specs.Spelling.{spaced, words_text};
ghost use Rattle.command_words.specs.Pages.{Gathered};
ghost use Rattle.command_words.specs.Replies as spec;
ghost use Rattle.command_words.specs.Replies.{ended, room_word, rule_word, query_rule_word, refusal_words};
ghost use Rattle.command_words.specs.Replies.{bad_words, head_words, point_word, reply_text};

use crate::page::{Page, flush, put, put_lines};
use crate::reply::{Bad, Reply};
use byte_lines::{Sink, SinkFault};
use itoa::Buffer;
use plan_schema::{Name, Refusal, Room, Rule};
use query_language::QueryRule;
use row_text::{RowText, key_bytes, push_day, push_number, push_word};

/// Writes the one spelling of a reply: by one call of the sink where it has at most 4,096 bytes. Takes no memory.
pub fn write_reply<S: Sink>(reply: &Reply, sink: &mut S) -> Result<(), SinkFault>
    ensures { Wrote S.taken S.faults S.label sink.old sink.new (reply_text reply.now) result }
{
    let mut page = Page::new();
    put_reply(&mut page, reply, sink)?;
    flush(&mut page, sink)
}

/// Adds the text of a reply.
#[tactic(auto, unfolding(crate::specs::Replies::reply_text))]
pub fn put_reply<S: Sink>(page: &mut Page, reply: &Reply, sink: &mut S) -> Result<(), SinkFault>
    ensures { Gathered S.taken S.faults S.label sink.old sink.new page.old.items page.new.items
        (reply_text reply.now) result }
{
    put(page, head_bytes(reply).as_slice(), sink)?;
    put_lines(page, more_lines(reply), sink)
}

/// The lines behind the first.
fn more_lines(reply: &Reply) -> &[Vec<u8>]
    ensures { map (λ line. line.items) result.now ≡ spec.more_lines reply.now }
{
    match reply {
        Reply::Rows(_, lines) => lines.as_slice(),
        Reply::Ok(_) => &[],
        Reply::No(_, _) => &[],
        Reply::Bad(_) => &[],
        Reply::Mem => &[],
    }
}

/// The first line of a reply.
#[tactic(auto, unfolding(crate::specs::Replies::head_words))]
fn head_bytes(reply: &Reply) -> RowText
    ensures { result.items ≡ ended (words_text (head_words reply.now)) }
{
    let mut text = RowText::new();
    match reply {
        Reply::Ok(point) => {
            begin(&mut text, b"OK");
            push_point(&mut text, *point);
        }
        Reply::Rows(point, lines) => {
            begin(&mut text, b"OK");
            push_point(&mut text, *point);
            push_number(&mut text, lines.len() as u64);
        }
        Reply::No(point, refusal) => {
            begin(&mut text, b"NO");
            push_point(&mut text, *point);
            push_refusal(&mut text, refusal);
        }
        Reply::Bad(bad) => {
            begin(&mut text, b"BAD");
            push_bad(&mut text, bad);
        }
        Reply::Mem => begin(&mut text, b"MEM"),
    }
    text.push(b'\n');
    text
}

/// Begins a line with a word.
fn begin(text: &mut RowText, word: &[u8])
    requires empty { text.old.items ≡ [] }
    requires short { length word.now ≤ 8 }
    ensures items { text.new.items ≡ word.now }
    ensures len { array_vec_len text.new ≤ 8 }
{
    let _ = text.try_extend_from_slice(word);
}

/// Adds a point behind a space.
fn push_point(text: &mut RowText, point: u64)
    requires { array_vec_len text.old ≤ 16 }
    ensures items { text.new.items ≡ text.old.items ++ 32 ∷ point_word point }
    ensures len { array_vec_len text.new ≤ array_vec_len text.old + 22 }
{
    let mut buffer = Buffer::new();
    text.push(b' ');
    text.push(b'@');
    let _ = text.try_extend_from_slice(buffer.format(point).as_bytes());
}

/// Adds the words of a refusal, each behind a space.
#[tactic(auto, unfolding(crate::specs::Replies::refusal_words), using(crate::proofs::Texts::key_behind))]
fn push_refusal(text: &mut RowText, refusal: &Refusal)
    requires { array_vec_len text.old ≤ 60 }
    ensures items { text.new.items ≡ text.old.items ++ spaced (refusal_words refusal.now) }
    ensures len { array_vec_len text.new ≤ 200 }
{
    match refusal {
        Refusal::NoScenario(name) => push_about(text, b"no-scenario", name),
        Refusal::Denied(name) => push_about(text, b"denied", name),
        Refusal::Taken(name) => push_about(text, b"taken", name),
        Refusal::Root(name) => push_about(text, b"root", name),
        Refusal::HasChildren(name) => push_about(text, b"has-children", name),
        Refusal::Depth(name) => push_about(text, b"depth", name),
        Refusal::Full(room) => {
            push_word(text, b"full");
            push_word(text, room_bytes(*room));
        }
        Refusal::NoRecord(key) => {
            push_word(text, b"no-record");
            push_word(text, key_bytes(key).as_slice());
        }
        Refusal::Conflict(key) => {
            push_word(text, b"conflict");
            push_word(text, key_bytes(key).as_slice());
        }
        Refusal::NoPart(name) => push_about(text, b"no-part", name),
        Refusal::MissingPart(name) => push_about(text, b"missing-part", name),
        Refusal::MissingCalendar(name) => push_about(text, b"missing-calendar", name),
        Refusal::Cyclic(name) => push_about(text, b"cyclic", name),
        Refusal::TooLarge(name) => push_about(text, b"too-large", name),
        Refusal::NoDay(day) => {
            push_word(text, b"no-day");
            push_day(text, day);
        }
        Refusal::NoCosts(name) => push_about(text, b"no-costs", name),
        Refusal::ReadOnly => push_word(text, b"read-only"),
    }
}

/// Adds a rule and a name, each behind a space.
fn push_about(text: &mut RowText, rule: &[u8], name: &Name)
    requires text { array_vec_len text.old ≤ 60 }
    requires rule { length rule.now ≤ 20 }
    ensures items { text.new.items ≡ text.old.items ++ spaced (rule.now ∷ name.now ∷ []) }
    ensures len { array_vec_len text.new ≤ 200 }
{
    push_word(text, rule);
    push_word(text, name.as_bytes());
}

/// The word for what is full.
pub fn room_bytes(room: Room) -> &'static [u8]
    ensures word { result.now ≡ room_word room }
    ensures short { length result.now ≤ 20 }
{
    match room {
        Room::Bytes => b"bytes",
        Room::Scenarios => b"scenarios",
        Room::Parts => b"parts",
        Room::Records => b"records",
        Room::Journal => b"journal",
    }
}

/// The word for a rule that a field breaks.
pub fn rule_bytes(rule: Rule) -> &'static [u8]
    ensures word { result.now ≡ rule_word rule }
    ensures short { length result.now ≤ 20 }
{
    match rule {
        Rule::Shape => b"shape",
        Rule::Range => b"range",
        Rule::Date => b"date",
        Rule::Own => b"self",
    }
}

/// The word for why a text is no query.
fn query_rule_bytes(rule: QueryRule) -> &'static [u8]
    ensures word { result.now ≡ query_rule_word rule }
    ensures short { length result.now ≤ 20 }
{
    match rule {
        QueryRule::Word => b"word",
        QueryRule::End => b"end",
        QueryRule::Deep => b"deep",
        QueryRule::Many => b"many",
    }
}

/// Adds why a request isn't in the grammar, each word behind a space.
#[tactic(auto, unfolding(crate::specs::Replies::bad_words))]
fn push_bad(text: &mut RowText, bad: &Bad)
    requires { array_vec_len text.old ≤ 60 }
    ensures items { text.new.items ≡ text.old.items ++ spaced (bad_words bad.now) }
    ensures len { array_vec_len text.new ≤ 200 }
{
    match bad {
        Bad::Long => push_word(text, b"long"),
        Bad::Word => push_word(text, b"word"),
        Bad::Field(fault) => {
            push_word(text, b"field");
            push_number(text, u64::from(fault.field));
            push_word(text, rule_bytes(fault.rule));
        }
        Bad::Query(fault) => {
            push_word(text, b"query");
            push_number(text, u64::from(fault.place));
            push_word(text, query_rule_bytes(fault.rule));
        }
        Bad::Row(row, fault) => {
            push_word(text, b"row");
            push_number(text, u64::from(*row));
            push_number(text, u64::from(fault.field));
            push_word(text, rule_bytes(fault.rule));
        }
        Bad::RowLong(row) => {
            push_word(text, b"row");
            push_number(text, u64::from(*row));
            push_word(text, b"long");
        }
        Bad::Short => push_word(text, b"short"),
    }
}
