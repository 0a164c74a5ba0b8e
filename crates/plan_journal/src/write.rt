//! Entries and journals as text.
ghost use Rattle.std.specs.Prelude.{◌≡◌, ◌+◌, ◌≤◌, [], ◌∷◌, ◌++◌, length, decimal};
ghost use Rattle.arrayvec.specs.ArrayVec.{array_vec_len};
ghost use Rattle.plan_schema.specs.Outside.{Wrote};
ghost use Rattle.row_text.specs.Spelling.{spaced, row_text};
ghost use Rattle.command_words.specs.Pages.{Gathered};
ghost use Rattle.command_words.specs.Replies.{ended};
ghost use Rattle.plan_journal.specs.Entries.{change_words, entry_line, rows_text, rows_behind, entry_text};
ghost use Rattle.plan_journal.specs.Entries.{entries_text, journal_text};

use crate::journal::Journal;
use arrayvec::ArrayVec;
use byte_lines::{Sink, SinkFault};
use command_words::{Page, flush, put_line};
use itoa::Buffer;
use plan_schema::{Change, Entry, Key, Name, Record, Rows};
use row_text::{key_bytes, row_bytes};

/// The first line of each journal.
const HEAD: &[u8] = b"plan-journal 2";

/// Room for the line of an entry.
type LineText = ArrayVec<u8, 512>;

/// Writes the one spelling of an entry under its number, which counts from 1. Takes no memory but the sink's own.
pub fn write_entry<S: Sink>(number: u64, entry: &Entry, sink: &mut S) -> Result<(), SinkFault>
    ensures { Wrote S.taken S.faults S.label sink.old sink.new (entry_text number entry.now)
        result }
{
    let mut page = Page::new();
    put_entry(&mut page, number, entry, sink)?;
    flush(&mut page, sink)
}

/// Writes the one spelling of a journal. Takes no memory but the sink's own.
pub fn write_journal<S: Sink>(journal: &Journal, sink: &mut S) -> Result<(), SinkFault>
    ensures { Wrote S.taken S.faults S.label sink.old sink.new (journal_text journal.now.entries)
        result }
{
    let mut page = Page::new();
    put_journal(&mut page, journal, sink)?;
    flush(&mut page, sink)
}

/// Adds the text of a journal.
#[tactic(auto, unfolding(crate::specs::Entries::journal_text))]
fn put_journal<S: Sink>(page: &mut Page, journal: &Journal, sink: &mut S) -> Result<(), SinkFault>
    ensures { Gathered S.taken S.faults S.label sink.old sink.new page.old.items page.new.items
        (journal_text journal.now.entries) result }
{
    put_line(page, HEAD, sink)?;
    put_entries(page, journal.as_slice(), sink)
}

/// Adds the texts of entries, numbered from 1.
fn put_entries<S: Sink>(page: &mut Page, entries: &[Entry], sink: &mut S) -> Result<(), SinkFault>
    ensures { Gathered S.taken S.faults S.label sink.old sink.new page.old.items page.new.items
        (entries_text 1 entries.now) result }
{
    for (place, entry) in entries.iter().enumerate() {
        if let Err(fault) = put_entry(page, place as u64 + 1, entry, sink) {
            return Err(fault);
        }
    }
    Ok(())
}

/// Adds the text of an entry.
#[tactic(auto, unfolding(crate::specs::Entries::entry_text))]
fn put_entry<S: Sink>(
    page: &mut Page,
    number: u64,
    entry: &Entry,
    sink: &mut S,
) -> Result<(), SinkFault>
    ensures { Gathered S.taken S.faults S.label sink.old sink.new page.old.items page.new.items
        (entry_text number entry.now) result }
{
    put_line(page, line_bytes(number, entry).as_slice(), sink)?;
    put_rows(page, rows_of(&entry.change), sink)
}

/// The rows behind the line of a change: those of a LOAD.
fn rows_of(change: &Change) -> &[(Key, Record)]
    ensures { rows_text result.now ≡ rows_behind change.now }
{
    match change {
        Change::Load { rows, .. } => rows.as_slice(),
        Change::Put { .. } => &[],
        Change::Del { .. } => &[],
        Change::Branch { .. } => &[],
        Change::Share { .. } => &[],
        Change::Update { .. } => &[],
        Change::Commit { .. } => &[],
        Change::Drop { .. } => &[],
    }
}

/// Adds rows, a line each.
fn put_rows<S: Sink>(page: &mut Page, rows: &[(Key, Record)], sink: &mut S) -> Result<(), SinkFault>
    ensures { Gathered S.taken S.faults S.label sink.old sink.new page.old.items page.new.items
        (rows_text rows.now) result }
{
    for row in rows {
        if let Err(fault) = put_row(page, row, sink) {
            return Err(fault);
        }
    }
    Ok(())
}

/// Adds a row's line.
fn put_row<S: Sink>(page: &mut Page, row: &(Key, Record), sink: &mut S) -> Result<(), SinkFault>
    ensures { Gathered S.taken S.faults S.label sink.old sink.new page.old.items page.new.items
        (ended (row_text row.now.0 row.now.1)) result }
{
    put_line(page, row_bytes(&row.0, &row.1).as_slice(), sink)
}

/// The line of an entry, without its line feed.
#[tactic(auto, unfolding(crate::specs::Entries::entry_line))]
fn line_bytes(number: u64, entry: &Entry) -> LineText
    ensures { result.items ≡ entry_line number entry.now }
{
    let mut text = first_number(number);
    push_number(&mut text, entry.session);
    push_number(&mut text, entry.line);
    push_word(&mut text, entry.user.as_bytes());
    push_change(&mut text, &entry.change);
    text
}

/// Begins a line with a number's digits.
fn first_number(number: u64) -> LineText
    ensures items { result.items ≡ decimal number }
    ensures len { array_vec_len result ≤ 20 }
{
    let mut text = LineText::new();
    let mut buffer = Buffer::new();
    let _ = text.try_extend_from_slice(buffer.format(number).as_bytes());
    text
}

/// Adds the words of a change, each behind a space.
#[tactic(auto, unfolding(crate::specs::Entries::change_words, command_words::specs::Spelling::words_of_command))]
fn push_change(text: &mut LineText, change: &Change)
    requires { array_vec_len text.old ≤ 100 }
    ensures { text.new.items ≡ text.old.items ++ spaced (change_words change.now) }
{
    match change {
        Change::Put {
            scenario,
            key,
            value,
        } => {
            push_about(text, b"PUT", scenario);
            push_word(text, row_bytes(key, value).as_slice());
        }
        Change::Del { scenario, key } => {
            push_about(text, b"DEL", scenario);
            push_word(text, key_bytes(key).as_slice());
        }
        Change::Load { scenario, rows } => {
            push_about(text, b"LOAD", scenario);
            push_number(text, rows.len() as u64);
        }
        Change::Branch { parent, child } => {
            push_about(text, b"BRANCH", parent);
            push_word(text, child.as_bytes());
        }
        Change::Share { scenario } => push_about(text, b"SHARE", scenario),
        Change::Update { scenario } => push_about(text, b"UPDATE", scenario),
        Change::Commit { scenario } => push_about(text, b"COMMIT", scenario),
        Change::Drop { scenario } => push_about(text, b"DROP", scenario),
    }
}

/// Adds a command's word and a scenario, each behind a space.
fn push_about(text: &mut LineText, verb: &[u8], scenario: &Name)
    requires text { array_vec_len text.old ≤ 100 }
    requires verb { length verb.now ≤ 8 }
    ensures items { text.new.items ≡ text.old.items ++ spaced (verb.now ∷ scenario.now ∷ []) }
    ensures len { array_vec_len text.new ≤ 142 }
{
    push_word(text, verb);
    push_word(text, scenario.as_bytes());
}

/// Adds a number's digits behind a space.
fn push_number(text: &mut LineText, number: u64)
    requires { array_vec_len text.old ≤ 200 }
    ensures items { text.new.items ≡ text.old.items ++ 32 ∷ decimal number }
    ensures len { array_vec_len text.new ≤ array_vec_len text.old + 21 }
{
    let mut buffer = Buffer::new();
    push_word(text, buffer.format(number).as_bytes());
}

/// Adds a word behind a space.
fn push_word(text: &mut LineText, word: &[u8])
    requires { array_vec_len text.old + 1 + length word.now ≤ 512 }
    ensures items { text.new.items ≡ text.old.items ++ 32 ∷ word.now }
    ensures len { array_vec_len text.new ≡ array_vec_len text.old + 1 + length word.now }
{
    text.push(b' ');
    let _ = text.try_extend_from_slice(word);
}
