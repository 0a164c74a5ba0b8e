//! The form of a reply, as its first line tells it.
ghost use Rattle.std.specs.Prelude.{◌≡◌, ◌==◌, ◌<◌, ◌≤◌, length, option_map, position, IfSome};
ghost use Rattle.command_words.specs.Forms as spec;
ghost use Rattle.plan_audit.specs.Judging.{point_in};
ghost use Rattle.plan_audit.specs.Replies.{form_for};

use row_text::{is_word, read_number};

/// The form of a reply: its kind, its point, and how many lines follow the first.
#[derive(Clone, Copy)]
pub enum ReplyForm {
    /// Done at a point.
    Done(u64),
    /// A query's answer at a point, and how many lines it has.
    Listed(u64, u64),
    /// Refused at a point.
    Refused(u64),
    /// Not in the grammar.
    Faulty,
    /// No memory.
    NoMemory,
}

/// The greatest number of 18 digits.
const MOST_POINT: u64 = 999_999_999_999_999_999;

/// The most lines behind the first.
const MOST_LINES: u64 = 200_000;

impl ReplyForm {
    /// The point that the reply prints.
    pub(crate) fn point(&self) -> Option<u64>
        ensures { result ≡ point_in (form_for self.now) }
    {
        match self {
            ReplyForm::Done(point) => Some(*point),
            ReplyForm::Listed(point, _) => Some(*point),
            ReplyForm::Refused(point) => Some(*point),
            ReplyForm::Faulty => None,
            ReplyForm::NoMemory => None,
        }
    }

    /// How many lines follow the first.
    pub(crate) fn lines(&self) -> u64
        ensures { result ≡ spec.lines_in (form_for self.now) }
    {
        match self {
            ReplyForm::Listed(_, lines) => *lines,
            ReplyForm::Done(_) => 0,
            ReplyForm::Refused(_) => 0,
            ReplyForm::Faulty => 0,
            ReplyForm::NoMemory => 0,
        }
    }
}

/// The form that a line tells, if it tells one.
pub(crate) fn form_of_line(line: &[u8]) -> Option<ReplyForm>
    ensures { option_map form_for result ≡ spec.form_of_line line.now }
{
    if is_word(line, b"MEM") {
        return Some(ReplyForm::NoMemory);
    }
    if line.starts_with(b"OK @") {
        return ok_form(&line[4..]);
    }
    if line.starts_with(b"NO @") {
        return no_form(&line[4..]);
    }
    if line.starts_with(b"BAD ") {
        return bad_form(&line[4..]);
    }
    None
}

/// The form behind `OK @`: a point alone, or a point and a number of lines.
fn ok_form(text: &[u8]) -> Option<ReplyForm>
    ensures { option_map form_for result ≡ spec.ok_form text.now }
{
    let at = place_of_space(text);
    let point = read_point(&text[..at]);
    match &text[at..] {
        [] => done(point),
        [_, count @ ..] => listed(point, read_count(count)),
    }
}

fn done(point: Option<u64>) -> Option<ReplyForm>
    ensures { option_map form_for result ≡ option_map spec.Done point }
{
    match point {
        Some(point) => Some(ReplyForm::Done(point)),
        None => None,
    }
}

fn listed(point: Option<u64>, count: Option<u64>) -> Option<ReplyForm>
    ensures { option_map form_for result ≡ spec.listed point count }
{
    match (point, count) {
        (Some(point), Some(count)) => Some(ReplyForm::Listed(point, count)),
        (Some(_), None) => None,
        (None, _) => None,
    }
}

/// The form behind `NO @`: a point, and why.
fn no_form(text: &[u8]) -> Option<ReplyForm>
    ensures { option_map form_for result ≡ spec.no_form text.now }
{
    let at = place_of_space(text);
    let point = read_point(&text[..at]);
    if at + 1 < text.len() {
        refused(point)
    } else {
        None
    }
}

fn refused(point: Option<u64>) -> Option<ReplyForm>
    ensures { option_map form_for result ≡ option_map spec.Refused point }
{
    match point {
        Some(point) => Some(ReplyForm::Refused(point)),
        None => None,
    }
}

/// The form behind `BAD `: why.
fn bad_form(text: &[u8]) -> Option<ReplyForm>
    ensures { option_map form_for result ≡ spec.bad_form text.now }
{
    match text {
        [] => None,
        [_, ..] => Some(ReplyForm::Faulty),
    }
}

/// Where the first space stands, or the text's end.
fn place_of_space(text: &[u8]) -> usize
    ensures value { result ≡ spec.place_of 32 text.now }
    ensures within { result ≤ length text.now }
{
    match first_space(text) {
        Some(at) => at,
        None => text.len(),
    }
}

fn first_space(text: &[u8]) -> Option<usize>
    ensures value { result ≡ position (λ byte. byte == 32) text.now }
    ensures bound { IfSome result (λ at. at < length text.now) }
{
    text.iter().position(|byte| *byte == b' ')
}

fn read_point(digits: &[u8]) -> Option<u64>
    ensures { result ≡ spec.point_of digits.now }
{
    match read_number(digits, 0, MOST_POINT) {
        Ok(point) => Some(point),
        Err(_) => None,
    }
}

fn read_count(digits: &[u8]) -> Option<u64>
    ensures { result ≡ spec.count_of digits.now }
{
    match read_number(digits, 0, MOST_LINES) {
        Ok(count) => Some(count),
        Err(_) => None,
    }
}
