//! The lines of answers about plans.
ghost use Rattle.std.specs.Prelude.{◌≡◌, ◌+◌, ◌<◌, ◌≤◌, ℕ, [], length, map, slice_index, codes, IfOk};
ghost use Rattle.std.specs.List.{range_with_len};
ghost use Rattle.arrayvec.specs.ArrayVec.{array_vec_len};
ghost use Rattle.plan_schema.specs.Day.{day_text};
ghost use Rattle.pegging.specs.Pegs.{shown};
ghost use Rattle.full_pegging.specs.Following.{shown_share};
ghost use Rattle.session_rules.specs.Answers as spec;
ghost use Rattle.plan_answer.specs.Replies.{promised_line};

use command_words::Lines;
use full_pegging::Share;
use pegging::Peg;
use plan_schema::{Day, Outcome, Qty};
use row_text::{RowText, push_number, push_word};
use std::alloc::{AllocError, Global};

/// A line for each day of a horizon on which something is asked for, received, planned or released.
pub fn plan_lines(
    alloc: Global,
    start: &Day,
    days: u16,
    outcome: &Outcome,
) -> Result<Lines, AllocError>
    requires { start.now + days < 36526 }
    ensures { IfOk result (λ lines. lines ≡ spec.plan_lines start.now days outcome.now) }
{
    let mut lines = Lines::new(alloc);
    for day in 0..days {
        if is_eventful(outcome, day) {
            lines.push(plan_line(start, outcome, day).as_slice())?;
        }
    }
    Ok(lines)
}

/// Whether something is asked for, received, planned or released on a day.
fn is_eventful(outcome: &Outcome, day: u16) -> bool
    ensures { result ≡ spec.is_eventful outcome.now day }
{
    at(outcome.gross.as_slice(), day) > 0
        || at(outcome.sched.as_slice(), day) > 0
        || at(outcome.planned.as_slice(), day) > 0
        || at(outcome.release.as_slice(), day) > 0
}

/// The line of a day. What is late is told on the first.
fn plan_line(start: &Day, outcome: &Outcome, day: u16) -> RowText
    requires { start.now + day < 36525 }
    ensures { result.items ≡ spec.plan_line start.now outcome.now day }
{
    let mut text = RowText::new();
    push_date(&mut text, start, day);
    push_number(&mut text, at(outcome.gross.as_slice(), day));
    push_number(&mut text, at(outcome.sched.as_slice(), day));
    push_number(&mut text, at(outcome.planned.as_slice(), day));
    push_number(&mut text, at(outcome.balance.as_slice(), day));
    push_number(&mut text, at(outcome.release.as_slice(), day));
    push_number(&mut text, if day == 0 { outcome.late } else { 0 });
    text
}

/// Begins a line with the date of a day of the horizon.
#[tactic(auto, unfolding(plan_schema::specs::Day::later))]
pub(crate) fn push_date(text: &mut RowText, start: &Day, day: u16)
    requires empty { text.old.items ≡ [] }
    requires date { start.now + day < 36525 }
    ensures items { text.new.items ≡ day_text (start.now + day) }
    ensures len { array_vec_len text.new ≤ 10 }
{
    if let Some(date) = start.later(day) {
        let _ = text.try_extend_from_slice(&date.text());
    }
}

/// The number of a day.
fn at(numbers: &[Qty], day: u16) -> Qty
    ensures { result ≡ slice_index numbers.now day }
{
    numbers.get(day as usize).copied().unwrap_or(0)
}

/// A line for each peg.
pub fn peg_lines(alloc: Global, pegs: &[Peg]) -> Result<Lines, AllocError>
    ensures { IfOk result (λ lines. lines ≡ map (λ peg. spec.peg_line (shown peg)) pegs.now) }
{
    let mut lines = Lines::new(alloc);
    for peg in pegs {
        lines.push(peg_line(peg).as_slice())?;
    }
    Ok(lines)
}

/// The line of a peg.
fn peg_line(peg: &Peg) -> RowText
    ensures { result.items ≡ spec.peg_line (shown peg.now) }
{
    let mut text = RowText::new();
    match peg {
        Peg::Demand(order, qty) => {
            let _ = text.try_extend_from_slice(b"DEMAND");
            push_word(&mut text, order.as_bytes());
            push_number(&mut text, *qty);
        }
        Peg::Bill(parent, qty) => {
            let _ = text.try_extend_from_slice(b"BILL");
            push_word(&mut text, parent.as_bytes());
            push_number(&mut text, *qty);
        }
    }
    text
}

/// A line for each share of a planned receipt.
pub fn share_lines(alloc: Global, shares: &[Share]) -> Result<Lines, AllocError>
    ensures { IfOk result (λ lines. lines
        ≡ map (λ share. spec.share_line (shown_share share)) shares.now) }
{
    let mut lines = Lines::new(alloc);
    for share in shares {
        lines.push(share_line(share).as_slice())?;
    }
    Ok(lines)
}

/// The line of a share.
fn share_line(share: &Share) -> RowText
    ensures { result.items ≡ spec.share_line (shown_share share.now) }
{
    let mut text = RowText::new();
    match share {
        Share::Demand { part, order, qty } => {
            let _ = text.try_extend_from_slice(b"DEMAND");
            push_word(&mut text, part.as_bytes());
            push_word(&mut text, order.as_bytes());
            push_number(&mut text, *qty);
        }
        Share::Surplus { part, qty } => {
            let _ = text.try_extend_from_slice(b"SURPLUS");
            push_word(&mut text, part.as_bytes());
            push_number(&mut text, *qty);
        }
    }
    text
}

/// A line for each day of a horizon with what can be promised on it.
pub fn promise_lines(
    alloc: Global,
    start: &Day,
    days: u16,
    promised: &[Qty],
) -> Result<Lines, AllocError>
    requires { start.now + days < 36526 }
    ensures { IfOk result (λ lines. lines
        ≡ map (promised_line start.now promised.now) (range_with_len 0 days)) }
{
    let mut lines = Lines::new(alloc);
    for day in 0..days {
        lines.push(promise_line(start, promised, day).as_slice())?;
    }
    Ok(lines)
}

/// The line of a day with what can be promised on it.
fn promise_line(start: &Day, promised: &[Qty], day: u16) -> RowText
    requires { start.now + day < 36525 }
    ensures { result.items ≡ promised_line start.now promised.now day }
{
    let mut text = RowText::new();
    push_date(&mut text, start, day);
    push_number(&mut text, at(promised, day));
    text
}
