//! Lots, weeks and calendars.
ghost use Rattle.std.specs.Prelude.{◌≡◌, ◌<◌, ◌==◌, ◌||◌, position, length, IfSome};
ghost use Rattle.std.specs.List.{list_all};
ghost use Rattle.row_text.specs.Row as spec;

use crate::field::is_word;
use crate::number::{is_number, read_number};
use plan_schema::{Lot, Name, Rule};

/// The lot rule that a text is.
#[tactic(auto, unfolding(crate::specs::Row::lot_of))]
pub(crate) fn lot(text: &[u8]) -> Result<Lot, Rule>
    ensures { result ≡ spec.lot_of text.now }
{
    if is_word(text, b"L4L") {
        return Ok(Lot::Exact);
    }
    if text.starts_with(b"FOQ:") {
        return fixed(&text[4..]);
    }
    if text.starts_with(b"MM:") {
        return least(&text[3..]);
    }
    if text.starts_with(b"POQ:") {
        return period(&text[4..]);
    }
    if text.starts_with(b"WW:") {
        return best(&text[3..]);
    }
    Err(Rule::Shape)
}

/// A fixed order quantity.
#[tactic(auto, unfolding(crate::specs::Row::fixed_of))]
fn fixed(text: &[u8]) -> Result<Lot, Rule>
    ensures { result ≡ spec.fixed_of text.now }
{
    let quantity = read_number(text, 1, 1_000_000_000)?;
    Ok(Lot::Fixed(quantity))
}

/// A period order quantity.
#[tactic(auto, unfolding(crate::specs::Row::period_of))]
fn period(text: &[u8]) -> Result<Lot, Rule>
    ensures { result ≡ spec.period_of text.now }
{
    let days = read_number(text, 1, 400)?;
    Ok(Lot::Period(days as u16))
}

/// A least order quantity with its step, parted by a colon.
#[tactic(auto, unfolding(crate::specs::Row::least_of))]
fn least(text: &[u8]) -> Result<Lot, Rule>
    ensures { result ≡ spec.least_of text.now }
{
    match colon_in(text) {
        None => Err(Rule::Shape),
        Some(at) => least_and_step(&text[..at], &text[at + 1..]),
    }
}

/// A least order quantity with its step.
#[tactic(auto, unfolding(crate::specs::Row::least_and_step))]
fn least_and_step(first: &[u8], second: &[u8]) -> Result<Lot, Rule>
    ensures { result ≡ spec.least_and_step first.now second.now }
{
    if !is_number(first) {
        return Err(Rule::Shape);
    }
    if !is_number(second) {
        return Err(Rule::Shape);
    }
    let least = read_number(first, 0, 1_000_000_000)?;
    let step = read_number(second, 1, 1_000_000_000)?;
    Ok(Lot::Least { least, step })
}

/// A setup and a holding cost, parted by a colon.
#[tactic(auto, unfolding(crate::specs::Row::best_of))]
fn best(text: &[u8]) -> Result<Lot, Rule>
    ensures { result ≡ spec.best_of text.now }
{
    match colon_in(text) {
        None => Err(Rule::Shape),
        Some(at) => setup_and_hold(&text[..at], &text[at + 1..]),
    }
}

/// A setup for each order, and a holding cost for each unit and day.
#[tactic(auto, unfolding(crate::specs::Row::setup_and_hold))]
fn setup_and_hold(first: &[u8], second: &[u8]) -> Result<Lot, Rule>
    ensures { result ≡ spec.setup_and_hold first.now second.now }
{
    if !is_number(first) {
        return Err(Rule::Shape);
    }
    if !is_number(second) {
        return Err(Rule::Shape);
    }
    let setup = read_number(first, 0, 1_000_000_000)?;
    let hold = read_number(second, 0, 1_000_000)?;
    Ok(Lot::Best { setup, hold })
}

/// Where the first colon stands.
fn colon_in(text: &[u8]) -> Option<usize>
    ensures value { result ≡ position (λ b. b == 58) text.now }
    ensures bound { IfSome result (λ at. at < length text.now) }
{
    text.iter().position(|b| *b == b':')
}

/// The week that a text is, Monday first.
#[tactic(auto, unfolding(crate::specs::Row::week_of))]
pub(crate) fn week(text: &[u8]) -> Result<[bool; 7], Rule>
    ensures { result ≡ spec.week_of text.now }
{
    if text.len() != 7 {
        return Err(Rule::Shape);
    }
    if !are_marks(text) {
        return Err(Rule::Shape);
    }
    Ok([
        text[0] == b'1',
        text[1] == b'1',
        text[2] == b'1',
        text[3] == b'1',
        text[4] == b'1',
        text[5] == b'1',
        text[6] == b'1',
    ])
}

/// Whether each byte is `0` or `1`.
fn are_marks(text: &[u8]) -> bool
    ensures { result ≡ list_all (λ b. (b == 48) || (b == 49)) text.now }
{
    text.iter().all(|b| *b == b'0' || *b == b'1')
}

/// The calendar that a text names, or none for `-`.
#[tactic(auto, unfolding(crate::specs::Row::calendar_in))]
pub(crate) fn calendar(text: &[u8]) -> Result<Option<Name>, Rule>
    ensures { result ≡ spec.calendar_in text.now }
{
    if is_word(text, b"-") {
        return Ok(None);
    }
    match Name::read(text) {
        Some(name) => Ok(Some(name)),
        None => Err(Rule::Shape),
    }
}
