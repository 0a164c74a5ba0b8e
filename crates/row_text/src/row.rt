//! Rows as fields.
ghost use Rattle.std.specs.Prelude.{◌≡◌, ◌<◌, true, IfOk};
ghost use Rattle.plan_schema.specs.Sound.{is_sound_row};
ghost use Rattle.row_text.specs.Row as spec;
ghost use Rattle.row_text.specs.Texts.{texts};

use crate::field::{component_at, day_at, end_at, is_word, name_at, number_at, text_at};
use crate::lot;
use plan_schema::{Day, FieldFault, Key, Lot, Name, Record, Rule, Span};

/// The row that the fields spell, the table word first, or the first faulty field.
pub fn read_record(fields: &[&[u8]]) -> Result<(Key, Record), FieldFault>
    ensures value { result ≡ spec.row_of (texts fields.now) }
    ensures sound { IfOk result (λ row. is_sound_row row.0 row.1 ≡ true) }
{
    row_of(fields)
}

#[tactic(auto, unfolding(crate::specs::Row::row_of))]
fn row_of(fields: &[&[u8]]) -> Result<(Key, Record), FieldFault>
    ensures { result ≡ spec.row_of (texts fields.now) }
{
    let word = text_at(fields, 0)?;
    row_of_table(word, fields)
}

#[tactic(auto, unfolding(crate::specs::Row::row_of_table))]
fn row_of_table(word: &[u8], fields: &[&[u8]]) -> Result<(Key, Record), FieldFault>
    ensures { result ≡ spec.row_of_table word.now (texts fields.now) }
{
    if is_word(word, b"PLAN") {
        return plan(fields);
    }
    if is_word(word, b"CAL") {
        return cal(fields);
    }
    if is_word(word, b"HOLIDAY") {
        return holiday(fields);
    }
    if is_word(word, b"PART") {
        return part(fields);
    }
    if is_word(word, b"STOCK") {
        return stock(fields);
    }
    if is_word(word, b"DEMAND") {
        return demand(fields);
    }
    if is_word(word, b"RECEIPT") {
        return receipt(fields);
    }
    if is_word(word, b"BILL") {
        return bill(fields);
    }
    Err(FieldFault::at(0, Rule::Shape))
}

#[tactic(auto, unfolding(crate::specs::Row::plan_of))]
fn plan(fields: &[&[u8]]) -> Result<(Key, Record), FieldFault>
    ensures { result ≡ spec.plan_of (texts fields.now) }
{
    let start = day_at(fields, 1)?;
    let days = days_at(fields, 2, start)?;
    end_at(fields, 3)?;
    Ok((Key::Plan, Record::Plan { start, days }))
}

#[tactic(auto, unfolding(crate::specs::Row::days_at))]
fn days_at(fields: &[&[u8]], field: u32, start: Day) -> Result<u16, FieldFault>
    ensures { result ≡ spec.days_at (texts fields.now) field start }
{
    let days = number_at(fields, field, 1, 400)?;
    if u64::from(start.number()) + days > 36525 {
        return Err(FieldFault::at(field, Rule::Range));
    }
    Ok(days as u16)
}

#[tactic(auto, unfolding(crate::specs::Row::cal_of))]
fn cal(fields: &[&[u8]]) -> Result<(Key, Record), FieldFault>
    ensures { result ≡ spec.cal_of (texts fields.now) }
{
    let name = name_at(fields, 1)?;
    let week = week_at(fields, 2)?;
    end_at(fields, 3)?;
    Ok((Key::Cal(name), Record::Cal { week }))
}

#[tactic(auto, unfolding(crate::specs::Row::week_at))]
fn week_at(fields: &[&[u8]], field: u32) -> Result<[bool; 7], FieldFault>
    ensures { result ≡ spec.week_at (texts fields.now) field }
{
    let text = text_at(fields, field)?;
    match lot::week(text) {
        Ok(week) => Ok(week),
        Err(rule) => Err(FieldFault::at(field, rule)),
    }
}

#[tactic(auto, unfolding(crate::specs::Row::holiday_of))]
fn holiday(fields: &[&[u8]]) -> Result<(Key, Record), FieldFault>
    ensures { result ≡ spec.holiday_of (texts fields.now) }
{
    let calendar = name_at(fields, 1)?;
    let day = day_at(fields, 2)?;
    end_at(fields, 3)?;
    Ok((Key::Holiday(calendar, day), Record::Holiday))
}

#[tactic(auto, unfolding(crate::specs::Row::part_of))]
fn part(fields: &[&[u8]]) -> Result<(Key, Record), FieldFault>
    ensures { result ≡ spec.part_of (texts fields.now) }
{
    let name = name_at(fields, 1)?;
    let lead = number_at(fields, 2, 0, 365)?;
    let lot = lot_at(fields, 3)?;
    let safety = number_at(fields, 4, 0, 1_000_000_000)?;
    let calendar = calendar_at(fields, 5)?;
    end_at(fields, 6)?;
    let record = Record::Part {
        lead: lead as u16,
        lot,
        safety,
        calendar,
    };
    Ok((Key::Part(name), record))
}

#[tactic(auto, unfolding(crate::specs::Row::lot_at))]
fn lot_at(fields: &[&[u8]], field: u32) -> Result<Lot, FieldFault>
    ensures { result ≡ spec.lot_at (texts fields.now) field }
{
    let text = text_at(fields, field)?;
    match lot::lot(text) {
        Ok(lot) => Ok(lot),
        Err(rule) => Err(FieldFault::at(field, rule)),
    }
}

#[tactic(auto, unfolding(crate::specs::Row::calendar_at))]
fn calendar_at(fields: &[&[u8]], field: u32) -> Result<Option<Name>, FieldFault>
    ensures { result ≡ spec.calendar_at (texts fields.now) field }
{
    let text = text_at(fields, field)?;
    match lot::calendar(text) {
        Ok(calendar) => Ok(calendar),
        Err(rule) => Err(FieldFault::at(field, rule)),
    }
}

#[tactic(auto, unfolding(crate::specs::Row::stock_of))]
fn stock(fields: &[&[u8]]) -> Result<(Key, Record), FieldFault>
    ensures { result ≡ spec.stock_of (texts fields.now) }
{
    let part = name_at(fields, 1)?;
    let qty = number_at(fields, 2, 0, 1_000_000_000)?;
    end_at(fields, 3)?;
    Ok((Key::Stock(part), Record::Stock { qty }))
}

#[tactic(auto, unfolding(crate::specs::Row::demand_of))]
fn demand(fields: &[&[u8]]) -> Result<(Key, Record), FieldFault>
    ensures { result ≡ spec.demand_of (texts fields.now) }
{
    let part = name_at(fields, 1)?;
    let order = name_at(fields, 2)?;
    let day = day_at(fields, 3)?;
    let qty = number_at(fields, 4, 0, 1_000_000_000)?;
    end_at(fields, 5)?;
    Ok((Key::Demand(part, order), Record::Demand { day, qty }))
}

#[tactic(auto, unfolding(crate::specs::Row::receipt_of))]
fn receipt(fields: &[&[u8]]) -> Result<(Key, Record), FieldFault>
    ensures { result ≡ spec.receipt_of (texts fields.now) }
{
    let part = name_at(fields, 1)?;
    let order = name_at(fields, 2)?;
    let day = day_at(fields, 3)?;
    let qty = number_at(fields, 4, 0, 1_000_000_000)?;
    end_at(fields, 5)?;
    Ok((Key::Receipt(part, order), Record::Receipt { day, qty }))
}

#[tactic(auto, unfolding(crate::specs::Row::bill_of))]
fn bill(fields: &[&[u8]]) -> Result<(Key, Record), FieldFault>
    ensures { result ≡ spec.bill_of (texts fields.now) }
{
    let parent = name_at(fields, 1)?;
    let component = component_at(fields, 2, &parent)?;
    let per = number_at(fields, 3, 1, 1_000_000)?;
    let span = span_at(fields, 4)?;
    Ok((Key::Bill { parent, component }, Record::Bill { per, span }))
}

/// The span that begins at a field, or none where no field is left.
#[tactic(auto, unfolding(crate::specs::Row::span_at))]
fn span_at(fields: &[&[u8]], field: u32) -> Result<Option<Span>, FieldFault>
    requires { field < 8 }
    ensures { result ≡ spec.span_at (texts fields.now) field }
{
    if fields.len() <= field as usize {
        return Ok(None);
    }
    days_of_span(fields, field)
}

#[tactic(auto, unfolding(crate::specs::Row::days_of_span))]
fn days_of_span(fields: &[&[u8]], field: u32) -> Result<Option<Span>, FieldFault>
    requires { field < 8 }
    ensures { result ≡ spec.days_of_span (texts fields.now) field }
{
    let from = day_at(fields, field)?;
    let to = to_at(fields, field + 1, from)?;
    end_at(fields, field + 2)?;
    Ok(Some(Span { from, to }))
}

/// The last day of a span.
#[tactic(auto, unfolding(crate::specs::Row::to_at))]
fn to_at(fields: &[&[u8]], field: u32, from: Day) -> Result<Day, FieldFault>
    ensures { result ≡ spec.to_at (texts fields.now) field from }
{
    let to = day_at(fields, field)?;
    if from.number() > to.number() {
        return Err(FieldFault::at(field, Rule::Range));
    }
    Ok(to)
}
