//! The fields of a row.
ghost use Rattle.std.specs.Prelude.{◌≡◌, ◌<◌, ◌≤◌, ◌^◌, nat_eq, Ok, Err, IfOk, MatchResult};
ghost use Rattle.std.specs.Cmp.Lexicographic.{pointwise};
ghost use Rattle.row_text.specs.Row as spec;
ghost use Rattle.row_text.specs.Texts.{texts};

use crate::number::read_number;
use plan_schema::{Day, FieldFault, Name, Rule};

/// Whether a text is a word.
pub fn is_word(text: &[u8], word: &[u8]) -> bool
    ensures { result ≡ pointwise nat_eq text.now word.now }
{
    text == word
}

/// The text of a field.
#[tactic(auto, unfolding(crate::specs::Row::text_at))]
pub fn text_at<'a>(fields: &[&'a [u8]], field: u32) -> Result<&'a [u8], FieldFault>
    ensures { MatchResult result
        (λ text. spec.text_at (texts fields.now) field ≡ Ok text.now)
        (λ fault. spec.text_at (texts fields.now) field ≡ Err fault) }
{
    match fields.get(field as usize) {
        Some(text) => Ok(*text),
        None => Err(FieldFault::at(field, Rule::Shape)),
    }
}

/// That no field stands there.
#[tactic(auto, unfolding(crate::specs::Row::end_at))]
pub fn end_at(fields: &[&[u8]], field: u32) -> Result<(), FieldFault>
    ensures { result ≡ spec.end_at (texts fields.now) field }
{
    if fields.len() > field as usize {
        return Err(FieldFault::at(field, Rule::Shape));
    }
    Ok(())
}

/// The name that a field is.
#[tactic(auto, unfolding(crate::specs::Row::name_at, crate::specs::Row::name_in))]
pub fn name_at(fields: &[&[u8]], field: u32) -> Result<Name, FieldFault>
    ensures { result ≡ spec.name_at (texts fields.now) field }
{
    let text = text_at(fields, field)?;
    match Name::read(text) {
        Some(name) => Ok(name),
        None => Err(FieldFault::at(field, Rule::Shape)),
    }
}

/// The number from `low` to `high` that a field is.
#[tactic(auto, unfolding(crate::specs::Row::number_at))]
pub fn number_at(fields: &[&[u8]], field: u32, low: u64, high: u64) -> Result<u64, FieldFault>
    requires { high < 2 ^ 60 }
    ensures value { result ≡ spec.number_at (texts fields.now) field low high }
    ensures range { IfOk result (λ n. (low ≤ n) × (n ≤ high)) }
{
    let text = text_at(fields, field)?;
    match read_number(text, low, high) {
        Ok(number) => Ok(number),
        Err(rule) => Err(FieldFault::at(field, rule)),
    }
}

/// The day that a field is.
#[tactic(auto, unfolding(crate::specs::Row::day_at))]
pub fn day_at(fields: &[&[u8]], field: u32) -> Result<Day, FieldFault>
    ensures { result ≡ spec.day_at (texts fields.now) field }
{
    let text = text_at(fields, field)?;
    match Day::read(text) {
        Ok(day) => Ok(day),
        Err(rule) => Err(FieldFault::at(field, rule)),
    }
}

/// The component that a field is: another name than the parent's.
#[tactic(auto, unfolding(crate::specs::Row::component_at))]
pub fn component_at(fields: &[&[u8]], field: u32, parent: &Name) -> Result<Name, FieldFault>
    ensures { result ≡ spec.component_at (texts fields.now) field parent.now }
{
    let component = name_at(fields, field)?;
    if *parent == component {
        return Err(FieldFault::at(field, Rule::Own));
    }
    Ok(component)
}
