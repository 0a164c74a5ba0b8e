//! Keys as fields.
ghost use Rattle.std.specs.Prelude.{◌≡◌, true, false, IfOk};
ghost use Rattle.plan_schema.specs.Key.{key_eq};
ghost use Rattle.plan_schema.specs.Sound.{is_sound_key};
ghost use Rattle.row_text.specs.Row as spec;
ghost use Rattle.row_text.specs.Texts.{texts};
ghost use Rattle.plan_schema.specs.declared.key.Key.TheVariants as keys;

use crate::field::{component_at, day_at, end_at, is_word, name_at, text_at};
use plan_schema::{FieldFault, Key, Rule};

/// The key whose key form the fields are, the table word first, or the first faulty field.
pub fn read_key(fields: &[&[u8]]) -> Result<Key, FieldFault>
    ensures value { result ≡ spec.key_of (texts fields.now) }
    ensures sound { IfOk result (λ key. (is_sound_key key ≡ true)
        × (key_eq key keys.Plan ≡ false)) }
{
    key_of(fields)
}

#[tactic(auto, unfolding(crate::specs::Row::key_of))]
fn key_of(fields: &[&[u8]]) -> Result<Key, FieldFault>
    ensures { result ≡ spec.key_of (texts fields.now) }
{
    let word = text_at(fields, 0)?;
    key_of_table(word, fields)
}

#[tactic(auto, unfolding(crate::specs::Row::key_of_table))]
fn key_of_table(word: &[u8], fields: &[&[u8]]) -> Result<Key, FieldFault>
    ensures { result ≡ spec.key_of_table word.now (texts fields.now) }
{
    if is_word(word, b"CAL") {
        return calendar(fields);
    }
    if is_word(word, b"HOLIDAY") {
        return holiday(fields);
    }
    if is_word(word, b"PART") {
        return part(fields);
    }
    if is_word(word, b"STOCK") {
        return stock(fields);
    }
    if is_word(word, b"DEMAND") {
        return demand(fields);
    }
    if is_word(word, b"RECEIPT") {
        return receipt(fields);
    }
    if is_word(word, b"BILL") {
        return bill(fields);
    }
    Err(FieldFault::at(0, Rule::Shape))
}

#[tactic(auto, unfolding(crate::specs::Row::one_name))]
fn calendar(fields: &[&[u8]]) -> Result<Key, FieldFault>
    ensures { result ≡ spec.one_name (texts fields.now) keys.Cal }
{
    let name = name_at(fields, 1)?;
    end_at(fields, 2)?;
    Ok(Key::Cal(name))
}

#[tactic(auto, unfolding(crate::specs::Row::holiday_key_of))]
fn holiday(fields: &[&[u8]]) -> Result<Key, FieldFault>
    ensures { result ≡ spec.holiday_key_of (texts fields.now) }
{
    let calendar = name_at(fields, 1)?;
    let day = day_at(fields, 2)?;
    end_at(fields, 3)?;
    Ok(Key::Holiday(calendar, day))
}

#[tactic(auto, unfolding(crate::specs::Row::one_name))]
fn part(fields: &[&[u8]]) -> Result<Key, FieldFault>
    ensures { result ≡ spec.one_name (texts fields.now) keys.Part }
{
    let name = name_at(fields, 1)?;
    end_at(fields, 2)?;
    Ok(Key::Part(name))
}

#[tactic(auto, unfolding(crate::specs::Row::one_name))]
fn stock(fields: &[&[u8]]) -> Result<Key, FieldFault>
    ensures { result ≡ spec.one_name (texts fields.now) keys.Stock }
{
    let part = name_at(fields, 1)?;
    end_at(fields, 2)?;
    Ok(Key::Stock(part))
}

#[tactic(auto, unfolding(crate::specs::Row::two_names))]
fn demand(fields: &[&[u8]]) -> Result<Key, FieldFault>
    ensures { result ≡ spec.two_names (texts fields.now) keys.Demand }
{
    let part = name_at(fields, 1)?;
    let order = name_at(fields, 2)?;
    end_at(fields, 3)?;
    Ok(Key::Demand(part, order))
}

#[tactic(auto, unfolding(crate::specs::Row::two_names))]
fn receipt(fields: &[&[u8]]) -> Result<Key, FieldFault>
    ensures { result ≡ spec.two_names (texts fields.now) keys.Receipt }
{
    let part = name_at(fields, 1)?;
    let order = name_at(fields, 2)?;
    end_at(fields, 3)?;
    Ok(Key::Receipt(part, order))
}

#[tactic(auto, unfolding(crate::specs::Row::bill_key_of))]
fn bill(fields: &[&[u8]]) -> Result<Key, FieldFault>
    ensures { result ≡ spec.bill_key_of (texts fields.now) }
{
    let parent = name_at(fields, 1)?;
    let component = component_at(fields, 2, &parent)?;
    end_at(fields, 3)?;
    Ok(Key::Bill { parent, component })
}
