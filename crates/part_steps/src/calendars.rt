//! The days of a horizon on which a calendar works.
ghost use Rattle.std.specs.Prelude.{◌≡◌, ◌≤◌, true, is_some, length, IfOk, Some};
ghost use Rattle.plan_schema.specs.declared.key.Key.TheVariants as keys;
ghost use Rattle.plan_schema.specs.Contents.{record_at};
ghost use Rattle.plan_schema.specs.Sound.{are_sound_rows};
ghost use Rattle.part_steps.specs.Steps.{calendar_by};
ghost use Rattle.part_steps.specs.Holidays.{holiday_of, holidays_of};

use crate::records::record_in;
use plan_calendar::{Calendar, Holidays};
use plan_schema::{Day, Key, Name, Record, Series};
use record_versions::Cell;
use std::alloc::{AllocError, Global};

/// The holiday of the calendar that a key is.
fn holiday_in(name: &Name, key: &Key) -> Option<Day>
    ensures { result ≡ holiday_of name.now key.now }
{
    let Key::Holiday(of, day) = key else {
        return None;
    };
    if of == name { Some(*day) } else { None }
}

/// The holidays of a calendar.
fn holidays_in(alloc: Global, cell: &Cell, name: &Name) -> Result<Holidays, AllocError>
    ensures { IfOk result (λ holidays. holidays ≡ holidays_of name.now cell.now) }
{
    let mut holidays = Series::new(alloc);
    for (key, _) in cell.iter() {
        if let Some(day) = holiday_in(name, &key) {
            holidays.push(day)?;
        }
    }
    Ok(holidays)
}

/// The calendar of a cell over a horizon.
pub fn calendar(
    alloc: Global,
    cell: &Cell,
    name: &Name,
    start: &Day,
    days: u16,
) -> Result<Calendar, AllocError>
    requires sound { are_sound_rows cell.now ≡ true }
    requires there { is_some (record_at cell.now (keys.Cal name.now)) ≡ true }
    requires days { days ≤ 400 }
    ensures { IfOk result (λ works. works ≡ calendar_by cell.now name.now start.now days) }
{
    let Some(Record::Cal { week }) = record_in(cell, &Key::Cal(*name)) else {
        unreachable!()
    };
    let holidays = holidays_in(alloc, cell, name)?;
    Ok(Calendar::of(start, days, week, &holidays))
}
