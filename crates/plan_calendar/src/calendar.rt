//! The days of a horizon that work.
ghost use Rattle.std.specs.Prelude.{◌≡◌, ◌==◌, ◌+◌, ◌<◌, ◌≤◌, ◌&&◌};
ghost use Rattle.std.specs.Prelude.{ℕ, not, [], length, replicate, slice_index_or};
ghost use Rattle.std.specs.Prelude.{true, false};
ghost use Rattle.planning_rules.specs.Days.{back, works_on};
ghost use Rattle.plan_calendar.specs.Weeks.{week_works, worked_days};

use plan_schema::{Day, Series};
use std::marker::Model;

/// The holidays of a calendar.
pub type Holidays = Series<Day>;

/// Which days of a horizon of at most 400 days work.
#[derive(Drop)]
pub struct Calendar {
    works: [bool; 400],
    days: u16,
}

impl Model for Calendar {
    ghost use Rattle.std.specs.Prelude.{List, Bool, take, ◌≤◌};

    ghost Value = { List Bool };

    ghost view = { λ c. take c.days c.works };

    ghost invariant = { λ c. c.days ≤ 400 };
}

impl Calendar {
    /// Every day works.
    pub fn every(days: u16) -> Calendar
        requires { days ≤ 400 }
        ensures { result ≡ replicate days true }
    {
        Calendar {
            works: [true; 400],
            days,
        }
    }

    /// The days of a horizon from `start` on work where the week works on their weekday, Monday first, but for holidays.
    pub fn of(start: &Day, days: u16, week: &[bool; 7], holidays: &Holidays) -> Calendar
        requires { days ≤ 400 }
        ensures { result ≡ worked_days start.now days week.now holidays.now }
    {
        let first = start.number();
        let mut works = weeks(first, days, week);
        for holiday in holidays.as_slice() {
            close(&mut works, first, holiday.number());
        }
        Calendar { works, days }
    }

    /// Whether a day works.
    pub fn works(&self, at: u16) -> bool
        requires { at < length self.now }
        ensures { result ≡ works_on self.now at }
    {
        self.works[at as usize]
    }

    /// The day on which an order for a day is released, and whether the order is late.
    pub fn back(&self, at: u16, lead: u16) -> (u16, bool)
        requires at { at < length self.now }
        ensures day { result ≡ back self.now at lead }
        ensures within { result.0 ≤ at }
    {
        if lead == 0 {
            return (at, false);
        }
        let mut skip = lead - 1;
        let mut day = at;
        while day > 0 {
            day -= 1;
            if self.works(day) {
                if skip == 0 {
                    return (day, false);
                }
                skip -= 1;
            }
        }
        (0, true)
    }
}

/// So many days from a date on, by the week alone.
fn weeks(start: u32, days: u16, week: &[bool; 7]) -> [bool; 400]
    requires start { start < 36525 }
    requires days { days ≤ 400 }
    ensures { (t : ℕ) → t < days
        → slice_index_or result t false ≡ week_works week.now [] (start + t) }
{
    let mut works = [false; 400];
    let mut weekday = (start as usize + 5) % 7;
    for day in 0..days as usize {
        works[day] = week[weekday];
        weekday = if weekday < 6 { weekday + 1 } else { 0 };
    }
    works
}

/// Marks a holiday as a day that doesn't work, where it is one of the days from a date on.
fn close(works: &mut [bool; 400], start: u32, holiday: u32)
    ensures { (t : ℕ) → t < 400
        → slice_index_or works.new t false
        ≡ (slice_index_or works.old t false && not (holiday == start + t)) }
{
    if holiday >= start && holiday - start < 400 {
        works[(holiday - start) as usize] = false;
    }
}
