//! Days of the calendar.
ghost use Rattle.std.specs.Prelude.{◌≡◌, ◌<◌, ◌*◌, ◌+◌, ◌/◌, ◌%◌, true, pos, length, [], ◌∷◌};
ghost use Rattle.jiff_core.specs.Date.{epoch_day};
ghost use Rattle.plan_schema.specs.Day as spec;
ghost use Rattle.plan_schema.specs.Day.{is_day, day_of, day_in, day_text, date_of, HasParts};

use crate::fault::Rule;
use jiff::civil;
use jiff_core::civil as plain;
use std::marker::Model;

/// The days from -9999-01-01 to 2000-01-01.
const FIRST: u32 = 4_382_544;

/// A day from 2000-01-01 to 2099-12-31. Days are ordered in time.
#[derive(Clone, Copy, PartialEq, Eq, PartialOrd, Ord)]
pub struct Day {
    number: u32,
}

impl Model for Day {
    ghost use Rattle.std.specs.Prelude.{ℕ, ◌<◌};

    ghost Value = { ℕ };

    ghost view = { λ a. a.number };

    ghost invariant = { λ a. a.number < 36525 };

    ghost inverse = { λ n. record { number = n } };
}

impl Day {
    /// The day that the text names, or the rule that the text breaks.
    #[tactic(auto, unfolding(crate::specs::Day::day_of))]
    pub fn read(text: &[u8]) -> Result<Day, Rule>
        ensures { result ≡ day_of text.now }
    {
        if !has_date_form(text) {
            return Err(Rule::Shape);
        }
        let century = digits_at(text, 0);
        let year = digits_at(text, 2);
        let month = digits_at(text, 5);
        let day = digits_at(text, 8);
        day_at(100 * century + year, month, day)
    }

    /// The days since 2000-01-01.
    pub fn number(&self) -> u32
        ensures value { result ≡ self.now }
        ensures bound { self.now < 36525 }
    {
        self.number
    }

    /// The day so many days later, where it isn't past 2099-12-31.
    #[tactic(auto, unfolding(crate::specs::Day::later))]
    pub fn later(&self, days: u16) -> Option<Day>
        ensures { result ≡ spec.later self.now days }
    {
        let number = self.number + u32::from(days);
        if number < 36_525 {
            Some(Day { number })
        } else {
            None
        }
    }

    /// Tells a caller that the number is a day's.
    pub fn holds(&self)
        ensures { is_day self.now ≡ true }
    {
        let _number = self.number();
    }

    /// The days since the last Monday.
    pub fn weekday(&self) -> u8
        ensures value { result ≡ spec.weekday_of self.now }
        ensures bound { result < 7 }
    {
        self.date().weekday().index()
    }

    /// The date, as `YYYY-MM-DD`.
    #[tactic(auto, unfolding(crate::specs::Day::day_text))]
    pub fn text(&self) -> [u8; 10]
        ensures { result ≡ day_text self.now }
    {
        let date = self.date();
        let year = date.year.unsigned_abs();
        let y = two_digits((year / 100) as u8);
        let z = two_digits((year % 100) as u8);
        let m = two_digits(date.month);
        let d = two_digits(date.day);
        [y[0], y[1], z[0], z[1], b'-', m[0], m[1], b'-', d[0], d[1]]
    }

    fn date(&self) -> plain::Date
        ensures epoch { epoch_day result ≡ pos (self.now + 10957) }
        ensures parts { HasParts result (date_of self.now) }
    {
        plain::Date::from_days_since_min(self.number + FIRST)
    }
}

fn two_digits(n: u8) -> [u8; 2]
    requires { n < 100 }
    ensures { result ≡ (48 + n / 10) ∷ (48 + n % 10) ∷ [] }
{
    [b'0' + n / 10, b'0' + n % 10]
}

#[tactic(auto, unfolding(crate::specs::Day::day_in))]
fn day_at(year: u32, month: u32, day: u32) -> Result<Day, Rule>
    requires years { year < 10000 }
    requires months { month < 100 }
    requires days { day < 100 }
    ensures { result ≡ day_in year month day }
{
    if year < 2000 || year > 2099 {
        return Err(Rule::Date);
    }
    let Ok(date) = civil::Date::new(year as i16, month as i8, day as i8) else {
        return Err(Rule::Date);
    };
    Ok(Day {
        number: date.to_plain().days_since_min() - FIRST,
    })
}

fn has_date_form(text: &[u8]) -> bool
    ensures { result ≡ spec.has_date_form text.now }
{
    if text.len() != 10 {
        return false;
    }
    if !has_digits_at(text, 0) || !has_digits_at(text, 2) || text[4] != b'-' {
        return false;
    }
    has_digits_at(text, 5) && text[7] == b'-' && has_digits_at(text, 8)
}

fn has_digits_at(text: &[u8], at: usize) -> bool
    requires { at + 1 < length text.now }
    ensures { result ≡ spec.has_digits_at text.now at }
{
    text[at].is_ascii_digit() && text[at + 1].is_ascii_digit()
}

fn digits_at(text: &[u8], at: usize) -> u32
    requires { at + 1 < length text.now }
    ensures { result ≡ spec.digits_at text.now at }
{
    10 * u32::from(text[at].saturating_sub(b'0')) + u32::from(text[at + 1].saturating_sub(b'0'))
}
