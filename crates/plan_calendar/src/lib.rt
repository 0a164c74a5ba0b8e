//! Calendars: which days of a horizon work, and the working day on which an order is released.
#![tactic(auto)]

mod calendar;

pub use calendar::{Calendar, Holidays};
