//! One part's step: what its plan comes to, from the rows of its cell, its calendar and the releases of its parents.
#![tactic(auto)]

mod calendars;
mod laws;
mod records;
mod steps;

pub use calendars::calendar;
pub use laws::steps_are_local;
pub use records::{horizon, record_in, stock_in};
pub use steps::step;
