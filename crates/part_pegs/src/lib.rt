//! Of a part whose plan is known with those in reach: its cell, its outcome, the horizon, and what its parents release.
#![tactic(auto)]

mod planned;
mod releases;
mod walks;

pub use planned::{horizon, outcome_of, part_cell};
pub use releases::parent_releases;
pub use walks::WalkPlans;
