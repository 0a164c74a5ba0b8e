//! The records of the planning database: names, days, keys, records, changes, refusals and the lists of them.
#![tactic(auto)]

mod change;
mod contents;
mod day;
mod fault;
mod key;
mod laws;
pub mod limits;
mod name;
mod outcome;
pub mod outside;
mod refusal;
mod release;
mod series;
mod steps;

pub use change::{CellName, Change, Entry};
pub use contents::Contents;
pub use day::Day;
pub use fault::{FieldFault, Rule};
pub use key::{Key, Lot, Qty, Record, Span};
pub use laws::days_have_one_spelling;
pub use name::Name;
pub use outcome::{Known, NetFault, Outcome};
pub use refusal::{Refusal, Room};
pub use release::Release;
pub use series::{Quantities, Rows, Series};
pub use steps::Steps;
