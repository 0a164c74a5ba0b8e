//! The rows that a query selects, each from its part's own cell and plan, in one pass over the cells.
#![tactic(auto)]

mod condition;
mod laws;
mod line;
mod needs;
mod part;
mod rows;
mod value;

pub use laws::rows_are_local;
pub use needs::needs_plan;
pub use rows::{Plans, rows_planned, rows_still};
