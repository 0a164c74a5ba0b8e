//! A walk over a plan: what is known of the parts that a question asks about, what the memo holds of them, and what is to be netted.
#![tactic(auto)]

mod cells;
mod frontier;
mod graph;
mod hits;
mod large;
mod laws;
mod node;
mod results;
mod round;
mod settle;
mod solved;
#[cfg(test)]
mod tests;
mod waiting;
mod walk;

pub use frontier::solve;
pub use laws::{walks_end, work_is_enough};
pub use round::{Round, Tally};
pub use solved::Solved;
pub use walk::Walk;
pub use walk_names::Trouble;
