//! Least-cost lots, after Wagner and Whitin's dynamic lot sizing: the orders that cost least in setups and holding, and rows with
//! potentials that prove that no orders cost less.
#![tactic(auto)]

mod best;
mod checking;
mod making;
mod needs;
mod potentials;
mod rows;

pub use best::{fill_best, first_amount};
pub use checking::check;
pub use making::costs;
pub use rows::{CostRow, CostRows, Costs};

#[cfg(test)]
mod tests;
