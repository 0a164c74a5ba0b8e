//! The queries of `SELECT`: which texts are queries, the first fault of any other, and the tree that a query is read to.
#![tactic(auto)]

mod check;
mod column;
mod cond;
mod fault;
mod growth;
mod laws;
mod nest;
mod progress;
mod read;
mod token;

pub use check::check_query;
pub use column::{Column, Op};
pub use cond::{Columns, Cond, Query};
pub use fault::{QueryFault, QueryRule};
pub use laws::{faults_are_first, queries_have_one_reading};
pub use read::read_query;

#[cfg(test)]
mod tests;
