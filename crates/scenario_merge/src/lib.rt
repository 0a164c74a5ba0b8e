//! The scenarios and what changes do to them: branching, sharing, changes of records, updates from a parent, commits to it, and drops, in
//! cells that scenarios share where they don't differ.
#![tactic(auto)]

mod forest;
mod refusals;
mod tree;

pub use forest::{ApplyFault, Forest, TreeRow};
