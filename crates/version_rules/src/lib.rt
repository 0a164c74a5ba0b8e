//! Which ids the cells of scenarios have after a history of changes, and what these ids mean: definitions that compute, and what holds
//! of them.
#![tactic(auto)]

mod laws;

pub use laws::{ids_have_meanings, meanings_stay, next_ids_are_new, same_ids_have_same_rows};
