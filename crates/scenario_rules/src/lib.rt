//! The rules of branching scenarios, as definitions that compute, and what holds of them.
#![tactic(auto)]

mod laws;

pub use laws::{
    changes_leave_others, commits_join, drops_leave_others, legal_worlds_are_whole,
    refused_changes_are_absent, same_records_are_equal, updates_show_parents,
};
