//! What a walk over a plan knows and takes from the memo, as definitions with their laws. The key of the memo is the one type of code.
#![tactic(auto)]

mod key;
mod laws;

pub use key::MemoKey;
pub use laws::{
    growth_keeps_right, hits_are_plans, planning_is_local, step_from_lists, walks_end_settled,
    work_is_by_rounds,
};
