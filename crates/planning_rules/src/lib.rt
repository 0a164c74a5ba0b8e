//! The rules of planning, as definitions that compute, and what holds of them.
#![tactic(auto)]

mod laws;

pub use laws::{
    cycles_alone, least_cyclic_name, least_promise, one_best, one_netting, pegs_are_gross,
    plan_by_steps, short_chains,
};
