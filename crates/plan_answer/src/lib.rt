//! Answers to the questions of sessions, from the cells that a question takes along and the plans of its parts.
#![tactic(auto)]

mod ask;
mod costs;
mod laws;
mod lines;
mod pegged;
mod planned;
mod plans;
mod records;
mod still;
mod traces;
mod walks;
mod want;

pub use ask::{Ask, ask_of, uses_plan};
pub use laws::{asked_is_answered, collected_cells_are_enough, questions_are_answered};
pub use lines::{peg_lines, plan_lines, promise_lines, share_lines};
pub use plans::from_plans;
pub use records::shown_rows;
pub use still::from_records;
pub use walks::{from_plan, from_settled};
pub use want::wanted;
