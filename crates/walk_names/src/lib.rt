//! The names of a walk over a plan: those in reach of the asked ones, by level and then by name; or why the plan is refused.
//! And the level of one part.
#![tactic(auto)]

mod asked;
mod bills;
mod level;
mod names;
mod refusals;
mod trouble;

pub use level::level_of;
pub use names::names_by_level;
pub use refusals::earlier;
pub use trouble::Trouble;
