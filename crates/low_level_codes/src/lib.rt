//! Low-level codes: each name one above the greatest of its parents.
#![tactic(auto)]

mod ancestry;
mod codes;
mod fault;
mod graph;
mod numbering;
mod placing;
mod reach;

pub use ancestry::closure;
pub use codes::{closure_and_levels, levels};
pub use fault::LevelFault;
pub use numbering::Numbering;
