//! Which versions of cells are in use, and giving back what stands on others.
#![tactic(auto)]

mod collect;
mod give_back;

pub use collect::live;
pub use give_back::reclaim;
