//! Explosion: what the parents of a part and its demands ask of it on each day, and what it receives, from the rows of its cell.
#![tactic(auto)]

mod adding;
mod laws;
mod sums;
#[cfg(test)]
mod tests;

pub use adding::{is_effective_on, release_at};
pub use laws::sums_are_local;
pub use sums::{gross, sched};
