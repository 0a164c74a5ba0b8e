//! Single-level pegging: which demands and which parents the gross requirements of a part come from on one day.
#![tactic(auto)]

mod laws;
mod pegs;
mod source;
#[cfg(test)]
mod tests;

pub use laws::pegs_are_local;
pub use pegs::peg;
pub use source::Peg;
