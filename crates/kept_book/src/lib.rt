//! A book that is kept on a disk: a change is answered only when its entry is there.
#![tactic(auto)]

mod kept;
mod steps;
mod writing;

pub use kept::KeptBook;

#[cfg(test)]
mod tests;
