//! An office: a book that several sessions share, one turn after another.
#![tactic(auto)]

mod fault;
mod office;

pub use fault::OfficeFault;
pub use office::{Office, Pass};
