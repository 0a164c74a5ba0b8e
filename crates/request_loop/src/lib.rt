//! The loop of a session: requests are read from bytes, each is answered by what the caller brings, and the replies are written.
#![tactic(auto)]

mod answers;
mod gathering;
mod hear;
mod laws;
mod serve;

pub use answers::{Answers, Why};
pub use byte_lines::Served;
pub use laws::{chains_are_legal, chains_are_pinned};
pub use serve::serve_requests;

#[cfg(test)]
mod tests;
