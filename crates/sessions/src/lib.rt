//! Sessions over one book with scenarios: requests are read line by line, and each gets its reply. The book is the session's own, or it
//! is shared at an office, where each call takes a turn.
#![tactic(auto)]

mod alone;
mod answering;
mod asked;
mod change;
mod command;
mod in_turns;
mod job;
mod reach;
mod serving;
mod terms;
mod walking;

pub use asked::answer_at;
pub use byte_lines::Served;
pub use serving::{serve, serve_alone};
