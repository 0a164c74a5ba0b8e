//! Desks in rounds at one office: the desks of a round are served side by side, each with a pass of its own.
#![tactic(auto)]

mod laws;
mod passes;
mod round;
mod rounds;
mod running;

pub use laws::{desks_are_places, rounds_are_legal};
pub use passes::{join_all, meet_all, split_all};
pub use round::serve_desks;
pub use rounds::run_round;
pub use running::run_rounds;
