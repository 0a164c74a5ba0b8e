//! The rules of sessions: the requests of an input, what each command is answered, and which sessions and runs are legal.
#![tactic(auto)]

mod laws;

pub use laws::{points_are_within, points_dont_fall, replies_grow, replies_stay};
