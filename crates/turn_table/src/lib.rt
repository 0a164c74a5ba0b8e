//! Turns between threads: a value that one thread holds at a time, in the order of tickets.
//!
//! A [`Turn`] has a value with a story, to which whoever holds it adds at most one entry. A thread takes part
//! by a [`Pass`], which knows a beginning of the story, and in it the entries that it made itself. The words
//! of the contracts stand in `specs/Passes.antt` and `specs/Story.antt`, and the rule that every atomic step
//! keeps in `specs/Rule.antt`. The tickets and the turns served are a sequencer and an event count (Reed and
//! Kanodia, 1979), on which those who wait park.
#![tactic(auto)]

mod pass;
mod rule;
mod steps;
mod storied;
mod turn;
mod view;

pub use pass::{Held, Pass, TurnFault, Worn};
pub use storied::Storied;
pub use turn::Turn;

#[cfg(test)]
mod tests;
