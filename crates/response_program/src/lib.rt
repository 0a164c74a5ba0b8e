//! The program: what its words ask for, the run of sessions over a base and its audit, and the making of a base and an input.
#![tactic(auto)]

mod asked;
mod audit;
mod console;
mod desk;
mod desks;
mod ending;
mod files;
mod history;
mod in_rounds;
mod making;
mod replay;
mod run;
mod trial;
mod written;

pub use run::response;
