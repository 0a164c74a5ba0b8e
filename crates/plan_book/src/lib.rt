//! The book of a plan behind a turn: the scenarios, the accepted changes that led to them, and the memo of what was netted.
#![tactic(auto)]

mod book;
mod fault;
mod ground;
mod plan_book;

pub use book::Book;
pub use fault::BookFault;
pub use ground::Ground;
pub use plan_book::PlanBook;
