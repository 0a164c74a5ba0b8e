//! The journal of accepted changes: its entries, and its text.
#![tactic(auto)]

mod begun;
mod cuts;
mod fault;
mod frame;
mod journal;
mod laws;
mod read;
mod reading;
mod write;

pub use fault::JournalFault;
pub use journal::Journal;
pub use laws::{faulty_lines_are_first, journals_have_one_text};
pub use plan_schema::{Change, Entry};
pub use read::{read_entry, read_journal};
pub use write::{write_entry, write_journal};

#[cfg(test)]
mod tests;
