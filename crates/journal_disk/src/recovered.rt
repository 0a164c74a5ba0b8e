//! A store that was read.
use plan_journal::Journal;

/// The entries of a store.
#[derive(Drop)]
pub struct Recovered {
    pub journal: Journal,
    /// The place of the closed gate behind them.
    pub end: u64,
}
