//! What one settling tells.

/// Whether a walk is at its end.
#[derive(Clone, Copy)]
pub enum Round {
    /// Every part is settled.
    Done,
    /// Some parts are to be netted next.
    More,
}

/// How many parts were netted, how many were taken from the memo, and how many of the netted the memo dropped.
#[derive(Clone, Copy)]
pub struct Tally {
    pub netted: u64,
    pub reused: u64,
    pub dropped: u64,
}
