//! What a session may do.

/// A session's number, and whether it may change anything.
#[derive(Clone, Copy)]
pub struct Terms {
    /// Its number, from 1.
    pub session: u64,
    pub may_change: bool,
}
