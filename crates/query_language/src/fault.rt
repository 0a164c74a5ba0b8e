//! What is wrong with a text that is no query.

/// Why a text is no query.
#[derive(Clone, Copy)]
pub enum QueryRule {
    /// A token that doesn't fit.
    Word,
    /// The text ends where a query needs more.
    End,
    /// A `(` or `NOT` inside 32 others.
    Deep,
    /// The comma after the sixteenth column.
    Many,
}

/// The first token that no query continues, by the place of its first byte, from 0. Where the text ends too early, the place is
/// its length.
#[derive(Clone, Copy)]
pub struct QueryFault {
    pub place: u32,
    pub rule: QueryRule,
}
