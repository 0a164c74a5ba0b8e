//! Why a journal isn't read.
use thiserror::Error;

/// Why a journal wasn't read.
#[derive(Clone, Copy, Debug, Error)]
pub enum JournalFault {
    /// The source failed.
    #[error("the source failed")]
    Read,
    /// The number of the first line, counted from 1, that no journal goes on with. A last piece that isn't empty and has no line
    /// feed is such a line. A text that ends where a journal needs more tells the number of its lines plus one.
    #[error("a line is in no journal")]
    Form(u64),
    /// There are more than 1,073,741,824 bytes.
    #[error("there are too many bytes")]
    Large,
    #[error("there is no memory")]
    Memory,
}
