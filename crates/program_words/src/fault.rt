//! Why words are not read.

/// Why words are no command.
#[derive(Clone, Copy, Debug)]
pub enum WordFault {
    /// They are outside the grammar.
    Words,
    /// There was no memory to read them.
    Memory,
}
