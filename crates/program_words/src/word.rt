//! A word of the command line.
ghost use Rattle.std.specs.Prelude.{◌≡◌};

use std::marker::Model;

/// A word that names a file. Contracts see its bytes.
#[derive(Drop)]
pub struct Word<'a> {
    text: &'a str,
}

impl<'a> Model for Word<'a> {
    ghost use Rattle.std.specs.Prelude.{List, ℕ};

    ghost Value = { List ℕ };

    ghost view = { λ word. word.text.now };
}

impl<'a> Word<'a> {
    pub(crate) fn new(text: &'a str) -> Word<'a>
        ensures { result ≡ text.entry.now }
    {
        Word { text }
    }

    /// The text of the word.
    pub fn as_str(&self) -> &'a str
        ensures { result.now ≡ self.now }
    {
        self.text
    }
}
