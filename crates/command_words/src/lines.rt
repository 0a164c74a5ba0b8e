//! Lists of texts.
ghost use Rattle.std.specs.Prelude.{◌≡◌, ◌==◌, [], ◌∷◌, ◌++◌, length, map, OnOk, OnErr, option_map};
ghost use Rattle.std.specs.List.{slice_get};

use std::alloc::{AllocError, Global};
use std::marker::Model;

/// The lines of a reply, each without its line feed.
#[derive(Drop)]
pub struct Lines {
    texts: Vec<Vec<u8>>,
}

impl Model for Lines {
    ghost use Rattle.std.specs.Prelude.{List, ℕ, map};

    ghost Value = { List (List ℕ) };

    ghost view = { λ lines. map (λ text. text.items) lines.texts.items };
}

impl Lines {
    /// No lines.
    pub fn new(alloc: Global) -> Lines
        ensures { result ≡ [] }
    {
        Lines {
            texts: Vec::new(alloc),
        }
    }

    /// Adds a line at the end.
    pub fn push(&mut self, text: &[u8]) -> Result<(), AllocError>
        ensures ok { OnOk result (self.new ≡ self.old ++ text.now ∷ []) }
        ensures err { OnErr result (self.new ≡ self.old) }
    {
        let line = Vec::from_slice(*self.texts.allocator(), text)?;
        self.texts.push(line)?;
        Ok(())
    }

    /// How many lines there are.
    pub fn len(&self) -> usize
        ensures { result ≡ length self.now }
    {
        self.texts.len()
    }

    /// Whether there are no lines.
    pub fn is_empty(&self) -> bool
        ensures { result ≡ (length self.now == 0) }
    {
        self.texts.is_empty()
    }

    /// The lines, in order.
    pub(crate) fn as_slice(&self) -> &[Vec<u8>]
        ensures { map (λ text. text.items) result.now ≡ self.now }
    {
        self.texts.as_slice()
    }

    /// The line at a place, from 0.
    pub fn get(&self, place: usize) -> Option<&[u8]>
        ensures { option_map (λ text. text.now) result ≡ slice_get self.now place }
    {
        match self.texts.get(place) {
            Some(text) => Some(text.as_slice()),
            None => None,
        }
    }
}
