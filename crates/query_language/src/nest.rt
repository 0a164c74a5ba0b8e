//! What a token of a condition stands inside.
ghost use Rattle.std.specs.Prelude.{◌≡◌, ◌<◌, ◌∷◌, [], ◌==◌, length, MatchOption};
ghost use Rattle.query_language.specs.Reading as spec;

use arrayvec::ArrayVec;
use std::marker::Model;

/// What is in force for the tokens behind it: a `NOT` up to the end of its factor, a `(` up to its `)`.
#[derive(Clone, Copy, Default)]
pub(crate) enum Opener {
    Not,
    #[default]
    Paren,
}

/// What is in force at a token, seen as a list from the innermost.
#[derive(Drop)]
pub(crate) struct Nest {
    openers: ArrayVec<Opener, 32>,
}

impl Model for Nest {
    ghost use Rattle.std.specs.Prelude.{List, reverse};
    ghost use Rattle.query_language.specs.declared.nest.Opener.{Opener};

    ghost Value = { List Opener };

    ghost view = { λ nest. reverse nest.openers.items };
}

impl Nest {
    /// Nothing in force.
    pub(crate) fn new() -> Nest
        ensures { result ≡ [] }
    {
        Nest {
            openers: ArrayVec::new(),
        }
    }

    /// Whether nothing is in force.
    pub(crate) fn is_empty(&self) -> bool
        ensures { result ≡ (length self.now == 0) }
    {
        self.openers.is_empty()
    }

    /// Puts one more inside the others, unless there are 32.
    pub(crate) fn with(self, opener: Opener) -> Option<Nest>
        ensures { result ≡ spec.nest_with 32 opener self }
    {
        let mut openers = self.openers;
        match openers.try_push(opener) {
            Ok(()) => Some(Nest { openers }),
            Err(_) => None,
        }
    }

    /// Ends the factor that stands innermost, and every `NOT` with it.
    pub(crate) fn behind_factor(self) -> Nest
        ensures { result ≡ spec.behind_factor self }
    {
        let mut openers = self.openers;
        while let Some(Opener::Not) = openers.as_slice().last() {
            openers.pop();
        }
        Nest { openers }
    }

    /// Ends a `(` and the factor that it makes, where one is innermost.
    pub(crate) fn behind_close(self) -> Option<Nest>
        ensures { result ≡ spec.behind_close self }
    {
        let mut openers = self.openers;
        match openers.pop() {
            Some(Opener::Paren) => Some(Nest { openers }.behind_factor()),
            _ => None,
        }
    }
}
