//! Calls of named files.
ghost use Rattle.std.specs.Prelude.{◌≡◌, ◌==◌, [], ◌∷◌, ◌++◌, length, OnOk, OnErr};
ghost use Rattle.std.specs.Option.{option_map};
ghost use Rattle.std.specs.List.{slice_get};

use crate::memory::Calls;
use plan_schema::Series;
use std::alloc::{AllocError, Global};
use std::marker::Model;

/// A list of pairs of a file's name and the number, from 1, of one of its reads and writes.
#[derive(Drop)]
pub struct NamedCalls {
    items: Vec<(String, u64)>,
}

impl Model for NamedCalls {
    ghost use Rattle.std.specs.Prelude.{List, ℕ, map, string_bytes};

    ghost Value = { List (List ℕ × ℕ) };

    ghost view = { λ c. map (λ p. (string_bytes p.0, p.1)) c.items.items };
}

impl NamedCalls {
    /// No calls.
    pub fn new(alloc: Global) -> NamedCalls
        ensures { result ≡ [] }
    {
        NamedCalls {
            items: Vec::new(alloc),
        }
    }

    /// Adds a call at the end.
    pub fn push(&mut self, name: &str, call: u64) -> Result<(), AllocError>
        ensures ok { OnOk result (self.new ≡ self.old ++ (name.now, call) ∷ []) }
        ensures err { OnErr result (self.new ≡ self.old) }
    {
        let copy = String::from_str(*self.items.allocator(), name)?;
        self.items.push((copy, call))?;
        Ok(())
    }

    /// How many calls there are.
    pub fn len(&self) -> usize
        ensures { result ≡ length self.now }
    {
        self.items.len()
    }

    /// Whether there are no calls.
    pub fn is_empty(&self) -> bool
        ensures { result ≡ (length self.now == 0) }
    {
        self.items.is_empty()
    }

    /// The call at a place, from 0.
    pub fn get(&self, place: usize) -> Option<(&str, u64)>
        ensures { option_map (λ p. (p.0.now, p.1)) result ≡ slice_get self.now place }
    {
        let (name, call) = self.items.get(place)?;
        Some((name.as_str(), *call))
    }

    // The calls of one file.
    pub(crate) fn of(&self, alloc: Global, name: &str) -> Result<Calls, AllocError> {
        let mut calls = Series::new(alloc);
        for (other, call) in &self.items {
            if other.as_str() == name {
                calls.push(*call)?;
            }
        }
        Ok(calls)
    }
}
