//! The list of entries.
ghost use Rattle.std.specs.Prelude.{◌≡◌, ◌==◌, ◌≤◌, ◌+◌, [], ◌∷◌};
ghost use Rattle.std.specs.Prelude.{◌++◌, length, List, OnOk, OnErr, MatchOption};
ghost use Rattle.std.specs.Option.{option_copied};
ghost use Rattle.std.specs.List.{slice_get};
ghost use Rattle.plan_schema.specs.declared.change.Entry.{Entry};

use plan_schema::Entry;
use std::alloc::{AllocError, Global};
use std::marker::Model;
use std::slice;

/// The accepted changes, in the order in which they were accepted. The first entry has the number 1.
#[derive(Drop)]
pub struct Journal {
    entries: Vec<Entry>,
}

impl Model for Journal {
    ghost use Rattle.std.specs.Prelude.{◌-◌};
    ghost use Rattle.std.specs.Vec.{vec_capacity, vec_len};
    ghost use Rattle.plan_journal.specs.Held.{Held};

    ghost Value = { Held };

    ghost view = { λ journal. record {
      entries = journal.entries.items;
      spare = vec_capacity journal.entries - vec_len journal.entries;
    } };
}

impl Journal {
    /// A journal without entries.
    pub fn new(alloc: Global) -> Journal
        ensures { result.entries ≡ [] }
    {
        Journal {
            entries: Vec::new(alloc),
        }
    }

    /// Makes room for one more entry: a `push` behind it takes no memory and isn't refused.
    pub fn reserve(&mut self) -> Result<(), AllocError>
        ensures entries { self.new.entries ≡ self.old.entries }
        ensures ok { OnOk result (1 ≤ self.new.spare) }
        ensures room { self.old.spare ≤ self.new.spare }
        ensures full { OnErr result (self.old.spare ≡ 0) }
        ensures err { OnErr result (self.new ≡ self.old) }
    {
        self.entries.reserve(1)
    }

    /// Adds an entry at the end. It is refused only where there is neither room nor memory.
    pub fn push(&mut self, entry: Entry) -> Result<(), AllocError>
        ensures ok { OnOk result (self.new.entries ≡ self.old.entries ++ entry ∷ []) }
        ensures room { OnOk result (self.old.spare ≤ self.new.spare + 1) }
        ensures full { OnErr result (self.old.spare ≡ 0) }
        ensures err { OnErr result (self.new ≡ self.old) }
    {
        self.reserve()?;
        self.entries.push(entry)?;
        Ok(())
    }

    /// How many entries there are.
    pub fn len(&self) -> usize
        ensures { result ≡ length self.now.entries }
    {
        self.entries.len()
    }

    /// Whether there are no entries.
    pub fn is_empty(&self) -> bool
        ensures { result ≡ (length self.now.entries == 0) }
    {
        self.entries.is_empty()
    }

    /// The entry at a place, from 0: its number is one more.
    pub fn get(&self, place: usize) -> Option<&Entry>
        ensures { option_copied result ≡ slice_get self.now.entries place }
    {
        self.entries.get(place)
    }

    /// The last entry, if there are entries.
    pub(crate) fn into_last(self) -> Option<Entry>
        ensures { MatchOption result (self.entries ≡ [])
            (λ entry. (front : List Entry) × (self.entries ≡ front ++ entry ∷ [])) }
    {
        let mut entries = self.entries;
        entries.pop()
    }

    /// The entries, the first one first.
    pub fn as_slice(&self) -> &[Entry]
        ensures { result.now ≡ self.now.entries }
    {
        self.entries.as_slice()
    }
}

impl<'a> IntoIterator for &'a Journal {
    ghost use Rattle.std.specs.Prelude.{◌≡◌, ◌<◌, ◌^◌, length};
    ghost use Rattle.plan_schema.specs.declared.change.Entry.{Entry};
    ghost use Rattle.std.specs.Slice.Iter.{iter_rest, iter_steps};
    ghost use Rattle.std.specs.Iterator.Runs.{EveryRun, ItemsMapTo};

    type Item = &'a Entry;

    type IntoIter = slice::Iter<'a, Entry>;

    ghost into_iter_gives = { λ journal it. (iter_rest it ≡ journal.now.entries) × (length (iter_rest it) < 2 ^ 64)
        × EveryRun (iter_steps {A = Entry}) (λ p. ItemsMapTo p (λ x. x.now) (iter_rest p.from)) };

    /// The entries, the first one first.
    fn into_iter(self) -> slice::Iter<'a, Entry> {
        self.as_slice().iter()
    }
}
