//! A memo of bounded size: a map from keys to shared values that forgets the value used longest ago.
//!
//! The words of its contracts stand in `specs/Pairs.antt`, and `proofs/CallerLemmas.antt` has what a
//! caller's proof cites of them.
#![tactic(auto)]

ghost use Rattle.std.specs.Prelude.{◌≡◌, ◌≤◌, [], length, IfOk, IfErr, OnOk, OnErr, IsOk, IsSome, option_map};
ghost use Rattle.std.specs.Arc.{arc_value};
ghost use Rattle.std.specs.Map.{lookup};
ghost use Rattle.std.specs.Borrow.{sem};
ghost use Rattle.std.specs.Fn.{FnReturnsAt};
ghost use Rattle.shared_memo.specs.Pairs.{memo, IsWithin, with_pair, in_front, Keeps, Refuses};

use lru::LruCache;
use std::alloc::{AllocError, Global};
use std::hash::Hash;
use std::marker::Model;
use std::num::NonZeroUsize;
use std::sync::Arc;

/// The most pairs that a memo can be made for.
pub const LARGEST: u32 = 65_536;

/// A value of which an equal one can be made, where memory may be wanting.
pub trait Twin: Sized {
    /// Makes a value that equals this one.
    fn twin(&self, alloc: Global) -> Result<Self, AllocError>
        ensures { IfOk result (λ t. t ≡ self.now) };
}

/// A map from keys to shared values, of bounded size, whose pairs are ordered by their last use.
///
/// A contract sees it as its `pairs`, the most recently used first, and as `most`, the number of
/// pairs that it may hold. A pair is a key and what its `Arc` points to.
#[derive(Drop)]
pub struct Memo<K: Eq + Hash, V> {
    cache: LruCache<K, Arc<V>>,
    alloc: Global,
}

impl<K: Eq + Hash, V> Model for Memo<K, V> {
    ghost use Rattle.std.specs.Prelude.{map};
    ghost use Rattle.std.specs.Arc.{arc_value};
    ghost use Rattle.shared_memo.specs.Pairs.{Memo as Pairs, memo, memo_code};

    ghost Value = { Pairs K V };

    ghost coded = { memo_code K.code V.code };

    ghost view = { λ m. memo (map (λ e. (e.0, arc_value e.1)) m.cache.entries) m.cache.cap };
}

impl<K: Eq + Hash + Drop, V: Drop> Memo<K, V> {
    ghost use Rattle.shared_memo.specs.Lends.{ends_as};

    /// Makes an empty memo for at most `most` pairs, with the room that their look-up needs.
    pub fn new(alloc: Global, most: u32) -> Result<Memo<K, V>, AllocError>
        requires some { 1 ≤ most }
        requires few { most ≤ LARGEST }
        ensures { IfOk result (λ m. m ≡ memo [] most) }
    {
        let Some(room) = NonZeroUsize::new(most as usize) else {
            unreachable!()
        };
        Ok(Memo {
            cache: LruCache::new(alloc, room)?,
            alloc,
        })
    }

    /// The number of pairs.
    pub fn len(&self) -> usize
        ensures len { result ≡ length self.now.pairs }
        ensures within { IsWithin K.eq self.now }
    {
        self.cache.len()
    }

    /// The value of a key that is there, whose pair goes to the front. No memory is taken.
    pub fn get(&mut self, key: &K) -> Option<&Arc<V>>
        ensures* front { sem 𝓛 (ends_as K.row V.row K.Hash self.entry
            (in_front (K.eq key.now) self.old.pairs)) }
        ensures value { option_map (λ a. arc_value a.now) result
            ≡ lookup (K.eq key.now) self.old.pairs }
    {
        self.cache.get(key)
    }

    /// Puts a pair in front. A key that is there gets the new value, and a new key in a full memo
    /// pushes the last pair out.
    ///
    /// # Errors
    ///
    /// The pair is handed back where memory runs out, which is at a new key alone.
    pub fn put(&mut self, key: K, value: Arc<V>) -> Result<(), (K, Arc<V>)>
        ensures ok { OnOk result (self.new
            ≡ memo (with_pair K.eq self.old key (arc_value value)) self.old.most) }
        ensures err { OnErr result (self.new ≡ self.old) }
        ensures back { IfErr result (λ pair. pair ≡ (key, value)) }
        ensures present { IsSome (lookup (K.eq key) self.old.pairs) → IsOk result }
    {
        match self.cache.put(key, value) {
            Ok(_) => Ok(()),
            Err(failed) => Err(failed.value),
        }
    }

    /// Takes out the pairs whose keys `keep` refuses, and leaves the others in their order.
    ///
    /// # Errors
    ///
    /// Memory is wanted for twins of the refused keys, before any pair is taken out.
    pub fn keep_only<F: Fn(&K) -> bool>(&mut self, keep: F) -> Result<(), AllocError>
    where
        K: Twin,
        requires { F.IsAlwaysCallable keep }
        ensures ok { OnOk result (Keeps (FnReturnsAt F.Fn keep) self.old.pairs self.new.pairs) }
        ensures most { self.new.most ≡ self.old.most }
        ensures err { OnErr result (self.new ≡ self.old) }
    {
        // Its contract tells that no two keys are equal, so each twin takes out its own pair alone.
        let _count = self.cache.len();
        let refused = self.refused_keys(&keep)?;
        for key in &refused {
            self.cache.pop(key);
        }
        Ok(())
    }

    // Twins of the keys that `keep` refuses, in order.
    fn refused_keys<F: Fn(&K) -> bool>(&self, keep: &F) -> Result<Vec<K>, AllocError>
    where
        K: Twin,
        requires { F.IsAlwaysCallable keep.now }
        ensures { IfOk result (λ keys. Refuses (FnReturnsAt F.Fn keep.now) self.now.pairs
            keys.items) }
    {
        let mut refused = Vec::new(self.alloc);
        for (key, _) in self.cache.iter() {
            if !keep(key) {
                refused.push(key.twin(self.alloc)?)?;
            }
        }
        Ok(refused)
    }
}

#[cfg(test)]
mod tests;
