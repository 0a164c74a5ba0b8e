//! A piece of a tree: its least shared part.
ghost use Rattle.std.specs.Prelude.{◌≡◌, ◌+◌, ◌<◌, ◌≤◌, [], ◌∷◌};
ghost use Rattle.std.specs.Prelude.{◌++◌, length, IfOk, OnOk, OnErr, Some, unwrap_or};
ghost use Rattle.std.specs.Prelude.{slice_get, if◌then◌else◌};
ghost use Rattle.std.specs.List.Sorted.{IsStrictlySortedBy};
ghost use Rattle.std.specs.Option.{option_map};
ghost use Rattle.std.specs.Arc.{arc_value};
ghost use Rattle.std.specs.Map.{keys_of, lookup, remove_entry};
ghost use Rattle.std.specs.BTreeMap.{is_at, insert_entry};
ghost use Rattle.cell_tree.specs.Pairs.{shown};

use crate::places::{cut_for, place_of};
use crate::shares::share_pairs;
use std::alloc::{AllocError, Global};
use std::marker::Model;
use std::sync::Arc;

/// The most pairs of a piece.
pub(crate) const MOST: usize = 64;

/// At least one pair and at most 64, in the order of their keys. Contracts see the list.
#[derive(Drop)]
pub(crate) struct Piece<K: Ord, V> {
    pairs: Vec<(K, Arc<V>)>,
}

impl<K: Ord, V> Model for Piece<K, V> {
    ghost use Rattle.std.specs.Prelude.{List, ◌<◌, ◌≤◌, length};
    ghost use Rattle.std.specs.List.Sorted.{IsStrictlySortedBy};
    ghost use Rattle.std.specs.Map.{keys_of};
    ghost use Rattle.cell_tree.specs.Pairs.{shown};

    ghost Value = { List (K × V) };

    ghost view = { λ p. shown p.pairs.items };

    ghost invariant = { λ p. (0 < length p.pairs.items)
        × (length p.pairs.items ≤ 64) × IsStrictlySortedBy K.cmp (keys_of p.pairs.items) };
}

impl<K: Ord + Copy, V> Piece<K, V> {
    pub(crate) fn pairs(&self) -> &[(K, Arc<V>)]
        ensures pairs { shown result.now ≡ self.now }
        ensures some { 0 < length result.now }
    {
        &self.pairs
    }

    pub(crate) fn first_key(&self) -> &K
        ensures { option_map (λ e. e.0) (slice_get self.now 0) ≡ Some result.now }
    {
        &self.pairs[0].0
    }

    pub(crate) fn get(&self, key: &K) -> Option<&Arc<V>>
        ensures { option_map (λ v. arc_value v.now) result
            ≡ lookup (is_at (K.cmp key.now)) self.now }
    {
        match place_of(&self.pairs, key) {
            Ok(place) => Some(&self.pairs[place].1),
            Err(_) => None,
        }
    }
}

impl<K: Ord + Copy, V: Drop> Piece<K, V> {
    pub(crate) fn one(alloc: Global, key: K, value: Arc<V>) -> Result<Self, AllocError>
        ensures { IfOk result (λ p. p ≡ (key, arc_value value) ∷ []) }
    {
        let mut pairs = Vec::new(alloc);
        pairs.push((key, value))?;
        Ok(Piece { pairs })
    }

    /// With the value under the key: one piece, or two where there is no room for one more pair.
    pub(crate) fn with(&self, key: K, value: Arc<V>) -> Result<(Self, Option<Self>), AllocError>
        ensures { IfOk result (λ p. p.0 ++ unwrap_or p.1 []
            ≡ insert_entry K.cmp self.now key (arc_value value)) }
    {
        let cut = cut_for(&self.pairs, key);
        let mut pairs = Vec::with_capacity(*self.pairs.allocator(), self.pairs.len() + 1)?;
        share_pairs(&mut pairs, &self.pairs[..cut.from])?;
        pairs.push((cut.key, value))?;
        share_pairs(&mut pairs, &self.pairs[cut.to..])?;
        // A key behind all others leaves a full piece, so that rising keys make few pieces.
        let lower = if cut.from == MOST { MOST } else { MOST / 2 };
        Piece::parted(pairs, lower)
    }

    /// Puts the value under the key in place, and tells whether the key is new: an error where there is no room for one more pair.
    pub(crate) fn put(&mut self, key: K, value: &Arc<V>) -> Result<bool, AllocError>
        ensures ok { OnOk result (self.new
            ≡ insert_entry K.cmp self.old key (arc_value value.now)) }
        ensures len { IfOk result (λ new. length self.new
            ≡ length self.old + (if new then 1 else 0)) }
        ensures err { OnErr result (self.new ≡ self.old) }
    {
        let value = Arc::try_clone(value)?;
        match place_of(&self.pairs, &key) {
            Ok(place) => {
                let pair = &mut self.pairs[place];
                pair.1 = value;
                Ok(false)
            }
            Err(place) => {
                if self.pairs.len() >= MOST {
                    return Err(AllocError);
                }
                self.pairs.insert(place, (key, value))?;
                Ok(true)
            }
        }
    }

    /// Without the key and its value: nothing where it was the last.
    pub(crate) fn without(&self, key: &K) -> Result<Option<Self>, AllocError>
        ensures { IfOk result (λ p. unwrap_or p []
            ≡ remove_entry (is_at (K.cmp key.now)) self.now) }
    {
        let cut = cut_for(&self.pairs, *key);
        let mut pairs = Vec::with_capacity(*self.pairs.allocator(), self.pairs.len())?;
        share_pairs(&mut pairs, &self.pairs[..cut.from])?;
        share_pairs(&mut pairs, &self.pairs[cut.to..])?;
        if pairs.is_empty() {
            return Ok(None);
        }
        Ok(Some(Piece { pairs }))
    }

    /// Takes the key and its value out in place, where they are there: an error where they are the last pair.
    pub(crate) fn take_out(&mut self, key: &K) -> Result<(), AllocError>
        ensures ok { OnOk result (self.new ≡ remove_entry (is_at (K.cmp key.now)) self.old) }
        ensures err { OnErr result (self.new ≡ self.old) }
    {
        let Ok(place) = place_of(&self.pairs, key) else {
            return Ok(());
        };
        if self.pairs.len() == 1 {
            return Err(AllocError);
        }
        self.pairs.remove(place);
        Ok(())
    }

    /// One piece of these pairs and those of the next piece.
    pub(crate) fn joined(&self, next: &Self) -> Result<Self, AllocError>
        requires few { length self.now + length next.now ≤ 64 }
        requires sorted { IsStrictlySortedBy K.cmp (keys_of (self.now ++ next.now)) }
        ensures { IfOk result (λ p. p ≡ self.now ++ next.now) }
    {
        let len = self.pairs.len() + next.pairs.len();
        let mut pairs = Vec::with_capacity(*self.pairs.allocator(), len)?;
        share_pairs(&mut pairs, &self.pairs)?;
        share_pairs(&mut pairs, &next.pairs)?;
        Ok(Piece { pairs })
    }

    // One piece of the pairs, or two where they are too many for one: the lower gets as many as is said.
    fn parted(mut pairs: Vec<(K, Arc<V>)>, lower: usize) -> Result<(Self, Option<Self>), AllocError>
        requires some { 0 < length pairs.items }
        requires few { length pairs.items ≤ 65 }
        requires part { 0 < lower }
        requires low { lower ≤ 64 }
        requires sorted { IsStrictlySortedBy K.cmp (keys_of pairs.items) }
        ensures { IfOk result (λ p. p.0 ++ unwrap_or p.1 [] ≡ shown pairs.items) }
    {
        if pairs.len() <= MOST {
            return Ok((Piece { pairs }, None));
        }
        let mut upper = Vec::with_capacity(*pairs.allocator(), pairs.len() - lower)?;
        share_pairs(&mut upper, &pairs[lower..])?;
        pairs.truncate(lower);
        Ok((Piece { pairs }, Some(Piece { pairs: upper })))
    }
}
