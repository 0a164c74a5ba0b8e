//! A persistent map whose pieces its copies share.
ghost use Rattle.std.specs.Prelude.{◌≡◌, ◌^◌, ◌<◌, [], length, IfOk, OnOk, OnErr, slice_get, ◌==◌};
ghost use Rattle.std.specs.Option.{option_map};
ghost use Rattle.std.specs.Arc.{arc_value};
ghost use Rattle.std.specs.List.Sorted.{IsStrictlySortedBy};
ghost use Rattle.std.specs.Map.{keys_of, lookup, remove_entry};
ghost use Rattle.std.specs.Map.Iter.{ShowsInOrder, ShowsValuesInOrder};
ghost use Rattle.std.specs.BTreeMap.{is_at, insert_entry};
ghost use Rattle.cell_tree.specs.Pairs.{shown_pair};

use crate::iter::Iter;
use crate::pieces::Pieces;
use std::alloc::{AllocError, Global};
use std::marker::Model;
use std::sync::Arc;

/// A map from keys to shared values. Contracts see its pairs as a list in the order of the keys.
///
/// `with` and `without` give a new tree, which shares all pieces but one or two with the tree that it came from. They take time and
/// memory for these pieces, of at most 64 pairs each, and for the list of the pieces. `put` and `remove` change the tree itself, and
/// copy only what another tree shares, so that a run of changes to a tree of its own costs a search and a few moved pairs each.
#[derive(Drop)]
pub struct Tree<K: Ord, V> {
    root: Option<Arc<Pieces<K, V>>>,
    alloc: Global,
}

impl<K: Ord, V> Model for Tree<K, V> {
    ghost use Rattle.std.specs.Prelude.{List};
    ghost use Rattle.cell_tree.specs.Pairs.{root_pairs};

    ghost Value = { List (K × V) };

    ghost view = { λ t. root_pairs t.root };
}

impl<K: Ord + Copy, V> Tree<K, V> {
    /// The empty tree, which holds no memory.
    pub fn new(alloc: Global) -> Self
        ensures { result ≡ [] }
    {
        Tree { root: None, alloc }
    }

    /// An equal tree. Nothing is copied: both hold the same pieces.
    pub fn share(&self) -> Result<Self, AllocError>
        ensures { IfOk result (λ t. t ≡ self.now) }
    {
        let root = match &self.root {
            Some(pieces) => Some(Arc::try_clone(pieces)?),
            None => None,
        };
        Ok(Tree {
            root,
            alloc: self.alloc,
        })
    }

    /// How many pairs there are. The count is kept.
    pub fn len(&self) -> usize
        ensures len { result ≡ length self.now }
        ensures sorted { IsStrictlySortedBy K.cmp (keys_of self.now) }
    {
        match &self.root {
            Some(pieces) => pieces.len(),
            None => 0,
        }
    }

    /// Whether there is no pair.
    pub fn is_empty(&self) -> bool
        ensures { result ≡ (length self.now == 0) }
    {
        self.len() == 0
    }

    /// The value under the key.
    pub fn get(&self, key: &K) -> Option<&Arc<V>>
        ensures { option_map (λ v. arc_value v.now) result
            ≡ lookup (is_at (K.cmp key.now)) self.now }
    {
        self.root.as_ref()?.get(key)
    }

    /// The pair at a place, from 0, in the order of the keys.
    pub fn at(&self, place: usize) -> Option<(K, &Arc<V>)>
        ensures { option_map (λ e. (e.0, arc_value e.1.now)) result ≡ slice_get self.now place }
    {
        self.root.as_ref()?.at(place)
    }

    /// The pairs in the order of their keys.
    pub fn iter(&self) -> Iter<'_, K, V>
        ensures pairs { result ≡ self.now }
        ensures runs { ShowsInOrder (shown_pair {K = K} {V = V}) }
        ensures values_run { ShowsValuesInOrder (shown_pair {K = K} {V = V}) }
        ensures sorted { IsStrictlySortedBy K.cmp (keys_of self.now) }
        ensures bound { length self.now < 2 ^ 64 }
    {
        match &self.root {
            Some(pieces) => Iter::new(pieces.list(), pieces.len()),
            None => Iter::new(&[], 0),
        }
    }
}

impl<K: Ord + Copy, V: Drop> Tree<K, V> {
    /// The tree with the value under the key, in place of the value that was there.
    pub fn with(&self, key: K, value: Arc<V>) -> Result<Self, AllocError>
        ensures { IfOk result (λ t. t ≡ insert_entry K.cmp self.now key (arc_value value)) }
    {
        let pieces = match &self.root {
            Some(pieces) => pieces.with(key, value)?,
            None => Pieces::one(self.alloc, key, value)?,
        };
        Ok(Tree {
            root: Some(Arc::new(self.alloc, pieces)?),
            alloc: self.alloc,
        })
    }

    /// The tree without the key and its value: an equal tree where the key isn't there.
    pub fn without(&self, key: &K) -> Result<Self, AllocError>
        ensures { IfOk result (λ t. t ≡ remove_entry (is_at (K.cmp key.now)) self.now) }
    {
        let Some(pieces) = &self.root else {
            return self.share();
        };
        if pieces.get(key).is_none() {
            return self.share();
        }
        let root = match pieces.without(key)? {
            Some(pieces) => Some(Arc::new(self.alloc, pieces)?),
            None => None,
        };
        Ok(Tree {
            root,
            alloc: self.alloc,
        })
    }

    /// Puts the value under the key, in place of the value that was there. What no other tree shares is changed in place.
    pub fn put(&mut self, key: K, value: Arc<V>) -> Result<(), AllocError>
        ensures ok { OnOk result (self.new ≡ insert_entry K.cmp self.old key (arc_value value)) }
        ensures err { OnErr result (self.new ≡ self.old) }
    {
        if let Some(root) = &mut self.root {
            if let Some(pieces) = Arc::get_mut(root) {
                return pieces.put(key, value);
            }
        }
        let new = self.with(key, value)?;
        *self = new;
        Ok(())
    }

    /// Takes the key and its value out, where they are there. What no other tree shares is changed in place.
    pub fn remove(&mut self, key: &K) -> Result<(), AllocError>
        ensures ok { OnOk result (self.new ≡ remove_entry (is_at (K.cmp key.now)) self.old) }
        ensures err { OnErr result (self.new ≡ self.old) }
    {
        if let Some(root) = &mut self.root {
            if let Some(pieces) = Arc::get_mut(root) {
                if pieces.take_out(key).is_ok() {
                    return Ok(());
                }
            }
        }
        let new = self.without(key)?;
        *self = new;
        Ok(())
    }
}
