//! The pieces of a tree that has pairs.
ghost use Rattle.std.specs.Prelude.{◌≡◌, ◌+◌, ◌<◌, ◌≤◌, [], ◌∷◌, ◌++◌, length, IfOk, OnOk, OnErr, IfSome, IsSome, Some};
ghost use Rattle.std.specs.Prelude.{unwrap_or, slice_get, take, drop, if◌then◌else◌};
ghost use Rattle.std.specs.Option.{option_map};
ghost use Rattle.std.specs.Arc.{arc_value};
ghost use Rattle.std.specs.List.Sorted.{IsStrictlySortedBy};
ghost use Rattle.std.specs.Map.{keys_of, lookup, remove_entry};
ghost use Rattle.std.specs.BTreeMap.{is_at, insert_entry};
ghost use Rattle.cell_tree.specs.Pairs.{all_pairs};
ghost use Rattle.cell_tree.specs.Places.{IsBelow, IsAbove};

use crate::piece::{MOST, Piece};
use crate::shares::{add_piece, share_pieces};
use std::alloc::{AllocError, Global};
use std::marker::Model;
use std::sync::Arc;

/// Pieces in the order of their keys, and how many pairs they have. Contracts see the list of all pairs.
#[derive(Drop)]
pub(crate) struct Pieces<K: Ord, V> {
    list: Vec<Arc<Piece<K, V>>>,
    len: usize,
}

impl<K: Ord, V> Model for Pieces<K, V> {
    ghost use Rattle.std.specs.Prelude.{List, ◌≡◌, ◌<◌, length};
    ghost use Rattle.std.specs.List.Sorted.{IsStrictlySortedBy};
    ghost use Rattle.std.specs.Map.{keys_of};
    ghost use Rattle.cell_tree.specs.Pairs.{all_pairs};

    ghost Value = { List (K × V) };

    ghost view = { λ p. all_pairs p.list.items };

    ghost invariant = { λ p. (0 < length p.list.items)
        × (p.len ≡ length (all_pairs p.list.items))
        × IsStrictlySortedBy K.cmp (keys_of (all_pairs p.list.items)) };
}

impl<K: Ord + Copy, V> Pieces<K, V> {
    pub(crate) fn len(&self) -> usize
        ensures len { result ≡ length self.now }
        ensures sorted { IsStrictlySortedBy K.cmp (keys_of self.now) }
    {
        self.len
    }

    pub(crate) fn list(&self) -> &[Arc<Piece<K, V>>]
        ensures pairs { all_pairs result.now ≡ self.now }
        ensures sorted { IsStrictlySortedBy K.cmp (keys_of self.now) }
    {
        &self.list
    }

    pub(crate) fn get(&self, key: &K) -> Option<&Arc<V>>
        ensures { option_map (λ v. arc_value v.now) result
            ≡ lookup (is_at (K.cmp key.now)) self.now }
    {
        let place = piece_for(&self.list, key);
        self.list[place].get(key)
    }

    pub(crate) fn at(&self, place: usize) -> Option<(K, &Arc<V>)>
        ensures { option_map (λ e. (e.0, arc_value e.1.now)) result ≡ slice_get self.now place }
    {
        let mut rest = place;
        for piece in &self.list {
            let pairs = piece.pairs();
            if rest < pairs.len() {
                let pair = &pairs[rest];
                return Some((pair.0, &pair.1));
            }
            rest -= pairs.len();
        }
        None
    }
}

impl<K: Ord + Copy, V: Drop> Pieces<K, V> {
    pub(crate) fn one(alloc: Global, key: K, value: Arc<V>) -> Result<Self, AllocError>
        ensures { IfOk result (λ p. p ≡ (key, arc_value value) ∷ []) }
    {
        let mut list = Vec::new(alloc);
        let piece = Piece::one(alloc, key, value)?;
        list.push(Arc::new(alloc, piece)?)?;
        Ok(Pieces { list, len: 1 })
    }

    /// An error where there are too many pairs to count, too.
    pub(crate) fn with(&self, key: K, value: Arc<V>) -> Result<Self, AllocError>
        ensures { IfOk result (λ p. p ≡ insert_entry K.cmp self.now key (arc_value value)) }
    {
        let place = piece_for(&self.list, &key);
        let old = &self.list[place];
        let (lower, upper) = old.with(key, value)?;
        let len = recounted(self.len, old, &lower, &upper).ok_or(AllocError)?;
        let list = replaced(&self.list, place, Some(lower), upper)?;
        Ok(Pieces { list, len })
    }

    /// Puts the value under the key. The key's piece is changed in place where no other tree shares it and it has room.
    pub(crate) fn put(&mut self, key: K, value: Arc<V>) -> Result<(), AllocError>
        ensures ok { OnOk result (self.new ≡ insert_entry K.cmp self.old key (arc_value value)) }
        ensures err { OnErr result (self.new ≡ self.old) }
    {
        let more = self.len.checked_add(1).ok_or(AllocError)?;
        let place = piece_for(&self.list, &key);
        match put_within(&mut self.list, place, key, &value) {
            Ok(new) => {
                if new {
                    self.len = more;
                }
                Ok(())
            }
            Err(_) => {
                let new = self.with(key, value)?;
                *self = new;
                Ok(())
            }
        }
    }

    /// Nothing where no pair is left.
    pub(crate) fn without(&self, key: &K) -> Result<Option<Self>, AllocError>
        requires { IsSome (lookup (is_at (K.cmp key.now)) self.now) }
        ensures { IfOk result (λ p. unwrap_or p []
            ≡ remove_entry (is_at (K.cmp key.now)) self.now) }
    {
        let mut list = self.list_without(key)?;
        if list.is_empty() {
            return Ok(None);
        }
        join_near(&mut list, piece_for(&self.list, key))?;
        Ok(Some(Pieces {
            list,
            len: self.len - 1,
        }))
    }

    /// Takes the key and its value out in place, where they are there: an error where another tree shares their piece, or it has no
    /// other pair.
    pub(crate) fn take_out(&mut self, key: &K) -> Result<(), AllocError>
        ensures ok { OnOk result (self.new ≡ remove_entry (is_at (K.cmp key.now)) self.old) }
        ensures err { OnErr result (self.new ≡ self.old) }
    {
        if self.get(key).is_none() {
            return Ok(());
        }
        let place = piece_for(&self.list, key);
        take_within(&mut self.list, place, key)?;
        self.len -= 1;
        // Where there is no memory for a joined piece, both stay.
        let _ = join_near(&mut self.list, place);
        Ok(())
    }

    fn list_without(&self, key: &K) -> Result<Vec<Arc<Piece<K, V>>>, AllocError>
        ensures pairs { IfOk result (λ v. all_pairs v.items
            ≡ remove_entry (is_at (K.cmp key.now)) self.now) }
        ensures sorted { IfOk result (λ v. IsStrictlySortedBy K.cmp (keys_of (all_pairs v.items))) }
    {
        let place = piece_for(&self.list, key);
        let left = self.list[place].without(key)?;
        replaced(&self.list, place, left, None)
    }
}

// The place of the last piece whose first key is not above the key, or of the first piece.
fn piece_for<K: Ord + Copy, V>(pieces: &[Arc<Piece<K, V>>], key: &K) -> usize
    requires some { 0 < length pieces.now }
    requires sorted { IsStrictlySortedBy K.cmp (keys_of (all_pairs pieces.now)) }
    ensures in_range { result < length pieces.now }
    ensures below { IsBelow K.cmp key.now (all_pairs (take result pieces.now)) }
    ensures above { IsAbove K.cmp key.now (all_pairs (drop (result + 1) pieces.now)) }
{
    let mut low = 1;
    let mut high = pieces.len();
    while low < high {
        let middle = low + (high - low) / 2;
        if key.cmp(pieces[middle].first_key()).is_lt() {
            high = middle;
        } else {
            low = middle + 1;
        }
    }
    low - 1
}

// How many pairs there are with new pieces in place of an old one: nothing where they are too many to count.
fn recounted<K: Ord + Copy, V>(
    len: usize,
    old: &Piece<K, V>,
    lower: &Piece<K, V>,
    upper: &Option<Piece<K, V>>,
) -> Option<usize>
    requires { length old.now ≤ len }
    ensures { IfSome result (λ n. n + length old.now
        ≡ len + length (lower.now ++ unwrap_or upper.now [])) }
{
    let upper = match upper {
        Some(piece) => piece.pairs().len(),
        None => 0,
    };
    (len - old.pairs().len())
        .checked_add(lower.pairs().len())?
        .checked_add(upper)
}

// Shares of the pieces, with new pieces, if there are any, in place of the one at a place.
fn replaced<K: Ord + Copy, V: Drop>(
    pieces: &Vec<Arc<Piece<K, V>>>,
    place: usize,
    lower: Option<Piece<K, V>>,
    upper: Option<Piece<K, V>>,
) -> Result<Vec<Arc<Piece<K, V>>>, AllocError>
    requires { place < length pieces.now.items }
    ensures { IfOk result (λ v. all_pairs v.items
        ≡ all_pairs (take place pieces.now.items)
        ++ (unwrap_or lower [] ++ unwrap_or upper [])
        ++ all_pairs (drop (place + 1) pieces.now.items)) }
{
    let mut list = Vec::with_capacity(*pieces.allocator(), pieces.len() + 1)?;
    share_pieces(&mut list, &pieces[..place])?;
    add_piece(&mut list, lower)?;
    add_piece(&mut list, upper)?;
    share_pieces(&mut list, &pieces[place + 1..])?;
    Ok(list)
}

// Puts the value under the key in the piece at a place, which is for the key, and tells whether the key is new. An error where another
// tree shares the piece, or it has no room.
fn put_within<K: Ord + Copy, V: Drop>(
    pieces: &mut Vec<Arc<Piece<K, V>>>,
    place: usize,
    key: K,
    value: &Arc<V>,
) -> Result<bool, AllocError>
    requires in_range { place < length pieces.old.items }
    requires below { IsBelow K.cmp key (all_pairs (take place pieces.old.items)) }
    requires above { IsAbove K.cmp key (all_pairs (drop (place + 1) pieces.old.items)) }
    ensures ok { OnOk result (all_pairs pieces.new.items
        ≡ insert_entry K.cmp (all_pairs pieces.old.items) key (arc_value value.now)) }
    ensures err { OnErr result (all_pairs pieces.new.items ≡ all_pairs pieces.old.items) }
    ensures count { IfOk result (λ new. length (all_pairs pieces.new.items)
        ≡ length (all_pairs pieces.old.items) + (if new then 1 else 0)) }
    ensures len { length pieces.new.items ≡ length pieces.old.items }
{
    match Arc::get_mut(&mut pieces[place]) {
        Some(piece) => piece.put(key, value),
        None => Err(AllocError),
    }
}

// Takes the key and its value out of the piece at a place, which is for the key. An error where another tree shares the piece, or it has
// no other pair.
fn take_within<K: Ord + Copy, V: Drop>(
    pieces: &mut Vec<Arc<Piece<K, V>>>,
    place: usize,
    key: &K,
) -> Result<(), AllocError>
    requires in_range { place < length pieces.old.items }
    requires below { IsBelow K.cmp key.now (all_pairs (take place pieces.old.items)) }
    requires above { IsAbove K.cmp key.now (all_pairs (drop (place + 1) pieces.old.items)) }
    ensures ok { OnOk result (all_pairs pieces.new.items
        ≡ remove_entry (is_at (K.cmp key.now)) (all_pairs pieces.old.items)) }
    ensures err { OnErr result (all_pairs pieces.new.items ≡ all_pairs pieces.old.items) }
    ensures len { length pieces.new.items ≡ length pieces.old.items }
{
    match Arc::get_mut(&mut pieces[place]) {
        Some(piece) => piece.take_out(key),
        None => Err(AllocError),
    }
}

// Joins small pieces about a place, at which pairs were taken away.
fn join_near<K: Ord + Copy, V: Drop>(
    pieces: &mut Vec<Arc<Piece<K, V>>>,
    place: usize,
) -> Result<(), AllocError>
    requires sorted { IsStrictlySortedBy K.cmp (keys_of (all_pairs pieces.old.items)) }
    ensures pairs { all_pairs pieces.new.items ≡ all_pairs pieces.old.items }
    ensures some { 0 < length pieces.old.items → 0 < length pieces.new.items }
{
    join_next(pieces, place)?;
    if place > 0 {
        join_next(pieces, place - 1)?;
    }
    Ok(())
}

// Joins the piece at a place with the next one, if there is one, where both together are at most half full. So neither a few pairs
// more nor a few less part them again, and any two neighbours that were joined when they could be have more than half a piece's pairs.
fn join_next<K: Ord + Copy, V: Drop>(
    pieces: &mut Vec<Arc<Piece<K, V>>>,
    place: usize,
) -> Result<(), AllocError>
    requires sorted { IsStrictlySortedBy K.cmp (keys_of (all_pairs pieces.old.items)) }
    ensures pairs { all_pairs pieces.new.items ≡ all_pairs pieces.old.items }
    ensures some { 0 < length pieces.old.items → 0 < length pieces.new.items }
{
    let Some(last) = pieces.len().checked_sub(1) else {
        return Ok(());
    };
    if place >= last {
        return Ok(());
    }
    let first = &pieces[place];
    let next = &pieces[place + 1];
    if first.pairs().len() + next.pairs().len() > MOST / 2 {
        return Ok(());
    }
    let joined = Arc::new(*pieces.allocator(), first.joined(next)?)?;
    pieces[place] = joined;
    pieces.remove(place + 1);
    Ok(())
}
