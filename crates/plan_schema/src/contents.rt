//! The records of a scenario.
ghost use Rattle.std.specs.Prelude.{◌≡◌, ◌==◌, ◌<◌, ◌^◌, [], true, length, OnOk, OnErr, IfOk};
ghost use Rattle.std.specs.Option.{option_copied, option_map};
ghost use Rattle.std.specs.List.{slice_get};
ghost use Rattle.std.specs.Map.Iter.{deref_pair};
ghost use Rattle.std.specs.Map.{lookup};
ghost use Rattle.std.specs.BTreeMap.{insert_entry, is_at};
ghost use Rattle.plan_schema.specs.Base.{part_count};
ghost use Rattle.plan_schema.specs.Contents.{is_ordered, record_at, with_record, without_key};

use crate::key::{Key, Record};
use std::alloc::{AllocError, Global};
use std::collections::BTreeMap;
use std::collections::btree_map::Iter;
use std::marker::Model;

/// A map from keys to records, seen as its pairs in key order.
#[derive(Drop)]
pub struct Contents {
    records: BTreeMap<Key, Record>,
}

impl Model for Contents {
    ghost use Rattle.std.specs.Prelude.{List};
    ghost use Rattle.plan_schema.specs.declared.key.Key.{Key};
    ghost use Rattle.plan_schema.specs.declared.key.Record.{Record};

    ghost Value = { List (Key × Record) };

    ghost view = { λ c. c.records.entries };
}

impl Contents {
    /// No records.
    pub fn new(alloc: Global) -> Contents
        ensures { result ≡ [] }
    {
        Contents {
            records: BTreeMap::new(alloc),
        }
    }

    /// The record under a key.
    pub fn get(&self, key: &Key) -> Option<&Record>
        ensures { option_copied result ≡ record_at self.now key.now }
    {
        self.records.get(key)
    }

    /// Puts a record under a key, and answers the one that it takes the place of.
    pub fn put(&mut self, key: Key, value: Record) -> Result<Option<Record>, AllocError>
        ensures before { IfOk result (λ before. before ≡ record_at self.old key) }
        ensures ok { OnOk result (self.new ≡ with_record self.old key value) }
        ensures err { OnErr result (self.new ≡ self.old) }
    {
        put_in(&mut self.records, key, value)
    }

    /// Takes out the record under a key.
    pub fn remove(&mut self, key: &Key) -> Option<Record>
        ensures taken { result ≡ record_at self.old key.now }
        ensures after { self.new ≡ without_key self.old key.now }
    {
        self.records.remove(key)
    }

    /// How many records there are.
    pub fn len(&self) -> usize
        ensures count { result ≡ length self.now }
        ensures ordered { is_ordered self.now ≡ true }
    {
        self.records.len()
    }

    /// How many parts there are. Goes over all records.
    pub fn parts(&self) -> usize
        ensures { result ≡ part_count self.now }
    {
        let mut parts = 0;
        for (key, _) in self.records.iter() {
            if key.is_part() {
                parts += 1;
            }
        }
        parts
    }

    /// Whether there are no records.
    pub fn is_empty(&self) -> bool
        ensures { result ≡ (length self.now == 0) }
    {
        self.records.is_empty()
    }

    /// The record at a place in key order, from 0. Its cost grows with the place: go over all by `iter`.
    pub fn at(&self, place: usize) -> Option<(&Key, &Record)>
        ensures { option_map deref_pair result ≡ slice_get self.now place }
    {
        self.records.iter().nth(place)
    }

    /// The records in key order.
    pub fn iter(&self) -> Iter<'_, Key, Record>
        ensures rest { result ≡ self.now }
        ensures ordered { is_ordered self.now ≡ true }
        ensures fits { length self.now < 2 ^ 63 }
    {
        self.records.iter()
    }

    /// An equal map.
    pub fn copy(&self) -> Result<Contents, AllocError>
        ensures { IfOk result (λ copy. copy ≡ self.now) }
    {
        Ok(Contents {
            records: self.records.clone()?,
        })
    }
}

fn put_in<K: Ord + Copy, V: Copy>(
    map: &mut BTreeMap<K, V>,
    key: K,
    value: V,
) -> Result<Option<V>, AllocError>
    ensures before { IfOk result (λ before. before ≡ lookup (is_at (K.cmp key)) map.old.entries) }
    ensures ok { OnOk result (map.new.entries ≡ insert_entry K.cmp map.old.entries key value) }
    ensures err { OnErr result (map.new.entries ≡ map.old.entries) }
{
    Ok(map.insert(key, value)?)
}
