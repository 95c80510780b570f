//! What is counted of packets by what they have in common.
ghost use Rattle.std.specs.Prelude.{◌≡◌, ◌<◌, ◌++◌, ◌∷◌, [], List, Option, Some, true, OnOk, ◌↔◌, IsTrue, IfSome, None, length};
ghost use Rattle.std.specs.Prelude.{option_map, slice_get};
ghost use Rattle.std.specs.Map.{lookup};
ghost use Rattle.std.specs.Map.Iter.{deref_pair};

use crate::summary::count::Count;
use crate::summary::tally::Tally;
use indexmap::IndexMap;
use std::alloc::{AllocError, Global};
use std::hash::{BuildHasher, Hash};
use std::marker::Model;

/// A tally for each key that some packet has.
#[derive(Drop)]
pub struct Table<K: Eq + Hash, S: BuildHasher, V = Tally> {
    tallies: IndexMap<K, V, S>,
}

impl<K: Eq + Hash, S: BuildHasher, V> Model for Table<K, S, V> {
    ghost use Rattle.indexmap.specs.IndexMap.{spare};
    ghost use Rattle.packets.specs.Table.{Tallies};

    ghost Value = { Tallies K V };

    ghost view = { λ table. record {
      entries = table.tallies.entries;
      spare = spare table.tallies;
    } };
}

impl<K: Eq + Hash + Drop, S: BuildHasher, V: Drop> Table<K, S, V> {
    ghost use Rattle.packets.specs.Table.{CountsBy, SkipsOthers};

    /// No key. It takes no memory.
    pub(crate) fn with_hasher(alloc: Global, state: S) -> Self
        ensures { result.entries ≡ [] }
    {
        Table {
            tallies: IndexMap::with_hasher(alloc, state),
        }
    }

    /// Reserves the capacity for one key more.
    pub(crate) fn reserve(&mut self) -> Result<(), AllocError>
        ensures capacity { OnOk result (0 < self.new.spare) }
        ensures same { self.new.entries ≡ self.old.entries }
    {
        self.tallies.reserve(1)
    }

    /// Counts a packet that has this key, or none, and returns the index of the key, or `expected`
    /// where there is none. The key that has the index `expected` is tried before this one is hashed.
    pub(crate) fn add_keyed<P>(&mut self, key: Option<K>, expected: usize, packet: &P) -> usize
    where
        V: Count<P>,
        requires capacity { 0 < self.old.spare }
        // Keys are equal only where they are the same value.
        requires exact { (a b : K) → K.eq a b ≡ true → a ≡ b }
        // A packet of another kind changes nothing.
        requires others { SkipsOthers V.of }
        ensures { (key_of : P → Option K) (packets : List P)
            → key_of packet.now ≡ key → CountsBy V.of K.eq key_of self.old packets
            → CountsBy V.of K.eq key_of self.new (packets ++ packet.now ∷ []) }
    {
        match key {
            Some(key) => self.add(key, expected, packet),
            None => expected,
        }
    }

    fn add<P>(&mut self, key: K, expected: usize, packet: &P) -> usize
    where
        V: Count<P>,
        requires capacity { 0 < self.old.spare }
        // Keys are equal only where they are the same value.
        requires exact { (a b : K) → K.eq a b ≡ true → a ≡ b }
        // A packet of another kind changes nothing.
        requires others { SkipsOthers V.of }
        ensures { (key_of : P → Option K) (packets : List P)
            → key_of packet.now ≡ Some key → CountsBy V.of K.eq key_of self.old packets
            → CountsBy V.of K.eq key_of self.new (packets ++ packet.now ∷ []) }
    {
        match self.index_of(&key, expected) {
            Some(index) => {
                let (_, tally) = self.tallies.pair_mut(index);
                tally.count(packet);
                index
            }
            None => {
                let index = self.tallies.len();
                let mut tally = V::nothing();
                tally.count(packet);
                // The capacity is reserved.
                self.tallies.insert(key, tally).unwrap();
                index
            }
        }
    }

    fn index_of(&self, key: &K, expected: usize) -> Option<usize>
        requires exact { (a b : K) → K.eq a b ≡ true → a ≡ b }
        ensures found { IfSome result (λ i. (tally : V)
            × (slice_get self.now.entries i ≡ Some (key.now, tally))) }
        ensures absent { result ≡ None → lookup (K.eq key.now) self.now.entries ≡ None }
    {
        match self.tallies.get_index(expected) {
            Some((known, _)) if known == key => Some(expected),
            _ => match self.tallies.get_full(key) {
                Some((index, _, _)) => Some(index),
                None => None,
            },
        }
    }

    /// How many keys there are.
    pub fn len(&self) -> usize
        ensures { result ≡ length self.now.entries }
    {
        self.tallies.len()
    }

    /// Whether there is no key.
    pub fn is_empty(&self) -> bool
        ensures { IsTrue result ↔ (length self.now.entries ≡ 0) }
    {
        self.tallies.is_empty()
    }

    /// The key with this index, in the order in which they came first, and what is counted of it.
    pub fn get(&self, index: usize) -> Option<(&K, &V)>
        ensures { option_map deref_pair result ≡ slice_get self.now.entries index }
    {
        self.tallies.get_index(index)
    }
}

impl<K: Eq + Hash + Drop, S: BuildHasher> Table<K, S> {
    ghost use Rattle.packets.specs.Table.{tally_at};

    /// The tally of a key.
    pub(crate) fn tally_at(&self, key: &K) -> Tally
        ensures { result ≡ tally_at K.eq self.now key.now }
    {
        match self.tallies.get(key) {
            Some(tally) => *tally,
            None => Tally::NONE,
        }
    }
}
