//! Connections by their keys.

ghost use Rattle.std.specs.Prelude.{◌≡◌, ◌-◌, ◌<◌, ◌≤◌, ◌↔◌, [], IfOk, IsOk, IsSome, IsTrue, MatchOption, OnErr, OnOk, length};
ghost use Rattle.std.specs.Prelude.{option_copied, option_map, reverse, slice_get, take};
ghost use Rattle.std.specs.List.{IsDistinct};
ghost use Rattle.std.specs.List.Retain.{IsFiltered};
ghost use Rattle.std.specs.NonZero.{non_zero_usize_get};
ghost use Rattle.std.specs.Map.{keys_of, remove_entry};
ghost use Rattle.std.specs.Map.Iter.{deref_pair};
ghost use Rattle.ep_base.specs.Traits.{CopyIsValue, CopyNeverFails};

use super::flow::{Flow, FlowPacket};
use super::flow_key::FlowKey;
use super::retain_flows::retain_flows;
use lru::LruCache;
use std::alloc::{AllocError, Global};
use std::hash::{BuildHasher, BuildHasherDefault, FoldHasher, Hash};
use std::marker::Model;
use std::mem;
use std::num::NonZeroUsize;

/// Connections by their keys, up to a number of them, with what is counted of each and a value of
/// the caller's.
///
/// Where one more begins than there may be, the one is dropped whose last packet came before those
/// of all others. So whoever opens many connections drops others: those that are silent first.
#[derive(Drop)]
pub struct Flows<T, K: Eq + Hash = FlowKey, S: BuildHasher = BuildHasherDefault<FoldHasher>> {
    flows: LruCache<K, Flow<T>, S>,
}

impl<T, K: Eq + Hash, S: BuildHasher> Model for Flows<T, K, S> {
    ghost use Rattle.tcp_streams.specs.Flows.{Table};

    ghost Value = { Table K T };

    ghost view = { λ table. record { flows = table.flows.entries; most = table.flows.cap } };
}

impl<T: Drop, K: Eq + Hash + Drop> Flows<T, K, BuildHasherDefault<FoldHasher>> {
    /// No connection, and at most so many, for input that is trusted: keys are hashed by a fixed
    /// seed, so that they can be chosen to collide. [`Flows::with_hasher`] takes another state.
    pub fn new(alloc: Global, most: NonZeroUsize) -> Result<Self, AllocError>
        ensures { IfOk result (λ table. table ≡ record { flows = []; most = non_zero_usize_get most }) }
    {
        Flows::with_hasher(alloc, most, BuildHasherDefault::new())
    }
}

impl<T: Drop, K: Eq + Hash + Drop, S: BuildHasher + Drop> Flows<T, K, S> {
    ghost use Rattle.tcp_streams.specs.Flows.{Table, TestedAt, dropped_flow, flow_at, table_with};
    ghost use Rattle.tcp_streams.specs.Flows.{table_with_value};

    /// No connection, and at most so many, whose keys are hashed by this state. Where untrusted
    /// senders choose the keys, a [`std::hash::RandomState`] keeps them from colliding by intent.
    pub fn with_hasher(alloc: Global, most: NonZeroUsize, state: S) -> Result<Self, AllocError>
        ensures { IfOk result (λ table. table ≡ record { flows = []; most = non_zero_usize_get most }) }
    {
        let mut flows = LruCache::unbounded_with_hasher(alloc, state)?;
        flows.resize(most);
        Ok(Flows { flows })
    }

    /// Counts a packet of the connection with this key. Where there is none yet, it begins with this
    /// value, and if there were as many as there may be, that whose last packet came first is
    /// dropped and returned.
    ///
    /// Where there is no memory for a new connection, nothing changes.
    pub fn add(
        &mut self,
        key: K,
        packet: FlowPacket,
        value: T,
    ) -> Result<Option<(K, Flow<T>)>, AllocError>
        // The flow of the key is the newest, and has one packet more.
        ensures table { OnOk result (self.new ≡ table_with K.eq self.old key packet value) }
        ensures dropped { IfOk result (λ dropped. dropped ≡ dropped_flow K.eq self.old key) }
        ensures err { OnErr result (self.new ≡ self.old) }
        // A packet of a connection that is there takes no memory.
        ensures succeeds { IsSome (flow_at K.eq self.old key) → IsOk result }
    {
        if let Some(flow) = self.flows.get_mut(&key) {
            flow.count(packet);
            return Ok(None);
        }
        let mut flow = Flow::new(value);
        flow.count(packet);
        match self.flows.push(key, flow) {
            Ok(dropped) => Ok(dropped),
            Err(_) => Err(AllocError),
        }
    }

    /// Counts a packet of the connection with this key, and returns its value. Where there is none,
    /// nothing changes.
    pub fn count(&mut self, key: &K, packet: FlowPacket) -> Option<T>
    where
        T: Copy,
        ensures value { result ≡ option_map (λ flow. flow.value) (flow_at K.eq self.old key.now) }
        ensures table { MatchOption result (self.new ≡ self.old)
            (λ value. self.new ≡ table_with K.eq self.old key.now packet value) }
    {
        if let Some(flow) = self.flows.get_mut(key) {
            flow.count(packet);
            return Some(flow.value);
        }
        None
    }

    /// The flow of a key.
    pub fn get(&self, key: &K) -> Option<&Flow<T>>
        ensures { option_copied result ≡ flow_at K.eq self.now key.now }
    {
        self.flows.peek(key)
    }

    /// Puts this value into the flow of a key, and returns the one that was there. Where there is no
    /// flow of the key, nothing changes, and the value is dropped. The order of flows stays.
    pub fn replace_value(&mut self, key: &K, value: T) -> Option<T>
        ensures value { result ≡ option_map (λ flow. flow.value) (flow_at K.eq self.old key.now) }
        ensures table { self.new ≡ table_with_value K.eq self.old key.now value }
    {
        match self.flows.peek_mut(key) {
            Some(flow) => Some(mem::replace(&mut flow.value, value)),
            None => None,
        }
    }

    /// The key and the flow whose last packet came before those of all others.
    pub fn oldest(&self) -> Option<(&K, &Flow<T>)>
        ensures { option_map deref_pair result
            ≡ slice_get self.now.flows (length self.now.flows - 1) }
    {
        self.flows.peek_lru()
    }

    /// Takes out the flow of a key.
    pub fn remove(&mut self, key: &K) -> Option<Flow<T>>
        ensures flow { result ≡ flow_at K.eq self.old key.now }
        ensures table { self.new ≡ record self.old {
          flows = remove_entry (K.eq key.now) self.old.flows;
        } }
    {
        self.flows.pop(key)
    }

    /// Takes out the flow whose last packet came before those of all others. There is none where
    /// there is no flow. So a caller bounds the memory of all values: while it is too much, this is
    /// called.
    pub fn pop_oldest(&mut self) -> Option<(K, Flow<T>)>
        ensures flow { result ≡ slice_get self.old.flows (length self.old.flows - 1) }
        ensures table { self.new ≡ record self.old {
          flows = take (length self.old.flows - 1) self.old.flows;
        } }
    {
        self.flows.pop_lru()
    }

    /// Keeps the flows for which the test returns `true`, and drops the others. The test is called
    /// once for each, first for that whose last packet came before those of all others. The order of
    /// flows stays. Each key is cloned once.
    pub fn retain<F: FnMut(&K, &Flow<T>) -> bool>(&mut self, keep: F)
    where
        K: Clone,
        requires callable { F.IsAlwaysCallable keep }
        // Law `keys_are_plain_data` says so of `FlowKey`.
        requires copies { CopyIsValue K.is_clone }
        requires never_fails { CopyNeverFails K.is_infallible }
        // A list of flows begins with the newest one.
        ensures flows { IsFiltered (TestedAt F.FnMut) keep (reverse self.old.flows) (reverse self.new.flows) }
        ensures most { self.new.most ≡ self.old.most }
    {
        retain_flows(&mut self.flows, keep);
    }

    /// How many flows there are.
    pub fn len(&self) -> usize
        ensures len { result ≡ length self.now.flows }
        ensures most { result ≤ self.now.most }
        ensures some { 0 < self.now.most }
        ensures keys { IsDistinct K.eq (keys_of self.now.flows) }
    {
        self.flows.len()
    }

    /// Whether there is none.
    pub fn is_empty(&self) -> bool
        ensures { IsTrue result ↔ (length self.now.flows ≡ 0) }
    {
        self.flows.is_empty()
    }
}
