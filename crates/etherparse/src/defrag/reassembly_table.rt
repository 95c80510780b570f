//! The table of reassemblies.

ghost use Rattle.std.specs.Prelude.{◌≡◌, ◌+◌, ◌≤◌, [], List, OnOk, OnErr, IfOk, IfErr, IfSome, IsOk, ◌++◌, ◌∷◌, length};
ghost use Rattle.std.specs.Prelude.{IfNone, option_map, vec_capacity};
ghost use Rattle.std.specs.Fn.{FnReturnsAt};
ghost use Rattle.std.specs.List.{IsDistinct};
ghost use Rattle.std.specs.Map.{keys_of};
ghost use Rattle.etherparse.specs.Counts.{Counts, HasMemoryFor, HasSlot, KeepsMemoryOf, open_in};
ghost use Rattle.etherparse.specs.Fragments.{Fragment};
ghost use Rattle.etherparse.specs.Memory.{freed};
ghost use Rattle.etherparse.specs.Outcome.{outcome};
ghost use Rattle.etherparse.specs.Repeats.{TakesRepeat};
ghost use Rattle.etherparse.specs.ReassemblyTable.{Becomes, IsErrorOf, MayTest, OthersStay, Retained, ShowsReassembly};
ghost use Rattle.etherparse.specs.ReassemblyTable.{Stays, fragment_of, reassembly_at};
ghost use Rattle.etherparse.specs.StartedBytes.{bytes_of};
ghost use Rattle.etherparse.specs.Starts.{ForgetsOldest, StartsAfter, bytes_in, names_there};
ghost use Rattle.etherparse.specs.Timestamps.{timestamp_at};
ghost use Rattle.etherparse.specs.declared.defrag.overlap_rule.OverlapRule.{OverlapRule};

use super::reassembly::{Reassembly, add_fragment};
use super::retain_reassemblies::retain_reassemblies;
use super::spare_buffers::SpareBuffers;
use super::start_order::StartOrder;
use crate::defrag::{IpDefragError, OverlapRule};
use ep_packet::SlicedFragment;
use indexmap::IndexMap;
use std::alloc::Global;
use std::hash::{BuildHasher, Hash};
use std::marker::Model;

/// The reassemblies of datagrams, each under its name.
#[derive(Debug, Drop)]
pub struct ReassemblyTable<K: Eq + Hash, T, S: BuildHasher> {
    alloc: Global,
    active: IndexMap<K, Reassembly<T>, S>,
    // There are slots for the buffers of all reassemblies, so that none is lost.
    spare: SpareBuffers,
    starts: StartOrder,
    // Those of all reassemblies.
    held_bytes: usize,
}

impl<K: Eq + Hash, T, S: BuildHasher> Model for ReassemblyTable<K, T, S> {
    ghost use Rattle.std.specs.Prelude.{vec_len};
    ghost use Rattle.indexmap.specs.IndexMap.{spare as names_room};
    ghost use Rattle.etherparse.specs.Memory.{memory_of};
    ghost use Rattle.etherparse.specs.ReassemblyTable.{Pool};
    ghost use Rattle.etherparse.specs.Starts.{IsTracked, names_in, room_for};
    ghost use Rattle.std.specs.Map.{keys_of};

    ghost Value = { Pool K T };

    ghost view = { λ held. record {
      reassemblies = held.active.entries;
      starts = names_in (keys_of held.active.entries) held.starts.order;
      spare = vec_len held.spare.bytes;
      spare_sections = vec_len held.spare.sections;
      memory = memory_of held.spare (room_for (names_room held.active) held.starts.room);
    } };

    ghost invariant = { λ held.
        IsTracked held.spare held.starts.order held.held_bytes held.active.entries };
}

impl<K: Eq + Hash + Drop, T: Drop, S: BuildHasher> ReassemblyTable<K, T, S> {
    /// No reassemblies. It takes no memory.
    pub fn with_hasher(alloc: Global, state: S) -> Self
        ensures reassemblies { result.reassemblies ≡ [] }
        ensures starts { result.starts ≡ [] }
        ensures spare { result.spare ≡ 0 }
        ensures sections { result.spare_sections ≡ 0 }
        ensures no_bytes { result.memory.bytes ≡ [] }
        ensures no_sections { result.memory.sections ≡ [] }
    {
        ReassemblyTable {
            alloc,
            active: IndexMap::with_hasher(alloc, state),
            spare: SpareBuffers::new(alloc),
            starts: StartOrder::new(alloc),
            held_bytes: 0,
        }
    }

    /// How many reassemblies there are.
    pub fn len(&self) -> usize
        ensures len { result ≡ open_in self.now }
        ensures names { IsDistinct K.eq (keys_of self.now.reassemblies) }
        ensures starts { result ≡ length self.now.starts }
    {
        self.active.len()
    }

    /// How many bytes the reassemblies hold in their buffers, each up to the greatest end of its
    /// fragments.
    pub fn open_bytes(&self) -> usize
        ensures all { result ≡ bytes_in self.now.reassemblies }
        ensures starts { result ≡ bytes_of K.eq self.now self.now.starts }
    {
        // No effect at run time. The proof reads here that no name is there twice.
        let _ = self.active.len();
        self.held_bytes
    }

    /// The timestamp of the datagram with this name, that of the fragment accepted last.
    pub fn timestamp_of(&self, name: &K) -> Option<&T>
        ensures { option_map (λ timestamp. timestamp.now) result
            ≡ timestamp_at K.eq self.now name.now }
    {
        match self.active.get(name) {
            Some(reassembly) => Some(&reassembly.timestamp),
            None => None,
        }
    }

    /// How many buffers of bytes are spare.
    pub fn spare_len(&self) -> usize
        ensures { result ≡ self.now.spare }
    {
        self.spare.bytes.len()
    }

    /// Frees the spare buffers. Their slots stay.
    pub fn free_spare(&mut self)
        ensures reassemblies { self.new.reassemblies ≡ self.old.reassemblies }
        ensures starts { self.new.starts ≡ self.old.starts }
        ensures spare { self.new.spare ≡ 0 }
        ensures sections { self.new.spare_sections ≡ 0 }
        ensures memory { self.new.memory ≡ freed self.old.memory }
    {
        self.spare.free();
    }

    /// Takes the memory of a datagram, or returns it where there is no slot for it and no memory
    /// for one.
    pub fn give(&mut self, bytes: Vec<u8>) -> Result<(), Vec<u8>>
        ensures reassemblies { self.new.reassemblies ≡ self.old.reassemblies }
        ensures starts { self.new.starts ≡ self.old.starts }
        ensures ok { OnOk result (self.new.spare ≡ self.old.spare + 1) }
        ensures err { IfErr result (λ given. given ≡ bytes) }
        ensures kept { OnErr result (self.new ≡ self.old) }
        ensures sections { self.new.spare_sections ≡ self.old.spare_sections }
        // Where there is a slot, it is taken with its memory.
        ensures succeeds { HasSlot self.old → IsOk result }
        ensures memory { OnOk result (self.new.memory ≡ record self.old.memory {
          bytes = self.old.memory.bytes ++ vec_capacity bytes ∷ [];
          bytes_slots = self.new.memory.bytes_slots;
        }) }
    {
        if !self.spare.make_bytes_slots(self.active.len()) {
            return Err(bytes);
        }
        self.spare.bytes.push_reserved(bytes);
        Ok(())
    }

    /// Takes a fragment of the datagram with this name. Its fragments overlap by the rule that the
    /// first of them came with. One that completes it returns its bytes, and ends the reassembly.
    /// So does one that overlaps where that is refused, and returns no bytes.
    ///
    /// It is refused as by [`IpDefragBuf::add`](crate::defrag::IpDefragBuf::add): then the reassembly has
    /// the fragments and the timestamp that it had. A fragment that starts a reassembly takes memory for its
    /// name and for the slots of spare buffers, too.
    pub fn add(
        &mut self,
        name: K,
        rule: OverlapRule,
        received: &SlicedFragment<'_>,
        timestamp: T,
    ) -> Result<Option<Vec<u8>>, IpDefragError>
        ensures accepted { (kept : OverlapRule) (fs : List Fragment)
            → ShowsReassembly kept (reassembly_at K.eq self.old name) fs → (fs ≡ [] → kept ≡ rule) →
            IfOk result (λ reported. Becomes kept (λ text. text)
            (outcome kept fs (fragment_of received.now)) timestamp
            (reassembly_at K.eq self.new name) (option_map (λ bytes. bytes.items) reported)) }
        ensures refused { (kept : OverlapRule) (fs : List Fragment)
            → ShowsReassembly kept (reassembly_at K.eq self.old name) fs → (fs ≡ [] → kept ≡ rule) →
            IfErr result (IsErrorOf (fragment_of received.now)
            (outcome kept fs (fragment_of received.now))) }
        // A fragment that is there already takes no memory.
        ensures repeat { TakesRepeat (reassembly_at K.eq self.old name) (reassembly_at K.eq self.new name)
            (fragment_of received.now) result }
        ensures others { OthersStay K.eq name self.old self.new }
        ensures err { IfErr result (Stays K.eq name self.old self.new) }
        ensures short { IfOk result (λ text. IfSome text (λ bytes. length bytes.items ≤ 65535)) }
        ensures counts { Counts K.eq self.old self.new name result }
        ensures starts { StartsAfter K.eq self.old self.new name result }
        // Out of memory is answered only where there was no capacity.
        ensures succeeds { HasMemoryFor K.eq self.old name (fragment_of received.now) result }
        ensures memory { KeepsMemoryOf K.eq self.old self.new name result }
    {
        add_fragment(
            self.alloc,
            &mut self.active,
            &mut self.spare,
            &mut self.starts,
            &mut self.held_bytes,
            name,
            rule,
            received,
            timestamp,
        )
    }

    /// Keeps exactly the reassemblies for whose timestamp the test returns `true`. It is called
    /// once for each. The buffers of the others are spare then; that takes no memory.
    pub fn retain<F: Fn(&T) -> bool>(&mut self, keep: &F)
        requires { (q : K) → MayTest (F.pre keep.now) (reassembly_at K.eq self.old q) }
        ensures retained { (q : K) → Retained (FnReturnsAt F.Fn keep.now)
            (reassembly_at K.eq self.old q) (reassembly_at K.eq self.new q) }
        ensures counts { open_in self.new + self.new.spare ≡ open_in self.old + self.old.spare }
        ensures sections { open_in self.new + self.new.spare_sections
            ≡ open_in self.old + self.old.spare_sections }
        ensures fewer { open_in self.new ≤ open_in self.old }
        // The order of the others stays.
        ensures starts { self.new.starts ≡ names_there K.eq self.new self.old.starts }
    {
        retain_reassemblies(
            &mut self.active,
            &mut self.spare,
            &mut self.starts,
            &mut self.held_bytes,
            keep,
        );
    }

    /// Drops the reassembly that started first, and returns its name and its timestamp. Its buffers
    /// are spare then; that takes no memory. There is none where there is no reassembly.
    pub fn forget_oldest(&mut self) -> Option<(K, T)>
        ensures none { IfNone result ((self.old.starts ≡ []) × (self.new ≡ self.old)) }
        ensures some { IfSome result (λ r. ForgetsOldest K.eq self.old self.new r.0 r.1) }
    {
        let slot = self.starts.oldest()?;
        // No effect at run time. The proof reads here that no name is there twice.
        let _ = self.active.len();
        let (name, ended) = self.active.swap_remove_index(slot).unwrap();
        let Reassembly { buf, timestamp } = ended;
        self.starts.swap_remove(slot);
        self.held_bytes -= buf.data_len();
        self.spare.give(buf);
        Some((name, timestamp))
    }
}
