//! Reassembly of many datagrams at once.

ghost use Rattle.std.specs.Prelude.{◌≡◌, ◌+◌, ◌≤◌, [], None, Ok, OnOk, OnErr, IfOk, IfErr, IfSome, ◌++◌, ◌∷◌, IsOk};
ghost use Rattle.std.specs.Prelude.{IfNone, length, vec_capacity};
ghost use Rattle.std.specs.Fn.{FnReturnsAt};
ghost use Rattle.std.specs.List.{IsDistinct};
ghost use Rattle.std.specs.Map.{keys_of};
ghost use Rattle.ep_packet.specs.Class.{IdentificationFits, as_class, packet_parsed};
ghost use Rattle.ep_packet.specs.declared.class.Class.TheVariants as reported;
ghost use Rattle.etherparse.specs.Counts.{Bounded, Counts, HasMemoryFor, HasSlot, KeepsMemoryOf, open_in};
ghost use Rattle.etherparse.specs.Fragments.{Fragment};
ghost use Rattle.etherparse.specs.IpDefragPool.{Accepts, Refuses, same_id};
ghost use Rattle.etherparse.specs.IpFragId.{fragment_in, id_named};
ghost use Rattle.etherparse.specs.Memory.{freed};
ghost use Rattle.etherparse.specs.Repeats.{TakesRepeat};
ghost use Rattle.etherparse.specs.StartedBytes.{bytes_of};
ghost use Rattle.etherparse.specs.Starts.{ForgetsOldest, StartsAfter, bytes_in, names_there};
ghost use Rattle.etherparse.specs.ReassemblyTable.{MayTest, OthersStay, Retained, Stays, fragment_of};
ghost use Rattle.etherparse.specs.ReassemblyTable.{reassembly_at};

use super::fragment::named;
use super::{IpDefragError, IpDefragPayloadVec, IpFragId, ReassemblyTable};
use ep_packet::{Class, IpFragment, SlicedFragment, SlicedPacket};
use std::alloc::{AllocError, Global};
use std::hash::{BuildHasher, BuildHasherDefault, FoldHasher, Hash};
use std::marker::Model;

/// The reassemblies of datagrams, each under the name of its datagram, [`IpFragId`].
///
/// A datagram that never completes is held, with its bytes, until [`IpDefragPool::retain`] drops
/// it. So a caller whose input isn't trusted calls `retain` regularly: a receiver gives a datagram
/// up by a timer (RFC 791, section 3.2), over IPv6 60 seconds after the fragment that came first
/// (RFC 8200, section 4.5).
#[derive(Debug, Drop)]
pub struct IpDefragPool<
    Timestamp = (),
    CustomChannelId: Eq + Hash = (),
    S: BuildHasher = BuildHasherDefault<FoldHasher>,
> {
    pub(super) reassemblies: ReassemblyTable<IpFragId<CustomChannelId>, Timestamp, S>,
}

impl<Timestamp, CustomChannelId: Eq + Hash, S: BuildHasher> Model
    for IpDefragPool<Timestamp, CustomChannelId, S> {
    ghost use Rattle.etherparse.specs.declared.defrag.ip_frag_id.IpFragId.{IpFragId};
    ghost use Rattle.etherparse.specs.ReassemblyTable.{Pool};

    ghost Value = { Pool (IpFragId CustomChannelId) Timestamp };

    ghost view = { λ pool. pool.reassemblies };
}

impl<Timestamp: Drop, CustomChannelId: Eq + Hash + Drop> IpDefragPool<
    Timestamp,
    CustomChannelId,
    BuildHasherDefault<FoldHasher>,
> {
    /// A pool with no reassembly, for input that is trusted: names are hashed by a fixed seed, so
    /// that they can be chosen to collide. [`IpDefragPool::with_hasher`] takes another state. It
    /// takes no memory.
    pub fn new(alloc: Global) -> Self
        ensures reassemblies { result.reassemblies ≡ [] }
        ensures starts { result.starts ≡ [] }
        ensures spare { result.spare ≡ 0 }
        ensures sections { result.spare_sections ≡ 0 }
        ensures no_bytes { result.memory.bytes ≡ [] }
        ensures no_sections { result.memory.sections ≡ [] }
    {
        IpDefragPool::with_hasher(alloc, BuildHasherDefault::new())
    }
}

impl<Timestamp: Drop, CustomChannelId: Eq + Hash + Drop, S: BuildHasher> IpDefragPool<
    Timestamp,
    CustomChannelId,
    S,
> {
    ghost use Rattle.etherparse.specs.declared.defrag.ip_frag_id.IpFragId.{IpFragId};

    /// A pool with no reassembly, whose names are hashed by this state. It takes no memory. What
    /// calls answer doesn't depend on the state: no clause of theirs names it. Where untrusted
    /// senders choose the names, a [`std::hash::RandomState`] keeps them from colliding by intent.
    pub fn with_hasher(alloc: Global, state: S) -> Self
        ensures reassemblies { result.reassemblies ≡ [] }
        ensures starts { result.starts ≡ [] }
        ensures spare { result.spare ≡ 0 }
        ensures sections { result.spare_sections ≡ 0 }
        ensures no_bytes { result.memory.bytes ≡ [] }
        ensures no_sections { result.memory.sections ≡ [] }
    {
        IpDefragPool {
            reassemblies: ReassemblyTable::with_hasher(alloc, state),
        }
    }

    /// Takes a packet. If it is a fragment, it is added to those of its datagram that came before
    /// it, and one that completes the datagram returns it. Nothing is held of the datagram then.
    /// Any other packet changes nothing.
    ///
    /// A fragment is refused as by [`super::IpDefragBuf::add`], over IPv6 also where it overlaps
    /// (RFC 5722; RFC 8200, section 4.5). Then the datagram has the fragments and the timestamp
    /// that it had, **but after an overlap none**: the datagram is dropped with its buffers, and
    /// the fragment starts no other reassembly. So whoever sends one overlapping fragment ends a
    /// reassembly.
    pub fn process_sliced_packet(
        &mut self,
        packet: &SlicedPacket<'_>,
        timestamp: Timestamp,
        channel_id: CustomChannelId,
    ) -> Result<Option<IpDefragPayloadVec>, IpDefragError>
        // A packet that is no fragment changes nothing.
        ensures passed { fragment_in (packet_parsed packet.now) ≡ None
            → (result ≡ Ok None) × (self.new ≡ self.old) }
        // A fragment is added to the list of its name, and is refused by it or else put at its end.
        ensures accepted { IfSome (fragment_in (packet_parsed packet.now)) (λ reported.
            Accepts (same_id CustomChannelId.eq) self.old self.new (id_named reported.0 channel_id) reported.1 timestamp result) }
        ensures refused { IfSome (fragment_in (packet_parsed packet.now)) (λ reported.
            Refuses (same_id CustomChannelId.eq) self.old (id_named reported.0 channel_id) reported.1 result) }
        // A fragment that is there already takes no memory, where overlaps are refused.
        ensures repeat { IfSome (fragment_in (packet_parsed packet.now)) (λ reported.
            TakesRepeat (reassembly_at (same_id CustomChannelId.eq) self.old (id_named reported.0 channel_id))
            (reassembly_at (same_id CustomChannelId.eq) self.new (id_named reported.0 channel_id)) reported.1
            result) }
        // Every other name's list and timestamp stay. After a refusal this name's do, too, but an
        // overlap ends its reassembly.
        ensures others { IfSome (fragment_in (packet_parsed packet.now)) (λ reported.
            OthersStay (same_id CustomChannelId.eq) (id_named reported.0 channel_id) self.old self.new) }
        ensures err { IfSome (fragment_in (packet_parsed packet.now)) (λ reported.
            IfErr result (Stays (same_id CustomChannelId.eq) (id_named reported.0 channel_id)
            self.old self.new)) }
        ensures short { IfOk result
            (λ payload. IfSome payload (λ whole. length whole.payload.items ≤ 65535)) }
        // A reassembly that starts takes a spare buffer.
        ensures counts { IfSome (fragment_in (packet_parsed packet.now)) (λ reported.
            Counts (same_id CustomChannelId.eq) self.old self.new (id_named reported.0 channel_id) result) }
        // A reassembly that starts is the newest; one that ends leaves the order.
        ensures starts { IfSome (fragment_in (packet_parsed packet.now)) (λ reported.
            StartsAfter (same_id CustomChannelId.eq) self.old self.new (id_named reported.0 channel_id)
            result) }
        ensures bound { Bounded self.old self.new }
        // Out of memory is answered only where there was no capacity.
        ensures succeeds { IfSome (fragment_in (packet_parsed packet.now)) (λ reported.
            HasMemoryFor (same_id CustomChannelId.eq) self.old (id_named reported.0 channel_id) reported.1
            result) }
        ensures memory { IfSome (fragment_in (packet_parsed packet.now)) (λ reported.
            KeepsMemoryOf (same_id CustomChannelId.eq) self.old self.new
            (id_named reported.0 channel_id) result) }
    {
        // Packets that are no fragments aren't looked into.
        if !packet.is_ip_payload_fragmented() {
            return Ok(None);
        }
        match packet.class() {
            Class::Cut(message) => self.process_fragment(message, timestamp, channel_id),
            _ => Ok(None),
        }
    }

    /// Takes a fragment, as [`IpDefragPool::process_sliced_packet`] takes that of its packet: for a
    /// caller who has the packet's class ([`SlicedPacket::class`]).
    pub fn process_fragment(
        &mut self,
        message: IpFragment<'_>,
        timestamp: Timestamp,
        channel_id: CustomChannelId,
    ) -> Result<Option<IpDefragPayloadVec>, IpDefragError>
        // Over IPv4 an identification has 16 bits.
        requires { IdentificationFits message.addresses message.identification }
        ensures accepted { IfSome (fragment_in (as_class (reported.Cut message.entry))) (λ named.
            Accepts (same_id CustomChannelId.eq) self.old self.new (id_named named.0 channel_id)
            named.1 timestamp result) }
        ensures refused { IfSome (fragment_in (as_class (reported.Cut message.entry))) (λ named.
            Refuses (same_id CustomChannelId.eq) self.old (id_named named.0 channel_id) named.1
            result) }
        ensures repeat { IfSome (fragment_in (as_class (reported.Cut message.entry))) (λ named.
            TakesRepeat (reassembly_at (same_id CustomChannelId.eq) self.old (id_named named.0 channel_id))
            (reassembly_at (same_id CustomChannelId.eq) self.new (id_named named.0 channel_id)) named.1
            result) }
        ensures others { IfSome (fragment_in (as_class (reported.Cut message.entry))) (λ named.
            OthersStay (same_id CustomChannelId.eq) (id_named named.0 channel_id)
            self.old self.new) }
        ensures err { IfSome (fragment_in (as_class (reported.Cut message.entry))) (λ named.
            IfErr result (Stays (same_id CustomChannelId.eq) (id_named named.0 channel_id)
            self.old self.new)) }
        ensures short { IfOk result
            (λ payload. IfSome payload (λ whole. length whole.payload.items ≤ 65535)) }
        ensures counts { IfSome (fragment_in (as_class (reported.Cut message.entry))) (λ named.
            Counts (same_id CustomChannelId.eq) self.old self.new (id_named named.0 channel_id) result) }
        ensures starts { IfSome (fragment_in (as_class (reported.Cut message.entry))) (λ named.
            StartsAfter (same_id CustomChannelId.eq) self.old self.new (id_named named.0 channel_id)
            result) }
        ensures bound { Bounded self.old self.new }
        ensures succeeds { IfSome (fragment_in (as_class (reported.Cut message.entry))) (λ named.
            HasMemoryFor (same_id CustomChannelId.eq) self.old (id_named named.0 channel_id)
            named.1 result) }
        ensures memory { IfSome (fragment_in (as_class (reported.Cut message.entry))) (λ named.
            KeepsMemoryOf (same_id CustomChannelId.eq) self.old self.new
            (id_named named.0 channel_id) result) }
    {
        let (id, received) = named(message, channel_id);
        self.add_fragment(id, &received, timestamp)
    }

    // Takes a fragment of the datagram with this name. Each clause speaks of a name and a fragment
    // that are equal to these, as those that a packet reports are.
    pub(super) fn add_fragment(
        &mut self,
        id: IpFragId<CustomChannelId>,
        received: &SlicedFragment<'_>,
        timestamp: Timestamp,
    ) -> Result<Option<IpDefragPayloadVec>, IpDefragError>
        ensures accepted { (name : IpFragId CustomChannelId) (f : Fragment) → id ≡ name
            → fragment_of received.now ≡ f →
            Accepts (same_id CustomChannelId.eq) self.old self.new name f timestamp result }
        ensures refused { (name : IpFragId CustomChannelId) (f : Fragment) → id ≡ name
            → fragment_of received.now ≡ f →
            Refuses (same_id CustomChannelId.eq) self.old name f result }
        ensures repeat { (name : IpFragId CustomChannelId) (f : Fragment) → id ≡ name
            → fragment_of received.now ≡ f →
            TakesRepeat (reassembly_at (same_id CustomChannelId.eq) self.old name)
            (reassembly_at (same_id CustomChannelId.eq) self.new name) f result }
        ensures others { (name : IpFragId CustomChannelId) → id ≡ name →
            OthersStay (same_id CustomChannelId.eq) name self.old self.new }
        ensures err { (name : IpFragId CustomChannelId) → id ≡ name →
            IfErr result (Stays (same_id CustomChannelId.eq) name self.old self.new) }
        ensures short { IfOk result
            (λ payload. IfSome payload (λ whole. length whole.payload.items ≤ 65535)) }
        ensures counts { (name : IpFragId CustomChannelId) → id ≡ name →
            Counts (same_id CustomChannelId.eq) self.old self.new name result }
        ensures starts { (name : IpFragId CustomChannelId) → id ≡ name →
            StartsAfter (same_id CustomChannelId.eq) self.old self.new name result }
        ensures bound { Bounded self.old self.new }
        ensures succeeds { (name : IpFragId CustomChannelId) (f : Fragment) → id ≡ name
            → fragment_of received.now ≡ f →
            HasMemoryFor (same_id CustomChannelId.eq) self.old name f result }
        ensures memory { (name : IpFragId CustomChannelId) → id ≡ name →
            KeepsMemoryOf (same_id CustomChannelId.eq) self.old self.new name result }
    {
        let ip_number = id.payload_ip_number;
        let len_source = id.ip.len_source();
        let rule = id.ip.overlap_rule();
        match self.reassemblies.add(id, rule, received, timestamp) {
            Ok(Some(payload)) => Ok(Some(IpDefragPayloadVec {
                ip_number,
                len_source,
                payload,
            })),
            Ok(None) => Ok(None),
            Err(error) => Err(error),
        }
    }

    /// Takes back the memory of a datagram that was returned, for reassemblies that start later.
    /// Where there is no slot for it and no memory for one, the datagram is returned.
    pub fn return_buf(&mut self, buf: IpDefragPayloadVec) -> Result<(), IpDefragPayloadVec>
        ensures ok { OnOk result (self.new.spare ≡ self.old.spare + 1) }
        ensures err { IfErr result (λ given. (given ≡ buf) × (self.new ≡ self.old)) }
        ensures same { self.new.reassemblies ≡ self.old.reassemblies }
        ensures starts { self.new.starts ≡ self.old.starts }
        ensures sections { self.new.spare_sections ≡ self.old.spare_sections }
        // Where there is a slot, the datagram is kept there with its memory.
        ensures succeeds { HasSlot self.old → IsOk result }
        ensures memory { OnOk result (self.new.memory ≡ record self.old.memory {
          bytes = self.old.memory.bytes ++ vec_capacity buf.payload ∷ [];
          bytes_slots = self.new.memory.bytes_slots;
        }) }
    {
        let IpDefragPayloadVec {
            ip_number,
            len_source,
            payload,
        } = buf;
        match self.reassemblies.give(payload) {
            Ok(()) => Ok(()),
            Err(payload) => Err(IpDefragPayloadVec {
                ip_number,
                len_source,
                payload,
            }),
        }
    }

    /// How many reassemblies there are: no name is there twice.
    pub fn open_len(&self) -> usize
        ensures len { result ≡ open_in self.now }
        ensures names { IsDistinct (same_id CustomChannelId.eq) (keys_of self.now.reassemblies) }
        ensures starts { result ≡ length self.now.starts }
    {
        self.reassemblies.len()
    }

    /// How many bytes the reassemblies hold in their buffers: each up to the greatest end of its
    /// fragments, of which 65,535 is the most. A fragment of 8 bytes at offset 65,000 holds 65,008.
    ///
    /// A reassembly takes more than that: its name with up to three VLAN identifiers and two
    /// addresses, its timestamp, its place in the order of starts, 4 bytes for each of its ranges
    /// and over IPv6 for each fragment, and the capacity of its buffers that isn't used yet. A
    /// caller that bounds memory adds a constant for each of [`IpDefragPool::open_len`].
    pub fn open_bytes(&self) -> usize
        ensures all { result ≡ bytes_in self.now.reassemblies }
        ensures starts { result
            ≡ bytes_of (same_id CustomChannelId.eq) self.now self.now.starts }
    {
        self.reassemblies.open_bytes()
    }

    /// Frees the spare buffers. One may be large, and is taken for a reassembly however small that is:
    /// a caller that bounds memory frees them where reassemblies end.
    pub fn free_spare(&mut self)
        ensures reassemblies { self.new.reassemblies ≡ self.old.reassemblies }
        ensures starts { self.new.starts ≡ self.old.starts }
        ensures spare { self.new.spare ≡ 0 }
        ensures sections { self.new.spare_sections ≡ 0 }
        ensures memory { self.new.memory ≡ freed self.old.memory }
    {
        self.reassemblies.free_spare();
    }

    /// How many buffers of bytes are spare, for reassemblies that start later.
    pub fn spare_len(&self) -> usize
        ensures { result ≡ self.now.spare }
    {
        self.reassemblies.spare_len()
    }

    /// Keeps exactly the reassemblies for whose timestamp, that of the fragment accepted last, the
    /// test returns `true`. It is called once for each. The buffers of the others are spare then;
    /// there are slots for them since these reassemblies started.
    pub fn retain<F: Fn(&Timestamp) -> bool + Drop>(&mut self, keep: F) -> Result<(), AllocError>
        requires { (q : IpFragId CustomChannelId)
            → MayTest (F.pre keep) (reassembly_at (same_id CustomChannelId.eq) self.old q) }
        ensures retained { OnOk result ((q : IpFragId CustomChannelId)
            → Retained (FnReturnsAt F.Fn keep)
            (reassembly_at (same_id CustomChannelId.eq) self.old q) (reassembly_at (same_id CustomChannelId.eq) self.new q)) }
        ensures ok { result ≡ Ok tt }
        ensures err { OnErr result (self.new ≡ self.old) }
        // As many more buffers are spare as reassemblies were dropped.
        ensures counts { open_in self.new + self.new.spare ≡ open_in self.old + self.old.spare }
        ensures sections { open_in self.new + self.new.spare_sections
            ≡ open_in self.old + self.old.spare_sections }
        ensures fewer { open_in self.new ≤ open_in self.old }
        // The order of the others stays.
        ensures starts { self.new.starts
            ≡ names_there (same_id CustomChannelId.eq) self.new self.old.starts }
    {
        self.reassemblies.retain(&keep);
        Ok(())
    }

    /// Drops the reassembly that started first, by its first accepted fragment, and returns its
    /// name and its timestamp. Its buffers are spare then; there are slots for them since it
    /// started. There is none where there is no reassembly.
    ///
    /// It takes constant time, so that a caller can bound the memory of a pool over any input:
    /// while [`IpDefragPool::open_bytes`] or [`IpDefragPool::open_len`] is too large, it forgets
    /// the oldest.
    pub fn forget_oldest(&mut self) -> Option<(IpFragId<CustomChannelId>, Timestamp)>
        ensures none { IfNone result ((self.old.starts ≡ []) × (self.new ≡ self.old)) }
        ensures some { IfSome result (λ r.
            ForgetsOldest (same_id CustomChannelId.eq) self.old self.new r.0 r.1) }
    {
        self.reassemblies.forget_oldest()
    }
}
