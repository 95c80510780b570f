//! Timestamps that are made of earlier ones.

ghost use Rattle.std.specs.Prelude.{◌≡◌, ◌≤◌, None, Ok, IfOk, IfErr, IfSome, length};
ghost use Rattle.ep_packet.specs.Class.{IdentificationFits, as_class, packet_parsed};
ghost use Rattle.ep_packet.specs.declared.class.Class.TheVariants as reported;
ghost use Rattle.etherparse.specs.Counts.{Bounded, Counts, HasMemoryFor, KeepsMemoryOf};
ghost use Rattle.etherparse.specs.Repeats.{TakesRepeat};
ghost use Rattle.etherparse.specs.Starts.{StartsAfter};
ghost use Rattle.etherparse.specs.ReassemblyTable.{OthersStay, Stays, reassembly_at};
ghost use Rattle.etherparse.specs.Timestamps.{timestamp_at};
ghost use Rattle.etherparse.specs.IpDefragPool.{Refuses, same_id};
ghost use Rattle.etherparse.specs.IpFragId.{fragment_in, id_named};
ghost use Rattle.etherparse.specs.PoolTimestamps.{AcceptsRenewed};

use super::fragment::named;
use super::{IpDefragError, IpDefragPayloadVec, IpDefragPool};
use ep_packet::{Class, IpFragment, SlicedPacket};
use std::hash::{BuildHasher, Hash};

impl<Timestamp: Copy + Drop, CustomChannelId: Eq + Hash + Drop, S: BuildHasher> IpDefragPool<
    Timestamp,
    CustomChannelId,
    S,
> {
    /// Takes a packet as [`IpDefragPool::process_sliced_packet`] does. A fragment that is accepted
    /// gives its reassembly the timestamp that `renew` makes of the one before, or of `None` where
    /// the fragment starts the reassembly. Returns the one before beside the outcome.
    ///
    /// So a pool can keep when the fragment came that was first, as RFC 8200, section 4.5, requires
    /// it: `|first| first.unwrap_or(now)`.
    pub fn process_sliced_packet_with<F: FnOnce(Option<Timestamp>) -> Timestamp + Drop>(
        &mut self,
        packet: &SlicedPacket<'_>,
        renew: F,
        channel_id: CustomChannelId,
    ) -> (
        Option<Timestamp>,
        Result<Option<IpDefragPayloadVec>, IpDefragError>,
    )
        requires { F.IsAlwaysCallable renew }
        ensures passed { fragment_in (packet_parsed packet.now) ≡ None
            → (result.0 ≡ None) × (result.1 ≡ Ok None) × (self.new ≡ self.old) }
        ensures before { IfSome (fragment_in (packet_parsed packet.now)) (λ reported. result.0
            ≡ timestamp_at (same_id CustomChannelId.eq) self.old (id_named reported.0 channel_id)) }
        ensures accepted { IfSome (fragment_in (packet_parsed packet.now)) (λ reported.
            AcceptsRenewed (F.post renew) (same_id CustomChannelId.eq) self.old self.new
            (id_named reported.0 channel_id) reported.1 result.1) }
        ensures refused { IfSome (fragment_in (packet_parsed packet.now)) (λ reported.
            Refuses (same_id CustomChannelId.eq) self.old (id_named reported.0 channel_id) reported.1
            result.1) }
        ensures repeat { IfSome (fragment_in (packet_parsed packet.now)) (λ reported.
            TakesRepeat (reassembly_at (same_id CustomChannelId.eq) self.old (id_named reported.0 channel_id))
            (reassembly_at (same_id CustomChannelId.eq) self.new (id_named reported.0 channel_id)) reported.1
            result.1) }
        ensures succeeds { IfSome (fragment_in (packet_parsed packet.now)) (λ reported.
            HasMemoryFor (same_id CustomChannelId.eq) self.old (id_named reported.0 channel_id) reported.1
            result.1) }
        ensures memory { IfSome (fragment_in (packet_parsed packet.now)) (λ reported.
            KeepsMemoryOf (same_id CustomChannelId.eq) self.old self.new
            (id_named reported.0 channel_id) result.1) }
        ensures others { IfSome (fragment_in (packet_parsed packet.now)) (λ reported.
            OthersStay (same_id CustomChannelId.eq) (id_named reported.0 channel_id) self.old self.new) }
        ensures err { IfSome (fragment_in (packet_parsed packet.now)) (λ reported.
            IfErr result.1 (Stays (same_id CustomChannelId.eq) (id_named reported.0 channel_id)
            self.old self.new)) }
        ensures short { IfOk result.1
            (λ payload. IfSome payload (λ whole. length whole.payload.items ≤ 65535)) }
        ensures counts { IfSome (fragment_in (packet_parsed packet.now)) (λ reported.
            Counts (same_id CustomChannelId.eq) self.old self.new (id_named reported.0 channel_id)
            result.1) }
        ensures starts { IfSome (fragment_in (packet_parsed packet.now)) (λ reported.
            StartsAfter (same_id CustomChannelId.eq) self.old self.new (id_named reported.0 channel_id)
            result.1) }
        ensures bound { Bounded self.old self.new }
    {
        if !packet.is_ip_payload_fragmented() {
            return (None, Ok(None));
        }
        match packet.class() {
            Class::Cut(message) => self.process_fragment_with(message, renew, channel_id),
            _ => (None, Ok(None)),
        }
    }

    /// Takes a fragment, as [`IpDefragPool::process_sliced_packet_with`] takes that of its packet.
    pub fn process_fragment_with<F: FnOnce(Option<Timestamp>) -> Timestamp + Drop>(
        &mut self,
        message: IpFragment<'_>,
        renew: F,
        channel_id: CustomChannelId,
    ) -> (
        Option<Timestamp>,
        Result<Option<IpDefragPayloadVec>, IpDefragError>,
    )
        requires fits { IdentificationFits message.addresses message.identification }
        requires renews { F.IsAlwaysCallable renew }
        ensures before { IfSome (fragment_in (as_class (reported.Cut message.entry))) (λ named. result.0
            ≡ timestamp_at (same_id CustomChannelId.eq) self.old (id_named named.0 channel_id)) }
        ensures accepted { IfSome (fragment_in (as_class (reported.Cut message.entry))) (λ named.
            AcceptsRenewed (F.post renew) (same_id CustomChannelId.eq) self.old self.new
            (id_named named.0 channel_id) named.1 result.1) }
        ensures refused { IfSome (fragment_in (as_class (reported.Cut message.entry))) (λ named.
            Refuses (same_id CustomChannelId.eq) self.old (id_named named.0 channel_id) named.1
            result.1) }
        ensures repeat { IfSome (fragment_in (as_class (reported.Cut message.entry))) (λ named.
            TakesRepeat (reassembly_at (same_id CustomChannelId.eq) self.old (id_named named.0 channel_id))
            (reassembly_at (same_id CustomChannelId.eq) self.new (id_named named.0 channel_id)) named.1
            result.1) }
        ensures succeeds { IfSome (fragment_in (as_class (reported.Cut message.entry))) (λ named.
            HasMemoryFor (same_id CustomChannelId.eq) self.old (id_named named.0 channel_id)
            named.1 result.1) }
        ensures memory { IfSome (fragment_in (as_class (reported.Cut message.entry))) (λ named.
            KeepsMemoryOf (same_id CustomChannelId.eq) self.old self.new
            (id_named named.0 channel_id) result.1) }
        ensures others { IfSome (fragment_in (as_class (reported.Cut message.entry))) (λ named.
            OthersStay (same_id CustomChannelId.eq) (id_named named.0 channel_id)
            self.old self.new) }
        ensures err { IfSome (fragment_in (as_class (reported.Cut message.entry))) (λ named.
            IfErr result.1 (Stays (same_id CustomChannelId.eq) (id_named named.0 channel_id)
            self.old self.new)) }
        ensures short { IfOk result.1
            (λ payload. IfSome payload (λ whole. length whole.payload.items ≤ 65535)) }
        ensures counts { IfSome (fragment_in (as_class (reported.Cut message.entry))) (λ named.
            Counts (same_id CustomChannelId.eq) self.old self.new (id_named named.0 channel_id)
            result.1) }
        ensures starts { IfSome (fragment_in (as_class (reported.Cut message.entry))) (λ named.
            StartsAfter (same_id CustomChannelId.eq) self.old self.new (id_named named.0 channel_id)
            result.1) }
        ensures bound { Bounded self.old self.new }
    {
        let (id, received) = named(message, channel_id);
        let before = self.reassemblies.timestamp_of(&id).copied();
        let timestamp = renew(before);
        (before, self.add_fragment(id, &received, timestamp))
    }
}
