//! What is in a capture, counted packet by packet.
ghost use Rattle.std.specs.Prelude.{◌≡◌, ◌<◌, ◌++◌, ◌∷◌, [], List, OnOk, OnErr};
ghost use Rattle.packets.specs.declared.flows.transfer.Transfer.{Transfer};
ghost use Rattle.packets.specs.declared.outline.Outline.{Outline};

use crate::flows::counted_flows::CountedFlows;
use crate::flows::transfer::Transfer;
use crate::outline::FragmentState;
use crate::summary::lengths::Lengths;
use crate::summary::numbers::NumberTallies;
use crate::summary::period::Period;
use crate::summary::rate::Rate;
use crate::summary::recent::{Recent, sender_bucket};
use crate::summary::sizes::Sizes;
use crate::summary::table::Table;
use crate::summary::tally::Tally;
use crate::summary::verified::Verified;
use crate::{Conversation, Dissection, Outline, Protocol, Reason};
use checksum_verdicts::Verdict;
use std::alloc::{AllocError, Global};
use std::hash::{BuildHasher, BuildHasherDefault, FoldHasher};

/// What is in a capture. Its memory grows with the number of conversations, with that of senders, and
/// with nothing else.
#[derive(Drop)]
pub struct Summary<S: BuildHasher = BuildHasherDefault<FoldHasher>> {
    /// All packets.
    pub all: Tally,
    /// Those that are refused.
    pub refused: Tally,
    /// By their headers.
    pub protocols: ProtocolTallies,
    /// By the verdicts on their checksums.
    pub checksums: ChecksumTallies,
    /// By what became of fragments.
    pub parts: FragmentTallies,
    /// By their bytes.
    pub sizes: Sizes,
    /// By their times.
    pub rate: Rate,
    /// When they came.
    pub period: Period,
    /// By their bytes on the wire.
    pub lengths: Lengths,
    /// Those that are refused, by the reason.
    pub reasons: Table<Reason, S>,
    /// By their conversations.
    pub flows: CountedFlows<S>,
    /// Those with a good or a bad checksum, by the sender and which it is.
    pub senders: Table<Verified, S>,
    recent: Recent,
}

/// How many packets have a header of each protocol.
#[derive(Drop)]
pub struct ProtocolTallies {
    /// Those that were captured as Ethernet frames.
    pub ethernet: Tally,
    /// Those with a VLAN tag.
    pub vlan: Tally,
    /// Those with a MACsec header.
    pub macsec: Tally,
    /// ARP packets.
    pub arp: Tally,
    /// IPv4 packets.
    pub ipv4: Tally,
    /// IPv6 packets.
    pub ipv6: Tally,
    /// IP packets, by the number of the protocol they carry.
    pub over_ip: NumberTallies,
}

/// How many packets there are by the verdict on their checksum.
#[derive(Clone, Copy, Debug, PartialEq, Eq)]
pub struct ChecksumTallies {
    /// Those whose message came as it was sent, by its checksum.
    pub good: Tally,
    /// Those whose checksum is wrong.
    pub bad: Tally,
    /// Those whose message has none.
    pub none: Tally,
}

/// What became of fragments.
#[derive(Clone, Copy, Debug, PartialEq, Eq)]
pub struct FragmentTallies {
    /// All fragments.
    pub all: Tally,
    /// Those that completed their datagram.
    pub completing: Tally,
    /// Those that were refused.
    pub refused: Tally,
}

impl Summary<BuildHasherDefault<FoldHasher>> {
    ghost use Rattle.packets.specs.Counts.{CountsAll};

    /// [`Summary::with_hashers`] with std's state of a fixed seed.
    pub fn new(alloc: Global) -> Summary
        ensures { CountsAll ⟦<Reason as PartialEq>⟧.eq ⟦<Conversation as PartialEq>⟧.eq
            ⟦<Verified as PartialEq>⟧.eq result [] }
    {
        let conversations = BuildHasherDefault::new();
        let senders = BuildHasherDefault::new();
        Summary::with_hashers(alloc, conversations, senders, BuildHasherDefault::new())
    }
}

impl<S: BuildHasher> Summary<S> {
    ghost use Rattle.packets.specs.Counts.{Counts, CountsAll};
    ghost use Rattle.packets.specs.Transfers.{transfer_of};

    /// No packet. Conversations, senders and reasons are hashed by a state each. It takes no
    /// memory.
    pub fn with_hashers(alloc: Global, conversations: S, senders: S, reasons: S) -> Summary<S>
        ensures { CountsAll ⟦<Reason as PartialEq>⟧.eq ⟦<Conversation as PartialEq>⟧.eq
            ⟦<Verified as PartialEq>⟧.eq result [] }
    {
        Summary {
            all: Tally::NONE,
            refused: Tally::NONE,
            protocols: ProtocolTallies::none(),
            checksums: ChecksumTallies::NONE,
            parts: FragmentTallies::NONE,
            sizes: Sizes::NONE,
            rate: Rate::new(),
            period: Period::NONE,
            lengths: Lengths::NONE,
            reasons: Table::with_hasher(alloc, reasons),
            flows: CountedFlows::with_hasher(alloc, conversations),
            senders: Table::with_hasher(alloc, senders),
            recent: Recent::new(),
        }
    }

    /// Counts one packet more. Where there is no memory for what is new about it, all counts stay.
    pub fn add(&mut self, dissection: &Dissection<'_>) -> Result<(), AllocError>
        ensures ok { OnOk result ((packets : List Transfer)
            → CountsAll ⟦<Reason as PartialEq>⟧.eq ⟦<Conversation as PartialEq>⟧.eq
            ⟦<Verified as PartialEq>⟧.eq self.old packets
            → CountsAll ⟦<Reason as PartialEq>⟧.eq ⟦<Conversation as PartialEq>⟧.eq
            ⟦<Verified as PartialEq>⟧.eq self.new
            (packets ++ transfer_of dissection.now ∷ [])) }
        ensures err { OnErr result ((packets : List Transfer)
            → CountsAll ⟦<Reason as PartialEq>⟧.eq ⟦<Conversation as PartialEq>⟧.eq
            ⟦<Verified as PartialEq>⟧.eq self.old packets
            → CountsAll ⟦<Reason as PartialEq>⟧.eq ⟦<Conversation as PartialEq>⟧.eq
            ⟦<Verified as PartialEq>⟧.eq self.new packets) }
    {
        let packet = Transfer::of(dissection);
        self.reserve()?;
        self.count(&packet);
        Ok(())
    }

    // Reserves the capacity for what is new about one packet more.
    fn reserve(&mut self) -> Result<(), AllocError>
        ensures reasons { OnOk result (0 < self.new.reasons.spare) }
        ensures conversations { OnOk result (0 < self.new.flows.conversations.spare) }
        ensures senders { OnOk result (0 < self.new.senders.spare) }
        ensures same { (packets : List Transfer)
            → CountsAll ⟦<Reason as PartialEq>⟧.eq ⟦<Conversation as PartialEq>⟧.eq
            ⟦<Verified as PartialEq>⟧.eq self.old packets
            → CountsAll ⟦<Reason as PartialEq>⟧.eq ⟦<Conversation as PartialEq>⟧.eq
            ⟦<Verified as PartialEq>⟧.eq self.new packets }
    {
        self.reasons.reserve()?;
        self.flows.reserve()?;
        self.senders.reserve()
    }

    fn count(&mut self, packet: &Transfer)
        requires reasons { 0 < self.old.reasons.spare }
        requires conversations { 0 < self.old.flows.conversations.spare }
        requires senders { 0 < self.old.senders.spare }
        ensures { (packets : List Transfer)
            → CountsAll ⟦<Reason as PartialEq>⟧.eq ⟦<Conversation as PartialEq>⟧.eq
            ⟦<Verified as PartialEq>⟧.eq self.old packets
            → CountsAll ⟦<Reason as PartialEq>⟧.eq ⟦<Conversation as PartialEq>⟧.eq
            ⟦<Verified as PartialEq>⟧.eq self.new (packets ++ packet.now ∷ []) }
    {
        self.count_outline(&packet.outline);
        self.flows.count(packet);
    }

    // Without its conversation.
    fn count_outline(&mut self, packet: &Outline)
        requires reasons { 0 < self.old.reasons.spare }
        requires senders { 0 < self.old.senders.spare }
        ensures counts { (packets : List Outline)
            → Counts ⟦<Reason as PartialEq>⟧.eq ⟦<Verified as PartialEq>⟧.eq self.old packets
            → Counts ⟦<Reason as PartialEq>⟧.eq ⟦<Verified as PartialEq>⟧.eq self.new
            (packets ++ packet.now ∷ []) }
        ensures flows { self.new.flows ≡ self.old.flows }
    {
        self.all.add(packet);
        self.refused.add_if(packet.refusal.is_some(), packet);
        self.protocols.add(packet);
        self.checksums.add(packet);
        self.parts.add(packet);
        self.sizes.add(packet);
        self.rate.add(packet, 1);
        self.period.add(packet);
        self.lengths.add(packet);
        let reason = self.recent.reason;
        self.recent.reason = self.reasons.add_keyed(packet.refusal, reason, packet);
        let sender = Verified::of(packet);
        let bucket = sender_bucket(sender);
        let known = self.recent.senders[bucket];
        self.recent.senders[bucket] = self.senders.add_keyed(sender, known, packet);
    }
}

impl ProtocolTallies {
    ghost use Rattle.packets.specs.Counts.{CountsProtocols};

    fn none() -> ProtocolTallies
        ensures { CountsProtocols result [] }
    {
        ProtocolTallies {
            ethernet: Tally::NONE,
            vlan: Tally::NONE,
            macsec: Tally::NONE,
            arp: Tally::NONE,
            ipv4: Tally::NONE,
            ipv6: Tally::NONE,
            over_ip: NumberTallies::none(),
        }
    }

    fn add(&mut self, packet: &Outline)
        ensures { (packets : List Outline) → CountsProtocols self.old packets
            → CountsProtocols self.new (packets ++ packet.now ∷ []) }
    {
        let headers = &packet.headers;
        self.ethernet
            .add_if(headers.has(Protocol::Ethernet), packet);
        self.vlan.add_if(headers.has(Protocol::Vlan), packet);
        self.macsec.add_if(headers.has(Protocol::Macsec), packet);
        self.arp.add_if(headers.has(Protocol::Arp), packet);
        self.ipv4.add_if(headers.has(Protocol::Ipv4), packet);
        self.ipv6.add_if(headers.has(Protocol::Ipv6), packet);
        self.over_ip.add(packet);
    }
}

impl ChecksumTallies {
    ghost use Rattle.packets.specs.Counts.{CountsChecksums};

    const NONE: ChecksumTallies = ChecksumTallies {
        good: Tally::NONE,
        bad: Tally::NONE,
        none: Tally::NONE,
    };

    fn add(&mut self, packet: &Outline)
        ensures { (packets : List Outline) → CountsChecksums self.old packets
            → CountsChecksums self.new (packets ++ packet.now ∷ []) }
    {
        let verdict = packet.verdict;
        self.good
            .add_if(matches!(verdict, Some(Verdict::Good)), packet);
        self.bad
            .add_if(matches!(verdict, Some(Verdict::Bad)), packet);
        self.none
            .add_if(matches!(verdict, Some(Verdict::None)), packet);
    }
}

impl FragmentTallies {
    ghost use Rattle.packets.specs.Counts.{CountsFragments};

    const NONE: FragmentTallies = FragmentTallies {
        all: Tally::NONE,
        completing: Tally::NONE,
        refused: Tally::NONE,
    };

    fn add(&mut self, packet: &Outline)
        ensures { (packets : List Outline) → CountsFragments self.old packets
            → CountsFragments self.new (packets ++ packet.now ∷ []) }
    {
        let fragment = packet.fragment;
        self.all.add_if(fragment.is_some(), packet);
        self.completing
            .add_if(matches!(fragment, Some(FragmentState::Completes)), packet);
        self.refused
            .add_if(matches!(fragment, Some(FragmentState::Refused)), packet);
    }
}
