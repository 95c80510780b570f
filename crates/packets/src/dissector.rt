//! Packets, dissected one after the other.
ghost use Rattle.std.specs.Prelude.{◌≡◌, ◌+◌, [], IfOk, OnErr, MatchOption, MatchResult, IsSome, List, ℕ, None, Some};
ghost use Rattle.std.specs.Prelude.{length, unwrap_or};
ghost use Rattle.captures.specs.Framed.{captured_len, frame_bytes};
ghost use Rattle.captures.specs.Numbers.{capped};
ghost use Rattle.etherparse.specs.IpFragId.{fragment_in};
ghost use Rattle.etherparse.specs.OpenReassemblies.{IsOpenCount};
ghost use Rattle.etherparse.specs.PoolCalls.{Lists, answer_to_frame, fault_in, lists_with_frame, no_lists};
ghost use Rattle.etherparse.specs.PoolCalls.{retained_from};
ghost use Rattle.ep_packet.specs.Class.{sliced_class};
ghost use Rattle.packets.specs.Started.{Started, ShowsStarted, ShowsFragments, ReportsStarted, started_with};
ghost use Rattle.packets.specs.Started.{none_started};
ghost use Rattle.packets.specs.Courses.{first_at};
ghost use Rattle.packets.specs.ReassemblyMemory.{Order, ShowsOrder, dropped_within, lists_within, order_of_waiting};
ghost use Rattle.packets.specs.ReassemblyMemory.{order_with, order_within};
ghost use Rattle.packets.specs.Dissected.{fragment_result, packet_result, verdict_on, verification_of};
ghost use Rattle.packets.specs.Layers.{after_header, layers_of};

use crate::Dissection;
use crate::datagrams::{Arrival, Datagrams, Finding};
use crate::lax_layers::FrameBytes;
use crate::verification::Verification;
use captures::{Frame, Packet};
use ep_base::EtherType;
use ep_base::err::LenError;
use ep_link::Ethernet2Header;
use ep_packet::SlicedPacket;
use ep_packet::err::packet::SliceError;
use std::alloc::{AllocError, Global};
use std::hash::{BuildHasher, BuildHasherDefault, FoldHasher};

/// Dissects one packet after the other, and reassembles datagrams of their fragments.
///
/// The fragments of a datagram that never completes are held until [`Dissector::forget_before`] or
/// [`Dissector::keep_within`] drops them.
#[derive(Drop)]
pub struct Dissector<S: BuildHasher = BuildHasherDefault<FoldHasher>> {
    pub(crate) datagrams: Datagrams<S>,
    // When the first packet came.
    pub(crate) first_time: Option<u64>,
    // When the last packet came.
    pub(crate) last_time: Option<u64>,
    // How many datagrams `keep_within` dropped.
    pub(crate) dropped: u64,
}

impl Dissector<BuildHasherDefault<FoldHasher>> {
    /// [`Dissector::with_hasher`] with std's state of a fixed seed.
    pub fn new(alloc: Global) -> Dissector
        ensures first_time { result.first_time ≡ None }
        ensures last_time { result.last_time ≡ None }
        ensures datagrams { ShowsFragments result.datagrams no_lists }
        ensures started { ShowsStarted result.datagrams none_started }
        ensures order { ShowsOrder result.datagrams [] }
        ensures dropped { result.dropped ≡ 0 }
    {
        Dissector::with_hasher(alloc, BuildHasherDefault::new())
    }
}

impl<S: BuildHasher> Dissector<S> {
    /// No packet came, and no fragment waits. The names of datagrams are hashed by this state: what
    /// is found in packets doesn't depend on it, and no clause names it. Where untrusted senders
    /// choose the names, a [`std::hash::RandomState`] keeps them from colliding by intent. It takes
    /// no memory.
    pub fn with_hasher(alloc: Global, state: S) -> Dissector<S>
        ensures first_time { result.first_time ≡ None }
        ensures last_time { result.last_time ≡ None }
        ensures datagrams { ShowsFragments result.datagrams no_lists }
        ensures started { ShowsStarted result.datagrams none_started }
        ensures order { ShowsOrder result.datagrams [] }
        ensures dropped { result.dropped ≡ 0 }
    {
        Dissector {
            datagrams: Datagrams::with_hasher(alloc, state),
            first_time: None,
            last_time: None,
            dropped: 0,
        }
    }

    /// Dissects the next packet; whether its checksum is verified, the caller says. Datagrams of
    /// other interfaces are other datagrams.
    ///
    /// It fails where there is no memory for a fragment: then all is as it was. For packets that
    /// are no fragments it never fails.
    pub fn dissect<'a>(
        &mut self,
        packet: &Packet<'a>,
        checksums: bool,
    ) -> Result<Dissection<'a>, AllocError>
        ensures number { IfOk result (λ d. d.number ≡ packet.now.number) }
        ensures first_time { IfOk result
            (λ d. (d.first_time ≡ first_at self.old.first_time packet.now.time)
            × (self.new.first_time ≡ Some d.first_time)) }
        ensures last_time { IfOk result
            (λ d. (d.previous_time ≡ first_at self.old.last_time packet.now.time)
            × (self.new.last_time ≡ Some packet.now.time)) }
        ensures layers { IfOk result
            (λ d. d.layers ≡ layers_of packet.now.frame.header packet.now.frame.bytes) }
        // What is reported of a fragment, and which fragments wait then.
        ensures answered { (lists : Lists) → ShowsFragments self.old.datagrams lists
            → MatchResult result
            (λ d. (packet_result d.layers d.fragment ≡ answer_to_frame lists (sliced_class d.layers)
            packet.now.interface (fault_in d.layers))
            × ShowsFragments self.new.datagrams
            (lists_with_frame lists (sliced_class d.layers) packet.now.time packet.now.interface))
            (λ e. ShowsFragments self.new.datagrams lists × IsSome (fragment_in
            (sliced_class (layers_of packet.now.frame.header packet.now.frame.bytes)))) }
        // In which packet its datagram started, and in which ones those started whose fragments
        // wait then.
        ensures started { (lists : Lists) (started : Started) → ShowsFragments self.old.datagrams lists
            → ShowsStarted self.old.datagrams started → MatchResult result
            (λ d. ReportsStarted lists started (sliced_class d.layers) packet.now.interface d.number
            d.fragment × ShowsStarted self.new.datagrams
            (started_with lists started (sliced_class d.layers) packet.now.interface d.number))
            (λ e. ShowsStarted self.new.datagrams started) }
        // In which order those started.
        ensures order { (lists : Lists) (order : Order) → ShowsFragments self.old.datagrams lists
            → ShowsOrder self.old.datagrams order → MatchResult result
            (λ d. ShowsOrder self.new.datagrams (order_with lists
            (lists_with_frame lists (sliced_class d.layers) packet.now.time packet.now.interface)
            (sliced_class d.layers) packet.now.interface order))
            (λ e. ShowsOrder self.new.datagrams order) }
        ensures dropped { self.new.dropped ≡ self.old.dropped }
        ensures checksums { IfOk result (λ d. d.checksums ≡ checksums) }
        ensures verdict { IfOk result
            (λ d. d.verdict ≡ verdict_on (verification_of checksums d.layers) (sliced_class d.layers)
            (fragment_result d.fragment)) }
        ensures arrival { IfOk result (λ d. (d.time ≡ packet.now.time)
            × (d.interface ≡ packet.now.interface) × (d.link ≡ packet.now.link)
            × (d.header ≡ packet.now.frame.header)
            × (d.bytes ≡ packet.now.frame.bytes)
            × (d.len ≡ length (frame_bytes packet.now.frame))
            × (d.captured_len ≡ captured_len packet.now.link packet.now.frame)
            × (d.wire_len ≡ packet.now.wire_len)) }
        ensures memory { OnErr result ((self.new.first_time ≡ self.old.first_time)
            × (self.new.last_time ≡ self.old.last_time)) }
    {
        let layers = layers_in(&packet.frame);
        let verification = Verification::of(checksums, &layers);
        let arrival = Arrival {
            number: packet.number,
            time: packet.time,
            interface: packet.interface,
        };
        match self.datagrams.take(&layers, verification, arrival) {
            Ok(Finding { fragment, verdict }) => {
                let first_time = self.first_time.unwrap_or(packet.time);
                let previous_time = self.last_time.unwrap_or(packet.time);
                self.first_time = Some(first_time);
                self.last_time = Some(packet.time);
                Ok(Dissection {
                    number: arrival.number,
                    first_time,
                    previous_time,
                    time: packet.time,
                    interface: packet.interface,
                    link: packet.link,
                    header: packet.frame.header().copied(),
                    bytes: FrameBytes::of(packet.frame.bytes()),
                    len: packet.frame.len(),
                    captured_len: packet.captured_len(),
                    wire_len: packet.wire_len,
                    layers,
                    fragment,
                    checksums,
                    verdict,
                })
            }
            Err(_) => Err(AllocError),
        }
    }

    /// How many datagrams are not complete.
    pub fn open(&self) -> usize
        ensures { (lists : Lists) → ShowsFragments self.now.datagrams lists
            → IsOpenCount lists result }
    {
        self.datagrams.len()
    }

    /// Drops the reassemblies whose last fragment came before this time.
    pub fn forget_before(&mut self, time: u64)
        ensures first_time { self.new.first_time ≡ self.old.first_time }
        ensures last_time { self.new.last_time ≡ self.old.last_time }
        ensures datagrams { (lists : Lists) → ShowsFragments self.old.datagrams lists
            → ShowsFragments self.new.datagrams
            (λ name channel. retained_from time (lists name channel)) }
        ensures started { (started : Started) → ShowsStarted self.old.datagrams started
            → ShowsStarted self.new.datagrams started }
        ensures order { (lists : Lists) (order : Order) → ShowsFragments self.old.datagrams lists
            → ShowsOrder self.old.datagrams order → ShowsOrder self.new.datagrams
            (order_of_waiting (λ name channel. retained_from time (lists name channel)) order) }
        ensures dropped { self.new.dropped ≡ self.old.dropped }
    {
        self.datagrams.forget_before(time);
    }

    /// Drops the datagrams that started first until the others take no more than so many bytes: each
    /// 640, and its bytes up to the greatest end of a fragment. Each takes constant time. The buffers
    /// of datagrams that have ended are freed.
    pub fn keep_within(&mut self, memory: u64)
        ensures first_time { self.new.first_time ≡ self.old.first_time }
        ensures last_time { self.new.last_time ≡ self.old.last_time }
        ensures datagrams { (lists : Lists) (order : Order) → ShowsFragments self.old.datagrams lists
            → ShowsOrder self.old.datagrams order
            → ShowsFragments self.new.datagrams (lists_within memory lists order)
            × ShowsOrder self.new.datagrams (order_within memory lists order)
            × (self.new.dropped ≡ capped (self.old.dropped + dropped_within memory lists order)) }
        ensures started { (lists : Lists) (order : Order) (started : Started)
            → ShowsFragments self.old.datagrams lists → ShowsOrder self.old.datagrams order
            → ShowsStarted self.old.datagrams started → ShowsStarted self.new.datagrams started }
        ensures freed { (self.new.datagrams.pool.spare ≡ 0)
            × (self.new.datagrams.pool.spare_sections ≡ 0) }
    {
        let dropped = self.datagrams.keep_within(memory);
        self.datagrams.free_spare();
        self.dropped = self.dropped.saturating_add(dropped);
    }

    /// How many datagrams [`Dissector::keep_within`] dropped, up to the greatest number of 64 bits.
    pub fn dropped(&self) -> u64
        ensures { result ≡ self.now.dropped }
    {
        self.dropped
    }
}

// The headers of a frame, after a header that was made if one was.
fn layers_in<'a>(frame: &Frame<'a>) -> Result<SlicedPacket<'a>, SliceError>
    ensures { result ≡ layers_of frame.now.header frame.now.bytes }
{
    let bytes = frame.bytes();
    match frame.header() {
        Some(header) => match SlicedPacket::from_ether_type(EtherType(header.ether_type), bytes) {
            Ok(layers) => Ok(layers),
            Err(error) => Err(fault_after_header(error)),
        },
        None => SlicedPacket::from_ethernet(bytes),
    }
}

/// The same fault, with its offset counted from the start of the Ethernet II header before.
pub(crate) fn fault_after_header(error: SliceError) -> SliceError
    ensures { result ≡ after_header error }
{
    match error {
        SliceError::Len(error) => SliceError::Len(LenError {
            layer_start_offset: error
                .layer_start_offset
                .saturating_add(Ethernet2Header::LEN),
            ..error
        }),
        content => content,
    }
}
