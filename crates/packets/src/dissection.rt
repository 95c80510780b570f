//! A packet, dissected.
ghost use Rattle.std.specs.Prelude.{◌≡◌};
ghost use Rattle.packets.specs.HeaderVerdict.{header_verdict, net_header_verdict, sum_verdict};
ghost use Rattle.packets.specs.Lengths.{is_cut};

use crate::lax_layers::FrameBytes;
use captures::{Header, Link};
use checksum_verdicts::Verdict;
use ep_base::checksum::Sum16BitWords;
use ep_packet::err::packet::SliceError;
use ep_packet::{NetSlice, SlicedPacket};
use etherparse::defrag::{IpDefragError, IpDefragPayloadVec};

/// A packet, dissected: what its capture states of it, its headers, and what became of it.
#[derive(Drop)]
pub struct Dissection<'a> {
    /// Its number in the capture, from 1.
    pub number: u64,
    /// When the first packet was captured, in nanoseconds since 1970.
    pub first_time: u64,
    /// When the packet before it was captured, whether that is shown or not; of the first one, when
    /// it was itself.
    pub previous_time: u64,
    /// When it was captured itself.
    pub time: u64,
    /// The interface that it was captured on.
    pub interface: u32,
    /// The link type of its bytes in the capture.
    pub link: Link,
    /// The Ethernet II header that was made in place of the link's own, if one was.
    pub header: Option<Header>,
    /// The bytes of its frame, after the header that was made for it.
    pub bytes: FrameBytes<'a>,
    /// How many bytes its frame has, with those of the header that was made for it.
    pub len: usize,
    /// How many of its bytes were captured, those of its link's own header among them.
    pub captured_len: usize,
    /// How many bytes it had on the wire, as its capture states.
    pub wire_len: u32,
    /// The headers of its frame, or why it is refused. The offset of an error counts from the start
    /// of the Ethernet II frame, also where its header was made.
    pub layers: Result<SlicedPacket<'a>, SliceError>,
    /// What became of it, if it is a fragment.
    pub fragment: Option<Fragment>,
    /// Whether checksums are verified.
    pub checksums: bool,
    /// The verdict on the checksum of its message, or of that which it completes. `None` where no
    /// message was read.
    pub verdict: Option<Verdict>,
}

impl Dissection<'_> {
    /// Whether fewer of its bytes were captured than were on the wire.
    pub fn is_cut(&self) -> bool
        ensures { result ≡ is_cut self.now.captured_len self.now.wire_len }
    {
        self.captured_len < self.wire_len as usize
    }

    /// The verdict on the checksum of its IPv4 header (RFC 791, section 3.1), if it has one, isn't
    /// refused, and checksums are verified.
    pub fn header_verdict(&self) -> Option<Verdict>
        ensures { result ≡ header_verdict self.now.checksums self.now.layers }
    {
        if !self.checksums {
            return None;
        }
        match &self.layers {
            Ok(packet) => net_header_verdict(&packet.net),
            Err(_) => None,
        }
    }
}

fn net_header_verdict(net: &Option<NetSlice<'_>>) -> Option<Verdict>
    ensures { result ≡ net_header_verdict net.now }
{
    match net {
        Some(NetSlice::Ipv4(packet)) => Some(sum_verdict(packet.header().slice())),
        _ => None,
    }
}

fn sum_verdict(header: &[u8]) -> Verdict
    ensures { result ≡ sum_verdict header.now }
{
    if Sum16BitWords::new().add_slice(header).ones_complement() == 0 {
        Verdict::Good
    } else {
        Verdict::Bad
    }
}

/// What became of a fragment.
#[derive(Drop)]
pub enum Fragment {
    /// Its datagram waits for other fragments.
    Waits {
        /// The number of the packet whose fragment of the datagram came first.
        started: u64,
    },
    /// It is the last fragment that was missing.
    Completes {
        /// The number of the packet whose fragment of the datagram came first.
        started: u64,
        /// The payload of the datagram, reassembled.
        message: IpDefragPayloadVec,
    },
    /// It is refused.
    Refused {
        /// The number of the packet whose fragment came first, if fragments of the datagram wait.
        started: Option<u64>,
        /// Why.
        error: IpDefragError,
    },
}
