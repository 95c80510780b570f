//! Payloads of packets, by the header before them.
ghost use Rattle.std.specs.Prelude.{◌≡◌};
ghost use Rattle.ep_packet.specs.Payload.{bytes_of, payload_parsed};

use ep_ipslice::IpPayloadSlice;
use ep_tag::EtherPayloadSlice;

/// The payload after the headers of a packet, borrowed.
#[derive(Clone, Debug, PartialEq, Eq, PartialOrd, Ord, Hash, Drop)]
pub enum PayloadSlice<'a> {
    /// No bytes, as after an ARP packet.
    Empty,
    /// Bytes that an ether type names.
    Ether(EtherPayloadSlice<'a>),
    /// Bytes that MACsec encrypted or modified.
    MacsecMod(&'a [u8]),
    /// The payload of an IP packet in which no transport header was read.
    Ip(IpPayloadSlice<'a>),
    /// The bytes after a UDP header.
    Udp(&'a [u8]),
    /// The bytes after a TCP header and its options.
    Tcp(&'a [u8]),
    /// The bytes after an ICMPv4 header, which has 20 bytes in timestamp messages, else 8.
    Icmpv4(&'a [u8]),
    /// The bytes after an ICMPv6 header.
    Icmpv6(&'a [u8]),
}

impl<'a> PayloadSlice<'a> {
    /// The bytes.
    pub fn slice(&self) -> &'a [u8]
        ensures { result.now ≡ bytes_of (payload_parsed self.now) }
    {
        match self {
            PayloadSlice::Empty => &[],
            PayloadSlice::Ether(payload) => payload.payload,
            PayloadSlice::MacsecMod(bytes) => bytes,
            PayloadSlice::Ip(payload) => payload.payload,
            PayloadSlice::Udp(bytes) => bytes,
            PayloadSlice::Tcp(bytes) => bytes,
            PayloadSlice::Icmpv4(bytes) => bytes,
            PayloadSlice::Icmpv6(bytes) => bytes,
        }
    }
}
