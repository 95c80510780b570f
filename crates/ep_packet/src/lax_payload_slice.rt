//! Payloads of packets that may have been cut off, by the header before them.
ghost use Rattle.std.specs.Prelude.{◌≡◌};
ghost use Rattle.ep_packet.specs.LaxPayload.{lax_bytes_of, lax_payload_parsed};

use ep_ipslice::LaxIpPayloadSlice;
use ep_link::LinuxSllPayloadSlice;
use ep_tag::LaxEtherPayloadSlice;

/// The payload after the headers of a packet, as far as it is there, borrowed.
///
/// `incomplete` says whether bytes are missing, by the length field of the IP packet or the MACsec
/// header that holds the payload. The length field of UDP says nothing of that.
#[derive(Clone, Debug, PartialEq, Eq, Drop)]
pub enum LaxPayloadSlice<'a> {
    /// No bytes, as after an ARP packet.
    Empty,
    /// Bytes that an ether type names.
    Ether(LaxEtherPayloadSlice<'a>),
    /// Bytes after the header of a Linux cooked capture whose protocol is no ether type.
    LinuxSll(LinuxSllPayloadSlice<'a>),
    /// Bytes that MACsec encrypted or modified.
    MacsecModified {
        /// The bytes that are there.
        payload: &'a [u8],
        /// Whether bytes are missing.
        incomplete: bool,
    },
    /// The payload of an IP packet in which no transport header was read.
    Ip(LaxIpPayloadSlice<'a>),
    /// The bytes after a UDP header, as many as its length field leaves. They are all that are there
    /// where it is below 8 or above what is there.
    Udp {
        /// The bytes that are there.
        payload: &'a [u8],
        /// Whether bytes of the IP payload are missing.
        incomplete: bool,
    },
    /// The bytes after a TCP header and its options.
    Tcp {
        /// The bytes that are there.
        payload: &'a [u8],
        /// Whether bytes are missing.
        incomplete: bool,
    },
    /// The bytes after an ICMPv4 header, which has 20 bytes in timestamp messages, else 8.
    Icmpv4 {
        /// The bytes that are there.
        payload: &'a [u8],
        /// Whether bytes are missing.
        incomplete: bool,
    },
    /// The bytes after an ICMPv6 header.
    Icmpv6 {
        /// The bytes that are there.
        payload: &'a [u8],
        /// Whether bytes are missing.
        incomplete: bool,
    },
}

impl<'a> LaxPayloadSlice<'a> {
    /// The bytes that are there.
    pub fn slice(&self) -> &'a [u8]
        ensures { result.now ≡ lax_bytes_of (lax_payload_parsed self.now) }
    {
        match self {
            LaxPayloadSlice::Empty => &[],
            LaxPayloadSlice::Ether(payload) => payload.payload,
            LaxPayloadSlice::LinuxSll(payload) => payload.payload,
            LaxPayloadSlice::MacsecModified { payload, .. } => payload,
            LaxPayloadSlice::Ip(payload) => payload.payload,
            LaxPayloadSlice::Udp { payload, .. } => payload,
            LaxPayloadSlice::Tcp { payload, .. } => payload,
            LaxPayloadSlice::Icmpv4 { payload, .. } => payload,
            LaxPayloadSlice::Icmpv6 { payload, .. } => payload,
        }
    }
}
