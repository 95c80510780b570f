//! Errors of packet builders.

ghost use Rattle.std.specs.Prelude.{◌≡◌};
ghost use Rattle.etherparse.specs.BuildWriteError.{is_icmpv6_in_ipv4, is_memory, ipv4_exts_in, ipv6_exts_in};
ghost use Rattle.etherparse.specs.BuildWriteError.{payload_len_in};

use ep_base::err::ValueTooBigError;
use ep_ext::err::{ipv4_exts, ipv6_exts};
use thiserror::Error;

/// Why a packet is not written.
///
/// A packet builder makes extension headers name one another, so that it answers neither `Ipv4Exts`
/// nor `Ipv6Exts`, and an ARP packet holds addresses of the lengths that it names, so that it
/// doesn't answer `ArpHeaderNotMatch`.
#[derive(Clone, Copy, Debug, PartialEq, Eq, Hash, Error)]
pub enum BuildWriteError {
    /// No memory was left for the packet.
    #[error("no memory left for the packet")]
    Memory,
    /// The payload is longer than the length field of the IP header can hold.
    #[error("{0}")]
    PayloadLen(ValueTooBigError<usize>),
    /// The IPv4 header doesn't lead to the extension header.
    #[error("{0}")]
    Ipv4Exts(ipv4_exts::ExtsWalkError),
    /// The IPv6 header and the extension headers don't lead to all of them.
    #[error("{0}")]
    Ipv6Exts(ipv6_exts::ExtsWalkError),
    /// ICMPv6, whose checksum covers IPv6 addresses, over IPv4.
    #[error("an ICMPv6 message over IPv4, which has no checksum")]
    Icmpv6InIpv4,
    /// The addresses of an ARP packet are not as long as its length fields state.
    #[error("an ARP packet with addresses of other lengths than it says")]
    ArpHeaderNotMatch,
}

impl BuildWriteError {
    /// Whether memory was missing.
    pub fn memory(&self) -> bool
        ensures { result ≡ is_memory self.now }
    {
        matches!(self, BuildWriteError::Memory)
    }

    /// The length that is too great, where it is one.
    pub fn payload_len(&self) -> Option<ValueTooBigError<usize>>
        ensures { result ≡ payload_len_in self.now }
    {
        match self {
            BuildWriteError::PayloadLen(error) => Some(*error),
            _ => None,
        }
    }

    /// The fault of the extension headers over IPv4, where it is one.
    pub fn ipv4_exts(&self) -> Option<ipv4_exts::ExtsWalkError>
        ensures { result ≡ ipv4_exts_in self.now }
    {
        match self {
            BuildWriteError::Ipv4Exts(error) => Some(*error),
            _ => None,
        }
    }

    /// The fault of the extension headers over IPv6, where it is one.
    pub fn ipv6_exts(&self) -> Option<ipv6_exts::ExtsWalkError>
        ensures { result ≡ ipv6_exts_in self.now }
    {
        match self {
            BuildWriteError::Ipv6Exts(error) => Some(*error),
            _ => None,
        }
    }

    /// Whether it is ICMPv6 over IPv4.
    pub fn is_icmpv6_in_ipv4(&self) -> bool
        ensures { result ≡ is_icmpv6_in_ipv4 self.now }
    {
        matches!(self, BuildWriteError::Icmpv6InIpv4)
    }
}
