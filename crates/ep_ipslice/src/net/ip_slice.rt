//! An IP packet of either version.

ghost use Rattle.std.specs.Prelude.{◌≡◌, Ok};
ghost use Rattle.std.specs.Option.{option_map};
ghost use Rattle.ep_ipslice.specs.declared.net.ip_slice.IpSlice.{IpSlice};
ghost use Rattle.ep_ipslice.specs.declared.net.ip_slice.IpSlice.TheVariants as view;
ghost use Rattle.ep_ipslice.specs.IpSlice.{IsAddress, destination_of, fragmented_of};
ghost use Rattle.ep_ipslice.specs.IpSlice.{ip_packet_at, ipv4_of, ipv6_of, payload_of, source_of};

use super::{IpPayloadSlice, Ipv4Slice, Ipv6Slice};
use crate::err::ip::{HeaderError, HeadersError, SliceError};
use ep_base::IpNumber;
use ep_base::err::{Layer, LenError};
use std::net::{IpAddr, Ipv4Addr, Ipv6Addr};

/// An IP packet of either version (RFC 791; RFC 8200), borrowed.
#[derive(Clone, Debug, PartialEq, Eq, Drop)]
pub enum IpSlice<'a> {
    /// An IPv4 packet.
    Ipv4(Ipv4Slice<'a>),
    /// An IPv6 packet.
    Ipv6(Ipv6Slice<'a>),
}

impl<'a> IpSlice<'a> {
    /// The packet at the start of the slice, of the version in the upper half of its first byte.
    /// Refused are, in this order, a slice of no bytes, a version that is neither 4 nor 6, and what
    /// [`Ipv4Slice::from_slice`] or [`Ipv6Slice::from_slice`] refuses.
    ///
    /// By the law [`packets_are_their_parts`](crate::laws::packets_are_their_parts) what is taken is
    /// a packet that the slice begins with, and such a packet is taken; by
    /// [`faults_found_are_first`](crate::laws::faults_found_are_first) an error is the first fault.
    pub fn from_slice(slice: &'a [u8]) -> Result<IpSlice<'a>, SliceError>
        ensures exact { result ≡ ip_packet_at slice.now }
    {
        if slice.is_empty() {
            return Err(SliceError::Len(LenError::too_few_bytes(Layer::IpHeader, 1, 0)));
        }
        let version_number = slice[0] >> 4;
        if version_number == 4 {
            return match Ipv4Slice::from_slice(slice) {
                Ok(packet) => Ok(IpSlice::Ipv4(packet)),
                Err(error) => Err(SliceError::of_ipv4(error)),
            };
        }
        if version_number == 6 {
            return match Ipv6Slice::from_slice(slice) {
                Ok(packet) => Ok(IpSlice::Ipv6(packet)),
                Err(error) => Err(SliceError::of_ipv6(error)),
            };
        }
        Err(SliceError::IpHeaders(HeadersError::Ip(HeaderError::UnsupportedIpVersion {
            version_number,
        })))
    }

    /// The IPv4 packet, if it is one.
    pub fn ipv4(&self) -> Option<&Ipv4Slice<'a>>
        ensures { option_map (λ packet. packet.now) result ≡ ipv4_of self.now }
    {
        match self {
            IpSlice::Ipv4(packet) => Some(packet),
            IpSlice::Ipv6(_) => None,
        }
    }

    /// The IPv6 packet, if it is one.
    pub fn ipv6(&self) -> Option<&Ipv6Slice<'a>>
        ensures { option_map (λ packet. packet.now) result ≡ ipv6_of self.now }
    {
        match self {
            IpSlice::Ipv4(_) => None,
            IpSlice::Ipv6(packet) => Some(packet),
        }
    }

    /// Whether the payload is a fragment.
    pub fn is_fragmenting_payload(&self) -> bool
        ensures { result ≡ fragmented_of self.now }
    {
        match self {
            IpSlice::Ipv4(packet) => packet.is_payload_fragmented(),
            IpSlice::Ipv6(packet) => packet.is_payload_fragmented(),
        }
    }

    /// The source address.
    pub fn source_addr(&self) -> IpAddr
        ensures { IsAddress (source_of self.now) result }
    {
        match self {
            IpSlice::Ipv4(packet) => IpAddr::V4(Ipv4Addr::from(packet.header().source())),
            IpSlice::Ipv6(packet) => IpAddr::V6(Ipv6Addr::from(packet.header().source())),
        }
    }

    /// The destination address.
    pub fn destination_addr(&self) -> IpAddr
        ensures { IsAddress (destination_of self.now) result }
    {
        match self {
            IpSlice::Ipv4(packet) => IpAddr::V4(Ipv4Addr::from(packet.header().destination())),
            IpSlice::Ipv6(packet) => IpAddr::V6(Ipv6Addr::from(packet.header().destination())),
        }
    }

    /// The payload.
    pub fn payload(&self) -> &IpPayloadSlice<'a>
        ensures { result.now ≡ payload_of self.now }
    {
        match self {
            IpSlice::Ipv4(packet) => packet.payload(),
            IpSlice::Ipv6(packet) => packet.payload(),
        }
    }

    /// The number of the protocol that the payload starts with, after the extension headers.
    pub fn payload_ip_number(&self) -> IpNumber
        ensures { result ≡ (payload_of self.now).ip_number }
    {
        match self {
            IpSlice::Ipv4(packet) => packet.payload_ip_number(),
            IpSlice::Ipv6(packet) => packet.payload_ip_number(),
        }
    }
}

impl<'a> From<Ipv4Slice<'a>> for IpSlice<'a> {
    ghost from_gives = { λ packet ip. ip ≡ view.Ipv4 packet };

    fn from(packet: Ipv4Slice<'a>) -> Self {
        IpSlice::Ipv4(packet)
    }
}

impl<'a> From<Ipv6Slice<'a>> for IpSlice<'a> {
    ghost from_gives = { λ packet ip. ip ≡ view.Ipv6 packet };

    fn from(packet: Ipv6Slice<'a>) -> Self {
        IpSlice::Ipv6(packet)
    }
}
