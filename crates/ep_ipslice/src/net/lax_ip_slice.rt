//! An IP packet of either version, as far as it is there.

ghost use Rattle.std.specs.Prelude.{◌≡◌};
ghost use Rattle.std.specs.Option.{option_map};
ghost use Rattle.ep_ipslice.specs.declared.net.lax_ip_slice.LaxIpSlice.TheVariants as view;
ghost use Rattle.ep_ipslice.specs.Compared.{lax_value};
ghost use Rattle.ep_ipslice.specs.IpSlice.{IsAddress};
ghost use Rattle.ep_ipslice.specs.LaxIp.{auth_stop, lax_destination_of, lax_ip_packet_at, lax_ipv4_in, lax_ipv6_in};
ghost use Rattle.ep_ipslice.specs.LaxIp.{lax_payload_of, lax_source_of, row_stop};

use super::{LaxIpPayloadSlice, LaxIpv4Slice, LaxIpv6Slice};
use crate::err::ip::{HeaderError, LaxHeaderSliceError};
use ep_base::IpNumber;
use ep_base::err::{Layer, LenError};
use ep_ext::err::{ip_auth, ip_exts, ipv6_exts};
use std::net::{IpAddr, Ipv4Addr, Ipv6Addr};

/// An IP packet of either version (RFC 791; RFC 8200), as far as it is there, borrowed.
#[derive(Clone, Debug, PartialEq, Eq, Drop)]
pub enum LaxIpSlice<'a> {
    /// An IPv4 packet.
    Ipv4(LaxIpv4Slice<'a>),
    /// An IPv6 packet.
    Ipv6(LaxIpv6Slice<'a>),
}

impl<'a> LaxIpSlice<'a> {
    /// The packet at the start of the slice, of the version in the upper half of its first byte, and
    /// what stopped it, with the layer in which it is: a fault of an extension header, as
    /// [`LaxIpv4Slice::from_slice`] and [`LaxIpv6Slice::from_slice`] return it.
    ///
    /// Refused are, in this order, a slice of no bytes, a version that is neither 4 nor 6, and what
    /// these two calls refuse.
    pub fn from_slice(
        slice: &'a [u8],
    ) -> Result<(LaxIpSlice<'a>, Option<(ip_exts::HeadersSliceError, Layer)>), LaxHeaderSliceError>
        ensures exact { result ≡ lax_ip_packet_at slice.now }
    {
        if slice.is_empty() {
            return Err(LaxHeaderSliceError::Len(LenError::too_few_bytes(Layer::IpHeader, 1, 0)));
        }
        let version_number = slice[0] >> 4;
        if version_number == 4 {
            return match LaxIpv4Slice::from_slice(slice) {
                Ok((packet, fault)) => Ok((LaxIpSlice::Ipv4(packet), Self::stop_of_ipv4(fault))),
                Err(error) => Err(HeaderError::of_ipv4_slice(error)),
            };
        }
        if version_number == 6 {
            return match LaxIpv6Slice::from_slice(slice) {
                Ok((packet, fault)) => Ok((LaxIpSlice::Ipv6(packet), Self::stop_of_ipv6(fault))),
                Err(error) => Err(HeaderError::of_ipv6_slice(error)),
            };
        }
        Err(LaxHeaderSliceError::Content(HeaderError::UnsupportedIpVersion { version_number }))
    }

    /// What stopped an IPv4 packet, as a fault of either version.
    pub fn stop_of_ipv4(
        fault: Option<ip_auth::HeaderSliceError>,
    ) -> Option<(ip_exts::HeadersSliceError, Layer)>
        ensures { result ≡ option_map auth_stop fault }
    {
        let error = match fault {
            Some(ip_auth::HeaderSliceError::Len(error)) => ip_exts::HeadersSliceError::Len(error),
            Some(ip_auth::HeaderSliceError::Content(error)) => {
                ip_exts::HeadersSliceError::Content(ip_exts::HeaderError::Ipv4Ext(error))
            }
            None => return None,
        };
        Some((error, Layer::IpAuthHeader))
    }

    /// What stopped an IPv6 packet, as a fault of either version.
    pub fn stop_of_ipv6(
        fault: Option<(ipv6_exts::HeaderSliceError, Layer)>,
    ) -> Option<(ip_exts::HeadersSliceError, Layer)>
        ensures { result ≡ option_map row_stop fault }
    {
        match fault {
            Some((ipv6_exts::HeaderSliceError::Len(error), layer)) => {
                Some((ip_exts::HeadersSliceError::Len(error), layer))
            }
            Some((ipv6_exts::HeaderSliceError::Content(error), layer)) => {
                let error = ip_exts::HeaderError::Ipv6Ext(error);
                Some((ip_exts::HeadersSliceError::Content(error), layer))
            }
            None => None,
        }
    }

    /// The IPv4 packet, if it is one.
    pub fn ipv4(&self) -> Option<&LaxIpv4Slice<'a>>
        ensures { option_map (λ packet. packet.now) result ≡ lax_ipv4_in self.now }
    {
        match self {
            LaxIpSlice::Ipv4(packet) => Some(packet),
            LaxIpSlice::Ipv6(_) => None,
        }
    }

    /// The IPv6 packet, if it is one.
    pub fn ipv6(&self) -> Option<&LaxIpv6Slice<'a>>
        ensures { option_map (λ packet. packet.now) result ≡ lax_ipv6_in self.now }
    {
        match self {
            LaxIpSlice::Ipv4(_) => None,
            LaxIpSlice::Ipv6(packet) => Some(packet),
        }
    }

    /// Whether the payload is a fragment.
    pub fn is_fragmenting_payload(&self) -> bool
        ensures { result ≡ (lax_payload_of self.now).1.fragmented }
    {
        match self {
            LaxIpSlice::Ipv4(packet) => packet.is_payload_fragmented(),
            LaxIpSlice::Ipv6(packet) => packet.is_payload_fragmented(),
        }
    }

    /// The source address.
    pub fn source_addr(&self) -> IpAddr
        ensures { IsAddress (lax_source_of self.now) result }
    {
        match self {
            LaxIpSlice::Ipv4(packet) => IpAddr::V4(Ipv4Addr::from(packet.header().source())),
            LaxIpSlice::Ipv6(packet) => IpAddr::V6(Ipv6Addr::from(packet.header().source())),
        }
    }

    /// The destination address.
    pub fn destination_addr(&self) -> IpAddr
        ensures { IsAddress (lax_destination_of self.now) result }
    {
        match self {
            LaxIpSlice::Ipv4(packet) => IpAddr::V4(Ipv4Addr::from(packet.header().destination())),
            LaxIpSlice::Ipv6(packet) => IpAddr::V6(Ipv6Addr::from(packet.header().destination())),
        }
    }

    /// The payload, with whether bytes of it are missing.
    pub fn payload(&self) -> &LaxIpPayloadSlice<'a>
        ensures { lax_value result.now ≡ lax_payload_of self.now }
    {
        match self {
            LaxIpSlice::Ipv4(packet) => packet.payload(),
            LaxIpSlice::Ipv6(packet) => packet.payload(),
        }
    }

    /// The number of what the payload starts with: that of its protocol, or of the extension header
    /// that has a fault.
    pub fn payload_ip_number(&self) -> IpNumber
        ensures { result ≡ (lax_payload_of self.now).1.ip_number }
    {
        match self {
            LaxIpSlice::Ipv4(packet) => packet.payload_ip_number(),
            LaxIpSlice::Ipv6(packet) => packet.payload_ip_number(),
        }
    }
}

impl<'a> From<LaxIpv4Slice<'a>> for LaxIpSlice<'a> {
    ghost from_gives = { λ packet ip. ip ≡ view.Ipv4 packet };

    fn from(packet: LaxIpv4Slice<'a>) -> Self {
        LaxIpSlice::Ipv4(packet)
    }
}

impl<'a> From<LaxIpv6Slice<'a>> for LaxIpSlice<'a> {
    ghost from_gives = { λ packet ip. ip ≡ view.Ipv6 packet };

    fn from(packet: LaxIpv6Slice<'a>) -> Self {
        LaxIpSlice::Ipv6(packet)
    }
}
