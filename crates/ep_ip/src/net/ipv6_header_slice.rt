//! IPv6 headers as borrowed bytes.

ghost use Rattle.std.specs.Prelude.{◌≡◌, ℕ, List, length, nat_eq};
ghost use Rattle.std.specs.Cmp.Lexicographic.{pointwise};
ghost use Rattle.std.specs.Cmp.Rules.{comparing};
ghost use Rattle.std.specs.Net.Addr.{ipv6_segments, segments_of};
ghost use Rattle.std.proofs.Common.{rules};
ghost use Rattle.ep_ip.specs.Ipv6.{IsIpv6Header, traffic_class_of, flow_label_of, payload_length_of};
ghost use Rattle.ep_ip.specs.Ipv6.{next_header_of, hop_limit_of, source_of, destination_of, ipv6_header_of, dscp_in};
ghost use Rattle.ep_ip.specs.Ipv6.{ecn_in};
ghost use Rattle.ep_ip.specs.Ipv6Fault.{header_at};
ghost use Rattle.ep_ip.specs.Ipv4.{version_of};

use crate::Ipv6Header;
use crate::err::ipv6::{HeaderError, HeaderSliceError};
use ep_base::err::{Layer, LenError};
use ep_base::{IpDscp, IpEcn, IpNumber, Ipv6FlowLabel};
use std::marker::Model;
use std::net::Ipv6Addr;

/// The 40 bytes of an IPv6 header (RFC 8200, section 3), borrowed. They were tested when the value
/// was made, so that getters test nothing. A contract sees the value as those bytes.
#[derive(Clone, Debug, Drop)]
pub struct Ipv6HeaderSlice<'a> {
    slice: &'a [u8],
}

impl<'a> Model for Ipv6HeaderSlice<'a> {
    ghost Value = { List ℕ };

    ghost view = { λ header. header.slice.now };

    ghost invariant = { λ header. IsIpv6Header header.slice.now };
}

#[tactic(auto, using(ep_base::proofs::Bits::masks, crate::proofs::Ipv6Bits::shared_bits))]
impl<'a> Ipv6HeaderSlice<'a> {
    /// The header at the start of the slice. Refused are, in this order, a slice of fewer than 40
    /// bytes and a version other than 6.
    ///
    /// By the law [`headers_are_found`](crate::laws::ipv6::headers_are_found) what is taken is a header
    /// and a prefix of the slice, and a prefix that is a header is taken.
    pub fn from_slice(slice: &'a [u8]) -> Result<Ipv6HeaderSlice<'a>, HeaderSliceError>
        ensures exact { result ≡ header_at slice.now }
    {
        if slice.len() < Ipv6Header::LEN {
            return Err(LenError::too_few_bytes(
                Layer::Ipv6Header,
                Ipv6Header::LEN,
                slice.len(),
            ).into());
        }
        let version_number = slice[0] >> 4;
        if version_number != 6 {
            return Err(HeaderError::UnexpectedVersion { version_number }.into());
        }
        Ok(Ipv6HeaderSlice {
            slice: &slice[..Ipv6Header::LEN],
        })
    }

    /// The header's 40 bytes.
    pub fn slice(&self) -> &'a [u8]
        ensures bytes { result.now ≡ self.now }
        ensures header { IsIpv6Header self.now }
    {
        self.slice
    }

    /// The length of an IPv6 header in bytes.
    pub fn header_len(&self) -> usize
        ensures value { result ≡ 40 }
        ensures len { result ≡ length self.now }
    {
        self.slice.len()
    }

    /// The version, 6.
    pub fn version(&self) -> u8
        ensures value { result ≡ version_of self.now }
        ensures six { result ≡ 6 }
    {
        self.slice[0] >> 4
    }

    /// The traffic class.
    pub fn traffic_class(&self) -> u8
        ensures { result ≡ traffic_class_of self.now }
    {
        (self.slice[0] << 4) | (self.slice[1] >> 4)
    }

    /// The differentiated services code point, the upper 6 bits of the traffic class (RFC 2474,
    /// section 3).
    pub fn dscp(&self) -> IpDscp
        ensures { result ≡ dscp_in (traffic_class_of self.now) }
    {
        IpDscp::try_new(self.traffic_class() >> 2).unwrap()
    }

    /// Explicit congestion notification, the lower 2 bits of the traffic class (RFC 3168, section
    /// 5).
    pub fn ecn(&self) -> IpEcn
        ensures { result ≡ ecn_in (traffic_class_of self.now) }
    {
        IpEcn::try_new(self.traffic_class() & 0b11).unwrap()
    }

    /// The flow label, 20 bits.
    pub fn flow_label(&self) -> Ipv6FlowLabel
        ensures { result ≡ flow_label_of self.now }
    {
        let word = u32::from_be_bytes([self.slice[0], self.slice[1], self.slice[2], self.slice[3]]);
        Ipv6FlowLabel::try_new(word & Ipv6FlowLabel::MAX_U32).unwrap()
    }

    /// How many bytes follow the header: its extension headers and the payload. 0 is also the
    /// value of a jumbo payload.
    pub fn payload_length(&self) -> u16
        ensures { result ≡ payload_length_of self.now }
    {
        u16::from_be_bytes([self.slice[4], self.slice[5]])
    }

    /// The number of the header that follows.
    pub fn next_header(&self) -> IpNumber
        ensures { result.0 ≡ next_header_of self.now }
    {
        IpNumber(self.slice[6])
    }

    /// How many more nodes may forward the packet.
    pub fn hop_limit(&self) -> u8
        ensures { result ≡ hop_limit_of self.now }
    {
        self.slice[7]
    }

    /// The source address.
    pub fn source(&self) -> [u8; 16]
        ensures { result ≡ source_of self.now }
    {
        self.slice[8..24].try_into().unwrap()
    }

    /// The source address, as one of `std::net`.
    pub fn source_addr(&self) -> Ipv6Addr
        ensures { ipv6_segments result ≡ segments_of (source_of self.now) }
    {
        Ipv6Addr::from(self.source())
    }

    /// The destination address.
    pub fn destination(&self) -> [u8; 16]
        ensures { result ≡ destination_of self.now }
    {
        self.slice[24..40].try_into().unwrap()
    }

    /// The destination address, as one of `std::net`.
    pub fn destination_addr(&self) -> Ipv6Addr
        ensures { ipv6_segments result ≡ segments_of (destination_of self.now) }
    {
        Ipv6Addr::from(self.destination())
    }

    /// The fields.
    pub fn to_header(&self) -> Ipv6Header
        ensures { result ≡ ipv6_header_of self.now }
    {
        Ipv6Header {
            traffic_class: self.traffic_class(),
            flow_label: self.flow_label(),
            payload_length: self.payload_length(),
            next_header: self.next_header(),
            hop_limit: self.hop_limit(),
            source: self.source(),
            destination: self.destination(),
        }
    }
}

impl<'a> PartialEq for Ipv6HeaderSlice<'a> {
    ghost eq = { pointwise nat_eq };

    ghost laws = { Prim.search (comparing, rules) };

    fn eq(&self, other: &Self) -> bool {
        self.slice == other.slice
    }
}

impl<'a> Eq for Ipv6HeaderSlice<'a> {
    ghost laws = { Prim.search (comparing, rules) };
}
