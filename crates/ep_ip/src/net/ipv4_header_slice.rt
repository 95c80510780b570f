//! IPv4 headers as borrowed bytes.

ghost use Rattle.std.specs.Prelude.{◌≡◌, ℕ, ◌+◌, ◌*◌, List, length, Ok, nat_eq};
ghost use Rattle.std.specs.Cmp.Lexicographic.{pointwise};
ghost use Rattle.std.specs.Cmp.Rules.{comparing};
ghost use Rattle.std.specs.Net.Addr.{ipv4_octets};
ghost use Rattle.std.proofs.Common.{rules};
ghost use Rattle.ep_ip.specs.Ipv4.{IsIpv4Header, version_of, ihl_of, dscp_of, ecn_of, total_len_of, identification_of};
ghost use Rattle.ep_ip.specs.Ipv4.{dont_fragment_of, more_fragments_of, fragment_offset_of, time_to_live_of};
ghost use Rattle.ep_ip.specs.Ipv4.{protocol_of, header_checksum_of, source_of, destination_of, options_of};
ghost use Rattle.ep_ip.specs.Ipv4.{ipv4_header_of, header_len, ihl, is_fragment};
ghost use Rattle.ep_ip.specs.Ipv4Fault.{header_at, IsPayloadLen};
ghost use Rattle.ep_ip.specs.Ipv4Options.{IsIpv4Options};

use super::payload_len::payload_len_of;
use crate::err::ipv4::{HeaderError, HeaderSliceError};
use crate::{Ipv4Header, Ipv4Options};
use ep_base::err::{Layer, LenError};
use ep_base::{IpDscp, IpEcn, IpFragOffset, IpNumber, LenSource};
use std::marker::Model;
use std::net::Ipv4Addr;

/// The bytes of an IPv4 header (RFC 791, section 3.1), borrowed. A contract sees them as a list,
/// which is a header: version, length field and length were tested when the value was made.
///
/// Neither the header checksum nor the total length is tested.
#[derive(Clone, Debug, Drop)]
pub struct Ipv4HeaderSlice<'a> {
    slice: &'a [u8],
}

impl<'a> Model for Ipv4HeaderSlice<'a> {
    ghost Value = { List ℕ };

    ghost view = { λ header. header.slice.now };

    ghost invariant = { λ header. IsIpv4Header header.slice.now };
}

#[tactic(auto, using(ep_base::proofs::Bits::masks))]
impl<'a> Ipv4HeaderSlice<'a> {
    /// The header at the start of the slice. It ignores what follows.
    ///
    /// Tested in this order: 20 bytes are there (`Len`), the version is 4 (`UnexpectedVersion`),
    /// the length field is at least 5 (`HeaderLengthSmallerThanHeader`), and as many words of
    /// 4 bytes are there as it says (`Len`).
    ///
    /// By the law [`headers_are_found`](crate::laws::ipv4::headers_are_found) what is taken is a header
    /// and a prefix of the slice, and a prefix that is a header is taken.
    pub fn from_slice(slice: &'a [u8]) -> Result<Ipv4HeaderSlice<'a>, HeaderSliceError>
        ensures exact { result ≡ header_at slice.now }
    {
        if slice.len() < 20 {
            return Err(LenError::too_few_bytes(Layer::Ipv4Header, 20, slice.len()).into());
        }
        let version_number = slice[0] >> 4;
        if version_number != 4 {
            return Err(HeaderError::UnexpectedVersion { version_number }.into());
        }
        let ihl = slice[0] & 0xf;
        if ihl < 5 {
            return Err(HeaderError::HeaderLengthSmallerThanHeader { ihl }.into());
        }
        let header_len = 4 * usize::from(ihl);
        if slice.len() < header_len {
            return Err(LenError::too_few_bytes(Layer::Ipv4Header, header_len, slice.len()).into());
        }
        Ok(Ipv4HeaderSlice {
            slice: &slice[..header_len],
        })
    }

    /// The bytes of the header, options included.
    pub fn slice(&self) -> &'a [u8]
        ensures bytes { result.now ≡ self.now }
        ensures header { IsIpv4Header self.now }
    {
        self.slice
    }

    /// The version, which is 4.
    pub fn version(&self) -> u8
        ensures value { result ≡ version_of self.now }
        ensures four { result ≡ 4 }
    {
        self.slice[0] >> 4
    }

    /// The header's length in words of 4 bytes, from 5 to 15.
    pub fn ihl(&self) -> u8
        ensures value { result ≡ ihl_of self.now }
        ensures header { IsIpv4Header self.now }
    {
        self.slice[0] & 0xf
    }

    /// The differentiated services code point, the upper 6 bits of the type of service (RFC 2474,
    /// section 3).
    pub fn dcp(&self) -> IpDscp
        ensures { result ≡ dscp_of self.now }
    {
        IpDscp::try_new(self.slice[1] >> 2).unwrap()
    }

    /// Explicit congestion notification, the lower 2 bits of the type of service (RFC 3168,
    /// section 5).
    pub fn ecn(&self) -> IpEcn
        ensures { result ≡ ecn_of self.now }
    {
        IpEcn::try_new(self.slice[1] & 0b11).unwrap()
    }

    /// The length of header and payload in bytes, as the header states it.
    pub fn total_len(&self) -> u16
        ensures { result ≡ total_len_of self.now }
    {
        u16::from_be_bytes([self.slice[2], self.slice[3]])
    }

    /// The length of the payload in bytes: what the total length leaves after the header.
    ///
    /// A total length below the header's own is a `LenError` of the layer `Ipv4Packet` with the
    /// source `Ipv4HeaderTotalLen`.
    pub fn payload_len(&self) -> Result<u16, LenError>
        ensures exact { IsPayloadLen (4 * ihl_of self.now) (total_len_of self.now) result }
        ensures only { (n : ℕ) → 4 * ihl_of self.now + n ≡ total_len_of self.now → result ≡ Ok n }
    {
        payload_len_of(self.slice.len() as u16, self.total_len())
    }

    /// The identification that the fragments of one datagram share.
    pub fn identification(&self) -> u16
        ensures { result ≡ identification_of self.now }
    {
        u16::from_be_bytes([self.slice[4], self.slice[5]])
    }

    /// Whether the packet may not be fragmented.
    pub fn dont_fragment(&self) -> bool
        ensures { result ≡ dont_fragment_of self.now }
    {
        self.slice[6] & 0x40 != 0
    }

    /// Whether more fragments follow this one.
    pub fn more_fragments(&self) -> bool
        ensures { result ≡ more_fragments_of self.now }
    {
        self.slice[6] & 0x20 != 0
    }

    /// The offset of the payload in the datagram's payload, in units of 8 bytes.
    pub fn fragments_offset(&self) -> IpFragOffset
        ensures { result ≡ fragment_offset_of self.now }
    {
        let flags_and_offset = u16::from_be_bytes([self.slice[6], self.slice[7]]);
        IpFragOffset::try_new(flags_and_offset & 0x1fff).unwrap()
    }

    /// Whether the packet is a fragment: more fragments follow, or the offset is not 0.
    pub fn is_fragmenting_payload(&self) -> bool
        ensures { result ≡ is_fragment self.now }
    {
        self.more_fragments() || self.fragments_offset().value() > 0
    }

    /// The time to live, in hops.
    pub fn ttl(&self) -> u8
        ensures { result ≡ time_to_live_of self.now }
    {
        self.slice[8]
    }

    /// The number of the protocol that the payload begins with.
    pub fn protocol(&self) -> IpNumber
        ensures { result.0 ≡ protocol_of self.now }
    {
        IpNumber(self.slice[9])
    }

    /// The header checksum, as the field holds it.
    pub fn header_checksum(&self) -> u16
        ensures { result ≡ header_checksum_of self.now }
    {
        u16::from_be_bytes([self.slice[10], self.slice[11]])
    }

    /// The source address.
    pub fn source(&self) -> [u8; 4]
        ensures { result ≡ source_of self.now }
    {
        [
            self.slice[12],
            self.slice[13],
            self.slice[14],
            self.slice[15],
        ]
    }

    /// The source address, as one of `std::net`.
    pub fn source_addr(&self) -> Ipv4Addr
        ensures { ipv4_octets result ≡ source_of self.now }
    {
        Ipv4Addr::from(self.source())
    }

    /// The destination address.
    pub fn destination(&self) -> [u8; 4]
        ensures { result ≡ destination_of self.now }
    {
        [
            self.slice[16],
            self.slice[17],
            self.slice[18],
            self.slice[19],
        ]
    }

    /// The destination address, as one of `std::net`.
    pub fn destination_addr(&self) -> Ipv4Addr
        ensures { ipv4_octets result ≡ destination_of self.now }
    {
        Ipv4Addr::from(self.destination())
    }

    /// The options: what follows the first 20 bytes.
    pub fn options(&self) -> &'a [u8]
        ensures bytes { result.now ≡ options_of self.now }
        ensures options { IsIpv4Options result.now }
    {
        &self.slice[20..]
    }

    /// The fields. The reserved bit is dropped.
    pub fn to_header(&self) -> Ipv4Header
        ensures fields { result ≡ ipv4_header_of self.now }
        ensures ihl { ihl result ≡ ihl_of self.now }
        ensures len { header_len result ≡ length self.now }
    {
        // For the proof alone: that the bytes are a header.
        let _header = &self.slice;
        let options = Ipv4Options::from_words(self.options());
        Ipv4Header {
            dscp: self.dcp(),
            ecn: self.ecn(),
            total_len: self.total_len(),
            identification: self.identification(),
            dont_fragment: self.dont_fragment(),
            more_fragments: self.more_fragments(),
            fragment_offset: self.fragments_offset(),
            time_to_live: self.ttl(),
            protocol: self.protocol(),
            header_checksum: self.header_checksum(),
            source: self.source(),
            destination: self.destination(),
            options,
        }
    }
}

impl<'a> PartialEq for Ipv4HeaderSlice<'a> {
    ghost eq = { pointwise nat_eq };

    ghost laws = { Prim.search (comparing, rules) };

    fn eq(&self, other: &Self) -> bool {
        self.slice == other.slice
    }
}

impl<'a> Eq for Ipv4HeaderSlice<'a> {
    ghost laws = { Prim.search (comparing, rules) };
}
