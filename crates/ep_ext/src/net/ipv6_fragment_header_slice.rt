//! Fragment headers of IPv6 as borrowed bytes.

ghost use Rattle.std.specs.Prelude.{◌≡◌, ℕ, List, ◌++◌, IfOk, IfErr, Ok, Err, nat_eq};
ghost use Rattle.std.specs.Cmp.Lexicographic.{pointwise};
ghost use Rattle.std.specs.Cmp.Rules.{comparing};
ghost use Rattle.std.proofs.Common.{rules};
ghost use Rattle.ep_ext.specs.Fragment.{IsFragment, fragment_header_of, fragment_at, fragments};

use super::Ipv6FragmentHeader;
use ep_base::err::{Layer, LenError};
use ep_base::{IpFragOffset, IpNumber};
use std::marker::Model;

/// The 8 bytes of a fragment header (RFC 8200, section 4.5), borrowed. They were tested when the
/// value was made, so that getters test nothing. A contract sees the value as those bytes.
#[derive(Clone, Debug, Drop)]
pub struct Ipv6FragmentHeaderSlice<'a> {
    slice: &'a [u8],
}

impl<'a> Model for Ipv6FragmentHeaderSlice<'a> {
    ghost Value = { List ℕ };

    ghost view = { λ header. header.slice.now };

    ghost invariant = { λ header. IsFragment header.slice.now };
}

impl<'a> Ipv6FragmentHeaderSlice<'a> {
    /// The header at the start of the slice. A slice of fewer than 8 bytes is refused, with the
    /// layer `Ipv6FragHeader`.
    ///
    /// By the law [`headers_are_found`](crate::laws::headers::headers_are_found) what is taken is a
    /// header and a prefix of the slice, and a prefix that is a header is taken.
    pub fn from_slice(slice: &'a [u8]) -> Result<Ipv6FragmentHeaderSlice<'a>, LenError>
        ensures exact { result ≡ fragment_at slice.now }
    {
        match Self::split(slice) {
            Ok((header, _rest)) => Ok(header),
            Err(error) => Err(error),
        }
    }

    // The header at the start of the slice, and what follows it.
    pub(crate) fn split(
        slice: &'a [u8],
    ) -> Result<(Ipv6FragmentHeaderSlice<'a>, &'a [u8]), LenError>
        ensures found { IfOk result (λ r. IsFragment r.0 × (slice.now ≡ r.0 ++ r.1.now)) }
        ensures err { IfErr result (λ e. fragment_at slice.now ≡ Err e) }
    {
        if slice.len() < Ipv6FragmentHeader::LEN {
            return Err(LenError::too_few_bytes(
                Layer::Ipv6FragHeader,
                Ipv6FragmentHeader::LEN,
                slice.len(),
            ));
        }
        let (prefix, rest) = slice.split_at(Ipv6FragmentHeader::LEN);
        Ok((Self::of_bytes(prefix), rest))
    }

    /// The header that these bytes are, for a caller who has tested them: nothing is tested again.
    pub fn of_bytes(header: &'a [u8]) -> Self
        requires { IsFragment header.now }
        ensures { result ≡ header.now }
    {
        Ipv6FragmentHeaderSlice { slice: header }
    }

    /// The header's 8 bytes.
    pub fn slice(&self) -> &'a [u8]
        ensures bytes { result.now ≡ self.now }
        ensures header { IsFragment self.now }
    {
        self.slice
    }

    /// The number of the header that follows.
    pub fn next_header(&self) -> IpNumber
        ensures { result ≡ (fragment_header_of self.now).next_header }
    {
        IpNumber(self.slice[0])
    }

    /// The offset of the payload in the datagram's payload, in units of 8 bytes.
    pub fn fragment_offset(&self) -> IpFragOffset
        ensures { result ≡ (fragment_header_of self.now).fragment_offset }
    {
        let offset_and_more = u16::from_be_bytes([self.slice[2], self.slice[3]]);
        IpFragOffset::try_new(offset_and_more >> 3).unwrap()
    }

    /// Whether more fragments follow this one.
    pub fn more_fragments(&self) -> bool
        ensures { result ≡ (fragment_header_of self.now).more_fragments }
    {
        self.slice[3] & 1 != 0
    }

    /// The identification that the fragments of one datagram share.
    pub fn identification(&self) -> u32
        ensures { result ≡ (fragment_header_of self.now).identification }
    {
        u32::from_be_bytes([self.slice[4], self.slice[5], self.slice[6], self.slice[7]])
    }

    /// Whether there are other fragments: more follow this one, or its offset isn't 0.
    pub fn is_fragmenting_payload(&self) -> bool
        ensures { result ≡ fragments (fragment_header_of self.now) }
    {
        self.more_fragments() || self.fragment_offset() != IpFragOffset::ZERO
    }

    /// The fields.
    pub fn to_header(&self) -> Ipv6FragmentHeader
        ensures { result ≡ fragment_header_of self.now }
    {
        Ipv6FragmentHeader {
            next_header: self.next_header(),
            fragment_offset: self.fragment_offset(),
            more_fragments: self.more_fragments(),
            identification: self.identification(),
        }
    }
}

impl<'a> PartialEq for Ipv6FragmentHeaderSlice<'a> {
    ghost eq = { pointwise nat_eq };

    ghost laws = { Prim.search (comparing, rules) };

    fn eq(&self, other: &Self) -> bool {
        self.slice == other.slice
    }
}

impl<'a> Eq for Ipv6FragmentHeaderSlice<'a> {
    ghost laws = { Prim.search (comparing, rules) };
}
