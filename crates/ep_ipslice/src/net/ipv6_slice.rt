//! The IPv6 packet.

ghost use Rattle.std.specs.Prelude.{◌≡◌, ℕ, List, ◌++◌, IfOk, IfErr, IsOkAnd, Ok, ◌&&◌, nat_eq};
ghost use Rattle.std.specs.Cmp.Lexicographic.{pointwise};
ghost use Rattle.std.specs.Cmp.Rules.{comparing};
ghost use Rattle.std.specs.Ordering.{on};
ghost use Rattle.std.proofs.Common.{rules};
ghost use Rattle.ep_base.specs.declared.len_source.LenSource.{LenSource};
ghost use Rattle.ep_ip.specs.Ipv6.{IsIpv6Header};
ghost use Rattle.ep_ip.specs.Ipv6Fault.{header_at};
ghost use Rattle.ep_ipslice.specs.Compared.{compared_as, ordered_as};
ghost use Rattle.ep_ipslice.specs.Packet.{Ipv6Packet, IsIpv6Body, IsWholeIpv6, body_len, body_source};
ghost use Rattle.ep_ipslice.specs.Ipv6Fault.{IsCutOff, IsPrefixFault};
ghost use Rattle.ep_ipslice.specs.Ipv6Packet.{body_of, ipv6_packet_at};
ghost use Rattle.ep_ipslice.specs.LaxPackets.{is_ipv6_cut, lax_ipv6_source};

use super::body::bytes_within;
use super::{IpPayloadSlice, Ipv6ExtensionsSlice};
use crate::err::ipv6::SliceError;
use ep_base::err::{Layer, LenError};
use ep_base::{IpNumber, LenSource};
use ep_ext::laws;
use ep_ip::{Ipv6Header, Ipv6HeaderSlice};
use std::marker::Model;

/// An IPv6 packet (RFC 8200, section 3): its header, the extension headers after it and the
/// payload, borrowed.
///
/// Where the payload length is 0 and bytes follow the header, the packet takes all of them (RFC
/// 2675, section 3: the length is in a jumbo payload option, which isn't read). Else the bytes
/// after the payload length don't belong to it.
#[derive(Clone, Debug, Drop)]
pub struct Ipv6Slice<'a> {
    header: Ipv6HeaderSlice<'a>,
    exts: Ipv6ExtensionsSlice<'a>,
    payload: IpPayloadSlice<'a>,
}

impl<'a> Model for Ipv6Slice<'a> {
    ghost Value = { Ipv6Packet };

    ghost view = { λ p. record { header = p.header; exts = p.exts; payload = p.payload } };

    ghost invariant = { λ p. IsWholeIpv6
        (record { header = p.header; exts = p.exts; payload = p.payload }) };
}

impl<'a> Ipv6Slice<'a> {
    /// The packet at the start of the slice. Refused are, in this order, what
    /// [`Ipv6HeaderSlice::from_slice`] refuses, a payload length above the bytes that are there,
    /// and the first extension header that isn't whole within that length, breaks its format or is
    /// out of order.
    ///
    /// By the law [`packets_are_their_parts`](crate::laws::packets_are_their_parts) what is taken is
    /// a packet that the slice begins with, and such a packet is taken; by
    /// [`faults_found_are_first`](crate::laws::faults_found_are_first) an error is the first fault.
    #[inline(always)]
    pub fn from_slice(slice: &'a [u8]) -> Result<Ipv6Slice<'a>, SliceError>
        ensures exact { result ≡ ipv6_packet_at slice.now }
    {
        laws::whole_header_is_found();
        let (header, len_source, body) = match Self::header_and_body(slice) {
            Ok(parts) => parts,
            Err(error) => return Err(error),
        };
        match Ipv6ExtensionsSlice::from_slice(header.next_header(), body) {
            Ok((exts, ip_number, payload)) => {
                let fragmented = exts.is_fragmenting_payload();
                Ok(Ipv6Slice {
                    header,
                    exts,
                    payload: IpPayloadSlice {
                        ip_number,
                        fragmented,
                        len_source,
                        payload,
                    },
                })
            }
            Err(error) => Err(SliceError::of_extensions(error, len_source)),
        }
    }

    /// The header at the start of the slice, and the bytes after it that are extension headers and
    /// payload, with what their length came from. Refused are, in this order, what
    /// [`Ipv6HeaderSlice::from_slice`] refuses, and a payload length above the bytes that are
    /// there.
    pub fn header_and_body(
        slice: &'a [u8],
    ) -> Result<(Ipv6HeaderSlice<'a>, LenSource, &'a [u8]), SliceError>
        // The slice begins with what is taken.
        ensures found { IfOk result (λ r. IsIpv6Body slice.now r.0 r.1 r.2.now) }
        ensures header { IfOk result (λ r. header_at slice.now ≡ Ok r.0) }
        // A header and a body that the slice begins with are taken.
        ensures only { (header body : List ℕ) (source : LenSource)
            → IsIpv6Body slice.now header source body
            → IsOkAnd result (λ r. (r.0 ≡ header) × (r.1 ≡ source) × (r.2.now ≡ body)) }
        // Else it is the first fault.
        ensures refused { IfErr result (λ e. IsPrefixFault slice.now e) }
    {
        match Ipv6HeaderSlice::from_slice(slice) {
            Ok(header) => Self::body_after(header, slice),
            Err(error) => Err(SliceError::of_header(error)),
        }
    }

    // This header, with which the slice starts, and the body that its payload length bounds.
    fn body_after(
        header: Ipv6HeaderSlice<'a>,
        slice: &'a [u8],
    ) -> Result<(Ipv6HeaderSlice<'a>, LenSource, &'a [u8]), SliceError>
        requires { (rest : List ℕ) × (slice.now ≡ header ++ rest) }
        ensures found { IfOk result (λ r. (r.0 ≡ header.entry)
            × IsIpv6Body slice.now header.entry r.1 r.2.now) }
        ensures refused { IfErr result (λ e. IsCutOff slice.now header.entry e) }
    {
        let (body, len_source, incomplete) = body_of(&header, slice);
        if incomplete {
            return Err(SliceError::Len(LenError::too_few_bytes(
                Layer::Ipv6Packet,
                Ipv6Header::LEN + usize::from(header.payload_length()),
                slice.len(),
            )));
        }
        Ok((header, len_source, body))
    }

    /// The header.
    pub fn header(&self) -> &Ipv6HeaderSlice<'a>
        ensures { result.now ≡ self.now.header }
    {
        &self.header
    }

    /// The extension headers. They are a row from the number that the header names to the
    /// payload's, as in every packet.
    pub fn extensions(&self) -> &Ipv6ExtensionsSlice<'a>
        ensures value { result.now ≡ self.now.exts }
        ensures whole { IsWholeIpv6 self.now }
    {
        &self.exts
    }

    /// The payload.
    pub fn payload(&self) -> &IpPayloadSlice<'a>
        ensures { result.now ≡ self.now.payload }
    {
        &self.payload
    }

    /// The number of the protocol that the payload starts with, after the extension headers.
    pub fn payload_ip_number(&self) -> IpNumber
        ensures { result ≡ self.now.payload.ip_number }
    {
        self.payload.ip_number
    }

    /// Whether the payload is a fragment: one of the extension headers is the fragment header of
    /// one.
    pub fn is_payload_fragmented(&self) -> bool
        ensures { result ≡ self.now.payload.fragmented }
    {
        self.payload.fragmented
    }
}

impl<'a> PartialEq for Ipv6Slice<'a> {
    ghost eq = { λ a b. on (λ p. p.header) (pointwise nat_eq) a b
        && on (λ p. compared_as p.exts) (pointwise nat_eq) a b
        && on (λ p. ordered_as p.payload) (pointwise nat_eq) a b };

    ghost laws = { Prim.search (comparing, rules) depth 9 };

    fn eq(&self, other: &Self) -> bool {
        self.header == other.header && self.exts == other.exts && self.payload == other.payload
    }
}

impl<'a> Eq for Ipv6Slice<'a> {
    ghost laws = { Prim.search (comparing, rules) };
}

// The bytes of the packet after this header, with which the slice starts, as far as they are there;
// what their number came from; and whether some are missing.
#[inline(always)]
pub(super) fn body_of<'a>(
    header: &Ipv6HeaderSlice<'_>,
    slice: &'a [u8],
) -> (&'a [u8], LenSource, bool)
    requires { (rest : List ℕ) × (slice.now ≡ header.now ++ rest) }
    ensures bytes { result.0.now ≡ body_of slice.now header.now }
    ensures source { result.1 ≡ lax_ipv6_source slice.now header.now }
    ensures incomplete { result.2 ≡ is_ipv6_cut slice.now header.now }
    // As every caller knows of the header.
    ensures whole { IsIpv6Header header.now }
{
    // The header with which the slice starts has 40 bytes.
    let header_len = header.slice().len();
    let (_, following) = slice.split_at(header_len);
    let (field, body_len) = body(header, following.len());
    bytes_within(following, body_len, field)
}

// How many bytes of those after the header are extension headers and payload, and what says so.
fn body(header: &Ipv6HeaderSlice<'_>, following: usize) -> (LenSource, usize)
    ensures source { result.0 ≡ body_source header.now following }
    ensures len { result.1 ≡ body_len header.now following }
{
    let payload_length = header.payload_length();
    if payload_length == 0 && following > 0 {
        (LenSource::Slice, following)
    } else {
        (LenSource::Ipv6HeaderPayloadLen, usize::from(payload_length))
    }
}
