//! The IPv4 packet.

ghost use Rattle.std.specs.Prelude.{◌≡◌, ℕ, List, ◌++◌, Ok, ◌&&◌, nat_eq};
ghost use Rattle.ep_ipslice.specs.Packet.{Ipv4Packet, IsWholeIpv4, ipv4_payload};
ghost use Rattle.ep_ipslice.specs.Ipv4Packet.{ipv4_packet_at, packet_with};
ghost use Rattle.ep_ipslice.specs.LaxPackets.{is_ipv4_cut, lax_ipv4_body, lax_ipv4_source};
ghost use Rattle.std.specs.Cmp.Lexicographic.{pointwise};
ghost use Rattle.std.specs.Cmp.Rules.{comparing};
ghost use Rattle.std.specs.Ordering.{on};
ghost use Rattle.std.proofs.Common.{rules};
ghost use Rattle.ep_ipslice.specs.Compared.{auth_code};
ghost use Rattle.ep_ip.specs.Ipv4.{is_fragment};

use super::body::{bytes_within, error_within};
use super::{IpPayloadSlice, Ipv4ExtensionsSlice};
use crate::err::ipv4::SliceError;
use ep_base::err::{Layer, LenError};
use ep_base::{IpNumber, LenSource};
use ep_ext::err::ip_auth;
use ep_ext::laws;
use ep_ip::Ipv4HeaderSlice;
use ep_ip::err::ipv4::HeaderSliceError;
use std::marker::Model;

/// An IPv4 packet (RFC 791, section 3.1): its header, an authentication header where the protocol
/// number names one (RFC 4302), and the payload, borrowed. The bytes after the total length don't
/// belong to it.
///
/// A contract sees the value as these parts.
#[derive(Clone, Debug, Drop)]
pub struct Ipv4Slice<'a> {
    header: Ipv4HeaderSlice<'a>,
    exts: Ipv4ExtensionsSlice<'a>,
    payload: IpPayloadSlice<'a>,
}

impl<'a> Model for Ipv4Slice<'a> {
    ghost Value = { Ipv4Packet };

    ghost view = { λ p. record { header = p.header; auth = p.exts.auth; payload = p.payload.payload } };

    ghost invariant = { λ p. let packet : Ipv4Packet =
        record { header = p.header; auth = p.exts.auth; payload = p.payload.payload } in
        (p.payload ≡ ipv4_payload packet) × IsWholeIpv4 packet };
}

impl<'a> Ipv4Slice<'a> {
    /// The packet at the start of the slice. Refused are, in this order, what
    /// [`Ipv4HeaderSlice::from_slice`] refuses, a total length below the header's own, one above
    /// the bytes that are there, and an authentication header that isn't whole within the total
    /// length or breaks its format.
    ///
    /// By the law [`packets_are_their_parts`](crate::laws::packets_are_their_parts) what is taken is
    /// a packet that the slice begins with, and such a packet is taken.
    #[inline(always)]
    pub fn from_slice(slice: &'a [u8]) -> Result<Ipv4Slice<'a>, SliceError>
        ensures exact { result ≡ ipv4_packet_at slice.now }
    {
        match Ipv4HeaderSlice::from_slice(slice) {
            Ok(header) => Self::after_header(header, slice),
            Err(HeaderSliceError::Len(error)) => Err(SliceError::Len(error)),
            Err(HeaderSliceError::Content(error)) => Err(SliceError::Header(error)),
        }
    }

    // The packet of this header, with which the slice starts.
    #[inline(always)]
    fn after_header(
        header: Ipv4HeaderSlice<'a>,
        slice: &'a [u8],
    ) -> Result<Ipv4Slice<'a>, SliceError>
        requires { (rest : List ℕ) × (slice.now ≡ header ++ rest) }
        ensures exact { result ≡ packet_with slice.now (Ok header.entry) }
    {
        laws::whole_header_is_found();
        let header_len = header.slice().len();
        let total_len = usize::from(header.total_len());
        if total_len < header_len {
            return Err(SliceError::Len(LenError {
                required_len: header_len,
                len: total_len,
                len_source: LenSource::Ipv4HeaderTotalLen,
                layer: Layer::Ipv4Packet,
                layer_start_offset: 0,
            }));
        }
        let (body, _, incomplete) = body_of(&header, slice);
        if incomplete {
            return Err(SliceError::Len(LenError::too_few_bytes(
                Layer::Ipv4Packet,
                total_len,
                slice.len(),
            )));
        }
        match Ipv4ExtensionsSlice::from_slice(header.protocol(), body) {
            Ok((exts, ip_number, payload)) => {
                let fragmented = header.is_fragmenting_payload();
                Ok(Ipv4Slice {
                    header,
                    exts,
                    payload: IpPayloadSlice {
                        ip_number,
                        fragmented,
                        len_source: LenSource::Ipv4HeaderTotalLen,
                        payload,
                    },
                })
            }
            Err(ip_auth::HeaderSliceError::Len(error)) => Err(SliceError::Len(error_within(
                error,
                LenSource::Ipv4HeaderTotalLen,
                header_len,
            ))),
            Err(ip_auth::HeaderSliceError::Content(error)) => Err(SliceError::Exts(error)),
        }
    }

    /// The header.
    pub fn header(&self) -> &Ipv4HeaderSlice<'a>
        ensures { result.now ≡ self.now.header }
    {
        &self.header
    }

    /// The authentication header, which is there exactly where the header's protocol number is 51,
    /// as in every packet.
    pub fn extensions(&self) -> &Ipv4ExtensionsSlice<'a>
        ensures value { result.now.auth ≡ self.now.auth }
        ensures whole { IsWholeIpv4 self.now }
    {
        &self.exts
    }

    /// The payload.
    pub fn payload(&self) -> &IpPayloadSlice<'a>
        ensures { result.now ≡ ipv4_payload self.now }
    {
        &self.payload
    }

    /// The number of the protocol that the payload starts with, after the authentication header.
    pub fn payload_ip_number(&self) -> IpNumber
        ensures { result ≡ (ipv4_payload self.now).ip_number }
    {
        self.payload.ip_number
    }

    /// Whether the payload is a fragment: more fragments follow, or its offset isn't 0.
    pub fn is_payload_fragmented(&self) -> bool
        ensures { result ≡ is_fragment self.now.header }
    {
        self.payload.fragmented
    }
}

impl<'a> PartialEq for Ipv4Slice<'a> {
    ghost eq = { λ a b. on (λ p. p.header) (pointwise nat_eq) a b
        && on (λ p. auth_code p.auth) (pointwise nat_eq) a b
        && on (λ p. p.payload) (pointwise nat_eq) a b };

    ghost laws = { Prim.search (comparing, rules) depth 9 };

    fn eq(&self, other: &Self) -> bool {
        // The headers determine number, flag and source of the payload.
        self.header == other.header
            && self.exts == other.exts
            && self.payload.payload == other.payload.payload
    }
}

impl<'a> Eq for Ipv4Slice<'a> {
    ghost laws = { Prim.search (comparing, rules) };
}

// The bytes of the packet after this header, with which the slice starts, as far as they are there;
// what their number came from; and whether some are missing. A total length below the header's own
// takes all of them.
#[inline(always)]
pub(super) fn body_of<'a>(
    header: &Ipv4HeaderSlice<'_>,
    slice: &'a [u8],
) -> (&'a [u8], LenSource, bool)
    requires { (rest : List ℕ) × (slice.now ≡ header.now ++ rest) }
    ensures bytes { result.0.now ≡ lax_ipv4_body slice.now header.now }
    ensures source { result.1 ≡ lax_ipv4_source slice.now header.now }
    ensures incomplete { result.2 ≡ is_ipv4_cut slice.now header.now }
{
    let header_len = header.slice().len();
    let total_len = usize::from(header.total_len());
    let (_, following) = slice.split_at(header_len);
    if total_len < header_len {
        return (following, LenSource::Slice, false);
    }
    bytes_within(
        following,
        total_len - header_len,
        LenSource::Ipv4HeaderTotalLen,
    )
}
