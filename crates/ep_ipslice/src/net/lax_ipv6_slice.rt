//! The IPv6 packet, as far as it is there.

ghost use Rattle.std.specs.Prelude.{◌≡◌, ◌≤◌, ◌+◌, ◌&&◌, length, nat_eq, IfErr, IfOk, IfSome, Err, Ok};
ghost use Rattle.std.specs.Cmp.Lexicographic.{pointwise};
ghost use Rattle.std.specs.Cmp.Rules.{comparing};
ghost use Rattle.std.specs.Option.{option_map};
ghost use Rattle.std.specs.Ordering.{on};
ghost use Rattle.std.proofs.Common.{rules};
ghost use Rattle.ep_base.specs.SliceError.{CanMove};
ghost use Rattle.ep_ip.specs.Ipv6Fault.{header_at};
ghost use Rattle.ep_ipslice.specs.Compared.{compared_as, lax_ordered_as, lax_value};
ghost use Rattle.ep_ipslice.specs.Ipv6Packet.{body_of};
ghost use Rattle.ep_ipslice.specs.LaxPackets.{LaxIpv6Packet, is_ipv6_cut, lax_ipv6_packet_at, lax_ipv6_source};
ghost use Rattle.ep_ipslice.specs.LaxPackets.{row_fault_within};

use super::body::fault_within;
use super::ipv6_slice::body_of;
use super::{Ipv6ExtensionsSlice, LaxIpPayloadSlice};
use ep_base::err::Layer;
use ep_base::{IpNumber, LenSource};
use ep_ext::err::ipv6_exts;
use ep_ext::laws;
use ep_ip::err::ipv6::HeaderSliceError;
use ep_ip::{Ipv6Header, Ipv6HeaderSlice};
use std::marker::Model;

/// An IPv6 packet (RFC 8200, section 3), as far as it is there: its header, the extension headers
/// after it and the payload, borrowed.
///
/// Where the payload length is above the bytes that follow the header, the packet takes all of them
/// and is incomplete. Where it is 0 and bytes follow the header, it takes all of them, too, and
/// nothing is missing (RFC 2675, section 3: the length is in a jumbo payload option, which isn't
/// read). Else the bytes after the payload length don't belong to it.
#[derive(Clone, Debug, Drop)]
pub struct LaxIpv6Slice<'a> {
    header: Ipv6HeaderSlice<'a>,
    exts: Ipv6ExtensionsSlice<'a>,
    payload: LaxIpPayloadSlice<'a>,
}

impl<'a> Model for LaxIpv6Slice<'a> {
    ghost Value = { LaxIpv6Packet };

    ghost view = { λ p. record {
      header = p.header;
      exts = p.exts;
      incomplete = p.payload.incomplete;
      payload = (lax_value p.payload).1;
    } };
}

impl<'a> LaxIpv6Slice<'a> {
    /// The packet at the start of the slice, and what stopped it, with the layer in which it is: the
    /// first extension header that isn't whole within the packet, breaks its format or is out of
    /// order. It is no extension header then, and its bytes are the payload's first. The offset in
    /// an error of too few bytes counts from the start of the slice.
    ///
    /// Refused is what [`Ipv6HeaderSlice::from_slice`] refuses, and nothing else.
    pub fn from_slice(
        slice: &'a [u8],
    ) -> Result<
        (
            LaxIpv6Slice<'a>,
            Option<(ipv6_exts::HeaderSliceError, Layer)>,
        ),
        HeaderSliceError,
    >
        ensures exact { result ≡ lax_ipv6_packet_at slice.now }
    {
        laws::whole_header_is_found();
        laws::faults_can_be_moved();
        let (header, len_source, incomplete, body) = match Self::header_and_body(slice) {
            Ok(parts) => parts,
            Err(error) => return Err(error),
        };
        let (exts, ip_number, payload, fault) = Ipv6ExtensionsSlice::from_slice_lax(
            header.next_header(),
            body,
        );
        let fragmented = exts.is_fragmenting_payload();
        let packet = LaxIpv6Slice {
            header,
            exts,
            payload: LaxIpPayloadSlice {
                incomplete,
                ip_number,
                fragmented,
                len_source,
                payload,
            },
        };
        Ok((packet, Self::fault_of_body(fault, len_source)))
    }

    /// The header at the start of the slice, and the bytes after it that are extension headers and
    /// payload, as far as they are there, with what their length came from and whether bytes of them
    /// are missing. Refused is what [`Ipv6HeaderSlice::from_slice`] refuses.
    pub fn header_and_body(
        slice: &'a [u8],
    ) -> Result<(Ipv6HeaderSlice<'a>, LenSource, bool, &'a [u8]), HeaderSliceError>
        ensures header { IfOk result (λ r. header_at slice.now ≡ Ok r.0) }
        ensures source { IfOk result (λ r. r.1 ≡ lax_ipv6_source slice.now r.0) }
        ensures incomplete { IfOk result (λ r. r.2 ≡ is_ipv6_cut slice.now r.0) }
        ensures body { IfOk result (λ r. r.3.now ≡ body_of slice.now r.0) }
        // The body lies after the header.
        ensures within { IfOk result (λ r. 40 + length r.3.now ≤ length slice.now) }
        ensures err { IfErr result (λ e. header_at slice.now ≡ Err e) }
    {
        let header = match Ipv6HeaderSlice::from_slice(slice) {
            Ok(header) => header,
            Err(error) => return Err(error),
        };
        let (body, len_source, incomplete) = body_of(&header, slice);
        Ok((header, len_source, incomplete, body))
    }

    /// The fault of an extension header, with its layer, in a body whose length came from
    /// `len_source`. The offset in an error of too few bytes counts from the start of the body
    /// before, and from that of the packet after the call.
    pub fn fault_of_body(
        fault: Option<(ipv6_exts::HeaderSliceError, Layer)>,
        len_source: LenSource,
    ) -> Option<(ipv6_exts::HeaderSliceError, Layer)>
        requires { IfSome fault (λ f. CanMove f.0 40) }
        ensures { result ≡ option_map (row_fault_within len_source) fault }
    {
        match fault {
            Some((error, layer)) => Some((fault_within(error, len_source, Ipv6Header::LEN), layer)),
            None => None,
        }
    }

    /// The header.
    pub fn header(&self) -> &Ipv6HeaderSlice<'a>
        ensures { result.now ≡ self.now.header }
    {
        &self.header
    }

    /// The extension headers, up to the first one with a fault. They are a row from the number that
    /// the header names to the payload's.
    pub fn extensions(&self) -> &Ipv6ExtensionsSlice<'a>
        ensures { result.now ≡ self.now.exts }
    {
        &self.exts
    }

    /// The payload, with whether bytes of it are missing.
    pub fn payload(&self) -> &LaxIpPayloadSlice<'a>
        ensures { lax_value result.now ≡ (self.now.incomplete, self.now.payload) }
    {
        &self.payload
    }

    /// The number of what the payload starts with: that of its protocol, or of the extension header
    /// that has a fault.
    pub fn payload_ip_number(&self) -> IpNumber
        ensures { result ≡ self.now.payload.ip_number }
    {
        self.payload.ip_number
    }

    /// Whether the payload is a fragment: one of the extension headers is the fragment header of
    /// one.
    pub fn is_payload_fragmented(&self) -> bool
        ensures { result ≡ self.now.payload.fragmented }
    {
        self.payload.fragmented
    }
}

impl<'a> PartialEq for LaxIpv6Slice<'a> {
    ghost eq = { λ a b. on (λ p. p.header) (pointwise nat_eq) a b
        && on (λ p. compared_as p.exts) (pointwise nat_eq) a b
        && on (λ p. lax_ordered_as (p.incomplete, p.payload)) (pointwise nat_eq) a b };

    ghost laws = { Prim.search (comparing, rules) depth 9 };

    fn eq(&self, other: &Self) -> bool {
        self.header == other.header && self.exts == other.exts && self.payload == other.payload
    }
}

impl<'a> Eq for LaxIpv6Slice<'a> {
    ghost laws = { Prim.search (comparing, rules) };
}
