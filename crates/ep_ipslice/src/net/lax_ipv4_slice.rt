//! The IPv4 packet, as far as it is there.

ghost use Rattle.std.specs.Prelude.{◌≡◌, ◌&&◌, nat_eq};
ghost use Rattle.std.specs.Cmp.Lexicographic.{pointwise};
ghost use Rattle.std.specs.Cmp.Rules.{comparing};
ghost use Rattle.std.specs.Ordering.{on};
ghost use Rattle.std.proofs.Common.{rules};
ghost use Rattle.ep_ipslice.specs.Compared.{auth_code, lax_ordered_as, lax_value};
ghost use Rattle.ep_ipslice.specs.LaxPackets.{LaxIpv4Packet, lax_ipv4_packet_at};

use super::body::fault_within;
use super::ipv4_slice::body_of;
use super::{Ipv4ExtensionsSlice, LaxIpPayloadSlice};
use ep_base::IpNumber;
use ep_ext::err::ip_auth;
use ep_ext::laws;
use ep_ip::Ipv4HeaderSlice;
use ep_ip::err::ipv4::HeaderSliceError;
use std::marker::Model;

/// An IPv4 packet (RFC 791, section 3.1), as far as it is there: its header, an authentication
/// header where the protocol number names one (RFC 4302), and the payload, borrowed.
///
/// Where the total length is above the bytes that are there, the packet takes all of them and is
/// incomplete. Where it is below the header's own length, it takes all of them, too, and nothing is
/// missing. Else the bytes after the total length don't belong to it.
#[derive(Clone, Debug, Drop)]
pub struct LaxIpv4Slice<'a> {
    header: Ipv4HeaderSlice<'a>,
    exts: Ipv4ExtensionsSlice<'a>,
    payload: LaxIpPayloadSlice<'a>,
}

impl<'a> Model for LaxIpv4Slice<'a> {
    ghost Value = { LaxIpv4Packet };

    ghost view = { λ p. record {
      header = p.header;
      auth = p.exts.auth;
      incomplete = p.payload.incomplete;
      payload = (lax_value p.payload).1;
    } };
}

impl<'a> LaxIpv4Slice<'a> {
    /// The packet at the start of the slice, and what stopped it: the fault of an authentication
    /// header that isn't whole within the packet or breaks its format. There is no such header
    /// then, and its bytes are the payload's first. The offset in an error of too few bytes counts
    /// from the start of the slice.
    ///
    /// Refused is what [`Ipv4HeaderSlice::from_slice`] refuses, and nothing else.
    pub fn from_slice(
        slice: &'a [u8],
    ) -> Result<(LaxIpv4Slice<'a>, Option<ip_auth::HeaderSliceError>), HeaderSliceError>
        ensures exact { result ≡ lax_ipv4_packet_at slice.now }
    {
        laws::whole_header_is_found();
        laws::faults_can_be_moved();
        let header = match Ipv4HeaderSlice::from_slice(slice) {
            Ok(header) => header,
            Err(error) => return Err(error),
        };
        let (body, len_source, incomplete) = body_of(&header, slice);
        let (exts, ip_number, payload, fault) = Ipv4ExtensionsSlice::from_slice_lax(
            header.protocol(),
            body,
        );
        let header_len = header.slice().len();
        let fragmented = header.is_fragmenting_payload();
        let packet = LaxIpv4Slice {
            header,
            exts,
            payload: LaxIpPayloadSlice {
                incomplete,
                ip_number,
                fragmented,
                len_source,
                payload,
            },
        };
        match fault {
            Some(error) => Ok((packet, Some(fault_within(error, len_source, header_len)))),
            None => Ok((packet, None)),
        }
    }

    /// The header.
    pub fn header(&self) -> &Ipv4HeaderSlice<'a>
        ensures { result.now ≡ self.now.header }
    {
        &self.header
    }

    /// The authentication header. There is none, too, where the header's protocol number names one
    /// and it has a fault.
    pub fn extensions(&self) -> &Ipv4ExtensionsSlice<'a>
        ensures { result.now.auth ≡ self.now.auth }
    {
        &self.exts
    }

    /// The payload, with whether bytes of it are missing.
    pub fn payload(&self) -> &LaxIpPayloadSlice<'a>
        ensures { lax_value result.now ≡ (self.now.incomplete, self.now.payload) }
    {
        &self.payload
    }

    /// The number of what the payload starts with: that of its protocol, or of the authentication
    /// header where this one has a fault.
    pub fn payload_ip_number(&self) -> IpNumber
        ensures { result ≡ self.now.payload.ip_number }
    {
        self.payload.ip_number
    }

    /// Whether the payload is a fragment: more fragments follow, or its offset isn't 0.
    pub fn is_payload_fragmented(&self) -> bool
        ensures { result ≡ self.now.payload.fragmented }
    {
        self.payload.fragmented
    }
}

impl<'a> PartialEq for LaxIpv4Slice<'a> {
    ghost eq = { λ a b. on (λ p. p.header) (pointwise nat_eq) a b
        && on (λ p. auth_code p.auth) (pointwise nat_eq) a b
        && on (λ p. lax_ordered_as (p.incomplete, p.payload)) (pointwise nat_eq) a b };

    ghost laws = { Prim.search (comparing, rules) depth 9 };

    fn eq(&self, other: &Self) -> bool {
        self.header == other.header && self.exts == other.exts && self.payload == other.payload
    }
}

impl<'a> Eq for LaxIpv4Slice<'a> {
    ghost laws = { Prim.search (comparing, rules) };
}
