//! The headers of an IP packet, as far as it is there.
ghost use Rattle.std.specs.Prelude.{◌≡◌, ◌≤◌, ◌<◌, ◌+◌, ◌^◌, ℕ, length, IfOk, IfSome};
ghost use Rattle.ep_base.specs.SliceError.{CanMove};
ghost use Rattle.ep_ipslice.specs.Compared.{lax_value};
ghost use Rattle.ep_packet.specs.LaxIpHeadersAt.{LaxIpv6Headers, lax_ip_headers_at, lax_ipv4_headers_at};
ghost use Rattle.ep_packet.specs.LaxIpHeadersAt.{lax_ipv4_value, lax_ipv6_headers_at, stopped_parsed, stopped_result};
ghost use Rattle.ep_packet.specs.LaxIpHeadersAt.{without_len};

use super::IpHeaders;
use ep_base::err::{Layer, LenError};
use ep_ext::err::{ip_auth, ip_exts, ipv6_exts};
use ep_ext::{Ipv6Extensions, laws};
use ep_ip::Ipv6Header;
use ep_ip::err::ipv6;
use ep_ipslice::err::ip::{HeaderError, LaxHeaderSliceError};
use ep_ipslice::laws::rows_are_found;
use ep_ipslice::{LaxIpPayloadSlice, LaxIpSlice, LaxIpv4Slice, LaxIpv6Slice};
use std::marker::Model;

/// What [`IpHeaders::from_slice_lax`] returns: the headers, the payload after them, and the fault at
/// which they end, with its layer.
pub type IpHeadersLaxFromSliceResult<'a> = (
    IpHeaders,
    LaxIpPayloadSlice<'a>,
    Option<(ip_exts::HeadersSliceError, Layer)>,
);

/// What [`IpHeaders::from_ipv6_slice_lax`] returns: the headers, the payload after them, and the fault
/// at which they end, with its layer.
pub type IpHeadersIpv6LaxFromSliceResult<'a> = (
    IpHeaders,
    LaxIpPayloadSlice<'a>,
    Option<(ipv6_exts::HeaderSliceError, Layer)>,
);

impl IpHeaders {
    /// The headers of the IP packet at the start of the slice, of the version in the upper half of
    /// its first byte, its payload as far as it is there, and what stopped, with its layer: the fault
    /// of an extension header, as `from_ipv4_slice_lax` and `from_ipv6_slice_lax` return it.
    ///
    /// Refused are, in this order, a slice of no bytes, a version that is neither 4 nor 6, and what
    /// these two calls refuse.
    pub fn from_slice_lax(
        slice: &[u8],
    ) -> Result<IpHeadersLaxFromSliceResult<'_>, LaxHeaderSliceError>
        ensures exact { stopped_result result ≡ lax_ip_headers_at slice.now }
    {
        if slice.is_empty() {
            return Err(LaxHeaderSliceError::Len(LenError::too_few_bytes(Layer::IpHeader, 1, 0)));
        }
        let version_number = slice[0] >> 4;
        if version_number == 4 {
            return match IpHeaders::from_ipv4_slice_lax(slice) {
                Ok((headers, payload, fault)) => {
                    Ok((headers, payload, LaxIpSlice::stop_of_ipv4(fault)))
                }
                Err(error) => Err(error),
            };
        }
        if version_number == 6 {
            return match IpHeaders::from_ipv6_slice_lax(slice) {
                Ok((headers, payload, fault)) => {
                    Ok((headers, payload, LaxIpSlice::stop_of_ipv6(fault)))
                }
                Err(error) => Err(HeaderError::of_ipv6_slice(error)),
            };
        }
        Err(LaxHeaderSliceError::Content(HeaderError::UnsupportedIpVersion { version_number }))
    }

    /// The headers of the IPv4 packet at the start of the slice, its payload as far as it is there,
    /// and what stopped: the fault of the authentication header, as [`LaxIpv4Slice::from_slice`]
    /// returns it. There is no such header then, and its bytes are the payload's first.
    ///
    /// Refused is a slice that starts with no IPv4 header, and nothing else.
    pub fn from_ipv4_slice_lax(
        slice: &[u8],
    ) -> Result<
        (
            IpHeaders,
            LaxIpPayloadSlice<'_>,
            Option<ip_auth::HeaderSliceError>,
        ),
        LaxHeaderSliceError,
    >
        ensures exact { stopped_result result ≡ lax_ipv4_headers_at slice.now }
    {
        match LaxIpv4Slice::from_slice(slice) {
            Ok((packet, fault)) => {
                let (headers, payload) = ipv4_parts(&packet);
                Ok((headers, payload, fault))
            }
            Err(error) => Err(HeaderError::of_ipv4_slice(error)),
        }
    }

    /// The headers of the IPv6 packet at the start of the slice, its payload as far as it is there,
    /// and what stopped, with its layer: the first extension header that isn't whole within the
    /// packet, breaks its format or is out of order. Its bytes are the payload's first. The offset in
    /// an error of too few bytes counts from the start of the slice.
    ///
    /// The extension headers are those that [`Ipv6Extensions::from_slice`] takes. Where another one
    /// follows, the payload starts with it, and nothing stopped. Where the payload length is above
    /// the bytes that follow the header, or 0, the packet takes all of them. Refused is a slice that
    /// starts with no IPv6 header, and nothing else.
    pub fn from_ipv6_slice_lax(
        slice: &[u8],
    ) -> Result<IpHeadersIpv6LaxFromSliceResult<'_>, ipv6::HeaderSliceError>
        ensures exact { stopped_result result ≡ without_len (lax_ipv6_headers_at slice.now) }
    {
        match LaxIpv6Headers::from_slice(slice) {
            Ok(
                LaxIpv6Headers {
                    headers,
                    payload,
                    fault,
                    ..
                },
            ) => Ok((headers, payload, fault)),
            Err(error) => Err(error),
        }
    }
}

/// The headers of an IPv6 packet as far as it is there, with their length in bytes, its payload, and
/// the fault at which the headers end.
#[derive(Drop)]
pub(crate) struct LaxIpv6Headers<'a> {
    pub len: usize,
    pub headers: IpHeaders,
    pub payload: LaxIpPayloadSlice<'a>,
    pub fault: Option<(ipv6_exts::HeaderSliceError, Layer)>,
}

impl<'a> Model for LaxIpv6Headers<'a> {
    ghost Value = { LaxIpv6Headers };

    ghost view = { λ h. record {
      len = h.len;
      parts = stopped_parsed (h.headers, h.payload, h.fault);
    } };
}

impl<'a> LaxIpv6Headers<'a> {
    /// Those at the start of the slice.
    pub(crate) fn from_slice(slice: &'a [u8]) -> Result<LaxIpv6Headers<'a>, ipv6::HeaderSliceError>
        ensures exact { result ≡ lax_ipv6_headers_at slice.now }
        ensures within { IfOk result (λ h. h.len ≤ length slice.now) }
        // The offset of the fault lies within the slice, too.
        ensures offset { IfOk result (λ h. (n : ℕ) → length slice.now + n < 2 ^ 64
            → IfSome h.parts.stop (λ f. CanMove f.0 n)) }
    {
        rows_are_found();
        laws::faults_can_be_moved();
        let (header, len_source, incomplete, body) = match LaxIpv6Slice::header_and_body(slice) {
            Ok(parts) => parts,
            Err(error) => return Err(error),
        };
        let (extensions, ip_number, payload, fault) = Ipv6Extensions::from_slice_lax(
            header.next_header(),
            body,
        );
        let fragmented = extensions.is_fragmenting_payload();
        let len = Ipv6Header::LEN + (body.len() - payload.len());
        Ok(LaxIpv6Headers {
            len,
            headers: IpHeaders::Ipv6(header.to_header(), extensions),
            payload: LaxIpPayloadSlice {
                incomplete,
                ip_number,
                fragmented,
                len_source,
                payload,
            },
            fault: LaxIpv6Slice::fault_of_body(fault, len_source),
        })
    }
}

/// The headers and the payload of the packet.
pub(crate) fn ipv4_parts<'a>(packet: &LaxIpv4Slice<'a>) -> (IpHeaders, LaxIpPayloadSlice<'a>)
    ensures headers { result.0 ≡ lax_ipv4_value packet.now }
    ensures payload { lax_value result.1 ≡ (packet.now.incomplete, packet.now.payload) }
{
    let headers = IpHeaders::Ipv4(packet.header().to_header(), packet.extensions().to_header());
    let payload = packet.payload();
    (
        headers,
        LaxIpPayloadSlice {
            incomplete: payload.incomplete,
            ip_number: payload.ip_number,
            fragmented: payload.fragmented,
            len_source: payload.len_source,
            payload: payload.payload,
        },
    )
}
