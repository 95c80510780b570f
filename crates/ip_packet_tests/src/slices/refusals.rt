//! Why bytes start with no IP packet. The bytes are those of `packets`, cut or changed.

use super::packets::{IPV4, IPV6, ip_fault, ipv4_fault, ipv6_fault};
use crate::checks::missing_in_slice;
use ep_base::err::{Layer, LenError};
use ep_base::{IpNumber, LenSource};
use ep_ext::err::{ip_auth, ipv6_exts};
use ep_ipslice::err::{ip, ipv4, ipv6};
use ep_ipslice::{Ipv4ExtensionsSlice, Ipv6ExtensionsSlice};

// The offset of each extension header of `IPV6` after its base header, its length, and the layer
// that an error of too few bytes reports for it.
const HEADERS: [(u8, u8, Layer); 5] = [
    (0, 8, Layer::Ipv6ExtHeader),
    (8, 8, Layer::Ipv6ExtHeader),
    (16, 8, Layer::Ipv6FragHeader),
    (24, 12, Layer::IpAuthHeader),
    (36, 8, Layer::Ipv6ExtHeader),
];

// The error of a header of this length, so far after the base header, that ends too early.
fn missing_of_header(start: u8, end: u8, len: u8, layer: Layer, len_source: LenSource) -> LenError {
    LenError {
        required_len: usize::from(len),
        len: usize::from(end.saturating_sub(start)),
        len_source,
        layer,
        layer_start_offset: 40 + usize::from(start),
    }
}

#[test]
fn extension_headers_cut_by_the_payload_length(rt: HostRuntime) {
    for (start, len, layer) in HEADERS {
        for end in start.max(1)..start.saturating_add(len) {
            let mut bytes = IPV6;
            bytes[5] = end;
            let source = LenSource::Ipv6HeaderPayloadLen;
            let missing = missing_of_header(start, end, len, layer, source);
            assert!(rt; ipv6_fault(&bytes) == Some(ipv6::SliceError::Len(missing)));
        }
    }
}

// Where the packet's own length isn't given, the slice bounds its headers.
#[test]
fn extension_headers_cut_by_the_slice(rt: HostRuntime) {
    let mut bytes = IPV6;
    bytes[5] = 0;
    for (start, len, layer) in HEADERS {
        for end in start.max(1)..start.saturating_add(len) {
            let (prefix, _) = bytes.split_at(usize::from(end).min(46) + 40);
            let source = LenSource::Slice;
            let missing = missing_of_header(start, end, len, layer, source);
            assert!(rt; ipv6_fault(prefix) == Some(ipv6::SliceError::Len(missing)));
        }
    }
}

// A routing header of 16 bytes, of which 15 are there.
#[test]
fn an_extension_header_longer_than_the_least(rt: HostRuntime) {
    let mut bytes = IPV6;
    bytes[5] = 23;
    bytes[49] = 1;
    let source = LenSource::Ipv6HeaderPayloadLen;
    let missing = missing_of_header(8, 23, 16, Layer::Ipv6ExtHeader, source);
    assert!(rt; ipv6_fault(&bytes) == Some(ipv6::SliceError::Len(missing)));
}

#[test]
fn packets_of_the_other_version(rt: HostRuntime) {
    let mut bytes = IPV6;
    let of_v6 = ep_ip::err::ipv4::HeaderError::UnexpectedVersion { version_number: 6 };
    assert!(rt; ipv4_fault(&bytes) == Some(ipv4::SliceError::Header(of_v6)));
    bytes[0] = 0x45;
    let of_v4 = ep_ip::err::ipv6::HeaderError::UnexpectedVersion { version_number: 4 };
    assert!(rt; ipv6_fault(&bytes) == Some(ipv6::SliceError::Header(of_v4)));
}

// What a packet of its version and one of either version says of it.
#[test]
fn an_authentication_header_that_breaks_its_format(rt: HostRuntime) {
    let content = ip_auth::HeaderError::ZeroPayloadLen;
    let mut v4 = IPV4;
    v4[21] = 0;
    let mut v6 = IPV6;
    v6[65] = 0;
    let found = (ipv4_fault(&v4), ip_fault(&v4), ipv6_fault(&v6));
    let faults = (
        Some(ipv4::SliceError::Exts(content)),
        Some(ip::SliceError::IpHeaders(ip::HeadersError::Ipv4Ext(content))),
        Some(ipv6::SliceError::Exts(ipv6_exts::HeaderError::IpAuth(content))),
    );
    assert!(rt; found == faults);
}

#[test]
fn hop_by_hop_options_after_a_routing_header(rt: HostRuntime) {
    let mut bytes = IPV6;
    bytes[48] = 0;
    let content = ipv6_exts::HeaderError::HopByHopNotAtStart;
    let faults = (
        Some(ipv6::SliceError::Exts(content)),
        Some(ip::SliceError::IpHeaders(ip::HeadersError::Ipv6Ext(content))),
    );
    assert!(rt; (ipv6_fault(&bytes), ip_fault(&bytes)) == faults);
}

// A packet of either version refuses as one of its version.
#[test]
fn missing_bytes_of_either_version(rt: HostRuntime) {
    let found = (ip_fault(&[0x45, 0, 0]), ip_fault(&[0x60, 0, 0]));
    let errors = (
        Some(ip::SliceError::Len(missing_in_slice(20, 3, Layer::Ipv4Header))),
        Some(ip::SliceError::Len(missing_in_slice(40, 3, Layer::Ipv6Header))),
    );
    assert!(rt; found == errors);
}

// Up to the fault: all that was passed is left, or the headers before it are there.
#[test]
fn a_fault_after_which_nothing_is_read(rt: HostRuntime) {
    let bytes = [17, 1, 0, 0, 1];
    let first = IpNumber::AUTHENTICATION_HEADER;
    let (extensions, number, rest, fault) = Ipv4ExtensionsSlice::from_slice_lax(first, &bytes);
    let error = ip_auth::HeaderSliceError::Len(missing_in_slice(12, 5, Layer::IpAuthHeader));
    let found = (extensions.is_empty(), number, rest, fault);
    assert!(rt; found == (true, first, bytes.as_slice(), Some(error)));
}

#[test]
fn a_fault_after_a_routing_header(rt: HostRuntime) {
    let bytes = [44, 0, 0, 0, 0, 0, 0, 0, 17, 0, 0];
    let (extensions, number, rest, fault) = Ipv6ExtensionsSlice::from_slice_lax(
        IpNumber(43),
        &bytes,
    );
    let error = ipv6_exts::HeaderSliceError::Len(LenError {
        layer_start_offset: 8,
        ..missing_in_slice(8, 3, Layer::Ipv6FragHeader)
    });
    let found = (extensions.slice(), number, rest, fault);
    let after = Some((error, Layer::Ipv6FragHeader));
    assert!(rt; found == (&bytes[..8], IpNumber(44), &bytes[8..], after));
}

#[test]
fn missing_bytes_further_on(rt: HostRuntime) {
    let len = LenError {
        required_len: 12,
        len: 3,
        len_source: LenSource::Slice,
        layer: Layer::IpAuthHeader,
        layer_start_offset: 20,
    };
    let moved = LenError {
        layer_start_offset: 34,
        ..len
    };
    let version = ip::HeaderError::UnsupportedIpVersion { version_number: 5 };
    let content = ip::HeadersSliceError::Content(ip::HeadersError::Ip(version));
    let found = [
        ip::HeadersSliceError::Len(len).add_slice_offset(14),
        content.add_slice_offset(14),
    ];
    assert!(rt; found == [ip::HeadersSliceError::Len(moved), content]);
}
