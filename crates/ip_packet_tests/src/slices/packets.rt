//! IP packets in slices. The bytes are made by the RFCs' tables.
//! Calls have no contracts: tests alone make them, and are run.

use crate::checks::{fail, missing_in_slice};
use ep_base::err::{Layer, LenError};
use ep_base::{IpNumber, LenSource};
use ep_ext::err::{ip_auth, ipv6_exts};
use ep_ipslice::err::{ip, ipv4, ipv6};
use ep_ipslice::{
    IpSlice, Ipv4ExtensionsSlice, Ipv4Slice, Ipv6ExtensionSlice, Ipv6ExtensionsSlice, Ipv6Slice,
};
use std::net::IpAddr;
use std::test::*;

// IPv4 (RFC 791, section 3.1): 10.0.0.1 to 10.0.0.2, an authentication header (RFC 4302), two bytes
// of payload and one of padding.
pub(super) const IPV4: [u8; 35] = [
    0x45, 0, 0, 34, 0, 7, 0, 0, 64, 51, 0, 0, 10, 0, 0, 1, 10, 0, 0, 2, 17, 1, 0, 0, 1, 2, 3, 4, 5,
    6, 7, 8, 0xaa, 0xbb, 0,
];

// IPv6 (RFC 8200, section 3) with a payload length of 46: hop-by-hop options, routing header,
// fragment header (offset 1), authentication header, destination options, two bytes of payload and
// one of padding.
pub(super) const IPV6: [u8; 87] = [
    0x60, 0, 0, 0, 0, 46, 0, 64, 0xfd, 0, 0, 0, 0, 0, 0, 0, 0, 0, 0, 0, 0, 0, 0, 1, 0xfd, 0, 0, 0,
    0, 0, 0, 0, 0, 0, 0, 0, 0, 0, 0, 2, 43, 0, 1, 4, 0, 0, 0, 0, 44, 0, 0, 0, 0, 0, 0, 0, 51, 0, 0,
    8, 0, 0, 0, 7, 60, 1, 0, 0, 1, 2, 3, 4, 5, 6, 7, 8, 17, 0, 1, 4, 0, 0, 0, 0, 0xaa, 0xbb, 0,
];

#[test]
fn ipv4_with_an_authentication_header(rt: HostRuntime) {
    let bytes = IPV4;
    let Ok(packet) = Ipv4Slice::from_slice(&bytes) else {
        fail(rt, "no packet");
    };
    let payload = packet.payload();
    let found = (
        packet.payload_ip_number(),
        payload.payload,
        payload.len_source,
        packet.is_payload_fragmented(),
        packet.header().slice(),
        packet.extensions().is_empty(),
    );
    let source = LenSource::Ipv4HeaderTotalLen;
    assert!(rt;
        found
            == (
                IpNumber::UDP,
                &bytes[32..34],
                source,
                false,
                &bytes[..20],
                false
            )
    );
}

#[test]
fn ipv6_with_all_extension_headers(rt: HostRuntime) {
    let bytes = IPV6;
    let Ok(packet) = Ipv6Slice::from_slice(&bytes) else {
        fail(rt, "no packet");
    };
    let payload = packet.payload();
    let found = (
        packet.payload_ip_number(),
        payload.payload,
        payload.len_source,
        packet.is_payload_fragmented(),
        packet.extensions().slice(),
    );
    let source = LenSource::Ipv6HeaderPayloadLen;
    assert!(rt; found == (IpNumber::UDP, &bytes[84..86], source, true, &bytes[40..84]));
}

fn kind(header: Ipv6ExtensionSlice<'_>) -> u8 {
    match header {
        Ipv6ExtensionSlice::HopByHop(_) => 0,
        Ipv6ExtensionSlice::Routing(_) => 43,
        Ipv6ExtensionSlice::Fragment(_) => 44,
        Ipv6ExtensionSlice::Authentication(_) => 51,
        Ipv6ExtensionSlice::DestinationOptions(_) => 60,
    }
}

// The kinds of the first six headers, with 255 where there is none.
fn kinds(extensions: &Ipv6ExtensionsSlice<'_>) -> [u8; 6] {
    let mut kinds = [255; 6];
    let mut headers = extensions.iter();
    for position in kinds.iter_mut() {
        if let Some(header) = headers.next() {
            *position = kind(header);
        }
    }
    kinds
}

#[test]
fn extension_headers_in_their_order(rt: HostRuntime) {
    let bytes = IPV6;
    let Ok(packet) = Ipv6Slice::from_slice(&bytes) else {
        fail(rt, "no packet");
    };
    assert!(rt; kinds(packet.extensions()) == [0, 43, 44, 51, 60, 255]);
}

#[test]
fn repeated_fragment_headers(rt: HostRuntime) {
    let bytes = [
        0x2c, 0, 0, 1, 0, 0, 0, 7, 0x11, 0, 0, 0, 0, 0, 0, 7, 0xaa, 0xbb,
    ];
    let Ok((extensions, number, rest)) = Ipv6ExtensionsSlice::from_slice(IpNumber(44), &bytes)
    else {
        fail(rt, "refused");
    };
    let found = (
        number,
        rest,
        extensions.is_fragmenting_payload(),
        extensions.first_header(),
    );
    assert!(rt; found == (IpNumber::UDP, &bytes[16..], true, Some(IpNumber(44))));
}

// Whether the extension headers from this number on are those of a fragment.
fn are_of_a_fragment(first: u8, bytes: &[u8]) -> Option<bool> {
    match Ipv6ExtensionsSlice::from_slice(IpNumber(first), bytes) {
        Ok((extensions, _, _)) => Some(extensions.is_fragmenting_payload()),
        Err(_) => None,
    }
}

#[test]
fn which_headers_are_of_a_fragment(rt: HostRuntime) {
    let whole = [0x11, 0, 0, 0, 0, 0, 0, 7];
    let whole_then_fragment = [0x2c, 0, 0, 0, 0, 0, 0, 7, 0x11, 0, 0, 1, 0, 0, 0, 7];
    let others = [43, 0, 1, 4, 0, 0, 0, 0, 17, 0, 0xff, 0xff, 0, 0, 0, 0];
    let found = (
        are_of_a_fragment(44, &whole),
        are_of_a_fragment(44, &whole_then_fragment),
        are_of_a_fragment(0, &others),
        are_of_a_fragment(17, &others),
    );
    assert!(rt; found == (Some(false), Some(true), Some(false), Some(false)));
}

// Where there is no header there is no first number.
#[test]
fn no_headers(rt: HostRuntime) {
    let bytes = [1, 2, 3];
    let Ok((extensions, number, rest)) = Ipv6ExtensionsSlice::from_slice(IpNumber::TCP, &bytes)
    else {
        fail(rt, "refused");
    };
    let found = (
        extensions.first_header(),
        extensions.is_empty(),
        number,
        rest,
        extensions.iter().next().is_none(),
    );
    assert!(rt; found == (None, true, IpNumber::TCP, bytes.as_slice(), true));
}

// Why the headers from this number on are refused, if they are; and so after an IPv4 header.
fn why_refused(first: u8, bytes: &[u8]) -> Option<ipv6_exts::HeaderSliceError> {
    match Ipv6ExtensionsSlice::from_slice(IpNumber(first), bytes) {
        Ok(_) => None,
        Err(error) => Some(error),
    }
}

fn why_ipv4_refused(first: u8, bytes: &[u8]) -> Option<ip_auth::HeaderSliceError> {
    match Ipv4ExtensionsSlice::from_slice(IpNumber(first), bytes) {
        Ok(_) => None,
        Err(error) => Some(error),
    }
}

#[test]
fn hop_by_hop_options_after_another_header(rt: HostRuntime) {
    let bytes = [0, 0, 0, 0, 0, 0, 0, 0, 0x11, 0, 0, 0, 0, 0, 0, 0];
    let (extensions, number, rest, fault) = Ipv6ExtensionsSlice::from_slice_lax(
        IpNumber(60),
        &bytes,
    );
    let error = ipv6_exts::HeaderSliceError::Content(ipv6_exts::HeaderError::HopByHopNotAtStart);
    let after = Some((error, Layer::Ipv6HopByHopHeader));
    let found = (fault, number, extensions.slice(), rest);
    assert!(rt; found == (after, IpNumber(0), &bytes[..8], &bytes[8..]));
    assert!(rt; why_refused(60, &bytes) == Some(error));
}

#[test]
fn an_authentication_header_of_length_zero(rt: HostRuntime) {
    let content = ip_auth::HeaderError::ZeroPayloadLen;
    let v6 = ipv6_exts::HeaderSliceError::Content(ipv6_exts::HeaderError::IpAuth(content));
    let v4 = ip_auth::HeaderSliceError::Content(content);
    let found = (why_refused(51, &[0; 12]), why_ipv4_refused(51, &[0; 12]));
    assert!(rt; found == (Some(v6), Some(v4)));
}

#[test]
fn no_number_of_an_authentication_header(rt: HostRuntime) {
    let bytes = [0, 1, 2, 3];
    let (extensions, number, rest, fault) = Ipv4ExtensionsSlice::from_slice_lax(
        IpNumber::UDP,
        &bytes,
    );
    let found = (extensions.is_empty(), number, rest, fault);
    assert!(rt; found == (true, IpNumber::UDP, bytes.as_slice(), None));
}

// Why bytes start with no IPv4 packet, if they don't; and so for IPv6 and for either version.
pub(super) fn ipv4_fault(bytes: &[u8]) -> Option<ipv4::SliceError> {
    match Ipv4Slice::from_slice(bytes) {
        Ok(_) => None,
        Err(error) => Some(error),
    }
}

pub(super) fn ipv6_fault(bytes: &[u8]) -> Option<ipv6::SliceError> {
    match Ipv6Slice::from_slice(bytes) {
        Ok(_) => None,
        Err(error) => Some(error),
    }
}

pub(super) fn ip_fault(bytes: &[u8]) -> Option<ip::SliceError> {
    match IpSlice::from_slice(bytes) {
        Ok(_) => None,
        Err(error) => Some(error),
    }
}

#[test]
fn every_prefix_of_an_ipv4_packet(rt: HostRuntime) {
    let bytes = IPV4;
    for end in 0..34usize {
        let required = if end < 20 {
            missing_in_slice(20, end, Layer::Ipv4Header)
        } else {
            missing_in_slice(34, end, Layer::Ipv4Packet)
        };
        assert!(rt; ipv4_fault(&bytes[..end]) == Some(ipv4::SliceError::Len(required)));
    }
    assert!(rt; ipv4_fault(&bytes[..34]) == None);
}

#[test]
fn every_prefix_of_an_ipv6_packet(rt: HostRuntime) {
    let bytes = IPV6;
    for end in 0..86usize {
        let required = if end < 40 {
            missing_in_slice(40, end, Layer::Ipv6Header)
        } else {
            missing_in_slice(86, end, Layer::Ipv6Packet)
        };
        assert!(rt; ipv6_fault(&bytes[..end]) == Some(ipv6::SliceError::Len(required)));
    }
    assert!(rt; ipv6_fault(&bytes[..86]) == None);
}

// An error of too few bytes inside an extension header names the packet's own length, and the
// offset in the whole slice.
#[test]
fn a_cut_extension_header(rt: HostRuntime) {
    let mut v6 = IPV6;
    v6[5] = 12;
    let mut v4 = IPV4;
    v4[3] = 25;
    let of_v6 = LenError {
        required_len: 8,
        len: 4,
        len_source: LenSource::Ipv6HeaderPayloadLen,
        layer: Layer::Ipv6ExtHeader,
        layer_start_offset: 48,
    };
    let of_v4 = LenError {
        required_len: 12,
        len: 5,
        len_source: LenSource::Ipv4HeaderTotalLen,
        layer: Layer::IpAuthHeader,
        layer_start_offset: 20,
    };
    let errors = (
        Some(ipv6::SliceError::Len(of_v6)),
        Some(ipv4::SliceError::Len(of_v4)),
    );
    assert!(rt; (ipv6_fault(&v6), ipv4_fault(&v4)) == errors);
}

// How long the payload of an IPv6 packet is, and where that length comes from.
fn payload_len(bytes: &[u8]) -> Option<(usize, LenSource)> {
    match Ipv6Slice::from_slice(bytes) {
        Ok(packet) => {
            let payload = packet.payload();
            Some((payload.payload.len(), payload.len_source))
        }
        Err(_) => None,
    }
}

#[test]
fn a_payload_length_of_zero(rt: HostRuntime) {
    let mut bytes = IPV6;
    bytes[5] = 0;
    bytes[6] = 253;
    let found = (payload_len(&bytes), payload_len(&bytes[..40]));
    let none = Some((0, LenSource::Ipv6HeaderPayloadLen));
    assert!(rt; found == (Some((47, LenSource::Slice)), none));
}

#[test]
fn a_total_length_below_the_header(rt: HostRuntime) {
    let mut bytes = IPV4;
    bytes[3] = 19;
    let missing = LenError {
        required_len: 20,
        len: 19,
        len_source: LenSource::Ipv4HeaderTotalLen,
        layer: Layer::Ipv4Packet,
        layer_start_offset: 0,
    };
    assert!(rt; ipv4_fault(&bytes) == Some(ipv4::SliceError::Len(missing)));
}

#[test]
fn packets_of_either_version(rt: HostRuntime) {
    let bytes = IPV4;
    let Ok(packet) = IpSlice::from_slice(&bytes) else {
        fail(rt, "no packet");
    };
    let found = (
        packet.source_addr(),
        packet.destination_addr(),
        packet.ipv6().is_none(),
    );
    assert!(rt;
        found
            == (
                IpAddr::from([10, 0, 0, 1]),
                IpAddr::from([10, 0, 0, 2]),
                true
            )
    );
}

#[test]
fn an_ipv6_packet_of_either_version(rt: HostRuntime) {
    let bytes = IPV6;
    let Ok(packet) = IpSlice::from_slice(&bytes) else {
        fail(rt, "no packet");
    };
    let found = (
        packet.source_addr(),
        packet.destination_addr(),
        packet.payload_ip_number(),
    );
    let source = IpAddr::from([0xfd, 0, 0, 0, 0, 0, 0, 0, 0, 0, 0, 0, 0, 0, 0, 1]);
    let destination = IpAddr::from([0xfd, 0, 0, 0, 0, 0, 0, 0, 0, 0, 0, 0, 0, 0, 0, 2]);
    assert!(rt; found == (source, destination, IpNumber::UDP));
}

#[test]
fn no_bytes_and_another_version(rt: HostRuntime) {
    let found = (ip_fault(&[]), ip_fault(&[0x50]), ip_fault(&[0x44; 20]));
    let version = ip::HeaderError::UnsupportedIpVersion { version_number: 5 };
    let length = ip::HeaderError::Ipv4HeaderLengthSmallerThanHeader { ihl: 4 };
    let faults = (
        Some(ip::SliceError::Len(missing_in_slice(1, 0, Layer::IpHeader))),
        Some(ip::SliceError::IpHeaders(ip::HeadersError::Ip(version))),
        Some(ip::SliceError::IpHeaders(ip::HeadersError::Ip(length))),
    );
    assert!(rt; found == faults);
}
