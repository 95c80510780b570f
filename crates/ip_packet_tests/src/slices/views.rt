//! What views say of packets. The bytes are those of `packets`, or made by the RFCs' tables.

use super::packets::{IPV4, IPV6};
use crate::checks::fail;
use ep_base::{IpNumber, LenSource};
use ep_ipslice::{
    IpPayloadSlice, IpSlice, Ipv4ExtensionsSlice, Ipv4Slice, Ipv6ExtensionSliceIter,
    Ipv6ExtensionsSlice, Ipv6Slice, laws,
};
use std::cmp::Ordering;
use std::hash::{FoldHasher, Hasher};
use std::test::*;

// Whether the payload of an IPv4 packet with these flags and this offset is a fragment: what the
// packet says, and what its payload says.
fn is_fragment_with(flags: u8, offset: u8) -> Option<(bool, bool)> {
    let mut bytes = IPV4;
    bytes[6] = flags;
    bytes[7] = offset;
    match IpSlice::from_slice(&bytes) {
        Ok(packet) => Some((packet.is_fragmenting_payload(), packet.payload().fragmented)),
        Err(_) => None,
    }
}

#[test]
fn ipv4_fragments(rt: HostRuntime) {
    let rows = [
        (0x20, 0, true),
        (0, 1, true),
        (0x20, 1, true),
        (0x1f, 0xff, true),
        (0x40, 0, false),
        (0, 0, false),
    ];
    for (flags, offset, is_fragment) in rows {
        assert!(rt; is_fragment_with(flags, offset) == Some((is_fragment, is_fragment)));
    }
}

#[test]
fn fragment_fields_of_an_ipv4_packet(rt: HostRuntime) {
    let mut bytes = IPV4;
    bytes[4] = 1;
    bytes[6] = 0x20;
    bytes[7] = 5;
    let Ok(packet) = Ipv4Slice::from_slice(&bytes) else {
        fail(rt, "no packet");
    };
    let (identification, offset, more) = laws::ipv4_fragment_fields(&packet);
    assert!(rt; (identification, offset.value(), more) == (0x107, 5, true));
}

fn ipv6_fragment_fields(bytes: &[u8]) -> Option<(u32, u16, bool)> {
    let Ok(packet) = Ipv6Slice::from_slice(bytes) else {
        return None;
    };
    match laws::ipv6_fragment_fields(&packet) {
        Some((identification, offset, more)) => Some((identification, offset.value(), more)),
        None => None,
    }
}

#[test]
fn fragment_fields_of_an_ipv6_packet(rt: HostRuntime) {
    let bytes = IPV6;
    assert!(rt; ipv6_fragment_fields(&bytes) == Some((7, 1, false)));
}

// The first fragment header's bytes after this number.
fn first_fragment(first: u8, bytes: &[u8]) -> Option<&[u8]> {
    let Ok((extensions, _, _)) = Ipv6ExtensionsSlice::from_slice(IpNumber(first), bytes) else {
        return None;
    };
    match extensions.first_fragment_header() {
        Some(header) => Some(header.slice()),
        None => None,
    }
}

#[test]
fn the_first_fragment_header(rt: HostRuntime) {
    let bytes = [
        44, 0, 0, 0, 0, 0, 0, 0, 44, 0, 0, 0x10, 0, 0, 0, 7, 17, 0, 0, 1, 0, 0, 0, 8,
    ];
    let found = (
        first_fragment(43, &bytes),
        first_fragment(17, &bytes).is_none(),
        Ipv6ExtensionsSlice::from_slice(IpNumber::UDP, &bytes).is_ok(),
    );
    assert!(rt; found == (Some(&bytes[8..16]), true, true));
}

// An IPv4 packet takes one authentication header, an IPv6 packet each.
#[test]
fn authentication_headers_after_one_another(rt: HostRuntime) {
    let mut bytes = IPV4;
    bytes[20] = 51;
    let Ok(packet) = Ipv4Slice::from_slice(&bytes) else {
        fail(rt, "no packet");
    };
    let found = (packet.payload_ip_number(), packet.payload().payload);
    assert!(rt; found == (IpNumber::AUTHENTICATION_HEADER, &bytes[32..34]));
}

#[test]
fn authentication_headers_after_an_ipv6_header(rt: HostRuntime) {
    let bytes = [
        51, 1, 0, 0, 1, 2, 3, 4, 5, 6, 7, 8, 17, 1, 0, 0, 1, 2, 3, 4, 5, 6, 7, 8, 0xaa,
    ];
    let Ok((extensions, number, rest)) = Ipv6ExtensionsSlice::from_slice(IpNumber(51), &bytes)
    else {
        fail(rt, "refused");
    };
    let mut headers = extensions.into_iter();
    let there = [
        headers.next().is_some(),
        headers.next().is_some(),
        headers.next().is_some(),
    ];
    assert!(rt; (number, rest, there) == (IpNumber::UDP, &bytes[24..], [true, true, false]));
}

#[test]
fn packets_of_a_version_as_packets_of_either(rt: HostRuntime) {
    let bytes = IPV4;
    let Ok(packet) = Ipv4Slice::from_slice(&bytes) else {
        fail(rt, "no packet");
    };
    let either = IpSlice::from(packet);
    let found = (
        either.ipv4().is_some(),
        either.ipv6().is_some(),
        either.payload_ip_number(),
    );
    assert!(rt; found == (true, false, IpNumber::UDP));
}

#[test]
fn an_ipv6_packet_as_one_of_either(rt: HostRuntime) {
    let bytes = IPV6;
    let Ok(packet) = Ipv6Slice::from_slice(&bytes) else {
        fail(rt, "no packet");
    };
    let either = IpSlice::from(packet);
    let found = (
        either.ipv4().is_some(),
        either.ipv6().is_some(),
        either.payload().payload,
    );
    assert!(rt; found == (false, true, &bytes[84..86]));
}

#[test]
fn views_of_nothing(rt: HostRuntime) {
    let found = (
        Ipv4ExtensionsSlice::default().is_empty(),
        Ipv6ExtensionSliceIter::default().next().is_none(),
        Ipv6ExtensionSliceIter::default() == Ipv6ExtensionSliceIter::default(),
    );
    assert!(rt; found == (true, true, true));
}

// The fields of the authentication header after an IPv4 header.
fn auth_fields(bytes: &[u8]) -> Option<(IpNumber, u32, u32)> {
    let Ok((extensions, _, _)) = Ipv4ExtensionsSlice::from_slice(IpNumber(51), bytes) else {
        return None;
    };
    match extensions.to_header().auth {
        Some(auth) => Some((auth.next_header, auth.spi, auth.sequence_number)),
        None => None,
    }
}

#[test]
fn an_authentication_header_with_its_own_fields(rt: HostRuntime) {
    let bytes = IPV4;
    let fields = (IpNumber::UDP, 0x01020304, 0x05060708);
    assert!(rt; auth_fields(&bytes[20..]) == Some(fields));
}

fn payload(
    ip_number: u8,
    fragmented: bool,
    len_source: LenSource,
    bytes: &[u8],
) -> IpPayloadSlice<'_> {
    IpPayloadSlice {
        ip_number: IpNumber(ip_number),
        fragmented,
        len_source,
        payload: bytes,
    }
}

// Each row is above those before it: number, flag, source and bytes count in this order.
#[test]
fn payloads_in_their_order(rt: HostRuntime) {
    let rows = [
        payload(6, true, LenSource::Ipv6HeaderPayloadLen, &[9]),
        payload(17, false, LenSource::Ipv6HeaderPayloadLen, &[9]),
        payload(17, true, LenSource::Slice, &[9]),
        payload(17, true, LenSource::Ipv4HeaderTotalLen, &[]),
        payload(17, true, LenSource::Ipv4HeaderTotalLen, &[1]),
        payload(17, true, LenSource::Ipv4HeaderTotalLen, &[1, 0]),
    ];
    for (at, a) in rows.iter().enumerate() {
        for (other, b) in rows.iter().enumerate() {
            assert!(rt; (a.cmp(b), a == b) == (at.cmp(&other), at == other));
        }
    }
}

#[test]
fn equal_payloads_are_hashed_alike(rt: HostRuntime) {
    let (a, b) = ([1, 2], [1, 2]);
    let (mut one, mut other) = (FoldHasher::default(), FoldHasher::default());
    let source = LenSource::Ipv4HeaderTotalLen;
    laws::traits::payload_hashes_all_fields(&payload(17, true, source, &a), &mut one);
    laws::traits::payload_hashes_all_fields(&payload(17, true, source, &b), &mut other);
    assert!(rt; one.finish() == other.finish());
}
