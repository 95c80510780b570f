//! Headers of IP packets. The bytes were worked out by hand after RFC 791, 4302 and 8200; the IPv4
//! checksum is that of a worked frame.
use crate::checks::{equal, equal_bytes, held};
use ep_base::err::{ValueTooBigError, ValueType};
use ep_base::{EtherType, IpFragOffset, IpNumber};
use ep_ext::err::{ip_exts, ipv6_exts};
use ep_ext::{IpAuthHeader, Ipv4Extensions, Ipv6Extensions, Ipv6FragmentHeader};
use ep_ip::{Ipv4Header, Ipv6Header};
use ep_packet::IpHeaders;
use ep_packet::err::ip::HeadersWriteError;
use std::test::*;

// The functions below have no contracts, as tests alone call them.

// The header of a UDP message of 16 bytes, and an authentication header of 12 bytes before UDP.
fn ipv4_with_auth(protocol: u8) -> IpHeaders {
    let header = Ipv4Header {
        total_len: 36,
        identification: 7,
        dont_fragment: false,
        time_to_live: 64,
        protocol: IpNumber(protocol),
        header_checksum: 0x66c0,
        source: [10, 0, 0, 1],
        destination: [10, 0, 0, 2],
        ..Ipv4Header::default()
    };
    let auth = IpAuthHeader::new(IpNumber::UDP, 5, 6, &[]).ok();
    IpHeaders::Ipv4(header, Ipv4Extensions { auth })
}

fn ipv6_header(next_header: u8) -> Ipv6Header {
    let mut header = Ipv6Header::default();
    header.next_header = IpNumber(next_header);
    header
}

fn with_fragment(header: Ipv6Header) -> IpHeaders {
    let mut extensions = Ipv6Extensions::default();
    let fragment = Ipv6FragmentHeader::new(IpNumber::UDP, IpFragOffset::ZERO, false, 7);
    extensions.fragment = Some(fragment);
    IpHeaders::Ipv6(header, extensions)
}

fn ipv6_with_fragment(next_header: u8) -> IpHeaders {
    with_fragment(ipv6_header(next_header))
}

// The length of the headers, and whether they are of IPv4 and of IPv6.
fn described(headers: &IpHeaders) -> (usize, [bool; 2]) {
    let versions = [headers.ipv4().is_some(), headers.ipv6().is_some()];
    (headers.header_len(), versions)
}

// Each is of one version alone.
#[test]
fn lengths_and_versions_of_headers(rt: HostRuntime) {
    equal(rt, described(&ipv4_with_auth(51)), (32, [true, false]));
    equal(rt, described(&ipv6_with_fragment(44)), (48, [false, true]));
    equal(rt, IpHeaders::MAX_LEN, 9268);
}

fn not_referenced() -> ipv6_exts::ExtsWalkError {
    ipv6_exts::ExtsWalkError::ExtNotReferenced {
        missing_ext: IpNumber(44),
    }
}

#[test]
fn numbers_after_headers(rt: HostRuntime) {
    equal(rt, ipv6_with_fragment(44).next_header(), Ok(IpNumber(17)));
    let fault = ip_exts::ExtsWalkError::Ipv6Exts(not_referenced());
    equal(rt, ipv6_with_fragment(17).next_header(), Err(fault));
}

// The number that headers name first.
fn first_number(headers: &IpHeaders) -> IpNumber {
    match headers {
        IpHeaders::Ipv4(header, _) => header.protocol,
        IpHeaders::Ipv6(header, _) => header.next_header,
    }
}

// What `set_next_headers` answers, and the number that the headers name first then.
fn linked(mut headers: IpHeaders) -> (EtherType, IpNumber) {
    let ether_type = headers.set_next_headers(IpNumber(6));
    (ether_type, first_number(&headers))
}

#[test]
fn linked_headers(rt: HostRuntime) {
    equal(
        rt,
        linked(ipv6_with_fragment(0)),
        (EtherType(0x86dd), IpNumber(44)),
    );
    equal(
        rt,
        linked(ipv4_with_auth(17)),
        (EtherType(0x0800), IpNumber(51)),
    );
}

type Set = Result<(), ValueTooBigError<usize>>;

fn too_big(actual: usize, max_allowed: usize, value_type: ValueType) -> Set {
    Err(ValueTooBigError {
        actual,
        max_allowed,
        value_type,
    })
}

#[test]
fn lengths_of_ipv6_payloads(rt: HostRuntime) {
    let kind = ValueType::Ipv6PayloadLength;
    equal(rt, ipv6_with_fragment(44).set_payload_len(65527), Ok(()));
    let refused = too_big(65536, 65535, kind);
    equal(rt, ipv6_with_fragment(44).set_payload_len(65528), refused);
    let refused = too_big(usize::MAX, 65535, kind);
    equal(
        rt,
        ipv6_with_fragment(44).set_payload_len(usize::MAX),
        refused,
    );
}

// What `set_payload_len` answers to the headers of IPv4, and the total length then.
fn total_len(len: usize) -> (Set, Option<u16>) {
    let mut headers = ipv4_with_auth(51);
    let set = headers.set_payload_len(len);
    match headers {
        IpHeaders::Ipv4(header, _) => (set, Some(header.total_len)),
        IpHeaders::Ipv6(_, _) => (set, None),
    }
}

#[test]
fn total_lengths(rt: HostRuntime) {
    equal(rt, total_len(100), (Ok(()), Some(132)));
    equal(rt, total_len(65503), (Ok(()), Some(65535)));
    let refused = too_big(65516, 65515, ValueType::Ipv4PayloadLength);
    equal(rt, total_len(65504), (refused, Some(36)));
}

// An IPv4 packet of 36 bytes, a UDP message in it, and two bytes after it.
const PACKET: [u8; 38] = [
    0x45, 0, 0, 0x24, 0, 7, 0, 0, 0x40, 0x11, 0x66, 0xc0, 10, 0, 0, 1, 10, 0, 0, 2, 9, 9, 9, 9, 9,
    9, 9, 9, 9, 9, 9, 9, 9, 9, 9, 9, 9, 9,
];

// The length of the headers, the length of the payload and its number, and whether it is a fragment
// by itself and by the headers.
fn headers_of_ipv4(packet: &[u8]) -> Option<([usize; 2], IpNumber, [bool; 2])> {
    match IpHeaders::from_ipv4_slice(packet) {
        Ok((headers, payload)) => Some((
            [headers.header_len(), payload.payload.len()],
            payload.ip_number,
            [payload.fragmented, headers.is_fragmenting_payload()],
        )),
        Err(_) => None,
    }
}

#[test]
fn headers_of_a_packet(rt: HostRuntime) {
    let wanted = Some(([20, 16], IpNumber(17), [false, false]));
    equal(rt, headers_of_ipv4(&PACKET), wanted);
    equal(rt, headers_of_ipv4(&PACKET[..35]), None);
}

#[test]
fn written_ipv4_headers(rt: HostRuntime) {
    let mut buffer = held(rt, rt.alloc());
    equal(rt, ipv4_with_auth(51).write(&mut buffer), Ok(()));
    let bytes = [
        0xaa, 0x45, 0, 0, 0x24, 0, 7, 0, 0, 0x40, 0x33, 0x66, 0x9e, 10, 0, 0, 1, 10, 0, 0, 2, 17,
        1, 0, 0, 0, 0, 0, 5, 0, 0, 0, 6,
    ];
    equal_bytes(rt, buffer.as_slice(), bytes.as_slice());
}

// RFC 8200, sections 3 and 4.5.
#[test]
fn written_ipv6_headers(rt: HostRuntime) {
    let header = Ipv6Header {
        traffic_class: 0x12,
        payload_length: 8,
        hop_limit: 64,
        source: [1; 16],
        destination: [2; 16],
        ..ipv6_header(44)
    };
    let mut buffer = held(rt, rt.alloc());
    equal(rt, with_fragment(header).write(&mut buffer), Ok(()));
    let bytes = [
        0xaa, 0x61, 0x20, 0, 0, 0, 8, 44, 64, 1, 1, 1, 1, 1, 1, 1, 1, 1, 1, 1, 1, 1, 1, 1, 1, 2, 2,
        2, 2, 2, 2, 2, 2, 2, 2, 2, 2, 2, 2, 2, 2, 17, 0, 0, 0, 0, 0, 0, 7,
    ];
    equal_bytes(rt, buffer.as_slice(), bytes.as_slice());
}

#[test]
fn headers_that_are_not_written(rt: HostRuntime) {
    let mut buffer = held(rt, rt.alloc());
    let refused = Err(HeadersWriteError::Ipv6Exts(not_referenced()));
    equal(rt, ipv6_with_fragment(17).write(&mut buffer), refused);
    equal_bytes(rt, buffer.as_slice(), [0xaa].as_slice());
    equal(rt, ipv6_with_fragment(44).write(&mut buffer), Ok(()));
    equal(rt, buffer.len(), 49);
}

#[test]
fn what_a_refusal_reports(rt: HostRuntime) {
    let error = HeadersWriteError::Ipv6Exts(not_referenced());
    equal(rt, error.memory(), false);
    equal(rt, error.ipv4_exts(), None);
    equal(rt, error.ipv6_exts(), Some(not_referenced()));
}
