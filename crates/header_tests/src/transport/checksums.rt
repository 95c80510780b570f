//! Checksums of UDP and TCP over both IP versions.

use crate::checks::equal;
use crate::payloads::filled;
use ep_base::err::{ValueTooBigError, ValueType};
use ep_base::{IpNumber, Ipv6FlowLabel};
use ep_ip::{Ipv4Header, Ipv4HeaderSlice, Ipv6Header, Ipv6HeaderSlice};
use ep_tcpudp::{TcpHeader, TcpHeaderSlice, TcpSlice, UdpHeader};
use std::alloc::Global;
use std::process::Abort;
use std::test::*;

const PAYLOAD: [u8; 8] = [1, 2, 3, 4, 5, 6, 7, 8];

// The source and the destination of messages, over IPv4 and over IPv6.
const V4: [[u8; 4]; 2] = [[10, 0, 0, 1], [10, 0, 0, 2]];

const V6: [[u8; 16]; 2] = [
    [0xfd, 0, 0, 0, 0, 0, 0, 0, 0, 0, 0, 0, 0, 0, 0, 1],
    [0xfd, 0, 0, 0, 0, 0, 0, 0, 0, 0, 0, 0, 0, 0, 0, 2],
];

pub(super) type Checksum = Result<u16, ValueTooBigError<usize>>;

// The functions below have no contracts, as tests alone call them.

fn ipv4_header(protocol: IpNumber) -> Ipv4Header {
    Ipv4Header {
        total_len: 36,
        time_to_live: 64,
        protocol,
        source: V4[0],
        destination: V4[1],
        ..Ipv4Header::default()
    }
}

fn ipv6_header(next_header: IpNumber) -> Ipv6Header {
    Ipv6Header {
        traffic_class: 0,
        flow_label: Ipv6FlowLabel::ZERO,
        payload_length: 28,
        next_header,
        hop_limit: 64,
        source: V6[0],
        destination: V6[1],
    }
}

// A header from port 1 to port 2.
fn udp_header(length: u16, checksum: u16) -> UdpHeader {
    UdpHeader {
        source_port: 1,
        destination_port: 2,
        length,
        checksum,
    }
}

fn udp_over_ipv4(length: u16, payload: &[u8]) -> [Checksum; 2] {
    let header = udp_header(length, 0);
    [
        header.calc_checksum_ipv4(&ipv4_header(IpNumber::UDP), payload),
        header.calc_checksum_ipv4_raw(V4[0], V4[1], payload),
    ]
}

fn udp_over_ipv6(length: u16, payload: &[u8]) -> [Checksum; 2] {
    let header = udp_header(length, 0);
    [
        header.calc_checksum_ipv6(&ipv6_header(IpNumber::UDP), payload),
        header.calc_checksum_ipv6_raw(V6[0], V6[1], payload),
    ]
}

// Such a header with its checksum over IPv4, and with that over IPv6.
fn sealed(payload: &[u8]) -> [Result<UdpHeader, ValueTooBigError<usize>>; 2] {
    [
        UdpHeader::with_ipv4_checksum(1, 2, &ipv4_header(IpNumber::UDP), payload),
        UdpHeader::with_ipv6_checksum(1, 2, &ipv6_header(IpNumber::UDP), payload),
    ]
}

// Ports 1 and 2 and the payload 1 to 8: other tools give dbb4 over IPv4 and f5b2 over IPv6.
#[test]
fn udp_checksums(rt: HostRuntime) {
    let headers = [Ok(udp_header(16, 0xdbb4)), Ok(udp_header(16, 0xf5b2))];
    equal(rt, sealed(&PAYLOAD), headers);
    equal(rt, udp_over_ipv4(16, &PAYLOAD), [Ok(0xdbb4); 2]);
    equal(rt, udp_over_ipv6(16, &PAYLOAD), [Ok(0xf5b2); 2]);
}

// The complement of a sum of ffff is 0, and ffff is written instead of it.
#[test]
fn udp_zero_checksum(rt: HostRuntime) {
    let header = UdpHeader {
        source_port: 0xffff - 17 - 8 - 8,
        destination_port: 0,
        length: 8,
        checksum: 0,
    };
    let sums = [
        header.calc_checksum_ipv4_raw([0; 4], [0; 4], &[]),
        header.calc_checksum_ipv6_raw([0; 16], [0; 16], &[]),
    ];
    equal(rt, sums, [Ok(0xffff); 2]);
}

fn udp_too_long(value_type: ValueType) -> ValueTooBigError<usize> {
    ValueTooBigError {
        actual: 65528,
        max_allowed: 65527,
        value_type,
    }
}

// The greatest payload, of zeros: other tools give ebe8 over IPv4 and 05e7 over IPv6.
#[test]
fn udp_greatest_payload(rt: HostRuntime) {
    let payload = filled(rt.alloc(), &[], 0, 65527);
    let headers = [Ok(udp_header(65535, 0xebe8)), Ok(udp_header(65535, 0x05e7))];
    equal(rt, sealed(&payload), headers);
    equal(rt, udp_over_ipv4(65535, &payload), [Ok(0xebe8); 2]);
    equal(rt, udp_over_ipv6(65535, &payload), [Ok(0x05e7); 2]);
}

// One byte more, with which a header has a checksum over IPv6 alone.
#[test]
fn udp_payload_too_long(rt: HostRuntime) {
    let payload = filled(rt.alloc(), &[], 0, 65528);
    let over_v4 = udp_too_long(ValueType::UdpPayloadLengthIpv4);
    let over_v6 = udp_too_long(ValueType::UdpPayloadLengthIpv6);
    equal(rt, sealed(&payload), [Err(over_v4), Err(over_v6)]);
    equal(rt, udp_over_ipv4(65535, &payload), [Err(over_v4); 2]);
    let [in_packet, raw] = udp_over_ipv6(65535, &payload);
    equal(rt, [in_packet.is_ok(), raw.is_ok()], [true; 2]);
}

// The checksums of a segment as a whole, of the bytes of its header and a payload, and of its
// fields and a payload.
type Checksums = [Option<Checksum>; 3];

fn of_segment_over_ipv4(bytes: &[u8], ends: [[u8; 4]; 2]) -> Option<Checksum> {
    match TcpSlice::from_slice(bytes) {
        Ok(segment) => Some(segment.calc_checksum_ipv4(ends[0], ends[1])),
        Err(_) => None,
    }
}

fn of_header_over_ipv4(bytes: &[u8], payload: &[u8], ends: [[u8; 4]; 2]) -> Option<Checksum> {
    match TcpHeaderSlice::from_slice(bytes) {
        Ok(header) => Some(header.calc_checksum_ipv4_raw(ends[0], ends[1], payload)),
        Err(_) => None,
    }
}

fn over_ipv4(bytes: &[u8], ends: [[u8; 4]; 2]) -> Checksums {
    match TcpHeader::from_slice(bytes) {
        Ok((fields, payload)) => [
            of_segment_over_ipv4(bytes, ends),
            of_header_over_ipv4(bytes, payload, ends),
            Some(fields.calc_checksum_ipv4_raw(ends[0], ends[1], payload)),
        ],
        Err(_) => [None; 3],
    }
}

fn of_segment_over_ipv6(bytes: &[u8], ends: [[u8; 16]; 2]) -> Option<Checksum> {
    match TcpSlice::from_slice(bytes) {
        Ok(segment) => Some(segment.calc_checksum_ipv6(ends[0], ends[1])),
        Err(_) => None,
    }
}

fn of_header_over_ipv6(bytes: &[u8], payload: &[u8], ends: [[u8; 16]; 2]) -> Option<Checksum> {
    match TcpHeaderSlice::from_slice(bytes) {
        Ok(header) => Some(header.calc_checksum_ipv6_raw(ends[0], ends[1], payload)),
        Err(_) => None,
    }
}

fn over_ipv6(bytes: &[u8], ends: [[u8; 16]; 2]) -> Checksums {
    match TcpHeader::from_slice(bytes) {
        Ok((fields, payload)) => [
            of_segment_over_ipv6(bytes, ends),
            of_header_over_ipv6(bytes, payload, ends),
            Some(fields.calc_checksum_ipv6_raw(ends[0], ends[1], payload)),
        ],
        Err(_) => [None; 3],
    }
}

fn sum(checksum: u16) -> Option<Checksum> {
    Some(Ok(checksum))
}

fn too_long(actual: usize, max_allowed: usize) -> Option<Checksum> {
    Some(Err(ValueTooBigError {
        actual,
        max_allowed,
        value_type: ValueType::TcpPayloadLengthIpv4,
    }))
}

// A first segment of port 1 to port 2: other tools give 97da over IPv4 and b1d8 over IPv6.
const SYN: [u8; 20] = [
    0, 1, 0, 2, 0, 0, 0, 3, 0, 0, 0, 0, 0x50, 2, 4, 0, 0x97, 0xda, 0, 0,
];

#[test]
fn tcp_checksums_between_addresses(rt: HostRuntime) {
    equal(rt, over_ipv4(&SYN, V4), [sum(0x97da); 3]);
    equal(rt, over_ipv6(&SYN, V6), [sum(0xb1d8); 3]);
}

// The same with its three reserved bits set: slices sum them as they are, which gives 89da over
// IPv4 and a3d8 over IPv6, and fields don't have them.
#[test]
fn tcp_reserved_bits_are_summed(rt: HostRuntime) {
    let mut bytes = SYN;
    bytes[12] = 0x5e;
    let wanted = [sum(0x89da), sum(0x89da), sum(0x97da)];
    equal(rt, over_ipv4(&bytes, V4), wanted);
    let wanted = [sum(0xa3d8), sum(0xa3d8), sum(0xb1d8)];
    equal(rt, over_ipv6(&bytes, V6), wanted);
}

// No port but for the number 40905, and the payload 1 to 8.
const SUM_OF_ZERO: [u8; 28] = [
    0, 0, 0, 0, 0, 0, 0x9f, 0xc9, 0, 0, 0, 0, 0x50, 0, 0, 0, 0, 0, 0, 0, 1, 2, 3, 4, 5, 6, 7, 8,
];

#[test]
fn tcp_zero_checksum(rt: HostRuntime) {
    equal(rt, over_ipv4(&SUM_OF_ZERO, [[0; 4]; 2]), [sum(0); 3]);
    equal(rt, over_ipv6(&SUM_OF_ZERO, [[0; 16]; 2]), [sum(0); 3]);
}

// The checksums over IPv4 of a segment of so many bytes, of which all after the prefix given are 1.
fn of_ones(rt: impl Abort + Copy, alloc: Global, prefix: &[u8], len: usize, wanted: Checksums) {
    equal(rt, over_ipv4(&filled(alloc, prefix, 1, len), V4), wanted);
}

// From port 1 to port 2 with the number 3 and the window 1024.
const HEADER: [u8; 20] = [
    0, 1, 0, 2, 0, 0, 0, 3, 0, 0, 0, 0, 0x50, 0, 4, 0, 0, 0, 0, 0,
];

// The same before 40 bytes of options.
const HEADER_OF_OPTIONS: [u8; 20] = [
    0, 1, 0, 2, 0, 0, 0, 3, 0, 0, 0, 0, 0xf0, 0, 4, 0, 0, 0, 0, 0,
];

// The greatest payload over IPv4, of ones, after headers of 20 and of 60 bytes, and one byte more:
// other tools give 217b and 817a.
#[test]
fn tcp_greatest_payload(rt: HostRuntime) {
    let longer = [
        too_long(65536, 65535),
        too_long(65516, 65515),
        too_long(65516, 65515),
    ];
    of_ones(rt, rt.alloc(), &HEADER, 65535, [sum(0x217b); 3]);
    of_ones(rt, rt.alloc(), &HEADER, 65536, longer);
}

#[test]
fn tcp_greatest_payload_with_options(rt: HostRuntime) {
    let longer = [
        too_long(65536, 65535),
        too_long(65476, 65475),
        too_long(65476, 65475),
    ];
    of_ones(rt, rt.alloc(), &HEADER_OF_OPTIONS, 65535, [sum(0x817a); 3]);
    of_ones(rt, rt.alloc(), &HEADER_OF_OPTIONS, 65536, longer);
}

// Over IPv6, where a separate program gives 873a, the limit is above 4 gigabytes; `laws::examples`
// has it.
#[test]
fn tcp_greater_payload_over_ipv6(rt: HostRuntime) {
    let bytes = filled(rt.alloc(), &HEADER_OF_OPTIONS, 1, 60 + 65516);
    equal(rt, over_ipv6(&bytes, V6), [sum(0x873a); 3]);
}

// Segments of ones, but for the data offset, of 65534 and 65535 bytes, and one byte more: a
// separate program gives 1e79 and 1d78, and with 40 bytes of options 7e78 and 7d77.
#[test]
fn tcp_greatest_segment(rt: HostRuntime) {
    let ones = [1, 1, 1, 1, 1, 1, 1, 1, 1, 1, 1, 1, 0x50];
    let longer = [
        too_long(65536, 65535),
        too_long(65516, 65515),
        too_long(65516, 65515),
    ];
    of_ones(rt, rt.alloc(), &ones, 65534, [sum(0x1e79); 3]);
    of_ones(rt, rt.alloc(), &ones, 65535, [sum(0x1d78); 3]);
    of_ones(rt, rt.alloc(), &ones, 65536, longer);
}

#[test]
fn tcp_greatest_segment_with_options(rt: HostRuntime) {
    let ones = [1, 1, 1, 1, 1, 1, 1, 1, 1, 1, 1, 1, 0xf0];
    let longer = [
        too_long(65536, 65535),
        too_long(65476, 65475),
        too_long(65476, 65475),
    ];
    of_ones(rt, rt.alloc(), &ones, 65534, [sum(0x7e78); 3]);
    of_ones(rt, rt.alloc(), &ones, 65535, [sum(0x7d77); 3]);
    of_ones(rt, rt.alloc(), &ones, 65536, longer);
}

// The checksums of fields and of the bytes of a header in an IPv4 packet, with no payload.
fn in_ipv4(bytes: &[u8], packet: &[u8]) -> Option<[Checksum; 2]> {
    let ipv4 = ipv4_header(IpNumber::TCP);
    match (
        TcpHeaderSlice::from_slice(bytes),
        Ipv4HeaderSlice::from_slice(packet),
    ) {
        (Ok(header), Ok(packet)) => Some([
            header.to_header().calc_checksum_ipv4(&ipv4, &[]),
            header.calc_checksum_ipv4(&packet, &[]),
        ]),
        _ => None,
    }
}

// The same of IPv6.
fn in_ipv6(bytes: &[u8], packet: &[u8]) -> Option<[Checksum; 2]> {
    let ipv6 = ipv6_header(IpNumber::TCP);
    match (
        TcpHeaderSlice::from_slice(bytes),
        Ipv6HeaderSlice::from_slice(packet),
    ) {
        (Ok(header), Ok(packet)) => Some([
            header.to_header().calc_checksum_ipv6(&ipv6, &[]),
            header.calc_checksum_ipv6(&packet, &[]),
        ]),
        _ => None,
    }
}

#[test]
fn tcp_checksums_in_packets(rt: HostRuntime) {
    let packet = ipv4_header(IpNumber::TCP).to_bytes();
    equal(rt, in_ipv4(&SYN, packet.as_slice()), Some([Ok(0x97da); 2]));
    let packet = ipv6_header(IpNumber::TCP).to_bytes();
    equal(rt, in_ipv6(&SYN, &packet), Some([Ok(0xb1d8); 2]));
}
