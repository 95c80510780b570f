//! Extension headers after IP headers, whose numbers and lengths were others before. The bytes were
//! worked out after RFC 791, 4302 and 8200.

use super::parts::{IPV4_DESTINATION, IPV4_SOURCE, IPV6_DESTINATION, IPV6_SOURCE, PAYLOAD};
use super::written::{message, packet};
use crate::checks::{equal, equal_bytes};
use ep_base::{IpFragOffset, IpNumber};
use ep_ext::{
    IpAuthHeader, Ipv4Extensions, Ipv6Extensions, Ipv6FragmentHeader, Ipv6RawExtHeader,
    Ipv6RoutingExtensions,
};
use ep_ip::{Ipv4Header, Ipv6Header};
use ep_packet::IpHeaders;
use etherparse::PacketBuilder;
use std::alloc::Global;
use std::process::Abort;
use std::test::*;

// The functions below have no contracts, as tests alone call them.

fn auth() -> Option<IpAuthHeader> {
    IpAuthHeader::new(IpNumber(99), 5, 6, &[]).ok()
}

fn raw(payload: &[u8]) -> Option<Ipv6RawExtHeader> {
    Ipv6RawExtHeader::new_raw(IpNumber(99), payload).ok()
}

fn routing() -> Option<Ipv6RoutingExtensions> {
    match raw(&[4, 0, 0, 0, 0, 0]) {
        Some(routing) => Some(Ipv6RoutingExtensions {
            routing,
            final_destination_options: raw(&[1, 4, 9, 9, 9, 9]),
        }),
        None => None,
    }
}

fn ipv4_headers() -> IpHeaders {
    let header = Ipv4Header {
        source: IPV4_SOURCE,
        destination: IPV4_DESTINATION,
        time_to_live: 20,
        protocol: IpNumber(99),
        total_len: 9,
        header_checksum: 9,
        ..Ipv4Header::default()
    };
    IpHeaders::Ipv4(header, Ipv4Extensions { auth: auth() })
}

fn ipv6_extensions() -> Ipv6Extensions {
    Ipv6Extensions {
        hop_by_hop_options: raw(&[1, 4, 2, 3, 5, 6]),
        destination_options: raw(&[1, 4, 0, 0, 0, 0]),
        routing: routing(),
        fragment: Some(Ipv6FragmentHeader::new(IpNumber(99), IpFragOffset::ZERO, false, 7)),
        auth: auth(),
    }
}

fn ipv6_headers() -> IpHeaders {
    let mut header = Ipv6Header::default();
    header.source = IPV6_SOURCE;
    header.destination = IPV6_DESTINATION;
    header.hop_limit = 47;
    header.payload_length = 9;
    IpHeaders::Ipv6(header, ipv6_extensions())
}

const UDP_AFTER_AUTH: [u8; 48] = [
    0x45, 0, 0, 0x30, 0, 0, 0x40, 0, 0x14, 0x33, 0xe3, 0x47, 0xc0, 0xa8, 1, 1, 0xc0, 0xa8, 1, 2,
    0x11, 1, 0, 0, 0, 0, 0, 5, 0, 0, 0, 6, 0, 0x15, 4, 0xd2, 0, 0x10, 0x67, 0x7f, 1, 2, 3, 4, 5, 6,
    7, 8,
];

#[test]
fn udp_after_auth(rt: HostRuntime) {
    let written = message(
        rt,
        rt.alloc(),
        PacketBuilder::ip(ipv4_headers()).udp(21, 1234),
    );
    equal_bytes(rt, written.as_slice(), UDP_AFTER_AUTH.as_slice());
}

const UDP_AFTER_ALL: [u8; 108] = [
    0x60, 0, 0, 0, 0, 0x44, 0, 0x2f, 0xfd, 0, 0, 0, 0, 0, 0, 0, 0, 0, 0, 0, 0, 0, 0, 1, 0xfd, 0, 0,
    0, 0, 0, 0, 0, 0, 0, 0, 0, 0, 0, 0, 2, 0x3c, 0, 1, 4, 2, 3, 5, 6, 0x2b, 0, 1, 4, 0, 0, 0, 0,
    0x2c, 0, 4, 0, 0, 0, 0, 0, 0x33, 0, 0, 0, 0, 0, 0, 7, 0x3c, 1, 0, 0, 0, 0, 0, 5, 0, 0, 0, 6,
    0x11, 0, 1, 4, 9, 9, 9, 9, 0, 0x15, 4, 0xd2, 0, 0x10, 0xf0, 0xce, 1, 2, 3, 4, 5, 6, 7, 8,
];

#[test]
fn udp_after_all(rt: HostRuntime) {
    let written = message(
        rt,
        rt.alloc(),
        PacketBuilder::ip(ipv6_headers()).udp(21, 1234),
    );
    equal_bytes(rt, written.as_slice(), UDP_AFTER_ALL.as_slice());
}

const RAW_AFTER_ALL: [u8; 100] = [
    0x60, 0, 0, 0, 0, 0x3c, 0, 0x2f, 0xfd, 0, 0, 0, 0, 0, 0, 0, 0, 0, 0, 0, 0, 0, 0, 1, 0xfd, 0, 0,
    0, 0, 0, 0, 0, 0, 0, 0, 0, 0, 0, 0, 2, 0x3c, 0, 1, 4, 2, 3, 5, 6, 0x2b, 0, 1, 4, 0, 0, 0, 0,
    0x2c, 0, 4, 0, 0, 0, 0, 0, 0x33, 0, 0, 0, 0, 0, 0, 7, 0x3c, 1, 0, 0, 0, 0, 0, 5, 0, 0, 0, 6,
    0xfd, 0, 1, 4, 9, 9, 9, 9, 1, 2, 3, 4, 5, 6, 7, 8,
];

#[test]
fn raw_after_all(rt: HostRuntime) {
    let step = PacketBuilder::ip(ipv6_headers());
    let written = packet(rt, rt.alloc(), step, IpNumber(253), &PAYLOAD);
    equal_bytes(rt, written.as_slice(), RAW_AFTER_ALL.as_slice());
}

// The length of a packet with a payload of this number, and the byte at this index of it.
fn has_number_at(
    rt: impl Abort + Copy,
    alloc: Global,
    headers: IpHeaders,
    number: u8,
    position: (usize, usize),
) {
    let step = PacketBuilder::ip(headers);
    let written = packet(rt, alloc, step, IpNumber(number), &PAYLOAD);
    equal(
        rt,
        (written.len(), written.get(position.1)),
        (position.0, Some(&number)),
    );
}

fn is_last_number(rt: impl Abort + Copy, alloc: Global, number: u8) {
    has_number_at(rt, alloc, ipv6_headers(), number, (100, 84));
    has_number_at(rt, alloc, ipv4_headers(), number, (40, 20));
}

// Every number leads through the extension headers, also those of the headers themselves.
#[test]
fn last_numbers_of_extension_headers(rt: HostRuntime) {
    is_last_number(rt, rt.alloc(), 0);
    is_last_number(rt, rt.alloc(), 43);
    is_last_number(rt, rt.alloc(), 44);
    is_last_number(rt, rt.alloc(), 51);
    is_last_number(rt, rt.alloc(), 60);
}
