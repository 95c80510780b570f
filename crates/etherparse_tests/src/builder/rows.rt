//! Rows of frames. The bytes are independent of the code: they were worked out after RFC 768, 791
//! and 8200 and IEEE 802.1Q.

use super::parts::{IPV6_DESTINATION, IPV6_SOURCE, id, ipv4};
use super::refusals::is_refused;
use super::written::{message, packet};
use crate::checks::{equal, equal_bytes};
use ep_base::IpNumber;
use ep_base::err::{ValueTooBigError, ValueType};
use ep_ext::Ipv4Extensions;
use ep_ip::Ipv4Header;
use ep_link::Ethernet2Header;
use ep_packet::IpHeaders;
use etherparse::err::packet::BuildWriteError;
use etherparse::{PacketBuilder, PacketBuilderStep};
use std::alloc::Global;
use std::process::Abort;
use std::test::*;

const BUILDER_UDP: [u8; 50] = [
    7, 8, 9, 0x0a, 0x0b, 0x0c, 1, 2, 3, 4, 5, 6, 8, 0, 0x45, 0, 0, 0x24, 0, 0, 0x40, 0, 0x14, 0x11,
    0xe3, 0x75, 0xc0, 0xa8, 1, 1, 0xc0, 0xa8, 1, 2, 0, 0x15, 4, 0xd2, 0, 0x10, 0x67, 0x7f, 1, 2, 3,
    4, 5, 6, 7, 8,
];

#[test]
fn builder_udp(rt: HostRuntime) {
    let step = PacketBuilder::ethernet2([1, 2, 3, 4, 5, 6], [7, 8, 9, 10, 11, 12])
        .ipv4([192, 168, 1, 1], [192, 168, 1, 2], 20)
        .udp(21, 1234);
    equal(rt, step.size(8), 50);
    equal_bytes(
        rt,
        message(rt, rt.alloc(), step).as_slice(),
        BUILDER_UDP.as_slice(),
    );
}

// The functions below have no contracts, as tests alone call them.

fn frame() -> PacketBuilderStep<Ethernet2Header> {
    PacketBuilder::ethernet2([2, 0, 0, 0, 0, 1], [2, 0, 0, 0, 0, 2])
}

// The step writes these bytes with a payload of UDP.
fn writes(
    rt: impl Abort + Copy,
    alloc: Global,
    step: PacketBuilderStep<IpHeaders>,
    payload: &[u8],
    wanted: &[u8],
) {
    equal(
        rt,
        packet(rt, alloc, step, IpNumber::UDP, payload).as_slice(),
        wanted,
    );
}

// A UDP message between the addresses of the IPv6 header.
const UDP_OVER_IPV6: [u8; 16] = [0, 1, 0, 2, 0, 0x10, 0xf5, 0xb2, 1, 2, 3, 4, 5, 6, 7, 8];

const IPV6_UDP: [u8; 70] = [
    2, 0, 0, 0, 0, 2, 2, 0, 0, 0, 0, 1, 0x86, 0xdd, 0x60, 0, 0, 0, 0, 0x10, 0x11, 0x40, 0xfd, 0, 0,
    0, 0, 0, 0, 0, 0, 0, 0, 0, 0, 0, 0, 1, 0xfd, 0, 0, 0, 0, 0, 0, 0, 0, 0, 0, 0, 0, 0, 0, 2, 0, 1,
    0, 2, 0, 0x10, 0xf5, 0xb2, 1, 2, 3, 4, 5, 6, 7, 8,
];

#[test]
fn ipv6_udp(rt: HostRuntime) {
    let step = frame().ipv6(IPV6_SOURCE, IPV6_DESTINATION, 64);
    writes(rt, rt.alloc(), step, &UDP_OVER_IPV6, &IPV6_UDP);
}

const ONE_TAG: [u8; 74] = [
    2, 0, 0, 0, 0, 2, 2, 0, 0, 0, 0, 1, 0x81, 0, 0, 5, 0x86, 0xdd, 0x60, 0, 0, 0, 0, 0x10, 0x11,
    0x40, 0xfd, 0, 0, 0, 0, 0, 0, 0, 0, 0, 0, 0, 0, 0, 0, 1, 0xfd, 0, 0, 0, 0, 0, 0, 0, 0, 0, 0, 0,
    0, 0, 0, 2, 0, 1, 0, 2, 0, 0x10, 0xf5, 0xb2, 1, 2, 3, 4, 5, 6, 7, 8,
];

#[test]
fn one_tag(rt: HostRuntime) {
    let step = frame()
        .single_vlan(id(5))
        .ipv6(IPV6_SOURCE, IPV6_DESTINATION, 64);
    writes(rt, rt.alloc(), step, &UDP_OVER_IPV6, &ONE_TAG);
}

// A UDP message between the addresses of the IPv4 header below.
const UDP_OVER_IPV4: [u8; 16] = [0, 1, 0, 2, 0, 0x10, 0xdb, 0xb4, 1, 2, 3, 4, 5, 6, 7, 8];

const TWO_TAGS: [u8; 58] = [
    2, 0, 0, 0, 0, 2, 2, 0, 0, 0, 0, 1, 0x88, 0xa8, 0, 5, 0x81, 0, 0, 9, 8, 0, 0x45, 0, 0, 0x24, 0,
    7, 0, 0, 0x40, 0x11, 0x66, 0xc0, 0x0a, 0, 0, 1, 0x0a, 0, 0, 2, 0, 1, 0, 2, 0, 0x10, 0xdb, 0xb4,
    1, 2, 3, 4, 5, 6, 7, 8,
];

#[test]
fn two_tags(rt: HostRuntime) {
    let header = Ipv4Header {
        identification: 7,
        dont_fragment: false,
        time_to_live: 64,
        source: [10, 0, 0, 1],
        destination: [10, 0, 0, 2],
        ..Ipv4Header::default()
    };
    let step = frame()
        .double_vlan(id(5), id(9))
        .ip(IpHeaders::Ipv4(header, Ipv4Extensions { auth: None }));
    writes(rt, rt.alloc(), step, &UDP_OVER_IPV4, &TWO_TAGS);
}

#[test]
fn icmpv6_over_ipv4(rt: HostRuntime) {
    let step = ipv4().icmpv6_echo_request(1, 2);
    is_refused(rt, rt.alloc(), step, 8, BuildWriteError::Icmpv6InIpv4);
}

#[test]
fn udp_too_long(rt: HostRuntime) {
    let fault = BuildWriteError::PayloadLen(ValueTooBigError {
        actual: 65516,
        max_allowed: 65515,
        value_type: ValueType::Ipv4PayloadLength,
    });
    is_refused(rt, rt.alloc(), ipv4().udp(21, 1234), 65508, fault);
}
