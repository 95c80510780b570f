//! Each step that adds a transport header, once. The messages were made by a separate program after
//! RFC 768, 792, 4443 and 9293.

use super::parts::{IPV4_DESTINATION, IPV4_SOURCE, ipv4, ipv6};
use super::written::message;
use crate::checks::equal;
use ep_icmp::icmpv4::{RedirectCode, RedirectHeader};
use ep_icmp::{Icmpv4Type, Icmpv6Type};
use etherparse::{PacketBuilder, PacketBuilderStep, TransportStep};
use std::alloc::Global;
use std::process::Abort;
use std::test::*;

// The functions below have no contracts, as tests alone call them.

// The step writes an IPv4 header with this number, and after it the message.
fn over_ipv4<L: TransportStep>(
    rt: impl Abort + Copy,
    alloc: Global,
    step: PacketBuilderStep<L>,
    number: u8,
    wanted: &[u8],
) {
    let written = message(rt, alloc, step);
    equal(rt, written.get(9), Some(&number));
    equal(rt, written.get(20..), Some(wanted));
}

// The same of an IPv6 header.
fn over_ipv6<L: TransportStep>(
    rt: impl Abort + Copy,
    alloc: Global,
    step: PacketBuilderStep<L>,
    number: u8,
    wanted: &[u8],
) {
    let written = message(rt, alloc, step);
    equal(rt, written.get(6), Some(&number));
    equal(rt, written.get(40..), Some(wanted));
}

const UDP_OVER_IPV4: [u8; 16] = [
    0, 0x15, 4, 0xd2, 0, 0x10, 0x67, 0x7f, 1, 2, 3, 4, 5, 6, 7, 8,
];

const UDP_OVER_IPV6: [u8; 16] = [
    0, 0x15, 4, 0xd2, 0, 0x10, 0xf0, 0xce, 1, 2, 3, 4, 5, 6, 7, 8,
];

#[test]
fn udp_over_both_versions(rt: HostRuntime) {
    over_ipv4(rt, rt.alloc(), ipv4().udp(21, 1234), 17, &UDP_OVER_IPV4);
    over_ipv6(rt, rt.alloc(), ipv6().udp(21, 1234), 17, &UDP_OVER_IPV6);
}

const ICMPV4_KIND: [u8; 16] = [5, 1, 0xe0, 0xe9, 0x0a, 0, 0, 1, 1, 2, 3, 4, 5, 6, 7, 8];

#[test]
fn icmpv4_kind(rt: HostRuntime) {
    let kind = Icmpv4Type::Redirect(RedirectHeader {
        code: RedirectCode::RedirectForHost,
        gateway_internet_address: [10, 0, 0, 1],
    });
    over_ipv4(rt, rt.alloc(), ipv4().icmpv4(kind), 1, &ICMPV4_KIND);
}

const ICMPV4_RAW: [u8; 16] = [0xc8, 3, 0x23, 0xe2, 1, 2, 3, 4, 1, 2, 3, 4, 5, 6, 7, 8];

const ICMPV4_ECHO_REQUEST: [u8; 16] = [8, 0, 0xe7, 0xe0, 0, 5, 0, 6, 1, 2, 3, 4, 5, 6, 7, 8];

const ICMPV4_ECHO_REPLY: [u8; 16] = [0, 0, 0xef, 0xe0, 0, 5, 0, 6, 1, 2, 3, 4, 5, 6, 7, 8];

#[test]
fn icmpv4_raw_and_echo_messages(rt: HostRuntime) {
    let raw = ipv4().icmpv4_raw(200, 3, [1, 2, 3, 4]);
    let request = ipv4().icmpv4_echo_request(5, 6);
    let pool_answer = ipv4().icmpv4_echo_reply(5, 6);
    over_ipv4(rt, rt.alloc(), raw, 1, &ICMPV4_RAW);
    over_ipv4(rt, rt.alloc(), request, 1, &ICMPV4_ECHO_REQUEST);
    over_ipv4(rt, rt.alloc(), pool_answer, 1, &ICMPV4_ECHO_REPLY);
}

// Its checksum covers no addresses, so it is the same.
const ICMPV4_OVER_IPV6: [u8; 16] = [0, 0, 0xef, 0xe0, 0, 5, 0, 6, 1, 2, 3, 4, 5, 6, 7, 8];

#[test]
fn icmpv4_over_ipv6(rt: HostRuntime) {
    over_ipv6(
        rt,
        rt.alloc(),
        ipv6().icmpv4_echo_reply(5, 6),
        1,
        &ICMPV4_OVER_IPV6,
    );
}

const ICMPV6_KIND: [u8; 16] = [2, 0, 0xee, 0x9c, 0, 0, 5, 0, 1, 2, 3, 4, 5, 6, 7, 8];

#[test]
fn icmpv6_kind(rt: HostRuntime) {
    let step = ipv6().icmpv6(Icmpv6Type::PacketTooBig { mtu: 1280 });
    over_ipv6(rt, rt.alloc(), step, 58, &ICMPV6_KIND);
}

const ICMPV6_RAW: [u8; 16] = [0xc8, 3, 0x29, 0x93, 1, 2, 3, 4, 1, 2, 3, 4, 5, 6, 7, 8];

const ICMPV6_ECHO_REQUEST: [u8; 16] = [0x80, 0, 0x75, 0x91, 0, 5, 0, 6, 1, 2, 3, 4, 5, 6, 7, 8];

const ICMPV6_ECHO_REPLY: [u8; 16] = [0x81, 0, 0x74, 0x91, 0, 5, 0, 6, 1, 2, 3, 4, 5, 6, 7, 8];

#[test]
fn icmpv6_raw_and_echo_messages(rt: HostRuntime) {
    let raw = ipv6().icmpv6_raw(200, 3, [1, 2, 3, 4]);
    let request = ipv6().icmpv6_echo_request(5, 6);
    let pool_answer = ipv6().icmpv6_echo_reply(5, 6);
    over_ipv6(rt, rt.alloc(), raw, 58, &ICMPV6_RAW);
    over_ipv6(rt, rt.alloc(), request, 58, &ICMPV6_ECHO_REQUEST);
    over_ipv6(rt, rt.alloc(), pool_answer, 58, &ICMPV6_ECHO_REPLY);
}

// How long the packets are, of each kind of step.
#[test]
fn sizes(rt: HostRuntime) {
    let ip = PacketBuilder::ipv4(IPV4_SOURCE, IPV4_DESTINATION, 20);
    let raw = ip.size(5);
    let udp = ip.udp(1, 2).size(5);
    let ip = PacketBuilder::ipv4(IPV4_SOURCE, IPV4_DESTINATION, 20);
    let tcp = ip.tcp(1, 2, 3, 4).size(5);
    let ip = PacketBuilder::ipv4(IPV4_SOURCE, IPV4_DESTINATION, 20);
    let icmpv4 = ip.icmpv4_echo_reply(1, 2).size(5);
    let ip = PacketBuilder::ipv4(IPV4_SOURCE, IPV4_DESTINATION, 20);
    let icmpv6 = ip.icmpv6_echo_reply(1, 2).size(5);
    equal(rt, [raw, udp, tcp, icmpv4, icmpv6], [25, 33, 45, 33, 33]);
}
