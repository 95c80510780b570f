//! Every header before the network layer with every header of it. The bytes were worked out after
//! IEEE 802.3 and 802.1Q, libpcap's page on Linux cooked captures and RFC 791, 826 and 8200.

use super::parts::{
    IPV4_DESTINATION, IPV4_SOURCE, IPV6_DESTINATION, IPV6_SOURCE, PAYLOAD, arp, ethernet2, id,
    ipv4, ipv6, linux_sll,
};
use super::written::packet;
use crate::checks::{are_joined, equal, fail};
use ep_base::{EtherType, IpNumber};
use ep_ext::{Ipv4Extensions, Ipv6Extensions};
use ep_ip::{Ipv4Header, Ipv6Header};
use ep_link::{ArpPacket, LinuxSllPacketType};
use ep_packet::{IpHeaders, SlicedPacket};
use ep_tag::{DoubleVlanHeader, SingleVlanHeader, VlanHeader, VlanPcp};
use etherparse::{LinkStep, PacketBuilder, PacketBuilderStep, laws};
use std::alloc::Global;
use std::process::Abort;
use std::test::*;

// An IPv4 packet of number 253, after its ether type.
const IPV4: [u8; 30] = [
    8, 0, 0x45, 0, 0, 0x1c, 0, 0, 0x40, 0, 0x14, 0xfd, 0xe2, 0x91, 0xc0, 0xa8, 1, 1, 0xc0, 0xa8, 1,
    2, 1, 2, 3, 4, 5, 6, 7, 8,
];

// The same of IPv6.
const IPV6: [u8; 50] = [
    0x86, 0xdd, 0x60, 0, 0, 0, 0, 8, 0xfd, 0x2f, 0xfd, 0, 0, 0, 0, 0, 0, 0, 0, 0, 0, 0, 0, 0, 0, 1,
    0xfd, 0, 0, 0, 0, 0, 0, 0, 0, 0, 0, 0, 0, 0, 0, 2, 1, 2, 3, 4, 5, 6, 7, 8,
];

// An ARP packet, after its ether type.
const ARP: [u8; 30] = [
    8, 6, 0, 1, 8, 0, 6, 4, 0, 1, 1, 2, 3, 4, 5, 6, 0xc0, 0xa8, 1, 1, 0, 0, 0, 0, 0, 0, 0xc0, 0xa8,
    1, 2,
];

fn ipv4_header() -> IpHeaders {
    let header = Ipv4Header {
        source: IPV4_SOURCE,
        destination: IPV4_DESTINATION,
        time_to_live: 20,
        ..Ipv4Header::default()
    };
    IpHeaders::Ipv4(header, Ipv4Extensions { auth: None })
}

fn ipv6_header() -> IpHeaders {
    let mut header = Ipv6Header::default();
    header.source = IPV6_SOURCE;
    header.destination = IPV6_DESTINATION;
    header.hop_limit = 47;
    IpHeaders::Ipv6(header, Ipv6Extensions::default())
}

// The step writes the prefix, and after it the packet.
fn writes(
    rt: impl Abort + Copy,
    alloc: Global,
    step: PacketBuilderStep<IpHeaders>,
    prefix: &[u8],
    rest: &[u8],
) {
    are_joined(
        rt,
        &packet(rt, alloc, step, IpNumber(253), &PAYLOAD),
        prefix,
        rest,
    );
}

// The header is followed by IPv4, by both its steps.
fn brings_ipv4<L: LinkStep>(
    rt: impl Abort + Copy,
    alloc: Global,
    one: PacketBuilderStep<L>,
    other: PacketBuilderStep<L>,
    prefix: &[u8],
) {
    writes(
        rt,
        alloc,
        one.ipv4(IPV4_SOURCE, IPV4_DESTINATION, 20),
        prefix,
        &IPV4,
    );
    writes(rt, alloc, other.ip(ipv4_header()), prefix, &IPV4);
}

// The same of IPv6.
fn brings_ipv6<L: LinkStep>(
    rt: impl Abort + Copy,
    alloc: Global,
    one: PacketBuilderStep<L>,
    other: PacketBuilderStep<L>,
    prefix: &[u8],
) {
    writes(
        rt,
        alloc,
        one.ipv6(IPV6_SOURCE, IPV6_DESTINATION, 47),
        prefix,
        &IPV6,
    );
    writes(rt, alloc, other.ip(ipv6_header()), prefix, &IPV6);
}

// The step writes the prefix, and after it the ARP packet.
fn writes_arp(
    rt: impl Abort + Copy,
    alloc: Global,
    step: PacketBuilderStep<ArpPacket>,
    prefix: &[u8],
) {
    let size = step.size();
    let mut buffer = Vec::new(alloc);
    equal(rt, step.write(&mut buffer), Ok(()));
    equal(rt, buffer.len(), size);
    are_joined(rt, &buffer, prefix, &ARP);
}

#[test]
fn after_nothing(rt: HostRuntime) {
    writes(rt, rt.alloc(), ipv4(), &[], &IPV4[2..]);
    writes(
        rt,
        rt.alloc(),
        PacketBuilder::ip(ipv4_header()),
        &[],
        &IPV4[2..],
    );
    writes(rt, rt.alloc(), ipv6(), &[], &IPV6[2..]);
    writes(
        rt,
        rt.alloc(),
        PacketBuilder::ip(ipv6_header()),
        &[],
        &IPV6[2..],
    );
}

#[test]
fn after_ethernet2(rt: HostRuntime) {
    let prefix = [7, 8, 9, 0x0a, 0x0b, 0x0c, 1, 2, 3, 4, 5, 6];
    brings_ipv4(rt, rt.alloc(), ethernet2(), ethernet2(), &prefix);
    brings_ipv6(rt, rt.alloc(), ethernet2(), ethernet2(), &prefix);
    writes_arp(rt, rt.alloc(), ethernet2().arp(arp(rt)), &prefix);
}

#[test]
fn after_linux_sll(rt: HostRuntime) {
    let prefix = [0, 4, 0, 1, 0, 6, 1, 2, 3, 4, 5, 6, 0, 0];
    brings_ipv4(rt, rt.alloc(), linux_sll(), linux_sll(), &prefix);
    brings_ipv6(rt, rt.alloc(), linux_sll(), linux_sll(), &prefix);
    writes_arp(rt, rt.alloc(), linux_sll().arp(arp(rt)), &prefix);
}

fn one_tag() -> PacketBuilderStep<VlanHeader> {
    ethernet2().single_vlan(id(0x123))
}

#[test]
fn after_one_tag(rt: HostRuntime) {
    let prefix = [
        7, 8, 9, 0x0a, 0x0b, 0x0c, 1, 2, 3, 4, 5, 6, 0x81, 0, 1, 0x23,
    ];
    brings_ipv4(rt, rt.alloc(), one_tag(), one_tag(), &prefix);
    brings_ipv6(rt, rt.alloc(), one_tag(), one_tag(), &prefix);
    writes_arp(rt, rt.alloc(), one_tag().arp(arp(rt)), &prefix);
}

fn two_tags() -> PacketBuilderStep<VlanHeader> {
    ethernet2().double_vlan(id(0x123), id(0x234))
}

#[test]
fn after_two_tags(rt: HostRuntime) {
    let prefix = [
        7, 8, 9, 0x0a, 0x0b, 0x0c, 1, 2, 3, 4, 5, 6, 0x88, 0xa8, 1, 0x23, 0x81, 0, 2, 0x34,
    ];
    brings_ipv4(rt, rt.alloc(), two_tags(), two_tags(), &prefix);
    brings_ipv6(rt, rt.alloc(), two_tags(), two_tags(), &prefix);
    writes_arp(rt, rt.alloc(), two_tags().arp(arp(rt)), &prefix);
}

// A tag of priority 5 that may be dropped, with an ether type that doesn't belong to it.
fn tag(number: u16) -> SingleVlanHeader {
    SingleVlanHeader {
        pcp: VlanPcp::try_new(5).unwrap_or(VlanPcp::ZERO),
        drop_eligible_indicator: true,
        vlan_id: id(number),
        ether_type: EtherType(0x1234),
    }
}

fn given_tag() -> PacketBuilderStep<VlanHeader> {
    ethernet2().vlan(VlanHeader::Single(tag(1)))
}

#[test]
fn after_given_tag(rt: HostRuntime) {
    let prefix = [
        7, 8, 9, 0x0a, 0x0b, 0x0c, 1, 2, 3, 4, 5, 6, 0x81, 0, 0xb0, 1,
    ];
    brings_ipv4(rt, rt.alloc(), given_tag(), given_tag(), &prefix);
    brings_ipv6(rt, rt.alloc(), given_tag(), given_tag(), &prefix);
    writes_arp(rt, rt.alloc(), given_tag().arp(arp(rt)), &prefix);
}

fn given_tags() -> PacketBuilderStep<VlanHeader> {
    ethernet2().vlan(VlanHeader::Double(DoubleVlanHeader {
        outer: tag(1),
        inner: tag(2),
    }))
}

#[test]
fn after_given_tags(rt: HostRuntime) {
    let prefix = [
        7, 8, 9, 0x0a, 0x0b, 0x0c, 1, 2, 3, 4, 5, 6, 0x88, 0xa8, 0xb0, 1, 0x81, 0, 0xb0, 2,
    ];
    brings_ipv4(rt, rt.alloc(), given_tags(), given_tags(), &prefix);
    brings_ipv6(rt, rt.alloc(), given_tags(), given_tags(), &prefix);
    writes_arp(rt, rt.alloc(), given_tags().arp(arp(rt)), &prefix);
}

// The IP payload of a packet is the one above, of number 253.
fn holds_payload(rt: impl Abort + Copy, packet: &SlicedPacket<'_>) {
    match packet.ip_payload() {
        Some(payload) => {
            equal(rt, payload.ip_number, IpNumber(253));
            equal(rt, payload.payload, PAYLOAD.as_slice());
        }
        None => fail(rt, "no IP payload"),
    }
}

fn frame_holds_payload(rt: impl Abort + Copy, frame: &[u8]) {
    match laws::packet_builder::frames::built_frames_are_sliced(frame) {
        Ok(packet) => holds_payload(rt, &packet),
        Err(_) => fail(rt, "no frame"),
    }
}

fn packet_holds_payload(rt: impl Abort + Copy, packet: &[u8]) {
    match laws::packet_builder::frames::built_packets_are_sliced(packet) {
        Ok(packet) => holds_payload(rt, &packet),
        Err(_) => fail(rt, "no packet"),
    }
}

fn cooked_packet_holds_payload(rt: impl Abort + Copy, packet: &[u8]) {
    match laws::packet_builder::frames::built_cooked_packets_are_sliced(packet) {
        Ok(packet) => holds_payload(rt, &packet),
        Err(_) => fail(rt, "no cooked packet"),
    }
}

// Of a payload of number 253.
fn built(rt: impl Abort + Copy, alloc: Global, step: PacketBuilderStep<IpHeaders>) -> Vec<u8> {
    packet(rt, alloc, step, IpNumber(253), &PAYLOAD)
}

#[test]
fn what_is_built_is_sliced_again(rt: HostRuntime) {
    laws::packet_builder::frames::cooked_header_fits(
        LinuxSllPacketType::OUTGOING,
        [1, 2, 3, 4, 5, 6, 0, 0],
    );
    let tagged = ethernet2().single_vlan(id(5)).ip(ipv4_header());
    frame_holds_payload(rt, &built(rt, rt.alloc(), tagged));
    let packet = PacketBuilder::ip(ipv6_header());
    packet_holds_payload(rt, &built(rt, rt.alloc(), packet));
    let cooked = linux_sll().ip(ipv4_header());
    cooked_packet_holds_payload(rt, &built(rt, rt.alloc(), cooked));
}

// A payload that is no datagram: its length field says 1286.
fn broken(rt: impl Abort + Copy, alloc: Global, step: PacketBuilderStep<IpHeaders>) -> Vec<u8> {
    packet(rt, alloc, step, IpNumber::UDP, &PAYLOAD)
}

fn frame_is_refused(frame: &[u8]) -> bool {
    laws::packet_builder::frames::built_frames_are_sliced(frame).is_err()
}

fn packet_is_refused(packet: &[u8]) -> bool {
    laws::packet_builder::frames::built_packets_are_sliced(packet).is_err()
}

fn cooked_packet_is_refused(packet: &[u8]) -> bool {
    laws::packet_builder::frames::built_cooked_packets_are_sliced(packet).is_err()
}

#[test]
fn what_is_no_message_is_refused(rt: HostRuntime) {
    let frame = broken(rt, rt.alloc(), ethernet2().ip(ipv4_header()));
    let packet = broken(rt, rt.alloc(), PacketBuilder::ip(ipv6_header()));
    let cooked = broken(rt, rt.alloc(), linux_sll().ip(ipv4_header()));
    let found = [
        frame_is_refused(&frame),
        packet_is_refused(&packet),
        cooked_packet_is_refused(&cooked),
    ];
    equal(rt, found, [true; 3]);
}
