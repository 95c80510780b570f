//! Packets of the network layer. The bytes were worked out by hand after RFC 791, 826 and 8200.
use crate::checks::equal;
use ep_ipslice::{IpSlice, Ipv4Slice, Ipv6Slice};
use ep_link::ArpPacketSlice;
use ep_packet::NetSlice;
use std::test::*;

// An IPv4 packet with one byte of payload.
const IPV4: [u8; 21] = [
    0x45, 0, 0, 21, 0, 7, 0, 0, 64, 253, 0, 0, 10, 0, 0, 1, 10, 0, 0, 2, 9,
];

// An IPv6 packet without payload.
const IPV6: [u8; 40] = [
    0x60, 0, 0, 0, 0, 0, 253, 64, 0xfd, 0, 0, 0, 0, 0, 0, 0, 0, 0, 0, 0, 0, 0, 0, 1, 0xfd, 0, 0, 0,
    0, 0, 0, 0, 0, 0, 0, 0, 0, 0, 0, 2,
];

// A request of Ethernet addresses for IPv4 ones.
const ARP: [u8; 28] = [
    0, 1, 8, 0, 6, 4, 0, 1, 2, 0, 0, 0, 0, 1, 10, 0, 0, 1, 0, 0, 0, 0, 0, 0, 10, 0, 0, 2,
];

// The functions below have no contracts, as tests alone call them.

// Which tests return `true`.
fn kinds(packet: &NetSlice<'_>) -> [bool; 4] {
    [
        packet.is_ip(),
        packet.is_ipv4(),
        packet.is_ipv6(),
        packet.is_arp(),
    ]
}

// Whether there are a packet of IPv4, one of IPv6 and one of ARP.
fn parts(packet: &NetSlice<'_>) -> [bool; 3] {
    [
        packet.ipv4_ref().is_some(),
        packet.ipv6_ref().is_some(),
        packet.arp_ref().is_some(),
    ]
}

// Both, and the length of an IP payload.
type Reported = ([bool; 4], [bool; 3], Option<usize>);

fn described(packet: &NetSlice<'_>) -> Reported {
    let payload = match packet.ip_payload_ref() {
        Some(payload) => Some(payload.payload.len()),
        None => None,
    };
    (kinds(packet), parts(packet), payload)
}

// The same of these bytes, sliced by each call.

fn of_ipv4(bytes: &[u8]) -> Option<Reported> {
    match Ipv4Slice::from_slice(bytes) {
        Ok(packet) => Some(described(&NetSlice::from(packet))),
        Err(_) => None,
    }
}

fn of_ipv6(bytes: &[u8]) -> Option<Reported> {
    match Ipv6Slice::from_slice(bytes) {
        Ok(packet) => Some(described(&NetSlice::from(packet))),
        Err(_) => None,
    }
}

fn of_ip(bytes: &[u8]) -> Option<Reported> {
    match IpSlice::from_slice(bytes) {
        Ok(packet) => Some(described(&NetSlice::from(packet))),
        Err(_) => None,
    }
}

fn of_arp(bytes: &[u8]) -> Option<Reported> {
    match ArpPacketSlice::from_slice(bytes) {
        Ok(packet) => Some(described(&NetSlice::Arp(packet))),
        Err(_) => None,
    }
}

#[test]
fn kinds_of_packets(rt: HostRuntime) {
    let ipv4 = Some(([true, true, false, false], [true, false, false], Some(1)));
    let ipv6 = Some(([true, false, true, false], [false, true, false], Some(0)));
    let arp = Some(([false, false, false, true], [false, false, true], None));
    equal(rt, [of_ipv4(&IPV4), of_ip(&IPV4)], [ipv4; 2]);
    equal(rt, [of_ipv6(&IPV6), of_ip(&IPV6)], [ipv6; 2]);
    equal(rt, of_arp(&ARP), arp);
}
