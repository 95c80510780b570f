//! Each header that is read from bytes is appended as these bytes, or leaves the buffer as it was.

use crate::checks::{are_joined, fail, held, holds};
use etherparse::{
    ArpPacket, DoubleVlanHeader, Ethernet2Header, Icmpv4Header, Icmpv6Header, IpHeaders,
    Ipv4Header, Ipv6Header, LinkExtHeader, LinkHeader, LinuxSllHeader, MacsecHeader,
    SingleVlanHeader, TcpHeader, TransportHeader, UdpHeader, VlanHeader,
};
use std::process::Abort;
use std::test::*;

// Whether a call that found no memory left the buffer as it was, so that it may be made again.
// These calls have no contracts: tests alone make them, and are run.
fn is_as_started(buffer: &Vec<u8>) -> bool {
    buffer.as_slice() == [0xaa].as_slice()
}

// Fails where a call was not made, or did not put exactly these bytes after the first one.
fn is_appended(rt: impl Abort + Copy, is_made: bool, buffer: &[u8], bytes: &[u8]) {
    holds(rt, is_made);
    are_joined(rt, buffer, &[0xaa], bytes);
}

// RFC 826 over Ethernet: who has 10.0.0.2?
const ARP: [u8; 28] = [
    0, 1, 8, 0, 6, 4, 0, 1, 2, 0, 0, 0, 0, 1, 10, 0, 0, 1, 0, 0, 0, 0, 0, 0, 10, 0, 0, 2,
];

#[test]
fn an_arp_packet_runs_out_of_memory(rt: HostRuntime) {
    let Ok(arp) = ArpPacket::from_slice(&ARP) else {
        fail(rt, "no ARP packet");
    };
    let mut buffer = held(rt, rt.alloc());
    let is_made = arp.write(&mut buffer).is_ok()
        || is_as_started(&buffer) && arp.write(&mut buffer).is_ok();
    is_appended(rt, is_made, &buffer, &ARP);
}

const ETHERNET: [u8; 14] = [2, 0, 0, 0, 0, 2, 2, 0, 0, 0, 0, 1, 8, 0];

#[test]
fn an_ethernet_header_runs_out_of_memory(rt: HostRuntime) {
    let Ok((ethernet, _)) = Ethernet2Header::from_slice(&ETHERNET) else {
        fail(rt, "no Ethernet header");
    };
    let mut buffer = held(rt, rt.alloc());
    let is_made = ethernet.write(&mut buffer).is_ok()
        || is_as_started(&buffer) && ethernet.write(&mut buffer).is_ok();
    is_appended(rt, is_made, &buffer, &ETHERNET);
}

const COOKED: [u8; 16] = [0, 0, 0, 1, 0, 6, 1, 2, 3, 4, 5, 6, 0, 0, 8, 0];

#[test]
fn a_header_of_a_cooked_capture_runs_out_of_memory(rt: HostRuntime) {
    let Ok((cooked, _)) = LinuxSllHeader::from_slice(&COOKED) else {
        fail(rt, "no header of a cooked capture");
    };
    let mut buffer = held(rt, rt.alloc());
    let is_made = cooked.write(&mut buffer).is_ok()
        || is_as_started(&buffer) && cooked.write(&mut buffer).is_ok();
    is_appended(rt, is_made, &buffer, &COOKED);
}

#[test]
fn a_link_header_runs_out_of_memory(rt: HostRuntime) {
    let Ok((cooked, _)) = LinuxSllHeader::from_slice(&COOKED) else {
        fail(rt, "no header of a cooked capture");
    };
    let link = LinkHeader::LinuxSll(cooked);
    let mut buffer = held(rt, rt.alloc());
    let is_made = link.write(&mut buffer).is_ok()
        || is_as_started(&buffer) && link.write(&mut buffer).is_ok();
    is_appended(rt, is_made, &buffer, &COOKED);
}

// Priority 1, not to be dropped first, identifier 5, with IPv4 after it; and the same twice.
const TAG: [u8; 4] = [0x20, 5, 8, 0];

const TAGS: [u8; 8] = [0x20, 5, 8, 0, 0x20, 5, 8, 0];

#[test]
fn a_tag_runs_out_of_memory(rt: HostRuntime) {
    let tag = tag();
    let mut buffer = held(rt, rt.alloc());
    let is_made = tag.write(&mut buffer).is_ok()
        || is_as_started(&buffer) && tag.write(&mut buffer).is_ok();
    is_appended(rt, is_made, &buffer, &TAG);
}

fn tag() -> SingleVlanHeader {
    SingleVlanHeader::from_bytes(TAG)
}

fn tags() -> DoubleVlanHeader {
    DoubleVlanHeader {
        outer: tag(),
        inner: tag(),
    }
}

#[test]
fn two_tags_run_out_of_memory(rt: HostRuntime) {
    let tags = tags();
    let mut buffer = held(rt, rt.alloc());
    let is_made = tags.write(&mut buffer).is_ok()
        || is_as_started(&buffer) && tags.write(&mut buffer).is_ok();
    is_appended(rt, is_made, &buffer, &TAGS);
}

#[test]
fn tags_of_either_number_run_out_of_memory(rt: HostRuntime) {
    let vlan = VlanHeader::Double(tags());
    let mut buffer = held(rt, rt.alloc());
    let is_made = vlan.write(&mut buffer).is_ok()
        || is_as_started(&buffer) && vlan.write(&mut buffer).is_ok();
    is_appended(rt, is_made, &buffer, &TAGS);
}

// IEEE 802.1AE: no identifier of a channel, short length 12, packet number 1, unmodified IPv4.
const MACSEC: [u8; 8] = [0, 12, 0, 0, 0, 1, 8, 0];

#[test]
fn a_macsec_header_runs_out_of_memory(rt: HostRuntime) {
    let Ok((macsec, _)) = MacsecHeader::from_slice(&MACSEC) else {
        fail(rt, "no MACsec header");
    };
    let mut buffer = held(rt, rt.alloc());
    let is_made = macsec.write(&mut buffer).is_ok()
        || is_as_started(&buffer) && macsec.write(&mut buffer).is_ok();
    is_appended(rt, is_made, &buffer, &MACSEC);
}

#[test]
fn a_tag_of_either_kind_runs_out_of_memory(rt: HostRuntime) {
    let Ok((macsec, _)) = MacsecHeader::from_slice(&MACSEC) else {
        fail(rt, "no MACsec header");
    };
    let extension = LinkExtHeader::Macsec(macsec);
    let mut buffer = held(rt, rt.alloc());
    let is_made = extension.write(&mut buffer).is_ok()
        || is_as_started(&buffer) && extension.write(&mut buffer).is_ok();
    is_appended(rt, is_made, &buffer, &MACSEC);
}

// With a UDP message of 16 bytes after it.
const IPV4: [u8; 36] = [
    0x45, 0, 0, 0x24, 0, 7, 0, 0, 0x40, 17, 0x66, 0xc0, 10, 0, 0, 1, 10, 0, 0, 2, 0, 1, 0, 2, 0,
    0x10, 0xdb, 0xb4, 1, 2, 3, 4, 5, 6, 7, 8,
];

#[test]
fn an_ipv4_header_runs_out_of_memory(rt: HostRuntime) {
    let Ok((ipv4, _)) = Ipv4Header::from_slice(&IPV4) else {
        fail(rt, "no IPv4 header");
    };
    let mut buffer = held(rt, rt.alloc());
    let is_made = ipv4.write(&mut buffer).is_ok()
        || is_as_started(&buffer) && ipv4.write(&mut buffer).is_ok();
    is_appended(rt, is_made, &buffer, &IPV4[..20]);
}

#[test]
fn an_ipv4_header_as_it_is_runs_out_of_memory(rt: HostRuntime) {
    let Ok((ipv4, _)) = Ipv4Header::from_slice(&IPV4) else {
        fail(rt, "no IPv4 header");
    };
    let mut buffer = held(rt, rt.alloc());
    let is_made = ipv4.write_raw(&mut buffer).is_ok()
        || is_as_started(&buffer) && ipv4.write_raw(&mut buffer).is_ok();
    is_appended(rt, is_made, &buffer, &IPV4[..20]);
}

const IPV6: [u8; 40] = [
    0x60, 0, 0, 0, 0, 0, 253, 0x40, 0xfd, 0, 0, 0, 0, 0, 0, 0, 0, 0, 0, 0, 0, 0, 0, 1, 0xfd, 0, 0,
    0, 0, 0, 0, 0, 0, 0, 0, 0, 0, 0, 0, 2,
];

#[test]
fn an_ipv6_header_runs_out_of_memory(rt: HostRuntime) {
    let Ok((ipv6, _)) = Ipv6Header::from_slice(&IPV6) else {
        fail(rt, "no IPv6 header");
    };
    let mut buffer = held(rt, rt.alloc());
    let is_made = ipv6.write(&mut buffer).is_ok()
        || is_as_started(&buffer) && ipv6.write(&mut buffer).is_ok();
    is_appended(rt, is_made, &buffer, &IPV6);
}

#[test]
fn headers_of_either_version_run_out_of_memory(rt: HostRuntime) {
    let Ok((headers, _)) = IpHeaders::from_slice(&IPV4) else {
        fail(rt, "no IP headers");
    };
    let mut buffer = held(rt, rt.alloc());
    let is_made = headers.write(&mut buffer).is_ok()
        || is_as_started(&buffer) && headers.write(&mut buffer).is_ok();
    is_appended(rt, is_made, &buffer, &IPV4[..20]);
}

#[test]
fn a_udp_header_runs_out_of_memory(rt: HostRuntime) {
    let Ok((udp, _)) = UdpHeader::from_slice(&IPV4[20..]) else {
        fail(rt, "no UDP header");
    };
    let mut buffer = held(rt, rt.alloc());
    let is_made = udp.write(&mut buffer).is_ok()
        || is_as_started(&buffer) && udp.write(&mut buffer).is_ok();
    is_appended(rt, is_made, &buffer, &IPV4[20..28]);
}

#[test]
fn a_transport_header_runs_out_of_memory(rt: HostRuntime) {
    let Ok((udp, _)) = UdpHeader::from_slice(&IPV4[20..]) else {
        fail(rt, "no UDP header");
    };
    let header = TransportHeader::Udp(udp);
    let mut buffer = held(rt, rt.alloc());
    let is_made = header.write(&mut buffer).is_ok()
        || is_as_started(&buffer) && header.write(&mut buffer).is_ok();
    is_appended(rt, is_made, &buffer, &IPV4[20..28]);
}

const TCP: [u8; 20] = [
    0, 1, 0, 2, 0, 0, 0, 3, 0, 0, 0, 0, 0x50, 2, 4, 0, 0x97, 0xda, 0, 0,
];

#[test]
fn a_tcp_header_runs_out_of_memory(rt: HostRuntime) {
    let Ok((tcp, _)) = TcpHeader::from_slice(&TCP) else {
        fail(rt, "no TCP header");
    };
    let mut buffer = held(rt, rt.alloc());
    let is_made = tcp.write(&mut buffer).is_ok()
        || is_as_started(&buffer) && tcp.write(&mut buffer).is_ok();
    is_appended(rt, is_made, &buffer, &TCP);
}

// Echo replies: RFC 792 and RFC 4443, section 4.2.
const ICMPV4: [u8; 8] = [0, 0, 0xff, 0xf0, 0, 7, 0, 8];

#[test]
fn an_icmpv4_header_runs_out_of_memory(rt: HostRuntime) {
    let Ok((icmpv4, _)) = Icmpv4Header::from_slice(&ICMPV4) else {
        fail(rt, "no ICMPv4 header");
    };
    let mut buffer = held(rt, rt.alloc());
    let is_made = icmpv4.write(&mut buffer).is_ok()
        || is_as_started(&buffer) && icmpv4.write(&mut buffer).is_ok();
    is_appended(rt, is_made, &buffer, &ICMPV4);
}

const ICMPV6: [u8; 8] = [129, 0, 0x7e, 0xf0, 0, 7, 0, 8];

#[test]
fn an_icmpv6_header_runs_out_of_memory(rt: HostRuntime) {
    let Ok((icmpv6, _)) = Icmpv6Header::from_slice(&ICMPV6) else {
        fail(rt, "no ICMPv6 header");
    };
    let mut buffer = held(rt, rt.alloc());
    let is_made = icmpv6.write(&mut buffer).is_ok()
        || is_as_started(&buffer) && icmpv6.write(&mut buffer).is_ok();
    is_appended(rt, is_made, &buffer, &ICMPV6);
}
