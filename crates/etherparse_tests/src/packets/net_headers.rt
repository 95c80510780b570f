//! Headers of the network layer.
use crate::checks::equal;
use ep_base::{EtherType, IpNumber};
use ep_ext::{Ipv4Extensions, Ipv6Extensions};
use ep_ip::{Ipv4Header, Ipv6Header};
use ep_link::{ArpHardwareId, ArpOperation, ArpPacket};
use ep_packet::err::net::NetSetNextHeaderError;
use ep_packet::{IpHeaders, NetHeaders};
use std::test::*;

// The functions below have no contracts, as tests alone call them.

// Which tests return `true`.
fn kinds(headers: &NetHeaders) -> [bool; 4] {
    [
        headers.is_ip(),
        headers.is_ipv4(),
        headers.is_ipv6(),
        headers.is_arp(),
    ]
}

// Whether there are headers of IPv4, of IPv6 and of ARP.
fn parts(headers: &NetHeaders) -> [bool; 3] {
    [
        headers.ipv4_ref().is_some(),
        headers.ipv6_ref().is_some(),
        headers.arp_ref().is_some(),
    ]
}

// Both, the length, and the ether type where the headers take the number of what follows them.
type Reported = (
    [bool; 4],
    [bool; 3],
    usize,
    Result<EtherType, NetSetNextHeaderError>,
);

fn described(mut headers: NetHeaders) -> Reported {
    let set = headers.try_set_next_headers(IpNumber(6));
    (kinds(&headers), parts(&headers), headers.header_len(), set)
}

// Of a request of Ethernet addresses for IPv4 ones.
fn described_arp() -> Option<Reported> {
    let packet = ArpPacket::new(
        ArpHardwareId::ETHERNET,
        EtherType::IPV4,
        ArpOperation::REQUEST,
        &[2, 0, 0, 0, 0, 1],
        &[10, 0, 0, 1],
        &[0; 6],
        &[10, 0, 0, 2],
    );
    match packet {
        Ok(packet) => Some(described(NetHeaders::from(packet))),
        Err(_) => None,
    }
}

#[test]
fn headers_of_ip(rt: HostRuntime) {
    let headers = IpHeaders::Ipv4(Ipv4Header::default(), Ipv4Extensions { auth: None });
    let ether_type = Ok(EtherType(0x0800));
    let wanted = (
        [true, true, false, false],
        [true, false, false],
        20,
        ether_type,
    );
    equal(rt, described(NetHeaders::from(headers)), wanted);
    let headers = IpHeaders::Ipv6(Ipv6Header::default(), Ipv6Extensions::default());
    let ether_type = Ok(EtherType(0x86dd));
    let wanted = (
        [true, false, true, false],
        [false, true, false],
        40,
        ether_type,
    );
    equal(rt, described(NetHeaders::from(headers)), wanted);
}

// An ARP packet has no number of a following header.
#[test]
fn headers_of_arp(rt: HostRuntime) {
    let refused = Err(NetSetNextHeaderError::ArpHeader);
    let wanted = (
        [false, false, false, true],
        [false, false, true],
        28,
        refused,
    );
    equal(rt, described_arp(), Some(wanted));
}
