//! Names of protocols, by IANA's registry "Protocol Numbers", and of reasons.

use crate::checks::{equal, holds, is_shown_as};
use etherparse::IpNumber;
use etherparse::defrag::IpDefragError;
use etherparse::err::packet::SliceError;
use etherparse::err::{Layer, ip, linux_sll, macsec, tcp};
use packets::{Protocol, Reason, ip_number_name, ip_number_named};
use std::process::Abort;

// Where a keyword of the registry is that of a header here (4 IPv4, 41 IPv6, 143 Ethernet), or is
// less known, another name is used.
const NAMES: &[(u8, &str)] = &[
    (0, "HOPOPT"),
    (1, "ICMP"),
    (2, "IGMP"),
    (3, "GGP"),
    (4, "IPencap"),
    (5, "ST"),
    (6, "TCP"),
    (8, "EGP"),
    (9, "IGP"),
    (17, "UDP"),
    (27, "RDP"),
    (33, "DCCP"),
    (36, "XTP"),
    (41, "IPv6-in-IP"),
    (43, "IPv6-Route"),
    (44, "IPv6-Frag"),
    (46, "RSVP"),
    (47, "GRE"),
    (50, "ESP"),
    (51, "AH"),
    (57, "SKIP"),
    (58, "ICMPv6"),
    (59, "IPv6-NoNxt"),
    (60, "IPv6-Opts"),
    (88, "EIGRP"),
    (89, "OSPF"),
    (94, "IPIP"),
    (97, "EtherIP"),
    (103, "PIM"),
    (108, "IPComp"),
    (112, "VRRP"),
    (113, "PGM"),
    (115, "L2TP"),
    (124, "IS-IS"),
    (132, "SCTP"),
    (133, "FC"),
    (135, "MH"),
    (136, "UDP-Lite"),
    (137, "MPLS-in-IP"),
    (138, "MANET"),
    (139, "HIP"),
    (140, "Shim6"),
    (141, "WESP"),
    (142, "ROHC"),
    (143, "Ethernet-in-IP"),
    (144, "AGGFRAG"),
    (145, "NSH"),
];

const PROTOCOLS: &[(&str, Option<Protocol>)] = &[
    ("eth", Some(Protocol::Ethernet)),
    ("Ethernet", Some(Protocol::Ethernet)),
    ("VLAN", Some(Protocol::Vlan)),
    ("macsec", Some(Protocol::Macsec)),
    ("arp", Some(Protocol::Arp)),
    ("IP4", Some(Protocol::Ipv4)),
    ("IPv4", Some(Protocol::Ipv4)),
    ("ip6", Some(Protocol::Ipv6)),
    ("ipv6", Some(Protocol::Ipv6)),
    ("icmp6", Some(Protocol::OverIp(IpNumber(58)))),
    ("ICMPv6", Some(Protocol::OverIp(IpNumber(58)))),
    ("ipv6-icmp", Some(Protocol::OverIp(IpNumber(58)))),
    ("ospfigp", Some(Protocol::OverIp(IpNumber(89)))),
    ("isis", Some(Protocol::OverIp(IpNumber(124)))),
    ("mobility-header", Some(Protocol::OverIp(IpNumber(135)))),
    ("udplite", Some(Protocol::OverIp(IpNumber(136)))),
    ("udp", Some(Protocol::OverIp(IpNumber(17)))),
    ("17", Some(Protocol::OverIp(IpNumber(17)))),
    ("256", None),
    ("", None),
    ("ip", None),
];

#[test]
fn protocols(rt: HostRuntime) {
    for (name, wanted) in PROTOCOLS.iter() {
        equal(rt, Protocol::named(*name), *wanted);
    }
}

// The name of this number, if that is the number of this row.
fn name_in(at: usize, number: u8) -> Option<&'static str> {
    match NAMES.get(at) {
        Some((named, name)) if *named == number => Some(*name),
        _ => None,
    }
}

#[test]
fn names_of_numbers(rt: HostRuntime) {
    let mut at = 0usize;
    for number in 0..=u8::MAX {
        let wanted = name_in(at, number);
        if wanted.is_some() {
            at = at.saturating_add(1);
        }
        equal(rt, ip_number_name(IpNumber(number)), wanted);
    }
    holds(rt, at == NAMES.len());
}

// Other names of numbers, and one that names none.
const OTHERS: &[(&str, Option<IpNumber>)] = &[
    ("sctp", Some(IpNumber(132))),
    ("253", Some(IpNumber(253))),
    ("tcq", None),
];

fn is_number(rt: impl Abort + Copy, name: &str, wanted: Option<IpNumber>) {
    equal(rt, ip_number_named(name), wanted);
}

#[test]
fn numbers_of_names(rt: HostRuntime) {
    for (number, name) in NAMES.iter() {
        is_number(rt, *name, Some(IpNumber(*number)));
    }
    for (name, wanted) in OTHERS.iter() {
        is_number(rt, *name, *wanted);
    }
}

// As a summary names them.
const TEXTS_OF_PROTOCOLS: &[(Protocol, &str)] = &[
    (Protocol::Ethernet, "Ethernet"),
    (Protocol::Vlan, "VLAN"),
    (Protocol::Macsec, "MACsec"),
    (Protocol::Arp, "ARP"),
    (Protocol::Ipv4, "IPv4"),
    (Protocol::Ipv6, "IPv6"),
    (Protocol::OverIp(IpNumber(6)), "TCP"),
    (Protocol::OverIp(IpNumber(253)), "IP protocol 253"),
];

#[test]
fn texts_of_protocols(rt: HostRuntime) {
    for (protocol, wanted) in TEXTS_OF_PROTOCOLS.iter() {
        is_shown_as(rt, rt.alloc(), protocol, *wanted);
    }
}

#[rattlefmt::skip]
const TEXTS_OF_REASONS: &[(Reason, &str)] = &[
    (Reason::CutOff(Layer::Ipv4Header), "IPv4 header cut off"),
    (Reason::CookedPacketType, "cooked packet of an unknown type"),
    (Reason::CookedHardwareType, "cooked packet of an unknown hardware type"),
    (Reason::MacsecVersion, "MACsec version 1"),
    (Reason::MacsecShortLen, "MACsec short length 1"),
    (Reason::IpVersion, "IP header of another version"),
    (Reason::Ipv4HeaderLen, "IPv4 header length below 5"),
    (Reason::AuthHeaderLen, "authentication header of length 0"),
    (Reason::HopByHopNotFirst, "hop-by-hop options after another header"),
    (Reason::TcpDataOffset, "TCP data offset below 5"),
    (Reason::FragmentUnaligned, "fragment of no multiple of 8 bytes"),
    (Reason::FragmentTooLong, "fragment beyond 65535 bytes"),
    (Reason::FragmentEnd, "fragment against the end of its message"),
    (Reason::FragmentOverlap, "fragment that overlaps another"),
    (Reason::FragmentMemory, "no memory for a fragment"),
];

#[test]
fn reasons(rt: HostRuntime) {
    for (reason, wanted) in TEXTS_OF_REASONS.iter() {
        is_shown_as(rt, rt.alloc(), reason, *wanted);
    }
}

#[rattlefmt::skip]
const REASONS_OF_ERRORS: &[(SliceError, Reason)] = &[
    (
        SliceError::LinuxSll(linux_sll::HeaderError::UnsupportedPacketTypeField { packet_type: 8 }),
        Reason::CookedPacketType,
    ),
    (SliceError::Macsec(macsec::HeaderError::UnexpectedVersion), Reason::MacsecVersion),
    (SliceError::Ip(ip::HeaderError::UnsupportedIpVersion { version_number: 7 }), Reason::IpVersion),
    (SliceError::Tcp(tcp::HeaderError::DataOffsetTooSmall { data_offset: 4 }), Reason::TcpDataOffset),
];

#[test]
fn reasons_of_errors(rt: HostRuntime) {
    for (error, wanted) in REASONS_OF_ERRORS.iter() {
        equal(rt, Reason::of(*error), *wanted);
    }
    let failure = IpDefragError::AllocationFailure { len: 8 };
    holds(rt, Reason::of_fragment(failure) == Reason::FragmentMemory);
}
