//! ARP packets between Ethernet and IPv4 addresses (RFC 826).
use crate::checks::{equal, equal_bytes, fail, shows};
use ep_base::EtherType;
use ep_link::err::arp::ArpEthIpv4FromError;
use ep_link::laws::arp_eth_ipv4::*;
use ep_link::{ArpEthIpv4Packet, ArpHardwareId, ArpOperation, ArpPacket};

// A reply of 192.0.2.1 to 192.0.2.2, as scapy writes it.
const BYTES: [u8; 28] = [
    0, 1, 8, 0, 6, 4, 0, 2, 2, 0, 0, 0, 0, 1, 192, 0, 2, 1, 2, 0, 0, 0, 0, 2, 192, 0, 2, 2,
];

fn reply() -> ArpEthIpv4Packet {
    ArpEthIpv4Packet {
        operation: ArpOperation::REPLY,
        sender_mac: [2, 0, 0, 0, 0, 1],
        sender_ipv4: [192, 0, 2, 1],
        target_mac: [2, 0, 0, 0, 0, 2],
        target_ipv4: [192, 0, 2, 2],
    }
}

#[test]
fn a_packet_as_bytes(rt: HostRuntime) {
    equal(rt, reply().to_bytes(), BYTES);
    let packet = ArpPacket::from(reply());
    equal_bytes(rt, packet.to_bytes().as_slice(), BYTES.as_slice());
}

#[test]
fn a_packet_from_bytes(rt: HostRuntime) {
    let Ok(packet) = ArpPacket::from_slice(&BYTES) else {
        fail(rt, "no packet");
    };
    equal(rt, packet.try_eth_ipv4(), Ok(reply()));
    equal(rt, ArpEthIpv4Packet::try_from(packet), Ok(reply()));
}

#[test]
fn addresses_of_a_packet(rt: HostRuntime) {
    equal(rt, reply().sender_ipv4_addr().octets(), [192, 0, 2, 1]);
    equal(rt, reply().target_ipv4_addr().octets(), [192, 0, 2, 2]);
}

// Why a packet of these types and of addresses of these lengths is refused.
fn refusal(hardware: u16, protocol: u16, hw: &[u8], proto: &[u8]) -> Option<ArpEthIpv4FromError> {
    let packet = ArpPacket::new(
        ArpHardwareId(hardware),
        EtherType(protocol),
        ArpOperation::REQUEST,
        hw,
        proto,
        hw,
        proto,
    );
    let Ok(packet) = packet else {
        return None;
    };
    match packet.try_eth_ipv4() {
        Ok(_) => None,
        Err(error) => Some(error),
    }
}

// Frame relay, 770, and IPv6, 34525.
#[test]
fn each_refusal_before_the_next(rt: HostRuntime) {
    let (seven, three) = ([0; 7], [0; 3]);
    let error = refusal(770, 0x86dd, &seven, &three);
    shows(rt, &error, "Some(NonMatchingHwType(ArpHardwareId(770)))");
    let error = refusal(1, 0x86dd, &seven, &three);
    shows(
        rt,
        &error,
        "Some(NonMatchingProtocolType(EtherType(34525)))",
    );
    let error = refusal(1, 0x0800, &seven, &three);
    shows(rt, &error, "Some(NonMatchingHwAddrSize(7))");
    let error = refusal(1, 0x0800, &seven[..6], &three);
    shows(rt, &error, "Some(NonMatchingProtoAddrSize(3))");
    equal(rt, refusal(1, 0x0800, &seven[..6], &[0; 4]), None);
}

#[test]
fn laws(rt: HostRuntime) {
    packets_are_read_again(&reply());
    refusals_at_literals();
    equal(rt, packet_lengths(), [28]);
}
