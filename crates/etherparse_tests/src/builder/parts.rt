//! Headers and payloads, as the tests of the builder take them. The functions have no contracts:
//! tests alone call them, and are run.

use crate::checks::fail;
use ep_base::EtherType;
use ep_link::{
    ArpHardwareId, ArpOperation, ArpPacket, Ethernet2Header, LinuxSllHeader, LinuxSllPacketType,
};
use ep_packet::IpHeaders;
use ep_tag::VlanId;
use etherparse::{PacketBuilder, PacketBuilderStep};
use std::process::Abort;
use std::test::*;

/// The payload of packets.
pub const PAYLOAD: [u8; 8] = [1, 2, 3, 4, 5, 6, 7, 8];

/// The source address of IPv4 packets.
pub const IPV4_SOURCE: [u8; 4] = [192, 168, 1, 1];

/// Their destination address.
pub const IPV4_DESTINATION: [u8; 4] = [192, 168, 1, 2];

/// The source address of IPv6 packets.
pub const IPV6_SOURCE: [u8; 16] = [0xfd, 0, 0, 0, 0, 0, 0, 0, 0, 0, 0, 0, 0, 0, 0, 1];

/// Their destination address.
pub const IPV6_DESTINATION: [u8; 16] = [0xfd, 0, 0, 0, 0, 0, 0, 0, 0, 0, 0, 0, 0, 0, 0, 2];

/// A frame of Ethernet II; no contract, as above.
pub fn ethernet2() -> PacketBuilderStep<Ethernet2Header> {
    PacketBuilder::ethernet2([1, 2, 3, 4, 5, 6], [7, 8, 9, 10, 11, 12])
}

/// A packet of a Linux cooked capture that this machine sent; no contract, as above.
pub fn linux_sll() -> PacketBuilderStep<LinuxSllHeader> {
    PacketBuilder::linux_sll(LinuxSllPacketType::OUTGOING, 6, [1, 2, 3, 4, 5, 6, 0, 0])
}

/// An IPv4 packet between the addresses above; no contract, as above.
pub fn ipv4() -> PacketBuilderStep<IpHeaders> {
    PacketBuilder::ipv4(IPV4_SOURCE, IPV4_DESTINATION, 20)
}

/// An IPv6 packet between the addresses above; no contract, as above.
pub fn ipv6() -> PacketBuilderStep<IpHeaders> {
    PacketBuilder::ipv6(IPV6_SOURCE, IPV6_DESTINATION, 47)
}

/// A VLAN identifier: for a number that is none it would be 0, which no frame of these tests has;
/// no contract, as above.
pub fn id(number: u16) -> VlanId {
    VlanId::try_new(number).unwrap_or(VlanId::ZERO)
}

/// A request for a hardware address; no contract, as above.
pub fn arp(rt: impl Abort + Copy) -> ArpPacket {
    let packet = ArpPacket::new(
        ArpHardwareId::ETHERNET,
        EtherType::IPV4,
        ArpOperation(1),
        &[1, 2, 3, 4, 5, 6],
        &IPV4_SOURCE,
        &[0; 6],
        &IPV4_DESTINATION,
    );
    let Ok(packet) = packet else {
        fail(rt, "the addresses don't pair up");
    };
    packet
}
