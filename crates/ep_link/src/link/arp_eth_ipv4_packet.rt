//! ARP packets of Ethernet and IPv4 addresses, as values.
ghost use Rattle.std.specs.Net.Addr.{ipv4_octets};
ghost use Rattle.std.specs.Prelude.{◌≡◌};
ghost use Rattle.ep_link.specs.Arp.{Fits, IsArp, IsArpPacket, fields_of};
ghost use Rattle.ep_link.specs.ArpEthIpv4.{arp_fields, eth_ipv4_at, eth_ipv4_encoding};

use super::{ArpHardwareId, ArpOperation, ArpPacket};
use crate::err::arp::ArpEthIpv4FromError;
use ep_base::EtherType;
use std::net::Ipv4Addr;

/// An ARP packet between Ethernet and IPv4 addresses (RFC 826).
#[derive(Clone, Debug, PartialEq, Eq, Drop)]
pub struct ArpEthIpv4Packet {
    /// What the packet is for.
    pub operation: ArpOperation,
    /// The sender's Ethernet address.
    pub sender_mac: [u8; 6],
    /// The sender's IPv4 address.
    pub sender_ipv4: [u8; 4],
    /// The target's Ethernet address.
    pub target_mac: [u8; 6],
    /// The target's IPv4 address.
    pub target_ipv4: [u8; 4],
}

impl ArpEthIpv4Packet {
    /// The length of the packet in bytes: 8, and two addresses of 6 and two of 4 bytes.
    pub const LEN: usize = 28;

    /// The sender's IPv4 address.
    pub fn sender_ipv4_addr(&self) -> Ipv4Addr
        ensures { ipv4_octets result ≡ self.now.sender_ipv4 }
    {
        Ipv4Addr::from(self.sender_ipv4)
    }

    /// The target's IPv4 address.
    pub fn target_ipv4_addr(&self) -> Ipv4Addr
        ensures { ipv4_octets result ≡ self.now.target_ipv4 }
    {
        Ipv4Addr::from(self.target_ipv4)
    }

    /// The bytes of the packet.
    pub fn to_bytes(&self) -> [u8; 28]
        ensures bytes { result ≡ eth_ipv4_encoding self.now }
        // They are a packet, with these fields.
        ensures packet { IsArpPacket result }
        ensures fields { fields_of result ≡ arp_fields self.now }
    {
        self.encoded()
    }

    fn encoded(&self) -> [u8; 28]
        ensures bytes { result ≡ eth_ipv4_encoding self.now }
        ensures fits { Fits (arp_fields self.now) }
        ensures arp { IsArp (arp_fields self.now) }
    {
        let [op_high, op_low] = self.operation.0.to_be_bytes();
        let [a, b, c, d, e, f] = self.sender_mac;
        let [g, h, i, j] = self.sender_ipv4;
        let [k, l, m, n, o, p] = self.target_mac;
        let [q, r, s, t] = self.target_ipv4;
        [
            0, 1, 8, 0, 6, 4, op_high, op_low, a, b, c, d, e, f, g, h, i, j, k, l, m, n, o, p, q,
            r, s, t,
        ]
    }
}

impl From<ArpEthIpv4Packet> for ArpPacket {
    ghost from_gives = { λ packet r. r ≡ arp_fields packet };

    fn from(packet: ArpEthIpv4Packet) -> Self {
        ArpPacket::of_addresses(
            ArpHardwareId::ETHERNET,
            EtherType::IPV4,
            packet.operation,
            &packet.sender_mac,
            &packet.sender_ipv4,
            &packet.target_mac,
            &packet.target_ipv4,
        )
    }
}

impl TryFrom<ArpPacket> for ArpEthIpv4Packet {
    type Error = ArpEthIpv4FromError;

    ghost try_from_gives = { λ packet r. r ≡ eth_ipv4_at packet };

    fn try_from(packet: ArpPacket) -> Result<Self, ArpEthIpv4FromError> {
        packet.try_eth_ipv4()
    }
}
