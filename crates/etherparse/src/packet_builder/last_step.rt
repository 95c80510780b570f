//! The last header that was chosen: its type says which calls come next.

ghost use Rattle.std.specs.Prelude.{IsSome, ⊤};
ghost use Rattle.etherparse.specs.PacketImpl.{PacketImpl};

use ep_icmp::{Icmpv4Header, Icmpv6Header};
use ep_link::{ArpPacket, Ethernet2Header, LinuxSllHeader};
use ep_packet::IpHeaders;
use ep_tag::VlanHeader;
use ep_tcpudp::{TcpHeader, UdpHeader};

/// The last header that was chosen for a packet: it says which calls come next.
pub trait LastStep {
    // What was chosen by then.
    ghost reached: { PacketImpl → Type 0 };
}

/// A header before the network layer.
pub trait LinkStep: LastStep {}

/// A header of the transport layer: only the payload is missing.
pub trait TransportStep: LastStep {
    ghost has_ip: { (packet : PacketImpl) → Self.reached packet → IsSome packet.ip_headers };
}

impl LastStep for Ethernet2Header {
    ghost reached = { λ _. ⊤ };
}

impl LinkStep for Ethernet2Header {}

impl LastStep for LinuxSllHeader {
    ghost reached = { λ _. ⊤ };
}

impl LinkStep for LinuxSllHeader {}

impl LastStep for VlanHeader {
    ghost reached = { λ _. ⊤ };
}

impl LinkStep for VlanHeader {}

impl LastStep for ArpPacket {
    ghost reached = { λ packet. IsSome packet.arp_packet };
}

impl LastStep for IpHeaders {
    ghost reached = { λ packet. IsSome packet.ip_headers };
}

impl LastStep for UdpHeader {
    ghost reached = { λ packet. IsSome packet.ip_headers };
}

impl TransportStep for UdpHeader {
    ghost has_ip = { λ _ reached. reached };
}

impl LastStep for TcpHeader {
    ghost reached = { λ packet. IsSome packet.ip_headers };
}

impl TransportStep for TcpHeader {
    ghost has_ip = { λ _ reached. reached };
}

impl LastStep for Icmpv4Header {
    ghost reached = { λ packet. IsSome packet.ip_headers };
}

impl TransportStep for Icmpv4Header {
    ghost has_ip = { λ _ reached. reached };
}

impl LastStep for Icmpv6Header {
    ghost reached = { λ packet. IsSome packet.ip_headers };
}

impl TransportStep for Icmpv6Header {
    ghost has_ip = { λ _ reached. reached };
}
