//! The first header of a packet: a link header, or an IP header alone.

ghost use Rattle.std.specs.Prelude.{◌≡◌, Some};
ghost use Rattle.etherparse.specs.BuiltSteps.{cooked_link_header, ethernet_between, ipv4_between, ipv6_between};
ghost use Rattle.etherparse.specs.BuiltSteps.{no_headers};

use super::packet_state::PacketState;
use super::step::PacketBuilderStep;
use ep_base::EtherType;
use ep_link::{
    ArpHardwareId, Ethernet2Header, LinkHeader, LinuxSllHeader, LinuxSllPacketType,
    LinuxSllProtocolType,
};
use ep_packet::IpHeaders;

/// Where a packet starts.
///
/// Each step adds a header, and the last one writes the packet with the ether types, numbers,
/// lengths and checksums that belong to it.
#[derive(Drop)]
pub struct PacketBuilder {}

impl PacketBuilder {
    /// A packet in an Ethernet II frame between these addresses.
    #[inline(always)]
    pub fn ethernet2(source: [u8; 6], destination: [u8; 6]) -> PacketBuilderStep<Ethernet2Header>
        ensures { result ≡ record no_headers
            { link_header = Some (ethernet_between source destination) } }
    {
        let mut state = PacketState::empty();
        state.prefix.link_header = Some(LinkHeader::Ethernet2(Ethernet2Header {
            source,
            destination,
            ether_type: EtherType(0),
        }));
        PacketBuilderStep::of(state)
    }

    /// A packet of a Linux cooked capture, of a device of hardware type 1, Ethernet: who it was
    /// sent to or by, and the sender's address with how many of its bytes count.
    #[inline(always)]
    pub fn linux_sll(
        packet_type: LinuxSllPacketType,
        sender_address_valid_length: u16,
        sender_address: [u8; 8],
    ) -> PacketBuilderStep<LinuxSllHeader>
        ensures { result ≡ record no_headers {
          link_header = Some (cooked_link_header packet_type sender_address_valid_length
              sender_address);
        } }
    {
        let mut state = PacketState::empty();
        state.prefix.link_header = Some(LinkHeader::LinuxSll(LinuxSllHeader {
            packet_type,
            arp_hrd_type: ArpHardwareId::ETHERNET,
            sender_address_valid_length,
            sender_address,
            protocol_type: LinuxSllProtocolType::EtherType(EtherType(0)),
        }));
        PacketBuilderStep::of(state)
    }

    /// An IPv4 packet with no link header, as [`PacketBuilderStep::ipv4`] adds it.
    #[inline(always)]
    pub fn ipv4(
        source: [u8; 4],
        destination: [u8; 4],
        time_to_live: u8,
    ) -> PacketBuilderStep<IpHeaders>
        ensures { result ≡ record no_headers
            { ip_headers = Some (ipv4_between source destination time_to_live) } }
    {
        PacketBuilder::nothing().ipv4(source, destination, time_to_live)
    }

    /// An IPv6 packet with no link header, as [`PacketBuilderStep::ipv6`] adds it.
    #[inline(always)]
    pub fn ipv6(
        source: [u8; 16],
        destination: [u8; 16],
        hop_limit: u8,
    ) -> PacketBuilderStep<IpHeaders>
        ensures { result ≡ record no_headers
            { ip_headers = Some (ipv6_between source destination hop_limit) } }
    {
        PacketBuilder::nothing().ipv6(source, destination, hop_limit)
    }

    /// An IP packet with no link header, with these headers, as [`PacketBuilderStep::ip`] adds
    /// them.
    #[inline(always)]
    pub fn ip(ip_header: IpHeaders) -> PacketBuilderStep<IpHeaders>
        ensures { result ≡ record no_headers { ip_headers = Some ip_header } }
    {
        PacketBuilder::nothing().ip(ip_header)
    }

    // No header so far.
    #[inline(always)]
    fn nothing() -> PacketBuilderStep<Ethernet2Header>
        ensures { result ≡ no_headers }
    {
        PacketBuilderStep::of(PacketState::empty())
    }
}
