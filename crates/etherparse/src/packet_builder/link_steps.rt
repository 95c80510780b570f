//! The steps after a link header: VLAN tags, and an IP header or an ARP packet.

ghost use Rattle.std.specs.Prelude.{◌≡◌, Some};
ghost use Rattle.ep_tag.specs.declared.link.vlan_header.VlanHeader.TheVariants.{Double, Single};
ghost use Rattle.etherparse.specs.BuiltSteps.{ipv4_between, ipv6_between, tag_of};
ghost use Rattle.etherparse.specs.PacketState.{headers_of};

use super::chosen_ip::{ChosenIp, IpHeader};
use super::last_step::LinkStep;
use super::step::PacketBuilderStep;
use ep_base::{EtherType, IpNumber, Ipv6FlowLabel};
use ep_ip::{Ipv4Header, Ipv6Header};
use ep_link::{ArpPacket, Ethernet2Header};
use ep_packet::IpHeaders;
use ep_tag::{DoubleVlanHeader, SingleVlanHeader, VlanHeader, VlanId, VlanPcp};

impl PacketBuilderStep<Ethernet2Header> {
    /// With one VLAN tag of this identifier and priority 0.
    #[inline(always)]
    pub fn single_vlan(self, vlan_identifier: VlanId) -> PacketBuilderStep<VlanHeader>
        ensures { result ≡ record self { vlan_header = Some (Single (tag_of vlan_identifier)) } }
    {
        self.vlan(VlanHeader::Single(tag_of(vlan_identifier)))
    }

    /// With two VLAN tags of these identifiers and priority 0.
    #[inline(always)]
    pub fn double_vlan(
        self,
        outer_vlan_identifier: VlanId,
        inner_vlan_identifier: VlanId,
    ) -> PacketBuilderStep<VlanHeader>
        ensures { result ≡ record self {
          vlan_header = Some (Double (record { outer = tag_of outer_vlan_identifier; inner = tag_of inner_vlan_identifier }));
        } }
    {
        self.vlan(VlanHeader::Double(DoubleVlanHeader {
            outer: tag_of(outer_vlan_identifier),
            inner: tag_of(inner_vlan_identifier),
        }))
    }

    /// With these tags. Their ether types are set when the packet is written.
    #[inline(always)]
    pub fn vlan(self, vlan: VlanHeader) -> PacketBuilderStep<VlanHeader>
        ensures { result ≡ record self { vlan_header = Some vlan } }
    {
        let mut state = self.state;
        state.prefix.vlan_header = Some(vlan);
        PacketBuilderStep::of(state)
    }
}

impl<L: LinkStep> PacketBuilderStep<L> {
    /// With these headers. Their lengths and numbers, and of IPv4 the checksum, are set when the
    /// packet is written.
    #[inline(always)]
    pub fn ip(self, ip_header: IpHeaders) -> PacketBuilderStep<IpHeaders>
        ensures { result ≡ record self { ip_headers = Some ip_header } }
    {
        self.with_ip(ChosenIp::Given(ip_header))
    }

    #[inline(always)]
    fn with_ip(self, ip: ChosenIp) -> PacketBuilderStep<IpHeaders>
        ensures { result ≡ record self { ip_headers = Some (headers_of ip) } }
    {
        let mut state = self.state;
        state.ip = Some(ip);
        PacketBuilderStep::of(state)
    }

    /// With the default IPv4 header between these addresses, for so many hops.
    #[inline(always)]
    pub fn ipv4(
        self,
        source: [u8; 4],
        destination: [u8; 4],
        time_to_live: u8,
    ) -> PacketBuilderStep<IpHeaders>
        ensures { result
            ≡ record self { ip_headers = Some (ipv4_between source destination time_to_live) } }
    {
        let header = Ipv4Header {
            source,
            destination,
            time_to_live,
            ..Ipv4Header::default()
        };
        self.with_ip(ChosenIp::Alone(IpHeader::Ipv4(header)))
    }

    /// With the default IPv6 header between these addresses, for so many hops.
    #[inline(always)]
    pub fn ipv6(
        self,
        source: [u8; 16],
        destination: [u8; 16],
        hop_limit: u8,
    ) -> PacketBuilderStep<IpHeaders>
        ensures { result
            ≡ record self { ip_headers = Some (ipv6_between source destination hop_limit) } }
    {
        let header = Ipv6Header {
            traffic_class: 0,
            flow_label: Ipv6FlowLabel::ZERO,
            payload_length: 0,
            next_header: IpNumber(255),
            hop_limit,
            source,
            destination,
        };
        self.with_ip(ChosenIp::Alone(IpHeader::Ipv6(header)))
    }

    /// With this ARP packet, which no payload follows.
    pub fn arp(self, arp_packet: ArpPacket) -> PacketBuilderStep<ArpPacket>
        ensures { result ≡ record self { arp_packet = Some arp_packet } }
    {
        let mut state = self.state;
        state.arp_packet = Some(arp_packet);
        PacketBuilderStep::of(state)
    }
}

fn tag_of(vlan_id: VlanId) -> SingleVlanHeader
    ensures { result ≡ tag_of vlan_id }
{
    SingleVlanHeader {
        pcp: VlanPcp::ZERO,
        drop_eligible_indicator: false,
        vlan_id,
        ether_type: EtherType(0),
    }
}
