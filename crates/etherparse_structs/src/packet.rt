//! A packet as fields and numbers.
ghost use Rattle.std.specs.Prelude.{◌≡◌, ◌+◌, ◌≤◌, ◌<◌, ◌^◌};
ghost use Rattle.etherparse.specs.packet.PacketView.{ether_payload_in};
ghost use Rattle.etherparse_structs.specs.Packet.{ether_part, layers_struct, no_layers, packet_struct, refused};
ghost use Rattle.etherparse_structs.specs.Packet.{reported};

use crate::link::{link_struct, no_tag, tags_struct};
use crate::net::{NetFields, net_fields, no_net};
use crate::refusal::{no_refusal, refusal};
use crate::transport::{icmp_in, tcp_in, transport_number, udp_in};
use crate::{EpArp, EpIcmp, EpIpv4, EpIpv6, EpLink, EpPart, EpRefusal, EpTag, EpTcp, EpUdp};
use etherparse::err::packet::SliceError;
use etherparse::{LinkSlice, SlicedPacket, TransportSlice};

/// The fields of a packet. Every [`EpPart`] counts from the start of the bytes that were passed.
/// The fields of a layer that isn't there are 0, and all but `refusal` are where the packet is
/// refused.
#[repr(C)]
#[derive(Drop)]
pub struct EpPacket {
    /// Why the packet is refused.
    pub refusal: EpRefusal,
    /// The link header.
    pub link: EpLink,
    /// How many tags there are.
    pub tag_count: u32,
    /// The tags after the link header, in their order.
    pub tags: [EpTag; 3],
    /// The payload that the last ether type names.
    pub ether_payload: EpPart,
    /// The network layer: 0 none, 1 ARP, 4 IPv4, 6 IPv6.
    pub net: u32,
    /// The transport layer: 0 none, or its number: 1 ICMPv4, 6 TCP, 17 UDP, 58 ICMPv6.
    pub transport: u32,
    /// The packet, where it is one of IPv4.
    pub ipv4: EpIpv4,
    /// The packet, where it is one of IPv6.
    pub ipv6: EpIpv6,
    /// The packet, where it is one of ARP.
    pub arp: EpArp,
    /// The message, where it is a UDP datagram.
    pub udp: EpUdp,
    /// The message, where it is a TCP segment.
    pub tcp: EpTcp,
    /// The message, where it is one of ICMP.
    pub icmp: EpIcmp,
}

/// The packet that bytes were sliced into, after a link header of this length, or the refusal.
pub fn reported(link_len: usize, sliced: Result<SlicedPacket<'_>, SliceError>) -> EpPacket
    requires small { link_len ≤ 16 }
    ensures { result ≡ reported link_len sliced.entry }
{
    match sliced {
        Ok(packet) => packet_struct(link_len, &packet),
        Err(error) => refused(error),
    }
}

/// The struct of a refused packet.
pub(crate) fn refused(error: SliceError) -> EpPacket
    ensures { result ≡ refused error }
{
    EpPacket {
        refusal: refusal(error),
        ..no_layers()
    }
}

fn no_layers() -> EpPacket
    ensures { result ≡ no_layers }
{
    let tags = [no_tag(), no_tag(), no_tag()];
    layers_struct(&None, 0, tags, EpPart::none(), no_net(0), &None)
}

fn packet_struct(link_len: usize, packet: &SlicedPacket<'_>) -> EpPacket
    requires small { link_len ≤ 16 }
    ensures { result ≡ packet_struct link_len packet.now }
{
    let slices = packet.link_exts.as_slice();
    let (tags, net_offset) = tags_struct(link_len, slices);
    layers_struct(
        &packet.link,
        slices.len() as u32,
        tags,
        ether_part(net_offset, packet),
        net_fields(net_offset, &packet.net),
        &packet.transport,
    )
}

/// Each layer by its own struct.
pub(crate) fn layers_struct(
    link: &Option<LinkSlice<'_>>,
    tag_count: u32,
    tags: [EpTag; 3],
    ether_payload: EpPart,
    net: NetFields,
    message: &Option<TransportSlice<'_>>,
) -> EpPacket
    requires { net.message_offset + 60 < 2 ^ 64 }
    ensures { result ≡ layers_struct link.now tag_count tags ether_payload net message.now }
{
    let NetFields {
        number,
        message_offset,
        ipv4,
        ipv6,
        arp,
    } = net;
    EpPacket {
        refusal: no_refusal(),
        link: link_struct(link),
        tag_count,
        tags,
        ether_payload,
        net: number,
        transport: transport_number(message),
        ipv4,
        ipv6,
        arp,
        udp: udp_in(message_offset, message),
        tcp: tcp_in(message_offset, message),
        icmp: icmp_in(message_offset, message),
    }
}

fn ether_part(place: usize, packet: &SlicedPacket<'_>) -> EpPart
    ensures { result ≡ ether_part place (ether_payload_in packet.now) }
{
    match packet.ether_payload() {
        Some(payload) => EpPart::of(place, payload.payload),
        None => EpPart::none(),
    }
}
