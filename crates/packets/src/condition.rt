//! Conditions that packets meet or don't.
ghost use Rattle.std.specs.Prelude.{◌≡◌};
ghost use Rattle.std.specs.Int.{w32, from_be_bytes};
ghost use Rattle.std.specs.List.{list_any};
ghost use Rattle.packets.specs.Conditions.{are_within, arp_numbers, both_numbers, has_flag, has_host};
ghost use Rattle.packets.specs.Conditions.{has_port, has_vlan_id, holds_at, ipv4_bits_after, ipv4_numbers};
ghost use Rattle.packets.specs.Conditions.{ipv4_number, ipv6_bits_after, ipv6_numbers, is_within};
ghost use Rattle.packets.specs.Conditions.{lax_has_vlan_id, lax_ipv4_numbers, lax_ipv6_numbers};
ghost use Rattle.packets.specs.Conditions.{lax_net_ipv4_numbers, lax_net_ipv6_numbers, net_ipv4_numbers};
ghost use Rattle.packets.specs.Conditions.{net_ipv6_numbers};
ghost use Rattle.packets.specs.Counts.{is_bad};
ghost use Rattle.packets.specs.LaxLayers.{lax_layers_of};

use crate::icmpv6_type::{icmpv6_type, is_mld, is_ndp};
use crate::message_header::{MessageHeader, ports_of};
use crate::outline::refusal_of;
use crate::{Dissection, Headers, Protocol};
use checksum_verdicts::Verdict;
use ep_base::EtherType;
use ep_link::ArpPacketSlice;
use ep_packet::{LaxNetSlice, LaxSlicedPacket, NetSlice};
use ep_tag::VlanId;
use std::net::IpAddr;

/// A condition on a packet. Numbers go from a first to a last, both included.
#[derive(Clone, Copy, Debug, PartialEq, Eq)]
pub enum Condition {
    /// It has a header of this protocol, or its IP header names it, as in a fragment.
    Protocol(Protocol),
    /// The checksum of its message, or of that which it completes, is wrong.
    Bad,
    /// It is refused, by its headers or as a fragment, or the message that it completes can't be
    /// read.
    Refused,
    /// It is a fragment.
    Fragment,
    /// Fewer of its bytes were captured than were on the wire.
    Cut,
    /// It comes from this address or goes to it, by its IP header or as an ARP packet for IPv4, if
    /// that header is there.
    Host(IpAddr),
    /// The same of one of these addresses of IPv4, as numbers, on this side.
    Ipv4(Side, u32, u32),
    /// The same of IPv6.
    Ipv6(Side, u128, u128),
    /// Its TCP or UDP message, or the one that it completes, comes from this port or goes to it, if
    /// that header is there.
    Port(u16),
    /// The same of one of these ports.
    Ports(u16, u16),
    /// Its TCP segment, or the one that it completes, has this flag, if that header is there.
    Flag(TcpFlag),
    /// Its ICMPv6 message, or the one that it completes, is of a type of neighbor discovery (133 to
    /// 137), if that header is there.
    Ndp,
    /// The same of multicast listener discovery (130 to 132, 143).
    Mld,
    /// One of its VLAN tags has one of these identifiers.
    VlanId(u16, u16),
    /// It had one of these numbers of bytes on the wire.
    WireLen(u32, u32),
    /// It has one of these numbers in its capture.
    Number(u64, u64),
}

/// Which addresses of a packet are meant.
#[derive(Clone, Copy, Debug, PartialEq, Eq)]
pub enum Side {
    /// The source or the destination.
    Either,
    /// The source.
    Source,
    /// The destination.
    Destination,
}

/// A flag of a TCP segment.
#[derive(Clone, Copy, Debug, PartialEq, Eq)]
pub enum TcpFlag {
    /// The sender has no more data.
    Fin,
    /// Sequence numbers are agreed on.
    Syn,
    /// The connection is reset.
    Rst,
}

impl Condition {
    ghost use Rattle.packets.specs.Conditions.{holds, ipv4_network, ipv6_network};

    /// The condition of a network of IPv4, by its first address as a number, and the length of its
    /// prefix. There is none where a bit after the prefix is set.
    pub fn ipv4_network(side: Side, address: u32, prefix: u32) -> Option<Condition>
        ensures { result ≡ ipv4_network side address prefix }
    {
        let bits = ipv4_bits_after(prefix);
        if address & bits == 0 {
            Some(Condition::Ipv4(side, address, address | bits))
        } else {
            None
        }
    }

    /// The same of IPv6.
    pub fn ipv6_network(side: Side, address: u128, prefix: u32) -> Option<Condition>
        ensures { result ≡ ipv6_network side address prefix }
    {
        let bits = ipv6_bits_after(prefix);
        if address & bits == 0 {
            Some(Condition::Ipv6(side, address, address | bits))
        } else {
            None
        }
    }

    /// Whether a packet meets it.
    pub fn holds(&self, dissection: &Dissection<'_>) -> bool
        ensures { result ≡ holds self.now dissection.now }
    {
        match self {
            Condition::Protocol(protocol) => Headers::of(dissection).has(*protocol),
            Condition::Bad => is_bad(dissection.verdict),
            Condition::Refused => refusal_of(dissection).is_some(),
            Condition::Fragment => dissection.fragment.is_some(),
            Condition::Cut => dissection.is_cut(),
            Condition::Host(address) => has_host(dissection, *address),
            Condition::Ipv4(side, first, last) => are_within(
                *side,
                u128::from(*first),
                u128::from(*last),
                ipv4_numbers(dissection),
            ),
            Condition::Ipv6(side, first, last) => {
                are_within(*side, *first, *last, ipv6_numbers(dissection))
            }
            Condition::Port(port) => has_port(dissection, *port, *port),
            Condition::Ports(first, last) => has_port(dissection, *first, *last),
            Condition::Flag(flag) => has_flag(*flag, MessageHeader::of(dissection)),
            Condition::Ndp => is_ndp(icmpv6_type(dissection)),
            Condition::Mld => is_mld(icmpv6_type(dissection)),
            Condition::VlanId(first, last) => has_vlan_id(dissection, *first, *last),
            Condition::WireLen(first, last) => {
                *first <= dissection.wire_len && dissection.wire_len <= *last
            }
            Condition::Number(first, last) => {
                *first <= dissection.number && dissection.number <= *last
            }
        }
    }
}

fn ipv4_bits_after(prefix: u32) -> u32
    ensures { result ≡ ipv4_bits_after prefix }
{
    match u32::MAX.checked_shr(prefix) {
        Some(bits) => bits,
        None => 0,
    }
}

fn ipv6_bits_after(prefix: u32) -> u128
    ensures { result ≡ ipv6_bits_after prefix }
{
    match u128::MAX.checked_shr(prefix) {
        Some(bits) => bits,
        None => 0,
    }
}

fn has_host(dissection: &Dissection<'_>, address: IpAddr) -> bool
    ensures { result ≡ has_host dissection.now.layers
        (lax_layers_of dissection.now.header dissection.now.bytes) address }
{
    match address {
        IpAddr::V4(address) => {
            let number = ipv4_address(address.octets());
            are_within(Side::Either, number, number, ipv4_numbers(dissection))
        }
        IpAddr::V6(address) => {
            let number = u128::from_be_bytes(address.octets());
            are_within(Side::Either, number, number, ipv6_numbers(dissection))
        }
    }
}

fn has_port(dissection: &Dissection<'_>, first: u16, last: u16) -> bool
    ensures { result ≡ has_port dissection.now.layers
        (lax_layers_of dissection.now.header dissection.now.bytes) dissection.now.fragment first last }
{
    are_within(
        Side::Either,
        u128::from(first),
        u128::from(last),
        ports_of(MessageHeader::of(dissection)),
    )
}

fn is_bad(verdict: Option<Verdict>) -> bool
    ensures { result ≡ is_bad verdict }
{
    matches!(verdict, Some(Verdict::Bad))
}

fn are_within(side: Side, first: u128, last: u128, ends: Option<(u128, u128)>) -> bool
    ensures { result ≡ are_within side first last ends }
{
    match ends {
        Some((source, destination)) => holds_at(
            side,
            is_within(first, last, source),
            is_within(first, last, destination),
        ),
        None => false,
    }
}

fn is_within(first: u128, last: u128, number: u128) -> bool
    ensures { result ≡ is_within first last number }
{
    first <= number && number <= last
}

fn holds_at(side: Side, source: bool, destination: bool) -> bool
    ensures { result ≡ holds_at side source destination }
{
    match side {
        Side::Either => source || destination,
        Side::Source => source,
        Side::Destination => destination,
    }
}

fn ipv4_numbers(dissection: &Dissection<'_>) -> Option<(u128, u128)>
    ensures { result ≡ ipv4_numbers dissection.now.layers
        (lax_layers_of dissection.now.header dissection.now.bytes) }
{
    match &dissection.layers {
        Ok(packet) => net_ipv4_numbers(&packet.net),
        Err(_) => lax_ipv4_numbers(&dissection.lax_layers()),
    }
}

fn ipv6_numbers(dissection: &Dissection<'_>) -> Option<(u128, u128)>
    ensures { result ≡ ipv6_numbers dissection.now.layers
        (lax_layers_of dissection.now.header dissection.now.bytes) }
{
    match &dissection.layers {
        Ok(packet) => net_ipv6_numbers(&packet.net),
        Err(_) => lax_ipv6_numbers(&dissection.lax_layers()),
    }
}

fn lax_ipv4_numbers(layers: &Option<LaxSlicedPacket<'_>>) -> Option<(u128, u128)>
    ensures { result ≡ lax_ipv4_numbers layers.now }
{
    match layers {
        Some(packet) => lax_net_ipv4_numbers(&packet.net),
        None => None,
    }
}

fn lax_ipv6_numbers(layers: &Option<LaxSlicedPacket<'_>>) -> Option<(u128, u128)>
    ensures { result ≡ lax_ipv6_numbers layers.now }
{
    match layers {
        Some(packet) => lax_net_ipv6_numbers(&packet.net),
        None => None,
    }
}

fn net_ipv4_numbers(net: &Option<NetSlice<'_>>) -> Option<(u128, u128)>
    ensures { result ≡ net_ipv4_numbers net.now }
{
    match net {
        Some(NetSlice::Ipv4(packet)) => {
            let header = packet.header();
            Some((
                ipv4_address(header.source()),
                ipv4_address(header.destination()),
            ))
        }
        Some(NetSlice::Arp(packet)) => arp_numbers(packet),
        _ => None,
    }
}

fn lax_net_ipv4_numbers(net: &Option<LaxNetSlice<'_>>) -> Option<(u128, u128)>
    ensures { result ≡ lax_net_ipv4_numbers net.now }
{
    match net {
        Some(LaxNetSlice::Ipv4(packet)) => {
            let header = packet.header();
            Some((
                ipv4_address(header.source()),
                ipv4_address(header.destination()),
            ))
        }
        Some(LaxNetSlice::Arp(packet)) => arp_numbers(packet),
        _ => None,
    }
}

fn net_ipv6_numbers(net: &Option<NetSlice<'_>>) -> Option<(u128, u128)>
    ensures { result ≡ net_ipv6_numbers net.now }
{
    match net {
        Some(NetSlice::Ipv6(packet)) => {
            let header = packet.header();
            Some((
                u128::from_be_bytes(header.source()),
                u128::from_be_bytes(header.destination()),
            ))
        }
        _ => None,
    }
}

fn lax_net_ipv6_numbers(net: &Option<LaxNetSlice<'_>>) -> Option<(u128, u128)>
    ensures { result ≡ lax_net_ipv6_numbers net.now }
{
    match net {
        Some(LaxNetSlice::Ipv6(packet)) => {
            let header = packet.header();
            Some((
                u128::from_be_bytes(header.source()),
                u128::from_be_bytes(header.destination()),
            ))
        }
        _ => None,
    }
}

fn arp_numbers(packet: &ArpPacketSlice<'_>) -> Option<(u128, u128)>
    ensures { result ≡ arp_numbers packet.now }
{
    if packet.proto_addr_type() == EtherType::IPV4 {
        both_numbers(
            ipv4_number(packet.sender_protocol_addr()),
            ipv4_number(packet.target_protocol_addr()),
        )
    } else {
        None
    }
}

fn both_numbers(source: Option<u128>, destination: Option<u128>) -> Option<(u128, u128)>
    ensures { result ≡ both_numbers source destination }
{
    match (source, destination) {
        (Some(source), Some(destination)) => Some((source, destination)),
        _ => None,
    }
}

fn ipv4_number(bytes: &[u8]) -> Option<u128>
    ensures { result ≡ ipv4_number bytes.now }
{
    if bytes.len() == 4 {
        Some(ipv4_address([bytes[0], bytes[1], bytes[2], bytes[3]]))
    } else {
        None
    }
}

fn ipv4_address(bytes: [u8; 4]) -> u128
    ensures { result ≡ from_be_bytes w32 bytes }
{
    u128::from(u32::from_be_bytes(bytes))
}

fn has_flag(flag: TcpFlag, header: Option<MessageHeader>) -> bool
    ensures { result ≡ has_flag flag header }
{
    match (flag, header) {
        (TcpFlag::Fin, Some(header)) => header.fin,
        (TcpFlag::Syn, Some(header)) => header.syn,
        (TcpFlag::Rst, Some(header)) => header.rst,
        (_, None) => false,
    }
}

fn is_any_within(ids: &[VlanId], first: u16, last: u16) -> bool
    ensures { result ≡ list_any (λ id. is_within first last id) ids.now }
{
    for id in ids {
        if first <= id.value() && id.value() <= last {
            return true;
        }
    }
    false
}

fn has_vlan_id(dissection: &Dissection<'_>, first: u16, last: u16) -> bool
    ensures { result ≡ has_vlan_id dissection.now.layers
        (lax_layers_of dissection.now.header dissection.now.bytes) first last }
{
    match &dissection.layers {
        Ok(packet) => {
            let ids = packet.vlan_ids();
            is_any_within(ids.as_slice(), first, last)
        }
        Err(_) => lax_has_vlan_id(&dissection.lax_layers(), first, last),
    }
}

fn lax_has_vlan_id(layers: &Option<LaxSlicedPacket<'_>>, first: u16, last: u16) -> bool
    ensures { result ≡ lax_has_vlan_id layers.now first last }
{
    match layers {
        Some(packet) => {
            let ids = packet.vlan_ids();
            is_any_within(ids.as_slice(), first, last)
        }
        None => false,
    }
}
