//! A packet of the network layer, as fields and numbers.
ghost use Rattle.std.specs.Prelude.{◌≡◌, ◌+◌, ◌≤◌, ◌<◌, ◌^◌, ℕ, List, [], None, Some};
ghost use Rattle.std.specs.Option.{option_map};
ghost use Rattle.etherparse.specs.ext.Chain.{Row};
ghost use Rattle.etherparse.specs.ext.Ipv4Exts.{auth_bytes};
ghost use Rattle.etherparse.specs.ext.Value.{Piece};
ghost use Rattle.etherparse.specs.ipslice.Compared.{lax_value};
ghost use Rattle.etherparse.specs.ipslice.Ipv6Exts.{exts_of, view_order};
ghost use Rattle.etherparse.specs.ipslice.Packet.{fragment_fields, ipv6_fragment_fields};
ghost use Rattle.etherparse.specs.packet.LaxWhole.{whole_net};
ghost use Rattle.etherparse.specs.packet.declared.net.lax_net_slice.LaxNetSlice.TheVariants as net;
ghost use Rattle.etherparse_structs.specs.Net.{arp_struct, fragment_fields_in, ipv4_struct, ipv6_fields, ipv6_struct};
ghost use Rattle.etherparse_structs.specs.Net.{net_fields, no_arp, no_ipv4, no_ipv6};

use crate::EpPart;
use etherparse::laws::ext::whole_header_is_found;
use etherparse::laws::ipslice::rows_are_found;
use etherparse::{
    ArpPacketSlice, IpFragOffset, IpPayloadSlice, Ipv4ExtensionsSlice, Ipv4HeaderSlice,
    Ipv6ExtensionsSlice, Ipv6HeaderSlice, LaxIpPayloadSlice, LaxNetSlice, NetSlice,
};

/// An IPv4 packet (RFC 791). Its options are the last bytes of its header.
#[repr(C)]
#[derive(Drop)]
pub struct EpIpv4 {
    /// The header, options included.
    pub header: EpPart,
    /// The authentication header.
    pub extensions: EpPart,
    /// What follows it, without padding.
    pub payload: EpPart,
    /// The source address.
    pub source: [u8; 4],
    /// The destination address.
    pub destination: [u8; 4],
    /// The length of header and payload, as the header states it.
    pub total_len: u16,
    /// The identification, which the fragments of one datagram share.
    pub identification: u16,
    /// The offset of the payload in the datagram, in units of 8 bytes.
    pub fragment_offset: u16,
    /// The header checksum, as the header states it.
    pub header_checksum: u16,
    /// Differentiated services code point.
    pub dscp: u8,
    /// Explicit congestion notification.
    pub ecn: u8,
    /// Hops that are left.
    pub time_to_live: u8,
    /// The number of what follows the header.
    pub protocol: u8,
    /// The number of the payload, after an authentication header.
    pub payload_number: u8,
    /// Whether the packet may not be fragmented.
    pub dont_fragment: bool,
    /// Whether other fragments follow.
    pub more_fragments: bool,
    /// Whether the payload is a fragment.
    pub is_part: bool,
}

/// An IPv6 packet (RFC 8200).
#[repr(C)]
#[derive(Drop)]
pub struct EpIpv6 {
    /// The base header.
    pub header: EpPart,
    /// All extension headers.
    pub extensions: EpPart,
    /// What follows them, without padding.
    pub payload: EpPart,
    /// The source address.
    pub source: [u8; 16],
    /// The destination address.
    pub destination: [u8; 16],
    /// The flow label.
    pub flow_label: u32,
    /// The identification, which the fragments of one datagram share, by the first fragment header.
    pub identification: u32,
    /// The payload length, as the header states it.
    pub payload_length: u16,
    /// The offset of the payload in the datagram, in units of 8 bytes, by the first fragment
    /// header.
    pub fragment_offset: u16,
    /// The traffic class.
    pub traffic_class: u8,
    /// The number of what follows the base header.
    pub next_header: u8,
    /// Hops that are left.
    pub hop_limit: u8,
    /// The number of the payload, after the extension headers.
    pub payload_number: u8,
    /// Whether there is a fragment header.
    pub has_fragment_header: bool,
    /// Whether other fragments follow, by the first fragment header.
    pub more_fragments: bool,
    /// Whether the payload is a fragment.
    pub is_part: bool,
}

/// An ARP packet (RFC 826).
#[repr(C)]
#[derive(Drop)]
pub struct EpArp {
    /// The packet.
    pub packet: EpPart,
    /// The sender's hardware address.
    pub sender_hardware: EpPart,
    /// The sender's protocol address.
    pub sender_protocol: EpPart,
    /// The target's hardware address.
    pub target_hardware: EpPart,
    /// The target's protocol address.
    pub target_protocol: EpPart,
    /// The kind of hardware address.
    pub hardware_type: u16,
    /// The kind of protocol address, an ether type.
    pub protocol_type: u16,
    /// 1 request, 2 reply.
    pub operation: u16,
}

/// The packet of the network layer, if there is one, and the offset of the message in it.
#[derive(Drop)]
pub struct NetFields {
    /// 0 none, 1 ARP, 4 IPv4, 6 IPv6.
    pub number: u32,
    /// The offset of what follows the headers.
    pub message_offset: usize,
    /// The packet, where it is one of IPv4.
    pub ipv4: EpIpv4,
    /// The packet, where it is one of IPv6.
    pub ipv6: EpIpv6,
    /// The packet, where it is one of ARP.
    pub arp: EpArp,
}

/// The packet at this offset.
pub(crate) fn net_fields(place: usize, packet: &Option<NetSlice<'_>>) -> NetFields
    requires { place ≤ 64 }
    ensures fields { result ≡ net_fields place (option_map whole_net packet.now) }
    ensures room { result.message_offset + 60 < 2 ^ 64 }
{
    match packet {
        None => no_net(place),
        Some(NetSlice::Ipv4(packet)) => in_ipv4(ipv4_fields(
            place,
            packet.header(),
            packet.extensions(),
            packet.payload(),
        )),
        Some(NetSlice::Ipv6(packet)) => in_ipv6(ipv6_fields(
            place,
            packet.header(),
            packet.extensions(),
            packet.payload(),
        )),
        Some(NetSlice::Arp(packet)) => in_arp(place, packet),
    }
}

/// The packet at this offset, as far as it is there.
pub(crate) fn lax_net_fields(place: usize, packet: &Option<LaxNetSlice<'_>>) -> NetFields
    requires { place ≤ 64 }
    ensures fields { result ≡ net_fields place packet.now }
    ensures room { result.message_offset + 60 < 2 ^ 64 }
{
    match packet {
        None => no_net(place),
        Some(LaxNetSlice::Ipv4(packet)) => {
            let payload = present(packet.payload());
            in_ipv4(ipv4_fields(place, packet.header(), packet.extensions(), &payload))
        }
        Some(LaxNetSlice::Ipv6(packet)) => {
            let payload = present(packet.payload());
            in_ipv6(ipv6_fields(place, packet.header(), packet.extensions(), &payload))
        }
        Some(LaxNetSlice::Arp(packet)) => in_arp(place, packet),
    }
}

// The bytes of a payload that are there.
fn present<'a>(payload: &LaxIpPayloadSlice<'a>) -> IpPayloadSlice<'a>
    ensures { result ≡ (lax_value payload.now).1 }
{
    IpPayloadSlice {
        ip_number: payload.ip_number,
        fragmented: payload.fragmented,
        len_source: payload.len_source,
        payload: payload.payload,
    }
}

/// No packet at this offset.
pub(crate) fn no_net(place: usize) -> NetFields
    ensures { result ≡ net_fields place None }
{
    NetFields {
        number: 0,
        message_offset: place,
        ipv4: no_ipv4(),
        ipv6: no_ipv6(),
        arp: no_arp(),
    }
}

fn in_ipv4(ipv4: EpIpv4) -> NetFields
    ensures { result ≡ record (net_fields ipv4.payload.offset None) { number = 4; ipv4 = ipv4 } }
{
    NetFields {
        number: 4,
        message_offset: ipv4.payload.offset,
        ipv4,
        ..no_net(0)
    }
}

fn in_ipv6(ipv6: EpIpv6) -> NetFields
    ensures { result ≡ record (net_fields ipv6.payload.offset None) { number = 6; ipv6 = ipv6 } }
{
    NetFields {
        number: 6,
        message_offset: ipv6.payload.offset,
        ipv6,
        ..no_net(0)
    }
}

fn in_arp(place: usize, packet: &ArpPacketSlice<'_>) -> NetFields
    requires { place ≤ 64 }
    ensures { result ≡ net_fields place (Some (net.Arp packet.now)) }
{
    NetFields {
        number: 1,
        arp: arp_fields(place, packet),
        ..no_net(place)
    }
}

fn no_ipv4() -> EpIpv4
    ensures { result ≡ no_ipv4 }
{
    EpIpv4 {
        header: EpPart::none(),
        extensions: EpPart::none(),
        payload: EpPart::none(),
        source: [0; 4],
        destination: [0; 4],
        total_len: 0,
        identification: 0,
        fragment_offset: 0,
        header_checksum: 0,
        dscp: 0,
        ecn: 0,
        time_to_live: 0,
        protocol: 0,
        payload_number: 0,
        dont_fragment: false,
        more_fragments: false,
        is_part: false,
    }
}

#[tactic(auto, using(crate::proofs::Offsets::ipv4_header_most))]
fn ipv4_fields(
    place: usize,
    header: &Ipv4HeaderSlice<'_>,
    extensions: &Ipv4ExtensionsSlice<'_>,
    payload: &IpPayloadSlice<'_>,
) -> EpIpv4
    requires { place ≤ 64 }
    ensures fields { result ≡ ipv4_struct place header.now extensions.now.auth payload.now }
    ensures room { result.payload.offset + 60 < 2 ^ 64 }
{
    let extensions = auth_bytes(extensions);
    let after_header = place + header.slice().len();
    EpIpv4 {
        header: EpPart::of(place, header.slice()),
        extensions: EpPart::of(after_header, extensions),
        payload: EpPart::of(after_header + extensions.len(), payload.payload),
        source: header.source(),
        destination: header.destination(),
        total_len: header.total_len(),
        identification: header.identification(),
        fragment_offset: header.fragments_offset().value(),
        header_checksum: header.header_checksum(),
        dscp: header.dcp().value(),
        ecn: header.ecn().value(),
        time_to_live: header.ttl(),
        protocol: header.protocol().0,
        payload_number: payload.ip_number.0,
        dont_fragment: header.dont_fragment(),
        more_fragments: header.more_fragments(),
        is_part: payload.fragmented,
    }
}

fn auth_bytes<'a>(extensions: &Ipv4ExtensionsSlice<'a>) -> &'a [u8]
    ensures { result.now ≡ auth_bytes extensions.now.auth }
{
    match &extensions.auth {
        Some(header) => header.slice(),
        None => &[],
    }
}

fn no_ipv6() -> EpIpv6
    ensures { result ≡ no_ipv6 }
{
    EpIpv6 {
        header: EpPart::none(),
        extensions: EpPart::none(),
        payload: EpPart::none(),
        source: [0; 16],
        destination: [0; 16],
        flow_label: 0,
        identification: 0,
        payload_length: 0,
        fragment_offset: 0,
        traffic_class: 0,
        next_header: 0,
        hop_limit: 0,
        payload_number: 0,
        has_fragment_header: false,
        more_fragments: false,
        is_part: false,
    }
}

fn ipv6_fields(
    place: usize,
    header: &Ipv6HeaderSlice<'_>,
    extensions: &Ipv6ExtensionsSlice<'_>,
    payload: &IpPayloadSlice<'_>,
) -> EpIpv6
    requires { place ≤ 64 }
    ensures fields { result ≡ ipv6_struct place header.now extensions.now payload.now }
    ensures room { result.payload.offset + 60 < 2 ^ 64 }
{
    let reported = ipv6_header_fields(place, header, extensions, payload);
    match fragment_fields(extensions) {
        Some((identification, offset, more_fragments)) => EpIpv6 {
            has_fragment_header: true,
            identification,
            fragment_offset: offset.value(),
            more_fragments,
            ..reported
        },
        None => reported,
    }
}

// What the first fragment header states, if there is one: identification, offset, and whether more
// fragments follow.
fn fragment_fields(extensions: &Ipv6ExtensionsSlice<'_>) -> Option<(u32, IpFragOffset, bool)>
    ensures { option_map fragment_fields result ≡ fragment_fields_in extensions.now }
{
    whole_header_is_found();
    rows_are_found();
    let _headers = extensions.slice();
    first_fragment(extensions)
}

fn first_fragment(extensions: &Ipv6ExtensionsSlice<'_>) -> Option<(u32, IpFragOffset, bool)>
    ensures { (first : ℕ) (pieces : List Piece) (last : ℕ) → Row view_order [] first pieces last
        → extensions.now ≡ exts_of first pieces
        → ipv6_fragment_fields pieces ≡ option_map fragment_fields result }
{
    match extensions.first_fragment_header() {
        Some(header) => Some((
            header.identification(),
            header.fragment_offset(),
            header.more_fragments(),
        )),
        None => None,
    }
}

fn ipv6_header_fields(
    place: usize,
    header: &Ipv6HeaderSlice<'_>,
    extensions: &Ipv6ExtensionsSlice<'_>,
    payload: &IpPayloadSlice<'_>,
) -> EpIpv6
    requires { place ≤ 64 }
    ensures fields { result ≡ ipv6_fields place header.now extensions.now payload.now }
    ensures room { result.payload.offset + 60 < 2 ^ 64 }
{
    let extensions = extensions.slice();
    let after_header = place + header.slice().len();
    EpIpv6 {
        header: EpPart::of(place, header.slice()),
        extensions: EpPart::of(after_header, extensions),
        payload: EpPart::of(after_header + extensions.len(), payload.payload),
        source: header.source(),
        destination: header.destination(),
        flow_label: header.flow_label().value(),
        payload_length: header.payload_length(),
        traffic_class: header.traffic_class(),
        next_header: header.next_header().0,
        hop_limit: header.hop_limit(),
        payload_number: payload.ip_number.0,
        is_part: payload.fragmented,
        ..no_ipv6()
    }
}

fn no_arp() -> EpArp
    ensures { result ≡ no_arp }
{
    EpArp {
        packet: EpPart::none(),
        sender_hardware: EpPart::none(),
        sender_protocol: EpPart::none(),
        target_hardware: EpPart::none(),
        target_protocol: EpPart::none(),
        hardware_type: 0,
        protocol_type: 0,
        operation: 0,
    }
}

fn arp_fields(place: usize, packet: &ArpPacketSlice<'_>) -> EpArp
    requires { place ≤ 64 }
    ensures { result ≡ arp_struct place packet.now }
{
    let bytes = packet.slice();
    let hardware_len = usize::from(packet.hw_addr_size());
    let protocol_len = usize::from(packet.proto_addr_size());
    let sender = place + 8;
    let target = sender + hardware_len + protocol_len;
    EpArp {
        packet: EpPart::of(place, bytes),
        sender_hardware: EpPart {
            offset: sender,
            len: hardware_len,
        },
        sender_protocol: EpPart {
            offset: sender + hardware_len,
            len: protocol_len,
        },
        target_hardware: EpPart {
            offset: target,
            len: hardware_len,
        },
        target_protocol: EpPart {
            offset: target + hardware_len,
            len: protocol_len,
        },
        hardware_type: packet.hw_addr_type().0,
        protocol_type: packet.proto_addr_type().0,
        operation: packet.operation().0,
    }
}
