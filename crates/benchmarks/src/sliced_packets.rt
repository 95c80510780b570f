//! Whole frames, sliced into the parts of all layers, of which each is read.
use crate::job::Job;
use crate::links::{sum_of_address, sum_of_bytes};
use crate::random::Random;
use ep_base::IpNumber;
use ep_base::err::LenError;
use ep_ip::{Ipv4HeaderSlice, Ipv6HeaderSlice};
use ep_link::{ArpPacketSlice, LinkSlice};
use ep_packet::err::packet::SliceError;
use ep_packet::{NetSlice, SlicedPacket, TransportSlice};
use ep_tag::{LinkExtSlice, SingleVlanSlice};
use ep_tcpudp::TcpSlice;
use std::alloc::{AllocError, Global};

/// Ethernet II frames of one kind: UDP over IPv4 (0), TCP with options over IPv4 (1), UDP over IPv6
/// (2), UDP over IPv4 after one VLAN tag (3) and after two (4), UDP over IPv6 with hop-by-hop and
/// destination options (5), ARP (6), and frames that are refused (7).
pub struct SlicedFrames<const KIND: u8>;

/// Frames of all these kinds.
pub struct SlicedMix;

impl<const KIND: u8> Job for SlicedFrames<KIND> {
    /// It has no contract: any frame would do.
    fn packet(alloc: Global, random: &mut Random) -> Result<Vec<u8>, AllocError> {
        frame(alloc, random, KIND)
    }

    /// It has no contract: the sum is compared with that of a plain program.
    fn sum(packet: &[u8]) -> u64 {
        sum_of_frame(packet)
    }
}

impl Job for SlicedMix {
    /// It has no contract: any frame would do.
    fn packet(alloc: Global, random: &mut Random) -> Result<Vec<u8>, AllocError> {
        let kind = random.below(8);
        frame(alloc, random, kind)
    }

    /// It has no contract: the sum is compared with that of a plain program.
    fn sum(packet: &[u8]) -> u64 {
        sum_of_frame(packet)
    }
}

/// A frame of one kind; it has no contract, as any would do.
fn frame(alloc: Global, random: &mut Random, kind: u8) -> Result<Vec<u8>, AllocError> {
    let mut frame = Vec::new(alloc);
    let payload_len = append_headers(random, kind, &mut frame)?;
    random.append(usize::from(payload_len), &mut frame)?;
    Ok(frame)
}

/// The headers of a frame of one kind; returned is how many bytes of payload follow them. It has no
/// contract, as `frame`.
pub fn append_headers(
    random: &mut Random,
    kind: u8,
    frame: &mut Vec<u8>,
) -> Result<u8, AllocError> {
    random.append(12, frame)?;
    match kind {
        0 => append_udp_over_ipv4(random, frame),
        1 => append_tcp_over_ipv4(random, 8, frame),
        2 => append_udp_over_ipv6(random, frame),
        3 => {
            append_tag(random, &[0x81, 0], frame)?;
            append_udp_over_ipv4(random, frame)
        }
        4 => {
            append_tag(random, &[0x88, 0xa8], frame)?;
            append_tag(random, &[0x81, 0], frame)?;
            append_udp_over_ipv4(random, frame)
        }
        5 => append_options_over_ipv6(random, frame),
        6 => append_arp(random, frame),
        _ => append_refused(random, frame),
    }
}

/// An ether type of tags, and what else a tag has; it has no contract, as `frame`.
fn append_tag(
    random: &mut Random,
    ether_type: &[u8],
    frame: &mut Vec<u8>,
) -> Result<(), AllocError> {
    frame.extend_from_slice(ether_type)?;
    random.append(2, frame)
}

/// It has no contract, as `append_headers`.
fn append_udp_over_ipv4(random: &mut Random, frame: &mut Vec<u8>) -> Result<u8, AllocError> {
    let payload_len = random.below(64);
    append_ipv4_header(random, 0x45, 28 + payload_len, 17, frame)?;
    append_udp_header(random, 8 + payload_len, frame)?;
    Ok(payload_len)
}

/// A header with timestamps; it has no contract, as `append_headers`.
fn append_tcp_over_ipv4(
    random: &mut Random,
    data_offset: u8,
    frame: &mut Vec<u8>,
) -> Result<u8, AllocError> {
    let payload_len = random.below(64);
    append_ipv4_header(random, 0x45, 52 + payload_len, 6, frame)?;
    random.append(12, frame)?;
    frame.push(data_offset << 4)?;
    random.append(7, frame)?;
    frame.extend_from_slice(&[1, 1, 8, 10])?;
    random.append(8, frame)?;
    Ok(payload_len)
}

/// It has no contract, as `append_headers`.
fn append_udp_over_ipv6(random: &mut Random, frame: &mut Vec<u8>) -> Result<u8, AllocError> {
    let payload_len = random.below(64);
    append_ipv6_header(random, 17, 8 + payload_len, frame)?;
    append_udp_header(random, 8 + payload_len, frame)?;
    Ok(payload_len)
}

/// Hop-by-hop options, destination options and UDP; it has no contract, as `append_headers`.
fn append_options_over_ipv6(random: &mut Random, frame: &mut Vec<u8>) -> Result<u8, AllocError> {
    let payload_len = random.below(64);
    let words = random.below(3);
    append_ipv6_header(random, 0, 24 + 8 * words + payload_len, frame)?;
    frame.extend_from_slice(&[60, 0])?;
    random.append(6, frame)?;
    frame.extend_from_slice(&[17, words])?;
    random.append(6 + 8 * usize::from(words), frame)?;
    append_udp_header(random, 8 + payload_len, frame)?;
    Ok(payload_len)
}

/// An ARP packet of Ethernet and IPv4, which padding follows; it has no contract, as `append_headers`.
fn append_arp(random: &mut Random, frame: &mut Vec<u8>) -> Result<u8, AllocError> {
    frame.extend_from_slice(&[8, 6, 0, 1, 8, 0, 6, 4, 0, 1 + random.below(2)])?;
    random.append(20, frame)?;
    Ok(18)
}

/// A packet that is cut off, one whose version isn't that of its ether type, one of a data offset
/// of 4, and one of a UDP length above the payload's; it has no contract, as `append_headers`.
fn append_refused(random: &mut Random, frame: &mut Vec<u8>) -> Result<u8, AllocError> {
    match random.below(4) {
        0 => {
            append_ipv4_header(random, 0x45, 200, 17, frame)?;
            append_udp_header(random, 180, frame)?;
            Ok(100)
        }
        1 => {
            append_ipv4_header(random, 0x65, 28, 17, frame)?;
            append_udp_header(random, 8, frame)?;
            Ok(0)
        }
        2 => append_tcp_over_ipv4(random, 4, frame),
        _ => {
            append_ipv4_header(random, 0x45, 38, 17, frame)?;
            append_udp_header(random, 19, frame)?;
            Ok(10)
        }
    }
}

/// The ether type and a header without options; it has no contract, as `frame`.
fn append_ipv4_header(
    random: &mut Random,
    first: u8,
    total_len: u8,
    protocol: u8,
    frame: &mut Vec<u8>,
) -> Result<(), AllocError> {
    frame.extend_from_slice(&[8, 0, first, random.byte(), 0, total_len])?;
    random.append(2, frame)?;
    frame.extend_from_slice(&[0x40, 0, random.byte(), protocol])?;
    random.append(10, frame)
}

/// The ether type and a header; it has no contract, as `frame`.
fn append_ipv6_header(
    random: &mut Random,
    next_header: u8,
    payload_length: u8,
    frame: &mut Vec<u8>,
) -> Result<(), AllocError> {
    frame.extend_from_slice(&[0x86, 0xdd, 0x60 + random.below(16)])?;
    random.append(3, frame)?;
    frame.extend_from_slice(&[0, payload_length, next_header])?;
    random.append(33, frame)
}

/// It has no contract, as `frame`.
fn append_udp_header(
    random: &mut Random,
    length: u8,
    frame: &mut Vec<u8>,
) -> Result<(), AllocError> {
    random.append(4, frame)?;
    frame.extend_from_slice(&[0, length])?;
    random.append(2, frame)
}

/// It has no contract: the sum is compared with that of a plain program.
fn sum_of_frame(frame: &[u8]) -> u64 {
    match SlicedPacket::from_ethernet(frame) {
        Ok(packet) => sum_of_packet(&packet),
        Err(error) => sum_of_error(&error),
    }
}

/// Of too few bytes the lengths and the offset, else 1; it has no contract, as the sum is compared
/// with that of a plain program.
#[inline(always)]
pub fn sum_of_error(error: &SliceError) -> u64 {
    match error {
        SliceError::Len(error) => sum_of_len_error(error),
        _ => 1,
    }
}

/// It has no contract: the sum is compared with that of a plain program.
#[inline(always)]
pub fn sum_of_len_error(error: &LenError) -> u64 {
    (error.required_len as u64)
        .wrapping_add(error.len as u64)
        .wrapping_add(error.layer_start_offset as u64)
}

/// The sum of all parts; it has no contract, as it is compared with that of a plain program.
fn sum_of_packet(packet: &SlicedPacket) -> u64 {
    let mut sum = sum_of_link(&packet.link);
    for tag in packet.link_exts.as_slice() {
        sum = sum.wrapping_add(sum_of_tag(tag));
    }
    let net = match &packet.net {
        Some(packet) => sum_of_net(packet),
        None => 3,
    };
    sum.wrapping_add(net)
        .wrapping_add(sum_of_transport(&packet.transport))
}

// Two kinds of packets have what the next functions sum up. These are inlined always, since a part
// whose address a call is given is kept in memory.

/// It has no contract: the sum is compared with that of a plain program.
#[inline(always)]
pub fn sum_of_link(link: &Option<LinkSlice>) -> u64 {
    match link {
        Some(LinkSlice::Ethernet2(frame)) => sum_of_address(frame.destination())
            .wrapping_add(sum_of_address(frame.source()))
            .wrapping_add(u64::from(frame.ether_type().0))
            .wrapping_add(frame.payload_slice().len() as u64),
        Some(_) => 5,
        None => 2,
    }
}

/// It has no contract: the sum is compared with that of a plain program.
#[inline(always)]
pub fn sum_of_vlan(tag: &SingleVlanSlice) -> u64 {
    u64::from(tag.vlan_identifier().value())
        .wrapping_add(u64::from(tag.ether_type().0))
        .wrapping_add(tag.payload_slice().len() as u64)
}

/// It has no contract: the sum is compared with that of a plain program.
#[inline(always)]
pub fn sum_of_ipv4_addresses(header: &Ipv4HeaderSlice) -> u64 {
    let source = u32::from_be_bytes(header.source());
    let destination = u32::from_be_bytes(header.destination());
    u64::from(source).wrapping_add(u64::from(destination))
}

/// It has no contract: the sum is compared with that of a plain program.
#[inline(always)]
pub fn sum_of_ipv6_addresses(header: &Ipv6HeaderSlice) -> u64 {
    let source = u64::from_be_bytes(half(header.source()));
    let destination = u64::from_be_bytes(half(header.destination()));
    source.wrapping_add(destination)
}

/// The second half of an address, which identifies an interface. It has no contract: the sum is
/// compared with that of a plain program.
fn half(address: [u8; 16]) -> [u8; 8] {
    let [_, _, _, _, _, _, _, _, a, b, c, d, e, f, g, h] = address;
    [a, b, c, d, e, f, g, h]
}

/// It has no contract: the sum is compared with that of a plain program.
#[inline(always)]
pub fn sum_of_ip_payload(ip_number: IpNumber, fragmented: bool, payload: &[u8]) -> u64 {
    u64::from(ip_number.0)
        .wrapping_add(u64::from(fragmented))
        .wrapping_add(sum_of_bytes(payload))
}

/// It has no contract: the sum is compared with that of a plain program.
#[inline(always)]
pub fn sum_of_arp(packet: &ArpPacketSlice) -> u64 {
    u64::from(packet.operation().0)
        .wrapping_add(sum_of_bytes(packet.sender_hw_addr()))
        .wrapping_add(sum_of_bytes(packet.sender_protocol_addr()))
        .wrapping_add(sum_of_bytes(packet.target_hw_addr()))
        .wrapping_add(sum_of_bytes(packet.target_protocol_addr()))
}

/// It has no contract: the sum is compared with that of a plain program.
#[inline(always)]
pub fn sum_of_transport(message: &Option<TransportSlice>) -> u64 {
    match message {
        Some(TransportSlice::Udp(datagram)) => u64::from(datagram.source_port())
            .wrapping_add(u64::from(datagram.destination_port()))
            .wrapping_add(sum_of_bytes(datagram.payload())),
        Some(TransportSlice::Tcp(segment)) => sum_of_segment(segment),
        Some(TransportSlice::Icmpv4(message)) => u64::from(message.type_u8())
            .wrapping_add(u64::from(message.code_u8()))
            .wrapping_add(sum_of_bytes(message.payload())),
        Some(TransportSlice::Icmpv6(message)) => u64::from(message.type_u8())
            .wrapping_add(u64::from(message.code_u8()))
            .wrapping_add(sum_of_bytes(message.payload())),
        None => 4,
    }
}

/// It has no contract: the sum is compared with that of a plain program.
#[inline(always)]
fn sum_of_segment(segment: &TcpSlice) -> u64 {
    let flags = u64::from(segment.syn())
        + u64::from(segment.ack())
        + u64::from(segment.fin())
        + u64::from(segment.rst())
        + u64::from(segment.psh());
    u64::from(segment.source_port())
        .wrapping_add(u64::from(segment.destination_port()))
        .wrapping_add(u64::from(segment.sequence_number()))
        .wrapping_add(flags)
        .wrapping_add(sum_of_bytes(segment.options()))
        .wrapping_add(sum_of_bytes(segment.payload()))
}

/// It has no contract: the sum is compared with that of a plain program.
fn sum_of_tag(tag: &LinkExtSlice) -> u64 {
    match tag {
        LinkExtSlice::Vlan(tag) => sum_of_vlan(tag),
        LinkExtSlice::Macsec(macsec) => macsec.header_len() as u64,
    }
}

/// It has no contract: the sum is compared with that of a plain program.
fn sum_of_net(packet: &NetSlice) -> u64 {
    match packet {
        NetSlice::Ipv4(packet) => {
            let payload = packet.payload();
            sum_of_ipv4_addresses(packet.header()).wrapping_add(sum_of_ip_payload(
                payload.ip_number,
                payload.fragmented,
                payload.payload,
            ))
        }
        NetSlice::Ipv6(packet) => {
            let payload = packet.payload();
            sum_of_ipv6_addresses(packet.header())
                .wrapping_add(packet.extensions().slice().len() as u64)
                .wrapping_add(sum_of_ip_payload(
                    payload.ip_number,
                    payload.fragmented,
                    payload.payload,
                ))
        }
        NetSlice::Arp(packet) => sum_of_arp(packet),
    }
}
