//! IP packets, with every getter of packet, header, extension headers and payload.
use crate::ipv4_headers::sum_of_header;
use crate::job::Job;
use crate::random::Random;
use ep_ext::{Ipv6FragmentHeaderSlice, Ipv6RawExtHeaderSlice};
use ep_ip::Ipv6HeaderSlice;
use ep_ipslice::{IpSlice, Ipv4Slice, Ipv6ExtensionSlice, Ipv6ExtensionsSlice, Ipv6Slice};
use std::alloc::{AllocError, Global};
use std::net::IpAddr;

/// IPv4 packets of 20 to 83 bytes, with padding.
pub struct Ipv4Packets;

/// IPv6 packets of 40 to 103 bytes, with padding.
pub struct Ipv6Packets;

/// IPv6 packets with destination options, a fragment header and a payload of up to 63 bytes.
pub struct Ipv6PacketsTwoExtensions;

impl Job for Ipv4Packets {
    /// It has no contract: any packet would do.
    fn packet(alloc: Global, random: &mut Random) -> Result<Vec<u8>, AllocError> {
        let mut packet = Vec::new(alloc);
        let payload_len = random.below(64);
        packet.extend_from_slice(&[0x45, random.byte(), 0, 20 + payload_len])?;
        random.append(5, &mut packet)?;
        packet.push(17)?;
        random.append(10 + usize::from(payload_len), &mut packet)?;
        let padding = random.below(16);
        random.append(usize::from(padding), &mut packet)?;
        Ok(packet)
    }

    /// It has no contract: the sum is compared with that of a plain program.
    fn sum(packet: &[u8]) -> u64 {
        sum_of_slice(packet)
    }
}

impl Job for Ipv6Packets {
    /// It has no contract: any packet would do.
    fn packet(alloc: Global, random: &mut Random) -> Result<Vec<u8>, AllocError> {
        let payload_len = random.below(63) + 1;
        let mut packet = Vec::new(alloc);
        append_ipv6_header(random, 17, payload_len, &mut packet)?;
        random.append(usize::from(payload_len), &mut packet)?;
        let padding = random.below(16);
        random.append(usize::from(padding), &mut packet)?;
        Ok(packet)
    }

    /// It has no contract: the sum is compared with that of a plain program.
    fn sum(packet: &[u8]) -> u64 {
        sum_of_slice(packet)
    }
}

impl Job for Ipv6PacketsTwoExtensions {
    /// It has no contract: any packet would do.
    fn packet(alloc: Global, random: &mut Random) -> Result<Vec<u8>, AllocError> {
        let payload_len = random.below(64);
        let words = random.below(3);
        let mut packet = Vec::new(alloc);
        append_ipv6_header(random, 60, 16 + 8 * words + payload_len, &mut packet)?;
        packet.extend_from_slice(&[44, words])?;
        random.append(6 + 8 * usize::from(words), &mut packet)?;
        packet.push(17)?;
        random.append(7 + usize::from(payload_len), &mut packet)?;
        let padding = random.below(16);
        random.append(usize::from(padding), &mut packet)?;
        Ok(packet)
    }

    /// It has no contract: the sum is compared with that of a plain program.
    fn sum(packet: &[u8]) -> u64 {
        sum_of_slice(packet)
    }
}

/// Appends an IPv6 header; it has no contract, as any would do.
fn append_ipv6_header(
    random: &mut Random,
    next_header: u8,
    payload_length: u8,
    packet: &mut Vec<u8>,
) -> Result<(), AllocError> {
    packet.push(0x60 + random.below(16))?;
    random.append(3, packet)?;
    packet.extend_from_slice(&[0, payload_length, next_header])?;
    random.append(33, packet)
}

/// It has no contract: the sum is compared with that of a plain program.
fn sum_of_slice(packet: &[u8]) -> u64 {
    match IpSlice::from_slice(packet) {
        Ok(packet) => sum_of_packet(&packet),
        Err(_) => 1,
    }
}

/// The sum of all that the getters return; it has no contract, as it is compared with that of a
/// plain program.
fn sum_of_packet(packet: &IpSlice) -> u64 {
    let addresses = sum_of_address(packet.source_addr()).wrapping_add(sum_of_address(
        packet.destination_addr(),
    ));
    let payload = packet.payload();
    let fields = u64::from(packet.payload_ip_number().0)
        + u64::from(packet.is_fragmenting_payload())
        + u64::from(payload.ip_number.0)
        + u64::from(payload.fragmented)
        + u64::from(payload.len_source as u8);
    let version = if let Some(packet) = packet.ipv4() {
        sum_of_ipv4(packet)
    } else if let Some(packet) = packet.ipv6() {
        sum_of_ipv6(packet)
    } else {
        1
    };
    addresses
        .wrapping_add(fields)
        .wrapping_add(payload.payload.len() as u64)
        .wrapping_add(version)
}

/// It has no contract: the sum is compared with that of a plain program.
fn sum_of_address(address: IpAddr) -> u64 {
    match address {
        IpAddr::V4(address) => u64::from(u32::from_be_bytes(address.octets())),
        IpAddr::V6(address) => sum_of_octets(address.octets()),
    }
}

/// It has no contract: the sum is compared with that of a plain program.
fn sum_of_octets(octets: [u8; 16]) -> u64 {
    let [a, b, c, d, e, f, g, h, i, j, k, l, m, n, o, p] = octets;
    u64::from_be_bytes([a, b, c, d, e, f, g, h]).wrapping_add(u64::from_be_bytes([
        i, j, k, l, m, n, o, p,
    ]))
}

/// It has no contract: the sum is compared with that of a plain program.
fn sum_of_ipv4(packet: &Ipv4Slice) -> u64 {
    let fields = u64::from(packet.payload_ip_number().0)
        + u64::from(packet.is_payload_fragmented())
        + u64::from(packet.extensions().is_empty());
    sum_of_header(packet.header())
        .wrapping_add(fields)
        .wrapping_add(packet.payload().payload.len() as u64)
}

/// It has no contract: the sum is compared with that of a plain program.
fn sum_of_ipv6(packet: &Ipv6Slice) -> u64 {
    let fields = u64::from(packet.payload_ip_number().0)
        + u64::from(packet.is_payload_fragmented());
    sum_of_ipv6_header(packet.header())
        .wrapping_add(fields)
        .wrapping_add(packet.payload().payload.len() as u64)
        .wrapping_add(sum_of_extensions(packet.extensions()))
}

/// It has no contract: the sum is compared with that of a plain program.
fn sum_of_ipv6_header(header: &Ipv6HeaderSlice) -> u64 {
    let fields = u64::from(header.version())
        + u64::from(header.traffic_class())
        + u64::from(header.dscp().value())
        + u64::from(header.ecn().value())
        + u64::from(header.flow_label().value())
        + u64::from(header.payload_length())
        + u64::from(header.next_header().0)
        + u64::from(header.hop_limit());
    fields
        .wrapping_add(sum_of_octets(header.source()))
        .wrapping_add(sum_of_octets(header.destination()))
}

/// It has no contract: the sum is compared with that of a plain program.
fn sum_of_extensions(extensions: &Ipv6ExtensionsSlice) -> u64 {
    let first = match extensions.first_header() {
        Some(number) => u64::from(number.0),
        None => 256,
    };
    let mut sum = first
        .wrapping_add(u64::from(extensions.is_fragmenting_payload()))
        .wrapping_add(u64::from(extensions.is_empty()))
        .wrapping_add(extensions.slice().len() as u64);
    for extension in extensions.iter() {
        sum = sum.wrapping_add(sum_of_extension(&extension));
    }
    sum
}

/// It has no contract: the sum is compared with that of a plain program.
fn sum_of_extension(extension: &Ipv6ExtensionSlice) -> u64 {
    match extension {
        Ipv6ExtensionSlice::HopByHop(header)
        | Ipv6ExtensionSlice::Routing(header)
        | Ipv6ExtensionSlice::DestinationOptions(header) => sum_of_raw(header),
        Ipv6ExtensionSlice::Fragment(header) => sum_of_fragment(header),
        Ipv6ExtensionSlice::Authentication(header) => u64::from(header.next_header().0)
            .wrapping_add(u64::from(header.spi()))
            .wrapping_add(u64::from(header.sequence_number()))
            .wrapping_add(header.raw_icv().len() as u64),
    }
}

/// It has no contract: the sum is compared with that of a plain program.
fn sum_of_raw(header: &Ipv6RawExtHeaderSlice) -> u64 {
    u64::from(header.next_header().0).wrapping_add(header.payload().len() as u64)
}

/// It has no contract: the sum is compared with that of a plain program.
fn sum_of_fragment(header: &Ipv6FragmentHeaderSlice) -> u64 {
    u64::from(header.next_header().0)
        + u64::from(header.fragment_offset().value())
        + u64::from(header.more_fragments())
        + u64::from(header.is_fragmenting_payload())
        + u64::from(header.identification())
}
