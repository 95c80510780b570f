//! Ethernet II frames, VLAN tags and ARP packets, with every getter.
use crate::job::Job;
use crate::random::Random;
use ep_link::{ArpPacketSlice, Ethernet2Slice};
use ep_tag::SingleVlanSlice;
use std::alloc::{AllocError, Global};

/// Frames of 14 to 77 bytes.
pub struct EthernetFrames;

/// VLAN tags with 0 to 63 bytes after them.
pub struct VlanTags;

/// ARP packets of Ethernet and IPv4, with padding.
pub struct ArpPackets;

impl Job for EthernetFrames {
    /// It has no contract: any frame would do.
    fn packet(alloc: Global, random: &mut Random) -> Result<Vec<u8>, AllocError> {
        let mut packet = Vec::new(alloc);
        let payload_len = random.below(64);
        random.append(14 + usize::from(payload_len), &mut packet)?;
        Ok(packet)
    }

    /// It has no contract: the sum is compared with that of a plain program.
    fn sum(packet: &[u8]) -> u64 {
        match Ethernet2Slice::from_slice_without_fcs(packet) {
            Ok(frame) => sum_of_frame(&frame),
            Err(_) => 1,
        }
    }
}

impl Job for VlanTags {
    /// It has no contract: any tag would do.
    fn packet(alloc: Global, random: &mut Random) -> Result<Vec<u8>, AllocError> {
        let mut packet = Vec::new(alloc);
        let payload_len = random.below(64);
        random.append(4 + usize::from(payload_len), &mut packet)?;
        Ok(packet)
    }

    /// It has no contract: the sum is compared with that of a plain program.
    fn sum(packet: &[u8]) -> u64 {
        match SingleVlanSlice::from_slice(packet) {
            Ok(tag) => sum_of_tag(&tag),
            Err(_) => 1,
        }
    }
}

impl Job for ArpPackets {
    /// It has no contract: any packet would do.
    fn packet(alloc: Global, random: &mut Random) -> Result<Vec<u8>, AllocError> {
        let mut packet = Vec::new(alloc);
        packet.extend_from_slice(&[0, 1, 8, 0, 6, 4, 0, 1 + random.below(2)])?;
        let padding = random.below(19);
        random.append(20 + usize::from(padding), &mut packet)?;
        Ok(packet)
    }

    /// It has no contract: the sum is compared with that of a plain program.
    fn sum(packet: &[u8]) -> u64 {
        match ArpPacketSlice::from_slice(packet) {
            Ok(packet) => sum_of_arp(&packet),
            Err(_) => 1,
        }
    }
}

/// It has no contract: the sum is compared with that of a plain program.
fn sum_of_frame(frame: &Ethernet2Slice) -> u64 {
    let payload = frame.payload();
    let fields = u64::from(frame.ether_type().0)
        + u64::from(payload.ether_type.0)
        + u64::from(payload.len_source as u8)
        + frame.header_len() as u64
        + frame.header_slice().len() as u64;
    fields
        .wrapping_add(sum_of_address(frame.destination()))
        .wrapping_add(sum_of_address(frame.source()))
        .wrapping_add(payload.payload.len() as u64)
        .wrapping_add(frame.payload_slice().len() as u64)
        .wrapping_add(frame.slice().len() as u64)
}

/// The first four bytes and the last two as numbers, added; it has no contract, as the sum is
/// compared with that of a plain program.
pub fn sum_of_address(address: [u8; 6]) -> u64 {
    let [a, b, c, d, e, f] = address;
    u64::from(u32::from_be_bytes([a, b, c, d])).wrapping_add(u64::from(u16::from_be_bytes([e, f])))
}

/// It has no contract: the sum is compared with that of a plain program.
fn sum_of_tag(tag: &SingleVlanSlice) -> u64 {
    let payload = tag.payload();
    let fields = u64::from(tag.priority_code_point().value())
        + u64::from(tag.drop_eligible_indicator())
        + u64::from(tag.vlan_identifier().value())
        + u64::from(tag.ether_type().0)
        + u64::from(payload.ether_type.0)
        + u64::from(payload.len_source as u8)
        + tag.header_len() as u64
        + tag.header_slice().len() as u64;
    fields
        .wrapping_add(payload.payload.len() as u64)
        .wrapping_add(tag.payload_slice().len() as u64)
        .wrapping_add(tag.slice().len() as u64)
}

/// It has no contract: the sum is compared with that of a plain program.
fn sum_of_arp(packet: &ArpPacketSlice) -> u64 {
    let fields = u64::from(packet.hw_addr_type().0)
        + u64::from(packet.proto_addr_type().0)
        + u64::from(packet.hw_addr_size())
        + u64::from(packet.proto_addr_size())
        + u64::from(packet.operation().0);
    fields
        .wrapping_add(packet.slice().len() as u64)
        .wrapping_add(sum_of_bytes(packet.sender_hw_addr()))
        .wrapping_add(sum_of_bytes(packet.sender_protocol_addr()))
        .wrapping_add(sum_of_bytes(packet.target_hw_addr()))
        .wrapping_add(sum_of_bytes(packet.target_protocol_addr()))
}

/// The length, the first and the last byte; it has no contract, as the sum is compared with that of
/// a plain program.
pub fn sum_of_bytes(bytes: &[u8]) -> u64 {
    match bytes {
        [first, .., last] => (bytes.len() as u64)
            .wrapping_add(u64::from(*first))
            .wrapping_add(u64::from(*last)),
        _ => 1,
    }
}
