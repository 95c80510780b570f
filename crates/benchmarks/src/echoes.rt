//! ICMP echo messages, with every getter and their checksum.
use crate::job::Job;
use crate::random::Random;
use ep_icmp::{IcmpEchoHeader, Icmpv4Slice, Icmpv4Type, Icmpv6Slice, Icmpv6Type};
use std::alloc::{AllocError, Global};

const SOURCE: [u8; 16] = [0x20, 1, 0x0d, 0xb8, 0, 0, 0, 0, 0, 0, 0, 0, 0, 0, 0, 1];

const DESTINATION: [u8; 16] = [0x20, 1, 0x0d, 0xb8, 0, 0, 0, 0, 0, 0, 0, 0, 0, 0, 0, 2];

/// ICMPv4 echo requests and replies of 8 to 71 bytes.
pub struct Icmpv4Echoes;

/// ICMPv6 echo requests and replies of 8 to 71 bytes.
pub struct Icmpv6Echoes;

impl Job for Icmpv4Echoes {
    /// It has no contract: any message would do.
    fn packet(alloc: Global, random: &mut Random) -> Result<Vec<u8>, AllocError> {
        let type_u8 = 8 * random.below(2);
        echo(alloc, random, type_u8)
    }

    /// It has no contract: the sum is compared with that of a plain program.
    fn sum(packet: &[u8]) -> u64 {
        match Icmpv4Slice::from_slice(packet) {
            Ok(message) => sum_of_icmpv4(&message),
            Err(_) => 1,
        }
    }
}

impl Job for Icmpv6Echoes {
    /// It has no contract: any message would do.
    fn packet(alloc: Global, random: &mut Random) -> Result<Vec<u8>, AllocError> {
        let type_u8 = 128 + random.below(2);
        echo(alloc, random, type_u8)
    }

    /// It has no contract: the sum is compared with that of a plain program.
    fn sum(packet: &[u8]) -> u64 {
        match Icmpv6Slice::from_slice(packet) {
            Ok(message) => sum_of_icmpv6(&message),
            Err(_) => 1,
        }
    }
}

/// An echo message of any checksum; it has no contract, as any would do.
fn echo(alloc: Global, random: &mut Random, type_u8: u8) -> Result<Vec<u8>, AllocError> {
    let mut packet = Vec::new(alloc);
    packet.extend_from_slice(&[type_u8, 0])?;
    let payload_len = random.below(64);
    random.append(6 + usize::from(payload_len), &mut packet)?;
    Ok(packet)
}

/// It has no contract: the sum is compared with that of a plain program.
fn sum_of_icmpv4(message: &Icmpv4Slice) -> u64 {
    let icmp_type = message.icmp_type();
    let kind = match &icmp_type {
        Icmpv4Type::EchoRequest(echo) => sum_of_echo(echo),
        Icmpv4Type::EchoReply(echo) => sum_of_echo(echo).wrapping_mul(2),
        _ => 1,
    };
    let payload = message.payload();
    let fields = u64::from(message.type_u8())
        + u64::from(message.code_u8())
        + u64::from(message.checksum())
        + u64::from(u32::from_be_bytes(message.bytes5to8()))
        + u64::from(icmp_type.calc_checksum(payload));
    fields
        .wrapping_add(kind)
        .wrapping_add(message.header_len() as u64)
        .wrapping_add(payload.len() as u64)
        .wrapping_add(message.slice().len() as u64)
}

/// It has no contract: the sum is compared with that of a plain program.
fn sum_of_icmpv6(message: &Icmpv6Slice) -> u64 {
    let icmp_type = message.icmp_type();
    let kind = match &icmp_type {
        Icmpv6Type::EchoRequest(echo) => sum_of_echo(echo),
        Icmpv6Type::EchoReply(echo) => sum_of_echo(echo).wrapping_mul(2),
        _ => 1,
    };
    let payload = message.payload();
    let checksum = icmp_type
        .calc_checksum(SOURCE, DESTINATION, payload)
        .unwrap_or(0);
    let fields = u64::from(message.type_u8())
        + u64::from(message.code_u8())
        + u64::from(message.checksum())
        + u64::from(u32::from_be_bytes(message.bytes5to8()))
        + u64::from(checksum)
        + u64::from(message.is_checksum_valid(SOURCE, DESTINATION));
    fields
        .wrapping_add(kind)
        .wrapping_add(message.header_len() as u64)
        .wrapping_add(payload.len() as u64)
        .wrapping_add(message.slice().len() as u64)
}

/// It has no contract: the sum is compared with that of a plain program.
fn sum_of_echo(echo: &IcmpEchoHeader) -> u64 {
    let IcmpEchoHeader { id, seq } = *echo;
    u64::from(id) + u64::from(seq)
}
