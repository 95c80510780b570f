//! TCP segments, with every getter and their options.
use crate::job::Job;
use crate::random::Random;
use ep_tcpudp::{TcpOptionElement, TcpSlice};
use std::alloc::{AllocError, Global};

/// TCP segments without options, with those of a data segment, of an acknowledgement of two blocks
/// and of a first segment, and up to 63 bytes of payload.
pub struct TcpSegments;

impl Job for TcpSegments {
    /// It has no contract: any segment would do.
    fn packet(alloc: Global, random: &mut Random) -> Result<Vec<u8>, AllocError> {
        let kind = random.below(4);
        let data_offset = match kind {
            0 => 5,
            1 => 8,
            _ => 10,
        };
        let mut packet = Vec::new(alloc);
        random.append(12, &mut packet)?;
        packet.push(data_offset << 4)?;
        random.append(7, &mut packet)?;
        append_options(kind, random, &mut packet)?;
        let payload_len = random.below(64);
        random.append(usize::from(payload_len), &mut packet)?;
        Ok(packet)
    }

    /// It has no contract: the sum is compared with that of a plain program.
    fn sum(packet: &[u8]) -> u64 {
        match TcpSlice::from_slice(packet) {
            Ok(segment) => sum_of_fields(&segment).wrapping_add(sum_of_options(&segment)),
            Err(_) => 1,
        }
    }
}

/// It has no contract: any options would do.
fn append_options(kind: u8, random: &mut Random, packet: &mut Vec<u8>) -> Result<(), AllocError> {
    match kind {
        0 => {}
        1 => {
            packet.extend_from_slice(&[1, 1, 8, 10])?;
            random.append(8, packet)?;
        }
        2 => {
            packet.extend_from_slice(&[1, 1, 5, 18])?;
            random.append(16, packet)?;
        }
        _ => {
            packet.extend_from_slice(&[2, 4, 5, 180, 4, 2, 8, 10])?;
            random.append(8, packet)?;
            packet.extend_from_slice(&[1, 3, 3, 7])?;
        }
    }
    Ok(())
}

/// It has no contract: the sum is compared with that of a plain program.
fn sum_of_fields(segment: &TcpSlice) -> u64 {
    let numbers = u64::from(segment.source_port())
        + u64::from(segment.destination_port())
        + u64::from(segment.sequence_number())
        + u64::from(segment.acknowledgment_number())
        + u64::from(segment.data_offset())
        + u64::from(segment.window_size())
        + u64::from(segment.checksum())
        + u64::from(segment.urgent_pointer());
    let flags = u64::from(segment.ns())
        + u64::from(segment.fin())
        + u64::from(segment.syn())
        + u64::from(segment.rst())
        + u64::from(segment.psh())
        + u64::from(segment.ack())
        + u64::from(segment.urg())
        + u64::from(segment.ece())
        + u64::from(segment.cwr());
    let lengths = (segment.header_len() as u64)
        .wrapping_add(segment.header_slice().len() as u64)
        .wrapping_add(segment.options().len() as u64)
        .wrapping_add(segment.slice().len() as u64)
        .wrapping_add(segment.payload().len() as u64);
    lengths.wrapping_add(numbers).wrapping_add(flags)
}

/// It has no contract: the sum is compared with that of a plain program.
fn sum_of_options(segment: &TcpSlice) -> u64 {
    segment.options_iterator().fold(0u64, |sum, option| {
        sum.wrapping_add(match option {
            Ok(option) => sum_of_option(option),
            Err(_) => 1,
        })
    })
}

/// It has no contract: the sum is compared with that of a plain program.
fn sum_of_option(option: TcpOptionElement) -> u64 {
    match option {
        TcpOptionElement::Noop => 2,
        TcpOptionElement::MaximumSegmentSize(size) => u64::from(size),
        TcpOptionElement::WindowScale(shift) => u64::from(shift),
        TcpOptionElement::SelectiveAcknowledgementPermitted => 3,
        TcpOptionElement::SelectiveAcknowledgement(first, others) => {
            let [second, third, fourth] = others;
            sum_of_block(Some(first))
                .wrapping_add(sum_of_block(second))
                .wrapping_add(sum_of_block(third))
                .wrapping_add(sum_of_block(fourth))
        }
        TcpOptionElement::Timestamp(value, reply) => u64::from(value) + u64::from(reply),
    }
}

/// It has no contract: the sum is compared with that of a plain program.
fn sum_of_block(block: Option<(u32, u32)>) -> u64 {
    match block {
        Some((left, right)) => u64::from(left) + u64::from(right),
        None => 4,
    }
}
