//! UDP datagrams, with every getter.
use crate::job::Job;
use crate::random::Random;
use ep_tcpudp::UdpSlice;
use std::alloc::{AllocError, Global};

/// UDP datagrams of 8 to 71 bytes, with padding.
pub struct UdpDatagrams;

impl Job for UdpDatagrams {
    /// It has no contract: any datagram would do.
    fn packet(alloc: Global, random: &mut Random) -> Result<Vec<u8>, AllocError> {
        let payload_len = random.below(64);
        let mut packet = Vec::new(alloc);
        random.append(4, &mut packet)?;
        packet.extend_from_slice(&[0, 8 + payload_len])?;
        random.append(2 + usize::from(payload_len), &mut packet)?;
        let padding = random.below(16);
        random.append(usize::from(padding), &mut packet)?;
        Ok(packet)
    }

    /// It has no contract: the sum is compared with that of a plain program.
    fn sum(packet: &[u8]) -> u64 {
        match UdpSlice::from_slice(packet) {
            Ok(datagram) => sum_of_fields(&datagram),
            Err(_) => 1,
        }
    }
}

/// It has no contract: the sum is compared with that of a plain program.
fn sum_of_fields(datagram: &UdpSlice) -> u64 {
    let fields = u64::from(datagram.source_port())
        + u64::from(datagram.destination_port())
        + u64::from(datagram.length())
        + u64::from(datagram.checksum())
        + u64::from(datagram.payload_len_source() as u8)
        + datagram.header_len() as u64
        + datagram.header_slice().len() as u64;
    fields
        .wrapping_add(datagram.slice().len() as u64)
        .wrapping_add(datagram.payload().len() as u64)
}
