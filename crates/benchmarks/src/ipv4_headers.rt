//! Every getter of IPv4 headers of 20 to 60 bytes.
use crate::job::Job;
use crate::random::Random;
use ep_ip::Ipv4HeaderSlice;
use std::alloc::{AllocError, Global};

/// Headers of 20 to 60 bytes, with other bytes after them.
pub struct Ipv4Headers;

impl Job for Ipv4Headers {
    /// A header with any fields, and other bytes after it. It has no contract: any would do.
    fn packet(alloc: Global, random: &mut Random) -> Result<Vec<u8>, AllocError> {
        let mut packet = Vec::new(alloc);
        packet.push(0x45 + random.below(11))?;
        random.append(59, &mut packet)?;
        Ok(packet)
    }

    /// It has no contract: the sum is compared with that of a plain program.
    fn sum(packet: &[u8]) -> u64 {
        match Ipv4HeaderSlice::from_slice(packet) {
            Ok(header) => sum_of_header(&header),
            Err(_) => 1,
        }
    }
}

/// The sum of all fields; it has no contract, as it is compared with that of a plain program.
pub fn sum_of_header(header: &Ipv4HeaderSlice) -> u64 {
    let payload_len = header.payload_len().unwrap_or(0);
    let lengths = u64::from(header.ihl())
        + u64::from(header.total_len())
        + u64::from(payload_len)
        + header.options().len() as u64;
    let fragment = u64::from(header.identification())
        + u64::from(header.dont_fragment())
        + u64::from(header.more_fragments())
        + u64::from(header.fragments_offset().value())
        + u64::from(header.is_fragmenting_payload());
    let others = u64::from(header.version())
        + u64::from(header.dcp().value())
        + u64::from(header.ecn().value())
        + u64::from(header.ttl())
        + u64::from(header.protocol().0)
        + u64::from(header.header_checksum());
    let addresses = u64::from(u32::from_be_bytes(header.source()))
        + u64::from(u32::from_be_bytes(header.destination()));
    lengths + fragment + others + addresses
}
