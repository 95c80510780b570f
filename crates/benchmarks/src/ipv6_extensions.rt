//! Rows of IPv6 extension headers: skipped, and read with copies of their bytes.
use crate::job::Job;
use crate::random::Random;
use ep_base::IpNumber;
use ep_ext::{Ipv6Extensions, Ipv6RawExtHeader};
use ep_ip::Ipv6Header;
use std::alloc::{AllocError, Global};

/// Skips so many extension headers: none, one or four.
pub struct SkippedExtensions<const HEADERS: u8>;

/// Reads so many extension headers: none, one or four.
pub struct ReadExtensions<const HEADERS: u8>;

impl<const HEADERS: u8> Job for SkippedExtensions<HEADERS> {
    /// It has no contract: any row would do.
    fn packet(alloc: Global, random: &mut Random) -> Result<Vec<u8>, AllocError> {
        row(alloc, random, HEADERS)
    }

    /// It has no contract: the sum is compared with that of a plain program.
    fn sum(packet: &[u8]) -> u64 {
        let Some((first, row)) = packet.split_first() else {
            return 0;
        };
        match Ipv6Header::skip_all_header_extensions_in_slice(row, IpNumber(*first)) {
            Ok((number, rest)) => u64::from(number.0).wrapping_add(rest.len() as u64),
            Err(_) => 1,
        }
    }
}

impl<const HEADERS: u8> Job for ReadExtensions<HEADERS> {
    /// It has no contract: any row would do.
    fn packet(alloc: Global, random: &mut Random) -> Result<Vec<u8>, AllocError> {
        row(alloc, random, HEADERS)
    }

    /// It has no contract: the sum is compared with that of a plain program.
    fn sum(packet: &[u8]) -> u64 {
        let Some((first, row)) = packet.split_first() else {
            return 0;
        };
        match Ipv6Extensions::from_slice(IpNumber(*first), row) {
            Ok((extensions, number, rest)) => u64::from(number.0)
                .wrapping_add(rest.len() as u64)
                .wrapping_add(sum_of_extensions(&extensions)),
            Err(_) => 1,
        }
    }
}

/// The number of the first header, the headers and up to 63 bytes after them; it has no contract,
/// as any row would do.
fn row(alloc: Global, random: &mut Random, headers: u8) -> Result<Vec<u8>, AllocError> {
    let mut row = Vec::new(alloc);
    match headers {
        0 => row.push(17)?,
        1 => {
            row.push(0)?;
            append_options(random, 17, &mut row)?;
        }
        _ => {
            row.push(0)?;
            append_options(random, 43, &mut row)?;
            append_options(random, 44, &mut row)?;
            row.push(60)?;
            random.append(7, &mut row)?;
            append_options(random, 17, &mut row)?;
        }
    }
    let following = random.below(64);
    random.append(usize::from(following), &mut row)?;
    Ok(row)
}

/// Appends a header of 8, 16 or 24 bytes before one of this number; it has no contract, as `row`.
fn append_options(random: &mut Random, next: u8, row: &mut Vec<u8>) -> Result<(), AllocError> {
    let words = random.below(3);
    row.extend_from_slice(&[next, words])?;
    random.append(6 + 8 * usize::from(words), row)
}

/// It has no contract: the sum is compared with that of a plain program.
fn sum_of_extensions(extensions: &Ipv6Extensions) -> u64 {
    let routing = match &extensions.routing {
        Some(routing) => sum_of_raw(&routing.routing).wrapping_add(sum_of_slot(
            &routing.final_destination_options,
        )),
        None => 2,
    };
    let fragment = match &extensions.fragment {
        Some(header) => u64::from(header.next_header.0)
            .wrapping_add(u64::from(header.fragment_offset.value()))
            .wrapping_add(u64::from(header.more_fragments))
            .wrapping_add(u64::from(header.identification)),
        None => 3,
    };
    let auth = match &extensions.auth {
        Some(header) => u64::from(header.next_header.0)
            .wrapping_add(u64::from(header.spi))
            .wrapping_add(u64::from(header.sequence_number))
            .wrapping_add(sum_of_bytes(header.raw_icv())),
        None => 4,
    };
    sum_of_slot(&extensions.hop_by_hop_options)
        .wrapping_add(sum_of_slot(&extensions.destination_options))
        .wrapping_add(routing)
        .wrapping_add(fragment)
        .wrapping_add(auth)
}

/// It has no contract: the sum is compared with that of a plain program.
fn sum_of_slot(slot: &Option<Ipv6RawExtHeader>) -> u64 {
    match slot {
        Some(header) => sum_of_raw(header),
        None => 1,
    }
}

/// It has no contract: the sum is compared with that of a plain program.
fn sum_of_raw(header: &Ipv6RawExtHeader) -> u64 {
    u64::from(header.next_header.0).wrapping_add(sum_of_bytes(header.payload()))
}

/// It has no contract: the sum is compared with that of a plain program.
fn sum_of_bytes(bytes: &[u8]) -> u64 {
    let mut sum = bytes.len() as u64;
    for byte in bytes {
        sum = sum.wrapping_add(u64::from(*byte));
    }
    sum
}
