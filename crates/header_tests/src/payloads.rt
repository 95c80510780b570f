//! Payloads of each length up to 130, of which the longest are summed in lanes, and long ones.

use std::alloc::Global;

// The functions below have no contracts, as tests alone call them.

/// The prefix, and after it the byte repeated, up to so many bytes in all.
pub fn filled(alloc: Global, prefix: &[u8], byte: u8, len: usize) -> Vec<u8> {
    let mut bytes = Vec::new(alloc);
    if bytes.extend_from_slice(prefix).is_ok() && bytes.resize(len, byte).is_ok() {
        bytes
    } else {
        Vec::new(alloc)
    }
}

/// The bytes 1, 2, 3, .., and the sum of the words of each prefix of them, a zero byte added where
/// its length is odd.
pub fn counted() -> ([u8; 130], [u32; 131]) {
    let mut bytes = [0u8; 130];
    let mut sums = [0u32; 131];
    let mut sum = 0u32;
    for index in 0..130u8 {
        let at = usize::from(index);
        bytes[at] = index + 1;
        let weight = if index % 2 == 0 { 256 } else { 1 };
        sum = sum.wrapping_add(u32::from(bytes[at]) * weight);
        sums[at + 1] = sum;
    }
    (bytes, sums)
}

/// The complement of a sum that is 0 or no multiple of ffff.
pub fn complement(total: u32) -> u16 {
    (65535 - total % 65535) as u16
}
