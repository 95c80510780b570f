//! Datagrams under names that were chosen to collide.

use crate::pools::{Datagrams, Reassembly, sum_with, two_fragments, udp_fragment};
use ep_packet::Addresses;

/// How many datagrams there are in all.
const DATAGRAMS: u32 = 8000;

/// The bytes of a fragment.
const FRAGMENT_LEN: usize = 64;

/// A source address. Whatever its first half is, the second half here makes 0 of a hash by the fixed
/// seed.
const SOURCE: [u8; 16] = [
    0, 0, 0, 0, 0, 0, 0, 0, 0x15, 0x7c, 0x4a, 0x7f, 0xb9, 0x79, 0x37, 0x9e,
];

const DESTINATION: [u8; 16] = [0xfd, 0, 0, 0, 0, 0, 0, 0, 0, 0, 0, 0, 0, 0, 0, 2];

const IDENTIFICATION: u32 = 7;

/// 8000 datagrams of two fragments, of which so many are reassembled at once.
#[derive(Clone, Copy)]
pub struct Colliding {
    pub names: u32,
}

impl Datagrams for Colliding {
    /// It has no contract, as the trait's.
    fn put_together<R: Reassembly>(&self, pool: &mut R) -> u64 {
        let mut source = SOURCE;
        let mut bytes = [0; FRAGMENT_LEN];
        let mut sum = 0;
        for _ in 0..DATAGRAMS.checked_div(self.names).unwrap_or(0) {
            for (offset, more_fragments) in two_fragments() {
                for name in 0..self.names {
                    source[..4].copy_from_slice(&name.to_be_bytes());
                    bytes[0] = (name % 251) as u8;
                    let addresses = Addresses::V6 {
                        source,
                        destination: DESTINATION,
                    };
                    let fragment = udp_fragment(
                        addresses,
                        IDENTIFICATION,
                        offset,
                        more_fragments,
                        &bytes,
                    );
                    sum = sum_with(sum, pool, fragment);
                }
            }
        }
        sum
    }
}
