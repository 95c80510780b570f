//! Many reassemblies at once.

use crate::pools::{Datagrams, Reassembly, sum_with, two_fragments, udp_fragment};
use ep_packet::Addresses;

/// How many datagrams there are of each of two sources.
const IDENTIFICATIONS: u16 = 50_000;

/// The bytes of a fragment.
const FRAGMENT_LEN: usize = 64;

/// 100,000 datagrams of two fragments, all of whose first fragments come before the second ones.
#[derive(Clone, Copy)]
pub struct Interleaved;

impl Datagrams for Interleaved {
    /// It has no contract, as the trait's.
    fn put_together<R: Reassembly>(&self, pool: &mut R) -> u64 {
        let mut bytes = [0; FRAGMENT_LEN];
        let mut sum = 0;
        for (offset, more_fragments) in two_fragments() {
            for source in 0..2u8 {
                for identification in 0..IDENTIFICATIONS {
                    let [_, low] = identification.to_be_bytes();
                    bytes[0] = low;
                    let addresses = Addresses::V4 {
                        source: [10, 0, 0, source],
                        destination: [10, 0, 0, 2],
                    };
                    let identification = u32::from(identification);
                    let fragment = udp_fragment(
                        addresses,
                        identification,
                        offset,
                        more_fragments,
                        &bytes,
                    );
                    sum = sum_with(sum, pool, fragment);
                }
            }
        }
        sum
    }
}
