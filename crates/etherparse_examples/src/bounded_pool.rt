//! A pool whose memory is bounded.

use etherparse::SlicedPacket;
use etherparse::defrag::{IpDefragError, IpDefragPayloadVec, IpDefragPool};

const MOST_BYTES: usize = 1_000_000;

const MOST_DATAGRAMS: usize = 10_000;

/// Takes a packet into a pool, and bounds what the pool holds. It has no contract: those of the pool
/// say what each call does.
pub fn process_bounded(
    pool: &mut IpDefragPool<u64>,
    packet: &SlicedPacket<'_>,
    second: u64,
) -> Result<Option<IpDefragPayloadVec>, IpDefragError> {
    let processed = pool.process_sliced_packet(packet, second, ());
    for _ in 0..pool.open_len() {
        if pool.open_bytes() <= MOST_BYTES && pool.open_len() <= MOST_DATAGRAMS {
            break;
        }
        drop(pool.forget_oldest());
    }
    pool.free_spare();
    processed
}
