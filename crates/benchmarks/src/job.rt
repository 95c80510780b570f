//! What a benchmark is, and how its time is taken.
use crate::measured::{Measured, Repeats};
use crate::random::Random;
use std::alloc::{AllocError, Global};
use std::io;
use std::time::{Duration, Instant};

/// How many packets a job is done with.
pub const PACKETS: u32 = 1000;

/// Something that is done with packets.
pub trait Job {
    /// The bytes of a packet that the job is done with; it has no contract, as any would do.
    fn packet(alloc: Global, random: &mut Random) -> Result<Vec<u8>, AllocError>;

    /// Does the job with a packet, and returns the sum of all that it computed. It has no contract:
    /// the sum is compared with that of a plain program.
    fn sum(packet: &[u8]) -> u64;
}

/// Does a job with each of 1000 packets, again and again.
/// It has no contract: the time is a measurement, and the sum is compared with that of a plain
/// program.
pub fn measure<J: Job>(rt: &HostRuntime, repeats: Repeats) -> io::Result<Measured> {
    let packets = packets::<J>(rt.alloc())?;
    let mut sum = 0u64;
    let mut fastest = Duration::MAX;
    for _ in 0..repeats.blocks {
        let start = Instant::now(rt)?;
        for _ in 0..repeats.turns {
            sum = mixed::<J>(sum, packets.as_slice());
        }
        fastest = fastest.min(start.elapsed(rt)?);
    }
    Ok(Measured { sum, fastest })
}

/// The packets; it has no contract, as any would do.
fn packets<J: Job>(alloc: Global) -> Result<Vec<Vec<u8>>, AllocError> {
    let mut random = Random::new();
    let mut packets = Vec::new(alloc);
    for _ in 0..PACKETS {
        packets.push(J::packet(alloc, &mut random)?)?;
    }
    Ok(packets)
}

/// Each turn goes on from the sum of the last one, so that none can be left out.
/// It has no contract: the sum is compared with that of a plain program.
fn mixed<J: Job>(start: u64, packets: &[Vec<u8>]) -> u64 {
    let mut sum = start;
    for packet in packets {
        sum = sum.wrapping_mul(31).wrapping_add(J::sum(packet.as_slice()));
    }
    sum
}
