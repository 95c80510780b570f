//! Frames that are built, one after another in the same memory.
use crate::job::PACKETS;
use crate::measured::{Measured, Repeats};
use crate::random::Random;
use etherparse::PacketBuilder;
use etherparse::err::packet::BuildWriteError;
use std::alloc::{AllocError, Global};
use std::io;
use std::time::{Duration, Instant};

/// The capacity of the buffer in bytes: more than any of the frames has.
const ROOM: usize = 192;

const DESTINATION: [u8; 6] = [2, 0, 0, 0, 0, 2];

const SOURCE: [u8; 6] = [2, 0, 0, 0, 0, 1];

const IPV4_SOURCE: [u8; 4] = [10, 0, 0, 1];

const IPV4_DESTINATION: [u8; 4] = [10, 0, 0, 2];

const IPV6_SOURCE: [u8; 16] = [0x20, 1, 0x0d, 0xb8, 0, 0, 0, 0, 0, 0, 0, 0, 0, 0, 0, 1];

const IPV6_DESTINATION: [u8; 16] = [0x20, 1, 0x0d, 0xb8, 0, 0, 0, 0, 0, 0, 0, 0, 0, 0, 0, 2];

/// A frame that carries a payload.
pub trait Frame {
    /// Appends it. It has no contract: its bytes are compared with those of a plain program.
    fn append(payload: &[u8], frame: &mut Vec<u8>) -> Result<(), BuildWriteError>;
}

/// UDP over IPv4 in an Ethernet II frame.
pub struct UdpIpv4;

/// TCP over IPv6 in an Ethernet II frame.
pub struct TcpIpv6;

impl Frame for UdpIpv4 {
    /// It has no contract: its bytes are compared with those of a plain program.
    fn append(payload: &[u8], frame: &mut Vec<u8>) -> Result<(), BuildWriteError> {
        PacketBuilder::ethernet2(SOURCE, DESTINATION)
            .ipv4(IPV4_SOURCE, IPV4_DESTINATION, 64)
            .udp(1, 2)
            .write(frame, payload)
    }
}

impl Frame for TcpIpv6 {
    /// It has no contract: its bytes are compared with those of a plain program.
    fn append(payload: &[u8], frame: &mut Vec<u8>) -> Result<(), BuildWriteError> {
        PacketBuilder::ethernet2(SOURCE, DESTINATION)
            .ipv6(IPV6_SOURCE, IPV6_DESTINATION, 64)
            .tcp(1, 2, 3, 1024)
            .psh()
            .ack(4)
            .write(frame, payload)
    }
}

/// Builds the frames of 1000 payloads of 1 to 64 bytes, again and again. The sum starts with all
/// their bytes, and goes on from turn to turn with the last eight of each. It has no contract: the
/// time is a measurement, and the sum is compared with that of a plain program.
pub fn measure<F: Frame>(rt: &HostRuntime, repeats: Repeats) -> io::Result<Measured> {
    let payloads = payloads(rt.alloc())?;
    let mut frame = Vec::with_capacity(rt.alloc(), ROOM)?;
    let mut sum = 0u64;
    for payload in &payloads {
        build::<F>(payload.as_slice(), &mut frame);
        sum = sum_with(sum, frame.as_slice());
    }
    let mut fastest = Duration::MAX;
    for _ in 0..repeats.blocks {
        let start = Instant::now(rt)?;
        for _ in 0..repeats.turns {
            sum = turn::<F>(sum, payloads.as_slice(), &mut frame);
        }
        fastest = fastest.min(start.elapsed(rt)?);
    }
    Ok(Measured { sum, fastest })
}

/// The payloads; it has no contract, as any would do.
fn payloads(alloc: Global) -> Result<Vec<Vec<u8>>, AllocError> {
    let mut random = Random::new();
    let mut payloads = Vec::new(alloc);
    for _ in 0..PACKETS {
        let len = 1 + random.below(64);
        let mut payload = Vec::new(alloc);
        random.append(usize::from(len), &mut payload)?;
        payloads.push(payload)?;
    }
    Ok(payloads)
}

/// Replaces the last frame by a new one, and by none where it is refused. It has no contract: its
/// bytes are compared with those of a plain program.
fn build<F: Frame>(payload: &[u8], frame: &mut Vec<u8>) {
    frame.clear();
    if F::append(payload, frame).is_err() {
        frame.clear();
    }
}

/// It has no contract: the sum is compared with that of a plain program.
fn turn<F: Frame>(start: u64, payloads: &[Vec<u8>], frame: &mut Vec<u8>) -> u64 {
    let mut sum = start;
    for payload in payloads {
        build::<F>(payload.as_slice(), frame);
        sum = sum
            .wrapping_mul(31)
            .wrapping_add(last_bytes(frame.as_slice()));
    }
    sum
}

/// It has no contract: the sum is compared with that of a plain program.
fn last_bytes(frame: &[u8]) -> u64 {
    match frame.last_chunk() {
        Some(last) => u64::from_be_bytes(*last),
        None => 0,
    }
}

/// It has no contract: the sum is compared with that of a plain program.
fn sum_with(start: u64, frame: &[u8]) -> u64 {
    let mut sum = start;
    for byte in frame {
        sum = sum.wrapping_mul(31).wrapping_add(u64::from(*byte));
    }
    sum
}
