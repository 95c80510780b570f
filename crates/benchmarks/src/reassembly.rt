//! A datagram of 65535 bytes that is reassembled from 8192 fragments.
use crate::measured::Measured;
use crate::order::{FRAGMENTS, Order};
use ep_base::{IpFragOffset, IpNumber};
use etherparse::defrag::IpDefragBuf;
use std::alloc::{AllocError, Global};
use std::io;
use std::time::{Duration, Instant};

const DATAGRAM_LEN: usize = 65535;

/// Reassembles the datagram so many times, over the same memory, and returns the time of the
/// fastest one. It has no contract: the time is a measurement, and the sum is compared with that of
/// a plain program.
pub fn measure(rt: &HostRuntime, order: Order, turns: u32) -> io::Result<Measured> {
    let datagram = datagram(rt.alloc())?;
    let mut data = Vec::new(rt.alloc());
    let mut sections = Vec::new(rt.alloc());
    let mut sum = 0u64;
    let mut fastest = Duration::MAX;
    for _ in 0..turns {
        let mut buf = IpDefragBuf::new(IpNumber::UDP, data, sections);
        let start = Instant::now(rt)?;
        let accepted = add_all(&mut buf, order, datagram.as_slice());
        fastest = fastest.min(start.elapsed(rt)?);
        sum = sum_of(&buf, accepted);
        (data, sections) = buf.take_bufs();
    }
    Ok(Measured { sum, fastest })
}

/// Bytes that differ from index to index; it has no contract, as any would do.
fn datagram(alloc: Global) -> Result<Vec<u8>, AllocError> {
    let mut datagram = Vec::with_capacity(alloc, DATAGRAM_LEN)?;
    let mut last = 7u8;
    for _ in 0..DATAGRAM_LEN {
        last = last.wrapping_mul(5).wrapping_add(3);
        datagram.push(last)?;
    }
    Ok(datagram)
}

/// How many of the fragments were accepted; it has no contract, as `measure`.
fn add_all(buf: &mut IpDefragBuf, order: Order, datagram: &[u8]) -> u64 {
    let mut accepted = 0u64;
    for index in 0..FRAGMENTS {
        let units = order.units(index);
        let start = 8 * usize::from(units);
        let end = datagram.len().min(start + 8);
        // Both are there each time. Where one that isn't were skipped, clang would make vectors of
        // the search for the next one.
        let Some(bytes) = datagram.get(start..end) else {
            break;
        };
        let Ok(offset) = IpFragOffset::try_new(units) else {
            break;
        };
        if buf.add(offset, end < datagram.len(), bytes).is_ok() {
            accepted = accepted.wrapping_add(1);
        }
    }
    accepted
}

/// It has no contract, as `measure`.
fn sum_of(buf: &IpDefragBuf, accepted: u64) -> u64 {
    let mut sum = accepted.wrapping_add(u64::from(buf.is_complete()));
    for byte in buf.data() {
        sum = sum.wrapping_mul(31).wrapping_add(u64::from(*byte));
    }
    sum
}
