//! Datagrams of two fragments of each length that networks have, in both orders, in a buffer and in
//! a pool. The functions have no contracts: tests alone call them, and are run.

use crate::checks::{fail, holds};
use crate::defrag::fragments::offset;
use crate::defrag::frames::{FIRST, IPV6_FIRST, process};
use ep_base::{IpFragOffset, IpNumber};
use etherparse::defrag::{IpDefragBuf, IpDefragPool, OverlapRule};
use std::alloc::{AllocError, Global};
use std::process::Abort;
use std::test::*;

// Beside each length up to 1600: a block of NFS, the greatest payload over IPv4, and the greatest
// fragment that others follow.
const GREAT: &[usize] = &[8192, 65_515, 65_528];

const LONGEST: usize = 65_535;

/// Bytes in which each differs from those next to it; no contract, as above.
pub fn text(alloc: Global) -> Result<Vec<u8>, AllocError> {
    let mut text = Vec::with_capacity(alloc, LONGEST)?;
    for position in 0..LONGEST {
        text.push((position % 251) as u8)?;
    }
    Ok(text)
}

// A datagram with such a last fragment after one of 8 bytes, if there is one.
fn with_last(text: &[u8], len: usize) -> Option<(&[u8], usize)> {
    let whole = text.get(..len.saturating_add(8))?;
    Some((whole, 8))
}

// A datagram with such a first fragment and one after it that is no longer, if there is one.
fn with_first(text: &[u8], len: usize) -> Option<(&[u8], usize)> {
    if len == 0 || len % 8 != 0 {
        return None;
    }
    let whole = text.get(..len.saturating_mul(2)).unwrap_or(text);
    Some((whole, len))
}

// Fragmented there, in one order. There is capacity for what is there and as much again.
fn is_buffered(
    rt: impl Abort + Copy,
    alloc: Global,
    rule: OverlapRule,
    datagram: (&[u8], usize),
    last_comes_first: bool,
) {
    let (whole, cut) = datagram;
    let (first, last) = whole.split_at(cut.min(whole.len()));
    let start = offset(rt, (cut / 8 % 8192) as u16);
    let number = IpNumber::UDP;
    let mut buf = IpDefragBuf::of_rule(rule, alloc, number, Vec::new(alloc), Vec::new(alloc));
    if last_comes_first {
        holds(rt, buf.add(start, false, last).is_ok());
        holds(rt, buf.add(IpFragOffset::ZERO, true, first).is_ok());
    } else {
        holds(rt, buf.add(IpFragOffset::ZERO, true, first).is_ok());
        holds(rt, buf.add(start, false, last).is_ok());
    }
    assert!(rt;
        buf.is_complete() && buf.data().as_slice() == whole,
        "{cut}"
    );
    let room = buf.data().capacity();
    assert!(rt;
        room <= whole.len().saturating_mul(2).max(16),
        "room for {room}"
    );
}

/// A frame with a fragment of protocol 253 at this offset; no contract, as above.
pub fn frame(
    alloc: Global,
    version: u8,
    units: u16,
    more: bool,
    bytes: &[u8],
) -> Result<Vec<u8>, AllocError> {
    let mut frame = Vec::with_capacity(alloc, bytes.len().saturating_add(62))?;
    let more = u16::from(more);
    if version == 4 {
        let total = (bytes.len().saturating_add(20) % 65_536) as u16;
        frame.extend_from_slice(&FIRST[..16])?;
        frame.extend_from_slice(&total.to_be_bytes())?;
        frame.extend_from_slice(&FIRST[18..20])?;
        frame.extend_from_slice(&(units % 8192 | more << 13).to_be_bytes())?;
        frame.extend_from_slice(&FIRST[22..34])?;
    } else {
        // A length that 16 bits can't hold stands for all that is there.
        let payload = u16::try_from(bytes.len().saturating_add(8)).unwrap_or(0);
        frame.extend_from_slice(&IPV6_FIRST[..18])?;
        frame.extend_from_slice(&payload.to_be_bytes())?;
        frame.extend_from_slice(&IPV6_FIRST[20..56])?;
        frame.extend_from_slice(&(units % 8192 << 3 | more).to_be_bytes())?;
        frame.extend_from_slice(&IPV6_FIRST[58..62])?;
    }
    frame.extend_from_slice(bytes)?;
    Ok(frame)
}

// A pool joins these frames in their order, and takes the memory back.
fn joins(
    rt: impl Abort + Copy,
    pool: &mut IpDefragPool<u64, u32>,
    before: &[u8],
    after: &[u8],
    whole: &[u8],
) {
    let waits = process(rt, pool, before, 1, 0);
    assert!(rt;
        matches!(waits, Ok(None)),
        "{waits:?} of {} bytes",
        whole.len()
    );
    let Ok(Some(message)) = process(rt, pool, after, 1, 0) else {
        fail(rt, "no message");
    };
    holds(rt, message.payload.as_slice() == whole);
    holds(rt, pool.return_buf(message).is_ok());
}

// Fragmented there, in both orders.
fn is_pooled(
    rt: impl Abort + Copy,
    alloc: Global,
    pool: &mut IpDefragPool<u64, u32>,
    version: u8,
    datagram: (&[u8], usize),
) -> Result<(), AllocError> {
    let (whole, cut) = datagram;
    let (first, last) = whole.split_at(cut.min(whole.len()));
    if version == 4 && last.len().max(first.len()) > 65_515 {
        return Ok(());
    }
    let first = frame(alloc, version, 0, true, first)?;
    let last = frame(alloc, version, (cut / 8 % 8192) as u16, false, last)?;
    joins(rt, pool, &first, &last, whole);
    joins(rt, pool, &last, &first, whole);
    Ok(())
}

#[test]
fn each_length_in_a_buffer(rt: HostRuntime) -> Result<(), Fail> {
    let text = text(rt.alloc())?;
    for len in (0..=1600).chain(GREAT.iter().copied()) {
        for datagram in [with_first(&text, len), with_last(&text, len)] {
            if let Some(datagram) = datagram {
                for rule in [OverlapRule::Overwrites, OverlapRule::Refuses] {
                    is_buffered(rt, rt.alloc(), rule, datagram, false);
                    is_buffered(rt, rt.alloc(), rule, datagram, true);
                }
            }
        }
    }
    Ok(())
}

#[test]
fn each_length_in_a_pool(rt: HostRuntime) -> Result<(), Fail> {
    let text = text(rt.alloc())?;
    let mut pool = IpDefragPool::new(rt.alloc());
    for len in (0..=1600).chain(GREAT.iter().copied()) {
        for datagram in [with_first(&text, len), with_last(&text, len)] {
            if let Some(datagram) = datagram {
                is_pooled(rt, rt.alloc(), &mut pool, 4, datagram)?;
                is_pooled(rt, rt.alloc(), &mut pool, 6, datagram)?;
            }
        }
    }
    Ok(())
}
