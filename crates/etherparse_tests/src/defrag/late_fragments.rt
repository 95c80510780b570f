//! Fragments that come far after the bytes that are there: a pool keeps them aside, and puts them
//! into place later. The functions have no contracts: tests alone call them, and are run.

use crate::checks::{equal, fail, holds};
use crate::defrag::frames::process;
use crate::defrag::lengths::{frame, text};
use etherparse::defrag::{IpDefragError, IpDefragPayloadVec, IpDefragPool};
use std::alloc::{AllocError, Global};
use std::process::Abort;
use std::test::*;

type Pool = IpDefragPool<u64, u32>;

type Answer = Result<Option<IpDefragPayloadVec>, IpDefragError>;

// A fragment: its first offset in units of 8 bytes, its length, and what is added to each byte.
type Cut = (u16, usize, u8);

// A datagram as these fragments give it in this order, each over those before it (RFC 791, section
// 3.2).
fn joined(alloc: Global, cuts: &[Cut], end: usize) -> Result<Vec<u8>, AllocError> {
    let mut whole = text(alloc)?;
    whole.truncate(end);
    for &(units, len, more) in cuts {
        let start = usize::from(units).saturating_mul(8);
        let bytes = bytes_of(alloc, (units, len, more))?;
        for (byte, new) in whole.iter_mut().skip(start).zip(bytes.iter()) {
            *byte = *new;
        }
    }
    Ok(whole)
}

// The bytes of a fragment.
fn bytes_of(alloc: Global, cut: Cut) -> Result<Vec<u8>, AllocError> {
    let (units, len, more) = cut;
    let start = usize::from(units).saturating_mul(8);
    let mut bytes = Vec::with_capacity(alloc, len)?;
    for position in start..start.saturating_add(len) {
        bytes.push(((position % 251) as u8).wrapping_add(more))?;
    }
    Ok(bytes)
}

// What a pool answers to one of them; the one that ends the datagram is its last.
fn answer(
    rt: impl Abort + Copy,
    alloc: Global,
    pool: &mut Pool,
    version: u8,
    cut: Cut,
    end: usize,
) -> Result<Answer, AllocError> {
    let (units, len, _) = cut;
    let bytes = bytes_of(alloc, cut)?;
    let more = usize::from(units).saturating_mul(8).saturating_add(len) != end;
    let frame = frame(alloc, version, units, more, &bytes)?;
    Ok(process(rt, pool, &frame, 1, 0))
}

// A pool waits for the last of them, and returns the datagram then.
fn is_joined(
    rt: impl Abort + Copy,
    alloc: Global,
    pool: &mut Pool,
    version: u8,
    cuts: &[Cut],
    end: usize,
) -> Result<(), AllocError> {
    let whole = joined(alloc, cuts, end)?;
    let Some((last, before)) = cuts.split_last() else {
        return Ok(());
    };
    for cut in before {
        let answer = answer(rt, alloc, pool, version, *cut, end)?;
        assert!(rt; matches!(answer, Ok(None)), "{answer:?} to {cut:?}");
    }
    let Ok(Some(message)) = answer(rt, alloc, pool, version, *last, end)? else {
        fail(rt, "no message");
    };
    holds(rt, message.payload.as_slice() == whole.as_slice());
    holds(rt, pool.return_buf(message).is_ok());
    Ok(())
}

// Four fragments of a datagram, each of another length.
const FOURS: &[[Cut; 4]] = &[
    [(0, 8, 0), (1, 8, 0), (2, 8176 * 8, 0), (8178, 8, 0)],
    [
        (0, 8000, 0),
        (1000, 1480, 0),
        (1185, 50_000, 0),
        (7435, 100, 0),
    ],
    [
        (0, 60_000, 0),
        (7500, 1480, 0),
        (7685, 1480, 0),
        (7870, 3, 0),
    ],
    [
        (0, 5000 * 8, 0),
        (5000, 8, 0),
        (5001, 2000 * 8, 0),
        (7001, 1, 0),
    ],
];

// The orders of four.
const ORDERS: &[[usize; 4]] = &[
    [0, 1, 2, 3],
    [0, 1, 3, 2],
    [0, 2, 1, 3],
    [0, 2, 3, 1],
    [0, 3, 1, 2],
    [0, 3, 2, 1],
    [1, 0, 2, 3],
    [1, 0, 3, 2],
    [1, 2, 0, 3],
    [1, 2, 3, 0],
    [1, 3, 0, 2],
    [1, 3, 2, 0],
    [2, 0, 1, 3],
    [2, 0, 3, 1],
    [2, 1, 0, 3],
    [2, 1, 3, 0],
    [2, 3, 0, 1],
    [2, 3, 1, 0],
    [3, 0, 1, 2],
    [3, 0, 2, 1],
    [3, 1, 0, 2],
    [3, 1, 2, 0],
    [3, 2, 0, 1],
    [3, 2, 1, 0],
];

fn ordered(cuts: &[Cut; 4], order: &[usize; 4]) -> [Cut; 4] {
    let mut ordered = *cuts;
    for (place, index) in ordered.iter_mut().zip(order.iter()) {
        if let Some(cut) = cuts.get(*index) {
            *place = *cut;
        }
    }
    ordered
}

fn end_of(cuts: &[Cut]) -> usize {
    let mut end = 0usize;
    for (units, len, _) in cuts {
        end = end.max(usize::from(*units).saturating_mul(8).saturating_add(*len));
    }
    end
}

#[test]
fn each_order_of_four(rt: HostRuntime) -> Result<(), Fail> {
    let alloc = rt.alloc();
    let mut pool = IpDefragPool::new(alloc);
    for cuts in FOURS {
        for order in ORDERS {
            let cuts = ordered(cuts, order);
            is_joined(rt, alloc, &mut pool, 4, &cuts, end_of(&cuts))?;
            is_joined(rt, alloc, &mut pool, 6, &cuts, end_of(&cuts))?;
        }
    }
    Ok(())
}

// Fragments far after the bytes that are there, one over the other.
#[rattlefmt::skip]
const OVERLAPS: &[&[Cut]] = &[
    &[(8000, 16, 1), (8001, 16, 2), (0, 64_000, 0), (8003, 8, 0)],
    &[(8001, 16, 1), (8000, 16, 2), (0, 64_000, 0), (8003, 8, 0)],
    &[(8000, 80, 1), (8003, 8, 2), (8005, 8, 3), (0, 64_000, 0), (8010, 8, 0)],
    &[(8003, 8, 1), (8000, 80, 2), (8010, 8, 0), (0, 64_000, 0)],
    &[(8000, 16, 1), (4000, 16, 2), (8000, 8, 3), (4001, 8, 4), (0, 32_000, 0), (4002, 31_984, 5), (8002, 8, 0)],
    &[(8000, 16, 1), (7000, 8008, 2), (0, 56_000, 0), (8002, 8, 0)],
];

// Over IPv4 the later one wins, which the reference does too.
#[test]
fn later_fragments_win(rt: HostRuntime) -> Result<(), Fail> {
    let alloc = rt.alloc();
    let mut pool = IpDefragPool::new(alloc);
    for cuts in OVERLAPS {
        is_joined(rt, alloc, &mut pool, 4, cuts, end_of(cuts))?;
    }
    Ok(())
}

// A last fragment that ends within one that is kept aside cuts it.
#[test]
fn a_last_fragment_cuts_what_is_kept_aside(rt: HostRuntime) -> Result<(), Fail> {
    let alloc = rt.alloc();
    let mut pool = IpDefragPool::new(alloc);
    let end = 60_008;
    is_joined(
        rt,
        alloc,
        &mut pool,
        4,
        &[(7500, 16, 1), (7500, 8, 2), (0, 60_000, 0)],
        end,
    )?;
    is_joined(
        rt,
        alloc,
        &mut pool,
        4,
        &[(7499, 24, 1), (7500, 8, 2), (0, 59_992, 0)],
        end,
    )?;
    is_joined(
        rt,
        alloc,
        &mut pool,
        4,
        &[(7499, 24, 1), (7500, 8, 2), (7000, 80, 3), (0, 59_992, 0)],
        end,
    )?;
    Ok(())
}

// More than are kept aside at once: every second one from the end on, then those between them.
#[test]
fn more_than_are_kept_aside(rt: HostRuntime) -> Result<(), Fail> {
    let alloc = rt.alloc();
    let mut pool = IpDefragPool::new(alloc);
    for version in [4, 6] {
        for count in [31u16, 32, 33, 34, 70] {
            let mut cuts = Vec::new(alloc);
            for index in 0..count {
                cuts.push((8190 - index % 1000 * 2, 8, 0))?;
            }
            for index in 0..count {
                cuts.push((8189 - index % 1000 * 2, 8, 0))?;
            }
            cuts.push((
                0,
                usize::from(8190 - count % 1000 * 2 + 1).saturating_mul(8),
                0,
            ))?;
            is_joined(rt, alloc, &mut pool, version, &cuts, 65_528)?;
        }
    }
    Ok(())
}

// Over IPv6 one that comes again is accepted, and one with another byte drops the datagram (RFC
// 5722; RFC 8200, section 4.5).
#[test]
fn repeats_are_compared(rt: HostRuntime) -> Result<(), Fail> {
    let alloc = rt.alloc();
    let mut pool = IpDefragPool::new(alloc);
    let end = 65_528;
    let cuts = [(8190, 8, 0), (8000, 800, 0), (8100, 720, 0), (0, 64_000, 0)];
    let mut twice = Vec::new(alloc);
    for cut in &cuts[..3] {
        twice.push(*cut)?;
        twice.push(*cut)?;
    }
    for cut in &cuts {
        twice.push(*cut)?;
    }
    is_joined(rt, alloc, &mut pool, 6, &twice, end)?;
    for cut in &cuts[..3] {
        for again in &cuts[..3] {
            let answer_of = answer(rt, alloc, &mut pool, 6, *again, end)?;
            holds(rt, matches!(answer_of, Ok(None)));
        }
        let other = answer(rt, alloc, &mut pool, 6, (cut.0, cut.1, 1), end)?;
        holds(
            rt,
            matches!(other, Err(IpDefragError::OverlappingFragment { .. })),
        );
        equal(rt, pool.open_len(), 0);
    }
    Ok(())
}

// With no memory to keep a fragment aside it is put into place at once. To be run with each
// allocation failing in turn, too.
#[test]
fn no_memory_to_keep_one_aside(rt: HostRuntime) {
    let alloc = rt.alloc();
    let mut pool = IpDefragPool::new(alloc);
    for cut in [(8190, 8, 0), (8000, 1520, 0), (0, 64_000, 0)] {
        let mut taken = false;
        for _ in 0..3 {
            if let Ok(Ok(_)) = answer(rt, alloc, &mut pool, 4, cut, 65_528) {
                taken = true;
                break;
            }
        }
        holds(rt, taken);
    }
    equal(rt, pool.open_len(), 0);
}
