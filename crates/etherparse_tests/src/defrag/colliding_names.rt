//! Pools with the hasher's state of a fixed seed and with random keys: the same answers, and names
//! that were chosen to collide stay apart.

use crate::checks::{equal, holds};
use crate::defrag::frames::{IPV6_FIRST, IPV6_SECOND, delivers};
use crate::defrag::pool_scripts::goes_in_a_row;
use crate::defrag::pools::CALLS_IN_A_ROW;
use etherparse::defrag::{IpDefragPool, IpFragVersionSpecId};
use std::hash::{BuildHasher, BuildHasherDefault, FoldHasher, RandomState};
use std::process::Abort;
use std::test::*;

/// As the second half of a source address it cancels all that the hasher of a fixed seed was fed
/// before: the half xor the number 0x9e3779b97f4a7c15 is one factor of a product.
const TAKES_AWAY: [u8; 8] = [0x15, 0x7c, 0x4a, 0x7f, 0xb9, 0x79, 0x37, 0x9e];

// The hash of a name whose source starts with this byte; no contract, as tests alone call it.
fn hash_of(state: &impl BuildHasher, first: u8) -> u64 {
    let mut source = [0; 16];
    source[0] = first;
    source[8..].copy_from_slice(&TAKES_AWAY);
    state.hash_one(IpFragVersionSpecId::Ipv6 {
        source,
        destination: [0; 16],
        identification: 7,
    })
}

#[test]
fn the_names_collide_by_the_fixed_seed_alone(rt: HostRuntime) -> Result<(), Fail> {
    let fixed = BuildHasherDefault::<FoldHasher>::new();
    let random = RandomState::new(&rt)?;
    for first in 1..=255 {
        equal(rt, hash_of(&fixed, first), hash_of(&fixed, 0));
        holds(rt, hash_of(&random, first) != hash_of(&random, 0));
    }
    Ok(())
}

// How many of 256 halves whose names are such ones complete a datagram; no contract, as above.
fn completed<S: BuildHasher>(
    rt: impl Abort + Copy,
    pool: &mut IpDefragPool<u64, u32, S>,
    half: &[u8],
) -> usize {
    let mut frame = [0; 70];
    assert!(rt; half.len() == 70);
    frame.copy_from_slice(half);
    frame[30..38].copy_from_slice(&TAKES_AWAY);
    let mut count = 0usize;
    for first in 0..=255 {
        frame[22] = first;
        if delivers(rt, pool, &frame, 1, 0) {
            count = count.saturating_add(1);
        }
    }
    count
}

// Each datagram is returned by its second half; no contract, as above.
fn keeps_names_apart<S: BuildHasher + Drop>(
    rt: impl Abort + Copy,
    mut pool: IpDefragPool<u64, u32, S>,
) {
    let started = completed(rt, &mut pool, IPV6_FIRST);
    let ended = completed(rt, &mut pool, IPV6_SECOND);
    equal(rt, (started, ended, pool.open_len()), (0, 256, 0));
}

#[test]
fn names_that_collide_stay_apart(rt: HostRuntime) -> Result<(), Fail> {
    keeps_names_apart(rt, IpDefragPool::new(rt.alloc()));
    let state = RandomState::new(&rt)?;
    keeps_names_apart(rt, IpDefragPool::with_hasher(rt.alloc(), state));
    Ok(())
}

#[test]
fn calls_in_a_row_by_random_keys(rt: HostRuntime) -> Result<(), Fail> {
    let state = RandomState::new(&rt)?;
    let pool = IpDefragPool::with_hasher(rt.alloc(), state);
    goes_in_a_row(rt, rt.alloc(), pool, &CALLS_IN_A_ROW);
    Ok(())
}
