//! Words of 16 bits in lanes: those of a block of 32 bytes are added at once.

ghost use Rattle.std.specs.Prelude.{◌≡◌, ◌+◌, ◌≤◌, length};
ghost use Rattle.std.specs.List.{sum_by};
ghost use Rattle.std.specs.Simd.Lanes.{Each1, sum_l};
ghost use Rattle.ep_base.specs.Sum.{accumulator_sum, fold, total, total_low};

use super::u64_16bit_word::add_carrying;
use std::simd::prelude::*;

// As many blocks have sums of 32 bits, in each lane and of all 16 lanes: no word is above 65535.
const BLOCKS_AT_ONCE: usize = 4096;

// The words of a block, low byte first.
#[inline(always)]
fn words_of(block: &[u8]) -> u32x16
    requires { length block.now ≡ 32 }
    ensures len { length result ≡ 16 }
    ensures small { Each1 (λ word. word ≤ 65535) result }
    ensures sum { sum_l result ≡ total_low block.now }
{
    u16x16::from_le_bytes(u8x32::from_slice(block)).cast::<u32>()
}

// The sum of the words of so many blocks.
#[inline(always)]
fn sum_blocks(blocks: &[[u8; 32]]) -> u32
    requires { length blocks.now ≤ BLOCKS_AT_ONCE }
    ensures { result ≡ sum_by total_low blocks.now }
{
    let mut sums = u32x16::splat(0);
    for block in blocks {
        sums = sums.strict_add(words_of(block));
    }
    sums.strict_reduce_sum()
}

/// The number with the words of some blocks added.
#[inline]
pub(crate) fn add_blocks(start: u64, blocks: &[[u8; 32]]) -> u64
    ensures { accumulator_sum result ≡ fold (accumulator_sum start + sum_by total blocks.now) }
{
    let mut sum = start;
    let mut left = blocks;
    while !left.is_empty() {
        let (part, more) = left.split_at(left.len().min(BLOCKS_AT_ONCE));
        sum = add_carrying(sum, u64::from(sum_blocks(part)));
        left = more;
    }
    sum
}
