//! The sum of 16-bit words in a number of 64 bits, whose carry is added back.
//!
//! The meaning of such a number is `accumulator_sum`: the sum, high byte first, of the words that
//! were added to it low byte first. It may start at any number.

ghost use Rattle.std.specs.Prelude.{◌≡◌, ◌+◌, ◌-◌, ◌<◌, ◌≤◌, ◌^◌};
ghost use Rattle.std.specs.Int.{swap_bytes, w16};
ghost use Rattle.ep_base.specs.Sum.{accumulator_sum, fold, no_zero, total};

use super::lanes;

// Below it, to fill the lanes and to join them costs more than they save.
const LANES_FROM: usize = 128;

// Below it, to fold a wide sum costs more than the carries.
const WIDE_FROM: usize = 32;

pub(crate) fn add_carrying(start: u64, word: u64) -> u64
    ensures { accumulator_sum result ≡ fold (accumulator_sum start + accumulator_sum word) }
{
    let (sum, carry) = start.overflowing_add(word);
    sum + carry as u64
}

/// The number with a word of 2 bytes added.
pub fn add_2bytes(start: u64, value: [u8; 2]) -> u64
    ensures { accumulator_sum result ≡ fold (accumulator_sum start + total value) }
{
    add_carrying(start, u64::from(u16::from_le_bytes(value)))
}

/// The number with two words added.
pub fn add_4bytes(start: u64, value: [u8; 4]) -> u64
    ensures { accumulator_sum result ≡ fold (accumulator_sum start + total value) }
{
    add_carrying(start, u64::from(u32::from_le_bytes(value)))
}

/// The number with four words added.
pub fn add_8bytes(start: u64, value: [u8; 8]) -> u64
    ensures { accumulator_sum result ≡ fold (accumulator_sum start + total value) }
{
    add_carrying(start, u64::from_le_bytes(value))
}

// The number with the words of a slice of two bytes each added.
fn add_words(start: u64, slice: &[u8]) -> u64
    ensures { accumulator_sum result ≡ fold (accumulator_sum start + total slice.now) }
{
    let (words, rest) = slice.as_chunks::<2>();
    let mut sum = start;
    for word in words {
        sum = add_2bytes(sum, *word);
    }
    match rest {
        [last] => add_2bytes(sum, [*last, 0]),
        _ => sum,
    }
}

// The same by four bytes at once, for the few after blocks of eight.
fn add_rest(start: u64, slice: &[u8]) -> u64
    ensures { accumulator_sum result ≡ fold (accumulator_sum start + total slice.now) }
{
    let (blocks, rest) = slice.as_chunks::<4>();
    let mut sum = start;
    for block in blocks {
        sum = add_4bytes(sum, *block);
    }
    add_words(sum, rest)
}

// The words of a block, in 128 bits, which hold the sum of 2^64 blocks with all carries.
fn add_wide(sum: u128, value: [u8; 8]) -> u128
    requires { sum + 2 ^ 64 ≤ 2 ^ 128 }
    ensures sum { accumulator_sum result ≡ fold (accumulator_sum sum + total value) }
    ensures less { result < sum + 2 ^ 64 }
{
    sum + u128::from(u64::from_le_bytes(value))
}

// The carries added back.
fn narrowed(sum: u128) -> u64
    ensures { accumulator_sum result ≡ accumulator_sum sum }
{
    add_carrying((sum & 0xffff_ffff_ffff_ffff) as u64, (sum >> 64) as u64)
}

// The same by eight bytes at once.
fn add_few(start: u64, slice: &[u8]) -> u64
    ensures { accumulator_sum result ≡ fold (accumulator_sum start + total slice.now) }
{
    let (blocks, rest) = slice.as_chunks::<8>();
    let mut sum = start;
    for block in blocks {
        sum = add_8bytes(sum, *block);
    }
    add_rest(sum, rest)
}

// The same, where the carries are counted and added at the end, so that no block waits for the one
// before it.
fn add_many(start: u64, slice: &[u8]) -> u64
    ensures { accumulator_sum result ≡ fold (accumulator_sum start + total slice.now) }
{
    let (blocks, rest) = slice.as_chunks::<8>();
    let mut sum = u128::from(start);
    for block in blocks {
        sum = add_wide(sum, *block);
    }
    add_rest(narrowed(sum), rest)
}

/// The number with the words of a slice added. An odd last byte is followed by a zero byte.
pub fn add_slice(start: u64, slice: &[u8]) -> u64
    ensures { accumulator_sum result ≡ fold (accumulator_sum start + total slice.now) }
{
    if slice.len() < WIDE_FROM {
        return add_few(start, slice);
    }
    if slice.len() < LANES_FROM {
        return add_many(start, slice);
    }
    let (blocks, rest) = slice.as_chunks::<32>();
    add_few(lanes::add_blocks(start, blocks), rest)
}

// The number's own fold, low byte first.
pub(crate) fn to_word(sum: u64) -> u16
    ensures { result ≡ fold sum }
{
    let (half, carry) = ((sum & 0xffff_ffff) as u32).overflowing_add((sum >> 32) as u32);
    let half = half + carry as u32;
    let (word, carry) = ((half & 0xffff) as u16).overflowing_add((half >> 16) as u16);
    word + carry as u16
}

/// The complement of the sum, low byte first.
pub fn ones_complement(sum: u64) -> u16
    ensures { result ≡ swap_bytes w16 (65535 - accumulator_sum sum) }
{
    !to_word(sum)
}

/// The same with ffff instead of 0.
pub fn ones_complement_with_no_zero(sum: u64) -> u16
    ensures { result ≡ swap_bytes w16 (no_zero (65535 - accumulator_sum sum)) }
{
    match ones_complement(sum) {
        0 => 0xffff,
        complement => complement,
    }
}
