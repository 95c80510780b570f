//! The sum of 16-bit words in a number of 32 bits, whose carry is added back.
//!
//! The meaning of such a number is `accumulator_sum`: the sum, high byte first, of the words that
//! were added to it low byte first. It may start at any number.

ghost use Rattle.std.specs.Prelude.{◌≡◌, ◌+◌, ◌-◌};
ghost use Rattle.std.specs.Int.{swap_bytes, w16};
ghost use Rattle.ep_base.specs.Sum.{accumulator_sum, fold, no_zero, total};

use super::u64_16bit_word;

fn add_carrying(start: u32, word: u32) -> u32
    ensures { accumulator_sum result ≡ fold (accumulator_sum start + accumulator_sum word) }
{
    let (sum, carry) = start.overflowing_add(word);
    sum + carry as u32
}

/// The number with a word of 2 bytes added.
pub fn add_2bytes(start: u32, value: [u8; 2]) -> u32
    ensures { accumulator_sum result ≡ fold (accumulator_sum start + total value) }
{
    add_carrying(start, u32::from(u16::from_le_bytes(value)))
}

/// The number with two words added.
pub fn add_4bytes(start: u32, value: [u8; 4]) -> u32
    ensures { accumulator_sum result ≡ fold (accumulator_sum start + total value) }
{
    add_carrying(start, u32::from_le_bytes(value))
}

/// The number with the words of a slice added. An odd last byte is followed by a zero byte.
pub fn add_slice(start: u32, slice: &[u8]) -> u32
    ensures { accumulator_sum result ≡ fold (accumulator_sum start + total slice.now) }
{
    let sum = u64_16bit_word::add_slice(u64::from(start), slice);
    add_carrying((sum & 0xffff_ffff) as u32, (sum >> 32) as u32)
}

/// The complement of the sum, low byte first.
pub fn ones_complement(sum: u32) -> u16
    ensures { result ≡ swap_bytes w16 (65535 - accumulator_sum sum) }
{
    u64_16bit_word::ones_complement(u64::from(sum))
}

/// The same with ffff instead of 0.
pub fn ones_complement_with_no_zero(sum: u32) -> u16
    ensures { result ≡ swap_bytes w16 (no_zero (65535 - accumulator_sum sum)) }
{
    u64_16bit_word::ones_complement_with_no_zero(u64::from(sum))
}
