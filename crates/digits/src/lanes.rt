//! One block: 32 digits, which are 16 bytes, in the lanes of a vector.
ghost use Rattle.std.specs.Prelude.{◌≡◌, ℕ, ◌+◌, ◌-◌, ◌*◌, ◌/◌, ◌%◌, ◌<◌, ◌≤◌, ◌↔◌, ◌++◌, length, replicate};
ghost use Rattle.std.specs.Prelude.{slice_index, IsTrue};
ghost use Rattle.hex.specs.Hex.{lower_digits};
ghost use Rattle.digits.specs.Digits.{Reads, AreDigitValues};

use std::simd::prelude::*;

/// The bytes of a block.
pub(crate) const BLOCK_LEN: usize = 16;

const LOWER: [u8; 16] = *b"0123456789abcdef";

/// The value of each digit, and 16 or more where there is none.
#[inline(always)]
pub(crate) fn values_of(digits: u8x32) -> u8x32
    ensures { (i : ℕ) → i < 32 → Reads (slice_index digits i) (slice_index result i) }
{
    // `0` to `9` become the ten highest bytes, then 0xf0 to 0xf9, and no other byte becomes those.
    let high = (digits + u8x32::splat(0xff - b'9')).saturating_sub(u8x32::splat(6));
    let decimal = high - u8x32::splat(0xf0);
    // How far a letter of either case is above `A`, and at most 245, so that 10 more do not wrap.
    let above_a = (digits & u8x32::splat(0xdf)) - u8x32::splat(b'A');
    let letter = above_a.simd_min(u8x32::splat(245)) + u8x32::splat(10);
    decimal.simd_min(letter)
}

/// Whether each of some digits had a value.
#[inline(always)]
pub(crate) fn are_digit_values(values: u8x32) -> bool
    ensures { IsTrue result ↔ AreDigitValues values }
{
    values.simd_gt(u8x32::splat(15)).to_bitmask() == 0
}

/// The larger value of each lane, so that two blocks are tested at once.
#[inline(always)]
pub(crate) fn maximum(a: u8x32, b: u8x32) -> u8x32
    ensures { AreDigitValues result ↔ (AreDigitValues a × AreDigitValues b) }
{
    a.simd_max(b)
}

/// Each two values in a row as one byte.
#[inline(always)]
pub(crate) fn bytes_of(values: u8x32) -> u8x16
    ensures len { length result ≡ 16 }
    ensures bytes { AreDigitValues values → (k : ℕ) → k < 16
        → slice_index result k ≡ slice_index values (2 * k) * 16 + slice_index values (2 * k + 1) }
{
    let words = u16x16::from_le_bytes(values);
    // (low * 256 + high) * 4097 / 256 is high * 16 + low.
    ((words * u16x16::splat(4097)) >> u16x16::splat(8)).cast::<u8>()
}

/// A block that begins with some digits, and is filled up with `0`.
#[inline(always)]
pub(crate) fn block_of(digits: &[u8]) -> u8x32
    requires { length digits.now ≤ 32 }
    ensures { result ≡ digits.now ++ replicate (32 - length digits.now) 48 }
{
    let mut block = [b'0'; 32];
    block[..digits.len()].copy_from_slice(digits);
    u8x32::from_array(block)
}

/// The two digits of each byte, the high four bits first.
#[inline(always)]
pub(crate) fn digits_of(bytes: u8x16) -> u8x32
    ensures len { length result ≡ 32 }
    ensures high { (k : ℕ) → k < 16
        → slice_index result (2 * k) ≡ slice_index lower_digits (slice_index bytes k / 16) }
    ensures low { (k : ℕ) → k < 16
        → slice_index result (2 * k + 1) ≡ slice_index lower_digits (slice_index bytes k % 16) }
{
    let table = u8x16::from_array(LOWER);
    let high = table.swizzle_dyn(bytes >> u8x16::splat(4));
    let low = table.swizzle_dyn(bytes & u8x16::splat(15));
    high.shuffle(
        low,
        [
            0, 16, 1, 17, 2, 18, 3, 19, 4, 20, 5, 21, 6, 22, 7, 23, 8, 24, 9, 25, 10, 26, 11, 27,
            12, 28, 13, 29, 14, 30, 15, 31,
        ],
    )
}
