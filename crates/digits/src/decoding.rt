//! Bytes out of digits.
ghost use Rattle.std.specs.Prelude.{◌≡◌, ◌≢◌, ◌+◌, ◌*◌, ◌/◌, ◌%◌, ◌<◌, ◌≤◌, ◌++◌, length, take, true, false};
ghost use Rattle.std.specs.Prelude.{MatchResult};
ghost use Rattle.std.specs.List.{AllPass};
ghost use Rattle.hex.specs.Hex.{decode_of, decode_sized, is_hex_digit};
ghost use Rattle.digits.specs.Digits.{AreDecoded};

use crate::lanes::{BLOCK_LEN, are_digit_values, block_of, bytes_of, maximum, values_of};
use hex::FromHexError;
use std::simd::prelude::*;

/// Puts the bytes of an even run of digits, of either case and of any length, into `bytes`.
///
/// The errors are those of [`hex::decode_to_slice`], and come in this order: `OddLength`, then
/// `InvalidStringLength` where `bytes` is not half as long as the digits, then
/// `InvalidHexCharacter` for the first byte that is no digit, with its index, and what `bytes` then
/// holds is not specified. A refused text is read twice; [`decode`] is faster, and names no error.
pub fn decode_to_slice(digits: &[u8], bytes: &mut [u8]) -> Result<(), FromHexError>
    ensures value { MatchResult (decode_sized digits.now (length bytes.old))
        (λ value. (result ≡ Ok tt) × (bytes.new ≡ value))
        (λ e. result ≡ Err e) }
    ensures same { (length digits.now ≢ 2 * length bytes.old) → bytes.new ≡ bytes.old }
{
    if decode(digits, bytes) {
        Ok(())
    } else {
        hex::decode_to_slice(digits, bytes)
    }
}

/// Puts the bytes of an even run of digits, of either case and of any length, into `bytes`, and
/// returns whether it could: whether there are twice as many digits as bytes, and no other byte
/// among them.
///
/// Where the lengths don't fit, `bytes` stays as it was. Where a byte is no digit, what `bytes`
/// then holds is not specified.
pub fn decode(digits: &[u8], bytes: &mut [u8]) -> bool
    ensures value { MatchResult (decode_sized digits.now (length bytes.old))
        (λ value. (result ≡ true) × (bytes.new ≡ value))
        (λ _. result ≡ false) }
    ensures same { (length digits.now ≢ 2 * length bytes.old) → bytes.new ≡ bytes.old }
{
    if digits.len() % 2 != 0 || digits.len() / 2 != bytes.len() {
        return false;
    }
    if bytes.len() < BLOCK_LEN {
        return decode_short(digits, bytes);
    }
    decode_blocks(digits, bytes)
}

/// Puts the bytes of an even run of digits into `room`, after its first `at` bytes, and returns
/// whether it could: whether there is no other byte among them. Where there is one, what `room` then
/// holds after these first bytes is not specified.
pub fn decode_at(digits: &[u8], room: &mut [u8], at: usize) -> bool
    requires even { length digits.now % 2 ≡ 0 }
    requires fits { at + length digits.now / 2 ≤ length room.old }
    ensures { MatchResult (decode_of digits.now)
        (λ value. (result ≡ true)
        × (take (at + length digits.now / 2) room.new ≡ take at room.old ++ value))
        (λ _. result ≡ false) }
{
    decode(digits, &mut room[at..at + digits.len() / 2])
}

// Block by block. The last block ends with the text, so it may overlap the one before it.
fn decode_blocks(digits: &[u8], bytes: &mut [u8]) -> bool
    requires twice { length digits.now ≡ 2 * length bytes.old }
    requires long { BLOCK_LEN ≤ length bytes.old }
    ensures decoded { result ≡ true → AreDecoded (length bytes.old) digits.now bytes.new }
    ensures refused { result ≡ false → ¬ (AllPass is_hex_digit digits.now) }
{
    let last = bytes.len() - BLOCK_LEN;
    let mut largest = u8x32::splat(0);
    let mut at = 0;
    while at < bytes.len() {
        let start = at.min(last);
        let values = values_of(u8x32::from_slice(&digits[2 * start..]));
        largest = maximum(largest, values);
        bytes_of(values).copy_to_slice(&mut bytes[start..]);
        at = start + BLOCK_LEN;
    }
    are_digit_values(largest)
}

// Fewer digits than a block has.
fn decode_short(digits: &[u8], bytes: &mut [u8]) -> bool
    requires twice { length digits.now ≡ 2 * length bytes.old }
    requires short { length bytes.old < BLOCK_LEN }
    ensures decoded { result ≡ true → AreDecoded (length bytes.old) digits.now bytes.new }
    ensures refused { result ≡ false → ¬ (AllPass is_hex_digit digits.now) }
{
    let values = values_of(block_of(digits));
    let prefix = bytes_of(values).to_array();
    bytes.copy_from_slice(&prefix[..bytes.len()]);
    are_digit_values(values)
}
