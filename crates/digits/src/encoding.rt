//! Digits out of bytes.
ghost use Rattle.std.specs.Prelude.{◌≡◌, ◌*◌, ◌≤◌, length};
ghost use Rattle.hex.specs.Hex.{encode_lower};

use crate::lanes::{BLOCK_LEN, digits_of};
use std::simd::prelude::*;

/// Puts the lower case digits of `bytes`, two for each, into `digits`, which is twice as long.
pub fn encode(bytes: &[u8], digits: &mut [u8])
    requires { length digits.old ≡ 2 * length bytes.now }
    ensures { digits.new ≡ encode_lower bytes.now }
{
    if bytes.len() < BLOCK_LEN {
        hex::encode_to_slice(bytes, digits).unwrap();
    } else {
        encode_blocks(bytes, digits);
    }
}

// Block by block. The last block ends with the bytes, so it may overlap the one before it.
fn encode_blocks(bytes: &[u8], digits: &mut [u8])
    requires twice { length digits.old ≡ 2 * length bytes.now }
    requires long { BLOCK_LEN ≤ length bytes.now }
    ensures { digits.new ≡ encode_lower bytes.now }
{
    let last = bytes.len() - BLOCK_LEN;
    let mut at = 0;
    while at < bytes.len() {
        let start = at.min(last);
        digits_of(u8x16::from_slice(&bytes[start..])).copy_to_slice(&mut digits[2 * start..]);
        at = start + BLOCK_LEN;
    }
}
