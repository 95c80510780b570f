//! Sums of texts that are long enough for lanes, and of shorter ones.

use crate::checks::{equal, fail};
use ep_base::checksum::{Sum16BitWords, sum_pieces, u32_16bit_word, u64_16bit_word};
use std::alloc::Global;
use std::process::Abort;

// The checksum of a text, which both widths agree on.
fn checksum(rt: impl Abort + Copy, text: &[u8]) -> u16 {
    let sum = Sum16BitWords::new().add_slice(text).ones_complement();
    let narrow = u32_16bit_word::add_slice(0, text);
    let wide = u64_16bit_word::add_slice(0, text);
    let found = [
        u32_16bit_word::ones_complement(narrow),
        u64_16bit_word::ones_complement(wide),
    ];
    equal(rt, (text.len(), found), (text.len(), [sum, sum]));
    sum.swap_bytes()
}

// The same byte by byte (RFC 1071, section 1). A text of 2^40 bytes would be too long for it.
fn plain_checksum(text: &[u8]) -> u16 {
    let mut total = 0u64;
    let mut weight = 256u64;
    for byte in text {
        total = total.wrapping_add(weight.wrapping_mul(u64::from(*byte)));
        weight = if weight == 256 { 1 } else { 256 };
    }
    for _ in 0..4usize {
        total = (total >> 16) + (total & 0xffff);
    }
    !((total & 0xffff) as u16)
}

// The sums of 64 and of 256 bytes are multiples of ffff. 16 words 0101 and 0100 sum to 1110, 144
// of them and 0100 to 9190.
#[test]
fn sums_of_one_byte_repeated(rt: HostRuntime) {
    for len in &[64usize, 256] {
        let ones = [0xff; 256];
        let (prefix, _) = ones.split_at((*len).min(256));
        let sum = Sum16BitWords::new().add_slice(prefix);
        equal(rt, (*len, sum.ones_complement()), (*len, 0));
        let no_zero = sum.to_ones_complement_with_no_zero();
        equal(rt, (*len, no_zero), (*len, 0xffff));
    }
    let sum = Sum16BitWords::new().add_slice(&[1; 33]).ones_complement();
    equal(rt, sum, 0xefee);
}

#[test]
fn checksums_of_one_byte_repeated(rt: HostRuntime) {
    equal(rt, checksum(rt, &[0; 64]), 0xffff);
    equal(rt, checksum(rt, &[0; 256]), 0xffff);
    equal(rt, checksum(rt, &[1; 33]), 0xeeef);
    equal(rt, checksum(rt, &[1; 289]), 0x6e6f);
}

// A text whole, and cut at every even offset.
fn is_summed(rt: impl Abort + Copy, text: &[u8]) {
    let wanted = plain_checksum(text);
    equal(rt, (text.len(), checksum(rt, text)), (text.len(), wanted));
    for words in 0..=text.len() / 2 {
        let (prefix, back) = text.split_at(2 * words);
        let sum = sum_pieces(&[prefix, back]).swap_bytes();
        equal(rt, (text.len(), words, sum), (text.len(), words, wanted));
    }
}

// Texts of 1, 2, 3, .., with 0 after 255.
#[test]
fn sums_of_every_length(rt: HostRuntime) {
    let mut bytes = [0u8; 300];
    let mut next = 0u8;
    for byte in bytes.iter_mut() {
        next = next.wrapping_add(1);
        *byte = next;
    }
    for len in 0..=300usize {
        is_summed(rt, &bytes[..len]);
    }
}

// The checksum of a text of one byte, repeated.
fn repeated(rt: impl Abort + Copy, alloc: Global, byte: u8, len: usize) -> u16 {
    let Ok(bytes) = vec![in alloc; byte; len] else {
        fail(rt, "no memory");
    };
    checksum(rt, &bytes)
}

// Words ffff and a last ff00 leave ff00, by residue; 65552 words 0101 and 0100 leave 1211. Lanes
// of 32 bits would wrap in the last text.
#[test]
fn sums_of_long_texts(rt: HostRuntime) {
    equal(rt, repeated(rt, rt.alloc(), 0xff, 65535), 0x00ff);
    equal(rt, repeated(rt, rt.alloc(), 0xff, 131105), 0x00ff);
    equal(rt, repeated(rt, rt.alloc(), 1, 131105), 0xedee);
    equal(rt, repeated(rt, rt.alloc(), 0xff, 2097281), 0x00ff);
}
