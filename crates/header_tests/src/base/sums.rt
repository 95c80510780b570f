//! The Internet checksum against values from outside.

use crate::checks::equal;
use ep_base::checksum::{Sum16BitWords, message_sum, sum_pieces, u32_16bit_word, u64_16bit_word};
use std::process::Abort;

// The eight bytes of RFC 1071, section 3, whose words sum to ddf2.
const RFC_1071: [u8; 8] = [0x00, 0x01, 0xf2, 0x03, 0xf4, 0xf5, 0xf6, 0xf7];

#[test]
fn sums_of_chunks(rt: HostRuntime) {
    equal(rt, sum_pieces(&[&[1, 2, 3], &[4]]), 0xfdf7);
    equal(rt, sum_pieces(&[]), 0xffff);
    let halves = sum_pieces(&[&RFC_1071[..4], &RFC_1071[4..]]);
    equal(rt, halves.swap_bytes(), 0x220d);
}

// An IPv4 header whose checksum is b861, without its last eight bytes: once with the field as 0,
// once with its value.
fn header_sum() -> Sum16BitWords {
    Sum16BitWords::new()
        .add_8bytes([0x45, 0x00, 0x00, 0x73, 0x00, 0x00, 0x40, 0x00])
        .add_4bytes([0x40, 0x11, 0x00, 0x00])
}

const ADDRESSES: [u8; 8] = [0xc0, 0xa8, 0x00, 0x01, 0xc0, 0xa8, 0x00, 0xc7];

#[test]
fn sum_of_a_header(rt: HostRuntime) {
    let without = header_sum().add_slice(&ADDRESSES);
    equal(rt, without.ones_complement().swap_bytes(), 0xb861);
    let whole = without.add_2bytes([0xb8, 0x61]);
    equal(rt, whole.ones_complement(), 0);
    equal(rt, whole.to_ones_complement_with_no_zero(), 0xffff);
    let all_ones = Sum16BitWords::default().add_2bytes([0xff, 0xff]);
    equal(rt, (all_ones == whole), true);
}

#[test]
fn sum_of_sixteen_bytes(rt: HostRuntime) {
    let twice = [
        0x00, 0x01, 0xf2, 0x03, 0xf4, 0xf5, 0xf6, 0xf7, 0x00, 0x01, 0xf2, 0x03, 0xf4, 0xf5, 0xf6,
        0xf7,
    ];
    // Twice ddf2 is 1bbe4, and so bbe5.
    let sum = Sum16BitWords::new().add_16bytes(twice).ones_complement();
    equal(rt, sum.swap_bytes(), 0x441a);
}

// The header's checksum stays where it is not 0.
#[test]
fn checksums_that_are_not_zero(rt: HostRuntime) {
    let sum = header_sum()
        .add_8bytes(ADDRESSES)
        .to_ones_complement_with_no_zero();
    equal(rt, sum.swap_bytes(), 0xb861);
}

fn narrow_is(rt: impl Abort + Copy, sum: u32, wanted: u16) {
    let found = [
        u32_16bit_word::ones_complement(sum).swap_bytes(),
        u32_16bit_word::ones_complement_with_no_zero(sum).swap_bytes(),
    ];
    equal(rt, (sum, found), (sum, [wanted, wanted]));
}

fn wide_is(rt: impl Abort + Copy, sum: u64, wanted: u16) {
    let found = [
        u64_16bit_word::ones_complement(sum).swap_bytes(),
        u64_16bit_word::ones_complement_with_no_zero(sum).swap_bytes(),
    ];
    equal(rt, (sum, found), (sum, [wanted, wanted]));
}

// A start of 1234 and of words in the upper halves, read low byte first, and the sums
// calculated by hand.
#[test]
fn sums_from_another_start(rt: HostRuntime) {
    narrow_is(rt, u32_16bit_word::add_2bytes(0x3412, [0, 1]), 0xedca);
    narrow_is(
        rt,
        u32_16bit_word::add_4bytes(0x0001_3412, [0, 1, 0, 2]),
        0xecc8,
    );
    narrow_is(rt, u32_16bit_word::add_slice(0x3412, &RFC_1071), 0x0fd9);
    wide_is(rt, u64_16bit_word::add_2bytes(0x3412, [0, 1]), 0xedca);
    wide_is(
        rt,
        u64_16bit_word::add_4bytes(0x0001_0000_0000_3412, [0, 1, 0, 2]),
        0xecc8,
    );
    wide_is(rt, u64_16bit_word::add_8bytes(0x3412, RFC_1071), 0x0fd9);
    wide_is(rt, u64_16bit_word::add_slice(0x3412, &RFC_1071), 0x0fd9);
}

// RFC 1071's words chunk by chunk: 220d is 0d22 with its bytes swapped.
#[test]
fn sums_chunk_by_chunk(rt: HostRuntime) {
    let narrow = u32_16bit_word::add_2bytes(0, [0, 1]);
    let narrow = u32_16bit_word::add_4bytes(narrow, [0xf2, 3, 0xf4, 0xf5]);
    narrow_is(rt, u32_16bit_word::add_2bytes(narrow, [0xf6, 0xf7]), 0x220d);
    let wide = u64_16bit_word::add_2bytes(0, [0, 1]);
    let wide = u64_16bit_word::add_4bytes(wide, [0xf2, 3, 0xf4, 0xf5]);
    wide_is(rt, u64_16bit_word::add_2bytes(wide, [0xf6, 0xf7]), 0x220d);
    wide_is(rt, u64_16bit_word::add_8bytes(0, RFC_1071), 0x220d);
}

// Both widths give the same of these bytes.
fn widths_agree(rt: impl Abort + Copy, start: u32, bytes: &[u8]) {
    let narrow = u32_16bit_word::add_slice(start, bytes);
    let wide = u64_16bit_word::add_slice(u64::from(start), bytes);
    let found = [
        u32_16bit_word::ones_complement(narrow),
        u32_16bit_word::ones_complement_with_no_zero(narrow),
    ];
    let wanted = [
        u64_16bit_word::ones_complement(wide),
        u64_16bit_word::ones_complement_with_no_zero(wide),
    ];
    equal(rt, (bytes, start, found), (bytes, start, wanted));
}

const BYTES: [u8; 17] = [
    0xff, 0xff, 0x00, 0x80, 0x7f, 0xfe, 0x01, 0x00, 0xff, 0xfe, 0xfd, 0xfc, 0xfb, 0xfa, 0xf9, 0xf8,
    0xf7,
];

#[test]
fn both_widths_agree(rt: HostRuntime) {
    for len in 0..=17usize {
        for start in &[0u32, 1, 0xffff, 0x1_0000, 0xffff_ffff] {
            widths_agree(rt, *start, &BYTES[..len]);
        }
    }
}

// The UDP datagram of ports 1 and 2 with the payload 1 to 8, from 10.0.0.1 to 10.0.0.2: its
// checksum is dbb4.
#[test]
fn sum_of_a_message(rt: HostRuntime) {
    let pseudo = Sum16BitWords::new()
        .add_4bytes([10, 0, 0, 1])
        .add_4bytes([10, 0, 0, 2])
        .add_4bytes([0, 17, 0, 16]);
    let header = [0, 1, 0, 2, 0, 16, 0, 0];
    let sum = message_sum(pseudo, &header, &[1, 2, 3, 4, 5, 6, 7, 8]);
    equal(rt, sum.ones_complement().swap_bytes(), 0xdbb4);
}
