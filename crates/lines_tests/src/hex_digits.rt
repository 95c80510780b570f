//! Hex digits at every length, and at literal values.
ghost use Rattle.std.specs.Prelude.{◌*◌, ◌<◌, ◌≤◌};

use digits::{decode, decode_at, decode_to_slice, encode};
use hex::FromHexError;

// The SHA-256 (FIPS 180-4) of no bytes.
const DIGITS: &[u8; 64] = b"e3b0c44298fc1c149afbf4c8996fb92427ae41e4649b934ca495991b7852b855";

const UPPER_DIGITS: &[u8; 64] = b"E3B0C44298FC1C149AFBF4C8996FB92427AE41E4649B934CA495991B7852B855";

const BYTES: [u8; 32] = [
    0xe3, 0xb0, 0xc4, 0x42, 0x98, 0xfc, 0x1c, 0x14, 0x9a, 0xfb, 0xf4, 0xc8, 0x99, 0x6f, 0xb9, 0x24,
    0x27, 0xae, 0x41, 0xe4, 0x64, 0x9b, 0x93, 0x4c, 0xa4, 0x95, 0x99, 0x1b, 0x78, 0x52, 0xb8, 0x55,
];

fn are_decoded(n: usize) -> bool
    requires { n ≤ 32 }
{
    let mut bytes = [0u8; 32];
    decode(&DIGITS[..2 * n], &mut bytes[..n]) && &bytes[..n] == &BYTES[..n]
}

fn upper_ones_are_decoded(n: usize) -> bool
    requires { n ≤ 32 }
{
    let mut bytes = [0u8; 32];
    let result = decode_to_slice(&UPPER_DIGITS[..2 * n], &mut bytes[..n]);
    result.is_ok() && &bytes[..n] == &BYTES[..n]
}

fn are_encoded(n: usize) -> bool
    requires { n ≤ 32 }
{
    let mut digits = [0u8; 64];
    encode(&BYTES[..n], &mut digits[..2 * n]);
    &digits[..2 * n] == &DIGITS[..2 * n]
}

// Each length up to two blocks, so also those whose last block overlaps the one before it.
#[test]
fn each_length(rt: HostRuntime) {
    for n in 0..=32 {
        assert!(rt; are_decoded(n), "{n} bytes");
        assert!(rt; upper_ones_are_decoded(n), "{n} bytes");
        assert!(rt; are_encoded(n), "{n} bytes");
    }
}

fn with_digit(position: usize, digit: u8) -> [u8; 64]
    requires { position < 64 }
{
    let mut digits = *DIGITS;
    digits[position] = digit;
    digits
}

// Whether n bytes' digits are refused for a bad one at a position.
fn is_refused(n: usize, position: usize, bad: u8) -> bool
    requires { (n ≤ 32) × (position < 2 * n) }
{
    let digits = with_digit(position, bad);
    let digits = &digits[..2 * n];
    let mut bytes = [0u8; 32];
    let bytes = &mut bytes[..n];
    let error = FromHexError::InvalidHexCharacter {
        c: char::from(bad),
        index: position,
    };
    !decode(digits, bytes) && decode_to_slice(digits, bytes) == Err(error)
}

#[test]
fn each_position_of_a_bad_digit(rt: HostRuntime) {
    for n in 1..=32 {
        for position in 0..2 * n {
            for bad in b"/:@G`g\x00\xb0\xff" {
                assert!(rt; is_refused(n, position, *bad));
            }
        }
    }
}

// Which of the 256 bytes are digits, as std has it, in a short text and in one of two blocks.
#[test]
fn each_byte_as_a_digit(rt: HostRuntime) {
    for digit in 0..=255 {
        let digits = with_digit(41, digit);
        let mut bytes = [0u8; 32];
        assert!(rt; decode(&digits[40..42], &mut bytes[..1]) == digit.is_ascii_hexdigit());
        assert!(rt; decode(&digits, &mut bytes) == digit.is_ascii_hexdigit());
    }
}

// The value of each digit, and its digits in turn, in each lane.
#[test]
fn each_byte_in_each_lane(rt: HostRuntime) {
    for byte in 0..=255 {
        let mut digits = [0u8; 34];
        encode(&[byte; 17], &mut digits);
        for pair in digits.chunks_exact(2) {
            assert!(rt; char::from(pair[0]).to_digit(16) == Some(u32::from(byte / 16)));
            assert!(rt; char::from(pair[1]).to_digit(16) == Some(u32::from(byte % 16)));
        }
        let mut bytes = [0u8; 17];
        assert!(rt; decode(&digits, &mut bytes));
        assert!(rt; bytes == [byte; 17]);
    }
}

// RFC 4648, section 10, and the same in lower case.
#[test]
fn text_of_rfc_4648(rt: HostRuntime) {
    let mut bytes = [0u8; 6];
    assert!(rt; decode(b"666F6F626172", &mut bytes));
    assert!(rt; &bytes == b"foobar");
    let mut digits = [0u8; 12];
    encode(b"foobar", &mut digits);
    assert!(rt; &digits == b"666f6f626172");
}

#[test]
fn other_lengths(rt: HostRuntime) {
    let mut bytes = [7u8; 31];
    assert!(rt; !decode(DIGITS, &mut bytes));
    assert!(rt; decode_to_slice(DIGITS, &mut bytes) == Err(FromHexError::InvalidStringLength));
    assert!(rt; decode_to_slice(&DIGITS[..63], &mut bytes) == Err(FromHexError::OddLength));
    assert!(rt; !decode(&DIGITS[..1], &mut []));
    assert!(rt; bytes == [7u8; 31]);
}

// The text of RFC 4648 in two chunks.
#[test]
fn texts_in_a_row(rt: HostRuntime) {
    let mut bytes = [0u8; 6];
    assert!(rt; decode_at(b"666F", &mut bytes, 0));
    assert!(rt; decode_at(b"6F626172", &mut bytes, 2));
    assert!(rt; &bytes == b"foobar");
    assert!(rt; !decode_at(b"0g", &mut bytes, 5));
    assert!(rt; &bytes[..5] == b"fooba".as_slice());
}
