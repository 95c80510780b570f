//! Bytes in hex, 16 a line.
ghost use Rattle.std.specs.Prelude.{◌≡◌, ◌++◌, OnOk, drop, false, map};
ghost use Rattle.std.specs.Fmt.{digits};
ghost use Rattle.header_descriptions.specs.ByteLines.{byte_line, byte_lines, column, digit_of, digits_of};
ghost use Rattle.header_descriptions.specs.ByteLines.{first_digits, letter_of, offset_text, pair_columns};

use std::alloc::AllocError;

// The bytes of a line.
const LINE_LEN: usize = 16;

/// Appends lines of 16 bytes each, as `tcpdump -X` has them: after a tab the offset of the first byte,
/// the digits of all in hex, two bytes a column, and their characters, a dot for each that isn't a
/// visible one of ASCII. The last line has what is left.
pub fn append_byte_lines(bytes: &[u8], out: &mut Vec<u8>) -> Result<(), AllocError>
    ensures { OnOk result (out.new.items ≡ out.old.items ++ byte_lines bytes.now) }
{
    let mut left = bytes;
    for line in 0..bytes.len().div_ceil(LINE_LEN) {
        let (first, rest) = left.split_at(LINE_LEN.min(left.len()));
        append_line(LINE_LEN * line, first, out)?;
        left = rest;
    }
    Ok(())
}

fn append_line(offset: usize, bytes: &[u8], out: &mut Vec<u8>) -> Result<(), AllocError>
    ensures { OnOk result (out.new.items ≡ out.old.items ++ byte_line offset bytes.now) }
{
    out.extend_from_slice(b"\t0x")?;
    append_offset(offset, out)?;
    out.extend_from_slice(b": ")?;
    append_columns(bytes, out)?;
    out.extend_from_slice(b"  ")?;
    append_letters(bytes, out)?;
    out.extend_from_slice(b"\n")
}

fn append_offset(offset: usize, out: &mut Vec<u8>) -> Result<(), AllocError>
    ensures { OnOk result (out.new.items ≡ out.old.items ++ offset_text offset) }
{
    if offset >= 65536 {
        return append_number(offset, out);
    }
    out.extend_from_slice(&[
        digit(offset / 4096),
        digit(offset / 256),
        digit(offset / 16),
        digit(offset),
    ])
}

// All digits of a number.
#[tactic(auto, using(crate::proofs::HexLemmas::one_digit))]
fn append_number(n: usize, out: &mut Vec<u8>) -> Result<(), AllocError>
    ensures { OnOk result (out.new.items ≡ out.old.items ++ digits 16 false n) }
{
    if n < 16 {
        return out.extend_from_slice(&[digit(n)]);
    }
    append_number(n / 16, out)?;
    out.extend_from_slice(&[digit(n)])?;
    Ok(())
}

// Eight columns of two bytes.
fn append_columns(bytes: &[u8], out: &mut Vec<u8>) -> Result<(), AllocError>
    ensures { OnOk result (out.new.items ≡ out.old.items ++ pair_columns 8 bytes.now) }
{
    let mut left = bytes;
    for column in 0..LINE_LEN / 2 {
        append_column(left, out)?;
        left = after_first(after_first(left));
    }
    Ok(())
}

fn append_column(bytes: &[u8], out: &mut Vec<u8>) -> Result<(), AllocError>
    ensures { OnOk result (out.new.items ≡ out.old.items ++ column bytes.now) }
{
    out.extend_from_slice(b" ")?;
    out.extend_from_slice(&first_digits(bytes))?;
    out.extend_from_slice(&first_digits(after_first(bytes)))
}

// The digits of the first byte, or two spaces where there is none.
fn first_digits(bytes: &[u8]) -> [u8; 2]
    ensures { result ≡ first_digits bytes.now }
{
    match bytes.first() {
        Some(byte) => digits(*byte),
        None => *b"  ",
    }
}

fn after_first(bytes: &[u8]) -> &[u8]
    ensures { result.now ≡ drop 1 bytes.now }
{
    match bytes.get(1..) {
        Some(rest) => rest,
        None => &[],
    }
}

fn append_letters(bytes: &[u8], out: &mut Vec<u8>) -> Result<(), AllocError>
    ensures { OnOk result (out.new.items ≡ out.old.items ++ map letter_of bytes.now) }
{
    for byte in bytes {
        out.push(letter(*byte))?;
    }
    Ok(())
}

fn letter(byte: u8) -> u8
    ensures { result ≡ letter_of byte }
{
    if 33 <= byte && byte <= 126 {
        byte
    } else {
        b'.'
    }
}

/// A byte in hex, the higher digit first, with lower-case letters.
pub fn digits(byte: u8) -> [u8; 2]
    ensures { result ≡ digits_of byte }
{
    [digit(usize::from(byte / 16)), digit(usize::from(byte))]
}

// The digit of the lowest four bits.
fn digit(n: usize) -> u8
    ensures { result ≡ digit_of n }
{
    let value = (n % 16) as u8;
    if value < 10 {
        b'0' + value
    } else {
        b'a' - 10 + value
    }
}
