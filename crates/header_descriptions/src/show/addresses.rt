//! Addresses in their usual text.

use crate::show::line::Line;
use arrayvec::{ArrayString, ArrayVec};
use std::alloc::AllocError;
use std::fmt::Write;
use std::net::Ipv6Addr;

/// An IPv4 address, by its bytes with dots between them. It has no contract: tests compare the
/// texts.
pub fn ipv4(line: &mut Line<'_>, address: &[u8; 4]) -> Result<(), AllocError> {
    line.bytes(ipv4_text(*address).as_slice())
}

/// The text of an IPv4 address, which is ASCII: outputs have many, and by `Display` each costs more. It
/// has no contract: tests compare the texts.
pub(crate) fn ipv4_text(address: [u8; 4]) -> ArrayVec<u8, 16> {
    // The longest has 15 bytes.
    let mut text = ArrayVec::new();
    let [a, b, c, d] = address;
    push_decimal(&mut text, a);
    for byte in [b, c, d] {
        let _ = text.try_push(b'.');
        push_decimal(&mut text, byte);
    }
    text
}

// A byte in decimal.
fn push_decimal(text: &mut ArrayVec<u8, 16>, byte: u8) {
    if byte >= 100 {
        push_digit(text, byte / 100);
    }
    if byte >= 10 {
        push_digit(text, byte / 10 % 10);
    }
    push_digit(text, byte % 10);
}

// The remainder, since any other byte could overflow.
fn push_digit(text: &mut ArrayVec<u8, 16>, digit: u8) {
    let _ = text.try_push(b'0' + digit % 10);
}

/// An IPv6 address (RFC 5952). It has no contract: tests compare the texts.
pub fn ipv6(line: &mut Line<'_>, address: &[u8; 16]) -> Result<(), AllocError> {
    // The longest has 45 bytes.
    let mut text = ArrayString::<48>::new();
    let address = Ipv6Addr::from(*address);
    let _ = write!(text, "{address}");
    line.text(text.as_str())
}

/// A hardware address, by its bytes in hex with colons between them. It has no contract: tests
/// compare the texts.
pub fn hardware(line: &mut Line<'_>, address: &[u8]) -> Result<(), AllocError> {
    let mut between = "";
    for byte in address {
        line.text(between)?;
        line.hex(*byte)?;
        between = ":";
    }
    Ok(())
}
