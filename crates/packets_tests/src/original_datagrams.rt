//! The datagrams that ICMP errors are about (RFC 792; RFC 4443), as far as they are there.

use crate::checks::{equal, fail};
use etherparse::{Icmpv4Slice, Icmpv6Slice};
use packets::{original_in_icmpv4, original_in_icmpv6};
use std::process::Abort;

// Port unreachable, and packet too big: each about a UDP datagram from port 53 to 4000 of 3 bytes.
const OVER_IPV4: &[u8; 39] = b"\
    \x03\x03\x00\x00\x00\x00\x00\x00\x45\x00\x00\x1f\x00\x01\x00\x00\x40\x11\x66\xcb\x0a\x00\x00\x01\
    \x0a\x00\x00\x02\x00\x35\x0f\xa0\x00\x0b\x17\x9e\x61\x62\x63";

const OVER_IPV6: &[u8; 59] = b"\
    \x02\x00\x00\x00\x00\x00\x05\x00\x60\x00\x00\x00\x00\x0b\x11\x40\x20\x01\x0d\xb8\x00\x00\x00\x00\
    \x00\x00\x00\x00\x00\x00\x00\x01\x20\x01\x0d\xb8\x00\x00\x00\x00\x00\x00\x00\x00\x00\x00\x00\x02\
    \x00\x35\x0f\xa0\x00\x0b\xd0\x2b\x61\x62\x63";

// Whether the UDP header is there, where the IP header is.
fn there_over_ipv4(rt: impl Abort + Copy, message: &[u8]) -> Option<bool> {
    let Ok(message) = Icmpv4Slice::from_slice(message) else {
        fail(rt, "no message");
    };
    match original_in_icmpv4(&message) {
        Some(layers) => Some(layers.net.is_some() && layers.transport.is_some()),
        None => None,
    }
}

fn there_over_ipv6(rt: impl Abort + Copy, message: &[u8]) -> Option<bool> {
    let Ok(message) = Icmpv6Slice::from_slice(message) else {
        fail(rt, "no message");
    };
    match original_in_icmpv6(&message) {
        Some(layers) => Some(layers.net.is_some() && layers.transport.is_some()),
        None => None,
    }
}

// Of so many bytes, after an IP header that ends there.
fn wanted(len: usize, end: usize) -> Option<bool> {
    if len < end {
        None
    } else {
        Some(8 <= len - end)
    }
}

#[test]
fn cut_at_each_byte_over_ipv4(rt: HostRuntime) {
    for len in 8..=39usize {
        let there = there_over_ipv4(rt, &OVER_IPV4[..len]);
        equal(rt, there, wanted(len, 28));
    }
}

#[test]
fn cut_at_each_byte_over_ipv6(rt: HostRuntime) {
    for len in 8..=59usize {
        let there = there_over_ipv6(rt, &OVER_IPV6[..len]);
        equal(rt, there, wanted(len, 48));
    }
}

// With a code by which no message is a timestamp message.
#[test]
fn each_type_over_ipv4(rt: HostRuntime) {
    let mut message = *OVER_IPV4;
    for type_u8 in 0..=u8::MAX {
        message[0] = type_u8;
        let is_error = matches!(type_u8, 3 | 4 | 5 | 11 | 12);
        equal(rt, there_over_ipv4(rt, &message).is_some(), is_error);
    }
}

#[test]
fn each_type_over_ipv6(rt: HostRuntime) {
    let mut message = *OVER_IPV6;
    for type_u8 in 0..=u8::MAX {
        message[0] = type_u8;
        let is_error = matches!(type_u8, 1 | 2 | 3 | 4);
        equal(rt, there_over_ipv6(rt, &message).is_some(), is_error);
    }
}
