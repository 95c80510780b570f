//! Transport messages, borrowed.

use crate::checks::equal;
use ep_icmp::{Icmpv4Slice, Icmpv6Slice};
use ep_packet::TransportSlice;
use ep_tcpudp::{TcpSlice, UdpSlice};
use std::test::*;

const BYTES: [u8; 20] = [
    0, 1, 0, 2, 0, 20, 0, 3, 0, 0, 0, 0, 0x50, 2, 4, 0, 0x97, 0xda, 0, 0,
];

fn udp(bytes: &[u8]) -> Option<TransportSlice<'_>> {
    Some(TransportSlice::Udp(UdpSlice::from_slice(bytes).ok()?))
}

fn tcp(bytes: &[u8]) -> Option<TransportSlice<'_>> {
    Some(TransportSlice::Tcp(TcpSlice::from_slice(bytes).ok()?))
}

fn icmpv4(bytes: &[u8]) -> Option<TransportSlice<'_>> {
    Some(TransportSlice::Icmpv4(Icmpv4Slice::from_slice(bytes).ok()?))
}

fn icmpv6(bytes: &[u8]) -> Option<TransportSlice<'_>> {
    Some(TransportSlice::Icmpv6(Icmpv6Slice::from_slice(bytes).ok()?))
}

// Whether both are messages, and whether they are equal.
fn compared(one: Option<TransportSlice<'_>>, other: Option<TransportSlice<'_>>) -> [bool; 2] {
    [one.is_some() && other.is_some(), one == other]
}

// The same bytes are another message to another protocol.
#[test]
fn slices_of_each_protocol(rt: HostRuntime) {
    equal(rt, compared(udp(&BYTES), tcp(&BYTES)), [true, false]);
    equal(rt, compared(icmpv4(&BYTES), icmpv6(&BYTES)), [true, false]);
}

fn is_copied(message: Option<TransportSlice<'_>>) -> bool {
    match message {
        Some(message) => {
            let copy: Result<_, _> = message.clone();
            copy == Ok(message)
        }
        None => false,
    }
}

#[test]
fn a_copy_of_a_slice(rt: HostRuntime) {
    equal(rt, is_copied(udp(&BYTES)), true);
}
