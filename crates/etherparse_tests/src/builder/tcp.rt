//! Each step of TCP, once. The segments were made by a separate program after RFC 9293.

use super::parts::{ipv4, ipv6};
use super::written::message;
use crate::checks::{equal, equal_bytes, fail};
use ep_tcpudp::{TcpHeader, TcpOptionElement, TcpOptionWriteError, TcpOptions};
use etherparse::PacketBuilderStep;
use std::alloc::Global;
use std::process::Abort;
use std::test::*;

// The functions below have no contracts, as tests alone call them.

fn tcp() -> PacketBuilderStep<TcpHeader> {
    ipv4().tcp(1, 2, 3, 4096)
}

// The step writes this segment.
fn gives(rt: impl Abort + Copy, alloc: Global, step: PacketBuilderStep<TcpHeader>, segment: &[u8]) {
    let written = message(rt, alloc, step);
    equal(
        rt,
        (written.get(9), written.get(20..)),
        (Some(&6), Some(segment)),
    );
}

const PLAIN: [u8; 28] = [
    0, 1, 0, 2, 0, 0, 0, 3, 0, 0, 0, 0, 0x50, 0, 0x10, 0, 0x0c, 0x6f, 0, 0, 1, 2, 3, 4, 5, 6, 7, 8,
];

#[test]
fn plain_segment(rt: HostRuntime) {
    gives(rt, rt.alloc(), tcp(), &PLAIN);
}

const OVER_IPV6: [u8; 68] = [
    0x60, 0, 0, 0, 0, 0x1c, 6, 0x2f, 0xfd, 0, 0, 0, 0, 0, 0, 0, 0, 0, 0, 0, 0, 0, 0, 1, 0xfd, 0, 0,
    0, 0, 0, 0, 0, 0, 0, 0, 0, 0, 0, 0, 2, 0, 1, 0, 2, 0, 0, 0, 3, 0, 0, 0, 0, 0x50, 0, 0x10, 0,
    0x95, 0xbe, 0, 0, 1, 2, 3, 4, 5, 6, 7, 8,
];

#[test]
fn segment_over_ipv6(rt: HostRuntime) {
    let written = message(rt, rt.alloc(), ipv6().tcp(1, 2, 3, 4096));
    equal_bytes(rt, written.as_slice(), OVER_IPV6.as_slice());
}

// The segment above with other flags: the bytes of offset and flags, the checksum.
fn flagged(bytes: [u8; 2], checksum: [u8; 2]) -> [u8; 28] {
    let mut segment = PLAIN;
    segment[12] = bytes[0];
    segment[13] = bytes[1];
    segment[16] = checksum[0];
    segment[17] = checksum[1];
    segment
}

fn flag(
    rt: impl Abort + Copy,
    alloc: Global,
    step: PacketBuilderStep<TcpHeader>,
    bytes: [u8; 2],
    checksum: [u8; 2],
) {
    gives(rt, alloc, step, &flagged(bytes, checksum));
}

#[test]
fn flags(rt: HostRuntime) {
    flag(rt, rt.alloc(), tcp().ns(), [0x51, 0x00], [0x0b, 0x6f]);
    flag(rt, rt.alloc(), tcp().fin(), [0x50, 0x01], [0x0c, 0x6e]);
    flag(rt, rt.alloc(), tcp().syn(), [0x50, 0x02], [0x0c, 0x6d]);
    flag(rt, rt.alloc(), tcp().rst(), [0x50, 0x04], [0x0c, 0x6b]);
    flag(rt, rt.alloc(), tcp().psh(), [0x50, 0x08], [0x0c, 0x67]);
    flag(rt, rt.alloc(), tcp().ece(), [0x50, 0x40], [0x0c, 0x2f]);
    flag(rt, rt.alloc(), tcp().cwr(), [0x50, 0x80], [0x0b, 0xef]);
}

const ACKNOWLEDGING: [u8; 28] = [
    0, 1, 0, 2, 0, 0, 0, 3, 0, 0, 0, 7, 0x50, 0x10, 0x10, 0, 0x0c, 0x58, 0, 0, 1, 2, 3, 4, 5, 6, 7,
    8,
];

const URGENT: [u8; 28] = [
    0, 1, 0, 2, 0, 0, 0, 3, 0, 0, 0, 0, 0x50, 0x20, 0x10, 0, 0x0c, 0x46, 0, 9, 1, 2, 3, 4, 5, 6, 7,
    8,
];

#[test]
fn flags_with_fields(rt: HostRuntime) {
    gives(rt, rt.alloc(), tcp().ack(7), &ACKNOWLEDGING);
    gives(rt, rt.alloc(), tcp().urg(9), &URGENT);
}

const WITH_SEGMENT_SIZE: [u8; 32] = [
    0, 1, 0, 2, 0, 0, 0, 3, 0, 0, 0, 0, 0x60, 0, 0x10, 0, 0xf4, 0xb2, 0, 0, 2, 4, 5, 0xb4, 1, 2, 3,
    4, 5, 6, 7, 8,
];

const WITH_BYTES: [u8; 32] = [
    0, 1, 0, 2, 0, 0, 0, 3, 0, 0, 0, 0, 0x60, 0, 0x10, 0, 0xfa, 0x69, 0, 0, 1, 1, 1, 0, 1, 2, 3, 4,
    5, 6, 7, 8,
];

// A step with options, or why they are refused.
type WithOptions = Result<PacketBuilderStep<TcpHeader>, TcpOptionWriteError>;

// The step takes the options and writes this segment.
fn takes_and_gives(rt: impl Abort + Copy, alloc: Global, step: WithOptions, segment: &[u8]) {
    match step {
        Ok(step) => gives(rt, alloc, step, segment),
        Err(_) => fail(rt, "refused options"),
    }
}

#[test]
fn options(rt: HostRuntime) {
    let elements = tcp().options(&[TcpOptionElement::MaximumSegmentSize(1460)]);
    takes_and_gives(rt, rt.alloc(), elements, &WITH_SEGMENT_SIZE);
    takes_and_gives(rt, rt.alloc(), tcp().options_raw(&[1, 1, 1]), &WITH_BYTES);
}

// Why these options are refused, or no refusal.
fn refusal(step: WithOptions) -> Option<TcpOptionWriteError> {
    match step {
        Ok(_) => None,
        Err(error) => Some(error),
    }
}

#[test]
fn options_too_long(rt: HostRuntime) {
    let error = Some(TcpOptionWriteError::NotEnoughSpace(50));
    let elements = [TcpOptionElement::Timestamp(1, 2); 5];
    equal(rt, refusal(tcp().options(&elements)), error);
    let error = Some(TcpOptionWriteError::NotEnoughSpace(41));
    equal(rt, refusal(tcp().options_raw(&[1; 41])), error);
    equal(rt, refusal(tcp().options_raw(&[1; 40])), None);
}

const OF_A_HEADER: [u8; 32] = [
    0, 1, 0, 2, 0, 0, 0, 3, 0, 0, 0, 7, 0x60, 0x12, 0x10, 0, 0xfa, 0x47, 0, 9, 1, 1, 1, 0, 1, 2, 3,
    4, 5, 6, 7, 8,
];

#[test]
fn given_header(rt: HostRuntime) {
    let header = TcpHeader {
        acknowledgment_number: 7,
        ack: true,
        urgent_pointer: 9,
        checksum: 0x1234,
        options: TcpOptions::from([1, 1, 1, 0]),
        ..TcpHeader::new(1, 2, 3, 4096)
    };
    gives(
        rt,
        rt.alloc(),
        ipv4().tcp_header(header).syn(),
        &OF_A_HEADER,
    );
}
