//! Without memory, over every kind of last step. `tools/faults_tried` runs each of these tests once
//! for each of its growths, which is refused then: the step reports that and nothing else, the
//! buffer holds its byte as before, and the same step writes the packet after it.

use super::parts::{PAYLOAD, arp, ethernet2, id, ipv4, ipv6, linux_sll};
use crate::checks::{equal, held};
use ep_base::IpNumber;
use ep_packet::IpHeaders;
use ep_tcpudp::UdpHeader;
use etherparse::err::packet::BuildWriteError;
use etherparse::{PacketBuilderStep, TransportStep};
use std::alloc::Global;
use std::process::Abort;
use std::test::*;

// The functions below have no contracts, as tests alone call them.

// Whether a packet of so many bytes was written after the byte of the buffer. The only refusal is
// that of memory, and then the buffer holds that byte alone.
fn is_written(
    rt: impl Abort + Copy,
    described: Result<(), BuildWriteError>,
    buffer: &[u8],
    len: usize,
) -> bool {
    equal(rt, buffer.first(), Some(&0xaa));
    match described {
        Ok(()) => {
            equal(rt, buffer.len(), len.saturating_add(1));
            true
        }
        Err(error) => {
            equal(rt, error, BuildWriteError::Memory);
            equal(rt, buffer.len(), 1);
            false
        }
    }
}

// The same of two steps, of which the second one finds memory where the first one doesn't.
fn message(
    rt: impl Abort + Copy,
    alloc: Global,
    first: PacketBuilderStep<impl TransportStep>,
    second: PacketBuilderStep<impl TransportStep>,
    len: usize,
) {
    let mut buffer = held(rt, alloc);
    let described = first.write(&mut buffer, &PAYLOAD);
    if !is_written(rt, described, &buffer, len) {
        let described = second.write(&mut buffer, &PAYLOAD);
        equal(rt, is_written(rt, described, &buffer, len), true);
    }
}

#[test]
fn messages_over_ipv4_run_out_of_memory(rt: HostRuntime) {
    message(rt, rt.alloc(), ipv4().udp(1, 2), ipv4().udp(1, 2), 36);
    let (first, second) = (ipv4().tcp(1, 2, 3, 4), ipv4().tcp(1, 2, 3, 4));
    message(rt, rt.alloc(), first, second, 48);
    let (first, second) = (
        ipv4().icmpv4_echo_reply(1, 2),
        ipv4().icmpv4_echo_reply(1, 2),
    );
    message(rt, rt.alloc(), first, second, 36);
}

#[test]
fn messages_over_ipv6_run_out_of_memory(rt: HostRuntime) {
    let (first, second) = (
        ipv6().icmpv6_echo_reply(1, 2),
        ipv6().icmpv6_echo_reply(1, 2),
    );
    message(rt, rt.alloc(), first, second, 56);
    message(rt, rt.alloc(), ipv6().udp(1, 2), ipv6().udp(1, 2), 56);
}

fn tagged() -> PacketBuilderStep<UdpHeader> {
    ethernet2()
        .single_vlan(id(5))
        .ipv4([0; 4], [0; 4], 1)
        .udp(1, 2)
}

fn cooked() -> PacketBuilderStep<UdpHeader> {
    linux_sll().ipv4([0; 4], [0; 4], 1).udp(1, 2)
}

#[test]
fn messages_after_link_headers_run_out_of_memory(rt: HostRuntime) {
    message(rt, rt.alloc(), tagged(), tagged(), 54);
    message(rt, rt.alloc(), cooked(), cooked(), 52);
}

fn payload(
    rt: impl Abort + Copy,
    alloc: Global,
    first: PacketBuilderStep<IpHeaders>,
    second: PacketBuilderStep<IpHeaders>,
    len: usize,
) {
    let mut buffer = held(rt, alloc);
    let described = first.write(&mut buffer, IpNumber(253), &PAYLOAD);
    if !is_written(rt, described, &buffer, len) {
        let described = second.write(&mut buffer, IpNumber(253), &PAYLOAD);
        equal(rt, is_written(rt, described, &buffer, len), true);
    }
}

#[test]
fn payloads_run_out_of_memory(rt: HostRuntime) {
    payload(rt, rt.alloc(), ipv4(), ipv4(), 28);
    payload(rt, rt.alloc(), ipv6(), ipv6(), 48);
}

#[test]
fn arp_packets_run_out_of_memory(rt: HostRuntime) {
    let mut buffer = held(rt, rt.alloc());
    let described = ethernet2().arp(arp(rt)).write(&mut buffer);
    if !is_written(rt, described, &buffer, 42) {
        let described = ethernet2().arp(arp(rt)).write(&mut buffer);
        equal(rt, is_written(rt, described, &buffer, 42), true);
    }
}
