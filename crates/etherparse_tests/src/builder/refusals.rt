//! Every refusal, with a buffer that held a byte, which stays as it was; their order; their texts.

use super::parts::{ethernet2, ipv4, ipv6};
use crate::checks::{equal, equal_bytes, have_one_text, held};
use ep_base::IpNumber;
use ep_base::err::{ValueTooBigError, ValueType};
use ep_ext::err::{ipv4_exts, ipv6_exts};
use ep_packet::IpHeaders;
use etherparse::err::packet::BuildWriteError;
use etherparse::{PacketBuilderStep, TransportStep};
use std::alloc::Global;
use std::process::Abort;
use std::test::*;

// The functions below have no contracts, as tests alone call them.

fn zeros(alloc: Global, len: usize) -> Vec<u8> {
    match vec![in alloc; 0u8; len] {
        Ok(zeros) => zeros,
        Err(_) => Vec::new(alloc),
    }
}

// The step refuses so many zeros, and the buffer stays as it was.
pub(super) fn is_refused<L: TransportStep>(
    rt: impl Abort + Copy,
    alloc: Global,
    step: PacketBuilderStep<L>,
    len: usize,
    error: BuildWriteError,
) {
    let mut buffer = held(rt, alloc);
    equal(rt, step.write(&mut buffer, &zeros(alloc, len)), Err(error));
    equal_bytes(rt, buffer.as_slice(), [0xaa].as_slice());
}

// The same with no header after those of IP.
fn is_refused_with(
    rt: impl Abort + Copy,
    alloc: Global,
    step: PacketBuilderStep<IpHeaders>,
    len: usize,
    error: BuildWriteError,
) {
    let mut buffer = held(rt, alloc);
    equal(
        rt,
        step.write(&mut buffer, IpNumber(253), &zeros(alloc, len)),
        Err(error),
    );
    equal_bytes(rt, buffer.as_slice(), [0xaa].as_slice());
}

fn too_long(value_type: ValueType, max_allowed: usize, actual: usize) -> BuildWriteError {
    BuildWriteError::PayloadLen(ValueTooBigError {
        actual,
        max_allowed,
        value_type,
    })
}

#[test]
fn too_long_over_ipv4(rt: HostRuntime) {
    let error = too_long(ValueType::Ipv4PayloadLength, 65515, 65516);
    let raw = ethernet2().ipv4([0; 4], [0; 4], 1);
    is_refused_with(rt, rt.alloc(), raw, 65516, error);
    is_refused(rt, rt.alloc(), ipv4().udp(1, 2), 65508, error);
    is_refused(rt, rt.alloc(), ipv4().icmpv4_echo_reply(1, 2), 65508, error);
    is_refused(rt, rt.alloc(), ipv4().tcp(1, 2, 3, 4), 65496, error);
}

#[test]
fn too_long_over_ipv6(rt: HostRuntime) {
    let error = too_long(ValueType::Ipv6PayloadLength, 65535, 65536);
    is_refused_with(rt, rt.alloc(), ipv6(), 65536, error);
    is_refused(rt, rt.alloc(), ipv6().udp(1, 2), 65528, error);
    is_refused(rt, rt.alloc(), ipv6().icmpv6_echo_reply(1, 2), 65528, error);
    is_refused(rt, rt.alloc(), ipv6().tcp(1, 2, 3, 4), 65516, error);
}

#[test]
fn greatest_lengths_are_written(rt: HostRuntime) {
    let mut buffer = held(rt, rt.alloc());
    let payload = zeros(rt.alloc(), 65507);
    equal(rt, ipv4().udp(1, 2).write(&mut buffer, &payload), Ok(()));
    equal(rt, buffer.len(), (1 + 65535));
    let payload = zeros(rt.alloc(), 65527);
    equal(rt, ipv6().udp(1, 2).write(&mut buffer, &payload), Ok(()));
    equal(rt, buffer.len(), (1 + 65535 + 65575));
}

#[test]
fn length_before_icmpv6_over_ipv4(rt: HostRuntime) {
    let error = too_long(ValueType::Ipv4PayloadLength, 65515, 65516);
    is_refused(
        rt,
        rt.alloc(),
        ipv4().icmpv6_raw(1, 2, [0; 4]),
        65508,
        error,
    );
    let error = BuildWriteError::Icmpv6InIpv4;
    is_refused(
        rt,
        rt.alloc(),
        ipv4().icmpv6_raw(1, 2, [0; 4]),
        65507,
        error,
    );
}

// What each call reports of an error: out of memory, ICMPv6 over IPv4, a length, and faults of
// extension headers.
type Reported = (
    [bool; 2],
    Option<ValueTooBigError<usize>>,
    Option<ipv4_exts::ExtsWalkError>,
    Option<ipv6_exts::ExtsWalkError>,
);

fn reported_by(error: BuildWriteError) -> Reported {
    (
        [error.memory(), error.is_icmpv6_in_ipv4()],
        error.payload_len(),
        error.ipv4_exts(),
        error.ipv6_exts(),
    )
}

#[test]
fn what_errors_without_fields_report(rt: HostRuntime) {
    let described = reported_by(BuildWriteError::Memory);
    equal(rt, described, ([true, false], None, None, None));
    let described = reported_by(BuildWriteError::Icmpv6InIpv4);
    equal(rt, described, ([false, true], None, None, None));
    let described = reported_by(BuildWriteError::ArpHeaderNotMatch);
    equal(rt, described, ([false, false], None, None, None));
}

#[test]
fn what_errors_with_fields_report(rt: HostRuntime) {
    let length = ValueTooBigError {
        actual: 2,
        max_allowed: 1,
        value_type: ValueType::Ipv4PayloadLength,
    };
    let described = reported_by(BuildWriteError::PayloadLen(length));
    equal(rt, described, ([false, false], Some(length), None, None));
    let v4 = ipv4_exts::ExtsWalkError::ExtNotReferenced {
        missing_ext: IpNumber(51),
    };
    let described = reported_by(BuildWriteError::Ipv4Exts(v4));
    equal(rt, described, ([false, false], None, Some(v4), None));
    let v6 = ipv6_exts::ExtsWalkError::HopByHopNotAtStart;
    let described = reported_by(BuildWriteError::Ipv6Exts(v6));
    equal(rt, described, ([false, false], None, None, Some(v6)));
}

#[test]
fn texts(rt: HostRuntime) {
    let wanted = "no memory left for the packet";
    have_one_text(rt, rt.alloc(), &BuildWriteError::Memory, &wanted);
    let wanted = "an ICMPv6 message over IPv4, which has no checksum";
    have_one_text(rt, rt.alloc(), &BuildWriteError::Icmpv6InIpv4, &wanted);
}
