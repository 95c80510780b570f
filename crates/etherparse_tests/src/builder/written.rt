//! What steps of the builder write. The functions have no contracts: tests alone call them, and are
//! run.

use super::parts::PAYLOAD;
use crate::checks::equal;
use ep_base::IpNumber;
use ep_packet::IpHeaders;
use etherparse::{PacketBuilderStep, TransportStep};
use std::alloc::Global;
use std::process::Abort;
use std::test::*;

/// What the step writes with the payload of packets; fails where it is refused.
pub fn message<L: TransportStep>(
    rt: impl Abort + Copy,
    alloc: Global,
    step: PacketBuilderStep<L>,
) -> Vec<u8> {
    let mut buffer = Vec::new(alloc);
    equal(rt, step.write(&mut buffer, &PAYLOAD), Ok(()));
    buffer
}

/// What the step writes with a payload of this number; fails where it is refused.
pub fn packet(
    rt: impl Abort + Copy,
    alloc: Global,
    step: PacketBuilderStep<IpHeaders>,
    number: IpNumber,
    payload: &[u8],
) -> Vec<u8> {
    let mut buffer = Vec::new(alloc);
    equal(rt, step.write(&mut buffer, number, payload), Ok(()));
    buffer
}
