//! Captures, and the packets of those that have one. None of these has a contract: tests alone call
//! them, and are run.

use crate::checks::fail;
use crate::classic_captures::capture_of;
use crate::frames::FRAMES;
use captures::{Packet, Packets, Unfit};
use packets::{Dissection, Dissector};
use std::alloc::Global;
use std::process::Abort;

/// A capture of the first so many frames.
pub(super) fn captured_prefix(rt: impl Abort + Copy, alloc: Global, count: usize) -> Vec<u8> {
    match FRAMES.get(..count) {
        Some(frames) => captured(rt, alloc, 1, frames),
        None => fail(rt, "no so many frames"),
    }
}

/// A capture of these frames.
pub(super) fn captured(
    rt: impl Abort + Copy,
    alloc: Global,
    link_type: u32,
    frames: &[&str],
) -> Vec<u8> {
    let Ok(capture) = capture_of(alloc, link_type, frames) else {
        fail(rt, "no capture");
    };
    capture
}

/// The first packet of a capture.
pub(super) fn first<'a>(rt: impl Abort + Copy, capture: &'a [u8]) -> Packet<'a> {
    let Some(packet) = Packets::new(Unfit::Refuse, capture).next() else {
        fail(rt, "no packet");
    };
    packet
}

/// The dissection of a packet.
pub(super) fn dissected<'a>(
    rt: impl Abort + Copy,
    dissector: &mut Dissector,
    packet: &Packet<'a>,
) -> Dissection<'a> {
    let Ok(dissection) = dissector.dissect(packet, true) else {
        fail(rt, "no memory");
    };
    dissection
}
