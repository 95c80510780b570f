//! A TCP segment with options, built.

use etherparse::{PacketBuilder, TcpOptionElement};
use std::alloc::Global;

/// The frame of the first segment of a connection from port 1 to port 80. Its options offer segments of 1460
/// bytes and a window scale of 7. The builder sets lengths, numbers and checksums. It has no contract: what
/// the program prints is compared with what is stored.
pub fn first_segment(alloc: Global, sequence_number: u32) -> anyhow::Result<Vec<u8>> {
    let options = [
        TcpOptionElement::MaximumSegmentSize(1460),
        TcpOptionElement::Noop,
        TcpOptionElement::WindowScale(7),
    ];
    let segment = PacketBuilder::ethernet2([2, 0, 0, 0, 0, 1], [2, 0, 0, 0, 0, 2])
        .ipv4([10, 0, 0, 1], [10, 0, 0, 2], 64)
        .tcp(1, 80, sequence_number, 1024)
        .syn()
        .options(&options)?;
    let mut frame = Vec::new(alloc);
    segment.write(&mut frame, &[])?;
    Ok(frame)
}
