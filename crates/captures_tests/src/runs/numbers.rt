//! Numbers of packets in their captures: of those that `Packets` and `PacketReader` give, and where
//! a capture is refused. The files are laid out byte by byte after the formats' descriptions, and
//! tshark 4.0.17 gives their frames these numbers.
//! Calls have no contracts: tests alone make them, and are run.
use crate::checks::{equal, holds, joined, repeated};
use crate::formats::links::{SECTION, capture, interface_of, packet_of};
use crate::packet_lines::{refused, reports_bytes};
use captures::{CaptureError, PacketReader, Packets, Position, ReadError, Unfit};
use fault_devices::FaultReader;
use std::process::Abort;

// The records of a packet of one byte, 45, of one of which no byte was captured, and of one of
// 99,992 bytes, without them.
const RECORD: &[u8; 17] = b"\0\0\0\0\0\0\0\0\0\0\0\x01\0\0\0\x01\x45";

const EMPTY_RECORD: &[u8; 16] = b"\0\0\0\0\0\0\0\0\0\0\0\0\0\0\0\x3c";

const LONG_RECORD: &[u8; 16] = b"\0\0\0\0\0\0\0\0\0\x01\x86\x98\0\x01\x86\x98";

// An enhanced packet of which no byte was captured, of the first interface, an obsolete packet of a
// byte, of the second, and a simple one of a byte.
const EMPTY_BLOCK: &[u8; 32] = b"\x06\0\0\0\x20\0\0\0\0\0\0\0\0\0\0\0\0\0\0\0\
    \0\0\0\0\x3c\0\0\0\x20\0\0\0";

const OBSOLETE_BLOCK: &[u8; 36] = b"\x02\0\0\0\x24\0\0\0\x01\0\0\0\0\0\0\0\0\0\0\0\
    \x01\0\0\0\x01\0\0\0\x45\0\0\0\x24\0\0\0";

const SIMPLE_BLOCK: &[u8; 20] = b"\x03\0\0\0\x14\0\0\0\x01\0\0\0\x45\0\0\0\x14\0\0\0";

// The packets of a file have these numbers, and no others follow.
fn numbers_are(rt: impl Abort + AllocGlobal + Copy, unfit: Unfit, file: &[u8], wanted: &[u64]) {
    let mut packets = Packets::new(unfit, file);
    let input = FaultReader::new(file, 5);
    let mut reader = PacketReader::new(rt.alloc(), unfit, input).expect(&rt, "no memory");
    for number in wanted {
        let packet = packets.next().expect(&rt, "no packet");
        equal(rt, packet.number, *number);
        equal(rt, reader.advance(), Ok(true));
        let same = reader.packet().expect(&rt, "no packet");
        equal(rt, same.number, *number);
    }
    holds(rt, packets.next().is_none());
    holds(rt, packets.refusal().is_none());
    equal(rt, reader.advance(), Ok(false));
}

#[test]
fn packets_of_no_bytes_are_counted(rt: HostRuntime) {
    let file = joined(
        rt,
        &[
            capture(rt, 1, b"").as_slice(),
            RECORD,
            EMPTY_RECORD,
            EMPTY_RECORD,
            RECORD,
            EMPTY_RECORD,
        ],
    );
    numbers_are(rt, Unfit::Refuse, file.as_slice(), &[2, 5]);
    numbers_are(rt, Unfit::Skip, file.as_slice(), &[2, 5]);
}

// Of raw IP the first packet has no frame, and of PPP no packet has one.
#[test]
fn packets_that_are_passed_over_are_counted(rt: HostRuntime) {
    for (link_type, wanted) in [(101, [2, 3].as_slice()), (9, &[])] {
        let first = capture(rt, link_type, b"\x55");
        let file = joined(rt, &[first.as_slice(), RECORD, RECORD]);
        numbers_are(rt, Unfit::Skip, file.as_slice(), wanted);
    }
}

// Interfaces of Ethernet and PPP, and packets in each kind of block: those of PPP are passed over.
// Numbers continue in a second section.
#[test]
fn packets_of_blocks_are_counted(rt: HostRuntime) {
    let section = joined(
        rt,
        &[
            SECTION,
            &interface_of(1),
            &interface_of(9),
            &packet_of(1),
            &packet_of(0),
            EMPTY_BLOCK,
            OBSOLETE_BLOCK,
            SIMPLE_BLOCK,
        ],
    );
    let file = repeated(rt, section.as_slice(), 2);
    numbers_are(rt, Unfit::Skip, file.as_slice(), &[2, 5, 7, 10]);
}

// A file is refused at this packet, after one that is reported, by a run and by a reader.
fn refuses(
    rt: impl Abort + AllocGlobal + Copy,
    file: &[u8],
    error: CaptureError,
    position: Position,
) {
    let Position {
        packet,
        offset,
        block,
    } = position;
    reports_bytes(rt, file, refused(error, packet, offset, block), 11);
    let mut reader = PacketReader::new(rt.alloc(), Unfit::Refuse, file).expect(&rt, "no memory");
    equal(rt, reader.advance(), Ok(true));
    equal(
        rt,
        reader.advance(),
        Err(ReadError::Capture(error, position)),
    );
}

// The number of the packet there, or of the next one.
#[test]
fn refusals_count_packets_of_no_bytes(rt: HostRuntime) {
    let records = joined(
        rt,
        &[
            capture(rt, 1, b"").as_slice(),
            RECORD,
            EMPTY_RECORD,
            LONG_RECORD,
        ],
    );
    let fourth = Position {
        packet: 4,
        offset: 73,
        block: None,
    };
    refuses(
        rt,
        records.as_slice(),
        CaptureError::FrameTooLong(99_992),
        fourth,
    );
    let Some(cut) = records.as_slice().get(..88) else {
        panic!(rt; "too short");
    };
    refuses(rt, cut, CaptureError::CutOff, fourth);
    // A packet of an interface that is not described, and a description that is too short.
    let short = b"\x01\0\0\0\x10\0\0\0\x01\0\0\0\x10\0\0\0";
    for (kind, last) in [(6, packet_of(1).as_slice()), (1, short)] {
        let blocks = joined(
            rt,
            &[SECTION, &interface_of(1), EMPTY_BLOCK, &packet_of(0), last],
        );
        let third = Position {
            packet: 3,
            offset: 116,
            block: Some(kind),
        };
        refuses(rt, blocks.as_slice(), CaptureError::BadBlock, third);
    }
}
