//! Packets of captures by `Packets` and `PacketReader`: those of the files of the other tests, by
//! values that come with these.
use crate::checks::{equal, holds};
use crate::formats::blocks::TWO_SECTIONS;
use crate::formats::classic::{
    BIG_CUT, BIG_MICROSECONDS, BIG_NANOSECONDS, LITTLE_CUT, LITTLE_MICROSECONDS, LITTLE_NANOSECONDS,
};
use crate::formats::links::capture;
use crate::formats::long_blocks::{CUSTOM, with_long_block};
use captures::{
    CaptureError, Header, Link, Packet, PacketReader, Packets, Position, ReadError, Skipped, Unfit,
};
use fault_devices::{Fault, FaultReader};
use std::io::{ErrorKind, Read};
use std::process::Abort;

// The two sections' packets: interface, time in nanoseconds, length on the wire, and bytes.
const OF_TWO_SECTIONS: [(u32, u64, u32, &[u8]); 4] = [
    (1, 4_294_967_298_000, 60, b"\x01\x02\x03\x04\x05"),
    (0, 0, 3, b"\xaa\xbb\xcc"),
    (2, 0, 6, b"\x11\x22\x33\x44"),
    (3, 4_294_967_298_000, 2, b"\x55\x66"),
];

// A reader of this input.
fn reader_of<R: Read + Drop>(
    rt: impl Abort + AllocGlobal + Copy,
    unfit: Unfit,
    input: R,
) -> PacketReader<R> {
    PacketReader::new(rt.alloc(), unfit, input).expect(&rt, "no memory")
}

// The next packet of a reader.
fn next_of<'a, R: Read + Drop>(
    rt: impl Abort + Copy,
    reader: &'a mut PacketReader<R>,
) -> Packet<'a> {
    let next = reader.next_packet().expect(&rt, "no packet");
    next.expect(&rt, "no packet")
}

// No packet follows, and nothing is refused.
fn ends<R: Read + Drop>(rt: impl Abort + Copy, reader: &mut PacketReader<R>) {
    let next = reader.next_packet().expect(&rt, "refused");
    holds(rt, next.is_none());
}

// The interface, the time, the length on the wire and the bytes of a packet.
fn is_of(rt: impl Abort + Copy, packet: &Packet<'_>, wanted: &(u32, u64, u32, &[u8])) {
    equal(rt, packet.interface, wanted.0);
    equal(rt, packet.time, wanted.1);
    equal(rt, packet.wire_len, wanted.2);
    equal(rt, packet.frame.bytes(), wanted.3);
}

#[test]
fn packets_of_two_sections(rt: HostRuntime) {
    for size in [1, 7, 320] {
        let input = FaultReader::new(TWO_SECTIONS, size);
        let mut reader = reader_of(rt, Unfit::Refuse, input);
        let mut packets = Packets::new(Unfit::Refuse, TWO_SECTIONS);
        for wanted in &OF_TWO_SECTIONS {
            let packet = next_of(rt, &mut reader);
            is_of(rt, &packet, wanted);
            equal(rt, packet.link, Link::Ethernet);
            holds(rt, packet.frame.header().is_none());
            equal(rt, packet.frame.len(), wanted.3.len());
            let same = packets.next().expect(&rt, "no packet");
            is_of(rt, &same, wanted);
        }
        ends(rt, &mut reader);
        equal(rt, reader.consumed(), 320);
        holds(rt, packets.next().is_none());
        holds(rt, packets.rest().is_empty());
        holds(rt, packets.refusal().is_none());
    }
}

// The files of scapy hold a packet of 50 bytes and one of 42.
#[test]
fn times_of_packets(rt: HostRuntime) {
    for file in [
        LITTLE_MICROSECONDS,
        BIG_MICROSECONDS,
        LITTLE_NANOSECONDS,
        BIG_NANOSECONDS,
    ] {
        let mut packets = Packets::new(Unfit::Refuse, file);
        for (time, start, end) in [
            (1_700_000_000_250_000_000, 40, 90),
            (1_700_000_001_250_000_000, 106, 148),
        ] {
            let packet = packets.next().expect(&rt, "no packet");
            equal(rt, packet.time, time);
            equal(rt, Some(packet.frame.bytes()), file.get(start..end));
        }
        holds(rt, packets.next().is_none());
    }
}

// Of the packets of scapy's files the first 20 bytes were captured. A wrong record is as it stands.
#[test]
fn cut_packets(rt: HostRuntime) {
    for file in [LITTLE_CUT, BIG_CUT] {
        let mut reader = reader_of(rt, Unfit::Refuse, file.as_slice());
        let mut packets = Packets::new(Unfit::Refuse, file);
        for wire_len in [50, 42] {
            let packet = next_of(rt, &mut reader);
            equal(rt, packet.wire_len, wire_len);
            equal(rt, packet.captured_len(), 20);
            holds(rt, packet.is_cut());
            let same = packets.next().expect(&rt, "no packet");
            equal(rt, same.wire_len, wire_len);
        }
    }
    let mut file = *LITTLE_CUT;
    file[36..40].copy_from_slice(b"\x13\0\0\0");
    let mut packets = Packets::new(Unfit::Refuse, file.as_slice());
    let packet = packets.next().expect(&rt, "no packet");
    equal(rt, packet.wire_len, 19);
    equal(rt, packet.captured_len(), 20);
    holds(rt, !packet.is_cut());
}

const IPV4: Header = Header {
    source: [0; 6],
    ether_type: 0x0800,
};

const COOKED: Header = Header {
    source: [2, 0, 0, 0, 0, 1],
    ether_type: 0x0800,
};

// A header replaces the link's own.
#[test]
fn made_headers(rt: HostRuntime) {
    for (link_type, link, packet, header) in [
        (101, Link::Ip, b"\x45".as_slice(), IPV4),
        (0, Link::Null, b"\x02\0\0\0\x45", IPV4),
        (108, Link::Loop, b"\0\0\0\x02\x45", IPV4),
        (
            113,
            Link::Sll,
            b"\0\x04\0\x01\0\x06\x02\0\0\0\0\x01\0\0\x08\0\x45",
            COOKED,
        ),
    ] {
        let file = capture(rt, link_type, packet);
        let mut reader = reader_of(rt, Unfit::Refuse, file.as_slice());
        let found = next_of(rt, &mut reader);
        equal(rt, found.link, link);
        equal(rt, found.frame.header(), Some(&header));
        equal(rt, found.frame.bytes(), b"\x45".as_slice());
        equal(rt, found.frame.len(), 15);
        equal(rt, found.captured_len(), packet.len());
        holds(rt, !found.is_cut());
    }
}

const FAILS: Fault = Fault::Fails(ErrorKind::Other);

// A read that fails and one that gives nothing within the second packet, whose bytes are read one
// by one. The answer stays, and nothing is read after it.
#[test]
fn ends_within_a_packet(rt: HostRuntime) {
    let cut = ReadError::Capture(
        CaptureError::CutOff,
        Position {
            packet: 2,
            offset: 90,
            block: None,
        },
    );
    for (fault, wanted) in [(FAILS, ReadError::Read), (Fault::MovesNone, cut)] {
        let mut input = FaultReader::failing(LITTLE_MICROSECONDS, 1, 120, fault);
        {
            let mut reader = reader_of(rt, Unfit::Refuse, &mut input);
            next_of(rt, &mut reader);
            for _ in 0..3 {
                equal(rt, reader.next_packet().err(), Some(wanted));
                holds(rt, reader.packet().is_none());
            }
            equal(rt, reader.consumed(), 90);
        }
        equal(rt, input.calls, 121);
    }
}

// A block longer than the buffer is passed, and packets of a link that isn't read are counted.
#[test]
fn passed_over(rt: HostRuntime) {
    let file = with_long_block(rt, CUSTOM, 600_000, 600_000);
    let input = FaultReader::new(file.as_slice(), 100_000);
    let mut reader = reader_of(rt, Unfit::Skip, input);
    for _ in 0..3 {
        let packet = next_of(rt, &mut reader);
        equal(rt, packet.frame.bytes(), b"\xab\xcd".as_slice());
    }
    ends(rt, &mut reader);
    equal(rt, reader.consumed(), (file.len() as u64));
    equal(rt, reader.skipped(), Skipped::NONE);
    let other = capture(rt, 105, b"\x45");
    let mut wireless = reader_of(rt, Unfit::Skip, other.as_slice());
    ends(rt, &mut wireless);
    equal(rt, wireless.skipped().of_other_links, 1);
}

// A packet is given without a read where it is held whole. The first read gives the whole file.
#[test]
fn packets_that_are_held(rt: HostRuntime) {
    let mut input = FaultReader::new(LITTLE_MICROSECONDS, 148);
    {
        let mut reader = reader_of(rt, Unfit::Refuse, &mut input);
        equal(rt, reader.advance_held(), Ok(false));
        holds(rt, reader.packet().is_none());
        equal(rt, reader.advance(), Ok(true));
        equal(rt, reader.advance_held(), Ok(true));
        let packet = reader.packet().expect(&rt, "no packet");
        let bytes = Some(packet.frame.bytes());
        equal(rt, bytes, LITTLE_MICROSECONDS.get(106..148));
        equal(rt, reader.advance_held(), Ok(false));
        holds(rt, reader.packet().is_none());
        equal(rt, reader.advance(), Ok(false));
    }
    equal(rt, input.calls, 2);
}

// A second packet of 99,992 bytes: the refusal leaves no packet, and each call answers as before.
#[test]
fn held_packets_that_are_refused(rt: HostRuntime) {
    let mut file = *LITTLE_MICROSECONDS;
    file[98..102].copy_from_slice(b"\x98\x86\x01\0");
    let mut reader = reader_of(rt, Unfit::Refuse, file.as_slice());
    equal(rt, reader.advance(), Ok(true));
    holds(rt, reader.packet().is_some());
    let position = Position {
        packet: 2,
        offset: 90,
        block: None,
    };
    let wanted = ReadError::Capture(CaptureError::FrameTooLong(99_992), position);
    equal(rt, reader.advance_held(), Err(wanted));
    holds(rt, reader.packet().is_none());
    equal(rt, reader.advance_held(), Ok(false));
    holds(rt, reader.packet().is_none());
    equal(rt, reader.advance(), Err(wanted));
}

// The first packet ends at byte 90. Of the second, ten bytes are there at first.
#[test]
fn packets_of_bytes_go_on(rt: HostRuntime) {
    let file = LITTLE_MICROSECONDS;
    let mut packets = Packets::new(Unfit::Refuse, &file[..100]);
    let packet = packets.next().expect(&rt, "no packet");
    equal(rt, Some(packet.frame.bytes()), file.get(40..90));
    holds(rt, packets.next().is_none());
    holds(rt, packets.refusal().is_none());
    equal(rt, Some(packets.rest()), file.get(90..100));
    let mut packets = packets.go_on(&file[90..]);
    let packet = packets.next().expect(&rt, "no packet");
    equal(rt, Some(packet.frame.bytes()), file.get(106..148));
    holds(rt, packets.next().is_none());
    holds(rt, packets.rest().is_empty());
    equal(rt, packets.skipped(), Skipped::NONE);
    let other = capture(rt, 105, b"\x45");
    let mut wireless = Packets::new(Unfit::Skip, other.as_slice());
    holds(rt, wireless.next().is_none());
    equal(rt, wireless.skipped().of_other_links, 1);
}
