//! Packets of captures by `PacketParser`, whose bytes are passed in chunks: those of the files of the
//! other tests, by values that come with these.
use crate::checks::{equal, holds};
use crate::formats::blocks::TWO_SECTIONS;
use crate::formats::classic::{LITTLE_CUT, LITTLE_MICROSECONDS};
use crate::formats::links::capture;
use crate::formats::long_blocks::{CUSTOM, with_long_block};
use captures::{
    BLOCK_LIMIT, CaptureError, Header, Link, PacketParser, Parsed, ParsedPacket, Position,
    RefusedAt, Unfit,
};
use std::process::Abort;

// The bytes of a file that were passed and aren't done with.
#[derive(Drop)]
struct Window<'a> {
    file: &'a [u8],
    start: usize,
    end: usize,
}

// A window before the first byte of a file.
fn window_of(file: &[u8]) -> Window<'_> {
    Window {
        file,
        start: 0,
        end: 0,
    }
}

impl<'a> Window<'a> {
    fn held(&self, rt: impl Abort + Copy) -> &'a [u8] {
        self.file
            .get(self.start..self.end)
            .expect(&rt, "no such range")
    }

    // Whether more bytes could be passed: as many as this.
    fn grow(&mut self, size: usize) -> bool {
        let end = self.end.saturating_add(size).min(self.file.len());
        let grows = end > self.end;
        self.end = end;
        grows
    }

    // What the parser finds next, with as many more bytes at a time.
    fn next(
        &mut self,
        rt: impl Abort + Copy,
        parser: &mut PacketParser,
        size: usize,
    ) -> Result<(Parsed, &'a [u8]), RefusedAt> {
        for _ in 0..10_000 {
            let held = self.held(rt);
            let parsed = match parser.next(held) {
                Ok(parsed) => parsed,
                Err(refused) => return Err(refused),
            };
            self.start = self.start.saturating_add(parsed.done);
            if parsed.packet.is_some() || !self.grow(size) {
                return Ok((parsed, held));
            }
        }
        Ok((parser.next(&[]).expect(&rt, "refused"), &[]))
    }

    fn packet(
        &mut self,
        rt: impl Abort + Copy,
        parser: &mut PacketParser,
        size: usize,
    ) -> (ParsedPacket, &'a [u8]) {
        let (parsed, held) = self.next(rt, parser, size).expect(&rt, "refused");
        let found = parsed.packet.expect(&rt, "no packet");
        let end = found.offset.saturating_add(found.len);
        let bytes = held.get(found.offset..end).expect(&rt, "no such range");
        (found, bytes)
    }

    // No packet follows, and the capture is whole.
    fn ends(&mut self, rt: impl Abort + Copy, parser: &mut PacketParser, size: usize) {
        let (parsed, _) = self.next(rt, parser, size).expect(&rt, "refused");
        holds(rt, parsed.packet.is_none());
        holds(rt, parser.end(self.held(rt)).is_ok());
    }
}

// The two sections' packets: number, interface, time in nanoseconds, length on the wire, and bytes.
const OF_TWO_SECTIONS: [(u32, u64, u32, &[u8]); 4] = [
    (1, 4_294_967_298_000, 60, b"\x01\x02\x03\x04\x05"),
    (0, 0, 3, b"\xaa\xbb\xcc"),
    (2, 0, 6, b"\x11\x22\x33\x44"),
    (3, 4_294_967_298_000, 2, b"\x55\x66"),
];

#[test]
fn packets_in_chunks(rt: HostRuntime) {
    for size in [1, 7, 320] {
        let mut parser = PacketParser::new(Unfit::Refuse);
        let mut window = window_of(TWO_SECTIONS);
        for wanted in &OF_TWO_SECTIONS {
            let (found, bytes) = window.packet(rt, &mut parser, size);
            equal(rt, found.interface, wanted.0);
            equal(rt, found.time, wanted.1);
            equal(rt, found.wire_len, wanted.2);
            equal(rt, bytes, wanted.3);
            equal(rt, found.link, Link::Ethernet);
            holds(rt, found.header.is_none());
        }
        window.ends(rt, &mut parser, size);
    }
}

// The packet of a link that isn't Ethernet has a header that is made, after the link's own.
#[test]
fn headers_in_chunks(rt: HostRuntime) {
    let packet = b"\0\x04\0\x01\0\x06\x02\0\0\0\0\x01\0\0\x08\0\x45";
    let file = capture(rt, 113, packet.as_slice());
    let mut parser = PacketParser::new(Unfit::Refuse);
    let mut window = window_of(file.as_slice());
    let (found, bytes) = window.packet(rt, &mut parser, 5);
    equal(rt, found.link, Link::Sll);
    equal(
        rt,
        found.header,
        Some(Header {
            source: [2, 0, 0, 0, 0, 1],
            ether_type: 0x0800,
        }),
    );
    equal(rt, bytes, b"\x45".as_slice());
    window.ends(rt, &mut parser, 5);
}

// A capture that ends within its second packet, at the 90th byte, and bytes that are none. A refusal
// stays.
#[test]
fn refused_in_chunks(rt: HostRuntime) {
    let mut parser = PacketParser::new(Unfit::Refuse);
    let cut = LITTLE_MICROSECONDS.get(..120).expect(&rt, "too short");
    let mut window = window_of(cut);
    window.packet(rt, &mut parser, 1);
    let (parsed, _) = window.next(rt, &mut parser, 1).expect(&rt, "refused");
    holds(rt, parsed.packet.is_none());
    let refused = RefusedAt {
        error: CaptureError::CutOff,
        position: Position {
            packet: 2,
            offset: 90,
            block: None,
        },
    };
    equal(rt, parser.end(window.held(rt)).err(), Some(refused));
    let mut parser = PacketParser::new(Unfit::Refuse);
    let none = RefusedAt {
        error: CaptureError::NotCapture,
        position: Position {
            packet: 1,
            offset: 0,
            block: None,
        },
    };
    for _ in 0..2 {
        let bytes = b"these bytes are no capture file".as_slice();
        holds(rt, parser.next(bytes).err() == Some(none));
        equal(rt, parser.end(bytes).err(), Some(none));
    }
}

// Of the packets of scapy's file the first 20 bytes were captured, of 50 and 42.
#[test]
fn cut_packets_in_chunks(rt: HostRuntime) {
    let mut parser = PacketParser::new(Unfit::Refuse);
    let mut window = window_of(LITTLE_CUT);
    for (number, wire_len) in [(1, 50), (2, 42)] {
        let (found, bytes) = window.packet(rt, &mut parser, 3);
        equal(rt, found.number, number);
        equal(rt, found.wire_len, wire_len);
        equal(rt, bytes.len(), 20);
    }
}

// A block that is longer than what is passed at once is done with in chunks.
#[test]
fn long_block_in_chunks(rt: HostRuntime) {
    let file = with_long_block(rt, CUSTOM, 600_000, 600_000);
    for size in [100_000, BLOCK_LIMIT] {
        let mut parser = PacketParser::new(Unfit::Refuse);
        let mut window = window_of(file.as_slice());
        for number in 1..4 {
            let (found, bytes) = window.packet(rt, &mut parser, size);
            equal(rt, found.number, number);
            equal(rt, bytes, b"\xab\xcd".as_slice());
        }
        window.ends(rt, &mut parser, size);
    }
}

// A packet of link type 147 is passed over, and counted.
#[test]
fn skipped_in_chunks(rt: HostRuntime) {
    let file = capture(rt, 147, b"\x01");
    let mut parser = PacketParser::new(Unfit::Skip);
    let mut window = window_of(file.as_slice());
    window.ends(rt, &mut parser, 5);
    equal(rt, parser.skipped().of_other_links, 1);
}
