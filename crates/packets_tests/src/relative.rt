//! What numbers of TCP are counted from, at literal values, and the bytes of packets.

use crate::captured::{captured, dissected, first};
use crate::checks::{equal, fail, holds, is_text};
use crate::frames::FRAMES;
use etherparse::{Addresses, IpNumber};
use packets::{
    Connections, Conversation, Dissector, InitialNumbers, KNOWN_CONNECTIONS, LineWriter, Ports,
    Segment, ShowLines, ShowOptions, ShownBytes, Style, TimeForm,
};
use std::alloc::Global;
use std::hash::{BuildHasherDefault, FoldHasher};
use std::process::Abort;

type Known = Connections<BuildHasherDefault<FoldHasher>>;

fn connections(rt: impl Abort + Copy, alloc: Global) -> Known {
    let Ok(connections) = Connections::with_hasher(alloc, BuildHasherDefault::new()) else {
        fail(rt, "no memory");
    };
    connections
}

// A segment with ACK from this port of 10.0.0.1 to port 80 of 10.0.0.2, or back, with SYN or without.
fn segment(port: u16, ascends: bool, syn: bool, numbers: (u32, u32)) -> Segment {
    let (sequence_number, acknowledgment_number) = numbers;
    Segment {
        conversation: Conversation {
            addresses: Addresses::V4 {
                source: [10, 0, 0, 1],
                destination: [10, 0, 0, 2],
            },
            ports: Some(Ports {
                source: port,
                destination: 80,
            }),
            protocol: IpNumber::TCP,
        },
        ascends,
        syn,
        ack: true,
        sequence_number,
        acknowledgment_number,
    }
}

fn initial_numbers(sequence: u32, acknowledgment: u32) -> InitialNumbers {
    InitialNumbers {
        sequence,
        acknowledgment,
    }
}

fn is_taken(rt: impl Abort + Copy, known: &mut Known, segment: &Segment, wanted: InitialNumbers) {
    match known.take(segment) {
        Ok(initial_numbers) => equal(rt, initial_numbers, wanted),
        Err(_) => fail(rt, "no memory"),
    }
}

// By the first segment with ACK of a connection, and by each with SYN too.
#[test]
fn numbers_of_a_connection(rt: HostRuntime) {
    let mut known = connections(rt, rt.alloc());
    let mut first = segment(5000, true, true, (7, 0));
    first.ack = false;
    is_taken(rt, &mut known, &first, InitialNumbers::NONE);
    let answer = segment(5000, false, true, (1000, 0));
    is_taken(rt, &mut known, &answer, InitialNumbers::NONE);
    let next = segment(5000, true, false, (0, 1001));
    is_taken(rt, &mut known, &next, initial_numbers(u32::MAX, 1000));
    let back = segment(5000, false, false, (1001, 4));
    is_taken(rt, &mut known, &back, initial_numbers(1000, u32::MAX));
    is_taken(
        rt,
        &mut known,
        &segment(5000, true, true, (50, 60)),
        InitialNumbers::NONE,
    );
    is_taken(rt, &mut known, &next, initial_numbers(50, 59));
    is_taken(
        rt,
        &mut known,
        &segment(5001, false, false, (3, 4)),
        InitialNumbers::NONE,
    );
    is_taken(
        rt,
        &mut known,
        &segment(5001, true, false, (4, 3)),
        initial_numbers(3, 3),
    );
}

// One more than are known: the one of which no segment came for the longest time begins anew.
#[test]
fn connections_that_are_forgotten(rt: HostRuntime) {
    let mut known = connections(rt, rt.alloc());
    for port in 0..KNOWN_CONNECTIONS {
        let segment = segment(port as u16, true, false, (10, 20));
        is_taken(rt, &mut known, &segment, InitialNumbers::NONE);
    }
    let oldest = segment(0, true, false, (11, 20));
    is_taken(rt, &mut known, &oldest, initial_numbers(10, 19));
    let mut other = segment(0, true, false, (70, 80));
    other.conversation.ports = None;
    is_taken(rt, &mut known, &other, InitialNumbers::NONE);
    is_taken(rt, &mut known, &oldest, initial_numbers(10, 19));
    is_taken(
        rt,
        &mut known,
        &segment(2, true, false, (11, 20)),
        initial_numbers(10, 19),
    );
    is_taken(
        rt,
        &mut known,
        &segment(1, true, false, (11, 20)),
        InitialNumbers::NONE,
    );
}

// The first frame has SYN without ACK.
#[test]
fn segments_of_packets(rt: HostRuntime) {
    let mut dissector = Dissector::new(rt.alloc());
    let capture = captured(rt, rt.alloc(), 1, FRAMES);
    let packet = first(rt, capture.as_slice());
    let dissection = dissected(rt, &mut dissector, &packet);
    let Some(segment) = Segment::of(&dissection) else {
        fail(rt, "no segment");
    };
    let numbers = (segment.sequence_number, segment.acknowledgment_number);
    equal(rt, numbers, (17, 0));
    equal(
        rt,
        (segment.ascends, segment.syn, segment.ack),
        (true, true, false),
    );
    let datagram = captured(rt, rt.alloc(), 1, &[FRAMES[8]]);
    let packet = first(rt, datagram.as_slice());
    let dissection = dissected(rt, &mut dissector, &packet);
    holds(rt, Segment::of(&dissection).is_none());
}

const OPTIONS: ShowOptions = ShowOptions {
    style: Style::Plain,
    time: TimeForm::Local,
    width: None,
    link: false,
    bytes: ShownBytes::AfterLink,
};

const BYTES: &str = "\t0x0000:  4500 001e 0001 0000 4011 66cc 0a00 0002  E.......@.f.....\n\
    \t0x0010:  0a00 0001 0007 0009 000a 0000 7879       ............xy\n";

// Without a zone local times are those of UTC.
#[test]
fn lines_with_bytes(rt: HostRuntime) {
    let mut dissector = Dissector::new(rt.alloc());
    let datagram = captured(rt, rt.alloc(), 1, &[FRAMES[8]]);
    let packet = first(rt, datagram.as_slice());
    let dissection = dissected(rt, &mut dissector, &packet);
    let mut text = Vec::new(rt.alloc());
    holds(rt, OPTIONS.write_line(&dissection, &mut text).is_ok());
    let line =
        "    1 2023-11-14T22:13:20.000000+00:00 10.0.0.2.7 > 10.0.0.1.9 UDP len 2  no checksum";
    is_text(rt, text.as_slice(), line);
    let mut text = Vec::new(rt.alloc());
    holds(rt, OPTIONS.write_bytes(&dissection, &mut text).is_ok());
    is_text(rt, text.as_slice(), BYTES);
    let lines = ShowLines::new(
        OPTIONS,
        jiff::tz::TimeZone::UTC,
        Some(connections(rt, rt.alloc())),
    );
    let mut text = Vec::new(rt.alloc());
    holds(
        rt,
        LineWriter::write_line(&lines, &dissection, &mut text).is_ok(),
    );
    is_text(rt, text.as_slice(), line);
}
