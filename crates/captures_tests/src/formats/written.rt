//! Captures that are written.
use crate::checks::{equal, equal_bytes};
use crate::formats::classic::LITTLE_MICROSECONDS;
use crate::packet_lines::{LINES, reports};
use captures::device::ReaderWriter;
use captures::{Header, TimeUnit, Writer, file_header, record_head};
use std::io;

// The frames and times of a file of scapy, whose snap length is 65,535.
#[test]
fn packets_are_those_of_scapy(rt: HostRuntime) {
    let wanted = LITTLE_MICROSECONDS.as_slice();
    let (first, second) = (&wanted[40..90], &wanted[106..]);
    let mut file = Vec::new(rt.alloc());
    let mut nothing = io::empty();
    let mut writer = Writer {
        device: ReaderWriter {
            reader: &mut nothing,
            writer: &mut file,
        },
    };
    equal(rt, writer.write_header(), Ok(()));
    let written = writer.write_packet(1_700_000_000, 250_000, first);
    equal(rt, written, Ok(()));
    let written = writer.write_packet(1_700_000_001, 250_000, second);
    equal(rt, written, Ok(()));
    let file = file.as_slice();
    equal(rt, file.len(), 148);
    equal(rt, file.get(..16), wanted.get(..16));
    equal(rt, file.get(20..), wanted.get(20..));
    reports(rt, file, Ok(()), LINES);
}

// Written down by hand: 1700000000 s and 250000 us, 3 bytes of 9; a file in nanoseconds; and a header
// from 02:00:00:00:00:01 before an IPv4 packet.
#[test]
fn heads_of_packets_and_files(rt: HostRuntime) {
    let head = record_head(1_700_000_000, 250_000, 3, 9);
    let wanted = b"\x00\xf1\x53\x65\x90\xd0\x03\x00\x03\x00\x00\x00\x09\x00\x00\x00";
    equal_bytes(rt, &head, wanted);
    let magic = b"\x4d\x3c\xb2\xa1";
    equal(
        rt,
        file_header(TimeUnit::Nanoseconds).get(..4),
        Some(magic.as_slice()),
    );
    let header = Header {
        source: [2, 0, 0, 0, 0, 1],
        ether_type: 0x0800,
    };
    equal_bytes(
        rt,
        &header.to_bytes(),
        b"\0\0\0\0\0\0\x02\0\0\0\0\x01\x08\0",
    );
}
