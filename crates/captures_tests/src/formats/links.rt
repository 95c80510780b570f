//! Packets of other links than Ethernet, laid out as tcpdump.org/linktypes.html says.
//! Calls have no contracts: tests alone make them, and are run.
use crate::checks::{append, joined, repeated};
use crate::packet_lines::{refused, reports, reports_bytes, reports_skipping};
use captures::{CaptureError, Skipped};
use std::process::Abort;

// A classic capture of one packet.
pub fn capture(rt: impl Abort + AllocGlobal + Copy, link_type: u8, packet: &[u8]) -> Vec<u8> {
    // Link type 276 is written as 1 and 20.
    let high = if link_type == 20 { 1 } else { 0 };
    let len = ((packet.len() % 0x1_0000_0000) as u32).to_be_bytes();
    joined(
        rt,
        &[
            b"\xa1\xb2\xc3\xd4\x00\x02\x00\x04\0\0\0\0\0\0\0\0\x00\x04\x00\x00\x00\x00",
            &[high, link_type, 0, 0, 0, 0, 0, 0, 0, 0],
            &len,
            &len,
            packet,
        ],
    )
}

const NO_FRAME: Option<&str> = None;

const IPV4: Option<&str> = Some("frame 0 000000000000000000000000080045\n");

const IPV6: Option<&str> = Some("frame 0 00000000000000000000000086dd60\n");

const IPV4_FROM: Option<&str> = Some("frame 0 000000000000020000000001080045\n");

// The type of each link, a packet, and its line.
#[rattlefmt::skip]
const PACKETS: &[(u8, &[u8], Option<&str>)] = &[
    // Raw IP: the version is in the first four bits.
    (12, b"\x45", IPV4),
    (14, b"\x60", IPV6),
    (101, b"\x45", IPV4),
    (228, b"\x45", IPV4),
    (229, b"\x60", IPV6),
    (101, b"\x55", NO_FRAME),
    // An address family in either byte order.
    (0, b"\x02\0\0\0\x45", IPV4),
    (0, b"\0\0\0\x02\x45", IPV4),
    (0, b"\x18\0\0\0\x60", IPV6),
    (0, b"\x1c\0\0\0\x60", IPV6),
    (0, b"\0\0\0\x1e\x60", IPV6),
    (0, b"\x0a\0\0\0\x60", IPV6),
    (0, b"\x07\0\0\0\x60", NO_FRAME),
    (0, b"\x02\0\0", NO_FRAME),
    (108, b"\0\0\0\x02\x45", IPV4),
    (108, b"\0\0\0\x18\x60", IPV6),
    (108, b"\x02\0\0\0\x45", NO_FRAME),
    (108, b"\0\0\x02", NO_FRAME),
    // Cooked captures: of an Ethernet card, of a tunnel without addresses, and of 802.2.
    (113, b"\0\x04\0\x01\0\x06\x02\0\0\0\0\x01\0\0\x08\0\x45", IPV4_FROM),
    (113, b"\0\0\xff\xfe\0\0\0\0\0\0\0\0\0\0\x86\xdd\x60", IPV6),
    (113, b"\0\0\0\x01\0\x08\x01\x02\x03\x04\x05\x06\x07\x08\x08\0\x45", IPV4),
    (113, b"\0\x01\0\x01\0\x06\x02\0\0\0\0\x01\0\0\0\x04\x42", NO_FRAME),
    // Of frame relay, radiotap and netlink, and of a tunnel of GRE.
    (113, b"\0\0\x03\x02\0\0\0\0\0\0\0\0\0\0\x08\0\x45", NO_FRAME),
    (113, b"\0\0\x03\x23\0\0\0\0\0\0\0\0\0\0\x08\0\x45", NO_FRAME),
    (113, b"\0\0\x03\x38\0\0\0\0\0\0\0\0\0\0\x08\0\x45", NO_FRAME),
    (113, b"\0\0\x03\x0a\0\0\0\0\0\0\0\0\0\0\x08\0\x45", IPV4),
    // Ether types begin with 1536.
    (113, b"\0\0\0\x01\0\0\0\0\0\0\0\0\0\0\x05\xdd\x45", NO_FRAME),
    (113, b"\0\0\0\x01\0\0\0\0\0\0\0\0\0\0\x05\xff\x45", NO_FRAME),
    (113, b"\0\0\0\x01\0\0\0\0\0\0\0\0\0\0\x06\0\x45", Some("frame 0 000000000000000000000000060045\n")),
    // Addresses of one byte, five and seven.
    (113, b"\0\0\0\x01\0\x01\x02\0\0\0\0\x01\0\0\x08\0\x45", IPV4),
    (113, b"\0\0\0\x01\0\x05\x02\0\0\0\0\x01\0\0\x08\0\x45", IPV4),
    (113, b"\0\0\0\x01\0\x07\x02\0\0\0\0\x01\0\0\x08\0\x45", IPV4),
    (20, b"\x08\0\0\0\0\0\0\x02\0\x01\x04\x05\x02\0\0\0\0\x01\0\0\x45", IPV4),
    (113, b"\0\x04\0\x01\0\x06\x02\0\0\0\0\x01\0\0\x08", NO_FRAME),
    (20, b"\x08\0\0\0\0\0\0\x02\0\x01\x04\x06\x02\0\0\0\0\x01\0\0\x45", IPV4_FROM),
    (20, b"\x86\xdd\0\0\0\0\0\x07\xff\xfe\x04\0\0\0\0\0\0\0\0\0\x60", IPV6),
    (20, b"\0\x04\0\0\0\0\0\x02\0\x01\x01\x06\x02\0\0\0\0\x01\0\0\x42", NO_FRAME),
    (20, b"\x08\0\0\0\0\0\0\x02\x03\x23\0\0\0\0\0\0\0\0\0\0\x45", NO_FRAME),
    (20, b"\x08\0\0\0\0\0\0\x02\0\x01\x04\x06\x02\0\0\0\0\x01\0", NO_FRAME),
    // Nothing was captured.
    (113, b"", Some("")),
];

#[test]
fn frame_of_each_link(rt: HostRuntime) {
    for (link_type, packet, line) in PACKETS.iter() {
        let (wanted, line) = match *line {
            Some(line) => (Ok(()), line),
            None => (refused(CaptureError::NoFrame, 1, 24, None), ""),
        };
        let file = capture(rt, *link_type, *packet);
        reports(rt, file.as_slice(), wanted, line.as_bytes());
    }
}

// A packet of this length that begins so, and else is 0.
fn filled(rt: impl Abort + AllocGlobal + Copy, prefix: &[u8], len: usize) -> Vec<u8> {
    let zeros = repeated(rt, b"\0", len.saturating_sub(prefix.len()));
    joined(rt, &[prefix, zeros.as_slice()])
}

// As many bytes as a line holds, after a header of 14 instead of none, of 4, 16 and 20.
#[test]
fn longest_packets(rt: HostRuntime) {
    let ip = b"\x45".as_slice();
    let null = b"\x02\0\0\0".as_slice();
    let openbsd = b"\0\0\0\x02".as_slice();
    let cooked = b"\0\x04\0\x01\0\x06\x02\0\0\0\0\x01\0\0\x08\0".as_slice();
    let cooked_2 = b"\x08\0\0\0\0\0\0\x02\0\x01\x04\x06\x02\0\0\0\0\x01\0\0".as_slice();
    let too_long = |count| refused(CaptureError::FrameTooLong(count), 1, 24, None);
    for (link_type, prefix, len, wanted, line_len) in [
        (101, ip, 99_977, Ok(()), 199_991),
        (101, ip, 99_978, too_long(99_978), 0),
        (0, null, 99_981, Ok(()), 199_991),
        (0, null, 99_982, too_long(99_982), 0),
        (108, openbsd, 99_981, Ok(()), 199_991),
        (108, openbsd, 99_982, too_long(99_982), 0),
        (20, cooked_2, 99_997, Ok(()), 199_991),
        (20, cooked_2, 99_998, too_long(99_998), 0),
        (113, cooked, 99_993, Ok(()), 199_991),
        (113, cooked, 99_994, too_long(99_994), 0),
    ] {
        let packet = filled(rt, prefix, len);
        let file = capture(rt, link_type, packet.as_slice());
        reports_bytes(rt, file.as_slice(), wanted, line_len);
    }
}

pub const SECTION: &[u8; 28] = b"\
    \x0a\x0d\x0d\x0a\x1c\x00\x00\x00\x4d\x3c\x2b\x1a\x01\x00\x00\x00\xff\xff\xff\xff\
    \xff\xff\xff\xff\x1c\x00\x00\x00";

// The description of an interface of this link.
pub fn interface_of(link_type: u8) -> [u8; 20] {
    let mut block = *b"\x01\0\0\0\x14\0\0\0\0\0\0\0\0\0\0\0\x14\0\0\0";
    block[8] = link_type;
    block
}

// A packet of one byte, 45, of this interface.
pub fn packet_of(interface: u8) -> [u8; 36] {
    let mut block = *b"\x06\0\0\0\x24\0\0\0\0\0\0\0\0\0\0\0\0\0\0\0\
        \x01\0\0\0\x01\0\0\0\x45\0\0\0\x24\0\0\0";
    block[8] = interface;
    block
}

// Interfaces of three links, and a packet of each: the last one's is the first's again, in a
// simple packet.
#[test]
fn links_of_a_section(rt: HostRuntime) {
    let file = joined(
        rt,
        &[
            SECTION,
            &interface_of(101),
            &interface_of(108),
            &interface_of(1),
            b"\x06\0\0\0\x28\0\0\0\x02\0\0\0\0\0\0\0\0\0\0\0",
            b"\x03\0\0\0\x03\0\0\0\x01\x02\x03\0\0\0\0\0\x28\0\0\0",
            b"\x06\0\0\0\x28\0\0\0\0\0\0\0\0\0\0\0\0\0\0\0",
            b"\x01\0\0\0\x01\0\0\0\x45\0\0\0\0\0\0\0\x28\0\0\0",
            b"\x06\0\0\0\x28\0\0\0\x01\0\0\0\0\0\0\0\0\0\0\0",
            b"\x05\0\0\0\x05\0\0\0\0\0\0\x02\x45\0\0\0\x28\0\0\0",
            b"\x03\0\0\0\x14\0\0\0\x01\0\0\0\x60\0\0\0\x14\0\0\0",
        ],
    );
    let lines = b"frame 2 010203\n\
        frame 0 000000000000000000000000080045\n\
        frame 1 000000000000000000000000080045\n\
        frame 0 00000000000000000000000086dd60\n";
    reports(rt, file.as_slice(), Ok(()), lines);
}

// An interface of LINUX_SLL2 (276), as `dumpcap -i any` describes it.
#[test]
fn cooked_interface_of_a_section(rt: HostRuntime) {
    let file = joined(
        rt,
        &[
            SECTION,
            b"\x01\0\0\0\x14\0\0\0\x14\x01\0\0\0\0\x04\0\x14\0\0\0",
            b"\x06\0\0\0\x38\0\0\0\0\0\0\0\0\0\0\0\0\0\0\0\x15\0\0\0\x15\0\0\0",
            b"\x08\0\0\0\0\0\0\x02\0\x01\x04\x06\x02\0\0\0\0\x01\0\0\x45\0\0\0",
            b"\x38\0\0\0",
        ],
    );
    let line = b"frame 0 000000000000020000000001080045\n";
    reports(rt, file.as_slice(), Ok(()), line);
}

// An interface of PPP is refused at its first packet alone.
#[test]
fn interface_of_another_link(rt: HostRuntime) {
    let unused = joined(
        rt,
        &[SECTION, &interface_of(9), &interface_of(1), &packet_of(1)],
    );
    reports(rt, unused.as_slice(), Ok(()), b"frame 1 45\n");
    for (block, kind) in [
        (packet_of(0).as_slice(), 6),
        (b"\x03\0\0\0\x14\0\0\0\x01\0\0\0\x45\0\0\0\x14\0\0\0", 3),
        // No byte of it was captured.
        (b"\x03\0\0\0\x10\0\0\0\0\0\0\0\x10\0\0\0", 3),
    ] {
        let used = joined(rt, &[unused.as_slice(), &packet_of(1), block]);
        let wanted = refused(CaptureError::LinkType(9), 3, 140, Some(kind));
        reports(rt, used.as_slice(), wanted, b"frame 1 45\nframe 1 45\n");
    }
}

// The 32nd interface of a section may have any link, the 33rd has to be Ethernet.
#[test]
fn link_of_the_33rd_interface(rt: HostRuntime) {
    let limit = |number| refused(CaptureError::InterfaceLimit(number), 1, 668, Some(1));
    let actual = b"frame 32 45\nframe 31 000000000000000000000000080045\n".as_slice();
    for (last, next, wanted, lines) in [
        (101, 1, Ok(()), actual),
        (
            9,
            1,
            refused(CaptureError::LinkType(9), 2, 724, Some(6)),
            b"frame 32 45\n",
        ),
        (101, 101, limit(101), b""),
        (101, 9, limit(9), b""),
    ] {
        let mut file = joined(rt, &[SECTION]);
        for _ in 0..31 {
            append(rt, &mut file, &[&interface_of(1)]);
        }
        append(rt, &mut file, &[&interface_of(last), &interface_of(next)]);
        // A packet of the 33rd, and one of the 32nd.
        append(rt, &mut file, &[&packet_of(32), &packet_of(31)]);
        reports(rt, file.as_slice(), wanted, lines);
    }
}

// 40 interfaces of raw IP, without packets.
#[test]
fn many_interfaces_of_another_link(rt: HostRuntime) {
    let interfaces = repeated(rt, &interface_of(101), 40);
    let file = joined(rt, &[SECTION, interfaces.as_slice()]);
    let wanted = refused(CaptureError::InterfaceLimit(101), 1, 668, Some(1));
    reports(rt, file.as_slice(), wanted, b"");
    reports_skipping(rt, file.as_slice(), wanted, b"", Skipped::NONE);
    let Some(described) = file.as_slice().get(..668) else {
        panic!(rt; "too short");
    };
    reports(rt, described, Ok(()), b"");
}
