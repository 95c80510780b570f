//! Every prefix of one frame of each kind: where lengths determine how long a frame is, no prefix
//! of it is taken. The bytes were worked out by hand after IEEE 802.3, 802.1Q and 802.1AE and RFC
//! 791, 792, 826, 4302, 4443, 8200 and 9293.
use crate::checks::equal;
use ep_packet::{NetSlice, SlicedPacket};
use std::process::Abort;
use std::test::*;

// The functions below have no contracts, as tests alone call them.

fn is_taken(frame: &[u8]) -> bool {
    SlicedPacket::from_ethernet(frame).is_ok()
}

// Whether the frame is taken, and no proper prefix of it is.
fn is_taken_alone(frame: &[u8]) -> bool {
    for len in 0..frame.len() {
        if is_taken(&frame[..len]) {
            return false;
        }
    }
    is_taken(frame)
}

// Whether there are a message, an ARP packet and a payload after an ether type, and how many tags.
fn parts(frame: &[u8]) -> Option<([bool; 3], usize)> {
    match SlicedPacket::from_ethernet(frame) {
        Ok(packet) => Some((
            [
                packet.transport.is_some(),
                matches!(packet.net, Some(NetSlice::Arp(_))),
                packet.ether_payload().is_some(),
            ],
            packet.link_exts.len(),
        )),
        Err(_) => None,
    }
}

fn taken_alone(rt: impl Abort + Copy, frame: &[u8], kinds: [bool; 3], tags: usize) {
    equal(
        rt,
        (is_taken_alone(frame), parts(frame)),
        (true, Some((kinds, tags))),
    );
}

// TCP over IPv4, both with options of four bytes, and one byte of payload.
const TCP_WITH_OPTIONS: [u8; 63] = [
    0, 0, 0, 0, 0, 0, 0, 0, 0, 0, 0, 0, 8, 0, 0x46, 0, 0, 49, 0, 7, 0, 0, 64, 6, 0, 0, 10, 0, 0, 1,
    10, 0, 0, 2, 1, 1, 1, 0, 0, 1, 0, 2, 0, 0, 0, 3, 0, 0, 0, 0, 0x60, 2, 4, 0, 0, 0, 0, 0, 2, 4,
    5, 180, 9,
];

// An echo request of ICMP over IPv4, after two VLAN tags and an authentication header.
const ICMPV4_AFTER_TAGS: [u8; 62] = [
    0, 0, 0, 0, 0, 0, 0, 0, 0, 0, 0, 0, 0x88, 0xa8, 0, 5, 0x81, 0, 0, 9, 8, 0, 0x45, 0, 0, 40, 0,
    7, 0, 0, 64, 51, 0, 0, 10, 0, 0, 1, 10, 0, 0, 2, 1, 1, 0, 0, 0, 0, 0, 1, 0, 0, 0, 2, 8, 0, 0,
    0, 0, 1, 0, 2,
];

// An echo request of ICMP over IPv6, after each kind of extension header.
const ICMPV6_AFTER_EXTENSIONS: [u8; 106] = [
    0, 0, 0, 0, 0, 0, 0, 0, 0, 0, 0, 0, 0x86, 0xdd, 0x60, 0, 0, 0, 0, 52, 0, 64, 0, 0, 0, 0, 0, 0,
    0, 0, 0, 0, 0, 0, 0, 0, 0, 0, 0, 0, 0, 0, 0, 0, 0, 0, 0, 0, 0, 0, 0, 0, 0, 0, 60, 0, 0, 0, 0,
    0, 0, 0, 43, 0, 0, 0, 0, 0, 0, 0, 0x2c, 0, 0, 0, 0, 0, 0, 0, 51, 0, 0, 0, 0, 0, 0, 0, 58, 1, 0,
    0, 0, 0, 0, 1, 0, 0, 0, 2, 128, 0, 0, 0, 0, 1, 0, 2,
];

// A whole ARP request, of addresses of six and of four bytes.
const ARP: [u8; 42] = [
    0, 0, 0, 0, 0, 0, 0, 0, 0, 0, 0, 0, 8, 6, 0, 1, 8, 0, 6, 4, 0, 1, 0, 0, 0, 0, 0, 0, 0, 0, 0, 0,
    0, 0, 0, 0, 0, 0, 0, 0, 0, 0,
];

// Encrypted bytes, as many as a MACsec header with an identifier of its channel counts.
const ENCRYPTED: [u8; 31] = [
    0, 0, 0, 0, 0, 0, 0, 0, 0, 0, 0, 0, 0x88, 0xe5, 0x2c, 3, 0, 0, 0, 1, 0, 0, 0, 0, 0, 0, 0, 0, 0,
    0, 0,
];

#[test]
fn frames_that_are_taken_alone(rt: HostRuntime) {
    taken_alone(rt, &TCP_WITH_OPTIONS, [true, false, true], 0);
    taken_alone(rt, &ICMPV4_AFTER_TAGS, [true, false, true], 2);
    taken_alone(rt, &ICMPV6_AFTER_EXTENSIONS, [true, false, true], 0);
    taken_alone(rt, &ARP, [false, true, true], 0);
    taken_alone(rt, &ENCRYPTED, [false, false, false], 1);
}
