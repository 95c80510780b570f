//! Messages that are read and judged. Bytes and checksums were worked out by hand and by a separate
//! program after RFC 768, 792, 1071, 4443 and 9293.
use crate::checks::equal;
use ep_base::err::{Layer, LenError};
use ep_base::{IpNumber, LenSource};
use ep_packet::err::packet::SliceError;
use ep_tcpudp::err::tcp::HeaderError;
use netlines::{Addresses, Message, Verdict, judge, read_message};
use std::process::Abort;
use std::test::*;

const OVER_V4: Addresses = Addresses::V4 {
    source: [10, 0, 0, 1],
    destination: [10, 0, 0, 2],
};

const OVER_V6: Addresses = Addresses::V6 {
    source: [0xfd, 0, 0, 0, 0, 0, 0, 0, 0, 0, 0, 0, 0, 0, 0, 1],
    destination: [0xfd, 0, 0, 0, 0, 0, 0, 0, 0, 0, 0, 0, 0, 0, 0, 2],
};

// The verdict on a message with this number; `None` where it can't be read.
fn verdict(addresses: &Addresses, number: u8, message: &[u8]) -> Option<Verdict> {
    match read_message(IpNumber(number), message) {
        Ok(message) => Some(judge(addresses, &message)),
        Err(_) => None,
    }
}

const UDP: &[u8] = &[0, 1, 0, 2, 0, 0x10, 0xdb, 0xb4, 1, 2, 3, 4, 5, 6, 7, 8];

const UDP_WITHOUT_CHECKSUM: &[u8] = &[0, 1, 0, 2, 0, 8, 0, 0];

const ECHO: &[u8] = &[0x80, 0, 0x24, 0x51, 0, 1, 0, 2, 0x61, 0x62];

const SEGMENT: &[u8] = &[
    0, 1, 0, 2, 0, 0, 0, 3, 0, 0, 0, 0, 0x50, 2, 4, 0, 0x97, 0xda, 0, 0,
];

// The IP version, a number, a message, and the expected verdict.
const VERDICTS: &[(u8, u8, &[u8], Verdict)] = &[
    // All ones.
    (4, 1, &[0, 0, 0, 0, 0, 0, 0, 0], Verdict::Bad),
    (4, 1, &[0xff, 0xff, 0, 0, 0, 0, 0, 0], Verdict::Good),
    (4, 1, &[0xff, 0xff, 0xff, 0xff, 0, 0, 0, 0], Verdict::Good),
    // Without a checksum.
    (6, 1, &[0xff, 0xff, 0, 0, 0, 0, 0, 0], Verdict::None),
    (4, 58, &[0x80, 0, 0, 0, 0, 0, 0, 0], Verdict::None),
    (4, 17, UDP_WITHOUT_CHECKSUM, Verdict::None),
    (6, 17, UDP_WITHOUT_CHECKSUM, Verdict::None),
    (4, 253, &[], Verdict::None),
    // With one.
    (4, 17, UDP, Verdict::Good),
    (6, 17, UDP, Verdict::Bad),
    (6, 58, ECHO, Verdict::Good),
    (4, 6, SEGMENT, Verdict::Good),
];

fn is_judged(rt: impl Abort + Copy, version: u8, number: u8, message: &[u8], wanted: Verdict) {
    let addresses = if version == 6 { &OVER_V6 } else { &OVER_V4 };
    let actual = verdict(addresses, number, message);
    equal(
        rt,
        (version, number, actual),
        (version, number, Some(wanted)),
    );
}

#[test]
fn verdicts(rt: HostRuntime) {
    for (version, number, message, wanted) in VERDICTS.iter() {
        is_judged(rt, *version, *number, message, *wanted);
    }
}

// The verdict on an echo reply of zeros with this checksum and a payload, to whose sum it adds
// nothing else.
fn verdict_of_reply(checksum: u16, payload: &[u8]) -> Option<Verdict> {
    let mut message = [0; 138];
    message[2..4].copy_from_slice(&checksum.to_be_bytes());
    let len = payload.len().min(130);
    message[8..8 + len].copy_from_slice(&payload[..len]);
    verdict(&OVER_V4, 1, &message[..8 + len])
}

// Words of ffff and of 0, and 16 words 0101 followed by 0100.
const WORKED_ROWS: &[(u16, &[u8], Verdict)] = &[
    (0, &[0xff; 64], Verdict::Good),
    (0xffff, &[0xff; 64], Verdict::Good),
    (0xffff, &[0; 64], Verdict::Good),
    (0, &[0; 64], Verdict::Bad),
    (0xeeef, &[1; 33], Verdict::Good),
    (0xefee, &[1; 33], Verdict::Bad),
];

#[test]
fn payloads_of_one_byte_repeated(rt: HostRuntime) {
    for (checksum, payload, wanted) in WORKED_ROWS.iter() {
        let actual = verdict_of_reply(*checksum, payload);
        equal(rt, (*checksum, actual), (*checksum, Some(*wanted)));
    }
}

// A payload with its checksum, and with one more.
fn is_judged_by_checksum(rt: impl Abort + Copy, payload: &[u8], checksum: u16) {
    let actual = [
        verdict_of_reply(checksum, payload),
        verdict_of_reply(checksum ^ 1, payload),
    ];
    equal(rt, actual, [Some(Verdict::Good), Some(Verdict::Bad)]);
}

// Payloads of 1, 2, 3, .. of each length up to 130, of which the longest are summed in lanes.
#[test]
fn payloads_of_every_length(rt: HostRuntime) {
    let mut payload = [0u8; 131];
    let mut byte = 0u8;
    let mut total = 0u32;
    for len in 0..=130usize {
        let checksum = (65535 - total % 65535) as u16;
        is_judged_by_checksum(rt, &payload[..len], checksum);
        byte = byte.wrapping_add(1);
        payload[len] = byte;
        let weight = if len % 2 == 0 { 256 } else { 1 };
        total = total.wrapping_add(u32::from(byte) * weight);
    }
}

// What a message is read as, 1 to 5, and its length; nothing where it can't be read.
fn kind_and_len(number: u8, bytes: &[u8]) -> (u8, usize) {
    match read_message(IpNumber(number), bytes) {
        Ok(Message::Icmpv4(message)) => (1, message.slice().len()),
        Ok(Message::Tcp(message)) => (2, message.slice().len()),
        Ok(Message::Udp(message)) => (3, message.slice().len()),
        Ok(Message::Icmpv6(message)) => (4, message.slice().len()),
        Ok(Message::Raw(message)) => (5, message.len()),
        Err(_) => (0, 0),
    }
}

const BYTES: &[u8] = &[
    0xff, 0xff, 0, 0, 0, 8, 0, 0, 0, 0, 0, 0, 0x50, 0, 0, 0, 0, 0, 0, 0,
];

const KINDS: &[(u8, (u8, usize))] = &[
    (1, (1, 20)),
    (6, (2, 20)),
    (17, (3, 8)),
    (58, (4, 20)),
    (0, (5, 20)),
    (253, (5, 20)),
];

#[test]
fn a_message_is_the_slice_of_its_protocol(rt: HostRuntime) {
    for (number, wanted) in KINDS.iter() {
        equal(
            rt,
            (*number, kind_and_len(*number, BYTES)),
            (*number, *wanted),
        );
    }
}

// The error of a message that can't be read.
fn fault(number: u8, message: &[u8]) -> Option<SliceError> {
    read_message(IpNumber(number), message).err()
}

// A number, a message, how many bytes are required, and in which layer.
const REFUSALS: &[(u8, &[u8], usize, Layer)] = &[
    (1, &[0; 7], 8, Layer::Icmpv4),
    (6, &[0; 19], 20, Layer::TcpHeader),
    (17, &[0; 7], 8, Layer::UdpHeader),
    (58, &[0; 7], 8, Layer::Icmpv6),
    (1, &[13, 0, 0, 0, 0, 0, 0, 0], 20, Layer::Icmpv4Timestamp),
];

fn requires_bytes(
    rt: impl Abort + Copy,
    number: u8,
    message: &[u8],
    required_len: usize,
    layer: Layer,
) {
    let wanted = LenError {
        required_len,
        len: message.len(),
        len_source: LenSource::Slice,
        layer,
        layer_start_offset: 0,
    };
    equal(rt, fault(number, message), Some(SliceError::Len(wanted)));
}

#[test]
fn refusals_of_messages(rt: HostRuntime) {
    for (number, message, required_len, layer) in REFUSALS.iter() {
        requires_bytes(rt, *number, message, *required_len, *layer);
    }
}

#[test]
fn refusal_of_a_data_offset(rt: HostRuntime) {
    let mut segment = [0; 20];
    segment[12] = 0x40;
    let too_small = HeaderError::DataOffsetTooSmall { data_offset: 4 };
    equal(rt, fault(6, &segment), Some(SliceError::Tcp(too_small)));
}
