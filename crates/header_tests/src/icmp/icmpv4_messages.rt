//! ICMPv4 messages of RFC 792: lengths, bytes and checksums.
use crate::checks::{equal, equal_bytes, fail, is_written, shows};
use ep_base::LenSource;
use ep_base::err::{Layer, LenError};
use ep_icmp::icmpv4::*;
use ep_icmp::{IcmpEchoHeader, Icmpv4Header, Icmpv4Slice, Icmpv4Type};
use std::process::Abort;

// An echo request with identifier and sequence number 1, as `ping` of Windows sends it.
const PING: [u8; 40] = [
    8, 0, 0x4d, 0x5a, 0, 1, 0, 1, 0x61, 0x62, 0x63, 0x64, 0x65, 0x66, 0x67, 0x68, 0x69, 0x6a, 0x6b,
    0x6c, 0x6d, 0x6e, 0x6f, 0x70, 0x71, 0x72, 0x73, 0x74, 0x75, 0x76, 0x77, 0x61, 0x62, 0x63, 0x64,
    0x65, 0x66, 0x67, 0x68, 0x69,
];

// A timestamp request and a byte after it.
const TIMESTAMP: [u8; 21] = [
    13, 0, 0xbc, 0xa0, 0x12, 0x34, 0, 1, 1, 2, 3, 4, 5, 6, 7, 8, 9, 10, 11, 12, 0xff,
];

// 4660 is 1234, 16909060 is 01020304, 84281096 is 05060708 and 151653132 is 090a0b0c.
const TIMESTAMP_FIELDS: &str = "TimestampMessage { id: 4660, seq: 1, \
    originate_timestamp: 16909060, receive_timestamp: 84281096, \
    transmit_timestamp: 151653132 }";

fn timestamp_message() -> TimestampMessage {
    TimestampMessage::from_bytes([0x12, 0x34, 0, 1, 1, 2, 3, 4, 5, 6, 7, 8, 9, 10, 11, 12])
}

fn echo_request() -> Icmpv4Type {
    Icmpv4Type::EchoRequest(IcmpEchoHeader { id: 1, seq: 1 })
}

// Why these bytes are refused as a slice and as a header.
fn slice_refusal(bytes: &[u8]) -> Option<LenError> {
    match Icmpv4Slice::from_slice(bytes) {
        Ok(_) => None,
        Err(error) => Some(error),
    }
}

fn header_refusal(bytes: &[u8]) -> Option<LenError> {
    match Icmpv4Header::from_slice(bytes) {
        Ok(_) => None,
        Err(error) => Some(error),
    }
}

fn is_refused(rt: impl Abort + Copy, bytes: &[u8], required_len: usize, layer: Layer) {
    let error = Some(LenError {
        required_len,
        len: bytes.len(),
        len_source: LenSource::Slice,
        layer,
        layer_start_offset: 0,
    });
    equal(rt, (bytes, slice_refusal(bytes)), (bytes, error));
    equal(rt, (bytes, header_refusal(bytes)), (bytes, error));
}

fn is_taken(rt: impl Abort + Copy, bytes: &[u8]) {
    equal(rt, (bytes, slice_refusal(bytes)), (bytes, None));
    equal(rt, (bytes, header_refusal(bytes)), (bytes, None));
}

// Each prefix of these bytes: of fewer than eight it is refused, else it is taken.
fn is_taken_from_eight_bytes_on(rt: impl Abort + Copy, bytes: &[u8]) {
    for len in 0..8usize {
        is_refused(rt, bytes.split_at(len.min(bytes.len())).0, 8, Layer::Icmpv4);
    }
    for len in 8..=bytes.len() {
        is_taken(rt, bytes.split_at(len.min(bytes.len())).0);
    }
}

#[test]
fn every_prefix_of_an_echo_request(rt: HostRuntime) {
    is_taken_from_eight_bytes_on(rt, &PING);
}

// Each prefix and the whole of a timestamp message and a byte after it.
fn twenty_bytes_are_taken(rt: impl Abort + Copy, bytes: &[u8; 21], layer: Layer) {
    for len in 0..8usize {
        is_refused(rt, &bytes[..len], 8, Layer::Icmpv4);
    }
    for len in 8..20usize {
        is_refused(rt, &bytes[..len], 20, layer);
    }
    is_taken(rt, &bytes[..20]);
    is_refused(rt, bytes, 20, layer);
}

#[test]
fn every_prefix_of_timestamp_messages(rt: HostRuntime) {
    twenty_bytes_are_taken(rt, &TIMESTAMP, Layer::Icmpv4Timestamp);
    let mut reply = TIMESTAMP;
    reply[0] = 14;
    twenty_bytes_are_taken(rt, &reply, Layer::Icmpv4TimestampReply);
}

// Every type with each code that has a variant, and one above them: each kind but the timestamp
// messages.
#[test]
fn every_prefix_of_every_other_kind(rt: HostRuntime) {
    let mut bytes = [0xa1; 12];
    for type_u8 in 0..=255u8 {
        bytes[0] = type_u8;
        for code_u8 in 0..17u8 {
            bytes[1] = code_u8;
            if code_u8 != 0 || type_u8 != 13 && type_u8 != 14 {
                is_taken_from_eight_bytes_on(rt, &bytes);
            }
        }
    }
}

#[test]
fn timestamp_types_of_another_code(rt: HostRuntime) {
    let mut bytes = TIMESTAMP;
    bytes[1] = 1;
    is_taken_from_eight_bytes_on(rt, &bytes);
}

// Type, code, checksum, the four bytes after it, and the length of the header.
fn numbers(message: &Icmpv4Slice<'_>) -> (u8, u8, u16, [u8; 4], usize) {
    (
        message.type_u8(),
        message.code_u8(),
        message.checksum(),
        message.bytes5to8(),
        message.header_len(),
    )
}

// All bytes, and those after the header.
fn parts<'a>(message: &Icmpv4Slice<'a>) -> [&'a [u8]; 2] {
    [message.slice(), message.payload()]
}

// 19802 is 4d5a.
const PING_HEADER: &str =
    "Icmpv4Header { icmp_type: EchoRequest(IcmpEchoHeader { id: 1, seq: 1 }), checksum: 19802 }";

#[test]
fn a_view_of_an_echo_request(rt: HostRuntime) {
    let Ok(message) = Icmpv4Slice::from_slice(&PING) else {
        fail(rt, "no message");
    };
    equal(rt, numbers(&message), (8, 0, 0x4d5a, [0, 1, 0, 1], 8));
    equal(rt, parts(&message), [&PING, &PING[8..]]);
    shows(rt, &message.header(), PING_HEADER);
    let copy: Result<_, _> = message.clone();
    equal(rt, copy, Ok(message));
}

#[test]
fn the_header_of_an_echo_request(rt: HostRuntime) {
    let Ok((header, rest)) = Icmpv4Header::from_slice(&PING) else {
        fail(rt, "no header");
    };
    shows(rt, &header, PING_HEADER);
    equal(rt, rest, &PING[8..]);
    let lengths = (header.header_len(), header.fixed_payload_size());
    equal(rt, lengths, (8, None));
    let copy: Result<_, _> = header.clone();
    equal(rt, copy, Ok(header));
}

#[test]
fn a_view_of_a_timestamp_request(rt: HostRuntime) {
    let bytes = &TIMESTAMP[..20];
    let Ok(message) = Icmpv4Slice::from_slice(bytes) else {
        fail(rt, "no message");
    };
    let wanted = (13, 0, 0xbca0, [0x12, 0x34, 0, 1], 20);
    equal(rt, numbers(&message), wanted);
    equal(rt, parts(&message), [bytes, &[]]);
    let header = Icmpv4Header {
        icmp_type: Icmpv4Type::TimestampRequest(timestamp_message()),
        checksum: 0xbca0,
    };
    equal(rt, message.header(), header);
}

#[test]
fn the_header_of_a_timestamp_request(rt: HostRuntime) {
    let header = Icmpv4Header {
        icmp_type: Icmpv4Type::TimestampRequest(timestamp_message()),
        checksum: 0xbca0,
    };
    let lengths = (header.header_len(), header.fixed_payload_size());
    equal(rt, lengths, (20, Some(0)));
    equal_bytes(rt, header.to_bytes().as_slice(), &TIMESTAMP[..20]);
}

#[test]
fn a_timestamp_reply(rt: HostRuntime) {
    let mut bytes = TIMESTAMP;
    bytes[0] = 14;
    bytes[2] = 0xbb;
    let kind = Icmpv4Type::TimestampReply(timestamp_message());
    let lengths = (kind.header_len(), kind.fixed_payload_size());
    equal(rt, lengths, (20, Some(0)));
    let Ok(message) = Icmpv4Slice::from_slice(&bytes[..20]) else {
        fail(rt, "no message");
    };
    let read = message.icmp_type();
    equal(rt, read, Icmpv4Type::TimestampReply(timestamp_message()));
    let written = Icmpv4Header::with_checksum(kind, &[]).to_bytes();
    equal_bytes(rt, written.as_slice(), &bytes[..20]);
}

#[test]
fn fields_and_their_bytes(rt: HostRuntime) {
    let echo = IcmpEchoHeader::from_bytes([1, 2, 3, 4]);
    // 258 is 0102, 772 is 0304.
    shows(rt, &echo, "IcmpEchoHeader { id: 258, seq: 772 }");
    equal(rt, echo.to_bytes(), [1, 2, 3, 4]);
    shows(rt, &timestamp_message(), TIMESTAMP_FIELDS);
}

#[test]
fn checksums(rt: HostRuntime) {
    let ping = echo_request().calc_checksum(&PING[8..]);
    equal(rt, ping, 0x4d5a);
    let request = Icmpv4Type::TimestampRequest(timestamp_message());
    equal(rt, request.calc_checksum(&[]), 0xbca0);
    // An odd last byte is followed by a zero byte.
    let network = Icmpv4Type::DestinationUnreachable(DestUnreachableHeader::Network);
    equal(rt, network.calc_checksum(&[0x45, 0, 1]), 0xb6ff);
    // 0 stays 0.
    let zero = Icmpv4Type::EchoRequest(IcmpEchoHeader { id: 0xf7ff, seq: 0 });
    equal(rt, zero.calc_checksum(&[]), 0);
}

#[test]
fn an_echo_reply_of_zeros(rt: HostRuntime) {
    let kind = Icmpv4Type::EchoReply(IcmpEchoHeader { id: 0, seq: 0 });
    let mut header = Icmpv4Header::new(kind);
    equal_bytes(rt, header.to_bytes().as_slice(), [0; 8].as_slice());
    header.update_checksum(&[]);
    let bytes = [0, 0, 0xff, 0xff, 0, 0, 0, 0].as_slice();
    equal(rt, header.to_bytes().as_slice(), bytes);
}

#[test]
fn a_header_after_a_byte_that_is_there(rt: HostRuntime) {
    let header = Icmpv4Header::with_checksum(echo_request(), &PING[8..]);
    let mut buffer = Vec::new(rt.alloc());
    let done = buffer.push(9).is_ok() && header.write(&mut buffer).is_ok();
    let bytes = [9, 8, 0, 0x4d, 0x5a, 0, 1, 0, 1].as_slice();
    is_written(rt, done, buffer.as_slice(), bytes);
}

#[test]
fn unknown_with_the_numbers_of_another_variant(rt: HostRuntime) {
    let header = Icmpv4Header::new(Icmpv4Type::Unknown {
        type_u8: 3,
        code_u8: 1,
        bytes5to8: [0; 4],
    });
    let bytes = header.to_bytes();
    match Icmpv4Slice::from_slice(bytes.as_slice()) {
        Ok(message) => shows(rt, &message.icmp_type(), "DestinationUnreachable(Host)"),
        Err(_) => fail(rt, "no message"),
    }
}
