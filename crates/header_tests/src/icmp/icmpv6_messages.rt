//! ICMPv6 messages of RFC 4443: lengths, bytes and checksums.
use crate::checks::{equal, equal_bytes, fail, is_written, shows};
use ep_base::LenSource;
use ep_base::err::{Layer, LenError};
use ep_icmp::{IcmpEchoHeader, Icmpv6Header, Icmpv6Slice, Icmpv6Type};
use std::process::Abort;

const SOURCE: [u8; 16] = [0xfe, 0x80, 0, 0, 0, 0, 0, 0, 0, 0, 0, 0, 0, 0, 0, 1];

const DESTINATION: [u8; 16] = [0xff, 2, 0, 0, 0, 0, 0, 0, 0, 0, 0, 0, 0, 0, 0, 1];

// An echo request between these addresses.
const PING: [u8; 12] = [128, 0, 0, 0, 0, 1, 0, 1, 0x61, 0x62, 0x63, 0x64];

// A packet too big message between these addresses, of an odd length.
const TOO_BIG: [u8; 11] = [2, 0, 0x98, 0x57, 0, 0, 5, 0xdc, 0x60, 1, 2];

// 38999 is 9857.
const TOO_BIG_HEADER: &str =
    "Icmpv6Header { icmp_type: PacketTooBig { mtu: 1500 }, checksum: 38999 }";

fn too_big() -> Icmpv6Type {
    Icmpv6Type::PacketTooBig { mtu: 1500 }
}

// Why these bytes are refused as a slice and as a header.
fn slice_refusal(bytes: &[u8]) -> Option<LenError> {
    match Icmpv6Slice::from_slice(bytes) {
        Ok(_) => None,
        Err(error) => Some(error),
    }
}

fn header_refusal(bytes: &[u8]) -> Option<LenError> {
    match Icmpv6Header::from_slice(bytes) {
        Ok(_) => None,
        Err(error) => Some(error),
    }
}

fn too_short(len: usize) -> Option<LenError> {
    Some(LenError {
        required_len: 8,
        len,
        len_source: LenSource::Slice,
        layer: Layer::Icmpv6,
        layer_start_offset: 0,
    })
}

fn has_refusals(rt: impl Abort + Copy, bytes: &[u8], error: Option<LenError>) {
    equal(rt, (bytes, slice_refusal(bytes)), (bytes, error));
    equal(rt, (bytes, header_refusal(bytes)), (bytes, error));
}

fn is_taken_from_eight_bytes_on(rt: impl Abort + Copy, bytes: &[u8; 12]) {
    for len in 0..8usize {
        has_refusals(rt, &bytes[..len], too_short(len));
    }
    for len in 8..13usize {
        has_refusals(rt, &bytes[..len], None);
    }
}

#[test]
fn every_prefix_of_a_message(rt: HostRuntime) {
    is_taken_from_eight_bytes_on(rt, &PING);
}

// Every type with each code that has a variant, and one above them.
#[test]
fn every_prefix_of_every_kind(rt: HostRuntime) {
    let mut bytes = [0xa1; 12];
    for type_u8 in 0..=255u8 {
        bytes[0] = type_u8;
        for code_u8 in 0..12u8 {
            bytes[1] = code_u8;
            is_taken_from_eight_bytes_on(rt, &bytes);
        }
    }
}

// Type, code, checksum, the four bytes after it, and the length of the header.
fn numbers(message: &Icmpv6Slice<'_>) -> (u8, u8, u16, [u8; 4], usize) {
    (
        message.type_u8(),
        message.code_u8(),
        message.checksum(),
        message.bytes5to8(),
        message.header_len(),
    )
}

// All bytes, and those after the header.
fn parts<'a>(message: &Icmpv6Slice<'a>) -> [&'a [u8]; 2] {
    [message.slice(), message.payload()]
}

#[test]
fn a_view_of_a_message(rt: HostRuntime) {
    let Ok(message) = Icmpv6Slice::from_slice(&TOO_BIG) else {
        fail(rt, "no message");
    };
    let wanted = (2, 0, 0x9857, [0, 0, 5, 0xdc], 8);
    equal(rt, numbers(&message), wanted);
    equal(rt, parts(&message), [&TOO_BIG, &[0x60, 1, 2]]);
    shows(rt, &message.header(), TOO_BIG_HEADER);
    let copy: Result<_, _> = message.clone();
    equal(rt, copy, Ok(message));
}

#[test]
fn the_header_of_a_message(rt: HostRuntime) {
    let Ok((header, rest)) = Icmpv6Header::from_slice(&TOO_BIG) else {
        fail(rt, "no header");
    };
    shows(rt, &header, TOO_BIG_HEADER);
    equal(rt, rest, [0x60, 1, 2].as_slice());
    let lengths = (header.header_len(), header.fixed_payload_size());
    equal(rt, lengths, (8, None));
    let copy: Result<_, _> = header.clone();
    equal(rt, copy, Ok(header));
}

fn is_valid(
    rt: impl Abort + Copy,
    bytes: &[u8],
    source: [u8; 16],
    destination: [u8; 16],
    wanted: bool,
) {
    match Icmpv6Slice::from_slice(bytes) {
        Ok(message) => {
            let found = message.is_checksum_valid(source, destination);
            equal(rt, (bytes, found), (bytes, wanted));
        }
        Err(_) => fail(rt, "no message"),
    }
}

#[test]
fn a_checksum_that_is_right(rt: HostRuntime) {
    is_valid(rt, &TOO_BIG, SOURCE, DESTINATION, true);
    is_valid(rt, &TOO_BIG, SOURCE, [0; 16], false);
    let changed = [2, 0, 0x98, 0x57, 0, 0, 5, 0xdc, 0x60, 1, 3];
    is_valid(rt, &changed, SOURCE, DESTINATION, false);
}

#[test]
fn both_zeros_are_right(rt: HostRuntime) {
    is_valid(
        rt,
        &[129, 0, 0, 0, 0x7e, 0xbd, 0, 0],
        [0; 16],
        [0; 16],
        true,
    );
    is_valid(
        rt,
        &[129, 0, 0xff, 0xff, 0x7e, 0xbd, 0, 0],
        [0; 16],
        [0; 16],
        true,
    );
    let kind = Icmpv6Type::EchoReply(IcmpEchoHeader { id: 0x7ebd, seq: 0 });
    let sum = kind.calc_checksum([0; 16], [0; 16], &[]);
    equal(rt, sum, Ok(0));
}

#[test]
fn checksums(rt: HostRuntime) {
    let sum = too_big().calc_checksum(SOURCE, DESTINATION, &[0x60, 1, 2]);
    equal(rt, sum, Ok(0x9857));
    let echo = Icmpv6Type::EchoRequest(IcmpEchoHeader { id: 1, seq: 1 });
    let payload = *b"abcdefghijklmnopqrstuvwabcdefghi";
    let sum = echo.calc_checksum(SOURCE, DESTINATION, &payload);
    equal(rt, sum, Ok(0xd771));
}

// The text of a header that is made.
const MADE: &str = "Ok(Icmpv6Header { icmp_type: PacketTooBig { mtu: 1500 }, checksum: 38999 })";

#[test]
fn headers_with_a_checksum(rt: HostRuntime) {
    let sealed = Icmpv6Header::with_checksum(too_big(), SOURCE, DESTINATION, &[0x60, 1, 2]);
    shows(rt, &sealed, MADE);
    let header = too_big().to_header(SOURCE, DESTINATION, &[0x60, 1, 2]);
    shows(rt, &header, MADE);
}

#[test]
fn a_checksum_that_is_set(rt: HostRuntime) {
    let mut header = Icmpv6Header::new(too_big());
    equal(rt, header.checksum, 0);
    let set = header.update_checksum(SOURCE, DESTINATION, &[0x60, 1, 2]);
    equal(rt, set, Ok(()));
    equal_bytes(rt, header.to_bytes().as_slice(), &TOO_BIG[..8]);
}

#[test]
fn a_header_after_a_byte_that_is_there(rt: HostRuntime) {
    let header = Icmpv6Header {
        icmp_type: too_big(),
        checksum: 0x9857,
    };
    let mut buffer = Vec::new(rt.alloc());
    let done = buffer.push(9).is_ok() && header.write(&mut buffer).is_ok();
    let bytes = [9, 2, 0, 0x98, 0x57, 0, 0, 5, 0xdc].as_slice();
    is_written(rt, done, buffer.as_slice(), bytes);
}

#[test]
fn unknown_with_the_numbers_of_another_variant(rt: HostRuntime) {
    let header = Icmpv6Header::new(Icmpv6Type::Unknown {
        type_u8: 1,
        code_u8: 4,
        bytes5to8: [0; 4],
    });
    let bytes = header.to_bytes();
    match Icmpv6Slice::from_slice(bytes.as_slice()) {
        Ok(message) => shows(rt, &message.icmp_type(), "DestinationUnreachable(Port)"),
        Err(_) => fail(rt, "no message"),
    }
}
