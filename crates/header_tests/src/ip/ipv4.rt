//! IPv4 headers and their options against values from outside.

use crate::checks::{equal, equal_bytes, fail, is_written, shows};
use ep_base::err::{Layer, LenError, ValueTooBigError};
use ep_base::{IpFragOffset, IpNumber, LenSource};
use ep_ip::err::ipv4::{HeaderError, HeaderSliceError};
use ep_ip::laws::ipv4 as laws;
use ep_ip::{Ipv4Header, Ipv4HeaderSlice, Ipv4Options};
use std::cmp::Ordering;
use std::hash::FoldHasher;
use std::net::Ipv4Addr;
use std::process::Abort;
use std::test::*;

// A header with four bytes of options, written by hand after RFC 791, and two bytes after it.
const BYTES: [u8; 26] = [
    0x46, 0x21, 0, 30, 0, 7, 0x20, 5, 64, 17, 0x43, 0x9f, 10, 0, 0, 1, 10, 0, 0, 2, 1, 1, 1, 0,
    0xaa, 0xbb,
];

// Its fields, read by hand: length in words, code point, congestion, time to live and protocol;
// total length, identification, offset and checksum; whether it is not to be fragmented, has more
// fragments, and is a fragment's.
const IN_BYTES: [u8; 5] = [6, 8, 1, 64, 17];

const IN_WORDS: [u16; 4] = [30, 7, 5, 0x439f];

const FLAGS: [bool; 3] = [false, true, true];

fn in_bytes(header: &Ipv4Header) -> [u8; 5] {
    [
        header.ihl(),
        header.dscp.value(),
        header.ecn.value(),
        header.time_to_live,
        header.protocol.0,
    ]
}

fn in_words(header: &Ipv4Header) -> [u16; 4] {
    [
        header.total_len,
        header.identification,
        header.fragment_offset.value(),
        header.header_checksum,
    ]
}

fn flags(header: &Ipv4Header) -> [bool; 3] {
    [
        header.dont_fragment,
        header.more_fragments,
        header.is_fragmenting_payload(),
    ]
}

fn has_the_fields(rt: impl Abort + Copy, header: &Ipv4Header) {
    equal(rt, in_bytes(header), IN_BYTES);
    equal(rt, in_words(header), IN_WORDS);
    equal(rt, flags(header), FLAGS);
    let addresses = [header.source, header.destination];
    equal(rt, addresses, [[10, 0, 0, 1], [10, 0, 0, 2]]);
    equal_bytes(rt, header.options.as_slice(), [1, 1, 1, 0].as_slice());
}

#[test]
fn fields_by_position(rt: HostRuntime) {
    let Ok((header, rest)) = Ipv4Header::from_slice(&BYTES) else {
        fail(rt, "no header");
    };
    has_the_fields(rt, &header);
    equal(rt, rest, [0xaa, 0xbb].as_slice());
    equal(rt, (header.header_len(), header.payload_len()), (24, Ok(6)));
}

fn in_bytes_of_view(header: &Ipv4HeaderSlice<'_>) -> [u8; 5] {
    [
        header.ihl(),
        header.dcp().value(),
        header.ecn().value(),
        header.ttl(),
        header.protocol().0,
    ]
}

fn in_words_of_view(header: &Ipv4HeaderSlice<'_>) -> [u16; 4] {
    [
        header.total_len(),
        header.identification(),
        header.fragments_offset().value(),
        header.header_checksum(),
    ]
}

fn flags_of_view(header: &Ipv4HeaderSlice<'_>) -> [bool; 3] {
    [
        header.dont_fragment(),
        header.more_fragments(),
        header.is_fragmenting_payload(),
    ]
}

#[test]
fn fields_of_a_view(rt: HostRuntime) {
    let Ok(header) = Ipv4HeaderSlice::from_slice(&BYTES) else {
        fail(rt, "no header");
    };
    equal(rt, header.version(), 4);
    equal(rt, in_bytes_of_view(&header), IN_BYTES);
    equal(rt, in_words_of_view(&header), IN_WORDS);
    equal(rt, flags_of_view(&header), FLAGS);
    has_the_fields(rt, &header.to_header());
}

// All bytes and those of the options, and the addresses.
fn parts<'a>(header: &Ipv4HeaderSlice<'a>) -> ([&'a [u8]; 2], [[u8; 4]; 2]) {
    (
        [header.slice(), header.options()],
        [header.source(), header.destination()],
    )
}

#[test]
fn parts_of_a_view(rt: HostRuntime) {
    let Ok(header) = Ipv4HeaderSlice::from_slice(&BYTES) else {
        fail(rt, "no header");
    };
    let addresses = [[10, 0, 0, 1], [10, 0, 0, 2]];
    let wanted = ([&BYTES[..24], &[1, 1, 1, 0]], addresses);
    equal(rt, parts(&header), wanted);
    equal(rt, header.payload_len(), Ok(6));
}

#[test]
fn addresses_of_a_view(rt: HostRuntime) {
    let Ok(header) = Ipv4HeaderSlice::from_slice(&BYTES) else {
        fail(rt, "no header");
    };
    equal(rt, header.source_addr(), Ipv4Addr::new(10, 0, 0, 1));
    equal(rt, header.destination_addr(), Ipv4Addr::new(10, 0, 0, 2));
}

// Why these bytes are no view of a header and no header.
fn refusal(bytes: &[u8]) -> Option<HeaderSliceError> {
    match Ipv4HeaderSlice::from_slice(bytes) {
        Ok(_) => None,
        Err(error) => Some(error),
    }
}

fn header_refusal(bytes: &[u8]) -> Option<HeaderSliceError> {
    match Ipv4Header::from_slice(bytes) {
        Ok(_) => None,
        Err(error) => Some(error),
    }
}

fn too_short(required_len: usize, len: usize) -> Option<HeaderSliceError> {
    Some(HeaderSliceError::Len(LenError {
        required_len,
        len,
        len_source: LenSource::Slice,
        layer: Layer::Ipv4Header,
        layer_start_offset: 0,
    }))
}

fn is_refused(rt: impl Abort + Copy, bytes: &[u8], error: Option<HeaderSliceError>) {
    equal(rt, refusal(bytes), error);
    equal(rt, header_refusal(bytes), error);
}

#[test]
fn every_prefix_of_a_header(rt: HostRuntime) {
    for len in 0..20usize {
        is_refused(rt, &BYTES[..len], too_short(20, len));
    }
    for len in 20..24usize {
        is_refused(rt, &BYTES[..len], too_short(24, len));
    }
}

// A byte, how often it is repeated, and why that is no header.
#[rattlefmt::skip]
const FAULTS: &[(u8, usize, &str)] = &[
    (0x63, 20, "Some(Content(UnexpectedVersion { version_number: 6 }))"),
    (0x43, 20, "Some(Content(HeaderLengthSmallerThanHeader { ihl: 3 }))"),
    (
        0x4f,
        20,
        "Some(Len(LenError { required_len: 60, len: 20, len_source: Slice, layer: Ipv4Header, \
            layer_start_offset: 0 }))",
    ),
    (
        0x63,
        19,
        "Some(Len(LenError { required_len: 20, len: 19, len_source: Slice, layer: Ipv4Header, \
            layer_start_offset: 0 }))",
    ),
];

#[test]
fn faults_in_order(rt: HostRuntime) {
    for (byte, len, refused) in FAULTS.iter() {
        let bytes = [*byte; 20];
        let (prefix, _) = bytes.split_at((*len).min(20));
        shows(rt, &refusal(prefix), refused);
    }
}

// From byte 14 on to 18, and to the greatest offset that a `usize` holds.
#[test]
fn errors_at_later_offsets(rt: HostRuntime) {
    let error = LenError::too_few_bytes(Layer::Ipv4Header, 20, 19).add_offset(14);
    let moved = HeaderSliceError::Len(error).add_slice_offset(4);
    let wanted = "Len(LenError { required_len: 20, len: 19, len_source: Slice, \
        layer: Ipv4Header, layer_start_offset: 18 })";
    shows(rt, &moved, wanted);
    let last = HeaderSliceError::Len(error).add_slice_offset(0xffff_ffff_ffff_fff1);
    let wanted = "Len(LenError { required_len: 20, len: 19, len_source: Slice, \
        layer: Ipv4Header, layer_start_offset: 18446744073709551615 })";
    shows(rt, &last, wanted);
    let content = HeaderSliceError::Content(HeaderError::UnexpectedVersion { version_number: 6 });
    equal(rt, content.add_slice_offset(4), content);
    equal(rt, content.add_slice_offset(0xffff_ffff_ffff_ffff), content);
}

// More fragments and an offset, each set or not, and whether the header is a fragment's.
const FRAGMENTS: &[(bool, u16, bool)] = &[
    (false, 0, false),
    (false, 1, true),
    (true, 0, true),
    (true, 8191, true),
];

fn header_with(more_fragments: bool, offset: u16) -> Ipv4Header {
    let mut header = Ipv4Header::default();
    header.more_fragments = more_fragments;
    header.fragment_offset = IpFragOffset::try_new(offset).unwrap_or(IpFragOffset::ZERO);
    header
}

#[test]
fn fragments(rt: HostRuntime) {
    for (more_fragments, offset, is_fragment) in FRAGMENTS.iter() {
        let header = header_with(*more_fragments, *offset);
        equal(rt, header.fragment_offset.value(), *offset);
        let wanted = (*more_fragments, *offset, *is_fragment);
        let found = header.is_fragmenting_payload();
        equal(rt, (*more_fragments, *offset, found), wanted);
        let bytes = header.to_bytes();
        let Ok(view) = Ipv4HeaderSlice::from_slice(bytes.as_slice()) else {
            fail(rt, "no view");
        };
        let found = view.is_fragmenting_payload();
        equal(rt, (*more_fragments, *offset, found), wanted);
    }
}

#[test]
fn default_header(rt: HostRuntime) {
    let header = Ipv4Header::default();
    equal(rt, in_bytes(&header), [5, 0, 0, 0, 255]);
    equal(rt, in_words(&header), [0, 0, 0, 0]);
    equal(rt, flags(&header), [true, false, false]);
    equal(rt, [header.source, header.destination], [[0; 4]; 2]);
    equal_bytes(rt, header.options.as_slice(), [].as_slice());
}

#[test]
fn total_length_below_the_header(rt: HostRuntime) {
    let mut header = Ipv4Header::default();
    header.total_len = 19;
    let error = "Err(LenError { required_len: 20, len: 19, len_source: Ipv4HeaderTotalLen, \
        layer: Ipv4Packet, layer_start_offset: 0 })";
    shows(rt, &header.payload_len(), error);
}

// A header with no options, whose checksum was summed by hand.
fn header_without_options() -> Result<Ipv4Header, ValueTooBigError<u16>> {
    Ipv4Header::new(8, 64, IpNumber::UDP, [10, 0, 0, 1], [10, 0, 0, 2])
}

// The header after a byte that is there, with the checksum that is computed, and once more with
// its own, which is 0.
#[test]
fn written_after_a_byte(rt: HostRuntime) {
    let Ok(header) = header_without_options() else {
        fail(rt, "no header");
    };
    let mut buffer = Vec::new(rt.alloc());
    let done = buffer.push(9).is_ok()
        && header.write(&mut buffer).is_ok()
        && header.write_raw(&mut buffer).is_ok();
    let written = [
        9, 0x45, 0, 0, 28, 0, 0, 0x40, 0, 64, 17, 0x26, 0xcf, 10, 0, 0, 1, 10, 0, 0, 2, 0x45, 0, 0,
        28, 0, 0, 0x40, 0, 64, 17, 0, 0, 10, 0, 0, 1, 10, 0, 0, 2,
    ];
    is_written(rt, done, buffer.as_slice(), written.as_slice());
}

#[test]
fn the_checksum_of_a_header_without_options(rt: HostRuntime) {
    let Ok(mut header) = header_without_options() else {
        fail(rt, "no header");
    };
    equal(rt, header.dont_fragment, true);
    equal(rt, header.calc_header_checksum(), 0x26cf);
    equal(rt, header.header_checksum, 0);
    header.identification = 0x26cf;
    equal(rt, header.calc_header_checksum(), 0);
}

#[test]
fn bytes_of_a_header_with_options(rt: HostRuntime) {
    let Ok((header, _)) = Ipv4Header::read_from_slice(&BYTES) else {
        fail(rt, "no header");
    };
    equal_bytes(rt, header.to_bytes().as_slice(), &BYTES[..24]);
    equal(rt, header.calc_header_checksum(), 0x439f);
    equal(rt, header.options(), [1, 1, 1, 0].as_slice());
}

#[test]
fn payload_lengths(rt: HostRuntime) {
    let mut header = Ipv4Header::default();
    equal(rt, header.set_options(&[7; 40]), Ok(()));
    let refused = "Err(BadOptionsLen { bad_len: 6 })";
    shows(rt, &header.set_options(&[7; 6]), refused);
    equal(rt, header.max_payload_len(), 65475);
    equal(rt, header.set_payload_len(65475), Ok(()));
    let refused = "Err(ValueTooBigError { actual: 65476, max_allowed: 65475, \
        value_type: Ipv4PayloadLength })";
    shows(rt, &header.set_payload_len(65476), refused);
    equal(
        rt,
        (header.total_len, header.payload_len()),
        (65535, Ok(65475)),
    );
}

// The total length of a header before a payload of this length.
fn total_len(payload_len: u16) -> Result<u16, ValueTooBigError<u16>> {
    match Ipv4Header::new(payload_len, 1, IpNumber::UDP, [0; 4], [0; 4]) {
        Ok(header) => Ok(header.total_len),
        Err(error) => Err(error),
    }
}

#[test]
fn payload_lengths_of_new_headers(rt: HostRuntime) {
    equal(rt, total_len(65515), Ok(65535));
    let refused = "Err(ValueTooBigError { actual: 65516, max_allowed: 65515, \
        value_type: Ipv4PayloadLength })";
    shows(rt, &total_len(65516), refused);
}

#[test]
fn header_lengths(rt: HostRuntime) {
    let lens = [
        Ipv4Header::MIN_LEN,
        Ipv4Header::MAX_LEN,
        Ipv4Header::SERIALIZED_SIZE,
    ];
    equal(rt, lens, [20, 60, 20]);
    let others = (Ipv4Header::MIN_LEN_U16, Ipv4Options::MAX_LEN);
    equal(rt, others, (20, 40));
}

// Options hold so many bytes, each of them 1.
fn are_ones(rt: impl Abort + Copy, options: Ipv4Options, len: usize) {
    let ones = [1; 40];
    let (ones, _) = ones.split_at(len.min(40));
    equal(rt, options.as_slice(), ones);
    equal(rt, options.len(), len);
}

#[test]
fn options_of_arrays(rt: HostRuntime) {
    are_ones(rt, Ipv4Options::from([1; 0]), 0);
    are_ones(rt, Ipv4Options::from([1; 4]), 4);
    are_ones(rt, Ipv4Options::from([1; 8]), 8);
    are_ones(rt, Ipv4Options::from([1; 12]), 12);
    are_ones(rt, Ipv4Options::from([1; 16]), 16);
    are_ones(rt, Ipv4Options::from([1; 20]), 20);
}

#[test]
fn options_of_long_arrays(rt: HostRuntime) {
    are_ones(rt, Ipv4Options::from([1; 24]), 24);
    are_ones(rt, Ipv4Options::from([1; 28]), 28);
    are_ones(rt, Ipv4Options::from([1; 32]), 32);
    are_ones(rt, Ipv4Options::from([1; 36]), 36);
    are_ones(rt, Ipv4Options::from([1; 40]), 40);
}

#[test]
fn option_lengths(rt: HostRuntime) {
    let three = Ipv4Options::try_from([1, 2, 3].as_slice()).err();
    shows(rt, &three, "Some(BadOptionsLen { bad_len: 3 })");
    let many = Ipv4Options::try_from([0; 44].as_slice()).err();
    shows(rt, &many, "Some(BadOptionsLen { bad_len: 44 })");
}

#[test]
fn options_written_anew(rt: HostRuntime) {
    let Ok(mut options) = Ipv4Options::try_from([1, 2, 3, 4].as_slice()) else {
        fail(rt, "no options");
    };
    equal_bytes(rt, options.as_slice(), [1, 2, 3, 4].as_slice());
    let found = (options.len(), options.len_u8(), options.is_empty());
    equal(rt, found, (4, 4, false));
    equal(rt, Ipv4Options::new().is_empty(), true);
    for byte in options.as_mut_slice() {
        *byte = 9;
    }
    equal_bytes(rt, options.as_slice(), [9; 4].as_slice());
}

#[test]
fn laws_are_called(rt: HostRuntime) {
    let Ok(slice) = Ipv4HeaderSlice::from_slice(&BYTES) else {
        fail(rt, "no header");
    };
    let (of_slice, of_header) = laws::payload_lengths_agree(&slice);
    equal(rt, of_slice, of_header);
    equal(rt, laws::slices_are_equal_as_bytes(&slice, &slice), true);
    equal(rt, laws::header_lengths(), [20, 60, 20]);
}

#[test]
fn laws_of_a_header_are_called(rt: HostRuntime) {
    let Ok((header, _)) = Ipv4Header::from_slice(&BYTES) else {
        fail(rt, "no header");
    };
    let Ok((again, rest)) = laws::header_is_read_again(&header, &BYTES) else {
        fail(rt, "no header again");
    };
    equal(rt, rest, [0xaa, 0xbb].as_slice());
    equal(rt, laws::headers_are_equal_as_fields(&header, &again), true);
    let copy: Result<_, _> = laws::header_is_copied(&header);
    equal(rt, copy, Ok(again));
}

#[test]
fn laws_of_options_are_called(rt: HostRuntime) {
    let options = Ipv4Options::from([1, 1, 1, 0]);
    laws::options_hash_as_bytes(&options, &mut FoldHasher::default());
    equal(
        rt,
        laws::options_are_equal_as_bytes(&options, &options),
        true,
    );
    let order = laws::options_are_ordered_as_bytes(&options, &Ipv4Options::new());
    equal(rt, order, Ordering::Greater);
}
