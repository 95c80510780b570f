//! TCP headers and segments.

use crate::checks::{equal, equal_bytes, fail, reads, shows};
use ep_base::LenSource;
use ep_base::err::{Layer, LenError};
use ep_tcpudp::err::tcp::{HeaderError, HeaderSliceError};
use ep_tcpudp::{TcpHeader, TcpHeaderSlice, TcpOptionWriteError, TcpOptions, TcpSlice, laws};
use std::cmp::Ordering;
use std::hash::FoldHasher;
use std::process::Abort;
use std::test::*;

// A header with four bytes of options, written by hand after RFC 9293, with all reserved bits set,
// and two bytes of payload.
const BYTES: [u8; 26] = [
    0, 1, 0, 2, 0, 0, 0, 3, 0, 0, 0, 4, 0x6f, 0x91, 0, 5, 0, 6, 0, 7, 1, 1, 1, 0, 0xaa, 0xbb,
];

const OPTIONS: &[u8] = &[1, 1, 1, 0];

// The functions below have no contracts, as tests alone call them.

fn fields() -> TcpHeader {
    TcpHeader {
        source_port: 1,
        destination_port: 2,
        sequence_number: 3,
        acknowledgment_number: 4,
        ns: true,
        fin: true,
        syn: false,
        rst: false,
        psh: false,
        ack: true,
        urg: false,
        ece: false,
        cwr: true,
        window_size: 5,
        checksum: 6,
        urgent_pointer: 7,
        options: TcpOptions::from([1, 1, 1, 0]),
    }
}

fn too_short(required_len: usize, len: usize, layer_start_offset: usize) -> HeaderSliceError {
    HeaderSliceError::Len(LenError {
        required_len,
        len,
        len_source: LenSource::Slice,
        layer: Layer::TcpHeader,
        layer_start_offset,
    })
}

// How many bytes of options are left of the header at the start of these bytes.
fn options_left(bytes: &[u8]) -> Option<usize> {
    match TcpHeader::from_slice(bytes) {
        Ok((header, _)) => Some(header.options_iterator().rest().len()),
        Err(_) => None,
    }
}

#[test]
fn header_by_position(rt: HostRuntime) {
    equal(
        rt,
        TcpHeader::from_slice(&BYTES),
        Ok((fields(), &BYTES[24..])),
    );
    equal(rt, options_left(&BYTES), Some(4));
}

#[test]
fn bytes_by_position(rt: HostRuntime) {
    let header = fields();
    equal(rt, (header.data_offset(), header.header_len()), (6, 24));
    equal(rt, header.options(), OPTIONS);
    // The reserved bits are 0.
    let mut bytes = BYTES;
    bytes[12] = 0x61;
    equal_bytes(rt, header.to_bytes().as_slice(), &bytes[..24]);
}

#[test]
fn header_appended(rt: HostRuntime) {
    let mut buffer = Vec::new(rt.alloc());
    let written = buffer.push(9).is_ok() && TcpHeader::new(1, 2, 3, 4).write(&mut buffer).is_ok();
    let bytes = [
        9, 0, 1, 0, 2, 0, 0, 0, 3, 0, 0, 0, 0, 0x50, 0, 0, 4, 0, 0, 0, 0,
    ];
    equal(rt, (written, buffer.as_slice()), (true, bytes.as_slice()));
}

#[test]
fn a_header_of_zeros(rt: HostRuntime) {
    equal(rt, TcpHeader::default(), TcpHeader::new(0, 0, 0, 0));
}

// The flags of a header in their order, also of a segment below.
fn flags_of(header: &TcpHeaderSlice<'_>) -> [bool; 9] {
    [
        header.ns(),
        header.cwr(),
        header.ece(),
        header.urg(),
        header.ack(),
        header.psh(),
        header.rst(),
        header.syn(),
        header.fin(),
    ]
}

fn flags_of_segment(segment: &TcpSlice<'_>) -> [bool; 9] {
    [
        segment.ns(),
        segment.cwr(),
        segment.ece(),
        segment.urg(),
        segment.ack(),
        segment.psh(),
        segment.rst(),
        segment.syn(),
        segment.fin(),
    ]
}

// Both ports, both numbers, the data offset, the window, the checksum and the urgent pointer.
type Numbers = ([u16; 2], [u32; 2], u8, [u16; 3]);

const NUMBERS: Numbers = ([1, 2], [3, 4], 6, [5, 6, 7]);

fn numbers_of(header: &TcpHeaderSlice<'_>) -> Numbers {
    (
        [header.source_port(), header.destination_port()],
        [header.sequence_number(), header.acknowledgment_number()],
        header.data_offset(),
        [
            header.window_size(),
            header.checksum(),
            header.urgent_pointer(),
        ],
    )
}

fn numbers_of_segment(segment: &TcpSlice<'_>) -> Numbers {
    (
        [segment.source_port(), segment.destination_port()],
        [segment.sequence_number(), segment.acknowledgment_number()],
        segment.data_offset(),
        [
            segment.window_size(),
            segment.checksum(),
            segment.urgent_pointer(),
        ],
    )
}

// Whether the fields of a header give its 24 bytes again.
fn is_written_again(bytes: &[u8]) -> bool {
    match TcpHeader::from_slice(bytes) {
        Ok((header, _)) => bytes.get(..24) == Some(header.to_bytes().as_slice()),
        Err(_) => false,
    }
}

fn has_flags(rt: impl Abort + Copy, bytes: &[u8], wanted: [bool; 9]) {
    match TcpHeaderSlice::from_slice(bytes) {
        Ok(header) => equal(rt, flags_of(&header), wanted),
        Err(_) => fail(rt, "no header"),
    }
}

// Each flag is its own bit (RFC 9293, section 3.1; RFC 3540; RFC 3168).
#[test]
fn flags_at_their_bits(rt: HostRuntime) {
    for index in 0..9usize {
        let mut bytes = BYTES;
        let bits = 1u16 << (8 - index);
        bytes[12] = 0x60 | (bits >> 8) as u8;
        bytes[13] = (bits & 0xff) as u8;
        let mut wanted = [false; 9];
        wanted[index] = true;
        has_flags(rt, &bytes, wanted);
        equal(rt, (index, is_written_again(&bytes)), (index, true));
    }
}

#[test]
fn getters_of_the_header_slice(rt: HostRuntime) {
    match TcpHeaderSlice::from_slice(&BYTES) {
        Ok(header) => {
            equal(rt, numbers_of(&header), NUMBERS);
            equal(rt, header.slice(), &BYTES[..24]);
            equal(rt, header.options(), OPTIONS);
            equal(rt, header.options_iterator().rest().len(), 4);
            equal(rt, header.to_header(), fields());
        }
        Err(_) => fail(rt, "no header"),
    }
}

#[test]
fn getters_of_the_segment(rt: HostRuntime) {
    match TcpSlice::from_slice(&BYTES) {
        Ok(segment) => {
            equal(rt, numbers_of_segment(&segment), NUMBERS);
            let flags = [true, true, false, false, true, false, false, false, true];
            equal(rt, flags_of_segment(&segment), flags);
            equal(rt, segment.options(), OPTIONS);
            equal(rt, segment.options_iterator().rest().len(), 4);
            equal(rt, segment.to_header(), fields());
        }
        Err(_) => fail(rt, "no segment"),
    }
}

#[test]
fn parts_of_the_segment(rt: HostRuntime) {
    match TcpSlice::from_slice(&BYTES) {
        Ok(segment) => {
            equal(rt, segment.slice(), BYTES.as_slice());
            equal(rt, segment.header_slice(), &BYTES[..24]);
            equal(rt, segment.payload(), &BYTES[24..]);
            equal(rt, segment.header_len(), 24);
        }
        Err(_) => fail(rt, "no segment"),
    }
}

// Why these bytes are no segment, no header slice and no header.
fn refusals(bytes: &[u8]) -> [Option<HeaderSliceError>; 3] {
    [
        TcpSlice::from_slice(bytes).err(),
        TcpHeaderSlice::from_slice(bytes).err(),
        TcpHeader::from_slice(bytes).err(),
    ]
}

#[test]
fn faults_in_order(rt: HostRuntime) {
    equal(rt, refusals(&BYTES[..19]), [Some(too_short(20, 19, 0)); 3]);
    equal(rt, refusals(&BYTES[..23]), [Some(too_short(24, 23, 0)); 3]);
}

fn too_small(data_offset: u8) -> HeaderSliceError {
    HeaderSliceError::Content(HeaderError::DataOffsetTooSmall { data_offset })
}

// Every data offset below 5, whatever the reserved bits and ns are, and every one that says more
// than the 26 bytes that are there.
#[test]
fn faulty_data_offsets(rt: HostRuntime) {
    let mut bytes = BYTES;
    for data_offset in 0..5u8 {
        bytes[12] = data_offset * 16 + 15;
        equal(rt, refusals(&bytes), [Some(too_small(data_offset)); 3]);
        bytes[12] = data_offset * 16;
        equal(rt, refusals(&bytes), [Some(too_small(data_offset)); 3]);
    }
    for data_offset in 7..16u8 {
        bytes[12] = data_offset * 16;
        let short = too_short(4 * usize::from(data_offset), 26, 0);
        equal(rt, refusals(&bytes), [Some(short); 3]);
    }
}

// The offset of an error of too few bytes moves; an error in the content has none.
#[test]
fn errors_seen_from_further_out(rt: HostRuntime) {
    let short = HeaderSliceError::Len(LenError {
        required_len: 20,
        len: 19,
        len_source: LenSource::Slice,
        layer: Layer::TcpHeader,
        layer_start_offset: 0,
    });
    equal(rt, short.add_slice_offset(34), too_short(20, 19, 34));
    let small = HeaderSliceError::Content(HeaderError::DataOffsetTooSmall { data_offset: 4 });
    equal(rt, small.add_slice_offset(34), small);
}

#[test]
fn errors_as_text(rt: HostRuntime) {
    let content = HeaderSliceError::from(HeaderError::DataOffsetTooSmall { data_offset: 4 });
    reads(rt, &content, "TCP header: the data offset is 4 and below 5");
    let long = TcpOptionWriteError::NotEnoughSpace(41);
    reads(
        rt,
        &long,
        "TCP options of 41 byte(s): a header has room for 40",
    );
}

// Each view prints its own name, though both are one type.
#[test]
fn views_as_text(rt: HostRuntime) {
    let mut bytes = [0; 21];
    bytes[12] = 0x50;
    let header =
        "Ok(TcpHeaderSlice { slice: [0, 0, 0, 0, 0, 0, 0, 0, 0, 0, 0, 0, 80, 0, 0, 0, 0, 0, 0, 0] })";
    shows(rt, &TcpHeaderSlice::from_slice(&bytes), header);
    let segment =
        "Ok(TcpSlice { slice: [0, 0, 0, 0, 0, 0, 0, 0, 0, 0, 0, 0, 80, 0, 0, 0, 0, 0, 0, 0, 0] })";
    shows(rt, &TcpSlice::from_slice(&bytes), segment);
}

#[test]
fn raw_options(rt: HostRuntime) {
    let mut header = TcpHeader::new(1, 2, 3, 4);
    equal(rt, header.set_options_raw(&[1, 1, 1, 1, 1]), Ok(()));
    equal(rt, header.options(), [1, 1, 1, 1, 1, 0, 0, 0].as_slice());
    let refused = Err(TcpOptionWriteError::NotEnoughSpace(41));
    equal(rt, header.set_options_raw(&[1; 41]), refused);
    equal(rt, header.header_len(), 28);
    equal(rt, header.set_options_raw(&[1; 40]), Ok(()));
    equal(rt, header.data_offset(), TcpHeader::MAX_DATA_OFFSET);
}

#[test]
fn laws_are_called(rt: HostRuntime) {
    laws::tcp::headers_are_their_bytes(&fields());
    let again = laws::tcp::header_is_read_again(&fields(), &BYTES);
    equal(rt, again, Ok((fields(), &BYTES[24..])));
}

#[test]
fn laws_of_options_are_called(rt: HostRuntime) {
    let (a, b) = (
        TcpOptions::from([1, 1, 1, 0]),
        TcpOptions::from([1, 1, 1, 1]),
    );
    laws::tcp::options_hash_as_bytes(&a, &mut FoldHasher::default());
    equal(
        rt,
        laws::tcp::options_are_ordered_as_bytes(&a, &b),
        Ordering::Less,
    );
}
