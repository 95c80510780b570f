//! IPv6 headers and the walk against values from outside.

use crate::checks::{equal, equal_bytes, fail, is_written, shows};
use ep_base::err::{Layer, LenError};
use ep_base::{IpDscp, IpEcn, IpNumber, Ipv6FlowLabel, LenSource};
use ep_ip::err::ipv6::{HeaderError, HeaderSliceError};
use ep_ip::laws::ipv6 as laws;
use ep_ip::{Ipv6Header, Ipv6HeaderSlice};
use std::alloc::{AllocError, Global};
use std::net::Ipv6Addr;
use std::process::Abort;
use std::test::*;

// A header by the layout of RFC 8200, section 3, and two bytes after it.
const BYTES: [u8; 42] = [
    0x6a, 0xbc, 0xde, 0xf1, 0x12, 0x34, 17, 64, 0xfd, 0, 0, 0, 0, 0, 0, 0, 0, 0, 0, 0, 0, 0, 0, 1,
    0xfd, 0, 0, 0, 0, 0, 0, 0, 0, 0, 0, 0, 0, 0, 0, 2, 0xaa, 0xbb,
];

// Its fields, read by hand: 171 is ab, 843505 is cdef1, 4660 is 1234 and 253 is fd.
const FIELDS: &str = "Ipv6Header { traffic_class: 171, flow_label: Ipv6FlowLabel(843505), \
    payload_length: 4660, next_header: IpNumber(17), hop_limit: 64, \
    source: [253, 0, 0, 0, 0, 0, 0, 0, 0, 0, 0, 0, 0, 0, 0, 1], \
    destination: [253, 0, 0, 0, 0, 0, 0, 0, 0, 0, 0, 0, 0, 0, 0, 2] }";

const SOURCE: [u8; 16] = [0xfd, 0, 0, 0, 0, 0, 0, 0, 0, 0, 0, 0, 0, 0, 0, 1];

const DESTINATION: [u8; 16] = [0xfd, 0, 0, 0, 0, 0, 0, 0, 0, 0, 0, 0, 0, 0, 0, 2];

fn too_short(required_len: usize, len: usize, layer: Layer, layer_start_offset: usize) -> LenError {
    LenError {
        required_len,
        len,
        len_source: LenSource::Slice,
        layer,
        layer_start_offset,
    }
}

#[test]
fn fields_by_position(rt: HostRuntime) {
    let Ok((header, rest)) = Ipv6Header::from_slice(&BYTES) else {
        fail(rt, "no header");
    };
    shows(rt, &header, FIELDS);
    equal(rt, rest, [0xaa, 0xbb].as_slice());
    let Ok((header, rest)) = Ipv6Header::read_from_slice(&BYTES) else {
        fail(rt, "no header is read");
    };
    shows(rt, &header, FIELDS);
    equal(rt, rest, [0xaa, 0xbb].as_slice());
}

// Code point, congestion and the length of the header.
fn parts(header: &Ipv6Header) -> (u8, IpEcn, usize) {
    (header.dscp().value(), header.ecn(), header.header_len())
}

#[test]
fn a_header_of_fields(rt: HostRuntime) {
    let Ok((header, _)) = Ipv6Header::from_slice(&BYTES) else {
        fail(rt, "no header");
    };
    shows(rt, &parts(&header), "(42, CongestionExperienced, 40)");
    equal_bytes(rt, header.to_bytes().as_slice(), &BYTES[..40]);
}

// The view's numbers before the addresses.
fn numbers(view: &Ipv6HeaderSlice<'_>) -> (u8, u8, u32, u16, u8, u8) {
    (
        view.version(),
        view.traffic_class(),
        view.flow_label().value(),
        view.payload_length(),
        view.next_header().0,
        view.hop_limit(),
    )
}

fn parts_of_view(view: &Ipv6HeaderSlice<'_>) -> (u8, IpEcn, usize) {
    (view.dscp().value(), view.ecn(), view.header_len())
}

#[test]
fn fields_of_a_view(rt: HostRuntime) {
    let Ok(view) = Ipv6HeaderSlice::from_slice(&BYTES) else {
        fail(rt, "no header");
    };
    let wanted = (6, 0xab, 0xcdef1, 0x1234, 17, 64);
    equal(rt, numbers(&view), wanted);
    shows(rt, &parts_of_view(&view), "(42, CongestionExperienced, 40)");
    let addresses = [view.source(), view.destination()];
    equal(rt, addresses, [SOURCE, DESTINATION]);
    shows(rt, &view.to_header(), FIELDS);
}

#[test]
fn addresses_of_a_view(rt: HostRuntime) {
    let Ok(view) = Ipv6HeaderSlice::from_slice(&BYTES) else {
        fail(rt, "no header");
    };
    let source = Ipv6Addr::new(0xfd00, 0, 0, 0, 0, 0, 0, 1);
    let destination = Ipv6Addr::new(0xfd00, 0, 0, 0, 0, 0, 0, 2);
    equal(rt, view.source_addr(), source);
    equal(rt, view.destination_addr(), destination);
}

#[test]
fn a_view_is_its_bytes(rt: HostRuntime) {
    let Ok(view) = Ipv6HeaderSlice::from_slice(&BYTES) else {
        fail(rt, "no header");
    };
    equal(rt, view.slice(), &BYTES[..40]);
    let copy: Result<_, _> = view.clone();
    equal(rt, copy, Ok(view));
}

// Why these bytes are no header and no view of one.
fn header_refusal(bytes: &[u8]) -> Option<HeaderSliceError> {
    match Ipv6Header::from_slice(bytes) {
        Ok(_) => None,
        Err(error) => Some(error),
    }
}

fn refusal(bytes: &[u8]) -> Option<HeaderSliceError> {
    match Ipv6HeaderSlice::from_slice(bytes) {
        Ok(_) => None,
        Err(error) => Some(error),
    }
}

#[test]
fn every_prefix_of_a_header(rt: HostRuntime) {
    for len in 0..40usize {
        let prefix = &BYTES[..len];
        let error = HeaderSliceError::Len(too_short(40, len, Layer::Ipv6Header, 0));
        equal(rt, header_refusal(prefix), Some(error));
        equal(rt, refusal(prefix), Some(error));
    }
    for len in 40..43usize {
        let prefix = &BYTES[..len];
        equal(rt, header_refusal(prefix), None);
    }
}

#[test]
fn the_length_is_tested_before_the_version(rt: HostRuntime) {
    let short = HeaderSliceError::Len(too_short(40, 39, Layer::Ipv6Header, 0));
    equal(rt, header_refusal(&[0x45; 39]), Some(short));
    for version_number in 0..16u8 {
        let bytes = [version_number * 16 + 15; 40];
        let error = HeaderError::UnexpectedVersion { version_number };
        let refused = match version_number {
            6 => None,
            _ => Some(HeaderSliceError::Content(error)),
        };
        let found = (version_number, header_refusal(&bytes));
        equal(rt, found, (version_number, refused));
    }
}

// From byte 5 on to 19, and to the greatest offset that a `usize` holds.
#[test]
fn errors_further_on(rt: HostRuntime) {
    let error = LenError::too_few_bytes(Layer::Ipv6Header, 40, 3).add_offset(5);
    let moved = HeaderSliceError::Len(error).add_slice_offset(14);
    let wanted = too_short(40, 3, Layer::Ipv6Header, 19);
    equal(rt, moved, HeaderSliceError::Len(wanted));
    let last = HeaderSliceError::Len(error).add_slice_offset(0xffff_ffff_ffff_fffa);
    let wanted = too_short(40, 3, Layer::Ipv6Header, 0xffff_ffff_ffff_ffff);
    equal(rt, last, HeaderSliceError::Len(wanted));
    let content = HeaderSliceError::Content(HeaderError::UnexpectedVersion { version_number: 4 });
    equal(rt, content.add_slice_offset(14), content);
    equal(rt, content.add_slice_offset(0xffff_ffff_ffff_ffff), content);
}

#[test]
fn a_header_after_a_byte_that_is_there(rt: HostRuntime) {
    let Ok((header, _)) = Ipv6Header::from_slice(&BYTES) else {
        fail(rt, "no header");
    };
    let mut buffer = Vec::new(rt.alloc());
    let done = buffer.push(0xbb).is_ok() && header.write(&mut buffer).is_ok();
    let mut written = BYTES;
    written.rotate_right(1);
    is_written(rt, done, buffer.as_slice(), &written[..41]);
}

#[test]
fn fields_set(rt: HostRuntime) {
    let mut header = Ipv6Header::default();
    let mut bytes = [0; 40];
    bytes[0] = 0x60;
    bytes[6] = 255;
    equal(rt, header.to_bytes(), bytes);
    equal(rt, header.flow_label, Ipv6FlowLabel::ZERO);
    header.traffic_class = 0xab;
    header.set_ecn(IpEcn::Ect1);
    equal(rt, header.traffic_class, 0xa9);
    header.set_dscp(IpDscp::EF);
    equal(rt, header.traffic_class, 0xb9);
}

#[test]
fn payload_lengths_set(rt: HostRuntime) {
    let mut header = Ipv6Header::default();
    equal(rt, header.set_payload_length(65535), Ok(()));
    let refused = "Err(ValueTooBigError { actual: 65536, max_allowed: 65535, \
        value_type: Ipv6PayloadLength })";
    shows(rt, &header.set_payload_length(65536), refused);
    equal(rt, header.payload_length, 65535);
}

#[test]
fn laws_at_two_headers(rt: HostRuntime) {
    let Ok((header, _)) = Ipv6Header::from_slice(&BYTES) else {
        fail(rt, "no header");
    };
    let other = Ipv6Header::default();
    laws::headers_are_their_bytes(&header);
    equal(
        rt,
        laws::header_is_read_again(&header, &BYTES).is_ok(),
        true,
    );
    equal(
        rt,
        laws::headers_are_equal_as_fields(&header, &header),
        true,
    );
    equal(
        rt,
        laws::headers_are_equal_as_fields(&header, &other),
        false,
    );
    let copy: Result<_, _> = laws::header_is_copied(&header);
    equal(rt, copy, Ok(header));
}

#[test]
fn laws_of_no_header(rt: HostRuntime) {
    let Ok(view) = Ipv6HeaderSlice::from_slice(&BYTES) else {
        fail(rt, "no header");
    };
    equal(rt, laws::header_lengths(), [40, 40]);
    equal(rt, laws::slices_are_equal_as_bytes(&view, &view), true);
}

fn walk(bytes: &[u8], first: u8) -> Result<(IpNumber, &[u8]), LenError> {
    Ipv6Header::skip_all_header_extensions_in_slice(bytes, IpNumber(first))
}

#[test]
fn walks(rt: HostRuntime) {
    let bytes = [60, 0, 0, 0, 0, 0, 0, 0, 17, 0, 0, 0, 0, 0, 0, 0, 0xaa, 0xbb];
    shows(rt, &walk(&bytes, 0), "Ok((IpNumber(17), [170, 187]))");
    let (_, turns) = Ipv6Header::skip_counted(&bytes, IpNumber(0));
    equal(rt, turns, 3);
    // To the end of the slice.
    let bytes = [0, 0, 0, 0, 0, 0, 0, 0, 17, 0, 0, 0, 0, 0, 0, 0];
    shows(rt, &walk(&bytes, 60), "Ok((IpNumber(17), []))");
    let missing = "Err(LenError { required_len: 2, len: 1, len_source: Slice, \
        layer: Ipv6ExtHeader, layer_start_offset: 0 })";
    shows(rt, &walk(&[6], 43), missing);
}

// Hop-by-hop options of 16 bytes, an authentication header of 12, a fragment header of 8 whose
// second byte is ignored, and a routing header of 16.
const ROW: [u8; 54] = [
    51, 1, 0, 0, 0, 0, 0, 0, 0, 0, 0, 0, 0, 0, 0, 0, 44, 1, 0, 0, 0, 0, 0, 0, 0, 0, 0, 0, 43, 9, 0,
    0, 0, 0, 0, 0, 6, 1, 0, 0, 0, 0, 0, 0, 0, 0, 0, 0, 0, 0, 0, 0, 7, 8,
];

#[test]
fn headers_in_a_row(rt: HostRuntime) {
    let found = Ipv6Header::skip_counted(&ROW, IpNumber(0));
    shows(rt, &found, "(Ok((IpNumber(6), [7, 8])), 5)");
}

// A prefix of `ROW` that ends within a header: the expected error, and the turns of the walk.
fn prefix_is_too_short(rt: impl Abort + Copy, len: usize, missing: LenError, turns: usize) {
    let (prefix, _) = ROW.split_at(len.min(54));
    let found = Ipv6Header::skip_counted(prefix, IpNumber(0));
    equal(rt, found, (Err(missing), turns));
}

// The headers' offsets and lengths.
const HEADERS: &[(usize, usize)] = &[(0, 16), (16, 12), (28, 8), (36, 16)];

#[test]
fn every_prefix_of_headers_in_a_row(rt: HostRuntime) {
    let mut turns = 0usize;
    for (offset, header_len) in HEADERS.iter() {
        turns = turns.saturating_add(1);
        for len in 0..*header_len {
            let required_len = if len < 2 { 2 } else { *header_len };
            let missing = too_short(required_len, len, Layer::Ipv6ExtHeader, *offset);
            prefix_is_too_short(rt, offset.saturating_add(len), missing, turns);
        }
    }
}

// The number of a header and its length where its second byte is 2.
const LENGTHS: &[(u8, usize)] = &[
    (0, 24),
    (43, 24),
    (44, 8),
    (51, 16),
    (60, 24),
    (135, 24),
    (139, 24),
    (140, 24),
    (6, 24),
];

fn is_skipped(rt: impl Abort + Copy, number: u8, bytes: &[u8; 32], len: usize) {
    let (whole, rest) = bytes.split_at(len.min(32));
    let (cut, _) = whole.split_at(len.min(32).saturating_sub(1));
    let next = Ipv6Header::skip_header_extension_in_slice(bytes, IpNumber(number));
    equal(rt, (number, next), (number, Ok((IpNumber(99), rest))));
    let missing = too_short(len, cut.len(), Layer::Ipv6ExtHeader, 0);
    let refused = Ipv6Header::skip_header_extension_in_slice(cut, IpNumber(number));
    equal(rt, (number, refused), (number, Err(missing)));
}

#[test]
fn one_header_by_its_number(rt: HostRuntime) {
    let mut bytes = [99; 32];
    bytes[1] = 2;
    for (number, len) in LENGTHS.iter() {
        is_skipped(rt, *number, &bytes, *len);
    }
}

#[test]
fn numbers_that_are_skipped(rt: HostRuntime) {
    let bytes = [253, 0, 0, 0, 0, 0, 0, 0, 5];
    for n in 0..=255u8 {
        let skipped = matches!(n, 0 | 43 | 44 | 51 | 60 | 135 | 139 | 140);
        let (number, following) = if skipped { (253, 8) } else { (n, 0) };
        let (_, rest) = bytes.split_at(following);
        equal(rt, (n, walk(&bytes, n)), (n, Ok((IpNumber(number), rest))));
    }
}

// A row of headers of 8 bytes, so many before the last one, and seven bytes after it.
fn row_of(alloc: Global, before_the_last: usize) -> Result<Vec<u8>, AllocError> {
    let mut bytes = Vec::new(alloc);
    for _ in 0..before_the_last {
        bytes.extend_from_slice(&[60, 0, 0, 0, 0, 0, 0, 0])?;
    }
    bytes.extend_from_slice(&[253, 0, 0, 0, 0, 0, 0, 0, 1, 2, 3, 4, 5, 6, 7])?;
    Ok(bytes)
}

fn has_turns(rt: impl Abort + AllocGlobal + Copy, before_the_last: usize, reported: &str) {
    match row_of(rt.alloc(), before_the_last) {
        Ok(bytes) => {
            let found = Ipv6Header::skip_counted(&bytes, IpNumber(60));
            shows(rt, &found, reported);
        }
        Err(_) => fail(rt, "no memory"),
    }
}

#[test]
fn walks_over_thousands_of_headers(rt: HostRuntime) {
    has_turns(
        rt,
        8189,
        "(Ok((IpNumber(253), [1, 2, 3, 4, 5, 6, 7])), 8191)",
    );
    has_turns(
        rt,
        8190,
        "(Ok((IpNumber(253), [1, 2, 3, 4, 5, 6, 7])), 8192)",
    );
}
