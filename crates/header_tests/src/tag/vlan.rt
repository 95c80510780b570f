//! VLAN tags (IEEE 802.1Q, section 9.6).
use crate::checks::{equal, fail, is_written, shows};
use ep_base::err::{Layer, LenError};
use ep_base::{EtherType, LenSource};
use ep_tag::laws::vlan::*;
use ep_tag::{
    DoubleVlanHeader, DoubleVlanSlice, EtherPayloadSlice, SingleVlanHeader, SingleVlanHeaderSlice,
    SingleVlanSlice, VlanHeader, VlanSlice,
};

// Priority, whether it may be dropped first, identifier and ether type.
type Fields = [u16; 4];

// Priority 5, drop eligible, identifier 0123, IPv6, and what follows it; then each field
// alone.
const TAGS: &[(&[u8], Fields)] = &[
    (&[0xb1, 0x23, 0x86, 0xdd, 7, 8], [5, 1, 0x123, 0x86dd]),
    (&[0xb1, 0x23, 0x86, 0xdd], [5, 1, 0x123, 0x86dd]),
    (&[0x10, 0, 8, 0], [0, 1, 0, 0x0800]),
    (&[0xe0, 0, 8, 0], [7, 0, 0, 0x0800]),
    (&[0x0f, 0xff, 8, 0], [0, 0, 0xfff, 0x0800]),
];

const BYTES: [u8; 6] = [0xb1, 0x23, 0x86, 0xdd, 7, 8];

const TWO_TAGS: [u8; 10] = [0, 5, 0x81, 0, 0xb1, 0x23, 0x86, 0xdd, 7, 8];

// The getters below return what a test compares and no more: a tag that a test held would bring its
// contract into the proof of everything after it.

fn of_header(header: &SingleVlanHeader) -> Fields {
    [
        u16::from(header.pcp.value()),
        u16::from(header.drop_eligible_indicator),
        header.vlan_id.value(),
        header.ether_type.0,
    ]
}

fn of_header_slice(tag: &SingleVlanHeaderSlice<'_>) -> Fields {
    [
        u16::from(tag.priority_code_point().value()),
        u16::from(tag.drop_eligible_indicator()),
        tag.vlan_identifier().value(),
        tag.ether_type().0,
    ]
}

fn of_slice(tag: &SingleVlanSlice<'_>) -> Fields {
    [
        u16::from(tag.priority_code_point().value()),
        u16::from(tag.drop_eligible_indicator()),
        tag.vlan_identifier().value(),
        tag.ether_type().0,
    ]
}

// A header and what follows it.
fn header_read(bytes: &[u8]) -> Result<(Fields, &[u8]), LenError> {
    match SingleVlanHeader::from_slice(bytes) {
        Ok((header, rest)) => Ok((of_header(&header), rest)),
        Err(error) => Err(error),
    }
}

// A view of a header by its getters and as a header, and its bytes.
fn header_slice_read(bytes: &[u8]) -> Result<([Fields; 2], &[u8]), LenError> {
    match SingleVlanHeaderSlice::from_slice(bytes) {
        Ok(tag) => {
            Ok((
                [of_header_slice(&tag), of_header(&tag.to_header())],
                tag.slice(),
            ))
        }
        Err(error) => Err(error),
    }
}

// A tag in the same way, with all its bytes.
fn slice_read(bytes: &[u8]) -> Result<([Fields; 2], &[u8]), LenError> {
    match SingleVlanSlice::from_slice(bytes) {
        Ok(tag) => Ok(([of_slice(&tag), of_header(&tag.to_header())], tag.slice())),
        Err(error) => Err(error),
    }
}

#[test]
fn fields_by_position(rt: HostRuntime) {
    for (bytes, fields) in TAGS.iter() {
        let (prefix, rest) = bytes.split_at(4);
        equal(rt, header_read(bytes), Ok((*fields, rest)));
        let twice = [*fields, *fields];
        equal(rt, header_slice_read(bytes), Ok((twice, prefix)));
        equal(rt, slice_read(bytes), Ok((twice, bytes)));
    }
}

// Why these bytes are no header, no view of one and no tag.
fn refusals(bytes: &[u8]) -> [Option<LenError>; 3] {
    [
        header_read(bytes).err(),
        header_slice_read(bytes).err(),
        slice_read(bytes).err(),
    ]
}

fn too_short(len: usize) -> LenError {
    LenError {
        required_len: 4,
        len,
        len_source: LenSource::Slice,
        layer: Layer::VlanHeader,
        layer_start_offset: 0,
    }
}

#[test]
fn every_prefix_of_a_tag(rt: HostRuntime) {
    for len in 0..4usize {
        let prefix = &BYTES[..len];
        equal(rt, refusals(prefix), [Some(too_short(len)); 3]);
    }
}

#[test]
fn a_header_both_ways(rt: HostRuntime) {
    let bytes = [0xb1, 0x23, 0x86, 0xdd];
    let header = SingleVlanHeader::from_bytes(bytes);
    equal(rt, of_header(&header), [5, 1, 0x123, 0x86dd]);
    equal(rt, header.to_bytes(), bytes);
    equal(rt, header.header_len(), 4);
    let zeros = SingleVlanHeader::default().to_bytes();
    equal(rt, zeros, [0; 4]);
}

// The bytes of a tag's header and those after them, and how many the former are.
fn parts<'a>(tag: &SingleVlanSlice<'a>) -> ([&'a [u8]; 2], usize) {
    ([tag.header_slice(), tag.payload_slice()], tag.header_len())
}

// 34525 is 86dd, IPv6.
const FOLLOWING: &str =
    "EtherPayloadSlice { ether_type: EtherType(34525), len_source: Slice, payload: [7, 8] }";

#[test]
fn parts_of_a_tag(rt: HostRuntime) {
    let Ok(tag) = SingleVlanSlice::from_slice(&BYTES) else {
        fail(rt, "no tag");
    };
    equal(rt, parts(&tag), ([&BYTES[..4], &[7, 8]], 4));
    shows(rt, &tag.payload(), FOLLOWING);
}

#[test]
fn payloads_in_order(rt: HostRuntime) {
    let payload = EtherPayloadSlice {
        ether_type: EtherType::IPV6,
        len_source: LenSource::Slice,
        payload: &[7, 8],
    };
    let bounded = EtherPayloadSlice {
        ether_type: EtherType::IPV6,
        len_source: LenSource::MacsecShortLength,
        payload: &[],
    };
    assert!(rt; payload < bounded && payload != bounded);
}

// The identifier, the ether type after it, and what follows.
fn next_tag<'a>(tag: &SingleVlanSlice<'a>) -> (u16, u16, &'a [u8]) {
    let payload = tag.payload();
    (
        tag.vlan_identifier().value(),
        payload.ether_type.0,
        payload.payload,
    )
}

// Four tags after a frame's ether type 8100, and nothing after the last: each names the next.
#[test]
fn four_tags(rt: HostRuntime) {
    let bytes = [0, 1, 0x81, 0, 0, 2, 0x81, 0, 0, 3, 0x81, 0, 0, 4, 8, 0];
    let mut rest = bytes.as_slice();
    for (id, next) in [(1, 0x8100), (2, 0x8100), (3, 0x8100), (4, 0x0800)] {
        let Ok(tag) = SingleVlanSlice::from_slice(rest) else {
            fail(rt, "no tag");
        };
        let (_, following) = rest.split_at(4);
        equal(rt, next_tag(&tag), (id, next, following));
        rest = following;
    }
    equal(rt, rest.len(), 0);
}

fn two_tags(bytes: &[u8]) -> Option<DoubleVlanSlice<'_>> {
    match (
        SingleVlanSlice::from_slice(bytes),
        SingleVlanSlice::from_slice(bytes.get(4..)?),
    ) {
        (Ok(outer), Ok(inner)) => Some(DoubleVlanSlice { outer, inner }),
        _ => None,
    }
}

// The length of a header and its bytes.
fn encoded(header: &DoubleVlanHeader) -> (usize, [u8; 8]) {
    (header.header_len(), header.to_bytes())
}

// The length of one tag or two, and their bytes as a header: of one they are followed by zeros.
fn of_either(tags: &VlanSlice<'_>) -> (usize, [u8; 8]) {
    match tags.to_header() {
        VlanHeader::Single(header) => {
            let [b0, b1, b2, b3] = header.to_bytes();
            (tags.header_len(), [b0, b1, b2, b3, 0, 0, 0, 0])
        }
        VlanHeader::Double(header) => (tags.header_len(), header.to_bytes()),
    }
}

#[test]
fn two_tags_and_what_follows(rt: HostRuntime) {
    let Some(tags) = two_tags(&TWO_TAGS) else {
        fail(rt, "no tags");
    };
    equal(rt, tags.header_len(), 8);
    equal(rt, tags.payload_slice(), [7, 8].as_slice());
    shows(rt, &tags.payload(), FOLLOWING);
    let bytes = [0, 5, 0x81, 0, 0xb1, 0x23, 0x86, 0xdd];
    equal(rt, encoded(&tags.to_header()), (8, bytes));
}

#[test]
fn one_tag_or_two(rt: HostRuntime) {
    let (Ok(tag), Some(tags)) = (SingleVlanSlice::from_slice(&BYTES), two_tags(&TWO_TAGS)) else {
        fail(rt, "no tags");
    };
    let tag = VlanSlice::SingleVlan(tag);
    equal(
        rt,
        of_either(&tag),
        (4, [0xb1, 0x23, 0x86, 0xdd, 0, 0, 0, 0]),
    );
    shows(rt, &tag.payload(), FOLLOWING);
    let tags = VlanSlice::DoubleVlan(tags);
    equal(
        rt,
        of_either(&tags),
        (8, [0, 5, 0x81, 0, 0xb1, 0x23, 0x86, 0xdd]),
    );
    shows(rt, &tags.payload(), FOLLOWING);
}

fn header() -> SingleVlanHeader {
    SingleVlanHeader::from_bytes([0xb1, 0x23, 0x86, 0xdd])
}

// A tag of zeros before the header above.
fn double_header() -> DoubleVlanHeader {
    DoubleVlanHeader {
        outer: SingleVlanHeader::default(),
        inner: header(),
    }
}

fn length_and_type(header: &VlanHeader) -> (usize, u16) {
    (header.header_len(), header.next_header().0)
}

#[test]
fn headers_of_one_tag_or_two(rt: HostRuntime) {
    let one = length_and_type(&VlanHeader::Single(header()));
    let two = length_and_type(&VlanHeader::Double(double_header()));
    equal(rt, [one, two], [(4, 0x86dd), (8, 0x86dd)]);
}

// Whether one tag, two, and one of either kind are written.
fn are_written(buffer: &mut Vec<u8>) -> bool {
    header().write(buffer).is_ok()
        && double_header().write(buffer).is_ok()
        && VlanHeader::Single(header()).write(buffer).is_ok()
}

#[test]
fn tags_after_a_byte_that_is_there(rt: HostRuntime) {
    let mut buffer = Vec::new(rt.alloc());
    let done = buffer.push(9).is_ok() && are_written(&mut buffer);
    let written = [
        9, 0xb1, 0x23, 0x86, 0xdd, 0, 0, 0, 0, 0xb1, 0x23, 0x86, 0xdd, 0xb1, 0x23, 0x86, 0xdd,
    ];
    is_written(rt, done, buffer.as_slice(), written.as_slice());
}

#[test]
fn laws(rt: HostRuntime) {
    let header = header();
    headers_are_their_bytes(&header);
    let read = header_is_read_again(&header, &BYTES).is_ok();
    equal(rt, (header_lengths(), read), ([4, 8], true));
}
