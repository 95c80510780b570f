//! MACsec headers (IEEE 802.1AE, clause 9).
//! The functions have no contracts: tests alone call them, and are run.
use crate::checks::{equal, equal_bytes, fail, is_written, reads, shows};
use ep_base::err::{Layer, LenError};
use ep_base::{EtherType, LenSource};
use ep_tag::err::macsec::{HeaderError, HeaderSliceError};
use ep_tag::laws::macsec::*;
use ep_tag::{MacsecHeader, MacsecHeaderSlice, MacsecSlice, SingleVlanSlice};
use std::process::Abort;

// All flags but the version and C set, association 2, short length 3 with both unused bits set,
// packet number 01020304, a secure channel identifier; and what follows it.
const BYTES: [u8; 18] = [
    0x7a, 0xc3, 1, 2, 3, 4, 0xa, 0xb, 0xc, 0xd, 0xe, 0xf, 0x10, 0x11, 21, 22, 23, 24,
];

// Its fields: 16909060 is 01020304, 723685415333072913 is 0a0b0c0d0e0f1011.
const FIELDS: &str = "MacsecHeader { ptype: EncryptedUnmodified, endstation_id: true, scb: true, \
    an: MacsecAn(2), short_len: MacsecShortLen(3), packet_nr: 16909060, \
    sci: Some(723685415333072913) }";

// The header, with both unused bits 0.
const WRITTEN: [u8; 14] = [
    0x7a, 3, 1, 2, 3, 4, 0xa, 0xb, 0xc, 0xd, 0xe, 0xf, 0x10, 0x11,
];

// Unmodified, a short length of 4 that leaves two bytes of a VLAN tag, and a byte after them.
const CUT_TAG: [u8; 11] = [0, 4, 0, 0, 0, 1, 0x81, 0, 0, 5, 0xff];

pub(super) fn missing(required_len: usize, len: usize, layer: Layer) -> HeaderSliceError {
    HeaderSliceError::Len(LenError {
        required_len,
        len,
        len_source: LenSource::Slice,
        layer,
        layer_start_offset: 0,
    })
}

// The functions below return what a test compares and no more: a slice that a test held would bring
// its contract into the proof of everything after it.

// Why these bytes are no header, no view of one, and no header with its payload.
pub(super) fn header_refusal(bytes: &[u8]) -> Option<HeaderSliceError> {
    match MacsecHeader::from_slice(bytes) {
        Ok(_) => None,
        Err(error) => Some(error),
    }
}

pub(super) fn header_slice_refusal(bytes: &[u8]) -> Option<HeaderSliceError> {
    match MacsecHeaderSlice::from_slice(bytes) {
        Ok(_) => None,
        Err(error) => Some(error),
    }
}

pub(super) fn refusal(bytes: &[u8]) -> Option<HeaderSliceError> {
    match MacsecSlice::from_slice(bytes) {
        Ok(_) => None,
        Err(error) => Some(error),
    }
}

// The length of the header, the ether type and the length that the short length leaves.
type Lengths = (usize, Option<EtherType>, Option<usize>);

fn lengths(header: &MacsecHeader) -> Lengths {
    (
        header.header_len(),
        header.next_ether_type(),
        header.expected_payload_len(),
    )
}

#[test]
fn fields_by_position(rt: HostRuntime) {
    let Ok((header, rest)) = MacsecHeader::from_slice(&BYTES) else {
        fail(rt, "no header");
    };
    shows(rt, &header, FIELDS);
    equal(rt, rest, [21, 22, 23, 24].as_slice());
    equal(rt, lengths(&header), (14, None, Some(3)));
    equal_bytes(rt, header.to_bytes().as_slice(), WRITTEN.as_slice());
}

// ES, SC, SCB by both names, E, C, and whether neither E nor C is set.
fn flags(header: &MacsecHeaderSlice<'_>) -> [bool; 7] {
    [
        header.endstation_id(),
        header.sci_present(),
        header.scb(),
        header.tci_scb(),
        header.encrypted(),
        header.userdata_changed(),
        header.is_unmodified(),
    ]
}

// Association, short length, packet number and secure channel identifier.
fn numbers(header: &MacsecHeaderSlice<'_>) -> (u8, u8, u32, Option<u64>) {
    (
        header.an().value(),
        header.short_len().value(),
        header.packet_nr(),
        header.sci(),
    )
}

fn slice_lengths(header: &MacsecHeaderSlice<'_>) -> Lengths {
    (
        header.header_len(),
        header.next_ether_type(),
        header.expected_payload_len(),
    )
}

#[test]
fn a_view_of_a_header(rt: HostRuntime) {
    let Ok(header) = MacsecHeaderSlice::from_slice(&BYTES) else {
        fail(rt, "no header");
    };
    let sci = Some(0x0a0b0c0d0e0f1011);
    equal(rt, numbers(&header), (2, 3, 0x01020304, sci));
    equal(rt, slice_lengths(&header), (14, None, Some(3)));
    equal(rt, header.slice(), &BYTES[..14]);
    shows(rt, &header.ptype(), "EncryptedUnmodified");
    shows(rt, &header.to_header(), FIELDS);
}

// The first byte of a header, and its flags and association: as above, the flag of an end station
// alone, and that of single copy broadcast alone.
#[rattlefmt::skip]
const FLAGS: &[(&str, u8, [bool; 7], u8)] = &[
    ("above", 0x7a, [true, true, true, true, true, false, false], 2),
    ("station", 0x41, [true, false, false, false, false, false, true], 1),
    ("broadcast", 0x12, [false, false, true, true, false, false, true], 2),
];

fn flags_in(bytes: &[u8]) -> Option<([bool; 7], u8)> {
    match MacsecHeaderSlice::from_slice(bytes) {
        Ok(header) => Some((flags(&header), header.an().value())),
        Err(_) => None,
    }
}

#[test]
fn flags_of_a_header(rt: HostRuntime) {
    for (name, first, wanted, association) in FLAGS.iter() {
        let mut bytes = BYTES;
        bytes[0] = *first;
        bytes[1] = 0;
        let wanted = (*name, Some((*wanted, *association)));
        equal(rt, (*name, flags_in(&bytes)), wanted);
    }
}

// A header with its payload, and the length of the header, the ether type after it, the payload
// and what the ether type names, if there is one: 33024 is 8100, 2048 is IPv4. The same packet
// follows a header unmodified, and changed.
#[rattlefmt::skip]
const PAYLOADS: &[(&[u8], [&str; 4])] = &[
    (
        &CUT_TAG,
        [
            "8",
            "Some(EtherType(33024))",
            "Unmodified(EtherPayloadSlice { ether_type: EtherType(33024), \
                len_source: MacsecShortLength, payload: [0, 5] })",
            "Some(EtherPayloadSlice { ether_type: EtherType(33024), \
                len_source: MacsecShortLength, payload: [0, 5] })",
        ],
    ),
    (&BYTES, ["14", "None", "Modified([21, 22, 23])", "None"]),
    (
        &[0, 0, 0, 0, 0, 1, 8, 0, 0x45, 0, 0, 0x24],
        [
            "8",
            "Some(EtherType(2048))",
            "Unmodified(EtherPayloadSlice { ether_type: EtherType(2048), \
                len_source: Slice, payload: [69, 0, 0, 36] })",
            "Some(EtherPayloadSlice { ether_type: EtherType(2048), \
                len_source: Slice, payload: [69, 0, 0, 36] })",
        ],
    ),
    (&[0x0c, 0, 0, 0, 0, 1, 8, 0, 0x45, 0, 0, 0x24], ["6", "None", "Modified([8, 0, 69, 0, 0, 36])", "None"]),
];

fn payload_is(rt: impl Abort + AllocGlobal + Copy, macsec: &MacsecSlice<'_>, wanted: &[&str; 4]) {
    let [header_len, ether_type, payload, ether_payload] = *wanted;
    shows(rt, &macsec.header_len(), header_len);
    shows(rt, &macsec.next_ether_type(), ether_type);
    shows(rt, &macsec.payload, payload);
    shows(rt, &macsec.ether_payload(), ether_payload);
}

#[test]
fn payloads(rt: HostRuntime) {
    for (bytes, wanted) in PAYLOADS.iter() {
        let Ok(macsec) = MacsecSlice::from_slice(bytes) else {
            fail(rt, "no payload");
        };
        payload_is(rt, &macsec, wanted);
    }
}

#[test]
fn the_header_of_an_unmodified_payload(rt: HostRuntime) {
    let Ok(macsec) = MacsecSlice::from_slice(&CUT_TAG) else {
        fail(rt, "no payload");
    };
    let header = macsec.to_header();
    let tag = Some(EtherType::VLAN_TAGGED_FRAME);
    equal(rt, lengths(&header), (8, tag, Some(2)));
    equal_bytes(rt, header.to_bytes().as_slice(), &CUT_TAG[..8]);
}

// The refusal of a VLAN tag after a MACsec header that follows 14 bytes of Ethernet II.
fn refusal_after(bytes: &[u8]) -> Option<LenError> {
    let macsec = MacsecSlice::from_slice(bytes).ok()?;
    let tag = macsec.ether_payload()?;
    let error = SingleVlanSlice::from_slice(tag.payload).err()?;
    Some(error.add_offset(14 + macsec.header_len()))
}

#[test]
fn a_tag_cut_by_a_short_length(rt: HostRuntime) {
    let error = "Some(LenError { required_len: 4, len: 2, len_source: Slice, layer: VlanHeader, \
        layer_start_offset: 22 })";
    shows(rt, &refusal_after(&CUT_TAG), error);
}

// Version 1 and a short length of 1: in too few bytes, in too few for the identifier, and the
// latter alone; and each before a packet.
#[rattlefmt::skip]
const REFUSED: &[(&[u8], &str)] = &[
    // Too few bytes.
    (
        &[0xa0, 1, 0, 0, 0],
        "Some(Len(LenError { required_len: 6, len: 5, len_source: Slice, layer: MacsecHeader, \
            layer_start_offset: 0 }))",
    ),
    // Version 1.
    (&[0xa0, 1, 0, 0, 0, 1], "Some(Content(UnexpectedVersion))"),
    // Short length 1.
    (&[0x20, 1, 0, 0, 0, 1], "Some(Content(InvalidUnmodifiedShortLen))"),
    // Version 1 before a packet.
    (&[0x80, 0, 0, 0, 0, 1, 8, 0, 0x45, 0, 0, 0x24], "Some(Content(UnexpectedVersion))"),
    // Short length 1 before a packet.
    (&[0, 1, 0, 0, 0, 1, 8, 0, 0x45, 0, 0, 0x24], "Some(Content(InvalidUnmodifiedShortLen))"),
];

fn is_refused(rt: impl Abort + AllocGlobal + Copy, bytes: &[u8], wanted: &str) {
    shows(rt, &header_refusal(bytes), wanted);
    shows(rt, &header_slice_refusal(bytes), wanted);
    shows(rt, &refusal(bytes), wanted);
}

#[test]
fn the_order_of_refusals(rt: HostRuntime) {
    for (bytes, wanted) in REFUSED.iter() {
        is_refused(rt, bytes, wanted);
    }
}

#[test]
fn errors_further_on(rt: HostRuntime) {
    let short = LenError::too_few_bytes(Layer::MacsecHeader, 6, 2);
    let moved = "Len(LenError { required_len: 6, len: 2, len_source: Slice, layer: MacsecHeader, \
        layer_start_offset: 14 })";
    let error = HeaderSliceError::Len(short);
    equal(rt, HeaderSliceError::from(short), error);
    shows(rt, &error.add_slice_offset(14), moved);
    let content = HeaderSliceError::from(HeaderError::UnexpectedVersion);
    equal(rt, content.add_slice_offset(14), content);
}

#[test]
fn texts(rt: HostRuntime) {
    let version = "MACsec header error: unexpected version 1";
    reads(rt, &HeaderError::UnexpectedVersion, version);
    let content = HeaderSliceError::Content(HeaderError::InvalidUnmodifiedShortLen);
    let text = "MACsec header error: short length 1 leaves no room for the ether type";
    reads(rt, &content, text);
}

#[test]
fn a_header_after_a_byte_that_is_there(rt: HostRuntime) {
    let Ok((header, _)) = MacsecHeader::from_slice(&BYTES) else {
        fail(rt, "no header");
    };
    let mut buffer = Vec::new(rt.alloc());
    let done = buffer.push(9).is_ok() && header.write(&mut buffer).is_ok();
    let written = [
        9, 0x7a, 3, 1, 2, 3, 4, 0xa, 0xb, 0xc, 0xd, 0xe, 0xf, 0x10, 0x11,
    ];
    is_written(rt, done, buffer.as_slice(), written.as_slice());
}

#[test]
fn laws(rt: HostRuntime) {
    let Ok((header, _)) = MacsecHeader::from_slice(&BYTES) else {
        fail(rt, "no header");
    };
    headers_are_their_bytes(&header);
    let read = header_is_read_again(&header, &BYTES).is_ok();
    equal(rt, (header_lengths(), read), ([6, 16], true));
}
