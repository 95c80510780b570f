//! Ethernet II headers (RFC 894).
use crate::checks::{equal, fail, is_written, shows};
use ep_base::LenSource;
use ep_base::err::{Layer, LenError};
use ep_link::laws::ethernet::*;
use ep_link::{Ethernet2Header, Ethernet2HeaderSlice, Ethernet2Slice};
use std::process::Abort;

// Destination 1 to 6, source 7 to 12, IPv4; and what follows it.
const BYTES: [u8; 16] = [1, 2, 3, 4, 5, 6, 7, 8, 9, 10, 11, 12, 8, 0, 21, 22];

const PREFIX: [u8; 14] = [1, 2, 3, 4, 5, 6, 7, 8, 9, 10, 11, 12, 8, 0];

// 2048 is 0800.
const FIELDS: &str = "Ethernet2Header { source: [7, 8, 9, 10, 11, 12], \
    destination: [1, 2, 3, 4, 5, 6], ether_type: EtherType(2048) }";

fn header() -> Ethernet2Header {
    Ethernet2Header::from_bytes(PREFIX)
}

#[test]
fn a_header_both_ways(rt: HostRuntime) {
    let Ok((header, rest)) = Ethernet2Header::from_slice(&BYTES) else {
        fail(rt, "no header");
    };
    shows(rt, &header, FIELDS);
    equal(rt, rest, [21, 22].as_slice());
    equal(rt, (header.to_bytes(), header.header_len()), (PREFIX, 14));
    shows(rt, &Ethernet2Header::from_bytes(PREFIX), FIELDS);
    equal(rt, Ethernet2Header::default().to_bytes(), [0; 14]);
}

// Destination, source and ether type, and the header's fields.
fn is_header(rt: impl Abort + AllocGlobal + Copy, slice: &Ethernet2HeaderSlice<'_>) {
    equal(rt, slice.destination(), [1, 2, 3, 4, 5, 6]);
    equal(rt, slice.source(), [7, 8, 9, 10, 11, 12]);
    equal(rt, slice.ether_type().0, 0x0800);
    shows(rt, &slice.to_header(), FIELDS);
}

#[test]
fn fields_of_a_view(rt: HostRuntime) {
    let Ok(slice) = Ethernet2HeaderSlice::from_slice(&BYTES) else {
        fail(rt, "no header");
    };
    equal(rt, slice.slice(), PREFIX.as_slice());
    is_header(rt, &slice);
}

// The same of a frame.
fn is_frame(rt: impl Abort + AllocGlobal + Copy, frame: &Ethernet2Slice<'_>) {
    equal(rt, frame.destination(), [1, 2, 3, 4, 5, 6]);
    equal(rt, frame.source(), [7, 8, 9, 10, 11, 12]);
    equal(rt, frame.ether_type().0, 0x0800);
    shows(rt, &frame.to_header(), FIELDS);
}

// All bytes, the header and what follows it.
fn parts<'a>(frame: &Ethernet2Slice<'a>) -> [&'a [u8]; 3] {
    [frame.slice(), frame.header_slice(), frame.payload_slice()]
}

#[test]
fn fields_and_parts_of_a_frame(rt: HostRuntime) {
    let Ok(frame) = Ethernet2Slice::from_slice_without_fcs(&BYTES) else {
        fail(rt, "no header");
    };
    is_frame(rt, &frame);
    equal(rt, frame.header_len(), 14);
    equal(rt, parts(&frame), [&BYTES, &PREFIX, &[21, 22]]);
    let payload =
        "EtherPayloadSlice { ether_type: EtherType(2048), len_source: Slice, payload: [21, 22] }";
    shows(rt, &frame.payload(), payload);
}

// Why these bytes are no header, no view of one and no frame.
fn header_refusal(bytes: &[u8]) -> Option<LenError> {
    match Ethernet2Header::from_slice(bytes) {
        Ok(_) => None,
        Err(error) => Some(error),
    }
}

fn header_slice_refusal(bytes: &[u8]) -> Option<LenError> {
    match Ethernet2HeaderSlice::from_slice(bytes) {
        Ok(_) => None,
        Err(error) => Some(error),
    }
}

fn refusal(bytes: &[u8]) -> Option<LenError> {
    match Ethernet2Slice::from_slice_without_fcs(bytes) {
        Ok(_) => None,
        Err(error) => Some(error),
    }
}

fn too_short(len: usize) -> Option<LenError> {
    Some(LenError {
        required_len: 14,
        len,
        len_source: LenSource::Slice,
        layer: Layer::Ethernet2Header,
        layer_start_offset: 0,
    })
}

#[test]
fn every_prefix_of_a_header(rt: HostRuntime) {
    for len in 0..14usize {
        let prefix = &BYTES[..len];
        equal(rt, header_refusal(prefix), too_short(len));
        equal(rt, header_slice_refusal(prefix), too_short(len));
        equal(rt, refusal(prefix), too_short(len));
    }
    equal(rt, refusal(&PREFIX), None);
}

// The ether type 1234, which is 4660, and nothing after it.
#[test]
fn a_frame_of_few_bytes(rt: HostRuntime) {
    let bytes = [2, 0, 0, 0, 0, 2, 2, 0, 0, 0, 0, 1, 0x12, 0x34];
    let Ok(frame) = Ethernet2Slice::from_slice_without_fcs(&bytes) else {
        fail(rt, "no header");
    };
    let payload =
        "EtherPayloadSlice { ether_type: EtherType(4660), len_source: Slice, payload: [] }";
    shows(rt, &frame.payload(), payload);
}

#[test]
fn a_header_written_over_a_slice(rt: HostRuntime) {
    let mut bytes = [9; 16];
    shows(rt, &header().write_to_slice(&mut bytes), "Ok(())");
    let written = [1, 2, 3, 4, 5, 6, 7, 8, 9, 10, 11, 12, 8, 0, 9, 9];
    equal(rt, bytes, written);
    let mut few = [9; 13];
    let error = "Err(SliceWriteSpaceError { required_len: 14, len: 13, layer: Ethernet2Header, \
        layer_start_offset: 0 })";
    shows(rt, &header().write_to_slice(&mut few), error);
    equal(rt, few, [9; 13]);
}

#[test]
fn a_header_after_a_byte_that_is_there(rt: HostRuntime) {
    let mut buffer = Vec::new(rt.alloc());
    let done = buffer.push(9).is_ok() && header().write(&mut buffer).is_ok();
    let written = [9, 1, 2, 3, 4, 5, 6, 7, 8, 9, 10, 11, 12, 8, 0];
    is_written(rt, done, buffer.as_slice(), written.as_slice());
}

#[test]
fn laws(rt: HostRuntime) {
    let is_read_again = header_is_read_again(&header(), &BYTES).is_ok();
    equal(rt, (header_lengths(), is_read_again), ([14], true));
    headers_are_their_bytes(&header());
}
