//! Frame check sequences of Ethernet II frames (IEEE 802.3, section 3.2.9). The sequences are those of
//! zlib's `crc32`.
use crate::checks::{equal, fail, shows};
use ep_base::LenSource;
use ep_base::err::{Layer, LenError};
use ep_link::laws::frame_check::*;
use ep_link::{Ethernet2Slice, LinkSlice};
use std::process::Abort;

// Destination 1 to 6, source 7 to 12, IPv4, two bytes, and the sequence: 6d420227.
const BYTES: [u8; 20] = [
    1, 2, 3, 4, 5, 6, 7, 8, 9, 10, 11, 12, 8, 0, 21, 22, 0x27, 2, 0x42, 0x6d,
];

// The header alone, and its sequence.
const FEWEST: [u8; 18] = [
    1, 2, 3, 4, 5, 6, 7, 8, 9, 10, 11, 12, 8, 0, 0x3c, 0xc4, 0xcb, 0x3c,
];

// The sequence, and whether it is right.
type Sequence = (Option<[u8; 4]>, Option<bool>);

fn sequence(frame: &Ethernet2Slice<'_>) -> Sequence {
    (frame.fcs(), frame.fcs_is_right())
}

fn sequence_in(bytes: &[u8]) -> Result<Sequence, LenError> {
    match Ethernet2Slice::from_slice_with_crc32_fcs(bytes) {
        Ok(frame) => Ok(sequence(&frame)),
        Err(error) => Err(error),
    }
}

// All bytes, the header and the payload.
fn parts<'a>(frame: &Ethernet2Slice<'a>) -> [&'a [u8]; 3] {
    [frame.slice(), frame.header_slice(), frame.payload_slice()]
}

#[test]
fn a_frame_with_its_sequence(rt: HostRuntime) {
    let Ok(frame) = Ethernet2Slice::from_slice_with_crc32_fcs(&BYTES) else {
        fail(rt, "no frame");
    };
    equal(
        rt,
        sequence(&frame),
        (Some([0x27, 2, 0x42, 0x6d]), Some(true)),
    );
    equal(rt, parts(&frame), [&BYTES, &BYTES[..14], &[21, 22]]);
    let payload =
        "EtherPayloadSlice { ether_type: EtherType(2048), len_source: Slice, payload: [21, 22] }";
    shows(rt, &frame.payload(), payload);
}

#[test]
fn fields_of_a_frame_with_its_sequence(rt: HostRuntime) {
    let Ok(frame) = Ethernet2Slice::from_slice_with_crc32_fcs(&BYTES) else {
        fail(rt, "no frame");
    };
    equal(rt, frame.destination(), [1, 2, 3, 4, 5, 6]);
    equal(rt, frame.source(), [7, 8, 9, 10, 11, 12]);
    equal(rt, (frame.ether_type().0, frame.header_len()), (0x0800, 14));
    let fields = "Ethernet2Header { source: [7, 8, 9, 10, 11, 12], \
        destination: [1, 2, 3, 4, 5, 6], ether_type: EtherType(2048) }";
    shows(rt, &frame.to_header(), fields);
}

#[test]
fn a_header_and_its_sequence(rt: HostRuntime) {
    let right = (Some([0x3c, 0xc4, 0xcb, 0x3c]), Some(true));
    equal(rt, sequence_in(&FEWEST), Ok(right));
}

#[test]
fn a_frame_without_sequence(rt: HostRuntime) {
    let Ok(frame) = Ethernet2Slice::from_slice_without_fcs(&BYTES) else {
        fail(rt, "no frame");
    };
    equal(rt, sequence(&frame), (None, None));
    equal(
        rt,
        frame.payload_slice(),
        [21, 22, 0x27, 2, 0x42, 0x6d].as_slice(),
    );
}

// Each bit of the frame turned: then the sequence isn't right.
#[test]
fn each_bit_counts(rt: HostRuntime) {
    for index in 0..20usize {
        for bit in 0..8u32 {
            let mut bytes = BYTES;
            bytes[index] ^= 1 << bit;
            let Ok((_, found)) = sequence_in(&bytes) else {
                fail(rt, "no frame");
            };
            equal(rt, found, Some(false));
        }
    }
}

#[test]
fn every_prefix_without_a_sequence(rt: HostRuntime) {
    for len in 0..18usize {
        let error = LenError {
            required_len: 18,
            len,
            len_source: LenSource::Slice,
            layer: Layer::Ethernet2Header,
            layer_start_offset: 0,
        };
        equal(rt, sequence_in(&BYTES[..len]), Err(error));
    }
}

// Two frames of the same bytes differ where one has a sequence.
fn are_equal(bytes: &[u8], others: &[u8]) -> Option<bool> {
    let Ok(frame) = Ethernet2Slice::from_slice_with_crc32_fcs(bytes) else {
        return None;
    };
    let Ok(other) = Ethernet2Slice::from_slice_without_fcs(others) else {
        return None;
    };
    Some(frame == other)
}

#[test]
fn frames_differ_by_their_sequence(rt: HostRuntime) {
    equal(rt, are_equal(&BYTES, &BYTES), Some(false));
}

fn link_payload(rt: impl Abort + AllocGlobal + Copy, bytes: &[u8], payload: &str) {
    let Ok(frame) = Ethernet2Slice::from_slice_with_crc32_fcs(bytes) else {
        fail(rt, "no frame");
    };
    shows(rt, &LinkSlice::Ethernet2(frame).sll_payload(), payload);
}

#[test]
fn a_payload_as_that_of_a_cooked_capture(rt: HostRuntime) {
    let payload = "LinuxSllPayloadSlice { protocol_type: EtherType(EtherType(2048)), \
        payload: [21, 22] }";
    link_payload(rt, &BYTES, payload);
}

#[test]
fn laws(rt: HostRuntime) {
    let Ok(frame) = Ethernet2Slice::from_slice_with_crc32_fcs(&BYTES) else {
        fail(rt, "no frame");
    };
    frames_are_their_parts(&frame);
    check_values();
    frames_at_literals();
}
