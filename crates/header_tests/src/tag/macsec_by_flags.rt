//! MACsec headers and payloads under every flag and short length (IEEE 802.1AE, clause 9).
use super::macsec::{header_refusal, header_slice_refusal, missing, refusal};
use crate::checks::equal;
use ep_base::err::Layer;
use ep_base::{EtherType, LenSource};
use ep_tag::err::macsec::{HeaderError, HeaderSliceError};
use ep_tag::{MacsecPType, MacsecPayloadSlice, MacsecSlice};
use std::process::Abort;

const SHORT_LENS: [u8; 6] = [0, 1, 2, 3, 47, 63];

// The flags E, C and SC of the first of 80 bytes, the length of the header, what its payload is,
// and the lengths of the payload after `SHORT_LENS`, or none where they are refused: the two
// bytes of an ether type belong to the header, and are counted by the short length.
type Row = (u8, u8, MacsecPType, [Option<u8>; 6]);

fn by_flags() -> [Row; 8] {
    [
        (
            0,
            8,
            MacsecPType::Unmodified(EtherType(0x0607)),
            [Some(72), None, Some(0), Some(1), Some(45), Some(61)],
        ),
        (
            0x20,
            16,
            MacsecPType::Unmodified(EtherType(0x0e0f)),
            [Some(64), None, Some(0), Some(1), Some(45), Some(61)],
        ),
        (
            0x04,
            6,
            MacsecPType::Modified,
            [Some(74), Some(1), Some(2), Some(3), Some(47), Some(63)],
        ),
        (
            0x24,
            14,
            MacsecPType::Modified,
            [Some(66), Some(1), Some(2), Some(3), Some(47), Some(63)],
        ),
        (
            0x08,
            6,
            MacsecPType::EncryptedUnmodified,
            [Some(74), Some(1), Some(2), Some(3), Some(47), Some(63)],
        ),
        (
            0x28,
            14,
            MacsecPType::EncryptedUnmodified,
            [Some(66), Some(1), Some(2), Some(3), Some(47), Some(63)],
        ),
        (
            0x0c,
            6,
            MacsecPType::Encrypted,
            [Some(74), Some(1), Some(2), Some(3), Some(47), Some(63)],
        ),
        (
            0x2c,
            14,
            MacsecPType::Encrypted,
            [Some(66), Some(1), Some(2), Some(3), Some(47), Some(63)],
        ),
    ]
}

// Each byte is its own offset.
const NUMBERED: [u8; 80] = [
    0, 1, 2, 3, 4, 5, 6, 7, 8, 9, 10, 11, 12, 13, 14, 15, 16, 17, 18, 19, 20, 21, 22, 23, 24, 25,
    26, 27, 28, 29, 30, 31, 32, 33, 34, 35, 36, 37, 38, 39, 40, 41, 42, 43, 44, 45, 46, 47, 48, 49,
    50, 51, 52, 53, 54, 55, 56, 57, 58, 59, 60, 61, 62, 63, 64, 65, 66, 67, 68, 69, 70, 71, 72, 73,
    74, 75, 76, 77, 78, 79,
];

fn numbered(first: u8, short_len: u8) -> [u8; 80] {
    let mut bytes = NUMBERED;
    bytes[0] = first;
    bytes[1] = short_len;
    bytes
}

// What the header says of the payload, the ether type of the payload and what bounds it, where it
// is unmodified, and its bytes.
type Reported<'a> = (MacsecPType, Option<(EtherType, LenSource)>, &'a [u8]);

fn reported<'a>(macsec: &MacsecSlice<'a>) -> Reported<'a> {
    let ptype = macsec.header.ptype();
    match &macsec.payload {
        MacsecPayloadSlice::Unmodified(payload) => {
            let named = (payload.ether_type, payload.len_source);
            (ptype, Some(named), payload.payload)
        }
        MacsecPayloadSlice::Modified(bytes) => (ptype, None, bytes),
    }
}

fn read(bytes: &[u8]) -> Result<Reported<'_>, HeaderSliceError> {
    match MacsecSlice::from_slice(bytes) {
        Ok(macsec) => Ok(reported(&macsec)),
        Err(error) => Err(error),
    }
}

// What a row says of a payload of this length after its header.
fn expected<'a>(row: &Row, short_len: u8, payload: &'a [u8]) -> Reported<'a> {
    let len_source = match short_len {
        0 => LenSource::Slice,
        _ => LenSource::MacsecShortLength,
    };
    match row.2 {
        MacsecPType::Unmodified(ether_type) => { (row.2, Some((ether_type, len_source)), payload) }
        ptype => (ptype, None, payload),
    }
}

// So many bytes after a header of this length, and none where they aren't all there.
fn following(bytes: &[u8], header_len: u8, len: u8) -> &[u8] {
    let start = usize::from(header_len);
    bytes.get(start..start + usize::from(len)).unwrap_or(&[])
}

fn is_reported(rt: impl Abort + Copy, row: &Row, short_len: u8, payload_len: Option<u8>) {
    let bytes = numbered(row.0, short_len);
    let wanted = match payload_len {
        Some(len) => Ok(expected(row, short_len, following(&bytes, row.1, len))),
        None => Err(HeaderSliceError::Content(HeaderError::InvalidUnmodifiedShortLen)),
    };
    let flags = [row.0, short_len];
    equal(rt, (flags, read(&bytes)), (flags, wanted));
}

#[test]
fn every_flag_and_short_length(rt: HostRuntime) {
    for row in by_flags() {
        for i in 0..6usize {
            is_reported(rt, &row, SHORT_LENS[i], row.3[i]);
        }
    }
}

#[test]
fn every_flag_and_short_length_of_version_1(rt: HostRuntime) {
    let error = Some(HeaderSliceError::Content(HeaderError::UnexpectedVersion));
    for row in by_flags() {
        for short_len in SHORT_LENS.iter() {
            let bytes = numbered(0x80 | row.0, *short_len);
            let flags = [row.0, *short_len];
            equal(rt, (flags, refusal(&bytes)), (flags, error));
        }
    }
}

// Tries the first `len` bytes of a header of `header_len` bytes, which needs `whole_len` with its
// payload.
fn prefix_is_refused(
    rt: impl Abort + Copy,
    bytes: &[u8],
    len: usize,
    header_len: usize,
    whole_len: usize,
) {
    let (required_len, layer) = if len < 6 {
        (6, Layer::MacsecHeader)
    } else if len < header_len {
        (header_len, Layer::MacsecHeader)
    } else {
        (whole_len, Layer::MacsecPacket)
    };
    let error = Some(missing(required_len, len, layer));
    let (prefix, _) = bytes.split_at(len.min(bytes.len()));
    equal(rt, (bytes.first(), refusal(prefix)), (bytes.first(), error));
    if len < header_len {
        equal(rt, header_refusal(prefix), error);
        equal(rt, header_slice_refusal(prefix), error);
    }
}

// One byte fewer than header and payload.
#[test]
fn every_flag_and_short_length_of_too_few_bytes(rt: HostRuntime) {
    for row in by_flags() {
        for i in 2..6usize {
            let header_len = usize::from(row.1);
            let whole_len = header_len.saturating_add(usize::from(row.3[i].unwrap_or(0)));
            let bytes = numbered(row.0, SHORT_LENS[i]);
            prefix_is_refused(
                rt,
                &bytes,
                whole_len.saturating_sub(1),
                header_len,
                whole_len,
            );
        }
    }
}

// Every prefix of a header with its payload.
fn prefixes_are_refused(
    rt: impl Abort + Copy,
    bytes: &[u8; 80],
    header_len: usize,
    whole_len: usize,
) {
    for len in 0..whole_len {
        prefix_is_refused(rt, bytes, len, header_len, whole_len);
    }
    let (whole, _) = bytes.split_at(whole_len.min(80));
    equal(rt, refusal(whole), None);
}

#[test]
fn every_prefix_of_a_header_with_its_payload(rt: HostRuntime) {
    // Encrypted, with an identifier, and 3 bytes of payload; and unmodified, with 5 of them.
    prefixes_are_refused(rt, &numbered(0x28, 3), 14, 17);
    prefixes_are_refused(rt, &numbered(0x20, 7), 16, 21);
}
