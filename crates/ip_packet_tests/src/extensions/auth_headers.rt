//! Authentication headers in slices.
//! Calls have no contracts: tests alone make them, and are run.

use super::headers::{Missing, fault_of, prefix};
use super::kinds::{Kind, is_appended, is_copy};
use super::rows::{Call, rows};
use crate::checks::{holds, missing_in_slice, shows};
use ep_base::IpNumber;
use ep_base::err::Layer;
use ep_ext::err::ip_auth::{HeaderError, HeaderSliceError, IcvLenError};
use ep_ext::{IpAuthHeader, IpAuthHeaderSlice};
use std::test::*;

// By RFC 4302, section 2, with reserved bits set. Two bytes follow.
const AUTH: [u8; 26] = [
    6, 4, 0xff, 0xee, 1, 2, 3, 4, 5, 6, 7, 8, 9, 10, 11, 12, 13, 14, 15, 16, 17, 18, 19, 20, 0xaa,
    0xbb,
];

// Whether the bytes of a header are those at the start, with the reserved ones cleared.
fn is_cleared(written: &[u8], prefix: &[u8]) -> bool {
    written.len() == prefix.len()
        && written.get(..2) == prefix.get(..2)
        && written.get(2..4) == Some(&[0, 0])
        && written.get(4..) == prefix.get(4..)
}

/// The fields of a header: its number, its index, its sequence number and its length; and whether
/// its bytes and its check value are those at the start, and the rest those after the header.
type Shown = (IpNumber, u32, u32, usize, bool, bool, bool);

fn auth(bytes: &[u8]) -> Result<Shown, Result<Missing, HeaderError>> {
    match IpAuthHeader::from_slice(bytes) {
        Ok((header, rest)) => {
            let (prefix, after) = bytes.split_at(header.header_len().min(bytes.len()));
            Ok((
                header.next_header,
                header.spi,
                header.sequence_number,
                header.header_len(),
                is_cleared(header.to_bytes().as_slice(), prefix),
                prefix.get(12..) == Some(header.raw_icv()),
                rest == after,
            ))
        }
        Err(error) => Err(fault_of(error, bytes.len())),
    }
}

/// A prefix of `AUTH`.
pub fn auth_prefix(len: usize) -> Result<Shown, Result<Missing, HeaderError>> {
    auth(prefix(&AUTH, len))
}

/// A prefix of the greatest authentication header and a byte.
pub fn greatest_auth(len: usize) -> Result<Shown, Result<Missing, HeaderError>> {
    let mut bytes = [0; 1029];
    bytes[1] = 255;
    bytes[1027] = 9;
    auth(prefix(&bytes, len))
}

/// So many bytes of zero, of at most 16.
pub fn zero_auth(len: usize) -> Result<Shown, Result<Missing, HeaderError>> {
    auth(prefix(&[0; 16], len))
}

#[test]
fn authentication_headers_and_their_rest(rt: HostRuntime) {
    rows(
        rt,
        Call::Auth,
        "0..12: Err(Ok((12, 0, Slice, IpAuthHeader, 0)))
        12..24: Err(Ok((24, 0, Slice, IpAuthHeader, 0)))
        24..27: Ok((IpNumber(6), 16909060, 84281096, 24, true, true, true))",
    );
}

#[test]
fn the_greatest_authentication_header(rt: HostRuntime) {
    let greatest = (IpAuthHeader::MAX_LEN, IpAuthHeader::MAX_ICV_LEN);
    shows(rt, "MAX_LEN", &greatest, "(1028, 1016)");
    let wanted = "1029: Ok((IpNumber(0), 0, 0, 1028, true, true, true))";
    rows(rt, Call::GreatestAuth, wanted);
}

#[test]
fn a_length_byte_of_zero(rt: HostRuntime) {
    rows(
        rt,
        Call::ZeroAuth,
        "11: Err(Ok((12, 0, Slice, IpAuthHeader, 0)))
        12: Err(Err(ZeroPayloadLen))
        16: Err(Err(ZeroPayloadLen))",
    );
}

#[test]
fn faults_seen_from_an_earlier_start(rt: HostRuntime) {
    let missing = HeaderSliceError::Len(missing_in_slice(12, 11, Layer::IpAuthHeader));
    let moved = fault_of(missing.add_slice_offset(40), 11);
    shows(rt, "a want", &moved, "Ok((12, 0, Slice, IpAuthHeader, 40))");
    let zero = HeaderSliceError::Content(HeaderError::ZeroPayloadLen).add_slice_offset(40);
    shows(rt, "a fault", &zero, "Content(ZeroPayloadLen)");
}

// Whether the header at the start of `AUTH` is that of its fields.
fn is_of_its_fields() -> bool {
    let made = IpAuthHeader::new(IpNumber::TCP, 0x0102_0304, 0x0506_0708, &AUTH[12..24]);
    match (made, IpAuthHeader::from_slice(&AUTH)) {
        (Ok(made), Ok((header, _))) => made == header,
        _ => false,
    }
}

#[test]
fn an_authentication_header_of_fields(rt: HostRuntime) {
    holds(rt, is_of_its_fields());
}

#[test]
fn an_authentication_header_is_appended(rt: HostRuntime) {
    let mut bytes = AUTH;
    // Reserved bytes are cleared.
    bytes[2] = 0;
    bytes[3] = 0;
    holds(rt, is_appended(rt.alloc(), Kind::Auth, &AUTH, &bytes[..24]));
}

// Whether a view is that of its own bytes, its copy, and that of a header with its check value.
fn is_itself(view: &IpAuthHeaderSlice<'_>) -> bool {
    let of_bytes = IpAuthHeaderSlice::of_bytes(view.slice());
    let is_copy = is_copy(view.clone(), &of_bytes);
    is_copy && view.to_header().raw_icv() == view.raw_icv()
}

/// What a view of a prefix of `AUTH` shows: its number, its index and its sequence number; whether
/// its bytes and its check value are those of `AUTH`, and whether it is itself.
type Viewed = (IpNumber, u32, u32, bool, bool, bool);

pub fn auth_view(len: usize) -> Result<Viewed, Result<Missing, HeaderError>> {
    match IpAuthHeaderSlice::from_slice(prefix(&AUTH, len)) {
        Ok(view) => Ok((
            view.next_header(),
            view.spi(),
            view.sequence_number(),
            view.slice() == &AUTH[..24],
            view.raw_icv() == &AUTH[12..24],
            is_itself(&view),
        )),
        Err(error) => Err(fault_of(error, len)),
    }
}

#[test]
fn views_of_authentication_headers(rt: HostRuntime) {
    rows(
        rt,
        Call::AuthView,
        "0..12: Err(Ok((12, 0, Slice, IpAuthHeader, 0)))
        12..24: Err(Ok((24, 0, Slice, IpAuthHeader, 0)))
        24..27: Ok((IpNumber(6), 16909060, 84281096, true, true, true))",
    );
}

// A header with so many bytes of check value, at most 1100.
fn auth_of_len(len: usize) -> Result<IpAuthHeader, IcvLenError> {
    IpAuthHeader::new(IpNumber::TCP, 1, 2, prefix(&[7; 1100], len))
}

/// The length of its check value and its own, or why there is none.
pub fn auth_lens(len: usize) -> Result<(usize, usize), IcvLenError> {
    match auth_of_len(len) {
        Ok(header) => Ok((header.raw_icv().len(), header.header_len())),
        Err(error) => Err(error),
    }
}

#[test]
fn lengths_of_check_values(rt: HostRuntime) {
    rows(
        rt,
        Call::AuthLens,
        "0: Ok((0, 12))
        4: Ok((4, 16))
        8: Ok((8, 20))
        1012: Ok((1012, 1024))
        1016: Ok((1016, 1028))
        1: Err(Unaligned(1))
        2: Err(Unaligned(2))
        3: Err(Unaligned(3))
        5: Err(Unaligned(5))
        1015: Err(Unaligned(1015))
        1017: Err(TooBig(1017))
        1020: Err(TooBig(1020))
        1100: Err(TooBig(1100))",
    );
}

/// How a header takes a check value of four bytes and then one of so many, and whether its bytes
/// are those with the first.
pub fn auth_changed(len: usize) -> Option<(bool, Result<(), IcvLenError>, bool)> {
    let mut header = auth_of_len(0).ok()?;
    let is_taken = header.set_raw_icv(&[1, 2, 3, 4]).is_ok();
    let taken = header.set_raw_icv(prefix(&[9; 1100], len));
    let bytes = [6, 2, 0, 0, 0, 0, 0, 1, 0, 0, 0, 2, 1, 2, 3, 4];
    let is_kept = header.to_bytes().as_slice() == bytes.as_slice()
        && header.raw_icv() == &bytes[12..];
    Some((is_taken, taken, is_kept))
}

#[test]
fn a_check_value_is_changed(rt: HostRuntime) {
    rows(
        rt,
        Call::AuthChanged,
        "5: Some((true, Err(Unaligned(5)), true))
        1020: Some((true, Err(TooBig(1020)), true))
        4: Some((true, Ok(()), false))",
    );
}
