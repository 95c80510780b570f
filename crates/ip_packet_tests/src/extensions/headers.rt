//! Single extension headers in slices.
//! Calls have no contracts: tests alone make them, and are run.

use super::kinds::{Kind, is_appended, is_copy};
use super::rows::{Call, rows};
use crate::checks::{holds, shows};
use ep_base::err::{Layer, LenError, SliceError};
use ep_base::{IpFragOffset, IpNumber, LenSource};
use ep_ext::err::ipv6_exts::ExtPayloadLenError;
use ep_ext::{
    Ipv6FragmentHeader, Ipv6FragmentHeaderSlice, Ipv6RawExtHeader, Ipv6RawExtHeaderSlice,
};
use std::test::*;

// Hop-by-hop options by RFC 8200, section 4.3: padding options of 6 and 8 bytes. Two bytes follow.
const RAW: [u8; 18] = [17, 1, 1, 4, 0, 0, 0, 0, 1, 6, 0, 0, 0, 0, 0, 0, 0xaa, 0xbb];

// A fragment header by RFC 8200, section 4.5, with reserved bits set. Two bytes follow.
const FRAGMENT: [u8; 10] = [58, 0xff, 0xab, 0xcd, 0x12, 0x34, 0x56, 0x78, 0xaa, 0xbb];

/// Too few bytes: how many are required, and how many are there; the source of that number, the
/// layer and its offset.
pub type Missing = (usize, usize, LenSource, Layer, usize);

/// The same of an error.
pub fn missing(error: LenError) -> Missing {
    (
        error.required_len,
        error.len,
        error.len_source,
        error.layer,
        error.layer_start_offset,
    )
}

/// The same with how many bytes of so many are not there, which doesn't change with their number.
pub fn missing_of(error: LenError, len: usize) -> Missing {
    let before = len.wrapping_sub(error.len);
    missing(LenError {
        len: before,
        ..error
    })
}

/// Why a slice of so many bytes starts with no header: too few bytes, or the fault.
pub fn fault_of<C>(error: SliceError<C>, len: usize) -> Result<Missing, C> {
    match error {
        SliceError::Len(error) => Ok(missing_of(error, len)),
        SliceError::Content(fault) => Err(fault),
    }
}

/// The first bytes, at most so many.
pub fn prefix(bytes: &[u8], len: usize) -> &[u8] {
    bytes.split_at(len.min(bytes.len())).0
}

// What a raw header shows: its number and its length; whether its bytes and its payload are those
// at the start, and the rest those after the header.
fn raw(bytes: &[u8]) -> Result<(IpNumber, usize, bool, bool, bool), Missing> {
    match Ipv6RawExtHeader::from_slice(bytes) {
        Ok((header, rest)) => {
            let (prefix, after) = bytes.split_at(header.header_len().min(bytes.len()));
            Ok((
                header.next_header,
                header.header_len(),
                header.to_bytes().as_slice() == prefix,
                prefix.get(2..) == Some(header.payload()),
                rest == after,
            ))
        }
        Err(error) => Err(missing_of(error, bytes.len())),
    }
}

/// A prefix of `RAW`.
pub fn raw_prefix(len: usize) -> Result<(IpNumber, usize, bool, bool, bool), Missing> {
    raw(prefix(&RAW, len))
}

/// A prefix of the greatest raw header and a byte.
pub fn greatest_raw(len: usize) -> Result<(IpNumber, usize, bool, bool, bool), Missing> {
    let mut bytes = [3; 2049];
    bytes[1] = 255;
    raw(prefix(&bytes, len))
}

#[test]
fn raw_headers_and_their_rest(rt: HostRuntime) {
    rows(
        rt,
        Call::Raw,
        "0..8: Err((8, 0, Slice, Ipv6ExtHeader, 0))
        8..16: Err((16, 0, Slice, Ipv6ExtHeader, 0))
        16..19: Ok((IpNumber(17), 16, true, true, true))",
    );
}

#[test]
fn the_greatest_raw_header(rt: HostRuntime) {
    shows(rt, "MAX_LEN", &Ipv6RawExtHeader::MAX_LEN, "2048");
    rows(
        rt,
        Call::GreatestRaw,
        "2047: Err((2048, 0, Slice, Ipv6ExtHeader, 0))
        2049: Ok((IpNumber(3), 2048, true, true, true))",
    );
}

#[test]
fn a_raw_header_is_appended(rt: HostRuntime) {
    holds(rt, is_appended(rt.alloc(), Kind::Raw, &RAW, &RAW[..16]));
}

// Whether a view is that of its own bytes, its copy, and that of a header with these bytes.
fn raw_view_is_itself(view: &Ipv6RawExtHeaderSlice<'_>) -> bool {
    let of_bytes = Ipv6RawExtHeaderSlice::of_bytes(view.slice());
    let is_copy = is_copy(view.clone(), &of_bytes);
    is_copy && view.to_header().to_bytes().as_slice() == view.slice()
}

/// What a view of a prefix of `RAW` shows: its bytes, its number and its payload; and whether it is
/// itself.
pub fn raw_view(len: usize) -> Result<(&'static [u8], IpNumber, &'static [u8], bool), Missing> {
    match Ipv6RawExtHeaderSlice::from_slice(prefix(&RAW, len)) {
        Ok(view) => Ok((
            view.slice(),
            view.next_header(),
            view.payload(),
            raw_view_is_itself(&view),
        )),
        Err(error) => Err(missing_of(error, len)),
    }
}

#[test]
fn views_of_raw_headers(rt: HostRuntime) {
    rows(
        rt,
        Call::RawView,
        "0..8: Err((8, 0, Slice, Ipv6ExtHeader, 0))
        8..16: Err((16, 0, Slice, Ipv6ExtHeader, 0))
        16..19: Ok(([17, 1, 1, 4, 0, 0, 0, 0, 1, 6, 0, 0, 0, 0, 0, 0], IpNumber(17), \
            [1, 4, 0, 0, 0, 0, 1, 6, 0, 0, 0, 0, 0, 0], true))",
    );
}

/// Whether headers and views have the layout of a raw header after this number.
pub fn raw_number(number: usize) -> Option<(bool, bool)> {
    match u8::try_from(number) {
        Ok(number) => Some((
            Ipv6RawExtHeader::header_type_supported(IpNumber(number)),
            Ipv6RawExtHeaderSlice::header_type_supported(IpNumber(number)),
        )),
        Err(_) => None,
    }
}

#[test]
fn numbers_of_raw_headers(rt: HostRuntime) {
    rows(
        rt,
        Call::RawNumber,
        "0: Some((true, true))
        1..43: Some((false, false))
        43: Some((true, true))
        44..60: Some((false, false))
        60: Some((true, true))
        61..135: Some((false, false))
        135: Some((true, true))
        136..139: Some((false, false))
        139..141: Some((true, true))
        141..256: Some((false, false))",
    );
}

// A header with so many bytes of payload, at most 2100.
fn raw_of_len(len: usize) -> Result<Ipv6RawExtHeader, ExtPayloadLenError> {
    Ipv6RawExtHeader::new_raw(IpNumber::TCP, prefix(&[7; 2100], len))
}

/// The length of its payload and its own, or why there is none.
pub fn raw_lens(len: usize) -> Result<(usize, usize), ExtPayloadLenError> {
    match raw_of_len(len) {
        Ok(header) => Ok((header.payload().len(), header.header_len())),
        Err(error) => Err(error),
    }
}

#[test]
fn lengths_of_raw_payloads(rt: HostRuntime) {
    rows(
        rt,
        Call::RawLens,
        "6: Ok((6, 8))
        14: Ok((14, 16))
        22: Ok((22, 24))
        2038: Ok((2038, 2040))
        2046: Ok((2046, 2048))
        0: Err(TooSmall(0))
        5: Err(TooSmall(5))
        7: Err(Unaligned(7))
        8: Err(Unaligned(8))
        13: Err(Unaligned(13))
        15: Err(Unaligned(15))
        2045: Err(Unaligned(2045))
        2047: Err(TooBig(2047))
        2048: Err(TooBig(2048))
        2054: Err(TooBig(2054))",
    );
}

/// How a header takes a payload of six bytes and then one of so many, and its bytes.
pub fn raw_changed(len: usize) -> Option<(bool, Result<(), ExtPayloadLenError>, bool)> {
    let mut header = raw_of_len(14).ok()?;
    let is_taken = header.set_payload(&[1, 2, 3, 4, 5, 6]).is_ok();
    let taken = header.set_payload(prefix(&[9; 2100], len));
    let bytes = [6, 0, 1, 2, 3, 4, 5, 6];
    let is_kept = header.to_bytes().as_slice() == bytes.as_slice()
        && header.payload() == &bytes[2..];
    Some((is_taken, taken, is_kept))
}

#[test]
fn a_raw_payload_is_changed(rt: HostRuntime) {
    rows(
        rt,
        Call::RawChanged,
        "7: Some((true, Err(Unaligned(7)), true))
        5: Some((true, Err(TooSmall(5)), true))
        6: Some((true, Ok(()), false))",
    );
}

type Fields = (IpNumber, u16, bool, u32);

// The fields of a fragment header.
fn fields(header: &Ipv6FragmentHeader) -> Fields {
    (
        header.next_header,
        header.fragment_offset.value(),
        header.more_fragments,
        header.identification,
    )
}

/// The fields of a header at a prefix of `FRAGMENT`, its length, its bytes and the rest.
pub fn fragment(len: usize) -> Result<(Fields, usize, [u8; 8], &'static [u8]), Missing> {
    match Ipv6FragmentHeader::from_slice(prefix(&FRAGMENT, len)) {
        Ok((header, rest)) => Ok((
            fields(&header),
            header.header_len(),
            header.to_bytes(),
            rest,
        )),
        Err(error) => Err(missing_of(error, len)),
    }
}

// Reserved bits are cleared.
#[test]
fn fragment_headers_and_their_rest(rt: HostRuntime) {
    rows(
        rt,
        Call::Fragment,
        "0..8: Err((8, 0, Slice, Ipv6FragHeader, 0))
        10: Ok(((IpNumber(58), 5497, true, 305419896), 8, \
            [58, 0, 171, 201, 18, 52, 86, 120], [170, 187]))",
    );
}

// The fields of a header that is made of them.
fn made_fragment() -> Option<Fields> {
    let offset = IpFragOffset::try_new(0x1579).ok()?;
    let made = Ipv6FragmentHeader::new(IpNumber::IPV6_ICMP, offset, true, 0x1234_5678);
    Some(fields(&made))
}

#[test]
fn a_fragment_header_of_fields(rt: HostRuntime) {
    let wanted = "Some((IpNumber(58), 5497, true, 305419896))";
    shows(rt, "new", &made_fragment(), wanted);
}

#[test]
fn a_fragment_header_is_appended(rt: HostRuntime) {
    // Reserved bits are cleared.
    let written = [58, 0, 0xab, 0xc9, 0x12, 0x34, 0x56, 0x78];
    let is_so = is_appended(rt.alloc(), Kind::Fragment, &FRAGMENT, &written);
    holds(rt, is_so);
}

// Whether a view is that of its own bytes, its copy, and that of a header with its fields.
fn fragment_view_is_itself(view: &Ipv6FragmentHeaderSlice<'_>) -> bool {
    let of_bytes = Ipv6FragmentHeaderSlice::of_bytes(view.slice());
    let is_copy = is_copy(view.clone(), &of_bytes);
    is_copy && view.to_header().identification == view.identification()
}

/// What a view of a prefix of `FRAGMENT` shows: its bytes and its fields; and whether it is itself.
pub fn fragment_view(len: usize) -> Result<(&'static [u8], Fields, bool), Missing> {
    match Ipv6FragmentHeaderSlice::from_slice(prefix(&FRAGMENT, len)) {
        Ok(view) => Ok((
            view.slice(),
            (
                view.next_header(),
                view.fragment_offset().value(),
                view.more_fragments(),
                view.identification(),
            ),
            fragment_view_is_itself(&view),
        )),
        Err(error) => Err(missing_of(error, len)),
    }
}

#[test]
fn views_of_fragment_headers(rt: HostRuntime) {
    rows(
        rt,
        Call::FragmentView,
        "0..8: Err((8, 0, Slice, Ipv6FragHeader, 0))
        10: Ok(([58, 255, 171, 205, 18, 52, 86, 120], \
            (IpNumber(58), 5497, true, 305419896), true))",
    );
}

/// What the view of a fragment header says that has this number for its offset and flag, and what
/// its header says.
pub fn is_fragmenting(number: usize) -> Option<(bool, bool)> {
    let [offset, more] = u16::try_from(number).ok()?.to_be_bytes();
    match Ipv6FragmentHeaderSlice::from_slice(&[0, 0, offset, more, 1, 2, 3, 4]) {
        Ok(view) => Some((
            view.is_fragmenting_payload(),
            view.to_header().is_fragmenting_payload(),
        )),
        Err(_) => None,
    }
}

// An offset in the first byte, in the second, the flag, the greatest offset; and reserved bits
// alone, and nothing.
#[test]
fn which_fragment_headers_fragment(rt: HostRuntime) {
    rows(
        rt,
        Call::Fragmenting,
        "256: Some((true, true))
        8: Some((true, true))
        1: Some((true, true))
        65528: Some((true, true))
        6: Some((false, false))
        0: Some((false, false))",
    );
}
