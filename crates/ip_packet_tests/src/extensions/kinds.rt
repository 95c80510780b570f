//! Checks of headers of each kind alike: single ones, and those in a row after a first number. The
//! calls have no contracts: tests alone make them, and are run.

use ep_base::IpNumber;
use ep_ext::err::{ipv4_exts, ipv6_exts};
use ep_ext::{IpAuthHeader, Ipv4Extensions, Ipv6Extensions, Ipv6FragmentHeader, Ipv6RawExtHeader};
use std::alloc::Global;

/// A header, or headers in a row after this number.
#[derive(Clone, Copy)]
pub enum Kind {
    Raw,
    Fragment,
    Auth,
    Ipv4(u8),
    Ipv6(u8),
}

fn append_raw(bytes: &[u8], buffer: &mut Vec<u8>) -> Option<bool> {
    match Ipv6RawExtHeader::from_slice(bytes) {
        Ok((header, _)) => Some(header.write(buffer).is_ok()),
        Err(_) => None,
    }
}

fn append_fragment(bytes: &[u8], buffer: &mut Vec<u8>) -> Option<bool> {
    match Ipv6FragmentHeader::from_slice(bytes) {
        Ok((header, _)) => Some(header.write(buffer).is_ok()),
        Err(_) => None,
    }
}

fn append_auth(bytes: &[u8], buffer: &mut Vec<u8>) -> Option<bool> {
    match IpAuthHeader::from_slice(bytes) {
        Ok((header, _)) => Some(header.write(buffer).is_ok()),
        Err(_) => None,
    }
}

fn append_ipv4(first: u8, bytes: &[u8], buffer: &mut Vec<u8>) -> Option<bool> {
    let headers = Ipv4Extensions::from_slice_lax(IpNumber(first), bytes).0;
    Some(headers.write(buffer, IpNumber(first)) != Err(ipv4_exts::HeaderWriteError::Memory))
}

fn append_ipv6(first: u8, bytes: &[u8], buffer: &mut Vec<u8>) -> Option<bool> {
    let headers = Ipv6Extensions::from_slice_lax(IpNumber(first), bytes).0;
    Some(headers.write(buffer, IpNumber(first)) != Err(ipv6_exts::HeaderWriteError::Memory))
}

// Appends the bytes of the header at the start of these, if there is one, and returns whether there
// was memory.
fn append(kind: Kind, bytes: &[u8], buffer: &mut Vec<u8>) -> Option<bool> {
    match kind {
        Kind::Raw => append_raw(bytes, buffer),
        Kind::Fragment => append_fragment(bytes, buffer),
        Kind::Auth => append_auth(bytes, buffer),
        Kind::Ipv4(first) => append_ipv4(first, bytes, buffer),
        Kind::Ipv6(first) => append_ipv6(first, bytes, buffer),
    }
}

/// Whether the header at the start of these bytes is written so after a byte that is there.
pub fn is_appended(alloc: Global, kind: Kind, bytes: &[u8], written: &[u8]) -> bool {
    let mut buffer = Vec::new(alloc);
    if buffer.push(0x55).is_err() || append(kind, bytes, &mut buffer) != Some(true) {
        return false;
    }
    buffer.first() == Some(&0x55) && buffer.get(1..) == Some(written)
}

/// Whether a copy was made, and is the other.
pub fn is_copy<T: PartialEq + Drop, E: Drop>(copy: Result<T, E>, other: &T) -> bool {
    match copy {
        Ok(copy) => &copy == other,
        Err(_) => false,
    }
}

/// Whether all bytes of the header at the start of these are written or, where there is no memory,
/// none.
pub fn is_all_or_nothing(alloc: Global, kind: Kind, bytes: &[u8], written: &[u8]) -> bool {
    let mut buffer = Vec::new(alloc);
    match append(kind, bytes, &mut buffer) {
        Some(true) => buffer.as_slice() == written,
        Some(false) => buffer.is_empty(),
        None => false,
    }
}
