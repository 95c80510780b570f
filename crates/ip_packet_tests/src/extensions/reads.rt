//! Headers of each kind from readers, with a limit and without. The calls have no contracts: tests
//! alone make them, and are run.

use super::headers::{Missing, missing};
use super::kinds::Kind;
use ep_base::IpNumber;
use ep_ext::err::io::LimitedReadError;
use ep_ext::err::ip_auth;
use ep_ext::err::ipv6_exts::{HeaderError, HeaderLimitedReadError, HeaderReadError};
use ep_ext::io::LimitedReader;
use ep_ext::{IpAuthHeader, Ipv4Extensions, Ipv6Extensions, Ipv6FragmentHeader, Ipv6RawExtHeader};
use fault_devices::FaultReader;
use std::io::{self, ErrorKind};

/// Why nothing is read.
#[derive(Clone, Copy, Debug)]
pub enum Refusal {
    Io(ErrorKind),
    Len(Missing),
    Content(HeaderError),
}

/// Whether what is read has the bytes that are wanted, and the number that it names.
pub type Read = Result<(bool, IpNumber), Refusal>;

pub type Limited<'a> = LimitedReader<FaultReader<'a>>;

fn raw_is(header: &Ipv6RawExtHeader, bytes: &[u8]) -> Read {
    Ok((header.to_bytes().as_slice() == bytes, header.next_header))
}

fn fragment_is(header: &Ipv6FragmentHeader, bytes: &[u8]) -> Read {
    Ok((header.to_bytes().as_slice() == bytes, header.next_header))
}

fn auth_is(header: &IpAuthHeader, bytes: &[u8]) -> Read {
    Ok((header.to_bytes().as_slice() == bytes, header.next_header))
}

// Headers in a row are compared with those of the slice.
fn ipv4_is(headers: &Ipv4Extensions, number: IpNumber, first: u8, bytes: &[u8]) -> Read {
    let wanted = Ipv4Extensions::from_slice_lax(IpNumber(first), bytes).0;
    Ok((headers == &wanted, number))
}

fn ipv6_is(headers: &Ipv6Extensions, number: IpNumber, first: u8, bytes: &[u8]) -> Read {
    let wanted = Ipv6Extensions::from_slice_lax(IpNumber(first), bytes).0;
    Ok((headers == &wanted, number))
}

fn failed(error: io::Error) -> Read {
    Err(Refusal::Io(error.kind()))
}

fn broken(fault: ip_auth::HeaderError) -> Read {
    Err(Refusal::Content(HeaderError::IpAuth(fault)))
}

fn read_raw(reader: &mut FaultReader<'_>, bytes: &[u8]) -> Read {
    match Ipv6RawExtHeader::read(reader) {
        Ok(header) => raw_is(&header, bytes),
        Err(error) => failed(error),
    }
}

fn read_fragment(reader: &mut FaultReader<'_>, bytes: &[u8]) -> Read {
    match Ipv6FragmentHeader::read(reader) {
        Ok(header) => fragment_is(&header, bytes),
        Err(error) => failed(error),
    }
}

fn unread_auth(error: ip_auth::HeaderReadError) -> Read {
    match error {
        ip_auth::HeaderReadError::Io(error) => failed(error),
        ip_auth::HeaderReadError::Content(fault) => broken(fault),
    }
}

fn read_auth(reader: &mut FaultReader<'_>, bytes: &[u8]) -> Read {
    match IpAuthHeader::read(reader) {
        Ok(header) => auth_is(&header, bytes),
        Err(error) => unread_auth(error),
    }
}

fn read_ipv4(reader: &mut FaultReader<'_>, first: u8, bytes: &[u8]) -> Read {
    match Ipv4Extensions::read(reader, IpNumber(first)) {
        Ok((headers, number)) => ipv4_is(&headers, number, first, bytes),
        Err(error) => unread_auth(error),
    }
}

fn read_ipv6(reader: &mut FaultReader<'_>, first: u8, bytes: &[u8]) -> Read {
    match Ipv6Extensions::read(reader, IpNumber(first)) {
        Ok((headers, number)) => ipv6_is(&headers, number, first, bytes),
        Err(HeaderReadError::Io(error)) => failed(error),
        Err(HeaderReadError::Content(fault)) => Err(Refusal::Content(fault)),
    }
}

/// Reads what is of this kind.
pub fn read(kind: Kind, reader: &mut FaultReader<'_>, bytes: &[u8]) -> Read {
    match kind {
        Kind::Raw => read_raw(reader, bytes),
        Kind::Fragment => read_fragment(reader, bytes),
        Kind::Auth => read_auth(reader, bytes),
        Kind::Ipv4(first) => read_ipv4(reader, first, bytes),
        Kind::Ipv6(first) => read_ipv6(reader, first, bytes),
    }
}

/// Why a read within a limit gives nothing.
pub fn unread_limited(error: LimitedReadError) -> Refusal {
    match error {
        LimitedReadError::Io(error) => Refusal::Io(error.kind()),
        LimitedReadError::Len(error) => Refusal::Len(missing(error)),
    }
}

fn limited_raw(reader: &mut Limited<'_>, bytes: &[u8]) -> Read {
    match Ipv6RawExtHeader::read_limited(reader) {
        Ok(header) => raw_is(&header, bytes),
        Err(error) => Err(unread_limited(error)),
    }
}

fn limited_fragment(reader: &mut Limited<'_>, bytes: &[u8]) -> Read {
    match Ipv6FragmentHeader::read_limited(reader) {
        Ok(header) => fragment_is(&header, bytes),
        Err(error) => Err(unread_limited(error)),
    }
}

fn unread_limited_auth(error: ip_auth::HeaderLimitedReadError) -> Read {
    match error {
        ip_auth::HeaderLimitedReadError::Io(error) => failed(error),
        ip_auth::HeaderLimitedReadError::Len(error) => Err(Refusal::Len(missing(error))),
        ip_auth::HeaderLimitedReadError::Content(fault) => broken(fault),
    }
}

fn limited_auth(reader: &mut Limited<'_>, bytes: &[u8]) -> Read {
    match IpAuthHeader::read_limited(reader) {
        Ok(header) => auth_is(&header, bytes),
        Err(error) => unread_limited_auth(error),
    }
}

fn limited_ipv4(reader: &mut Limited<'_>, first: u8, bytes: &[u8]) -> Read {
    match Ipv4Extensions::read_limited(reader, IpNumber(first)) {
        Ok((headers, number)) => ipv4_is(&headers, number, first, bytes),
        Err(error) => unread_limited_auth(error),
    }
}

fn limited_ipv6(reader: &mut Limited<'_>, first: u8, bytes: &[u8]) -> Read {
    match Ipv6Extensions::read_limited(reader, IpNumber(first)) {
        Ok((headers, number)) => ipv6_is(&headers, number, first, bytes),
        Err(HeaderLimitedReadError::Io(error)) => failed(error),
        Err(HeaderLimitedReadError::Len(error)) => Err(Refusal::Len(missing(error))),
        Err(HeaderLimitedReadError::Content(fault)) => Err(Refusal::Content(fault)),
    }
}

/// Reads what is of this kind within a limit.
pub fn read_limited(kind: Kind, reader: &mut Limited<'_>, bytes: &[u8]) -> Read {
    match kind {
        Kind::Raw => limited_raw(reader, bytes),
        Kind::Fragment => limited_fragment(reader, bytes),
        Kind::Auth => limited_auth(reader, bytes),
        Kind::Ipv4(first) => limited_ipv4(reader, first, bytes),
        Kind::Ipv6(first) => limited_ipv6(reader, first, bytes),
    }
}
