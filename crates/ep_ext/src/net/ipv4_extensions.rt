//! Extension headers of IPv4 packets as values, read from slices and written.

ghost use Rattle.std.specs.Prelude.{◌≡◌, ◌+◌, ◌≤◌, ◌<◌, ◌^◌, ℕ, List, IfOk, IfErr, IsOkAnd, MatchOption, Err, Ok, None};
ghost use Rattle.std.specs.Prelude.{Some, Option, is_some, is_none, if◌then◌else◌, length, vec_len, vec_capacity};
ghost use Rattle.ep_ext.specs.Auth.{IsAuth, auth_of, auth_encoding};
ghost use Rattle.ep_base.specs.SliceError.{CanMove};
ghost use Rattle.ep_ext.specs.declared.net.ip_auth_header.IpAuthHeader.{IpAuthHeader};
ghost use Rattle.ep_ext.specs.Ipv4Exts.{Ipv4Chain, auth_after, ipv4_exts_of, number_after, ipv4_exts_encoding};
ghost use Rattle.ep_ext.specs.Ipv4Exts.{auth_number, ipv4_with_link, ipv4_walk_fault, NamesAfter, AppendsNamed};
ghost use Rattle.ep_ext.specs.declared.err.ipv4_exts.header_write_error.HeaderWriteError.TheVariants.{Memory};

use super::IpAuthHeader;
use crate::err::ip_auth::HeaderSliceError;
use crate::err::ipv4_exts::{ExtsWalkError, HeaderWriteError};
use ep_base::IpNumber;

/// The extension headers of an IPv4 packet: an authentication header, where the packet's protocol
/// is 51 (RFC 4302, section 3.1.1). No other number names one over IPv4.
#[derive(Clone, Debug, Default, PartialEq, Eq, Drop)]
pub struct Ipv4Extensions {
    /// The authentication header.
    pub auth: Option<IpAuthHeader>,
}

impl Ipv4Extensions {
    /// The length in bytes of no header.
    pub const MIN_LEN: usize = 0;

    /// The greatest length in bytes.
    pub const MAX_LEN: usize = 1028;

    /// The extension headers at the start of the slice after the number `first`, the number after
    /// them and the rest.
    ///
    /// A number other than 51 leaves all of the slice as the rest. At 51 it is refused with `Len`
    /// where fewer than 12 bytes are there, then with `Content` at a length field of 0, and then
    /// with `Len` where the header isn't whole.
    pub fn from_slice(
        first: IpNumber,
        slice: &[u8],
    ) -> Result<(Ipv4Extensions, IpNumber, &[u8]), HeaderSliceError>
        ensures found { IfOk result (λ r. (auth : Option (List ℕ))
            × Ipv4Chain first.0 slice.now auth r.2.now
            × (r.0 ≡ ipv4_exts_of auth) × (r.1.0 ≡ number_after first.0 auth)) }
        ensures only { (auth : Option (List ℕ)) (rest : List ℕ)
            → Ipv4Chain first.0 slice.now auth rest
            → IsOkAnd result (λ r. (r.0 ≡ ipv4_exts_of auth)
            × (r.1.0 ≡ number_after first.0 auth) × (r.2.now ≡ rest)) }
        ensures err { IfErr result (λ e. auth_after first.0 slice.now ≡ Err e) }
        // An error of too few bytes is that of a header at the start of the slice.
        ensures offset { IfErr result (λ e. (n : ℕ) → n < 2 ^ 64 → CanMove e n) }
    {
        if first != IpNumber::AUTHENTICATION_HEADER {
            return Ok((Ipv4Extensions { auth: None }, first, slice));
        }
        match IpAuthHeader::from_slice(slice) {
            Ok((header, rest)) => {
                let next = header.next_header;
                Ok((Ipv4Extensions { auth: Some(header) }, next, rest))
            }
            Err(error) => Err(error),
        }
    }

    /// The same, but where `from_slice` refuses: no header, the number 51, the whole slice, and why
    /// there is no header.
    pub fn from_slice_lax(
        first: IpNumber,
        slice: &[u8],
    ) -> (Ipv4Extensions, IpNumber, &[u8], Option<HeaderSliceError>)
        ensures found { MatchOption result.3
            ((auth : Option (List ℕ)) × Ipv4Chain first.0 slice.now auth result.2.now
            × (result.0 ≡ ipv4_exts_of auth) × (result.1.0 ≡ number_after first.0 auth))
            (λ e. (auth_after first.0 slice.now ≡ Err e)
            × (result.0 ≡ ipv4_exts_of None) × (result.1 ≡ first) × (result.2.now ≡ slice.now)) }
        ensures only { (auth : Option (List ℕ)) (rest : List ℕ)
            → Ipv4Chain first.0 slice.now auth rest
            → (result.0 ≡ ipv4_exts_of auth) × (result.1.0 ≡ number_after first.0 auth)
            × (result.2.now ≡ rest) × (result.3 ≡ None) }
    {
        match Self::from_slice(first, slice) {
            Ok((extensions, number, rest)) => (extensions, number, rest, None),
            Err(error) => (Ipv4Extensions { auth: None }, first, slice, Some(error)),
        }
    }

    /// The number after the header, or `first` where there is none. A header that `first` doesn't
    /// name is refused.
    pub fn next_header(&self, first: IpNumber) -> Result<IpNumber, ExtsWalkError>
        ensures { NamesAfter self.now first.0 result }
    {
        match &self.auth {
            None => Ok(first),
            Some(header) => {
                if first == IpNumber::AUTHENTICATION_HEADER {
                    Ok(header.next_header)
                } else {
                    Err(ExtsWalkError::ExtNotReferenced {
                        missing_ext: IpNumber::AUTHENTICATION_HEADER,
                    })
                }
            }
        }
    }

    /// Appends the header, if there is one. A header that `first` doesn't name is refused before
    /// memory is allocated; on `Err` the buffer keeps its bytes.
    pub fn write(&self, buffer: &mut Vec<u8>, first: IpNumber) -> Result<(), HeaderWriteError>
        ensures appends { AppendsNamed self.now first.0 buffer.old.items buffer.new.items result }
        // It runs out of memory only where the capacity was too small; the capacity never shrinks.
        ensures memory { result ≡ Err Memory
            → vec_capacity buffer.old < vec_len buffer.old + length (ipv4_exts_encoding self.now) }
        ensures capacity { vec_capacity buffer.old ≤ vec_capacity buffer.new }
    {
        if let Err(fault) = self.next_header(first) {
            return Err(HeaderWriteError::Content(fault));
        }
        match &self.auth {
            None => Ok(()),
            Some(header) => match header.write(buffer) {
                Ok(()) => Ok(()),
                Err(_) => Err(HeaderWriteError::Memory),
            },
        }
    }

    /// The length of the header in bytes, 0 where there is none.
    pub fn header_len(&self) -> usize
        ensures value { result ≡ length (ipv4_exts_encoding self.now) }
        ensures most { result ≤ 1028 }
    {
        match &self.auth {
            Some(header) => header.header_len(),
            None => 0,
        }
    }

    /// Makes the header name `last`, and returns the number that names the header; `last` itself
    /// where there is no header.
    pub fn set_next_headers(&mut self, last: IpNumber) -> IpNumber
        ensures linked { self.new ≡ ipv4_with_link self.old last.0 }
        ensures first { result.0 ≡ (if is_some self.old.auth then auth_number else last.0) }
        ensures chained { NamesAfter self.new result.0 (Ok last) }
    {
        match &mut self.auth {
            Some(header) => {
                header.next_header = last;
                IpNumber::AUTHENTICATION_HEADER
            }
            None => last,
        }
    }

    /// Whether there is no header.
    pub fn is_empty(&self) -> bool
        ensures { result ≡ is_none self.now.auth }
    {
        self.auth.is_none()
    }

    // A header that is held has whole bytes, which are read as that header.
    pub(crate) fn has_whole_header(&self)
        ensures { (header : IpAuthHeader) → self.now.auth ≡ Some header
            → IsAuth (auth_encoding header) × (auth_of (auth_encoding header) ≡ header) }
    {
        if let Some(header) = &self.auth {
            header.header_len();
        }
    }
}
