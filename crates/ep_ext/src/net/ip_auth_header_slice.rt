//! Authentication headers as borrowed bytes.

ghost use Rattle.std.specs.Prelude.{◌≡◌, ℕ, List, ◌++◌, drop, IfOk, IfErr, Ok, Err, nat_eq};
ghost use Rattle.std.specs.Cmp.Lexicographic.{pointwise};
ghost use Rattle.std.specs.Cmp.Rules.{comparing};
ghost use Rattle.std.proofs.Common.{rules};
ghost use Rattle.ep_ext.specs.Auth.{IsAuth, auth_of, auth_at};

use super::IpAuthHeader;
use super::auth_icv::AuthIcv;
use crate::err::ip_auth::{HeaderError, HeaderSliceError};
use ep_base::IpNumber;
use ep_base::err::{Layer, LenError};
use std::marker::Model;

/// The bytes of an authentication header (RFC 4302, section 2), borrowed. They were tested when the
/// value was made, so that getters test nothing. A contract sees the value as those bytes.
#[derive(Clone, Debug, Drop)]
pub struct IpAuthHeaderSlice<'a> {
    slice: &'a [u8],
}

impl<'a> Model for IpAuthHeaderSlice<'a> {
    ghost Value = { List ℕ };

    ghost view = { λ header. header.slice.now };

    ghost invariant = { λ header. IsAuth header.slice.now };
}

impl<'a> IpAuthHeaderSlice<'a> {
    /// The header at the start of the slice. It is refused as by `IpAuthHeader::from_slice`.
    ///
    /// By the law [`headers_are_found`](crate::laws::headers::headers_are_found) what is taken is a
    /// header and a prefix of the slice, and a prefix that is a header is taken.
    pub fn from_slice(slice: &'a [u8]) -> Result<IpAuthHeaderSlice<'a>, HeaderSliceError>
        ensures exact { result ≡ auth_at slice.now }
    {
        match Self::split(slice) {
            Ok((header, _rest)) => Ok(header),
            Err(error) => Err(error),
        }
    }

    // The header at the start of the slice, and what follows it.
    pub(crate) fn split(
        slice: &'a [u8],
    ) -> Result<(IpAuthHeaderSlice<'a>, &'a [u8]), HeaderSliceError>
        ensures found { IfOk result (λ r. IsAuth r.0 × (slice.now ≡ r.0 ++ r.1.now)) }
        ensures err { IfErr result (λ e. auth_at slice.now ≡ Err e) }
    {
        if slice.len() < IpAuthHeader::MIN_LEN {
            return Err(HeaderSliceError::Len(LenError::too_few_bytes(
                Layer::IpAuthHeader,
                IpAuthHeader::MIN_LEN,
                slice.len(),
            )));
        }
        if slice[1] == 0 {
            return Err(HeaderSliceError::Content(HeaderError::ZeroPayloadLen));
        }
        let len = IpAuthHeader::len_by(slice[1]);
        if slice.len() < len {
            return Err(HeaderSliceError::Len(LenError::too_few_bytes(
                Layer::IpAuthHeader,
                len,
                slice.len(),
            )));
        }
        let (prefix, rest) = slice.split_at(len);
        Ok((Self::of_bytes(prefix), rest))
    }

    /// The header that these bytes are, for a caller who has tested them: nothing is tested again.
    pub fn of_bytes(header: &'a [u8]) -> Self
        requires { IsAuth header.now }
        ensures { result ≡ header.now }
    {
        IpAuthHeaderSlice { slice: header }
    }

    /// The header's bytes.
    pub fn slice(&self) -> &'a [u8]
        ensures bytes { result.now ≡ self.now }
        ensures header { IsAuth self.now }
    {
        self.slice
    }

    /// The number of the header that follows.
    pub fn next_header(&self) -> IpNumber
        ensures { result ≡ (auth_of self.now).next_header }
    {
        IpNumber(self.slice[0])
    }

    /// The security parameters index.
    pub fn spi(&self) -> u32
        ensures { result ≡ (auth_of self.now).spi }
    {
        u32::from_be_bytes([self.slice[4], self.slice[5], self.slice[6], self.slice[7]])
    }

    /// The sequence number.
    pub fn sequence_number(&self) -> u32
        ensures { result ≡ (auth_of self.now).sequence_number }
    {
        u32::from_be_bytes([self.slice[8], self.slice[9], self.slice[10], self.slice[11]])
    }

    /// The integrity check value, with its padding.
    pub fn raw_icv(&self) -> &'a [u8]
        ensures { result.now ≡ drop 12 self.now }
    {
        &self.slice[12..]
    }

    // Writes the fields into the header. Nothing is moved but the bytes.
    pub(super) fn put_into(&self, header: &mut IpAuthHeader)
        ensures { header.new ≡ auth_of self.now }
    {
        let _words = self.slice[1];
        header.next_header = self.next_header();
        header.spi = self.spi();
        header.sequence_number = self.sequence_number();
        header.icv.fill(self.raw_icv());
    }

    /// The fields.
    pub fn to_header(&self) -> IpAuthHeader
        ensures { result ≡ auth_of self.now }
    {
        let _words = self.slice[1];
        IpAuthHeader {
            next_header: self.next_header(),
            spi: self.spi(),
            sequence_number: self.sequence_number(),
            icv: AuthIcv::of_bytes(self.raw_icv()),
        }
    }
}

impl<'a> PartialEq for IpAuthHeaderSlice<'a> {
    ghost eq = { pointwise nat_eq };

    ghost laws = { Prim.search (comparing, rules) };

    fn eq(&self, other: &Self) -> bool {
        self.slice == other.slice
    }
}

impl<'a> Eq for IpAuthHeaderSlice<'a> {
    ghost laws = { Prim.search (comparing, rules) };
}
