//! Raw extension headers of IPv6 as borrowed bytes.

ghost use Rattle.std.specs.Prelude.{◌≡◌, ℕ, List, drop, Ok, nat_eq};
ghost use Rattle.std.specs.Cmp.Lexicographic.{pointwise};
ghost use Rattle.std.specs.Cmp.Rules.{comparing};
ghost use Rattle.std.proofs.Common.{rules};
ghost use Rattle.ep_base.specs.Bytes.{num};
ghost use Rattle.ep_ext.specs.Raw.{IsRawExt, raw_of, raw_at, is_raw_number};

use super::Ipv6RawExtHeader;
use ep_base::IpNumber;
use ep_base::err::LenError;
use std::marker::Model;

/// The bytes of a raw extension header (see `Ipv6RawExtHeader`), borrowed. They were tested when
/// the value was made, so that getters test nothing. A contract sees the value as those bytes.
#[derive(Clone, Debug, Drop)]
pub struct Ipv6RawExtHeaderSlice<'a> {
    slice: &'a [u8],
}

impl<'a> Model for Ipv6RawExtHeaderSlice<'a> {
    ghost Value = { List ℕ };

    ghost view = { λ header. header.slice.now };

    ghost invariant = { λ header. IsRawExt header.slice.now };
}

impl<'a> Ipv6RawExtHeaderSlice<'a> {
    /// Whether a header of this number has the layout: 0, 43, 60, 135, 139 and 140.
    pub fn header_type_supported(next_header: IpNumber) -> bool
        ensures { result ≡ is_raw_number next_header.0 }
    {
        Ipv6RawExtHeader::header_type_supported(next_header)
    }

    /// The header at the start of the slice. It is refused as by `Ipv6RawExtHeader::from_slice`.
    ///
    /// By the law [`headers_are_found`](crate::laws::headers::headers_are_found) what is taken is a
    /// header and a prefix of the slice, and a prefix that is a header is taken.
    pub fn from_slice(slice: &'a [u8]) -> Result<Ipv6RawExtHeaderSlice<'a>, LenError>
        ensures exact { result ≡ raw_at slice.now }
    {
        match Ipv6RawExtHeader::split(slice) {
            Ok((prefix, _rest)) => Ok(Ipv6RawExtHeaderSlice { slice: prefix }),
            Err(error) => Err(error),
        }
    }

    /// The header that these bytes are, for a caller who has tested them: nothing is tested again.
    pub fn of_bytes(header: &'a [u8]) -> Self
        requires { IsRawExt header.now }
        ensures { result ≡ header.now }
    {
        Ipv6RawExtHeaderSlice { slice: header }
    }

    /// The header's bytes.
    pub fn slice(&self) -> &'a [u8]
        ensures bytes { result.now ≡ self.now }
        ensures header { IsRawExt self.now }
    {
        self.slice
    }

    /// The number of the header that follows.
    pub fn next_header(&self) -> IpNumber
        ensures { result.0 ≡ num self.now 0 1 }
    {
        IpNumber(self.slice[0])
    }

    /// The bytes after the first two.
    pub fn payload(&self) -> &'a [u8]
        ensures { result.now ≡ drop 2 self.now }
    {
        &self.slice[2..]
    }

    /// The fields.
    pub fn to_header(&self) -> Ipv6RawExtHeader
        ensures { result ≡ raw_of self.now }
    {
        Ipv6RawExtHeader::of_bytes(self.slice)
    }
}

impl<'a> PartialEq for Ipv6RawExtHeaderSlice<'a> {
    ghost eq = { pointwise nat_eq };

    ghost laws = { Prim.search (comparing, rules) };

    fn eq(&self, other: &Self) -> bool {
        self.slice == other.slice
    }
}

impl<'a> Eq for Ipv6RawExtHeaderSlice<'a> {
    ghost laws = { Prim.search (comparing, rules) };
}
