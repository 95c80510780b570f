//! The extension header of an IPv4 packet.

ghost use Rattle.std.specs.Prelude.{◌≡◌, ◌++◌, MatchResult, Option, Ok, Err, is_none};
ghost use Rattle.std.specs.Option.{option_map};
ghost use Rattle.ep_ext.specs.Auth.{auth_of};
ghost use Rattle.ep_ipslice.specs.Ipv4Lax.{IsLaxAnswer};
ghost use Rattle.ep_ext.specs.Ipv4Exts.{auth_after, auth_bytes, number_after};

use ep_base::IpNumber;
use ep_ext::err::ip_auth::HeaderSliceError;
use ep_ext::{IpAuthHeaderSlice, Ipv4Extensions};

/// The one extension header that may follow an IPv4 header: an authentication header (RFC 4302,
/// section 3.1.1), borrowed.
#[derive(Clone, Debug, Default, PartialEq, Eq, Drop)]
pub struct Ipv4ExtensionsSlice<'a> {
    /// The authentication header.
    pub auth: Option<IpAuthHeaderSlice<'a>>,
}

impl<'a> Ipv4ExtensionsSlice<'a> {
    /// The extension header at the start of the slice, if the number names one, the number after it
    /// and the bytes after it. The errors are those of [`IpAuthHeaderSlice::from_slice`].
    ///
    /// By the law [`headers_are_found`](ep_ext::laws::headers::headers_are_found) what is taken is a
    /// header that the number names, and such a header, or none where none is named, is taken.
    pub fn from_slice(
        first: IpNumber,
        slice: &'a [u8],
    ) -> Result<(Ipv4ExtensionsSlice<'a>, IpNumber, &'a [u8]), HeaderSliceError>
        ensures exact { MatchResult result (λ r. (auth_after first.0 slice.now ≡ Ok r.0.auth)
            × (slice.now ≡ auth_bytes r.0.auth ++ r.2.now)
            × (r.1.0 ≡ number_after first.0 r.0.auth))
            (λ e. auth_after first.0 slice.now ≡ Err e) }
    {
        if first != IpNumber::AUTHENTICATION_HEADER {
            return Ok((Ipv4ExtensionsSlice { auth: None }, first, slice));
        }
        match IpAuthHeaderSlice::from_slice(slice) {
            Ok(auth) => {
                let (_, rest) = slice.split_at(auth.slice().len());
                let next = auth.next_header();
                Ok((Ipv4ExtensionsSlice { auth: Some(auth) }, next, rest))
            }
            Err(error) => Err(error),
        }
    }

    /// The same up to the first fault, and the fault: where the header isn't whole or breaks its
    /// format, there is none, and number and bytes are those that were passed.
    pub fn from_slice_lax(
        first: IpNumber,
        slice: &'a [u8],
    ) -> (
        Ipv4ExtensionsSlice<'a>,
        IpNumber,
        &'a [u8],
        Option<HeaderSliceError>,
    )
        ensures { IsLaxAnswer first slice.now result.0.auth result.1 result.2.now result.3 }
    {
        match Ipv4ExtensionsSlice::from_slice(first, slice) {
            Ok((extensions, number, rest)) => (extensions, number, rest, None),
            Err(error) => (
                Ipv4ExtensionsSlice { auth: None },
                first,
                slice,
                Some(error),
            ),
        }
    }

    /// The header with its own fields; its bytes are copied.
    pub fn to_header(&self) -> Ipv4Extensions
        ensures { result ≡ record { auth = option_map auth_of self.now.auth } }
    {
        Ipv4Extensions {
            auth: match &self.auth {
                Some(auth) => Some(auth.to_header()),
                None => None,
            },
        }
    }

    /// Whether there is no header.
    pub fn is_empty(&self) -> bool
        ensures { result ≡ is_none self.now.auth }
    {
        self.auth.is_none()
    }
}
