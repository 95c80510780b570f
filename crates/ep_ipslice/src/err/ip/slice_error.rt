//! Why a slice begins with no IP packet of either version.

ghost use Rattle.std.specs.Prelude.{◌≡◌};
ghost use Rattle.ep_ipslice.specs.IpSlice.{ipv4_fault, ipv6_fault};

use super::{HeaderError, HeadersError};
use crate::err::{ipv4, ipv6};
use ep_base::err::LenError;
use thiserror::Error;

/// Why no IP packet could be read from a slice.
#[derive(Clone, Copy, Debug, PartialEq, Eq, Hash, Error)]
pub enum SliceError {
    /// Fewer bytes are there than a layer needs.
    #[error("{0}")]
    Len(LenError),
    /// A header breaks its format.
    #[error("{0}")]
    IpHeaders(HeadersError),
}

impl SliceError {
    /// The fault of a packet of version 4.
    pub fn of_ipv4(error: ipv4::SliceError) -> Self
        ensures { result ≡ ipv4_fault error }
    {
        match error {
            ipv4::SliceError::Len(error) => SliceError::Len(error),
            ipv4::SliceError::Header(error) => {
                SliceError::IpHeaders(HeadersError::Ip(HeaderError::of_ipv4(error)))
            }
            ipv4::SliceError::Exts(error) => SliceError::IpHeaders(HeadersError::Ipv4Ext(error)),
        }
    }

    /// The fault of a packet of version 6.
    pub fn of_ipv6(error: ipv6::SliceError) -> Self
        ensures { result ≡ ipv6_fault error }
    {
        match error {
            ipv6::SliceError::Len(error) => SliceError::Len(error),
            ipv6::SliceError::Header(error) => {
                SliceError::IpHeaders(HeadersError::Ip(HeaderError::of_ipv6(error)))
            }
            ipv6::SliceError::Exts(error) => SliceError::IpHeaders(HeadersError::Ipv6Ext(error)),
        }
    }
}
