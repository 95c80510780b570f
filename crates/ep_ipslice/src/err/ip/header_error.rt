//! Faults in the bytes of IPv4 or IPv6 base headers.

ghost use Rattle.std.specs.Prelude.{◌≡◌};
ghost use Rattle.ep_ipslice.specs.LaxIp.{ipv4_header_fault, ipv6_header_fault, map_content};

use super::LaxHeaderSliceError;
use ep_ip::err::{ipv4, ipv6};
use thiserror::Error;

/// Why bytes are no IP base header of either version (RFC 791, section 3.1; RFC 8200, section 3).
#[derive(Clone, Copy, Debug, PartialEq, Eq, Hash, Error)]
pub enum HeaderError {
    /// The version is neither 4 nor 6.
    #[error("unsupported IP version {version_number}, which is neither 4 nor 6")]
    UnsupportedIpVersion {
        /// The version, the upper 4 bits of the first byte.
        version_number: u8,
    },
    /// An IPv4 header length of fewer than 5 words of 4 bytes.
    #[error("an IPv4 header length of {ihl} words of 4 bytes, where 5 are the least")]
    Ipv4HeaderLengthSmallerThanHeader {
        /// The header length in words of 4 bytes.
        ihl: u8,
    },
}

impl HeaderError {
    /// Why a slice starts with no IPv4 header, as a fault of either version.
    pub fn of_ipv4_slice(error: ipv4::HeaderSliceError) -> LaxHeaderSliceError
        ensures { result ≡ map_content ipv4_header_fault error }
    {
        match error {
            ipv4::HeaderSliceError::Len(error) => LaxHeaderSliceError::Len(error),
            ipv4::HeaderSliceError::Content(error) => {
                LaxHeaderSliceError::Content(HeaderError::of_ipv4(error))
            }
        }
    }

    /// Why a slice starts with no IPv6 header, as a fault of either version.
    pub fn of_ipv6_slice(error: ipv6::HeaderSliceError) -> LaxHeaderSliceError
        ensures { result ≡ map_content ipv6_header_fault error }
    {
        match error {
            ipv6::HeaderSliceError::Len(error) => LaxHeaderSliceError::Len(error),
            ipv6::HeaderSliceError::Content(error) => {
                LaxHeaderSliceError::Content(HeaderError::of_ipv6(error))
            }
        }
    }

    // The fault of a header of version 4.
    pub(crate) fn of_ipv4(error: ipv4::HeaderError) -> Self
        ensures { result ≡ ipv4_header_fault error }
    {
        match error {
            ipv4::HeaderError::UnexpectedVersion { version_number } => {
                HeaderError::UnsupportedIpVersion { version_number }
            }
            ipv4::HeaderError::HeaderLengthSmallerThanHeader { ihl } => {
                HeaderError::Ipv4HeaderLengthSmallerThanHeader { ihl }
            }
        }
    }

    // The fault of a header of version 6.
    pub(crate) fn of_ipv6(error: ipv6::HeaderError) -> Self
        ensures { result ≡ ipv6_header_fault error }
    {
        match error {
            ipv6::HeaderError::UnexpectedVersion { version_number } => {
                HeaderError::UnsupportedIpVersion { version_number }
            }
        }
    }
}
