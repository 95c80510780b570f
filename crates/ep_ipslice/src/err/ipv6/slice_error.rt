//! Why a slice begins with no IPv6 packet.

ghost use Rattle.std.specs.Prelude.{◌≡◌};
ghost use Rattle.ep_base.specs.SliceError.{CanMove};
ghost use Rattle.ep_ipslice.specs.Ipv6Fault.{of_exts_fault, of_header_fault};

use ep_base::LenSource;
use ep_base::err::LenError;
use ep_ext::err::ipv6_exts;
use ep_ip::Ipv6Header;
use ep_ip::err::ipv6::{HeaderError, HeaderSliceError};
use thiserror::Error;

/// Why no IPv6 packet could be read from a slice (RFC 8200, sections 3 and 4).
#[derive(Clone, Copy, Debug, PartialEq, Eq, Hash, Error)]
pub enum SliceError {
    /// Fewer bytes are there than the header, its payload length or an extension header needs.
    #[error("{0}")]
    Len(LenError),
    /// The base header breaks its format.
    #[error("{0}")]
    Header(HeaderError),
    /// An extension header breaks its format, or is out of order.
    #[error("{0}")]
    Exts(ipv6_exts::HeaderError),
}

impl SliceError {
    /// The fault of a packet of which the header has this fault.
    pub fn of_header(error: HeaderSliceError) -> Self
        ensures { result ≡ of_header_fault error }
    {
        match error {
            HeaderSliceError::Len(error) => SliceError::Len(error),
            HeaderSliceError::Content(error) => SliceError::Header(error),
        }
    }

    /// The fault of a packet whose extension headers, after the header, have this fault. The length
    /// of their bytes came from this source.
    pub fn of_extensions(error: ipv6_exts::HeaderSliceError, len_source: LenSource) -> Self
        requires { CanMove error 40 }
        ensures { result ≡ of_exts_fault len_source error }
    {
        match error {
            ipv6_exts::HeaderSliceError::Len(error) => SliceError::Len(LenError {
                len_source,
                ..error.add_offset(Ipv6Header::LEN)
            }),
            ipv6_exts::HeaderSliceError::Content(error) => SliceError::Exts(error),
        }
    }
}
