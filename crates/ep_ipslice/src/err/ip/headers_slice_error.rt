//! Why a slice begins with no IP headers, extension headers included.

ghost use Rattle.std.specs.Prelude.{◌≡◌};
ghost use Rattle.ep_ipslice.specs.IpFault.{CanMove, headers_fault, offset_by};

use super::{HeadersError, SliceError};
use ep_base::err::LenError;
use thiserror::Error;

/// Why no IP base header with its extension headers could be read from a slice.
#[derive(Clone, Copy, Debug, PartialEq, Eq, Hash, Error)]
pub enum HeadersSliceError {
    /// Fewer bytes are there than a header needs.
    #[error("{0}")]
    Len(LenError),
    /// A header breaks its format.
    #[error("{0}")]
    Content(HeadersError),
}

impl HeadersSliceError {
    /// The fault of headers that have this fault as a packet.
    pub fn of_packet(error: SliceError) -> Self
        ensures { result ≡ headers_fault error }
    {
        match error {
            SliceError::Len(error) => HeadersSliceError::Len(error),
            SliceError::IpHeaders(error) => HeadersSliceError::Content(error),
        }
    }

    /// The same fault of headers that start `offset` bytes further on. A `Content` stays as it is.
    pub fn add_slice_offset(self, offset: usize) -> Self
        requires { CanMove self offset }
        ensures { result ≡ offset_by self offset }
    {
        match self {
            HeadersSliceError::Len(error) => HeadersSliceError::Len(error.add_offset(offset)),
            HeadersSliceError::Content(error) => HeadersSliceError::Content(error),
        }
    }
}
