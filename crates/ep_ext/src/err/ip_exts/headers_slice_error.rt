//! Why a slice begins with no extension headers, of IPv4 or IPv6.

use super::HeaderError;
use ep_base::err::SliceError;

/// Why no extension headers could be read from a slice, of either version.
pub type HeadersSliceError = SliceError<HeaderError>;
