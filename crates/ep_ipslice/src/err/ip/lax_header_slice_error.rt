//! Why a slice begins with no IP base header.

use super::HeaderError;
use ep_base::err::SliceError;

/// Why no IP base header of either version could be read from a slice, so that nothing of the packet
/// is known.
pub type LaxHeaderSliceError = SliceError<HeaderError>;
