//! Why a slice begins with no MACsec header.

ghost use Rattle.std.specs.Prelude.{◌≡◌};
ghost use Rattle.ep_base.specs.declared.err.slice_error.SliceError.TheVariants as slice_error;

use super::HeaderError;
use ep_base::err::SliceError;

/// Why no MACsec header, or none with its payload, could be read from a slice: it is shorter than
/// the header, or than the header and the payload whose length the header states, or its bytes are
/// no such header.
pub type HeaderSliceError = SliceError<HeaderError>;

impl From<HeaderError> for HeaderSliceError {
    ghost from_gives = { λ error r. r ≡ slice_error.Content error };

    fn from(error: HeaderError) -> Self {
        HeaderSliceError::Content(error)
    }
}
