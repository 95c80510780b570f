//! Why a slice starts with no TCP header.

ghost use Rattle.std.specs.Prelude.{◌≡◌};
ghost use Rattle.ep_base.specs.declared.err.slice_error.SliceError.TheVariants as slice_error;

use super::HeaderError;
use ep_base::err::SliceError;

/// Why no TCP header could be read from a slice.
pub type HeaderSliceError = SliceError<HeaderError>;

impl From<HeaderError> for HeaderSliceError {
    ghost from_gives = { λ error r. r ≡ slice_error.Content error };

    fn from(error: HeaderError) -> Self {
        HeaderSliceError::Content(error)
    }
}
