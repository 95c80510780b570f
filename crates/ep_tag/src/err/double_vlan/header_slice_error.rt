//! Why a slice begins with no two VLAN tags.

ghost use Rattle.std.specs.Prelude.{◌≡◌};
ghost use Rattle.ep_base.specs.declared.err.slice_error.SliceError.TheVariants as slice_error;

use super::HeaderError;
use ep_base::err::SliceError;

/// Why no two VLAN tags could be read from a slice: it is shorter than 8 bytes, or the ether type of
/// the outer tag names no other tag.
pub type HeaderSliceError = SliceError<HeaderError>;

impl From<HeaderError> for HeaderSliceError {
    ghost from_gives = { λ error r. r ≡ slice_error.Content error };

    fn from(error: HeaderError) -> Self {
        HeaderSliceError::Content(error)
    }
}
