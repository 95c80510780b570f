//! Why a slice begins with no header.

ghost use Rattle.std.specs.Prelude.{◌≡◌};
ghost use Rattle.ep_base.specs.SliceError.{CanMove, offset_by};
ghost use Rattle.ep_base.specs.declared.err.slice_error.SliceError.TheVariants as slice_error;

use super::LenError;
use std::fmt;
use thiserror::Error;

/// Why no header could be read from a slice: it is too short, or its bytes break the format.
#[derive(Clone, Copy, Debug, PartialEq, Eq, Hash, Error)]
#[error_bound(C: fmt::Display)]
pub enum SliceError<C> {
    /// The slice has too few bytes.
    #[error("{0}")]
    Len(LenError),
    /// The bytes are there, and break the format.
    #[error("{0}")]
    Content(C),
}

impl<C> From<LenError> for SliceError<C> {
    ghost from_gives = { λ error r. r ≡ slice_error.Len error };

    fn from(error: LenError) -> Self {
        SliceError::Len(error)
    }
}

impl<C> SliceError<C> {
    /// The same error, seen from a slice that starts `offset` bytes earlier.
    ///
    /// The layer's offset grows by `offset`, and has to fit a `usize`. A `Content` error has no
    /// offset and stays as it is.
    pub fn add_slice_offset(self, offset: usize) -> Self
        requires { CanMove self offset }
        ensures { result ≡ offset_by self offset }
    {
        match self {
            SliceError::Len(error) => SliceError::Len(error.add_offset(offset)),
            SliceError::Content(error) => SliceError::Content(error),
        }
    }
}
