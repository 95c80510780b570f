//! Errors of authentication headers from a reader with a limit.

ghost use Rattle.std.specs.Prelude.{◌≡◌};
ghost use Rattle.ep_ext.specs.Reads.{auth_error};

use super::HeaderError;
use crate::err::io::LimitedReadError;
use ep_base::err::LenError;
use std::io;
use thiserror::Error;

/// Why no authentication header could be read from a reader with a limit.
#[derive(Debug, Drop, Error)]
pub enum HeaderLimitedReadError {
    /// A read failed, or the reader ended within the header.
    #[error("{0}")]
    Io(io::Error),
    /// The header goes beyond the limit.
    #[error("{0}")]
    Len(LenError),
    /// The bytes are there, and are no header.
    #[error("{0}")]
    Content(HeaderError),
}

impl From<LimitedReadError> for HeaderLimitedReadError {
    ghost from_gives = { λ error r. r ≡ auth_error error };

    fn from(error: LimitedReadError) -> Self {
        match error {
            LimitedReadError::Io(error) => HeaderLimitedReadError::Io(error),
            LimitedReadError::Len(error) => HeaderLimitedReadError::Len(error),
        }
    }
}
