//! Errors of readers with a limit.

use ep_base::err::LenError;
use std::io;
use thiserror::Error;

/// Why bytes could not be read from a reader with a limit.
#[derive(Debug, Drop, Error)]
pub enum LimitedReadError {
    /// A read failed, or the reader ended before all bytes were there.
    #[error("{0}")]
    Io(io::Error),
    /// The bytes go beyond the limit.
    #[error("{0}")]
    Len(LenError),
}
