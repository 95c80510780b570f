//! Errors of IPv6 extension headers from a reader with a limit.

use super::HeaderError;
use ep_base::err::LenError;
use std::io;
use thiserror::Error;

/// Why no extension headers could be read from a reader with a limit.
#[derive(Debug, Drop, Error)]
pub enum HeaderLimitedReadError {
    /// A read failed, or the reader ended within a header.
    #[error("{0}")]
    Io(io::Error),
    /// A header goes beyond the limit.
    #[error("{0}")]
    Len(LenError),
    /// The bytes are there, and are no headers.
    #[error("{0}")]
    Content(HeaderError),
}
