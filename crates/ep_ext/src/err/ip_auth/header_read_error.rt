//! Errors of authentication headers from a reader.

use super::HeaderError;
use std::io;
use thiserror::Error;

/// Why no authentication header could be read from a reader.
#[derive(Debug, Drop, Error)]
pub enum HeaderReadError {
    /// A read failed, or the reader ended within the header.
    #[error("{0}")]
    Io(io::Error),
    /// The bytes are there, and are no header.
    #[error("{0}")]
    Content(HeaderError),
}
