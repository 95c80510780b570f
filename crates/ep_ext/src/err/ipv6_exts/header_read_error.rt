//! Errors of IPv6 extension headers from a reader.

use super::HeaderError;
use std::io;
use thiserror::Error;

/// Why no extension headers could be read from a reader.
#[derive(Debug, Drop, Error)]
pub enum HeaderReadError {
    /// A read failed, or the reader ended within a header.
    #[error("{0}")]
    Io(io::Error),
    /// The bytes are there, and are no headers.
    #[error("{0}")]
    Content(HeaderError),
}
